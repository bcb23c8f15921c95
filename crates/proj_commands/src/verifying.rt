// What a certificate proves.
ghost use Rattle.std.specs.Prelude.{◌≡◌, ◌≢◌, ◌↔◌, ◌≤◌, ◌^◌, Err, IfSome, Ok, length};
ghost use Rattle.git_objects.specs.Paths.{Bytes};
ghost use Rattle.filter_text.specs.Shapes.{shape};
ghost use Rattle.fast_import.specs.Waited.{TakesWithin};
ghost use Rattle.proj_io.specs.Counts.{Counts};
ghost use Rattle.workspace.specs.Laws.{IsUsable};
ghost use Rattle.proj_commands.specs.Cases.{VerifyCase};
ghost use Rattle.proj_commands.specs.Intake.{TakesUpTo};
ghost use Rattle.proj_commands.specs.Makes.{IsReportOf};
ghost use Rattle.proj_commands.specs.Verify.{IsVerified};

use crate::lines::leaf_report;
use crate::reading::read_input;
use crate::refusals::certificate_outcome;
use filter_text::Filter;
use git_objects::{Bytes, Name};
use path_names::{Path, path_law};
use proj_audit::{proof_law, verify};
use proj_io::Source;
use proj_words::Outcome;
use std::alloc::Global;

// The line of what a text proves.
fn proved_line(
    alloc: Global,
    commit: &Name,
    filter: &Filter,
    path: &Path,
    text: &[u8],
) -> Result<Bytes, Outcome>
    requires usable { IsUsable (shape filter.now) }
    requires within { length text.now ≤ 2 ^ 29 }
    ensures made { IsReportOf (Ok (VerifyCase (shape filter.now) commit.now.0 path.now text.now)) result }
    ensures early { (result ≢ Err Outcome.WriteFault) × (result ≢ Err Outcome.ReadFault) ×
        (result ≢ Err Outcome.StoreFault) }
{
    match verify(alloc, commit, filter, path, text) {
        Err(fault) => Err(certificate_outcome(fault)),
        Ok(leaf) => {
            let line = leaf_report(alloc, leaf)?;
            Ok(Bytes::of(line))
        }
    }
}

/// The line of what a certificate in the input proves: what the filter shows at the path of the commit of that name.
pub fn verify_text<S: Source>(
    alloc: Global,
    commit: &Name,
    filter: &Filter,
    path: &Path,
    input: &mut S,
) -> Result<Bytes, Outcome>
    requires usable { IsUsable (shape filter.now) }
    ensures made { (all : Bytes) × IfSome (S.left input.old) (λ l. all ≡ l) ×
        IsReportOf (Ok (VerifyCase (shape filter.now) commit.now.0 path.now all)) result }
    ensures lawful { (all : Bytes) → IsVerified (shape filter.now) commit.now.0 path.now all }
    ensures early { (result ≢ Err Outcome.WriteFault) × (result ≢ Err Outcome.StoreFault) }
    ensures taken { TakesUpTo (λ all. 503316481) (S.left input.old) (S.left input.new) }
    ensures within { TakesWithin (S.left input.old) (S.left input.new) }
    ensures told { S.tells input.new ↔ S.tells input.old }
    ensures read { Counts (S.faults input.old) (S.faults input.new) (result ≡ Err Outcome.ReadFault) }
{
    path_law(path);
    proof_law();
    match read_input(alloc, input) {
        Err(outcome) => Err(outcome),
        Ok(text) => proved_line(alloc, commit, filter, path, text.bytes()),
    }
}
