// Checking a certificate.
ghost use Rattle.std.specs.Prelude.{◌≡◌, IfErr, IfOk, Ok};
ghost use Rattle.std.specs.Option.{option_map};
ghost use Rattle.filter_text.specs.Shapes.{shape};
ghost use Rattle.workspace.specs.Laws.{IsUsable};
ghost use Rattle.proj_audit.specs.Certificates.{verify};
ghost use Rattle.proj_audit.specs.Faults.{IsFault};
ghost use Rattle.proj_audit.specs.Steps.{found_value};

use crate::objects::Stop;
use crate::reading::{TextFault, read};
use crate::showing::commit_leaf;
use filter_text::Filter;
use git_objects::Name;
use path_names::Path;
use path_trees::Leaf;
use std::alloc::Global;

/// Why a text proves nothing.
#[derive(Clone, Copy, Debug, PartialEq, Eq)]
pub enum VerifyFault {
    /// The text is no certificate: the place in bytes of the first line that doesn't fit, or of the first line of an
    /// object whose bytes or last LF are missing.
    Syntax { at: u64 },
    /// The name of the first needed object that isn't in the text under its name, or isn't canonical.
    NotProved { name: Name },
    /// There is no memory.
    OutOfMemory,
}

/// What the filter shows of the commit of that name at a path, by a certificate: the leaf, or None where nothing is
/// shown there. A text with a fault proves nothing, whatever stands before the fault. Time is linear in the text; each
/// object takes memory for its name and its place, and its bytes stay where they are.
pub fn verify(
    alloc: Global,
    commit: &Name,
    filter: &Filter,
    path: &Path,
    text: &[u8],
) -> Result<Option<Leaf>, VerifyFault>
    requires usable { IsUsable (shape filter.now) }
    ensures leaf { IfOk result
        (λ x. verify commit.now.0 (shape filter.now) path.now text.now ≡ Ok (option_map found_value x)) }
    ensures fault { IfErr result (IsFault (verify commit.now.0 (shape filter.now) path.now text.now)) }
{
    let certificate = match read(alloc, text) {
        Ok(certificate) => certificate,
        Err(TextFault::Syntax { at }) => return Err(VerifyFault::Syntax { at }),
        Err(TextFault::OutOfMemory) => return Err(VerifyFault::OutOfMemory),
    };
    let mut used = Vec::new(alloc);
    match commit_leaf(alloc, &certificate, filter, path, commit, &mut used) {
        Ok(leaf) => Ok(leaf),
        Err(Stop::NotThere(name)) => Err(VerifyFault::NotProved { name }),
        Err(Stop::OutOfMemory) => Err(VerifyFault::OutOfMemory),
    }
}
