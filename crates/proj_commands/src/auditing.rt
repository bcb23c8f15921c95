// The certificate of what a filter shows of a ref's commit at a path.
ghost use Rattle.std.specs.Prelude.{◌≢◌, List, Err};
ghost use Rattle.git_objects.specs.Paths.{Bytes};
ghost use Rattle.filter_text.specs.Shapes.{shape};
ghost use Rattle.proj_io.specs.Views.{KeeperView};
ghost use Rattle.state_items.specs.Changes.{NoPlan};
ghost use Rattle.state_items.specs.Items.{Held};
ghost use Rattle.workspace.specs.Laws.{IsUsable};
ghost use Rattle.proj_commands.specs.Cases.{query_case};
ghost use Rattle.proj_commands.specs.Makes.{IsMadeOf, IsState, IsStateOf};
ghost use Rattle.proj_commands.specs.Queries.{AuditOf};

use crate::subjects::Subject;
use git_objects::Bytes;
use path_names::{Path, path_law};
use proj_audit::{audit_text, grown_law, store_law};
use proj_words::Outcome;
use repo_ground::State;
use std::alloc::Global;

/// The certificate of what a subject's filter shows of its ref's commit at a path.
pub(crate) fn audited(
    alloc: Global,
    subject: &Subject,
    path: &Path,
    state: &State,
) -> Result<Bytes, Outcome>
    requires usable { IsUsable (shape subject.now.filter) }
    requires state { IsState state.now }
    ensures made { (items : List Bytes) (h : Held) (store : KeeperView) → IsStateOf items h state.now →
        IsMadeOf (query_case h (AuditOf (shape subject.now.filter) subject.now.refname path.now)) items h
        state.now state.now store store NoPlan result }
    ensures early { (result ≢ Err Outcome.WriteFault) × (result ≢ Err Outcome.ReadFault) ×
        (result ≢ Err Outcome.StoreFault) }
{
    let Some(head) = state.head(&subject.refname) else {
        return Err(Outcome::UnknownRef);
    };
    path_law(path);
    store_law();
    grown_law();
    let text = audit_text(alloc, &state.ground.store, &subject.filter, &head, path)?;
    Ok(Bytes::of(text))
}
