// Queries: commands that only look at a state.
ghost use Rattle.std.specs.Prelude.{◌≡◌, ◌≢◌, List, Err, Ok, IfErr, IfOk, true};
ghost use Rattle.git_objects.specs.Paths.{Bytes};
ghost use Rattle.proj_io.specs.Views.{KeeperView};
ghost use Rattle.proj_words.specs.Views.{query_of};
ghost use Rattle.proj_words.specs.Words.{is_query};
ghost use Rattle.state_items.specs.Changes.{NoPlan};
ghost use Rattle.state_items.specs.Items.{Held};
ghost use Rattle.proj_commands.specs.Cases.{query_case};
ghost use Rattle.proj_commands.specs.Judging.{IsRefused};
ghost use Rattle.proj_commands.specs.Makes.{IsMadeOf, IsState, IsStateOf};
ghost use Rattle.proj_commands.specs.Queries.{IsUsableQuery, sound_of, sound_query};

use crate::auditing::audited;
use crate::subjects::{Subject, path_in, read_subject};
use crate::tagging::tags_upon;
use git_objects::Bytes;
use path_names::Path;
use proj_words::{Outcome, Query};
use repo_ground::State;
use std::alloc::Global;

/// A query that is judged: its filter is sound.
pub enum JudgedQuery {
    Tags(Subject),
    /// At a path.
    Audit(Subject, Path),
}

// Written out, as the drop of a subject is.
impl Drop for JudgedQuery {
    fn drop(self) {
        match self {
            JudgedQuery::Tags(_) => {}
            JudgedQuery::Audit(_, _) => {}
        }
    }
}

/// Judges a query: what it asks for, or the refusal of its filter.
pub(crate) fn judge_query(alloc: Global, query: Query<'_>) -> Result<JudgedQuery, Outcome>
    requires { is_query (query_of query) ≡ true }
    ensures ok { IfOk result (λ j. sound_query (query_of query.entry) ≡ Ok (sound_of j)) }
    ensures usable { IfOk result (λ j. IsUsableQuery (sound_of j)) }
    ensures err { IfErr result (IsRefused (sound_query (query_of query.entry))) }
{
    match query {
        Query::Tags(refname, filter) => {
            let subject = read_subject(alloc, refname, filter)?;
            Ok(JudgedQuery::Tags(subject))
        }
        Query::Audit(refname, filter, path) => {
            let subject = read_subject(alloc, refname, filter)?;
            let path = path_in(alloc, path)?;
            Ok(JudgedQuery::Audit(subject, path))
        }
    }
}

/// The answer of a query upon a state.
pub(crate) fn query_upon(
    alloc: Global,
    query: &JudgedQuery,
    state: &mut State,
) -> Result<Bytes, Outcome>
    requires usable { IsUsableQuery (sound_of query.now) }
    requires state { IsState state.old }
    ensures made { (items : List Bytes) (h : Held) (store : KeeperView) → IsStateOf items h state.old →
        IsMadeOf (query_case h (sound_of query.now)) items h state.old state.new store store NoPlan result }
    ensures early { (result ≢ Err Outcome.WriteFault) × (result ≢ Err Outcome.ReadFault) ×
        (result ≢ Err Outcome.StoreFault) }
{
    match query {
        JudgedQuery::Tags(subject) => tags_upon(alloc, subject, state),
        JudgedQuery::Audit(subject, path) => audited(alloc, subject, path, state),
    }
}
