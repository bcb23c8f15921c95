// A history and the projection of each of its commits.
ghost use Rattle.std.specs.Prelude.{◌≡◌, List, map, reverse, IfErr, IfOk, IsSome};
ghost use Rattle.git_objects.specs.Parts.{name_bytes};
ghost use Rattle.git_objects.specs.Paths.{Bytes};
ghost use Rattle.git_objects.specs.Snapshots.{ancestors, snapshot_name};
ghost use Rattle.commit_graph.specs.Graphs.{place_of};
ghost use Rattle.filter_text.specs.Shapes.{shape};
ghost use Rattle.projection_ground.specs.Grounds.{IsGround, commits_of};
ghost use Rattle.state_items.specs.Items.{Held};
ghost use Rattle.workspace.specs.Laws.{IsUsable};
ghost use Rattle.proj_commands.specs.Hands.{seen_hand};
ghost use Rattle.proj_commands.specs.Makes.{IsState, IsStateOf};
ghost use Rattle.read_cli.specs.Looks.{at_head, IsReport, IsUnreported};
ghost use Rattle.read_cli.specs.Outputs.{log_output};

use crate::reports::log_lines;
use git_objects::{Bytes, Name};
use history_ground::shown_before;
use proj_cli::Outcome;
use proj_commands::{Subject, apply_outcome};
use projection_ground::Ground;
use repo_ground::State;
use std::alloc::{AllocError, Global};

/// A commit and its ancestors, parents first.
pub fn history_of(alloc: Global, ground: &Ground, head: &Name) -> Result<Vec<Name>, AllocError>
    requires ground { IsGround ground.now }
    requires head { IsSome (place_of head.now.0 ground.now.graph) }
    ensures { IfOk result (λ names. map name_bytes names.items
        ≡ map snapshot_name (reverse (ancestors (commits_of ground.now) head.now.0))) }
{
    let Some(place) = ground.graph.index_of(head) else {
        unreachable!();
    };
    let places = ground.graph.ancestors(place)?;
    let mut names = Vec::with_capacity(alloc, places.len())?;
    for place in &places {
        names.push(ground.graph.name(*place))?;
    }
    Ok(names)
}

/// The lines of the commits of a ref's history with their projections.
pub fn log(alloc: Global, subject: &Subject, state: &mut State) -> Result<Bytes, Outcome>
    requires usable { IsUsable (shape subject.now.filter) }
    requires state { IsState state.old }
    ensures report { (items : List Bytes) (h : Held) → IsStateOf items h state.old →
        IsReport state.old.basis.store
        (at_head subject.now.refname h (seen_hand h (shape subject.now.filter)))
        (at_head subject.now.refname h (log_output h (shape subject.now.filter))) result }
    ensures early { IfErr result IsUnreported }
{
    let Some(head) = state.head(&subject.refname) else {
        return Err(Outcome::UnknownRef);
    };
    let Ok(commits) = history_of(alloc, &state.ground, &head) else {
        return Err(Outcome::OutOfMemory);
    };
    let shown = match shown_before(alloc, &mut state.ground, &subject.filter, &head, &commits) {
        Err(error) => return Err(apply_outcome(error)),
        Ok(shown) => shown,
    };
    match log_lines(alloc, &commits, &shown) {
        Err(_) => Err(Outcome::OutOfMemory),
        Ok(report) => Ok(Bytes::of(report)),
    }
}
