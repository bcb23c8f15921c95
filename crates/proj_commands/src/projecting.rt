// The projection of a ref's commit.
ghost use Rattle.std.specs.Prelude.{◌≡◌, ◌≢◌, ◌<◌, List, None, Err, Ok, IfErr, IfOk, IsSome};
ghost use Rattle.git_objects.specs.Paths.{Bytes};
ghost use Rattle.commit_graph.specs.Graphs.{place_of};
ghost use Rattle.commit_map.specs.Shown.{kept_at};
ghost use Rattle.filter_apply.specs.Faults.{IsApplyFault};
ghost use Rattle.filter_text.specs.Shapes.{shape};
ghost use Rattle.projection_laws.specs.Filled.{IsFilled};
ghost use Rattle.projection_laws.specs.Projections.{projection_by};
ghost use Rattle.projection_ground.specs.Grounds.{Extends, IsGround, IsShownOf, commits_of};
ghost use Rattle.proj_io.specs.Stops.{OnlyAdds};
ghost use Rattle.proj_io.specs.Uses.{IsUsed};
ghost use Rattle.proj_io.specs.Views.{keeper_view};
ghost use Rattle.repo_ground.specs.Changes.{IsStopOf};
ghost use Rattle.state_items.specs.Changes.{Plan};
ghost use Rattle.state_items.specs.Items.{Held};
ghost use Rattle.workspace.specs.Laws.{IsUsable};
ghost use Rattle.workspace.specs.Workspaces.{shown};
ghost use Rattle.proj_commands.specs.Project.{project_case};
ghost use Rattle.proj_commands.specs.Lines.{name_line};
ghost use Rattle.proj_commands.specs.Filters.{sound};
ghost use Rattle.proj_commands.specs.Makes.{IsMadeOf, IsState, IsStateOf};

use crate::laws::recall_law;
use crate::lines::projection_report;
use crate::subjects::Subject;
use filter_apply::ApplyError;
use filter_text::Filter;
use git_objects::{Bytes, Name, Steps};
use history_ground::project_to;
use path_names::RefName;
use proj_io::{KeepError, Keeper};
use proj_words::Outcome;
use projection_ground::Ground;
use repo_ground::State;
use std::alloc::Global;
use std::marker::Brand;
use std::sync::ledger::{Blank, Ledger};

/// The line with the name of the projection of a ref's commit. What was found out is kept, before the line is written.
pub fn project<K: Keeper>(
    alloc: Global,
    state: &mut State,
    store: &mut K,
    filter: &Filter,
    refname: &RefName,
) -> Result<Bytes, Outcome>
    requires open { K.is_open store.old × (state.old.number ≡ K.number store.old) }
    requires usable { IsUsable (shape filter.now) }
    requires sound { (text : Bytes) × (sound text ≡ Ok (shape filter.now)) }
    requires state { IsState state.old }
    requires fresh { state.old.selected ≡ None }
    ensures made { let seen = keeper_view K.items K.number K.faults in
        (items : List Bytes) (h : Held) → IsStateOf items h state.old → (p : Plan) ×
        IsMadeOf (project_case h (shape filter.now) refname.now) items h
        state.old state.new (seen store.old) (seen store.new) p result ×
        OnlyAdds (K.moment store.old) (K.moment store.new) (K.left_since store.old) (K.left_since store.new)
        (IsStopOf h state.old p (K.items store.old)) }
    ensures early { (result ≢ Err Outcome.WriteFault) × (result ≢ Err Outcome.ReadFault) }
    ensures used { IsUsed K.faults K.is_open K.tells store.old store.new (result ≡ Err Outcome.StoreFault) }
{
    let Some(head) = state.head(refname) else {
        return Err(Outcome::UnknownRef);
    };
    match state.select(filter) {
        Ok(()) => {}
        Err(_) => return Err(Outcome::OutOfMemory),
    }
    // Nobody asks how many commits are projected.
    let line = match shown_line::<Brand>(alloc, &mut state.ground, filter, &head, Blank::new(1)) {
        Ok(line) => line,
        Err(ApplyError::Collision { name }) => return Err(Outcome::Collision { name }),
        Err(ApplyError::OutOfMemory) => return Err(Outcome::OutOfMemory),
    };
    recall_law();
    match state.keep(store, filter) {
        Ok(()) => Ok(line),
        Err(KeepError::Failed) => Err(Outcome::StoreFault),
        Err(KeepError::OutOfMemory) => Err(Outcome::OutOfMemory),
    }
}

// The line with the name of what a commit is projected to.
fn shown_line<L: Ledger>(
    alloc: Global,
    ground: &mut Ground,
    filter: &Filter,
    head: &Name,
    blank: Blank,
) -> Result<Bytes, ApplyError>
    requires blank { (blank.name ≡ L.name) × (blank.parts ≡ L.parts) × (0 < blank.parts) }
    requires usable { IsUsable (shape filter.now) }
    requires ground { IsGround ground.old }
    requires head { IsSome (place_of head.now.0 ground.old.graph) }
    ensures line { IfOk result (λ line. (line ≡ name_line (projection_by ground.old.rule (shown (shape filter.now))
        ground.old.map (commits_of ground.old) head.now.0)) × IsSome (kept_at head.now.0 ground.new.map)) }
    ensures map { IsFilled ground.old.rule (shown (shape filter.now)) (commits_of ground.old) head.now.0
        ground.old.map ground.new.map }
    ensures same { Extends (IsShownOf (shape filter.now) (commits_of ground.old)) ground.old ground.new }
    ensures err { IfErr result (IsApplyFault (IsShownOf (shape filter.now) (commits_of ground.old)) ground.new.store) }
{
    let mut steps = Steps::<L>::new(blank);
    let shown = project_to(alloc, ground, filter, head, &mut steps)?;
    let line = projection_report(alloc, shown)?;
    Ok(Bytes::of(line))
}

/// `project` of a subject, upon a state for which a filter may be selected: its map is put away before.
pub(crate) fn project_upon<K: Keeper>(
    alloc: Global,
    subject: &Subject,
    state: &mut State,
    store: &mut K,
) -> Result<Bytes, Outcome>
    requires open { K.is_open store.old × (state.old.number ≡ K.number store.old) }
    requires usable { IsUsable (shape subject.now.filter) }
    requires sound { (text : Bytes) × (sound text ≡ Ok (shape subject.now.filter)) }
    requires state { IsState state.old }
    ensures made { let seen = keeper_view K.items K.number K.faults in
        (items : List Bytes) (h : Held) → IsStateOf items h state.old → (p : Plan) ×
        IsMadeOf (project_case h (shape subject.now.filter) subject.now.refname) items h
        state.old state.new (seen store.old) (seen store.new) p result ×
        OnlyAdds (K.moment store.old) (K.moment store.new) (K.left_since store.old) (K.left_since store.new)
        (IsStopOf h state.old p (K.items store.old)) }
    ensures early { (result ≢ Err Outcome.WriteFault) × (result ≢ Err Outcome.ReadFault) }
    ensures used { IsUsed K.faults K.is_open K.tells store.old store.new (result ≡ Err Outcome.StoreFault) }
{
    state.put_away();
    project(alloc, state, store, &subject.filter, &subject.refname)
}
