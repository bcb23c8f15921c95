// Projections of a commit, and of the commits that it needs.
ghost use Rattle.std.specs.Prelude.{◌≡◌, ◌+◌, ◌<◌, ◌≤◌, ◌++◌, ◌∷◌, [], None, length};
ghost use Rattle.std.specs.Prelude.{IfErr, IfOk, IsSome, OnOk, OnErr};
ghost use Rattle.std.specs.Option.{option_map};
ghost use Rattle.git_objects.specs.Snapshots.{ancestors};
ghost use Rattle.commit_graph.specs.Graphs.{place_of};
ghost use Rattle.commit_map.specs.Shown.{kept_at, shown_value};
ghost use Rattle.filter_text.specs.Shapes.{shape};
ghost use Rattle.filter_apply.specs.Faults.{IsApplyFault};
ghost use Rattle.filter_apply.specs.declared.fault.ApplyError.TheVariants.{OutOfMemory};
ghost use Rattle.workspace.specs.Laws.{IsUsable};
ghost use Rattle.workspace.specs.Workspaces.{shown};
ghost use Rattle.projection_laws.specs.Filled.{IsFilled, lacking};
ghost use Rattle.projection_laws.specs.Projections.{projection_by};
ghost use Rattle.projection_laws.specs.StoredGraphs.{name_at};
ghost use Rattle.projection_ground.specs.Asked.{IsAskedFor};
ghost use Rattle.projection_ground.specs.Grounds.{Extends, IsGround, IsShownOf, commits_of};
ghost use Rattle.history_ground.specs.Walks.{IsStep, IsWalked};

use commit_map::Shown;
use filter_apply::ApplyError;
use filter_text::Filter;
use git_objects::{Name, Steps};
use projection_ground::{Asked, Ground, Turn, take_turn};
use std::alloc::{AllocError, Global};
use std::sync::ledger::Ledger;

// Keeps what the commit at a place is projected to, with a step.
fn settle<L: Ledger>(
    ground: &mut Ground,
    place: u32,
    shown: Option<Shown>,
    steps: &mut Steps<L>,
) -> Result<(), ApplyError>
    requires place { place < length ground.old.graph }
    requires lacked { kept_at (name_at ground.old.graph place) ground.old.map ≡ None }
    ensures ok { OnOk result (ground.new ≡ record ground.old {
      map
          = ground.old.map ++ (name_at ground.old.graph place, option_map shown_value shown) ∷ [];
    }) }
    ensures step { OnOk result (steps.new ≡ steps.old + 1) }
    ensures err { OnErr result ((ground.new ≡ ground.old) × (steps.new ≡ steps.old)) }
    ensures fault { IfErr result (λ e. e ≡ OutOfMemory) }
{
    ground.map.set(ground.graph.name(place), shown)?;
    steps.tick();
    Ok(())
}

// Projects the commit at a place, or gives the place of a commit that has to be projected first.
fn step<L: Ledger>(
    alloc: Global,
    ground: &mut Ground,
    filter: &Filter,
    asked: &mut Asked,
    place: u32,
    steps: &mut Steps<L>,
) -> Result<Option<u32>, ApplyError>
    requires usable { IsUsable (shape filter.now) }
    requires ground { IsGround ground.old }
    requires place { place < length ground.old.graph }
    requires lacked { kept_at (name_at ground.old.graph place) ground.old.map ≡ None }
    requires asked { IsAskedFor (shape filter.now) ground.old asked.old }
    ensures same { Extends (IsShownOf (shape filter.now) (commits_of ground.old)) ground.old ground.new }
    ensures asked { IsAskedFor (shape filter.now) ground.new asked.new }
    ensures err { IfErr result (IsApplyFault (IsShownOf (shape filter.now) (commits_of ground.old)) ground.new.store) }
    ensures step { IsStep (shape filter.now) place ground.old ground.new steps.old steps.new result }
{
    match take_turn(alloc, ground, filter, asked, place)? {
        Turn::Below(below) => Ok(Some(below)),
        Turn::Kept(shown) => settle(ground, place, shown, steps).and(Ok(None)),
        Turn::New { shown, .. } => settle(ground, place, Some(shown), steps).and(Ok(None)),
    }
}

// Puts places behind those that wait.
pub(crate) fn wait(waiting: &mut Vec<u32>, places: &[u32]) -> Result<(), AllocError>
    ensures { OnOk result (waiting.new.items ≡ waiting.old.items ++ places.now) }
{
    waiting.extend_from_slice(places)?;
    Ok(())
}

// Projects the commit at a place, and before it the commits that it needs.
fn walk<L: Ledger>(
    alloc: Global,
    ground: &mut Ground,
    filter: &Filter,
    asked: &mut Asked,
    head: u32,
    steps: &mut Steps<L>,
) -> Result<(), ApplyError>
    requires usable { IsUsable (shape filter.now) }
    requires ground { IsGround ground.old }
    requires place { head < length ground.old.graph }
    requires lacked { kept_at (name_at ground.old.graph head) ground.old.map ≡ None }
    requires asked { IsAskedFor (shape filter.now) ground.old asked.old }
    ensures walked { IsWalked (shape filter.now) (name_at ground.old.graph head)
        ground.old ground.new steps.old steps.new }
    ensures ok { OnOk result (IsSome (kept_at (name_at ground.old.graph head) ground.new.map)) }
    ensures err { IfErr result (IsApplyFault (IsShownOf (shape filter.now) (commits_of ground.old)) ground.new.store) }
{
    let mut waiting = Vec::new(alloc);
    wait(&mut waiting, &[head])?;
    while let Some(place) = waiting.pop() {
        if let Some(below) = step(alloc, ground, filter, asked, place, steps)? {
            wait(&mut waiting, &[place, below])?;
        }
    }
    Ok(())
}

/// What the commit of that name is projected to by a filter and the ground's rule, or that nothing is shown of it and
/// of its ancestors; with the projections that the ground keeps taken as they are. The commit is in the graph. What is
/// found out on the way is kept: of the commit, and of its ancestors down to those of which something was kept.
/// Trees that are shown are put into the store, commits aren't. A step is one commit that is projected.
pub fn project_to<L: Ledger>(
    alloc: Global,
    ground: &mut Ground,
    filter: &Filter,
    head: &Name,
    steps: &mut Steps<L>,
) -> Result<Option<Shown>, ApplyError>
    requires usable { IsUsable (shape filter.now) }
    requires ground { IsGround ground.old }
    requires head { IsSome (place_of head.now.0 ground.old.graph) }
    ensures ok { IfOk result (λ o. option_map shown_value o
        ≡ projection_by ground.old.rule (shown (shape filter.now)) ground.old.map
        (commits_of ground.old) head.now.0) }
    ensures map { IsFilled ground.old.rule (shown (shape filter.now)) (commits_of ground.old) head.now.0
        ground.old.map ground.new.map }
    ensures kept { OnOk result (IsSome (kept_at head.now.0 ground.new.map)) }
    ensures same { Extends (IsShownOf (shape filter.now) (commits_of ground.old)) ground.old ground.new }
    ensures err { IfErr result (IsApplyFault (IsShownOf (shape filter.now) (commits_of ground.old)) ground.new.store) }
    ensures counted { steps.new + length ground.old.map ≡ steps.old + length ground.new.map }
    ensures few { steps.new ≤ steps.old + lacking ground.old.map (ancestors (commits_of ground.old) head.now.0) }
{
    if let Some(kept) = ground.map.get(head) {
        return Ok(kept);
    }
    let Some(place) = ground.graph.index_of(head) else {
        unreachable!()
    };
    let root = ground.graph.tree(place);
    let mut asked = Asked::new(alloc, ground, filter, root)?;
    walk(alloc, ground, filter, &mut asked, place, steps)?;
    match ground.map.get(head) {
        None => unreachable!(),
        Some(kept) => Ok(kept),
    }
}
