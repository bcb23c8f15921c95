// Projections from scratch, with the commits that they are.
ghost use Rattle.std.specs.Prelude.{◌≡◌, ◌<◌, ◌++◌, ◌∷◌, [], length};
ghost use Rattle.std.specs.Prelude.{None, Some, IfErr, IfOk, IsSome, OnOk};
ghost use Rattle.git_objects.specs.Names.{name};
ghost use Rattle.git_objects.specs.declared.kind.Kind.TheVariants.{Commit};
ghost use Rattle.commit_graph.specs.Graphs.{place_of};
ghost use Rattle.commit_map.specs.Shown.{kept_at, shown_value};
ghost use Rattle.filter_apply.specs.Faults.{IsApplyFault};
ghost use Rattle.filter_text.specs.Shapes.{shape};
ghost use Rattle.object_store.specs.Growth.{IsOnly};
ghost use Rattle.object_store.specs.Objects.{find_named};
ghost use Rattle.workspace.specs.Laws.{IsUsable};
ghost use Rattle.workspace.specs.Workspaces.{shown};
ghost use Rattle.projection_laws.specs.Projections.{projection};
ghost use Rattle.projection_laws.specs.StoredGraphs.{name_at};
ghost use Rattle.projection_ground.specs.Asked.{IsAskedFor};
ghost use Rattle.projection_ground.specs.Grounds.{Extends, IsGround, commits_of};
ghost use Rattle.history_ground.specs.Heads.{IsSeenObject};
ghost use Rattle.history_ground.specs.Making.{IsFit, IsTurnObject};
ghost use Rattle.projection_ground.specs.TrueMaps.{AreHeld, IsTrueMap};
ghost use Rattle.history_ground.specs.TrueWalks.{IsMade, IsTrueStep, IsTrueWalk};

use crate::histories::{keep, put_commit};
use crate::walking::wait;
use commit_map::Shown;
use filter_apply::ApplyError;
use filter_text::Filter;
use git_objects::Name;
use projection_ground::{Asked, Ground, Turn, take_turn};
use std::alloc::Global;

// Puts a commit of its own into the store, and keeps it as what the commit at the place is projected to.
fn keep_put(ground: &mut Ground, place: u32, shown: Shown, body: Vec<u8>) -> Result<(), ApplyError>
    requires ground { IsGround ground.old }
    requires place { place < length ground.old.graph }
    requires lacked { kept_at (name_at ground.old.graph place) ground.old.map ≡ None }
    requires fit { IsFit ground.old.store shown.commit.0 body.items }
    ensures ok { OnOk result (ground.new.map
        ≡ ground.old.map ++ (name_at ground.old.graph place, Some (shown_value shown)) ∷ []) }
    ensures there { OnOk result (find_named ground.new.store (name Commit body.items)
        ≡ Some (record { kind = Commit; body = body.items })) }
    ensures same { Extends (IsOnly Commit body.items) ground.old ground.new }
    ensures err { IfErr result (λ e.
        IsApplyFault (IsOnly Commit body.items) ground.new.store e × (ground.new.map ≡ ground.old.map)) }
{
    put_commit(&mut ground.store, body)?;
    keep(ground, place, Some(shown))
}

// Projects the commit at a place and puts what it becomes into the store, or gives the place of a commit that has to be
// projected first.
fn step(
    alloc: Global,
    ground: &mut Ground,
    filter: &Filter,
    asked: &mut Asked,
    place: u32,
) -> Result<Option<u32>, ApplyError>
    requires usable { IsUsable (shape filter.now) }
    requires ground { IsGround ground.old }
    requires place { place < length ground.old.graph }
    requires lacked { kept_at (name_at ground.old.graph place) ground.old.map ≡ None }
    requires held { AreHeld ground.old.store ground.old.map }
    requires asked { IsAskedFor (shape filter.now) ground.old asked.old }
    ensures same { Extends (IsTurnObject (shape filter.now) ground.old place []) ground.old ground.new }
    ensures asked { IsAskedFor (shape filter.now) ground.new asked.new }
    ensures step { IsTrueStep (shape filter.now) place ground.old ground.new result }
    ensures err { IfErr result (IsApplyFault (IsTurnObject (shape filter.now) ground.old place []) ground.new.store) }
{
    match take_turn(alloc, ground, filter, asked, place)? {
        Turn::Below(below) => Ok(Some(below)),
        Turn::Kept(shown) => keep(ground, place, shown).and(Ok(None)),
        Turn::New { shown, body } => keep_put(ground, place, shown, body).and(Ok(None)),
    }
}

// Projects the commit at a place, and before it the commits that it needs, and puts what they become into the store.
fn walk(
    alloc: Global,
    ground: &mut Ground,
    filter: &Filter,
    asked: &mut Asked,
    head: u32,
) -> Result<(), ApplyError>
    requires usable { IsUsable (shape filter.now) }
    requires ground { IsGround ground.old }
    requires place { head < length ground.old.graph }
    requires lacked { kept_at (name_at ground.old.graph head) ground.old.map ≡ None }
    requires map { IsTrueMap ground.old.store (commits_of ground.old) ground.old.rule (shape filter.now)
        ground.old.map }
    requires asked { IsAskedFor (shape filter.now) ground.old asked.old }
    ensures walked { IsTrueWalk (shape filter.now) (name_at ground.old.graph head) ground.old ground.new }
    ensures asked { IsAskedFor (shape filter.now) ground.new asked.new }
    ensures ok { OnOk result (IsSome (kept_at (name_at ground.old.graph head) ground.new.map)) }
    ensures err { IfErr result
        (IsApplyFault (IsSeenObject (shape filter.now) ground.old (name_at ground.old.graph head)) ground.new.store) }
{
    let mut waiting = Vec::new(alloc);
    wait(&mut waiting, &[head])?;
    while let Some(place) = waiting.pop() {
        if let Some(below) = step(alloc, ground, filter, asked, place)? {
            wait(&mut waiting, &[place, below])?;
        }
    }
    Ok(())
}

// What the commit of that name is projected to by a filter and the ground's rule from scratch, where the ground's map
// has only such projections. What is found out on the way is kept there, and put into the store.
pub(crate) fn made_to(
    alloc: Global,
    ground: &mut Ground,
    filter: &Filter,
    asked: &mut Asked,
    head: &Name,
) -> Result<Option<Shown>, ApplyError>
    requires usable { IsUsable (shape filter.now) }
    requires ground { IsGround ground.old }
    requires head { IsSome (place_of head.now.0 ground.old.graph) }
    requires map { IsTrueMap ground.old.store (commits_of ground.old) ground.old.rule (shape filter.now)
        ground.old.map }
    requires asked { IsAskedFor (shape filter.now) ground.old asked.old }
    ensures ok { IfOk result (λ o. IsMade ground.new.store
        (projection ground.old.rule (shown (shape filter.now)) (commits_of ground.old) head.now.0) o) }
    ensures walked { IsTrueWalk (shape filter.now) head.now.0 ground.old ground.new }
    ensures asked { IsAskedFor (shape filter.now) ground.new asked.new }
    ensures err { IfErr result (IsApplyFault (IsSeenObject (shape filter.now) ground.old head.now.0) ground.new.store) }
{
    if let Some(kept) = ground.map.get(head) {
        return Ok(kept);
    }
    let Some(place) = ground.graph.index_of(head) else {
        unreachable!()
    };
    walk(alloc, ground, filter, asked, place)?;
    match ground.map.get(head) {
        None => unreachable!(),
        Some(kept) => Ok(kept),
    }
}
