// A pushed tree, taken apart by the routes of a table.
ghost use Rattle.std.specs.Prelude.{◌≡◌, ◌<◌, [], true, Some, length, IfOk, IfErr};
ghost use Rattle.git_objects.specs.Lists.{Each};
ghost use Rattle.git_objects.specs.declared.kind.Kind.TheVariants.{Tree};
ghost use Rattle.object_store.specs.Growth.{IsGrownBy};
ghost use Rattle.object_store.specs.Objects.{has};
ghost use Rattle.object_store.specs.Unfolding.{flat, StandsFor};
ghost use Rattle.decision_lists.specs.Backward.{route_cells};
ghost use Rattle.decision_lists.specs.Cells.{cells, cells_at};
ghost use Rattle.decision_lists.specs.Lists.{Fine, Solid};
ghost use Rattle.decision_lists.specs.Entries.{cone_of};
ghost use Rattle.decision_lists.specs.Operations.{heads};
ghost use Rattle.filter_unapply.specs.StoredLeaves.{HasLeaves};
ghost use Rattle.filter_unapply.specs.Hands.{IsFaultOf, IsIn, IsMadeOf};
ghost use Rattle.filter_unapply.specs.Routed.{IsTakenOrIn, taken, unplaced};

use crate::LayFault;
use crate::moving::moved;
use crate::sifting::{sifted, without};
use decision_lists::{Entry, back_from, way_back};
use git_objects::{Component, Name};
use object_store::{Store, store_law};
use stage_tree::Stage;
use std::alloc::Global;

// The tree of the paths that no route shows.
pub fn unplaced(
    alloc: Global,
    store: &mut Store,
    entries: &[Entry],
    pushed: Name,
) -> Result<Name, LayFault>
    requires pushed { has Tree store.old pushed.0 ≡ true }
    ensures ok { IfOk result (λ n. StandsFor store.new n.0
        (unplaced (cells [] entries.now) (flat store.old pushed.0))) }
    ensures err { IfErr result (IsFaultOf (IsMadeOf (IsIn (flat store.old pushed.0))) store.new) }
    ensures store { IsGrownBy (IsMadeOf (IsIn (flat store.old pushed.0))) store.old store.new }
{
    store_law(store);
    let mut stage = Stage::begin(alloc, store, pushed)?;
    for route in 0..entries.len() {
        let way = way_back(alloc, entries, route)?;
        without(alloc, store, way.as_slice(), pushed, &mut stage)?;
    }
    Ok(stage.finish(store)?)
}

// What comes from one entry, put where it comes from: at or below the entry's base. `none` is the empty tree.
pub fn part_of_route(
    alloc: Global,
    store: &mut Store,
    none: Name,
    entries: &[Entry],
    route: usize,
    pushed: Name,
) -> Result<Name, LayFault>
    requires pushed { has Tree store.old pushed.0 ≡ true }
    requires none { StandsFor store.old none.0 [] }
    requires fine { Each Fine entries.now }
    requires route { route < length entries.now }
    ensures ok { IfOk result (λ n. HasLeaves store.new n.0
        (taken (route_cells entries.now route) (flat store.old pushed.0))) }
    ensures err { IfErr result (IsFaultOf (IsMadeOf
        (IsTakenOrIn (route_cells entries.now route) (flat store.old pushed.0))) store.new) }
    ensures store { IsGrownBy (IsMadeOf
        (IsTakenOrIn (route_cells entries.now route) (flat store.old pushed.0)))
        store.old store.new }
{
    store_law(store);
    let entry: &Entry = &entries[route];
    let Some(target) = &entry.target else {
        return Ok(none);
    };
    part_by(
        alloc,
        store,
        none,
        entry.point,
        entry.base.as_slice(),
        target.as_slice(),
        &entries[..route],
        pushed,
    )
}

// What comes from one cone by this target and from no path of these entries, put where it comes from.
fn part_by(
    alloc: Global,
    store: &mut Store,
    none: Name,
    point: bool,
    base: &[Component],
    target: &[Component],
    holes: &[Entry],
    pushed: Name,
) -> Result<Name, LayFault>
    requires pushed { has Tree store.old pushed.0 ≡ true }
    requires none { StandsFor store.old none.0 [] }
    requires solid { Solid (cone_of point base.now) }
    ensures ok { IfOk result (λ n. HasLeaves store.new n.0 (taken
        (cells_at (cone_of point base.now) (Some target.now) (heads holes.now []) [])
        (flat store.old pushed.0))) }
    ensures err { IfErr result (IsFaultOf (IsMadeOf (IsTakenOrIn
        (cells_at (cone_of point base.now) (Some target.now) (heads holes.now []) [])
        (flat store.old pushed.0))) store.new) }
    ensures store { IsGrownBy (IsMadeOf (IsTakenOrIn
        (cells_at (cone_of point base.now) (Some target.now) (heads holes.now []) [])
        (flat store.old pushed.0))) store.old store.new }
{
    store_law(store);
    let way = back_from(alloc, point, base, target, holes)?;
    let inside = sifted(alloc, store, way.as_slice(), true, pushed)?;
    moved(alloc, store, none, point, target, base, inside)
}
