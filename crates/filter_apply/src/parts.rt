// What one entry of a decision list has of a tree.
ghost use Rattle.std.specs.Prelude.{◌≡◌, ◌+◌, ◌<◌, ◌≤◌, [], true, length, IfOk, IfErr, IfSome};
ghost use Rattle.std.specs.Option.{option_map};
ghost use Rattle.git_objects.specs.Trees.{rests};
ghost use Rattle.git_objects.specs.declared.kind.Kind.TheVariants.{Tree};
ghost use Rattle.object_store.specs.Growth.{IsGrownBy};
ghost use Rattle.object_store.specs.Objects.{IsStore, has, has_child};
ghost use Rattle.object_store.specs.Unfolding.{flat};
ghost use Rattle.path_trees.specs.Standing.{node};
ghost use Rattle.decision_lists.specs.Lists.{Thin};
ghost use Rattle.filter_apply.specs.Faults.{IsApplyFault};
ghost use Rattle.filter_apply.specs.Hands.{IsPartObject};
ghost use Rattle.filter_apply.specs.Parts.{part_in, part_of, rests_of};

use crate::ApplyError;
use crate::holes::without_holes;
use crate::standing::{found_at, whole};
use decision_lists::Entry;
use git_objects::{Component, Name, Steps};
use object_store::Store;
use path_trees::Found;
use std::alloc::Global;
use std::sync::ledger::Ledger;

/// What the entry at `route` has of what stands at `place` in the tree of that name: a leaf for a single path, a
/// directory otherwise, without what the entries before it take. At the entry's base this is what the entry shows of a
/// tree, and at its target what it has of a tree that is shown. None: it has nothing. A step is one body that is read
/// on the way to the place, or to what the entries before it take.
pub fn part<L: Ledger>(
    alloc: Global,
    store: &mut Store,
    entries: &[Entry],
    route: usize,
    root: Name,
    place: &[Component],
    steps: &mut Steps<L>,
) -> Result<Option<Found>, ApplyError>
    requires root { has Tree store.old root.0 ≡ true }
    requires route { route < length entries.now }
    requires thin { Thin [] entries.now }
    ensures ok { IfOk result (λ found. rests_of (option_map (node store.new) found)
        ≡ part_of entries.now route place.now (flat store.old root.0)) }
    ensures held { IfOk result (λ found. IfSome found (λ f. has_child store.new f.mode f.name.0 ≡ true)) }
    ensures err { IfErr result (IsApplyFault (IsPartObject (flat store.old root.0)) store.new) }
    ensures store { IsGrownBy (IsPartObject (flat store.old root.0)) store.old store.new }
    ensures few { route ≡ 0 → steps.new ≤ steps.old + length place.now }
{
    match found_at(store, root, place, steps) {
        None => Ok(None),
        Some(found) => part_in(alloc, store, entries, route, found, steps),
    }
}

// What the entry at `route` has of what was found.
pub fn part_in<L: Ledger>(
    alloc: Global,
    store: &mut Store,
    entries: &[Entry],
    route: usize,
    found: Found,
    steps: &mut Steps<L>,
) -> Result<Option<Found>, ApplyError>
    requires store { IsStore store.old }
    requires held { has_child store.old found.mode found.name.0 ≡ true }
    requires route { route < length entries.now }
    requires thin { Thin [] entries.now }
    ensures ok { IfOk result (λ part. rests_of (option_map (node store.new) part)
        ≡ part_in entries.now route (rests (node store.old found))) }
    ensures held { IfOk result (λ part. IfSome part (λ f. has_child store.new f.mode f.name.0 ≡ true)) }
    ensures err { IfErr result (IsApplyFault (IsPartObject (rests (node store.old found))) store.new) }
    ensures store { IsGrownBy (IsPartObject (rests (node store.old found))) store.old store.new }
    ensures few { route ≡ 0 → steps.new ≡ steps.old }
{
    let entry = &entries[route];
    if found.mode.is_dir() == entry.point {
        return Ok(None);
    }
    if entry.point {
        return Ok(Some(found));
    }
    let name = without_holes(alloc, store, found.name, entries, route, steps)?;
    Ok(whole(store, name))
}
