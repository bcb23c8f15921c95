// A part of a tree taken from one place to another.
ghost use Rattle.std.specs.Prelude.{◌≡◌, [], true, false, Some, is_some, IfOk, IfErr};
ghost use Rattle.git_objects.specs.Paths.{Path as PathValue, is_nil};
ghost use Rattle.git_objects.specs.Trees.{Leaf as LeafValue, at};
ghost use Rattle.git_objects.specs.declared.kind.Kind.TheVariants.{Tree};
ghost use Rattle.object_store.specs.Growth.{IsGrownBy};
ghost use Rattle.object_store.specs.Objects.{IsStore, has};
ghost use Rattle.object_store.specs.Unfolding.{flat, StandsFor};
ghost use Rattle.decision_lists.specs.Entries.{cone_of, tail};
ghost use Rattle.decision_lists.specs.Lists.{Solid};
ghost use Rattle.filter_unapply.specs.StoredLeaves.{HasLeaves};
ghost use Rattle.filter_unapply.specs.Hands.{IsFaultOf, IsMadeOf};
ghost use Rattle.filter_unapply.specs.Moved.{IsHeldAt, moved};

use crate::LayFault;
use crate::sifting::fitting;
use git_objects::{Component, Mode, Name};
use object_store::{Store, store_law};
use path_names::Path;
use path_trees::{Found, put_at};
use std::alloc::{AllocError, Global};

// The tree that has at or below `to` what a tree has at or below `from`, where it has nothing else. `none` is the empty
// tree.
pub fn moved(
    alloc: Global,
    store: &mut Store,
    none: Name,
    point: bool,
    from: &[Component],
    to: &[Component],
    part: Name,
) -> Result<Name, LayFault>
    requires part { has Tree store.old part.0 ≡ true }
    requires none { StandsFor store.old none.0 [] }
    requires solid { Solid (cone_of point to.now) }
    requires within { (p : PathValue) (x : LeafValue) → at (flat store.old part.0) p ≡ Some x →
        is_some (tail (cone_of point from.now) p) ≡ true }
    ensures ok { IfOk result (λ n. HasLeaves store.new n.0
        (moved point from.now to.now (flat store.old part.0))) }
    ensures err { IfErr result (IsFaultOf
        (IsMadeOf (λ p x. moved point from.now to.now (flat store.old part.0) p ≡ Some x)) store.new) }
    ensures store { IsGrownBy
        (IsMadeOf (λ p x. moved point from.now to.now (flat store.old part.0) p ≡ Some x))
        store.old store.new }
{
    store_law(store);
    if part == none {
        return Ok(none);
    }
    let Some(found) = held_at(alloc, store, part, point, from)? else {
        return Ok(none);
    };
    if to.is_empty() {
        return Ok(found.name);
    }
    let path = Path::of_parts(alloc, to, &[])?;
    Ok(put_at(alloc, store, none, &path, found)?)
}

// What stands at an address of a tree that has paths, all of them at or below that address.
fn held_at(
    alloc: Global,
    store: &Store,
    part: Name,
    point: bool,
    from: &[Component],
) -> Result<Option<Found>, AllocError>
    requires part { has Tree store.now part.0 ≡ true }
    requires full { is_nil (flat store.now part.0) ≡ false }
    requires within { (p : PathValue) (x : LeafValue) → at (flat store.now part.0) p ≡ Some x →
        is_some (tail (cone_of point from.now) p) ≡ true }
    ensures found { IfOk result (IsHeldAt store.now (flat store.now part.0) point from.now) }
    ensures store { IsStore store.now }
{
    store_law(store);
    if from.is_empty() {
        return Ok(Some(Found {
            mode: Mode::Dir,
            name: part,
        }));
    }
    let path = Path::of_parts(alloc, from, &[])?;
    Ok(fitting(store, part, point, &path))
}
