// A tree laid back through a table.
ghost use Rattle.std.specs.Prelude.{◌≡◌, [], true, false, Some, None, IfOk, IfErr};
ghost use Rattle.git_objects.specs.Lists.{Each};
ghost use Rattle.git_objects.specs.Paths.{Path as PathValue};
ghost use Rattle.git_objects.specs.Trees.{Leaf as LeafValue, at};
ghost use Rattle.git_objects.specs.declared.kind.Kind.TheVariants.{Tree};
ghost use Rattle.object_store.specs.Growth.{IsGrownBy};
ghost use Rattle.object_store.specs.Objects.{has};
ghost use Rattle.object_store.specs.Unfolding.{StandsFor, flat};
ghost use Rattle.filter_text.specs.Shapes.{shape};
ghost use Rattle.filter_routes.specs.Origins.{lens_of};
ghost use Rattle.filter_unapply.specs.StoredLeaves.{HasLeaves};
ghost use Rattle.filter_unapply.specs.Hands.{IsFaultBy, IsFaultOf, IsLaidMade, IsMadeOf, IsPutFault};
ghost use Rattle.filter_unapply.specs.Laying.{laid_through};
ghost use Rattle.filter_unapply.specs.Parts.{AreApart, AreParts, IsAmong, any_at, with_parts};
ghost use Rattle.filter_unapply.specs.Stored.{IsLaidTree};
ghost use Rattle.filter_unapply.specs.Routed.{IsOfBoth, taken};
ghost use Rattle.filter_unapply.specs.Sifted.{sifted};
ghost use Rattle.decision_lists.specs.Cells.{cells};
ghost use Rattle.decision_lists.specs.Lists.{Fine};

use crate::LayFault;
use crate::below::{first_path, laid_below};
use crate::blocking::first_block;
use crate::parts::{joined, parts_of};
use crate::routing::unplaced;
use crate::sifting::{empty, sifted};
use decision_lists::Entry;
use filter_routes::{Table, table_law};
use filter_text::Filter;
use git_objects::Name;
use object_store::{Store, store_law};
use std::alloc::Global;

/// Lays the tree `pushed` into `base` through a filter: in the place of all that the filter shows of `base`. Whole
/// directories are taken by their names, and only those on the way to the filter's places, and those in which something
/// of both stands, are made anew. Of a filter `:/place` it is only the directories on the way to the place.
pub fn laid(
    alloc: Global,
    store: &mut Store,
    table: &Table,
    base: Name,
    pushed: Name,
) -> Result<Name, LayFault>
    requires base { has Tree store.old base.0 ≡ true }
    requires pushed { has Tree store.old pushed.0 ≡ true }
    ensures ok { IfOk result (IsLaidTree store.new (laid_through (lens_of (shape table.now.filter))
        (flat store.old base.0) (flat store.old pushed.0))) }
    ensures err { IfErr result (IsFaultBy (laid_through (lens_of (shape table.now.filter))
        (flat store.old base.0) (flat store.old pushed.0))
        (IsLaidMade (shape table.now.filter) (flat store.old base.0) (flat store.old pushed.0))
        store.new) }
    ensures store { IsGrownBy
        (IsLaidMade (shape table.now.filter) (flat store.old base.0) (flat store.old pushed.0))
        store.old store.new }
{
    store_law(store);
    table_law(table);
    if let Filter::Sub(place) = table.filter() {
        return laid_below(alloc, store, place, base, pushed);
    }
    let entries = table.entries();
    let rest = unplaced(alloc, store, entries, pushed)?;
    if let Some(path) = first_path(alloc, store, rest)? {
        return Err(LayFault::NotHeld { path });
    }
    let (kept, parts) = taken_apart(alloc, store, entries, base, pushed)?;
    put_together(alloc, store, kept, parts.as_slice())
}

// What a list shows nothing of in a tree, and the parts of a pushed tree that take the place of the rest.
fn taken_apart(
    alloc: Global,
    store: &mut Store,
    entries: &[Entry],
    base: Name,
    pushed: Name,
) -> Result<(Name, Vec<Name>), LayFault>
    requires base { has Tree store.old base.0 ≡ true }
    requires pushed { has Tree store.old pushed.0 ≡ true }
    requires fine { Each Fine entries.now }
    ensures ok { IfOk result (λ r.
        StandsFor store.new r.0.0 (sifted false entries.now (flat store.old base.0))
        × AreParts store.new r.1.items (taken (cells [] entries.now) (flat store.old pushed.0))) }
    ensures err { IfErr result (IsFaultOf (IsMadeOf
        (IsOfBoth entries.now (flat store.old base.0) (flat store.old pushed.0))) store.new) }
    ensures store { IsGrownBy (IsMadeOf
        (IsOfBoth entries.now (flat store.old base.0) (flat store.old pushed.0)))
        store.old store.new }
{
    store_law(store);
    let kept = sifted(alloc, store, entries, false, base)?;
    let none = empty(store)?;
    let parts = parts_of(alloc, store, none, entries, pushed)?;
    Ok((kept, parts))
}

// The tree with the leaves of a tree and of parts, or the first block of them.
fn put_together(
    alloc: Global,
    store: &mut Store,
    kept: Name,
    parts: &[Name],
) -> Result<Name, LayFault>
    requires kept { has Tree store.old kept.0 ≡ true }
    requires parts { Each (λ n. has Tree store.old n.0 ≡ true) parts.now }
    requires apart { AreApart store.old parts.now }
    requires other { (p : PathValue) (x : LeafValue) → at (flat store.old kept.0) p ≡ Some x →
        any_at store.old parts.now p ≡ None }
    ensures ok { IfOk result (λ n. HasLeaves store.new n.0 (with_parts store.old kept parts.now)) }
    ensures err { IfErr result (IsPutFault store.old kept parts.now store.new) }
    ensures store { IsGrownBy (IsMadeOf (IsAmong store.old kept parts.now)) store.old store.new }
{
    store_law(store);
    if let Some(name) = joined(alloc, store, kept, parts)? {
        return Ok(name);
    }
    match first_block(alloc, store, kept, parts)? {
        Some((path, by)) => Err(LayFault::Blocked { path, by }),
        None => unreachable!(),
    }
}
