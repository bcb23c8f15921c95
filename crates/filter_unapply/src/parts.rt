// A pushed tree as parts, and the parts put together with what is kept.
ghost use Rattle.std.specs.Prelude.{◌≡◌, ◌<◌, ◌⊎◌, [], ◌∷◌, true, Some, None, length, IfOk};
ghost use Rattle.std.specs.Prelude.{IfErr, OnOk};
ghost use Rattle.git_objects.specs.Lists.{Each};
ghost use Rattle.git_objects.specs.Paths.{Path as PathValue};
ghost use Rattle.git_objects.specs.Trees.{Leaf as LeafValue, at};
ghost use Rattle.git_objects.specs.declared.kind.Kind.TheVariants.{Tree};
ghost use Rattle.object_store.specs.Growth.{IsGrownBy};
ghost use Rattle.object_store.specs.Objects.{has};
ghost use Rattle.object_store.specs.Unfolding.{flat, StandsFor};
ghost use Rattle.decision_lists.specs.Cells.{cells};
ghost use Rattle.decision_lists.specs.Lists.{Fine};
ghost use Rattle.filter_unapply.specs.Hands.{IsFaultOf, IsIn, IsMadeOf};
ghost use Rattle.filter_unapply.specs.Parts.{AreApart, AreParts, IsAdded, IsAmong, IsOfAny, IsPair, IsWhole, any_at};
ghost use Rattle.filter_unapply.specs.Routed.{IsTakenOrIn, taken};

use crate::LayFault;
use crate::routing::part_of_route;
use decision_lists::Entry;
use git_objects::Name;
use object_store::{Store, store_law};
use path_trees::{TreeFault, first_clash, join_apart};
use std::alloc::{AllocError, Global};

// What comes from each entry of a list, put where it comes from; an entry that nothing comes from has no part. `none`
// is the empty tree.
pub fn parts_of(
    alloc: Global,
    store: &mut Store,
    none: Name,
    entries: &[Entry],
    pushed: Name,
) -> Result<Vec<Name>, LayFault>
    requires pushed { has Tree store.old pushed.0 ≡ true }
    requires none { StandsFor store.old none.0 [] }
    requires fine { Each Fine entries.now }
    ensures ok { IfOk result (λ v. AreParts store.new v.items
        (taken (cells [] entries.now) (flat store.old pushed.0))) }
    ensures err { IfErr result (IsFaultOf (IsMadeOf
        (IsTakenOrIn (cells [] entries.now) (flat store.old pushed.0))) store.new) }
    ensures store { IsGrownBy (IsMadeOf
        (IsTakenOrIn (cells [] entries.now) (flat store.old pushed.0))) store.old store.new }
{
    store_law(store);
    let mut parts = Vec::new(alloc);
    for route in 0..entries.len() {
        let part = part_of_route(alloc, store, none, entries, route, pushed)?;
        add(&mut parts, none, part)?;
    }
    Ok(parts)
}

// Adds a part, unless it is the empty tree.
fn add(parts: &mut Vec<Name>, none: Name, part: Name) -> Result<(), AllocError>
    ensures { OnOk result (IsAdded none part parts.old.items parts.new.items) }
{
    if part == none {
        return Ok(());
    }
    parts.push(part)?;
    Ok(())
}

// The tree with the leaves of a tree and of parts. None: two of their paths are comparable.
pub fn joined(
    alloc: Global,
    store: &mut Store,
    kept: Name,
    parts: &[Name],
) -> Result<Option<Name>, LayFault>
    requires kept { has Tree store.old kept.0 ≡ true }
    requires parts { Each (λ n. has Tree store.old n.0 ≡ true) parts.now }
    requires apart { AreApart store.old parts.now }
    requires other { (p : PathValue) (x : LeafValue) → at (flat store.old kept.0) p ≡ Some x →
        any_at store.old parts.now p ≡ None }
    ensures ok { IfOk result (IsWhole store.old (kept ∷ parts.now) store.new) }
    ensures err { IfErr result (IsFaultOf
        (IsMadeOf (IsAmong store.old kept parts.now)) store.new) }
    ensures store { IsGrownBy (IsMadeOf (IsAmong store.old kept parts.now)) store.old store.new }
{
    store_law(store);
    if parts.is_empty() {
        return Ok(Some(kept));
    }
    let Some(whole) = whole(alloc, store, parts)? else {
        return Ok(None);
    };
    pair(alloc, store, kept, whole)
}

// The tree with the leaves of parts. None: two of their paths are comparable. The two halves are joined when each is
// made, so that every part takes part in as few joins as their number can be halved.
fn whole(alloc: Global, store: &mut Store, parts: &[Name]) -> Result<Option<Name>, LayFault>
    requires some { 0 < length parts.now }
    requires parts { Each (λ n. has Tree store.old n.0 ≡ true) parts.now }
    requires apart { AreApart store.old parts.now }
    ensures ok { IfOk result (IsWhole store.old parts.now store.new) }
    ensures err { IfErr result (IsFaultOf (IsMadeOf (IsOfAny store.old parts.now)) store.new) }
    ensures store { IsGrownBy (IsMadeOf (IsOfAny store.old parts.now)) store.old store.new }
{
    store_law(store);
    if parts.len() == 1 {
        return Ok(Some(parts[0]));
    }
    let middle = parts.len() / 2;
    let Some(left) = whole(alloc, store, &parts[..middle])? else {
        return Ok(None);
    };
    let Some(right) = whole(alloc, store, &parts[middle..])? else {
        return Ok(None);
    };
    pair(alloc, store, left, right)
}

// The tree with the leaves of two trees. None: a path of the one is comparable with one of the other.
fn pair(alloc: Global, store: &mut Store, a: Name, b: Name) -> Result<Option<Name>, LayFault>
    requires first { has Tree store.old a.0 ≡ true }
    requires second { has Tree store.old b.0 ≡ true }
    ensures ok { IfOk result (IsPair (flat store.old a.0) (flat store.old b.0) store.new) }
    ensures err { IfErr result (IsFaultOf (IsMadeOf
        (λ p x. IsIn (flat store.old a.0) p x ⊎ IsIn (flat store.old b.0) p x)) store.new) }
    ensures store { IsGrownBy (IsMadeOf
        (λ p x. IsIn (flat store.old a.0) p x ⊎ IsIn (flat store.old b.0) p x))
        store.old store.new }
{
    store_law(store);
    if first_clash(alloc, store, &a, &b)?.is_some() {
        return Ok(None);
    }
    match join_apart(alloc, store, a, b) {
        Ok(name) => Ok(Some(name)),
        Err(TreeFault::Collision { name }) => Err(LayFault::Collision { name }),
        Err(TreeFault::OutOfMemory) => Err(LayFault::OutOfMemory),
    }
}
