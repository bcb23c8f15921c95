// What the routes of a table show of a tree.
ghost use Rattle.std.specs.Prelude.{◌≡◌, ◌+◌, ◌<◌, ◌≤◌, true, length, slice_get, None};
ghost use Rattle.std.specs.Prelude.{IfOk, IfErr, IfSome};
ghost use Rattle.git_objects.specs.Trees.{rests};
ghost use Rattle.git_objects.specs.declared.kind.Kind.TheVariants.{Tree};
ghost use Rattle.object_store.specs.Growth.{IsGrownBy};
ghost use Rattle.object_store.specs.Objects.{IsStore, has};
ghost use Rattle.object_store.specs.Unfolding.{flat};
ghost use Rattle.path_trees.specs.Clashes.{clash, together};
ghost use Rattle.path_trees.specs.Levels.{IsDirectory};
ghost use Rattle.path_trees.specs.Standing.{node};
ghost use Rattle.decision_lists.specs.Hits.{target_of};
ghost use Rattle.filter_text.specs.Shapes.{shape};
ghost use Rattle.filter_apply.specs.Faults.{IsApplyFault};
ghost use Rattle.filter_apply.specs.Founds.{AreFoundAt, IsFoundAt};
ghost use Rattle.filter_apply.specs.Hands.{IsJoinedObject, IsShownObject};
ghost use Rattle.filter_apply.specs.Parts.{base_in, routed};
ghost use Rattle.filter_apply.specs.Ranges.{map_of, seen_between};
ghost use Rattle.filter_apply.specs.Truth.{AreJoins, IsTrueFor, KeepsOthers};

use crate::parts::part_in;
use crate::{ApplyError, placed};
use filter_cache::Memo;
use filter_routes::{Table, table_law};
use git_objects::{Component, Name, Steps};
use object_store::{Store, store_law};
use path_trees::{Found, join_apart};
use std::alloc::Global;
use std::sync::ledger::Ledger;

// What an entry of a table's list shows of a tree, at its target, where this stands at its base. None: nothing.
fn made_at<L: Ledger>(
    alloc: Global,
    store: &mut Store,
    table: &Table,
    route: usize,
    root: Name,
    target: &[Component],
    base: Found,
    steps: &mut Steps<L>,
) -> Result<Option<Name>, ApplyError>
    requires root { has Tree store.old root.0 ≡ true }
    requires target { target_of (slice_get table.now.routes route) ≡ Some target.now }
    requires base { IsFoundAt store.old (flat store.old root.0)
        (base_in (slice_get table.now.routes route)) (Some base) }
    ensures ok { IfOk result (IsDirectory store.new (routed table.now.routes route (rests (node store.old base)))) }
    ensures err { IfErr result (IsApplyFault
        (IsShownObject (shape table.now.filter) (flat store.old root.0)) store.new) }
    ensures store { IsGrownBy (IsShownObject (shape table.now.filter) (flat store.old root.0)) store.old store.new }
    ensures few { route ≡ 0 → steps.new ≡ steps.old }
{
    store_law(store);
    match part_in(alloc, store, table.entries(), route, base, steps)? {
        None => Ok(None),
        Some(part) => Ok(Some(placed(alloc, store, target, part)?)),
    }
}

// What an entry of a table's list shows of a tree, where this stands at its base. None: nothing. The memo is asked for
// what the entry shows of a directory, and then has it.
fn shown_by<L: Ledger>(
    alloc: Global,
    store: &mut Store,
    table: &Table,
    id: usize,
    route: usize,
    root: Name,
    found: Option<Found>,
    memo: &mut Memo,
    steps: &mut Steps<L>,
) -> Result<Option<Name>, ApplyError>
    requires root { has Tree store.old root.0 ≡ true }
    requires route { route < length table.now.routes }
    requires found { IsFoundAt store.old (flat store.old root.0) (base_in (slice_get table.now.routes route)) found }
    requires memo { IsTrueFor store.old table.now id memo.old }
    ensures ok { IfOk result (IsDirectory store.new
        (seen_between (shape table.now.filter) table.now.routes route (route + 1) (flat store.old root.0))) }
    ensures err { IfErr result (IsApplyFault
        (IsShownObject (shape table.now.filter) (flat store.old root.0)) store.new) }
    ensures store { IsGrownBy (IsShownObject (shape table.now.filter) (flat store.old root.0)) store.old store.new }
    ensures true_now { IsTrueFor store.new table.now id memo.new }
    ensures others { KeepsOthers id memo.old memo.new }
    ensures few { route ≡ 0 → steps.new ≡ steps.old }
{
    store_law(store);
    let entry = &table.entries()[route];
    let Some(target) = &entry.target else {
        return Ok(None);
    };
    let Some(base) = found else {
        return Ok(None);
    };
    let target = target.as_slice();
    if !base.mode.is_dir() {
        return made_at(alloc, store, table, route, root, target, base, steps);
    }
    if let Some(name) = memo.get(id, route + 1, &base.name) {
        return Ok(Some(name));
    }
    let shown = made_at(alloc, store, table, route, root, target, base, steps)?;
    if let Some(name) = shown {
        memo.put(id, route + 1, base.name, name);
    }
    Ok(shown)
}

// Two trees that are apart, as one. None: an empty one. The memo is asked for the tree of both, and then has it.
fn joined(
    alloc: Global,
    store: &mut Store,
    memo: &mut Memo,
    first: Option<Name>,
    second: Option<Name>,
) -> Result<Option<Name>, ApplyError>
    requires store { IsStore store.old }
    requires first { IfSome first (λ n. has Tree store.old n.0 ≡ true) }
    requires second { IfSome second (λ n. has Tree store.old n.0 ≡ true) }
    requires apart { clash (map_of store.old first) (map_of store.old second) ≡ None }
    requires joins { AreJoins store.old memo.old }
    ensures ok { IfOk result (IsDirectory store.new (together (map_of store.old first) (map_of store.old second))) }
    ensures err { IfErr result (IsApplyFault
        (IsJoinedObject (map_of store.old first) (map_of store.old second)) store.new) }
    ensures store { IsGrownBy (IsJoinedObject (map_of store.old first) (map_of store.old second)) store.old store.new }
    ensures joins { AreJoins store.new memo.new }
    ensures entries { memo.new.entries ≡ memo.old.entries }
{
    let Some(a) = first else {
        return Ok(second);
    };
    let Some(b) = second else {
        return Ok(first);
    };
    if let Some(name) = memo.joined(&a, &b) {
        return Ok(Some(name));
    }
    let name = join_apart(alloc, store, a, b)?;
    memo.put_joined(a, b, name);
    Ok(Some(name))
}

// A place between two that are apart.
fn middle_of(first: usize, last: usize) -> usize
    requires { first + 1 < last }
    ensures above { first < result }
    ensures below { result < last }
{
    first + (last - first) / 2
}

// What the entries from one place up to another show of a tree, where these stand at the bases. None: nothing. The two
// halves are joined when each is made, so that every part takes part in as few joins as the number of entries can be
// halved.
pub fn shown_between<L: Ledger>(
    alloc: Global,
    store: &mut Store,
    table: &Table,
    id: usize,
    founds: &[Option<Found>],
    first: usize,
    last: usize,
    root: Name,
    memo: &mut Memo,
    steps: &mut Steps<L>,
) -> Result<Option<Name>, ApplyError>
    requires root { has Tree store.old root.0 ≡ true }
    requires founds { AreFoundAt store.old (flat store.old root.0) table.now.routes founds.now }
    requires range { first < last }
    requires within { last ≤ length table.now.routes }
    requires memo { IsTrueFor store.old table.now id memo.old }
    ensures ok { IfOk result (IsDirectory store.new
        (seen_between (shape table.now.filter) table.now.routes first last (flat store.old root.0))) }
    ensures err { IfErr result (IsApplyFault
        (IsShownObject (shape table.now.filter) (flat store.old root.0)) store.new) }
    ensures store { IsGrownBy (IsShownObject (shape table.now.filter) (flat store.old root.0)) store.old store.new }
    ensures true_now { IsTrueFor store.new table.now id memo.new }
    ensures others { KeepsOthers id memo.old memo.new }
    ensures few { last ≡ 1 → steps.new ≡ steps.old }
{
    if last - first == 1 {
        return shown_by(
            alloc,
            store,
            table,
            id,
            first,
            root,
            founds[first],
            memo,
            steps,
        );
    }
    store_law(store);
    table_law(table);
    let middle = middle_of(first, last);
    let left = shown_between(
        alloc, store, table, id, founds, first, middle, root, memo, steps,
    )?;
    let right = shown_between(
        alloc, store, table, id, founds, middle, last, root, memo, steps,
    )?;
    joined(alloc, store, memo, left, right)
}
