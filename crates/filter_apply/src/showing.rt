// What a table shows of a tree.
ghost use Rattle.std.specs.Prelude.{◌≡◌, true, IfOk, IfErr, IfSome, Ok};
ghost use Rattle.git_objects.specs.declared.kind.Kind.TheVariants.{Tree};
ghost use Rattle.object_store.specs.Growth.{IsGrownBy};
ghost use Rattle.object_store.specs.Objects.{has};
ghost use Rattle.object_store.specs.Unfolding.{flat, StandsFor};
ghost use Rattle.path_trees.specs.Levels.{IsDirectory};
ghost use Rattle.filter_text.specs.Shapes.{shape};
ghost use Rattle.filter_routes.specs.Lenses.{seen_through};
ghost use Rattle.filter_routes.specs.Origins.{lens_of};
ghost use Rattle.filter_cache.specs.Memos.{found, same_key};
ghost use Rattle.filter_apply.specs.Faults.{IsApplyFault};
ghost use Rattle.filter_apply.specs.Hands.{IsShownObject};
ghost use Rattle.filter_apply.specs.Truth.{IsPaid, IsTrueFor, KeepsOthers};

use crate::ApplyError;
use crate::founds::founds_of;
use crate::routes::shown_between;
use filter_cache::Memo;
use filter_routes::Table;
use git_objects::{Name, Steps};
use object_store::{Store, store_law};
use path_trees::taken_in;
use std::alloc::Global;
use std::sync::ledger::Ledger;

// What all routes of the table show of a tree. None: nothing.
fn shown_by_all<L: Ledger>(
    alloc: Global,
    store: &mut Store,
    table: &Table,
    id: usize,
    root: Name,
    memo: &mut Memo,
    steps: &mut Steps<L>,
) -> Result<Option<Name>, ApplyError>
    requires root { has Tree store.old root.0 ≡ true }
    requires memo { IsTrueFor store.old table.now id memo.old }
    ensures ok { IfOk result (IsDirectory store.new
        (seen_through (lens_of (shape table.now.filter)) (flat store.old root.0))) }
    ensures err { IfErr result (IsApplyFault
        (IsShownObject (shape table.now.filter) (flat store.old root.0)) store.new) }
    ensures store { IsGrownBy (IsShownObject (shape table.now.filter) (flat store.old root.0)) store.old store.new }
    ensures true_now { IsTrueFor store.new table.now id memo.new }
    ensures others { KeepsOthers id memo.old memo.new }
    ensures few { IsPaid (shape table.now.filter) steps.old steps.new }
{
    store_law(store);
    let entries = table.entries();
    let count = entries.len();
    if count == 0 {
        return Ok(None);
    }
    let founds = founds_of(alloc, store, root, entries, steps)?;
    shown_between(
        alloc,
        store,
        table,
        id,
        founds.as_slice(),
        0,
        count,
        root,
        memo,
        steps,
    )
}

// What the table shows of a tree, made from the tree.
fn made<L: Ledger>(
    alloc: Global,
    store: &mut Store,
    table: &Table,
    id: usize,
    root: Name,
    memo: &mut Memo,
    steps: &mut Steps<L>,
) -> Result<Name, ApplyError>
    requires root { has Tree store.old root.0 ≡ true }
    requires memo { IsTrueFor store.old table.now id memo.old }
    ensures ok { IfOk result (λ n. StandsFor store.new n.0
        (seen_through (lens_of (shape table.now.filter)) (flat store.old root.0))) }
    ensures err { IfErr result (IsApplyFault
        (IsShownObject (shape table.now.filter) (flat store.old root.0)) store.new) }
    ensures store { IsGrownBy (IsShownObject (shape table.now.filter) (flat store.old root.0)) store.old store.new }
    ensures true_now { IsTrueFor store.new table.now id memo.new }
    ensures others { KeepsOthers id memo.old memo.new }
    ensures few { IsPaid (shape table.now.filter) steps.old steps.new }
{
    match shown_by_all(alloc, store, table, id, root, memo, steps)? {
        Some(name) => Ok(name),
        None => Ok(taken_in(store, &[])?),
    }
}

/// The tree that the table shows of the tree `root`. The memo is asked before anything is read, and then has the pair.
/// A table's number `id` is its own among all tables that the memo is used with. A step is one body of a directory
/// that is looked up on the way to what an entry shows or leaves out; what stages and joins read is not counted.
pub fn shown<L: Ledger>(
    alloc: Global,
    store: &mut Store,
    table: &Table,
    id: usize,
    root: Name,
    memo: &mut Memo,
    steps: &mut Steps<L>,
) -> Result<Name, ApplyError>
    requires root { has Tree store.old root.0 ≡ true }
    requires memo { IsTrueFor store.old table.now id memo.old }
    ensures ok { IfOk result (λ n. StandsFor store.new n.0
        (seen_through (lens_of (shape table.now.filter)) (flat store.old root.0))) }
    ensures err { IfErr result (IsApplyFault
        (IsShownObject (shape table.now.filter) (flat store.old root.0)) store.new) }
    ensures store { IsGrownBy (IsShownObject (shape table.now.filter) (flat store.old root.0)) store.old store.new }
    ensures true_now { IsTrueFor store.new table.now id memo.new }
    ensures others { KeepsOthers id memo.old memo.new }
    ensures kept_hit { IfSome (found same_key ((id, 0), root.0) memo.old.entries)
        (λ n. (result ≡ Ok (record { 0 = n })) × (steps.new ≡ steps.old)) }
    ensures few { IsPaid (shape table.now.filter) steps.old steps.new }
{
    store_law(store);
    if let Some(name) = memo.get(id, 0, &root) {
        return Ok(name);
    }
    let name = made(alloc, store, table, id, root, memo, steps)?;
    memo.put(id, 0, root, name);
    Ok(name)
}
