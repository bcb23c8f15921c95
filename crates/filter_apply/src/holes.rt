// A directory without what earlier entries take of it.
ghost use Rattle.std.specs.Prelude.{◌≡◌, [], ◌<◌, ◌++◌, true, false, filter, is_some};
ghost use Rattle.std.specs.Prelude.{take, slice_get, length, IfOk, IfErr, OnOk, Some};
ghost use Rattle.git_objects.specs.Paths.{is_nil};
ghost use Rattle.git_objects.specs.Trees.{Flat};
ghost use Rattle.git_objects.specs.declared.kind.Kind.TheVariants.{Tree};
ghost use Rattle.object_store.specs.Growth.{IsGrownBy};
ghost use Rattle.object_store.specs.Objects.{IsStore, has};
ghost use Rattle.object_store.specs.Unfolding.{flat, StandsFor};
ghost use Rattle.stage_tree.specs.Stages.{Shows};
ghost use Rattle.decision_lists.specs.Entries.{base, below, cone_of, tail};
ghost use Rattle.decision_lists.specs.Cells.{free_in};
ghost use Rattle.decision_lists.specs.Lists.{Thin};
ghost use Rattle.decision_lists.specs.Operations.{covers};
ghost use Rattle.filter_apply.specs.Faults.{IsApplyFault};
ghost use Rattle.filter_apply.specs.Hands.{IsPartObject};
ghost use Rattle.filter_apply.specs.Holes.{IsWithout};
ghost use Rattle.filter_apply.specs.Parts.{base_in, is_below};

use crate::ApplyError;
use crate::standing::found_at;
use decision_lists::Entry;
use git_objects::{Component, Name, Steps};
use object_store::Store;
use path_names::Path;
use stage_tree::Stage;
use std::alloc::{AllocError, Global};
use std::sync::ledger::Ledger;

// Takes what stands at the tail in the tree out of a stage that shows a part of it, where that is a leaf for a single
// path, and a directory otherwise.
fn take_out<L: Ledger>(
    alloc: Global,
    store: &Store,
    stage: &mut Stage,
    root: Name,
    point: bool,
    rest: &[Component],
    steps: &mut Steps<L>,
) -> Result<(), AllocError>
    requires root { has Tree store.now root.0 ≡ true }
    requires rest { is_nil rest.now ≡ false }
    requires shows { (u : Flat) × Shows store.now stage.old u }
    ensures { OnOk result (IsWithout store.now (flat store.now root.0)
        (λ p. is_some (tail (cone_of point rest.now) p)) stage.old stage.new) }
{
    match found_at(store, root, rest, steps) {
        Some(found) if found.mode.is_dir() != point => {
            let path = Path::of_parts(alloc, rest, &[])?;
            stage.remove(store, &path)
        }
        _ => Ok(()),
    }
}

// Takes what another entry takes of the tree below a cone's base out of a stage that shows a part of it.
fn take_hole<L: Ledger>(
    alloc: Global,
    store: &Store,
    stage: &mut Stage,
    root: Name,
    entry: &Entry,
    hole: &Entry,
    steps: &mut Steps<L>,
) -> Result<(), AllocError>
    requires root { has Tree store.now root.0 ≡ true }
    requires cone { entry.now.0 ≡ below (base entry.now.0) }
    requires apart { covers hole.now.0 entry.now.0 ≡ false }
    requires shows { (u : Flat) × Shows store.now stage.old u }
    ensures { OnOk result (IsWithout store.now (flat store.now root.0)
        (λ p. is_some (tail hole.now.0 (base entry.now.0 ++ p))) stage.old stage.new) }
{
    match entry.rest(hole.base.as_slice()) {
        None => Ok(()),
        Some(rest) => take_out(alloc, store, stage, root, hole.point, rest, steps),
    }
}

// What stands below the base of an entry, without what the entries before it take of it. All is taken out of one
// stage, so that each directory on the way to a hole is made once.
pub fn without_holes<L: Ledger>(
    alloc: Global,
    store: &mut Store,
    root: Name,
    entries: &[Entry],
    route: usize,
    steps: &mut Steps<L>,
) -> Result<Name, ApplyError>
    requires store { IsStore store.old }
    requires root { has Tree store.old root.0 ≡ true }
    requires route { route < length entries.now }
    requires cone { is_below (slice_get entries.now route) ≡ true }
    requires thin { Thin [] entries.now }
    ensures ok { IfOk result (λ n. StandsFor store.new n.0
        (filter (λ e. free_in (take route entries.now) (base_in (slice_get entries.now route) ++ e.0))
        (flat store.old root.0))) }
    ensures err { IfErr result (IsApplyFault (IsPartObject (flat store.old root.0)) store.new) }
    ensures store { IsGrownBy (IsPartObject (flat store.old root.0)) store.old store.new }
    ensures first { route ≡ 0 → steps.new ≡ steps.old }
{
    if route == 0 {
        return Ok(root);
    }
    let mut stage = Stage::begin(alloc, store, root)?;
    for i in 0..route {
        take_hole(
            alloc,
            store,
            &mut stage,
            root,
            &entries[route],
            &entries[i],
            steps,
        )?;
    }
    Ok(stage.finish(store)?)
}
