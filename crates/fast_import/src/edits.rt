// Edits of the tree of the commit that is being made.
ghost use Rattle.std.specs.Prelude.{◌≡◌, ◌<◌, true, Ok};
ghost use Rattle.git_objects.specs.Results.{refused_by};
ghost use Rattle.git_objects.specs.Trees.{Flat, remove};
ghost use Rattle.object_store.specs.Objects.{has_child};
ghost use Rattle.path_trees.specs.Standing.{node};
ghost use Rattle.stage_tree.specs.Edits.{IsEdited, copied, renamed, set_in};
ghost use Rattle.stage_tree.specs.Stages.{Shows};
ghost use Rattle.fast_import.specs.Replaying.{fault_at};
ghost use Rattle.fast_import.specs.Standing.{IsRedrawn};

use crate::StreamFault;
use git_objects::{Quantity, Steps};
use object_store::Store;
use path_names::Path;
use path_trees::Leaf;
use stage_tree::{Stage, StageFault};
use std::marker::Brand;
use std::sync::ledger::{Blank, Ledger};

// A fault of an edit, as one of the line that stands there.
fn fault_at(at: u64, fault: StageFault) -> StreamFault
    ensures { result ≡ fault_at at fault }
{
    match fault {
        StageFault::NoSource => StreamFault::NoSource { at },
        StageFault::TooDeep => StreamFault::Limit {
            at,
            which: Quantity::PathDepth,
        },
        StageFault::TooLong => StreamFault::Limit {
            at,
            which: Quantity::PathBytes,
        },
        StageFault::TooMany => StreamFault::Limit {
            at,
            which: Quantity::Files,
        },
        StageFault::OutOfMemory => StreamFault::OutOfMemory,
    }
}

// Puts a leaf at a path, which is given up.
pub(crate) fn set_leaf(
    stage: &mut Stage,
    store: &Store,
    at: u64,
    path: Path,
    leaf: Leaf,
) -> Result<(), StreamFault>
    requires leaf { has_child store.now leaf.mode leaf.name.0 ≡ true }
    requires stage { (t : Flat) × Shows store.now stage.old t }
    ensures { (t : Flat) → Shows store.now stage.old t → IsRedrawn store.now stage.new (refused_by (fault_at at)
        (set_in t path (node store.now (record { mode = leaf.mode; name = leaf.name })))) result }
{
    match stage.set_owned(store, path, leaf) {
        Err(fault) => Err(fault_at(at, fault)),
        Ok(()) => Ok(()),
    }
}

// Removes a path.
pub(crate) fn remove_path(stage: &mut Stage, store: &Store, path: &Path) -> Result<(), StreamFault>
    requires { (t : Flat) × Shows store.now stage.old t }
    ensures { (t : Flat) → Shows store.now stage.old t →
        IsRedrawn store.now stage.new (Ok (remove t path.now)) result }
{
    match stage.remove(store, path) {
        Err(_) => Err(StreamFault::OutOfMemory),
        Ok(()) => Ok(()),
    }
}

// Moves what stands at a path. The steps are not counted.
fn rename<L: Ledger>(
    stage: &mut Stage,
    store: &Store,
    from: &Path,
    to: &Path,
    blank: Blank,
) -> Result<(), StageFault>
    requires name { blank.name ≡ L.name }
    requires parts { blank.parts ≡ L.parts }
    requires some { 0 < blank.parts }
    requires stage { (t : Flat) × Shows store.now stage.old t }
    ensures { (t : Flat) → Shows store.now stage.old t →
        IsEdited store.now stage.new t (renamed t from.now to.now) result }
{
    let mut steps = Steps::<L>::new(blank);
    stage.rename(store, from, to, &mut steps)
}

// Moves what stands at a path to another one.
pub(crate) fn move_path(
    stage: &mut Stage,
    store: &Store,
    at: u64,
    from: &Path,
    to: &Path,
) -> Result<(), StreamFault>
    requires { (t : Flat) × Shows store.now stage.old t }
    ensures { (t : Flat) → Shows store.now stage.old t → IsRedrawn store.now stage.new
        (refused_by (fault_at at) (renamed t from.now to.now)) result }
{
    match rename::<Brand>(stage, store, from, to, Blank::new(1)) {
        Err(fault) => Err(fault_at(at, fault)),
        Ok(()) => Ok(()),
    }
}

// Puts what stands at a path at another one too.
pub(crate) fn copy_path(
    stage: &mut Stage,
    store: &Store,
    at: u64,
    from: &Path,
    to: &Path,
) -> Result<(), StreamFault>
    requires { (t : Flat) × Shows store.now stage.old t }
    ensures { (t : Flat) → Shows store.now stage.old t → IsRedrawn store.now stage.new
        (refused_by (fault_at at) (copied t from.now to.now)) result }
{
    match stage.copy(store, from, to) {
        Err(fault) => Err(fault_at(at, fault)),
        Ok(()) => Ok(()),
    }
}
