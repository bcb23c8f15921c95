// Edits of a stage, which shows a tree whatever they answer.
ghost use Rattle.std.specs.Prelude.{◌≡◌, ◌<◌, true, IfSome};
ghost use Rattle.git_objects.specs.Trees.{Flat};
ghost use Rattle.git_objects.specs.declared.kind.Kind.TheVariants.{Blob, Tree};
ghost use Rattle.object_store.specs.Objects.{has};
ghost use Rattle.stage_tree.specs.Stages.{Shows};

use crate::words::Deed;
use git_objects::{Kind, Mode, Name, Steps};
use object_store::{Store, store_law};
use path_names::Path;
use path_trees::{Leaf, entry_at};
use stage_tree::{Stage, StageFault};
use std::marker::Brand;
use std::sync::ledger::{Blank, Ledger};

fn set(stage: &mut Stage, store: &Store, path: &Path, blob: Name) -> Result<(), StageFault>
    requires blob { has Blob store.now blob.0 ≡ true }
    requires shows { (t : Flat) × Shows store.now stage.old t }
    ensures { (t : Flat) × Shows store.now stage.new t }
{
    let leaf = Leaf {
        mode: Mode::File,
        name: blob,
    };
    stage.set(store, path, leaf)
}

fn removed(stage: &mut Stage, store: &Store, path: &Path) -> Result<(), StageFault>
    requires { (t : Flat) × Shows store.now stage.old t }
    ensures { (t : Flat) × Shows store.now stage.new t }
{
    match stage.remove(store, path) {
        Ok(()) => Ok(()),
        Err(_) => Err(StageFault::OutOfMemory),
    }
}

fn renamed<L: Ledger>(
    stage: &mut Stage,
    store: &Store,
    from: &Path,
    to: &Path,
    blank: Blank,
) -> Result<(), StageFault>
    requires name { blank.name ≡ L.name }
    requires parts { blank.parts ≡ L.parts }
    requires some { 0 < blank.parts }
    requires shows { (t : Flat) × Shows store.now stage.old t }
    ensures { (t : Flat) × Shows store.now stage.new t }
{
    let mut steps = Steps::<L>::new(blank);
    stage.rename(store, from, to, &mut steps)
}

fn copied(stage: &mut Stage, store: &Store, from: &Path, to: &Path) -> Result<(), StageFault>
    requires { (t : Flat) × Shows store.now stage.old t }
    ensures { (t : Flat) × Shows store.now stage.new t }
{
    stage.copy(store, from, to)
}

fn put(
    stage: &mut Stage,
    store: &Store,
    stored: Option<Name>,
    from: &Path,
    to: &Path,
) -> Result<(), StageFault>
    requires stored { IfSome stored (λ n. has Tree store.now n.0 ≡ true) }
    requires shows { (t : Flat) × Shows store.now stage.old t }
    ensures { (t : Flat) × Shows store.now stage.new t }
{
    let Some(root) = stored else {
        return Err(StageFault::NoSource);
    };
    let Some(found) = entry_at(store, root, from) else {
        return Err(StageFault::NoSource);
    };
    match stage.put(store, to, found) {
        Ok(()) => Ok(()),
        Err(_) => Err(StageFault::OutOfMemory),
    }
}

fn cleared(stage: &mut Stage, store: &Store) -> Result<(), StageFault>
    requires { (t : Flat) × Shows store.now stage.old t }
    ensures { (t : Flat) × Shows store.now stage.new t }
{
    store_law(store);
    stage.clear();
    Ok(())
}

/// Edits a stage. Each file that is set has the same blob. `stored` is the tree from which something is put, where
/// there is one.
pub fn edit(
    stage: &mut Stage,
    store: &Store,
    blob: Name,
    stored: Option<Name>,
    deed: &Deed,
    from: &Path,
    to: &Path,
) -> Result<(), StageFault>
    requires blob { has Blob store.now blob.0 ≡ true }
    requires stored { IfSome stored (λ n. has Tree store.now n.0 ≡ true) }
    requires shows { (t : Flat) × Shows store.now stage.old t }
    ensures { (t : Flat) × Shows store.now stage.new t }
{
    match deed {
        Deed::Set => set(stage, store, to, blob),
        Deed::Remove => removed(stage, store, to),
        Deed::Rename => renamed::<Brand>(stage, store, from, to, Blank::new(1)),
        Deed::Copy => copied(stage, store, from, to),
        Deed::Put => put(stage, store, stored, from, to),
        Deed::Clear => cleared(stage, store),
    }
}
