// Holding the objects of a batch.
ghost use Rattle.std.specs.Prelude.{◌≡◌, true, [], List, map, IfOk, OnOk, Some};
ghost use Rattle.std.specs.List.{flat_map, list_all};
ghost use Rattle.git_objects.specs.Parts.{name_bytes};
ghost use Rattle.git_objects.specs.Paths.{Bytes};
ghost use Rattle.git_objects.specs.Snapshots.{Snapshot};
ghost use Rattle.object_store.specs.Objects.{Object, find_named, has};
ghost use Rattle.object_store.specs.StoredSnapshots.{IsTreeOf, snapshot_object};
ghost use Rattle.fast_import.specs.Standing.{AreBlobsIn};
ghost use Rattle.projection_laws.specs.StoredGraphs.{snapshot_named};
ghost use Rattle.state_items.specs.Changes.{blob_object, commit_objects, objects_of};
ghost use Rattle.repo_ground.specs.Changes.{AreNamedIn};
ghost use Rattle.repo_ground.specs.Growing.{Extends, IsReady, IsStep};

use crate::Batch;
use crate::walk::{hold, hold_tree};
use git_objects::{CommitView, Kind, Name, tree_in_commit};
use indexmap::IndexSet;
use object_store::{Store, tree_of};
use std::alloc::{AllocError, Global};

// Holds a commit and the objects of its tree, whose name it gives. What this tree shares with a held tree, which may be
// named, isn't looked up.
fn hold_commit(
    alloc: Global,
    store: &Store,
    held: &mut IndexSet<Name>,
    name: Name,
    beside: Option<Name>,
) -> Result<Name, AllocError>
    requires { has Kind.Commit store.now name.0 ≡ true }
    ensures tree { IfOk result (λ t. IsTreeOf store.now name.0 t.0) }
    ensures step { OnOk result (let S = store.now in (c : Snapshot) → snapshot_named S name.0 ≡ Some c →
        find_named S name.0 ≡ Some (snapshot_object c) → IsReady S held.old.keys (commit_objects c) →
        IsStep S held.old.keys held.new.keys (commit_objects c) []) }
    ensures extends { Extends held.old.keys held.new.keys }
{
    let tree = tree_of(store, &name);
    hold_tree(alloc, store, held, tree, beside)?;
    hold(held, name)?;
    Ok(tree)
}

// The tree of a commit's first parent, where the store has both.
fn parents_tree(store: &Store, commit: &Name) -> Option<Name> {
    let object = store.get(commit)?;
    let parent = CommitView::of(object.body)?.parent(0)?;
    tree_in_commit(store.get(&parent)?.body)
}

// Holds these commits and the objects of their trees, one commit after another. What the first commit's tree shares
// with its first parent's isn't looked up either, if that is held.
fn hold_commits(
    alloc: Global,
    store: &Store,
    held: &mut IndexSet<Name>,
    names: &[Name],
) -> Result<(), AllocError>
    requires { list_all (has Kind.Commit store.now) (map name_bytes names.now) ≡ true }
    ensures step { OnOk result (let S = store.now in (cs : List Snapshot) → AreNamedIn S names.now cs →
        IsReady S held.old.keys (flat_map commit_objects cs) →
        IsStep S held.old.keys held.new.keys (flat_map commit_objects cs) []) }
    ensures extends { Extends held.old.keys held.new.keys }
{
    let mut beside = match names.first() {
        None => None,
        Some(name) => parents_tree(store, name),
    };
    for name in names {
        beside = Some(hold_commit(alloc, store, held, *name, beside)?);
    }
    Ok(())
}

// Holds these blobs.
fn hold_blobs(held: &mut IndexSet<Name>, names: &[Name]) -> Result<(), AllocError>
    ensures step { OnOk result ((S : List Object) (bs : List Bytes) → AreBlobsIn S names.now bs →
        IsReady S held.old.keys (map blob_object bs) →
        IsStep S held.old.keys held.new.keys (map blob_object bs) []) }
    ensures extends { Extends held.old.keys held.new.keys }
{
    for name in names {
        hold(held, *name)?;
    }
    Ok(())
}

// Makes room for the names of the store's objects that aren't held, so that a table of many names isn't made anew by
// steps.
fn make_room(store: &Store, held: &mut IndexSet<Name>) -> Result<(), AllocError>
    ensures { held.new.keys ≡ held.old.keys }
{
    held.reserve(store.len().saturating_sub(held.len()))
}

/// Holds the objects that a batch brings, each after what it names, behind those that are held.
pub(crate) fn hold_batch(
    alloc: Global,
    store: &Store,
    held: &mut IndexSet<Name>,
    batch: &Batch,
) -> Result<(), AllocError>
    requires { list_all (has Kind.Commit store.now) (map name_bytes batch.now.commits.items) ≡ true }
    ensures step { OnOk result (let S = store.now in (blobs : List Bytes) (cs : List Snapshot) →
        AreBlobsIn S batch.now.blobs.items blobs → AreNamedIn S batch.now.commits.items cs →
        IsReady S held.old.keys (objects_of blobs cs) →
        IsStep S held.old.keys held.new.keys (objects_of blobs cs) []) }
    ensures extends { Extends held.old.keys held.new.keys }
{
    make_room(store, held)?;
    hold_blobs(held, &batch.blobs)?;
    hold_commits(alloc, store, held, &batch.commits)
}
