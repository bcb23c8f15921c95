// Entering new objects among the commits and the known blobs.
ghost use Rattle.std.specs.Prelude.{◌≡◌, ◌<◌, ◌^◌, ◌++◌, ◌∷◌, List, None, map};
ghost use Rattle.std.specs.Prelude.{length, reverse, OnOk};
ghost use Rattle.git_objects.specs.CommitBodies.{commit_from};
ghost use Rattle.git_objects.specs.Names.{name};
ghost use Rattle.git_objects.specs.Parts.{name_bytes};
ghost use Rattle.git_objects.specs.Snapshots.{Snapshot};
ghost use Rattle.commit_graph.specs.Graphs.{place_of};
ghost use Rattle.object_store.specs.Errors.{object_value};
ghost use Rattle.object_store.specs.Objects.{Object, object_name};
ghost use Rattle.state_items.specs.Arrivals.{AreHeld, HasArrived, HasParents, with_blob_name, with_row};
ghost use Rattle.state_items.specs.Writings.{found};
ghost use Rattle.repo_ground.specs.Entering.{AreNewIn, IsFront, with_all};
ghost use Rattle.repo_ground.specs.Reaching.{HasCommits, IsNext, MayEnter};

use commit_graph::Graph;
use git_objects::{CommitView, Kind, Name};
use indexmap::IndexSet;
use object_store::{ObjectRef, Store};
use state_items::parent_places;
use std::alloc::{AllocError, Global};

// How many commits a graph takes.
const MOST_COMMITS: u32 = 1 << 30;

// Enters a commit behind the others.
fn enter_commit(alloc: Global, graph: &mut Graph, key: Name, body: &[u8]) -> Result<(), AllocError>
    requires parents { HasParents graph.old (commit_from body.now) }
    requires named { key.0 ≡ name Kind.Commit body.now }
    requires fresh { place_of key.0 graph.old ≡ None }
    requires room { length graph.old < 2 ^ 30 }
    ensures rows { OnOk result (graph.new ≡ with_row graph.old Kind.Commit body.now) }
    ensures front { IsFront graph.old graph.new }
{
    match CommitView::of(body) {
        None => Ok(()),
        Some(commit) => {
            let parents = parent_places(alloc, graph, &commit)?;
            graph.add(key, commit.tree(), parents)
        }
    }
}

// Enters a commit of the store behind the others, unless it has a row already.
fn enter_new(alloc: Global, store: &Store, graph: &mut Graph, key: Name) -> Result<(), AllocError>
    requires next { (known : List Snapshot) × (c : Snapshot) × IsNext store.now graph.old known key c }
    ensures entered { OnOk result ((known : List Snapshot) (c : Snapshot) → IsNext store.now graph.old known key c →
        HasCommits store.now graph.new (c ∷ known)) }
    ensures front { IsFront graph.old graph.new }
{
    if graph.index_of(&key).is_some() {
        return Ok(());
    }
    if graph.len() >= MOST_COMMITS {
        return Err(AllocError);
    }
    match store.get(&key) {
        None => Ok(()),
        Some(object) => enter_commit(alloc, graph, key, object.body),
    }
}

/// Enters those of these commits that have no rows, one after another. A graph that is full can't take a commit more,
/// which is told as want of memory. After an error the first of them may be entered.
pub(crate) fn enter_commits(
    alloc: Global,
    store: &Store,
    graph: &mut Graph,
    names: &[Name],
) -> Result<(), AllocError>
    requires may { (known : List Snapshot) × (cs : List Snapshot) × MayEnter store.now graph.old known names.now cs }
    ensures entered { OnOk result ((known : List Snapshot) (cs : List Snapshot) →
        MayEnter store.now graph.old known names.now cs → HasCommits store.now graph.new (reverse cs ++ known)) }
    ensures front { IsFront graph.old graph.new }
{
    for name in names {
        enter_new(alloc, store, graph, *name)?;
    }
    Ok(())
}

// Enters an object: a commit behind the others, a blob's name behind the others.
fn enter_one(
    alloc: Global,
    graph: &mut Graph,
    blobs: &mut IndexSet<Name>,
    key: Name,
    object: ObjectRef<'_>,
) -> Result<(), AllocError>
    requires arrived { (key.0 ≡ object_name (object_value object)) ×
        HasArrived graph.old (map name_bytes blobs.old.keys) object.kind object.body.now }
    ensures rows { OnOk result (graph.new ≡ with_row graph.old object.entry.kind object.entry.body.now) }
    ensures blobs { OnOk result (map name_bytes blobs.new.keys ≡
        with_blob_name (map name_bytes blobs.old.keys) object.entry.kind object.entry.body.now) }
    ensures front { IsFront graph.old graph.new × IsFront blobs.old.keys blobs.new.keys }
{
    match object.kind {
        Kind::Blob => {
            blobs.insert(key)?;
            Ok(())
        }
        Kind::Tree => Ok(()),
        Kind::Commit => enter_commit(alloc, graph, key, object.body),
    }
}

/// Enters these objects, which have these names, one after another. After want of memory the first of them may be
/// entered.
pub(crate) fn enter(
    alloc: Global,
    graph: &mut Graph,
    blobs: &mut IndexSet<Name>,
    names: &[Name],
    objects: &[ObjectRef<'_>],
) -> Result<(), AllocError>
    requires new { (S : List Object) × (H : List Object) × (held : List Name) ×
        AreHeld H held graph.old blobs.old.keys × AreNewIn S H names.now ×
        (map object_value objects.now ≡ found S names.now) }
    ensures entered { OnOk result ((S : List Object) (H : List Object) (held : List Name) →
        AreHeld H held graph.old blobs.old.keys → AreNewIn S H names.now →
        map object_value objects.now ≡ found S names.now →
        AreHeld (with_all S H names.now) (held ++ names.now) graph.new blobs.new.keys) }
    ensures front { IsFront graph.old graph.new × IsFront blobs.old.keys blobs.new.keys }
{
    for (name, object) in names.iter().zip(objects) {
        enter_one(alloc, graph, blobs, *name, *object)?;
    }
    Ok(())
}
