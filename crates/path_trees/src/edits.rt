// Edits at a path.
ghost use Rattle.std.specs.Prelude.{◌≡◌, true, IfOk, IfErr, IfSome, IfNone, Some, None, slice_get};
ghost use Rattle.std.specs.Option.{option_map};
ghost use Rattle.git_objects.specs.Trees.{put, remove};
ghost use Rattle.git_objects.specs.declared.kind.Kind.TheVariants.{Tree};
ghost use Rattle.object_store.specs.Objects.{has, has_child};
ghost use Rattle.object_store.specs.Unfolding.{flat, StandsFor};
ghost use Rattle.path_trees.specs.Standing.{IsClear, node};
ghost use Rattle.path_trees.specs.Made.{IsGrown, IsOnWay, IsTreeFault};
ghost use Rattle.git_objects.specs.Names.{name};
ghost use Rattle.git_objects.specs.Entries.{body_text};
ghost use Rattle.git_objects.specs.Bodies.{is_name};
ghost use Rattle.git_objects.specs.Parts.{name_bytes};
ghost use Rattle.object_store.specs.Objects.{IsStore};
ghost use Rattle.object_store.specs.Puts.{of_body};
ghost use Rattle.path_trees.specs.Listed.{changed, edited, listed_at};
ghost use Rattle.path_trees.specs.Levels.{AreDirectories, IsAbove, IsRefused, IsTaken};

use crate::directory::directory_in;
use crate::rebuild::changed_body;
use crate::{Found, TreeFault, entry_at};
use git_objects::{Component, Kind, Mode, Name, name_bytes_law};
use object_store::{PutError, Store, store_law};
use path_names::Path;
use std::alloc::{AllocError, Global};

/// The tree in which a path has this leaf or this directory: every path that is comparable with it is removed first.
/// Only the directories on the way to the path are made anew. A refused call may have added some of them.
pub fn put_at(
    alloc: Global,
    store: &mut Store,
    root: Name,
    path: &Path,
    found: Found,
) -> Result<Name, TreeFault>
    requires root { has Tree store.old root.0 ≡ true }
    requires found { has_child store.old found.mode found.name.0 ≡ true }
    ensures ok { IfOk result (λ n. StandsFor store.new n.0
        (put (flat store.old root.0) path.now (node store.old found))) }
    ensures err { IfErr result (IsTreeFault
        (IsOnWay (put (flat store.old root.0) path.now (node store.old found)) path.now)
        store.new) }
    ensures store { IsGrown
        (IsOnWay (put (flat store.old root.0) path.now (node store.old found)) path.now)
        store.old store.new }
{
    name_bytes_law(&found.name);
    edited(alloc, store, root, path, Some(found))
}

/// The tree without a path and all below it, and without the directories that are left empty. Where nothing stands at
/// the path, it is the tree as it was.
pub fn remove_at(
    alloc: Global,
    store: &mut Store,
    root: Name,
    path: &Path,
) -> Result<Name, TreeFault>
    requires { has Tree store.old root.0 ≡ true }
    ensures ok { IfOk result (λ n. StandsFor store.new n.0
        (remove (flat store.old root.0) path.now)) }
    ensures err { IfErr result (IsTreeFault
        (IsOnWay (remove (flat store.old root.0) path.now) path.now) store.new) }
    ensures store { IsGrown (IsOnWay (remove (flat store.old root.0) path.now) path.now)
        store.old store.new }
{
    store_law(store);
    if entry_at(store, root, path).is_none() {
        return Ok(root);
    }
    edited(alloc, store, root, path, None)
}

// The tree in which something, or nothing, stands at a path.
fn edited(
    alloc: Global,
    store: &mut Store,
    root: Name,
    path: &Path,
    change: Option<Found>,
) -> Result<Name, TreeFault>
    requires root { has Tree store.old root.0 ≡ true }
    requires held { IfSome change (λ f. (has_child store.old f.mode f.name.0 ≡ true)
        × (is_name f.name.0 ≡ true)) }
    requires clear { IfNone change (IsClear (flat store.old root.0) path.now) }
    ensures ok { IfOk result (λ n. StandsFor store.new n.0
        (edited (flat store.old root.0) path.now (option_map (node store.old) change))) }
    ensures err { IfErr result (IsTreeFault
        (IsOnWay (edited (flat store.old root.0) path.now (option_map (node store.old) change)) path.now)
        store.new) }
    ensures store { IsGrown
        (IsOnWay (edited (flat store.old root.0) path.now (option_map (node store.old) change)) path.now)
        store.old store.new }
{
    let Ok(directories) = directories(alloc, store, root, path) else {
        return Err(TreeFault::OutOfMemory);
    };
    let components = path.components();
    let mut change = change;
    let mut level = components.len() - 1;
    'levels: while level > 0 {
        let body = body_at(
            alloc,
            store,
            nth(&directories, level),
            components[level].bytes(),
            change,
        )?;
        change = above(store, &body)?;
        level -= 1;
    }
    let body = body_at(
        alloc,
        store,
        nth(&directories, 0),
        components[0].bytes(),
        change,
    )?;
    taken_in(store, &body)
}

// The component at an index.
fn nth(directories: &[Name], level: usize) -> Option<Name>
    ensures { result ≡ slice_get directories.now level }
{
    directories.get(level).copied()
}

// The names of the directories on the way to a path, from the root's to the deepest one that is there.
fn directories(
    alloc: Global,
    store: &Store,
    root: Name,
    path: &Path,
) -> Result<Vec<Name>, AllocError>
    requires { has Tree store.now root.0 ≡ true }
    ensures names { IfOk result (λ names. AreDirectories store.now (flat store.now root.0) path.now names.items) }
    ensures store { IsStore store.now }
{
    store_law(store);
    let mut directories = Vec::new(alloc);
    let mut directory = root;
    for component in path.components() {
        directories.push(directory)?;
        match directory_in(store, &directory, component.bytes()) {
            None => return Ok(directories),
            Some(name) => directory = name,
        }
    }
    Ok(directories)
}

// The body of a directory in which something, or nothing, stands at a component.
fn body_at(
    alloc: Global,
    store: &Store,
    directory: Option<Name>,
    component: &[u8],
    change: Option<Found>,
) -> Result<Vec<u8>, TreeFault>
    ensures body { IfOk result (λ body. body.items
        ≡ body_text (changed component.now change (listed_at store.now (option_map name_bytes directory)))) }
    ensures err { IfErr result (λ e. e ≡ TreeFault.OutOfMemory) }
{
    match changed_body(alloc, store, directory, component, change) {
        Ok(body) => Ok(body),
        Err(_) => Err(TreeFault::OutOfMemory),
    }
}

/// Takes in the tree of a body whose children are there, and gives its name. One that is held already changes nothing.
pub fn taken_in(store: &mut Store, body: &[u8]) -> Result<Name, TreeFault>
    requires { of_body store.old Tree body.now None ≡ None }
    ensures ok { IfOk result (λ n. (n.0 ≡ name Tree body.now) × IsTaken store.old body.now store.new) }
    ensures err { IfErr result (λ e. (store.new ≡ store.old) × IsRefused store.old body.now e) }
    ensures store { IsStore store.new }
{
    match store.put_fitting(Kind::Tree, body) {
        Ok(name) => Ok(name),
        Err(PutError::Collision { name }) => Err(TreeFault::Collision { name }),
        Err(PutError::OutOfMemory) => Err(TreeFault::OutOfMemory),
        Err(PutError::NotCanonical) => unreachable!(),
        Err(PutError::MissingChild { name: _ }) => unreachable!(),
    }
}

// What the directory above has for a directory of that body: nothing for one that is left empty.
fn above(store: &mut Store, body: &[u8]) -> Result<Option<Found>, TreeFault>
    requires store { IsStore store.old }
    requires body { of_body store.old Tree body.now None ≡ None }
    ensures ok { IfOk result (λ found. IsAbove store.old body.now store.new found) }
    ensures err { IfErr result (λ e. (store.new ≡ store.old) × IsRefused store.old body.now e) }
    ensures store { IsStore store.new }
{
    if body.is_empty() {
        return Ok(None);
    }
    let name = taken_in(store, body)?;
    Ok(Some(Found {
        mode: Mode::Dir,
        name,
    }))
}
