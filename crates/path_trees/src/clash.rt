// The first clash of two trees.
ghost use Rattle.std.specs.Prelude.{◌≡◌, [], ◌∷◌, true, false, ◌&&◌, IfOk, Some};
ghost use Rattle.std.specs.Option.{option_map};
ghost use Rattle.git_objects.specs.Entries.{is_dir};
ghost use Rattle.git_objects.specs.Paths.{Path, is_path};
ghost use Rattle.git_objects.specs.Trees.{rests};
ghost use Rattle.git_objects.specs.declared.kind.Kind.TheVariants.{Tree};
ghost use Rattle.object_store.specs.Objects.{IsStore, has, has_child};
ghost use Rattle.object_store.specs.Unfolding.{flat};
ghost use Rattle.path_trees.specs.Clashes.{clash};
ghost use Rattle.path_trees.specs.Listed.{listed};
ghost use Rattle.path_trees.specs.Paired.{first_behind, pair_behind};
ghost use Rattle.path_trees.specs.Standing.{node};

use crate::walk::{copied, entries_at, go_up, next_leaf};
use crate::{Finder, Found};
use git_objects::{Component, Mode, Name, TreeView};
use object_store::{Store, store_law};
use path_names::Path;
use std::alloc::{AllocError, Global};

// What is left to read of a directory of the first tree, and all of that directory of the second.
#[derive(Drop)]
pub struct Level<'a> {
    left: TreeView<'a>,
    right: Finder<'a, 'a>,
}

// What is left to read of the directories of these names, one of each tree, at the front of a path.
fn level_at<'a>(store: &'a Store, left: &Name, right: &Name) -> Level<'a>
    requires left { has Tree store.now left.now.0 ≡ true }
    requires right { has Tree store.now right.now.0 ≡ true }
    ensures left { listed store.now left.now.0 ≡ Some result.left }
    ensures right { listed store.now right.now.0 ≡ Some result.right }
    ensures store { IsStore store.now }
{
    Level {
        left: entries_at(store, left),
        right: Finder::new(entries_at(store, right)),
    }
}

/// The first path of the first tree that is comparable with one of the second, and the first of the second that it is
/// comparable with.
pub fn first_clash(
    alloc: Global,
    store: &Store,
    a: &Name,
    b: &Name,
) -> Result<Option<(Path, Path)>, AllocError>
    requires first { has Tree store.now a.now.0 ≡ true }
    requires second { has Tree store.now b.now.0 ≡ true }
    ensures { IfOk result (λ found. found ≡ clash (flat store.now a.now.0) (flat store.now b.now.0)) }
{
    let mut components = Vec::new(alloc);
    let mut levels = Vec::new(alloc);
    levels.push(level_at(store, a, b))?;
    'levels: while let Some(mut level) = levels.pop() {
        let Some(entry) = level.left.next() else {
            go_up(&mut components);
            continue 'levels;
        };
        let found = level.right.find(entry.component);
        levels.push(level)?;
        let Some(found) = found else {
            continue 'levels;
        };
        components.push(copied(alloc, entry.component)?)?;
        if !are_directories(entry.mode, found.mode) {
            let own = Found {
                mode: entry.mode,
                name: entry.name,
            };
            return Ok(Some(clash_at(alloc, store, components, &own, &found)?));
        }
        levels.push(level_at(store, &entry.name, &found.name))?;
    }
    Ok(None)
}

fn are_directories(a: Mode, b: Mode) -> bool
    ensures { result ≡ (is_dir a && is_dir b) }
{
    a.is_dir() && b.is_dir()
}

// The first path of what two entries of one component have in each tree, where one of the two is a leaf.
fn clash_at(
    alloc: Global,
    store: &Store,
    components: Vec<Component>,
    left: &Found,
    right: &Found,
) -> Result<(Path, Path), AllocError>
    requires path { is_path components.items ≡ true }
    requires left { has_child store.now left.now.mode left.now.name.0 ≡ true }
    requires right { has_child store.now right.now.mode right.now.name.0 ≡ true }
    requires leaf { (is_dir left.now.mode && is_dir right.now.mode) ≡ false }
    ensures { IfOk result (λ found. Some found ≡ option_map (pair_behind components.items)
        (clash (rests (node store.now left.now)) (rests (node store.now right.now)))) }
{
    store_law(store);
    let path = Path::of(components);
    let other = path.copy(alloc)?.into_components();
    let own = first_path(alloc, store, path.into_components(), left)?;
    let by = first_path(alloc, store, other, right)?;
    Ok((own, by))
}

// The first path of what two entries of one component have in their trees.
fn first_path(
    alloc: Global,
    store: &Store,
    components: Vec<Component>,
    found: &Found,
) -> Result<Path, AllocError>
    requires path { is_path components.items ≡ true }
    requires held { has_child store.now found.now.mode found.now.name.0 ≡ true }
    ensures { IfOk result (λ path. Some path ≡ first_behind components.items (rests (node store.now found.now))) }
{
    if !found.mode.is_dir() {
        return Ok(Path::of(components));
    }
    let mut levels = Vec::new(alloc);
    levels.push(entries_at(store, &found.name))?;
    match next_leaf(alloc, store, &mut levels, components)? {
        Some((path, _)) => Ok(path),
        None => unreachable!(),
    }
}
