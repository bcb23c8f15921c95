// The leaves of a tree, one after another.
ghost use Rattle.std.specs.Prelude.{◌≡◌, [], true, drop, reverse, IfOk, is_some, Some, None};
ghost use Rattle.std.specs.Option.{option_map};
ghost use Rattle.std.specs.List.{list_all};
ghost use Rattle.git_objects.specs.Paths.{is_component};
ghost use Rattle.git_objects.specs.Names.{leaf_mode, leaf_name};
ghost use Rattle.git_objects.specs.declared.kind.Kind.TheVariants.{Tree};
ghost use Rattle.object_store.specs.Objects.{IsStore, has};
ghost use Rattle.object_store.specs.Unfolding.{flat};
ghost use Rattle.path_trees.specs.Listed.{listed};
ghost use Rattle.path_trees.specs.Walked.{AreLevels, IsHeldLeaf, IsStep, left_in, walked};

use crate::Leaf;
use crate::directory::entries_of;
use git_objects::{Component, Name, TreeView};
use object_store::Store;
use path_names::Path;
use std::alloc::{AllocError, Global};
use std::marker::Model;

/// The leaves of a tree in path order. What is left to read of each directory that is open stands on a stack of its
/// own, so a tree may have any depth.
#[derive(Drop)]
pub struct Walk<'a> {
    alloc: Global,
    store: &'a Store,
    levels: Vec<TreeView<'a>>,
    current: Option<(Path, Leaf)>,
}

impl<'a> Model for Walk<'a> {
    ghost use Rattle.path_trees.specs.Listed.{listed};
    ghost use Rattle.path_trees.specs.Walked.{IsWalk, Walked, walked};

    ghost Value = { Walked };

    ghost view = { λ w. walked w.store.now w.levels.items w.current };

    ghost invariant = { λ w. IsWalk w.store.now w.levels.items w.current };
}

impl<'a> Walk<'a> {
    /// A walk that stands in front of the first leaf of a tree.
    pub fn new(alloc: Global, store: &'a Store, root: Name) -> Result<Walk<'a>, AllocError>
        requires { has Tree store.now root.0 ≡ true }
        ensures { IfOk result (λ walk. walk
            ≡ record { current = None; left = flat store.now root.0 }) }
    {
        let mut levels = Vec::new(alloc);
        levels.push(entries_at(store, &root))?;
        Ok(Walk {
            alloc,
            store,
            levels,
            current: None,
        })
    }

    /// Goes to the next leaf; false where none is left. After an error the walk is of no use.
    pub fn next(&mut self) -> Result<bool, AllocError>
        ensures { IfOk result (λ more. IsStep self.old.left more self.new) }
    {
        let components = match self.current.take() {
            None => Vec::new(self.alloc),
            Some((path, _)) => directory_of(path),
        };
        self.current = next_leaf(self.alloc, self.store, &mut self.levels, components)?;
        Ok(self.current.is_some())
    }

    /// The path of the leaf where the walk stands.
    pub fn path(&self) -> &Path
        requires { is_some self.now.current ≡ true }
        ensures { option_map (λ e. e.0) self.now.current ≡ Some result.now }
    {
        match &self.current {
            Some((path, _)) => path,
            None => unreachable!(),
        }
    }

    /// The leaf where the walk stands.
    pub fn leaf(&self) -> Leaf
        requires { is_some self.now.current ≡ true }
        ensures mode { option_map (λ e. leaf_mode e.1) self.now.current ≡ Some result.mode }
        ensures name { option_map (λ e. leaf_name e.1) self.now.current ≡ Some result.name.0 }
    {
        match &self.current {
            Some((_, leaf)) => *leaf,
            None => unreachable!(),
        }
    }
}

// A path's components but the last.
fn directory_of(path: Path) -> Vec<Component>
    ensures directory { reverse result.items ≡ drop 1 (reverse path) }
    ensures components { list_all is_component result.items ≡ true }
{
    let mut components = path.into_components();
    go_up(&mut components);
    components
}

// The components without the last one, if there is one.
pub fn go_up(components: &mut Vec<Component>)
    requires { list_all is_component components.old.items ≡ true }
    ensures directory { reverse components.new.items ≡ drop 1 (reverse components.old.items) }
    ensures components { list_all is_component components.new.items ≡ true }
{
    let _ = components.pop();
}

// A component with these bytes.
pub fn copied(alloc: Global, component: &[u8]) -> Result<Component, AllocError>
    requires { is_component component.now ≡ true }
    ensures { IfOk result (λ copy. copy ≡ component.now) }
{
    Ok(Component::of(component.to_vec(alloc)?))
}

/// The entries of the tree of that name. Needs no memory.
pub fn entries_at<'a>(store: &'a Store, name: &Name) -> TreeView<'a>
    requires { has Tree store.now name.now.0 ≡ true }
    ensures listed { listed store.now name.now.0 ≡ Some result }
    ensures store { IsStore store.now }
{
    match entries_of(store, name) {
        Some(entries) => entries,
        None => unreachable!(),
    }
}

// The next leaf of what is left in open directories, of which the last has these components.
pub fn next_leaf<'a>(
    alloc: Global,
    store: &'a Store,
    levels: &mut Vec<TreeView<'a>>,
    components: Vec<Component>,
) -> Result<Option<(Path, Leaf)>, AllocError>
    requires levels { AreLevels store.now levels.old.items }
    requires components { list_all is_component components.items ≡ true }
    ensures leaf { IfOk result (λ current. IsStep
        (left_in store.now (reverse levels.old.items) (reverse components.items))
        (is_some current) (walked store.now levels.new.items current)) }
    ensures held { IfOk result (IsHeldLeaf store.now) }
    ensures levels { AreLevels store.now levels.new.items }
{
    let mut components = components;
    'levels: while let Some(mut level) = levels.pop() {
        let Some(entry) = level.next() else {
            go_up(&mut components);
            continue 'levels;
        };
        levels.push(level)?;
        components.push(copied(alloc, entry.component)?)?;
        if !entry.mode.is_dir() {
            let leaf = Leaf {
                mode: entry.mode,
                name: entry.name,
            };
            return Ok(Some((Path::of(components), leaf)));
        }
        levels.push(entries_at(store, &entry.name))?;
    }
    Ok(None)
}
