// The tree that one commit's changes edit.
ghost use Rattle.std.specs.Prelude.{◌≡◌, true, [], List, IfOk, OnErr, OnOk};
ghost use Rattle.git_objects.specs.Trees.{Flat, put, remove};
ghost use Rattle.git_objects.specs.declared.kind.Kind.TheVariants.{Tree};
ghost use Rattle.object_store.specs.Objects.{IsStore, Object, has, has_child};
ghost use Rattle.object_store.specs.Unfolding.{flat};
ghost use Rattle.path_trees.specs.Standing.{node};
ghost use Rattle.path_trees.specs.declared.found.Found.{Found};
ghost use Rattle.stage_tree.specs.Edits.{IsEdited, set_in};
ghost use Rattle.stage_tree.specs.Finished.{IsFinished};
ghost use Rattle.stage_tree.specs.Stages.{Shows};

use crate::StageFault;
use crate::last::{Last, arrive};
use crate::sets::{most_with_leaf, put_kept, put_last};
use git_objects::{Name, name_bytes_law};
use object_store::{Store, store_law};
use path_names::Path;
use path_trees::{Found, Leaf, TreeFault};
use stage_nodes::{Content, Nodes};
use std::alloc::{AllocError, Global};
use std::marker::Model;

/// A tree being edited. Its directories are nodes of one vector once a path has gone through them, and names of stored
/// trees until then.
#[derive(Drop)]
pub struct Stage {
    pub(crate) alloc: Global,
    pub(crate) nodes: Nodes,
    // No more files than these are shown; 4,294,967,295 stands for any number.
    pub(crate) most: u32,
    pub(crate) last: Last,
}

impl Model for Stage {
    ghost use Rattle.stage_tree.specs.Sets.{IsMarked};
    ghost use Rattle.stage_tree.specs.Stages.{Staged, staged};

    ghost Value = { Staged };

    ghost view = { λ s. staged s.nodes s.most };

    ghost invariant = { λ s. IsMarked s.nodes s.last };
}

impl Stage {
    /// A stage that stands for a stored tree, which isn't read.
    pub fn begin(alloc: Global, store: &Store, root: Name) -> Result<Stage, AllocError>
        requires { has Tree store.now root.0 ≡ true }
        ensures shows { IfOk result (λ s. Shows store.now s (flat store.now root.0)) }
        ensures nodes { IfOk result (λ s. s.nodes ≡ 1) }
    {
        let most = match store.stats(&root) {
            None => unreachable!(),
            Some(stats) => stats.files,
        };
        store_law(store);
        Ok(Stage {
            alloc,
            nodes: Nodes::of_root(alloc, root)?,
            most,
            last: Last::new(alloc),
        })
    }

    /// A stage that stands for the empty tree.
    pub fn empty(alloc: Global) -> Result<Stage, AllocError>
        ensures { IfOk result (λ s. (S : List Object) → IsStore S → Shows S s []) }
    {
        // The root is a name until it is cleared.
        let nodes = Nodes::of_root(alloc, Name([0; 20]))?;
        let mut stage = Stage {
            alloc,
            nodes,
            most: 0,
            last: Last::new(alloc),
        };
        stage.clear();
        Ok(stage)
    }

    /// Puts a leaf at a path, where every path that is comparable with it goes. Paths in the order of their bytes cost
    /// their depth and the entries between them. The path is copied: `set_owned` takes it without a copy.
    pub fn set(&mut self, store: &Store, path: &Path, leaf: Leaf) -> Result<(), StageFault>
        requires leaf { has_child store.now leaf.mode leaf.name.0 ≡ true }
        requires shows { (t : Flat) × Shows store.now self.old t }
        ensures { (t : Flat) → Shows store.now self.old t → IsEdited store.now self.new t
            (set_in t path.now (node store.now (record { mode = leaf.mode; name = leaf.name }))) result }
    {
        let path = path.copy(self.alloc)?;
        self.set_owned(store, path, leaf)
    }

    /// Puts a leaf at a path as `set` does. The path is given up: its directory is kept and not copied.
    pub fn set_owned(&mut self, store: &Store, path: Path, leaf: Leaf) -> Result<(), StageFault>
        requires leaf { has_child store.now leaf.mode leaf.name.0 ≡ true }
        requires shows { (t : Flat) × Shows store.now self.old t }
        ensures { (t : Flat) → Shows store.now self.old t → IsEdited store.now self.new t
            (set_in t path (node store.now (record { mode = leaf.mode; name = leaf.name }))) result }
    {
        name_bytes_law(&leaf.name);
        let found = Found {
            mode: leaf.mode,
            name: leaf.name,
        };
        let components = path.into_components();
        let way = arrive(
            &mut self.nodes,
            &mut self.last,
            self.alloc,
            store,
            &components,
        )?;
        let child = way.spot.child;
        let most = most_with_leaf(&self.nodes, self.alloc, store, child, self.most)?;
        put_kept(&mut self.nodes, &mut self.last, way, components, found)?;
        self.most = most;
        Ok(())
    }

    /// Puts a leaf or a stored directory at a path, where every path that is comparable with it goes. No number of
    /// files is refused: they are counted by the next `set` or `copy` and not here.
    pub fn put(&mut self, store: &Store, path: &Path, found: Found) -> Result<(), AllocError>
        requires found { has_child store.now found.mode found.name.0 ≡ true }
        requires shows { (t : Flat) × Shows store.now self.old t }
        ensures ok { OnOk result ((t : Flat) → Shows store.now self.old t
            → Shows store.now self.new (put t path.now (node store.now found))) }
        ensures err { OnErr result ((t : Flat) → Shows store.now self.old t → Shows store.now self.new t) }
    {
        name_bytes_law(&found.name);
        let components = path.components();
        let way = arrive(
            &mut self.nodes,
            &mut self.last,
            self.alloc,
            store,
            components,
        )?;
        put_last(
            &mut self.nodes,
            &mut self.last,
            self.alloc,
            way,
            components,
            found,
        )?;
        self.most = u32::MAX;
        Ok(())
    }

    /// Removes a path and all below it. Nothing there is no fault.
    pub fn remove(&mut self, store: &Store, path: &Path) -> Result<(), AllocError>
        requires { (t : Flat) × Shows store.now self.old t }
        ensures ok { OnOk result ((t : Flat) → Shows store.now self.old t
            → Shows store.now self.new (remove t path.now)) }
        ensures err { OnErr result ((t : Flat) → Shows store.now self.old t → Shows store.now self.new t) }
    {
        let components = path.components();
        let way = arrive(
            &mut self.nodes,
            &mut self.last,
            self.alloc,
            store,
            components,
        )?;
        if self.nodes.cut_end(way, components) {
            self.last.remember_before(self.alloc, components, way);
        } else {
            self.nodes.prune(components);
        }
        Ok(())
    }

    /// Removes all paths. Needs no memory.
    pub fn clear(&mut self)
        ensures { (S : List Object) → IsStore S → Shows S self.new [] }
    {
        self.nodes.clear();
        self.most = 0;
        self.last.child = None;
    }

    /// Stores the tree that is shown, and gives its name. A directory that no path has gone through keeps its name
    /// and isn't read. At an error some directories may have been stored.
    pub fn finish(&mut self, store: &mut Store) -> Result<Name, TreeFault>
        requires { (t : Flat) × Shows store.old self.old t }
        ensures { (t : Flat) → Shows store.old self.old t
            → IsFinished store.old store.new self.new t result }
    {
        self.last.child = None;
        match self.nodes.cells[0].content {
            Content::Held(found) => Ok(found.name),
            Content::Open => self.nodes.finish(self.alloc, store),
        }
    }

    /// How many nodes there are. Needs no memory.
    pub fn nodes(&self) -> usize
        ensures { result ≡ self.now.nodes }
    {
        self.nodes.reachable()
    }
}
