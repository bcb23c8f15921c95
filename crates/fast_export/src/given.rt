// The marks that were given.
ghost use Rattle.std.specs.Prelude.{◌≡◌, ◌<◌, ◌++◌, ◌∷◌, [], None, OnErr, OnOk};
ghost use Rattle.std.specs.List.{list_any};
ghost use Rattle.std.specs.Map.{lookup};
ghost use Rattle.indexmap.specs.IndexSet.{insert_key};
ghost use Rattle.fast_export.specs.Given.{is_named, next_of, no_given};

use git_objects::Name;
use indexmap::{IndexMap, IndexSet};
use std::alloc::{AllocError, Global};
use std::marker::Model;

/// The numbers of the blobs and commits that were written, by their names. They count from 1 over both. With them stand
/// trees of which each blob has one.
#[derive(Drop)]
pub struct GivenMarks {
    alloc: Global,
    blobs: IndexMap<Name, u64>,
    commits: IndexMap<Name, u64>,
    trees: IndexSet<Name>,
}

impl Model for GivenMarks {
    ghost use Rattle.fast_export.specs.Given.{Given};

    ghost Value = { Given };

    ghost view = { λ m. record { blobs = m.blobs.entries; commits = m.commits.entries; trees = m.trees.keys } };
}

impl GivenMarks {
    pub fn new(alloc: Global) -> GivenMarks
        ensures { result ≡ no_given }
    {
        GivenMarks {
            alloc,
            blobs: IndexMap::new(alloc),
            commits: IndexMap::new(alloc),
            trees: IndexSet::new(alloc),
        }
    }

    /// The allocator of what is kept of marks.
    pub fn alloc(&self) -> Global {
        self.alloc
    }

    /// The number of the next blob or commit.
    pub fn next(&self) -> u64
        ensures { result ≡ next_of self.now }
    {
        self.blobs.len() as u64 + self.commits.len() as u64 + 1
    }

    pub fn blob(&self, name: &Name) -> Option<u64>
        ensures { result ≡ lookup (is_named name.now) self.now.blobs }
    {
        self.blobs.get(name).copied()
    }

    pub fn commit(&self, name: &Name) -> Option<u64>
        ensures { result ≡ lookup (is_named name.now) self.now.commits }
    {
        self.commits.get(name).copied()
    }

    /// Gives a blob the next number.
    pub fn add_blob(&mut self, name: Name) -> Result<(), AllocError>
        requires { lookup (is_named name) self.old.blobs ≡ None }
        ensures ok { OnOk result (self.new
            ≡ record self.old { blobs = self.old.blobs ++ (name, next_of self.old) ∷ [] }) }
        ensures err { OnErr result (self.new ≡ self.old) }
    {
        let number = self.next();
        self.blobs.insert(name, number)?;
        Ok(())
    }

    /// Gives a commit the next number.
    pub fn add_commit(&mut self, name: Name) -> Result<(), AllocError>
        requires { lookup (is_named name) self.old.commits ≡ None }
        ensures ok { OnOk result (self.new
            ≡ record self.old { commits = self.old.commits ++ (name, next_of self.old) ∷ [] }) }
        ensures err { OnErr result (self.new ≡ self.old) }
    {
        let number = self.next();
        self.commits.insert(name, number)?;
        Ok(())
    }

    /// Whether each blob of a tree is known to have a mark.
    pub fn has_tree(&self, tree: &Name) -> bool
        ensures { result ≡ list_any (is_named tree.now) self.now.trees }
    {
        self.trees.contains(tree)
    }

    /// Adds a tree, of which each blob has a mark.
    pub fn add_tree(&mut self, tree: Name) -> Result<(), AllocError>
        ensures { OnOk result (self.new ≡ record self.old { trees = insert_key is_named self.old.trees tree }) }
    {
        self.trees.insert(tree)?;
        Ok(())
    }
}
