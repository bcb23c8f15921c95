// Kept projections of commits.
ghost use Rattle.std.specs.Prelude.{◌≡◌, ◌<◌, ◌++◌, ◌∷◌, [], length, None, Some, OnOk, OnErr};
ghost use Rattle.std.specs.Prelude.{slice_get, take};
ghost use Rattle.std.specs.Option.{option_map};
ghost use Rattle.commit_map.specs.Shown.{entry_value, kept_at, shown_value};

use git_objects::Name;
use indexmap::IndexMap;
use std::alloc::{AllocError, Global};
use std::marker::Model;

/// The names of a projected commit and of its tree.
#[derive(Clone, Copy, PartialEq, Eq)]
pub struct Shown {
    pub commit: Name,
    pub tree: Name,
}

/// The projections of original commits, or that a commit has none, each set once, in order of arrival.
#[derive(Drop)]
pub struct CommitMap {
    entries: IndexMap<Name, Option<Shown>>,
}

impl Model for CommitMap {
    ghost use Rattle.commit_map.specs.Shown.{Entries, entry_values};

    ghost Value = { Entries };

    ghost view = { λ m. entry_values m.entries.entries };
}

impl CommitMap {
    /// A map in which no commit is.
    pub fn new(alloc: Global) -> CommitMap
        ensures { result ≡ [] }
    {
        CommitMap {
            entries: IndexMap::new(alloc),
        }
    }

    /// How many commits there are.
    pub fn len(&self) -> usize
        ensures { result ≡ length self.now }
    {
        self.entries.len()
    }

    /// The commit at an index in order of arrival, and its projection.
    pub fn entry(&self, i: usize) -> (Name, Option<Shown>)
        requires { i < length self.now }
        ensures { slice_get self.now i ≡ Some (entry_value result) }
    {
        let (original, shown) = self.entries.get_index(i).unwrap();
        (*original, *shown)
    }

    /// The projection of that commit, or that it has none. None: the commit isn't there. It takes no memory.
    pub fn get(&self, original: &Name) -> Option<Option<Shown>>
        ensures { option_map (λ s. option_map shown_value s) result ≡ kept_at original.now.0 self.now }
    {
        self.entries.get(original).copied()
    }

    /// Sets what a commit is projected to, which wasn't set before.
    pub fn set(&mut self, original: Name, shown: Option<Shown>) -> Result<(), AllocError>
        requires { kept_at original.0 self.old ≡ None }
        ensures ok { OnOk result (self.new ≡ self.old ++ (original.0, option_map shown_value shown) ∷ []) }
        ensures err { OnErr result (self.new ≡ self.old) }
    {
        self.entries.insert(original, shown)?;
        Ok(())
    }

    /// Leaves the first commits. It takes no memory.
    pub fn truncate(&mut self, len: usize)
        ensures { self.new ≡ take len self.old }
    {
        self.entries.truncate(len);
    }
}
