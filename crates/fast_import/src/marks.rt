// The marks that a stream has given.
ghost use Rattle.std.specs.Prelude.{◌≡◌, [], ℕ, Some, nat_eq, cond, OnErr, OnOk};
ghost use Rattle.std.specs.Map.{lookup};

use git_objects::Name;
use indexmap::IndexMap;
use std::alloc::{AllocError, Global};
use std::marker::Model;

/// What a mark names.
#[derive(Clone, Copy)]
pub(crate) enum Marked {
    Blob(Name),
    Commit(Name),
    /// It names nothing that a later command can use.
    Tag,
}

/// What each mark names. A mark that is given again names the new object.
#[derive(Drop)]
pub(crate) struct Marks {
    named: IndexMap<u64, Marked>,
}

impl Model for Marks {
    ghost use Rattle.std.specs.Prelude.{List, ℕ};
    ghost use Rattle.fast_import.specs.declared.marks.Marked.{Marked};

    ghost Value = { List (ℕ × Marked) };

    ghost view = { λ m. m.named.entries };
}

impl Marks {
    pub(crate) fn new(alloc: Global) -> Marks
        ensures { result ≡ [] }
    {
        Marks {
            named: IndexMap::new(alloc),
        }
    }

    pub(crate) fn get(&self, mark: u64) -> Option<Marked>
        ensures { result ≡ lookup (nat_eq mark) self.now }
    {
        self.named.get(&mark).copied()
    }

    pub(crate) fn set(&mut self, mark: u64, marked: Marked) -> Result<(), AllocError>
        ensures ok { OnOk result ((q : ℕ) →
            lookup (nat_eq q) self.new ≡ cond (nat_eq mark q) (Some marked) (lookup (nat_eq q) self.old)) }
        ensures err { OnErr result (self.new ≡ self.old) }
    {
        self.named.insert(mark, marked)?;
        Ok(())
    }
}
