// The blobs that a stream has brought.
ghost use Rattle.std.specs.Prelude.{◌≡◌, ◌++◌, ◌∷◌, [], OnErr, OnOk};
ghost use Rattle.std.specs.List.{list_any};
ghost use Rattle.fast_import.specs.Replaying.{is_named};

use git_objects::Name;
use indexmap::IndexSet;
use std::alloc::{AllocError, Global};
use std::marker::Model;

/// The names of the blobs, in order, as often as they were read.
#[derive(Drop)]
pub struct Blobs {
    names: Vec<Name>,
    read: IndexSet<Name>,
}

impl Model for Blobs {
    ghost use Rattle.std.specs.Prelude.{List};
    ghost use Rattle.git_objects.specs.declared.name.Name.{Name};
    ghost use Rattle.fast_import.specs.Replaying.{HasSame};

    ghost Value = { List Name };

    ghost view = { λ b. b.names.items };

    ghost invariant = { λ b. HasSame b.read.keys b.names.items };
}

impl Blobs {
    pub fn new(alloc: Global) -> Blobs
        ensures { result ≡ [] }
    {
        Blobs {
            names: Vec::new(alloc),
            read: IndexSet::new(alloc),
        }
    }

    /// Whether a blob of that name was read.
    pub fn has(&self, name: &Name) -> bool
        ensures { result ≡ list_any (is_named name.now) self.now }
    {
        self.read.contains(name)
    }

    /// Adds a blob behind the others. At a refusal nothing is added.
    pub fn add(&mut self, name: Name) -> Result<(), AllocError>
        ensures ok { OnOk result (self.new ≡ self.old ++ name ∷ []) }
        ensures err { OnErr result (self.new ≡ self.old) }
    {
        self.names.reserve(1)?;
        self.read.insert(name)?;
        let pushed = self.names.push(name);
        prove!(pushed.is_ok());
        Ok(())
    }

    pub fn into_vec(self) -> Vec<Name>
        ensures { result.items ≡ self }
    {
        self.names
    }
}
