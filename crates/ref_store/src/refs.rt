// Refs.
ghost use Rattle.std.specs.Prelude.{◌≡◌, ◌<◌, ◌↔◌, List, [], length, Some, slice_get, IsTrue, IfOk};
ghost use Rattle.std.specs.Prelude.{OnOk, OnErr};
ghost use Rattle.std.specs.Option.{option_map};
ghost use Rattle.ref_store.specs.Refs.{head_of, with_head, AreDistinct};
ghost use Rattle.ref_store.specs.Pairs.{name_bytes};

use git_objects::Name;
use indexmap::IndexMap;
use path_names::RefName;
use std::alloc::{AllocError, Global};
use std::marker::Model;

/// The commit of each ref name, in order of arrival.
#[derive(Drop)]
pub struct Refs {
    heads: IndexMap<RefName, Name>,
}

impl Model for Refs {
    ghost use Rattle.std.specs.Prelude.{List};
    ghost use Rattle.git_objects.specs.Paths.{Bytes};
    ghost use Rattle.ref_store.specs.Pairs.{pairs};

    ghost Value = { List (Bytes × Bytes) };

    ghost view = { λ r. pairs r.heads.entries };
}

impl Refs {
    /// No refs.
    pub fn new(alloc: Global) -> Refs
        ensures { result ≡ [] }
    {
        Refs {
            heads: IndexMap::new(alloc),
        }
    }

    /// How many refs there are.
    pub fn len(&self) -> usize
        ensures len { result ≡ length self.now }
        ensures distinct { AreDistinct self.now }
    {
        self.heads.len()
    }

    pub fn is_empty(&self) -> bool
        ensures { IsTrue result ↔ (length self.now ≡ 0) }
    {
        self.len() == 0
    }

    /// The ref at an index in order of arrival, and its commit.
    pub fn entry(&self, i: usize) -> (&RefName, Name)
        requires { i < length self.now }
        ensures { slice_get self.now i ≡ Some (result.0.now, result.1.0) }
    {
        let (refname, head) = self.heads.get_index(i).unwrap();
        (refname, *head)
    }

    /// The commit of that ref.
    pub fn get(&self, refname: &RefName) -> Option<Name>
        ensures { option_map name_bytes result ≡ head_of self.now refname.now }
    {
        self.heads.get(refname).copied()
    }

    /// Gives a ref that commit. A ref that is there keeps its place, and a new one comes behind the others.
    pub fn set(&mut self, refname: RefName, head: Name) -> Result<(), AllocError>
        ensures ok { OnOk result (self.new ≡ with_head self.old refname head.0) }
        ensures err { OnErr result (self.new ≡ self.old) }
    {
        self.heads.insert(refname, head)?;
        Ok(())
    }

    /// A copy of the refs in memory of its own.
    pub fn copy(&self) -> Result<Refs, AllocError>
        ensures { IfOk result (λ copy. copy ≡ self.now) }
    {
        let alloc = *self.heads.allocator();
        let mut heads = IndexMap::with_capacity(alloc, self.heads.len())?;
        for i in 0..self.heads.len() {
            let (refname, head) = self.heads.get_index(i).unwrap();
            heads.insert(refname.copy(alloc)?, *head)?;
        }
        Ok(Refs { heads })
    }
}
