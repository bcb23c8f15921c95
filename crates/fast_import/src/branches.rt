// The branches that a stream has set.
ghost use Rattle.std.specs.Prelude.{◌≡◌, [], map, OnErr, OnOk};
ghost use Rattle.std.specs.Option.{option_map};
ghost use Rattle.std.specs.FinMap.{find, put};
ghost use Rattle.git_objects.specs.Parts.{name_bytes};
ghost use Rattle.git_objects.specs.Refs.{bytes_cmp};
ghost use Rattle.fast_import.specs.Replaying.{setting_value, without_ref};

use crate::Setting;
use git_objects::Name;
use path_names::RefName;
use std::alloc::{AllocError, Global};
use std::collections::BTreeMap;
use std::marker::Model;

/// The branches that are set, with their commits. There is room for as many settings, so that the end takes no memory.
#[derive(Drop)]
pub(crate) struct Branches {
    heads: BTreeMap<RefName, Name>,
    room: Vec<Setting>,
}

impl Model for Branches {
    ghost use Rattle.git_objects.specs.Refs.{Refs};
    ghost use Rattle.fast_import.specs.Replaying.{HasRoom, head_values};

    ghost Value = { Refs };

    ghost view = { λ b. head_values b.heads.entries };

    ghost invariant = { λ b. HasRoom b.heads.entries b.room };
}

impl Branches {
    pub(crate) fn new(alloc: Global) -> Branches
        ensures { result ≡ [] }
    {
        Branches {
            heads: BTreeMap::new(alloc),
            room: Vec::new(alloc),
        }
    }

    pub(crate) fn get(&self, refname: &RefName) -> Option<Name>
        ensures { option_map name_bytes result ≡ find bytes_cmp refname.now self.now }
    {
        self.heads.get(refname).copied()
    }

    pub(crate) fn set(&mut self, refname: RefName, head: Name) -> Result<(), AllocError>
        ensures ok { OnOk result (self.new ≡ put bytes_cmp refname head.0 self.old) }
        ensures err { OnErr result (self.new ≡ self.old) }
    {
        self.room.reserve(self.heads.len() + 1)?;
        self.heads.insert(refname, head)?;
        Ok(())
    }

    /// Makes a branch unset. Takes no memory.
    pub(crate) fn unset(&mut self, refname: &RefName)
        ensures { self.new ≡ without_ref refname.now self.old }
    {
        let _ = self.heads.remove(refname);
    }

    /// The branches in the byte order of the refs. Takes no memory.
    pub(crate) fn into_settings(self) -> Vec<Setting>
        ensures { map setting_value result.items ≡ self }
    {
        let Branches { heads, mut room } = self;
        for (refname, head) in heads {
            let pushed = room.push(Setting { refname, head });
            prove!(pushed.is_ok());
        }
        room
    }
}
