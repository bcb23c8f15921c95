// Where the originals of pushed commits stand in a graph.
ghost use Rattle.std.specs.Prelude.{◌≡◌, [], OnOk};
ghost use Rattle.merge_push.specs.Places.{place_at, with_place};

use git_objects::Name;
use indexmap::IndexMap;
use std::alloc::{AllocError, Global};
use std::marker::Model;

// Pushed commits by their names, each with the place of its original in the graph.
#[derive(Drop)]
pub(crate) struct Entered {
    places: IndexMap<Name, u32>,
}

impl Model for Entered {
    ghost use Rattle.merge_push.specs.Places.{Places, place_values};

    ghost Value = { Places };

    ghost view = { λ e. place_values e.places.entries };
}

impl Entered {
    // No commits.
    pub(crate) fn new(alloc: Global) -> Entered
        ensures { result ≡ [] }
    {
        Entered {
            places: IndexMap::new(alloc),
        }
    }

    // The place of the original of that commit, where it was pushed. It takes no memory.
    pub(crate) fn place(&self, pushed: &Name) -> Option<u32>
        ensures { result ≡ place_at pushed.now.0 self.now }
    {
        self.places.get(pushed).copied()
    }

    // Adds a commit behind the others, unless one of its name is there.
    pub(crate) fn add(&mut self, pushed: Name, place: u32) -> Result<(), AllocError>
        ensures { OnOk result (self.new ≡ with_place self.old pushed.0 place) }
    {
        if self.place(&pushed).is_some() {
            return Ok(());
        }
        self.places.insert(pushed, place)?;
        Ok(())
    }
}
