// Selecting the filter whose map the ground has.
ghost use Rattle.std.specs.Prelude.{◌≡◌, OnErr, OnOk};
ghost use Rattle.filter_text.specs.Printing.{printed};
ghost use Rattle.filter_text.specs.Shapes.{shape};
ghost use Rattle.repo_ground.specs.Selecting.{IsPutAway, IsSelected};

use crate::State;
use commit_map::CommitMap;
use filter_text::{Filter, print};
use std::alloc::AllocError;

impl State {
    /// Makes the ground's map that of a filter under the ground's rule, with the entries that items hold, unless it is
    /// that already. For want of memory nothing changes.
    pub fn select(&mut self, filter: &Filter) -> Result<(), AllocError>
        ensures selected { OnOk result (IsSelected (printed (shape filter.now)) self.old self.new) }
        ensures same { OnErr result (self.new ≡ self.old) }
    {
        let text = print(self.alloc, filter)?;
        let rule = self.ground.rule;
        if self.maps.is_selected(&text, rule) {
            return Ok(());
        }
        let map = &mut self.ground.map;
        self.maps.select(self.alloc, text, rule, map, self.kept)?;
        self.kept = self.ground.map.len();
        Ok(())
    }

    /// Makes the ground's map empty, so that no filter is selected. The entries that items hold are there again when
    /// their filter is selected. Needs no memory.
    pub fn put_away(&mut self)
        ensures { IsPutAway self.old self.new }
    {
        let empty = CommitMap::new(self.alloc);
        let map = std::mem::replace(&mut self.ground.map, empty);
        self.maps.put_away(map, self.kept);
        self.kept = 0;
    }
}
