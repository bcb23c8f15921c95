// Walks to a path, from the root down.
ghost use Rattle.std.specs.Prelude.{◌≡◌, ◌+◌, ◌<◌, ◌≤◌, [], true, length, IfOk, IfSome, OnErr};
ghost use Rattle.std.specs.Prelude.{OnOk};
ghost use Rattle.stage_nodes.specs.Forests.{is_link, target};
ghost use Rattle.stage_nodes.specs.Pools.{Walks, hanging};
ghost use Rattle.git_objects.specs.Names.{tops};
ghost use Rattle.git_objects.specs.Paths.{is_path};
ghost use Rattle.git_objects.specs.Trees.{Flat, under};
ghost use Rattle.object_store.specs.Objects.{IsStore};
ghost use Rattle.stage_nodes.specs.Branches.{Stands};
ghost use Rattle.stage_nodes.specs.Walks.{IsCleared, IsPaid, IsStop, IsWalkable, IsWayPaid, StaysClear, breadth};
ghost use Rattle.stage_nodes.specs.Walks.{is_clear, open_number};
ghost use Rattle.stage_nodes.specs.Roots.{IsOpened, IsRooted, IsStage, IsUnopened, items_of};
ghost use Rattle.stage_nodes.specs.Ways.{HasPlace, IsEntered, IsOpen, IsStill, kids_of};

use crate::nodes::{Content, Link, Nodes};
use crate::ways::{Way, is_dir};
use git_objects::{Component, Steps};
use object_store::Store;
use std::alloc::{AllocError, Global};
use std::sync::ledger::Ledger;

impl Nodes {
    // A node's number, if it is a directory whose children are nodes.
    fn if_open(&self, child: Option<usize>) -> Option<usize>
        requires { IfSome child (λ k. k < length self.now.cells.items) }
        ensures { result ≡ open_number self.now.cells.items child }
    {
        let number = child?;
        match self.cells[number].content {
            Content::Open => Some(number),
            Content::Held(_) => None,
        }
    }

    /// Goes down to a path, as far as there are directories whose children are nodes.
    pub fn walk(&self, components: &[Component]) -> Way
        requires nodes { IsWalkable self.now }
        requires path { is_path components.now ≡ true }
        ensures { (h : IsWalkable self.now) → is_clear (kids_of self.now) components.now ≡ true
            → IsStop h.objects self.now components.now result.level result.spot.link result.spot.child }
    {
        let last = components.len() - 1;
        let mut directory = 0;
        for level in 0..last {
            let spot = self.spot(directory, components[level].bytes());
            match self.if_open(spot.child) {
                Some(number) => directory = number,
                None => return Way { level, spot },
            }
        }
        let spot = self.spot(directory, components[last].bytes());
        Way { level: last, spot }
    }

    // A step for each sibling from a link on.
    fn tick_siblings<L: Ledger>(&self, start: Link, steps: &mut Steps<L>)
        requires link { is_link self.now.cells.items start ≡ true }
        requires walk { Walks self.now (target self.now.cells.items start) }
        ensures { steps.new ≡ steps.old + breadth (hanging self.now start) }
    {
        let mut link = start;
        'siblings: while let Some(number) = self.target(link) {
            steps.tick();
            link = Link::Next(number);
        }
    }

    // Enters the directory of that number, whose entries are made nodes where they aren't yet, with a step for each.
    // None: it is no directory.
    fn enter<L: Ledger>(
        &mut self,
        alloc: Global,
        store: &Store,
        child: Option<usize>,
        steps: &mut Steps<L>,
    ) -> Result<Option<usize>, AllocError>
        requires opened { IsOpen store.now self.old }
        requires place { HasPlace store.now self.old child }
        ensures ok { IfOk result (IsEntered store.now self.old self.new child) }
        ensures clear { OnOk result (StaysClear self.old self.new) }
        ensures err { OnErr result (IsStill store.now self.old self.new) }
        ensures paid { IsPaid store.now self.old child steps.old steps.new }
    {
        let Some(number) = child else {
            return Ok(None);
        };
        match self.cells[number].content {
            Content::Open => Ok(Some(number)),
            Content::Held(found) => {
                if !is_dir(found.mode) {
                    return Ok(None);
                }
                self.expand(alloc, store, number, &found.name)?;
                self.tick_siblings(Link::First(number), steps);
                Ok(Some(number))
            }
        }
    }

    /// Makes nodes of the entries of each stored directory above a path's last component, with a step for each entry.
    pub fn open_way<L: Ledger>(
        &mut self,
        alloc: Global,
        store: &Store,
        components: &[Component],
        steps: &mut Steps<L>,
    ) -> Result<(), AllocError>
        requires opened { IsOpen store.now self.old }
        requires path { is_path components.now ≡ true }
        ensures ok { OnOk result (IsCleared store.now self.old self.new components.now) }
        ensures err { OnErr result (IsStill store.now self.old self.new) }
        ensures paid { IsWayPaid store.now self.old components.now steps.old steps.new }
    {
        let last = components.len() - 1;
        let mut directory = 0;
        for level in 0..last {
            let spot = self.spot(directory, components[level].bytes());
            match self.enter(alloc, store, spot.child, steps)? {
                Some(number) => directory = number,
                None => return Ok(()),
            }
        }
        Ok(())
    }

    /// Makes nodes of the root's entries, where they aren't yet, with a step for each.
    pub fn enter_root<L: Ledger>(
        &mut self,
        alloc: Global,
        store: &Store,
        steps: &mut Steps<L>,
    ) -> Result<(), AllocError>
        requires store { IsStore store.now }
        requires stage { IsStage self.old }
        requires held { IsRooted store.now (items_of self.old) }
        ensures ok { OnOk result (IsOpened store.now self.old self.new) }
        ensures err { OnErr result (IsUnopened self.old self.new) }
        ensures paid { OnOk result ((t : Flat) → Stands store.now self.new t
            → steps.new ≤ steps.old + length (tops (under t []))) }
        ensures none { OnErr result (steps.new ≡ steps.old) }
    {
        let root = self.cells[0];
        self.open_root(alloc, store)?;
        if let Content::Held(_) = root.content {
            self.tick_siblings(Link::First(0), steps);
        }
        Ok(())
    }
}
