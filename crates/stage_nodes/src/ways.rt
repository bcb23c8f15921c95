// The way to a path, from the root down.
ghost use Rattle.std.specs.Prelude.{◌≡◌, ◌<◌, true, IfOk, OnErr, Some};
ghost use Rattle.git_objects.specs.Paths.{is_path};
ghost use Rattle.git_objects.specs.Entries.{is_dir};
ghost use Rattle.stage_nodes.specs.Forests.{is_link, sought, target};
ghost use Rattle.stage_nodes.specs.Pools.{Walks, hanging};
ghost use Rattle.stage_nodes.specs.Ways.{HasPlace, IsEntered, IsOpen, IsStart, IsStill, IsWayBy, named_first};

use crate::nodes::{Content, Link, Nodes};
use git_objects::{Component, Mode};
use object_store::Store;
use std::alloc::{AllocError, Global};

/// A place among siblings, and the node there, if it has the component that was looked for.
#[derive(Clone, Copy)]
pub struct Spot {
    pub link: Link,
    pub child: Option<usize>,
}

/// Where the way to a path ends, and how many components lie before that.
#[derive(Clone, Copy)]
pub struct Way {
    pub level: usize,
    pub spot: Spot,
}

pub fn is_dir(mode: Mode) -> bool
    ensures { result ≡ is_dir mode }
{
    mode == Mode::Dir
}

impl Nodes {
    // The node at a link, if it has this component.
    fn named(&self, link: Link, component: &[u8]) -> Option<usize>
        requires link { is_link self.now.cells.items link ≡ true }
        requires walk { Walks self.now (target self.now.cells.items link) }
        ensures { result ≡ named_first component.now (hanging self.now link) }
    {
        let number = self.target(link)?;
        let node = self.cells[number];
        if self.is_named(node, component) {
            Some(number)
        } else {
            None
        }
    }

    // The place of a component in a directory.
    pub(crate) fn spot(&self, directory: usize, component: &[u8]) -> Spot
        requires link { is_link self.now.cells.items (Link.First directory) ≡ true }
        requires walk { Walks self.now (target self.now.cells.items (Link.First directory)) }
        ensures link { result.link
            ≡ sought component.now (Link.First directory) (hanging self.now (Link.First directory)) }
        ensures child { result.child ≡ named_first component.now (hanging self.now result.link) }
    {
        self.spot_from(Link::First(directory), component)
    }

    /// The place of a component among the siblings from a link on.
    pub fn spot_from(&self, start: Link, component: &[u8]) -> Spot
        requires link { is_link self.now.cells.items start ≡ true }
        requires walk { Walks self.now (target self.now.cells.items start) }
        ensures link { result.link ≡ sought component.now start (hanging self.now start) }
        ensures child { result.child ≡ named_first component.now (hanging self.now result.link) }
    {
        let link = self.seek(start, component);
        let child = self.named(link, component);
        Spot { link, child }
    }

    // Enters the directory of that number, whose entries are made nodes where they aren't yet. None: it is no
    // directory.
    fn entered(
        &mut self,
        alloc: Global,
        store: &Store,
        child: Option<usize>,
    ) -> Result<Option<usize>, AllocError>
        requires opened { IsOpen store.now self.old }
        requires place { HasPlace store.now self.old child }
        ensures ok { IfOk result (IsEntered store.now self.old self.new child) }
        ensures err { OnErr result (IsStill store.now self.old self.new) }
    {
        let Some(number) = child else {
            return Ok(None);
        };
        match self.cells[number].content {
            Content::Open => Ok(Some(number)),
            Content::Held(found) => {
                if !is_dir(found.mode) {
                    return Ok(None);
                }
                self.expand(alloc, store, number, &found.name)?;
                Ok(Some(number))
            }
        }
    }

    /// Goes down to a path from a link in the directory of its first components, as far as there are directories, and
    /// makes nodes of the entries of each stored one. `passed` has the numbers of the directories of these components,
    /// and gets those of the directories that are entered.
    pub fn way(
        &mut self,
        alloc: Global,
        store: &Store,
        components: &[Component],
        start: Link,
        passed: &mut Vec<usize>,
    ) -> Result<Way, AllocError>
        requires opened { IsOpen store.now self.old }
        requires path { is_path components.now ≡ true }
        requires start { IsStart store.now self.old components.now passed.old.items start }
        ensures ok { IfOk result (λ w. IsWayBy store.now self.old self.new components.now passed.new.items
            w.level w.spot.link w.spot.child) }
        ensures err { OnErr result (IsStill store.now self.old self.new) }
    {
        let last = components.len() - 1;
        let mut link = start;
        for level in passed.len()..last {
            let spot = self.spot_from(link, components[level].bytes());
            match self.entered(alloc, store, spot.child)? {
                Some(number) => {
                    passed.push(number)?;
                    link = Link::First(number);
                }
                None => return Ok(Way { level, spot }),
            }
        }
        let spot = self.spot_from(link, components[last].bytes());
        Ok(Way { level: last, spot })
    }
}
