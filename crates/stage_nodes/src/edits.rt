// Edits at a path.
ghost use Rattle.std.specs.Prelude.{◌≡◌, ◌<◌, List, true, false, drop, length, IfOk, OnErr};
ghost use Rattle.git_objects.specs.Paths.{is_path};
ghost use Rattle.object_store.specs.Objects.{Object};
ghost use Rattle.stage_nodes.specs.Branches.{CanCut, HasSpot, IsBranch, IsCut, IsCutAt, IsRemoved, IsReplaced};
ghost use Rattle.stage_nodes.specs.Branches.{is_alone, reached};
ghost use Rattle.stage_nodes.specs.Expanding.{IsWaste};
ghost use Rattle.stage_nodes.specs.Pools.{IsPool};
ghost use Rattle.stage_nodes.specs.Walks.{CanPrune};
ghost use Rattle.stage_nodes.specs.Ways.{IsWay};
ghost use Rattle.stage_nodes.specs.Forests.{is_link};

use crate::nodes::{Content, Link, Nodes};
use crate::ways::Way;
use git_objects::Component;
use path_trees::Found;
use std::alloc::AllocError;

impl Nodes {
    /// Makes a node for each component from a level on: each but the last a directory with the next as its only child.
    pub fn branch(
        &mut self,
        components: &[Component],
        level: usize,
        found: Found,
    ) -> Result<usize, AllocError>
        requires pool { IsPool self.old }
        requires level { level < length components.now }
        ensures ok { IfOk result (IsBranch self.old self.new (drop level components.now) found) }
        ensures err { OnErr result (IsWaste self.old self.new) }
    {
        let mut depth = components.len() - 1;
        let mut number = self.add(components[depth].bytes(), Content::Held(found), None)?;
        'depth: while depth > level {
            depth -= 1;
            match self.add(components[depth].bytes(), Content::Open, Some(number)) {
                Ok(above) => number = above,
                Err(_) => {
                    self.free_all(Some(number));
                    return Err(AllocError);
                }
            }
        }
        Ok(number)
    }

    /// Puts a node at a link, in the place of the node that has its component there.
    pub fn replace(&mut self, link: Link, child: Option<usize>, number: usize)
        requires { HasSpot self.old link child number }
        ensures { (h : HasSpot self.old link child number) → IsReplaced self.old self.new link child number h }
    {
        match child {
            None => {
                let behind = self.target(link);
                self.put_before(link, behind, number);
            }
            Some(old) => {
                let behind = self.target(Link::Next(old));
                self.put_before(link, behind, number);
                self.point(Link::Next(old), None);
                self.free_all(Some(old));
            }
        }
    }

    /// The node at the end of a way through so many components, if the way goes that far.
    pub fn reached(&self, way: Way, level: usize) -> Option<usize>
        requires { way.level < level }
        ensures { result ≡ reached level way }
    {
        if way.level + 1 == level {
            way.spot.child
        } else {
            None
        }
    }

    // Whether a node is its directory's only child.
    fn is_alone(&self, link: Link, child: usize) -> bool
        requires { is_link self.now.cells.items (Link.Next child) ≡ true }
        ensures { result ≡ is_alone self.now.cells.items link child }
    {
        match link {
            Link::First(_) => self.target(Link::Next(child)).is_none(),
            Link::Next(_) => false,
        }
    }

    /// Takes a node out, with all below it.
    pub fn cut(&mut self, link: Link, child: usize)
        requires { CanCut self.old link child }
        ensures { (h : CanCut self.old link child) → IsCut self.old self.new link child h }
    {
        let behind = self.target(Link::Next(child));
        self.point(link, behind);
        self.point(Link::Next(child), None);
        self.free_all(Some(child));
    }

    /// Takes out what stands at the end of a way to a path, if its directory keeps another child. Whether nothing
    /// stands at the path then. Needs no memory.
    pub fn cut_end(&mut self, way: Way, components: &[Component]) -> bool
        requires { (S : List Object) ×
            IsWay S self.old self.old components.now way.level way.spot.link way.spot.child }
        ensures cut { result ≡ true → (S : List Object)
            → (w : IsWay S self.old self.old components.now way.level way.spot.link way.spot.child)
            → IsCutAt S self.old self.new components.now w.place.frames }
        ensures same { result ≡ false → self.new ≡ self.old }
    {
        let Some(child) = self.reached(way, components.len()) else {
            return true;
        };
        if self.is_alone(way.spot.link, child) {
            return false;
        }
        self.cut(way.spot.link, child);
        true
    }

    /// Removes a path and all below it, and the directories that would be left empty, where no stored directory stands
    /// above the path's last component. Needs no memory.
    pub fn prune(&mut self, components: &[Component])
        requires clear { CanPrune self.old components.now }
        requires path { is_path components.now ≡ true }
        ensures { (h : CanPrune self.old components.now) → IsRemoved h.objects self.old self.new components.now }
    {
        let mut level = components.len();
        'levels: while level > 1 {
            let way = self.walk(&components[..level]);
            let Some(child) = self.reached(way, level) else {
                return;
            };
            if !self.is_alone(way.spot.link, child) {
                self.cut(way.spot.link, child);
                return;
            }
            level -= 1;
        }
        let way = self.walk(&components[..1]);
        if let Some(child) = self.reached(way, 1) {
            self.cut(way.spot.link, child);
        }
    }
}
