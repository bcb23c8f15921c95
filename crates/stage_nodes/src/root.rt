// The root of a stage.
ghost use Rattle.std.specs.Prelude.{◌≡◌, ◌+◌, [], IfOk, OnErr, OnOk};
ghost use Rattle.stage_nodes.specs.Forests.{size};
ghost use Rattle.stage_nodes.specs.Ways.{kids_of};
ghost use Rattle.stage_nodes.specs.Roots.{IsOfRoot, IsOpened, IsRooted, IsStage, IsUnopened, items_of};

use crate::nodes::{Content, Link, Node, Nodes};
use git_objects::{Mode, Name};
use object_store::Store;
use path_trees::Found;
use std::alloc::{AllocError, Global};

// Room for the nodes of a few directories.
const NODES: usize = 256;

// Room for the bytes of their entries.
const NAMES: usize = 40 * NODES;

impl Nodes {
    /// A root of that name, which no path has gone through.
    pub fn of_root(alloc: Global, name: Name) -> Result<Nodes, AllocError>
        ensures { IfOk result (λ s. IsOfRoot s name) }
    {
        let mut cells = Vec::with_capacity(alloc, NODES)?;
        let found = Found {
            mode: Mode::Dir,
            name,
        };
        cells.push(Node {
            at: 0,
            len: 0,
            content: Content::Held(found),
            first: None,
            next: None,
        })?;
        Ok(Nodes {
            cells,
            names: Vec::with_capacity(alloc, NAMES)?,
            free: None,
        })
    }

    /// Makes nodes of the root's entries, where they aren't yet.
    pub fn open_root(&mut self, alloc: Global, store: &Store) -> Result<(), AllocError>
        requires stage { IsStage self.old }
        requires held { IsRooted store.now (items_of self.old) }
        ensures ok { OnOk result (IsOpened store.now self.old self.new) }
        ensures err { OnErr result (IsUnopened self.old self.new) }
    {
        match self.cells[0].content {
            Content::Open => Ok(()),
            Content::Held(found) => self.expand(alloc, store, 0, &found.name),
        }
    }

    /// How many nodes the links from the root reach: all but the free ones.
    pub fn reachable(&self) -> usize
        requires { IsStage self.now }
        ensures { result ≡ size (kids_of self.now) + 1 }
    {
        let mut count = self.cells.len();
        let mut top = self.free;
        'free: while let Some(number) = top {
            count -= 1;
            top = self.target(Link::Next(number));
        }
        count
    }

    /// Leaves nothing but an empty root.
    pub fn clear(&mut self)
        requires { IsStage self.old }
        ensures stage { IsStage self.new }
        ensures items { items_of self.new ≡ [] }
    {
        let root = self.cells[0];
        let empty = Node {
            content: Content::Open,
            first: None,
            ..root
        };
        self.set(0, empty);
        self.free_all(root.first);
    }
}
