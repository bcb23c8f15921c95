// Nodes in one vector, linked by their numbers.
ghost use Rattle.std.specs.Prelude.{◌≡◌, ◌++◌, ◌+◌, ◌<◌, ◌≤◌, true, false, length, slice_range};
ghost use Rattle.std.specs.Prelude.{slice_set, Some};
ghost use Rattle.std.specs.Prelude.{IfOk, IfSome, OnErr, OnOk};
ghost use Rattle.std.specs.Ordering.{is_lt};
ghost use Rattle.stage_nodes.specs.Forests.{IsWalk, bytes_cmp, forest, is_link, node_component, sought, target, weight};
ghost use Rattle.git_objects.specs.Paths.{Bytes, is_component, same_bytes};
ghost use Rattle.stage_nodes.specs.Closing.{CanClose, IsClosedAt};
ghost use Rattle.stage_nodes.specs.Directories.{IsAddedTo, IsDirectory, has_component};
ghost use Rattle.stage_nodes.specs.Expanding.{AreChildren, IsClosed, IsExpanded, IsFilling, IsLastBefore, IsPartly};
ghost use Rattle.stage_nodes.specs.Expanding.{IsWaste};
ghost use Rattle.git_objects.specs.declared.kind.Kind.TheVariants.{Tree};
ghost use Rattle.object_store.specs.Objects.{IsStore, has};
ghost use Rattle.stage_nodes.specs.Forests.{Nil};
ghost use Rattle.git_objects.specs.Bodies.{is_name};
ghost use Rattle.git_objects.specs.Entries.{AreEntries, body_text, is_dir};
ghost use Rattle.std.specs.List.{list_all};
ghost use Rattle.stage_nodes.specs.Frames.{pointed};
ghost use Rattle.stage_nodes.specs.Pools.{CanFree, IsAdded, IsFreed, IsFreeing, IsPool, IsPutBefore, IsSame};
ghost use Rattle.stage_nodes.specs.Pools.{free_after, hanging, place_number, placed};

use git_objects::{EntryView, Mode, Name, TreeView, compare_bytes};
use object_store::Store;
use path_trees::{Found, entries_at};
use std::alloc::{AllocError, Global};
use std::cmp::Ordering;

// So many bytes of an entry stand behind its component: a zero byte and a name.
const BEHIND_COMPONENT: usize = 21;

// Room for so many children's numbers at first.
const CHILDREN: usize = 64;

/// What a node is.
#[derive(Clone, Copy)]
pub enum Content {
    /// A leaf, or a directory that no path has gone through, by its mode and name.
    Held(Found),
    /// A directory whose children are nodes.
    Open,
}

/// A directory or a leaf: its component, as a part of the bytes of all nodes, what it is, and the numbers of the first
/// of its children and of its next sibling.
#[derive(Clone, Copy)]
pub struct Node {
    pub at: usize,
    pub len: usize,
    pub content: Content,
    pub first: Option<usize>,
    pub next: Option<usize>,
}

/// The place of a number in the vector: a node's first child, or its next sibling.
#[derive(Clone, Copy)]
pub enum Link {
    First(usize),
    Next(usize),
}

/// The nodes, the bytes that have their components as parts, and the number of the first free node. The free nodes are
/// linked as siblings.
#[derive(Drop)]
pub struct Nodes {
    pub cells: Vec<Node>,
    pub names: Vec<u8>,
    pub free: Option<usize>,
}

// Whether an entry that stands behind another one in Git's order does so by the bytes of their components, where the
// other one's has so many. A directory with a shorter one may not: it is compared as if it ended in `/`, so its
// component may be the beginning of the other one's.
#[inline(always)]
fn keeps_behind(entry: &EntryView<'_>, len: usize) -> bool
    ensures { result ≡ true → is_dir entry.now.mode ≡ true → len ≤ length entry.now.component.now }
{
    !entry.mode.is_dir() || len <= entry.component.len()
}

impl Nodes {
    /// The number at a link.
    #[inline(always)]
    pub fn target(&self, link: Link) -> Option<usize>
        requires { is_link self.now.cells.items link ≡ true }
        ensures { result ≡ target self.now.cells.items link }
    {
        match link {
            Link::First(number) => self.cells[number].first,
            Link::Next(number) => self.cells[number].next,
        }
    }

    /// Whether a node's component comes before another one by their bytes.
    #[inline(always)]
    pub fn is_before(&self, node: Node, component: &[u8]) -> bool
        requires { node.at + node.len ≤ length self.now.names.items }
        ensures { result ≡ is_lt (bytes_cmp (node_component self.now.names.items node) component.now) }
    {
        compare_bytes(&self.names[node.at..node.at + node.len], component).is_lt()
    }

    /// Whether a node has a component.
    pub fn is_named(&self, node: Node, component: &[u8]) -> bool
        requires { node.at + node.len ≤ length self.now.names.items }
        ensures { result ≡ same_bytes component.now (node_component self.now.names.items node) }
    {
        component == &self.names[node.at..node.at + node.len]
    }

    // Where a component stands among the siblings from a link on: the link to the first that is not before it.
    #[inline]
    pub(crate) fn seek(&self, start: Link, component: &[u8]) -> Link
        requires link { is_link self.now.cells.items start ≡ true }
        requires walk { IsWalk self.now.names.items self.now.cells.items (target self.now.cells.items start) }
        ensures place { result ≡ sought component.now start (hanging self.now start) }
        ensures link { is_link self.now.cells.items result ≡ true }
        ensures walk { IsWalk self.now.names.items self.now.cells.items (target self.now.cells.items result) }
    {
        let mut link = start;
        'siblings: while let Some(number) = self.target(link) {
            let node = self.cells[number];
            if !self.is_before(node, component) {
                return link;
            }
            link = Link::Next(number);
        }
        link
    }

    /// Sets the number at a link.
    #[inline(always)]
    pub fn point(&mut self, link: Link, number: Option<usize>)
        requires { is_link self.old.cells.items link ≡ true }
        ensures cells { self.new.cells.items ≡ pointed self.old.cells.items link number }
        ensures names { self.new.names ≡ self.old.names }
        ensures free { self.new.free ≡ self.old.free }
    {
        match link {
            Link::First(holder) => self.cells[holder].first = number,
            Link::Next(holder) => self.cells[holder].next = number,
        }
    }

    /// Keeps a node under a free number, or a new one where none is free.
    #[inline(always)]
    pub fn place(&mut self, node: Node) -> Result<usize, AllocError>
        requires { IfSome self.old.free (λ k. k < length self.old.cells.items) }
        ensures number { IfOk result (λ k. k ≡ place_number self.old.cells.items self.old.free) }
        ensures cells { OnOk result (self.new.cells.items ≡ placed self.old.cells.items self.old.free node) }
        ensures free { OnOk result (self.new.free ≡ free_after self.old.cells.items self.old.free) }
        ensures same { OnErr result ((self.new.cells.items ≡ self.old.cells.items)
            × (self.new.free ≡ self.old.free)) }
        ensures names { self.new.names ≡ self.old.names }
    {
        match self.free {
            Some(number) => {
                self.free = self.cells[number].next;
                self.cells[number] = node;
                Ok(number)
            }
            None => {
                let number = self.cells.len();
                self.cells.push(node)?;
                Ok(number)
            }
        }
    }

    /// Makes a node that no link reaches yet, with the children from a number on.
    #[inline(always)]
    pub fn add(
        &mut self,
        component: &[u8],
        content: Content,
        first: Option<usize>,
    ) -> Result<usize, AllocError>
        requires { IsPool self.old }
        ensures ok { IfOk result (IsAdded self.old self.new component.now content first) }
        ensures err { OnErr result (IsSame self.old self.new) }
    {
        let at = self.names.len();
        self.names.extend_from_slice(component)?;
        self.add_part(at, component.len(), content, first)
    }

    // Makes a node that no link reaches yet, with the children from a number on. Its component is a part of the bytes
    // of all nodes.
    #[inline(always)]
    fn add_part(
        &mut self,
        at: usize,
        len: usize,
        content: Content,
        first: Option<usize>,
    ) -> Result<usize, AllocError>
        requires pool { IsPool self.old }
        requires within { at + len ≤ length self.old.names.items }
        ensures ok { IfOk result (IsAdded self.old self.new
            (slice_range self.old.names.items at (at + len)) content first) }
        ensures err { OnErr result (IsSame self.old self.new) }
        ensures names { self.new.names ≡ self.old.names }
    {
        let node = Node {
            at,
            len,
            content,
            first,
            next: None,
        };
        self.place(node)
    }

    /// Gives the nodes from a number on back: each, its children, and the siblings behind it. A node with children
    /// hands them on, one by one, as siblings before it, so no memory is needed.
    pub fn free_all(&mut self, from: Option<usize>)
        requires { CanFree self.old from }
        ensures { IsFreed self.old self.new from }
    {
        let mut top = from;
        'nodes: while let Some(number) = top {
            top = self.free_one(number);
        }
    }

    // Gives a node without children back, or takes its first child from it to stand before it. What comes then.
    #[inline(always)]
    fn free_one(&mut self, number: usize) -> Option<usize>
        requires { CanFree self.old (Some number) }
        ensures turn { IsFreeing self.old self.new (Some number) result }
        ensures less { weight (forest self.new.names.items self.new.cells.items result)
            < weight (forest self.old.names.items self.old.cells.items (Some number)) }
    {
        match self.target(Link::First(number)) {
            Some(child) => {
                let rest = self.target(Link::Next(child));
                self.point(Link::First(number), rest);
                self.point(Link::Next(child), Some(number));
                Some(child)
            }
            None => {
                let rest = self.target(Link::Next(number));
                self.point(Link::Next(number), self.free);
                self.free = Some(number);
                rest
            }
        }
    }

    // Puts a node at a link, before these siblings.
    #[inline(always)]
    pub(crate) fn put_before(&mut self, link: Link, behind: Option<usize>, number: usize)
        requires link { is_link self.old.cells.items link ≡ true }
        requires number { is_link self.old.cells.items (Link.Next number) ≡ true }
        ensures { IsPutBefore self.old self.new link behind number }
    {
        self.point(Link::Next(number), behind);
        self.point(link, Some(number));
    }

    // The link from which a component is looked for among a directory's children: that of the last given child that
    // stands before the component, or the directory's first link. Given children that don't stand before it are taken
    // off. Where the component is known to stand behind the last one, nothing is compared.
    #[inline(always)]
    fn start(
        &self,
        directory: usize,
        children: &mut Vec<usize>,
        component: &[u8],
        is_behind: bool,
    ) -> Link
        requires directory { IsDirectory self.now directory (hanging self.now (Link.First directory)) }
        requires children { AreChildren self.now directory children.old.items }
        requires last { is_behind ≡ true → IsLastBefore self.now children.old.items component.now }
        ensures children { AreChildren self.now directory children.new.items }
        ensures place { sought component.now result (hanging self.now result)
            ≡ sought component.now (Link.First directory) (hanging self.now (Link.First directory)) }
        ensures link { is_link self.now.cells.items result ≡ true }
        ensures walk { IsWalk self.now.names.items self.now.cells.items (target self.now.cells.items result) }
    {
        if is_behind && !children.is_empty() {
            return Link::Next(children[children.len() - 1]);
        }
        'children: while !children.is_empty() {
            let number = children[children.len() - 1];
            if self.is_before(self.cells[number], component) {
                return Link::Next(number);
            }
            children.pop();
        }
        Link::First(directory)
    }

    // Adds a child to a directory that has none of this component, and gives its number. The component is a part of the
    // bytes of all nodes, and its place is looked for from the last of the given children that stands before it. It may
    // be known to stand behind the very last.
    #[inline(always)]
    fn add_child(
        &mut self,
        directory: usize,
        children: &mut Vec<usize>,
        at: usize,
        component: &[u8],
        found: Found,
        is_behind: bool,
    ) -> Result<usize, AllocError>
        requires directory { IsDirectory self.old directory (hanging self.old (Link.First directory)) }
        requires children { AreChildren self.old directory children.old.items }
        requires last { is_behind ≡ true → IsLastBefore self.old children.old.items component.now }
        requires component { is_component component.now ≡ true }
        requires absent { has_component component.now (hanging self.old (Link.First directory)) ≡ false }
        requires within { at + length component.now ≤ length self.old.names.items }
        requires part { slice_range self.old.names.items at (at + length component.now) ≡ component.now }
        ensures children { AreChildren self.old directory children.new.items }
        ensures ok { IfOk result (λ k. IsAddedTo self.old self.new directory component.now found k) }
        ensures err { OnErr result (IsSame self.old self.new) }
        ensures names { self.new.names.items ≡ self.old.names.items }
    {
        let start = self.start(directory, children, component, is_behind);
        let link = self.seek(start, component);
        let number = self.add_part(at, component.len(), Content::Held(found), None)?;
        let behind = self.target(link);
        self.put_before(link, behind, number);
        Ok(number)
    }

    /// Keeps another node under a number.
    pub fn set(&mut self, number: usize, node: Node)
        requires { is_link self.old.cells.items (Link.Next number) ≡ true }
        ensures cells { self.new.cells.items ≡ slice_set self.old.cells.items number node }
        ensures names { self.new.names ≡ self.old.names }
        ensures free { self.new.free ≡ self.old.free }
    {
        self.cells[number] = node;
    }

    // Adds these entries to a directory without children. The bytes of all nodes end in those that spell the entries,
    // of which the components are parts. Entries come in Git's order, where a directory stands as if a slash were its
    // last byte; so each child's place is behind the one added before it, or a little before that one.
    #[inline(always)]
    fn fill_parts(
        &mut self,
        alloc: Global,
        directory: usize,
        entries: TreeView<'_>,
    ) -> Result<(), AllocError>
        requires directory { IsDirectory self.old directory Nil }
        requires entries { AreEntries entries }
        requires names { list_all (λ e. is_name e.name.0) entries ≡ true }
        requires bytes { (front : Bytes) × (self.old.names.items ≡ front ++ body_text entries) }
        ensures ok { OnOk result (IsFilling self.old self.new directory entries.entry) }
        ensures err { OnErr result (IsPartly self.old self.new directory) }
    {
        let mut entries = entries;
        let mut children = Vec::with_capacity(alloc, CHILDREN)?;
        let mut last_len = 0;
        'entries: while let Some(entry) = entries.next() {
            let found = Found {
                mode: entry.mode,
                name: entry.name,
            };
            let end = self.names.len() - entries.bytes().len() - BEHIND_COMPONENT;
            let len = entry.component.len();
            let at = end - len;
            let is_behind = keeps_behind(&entry, last_len);
            let number = self.add_child(
                directory,
                &mut children,
                at,
                entry.component,
                found,
                is_behind,
            )?;
            children.push(number)?;
            last_len = len;
        }
        Ok(())
    }

    // Adds these entries to a directory without children.
    fn fill(
        &mut self,
        alloc: Global,
        directory: usize,
        entries: TreeView<'_>,
    ) -> Result<(), AllocError>
        requires directory { IsDirectory self.old directory Nil }
        requires entries { AreEntries entries }
        requires names { list_all (λ e. is_name e.name.0) entries ≡ true }
        ensures ok { OnOk result (IsFilling self.old self.new directory entries.entry) }
        ensures err { OnErr result (IsPartly self.old self.new directory) }
    {
        self.names.extend_from_slice(entries.bytes())?;
        self.fill_parts(alloc, directory, entries)
    }

    // Makes nodes of the entries of a directory that no path has gone through.
    pub(crate) fn expand(
        &mut self,
        alloc: Global,
        store: &Store,
        number: usize,
        name: &Name,
    ) -> Result<(), AllocError>
        requires node { IsClosed self.old number name.now }
        requires tree { has Tree store.now name.now.0 ≡ true }
        ensures ok { OnOk result (IsExpanded store.now self.old self.new number name.now) }
        ensures err { OnErr result (IsWaste self.old self.new) }
        ensures store { IsStore store.now }
    {
        let entries = entries_at(store, name);
        let closed = self.cells[number];
        let opened = Node {
            content: Content::Open,
            ..closed
        };
        self.set(number, opened);
        if self.fill(alloc, number, entries).is_err() {
            let first = self.target(Link::First(number));
            self.set(number, closed);
            self.free_all(first);
            return Err(AllocError);
        }
        Ok(())
    }

    // Makes a directory whose tree is stored one that no path has gone through.
    pub(crate) fn close(&mut self, number: usize, name: Name)
        requires { CanClose self.old number name }
        ensures { (h : CanClose self.old number name) → IsClosedAt self.old self.new number name h }
    {
        let node = self.cells[number];
        let found = Found {
            mode: Mode::Dir,
            name,
        };
        let closed = Node {
            content: Content::Held(found),
            first: None,
            ..node
        };
        self.set(number, closed);
        self.free_all(node.first);
    }
}
