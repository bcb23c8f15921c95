// The way to the path that was set, put or removed last. The way to the next path goes on from it.
ghost use Rattle.std.specs.Prelude.{◌≡◌, ◌<◌, ◌≤◌, ◌++◌, ℕ, true, get_or, length, take};
ghost use Rattle.std.specs.Prelude.{List, Some, None, IfOk, IfSome, OnErr, OnOk};
ghost use Rattle.git_objects.specs.Paths.{Path, is_path};
ghost use Rattle.object_store.specs.Objects.{Object};
ghost use Rattle.stage_nodes.specs.Forests.{Forest};
ghost use Rattle.stage_nodes.specs.Frames.{Frame, dirs_of, link_of, path_of, plug};
ghost use Rattle.stage_tree.specs.Sets.{IsArrived, IsChildOf, IsMarked, IsUnmoved};
ghost use Rattle.stage_nodes.specs.Roots.{IsOpened, IsRooted, items_of};
ghost use Rattle.stage_nodes.specs.Ways.{IsOpen, IsStart, kids_of};

use git_objects::Component;
use object_store::Store;
use stage_nodes::{Content, Link, Nodes, Way};
use std::alloc::{AllocError, Global};

// A node, if one is known: the one that was set or put last, or one beside or above what was removed last. With it the
// path of its directory, and the numbers of the directories on the way to it.
#[derive(Drop)]
pub struct Last {
    pub directory: Vec<Component>,
    pub numbers: Vec<usize>,
    pub child: Option<usize>,
}

// How many components two paths have in common, from the first on.
fn common(a: &[Component], b: &[Component]) -> usize
    ensures same { take result a.now ≡ take result b.now }
    ensures within { result ≤ length a.now }
    ensures inside { result ≤ length b.now }
{
    let most = if a.len() < b.len() { a.len() } else { b.len() };
    for level in 0..most {
        if a[level].bytes() != b[level].bytes() {
            return level;
        }
    }
    most
}

// Adds the same components.
fn add_copies(
    alloc: Global,
    onto: &mut Vec<Component>,
    components: &[Component],
) -> Result<(), AllocError>
    ensures { OnOk result (onto.new.items ≡ onto.old.items ++ components.now) }
{
    for component in components {
        onto.push(component.copy(alloc)?)?;
    }
    Ok(())
}

impl Last {
    // No node is known.
    pub fn new(alloc: Global) -> Last
        ensures { result.child ≡ None }
    {
        Last {
            directory: Vec::new(alloc),
            numbers: Vec::new(alloc),
            child: None,
        }
    }

    // A node was set in the directory of that path. Without memory nothing is known.
    pub fn remember(&mut self, alloc: Global, directory: &[Component], child: usize)
        ensures child { IfSome self.new.child (λ k. (k ≡ child)
            × (self.new.directory.items ≡ directory.now)) }
        ensures numbers { self.new.numbers ≡ self.old.numbers }
    {
        self.child = None;
        let same = common(&self.directory, directory);
        self.directory.truncate(same);
        if let Ok(()) = add_copies(alloc, &mut self.directory, &directory[same..]) {
            self.child = Some(child);
        }
    }

    // What stood at the end of a way was removed. What is remembered is the sibling before that place, or, where there
    // is none, its directory.
    pub fn remember_before(&mut self, alloc: Global, components: &[Component], way: Way)
        requires level { way.level < length components.now }
        requires numbers { length self.old.numbers.items ≤ length components.now }
        requires forgotten { self.old.child ≡ None }
        ensures { (s : Nodes) (around : List Frame) (rest : Forest) → plug around rest ≡ kids_of s
            → path_of around ≡ take way.level components.now → dirs_of around ≡ self.old.numbers.items
            → way.spot.link ≡ link_of 0 around → IfSome self.new.child
            (IsChildOf s self.new.directory.items self.new.numbers.items) }
    {
        match way.spot.link {
            Link::Next(number) => self.remember(alloc, &components[..way.level], number),
            Link::First(_) => {
                if let Some(number) = self.numbers.pop() {
                    let above = self.numbers.len();
                    self.remember(alloc, &components[..above], number);
                }
            }
        }
    }

    // A node was set in the directory of a path's first components. The path is given up: what is left of it is its
    // directory.
    pub fn keep(&mut self, mut path: Vec<Component>, level: usize, child: usize)
        requires { level ≤ length path.items }
        ensures child { self.new.child ≡ Some child }
        ensures directory { self.new.directory.items ≡ take level path.items }
        ensures numbers { self.new.numbers ≡ self.old.numbers }
    {
        path.truncate(level);
        self.directory = path;
        self.child = Some(child);
    }
}

// Whether a node is an open directory of that component.
fn is_directory_of(nodes: &Nodes, number: usize, component: &[u8]) -> bool
    requires opened { (S : List Object) × IsOpen S nodes.now }
    requires child { (q : Path) × (ns : List ℕ) × IsChildOf nodes.now q ns number }
    ensures { result ≡ true → (S : List Object) (q : Path) (ns : List ℕ) → IsOpen S nodes.now
        → (h : IsChildOf nodes.now q ns number) → (h.component ≡ component.now) × (h.content ≡ Content.Open) }
{
    let node = nodes.cells[number];
    match node.content {
        Content::Held(_) => false,
        Content::Open => nodes.is_named(node, component),
    }
}

// The link from which a component is looked for in the directory of a node: behind the node, where that stands before
// it, and else the first link of the directory, which has the last of these numbers.
fn link_beside(nodes: &Nodes, numbers: &[usize], number: usize, component: &[u8]) -> Link
    requires opened { (S : List Object) × IsOpen S nodes.now }
    requires child { (q : Path) × IsChildOf nodes.now q numbers.now number }
    ensures { (S : List Object) (p : Path) → IsOpen S nodes.now → length numbers.now < length p
        → component.now ≡ get_or p (length numbers.now) component.now
        → IsChildOf nodes.now (take (length numbers.now) p) numbers.now number
        → IsStart S nodes.now p numbers.now result }
{
    if nodes.is_before(nodes.cells[number], component) {
        return Link::Next(number);
    }
    if numbers.is_empty() {
        return Link::First(0);
    }
    Link::First(numbers[numbers.len() - 1])
}

// A node in the directory of so many components of the path to a node: a directory on the way to it, or it itself.
fn at_level(numbers: &[usize], child: usize, level: usize) -> usize
    ensures { (s : Nodes) (q : Path) → level ≤ length q → IsChildOf s q numbers.now child
        → IsChildOf s (take level q) (take level numbers.now) result }
{
    if level < numbers.len() {
        numbers[level]
    } else {
        child
    }
}

// The known node, or the directory on the way to it, that stands at the first level at which a path leaves that way.
// The numbers become those of the directories above this level.
fn cut(last: &mut Last, child: usize, components: &[Component]) -> usize
    requires { 0 < length components.now }
    ensures node { (s : Nodes) → IsChildOf s last.old.directory.items last.old.numbers.items child
        → IsChildOf s (take (length last.new.numbers.items) components.now) last.new.numbers.items result }
    ensures level { length last.new.numbers.items < length components.now }
    ensures child { last.new.child ≡ last.old.child }
{
    let level = common(&last.directory, &components[..components.len() - 1]);
    let number = at_level(&last.numbers, child, level);
    last.numbers.truncate(level);
    number
}

// The link from which a path is looked for, where a node is known.
fn start_beside(
    nodes: &Nodes,
    last: &mut Last,
    child: usize,
    components: &[Component],
) -> Result<Link, AllocError>
    requires opened { (S : List Object) × IsOpen S nodes.now }
    requires child { IsChildOf nodes.now last.old.directory.items last.old.numbers.items child }
    requires path { is_path components.now ≡ true }
    ensures start { IfOk result (λ link. (S : List Object) → IsOpen S nodes.now
        → IsStart S nodes.now components.now last.new.numbers.items link) }
    ensures child { last.new.child ≡ last.old.child }
{
    let number = cut(last, child, components);
    let level = last.numbers.len();
    let component = components[level].bytes();
    if level + 1 < components.len() && is_directory_of(nodes, number, component) {
        last.numbers.push(number)?;
        return Ok(Link::First(number));
    }
    Ok(link_beside(nodes, &last.numbers, number, component))
}

// The link from which a path is looked for, in open nodes. The node that is known is forgotten.
fn start(
    nodes: &mut Nodes,
    last: &mut Last,
    alloc: Global,
    store: &Store,
    components: &[Component],
) -> Result<Link, AllocError>
    requires marked { IsMarked nodes.old last.old }
    requires held { IsRooted store.now (items_of nodes.old) }
    requires path { is_path components.now ≡ true }
    ensures ok { IfOk result (λ link. IsOpened store.now nodes.old nodes.new
        × IsStart store.now nodes.new components.now last.new.numbers.items link) }
    ensures err { OnErr result (IsUnmoved store.now nodes.old nodes.new) }
    ensures forgotten { last.new.child ≡ None }
{
    if let Some(child) = last.child.take() {
        return start_beside(nodes, last, child, components);
    }
    last.numbers.truncate(0);
    nodes.open_root(alloc, store)?;
    Ok(Link::First(0))
}

// The way to a path, from the level on at which it leaves the way to the node that is known. That node is forgotten.
pub fn arrive(
    nodes: &mut Nodes,
    last: &mut Last,
    alloc: Global,
    store: &Store,
    components: &[Component],
) -> Result<Way, AllocError>
    requires marked { IsMarked nodes.old last.old }
    requires held { IsRooted store.now (items_of nodes.old) }
    requires path { is_path components.now ≡ true }
    ensures ok { IfOk result (λ w. IsArrived store.now nodes.old nodes.new components.now last.new.numbers.items
        w.level w.spot.link w.spot.child) }
    ensures err { OnErr result (IsUnmoved store.now nodes.old nodes.new) }
    ensures forgotten { last.new.child ≡ None }
{
    let link = start(nodes, last, alloc, store, components)?;
    nodes.way(alloc, store, components, link, &mut last.numbers)
}
