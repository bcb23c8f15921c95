// Nodes copied with all below them.
ghost use Rattle.std.specs.Prelude.{◌≡◌, ◌⊎◌, ◌+◌, ◌<◌, ◌≤◌, true, length, slice_get, Some};
ghost use Rattle.std.specs.Prelude.{IfErr, IfOk, OnErr, OnOk};
ghost use Rattle.git_objects.specs.declared.limits.TheConstants.{TREE_FILES};
ghost use Rattle.stage_tree.specs.declared.fault.StageFault.TheVariants.{OutOfMemory, TooMany};
ghost use Rattle.stage_tree.specs.Counts.{IsRoom, files};
ghost use Rattle.stage_tree.specs.Standings.{Holds};
ghost use Rattle.stage_tree.specs.Copies.{CanCopy, CanCopyOne, IsCopied, IsCopying, IsDropping, IsOneCopied, is_turn};
ghost use Rattle.stage_tree.specs.Copies.{turns_of, works_of};
ghost use Rattle.stage_nodes.specs.Expanding.{IsWaste};
ghost use Rattle.stage_nodes.specs.Forests.{Forest};
ghost use Rattle.git_objects.specs.Paths.{is_path};
ghost use Rattle.git_objects.specs.Trees.{Flat, IsTree, Node as FlatNode, put};
ghost use Rattle.object_store.specs.Objects.{IsStore};
ghost use Rattle.object_store.specs.Sizes.{held_number};
ghost use Rattle.stage_nodes.specs.Branches.{Stands};
ghost use Rattle.stage_tree.specs.Edits.{IsEdited, copied};
ghost use Rattle.stage_tree.specs.Stages.{Shows};
ghost use Rattle.stage_tree.specs.Copies.{IsCopyTo, IsDuplicated, node_files};
ghost use Rattle.stage_nodes.specs.Pools.{IsSame};
ghost use Rattle.stage_tree.specs.Renames.{CanMove};
ghost use Rattle.stage_nodes.specs.Walks.{is_clear};
ghost use Rattle.stage_nodes.specs.Ways.{HasPlace, IsOpen, IsStill, kids_of};
ghost use Rattle.stage_nodes.specs.declared.nodes.Nodes.{Nodes as TheNodes};

use crate::count::{files, found_files, most_with};
use crate::fault::StageFault;
use crate::renames::{find_source, graft};
use crate::stage::Stage;
use git_objects::{Component, Steps};
use object_store::Store;
use path_names::Path;
use stage_nodes::{Content, Link, Node, Nodes};
use std::alloc::{AllocError, Global};
use std::marker::Brand;
use std::sync::ledger::{Blank, Ledger};

// From where to where a copy goes.
#[derive(Clone, Copy)]
pub struct Aim<'a> {
    pub from: &'a Path,
    pub to: &'a Path,
}

// What a node waits for.
#[derive(Clone, Copy)]
pub enum Work {
    // The copies of its later siblings.
    Siblings(usize),
    // Those of its children. The others are there.
    Children(usize, Option<usize>),
}

// What comes next: nodes to be copied, or copies.
#[derive(Clone, Copy)]
pub enum Turn {
    Copy(Option<usize>),
    Copied(Option<usize>),
}

// A copy of a node, with these children and later siblings.
fn copy_one(
    nodes: &mut Nodes,
    number: usize,
    first: Option<usize>,
    next: Option<usize>,
) -> Result<usize, AllocError>
    requires { CanCopyOne nodes.old number }
    ensures ok { IfOk result (λ k. (h : CanCopyOne nodes.old number)
        → IsOneCopied nodes.old nodes.new first next k h.component h.content) }
    ensures err { OnErr result (IsSame nodes.old nodes.new) }
{
    let node = nodes.cells[number];
    let copy = Node {
        first,
        next: None,
        ..node
    };
    let number = nodes.place(copy)?;
    nodes.point(Link::Next(number), next);
    Ok(number)
}

// One turn of a copy: a node waits with its siblings, or with its children, or is copied itself.
fn copy_turn(nodes: &mut Nodes, works: &mut Vec<Work>, turn: Turn) -> Result<Turn, AllocError>
    requires turn { is_turn works.old.items turn ≡ true }
    requires copying { (s0 : TheNodes) × (source : Forest) × IsCopying s0 nodes.old source works.old.items turn }
    ensures ok { IfOk result (λ next. (s0 : TheNodes) (source : Forest)
        → IsCopying s0 nodes.old source works.old.items turn
        → IsCopying s0 nodes.new source works.new.items next) }
    ensures less { IfOk result (λ next. (s0 : TheNodes) (source : Forest)
        → IsCopying s0 nodes.old source works.old.items turn
        → turns_of s0 next + works_of s0 works.new.items < turns_of s0 turn + works_of s0 works.old.items) }
    ensures err { OnErr result (IsSame nodes.old nodes.new) }
    ensures works { OnErr result (works.new.items ≡ works.old.items) }
{
    match turn {
        Turn::Copy(first) => {
            let Some(number) = first else {
                return Ok(Turn::Copied(None));
            };
            works.push(Work::Siblings(number))?;
            Ok(Turn::Copy(nodes.target(Link::Next(number))))
        }
        Turn::Copied(copy) => {
            let last = works.len() - 1;
            match works[last] {
                Work::Siblings(number) => {
                    works[last] = Work::Children(number, copy);
                    Ok(Turn::Copy(nodes.target(Link::First(number))))
                }
                Work::Children(number, next) => {
                    let copy = copy_one(nodes, number, copy, next)?;
                    works.truncate(last);
                    Ok(Turn::Copied(Some(copy)))
                }
            }
        }
    }
}

// Gives back the copies that nodes wait with.
fn drop_waiting(nodes: &mut Nodes, works: Vec<Work>)
    requires { (s0 : TheNodes) × (source : Forest) × IsDropping s0 nodes.old source works.items }
    ensures { (s0 : TheNodes) (source : Forest) → IsDropping s0 nodes.old source works.items
        → IsWaste s0 nodes.new }
{
    let mut works = works;
    'works: while let Some(work) = works.pop() {
        if let Work::Children(_, copies) = work {
            nodes.free_all(copies);
        }
    }
}

// Gives back all copies.
fn drop_copies(nodes: &mut Nodes, works: Vec<Work>, turn: Turn)
    requires { (s0 : TheNodes) × (source : Forest) × IsCopying s0 nodes.old source works.items turn }
    ensures { (s0 : TheNodes) (source : Forest) → IsCopying s0 nodes.old source works.items turn
        → IsWaste s0 nodes.new }
{
    match turn {
        Turn::Copy(_) => drop_waiting(nodes, works),
        Turn::Copied(copies) => {
            nodes.free_all(copies);
            drop_waiting(nodes, works);
        }
    }
}

// Copies the nodes from a number on: each, what is below it, and the siblings behind it. Nothing reaches the copies.
pub fn copies(
    nodes: &mut Nodes,
    alloc: Global,
    first: Option<usize>,
) -> Result<Option<usize>, AllocError>
    requires { CanCopy nodes.old first }
    ensures ok { IfOk result (λ copy. (h : CanCopy nodes.old first) → IsCopied nodes.old nodes.new first copy h) }
    ensures err { OnErr result (IsWaste nodes.old nodes.new) }
{
    let mut works = Vec::new(alloc);
    let mut turn = Turn::Copy(first);
    'turns: loop {
        if works.is_empty() {
            if let Turn::Copied(copy) = turn {
                return Ok(copy);
            }
        }
        match copy_turn(nodes, &mut works, turn) {
            Ok(next) => turn = next,
            Err(_) => {
                drop_copies(nodes, works, turn);
                return Err(AllocError);
            }
        }
    }
}

// Puts a copy of what stands at a node at a path whose way is clear.
fn duplicate<L: Ledger>(
    nodes: &mut Nodes,
    alloc: Global,
    number: usize,
    to: &[Component],
    steps: &mut Steps<L>,
) -> Result<(), AllocError>
    requires node { CanMove nodes.old number to.now }
    requires path { is_path to.now ≡ true }
    ensures ok { OnOk result ((h : CanMove nodes.old number to.now)
        → IsDuplicated nodes.old nodes.new number to.now h) }
    ensures err { OnErr result ((h : CanMove nodes.old number to.now) → IsStill h.objects nodes.old nodes.new) }
{
    let way = nodes.walk(to);
    let node = nodes.cells[number];
    let first = copies(nodes, alloc, node.first)?;
    match graft(nodes, to, way.level, node.content, first, steps) {
        Ok(top) => {
            nodes.replace(way.spot.link, way.spot.child, top);
            Ok(())
        }
        Err(_) => {
            nodes.free_all(first);
            Err(AllocError)
        }
    }
}

// The files of what stands at a node. A number is held at 4,294,967,295 where it is greater.
fn node_files(nodes: &Nodes, alloc: Global, store: &Store, number: usize) -> Result<u32, AllocError>
    requires opened { IsOpen store.now nodes.now }
    requires place { HasPlace store.now nodes.now (Some number) }
    ensures { IfOk result (λ n. n
        ≡ held_number (node_files store.now nodes.now number (slice_get nodes.now.cells.items number))) }
{
    match nodes.cells[number].content {
        Content::Held(found) => Ok(found_files(store, found)),
        Content::Open => files(nodes, alloc, store, Link::First(number), None),
    }
}

// A number of files that isn't passed where a copy of what stands at a node is put at a path whose way is clear, or a
// refusal.
fn most_with_copy(
    nodes: &Nodes,
    alloc: Global,
    store: &Store,
    number: usize,
    to: &[Component],
    most: u32,
) -> Result<u32, StageFault>
    requires store { IsStore store.now }
    requires opened { IsOpen store.now nodes.now }
    requires place { HasPlace store.now nodes.now (Some number) }
    requires path { is_path to.now ≡ true }
    requires clear { is_clear (kids_of nodes.now) to.now ≡ true }
    requires most { held_number (files store.now (kids_of nodes.now)) ≤ most }
    ensures ok { IfOk result (λ m. (h : HasPlace store.now nodes.now (Some number)) (t : Flat) (n : FlatNode)
        → Holds store.now nodes.now h t n → IsRoom (length (put t to.now n)) m) }
    ensures err { IfErr result (λ e. (h : HasPlace store.now nodes.now (Some number)) (t : Flat) (n : FlatNode)
        → Holds store.now nodes.now h t n
        → (e ≡ OutOfMemory) ⊎ ((e ≡ TooMany) × (TREE_FILES < length (put t to.now n)))) }
{
    let child = nodes.walk(to).spot.child;
    let files = node_files(nodes, alloc, store, number)?;
    most_with(nodes, alloc, store, child, most, files)
}

// Puts a copy of what stands at a path at another. The number of files that isn't passed then.
pub fn copy<L: Ledger>(
    nodes: &mut Nodes,
    alloc: Global,
    store: &Store,
    aim: Aim<'_>,
    most: u32,
    blank: Blank,
) -> Result<u32, StageFault>
    requires name { blank.name ≡ L.name }
    requires parts { blank.parts ≡ L.parts }
    requires some { 0 < blank.parts }
    requires store { IsStore store.now }
    requires opened { IsOpen store.now nodes.old }
    requires most { (t : Flat) × IsTree t × Stands store.now nodes.old t × (held_number (length t) ≤ most) }
    ensures edit { (t : Flat) → IsTree t → Stands store.now nodes.old t
        → IsCopyTo store.now nodes.old nodes.new (copied t aim.entry.from.now aim.entry.to.now) result }
    ensures path { is_path aim.entry.to.now ≡ true }
{
    let mut steps = Steps::<L>::new(blank);
    let source = aim.from.components();
    let target = aim.to.components();
    let number = find_source(nodes, alloc, store, source, target, &mut steps)?;
    let most = most_with_copy(nodes, alloc, store, number, target, most)?;
    duplicate(nodes, alloc, number, target, &mut steps)?;
    Ok(most)
}

impl Stage {
    /// Puts a copy of what stands at a path at another, where every path that is comparable with that goes.
    pub fn copy(&mut self, store: &Store, from: &Path, to: &Path) -> Result<(), StageFault>
        requires { (t : Flat) × Shows store.now self.old t }
        ensures { (t : Flat) → Shows store.now self.old t
            → IsEdited store.now self.new t (copied t from.now to.now) result }
    {
        self.last.child = None;
        self.nodes.open_root(self.alloc, store)?;
        // Nobody asks for the steps of a copy.
        let blank = Blank::new(1);
        let aim = Aim { from, to };
        self.most = copy::<Brand>(&mut self.nodes, self.alloc, store, aim, self.most, blank)?;
        Ok(())
    }
}
