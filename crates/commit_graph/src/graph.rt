// Graphs of commits.
ghost use Rattle.std.specs.Prelude.{◌≡◌, ℕ, ◌+◌, ◌<◌, ◌≤◌, ◌^◌, ◌↔◌, List, []};
ghost use Rattle.std.specs.Prelude.{◌∷◌, ◌++◌, length, take, None};
ghost use Rattle.std.specs.Prelude.{slice_get, All, Contains, IsTrue, IfSome, IfOk, OnOk, OnErr};
ghost use Rattle.std.specs.List.Sorted.{IsStrictlyIncreasing};
ghost use Rattle.commit_graph.specs.Graphs.{Row, IsGraph, place_of, Reaches};
ghost use Rattle.commit_graph.specs.Marks.{MarksReached};

use crate::marks::mark_all;
use git_objects::Name;
use indexmap::IndexMap;
use std::alloc::{AllocError, Global};
use std::marker::Model;

// What a commit has besides its name.
#[derive(Drop)]
struct Node {
    tree: Name,
    parents: Vec<u32>,
}

/// Commits with distinct names in order of arrival, each after its parents. A commit's place is how many came before
/// it, and parents are named by their places.
#[derive(Drop)]
pub struct Graph {
    nodes: IndexMap<Name, Node>,
}

impl Model for Graph {
    ghost use Rattle.std.specs.Prelude.{List};
    ghost use Rattle.commit_graph.specs.Graphs.{Row};
    ghost use Rattle.commit_graph.specs.Nodes.{rows, HoldsGraph};

    ghost Value = { List Row };

    ghost view = { λ g. rows g.nodes.entries };

    ghost invariant = { λ g. HoldsGraph (rows g.nodes.entries) };
}

impl Graph {
    /// A graph of no commits.
    pub fn new(alloc: Global) -> Graph
        ensures { result ≡ [] }
    {
        Graph {
            nodes: IndexMap::new(alloc),
        }
    }

    /// Adds a commit behind the others.
    pub fn add(&mut self, name: Name, tree: Name, parents: Vec<u32>) -> Result<(), AllocError>
        requires fresh { place_of name.0 self.old ≡ None }
        requires placed { All (λ p. p < length self.old) parents.items }
        requires room { length self.old < 2 ^ 30 }
        ensures ok { OnOk result (self.new
            ≡ self.old ++ record { name = name.0; tree = tree.0; parents = parents.items } ∷ []) }
        ensures err { OnErr result (self.new ≡ self.old) }
    {
        self.nodes.insert(name, Node { tree, parents })?;
        Ok(())
    }

    /// Leaves the first commits. It takes no memory.
    pub fn truncate(&mut self, len: u32)
        requires { len ≤ length self.old }
        ensures { self.new ≡ take len self.old }
    {
        self.nodes.truncate(len as usize);
    }

    /// How many commits there are.
    pub fn len(&self) -> u32
        ensures len { result ≡ length self.now }
        ensures few { result ≤ 2 ^ 30 }
        ensures graph { IsGraph self.now }
    {
        self.nodes.len() as u32
    }

    pub fn is_empty(&self) -> bool
        ensures { IsTrue result ↔ (length self.now ≡ 0) }
    {
        self.len() == 0
    }

    /// The place of the commit of that name.
    pub fn index_of(&self, name: &Name) -> Option<u32>
        ensures place { result ≡ place_of name.now.0 self.now }
        ensures within { IfSome result (λ i. i < length self.now) }
    {
        match self.nodes.get_index_of(name) {
            Some(i) => Some(i as u32),
            None => None,
        }
    }

    /// The name of the commit at a place.
    pub fn name(&self, i: u32) -> Name
        requires { i < length self.now }
        ensures { IfSome (slice_get self.now i) (λ r. result.0 ≡ r.name) }
    {
        let (name, _) = self.nodes.get_index(i as usize).unwrap();
        *name
    }

    /// The name of the tree of the commit at a place.
    pub fn tree(&self, i: u32) -> Name
        requires { i < length self.now }
        ensures { IfSome (slice_get self.now i) (λ r. result.0 ≡ r.tree) }
    {
        let (_, node) = self.nodes.get_index(i as usize).unwrap();
        node.tree
    }

    /// The places of the parents of the commit at a place.
    pub fn parents(&self, i: u32) -> &[u32]
        requires { i < length self.now }
        ensures parents { IfSome (slice_get self.now i) (λ r. result.now ≡ r.parents) }
        ensures below { All (λ p. p < i) result.now }
    {
        let (_, node) = self.nodes.get_index(i as usize).unwrap();
        &node.parents
    }

    /// The commit and its ancestors, ascending. It takes time and memory for the places up to the commit's.
    pub fn ancestors(&self, head: u32) -> Result<Vec<u32>, AllocError>
        requires { head < length self.now }
        ensures rising { IfOk result (λ v. IsStrictlyIncreasing v.items) }
        ensures exact { IfOk result (λ v. (i : ℕ) → Contains v.items i ↔ Reaches self.now head i) }
    {
        self.ancestors_from(head, 0)
    }

    /// The commit and those of its ancestors that stand at the place `low` or behind it, ascending. It takes a byte
    /// for each place from `low` to the commit's, and looks at no commit before `low`.
    pub fn ancestors_from(&self, head: u32, low: u32) -> Result<Vec<u32>, AllocError>
        requires there { head < length self.now }
        requires low { low ≤ head }
        ensures rising { IfOk result (λ v. IsStrictlyIncreasing v.items) }
        ensures exact { IfOk result (λ v. (i : ℕ) → Contains v.items i ↔ ((low ≤ i)
            × Reaches self.now head i)) }
    {
        let marks = self.reached(head, low)?;
        let mut found = Vec::new(*self.nodes.allocator());
        for i in low..head + 1 {
            if marks[(i - low) as usize] {
                found.push(i)?;
            }
        }
        Ok(found)
    }

    /// Whether the old commit is the new one or an ancestor of it. It takes a byte for each place from the old one's
    /// to the new one's, and looks at no commit before the old one.
    pub fn is_ancestor(&self, old: u32, new: u32) -> Result<bool, AllocError>
        requires old_is_there { old < length self.now }
        requires new_is_there { new < length self.now }
        ensures { IfOk result (λ b. IsTrue b ↔ Reaches self.now new old) }
    {
        let _ = &self.nodes;
        if old > new {
            return Ok(false);
        }
        let marks = self.reached(new, old)?;
        Ok(marks[0])
    }

    // Marks what the head reaches from the place `low` on, in one sweep down from the head.
    fn reached(&self, head: u32, low: u32) -> Result<Vec<bool>, AllocError>
        requires there { head < length self.now }
        requires low { low ≤ head }
        ensures { IfOk result (λ marks. MarksReached self.now head low marks.items) }
    {
        let alloc = *self.nodes.allocator();
        let mut marks = vec![in alloc; false; (head - low) as usize + 1]?;
        marks[(head - low) as usize] = true;
        for i in (low..head + 1).rev() {
            if marks[(i - low) as usize] {
                mark_all(&mut marks, low, self.parents(i));
            }
        }
        Ok(marks)
    }
}
