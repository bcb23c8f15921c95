// Nodes moved from one path to another.
ghost use Rattle.std.specs.Prelude.{◌≡◌, ◌+◌, ◌<◌, ◌≤◌, [], true, drop, length, IfErr, IfOk, OnErr};
ghost use Rattle.std.specs.Prelude.{OnOk};
ghost use Rattle.git_objects.specs.Paths.{comparable, is_path};
ghost use Rattle.git_objects.specs.Trees.{Flat, IsTree, under};
ghost use Rattle.git_objects.specs.Names.{tops};
ghost use Rattle.object_store.specs.Objects.{IsStore};
ghost use Rattle.stage_nodes.specs.Branches.{Stands};
ghost use Rattle.stage_tree.specs.Edits.{IsEdited, renamed};
ghost use Rattle.stage_nodes.specs.Expanding.{IsWaste};
ghost use Rattle.stage_nodes.specs.Pools.{IsPool};
ghost use Rattle.stage_tree.specs.Stages.{Shows};
ghost use Rattle.stage_nodes.specs.Ways.{IsOpen, IsStill};
ghost use Rattle.stage_tree.specs.Renames.{CanMove, IsEditedTo, IsGraft, IsMoved, IsNoSource, IsSource, stand_in};
ghost use Rattle.stage_nodes.specs.Walks.{above_both, entries_of};

use crate::fault::StageFault;
use crate::limits::within;
use crate::stage::Stage;
use git_objects::{Component, Mode, Name, Steps};
use object_store::Store;
use path_names::Path;
use path_trees::Found;
use stage_nodes::{Content, Link, Node, Nodes};
use std::alloc::{AllocError, Global};
use std::sync::ledger::Ledger;

// What stands at a node while its own content is on its way: a module, which every store holds.
fn stand_in() -> Found
    ensures { result ≡ stand_in }
{
    Found {
        mode: Mode::Module,
        name: Name([0; 20]),
    }
}

// Whether one of two paths begins with the other.
fn comparable(a: &[Component], b: &[Component]) -> bool
    ensures { result ≡ comparable a.now b.now }
{
    for i in 0..a.len().min(b.len()) {
        if a[i].bytes() != b[i].bytes() {
            return false;
        }
    }
    true
}

// Makes a node for each component from a level on, with a step for each: each but the last a directory with the next
// as its only child, the last with this content and these children.
pub fn graft<L: Ledger>(
    nodes: &mut Nodes,
    components: &[Component],
    level: usize,
    content: Content,
    first: Option<usize>,
    steps: &mut Steps<L>,
) -> Result<usize, AllocError>
    requires pool { IsPool nodes.old }
    requires level { level < length components.now }
    ensures ok { IfOk result (IsGraft nodes.old nodes.new (drop level components.now) content first) }
    ensures err { OnErr result (IsWaste nodes.old nodes.new) }
    ensures made { OnOk result (steps.new + level ≡ steps.old + length components.now) }
    ensures few { steps.new + level ≤ steps.old + length components.now }
{
    let mut depth = components.len() - 1;
    let end = nodes.add(components[depth].bytes(), content, None)?;
    steps.tick();
    let mut number = end;
    'depth: while depth > level {
        depth -= 1;
        match nodes.add(components[depth].bytes(), Content::Open, Some(number)) {
            Ok(above) => number = above,
            Err(_) => {
                nodes.free_all(Some(number));
                return Err(AllocError);
            }
        }
        steps.tick();
    }
    nodes.point(Link::First(end), first);
    Ok(number)
}

// Takes what stands at a node to a path whose way is clear, with a step for each node made. A leaf is left there.
fn relocate<L: Ledger>(
    nodes: &mut Nodes,
    number: usize,
    to: &[Component],
    steps: &mut Steps<L>,
) -> Result<(), AllocError>
    requires node { CanMove nodes.old number to.now }
    requires path { is_path to.now ≡ true }
    ensures ok { OnOk result ((h : CanMove nodes.old number to.now) → IsMoved nodes.old nodes.new number to.now h) }
    ensures err { OnErr result ((h : CanMove nodes.old number to.now) → IsStill h.objects nodes.old nodes.new) }
    ensures few { steps.new ≤ steps.old + length to.now }
{
    let source = nodes.cells[number];
    let emptied = Node {
        content: Content::Held(stand_in()),
        first: None,
        ..source
    };
    nodes.set(number, emptied);
    let way = nodes.walk(to);
    match graft(nodes, to, way.level, source.content, source.first, steps) {
        Ok(top) => {
            nodes.replace(way.spot.link, way.spot.child, top);
            Ok(())
        }
        Err(_) => {
            nodes.set(number, source);
            Err(AllocError)
        }
    }
}

// Makes the ways to two paths clear, and gives the number of what stands at the first, if it may be put at the second.
pub fn find_source<L: Ledger>(
    nodes: &mut Nodes,
    alloc: Global,
    store: &Store,
    from: &[Component],
    to: &[Component],
    steps: &mut Steps<L>,
) -> Result<usize, StageFault>
    requires store { IsStore store.now }
    requires opened { IsOpen store.now nodes.old }
    requires from { is_path from.now ≡ true }
    requires to { is_path to.now ≡ true }
    ensures ok { IfOk result (IsSource store.now nodes.old nodes.new from.now to.now) }
    ensures err { IfErr result (IsNoSource store.now nodes.old nodes.new from.now to.now) }
    ensures paid { (t : Flat) → Stands store.now nodes.old t → steps.new + length (tops (under t []))
        ≤ steps.old + entries_of t (above_both from.now to.now) }
{
    nodes.open_way(alloc, store, from, steps)?;
    nodes.open_way(alloc, store, to, steps)?;
    let way = nodes.walk(from);
    let Some(number) = nodes.reached(way, from.len()) else {
        return Err(StageFault::NoSource);
    };
    within(nodes, alloc, store, number, to)?;
    Ok(number)
}

// Takes out what stands at a path, with the directories that would be left empty, and then puts it at another. Nothing
// of it is made anew.
pub fn rename<L: Ledger>(
    nodes: &mut Nodes,
    alloc: Global,
    store: &Store,
    from: &Path,
    to: &Path,
    steps: &mut Steps<L>,
) -> Result<(), StageFault>
    requires store { IsStore store.now }
    requires opened { IsOpen store.now nodes.old }
    ensures edit { (t : Flat) → IsTree t → Stands store.now nodes.old t
        → IsEditedTo store.now nodes.old nodes.new (renamed t from.now to.now) result }
    ensures path { is_path to.now ≡ true }
    ensures paid { (t : Flat) → Stands store.now nodes.old t → steps.new + length (tops (under t []))
        ≤ steps.old + entries_of t (above_both from.now to.now) + length to.now }
{
    let source = from.components();
    let target = to.components();
    let number = find_source(nodes, alloc, store, source, target, steps)?;
    relocate(nodes, number, target, steps)?;
    if !comparable(target, source) {
        nodes.prune(source);
    }
    Ok(())
}

impl Stage {
    /// Takes what stands at a path out, with the directories that it leaves empty, and then puts it at another, where
    /// every path that is comparable with that goes. What lies below the first path is neither read nor made anew: a
    /// step is a node made, of the entries of the directories above the two paths and of the second path itself.
    pub fn rename<L: Ledger>(
        &mut self,
        store: &Store,
        from: &Path,
        to: &Path,
        steps: &mut Steps<L>,
    ) -> Result<(), StageFault>
        requires { (t : Flat) × Shows store.now self.old t }
        ensures edit { (t : Flat) → Shows store.now self.old t
            → IsEdited store.now self.new t (renamed t from.now to.now) result }
        ensures steps { (t : Flat) → Shows store.now self.old t
            → steps.new ≤ steps.old + entries_of t (above_both from.now to.now) + length to.now }
    {
        self.last.child = None;
        self.nodes.enter_root(self.alloc, store, steps)?;
        rename(&mut self.nodes, self.alloc, store, from, to, steps)
    }
}
