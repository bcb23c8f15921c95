// The open directories stored and closed, the deepest first.
ghost use Rattle.std.specs.Prelude.{◌≡◌, ◌+◌, ◌≤◌, [], length, map, IfOk, IfErr, OnOk, List};
ghost use Rattle.std.specs.Prelude.{true, false};
ghost use Rattle.std.specs.declared.cmp.Ordering.TheVariants.{Less};
ghost use Rattle.git_objects.specs.Names.{name};
ghost use Rattle.git_objects.specs.Views.{entry_value};
ghost use Rattle.git_objects.specs.declared.kind.Kind.TheVariants.{Tree};
ghost use Rattle.git_objects.specs.Trees.{Flat, IsTree};
ghost use Rattle.object_store.specs.Objects.{IsStore, Object};
ghost use Rattle.object_store.specs.Unfolding.{StandsFor};
ghost use Rattle.stage_nodes.specs.Branches.{Stands};
ghost use Rattle.path_trees.specs.Levels.{IsRefused, IsTaken};
ghost use Rattle.path_trees.specs.Listed.{is_before, named};
ghost use Rattle.path_trees.specs.declared.found.Found.{Found};
ghost use Rattle.path_trees.specs.declared.found.TreeFault.TheVariants.{OutOfMemory};
ghost use Rattle.stage_nodes.specs.Closing.{HasTips, IsDeepest, IsStoredAt, IsStoring, IsStoringFault, IsTurn};
ghost use Rattle.stage_nodes.specs.Closing.{IsTurned, children_body, gathered};
ghost use Rattle.stage_nodes.specs.Directories.{any};
ghost use Rattle.stage_nodes.specs.Forests.{bytes_cmp, node_component};
ghost use Rattle.stage_nodes.specs.Leaves.{is_held};
ghost use Rattle.stage_nodes.specs.Pools.{hanging};
ghost use Rattle.stage_nodes.specs.Ways.{IsOpen};

use crate::nodes::{Content, Link, Node, Nodes};
use git_objects::{EntryView, Name};
use object_store::Store;
use path_trees::{TreeFault, insert, taken_entries};
use std::alloc::{AllocError, Global};

// Whether a component that stands behind an entry by its bytes does so in Git's order, whatever it has. A longer one
// may stand before a directory, which is compared as if it ended in `/`.
#[inline(always)]
fn keeps_order(entry: &EntryView<'_>, component: &[u8]) -> bool
    ensures { result ≡ true → bytes_cmp entry.now.component.now component.now ≡ Less → (f : Found)
        → is_before (named component.now f) (entry_value entry.now) ≡ false }
{
    !entry.mode.is_dir() || component.len() <= entry.component.len()
}

impl Nodes {
    // A node's component.
    fn component(&self, node: Node) -> &[u8]
        requires { node.at + node.len ≤ length self.now.names.items }
        ensures { result.now ≡ node_component self.now.names.items node }
    {
        &self.names[node.at..node.at + node.len]
    }

    // Room for the entries of a directory, which then take memory once.
    fn room_for(&self, directory: usize) -> usize
        requires { HasTips any self.now directory }
    {
        let mut room = 0usize;
        let mut link = Link::First(directory);
        'children: while let Some(number) = self.target(link) {
            room = room.wrapping_add(1);
            link = Link::Next(number);
        }
        room
    }

    // The entries of a directory whose children are leaves and stored directories.
    fn entries(&self, alloc: Global, directory: usize) -> Result<Vec<EntryView<'_>>, AllocError>
        requires { HasTips any self.now directory }
        ensures { IfOk result (λ entries. map entry_value entries.items
            ≡ gathered [] (hanging self.now (Link.First directory))) }
    {
        let mut entries = Vec::with_capacity(alloc, self.room_for(directory))?;
        let mut link = Link::First(directory);
        'children: while let Some(number) = self.target(link) {
            let node = self.cells[number];
            match node.content {
                Content::Open => unreachable!(),
                Content::Held(found) => {
                    let component = self.component(node);
                    let entry = EntryView {
                        mode: found.mode,
                        component,
                        name: found.name,
                    };
                    let len = entries.len();
                    if len > 0 && keeps_order(&entries[len - 1], component) {
                        entries.push(entry)?;
                    } else {
                        insert(&mut entries, entry)?;
                    }
                }
            }
            link = Link::Next(number);
        }
        Ok(entries)
    }

    // Takes in the tree of a directory whose children are leaves and stored directories.
    fn store_tree(
        &self,
        alloc: Global,
        store: &mut Store,
        directory: usize,
    ) -> Result<Name, TreeFault>
        requires store { IsStore store.old }
        requires tips { HasTips (is_held store.old) self.now directory }
        ensures ok { IfOk result (λ n. (n.0 ≡ name Tree (children_body (hanging self.now (Link.First directory))))
            × IsTaken store.old (children_body (hanging self.now (Link.First directory))) store.new) }
        ensures err { IfErr result (λ e. (store.new ≡ store.old)
            × IsRefused store.old (children_body (hanging self.now (Link.First directory))) e) }
        ensures store { IsStore store.new }
    {
        match self.entries(alloc, directory) {
            Ok(entries) => taken_entries(alloc, store, &entries),
            Err(_) => Err(TreeFault::OutOfMemory),
        }
    }

    // Stores such a directory below the root, and closes it.
    fn close_stored(
        &mut self,
        alloc: Global,
        store: &mut Store,
        directory: usize,
    ) -> Result<(), TreeFault>
        requires store { IsStore store.old }
        requires opened { IsOpen store.old self.old }
        requires deepest { IsDeepest self.old directory }
        ensures ok { OnOk result ((h : IsDeepest self.old directory)
            → IsStoredAt store.old store.new self.old self.new directory h) }
        ensures err { IfErr result (IsStoringFault store.old store.new self.old) }
        ensures storing { IsStoring store.old store.new self.old self.new }
    {
        let name = self.store_tree(alloc, store, directory)?;
        self.close(directory, name);
        Ok(())
    }

    // Goes on from a place into open directories, up to the end of the first one that has none.
    fn descend(&self, entered: &mut Vec<usize>, start: Link) -> Result<(), AllocError>
        requires opened { (S : List Object) × IsOpen S self.now }
        requires turn { IsTurn self.now entered.old.items start }
        ensures { OnOk result (IsTurned self.now entered.new.items) }
    {
        let mut link = start;
        'nodes: while let Some(number) = self.target(link) {
            match self.cells[number].content {
                Content::Held(_) => link = Link::Next(number),
                Content::Open => {
                    entered.push(number)?;
                    link = Link::First(number);
                }
            }
        }
        Ok(())
    }

    /// Stores the trees of all open directories, closes those below the root, and gives the name of the root's tree.
    pub fn finish(&mut self, alloc: Global, store: &mut Store) -> Result<Name, TreeFault>
        requires store { IsStore store.old }
        requires opened { IsOpen store.old self.old }
        ensures ok { IfOk result (λ n. (t : Flat) → IsTree t → Stands store.old self.old t
            → StandsFor store.new n.0 t) }
        ensures err { IfErr result (IsStoringFault store.old store.new self.old) }
        ensures storing { IsStoring store.old store.new self.old self.new }
    {
        let mut entered = Vec::new(alloc);
        let mut link = Link::First(0);
        'directories: loop {
            let Ok(()) = self.descend(&mut entered, link) else {
                return Err(TreeFault::OutOfMemory);
            };
            let Some(directory) = entered.pop() else {
                return self.store_tree(alloc, store, 0);
            };
            self.close_stored(alloc, store, directory)?;
            link = Link::Next(directory);
        }
    }
}
