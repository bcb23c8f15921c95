// Two stored trees that are compared.
ghost use Rattle.std.specs.Prelude.{◌≡◌, [], map, true, Some, IfOk, OnOk};
ghost use Rattle.std.specs.Option.{option_map};
ghost use Rattle.git_objects.specs.Lists.{Each};
ghost use Rattle.git_objects.specs.Views.{entry_value};
ghost use Rattle.git_objects.specs.declared.kind.Kind.TheVariants.{Tree};
ghost use Rattle.object_store.specs.Objects.{IsStore, has};
ghost use Rattle.object_store.specs.Unfolding.{entry_flat, flat};
ghost use Rattle.path_trees.specs.Listed.{listed, listed_at};
ghost use Rattle.incremental_export.specs.Changes.{changed, deleted};
ghost use Rattle.incremental_export.specs.Compared.{IsFound, IsHeldEntry, IsHeldLeaf, IsHeldPair, IsHeldTree};
ghost use Rattle.incremental_export.specs.Compared.{IsPairDone, leaves_behind, placed_leaf, texts_behind, tree_at};

use fast_export::{behind, below};
use git_objects::{EntryView, Name, TreeView};
use object_store::Store;
use path_trees::{Leaf, Pair, Walk, entries_at, next_pair};
use std::alloc::{AllocError, Global};

/// A leaf, and the text of the path at which it is put.
#[derive(Drop)]
pub struct Placed {
    pub path: Vec<u8>,
    pub leaf: Leaf,
}

/// What turns one tree into another: the texts of the paths that are gone, and the leaves that are new or others, both
/// in path order.
#[derive(Drop)]
pub struct Changes {
    pub deleted: Vec<Vec<u8>>,
    pub put: Vec<Placed>,
}

// What is left to read of two directories at one path, and how many bytes stand in front of their paths.
#[derive(Drop)]
struct Level<'a> {
    left: TreeView<'a>,
    right: TreeView<'a>,
    front: usize,
}

impl Changes {
    fn new(alloc: Global) -> Changes
        ensures deleted { result.deleted.items ≡ [] }
        ensures put { result.put.items ≡ [] }
    {
        Changes {
            deleted: Vec::new(alloc),
            put: Vec::new(alloc),
        }
    }

    // Adds the paths of a directory's leaves.
    fn delete_below(&mut self, store: &Store, tree: Name, front: &[u8]) -> Result<(), AllocError>
        requires store { IsStore store.now }
        requires tree { has Tree store.now tree.0 ≡ true }
        ensures { OnOk result (IsFound store.now front.now (flat store.now tree.0) [] self.old self.new) }
    {
        let alloc = *self.deleted.allocator();
        let mut walk = Walk::new(alloc, store, tree)?;
        'leaves: while walk.next()? {
            let path = walk.path().text(alloc)?;
            self.deleted.push(behind(alloc, front, &path)?)?;
        }
        Ok(())
    }

    // Adds a directory's leaves.
    fn put_below(&mut self, store: &Store, tree: Name, front: &[u8]) -> Result<(), AllocError>
        requires store { IsStore store.now }
        requires tree { has Tree store.now tree.0 ≡ true }
        ensures { OnOk result (IsFound store.now front.now [] (flat store.now tree.0) self.old self.new) }
    {
        let alloc = *self.put.allocator();
        let mut walk = Walk::new(alloc, store, tree)?;
        'leaves: while walk.next()? {
            let path = walk.path().text(alloc)?;
            let path = behind(alloc, front, &path)?;
            let leaf = walk.leaf();
            self.put.push(Placed { path, leaf })?;
        }
        Ok(())
    }

    // Adds the paths of an entry that is gone.
    fn delete_entry(
        &mut self,
        store: &Store,
        entry: &EntryView<'_>,
        front: &[u8],
    ) -> Result<(), AllocError>
        requires store { IsStore store.now }
        requires entry { IsHeldEntry store.now entry.now }
        ensures { OnOk result
            (IsFound store.now front.now (entry_flat store.now (entry_value entry.now)) [] self.old self.new) }
    {
        let alloc = *self.deleted.allocator();
        if entry.mode.is_dir() {
            let inner = below(alloc, front, entry.component)?;
            return self.delete_below(store, entry.name, &inner);
        }
        self.deleted.push(behind(alloc, front, entry.component)?)?;
        Ok(())
    }

    // Adds the leaves of an entry that is new, or another leaf.
    fn put_entry(
        &mut self,
        store: &Store,
        entry: &EntryView<'_>,
        front: &[u8],
    ) -> Result<(), AllocError>
        requires store { IsStore store.now }
        requires entry { IsHeldEntry store.now entry.now }
        ensures { OnOk result
            (IsFound store.now front.now [] (entry_flat store.now (entry_value entry.now)) self.old self.new) }
    {
        let alloc = *self.put.allocator();
        if entry.mode.is_dir() {
            let inner = below(alloc, front, entry.component)?;
            return self.put_below(store, entry.name, &inner);
        }
        let path = behind(alloc, front, entry.component)?;
        let leaf = Leaf {
            mode: entry.mode,
            name: entry.name,
        };
        self.put.push(Placed { path, leaf })?;
        Ok(())
    }

    // Adds what turns one entry into the other, or goes down into two directories of one component.
    fn add_pair<'a>(
        &mut self,
        store: &'a Store,
        pair: &Pair<'_>,
        front: &mut Vec<u8>,
    ) -> Result<Option<Level<'a>>, AllocError>
        requires store { IsStore store.now }
        requires held { IsHeldPair store.now pair.now }
        ensures { IfOk result (λ level.
            IsPairDone store.now pair.now front.old.items front.new.items level self.old self.new) }
    {
        match pair {
            Pair::Left(entry) => {
                self.delete_entry(store, entry, front)?;
                Ok(None)
            }
            Pair::Right(entry) => {
                self.put_entry(store, entry, front)?;
                Ok(None)
            }
            Pair::Both(old, new) => {
                if !new.mode.is_dir() {
                    self.put_entry(store, new, front)?;
                    return Ok(None);
                }
                front.extend_from_slice(new.component)?;
                front.push(b'/')?;
                Ok(Some(level_at(store, Some(&old.name), &new.name, front.len())))
            }
        }
    }
}

// What is to be read of the directories of these names.
fn level_at<'a>(store: &'a Store, left: Option<&Name>, right: &Name, front: usize) -> Level<'a>
    requires left { IsHeldTree store.now (option_map (λ n. n.now) left) }
    requires right { has Tree store.now right.now.0 ≡ true }
    ensures left { result.left ≡ listed_at store.now (option_map (λ n. n.now.0) left.entry) }
    ensures right { listed store.now right.now.0 ≡ Some result.right }
    ensures front { result.front ≡ front }
    ensures store { IsStore store.now }
{
    let left = match left {
        None => TreeView::of_canonical(b""),
        Some(name) => entries_at(store, name),
    };
    Level {
        left,
        right: entries_at(store, right),
        front,
    }
}

/// What turns the tree `from`, or none, into the tree `to`: the paths that are gone, and the leaves that are new or
/// others. What both list is passed over, so it takes time and memory for the directories that differ and for what is
/// found.
pub fn tree_changes(
    alloc: Global,
    store: &Store,
    from: Option<&Name>,
    to: &Name,
) -> Result<Changes, AllocError>
    requires from { IsHeldTree store.now (option_map (λ n. n.now) from) }
    requires to { has Tree store.now to.now.0 ≡ true }
    ensures deleted { IfOk result (λ c. map (λ t. t.items) c.deleted.items ≡ texts_behind []
        (deleted (tree_at store.now (option_map (λ n. n.now) from.entry)) (flat store.now to.now.0))) }
    ensures put { IfOk result (λ c. map (placed_leaf store.now) c.put.items ≡ leaves_behind []
        (changed (tree_at store.now (option_map (λ n. n.now) from.entry)) (flat store.now to.now.0))) }
    ensures held { IfOk result (λ c. Each (IsHeldLeaf store.now) c.put.items) }
{
    let mut changes = Changes::new(alloc);
    let mut front = Vec::new(alloc);
    let mut levels = Vec::new(alloc);
    levels.push(level_at(store, from, to, 0))?;
    'levels: while let Some(level) = levels.pop() {
        let mut left = level.left;
        let mut right = level.right;
        let start = level.front;
        front.truncate(start);
        left.pass_same(&mut right);
        let Some(pair) = next_pair(&mut left, &mut right) else {
            continue 'levels;
        };
        levels.push(Level {
            left,
            right,
            front: start,
        })?;
        let Some(level) = changes.add_pair(store, &pair, &mut front)? else {
            continue 'levels;
        };
        levels.push(level)?;
    }
    Ok(changes)
}
