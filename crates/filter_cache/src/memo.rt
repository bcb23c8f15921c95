// A bounded memo of what is shown of trees.
ghost use Rattle.std.specs.Prelude.{◌≡◌, ◌+◌, ◌≤◌, ◌⊎◌, [], length, IfOk, IsSome};
ghost use Rattle.std.specs.Option.{option_map};
ghost use Rattle.git_objects.specs.Parts.{name_bytes};
ghost use Rattle.filter_cache.specs.Memos.{IsMemo, entered, found, same_join, same_key, used};

use git_objects::Name;
use lru::LruCache;
use std::alloc::{AllocError, Global};
use std::marker::Model;
use std::num::NonZeroUsize;

/// A table's number, a part of the table and a tree's name.
#[derive(Clone, Copy, PartialEq, Eq, Hash)]
pub struct Place {
    table: usize,
    part: usize,
    tree: Name,
}

/// The names of two trees.
#[derive(Clone, Copy, PartialEq, Eq, Hash)]
pub struct Pair {
    first: Name,
    second: Name,
}

/// For tables by their numbers, parts of them and trees by their names, the names of the trees that the parts show; and
/// for two trees by their names the name of both joined. Of each kind the entries that were used last, up to a number
/// that is set when the memo is made.
#[derive(Drop)]
pub struct Memo {
    places: LruCache<Place, Name>,
    joins: LruCache<Pair, Name>,
}

impl Model for Memo {
    ghost use Rattle.std.specs.Prelude.{◌≡◌};
    ghost use Rattle.filter_cache.specs.Memos.{Memo as MemoValue};
    ghost use Rattle.filter_cache.specs.Pairs.{entries_of, join_of, key_of};

    ghost Value = { MemoValue };

    ghost view = { λ m. record {
      capacity = m.places.cap;
      entries = entries_of key_of m.places.entries;
      joins = entries_of join_of m.joins.entries;
    } };

    ghost invariant = { λ m. m.joins.cap ≡ m.places.cap };
}

impl Memo {
    /// A memo of at most `capacity` entries of each kind, which has none. It takes memory as it comes to hold them.
    pub fn new(alloc: Global, capacity: usize) -> Result<Memo, AllocError>
        requires { 1 ≤ capacity }
        ensures { IfOk result (λ m. m ≡ record { capacity = capacity; entries = []; joins = [] }) }
    {
        match NonZeroUsize::new(capacity) {
            None => Err(AllocError),
            Some(capacity) => Ok(Memo {
                places: LruCache::sparse(alloc, capacity)?,
                joins: LruCache::sparse(alloc, capacity)?,
            }),
        }
    }

    /// How many entries of both kinds it holds.
    pub fn len(&self) -> usize
        ensures len { result ≡ length self.now.entries + length self.now.joins }
        ensures memo { IsMemo self.now }
    {
        self.places.len() + self.joins.len()
    }

    /// The tree that a part of the table shows of a tree, where the memo has it; it is then the entry that was used
    /// last. Part 0 is the whole table, and part i + 1 the entry at i of its list, of which `tree` is what stands at
    /// its base. Needs no memory.
    pub fn get(&mut self, table: usize, part: usize, tree: &Name) -> Option<Name>
        ensures found { option_map name_bytes result ≡ found same_key ((table, part), tree.now.0) self.old.entries }
        ensures used { self.new
            ≡ record self.old { entries = used same_key ((table, part), tree.now.0) self.old.entries } }
    {
        let place = Place {
            table,
            part,
            tree: *tree,
        };
        self.places.get(&place).copied()
    }

    /// Holds that a part of the table shows `shown` of the tree `tree`, as the entry that was used last: in the place
    /// of one of the same table, part and tree, and otherwise behind dropping the entry that was used least where
    /// there is no room. For want of memory nothing changes.
    pub fn put(&mut self, table: usize, part: usize, tree: Name, shown: Name)
        ensures entered { (self.new ≡ record self.old {
          entries = entered same_key self.old.capacity ((table, part), tree.0) shown.0 self.old.entries;
        }) ⊎ (self.new ≡ self.old) }
        ensures known { IsSome (found same_key ((table, part), tree.0) self.old.entries) →
            self.new ≡ record self.old {
              entries = entered same_key self.old.capacity ((table, part), tree.0) shown.0 self.old.entries;
            } }
    {
        let _ = self.places.put(Place { table, part, tree }, shown);
    }

    /// The tree of two trees joined, where the memo has it; it is then the join that was used last. Needs no memory.
    pub fn joined(&mut self, first: &Name, second: &Name) -> Option<Name>
        ensures found { option_map name_bytes result ≡ found same_join (first.now.0, second.now.0) self.old.joins }
        ensures used { self.new
            ≡ record self.old { joins = used same_join (first.now.0, second.now.0) self.old.joins } }
    {
        let pair = Pair {
            first: *first,
            second: *second,
        };
        self.joins.get(&pair).copied()
    }

    /// Holds that `name` is of the two trees joined, as the join that was used last: in the place of one of the same
    /// two trees, and otherwise behind dropping the join that was used least where there is no room. For want of
    /// memory nothing changes.
    pub fn put_joined(&mut self, first: Name, second: Name, name: Name)
        ensures entered { (self.new ≡ record self.old {
          joins = entered same_join self.old.capacity (first.0, second.0) name.0 self.old.joins;
        }) ⊎ (self.new ≡ self.old) }
        ensures known { IsSome (found same_join (first.0, second.0) self.old.joins) → self.new ≡ record self.old {
          joins = entered same_join self.old.capacity (first.0, second.0) name.0 self.old.joins;
        } }
    {
        let _ = self.joins.put(Pair { first, second }, name);
    }
}
