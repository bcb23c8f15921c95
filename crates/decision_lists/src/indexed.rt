// Decision lists with an index of their cones.
ghost use Rattle.std.specs.Prelude.{◌≡◌, ◌++◌, ◌≤◌, [], ◌∷◌, List, length, take, nat_eq, is_some};
ghost use Rattle.std.specs.Prelude.{◌&&◌, IfOk, OnOk};
ghost use Rattle.std.specs.HashMap.{get};
ghost use Rattle.decision_lists.specs.Entries.{Entry as RouteEntry, cone_of};
ghost use Rattle.decision_lists.specs.Operations.{alive_in, are_live};
ghost use Rattle.decision_lists.specs.Index.{Finds, IsIndex, IsIndexed};

use crate::entry::Entry;
use crate::index::Index;
use git_objects::Component;
use std::alloc::{AllocError, Global};
use std::marker::Model;

// A list that is being made, and whether each of its entries has a target.
#[derive(Debug, Drop)]
pub struct Indexed {
    entries: Vec<Entry>,
    index: Index,
    live: bool,
}

impl Model for Indexed {
    ghost Value = { List RouteEntry };

    ghost view = { λ x. x.entries.items };

    ghost invariant = { λ x. IsIndexed (get nat_eq x.index.places) x.index.clean x.live x.entries.items };
}

// Whether all entries have targets, with one more.
fn stays_live(live: bool, entry: &Entry) -> bool
    ensures { result ≡ (live && is_some entry.now.1) }
{
    live && entry.target.is_some()
}

impl Indexed {
    pub fn new(alloc: Global) -> Indexed
        ensures { result ≡ [] }
    {
        Indexed {
            entries: Vec::new(alloc),
            index: Index::new(alloc),
            live: true,
        }
    }

    // A list without an index, for few questions.
    pub fn unindexed(alloc: Global) -> Indexed
        ensures { result ≡ [] }
    {
        let mut list = Indexed::new(alloc);
        list.index.spoil();
        list
    }

    pub fn of(alloc: Global, entries: Vec<Entry>) -> Result<Indexed, AllocError>
        ensures { IfOk result (λ list. list ≡ entries.items) }
    {
        let mut list = Indexed::new(alloc);
        for e in entries {
            list.push(e)?;
        }
        Ok(list)
    }

    /// Puts an entry behind the others. After an error the list is of no more use.
    pub fn push(&mut self, entry: Entry) -> Result<(), AllocError>
        ensures { OnOk result (self.new ≡ self.old ++ entry ∷ []) }
    {
        let live = stays_live(self.live, &entry);
        match self.index.add(self.entries.as_slice(), &entry) {
            Err(_) => {
                self.index.spoil();
                Err(AllocError)
            }
            Ok(()) => match self.entries.push(entry) {
                Err(_) => {
                    self.index.spoil();
                    Err(AllocError)
                }
                Ok(()) => {
                    self.live = live;
                    Ok(())
                }
            },
        }
    }

    /// Whether each entry has a target.
    pub fn is_live(&self) -> bool
        ensures { result ≡ are_live self.now }
    {
        self.live
    }

    // Whether no cone of the list has all of the cone.
    pub fn is_alive(&self, point: bool, base: &[Component]) -> bool
        ensures { result ≡ alive_in self.now (cone_of point base.now) }
    {
        self.index.is_alive(self.entries.as_slice(), point, base)
    }

    pub fn entries(&self) -> &[Entry]
        ensures { result.now ≡ self.now }
    {
        self.entries.as_slice()
    }

    pub fn len(&self) -> usize
        ensures { result ≡ length self.now }
    {
        self.entries.len()
    }

    pub fn into_entries(self) -> Vec<Entry>
        ensures { result.items ≡ self }
    {
        self.entries
    }

    // The list, lent.
    pub fn lent(&self) -> Lent<'_>
        ensures { result ≡ self.now }
    {
        Lent {
            entries: self.entries.as_slice(),
            index: &self.index,
        }
    }
}

// A list, or the front of one, with an index of the whole.
#[derive(Drop)]
pub struct Lent<'a> {
    entries: &'a [Entry],
    index: &'a Index,
}

impl<'a> Model for Lent<'a> {
    ghost Value = { List RouteEntry };

    ghost view = { λ x. x.entries.now };

    ghost invariant = { λ x. Finds (get nat_eq x.index.now.places) x.index.now.clean x.entries.now };
}

impl<'a> Lent<'a> {
    pub fn of(entries: &'a [Entry], index: &'a Index) -> Lent<'a>
        requires { IsIndex (get nat_eq index.now.places) index.now.clean entries.now }
        ensures { result ≡ entries.now }
    {
        Lent { entries, index }
    }

    pub fn entries(&self) -> &'a [Entry]
        ensures { result.now ≡ self.now }
    {
        self.entries
    }

    // The first entries.
    pub fn front(&self, count: usize) -> Lent<'a>
        requires { count ≤ length self.now }
        ensures { result ≡ take count self.now }
    {
        Lent {
            entries: &self.entries[..count],
            index: self.index,
        }
    }

    // Whether no cone of the list has all of the cone.
    pub fn is_alive(&self, point: bool, base: &[Component]) -> bool
        ensures { result ≡ alive_in self.now (cone_of point base.now) }
    {
        self.index.is_alive(self.entries, point, base)
    }
}
