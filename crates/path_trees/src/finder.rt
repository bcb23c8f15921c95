// Look-ups in one directory that go on where the last one ended.
ghost use Rattle.std.specs.Prelude.{◌≡◌};
ghost use Rattle.git_objects.specs.Entries.{AreEntries};
ghost use Rattle.path_trees.specs.Listed.{found_at};
ghost use Rattle.path_trees.specs.Searches.{IsBehind, IsFrom, IsSearch, precedes};

use crate::Found;
use git_objects::TreeView;
use std::marker::Model;

/// Look-ups of components in one listing. Those that come in the order of their bytes take one pass over it together; a
/// component that isn't above the last one is looked for from the front.
#[derive(Drop)]
pub struct Finder<'a, 'b> {
    all: TreeView<'a>,
    last: &'b [u8],
    rest: TreeView<'a>,
}

impl<'a, 'b> Model for Finder<'a, 'b> {
    ghost use Rattle.std.specs.Prelude.{List};
    ghost use Rattle.git_objects.specs.declared.entry.Entry.{Entry};
    ghost use Rattle.path_trees.specs.Searches.{IsSearch};

    ghost Value = { List Entry };

    ghost view = { λ f. f.all };

    ghost invariant = { λ f. IsSearch f.last.now f.all f.rest };
}

// Whether `a` has the lesser byte where the two first differ.
pub fn precedes(a: &[u8], b: &[u8]) -> bool
    ensures { result ≡ precedes a.now b.now }
{
    let n = a.len().min(b.len());
    for i in 0..n {
        if a[i] != b[i] {
            return a[i] < b[i];
        }
    }
    false
}

// What a component has among entries in Git's order, and what is left of them. The search ends at an entry that the
// component is below: what follows it stands behind each entry of the component.
fn sought<'a>(entries: TreeView<'a>, component: &[u8]) -> (Option<Found>, TreeView<'a>)
    requires { AreEntries entries }
    ensures found { result.0 ≡ found_at component.now entries.entry }
    ensures rest { IsBehind component.now entries.entry result.1 }
{
    let mut rest = entries;
    let mut ahead = rest.copy();
    'entries: while let Some(entry) = ahead.next() {
        if component == entry.component {
            let found = Found {
                mode: entry.mode,
                name: entry.name,
            };
            return (Some(found), ahead);
        }
        if precedes(component, entry.component) {
            return (None, rest);
        }
        rest = ahead.copy();
    }
    (None, ahead)
}

impl<'a, 'b> Finder<'a, 'b> {
    /// Look-ups in these entries, in Git's order, of which none was made yet.
    pub fn new(entries: TreeView<'a>) -> Finder<'a, 'b>
        requires { AreEntries entries }
        ensures { result ≡ entries.entry }
    {
        Finder {
            rest: entries.copy(),
            last: &[],
            all: entries,
        }
    }

    // The entries in which a component is looked for: what is left, where the component is above the last one.
    fn from(&self, component: &[u8]) -> TreeView<'a>
        ensures { IsFrom component.now self.now result }
    {
        if precedes(self.last, component) {
            self.rest.copy()
        } else {
            self.all.copy()
        }
    }

    /// What a component has.
    pub fn find(&mut self, component: &'b [u8]) -> Option<Found>
        ensures found { result ≡ found_at component.now self.old }
        ensures same { self.new ≡ self.old }
    {
        let (found, rest) = sought(self.from(component), component);
        self.last = component;
        self.rest = rest;
        found
    }
}
