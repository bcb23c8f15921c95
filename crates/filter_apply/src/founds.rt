// What stands at the bases of a list's entries.
ghost use Rattle.std.specs.Prelude.{◌≡◌, ◌+◌, ◌≤◌, true, length, IfOk, IfSome};
ghost use Rattle.git_objects.specs.declared.kind.Kind.TheVariants.{Tree};
ghost use Rattle.object_store.specs.Objects.{has};
ghost use Rattle.object_store.specs.Unfolding.{flat};
ghost use Rattle.filter_apply.specs.Cursors.{IsCursor};
ghost use Rattle.filter_apply.specs.Founds.{AreFoundAt, IsFoundAt, base_lengths};

use crate::cursor::{Cursor, cursor_at};
use crate::standing::whole;
use decision_lists::Entry;
use git_objects::{Component, Name, Steps};
use object_store::Store;
use path_trees::Found;
use std::alloc::{AllocError, Global};
use std::sync::ledger::Ledger;

// What stands at a place, and where the next look-up goes on.
fn found_by<'a, 'b, L: Ledger>(
    store: &'a Store,
    root: Name,
    place: &'b [Component],
    cursor: Option<Cursor<'a, 'b>>,
    steps: &mut Steps<L>,
) -> (Option<Found>, Option<Cursor<'a, 'b>>)
    requires root { has Tree store.now root.0 ≡ true }
    requires cursor { IfSome cursor (IsCursor store.now (flat store.now root.0)) }
    ensures found { IsFoundAt store.now (flat store.now root.0) place.now result.0 }
    ensures cursor { IfSome result.1 (IsCursor store.now (flat store.now root.0)) }
    ensures paid { steps.new ≤ steps.old + length place.now }
{
    let Some((last, parent)) = place.split_last() else {
        return (whole(store, root), cursor);
    };
    match cursor_at(store, root, parent, cursor, steps) {
        None => (None, None),
        Some(mut there) => {
            let found = there.finder.find(last.bytes());
            (found, Some(there))
        }
    }
}

/// What stands at the base of each entry. A step is the body of a directory on the way. Bases in one directory that
/// come in its order are found in one pass over it.
pub fn founds_of<L: Ledger>(
    alloc: Global,
    store: &Store,
    root: Name,
    entries: &[Entry],
    steps: &mut Steps<L>,
) -> Result<Vec<Option<Found>>, AllocError>
    requires { has Tree store.now root.0 ≡ true }
    ensures ok { IfOk result (λ v. AreFoundAt store.now (flat store.now root.0) entries.now v.items) }
    ensures few { steps.new ≤ steps.old + base_lengths entries.now }
{
    let mut founds = Vec::new(alloc);
    let mut cursor: Option<Cursor<'_, '_>> = None;
    for entry in entries {
        let (found, next) = found_by(store, root, entry.base.as_slice(), cursor, steps);
        founds.push(found)?;
        cursor = next;
    }
    Ok(founds)
}
