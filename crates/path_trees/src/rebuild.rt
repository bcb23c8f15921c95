// The body of a directory with one entry changed.
ghost use Rattle.std.specs.Prelude.{◌≡◌, ◌++◌, ◌∷◌, [], List, IfOk, OnOk, Option, Some, None, false};
ghost use Rattle.std.specs.Option.{option_map};
ghost use Rattle.git_objects.specs.Entries.{AreEntries, body_text};
ghost use Rattle.git_objects.specs.Parts.{name_bytes};
ghost use Rattle.git_objects.specs.Views.{entry_value};
ghost use Rattle.git_objects.specs.declared.entry.Entry.{Entry};
ghost use Rattle.path_trees.specs.Listed.{changed, is_before, listed_at, named, with_found};

use crate::Found;
use crate::directory::entries_of;
use crate::finder::precedes;
use git_objects::{EntryView, Name, TreeView, add_entry, compare_components};
use object_store::Store;
use std::alloc::{AllocError, Global};

// Room for an entry more, so that a body mostly takes memory once.
const ENTRY_ROOM: usize = 64;

// Whether the entry of a component stands before another entry in Git's order.
fn is_before(component: &[u8], found: &Found, entry: &EntryView<'_>) -> bool
    ensures { result ≡ is_before (named component.now found.now) (entry_value entry.now) }
{
    compare_components(
        component,
        found.mode.is_dir(),
        entry.component,
        entry.mode.is_dir(),
    )
    .is_lt()
}

// Adds the component's entry, where it has something.
fn add_found(body: &mut Vec<u8>, component: &[u8], found: Option<Found>) -> Result<(), AllocError>
    ensures { OnOk result (body.new.items ≡ body.old.items ++ body_text (with_found component.now found [])) }
{
    match found {
        None => Ok(()),
        Some(found) => add_entry(body, found.mode, component, &found.name),
    }
}

// Whether a component's change makes a difference at an entry or in front of it: the entry has the component, or the
// component's entry stands before it.
fn is_touched(component: &[u8], change: Option<Found>, entry: &EntryView<'_>) -> bool
    ensures { result ≡ false → (es : List Entry) → changed component.now change (entry_value entry.now ∷ es)
        ≡ entry_value entry.now ∷ changed component.now change es }
{
    if component == entry.component {
        return true;
    }
    match change {
        None => false,
        Some(found) => is_before(component, &found, entry),
    }
}

// A directory's entries from the first one on that a component's change touches.
fn from_change<'a>(entries: TreeView<'a>, component: &[u8], change: Option<Found>) -> TreeView<'a>
    ensures { (es : List Entry) × (entries.entry ≡ es ++ result)
        × (changed component.now change entries.entry ≡ es ++ changed component.now change result) }
{
    let mut rest = entries;
    let mut ahead = rest.copy();
    'entries: while let Some(entry) = ahead.next() {
        if is_touched(component, change, &entry) {
            return rest;
        }
        rest = ahead.copy();
    }
    rest
}

// The body of a directory's entries with one component changed, which has what was found, or nothing; what stands in
// front of the change is copied at once.
fn with_change(
    alloc: Global,
    entries: TreeView<'_>,
    component: &[u8],
    change: Option<Found>,
) -> Result<Vec<u8>, AllocError>
    requires { AreEntries entries }
    ensures { IfOk result (λ body. body.items ≡ body_text (changed component.now change entries.entry)) }
{
    let all = entries.bytes();
    let room = all.len().saturating_add(ENTRY_ROOM);
    let mut body = Vec::with_capacity(alloc, room)?;
    let rest = from_change(entries, component, change);
    body.extend_from_slice(&all[..all.len() - rest.bytes().len()])?;
    add_changed(&mut body, rest, component, change)?;
    Ok(body)
}

// Adds entries with one component changed; those behind each place that the component can have are copied at once.
fn add_changed(
    body: &mut Vec<u8>,
    entries: TreeView<'_>,
    component: &[u8],
    change: Option<Found>,
) -> Result<(), AllocError>
    requires { AreEntries entries }
    ensures { OnOk result (body.new.items
        ≡ body.old.items ++ body_text (changed component.now change entries.entry)) }
{
    let mut rest = entries;
    let mut ahead = rest.copy();
    let mut waiting = change;
    'entries: while let Some(entry) = ahead.next() {
        if component != entry.component {
            waiting = add_before(body, component, waiting, &entry)?;
            if waiting.is_none() && precedes(component, entry.component) {
                return body.extend_from_slice(rest.bytes());
            }
            add_entry(body, entry.mode, entry.component, &entry.name)?;
        }
        rest = ahead.copy();
    }
    add_found(body, component, waiting)
}

// Adds the component's entry where it stands before the next entry, and gives it back where it doesn't.
fn add_before(
    body: &mut Vec<u8>,
    component: &[u8],
    found: Option<Found>,
    entry: &EntryView<'_>,
) -> Result<Option<Found>, AllocError>
    ensures { IfOk result (λ waiting. (es : List Entry) →
        body.new.items ++ body_text (entry_value entry.now ∷ with_found component.now waiting es)
        ≡ body.old.items ++ body_text (with_found component.now found (entry_value entry.now ∷ es))) }
{
    if let Some(found) = found {
        if is_before(component, &found, entry) {
            add_entry(body, found.mode, component, &found.name)?;
            return Ok(None);
        }
    }
    Ok(found)
}

// The body of a directory with one component changed: it has what was found, or nothing. None: there is no directory.
pub fn changed_body(
    alloc: Global,
    store: &Store,
    directory: Option<Name>,
    component: &[u8],
    change: Option<Found>,
) -> Result<Vec<u8>, AllocError>
    ensures { IfOk result (λ body. body.items
        ≡ body_text (changed component.now change (listed_at store.now (option_map name_bytes directory)))) }
{
    let entries = match directory {
        None => None,
        Some(name) => entries_of(store, &name),
    };
    match entries {
        Some(entries) => with_change(alloc, entries, component, change),
        None => {
            let mut body = Vec::new(alloc);
            add_found(&mut body, component, change)?;
            Ok(body)
        }
    }
}
