// The objects of stored trees, each after its children.
ghost use Rattle.std.specs.Prelude.{◌≡◌, ◌+◌, ◌<◌, ◌++◌, ◌∷◌, [], List, Some, None};
ghost use Rattle.std.specs.Prelude.{IfNone, IfSome, OnOk, length};
ghost use Rattle.object_store.specs.Objects.{Object, find_named, HasChildren};
ghost use Rattle.git_objects.specs.declared.entry.Entry.{Entry};
ghost use Rattle.repo_ground.specs.Beside.{AreBeside, IsPassed};
ghost use Rattle.repo_ground.specs.Growing.{Extends, Holds, IsReady, IsStep, held_of};
ghost use Rattle.repo_ground.specs.StoredObjects.{AreOpen, HasNext, IsOpen, counted, entries_steps, frame_steps};
ghost use Rattle.repo_ground.specs.StoredObjects.{frames_steps, itself, next_steps, stored_objects, work_of_frame};
ghost use Rattle.repo_ground.specs.StoredObjects.{work_of_frames};

use git_objects::{EntryView, Kind, Mode, Name, TreeView, compare_components};
use indexmap::IndexSet;
use object_store::Store;
use std::alloc::{AllocError, Global};
use std::cmp::Ordering;

/// A child of a tree that is an object of the store.
#[derive(Clone, Copy)]
pub(crate) enum Child {
    BlobChild(Name),
    TreeChild(Name),
}

/// A tree, its entries that are left, and those that are left of a held tree beside it: what both list isn't looked up.
#[derive(Drop)]
pub(crate) struct Frame<'a> {
    name: Name,
    entries: TreeView<'a>,
    beside: TreeView<'a>,
}

// The entries of the tree of that name, if it is held.
fn held_entries<'a>(store: &'a Store, held: &IndexSet<Name>, name: &Name) -> Option<TreeView<'a>>
    ensures { let S = store.now in Holds S held.now.keys →
        IfSome result (λ es. HasChildren (held_of S held.now.keys) es) }
{
    if !held.contains(name) {
        return None;
    }
    match store.get(name) {
        None => None,
        Some(object) => {
            if object.kind != Kind::Tree {
                return None;
            }
            Some(TreeView::of_canonical(object.body))
        }
    }
}

// The entries of the tree of that name, if it is held; else none.
fn beside_of<'a>(store: &'a Store, held: &IndexSet<Name>, name: Option<Name>) -> TreeView<'a>
    ensures { let S = store.now in Holds S held.now.keys → HasChildren (held_of S held.now.keys) result }
{
    let found = match name {
        None => None,
        Some(name) => held_entries(store, held, &name),
    };
    match found {
        None => TreeView::of_canonical(&[]),
        Some(entries) => entries,
    }
}

// The name that the tree beside has for an entry's component. What comes before the component there is passed by.
fn peer(entry: &EntryView<'_>, beside: &mut TreeView<'_>) -> Option<Name>
    ensures { (gone : List Entry) × (beside.old ≡ gone ++ beside.new) }
{
    let is_dir = entry.mode.is_dir();
    'beside: loop {
        let mut rest = beside.copy();
        let other = rest.next()?;
        let order = compare_components(
            other.component,
            other.mode.is_dir(),
            entry.component,
            is_dir,
        );
        if order == Ordering::Greater {
            return None;
        }
        *beside = rest;
        if order == Ordering::Equal {
            return Some(other.name);
        }
    }
}

// Passes by the entries that the tree beside has too, and gives the name that it has for the next one's component.
fn pass_beside(frame: &mut Frame<'_>) -> Option<Name>
    ensures { IsPassed frame.old frame.new }
{
    frame.entries.pass_same(&mut frame.beside);
    let next = frame.entries.copy().next()?;
    peer(&next, &mut frame.beside)
}

// The next child that is an object of the store.
fn next_child(entries: &mut TreeView<'_>) -> Option<Child>
    ensures objects { (S : List Object) → entries_steps itself [] S entries.old
        ≡ next_steps itself [] S result ++ entries_steps itself [] S entries.new }
    ensures work { (S : List Object) → entries_steps counted (tt ∷ []) S entries.old ≡ next_steps counted (tt
        ∷ []) S result ++ entries_steps counted (tt ∷ []) S entries.new }
    ensures children { (S : List Object) → HasChildren S entries.old →
        HasNext S result × HasChildren S entries.new }
    ensures none { IfNone result (entries.new ≡ []) }
{
    'entries: while let Some(entry) = entries.next() {
        match entry.mode {
            Mode::File => return Some(Child::BlobChild(entry.name)),
            Mode::Exec => return Some(Child::BlobChild(entry.name)),
            Mode::Link => return Some(Child::BlobChild(entry.name)),
            Mode::Dir => return Some(Child::TreeChild(entry.name)),
            Mode::Module => {}
        }
    }
    None
}

// Adds a name behind the others, where it isn't there.
pub(crate) fn hold(held: &mut IndexSet<Name>, name: Name) -> Result<(), AllocError>
    ensures step { OnOk result ((S : List Object) (o : Object) (os : List Object) →
        find_named S name.0 ≡ Some o → IsReady S held.old.keys (o ∷ os) →
        IsStep S held.old.keys held.new.keys (o ∷ os) os) }
    ensures extends { Extends held.old.keys held.new.keys }
{
    held.insert(name)?;
    Ok(())
}

// Goes down into a tree, unless it is held, and all below it.
fn open_tree<'a>(
    store: &'a Store,
    held: &IndexSet<Name>,
    frames: &mut Vec<Frame<'a>>,
    name: Name,
    beside: Option<Name>,
) -> Result<(), AllocError>
    requires { AreOpen store.now frames.old.items }
    ensures step { OnOk result (let S = store.now in
        let os = stored_objects S name.0 ++ frames_steps itself [] S frames.old.items in
        IsReady S held.now.keys os → IsStep S held.now.keys held.now.keys os
        (frames_steps itself [] S frames.new.items)) }
    ensures work { OnOk result (let S = store.now in
        work_of_frames S frames.new.items < work_of_frames S frames.old.items + length (next_steps counted (tt
        ∷ []) S (Some (Child.TreeChild name)))) }
    ensures opened { OnOk result (AreOpen store.now frames.new.items) }
    ensures beside { OnOk result (let S = store.now in Holds S held.now.keys →
        AreBeside (held_of S held.now.keys) frames.old.items → AreBeside (held_of S held.now.keys) frames.new.items) }
{
    if held.contains(&name) {
        return Ok(());
    }
    match store.get(&name) {
        None => Ok(()),
        Some(object) => {
            if object.kind != Kind::Tree {
                return Ok(());
            }
            let entries = TreeView::of_canonical(object.body);
            let beside = beside_of(store, held, beside);
            frames.push(Frame {
                name,
                entries,
                beside,
            })?;
            Ok(())
        }
    }
}

// One step at the tree that was opened last.
fn turn<'a>(
    store: &'a Store,
    held: &mut IndexSet<Name>,
    frames: &mut Vec<Frame<'a>>,
    frame: Frame<'a>,
    beside: Option<Name>,
) -> Result<(), AllocError>
    requires frame { IsOpen store.now frame }
    requires frames { AreOpen store.now frames.old.items }
    ensures step { OnOk result (let S = store.now in
        let os = frame_steps itself [] S frame.entry ++ frames_steps itself [] S frames.old.items in
        IsReady S held.old.keys os → IsStep S held.old.keys held.new.keys os
        (frames_steps itself [] S frames.new.items)) }
    ensures work { OnOk result (let S = store.now in
        work_of_frames S frames.new.items < work_of_frames S frames.old.items + work_of_frame S frame.entry) }
    ensures frames { OnOk result (AreOpen store.now frames.new.items) }
    ensures beside { OnOk result (let S = store.now in
        let os = frame_steps itself [] S frame.entry ++ frames_steps itself [] S frames.old.items in
        IsReady S held.old.keys os → AreBeside (held_of S held.old.keys) (frame.entry ∷ frames.old.items) →
        AreBeside (held_of S held.new.keys) frames.new.items) }
    ensures extends { Extends held.old.keys held.new.keys }
{
    let mut frame = frame;
    match next_child(&mut frame.entries) {
        None => hold(held, frame.name),
        Some(Child::BlobChild(name)) => {
            frames.push(frame)?;
            hold(held, name)
        }
        Some(Child::TreeChild(name)) => {
            frames.push(frame)?;
            open_tree(store, held, frames, name, beside)
        }
    }
}

/// Holds the objects of a stored tree that aren't held, each after its children. What it shares with a held tree, which
/// may be named, isn't looked up.
pub(crate) fn hold_tree(
    alloc: Global,
    store: &Store,
    held: &mut IndexSet<Name>,
    root: Name,
    beside: Option<Name>,
) -> Result<(), AllocError>
    ensures step { OnOk result (let S = store.now in
        IsReady S held.old.keys (stored_objects S root.0) →
        IsStep S held.old.keys held.new.keys (stored_objects S root.0) []) }
    ensures extends { Extends held.old.keys held.new.keys }
{
    let mut frames: Vec<Frame<'_>> = Vec::new(alloc);
    open_tree(store, held, &mut frames, root, beside)?;
    'trees: while let Some(frame) = frames.pop() {
        let mut frame = frame;
        let beside = pass_beside(&mut frame);
        turn(store, held, &mut frames, frame, beside)?;
    }
    Ok(())
}
