// Reading one directory.
ghost use Rattle.std.specs.Prelude.{◌≡◌, is_some, true};
ghost use Rattle.git_objects.specs.Bodies.{tree_entries};
ghost use Rattle.std.specs.Option.{option_and_then};
ghost use Rattle.object_store.specs.Errors.{object_value};
ghost use Rattle.object_store.specs.Objects.{IsStore};
ghost use Rattle.path_trees.specs.Listed.{directory_of, entries_of, found_at, listed};

use crate::Found;
use git_objects::{Kind, Mode, Name, TreeView};
use object_store::{ObjectRef, Store};

/// The entries of an object of a store, unless it is no tree. Needs no memory.
pub fn entries_in<'a>(object: ObjectRef<'a>) -> Option<TreeView<'a>>
    requires { object.kind ≡ Kind.Tree → is_some (tree_entries object.body.now) ≡ true }
    ensures { result ≡ entries_of (object_value object.entry) }
{
    if object.kind == Kind::Tree {
        Some(TreeView::of_canonical(object.body))
    } else {
        None
    }
}

// What the tree of that name lists. None: no tree has the name.
pub fn entries_of<'a>(store: &'a Store, name: &Name) -> Option<TreeView<'a>>
    ensures entries { result ≡ listed store.now name.now.0 }
    ensures store { IsStore store.now }
{
    match store.get(name) {
        None => None,
        Some(object) => entries_in(object),
    }
}

// What a component has.
pub fn find<'a>(mut entries: TreeView<'a>, component: &[u8]) -> Option<Found>
    ensures { result ≡ found_at component.now entries.entry }
{
    'entries: while let Some(entry) = entries.next() {
        if component == entry.component {
            return Some(Found {
                mode: entry.mode,
                name: entry.name,
            });
        }
    }
    None
}

// What a component has in the directory of that name.
pub fn found_in(store: &Store, directory: &Name, component: &[u8]) -> Option<Found>
    ensures found { result ≡ option_and_then (found_at component.now) (listed store.now directory.now.0) }
    ensures store { IsStore store.now }
{
    match entries_of(store, directory) {
        None => None,
        Some(entries) => find(entries, component),
    }
}

// The directory that a component has in the directory of that name.
pub fn directory_in(store: &Store, directory: &Name, component: &[u8]) -> Option<Name>
    ensures name { result ≡ option_and_then directory_of
        (option_and_then (found_at component.now) (listed store.now directory.now.0)) }
    ensures store { IsStore store.now }
{
    let found = found_in(store, directory, component)?;
    if found.mode.is_dir() {
        Some(found.name)
    } else {
        None
    }
}
