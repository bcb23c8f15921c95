// Cursors: a directory of a tree, and look-ups in it that go on where the last one ended.
ghost use Rattle.std.specs.Prelude.{◌≡◌, ◌+◌, ◌≤◌, ◌++◌, ◌∷◌, [], true, length, IfSome, None};
ghost use Rattle.git_objects.specs.Paths.{Bytes, same_path};
ghost use Rattle.git_objects.specs.Trees.{standing};
ghost use Rattle.git_objects.specs.declared.kind.Kind.TheVariants.{Tree};
ghost use Rattle.object_store.specs.Objects.{has};
ghost use Rattle.object_store.specs.Unfolding.{flat};
ghost use Rattle.filter_apply.specs.Cursors.{IsCursor};

use crate::standing::found_at;
use git_objects::{Component, Name, Steps};
use object_store::Store;
use path_trees::{Finder, entries_at};
use std::sync::ledger::Ledger;

// A directory of the tree, and look-ups in what it lists.
#[derive(Drop)]
pub struct Cursor<'a, 'b> {
    pub parent: &'b [Component],
    pub finder: Finder<'a, 'b>,
}

// Whether two paths have the same components.
fn is_same(path: &[Component], other: &[Component]) -> bool
    ensures { result ≡ same_path path.now other.now }
{
    if path.len() != other.len() {
        return false;
    }
    for i in 0..path.len() {
        if path[i].bytes() != other[i].bytes() {
            return false;
        }
    }
    true
}

// A cursor in front of all entries of the directory at a place. None: no directory stands there.
fn opened<'a, 'b, L: Ledger>(
    store: &'a Store,
    root: Name,
    parent: &'b [Component],
    steps: &mut Steps<L>,
) -> Option<Cursor<'a, 'b>>
    requires { has Tree store.now root.0 ≡ true }
    ensures cursor { IfSome result (λ k. IsCursor store.now (flat store.now root.0) k
        × (k.parent.now ≡ parent.now)) }
    ensures none { result ≡ None → (c : Bytes) →
        None ≡ standing (flat store.now root.0) (parent.now ++ c ∷ []) }
    ensures paid { steps.new ≤ steps.old + (length parent.now + 1) }
{
    let found = found_at(store, root, parent, steps)?;
    if !found.mode.is_dir() {
        return None;
    }
    steps.tick();
    let finder = Finder::new(entries_at(store, &found.name));
    Some(Cursor { parent, finder })
}

// A cursor in the directory at a place: the one that is there, or else one in front of all entries. None: no directory
// stands there.
pub fn cursor_at<'a, 'b, L: Ledger>(
    store: &'a Store,
    root: Name,
    parent: &'b [Component],
    cursor: Option<Cursor<'a, 'b>>,
    steps: &mut Steps<L>,
) -> Option<Cursor<'a, 'b>>
    requires root { has Tree store.now root.0 ≡ true }
    requires cursor { IfSome cursor (IsCursor store.now (flat store.now root.0)) }
    ensures cursor { IfSome result (λ k. IsCursor store.now (flat store.now root.0) k
        × (k.parent.now ≡ parent.now)) }
    ensures none { result ≡ None → (c : Bytes) →
        None ≡ standing (flat store.now root.0) (parent.now ++ c ∷ []) }
    ensures paid { steps.new ≤ steps.old + (length parent.now + 1) }
{
    if let Some(kept) = cursor {
        if is_same(kept.parent, parent) {
            return Some(kept);
        }
    }
    opened(store, root, parent, steps)
}
