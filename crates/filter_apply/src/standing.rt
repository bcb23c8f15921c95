// What stands at a place, and the steps to it.
ghost use Rattle.std.specs.Prelude.{◌≡◌, ◌+◌, ◌≤◌, [], true, length, IfSome};
ghost use Rattle.std.specs.Option.{option_map};
ghost use Rattle.git_objects.specs.Trees.{standing};
ghost use Rattle.git_objects.specs.declared.kind.Kind.TheVariants.{Tree};
ghost use Rattle.object_store.specs.Objects.{IsStore, has, has_child};
ghost use Rattle.object_store.specs.Unfolding.{flat};
ghost use Rattle.path_trees.specs.Standing.{node};

use git_objects::{Component, Mode, Name, Steps};
use object_store::{Store, store_law};
use path_trees::{Found, entry_in};
use std::sync::ledger::Ledger;

// A tree as what stands at its root: nothing, where it is empty. No body is read.
pub fn whole(store: &Store, root: Name) -> Option<Found>
    requires { has Tree store.now root.0 ≡ true }
    ensures found { option_map (node store.now) result ≡ standing (flat store.now root.0) [] }
    ensures held { IfSome result (λ f. has_child store.now f.mode f.name.0 ≡ true) }
    ensures store { IsStore store.now }
{
    store_law(store);
    match store.stats(&root) {
        Some(stats) if stats.files > 0 => Some(Found {
            mode: Mode::Dir,
            name: root,
        }),
        _ => None,
    }
}

// What stands at a place. A step is the body of a directory on the way.
pub fn found_at<L: Ledger>(
    store: &Store,
    root: Name,
    place: &[Component],
    steps: &mut Steps<L>,
) -> Option<Found>
    requires { has Tree store.now root.0 ≡ true }
    ensures found { option_map (node store.now) result ≡ standing (flat store.now root.0) place.now }
    ensures held { IfSome result (λ f. has_child store.now f.mode f.name.0 ≡ true) }
    ensures store { IsStore store.now }
    ensures paid { steps.new ≤ steps.old + length place.now }
{
    let mut found = whole(store, root)?;
    for component in place {
        if !found.mode.is_dir() {
            return None;
        }
        steps.tick();
        found = entry_in(store, found.name, component.bytes())?;
    }
    Some(found)
}
