// What stands at a path.
ghost use Rattle.std.specs.Prelude.{◌≡◌, ◌∷◌, [], true, IfSome};
ghost use Rattle.std.specs.Option.{option_map};
ghost use Rattle.git_objects.specs.declared.kind.Kind.TheVariants.{Tree};
ghost use Rattle.object_store.specs.Objects.{has, has_child};
ghost use Rattle.object_store.specs.Unfolding.{flat};
ghost use Rattle.path_trees.specs.Standing.{node};
ghost use Rattle.git_objects.specs.Trees.{standing};

use crate::Found;
use crate::directory::{directory_in, found_in};
use git_objects::Name;
use object_store::Store;
use path_names::Path;

/// What stands at a path of that tree: a leaf, or the directory of all that lies below it. Needs no memory.
pub fn entry_at(store: &Store, root: Name, path: &Path) -> Option<Found>
    requires { has Tree store.now root.0 ≡ true }
    ensures found { option_map (node store.now) result
        ≡ standing (flat store.now root.0) path.now }
    ensures held { IfSome result (λ f. has_child store.now f.mode f.name.0 ≡ true) }
{
    let components = path.components();
    let last = components.len() - 1;
    let mut directory = root;
    for i in 0..last {
        directory = directory_in(store, &directory, components[i].bytes())?;
    }
    found_in(store, &directory, components[last].bytes())
}

/// What a component has in the directory of that name, whose body alone is read. Needs no memory.
pub fn entry_in(store: &Store, directory: Name, component: &[u8]) -> Option<Found>
    requires { has Tree store.now directory.0 ≡ true }
    ensures found { option_map (node store.now) result
        ≡ standing (flat store.now directory.0) (component.now ∷ []) }
    ensures held { IfSome result (λ f. has_child store.now f.mode f.name.0 ≡ true) }
{
    found_in(store, &directory, component)
}
