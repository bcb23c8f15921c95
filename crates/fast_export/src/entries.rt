// What a stored tree lists.
ghost use Rattle.std.specs.Prelude.{◌≡◌, [], true};
ghost use Rattle.std.specs.Prelude.{unwrap_or};
ghost use Rattle.git_objects.specs.Bodies.{tree_entries};
ghost use Rattle.git_objects.specs.declared.kind.Kind.TheVariants.{Tree};
ghost use Rattle.object_store.specs.Objects.{IsStore, body_of, has};

use git_objects::{Name, TreeView};
use object_store::Store;

/// The entries of a tree.
pub fn entries_of<'a>(store: &'a Store, tree: &Name) -> TreeView<'a>
    requires { has Tree store.now tree.now.0 ≡ true }
    ensures listed { result ≡ unwrap_or (tree_entries (body_of Tree store.now tree.now.0)) [] }
    ensures store { IsStore store.now }
{
    match store.get(tree) {
        None => unreachable!(),
        Some(object) => TreeView::of_canonical(object.body),
    }
}
