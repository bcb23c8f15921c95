// The limits of a tree.
ghost use Rattle.std.specs.Prelude.{◌≡◌, true};
ghost use Rattle.git_objects.specs.declared.kind.Kind.TheVariants.{Tree};
ghost use Rattle.object_store.specs.Objects.{has};
ghost use Rattle.object_store.specs.Unfolding.{flat};
ghost use Rattle.push_laws.specs.PushVerdicts.{passed};
ghost use Rattle.push_back.specs.Refusals.{passed_by};

use git_objects::limits::{TREE_DEPTH, TREE_FILES, TREE_PATH_BYTES};
use git_objects::{Name, Quantity};
use object_store::{Store, TreeStats};

// The first limit that a tree of these sizes passes.
fn passed_by(stats: TreeStats) -> Option<Quantity>
    ensures { result ≡ passed_by stats }
{
    if stats.files > TREE_FILES {
        return Some(Quantity::Files);
    }
    if stats.depth > TREE_DEPTH {
        return Some(Quantity::PathDepth);
    }
    if stats.longest > TREE_PATH_BYTES {
        return Some(Quantity::PathBytes);
    }
    None
}

// The first limit that a tree of the store passes. Nothing of it is read.
pub(crate) fn passed(store: &Store, root: &Name) -> Option<Quantity>
    requires root { has Tree store.now root.now.0 ≡ true }
    ensures { result ≡ passed (flat store.now root.now.0) }
{
    match store.stats(root) {
        None => unreachable!(),
        Some(stats) => passed_by(stats),
    }
}
