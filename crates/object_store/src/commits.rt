// Commits of a store.
ghost use Rattle.std.specs.Prelude.{◌≡◌, true};
ghost use Rattle.object_store.specs.Objects.{has};
ghost use Rattle.object_store.specs.StoredSnapshots.{IsTreeOf};

use crate::Store;
use git_objects::{Kind, Name, tree_in_commit};

/// The name of a commit's tree, which is in the store. Needs no memory.
pub fn tree_of(store: &Store, commit: &Name) -> Name
    requires { has Kind.Commit store.now commit.now.0 ≡ true }
    ensures { IsTreeOf store.now commit.now.0 result.0 }
{
    match store.get(commit) {
        None => unreachable!(),
        Some(object) => match tree_in_commit(object.body) {
            None => unreachable!(),
            Some(tree) => tree,
        },
    }
}
