// Commits that aren't reached from others.
ghost use Rattle.std.specs.Prelude.{◌≡◌, ◌++◌, map, true, IfOk, OnOk};
ghost use Rattle.std.specs.List.{list_all};
ghost use Rattle.git_objects.specs.Parts.{name_bytes};
ghost use Rattle.git_objects.specs.declared.kind.Kind.TheVariants.{Commit};
ghost use Rattle.object_store.specs.Objects.{has};
ghost use Rattle.fast_export.specs.Histories.{parents_in};
ghost use Rattle.incremental_export.specs.Unreached.{AreSame, unreached_in};

use git_objects::{CommitView, Name};
use indexmap::IndexSet;
use object_store::Store;
use std::alloc::{AllocError, Global};

// Adds the parents of a commit.
fn add_parents(store: &Store, commit: &Name, wanted: &mut IndexSet<Name>) -> Result<(), AllocError>
    requires { has Commit store.now commit.now.0 ≡ true }
    ensures { OnOk result (AreSame (map name_bytes wanted.new.keys)
        (parents_in store.now commit.now.0 ++ map name_bytes wanted.old.keys)) }
{
    let Some(object) = store.get(commit) else {
        unreachable!();
    };
    let Some(commit) = CommitView::of(object.body) else {
        unreachable!();
    };
    for i in 0..commit.parent_count() {
        let Some(parent) = commit.parent(i) else {
            unreachable!();
        };
        wanted.insert(parent)?;
    }
    Ok(())
}

/// Those of a store's commits, parents first, that are none of `haves` and that none of these is led to by its parents;
/// in the same order. Of `haves` those that aren't among the commits count for nothing.
pub fn unreached(
    alloc: Global,
    store: &Store,
    commits: &[Name],
    haves: &[Name],
) -> Result<Vec<Name>, AllocError>
    requires { list_all (has Commit store.now) (map name_bytes commits.now) ≡ true }
    ensures { IfOk result (λ left. map name_bytes left.items
        ≡ unreached_in store.now (map name_bytes haves.now) (map name_bytes commits.now)) }
{
    let mut wanted = IndexSet::new(alloc);
    for have in haves {
        wanted.insert(*have)?;
    }
    let mut left = Vec::new(alloc);
    for i in (0..commits.len()).rev() {
        let commit = commits[i];
        if wanted.contains(&commit) {
            add_parents(store, &commit, &mut wanted)?;
        } else {
            left.push(commit)?;
        }
    }
    left.reverse();
    Ok(left)
}
