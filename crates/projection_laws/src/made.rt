// Commits of their own.
ghost use Rattle.std.specs.Prelude.{◌≡◌, ◌≤◌, true, Some, length, map, IfOk};
ghost use Rattle.git_objects.specs.Commits.{Commit as CommitValue};
ghost use Rattle.git_objects.specs.Idents.{is_ident};
ghost use Rattle.git_objects.specs.declared.kind.Kind.TheVariants.{Commit};
ghost use Rattle.object_store.specs.Objects.{has, IsStore};
ghost use Rattle.object_store.specs.StoredSnapshots.{commit_named};
ghost use Rattle.commit_map.specs.Shown.{shown_value};
ghost use Rattle.projection_laws.specs.Made.{IsOwnBody};

use commit_map::Shown;
use git_objects::{Bytes, CommitParts, CommitView, Ident, IdentFault, Name, encode_commit};
use object_store::Store;
use std::alloc::{AllocError, Global};

/// The body of the commit that has this tree and these commits as its parents, and says what the commit of that name
/// says.
pub fn own_body(
    alloc: Global,
    store: &Store,
    original: &Name,
    tree: Name,
    projected: &[Shown],
) -> Result<Vec<u8>, AllocError>
    requires commit { has Commit store.now original.now.0 ≡ true }
    requires store { IsStore store.now }
    requires few { length projected.now ≤ 16 }
    ensures { (c : CommitValue) → commit_named store.now original.now.0 ≡ Some c →
        IfOk result (λ body. IsOwnBody tree.0 (map shown_value projected.now) c.letter body.items) }
{
    let Some(object) = store.get(original) else {
        unreachable!()
    };
    let Some(commit) = CommitView::of(object.body) else {
        unreachable!()
    };
    encoded(alloc, &commit, tree, projected)
}

// The body of a commit that shows this tree upon these projections, and says what another says.
fn encoded(
    alloc: Global,
    commit: &CommitView<'_>,
    tree: Name,
    projected: &[Shown],
) -> Result<Vec<u8>, AllocError>
    requires few { length projected.now ≤ 16 }
    requires author { is_ident commit.now.letter.author ≡ true }
    requires committer { is_ident commit.now.letter.committer ≡ true }
    ensures { IfOk result (λ body. IsOwnBody tree.0 (map shown_value projected.now) commit.now.letter body.items) }
{
    let parts = CommitParts {
        tree,
        parents: names(alloc, projected)?,
        author: ident(alloc, commit.author())?,
        committer: ident(alloc, commit.committer())?,
        message: Bytes::of(commit.message().to_vec(alloc)?),
    };
    encode_commit(alloc, &parts)
}

// The names of projected commits.
fn names(alloc: Global, projected: &[Shown]) -> Result<Vec<Name>, AllocError>
    ensures { IfOk result (λ names. names.items ≡ map (λ m. m.commit) projected.now) }
{
    projected.iter().map(|m| m.commit).collect(alloc)
}

// A copy of an ident.
fn ident(alloc: Global, text: &[u8]) -> Result<Ident, AllocError>
    requires { is_ident text.now ≡ true }
    ensures { IfOk result (λ ident. ident ≡ text.now) }
{
    match Ident::parse(alloc, text) {
        Ok(ident) => Ok(ident),
        Err(IdentFault::OutOfMemory) => Err(AllocError),
        Err(IdentFault::Bad) => unreachable!(),
    }
}
