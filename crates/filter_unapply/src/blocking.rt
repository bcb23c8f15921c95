// Why parts can't be put together.
ghost use Rattle.std.specs.Prelude.{◌≡◌, true, Some, None, IfOk};
ghost use Rattle.git_objects.specs.Lists.{Each};
ghost use Rattle.git_objects.specs.Paths.{Path as PathValue, path_cmp};
ghost use Rattle.git_objects.specs.Trees.{Leaf as LeafValue, at};
ghost use Rattle.std.specs.Ordering.{is_lt};
ghost use Rattle.git_objects.specs.declared.kind.Kind.TheVariants.{Tree};
ghost use Rattle.object_store.specs.Objects.{has};
ghost use Rattle.object_store.specs.Unfolding.{flat};
ghost use Rattle.path_trees.specs.Clashes.{clash};
ghost use Rattle.filter_unapply.specs.Blocks.{IsLeast, lesser, pair_cmp, with_clashes};
ghost use Rattle.filter_unapply.specs.Parts.{AreApart, IsBlockIn, any_at};

use git_objects::Name;
use object_store::{Store, store_law};
use path_names::{Path, before, path_law};
use path_trees::first_clash;
use std::alloc::{AllocError, Global};
use std::cmp::Ordering;

// The first path of the parts that is comparable with another path of all, and the first such other path.
pub fn first_block(
    alloc: Global,
    store: &Store,
    kept: Name,
    parts: &[Name],
) -> Result<Option<(Path, Path)>, AllocError>
    requires kept { has Tree store.now kept.0 ≡ true }
    requires parts { Each (λ n. has Tree store.now n.0 ≡ true) parts.now }
    requires apart { AreApart store.now parts.now }
    requires other { (p : PathValue) (x : LeafValue) → at (flat store.now kept.0) p ≡ Some x →
        any_at store.now parts.now p ≡ None }
    ensures { IfOk result (IsLeast (IsBlockIn store.now kept parts.now)) }
{
    store_law(store);
    let mut least = None;
    for i in 0..parts.len() {
        let part: &Name = &parts[i];
        least = with_clashes(alloc, store, least, part, &parts[..i])?;
        least = with_clashes(alloc, store, least, part, &parts[i + 1..])?;
        least = with_clash(alloc, store, least, part, &kept)?;
    }
    Ok(least)
}

// The least of a pair and of the first clashes of one tree with each of others.
fn with_clashes(
    alloc: Global,
    store: &Store,
    least: Option<(Path, Path)>,
    a: &Name,
    others: &[Name],
) -> Result<Option<(Path, Path)>, AllocError>
    requires first { has Tree store.now a.now.0 ≡ true }
    requires others { Each (λ n. has Tree store.now n.0 ≡ true) others.now }
    ensures { IfOk result (λ o. o ≡ with_clashes store.now a.now others.now least) }
{
    let mut least = least;
    for i in 0..others.len() {
        let other: &Name = &others[i];
        least = with_clash(alloc, store, least, a, other)?;
    }
    Ok(least)
}

// The lesser of a pair and of the first clash of two trees.
fn with_clash(
    alloc: Global,
    store: &Store,
    least: Option<(Path, Path)>,
    a: &Name,
    b: &Name,
) -> Result<Option<(Path, Path)>, AllocError>
    requires first { has Tree store.now a.now.0 ≡ true }
    requires second { has Tree store.now b.now.0 ≡ true }
    ensures { IfOk result (λ o. o ≡ lesser least (clash (flat store.now a.now.0) (flat store.now b.now.0))) }
{
    Ok(lesser(least, first_clash(alloc, store, a, b)?))
}

// The lesser of two pairs that are there.
fn lesser(a: Option<(Path, Path)>, b: Option<(Path, Path)>) -> Option<(Path, Path)>
    ensures { result ≡ lesser a b }
{
    match a {
        None => b,
        Some(a) => match b {
            None => Some(a),
            Some(b) => {
                if comes_before(&b, &a) {
                    return Some(b);
                }
                Some(a)
            }
        },
    }
}

// Whether the first path of a pair comes before that of another, or is the same and the second path comes before.
fn comes_before(a: &(Path, Path), b: &(Path, Path)) -> bool
    ensures { result ≡ is_lt (pair_cmp a.now b.now) }
{
    let first = order(&a.0, &b.0);
    let second = order(&a.1, &b.1);
    first.then(second).is_lt()
}

/// How two paths stand to each other in path order.
pub fn order(a: &Path, b: &Path) -> Ordering
    ensures { result ≡ path_cmp a.now b.now }
{
    path_law(a);
    path_law(b);
    if before(a, b) {
        return Ordering::Less;
    }
    if before(b, a) {
        return Ordering::Greater;
    }
    Ordering::Equal
}
