// Two trees put together.
ghost use Rattle.std.specs.Prelude.{◌≡◌, ◌+◌, ◌≤◌, ◌++◌, true, length, drop, map, IfOk, IfErr};
ghost use Rattle.std.specs.Prelude.{OnOk, Some, None};
ghost use Rattle.git_objects.specs.Entries.{body_text};
ghost use Rattle.git_objects.specs.Paths.{is_nil};
ghost use Rattle.git_objects.specs.declared.kind.Kind.TheVariants.{Tree};
ghost use Rattle.object_store.specs.Objects.{IsStore, has};
ghost use Rattle.object_store.specs.Unfolding.{flat, StandsFor};
ghost use Rattle.path_trees.specs.Clashes.{IsShared, clash, together};
ghost use Rattle.path_trees.specs.Joins.{AreLinked, IsJoinFault, IsPlaced, listing_of};
ghost use Rattle.path_trees.specs.Made.{IsGrown, IsTreeFault};
ghost use Rattle.path_trees.specs.Merged.{shared, with_names};

use crate::TreeFault;
use crate::clash::first_clash;
use crate::edits::taken_in;
use crate::pairs::{Pair, next_pair};
use crate::walk::entries_at;
use git_objects::{Name, add_entry};
use object_store::{Store, store_law};
use path_names::Path;
use std::alloc::{AllocError, Global};

/// Why two trees are not joined.
#[derive(Debug, Drop)]
pub enum JoinFault {
    /// The first path of the first tree that is comparable with one of the second, and the first of the second that it
    /// is comparable with.
    Clash { path: Path, by: Path },
    /// Another kind or body has the name of a tree that the join makes.
    Collision { name: Name },
    OutOfMemory,
}

// Two directories of one path.
#[derive(Clone, Copy)]
pub struct Shared {
    left: Name,
    right: Name,
}

/// The tree with the leaves of both. Only the directories that both have a path in are made anew.
pub fn join_disjoint(alloc: Global, store: &mut Store, a: Name, b: Name) -> Result<Name, JoinFault>
    requires first { has Tree store.old a.0 ≡ true }
    requires second { has Tree store.old b.0 ≡ true }
    ensures ok { IfOk result (λ n. (clash (flat store.old a.0) (flat store.old b.0) ≡ None)
        × StandsFor store.new n.0 (together (flat store.old a.0) (flat store.old b.0))) }
    ensures err { IfErr result (IsJoinFault (flat store.old a.0) (flat store.old b.0)
        store.old store.new) }
    ensures store { IsGrown (IsShared (flat store.old a.0) (flat store.old b.0))
        store.old store.new }
{
    store_law(store);
    match first_clash(alloc, store, &a, &b) {
        Err(_) => return Err(JoinFault::OutOfMemory),
        Ok(Some((path, by))) => return Err(JoinFault::Clash { path, by }),
        Ok(None) => {}
    }
    match join_apart(alloc, store, a, b) {
        Ok(name) => Ok(name),
        Err(TreeFault::Collision { name }) => Err(JoinFault::Collision { name }),
        Err(TreeFault::OutOfMemory) => Err(JoinFault::OutOfMemory),
    }
}

/// The tree with the leaves of two trees, of which no path of the one is comparable with one of the other. Only the
/// directories that both have a path in are made anew.
pub fn join_apart(alloc: Global, store: &mut Store, a: Name, b: Name) -> Result<Name, TreeFault>
    requires first { has Tree store.old a.0 ≡ true }
    requires second { has Tree store.old b.0 ≡ true }
    requires apart { clash (flat store.old a.0) (flat store.old b.0) ≡ None }
    ensures ok { IfOk result (λ n. StandsFor store.new n.0 (together (flat store.old a.0) (flat store.old b.0))) }
    ensures err { IfErr result (IsTreeFault (IsShared (flat store.old a.0) (flat store.old b.0)) store.new) }
    ensures store { IsGrown (IsShared (flat store.old a.0) (flat store.old b.0)) store.old store.new }
{
    store_law(store);
    if is_empty(store, &a) {
        return Ok(b);
    }
    if is_empty(store, &b) {
        return Ok(a);
    }
    joined(alloc, store, a, b)
}

fn is_empty(store: &Store, name: &Name) -> bool
    requires { has Tree store.now name.now.0 ≡ true }
    ensures empty { result ≡ is_nil (flat store.now name.now.0) }
    ensures store { IsStore store.now }
{
    entries_at(store, name).next().is_none()
}

// The tree with the leaves of two trees that have leaves and don't clash.
fn joined(alloc: Global, store: &mut Store, a: Name, b: Name) -> Result<Name, TreeFault>
    requires roots { IsPlaced store.old (flat store.old a.0) (flat store.old b.0)
        (record { left = a; right = b }) }
    requires clear { clash (flat store.old a.0) (flat store.old b.0) ≡ None }
    ensures ok { IfOk result (λ n. StandsFor store.new n.0
        (together (flat store.old a.0) (flat store.old b.0))) }
    ensures err { IfErr result (IsTreeFault
        (IsShared (flat store.old a.0) (flat store.old b.0)) store.new) }
    ensures store { IsGrown (IsShared (flat store.old a.0) (flat store.old b.0))
        store.old store.new }
{
    let Ok((directories, firsts)) = shared_directories(alloc, store, a, b) else {
        return Err(TreeFault::OutOfMemory);
    };
    let Ok(mut names) = left_names(alloc, &directories) else {
        return Err(TreeFault::OutOfMemory);
    };
    let mut level = directories.len();
    'directories: while level > 0 {
        level -= 1;
        let Ok(body) = joined_body(alloc, store, &directories[level], &names, firsts[level]) else {
            return Err(TreeFault::OutOfMemory);
        };
        names[level] = taken_in(store, &body)?;
    }
    Ok(names[0])
}

// The names that directories of both trees have in the first tree. The names of what is made come in their places.
fn left_names(alloc: Global, directories: &[Shared]) -> Result<Vec<Name>, AllocError>
    ensures { IfOk result (λ names. length names.items ≡ length directories.now) }
{
    directories
        .iter()
        .map(|directory| directory.left)
        .collect(alloc)
}

// The directories that both have a path in, the roots first, and where those of each directory begin.
fn shared_directories(
    alloc: Global,
    store: &Store,
    a: Name,
    b: Name,
) -> Result<(Vec<Shared>, Vec<usize>), AllocError>
    requires { IsPlaced store.now (flat store.now a.0) (flat store.now b.0)
        (record { left = a; right = b }) }
    ensures all { IfOk result (λ r. AreLinked store.now (flat store.now a.0) (flat store.now b.0)
        (record { left = a; right = b }) r.0.items r.1.items) }
    ensures store { IsStore store.now }
{
    store_law(store);
    let mut directories = Vec::new(alloc);
    let mut firsts = Vec::new(alloc);
    directories.push(Shared { left: a, right: b })?;
    'directories: while firsts.len() < directories.len() {
        let directory = directories[firsts.len()];
        firsts.push(directories.len())?;
        add_shared(store, &directory, &mut directories)?;
    }
    Ok((directories, firsts))
}

// Adds the directories that two directories of one path both have.
fn add_shared(
    store: &Store,
    directory: &Shared,
    directories: &mut Vec<Shared>,
) -> Result<(), AllocError>
    requires left { has Tree store.now directory.now.left.0 ≡ true }
    requires right { has Tree store.now directory.now.right.0 ≡ true }
    ensures { OnOk result (directories.new.items
        ≡ directories.old.items ++ shared (listing_of store.now directory.now)) }
{
    let mut left = entries_at(store, &directory.left);
    let mut right = entries_at(store, &directory.right);
    'pairs: while let Some(pair) = next_pair(&mut left, &mut right) {
        if let Pair::Both(entry, other) = pair {
            directories.push(Shared {
                left: entry.name,
                right: other.name,
            })?;
        }
    }
    Ok(())
}

// The body of a directory that both trees have, where the directories below it that both have get these names in turn.
fn joined_body(
    alloc: Global,
    store: &Store,
    directory: &Shared,
    names: &[Name],
    first: usize,
) -> Result<Vec<u8>, AllocError>
    requires left { has Tree store.now directory.now.left.0 ≡ true }
    requires right { has Tree store.now directory.now.right.0 ≡ true }
    requires names { first + length (shared (listing_of store.now directory.now)) ≤ length names.now }
    ensures { IfOk result (λ body. body.items
        ≡ body_text (with_names (listing_of store.now directory.now) (drop first names.now))) }
{
    let mut left = entries_at(store, &directory.left);
    let mut right = entries_at(store, &directory.right);
    let mut body = Vec::new(alloc);
    let mut next = first;
    'pairs: while let Some(pair) = next_pair(&mut left, &mut right) {
        match pair {
            Pair::Left(entry) => add_entry(&mut body, entry.mode, entry.component, &entry.name)?,
            Pair::Right(other) => add_entry(&mut body, other.mode, other.component, &other.name)?,
            Pair::Both(entry, _) => {
                add_entry(&mut body, entry.mode, entry.component, &names[next])?;
                next += 1;
            }
        }
    }
    Ok(body)
}
