// A tree laid back below a path.
ghost use Rattle.std.specs.Prelude.{◌≡◌, [], true, IfOk, IfErr, Some};
ghost use Rattle.git_objects.specs.Entries.{is_dir};
ghost use Rattle.git_objects.specs.Paths.{is_path};
ghost use Rattle.git_objects.specs.declared.kind.Kind.TheVariants.{Tree};
ghost use Rattle.object_store.specs.Objects.{has};
ghost use Rattle.object_store.specs.Unfolding.{flat};
ghost use Rattle.path_trees.specs.Made.{IsGrown};
ghost use Rattle.filter_unapply.specs.Laying.{laid_through};
ghost use Rattle.filter_unapply.specs.Laying.{below};
ghost use Rattle.filter_unapply.specs.Stored.{IsLaidBody, IsLaidTree, IsLayFault, IsLeafInWay, first_of};

use crate::LayFault;
use git_objects::{Mode, Name};
use object_store::{Store, store_law};
use path_names::Path;
use path_trees::{Found, Walk, entry_at, put_at, remove_at};
use std::alloc::{AllocError, Global};

/// Lays the tree `pushed` into `base`, as the filter `:/place` shows it: in the place of all that lies below `place`.
/// A file at `place` itself is not shown, and stays where `pushed` is empty. The directories on the way to `place` are
/// made anew, and nothing else.
pub fn laid_below(
    alloc: Global,
    store: &mut Store,
    place: &Path,
    base: Name,
    pushed: Name,
) -> Result<Name, LayFault>
    requires base { has Tree store.old base.0 ≡ true }
    requires pushed { has Tree store.old pushed.0 ≡ true }
    ensures ok { IfOk result (IsLaidTree store.new
        (laid_through (below place.now) (flat store.old base.0) (flat store.old pushed.0))) }
    ensures err { IfErr result (IsLayFault
        (laid_through (below place.now) (flat store.old base.0) (flat store.old pushed.0)) place.now
        store.new) }
    ensures store { IsGrown (IsLaidBody
        (laid_through (below place.now) (flat store.old base.0) (flat store.old pushed.0)) place.now)
        store.old store.new }
{
    store_law(store);
    match first_path(alloc, store, pushed)? {
        None => emptied(alloc, store, place, base),
        Some(first) => replaced(alloc, store, place, base, pushed, &first),
    }
}

// The first path of a tree, in path order.
pub fn first_path(alloc: Global, store: &Store, root: Name) -> Result<Option<Path>, AllocError>
    requires { has Tree store.now root.0 ≡ true }
    ensures { IfOk result (λ path. path ≡ first_of (flat store.now root.0)) }
{
    let mut walk = Walk::new(alloc, store, root)?;
    if !walk.next()? {
        return Ok(None);
    }
    Ok(Some(walk.path().copy(alloc)?))
}

// Lays the empty tree: without the directory at the place.
fn emptied(alloc: Global, store: &mut Store, place: &Path, base: Name) -> Result<Name, LayFault>
    requires { has Tree store.old base.0 ≡ true }
    ensures ok { IfOk result (IsLaidTree store.new
        (laid_through (below place.now) (flat store.old base.0) [])) }
    ensures err { IfErr result (IsLayFault
        (laid_through (below place.now) (flat store.old base.0) []) place.now store.new) }
    ensures store { IsGrown (IsLaidBody
        (laid_through (below place.now) (flat store.old base.0) []) place.now)
        store.old store.new }
{
    store_law(store);
    match entry_at(store, base, place) {
        Some(found) if found.mode.is_dir() => Ok(remove_at(alloc, store, base, place)?),
        _ => Ok(base),
    }
}

// Lays a tree with this first path: as the directory at the place, unless a leaf stands in the way.
fn replaced(
    alloc: Global,
    store: &mut Store,
    place: &Path,
    base: Name,
    pushed: Name,
    first: &Path,
) -> Result<Name, LayFault>
    requires base { has Tree store.old base.0 ≡ true }
    requires pushed { has Tree store.old pushed.0 ≡ true }
    requires first { first_of (flat store.old pushed.0) ≡ Some first.now }
    ensures ok { IfOk result (IsLaidTree store.new
        (laid_through (below place.now) (flat store.old base.0) (flat store.old pushed.0))) }
    ensures err { IfErr result (IsLayFault
        (laid_through (below place.now) (flat store.old base.0) (flat store.old pushed.0)) place.now
        store.new) }
    ensures store { IsGrown (IsLaidBody
        (laid_through (below place.now) (flat store.old base.0) (flat store.old pushed.0)) place.now)
        store.old store.new }
{
    store_law(store);
    if let Some(by) = leaf_in_way(alloc, store, base, place)? {
        let path = place.joined(alloc, first)?;
        return Err(LayFault::Blocked { path, by });
    }
    let found = Found {
        mode: Mode::Dir,
        name: pushed,
    };
    Ok(put_at(alloc, store, base, place, found)?)
}

// The first front of a path, itself included, at which a leaf stands.
fn leaf_in_way(
    alloc: Global,
    store: &Store,
    root: Name,
    path: &Path,
) -> Result<Option<Path>, AllocError>
    requires { has Tree store.now root.0 ≡ true }
    ensures leaf { IfOk result (IsLeafInWay (flat store.now root.0) path.now) }
    ensures path { is_path path.now ≡ true }
{
    store_law(store);
    let components = path.components();
    'fronts: for last in 0..components.len() {
        let front = Path::of_parts(alloc, &components[..last + 1], &[])?;
        if let Some(found) = entry_at(store, root, &front) {
            if !found.mode.is_dir() {
                return Ok(Some(front));
            }
        }
    }
    Ok(None)
}
