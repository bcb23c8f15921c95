// What the leaf at a workspace place gives.
ghost use Rattle.std.specs.Prelude.{◌≡◌, true, Some, ◌<◌, ◌^◌, IfOk};
ghost use Rattle.std.specs.Option.{option_map};
ghost use Rattle.git_objects.specs.Paths.{is_path};
ghost use Rattle.object_store.specs.Objects.{has_child};
ghost use Rattle.filter_text.specs.Filters.{has_paths, pieces};
ghost use Rattle.filter_text.specs.Shapes.{shape};
ghost use Rattle.filter_text.specs.Views.{item_values};
ghost use Rattle.filter_routes.specs.FaultTests.{fault};
ghost use Rattle.workspace.specs.Giving.{leaf_gives, list_gives, text_gives};
ghost use Rattle.workspace.specs.Laws.{IsUsable};
ghost use Rattle.workspace.specs.Views.{found_value, leaf_value, IsHeldLeaf};
ghost use Rattle.workspace.specs.Workspaces.{listed, split, text_of};

use crate::listing::listed;
use crate::parts::parts_of;
use crate::resolving::{items_in, text_at};
use filter_routes::{RouteFault, check};
use filter_text::{Filter, Item};
use git_objects::Mode;
use object_store::Store;
use path_names::Path;
use path_trees::Leaf;
use std::alloc::{AllocError, Global};

/// What the leaf at a workspace place gives, or why it gives no items.
#[derive(Clone, Copy, Debug, PartialEq, Eq)]
pub enum LeafGives {
    /// No leaf stands there.
    Absent,
    /// A link or a module, which has no text of items.
    NoFile,
    /// The text isn't one of items.
    Unreadable,
    /// The items were read, and the list that they make with the workspace's own directory isn't sound. Its branches
    /// are the items in the order of the file, numbered from 0, and behind them that directory.
    Unsound(RouteFault),
    /// So many items.
    Items(usize),
}

// What items give that were read.
fn list_gives(alloc: Global, directory: &Path, items: &[Item]) -> Result<LeafGives, AllocError>
    requires few { pieces (listed directory.now (item_values items.now)) < 2 ^ 31 }
    requires paths { has_paths (listed directory.now (item_values items.now)) ≡ true }
    ensures { IfOk result (λ g.
        g ≡ list_gives (item_values items.now) (fault (listed directory.now (item_values items.now)))) }
{
    let list = listed(alloc, directory, items)?;
    match check(alloc, &list) {
        Ok(()) => Ok(LeafGives::Items(items.len())),
        Err(RouteFault::OutOfMemory) => Err(AllocError),
        Err(RouteFault::NotKeeping { piece }) => Ok(LeafGives::Unsound(RouteFault::NotKeeping {
            piece,
        })),
        Err(
            RouteFault::Overlap {
                list,
                first,
                second,
            },
        ) => Ok(LeafGives::Unsound(RouteFault::Overlap {
            list,
            first,
            second,
        })),
    }
}

// What a text gives.
fn text_gives(alloc: Global, directory: &Path, text: &[u8]) -> Result<LeafGives, AllocError>
    requires path { is_path directory.now ≡ true }
    ensures { IfOk result (λ g. g ≡ text_gives directory.now (Some text.now)) }
{
    match items_in(alloc, text)? {
        None => Ok(LeafGives::Unreadable),
        Some(items) => list_gives(alloc, directory, &items),
    }
}

// What a leaf gives that is there.
fn held_gives(
    alloc: Global,
    store: &Store,
    directory: &Path,
    leaf: Leaf,
) -> Result<LeafGives, AllocError>
    requires path { is_path directory.now ≡ true }
    requires held { has_child store.now leaf.mode leaf.name.0 ≡ true }
    ensures { IfOk result (λ g. g ≡ text_gives directory.now (text_of (leaf_value store.now leaf))) }
{
    match leaf.mode {
        Mode::File => text_gives(alloc, directory, text_at(store, &leaf.name)),
        Mode::Exec => text_gives(alloc, directory, text_at(store, &leaf.name)),
        Mode::Link => Ok(LeafGives::NoFile),
        Mode::Module => Ok(LeafGives::NoFile),
        Mode::Dir => Ok(LeafGives::NoFile),
    }
}

// What the leaf gives in the directory of a workspace, where there is one.
fn found_gives(
    alloc: Global,
    store: &Store,
    directory: &Path,
    leaf: Option<Leaf>,
) -> Result<LeafGives, AllocError>
    requires path { is_path directory.now ≡ true }
    requires held { IsHeldLeaf store.now leaf }
    ensures { IfOk result (λ g. g ≡ leaf_gives directory.now (found_value store.now leaf)) }
{
    match leaf {
        None => Ok(LeafGives::Absent),
        Some(leaf) => held_gives(alloc, store, directory, leaf),
    }
}

/// What the leaf at the workspace place gives to a filter, where the filter has a workspace. Of a list that isn't sound
/// it fails for want of memory too where its parts grow too long for the first fault to be found.
pub fn leaf_gives(
    alloc: Global,
    store: &Store,
    filter: &Filter,
    leaf: Option<Leaf>,
) -> Result<Option<LeafGives>, AllocError>
    requires usable { IsUsable (shape filter.now) }
    requires held { IsHeldLeaf store.now leaf }
    ensures { IfOk result (λ g.
        g ≡ option_map (λ s. leaf_gives s.directory (found_value store.now leaf)) (split (shape filter.now))) }
{
    match parts_of(filter) {
        None => Ok(None),
        Some(parts) => Ok(Some(found_gives(alloc, store, parts.directory, leaf)?)),
    }
}
