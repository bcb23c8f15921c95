// Sizes of trees, from those of their parts.
ghost use Rattle.std.specs.Prelude.{◌≡◌, ℕ, length, max, IfSome};
ghost use Rattle.object_store.specs.Sizes.{held_number, leaf_sizes, sizes_below, sizes_joined};
ghost use Rattle.object_store.specs.declared.store.TreeStats.{TreeStats};

use crate::TreeStats;

// The sizes of a tree with no path.
pub const NO_PATH: TreeStats = TreeStats {
    files: 0,
    depth: 0,
    longest: 0,
};

// A number, held at the greatest that fits.
fn held(n: usize) -> u32
    ensures { result ≡ held_number n }
{
    n.min(u32::MAX as usize) as u32
}

// The sizes of a tree with one leaf, at a path of one component.
pub fn leaf_stats(component: &[u8]) -> TreeStats
    ensures { result ≡ leaf_sizes (length component.now) }
{
    TreeStats {
        files: 1,
        depth: 1,
        longest: held(component.len()),
    }
}

// The sizes of a tree that has a path, where a component is put before each path.
pub fn stats_below(component: &[u8], tree: TreeStats) -> TreeStats
    ensures { result ≡ sizes_below (length component.now) tree }
{
    TreeStats {
        files: tree.files,
        depth: tree.depth.saturating_add(1),
        longest: held(component.len())
            .saturating_add(1)
            .saturating_add(tree.longest),
    }
}

// The sizes of two trees' paths together.
pub fn stats_joined(a: TreeStats, b: TreeStats) -> TreeStats
    ensures { result ≡ sizes_joined a b }
{
    TreeStats {
        files: a.files.saturating_add(b.files),
        depth: a.depth.max(b.depth),
        longest: a.longest.max(b.longest),
    }
}

// The greater of what was kept and of what came for what went, of which the greater was `total`; None where that can't
// be told.
fn most_swapped(total: u32, less: u32, more: u32) -> Option<u32>
    ensures { IfSome result (λ n. (kept : ℕ) → total ≡ max kept less → n ≡ max kept more) }
{
    if more >= total {
        return Some(more);
    }
    if less < total {
        return Some(total);
    }
    None
}

/// The sizes of a tree in which some paths came for others: of what was kept and of what came, from those of what was
/// kept and of what went. None where these don't tell.
pub fn stats_swapped(total: TreeStats, less: TreeStats, more: TreeStats) -> Option<TreeStats>
    ensures { IfSome result (λ s. (kept : TreeStats) → total ≡ sizes_joined kept less →
        s ≡ sizes_joined kept more) }
{
    if total.files == u32::MAX {
        return None;
    }
    let depth = most_swapped(total.depth, less.depth, more.depth)?;
    let longest = most_swapped(total.longest, less.longest, more.longest)?;
    Some(TreeStats {
        files: total
            .files
            .saturating_sub(less.files)
            .saturating_add(more.files),
        depth,
        longest,
    })
}
