// How many files there are.
ghost use Rattle.std.specs.Prelude.{◌≡◌, ◌⊎◌, ◌+◌, ◌≤◌, ◌<◌, true, length, IfOk, IfErr, ℕ};
ghost use Rattle.git_objects.specs.declared.limits.TheConstants.{TREE_FILES};
ghost use Rattle.git_objects.specs.Trees.{rests};
ghost use Rattle.object_store.specs.Sizes.{held_number};
ghost use Rattle.path_trees.specs.Standing.{node};
ghost use Rattle.stage_tree.specs.Counts.{IsCountable, IsRoom, files, files_but};
ghost use Rattle.stage_tree.specs.declared.fault.StageFault.TheVariants.{OutOfMemory, TooMany};
ghost use Rattle.stage_nodes.specs.Leaves.{is_held};
ghost use Rattle.stage_nodes.specs.Pools.{hanging};
ghost use Rattle.stage_nodes.specs.Ways.{IsOpen, kids_of};

use crate::fault::StageFault;
use git_objects::limits::TREE_FILES;
use object_store::Store;
use path_trees::Found;
use stage_nodes::{Content, Link, Nodes};
use std::alloc::{AllocError, Global};

// The files of a leaf or a stored directory. A number is held at 4,294,967,295 where it is greater.
pub fn found_files(store: &Store, found: Found) -> u32
    requires { is_held store.now (Content.Held found) ≡ true }
    ensures { result ≡ held_number (length (rests (node store.now found))) }
{
    if !found.mode.is_dir() {
        return 1;
    }
    match store.stats(&found.name) {
        None => unreachable!(),
        Some(stats) => stats.files,
    }
}

// The files of what hangs at a link, without those of the node of a number.
pub fn files(
    nodes: &Nodes,
    alloc: Global,
    store: &Store,
    start: Link,
    but: Option<usize>,
) -> Result<u32, AllocError>
    requires { IsCountable store.now nodes.now start }
    ensures { IfOk result (λ n. n ≡ held_number (files_but store.now but (hanging nodes.now start))) }
{
    let mut files: u32 = 0;
    let mut entered = Vec::new(alloc);
    let mut link = start;
    'nodes: loop {
        let Some(number) = nodes.target(link) else {
            let Some(directory) = entered.pop() else {
                return Ok(files);
            };
            link = Link::Next(directory);
            continue 'nodes;
        };
        link = Link::Next(number);
        if Some(number) != but {
            match nodes.cells[number].content {
                Content::Held(found) => { files = files.saturating_add(found_files(store, found)) }
                Content::Open => {
                    entered.push(number)?;
                    link = Link::First(number);
                }
            }
        }
    }
}

// A number of files that isn't passed where something with so many more takes the place of a node, or a refusal.
pub fn most_with(
    nodes: &Nodes,
    alloc: Global,
    store: &Store,
    child: Option<usize>,
    most: u32,
    more: u32,
) -> Result<u32, StageFault>
    requires opened { IsOpen store.now nodes.now }
    requires most { held_number (files store.now (kids_of nodes.now)) ≤ most }
    ensures ok { IfOk result (λ m. (n : ℕ) → more ≡ held_number n
        → IsRoom (files_but store.now child (kids_of nodes.now) + n) m) }
    ensures err { IfErr result (λ e. (e ≡ OutOfMemory) ⊎ ((e ≡ TooMany)
        × ((n : ℕ) → more ≡ held_number n → TREE_FILES < files_but store.now child (kids_of nodes.now) + n))) }
{
    let bound = most.saturating_add(more);
    if bound <= TREE_FILES {
        return Ok(bound);
    }
    let left = files(nodes, alloc, store, Link::First(0), child)?;
    let total = left.saturating_add(more);
    if total > TREE_FILES {
        return Err(StageFault::TooMany);
    }
    Ok(total)
}
