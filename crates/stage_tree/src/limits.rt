// How long the paths are that a move or a copy puts.
ghost use Rattle.std.specs.Prelude.{◌≡◌, ◌≤◌, ◌<◌, ◌^◌, true, IfOk, Some};
ghost use Rattle.git_objects.specs.Paths.{is_path};
ghost use Rattle.git_objects.specs.Trees.{Flat, Node as FlatNode};
ghost use Rattle.object_store.specs.Objects.{IsStore};
ghost use Rattle.stage_tree.specs.Counts.{IsCountable};
ghost use Rattle.stage_nodes.specs.Leaves.{is_held};
ghost use Rattle.stage_tree.specs.Limits.{IsJudged, content_fits, cost, fits_in, limit_of, put_fits, room_left, weight};
ghost use Rattle.stage_tree.specs.Edits.{within_paths};
ghost use Rattle.stage_tree.specs.Standings.{Holds};
ghost use Rattle.stage_nodes.specs.Ways.{HasPlace, IsOpen};
ghost use Rattle.stage_nodes.specs.Pools.{hanging};

use crate::fault::StageFault;
use git_objects::Component;
use git_objects::limits::{PATH_BYTES, PATH_COMPONENTS};
use object_store::Store;
use path_trees::Found;
use stage_nodes::{Content, Link, Nodes};
use std::alloc::{AllocError, Global};

// What of a path is measured: its components, or the bytes of its text with a slash behind each component.
#[derive(Clone, Copy)]
pub enum Measure {
    Components,
    Bytes,
}

// What a component of so many bytes takes of a limit.
fn weight(measure: Measure, len: usize) -> usize
    requires { weight measure len < 2 ^ 64 }
    ensures { result ≡ weight measure len }
{
    match measure {
        Measure::Components => 1,
        Measure::Bytes => len + 1,
    }
}

// The most of it that a path may have. A text has one slash less than there are components.
fn limit(measure: Measure) -> usize
    ensures { result ≡ limit_of measure }
{
    match measure {
        Measure::Components => PATH_COMPONENTS,
        Measure::Bytes => PATH_BYTES + 1,
    }
}

// What a path leaves of a limit, if it doesn't pass it.
fn room_left(measure: Measure, components: &[Component], limit: usize) -> Option<usize>
    ensures { result ≡ room_left limit (cost measure components.now) }
{
    let mut left = limit;
    for i in 0..components.len() {
        let weight = weight(measure, components[i].bytes().len());
        if weight > left {
            return None;
        }
        left -= weight;
    }
    Some(left)
}

// Whether the paths of a leaf or a stored directory take no more than that.
fn found_fits(store: &Store, measure: Measure, found: Found, room: usize) -> bool
    requires store { IsStore store.now }
    requires held { is_held store.now (Content.Held found) ≡ true }
    requires room { room ≤ 4097 }
    ensures { result ≡ content_fits measure store.now room (Content.Held found) true }
{
    if !found.mode.is_dir() {
        return true;
    }
    match store.stats(&found.name) {
        None => unreachable!(),
        Some(stats) => match measure {
            Measure::Components => stats.depth as usize <= room,
            Measure::Bytes => (stats.longest as usize) < room,
        },
    }
}

// Whether the paths through what hangs at a link take no more than that.
fn siblings_fit(
    nodes: &Nodes,
    alloc: Global,
    store: &Store,
    measure: Measure,
    start: Link,
    room: usize,
) -> Result<bool, AllocError>
    requires store { IsStore store.now }
    requires nodes { IsCountable store.now nodes.now start }
    requires room { room ≤ 4097 }
    ensures { IfOk result (λ fits. fits ≡ fits_in measure store.now room (hanging nodes.now start)) }
{
    let mut room = room;
    let mut entered = Vec::new(alloc);
    let mut link = start;
    'nodes: loop {
        let Some(number) = nodes.target(link) else {
            let Some(directory) = entered.pop() else {
                return Ok(true);
            };
            room += weight(measure, nodes.cells[directory].len);
            link = Link::Next(directory);
            continue 'nodes;
        };
        let node = nodes.cells[number];
        let weight = weight(measure, node.len);
        if weight > room {
            return Ok(false);
        }
        match node.content {
            Content::Held(found) => {
                if !found_fits(store, measure, found, room - weight) {
                    return Ok(false);
                }
                link = Link::Next(number);
            }
            Content::Open => {
                entered.push(number)?;
                room -= weight;
                link = Link::First(number);
            }
        }
    }
}

// Whether the paths that come of putting at a path what stands at a node take no more than the limit.
fn put_fits(
    nodes: &Nodes,
    alloc: Global,
    store: &Store,
    measure: Measure,
    number: usize,
    to: &[Component],
) -> Result<bool, AllocError>
    requires store { IsStore store.now }
    requires opened { IsOpen store.now nodes.now }
    requires place { HasPlace store.now nodes.now (Some number) }
    ensures { IfOk result (λ fits. (h : HasPlace store.now nodes.now (Some number)) (t : Flat) (n : FlatNode)
        → Holds store.now nodes.now h t n → fits ≡ put_fits measure (limit_of measure) to.now n) }
{
    let Some(room) = room_left(measure, to, limit(measure)) else {
        return Ok(false);
    };
    match nodes.cells[number].content {
        Content::Held(found) => Ok(found_fits(store, measure, found, room)),
        Content::Open => siblings_fit(nodes, alloc, store, measure, Link::First(number), room),
    }
}

// Refuses to put at a path what stands at a node where a path that comes of it is too deep or too long.
pub fn within(
    nodes: &Nodes,
    alloc: Global,
    store: &Store,
    number: usize,
    to: &[Component],
) -> Result<(), StageFault>
    requires store { IsStore store.now }
    requires opened { IsOpen store.now nodes.now }
    requires place { HasPlace store.now nodes.now (Some number) }
    requires path { is_path to.now ≡ true }
    ensures { (h : HasPlace store.now nodes.now (Some number)) (t : Flat) (n : FlatNode)
        → Holds store.now nodes.now h t n → IsJudged (within_paths to.now n) result }
{
    if !put_fits(nodes, alloc, store, Measure::Components, number, to)? {
        return Err(StageFault::TooDeep);
    }
    if !put_fits(nodes, alloc, store, Measure::Bytes, number, to)? {
        return Err(StageFault::TooLong);
    }
    Ok(())
}
