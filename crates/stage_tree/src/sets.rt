// A leaf put at a path.
ghost use Rattle.std.specs.Prelude.{◌≡◌, ◌⊎◌, ◌+◌, ◌≤◌, ◌<◌, true, ℕ, List, None, IfOk};
ghost use Rattle.std.specs.Prelude.{IfErr, IfSome, OnErr, OnOk};
ghost use Rattle.std.specs.List.{list_all};
ghost use Rattle.git_objects.specs.declared.limits.TheConstants.{TREE_FILES};
ghost use Rattle.git_objects.specs.Paths.{is_component};
ghost use Rattle.object_store.specs.Objects.{Object};
ghost use Rattle.object_store.specs.Sizes.{held_number};
ghost use Rattle.stage_tree.specs.declared.fault.StageFault.TheVariants.{OutOfMemory, TooMany};
ghost use Rattle.stage_tree.specs.Counts.{IsRoom, files, files_but};
ghost use Rattle.stage_nodes.specs.Expanding.{IsWaste};
ghost use Rattle.stage_nodes.specs.Frames.{dirs_of};
ghost use Rattle.stage_nodes.specs.Leaves.{is_held};
ghost use Rattle.stage_tree.specs.Sets.{IsChildOf, IsPutAt, is_leaf_at};
ghost use Rattle.stage_nodes.specs.Ways.{HasPlace, IsOpen, IsWay, kids_of};

use crate::count::most_with;
use crate::fault::StageFault;
use crate::last::Last;
use git_objects::Component;
use object_store::Store;
use path_trees::Found;
use stage_nodes::{Content, Node, Nodes, Way};
use std::alloc::{AllocError, Global};

// Whether a leaf has the number.
fn is_leaf_at(nodes: &Nodes, child: Option<usize>) -> bool
    requires { (S : List Object) × HasPlace S nodes.now child }
    ensures { result ≡ is_leaf_at nodes.now.cells.items child }
{
    let Some(number) = child else {
        return false;
    };
    match nodes.cells[number].content {
        Content::Held(found) => !found.mode.is_dir(),
        Content::Open => false,
    }
}

// A number of files that isn't passed where a leaf takes the place of a node, or a refusal. A leaf in the place of a
// leaf changes no number.
pub fn most_with_leaf(
    nodes: &Nodes,
    alloc: Global,
    store: &Store,
    child: Option<usize>,
    most: u32,
) -> Result<u32, StageFault>
    requires opened { IsOpen store.now nodes.now }
    requires place { HasPlace store.now nodes.now child }
    requires most { held_number (files store.now (kids_of nodes.now)) ≤ most }
    ensures ok { IfOk result (IsRoom (files_but store.now child (kids_of nodes.now) + 1)) }
    ensures err { IfErr result (λ e. (e ≡ OutOfMemory) ⊎ ((e ≡ TooMany)
        × (TREE_FILES < files_but store.now child (kids_of nodes.now) + 1))) }
{
    if is_leaf_at(nodes, child) {
        most_with(nodes, alloc, store, None, most, 0)
    } else {
        most_with(nodes, alloc, store, child, most, 1)
    }
}

// Puts a leaf or a stored directory at the end of a way. The number of the node that stands there then.
fn put_on(
    nodes: &mut Nodes,
    way: Way,
    components: &[Component],
    found: Found,
) -> Result<usize, AllocError>
    requires way { (S : List Object)
        × IsWay S nodes.old nodes.old components.now way.level way.spot.link way.spot.child
        × (is_held S (Content.Held found) ≡ true) }
    requires components { list_all is_component components.now ≡ true }
    ensures ok { IfOk result (λ k. (S : List Object)
        (w : IsWay S nodes.old nodes.old components.now way.level way.spot.link way.spot.child)
        → is_held S (Content.Held found) ≡ true
        → IsPutAt S nodes.old nodes.new components.now way.level way.spot.link way.spot.child found k w) }
    ensures err { OnErr result (IsWaste nodes.old nodes.new) }
{
    if let Some(number) = nodes.reached(way, components.len()) {
        let node = nodes.cells[number];
        if let Content::Held(_) = node.content {
            let content = Content::Held(found);
            nodes.set(number, Node { content, ..node });
            return Ok(number);
        }
    }
    let number = nodes.branch(components, way.level, found)?;
    nodes.replace(way.spot.link, way.spot.child, number);
    Ok(number)
}

// Puts a leaf or a stored directory at the end of a way, and remembers its node. The numbers that are known are those
// of the directories on the way.
pub fn put_last(
    nodes: &mut Nodes,
    last: &mut Last,
    alloc: Global,
    way: Way,
    components: &[Component],
    found: Found,
) -> Result<(), AllocError>
    requires way { (S : List Object)
        × (w : IsWay S nodes.old nodes.old components.now way.level way.spot.link way.spot.child)
        × (is_held S (Content.Held found) ≡ true) × (dirs_of w.place.frames ≡ last.old.numbers.items) }
    requires components { list_all is_component components.now ≡ true }
    requires forgotten { last.old.child ≡ None }
    ensures ok { OnOk result ((S : List Object)
        (w : IsWay S nodes.old nodes.old components.now way.level way.spot.link way.spot.child)
        → is_held S (Content.Held found) ≡ true
        → (k : ℕ)
        × IsPutAt S nodes.old nodes.new components.now way.level way.spot.link way.spot.child found k w) }
    ensures err { OnErr result (IsWaste nodes.old nodes.new) }
    ensures child { IfSome last.new.child
        (IsChildOf nodes.new last.new.directory.items last.new.numbers.items) }
{
    let number = put_on(nodes, way, components, found)?;
    last.remember(alloc, &components[..way.level], number);
    Ok(())
}

// Puts a leaf or a stored directory at the end of a way, and remembers its node. The path is given up: its directory is
// kept and not copied. The numbers that are known are those of the directories on the way.
pub fn put_kept(
    nodes: &mut Nodes,
    last: &mut Last,
    way: Way,
    components: Vec<Component>,
    found: Found,
) -> Result<(), AllocError>
    requires way { (S : List Object)
        × (w : IsWay S nodes.old nodes.old components.items way.level way.spot.link way.spot.child)
        × (is_held S (Content.Held found) ≡ true) × (dirs_of w.place.frames ≡ last.old.numbers.items) }
    requires components { list_all is_component components.items ≡ true }
    requires forgotten { last.old.child ≡ None }
    ensures ok { OnOk result ((S : List Object)
        (w : IsWay S nodes.old nodes.old components.items way.level way.spot.link way.spot.child)
        → is_held S (Content.Held found) ≡ true
        → (k : ℕ)
        × IsPutAt S nodes.old nodes.new components.items way.level way.spot.link way.spot.child found k w) }
    ensures err { OnErr result (IsWaste nodes.old nodes.new) }
    ensures child { IfSome last.new.child
        (IsChildOf nodes.new last.new.directory.items last.new.numbers.items) }
{
    let number = put_on(nodes, way, &components, found)?;
    last.keep(components, way.level, number);
    Ok(())
}
