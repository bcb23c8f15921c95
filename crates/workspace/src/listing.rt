// The list that takes a workspace's place.
ghost use Rattle.std.specs.Prelude.{◌≡◌, IfOk, OnOk, map, flat_map};
ghost use Rattle.filter_text.specs.Filters.{file, append};
ghost use Rattle.filter_text.specs.Shapes.{shape, shapes};
ghost use Rattle.filter_text.specs.Views.{item_values};
ghost use Rattle.workspace.specs.Workspaces.{around, filters_of, fronts, listed, own_branch};

use filter_text::{Filter, Item, copy};
use git_objects::Component;
use path_names::Path;
use std::alloc::{AllocError, Global};

// Adds what keeps each front of a path other than itself, from short to long.
fn add_fronts(onto: &mut Vec<Filter>, alloc: Global, path: &[Component]) -> Result<(), AllocError>
    ensures { OnOk result (shapes onto.new.items
        ≡ append (shapes onto.old.items) (filters_of (map file (fronts path.now)))) }
{
    for end in 1..path.len() {
        onto.push(Filter::File(Path::of_parts(alloc, &path[..end], &[])?))?;
    }
    Ok(())
}

// Adds what keeps each path that is comparable with a place.
fn add_around(onto: &mut Vec<Filter>, alloc: Global, place: &Path) -> Result<(), AllocError>
    ensures { OnOk result (shapes onto.new.items ≡ append (shapes onto.old.items) (filters_of (around place.now))) }
{
    onto.push(Filter::Dir(place.copy(alloc)?))?;
    onto.push(Filter::File(place.copy(alloc)?))?;
    add_fronts(onto, alloc, place.components())
}

// What keeps each path that is comparable with a place of an item.
fn around_all(alloc: Global, items: &[Item]) -> Result<Vec<Filter>, AllocError>
    ensures { IfOk result (λ v. shapes v.items ≡ filters_of (flat_map (λ i. around i.0) (item_values items.now))) }
{
    let mut kept = Vec::new(alloc);
    for item in items {
        add_around(&mut kept, alloc, &item.place)?;
    }
    Ok(kept)
}

// The workspace's own directory without each path that is comparable with an item's place.
fn own_branch(alloc: Global, directory: &Path, items: &[Item]) -> Result<Filter, AllocError>
    ensures { IfOk result (λ f. shape f ≡ own_branch directory.now (item_values items.now)) }
{
    let kept = Filter::Join(around_all(alloc, items)?);
    let own = Filter::Sub(directory.copy(alloc)?);
    let others = Filter::Exclude(Box::new(alloc, kept)?);
    Ok(Filter::Chain(vec![in alloc; own, others]?))
}

// The filters of items.
fn branches(alloc: Global, items: &[Item]) -> Result<Vec<Filter>, AllocError>
    ensures { IfOk result (λ v. shapes v.items ≡ filters_of (map (λ i. i.1) (item_values items.now))) }
{
    let mut branches = Vec::new(alloc);
    for item in items {
        branches.push(copy(alloc, &item.filter)?)?;
    }
    Ok(branches)
}

// A branch for each item, in order, and as last branch the workspace's own directory.
pub fn listed(alloc: Global, directory: &Path, items: &[Item]) -> Result<Filter, AllocError>
    ensures { IfOk result (λ f. shape f ≡ listed directory.now (item_values items.now)) }
{
    let own = own_branch(alloc, directory, items)?;
    let mut members = branches(alloc, items)?;
    members.push(own)?;
    Ok(Filter::Join(members))
}
