// The way back of one route, as a list of its own.
ghost use Rattle.std.specs.Prelude.{◌≡◌, ◌<◌, None, Some, [], length, ◌++◌, IfOk, OnOk};
ghost use Rattle.decision_lists.specs.Backward.{IsWayBack, route_cells};
ghost use Rattle.decision_lists.specs.Cells.{cells_at};
ghost use Rattle.decision_lists.specs.Entries.{cone_of};
ghost use Rattle.decision_lists.specs.Operations.{heads, pull, put};

use crate::entry::{Entry, joined};
use crate::operations::part;
use git_objects::Component;
use std::alloc::{AllocError, Global};

/// The list that gives each image which comes from one entry its path, and no other path anything.
pub fn way_back(alloc: Global, entries: &[Entry], route: usize) -> Result<Vec<Entry>, AllocError>
    requires { route < length entries.now }
    ensures { IfOk result (λ v. IsWayBack v.items (route_cells entries.now route)) }
{
    let entry: &Entry = &entries[route];
    match &entry.target {
        None => Ok(Vec::new(alloc)),
        Some(target) => {
            back_from(
                alloc,
                entry.point,
                entry.base.as_slice(),
                target.as_slice(),
                &entries[..route],
            )
        }
    }
}

/// The list that gives each image which comes from one cone by this target, where none of these entries has the path,
/// and no other path anything.
pub fn back_from(
    alloc: Global,
    point: bool,
    base: &[Component],
    target: &[Component],
    holes: &[Entry],
) -> Result<Vec<Entry>, AllocError>
    ensures { IfOk result (λ v. IsWayBack v.items
        (cells_at (cone_of point base.now) (Some target.now) (heads holes.now []) [])) }
{
    let mut list = Vec::new(alloc);
    for hole in holes {
        push_dead(alloc, &mut list, point, target, base, hole)?;
    }
    list.push(Entry {
        point,
        base: joined(alloc, target, &[])?,
        target: Some(joined(alloc, base, &[])?),
    })?;
    Ok(list)
}

// Adds the part of a cone that comes into the entry's cone when `target` takes the place of the cone's base, without a
// target of its own.
fn push_dead(
    alloc: Global,
    list: &mut Vec<Entry>,
    point: bool,
    base: &[Component],
    target: &[Component],
    entry: &Entry,
) -> Result<(), AllocError>
    ensures { OnOk result (list.new.items
        ≡ list.old.items ++ put (pull (cone_of point base.now) target.now entry.now.0) None []) }
{
    match part(alloc, point, base, target, entry)? {
        None => Ok(()),
        Some(part) => {
            list.push(Entry {
                point: part.point,
                base: part.base,
                target: None,
            })?;
            Ok(())
        }
    }
}
