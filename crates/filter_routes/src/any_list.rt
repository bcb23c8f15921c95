// Decision lists of filters that may be unsound, up to a number of entries.
ghost use Rattle.std.specs.Prelude.{IfOk};
ghost use Rattle.filter_text.specs.Filters.{join, chain};
ghost use Rattle.filter_text.specs.Shapes.{shape, shapes};
ghost use Rattle.filter_routes.specs.Lists.{IsListOf};

use decision_lists::{Entry, Indexed, after, either, one_entry, turned};
use filter_text::Filter;
use std::alloc::{AllocError, Global};

/// The decision list of a filter, sound or not. Where a list on the way becomes longer than `most`, there is none for
/// want of memory.
#[cycle(bounding)]
pub fn list_within(alloc: Global, most: usize, filter: &Filter) -> Result<Vec<Entry>, AllocError>
    ensures { IfOk result (λ v. IsListOf (shape filter.now) v.items) }
{
    match filter {
        Filter::Nop => one_entry(alloc, false, &[], &[]),
        Filter::Sub(path) => one_entry(alloc, false, path.components(), &[]),
        Filter::Prefix(path) => one_entry(alloc, false, &[], path.components()),
        Filter::Dir(path) => {
            let path = path.components();
            one_entry(alloc, false, path, path)
        }
        Filter::File(path) => {
            let path = path.components();
            one_entry(alloc, true, path, path)
        }
        Filter::Exclude(inner) => {
            let list = list_within(alloc, most, inner)?;
            turned(alloc, list)
        }
        Filter::Join(members) => join_within(alloc, most, members.as_slice()),
        Filter::Chain(members) => chain_within(alloc, most, members.as_slice()),
        Filter::Workspace(path) => one_entry(alloc, false, path.components(), &[]),
    }
}

#[cycle(bounding)]
fn join_within(alloc: Global, most: usize, members: &[Filter]) -> Result<Vec<Entry>, AllocError>
    ensures { IfOk result (λ v. IsListOf (join (shapes members.now)) v.items) }
{
    let mut list = Indexed::new(alloc);
    for m in members {
        let branch = list_within(alloc, most, m)?;
        list = either(alloc, most, list, branch)?;
    }
    Ok(list.into_entries())
}

#[cycle(bounding)]
fn chain_within(alloc: Global, most: usize, members: &[Filter]) -> Result<Vec<Entry>, AllocError>
    ensures { IfOk result (λ v. IsListOf (chain (shapes members.now)) v.items) }
{
    let mut list = one_entry(alloc, false, &[], &[])?;
    for m in members {
        let next = list_within(alloc, most, m)?;
        list = after(alloc, most, list, next.as_slice())?;
    }
    Ok(list)
}
