// The decision list of a filter, and whether a filter is sound.
ghost use Rattle.std.specs.Prelude.{◌≡◌, ◌↔◌, ◌&&◌, cond, [], ◌∷◌, IfOk, IsTrue, Some, None};
ghost use Rattle.decision_lists.specs.Operations.{either_left};
ghost use Rattle.decision_lists.specs.Cells.{any_clash, cells};
ghost use Rattle.filter_text.specs.Filters.{join, chain};
ghost use Rattle.filter_text.specs.Shapes.{shape, shapes};
ghost use Rattle.decision_lists.specs.Entries.{below};
ghost use Rattle.filter_routes.specs.Soundness.{IsSound};
ghost use Rattle.filter_routes.specs.Lists.{Listed, entries_of};

use decision_lists::{Entry, Indexed, after, clashes_with_list, either, one_entry, turned};
use filter_text::Filter;
use git_objects::Component;
use std::alloc::{AllocError, Global};

// The list of a leaf that takes off a front or puts one on, where such may stand.
fn moving(
    alloc: Global,
    apart: bool,
    base: &[Component],
    target: &[Component],
) -> Result<Option<Vec<Entry>>, AllocError>
    ensures { IfOk result (λ o. entries_of o ≡ cond apart (Some ((below base.now, Some target.now) ∷ [])) None) }
{
    if !apart {
        return Ok(None);
    }
    Ok(Some(one_entry(alloc, false, base, target)?))
}

// The decision list of a filter: None where the filter isn't sound. Where `apart` doesn't hold it stands inside of an
// exclude: None where it isn't keeping.
#[cycle(listing)]
pub fn list_of(
    alloc: Global,
    filter: &Filter,
    apart: bool,
) -> Result<Option<Vec<Entry>>, AllocError>
    ensures { IfOk result (λ o. Listed apart (shape filter.now) (entries_of o)) }
{
    match filter {
        Filter::Nop => Ok(Some(one_entry(alloc, false, &[], &[])?)),
        Filter::Sub(path) => moving(alloc, apart, path.components(), &[]),
        Filter::Prefix(path) => moving(alloc, apart, &[], path.components()),
        Filter::Dir(path) => {
            let path = path.components();
            Ok(Some(one_entry(alloc, false, path, path)?))
        }
        Filter::File(path) => {
            let path = path.components();
            Ok(Some(one_entry(alloc, true, path, path)?))
        }
        Filter::Exclude(inner) => {
            if !apart {
                return Ok(None);
            }
            match list_of(alloc, inner, false)? {
                None => Ok(None),
                Some(list) => Ok(Some(turned(alloc, list)?)),
            }
        }
        Filter::Join(members) => list_of_join(alloc, members.as_slice(), apart),
        Filter::Chain(members) => list_of_chain(alloc, members.as_slice(), apart),
        Filter::Workspace(path) => moving(alloc, apart, path.components(), &[]),
    }
}

// The list with one branch more, where it doesn't clash with those before, or needn't be apart from them.
fn with_branch(
    alloc: Global,
    list: Indexed,
    branch: Vec<Entry>,
    apart: bool,
) -> Result<Option<Indexed>, AllocError>
    ensures { IfOk result (λ o. o ≡
        cond (apart && any_clash (cells [] list) (cells [] branch.items)) None (Some (either_left list branch.items))) }
{
    if apart && clashes_with_list(alloc, &list, branch.as_slice())? {
        return Ok(None);
    }
    Ok(Some(either(alloc, usize::MAX, list, branch)?))
}

#[cycle(listing)]
fn list_of_join(
    alloc: Global,
    members: &[Filter],
    apart: bool,
) -> Result<Option<Vec<Entry>>, AllocError>
    ensures { IfOk result (λ o. Listed apart (join (shapes members.now)) (entries_of o)) }
{
    let mut list = Indexed::new(alloc);
    for m in members {
        match list_of(alloc, m, apart)? {
            None => return Ok(None),
            Some(branch) => match with_branch(alloc, list, branch, apart)? {
                None => return Ok(None),
                Some(longer) => list = longer,
            },
        }
    }
    Ok(Some(list.into_entries()))
}

#[cycle(listing)]
fn list_of_chain(
    alloc: Global,
    members: &[Filter],
    apart: bool,
) -> Result<Option<Vec<Entry>>, AllocError>
    ensures { IfOk result (λ o. Listed apart (chain (shapes members.now)) (entries_of o)) }
{
    let mut list = one_entry(alloc, false, &[], &[])?;
    for m in members {
        match list_of(alloc, m, apart)? {
            None => return Ok(None),
            Some(next) => list = after(alloc, usize::MAX, list, next.as_slice())?,
        }
    }
    Ok(Some(list))
}

/// Whether the content of each exclude is keeping, and no two branches of a list outside of an exclude clash.
pub fn is_sound(alloc: Global, filter: &Filter) -> Result<bool, AllocError>
    ensures { IfOk result (λ b. IsTrue b ↔ IsSound (shape filter.now)) }
{
    Ok(list_of(alloc, filter, true)?.is_some())
}
