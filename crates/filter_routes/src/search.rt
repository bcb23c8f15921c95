// Where a filter that is refused has its fault.
ghost use Rattle.std.specs.Prelude.{◌≡◌, ◌+◌, ◌<◌, ◌^◌, length, slice_get, Some, false, IfOk, IfErr};
ghost use Rattle.std.specs.Prelude.{OnOk};
ghost use Rattle.filter_text.specs.Filters.{Filters, pieces, pieces_in};
ghost use Rattle.filter_text.specs.Shapes.{shape, shapes};
ghost use Rattle.filter_routes.specs.Faults.{nodes, nodes_all};
ghost use Rattle.filter_routes.specs.Lists.{IsListOf};
ghost use Rattle.filter_routes.specs.RouteFaults.{IsRouteFault};
ghost use Rattle.filter_routes.specs.Searching.{AreListsOf, ClashBehind, clash_of, FirstClash, FirstPairOf, NoPairAt};
ghost use Rattle.filter_routes.specs.Searching.{Searched};
ghost use Rattle.filter_routes.specs.Soundness.{IsSound};

use crate::RouteFault;
use crate::any_list::list_within;
use crate::faults::first_not_keeping;
use crate::lists::is_sound;
use decision_lists::{Indexed, any_clash};
use filter_text::Filter;
use std::alloc::{AllocError, Global};

// The most entries that a decision list may have while a fault is looked for, where twice the pieces aren't more. The
// list of a sound filter has at most one entry for each piece and each chain, so none is refused for it. Those of an
// unsound one can double with each member of a chain, as by `:[:/a,:/b]`, and would fill any memory.
const MOST_ENTRIES: usize = 65536;

// The number behind the filter's pieces.
#[cycle(counting)]
fn past_pieces(filter: &Filter, number: usize) -> usize
    requires { number + pieces (shape filter.now) < 2 ^ 64 }
    ensures { result ≡ number + pieces (shape filter.now) }
{
    match filter {
        Filter::Nop => number + 1,
        Filter::Sub(_) => number + 1,
        Filter::Prefix(_) => number + 1,
        Filter::Dir(_) => number + 1,
        Filter::File(_) => number + 1,
        Filter::Exclude(inner) => past_pieces(inner, number + 1),
        Filter::Join(members) => past_pieces_in(members.as_slice(), number + 1),
        Filter::Chain(members) => past_pieces_in(members.as_slice(), number),
        Filter::Workspace(_) => number + 1,
    }
}

#[cycle(counting)]
fn past_pieces_in(members: &[Filter], number: usize) -> usize
    requires { number + pieces_in (shapes members.now) < 2 ^ 64 }
    ensures { result ≡ number + pieces_in (shapes members.now) }
{
    let mut number = number;
    for m in members {
        number = past_pieces(m, number);
    }
    number
}

// The decision list of a filter, with its index.
fn indexed_within(alloc: Global, most: usize, filter: &Filter) -> Result<Indexed, AllocError>
    ensures { IfOk result (IsListOf (shape filter.now)) }
{
    let list = list_within(alloc, most, filter)?;
    Indexed::of(alloc, list)
}

// The first list behind a place that clashes with the one there.
fn clash_behind(alloc: Global, lists: &[Indexed], first: usize) -> Result<Option<usize>, AllocError>
    requires { first < length lists.now }
    ensures { IfOk result (ClashBehind lists.now first) }
{
    for second in first + 1..lists.len() {
        if any_clash(alloc, &lists[first], &lists[second])? {
            return Ok(Some(second));
        }
    }
    Ok(None)
}

// The first two lists that clash: the first list against the later ones, then the second, and so on.
fn first_clash(alloc: Global, lists: &[Indexed]) -> Result<Option<(usize, usize)>, AllocError>
    ensures { IfOk result (FirstClash lists.now) }
{
    for first in 0..lists.len() {
        if let Some(second) = clash_behind(alloc, lists, first)? {
            return Ok(Some((first, second)));
        }
    }
    Ok(None)
}

// The fault of a list with this number whose first two branches that clash are these.
fn overlap_of(list: u32, first: usize, second: usize) -> RouteFault
    requires { first < second }
    ensures { (fs : Filters) → FirstPairOf list fs (RouteFault.Overlap list first second) →
        FirstPairOf list fs result }
{
    // So many branches that their numbers don't fit can't be held.
    if second > u32::MAX as usize {
        return RouteFault::OutOfMemory;
    }
    RouteFault::Overlap {
        list,
        first: first as u32,
        second: second as u32,
    }
}

// Whether a list clashes with the first of these.
fn clashes_with_first(
    alloc: Global,
    lists: &[Indexed],
    branch: &Indexed,
) -> Result<bool, AllocError>
    ensures { IfOk result (λ b. b ≡ clash_of (slice_get lists.now 0) (Some branch.now)) }
{
    if lists.is_empty() {
        return Ok(false);
    }
    any_clash(alloc, &lists[0], branch)
}

// The decision lists of the members of the list with this number. They are made one after the other up to one that
// clashes with the first, so that a list whose first branches clash is refused whatever stands behind them.
fn lists_beside_first(
    alloc: Global,
    most: usize,
    members: &[Filter],
    number: u32,
) -> Result<Vec<Indexed>, RouteFault>
    ensures lists { IfOk result (λ v. AreListsOf (shapes members.now) v.items) }
    ensures pair { IfErr result (FirstPairOf number (shapes members.now)) }
{
    let mut lists = Vec::with_capacity(alloc, members.len())?;
    for second in 0..members.len() {
        let branch = indexed_within(alloc, most, &members[second])?;
        if clashes_with_first(alloc, lists.as_slice(), &branch)? {
            return Err(overlap_of(number, 0, second));
        }
        match lists.push(branch) {
            Ok(()) => {}
            Err(_) => return Err(RouteFault::OutOfMemory),
        }
    }
    Ok(lists)
}

// Refuses a list with two branches that clash by its number and the first two. The decision list of a lone branch
// isn't made: it could fill any memory, where a list below it is refused at once.
fn are_apart(alloc: Global, most: usize, members: &[Filter], number: u32) -> Result<(), RouteFault>
    ensures apart { OnOk result (NoPairAt (shapes members.now)) }
    ensures pair { IfErr result (FirstPairOf number (shapes members.now)) }
{
    if members.len() < 2 {
        return Ok(());
    }
    let lists = lists_beside_first(alloc, most, members, number)?;
    match first_clash(alloc, lists.as_slice())? {
        None => Ok(()),
        Some((first, second)) => Err(overlap_of(number, first, second)),
    }
}

// The number behind the filter's pieces where no two branches of a list outside of excludes clash, else the first
// that do. The lists come in their order, so the search ends at the first.
#[cycle(searching)]
pub fn first_overlap(
    alloc: Global,
    most: usize,
    filter: &Filter,
    number: usize,
) -> Result<usize, RouteFault>
    requires { number + pieces (shape filter.now) < 2 ^ 32 }
    ensures { Searched number (nodes false (shape filter.now)) result }
{
    match filter {
        Filter::Nop => Ok(number + 1),
        Filter::Sub(_) => Ok(number + 1),
        Filter::Prefix(_) => Ok(number + 1),
        Filter::Dir(_) => Ok(number + 1),
        Filter::File(_) => Ok(number + 1),
        Filter::Exclude(inner) => Ok(past_pieces(inner, number + 1)),
        Filter::Join(members) => {
            let members = members.as_slice();
            match are_apart(alloc, most, members, number as u32) {
                Err(fault) => Err(fault),
                Ok(()) => first_overlap_in(alloc, most, members, number + 1),
            }
        }
        Filter::Chain(members) => first_overlap_in(alloc, most, members.as_slice(), number),
        Filter::Workspace(_) => Ok(number + 1),
    }
}

#[cycle(searching)]
fn first_overlap_in(
    alloc: Global,
    most: usize,
    members: &[Filter],
    number: usize,
) -> Result<usize, RouteFault>
    requires { number + pieces_in (shapes members.now) < 2 ^ 32 }
    ensures { Searched number (nodes_all false (shapes members.now)) result }
{
    let mut number = number;
    for m in members {
        match first_overlap(alloc, most, m, number) {
            Err(fault) => return Err(fault),
            Ok(next) => number = next,
        }
    }
    Ok(number)
}

// The fault of a filter that isn't sound.
pub fn fault_of(alloc: Global, filter: &Filter) -> RouteFault
    requires few { pieces (shape filter.now) < 2 ^ 32 }
    requires unsound { IsSound (shape filter.now) → ⊥ }
    ensures { IsRouteFault (shape filter.now) result }
{
    if let Some(piece) = first_not_keeping(filter) {
        return RouteFault::NotKeeping { piece };
    }
    let most = MOST_ENTRIES.max(2 * past_pieces(filter, 0));
    match first_overlap(alloc, most, filter, 0) {
        Err(fault) => fault,
        Ok(_) => unreachable!(),
    }
}

/// Whether a filter is sound, and where it isn't. A workspace is read as the paths below its place.
pub fn check(alloc: Global, filter: &Filter) -> Result<(), RouteFault>
    requires { pieces (shape filter.now) < 2 ^ 31 }
    ensures sound { OnOk result (IsSound (shape filter.now)) }
    ensures fault { IfErr result (IsRouteFault (shape filter.now)) }
{
    if is_sound(alloc, filter)? {
        return Ok(());
    }
    Err(fault_of(alloc, filter))
}
