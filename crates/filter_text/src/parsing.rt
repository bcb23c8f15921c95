// Reading a whole filter text.
ghost use Rattle.std.specs.Prelude.{◌≡◌, ◌≤◌, ◌⊎◌, true, Ok, Err, Some, IfOk, MatchResult};
ghost use Rattle.std.specs.Prelude.{option_map};
ghost use Rattle.git_objects.specs.declared.limits.TheConstants.{FILTER_PIECES};
ghost use Rattle.filter_text.specs.Shapes.{shape};
ghost use Rattle.filter_text.specs.Reading.{filter_of};
ghost use Rattle.filter_text.specs.Filters.{has_paths, is_filter, pieces};
ghost use Rattle.filter_text.specs.Limits.{judged, read};
ghost use Rattle.filter_text.specs.Spelling.{SpellsFilter};

use crate::limits::{is_placed, is_small, too_deep};
use crate::making::linked;
use crate::reader::pieces_at;
use crate::{Filter, FilterFault};
use git_objects::limits::FILTER_BYTES;
use std::alloc::{AllocError, Global};

// The filter that a whole text is; None where it is none.
fn filter_of(alloc: Global, text: &[u8]) -> Result<Option<Filter>, AllocError>
    ensures { IfOk result (λ f. option_map shape f ≡ filter_of text.now) }
{
    match pieces_at(alloc, text)? {
        None => Ok(None),
        Some((pieces, rest)) => {
            if !rest.is_empty() {
                return Ok(None);
            }
            Ok(Some(linked(pieces)))
        }
    }
}

// The filter, where its workspace stands well and it is small enough.
fn judged(filter: Filter) -> Result<Filter, FilterFault>
    ensures { MatchResult result (λ f. judged (Some (shape filter)) ≡ Ok (shape f))
        (λ fault. judged (Some (shape filter)) ≡ Err fault) }
{
    if !is_placed(&filter) {
        return Err(FilterFault::WorkspacePlace);
    }
    if !is_small(&filter) {
        return Err(FilterFault::TooMany);
    }
    Ok(filter)
}

#[tactic(auto, unfolding(crate::specs::Limits::read))]
fn read_filter(alloc: Global, text: &[u8]) -> Result<Filter, FilterFault>
    ensures { MatchResult result (λ f. read text.now ≡ Ok (shape f))
        (λ fault. (fault ≡ FilterFault.OutOfMemory) ⊎ (read text.now ≡ Err fault)) }
{
    if text.len() > FILTER_BYTES {
        return Err(FilterFault::TooLong);
    }
    if too_deep(text) {
        return Err(FilterFault::TooDeep);
    }
    match filter_of(alloc, text) {
        Err(_) => Err(FilterFault::OutOfMemory),
        Ok(None) => Err(FilterFault::Syntax),
        Ok(Some(filter)) => judged(filter),
    }
}

/// Reads a filter. The first of several faults is told. What is read is a filter that other calls may be given: it is
/// spelled by the text, made of paths, and has few enough pieces.
pub fn parse(alloc: Global, text: &[u8]) -> Result<Filter, FilterFault>
    ensures read { MatchResult result (λ f. read text.now ≡ Ok (shape f))
        (λ fault. (fault ≡ FilterFault.OutOfMemory) ⊎ (read text.now ≡ Err fault)) }
    ensures spelled { IfOk result (λ f. SpellsFilter text.now (shape f)) }
    ensures valid { IfOk result (λ f. is_filter (shape f) ≡ true) }
    ensures paths { IfOk result (λ f. has_paths (shape f) ≡ true) }
    ensures few { IfOk result (λ f. pieces (shape f) ≤ FILTER_PIECES) }
{
    read_filter(alloc, text)
}
