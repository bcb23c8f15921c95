// Whether two decision lists clash.
ghost use Rattle.std.specs.Prelude.{◌≡◌, [], List, IfOk, ◌&&◌, ◌||◌};
ghost use Rattle.decision_lists.specs.Fronts.{strip};
ghost use Rattle.decision_lists.specs.Operations.{heads, covers, alive};
ghost use Rattle.decision_lists.specs.Cells.{Cell, touches, reaches_at, clashes, any_right, any_clash, cells, cells_at};

use crate::entry::{Entry, joined, rest_behind};
use crate::index::Index;
use crate::indexed::{Indexed, Lent};
use git_objects::Component;
use std::alloc::{AllocError, Global};

// Whether something at a front of `rest` behind the base, or below all of it, is in no hole.
fn touches(
    alloc: Global,
    base: &[Component],
    holes: &Lent<'_>,
    rest: &[Component],
) -> Result<bool, AllocError>
    ensures { IfOk result (λ b. b ≡ touches base.now (heads holes.now []) rest.now) }
{
    let mut front = joined(alloc, base, &[])?;
    for c in rest {
        front.push(c.copy(alloc)?)?;
        if holes.is_alive(true, front.as_slice()) {
            return Ok(true);
        }
    }
    Ok(holes.is_alive(false, front.as_slice()))
}

// Whether the images of a cell are comparable with all that stands at or below a target.
fn reaches(
    alloc: Global,
    entry: &Entry,
    target: &[Component],
    holes: &Lent<'_>,
    other: &[Component],
) -> Result<bool, AllocError>
    ensures { IfOk result (λ b. b ≡ reaches_at entry.now.0 (heads holes.now []) (strip target.now other.now)) }
{
    match rest_behind(target, other) {
        None => Ok(false),
        Some(rest) => {
            if entry.point {
                return Ok(true);
            }
            touches(alloc, entry.base.as_slice(), holes, rest)
        }
    }
}

// Whether a cone but for its holes has all of another cone.
fn overlaps(entry: &Entry, holes: &Lent<'_>, other: &Entry) -> bool
    ensures { result ≡ (covers entry.now.0 other.now.0 && alive (heads holes.now []) other.now.0) }
{
    entry.covers(other.point, other.base.as_slice())
        && holes.is_alive(other.point, other.base.as_slice())
}

// Whether one of two cells has a path of the other, as each has what lies in no hole of its own.
fn have_one_path(entry: &Entry, holes: &Lent<'_>, other: &Entry, other_holes: &Lent<'_>) -> bool
    ensures { result ≡ ((covers entry.now.0 other.now.0 && alive (heads holes.now []) other.now.0)
        || (covers other.now.0 entry.now.0 && alive (heads other_holes.now []) entry.now.0)) }
{
    overlaps(entry, holes, other) || overlaps(other, other_holes, entry)
}

// Whether two cells have a path in common, or paths with comparable images.
fn clashes(
    alloc: Global,
    entry: &Entry,
    target: &[Component],
    holes: &Lent<'_>,
    other: &Entry,
    other_target: &[Component],
    other_holes: &Lent<'_>,
) -> Result<bool, AllocError>
    ensures { IfOk result (λ b. b
        ≡ clashes (entry.now.0, target.now, heads holes.now [])
        (other.now.0, other_target.now, heads other_holes.now [])) }
{
    if have_one_path(entry, holes, other, other_holes) {
        return Ok(true);
    }
    if reaches(alloc, entry, target, holes, other_target)? {
        return Ok(true);
    }
    reaches(alloc, other, other_target, other_holes, target)
}

// Whether a cell clashes with the cell of an entry, if it is one.
fn clashes_with(
    alloc: Global,
    entry: &Entry,
    target: &[Component],
    holes: &Lent<'_>,
    other: &Entry,
    other_holes: &Lent<'_>,
) -> Result<bool, AllocError>
    ensures { IfOk result (λ b. (ks : List Cell) → (b || any_right (entry.now.0, target.now, heads holes.now []) ks)
        ≡ any_right (entry.now.0, target.now, heads holes.now [])
        (cells_at other.now.0 other.now.1 (heads other_holes.now []) ks)) }
{
    match &other.target {
        None => Ok(false),
        Some(other_target) => {
            clashes(
                alloc,
                entry,
                target,
                holes,
                other,
                other_target.as_slice(),
                other_holes,
            )
        }
    }
}

// Whether a cell clashes with some cell of a list.
fn any_right(
    alloc: Global,
    entry: &Entry,
    target: &[Component],
    holes: &Lent<'_>,
    others: &Lent<'_>,
) -> Result<bool, AllocError>
    ensures { IfOk result (λ b. b ≡ any_right (entry.now.0, target.now, heads holes.now []) (cells [] others.now)) }
{
    let all = others.entries();
    for i in 0..all.len() {
        if clashes_with(alloc, entry, target, holes, &all[i], &others.front(i))? {
            return Ok(true);
        }
    }
    Ok(false)
}

// Whether the cell of an entry, if it is one, clashes with some cell of a list.
fn any_right_of(
    alloc: Global,
    entry: &Entry,
    holes: &Lent<'_>,
    others: &Lent<'_>,
) -> Result<bool, AllocError>
    ensures { IfOk result (λ b. (ks : List Cell) → (b || any_clash ks (cells [] others.now))
        ≡ any_clash (cells_at entry.now.0 entry.now.1 (heads holes.now []) ks) (cells [] others.now)) }
{
    match &entry.target {
        None => Ok(false),
        Some(target) => any_right(alloc, entry, target.as_slice(), holes, others),
    }
}

// Whether some cell of a list clashes with some cell of another.
fn any_left(alloc: Global, list: &Lent<'_>, others: &Lent<'_>) -> Result<bool, AllocError>
    ensures { IfOk result (λ b. b ≡ any_clash (cells [] list.now) (cells [] others.now)) }
{
    let entries = list.entries();
    for i in 0..entries.len() {
        if any_right_of(alloc, &entries[i], &list.front(i), others)? {
            return Ok(true);
        }
    }
    Ok(false)
}

/// Whether two lists have a path in common, or paths with comparable images. An index of the second is made for it.
pub fn clashes_with_list(
    alloc: Global,
    list: &Indexed,
    others: &[Entry],
) -> Result<bool, AllocError>
    ensures { IfOk result (λ b. b ≡ any_clash (cells [] list.now) (cells [] others.now)) }
{
    let index = Index::of(alloc, others)?;
    any_left(alloc, &list.lent(), &Lent::of(others, &index))
}

/// Whether two lists have a path in common, or paths with comparable images.
pub fn any_clash(alloc: Global, list: &Indexed, others: &Indexed) -> Result<bool, AllocError>
    ensures { IfOk result (λ b. b ≡ any_clash (cells [] list.now) (cells [] others.now)) }
{
    any_left(alloc, &list.lent(), &others.lent())
}
