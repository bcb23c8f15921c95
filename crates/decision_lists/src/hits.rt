// The way of a path through a decision list, and the way back.
ghost use Rattle.std.specs.Prelude.{◌≡◌, ◌≤◌, ◌++◌, [], None, Some, is_some, true, length, slice_get};
ghost use Rattle.std.specs.Prelude.{IfSome};
ghost use Rattle.decision_lists.specs.Fronts.{strip};
ghost use Rattle.decision_lists.specs.Entries.{base, cone_of, tail, run};
ghost use Rattle.decision_lists.specs.Operations.{heads};
ghost use Rattle.decision_lists.specs.Cells.{cells, cells_at, origin, free_in};
ghost use Rattle.decision_lists.specs.Hits.{image_at, source_hit, target_of, source_of, longer_by, dropped};

use crate::entry::{Entry, begins, fits, rest_behind};
use git_objects::Component;

/// An entry of a list, its route, and how many components of a path it takes off.
#[derive(Clone, Copy, Debug, PartialEq, Eq)]
pub struct RouteHit {
    pub route: usize,
    pub cut: usize,
}

/// The first entry whose cone has the path, if it has a target. Needs no memory.
pub fn locate(entries: &[Entry], path: &[Component]) -> Option<RouteHit>
    ensures image { image_at entries.now result path.now ≡ run None entries.now path.now }
    ensures found { is_some result ≡ is_some (run None entries.now path.now) }
    ensures route { IfSome result (λ h. is_some (target_of (slice_get entries.now h.route)) ≡ true) }
    ensures cut { IfSome result (λ h. h.cut ≤ length path.now) }
{
    for i in 0..entries.len() {
        let entry = &entries[i];
        if entry.has(path) {
            return match &entry.target {
                None => None,
                Some(_) => Some(RouteHit {
                    route: i,
                    cut: entry.base.as_slice().len(),
                }),
            };
        }
    }
    None
}

// Whether `base` and then `rest` begin with `front`.
fn begins_joined(front: &[Component], base: &[Component], rest: &[Component]) -> bool
    ensures { result ≡ is_some (strip front.now (base.now ++ rest.now)) }
{
    if front.len() <= base.len() {
        return begins(front, base);
    }
    begins(&front[..base.len()], base) && begins(&front[base.len()..], rest)
}

// Whether `base` and then `rest` are `front`, or else lie properly below it.
fn fits_joined(point: bool, front: &[Component], base: &[Component], rest: &[Component]) -> bool
    ensures { result ≡ is_some (tail (cone_of point front.now) (base.now ++ rest.now)) }
{
    begins_joined(front, base, rest) && (point == (front.len() == base.len() + rest.len()))
}

// Whether no entry's cone has `base` and then `rest`.
fn is_free(holes: &[Entry], base: &[Component], rest: &[Component]) -> bool
    ensures { result ≡ free_in holes.now (base.now ++ rest.now) }
{
    for hole in holes {
        if fits_joined(hole.point, hole.base.as_slice(), base, rest) {
            return false;
        }
    }
    true
}

// How many components of an image are a target, where the image comes from the cell with this target.
fn cut_at(
    point: bool,
    base: &[Component],
    target: &[Component],
    holes: &[Entry],
    image: &[Component],
) -> Option<usize>
    ensures source { longer_by base.now (dropped image.now result)
        ≡ origin (cells_at (cone_of point base.now) (Some target.now) (heads holes.now []) []) image.now }
    ensures cut { IfSome result (λ n. n ≤ length image.now) }
{
    if !fits(point, target, image) {
        return None;
    }
    match rest_behind(target, image) {
        None => None,
        Some(rest) => {
            if !is_free(holes, base, rest) {
                return None;
            }
            Some(target.len())
        }
    }
}

// How many components of an image are the entry's target, where the image comes from the entry.
fn cut_by(entry: &Entry, holes: &[Entry], image: &[Component]) -> Option<usize>
    ensures source { longer_by (base entry.now.0) (dropped image.now result)
        ≡ origin (cells_at entry.now.0 entry.now.1 (heads holes.now []) []) image.now }
    ensures live { IfSome result (λ n. is_some (source_of (Some entry.now)) ≡ true) }
    ensures cut { IfSome result (λ n. n ≤ length image.now) }
{
    match &entry.target {
        None => None,
        Some(target) => cut_at(
            entry.point,
            entry.base.as_slice(),
            target.as_slice(),
            holes,
            image,
        ),
    }
}

/// The entry that an image comes from. The hit counts components of the image. Needs no memory.
pub fn locate_origin(entries: &[Entry], image: &[Component]) -> Option<RouteHit>
    ensures source { source_hit entries.now result image.now ≡ origin (cells [] entries.now) image.now }
    ensures found { is_some result ≡ is_some (origin (cells [] entries.now) image.now) }
    ensures route { IfSome result (λ h. is_some (source_of (slice_get entries.now h.route)) ≡ true) }
    ensures cut { IfSome result (λ h. h.cut ≤ length image.now) }
{
    for i in 0..entries.len() {
        if let Some(cut) = cut_by(&entries[i], &entries[..i], image) {
            return Some(RouteHit { route: i, cut });
        }
    }
    None
}
