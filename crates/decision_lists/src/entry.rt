// Entries of decision lists: cones of paths, and where they go.
ghost use Rattle.std.specs.Prelude.{◌≡◌, ◌≤◌, ◌++◌, length, option_map, is_some, true, false, ◌&&◌};
ghost use Rattle.std.specs.Prelude.{IfOk, Some};
ghost use Rattle.decision_lists.specs.Fronts.{strip};
ghost use Rattle.decision_lists.specs.Entries.{Entry as RouteEntry, cone_of, tail, base};
ghost use Rattle.decision_lists.specs.Lists.{behind};
ghost use Rattle.decision_lists.specs.Operations.{covers, alive_in, onward, flip_act};

use git_objects::Component;
use std::alloc::{AllocError, Global};
use std::marker::Model;

/// One path, or all that lies properly below a path or the root; and the target that takes the place of this base, or
/// none.
#[derive(Debug, Drop)]
pub struct Entry {
    pub point: bool,
    pub base: Vec<Component>,
    pub target: Option<Vec<Component>>,
}

impl Model for Entry {
    ghost Value = { RouteEntry };

    ghost view = { λ e. (cone_of e.point e.base.items, option_map (λ t. t.items) e.target) };
}

// Whether the last component of `front` is not where `path` would have it: a quick no for paths with long fronts in
// common.
fn differ_at_end(front: &[Component], path: &[Component]) -> bool
    requires { length front.now ≤ length path.now }
    ensures { result ≡ true → is_some (strip front.now path.now) ≡ false }
{
    let count = front.len();
    count > 0 && front[count - 1].bytes() != path[count - 1].bytes()
}

// Whether `path` begins with `front`.
pub fn begins(front: &[Component], path: &[Component]) -> bool
    ensures { result ≡ is_some (strip front.now path.now) }
{
    if path.len() < front.len() {
        return false;
    }
    if differ_at_end(front, path) {
        return false;
    }
    for i in 0..front.len() {
        if front[i].bytes() != path[i].bytes() {
            return false;
        }
    }
    true
}

// Whether the path is `front`, or else lies properly below it.
pub fn fits(point: bool, front: &[Component], path: &[Component]) -> bool
    ensures { result ≡ is_some (tail (cone_of point front.now) path.now) }
{
    begins(front, path) && (point == (front.len() == path.len()))
}

// What stands behind `front` in `path`; None where the path doesn't begin with it.
pub fn rest_behind<'a>(front: &[Component], path: &'a [Component]) -> Option<&'a [Component]>
    ensures { behind result ≡ strip front.now path.now }
{
    if !begins(front, path) {
        return None;
    }
    Some(&path[front.len()..])
}

// The components of `front`, then those of `rest`.
pub fn joined(
    alloc: Global,
    front: &[Component],
    rest: &[Component],
) -> Result<Vec<Component>, AllocError>
    ensures { IfOk result (λ v. v.items ≡ front.now ++ rest.now) }
{
    let mut all = Vec::with_capacity(alloc, front.len() + rest.len())?;
    for c in front {
        all.push(c.copy(alloc)?)?;
    }
    for c in rest {
        all.push(c.copy(alloc)?)?;
    }
    Ok(all)
}

impl Entry {
    // Whether the entry's cone has the path.
    pub fn has(&self, path: &[Component]) -> bool
        ensures { result ≡ is_some (tail self.now.0 path.now) }
    {
        fits(self.point, self.base.as_slice(), path)
    }

    // What stands behind the entry's base, where its cone has the path.
    pub fn rest<'a>(&self, path: &'a [Component]) -> Option<&'a [Component]>
        ensures { behind result ≡ tail self.now.0 path.now }
    {
        if !self.has(path) {
            return None;
        }
        rest_behind(self.base.as_slice(), path)
    }

    // Whether the entry's cone has all of another cone.
    pub fn covers(&self, point: bool, base: &[Component]) -> bool
        ensures { result ≡ covers self.now.0 (cone_of point base.now) }
    {
        if point {
            return self.has(base);
        }
        !self.point && begins(self.base.as_slice(), base)
    }

    // The entry that keeps its cone where this one gives nothing, and gives nothing where this one gives something.
    pub fn flipped(self, alloc: Global) -> Result<Entry, AllocError>
        ensures { IfOk result (λ e. e ≡ (self.0, flip_act (base self.0) self.1)) }
    {
        let Entry {
            point,
            base,
            target,
        } = self;
        let target = match target {
            None => Some(joined(alloc, base.as_slice(), &[])?),
            Some(_) => None,
        };
        Ok(Entry {
            point,
            base,
            target,
        })
    }
}

// The target, and what stands behind it.
pub fn onward(
    alloc: Global,
    target: &Option<Vec<Component>>,
    rest: &[Component],
) -> Result<Option<Vec<Component>>, AllocError>
    ensures { IfOk result (λ t. option_map (λ v. v.items) t
        ≡ onward (option_map (λ v. v.items) target.now) rest.now) }
{
    match target {
        None => Ok(None),
        Some(front) => Ok(Some(joined(alloc, front.as_slice(), rest)?)),
    }
}

// Whether no cone of the entries has all of the cone.
pub fn is_alive(entries: &[Entry], point: bool, base: &[Component]) -> bool
    ensures { result ≡ alive_in entries.now (cone_of point base.now) }
{
    for e in entries {
        if e.covers(point, base) {
            return false;
        }
    }
    true
}
