// Decision lists that are made of others: one asked where another gives nothing, one after another, and one turned
// around.
ghost use Rattle.std.specs.Prelude.{◌≡◌, ◌≤◌, ◌++◌, [], ◌∷◌, length, option_map, Some, IfOk};
ghost use Rattle.std.specs.Prelude.{OnOk, List, cond};
ghost use Rattle.decision_lists.specs.Entries.{Entry as RouteEntry, cone_of, at, below};
ghost use Rattle.decision_lists.specs.Operations.{pull, put, pulled, block, heads, thin, grown, how, either_left};
ghost use Rattle.decision_lists.specs.Operations.{after_left, turned, onward};
ghost use Rattle.decision_lists.specs.Lists.{part_of};

use crate::entry::{Entry, joined, onward, rest_behind};
use crate::indexed::Indexed;
use git_objects::Component;
use std::alloc::{AllocError, Global};

/// The list of one entry, which has a target.
pub fn one_entry(
    alloc: Global,
    point: bool,
    base: &[Component],
    target: &[Component],
) -> Result<Vec<Entry>, AllocError>
    ensures { IfOk result (λ v. v.items ≡ (cone_of point base.now, Some target.now) ∷ []) }
{
    let mut list = Vec::new(alloc);
    list.push(Entry {
        point,
        base: joined(alloc, base, &[])?,
        target: Some(joined(alloc, target, &[])?),
    })?;
    Ok(list)
}

// The cone below or at `base` and `more`, with what stands behind the target.
fn part_at(
    alloc: Global,
    point: bool,
    base: &[Component],
    more: &[Component],
    target: &Option<Vec<Component>>,
    rest: &[Component],
) -> Result<Entry, AllocError>
    ensures { IfOk result (λ e. e
        ≡ (cone_of point (base.now ++ more.now), onward (option_map (λ v. v.items) target.now) rest.now)) }
{
    Ok(Entry {
        point,
        base: joined(alloc, base, more)?,
        target: onward(alloc, target, rest)?,
    })
}

// The part of one path, as `part` says.
fn part_of_point(
    alloc: Global,
    base: &[Component],
    target: &[Component],
    entry: &Entry,
) -> Result<Option<Entry>, AllocError>
    ensures { IfOk result (λ o. part_of o ≡ put (pull (at base.now) target.now entry.now.0) entry.now.1 []) }
{
    match entry.rest(target) {
        None => Ok(None),
        Some(rest) => Ok(Some(part_at(alloc, true, base, &[], &entry.target, rest)?)),
    }
}

// The single path of what lies below a base, as `part` says.
fn point_below(
    alloc: Global,
    base: &[Component],
    target: &[Component],
    inner: &[Component],
    aim: &Option<Vec<Component>>,
) -> Result<Option<Entry>, AllocError>
    ensures { IfOk result (λ o. part_of o
        ≡ put (pull (below base.now) target.now (at inner.now)) (option_map (λ v. v.items) aim.now) []) }
{
    match rest_behind(target, inner) {
        None => Ok(None),
        Some(more) => {
            if more.is_empty() {
                return Ok(None);
            }
            Ok(Some(part_at(alloc, true, base, more, aim, &[])?))
        }
    }
}

// What lies below a base and comes below another, as `part` says.
fn all_below(
    alloc: Global,
    base: &[Component],
    target: &[Component],
    inner: &[Component],
    aim: &Option<Vec<Component>>,
) -> Result<Option<Entry>, AllocError>
    ensures { IfOk result (λ o. part_of o
        ≡ put (pull (below base.now) target.now (below inner.now)) (option_map (λ v. v.items) aim.now) []) }
{
    match rest_behind(inner, target) {
        Some(rest) => Ok(Some(part_at(alloc, false, base, &[], aim, rest)?)),
        None => match rest_behind(target, inner) {
            None => Ok(None),
            Some(more) => Ok(Some(part_at(alloc, false, base, more, aim, &[])?)),
        },
    }
}

// The part of a cone that comes into the entry's cone when `target` takes the place of the cone's base, with where the
// entry then sends it.
pub fn part(
    alloc: Global,
    point: bool,
    base: &[Component],
    target: &[Component],
    entry: &Entry,
) -> Result<Option<Entry>, AllocError>
    ensures { IfOk result (λ o.
        part_of o ≡ put (pull (cone_of point base.now) target.now entry.now.0) entry.now.1 []) }
{
    if point {
        return part_of_point(alloc, base, target, entry);
    }
    if entry.point {
        return point_below(alloc, base, target, entry.base.as_slice(), &entry.target);
    }
    all_below(alloc, base, target, entry.base.as_slice(), &entry.target)
}

// Adds a part of a cone that no cone before has. Whether it is all of the cone, which ends the parts.
fn push_part(
    out: &mut Indexed,
    point: bool,
    base: &[Component],
    found: Entry,
) -> Result<bool, AllocError>
    ensures { IfOk result (λ ended. (es : List RouteEntry) →
        out.new ++ cond ended [] (block (heads out.new []) (cone_of point base.now) es)
        ≡ out.old ++ block (heads out.old []) (cone_of point base.now) (found ∷ es)) }
{
    if found.covers(point, base) {
        out.push(found)?;
        return Ok(true);
    }
    if out.is_alive(found.point, found.base.as_slice()) {
        out.push(found)?;
    }
    Ok(false)
}

// Adds the part by one entry.
fn push_part_by(
    alloc: Global,
    out: &mut Indexed,
    point: bool,
    base: &[Component],
    target: &[Component],
    entry: &Entry,
) -> Result<bool, AllocError>
    ensures { IfOk result (λ ended. (es : List RouteEntry) →
        out.new ++ cond ended [] (block (heads out.new []) (cone_of point base.now)
        (pulled (cone_of point base.now) target.now es))
        ≡ out.old ++ block (heads out.old []) (cone_of point base.now)
        (pulled (cone_of point base.now) target.now (entry.now ∷ es))) }
{
    match part(alloc, point, base, target, entry)? {
        None => Ok(false),
        Some(found) => push_part(out, point, base, found),
    }
}

// Adds the parts of a cone that no cone before has, up to one that is all of it; else the cone itself, without a
// target.
fn push_block(
    alloc: Global,
    out: &mut Indexed,
    point: bool,
    base: &[Component],
    target: &[Component],
    others: &[Entry],
) -> Result<(), AllocError>
    ensures { OnOk result (out.new ≡ out.old
        ++ block (heads out.old []) (cone_of point base.now) (pulled (cone_of point base.now) target.now others.now)) }
{
    for e in others {
        if push_part_by(alloc, out, point, base, target, e)? {
            return Ok(());
        }
    }
    out.push(Entry {
        point,
        base: joined(alloc, base, &[])?,
        target: None,
    })?;
    Ok(())
}

// Adds the entry if no earlier one hides it.
fn push_alive(out: &mut Indexed, entry: Entry) -> Result<(), AllocError>
    ensures { OnOk result (out.new ≡ out.old ++ thin (heads out.old []) (entry ∷ [])) }
{
    if out.is_alive(entry.point, entry.base.as_slice()) {
        out.push(entry)?;
    }
    Ok(())
}

// Adds the entries that no earlier one hides.
fn push_thin(out: &mut Indexed, entries: Vec<Entry>) -> Result<(), AllocError>
    ensures { OnOk result (out.new ≡ out.old ++ thin (heads out.old []) entries.items) }
{
    for e in entries {
        push_alive(out, e)?;
    }
    Ok(())
}

// Adds what becomes of an entry: a list keeps an entry with a target, a chain one without; of the other come its parts.
fn push_grown(
    alloc: Global,
    out: &mut Indexed,
    is_list: bool,
    entry: Entry,
    others: &[Entry],
) -> Result<(), AllocError>
    ensures { OnOk result (out.new ≡ out.old
        ++ grown (heads out.old []) entry.0 entry.1 (how is_list others.now entry.0 entry.1)) }
{
    match &entry.target {
        None => {
            if is_list {
                let base = entry.base.as_slice();
                return push_block(alloc, out, entry.point, base, base, others);
            }
            out.push(entry)
        }
        Some(target) => {
            if is_list {
                return out.push(entry);
            }
            push_block(
                alloc,
                out,
                entry.point,
                entry.base.as_slice(),
                target.as_slice(),
                others,
            )
        }
    }
}

// A list with at most so many entries; a longer one ends as for want of memory.
fn bounded(list: Indexed, most: usize) -> Result<Indexed, AllocError>
    ensures list { IfOk result (λ v. v ≡ list) }
    ensures most { IfOk result (λ v. length v ≤ most) }
{
    if list.len() > most {
        return Err(AllocError);
    }
    Ok(list)
}

// What `either` makes of a list in which some entry has no target.
fn either_grown(
    alloc: Global,
    most: usize,
    entries: Vec<Entry>,
    others: Vec<Entry>,
) -> Result<Indexed, AllocError>
    ensures list { IfOk result (λ v. v ≡ either_left entries.items others.items) }
    ensures most { IfOk result (λ v. length v ≤ most) }
{
    let mut out = Indexed::new(alloc);
    for e in entries {
        push_grown(alloc, &mut out, true, e, others.as_slice())?;
        if out.len() > most {
            return Err(AllocError);
        }
    }
    push_thin(&mut out, others)?;
    bounded(out, most)
}

/// The list that asks `entries` first, and `others` where `entries` gives nothing. Where it would have more than `most`
/// entries it ends as for want of memory.
pub fn either(
    alloc: Global,
    most: usize,
    entries: Indexed,
    others: Vec<Entry>,
) -> Result<Indexed, AllocError>
    ensures list { IfOk result (λ v. v ≡ either_left entries others.items) }
    ensures most { IfOk result (λ v. length v ≤ most) }
{
    if !entries.is_live() {
        return either_grown(alloc, most, entries.into_entries(), others);
    }
    let mut out = entries;
    push_thin(&mut out, others)?;
    bounded(out, most)
}

// How many entries have a target.
fn live_count(entries: &[Entry]) -> usize
    ensures { result ≤ length entries.now }
{
    let mut count = 0;
    for e in entries {
        if e.target.is_some() {
            count += 1;
        }
    }
    count
}

// An empty list for a chain with one member more. Each part of an entry with a target asks what hides it, and an
// index is made for each entry: for few parts the list is read through.
fn room(alloc: Global, entries: &[Entry], others: &[Entry]) -> Indexed
    ensures { result ≡ [] }
{
    if others.len() <= 4 && live_count(entries) <= 4 {
        return Indexed::unindexed(alloc);
    }
    Indexed::new(alloc)
}

/// The list that asks `others` for what `entries` gives. Where it would have more than `most` entries it ends as for
/// want of memory.
pub fn after(
    alloc: Global,
    most: usize,
    entries: Vec<Entry>,
    others: &[Entry],
) -> Result<Vec<Entry>, AllocError>
    ensures list { IfOk result (λ v. v.items ≡ after_left entries.items others.now) }
    ensures most { IfOk result (λ v. length v.items ≤ most) }
{
    let mut out = room(alloc, entries.as_slice(), others);
    for e in entries {
        push_grown(alloc, &mut out, false, e, others)?;
        if out.len() > most {
            return Err(AllocError);
        }
    }
    Ok(out.into_entries())
}

/// The list that gives each path itself where this one gives it nothing, and nothing where this one gives it something.
pub fn turned(alloc: Global, entries: Vec<Entry>) -> Result<Vec<Entry>, AllocError>
    ensures { IfOk result (λ v. v.items ≡ turned [] entries.items) }
{
    let mut out = Indexed::unindexed(alloc);
    for e in entries {
        out.push(e.flipped(alloc)?)?;
    }
    let all = Entry {
        point: false,
        base: Vec::new(alloc),
        target: Some(Vec::new(alloc)),
    };
    push_alive(&mut out, all)?;
    Ok(out.into_entries())
}
