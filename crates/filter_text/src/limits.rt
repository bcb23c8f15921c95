// The limits of filter texts, and the place of a workspace.
ghost use Rattle.std.specs.Prelude.{◌≡◌, ◌+◌, ◌&&◌, cond, not, false, nat_le};
ghost use Rattle.git_objects.specs.declared.limits.TheConstants.{FILTER_NESTING};
ghost use Rattle.filter_text.specs.Filters.{is_workspace, has_workspace, some_have_workspace, has_one_place};
ghost use Rattle.filter_text.specs.Filters.{is_placed, pieces, pieces_in, components, components_in};
ghost use Rattle.filter_text.specs.Shapes.{shape, shapes};
ghost use Rattle.filter_text.specs.Limits.{one_if, too_deep, without, is_small};

use crate::Filter;
use git_objects::limits::{FILTER_COMPONENTS, FILTER_NESTING, FILTER_PIECES};

// Whether more brackets are open than may be.
fn is_passed(opened: usize, closed: usize) -> bool
    ensures { result ≡ nat_le (FILTER_NESTING + 1 + closed) opened }
{
    opened > FILTER_NESTING && opened - FILTER_NESTING > closed
}

fn one_if(yes: bool) -> usize
    ensures { result ≡ one_if yes }
{
    if yes { 1 } else { 0 }
}

// Whether at some place the bytes `[` before it are too many more than the bytes `]`.
pub fn too_deep(text: &[u8]) -> bool
    ensures { result ≡ too_deep text.now }
{
    let mut opened = 0usize;
    let mut closed = 0usize;
    for x in text {
        if is_passed(opened, closed) {
            return true;
        }
        opened += one_if(*x == b'[');
        closed += one_if(*x == b']');
    }
    is_passed(opened, closed)
}

// Whether a workspace stands somewhere in the filter.
#[cycle(workspaces)]
pub fn has_workspace(filter: &Filter) -> bool
    ensures { result ≡ has_workspace (shape filter.now) }
{
    match filter {
        Filter::Nop => false,
        Filter::Sub(_) => false,
        Filter::Prefix(_) => false,
        Filter::Dir(_) => false,
        Filter::File(_) => false,
        Filter::Exclude(inner) => has_workspace(inner),
        Filter::Join(members) => some_have_workspace(members.as_slice()),
        Filter::Chain(members) => some_have_workspace(members.as_slice()),
        Filter::Workspace(_) => true,
    }
}

#[cycle(workspaces)]
fn some_have_workspace(members: &[Filter]) -> bool
    ensures { result ≡ some_have_workspace (shapes members.now) }
{
    for m in members {
        if has_workspace(m) {
            return true;
        }
    }
    false
}

fn is_workspace(filter: &Filter) -> bool
    ensures { result ≡ is_workspace (shape filter.now) }
{
    match filter {
        Filter::Nop => false,
        Filter::Sub(_) => false,
        Filter::Prefix(_) => false,
        Filter::Dir(_) => false,
        Filter::File(_) => false,
        Filter::Exclude(_) => false,
        Filter::Join(_) => false,
        Filter::Chain(_) => false,
        Filter::Workspace(_) => true,
    }
}

// Whether the piece may stand behind others, where a workspace was among them or not.
fn may_stand(before: bool, piece: &Filter) -> bool
    ensures { result ≡ cond (is_workspace (shape piece.now)) (not before) (not (has_workspace (shape piece.now))) }
{
    if is_workspace(piece) {
        !before
    } else {
        !has_workspace(piece)
    }
}

// Whether at most one of the pieces is a workspace, and none has one inside its brackets.
fn has_one_place(pieces: &[Filter]) -> bool
    ensures { result ≡ has_one_place false (shapes pieces.now) }
{
    let mut before = false;
    for piece in pieces {
        if !may_stand(before, piece) {
            return false;
        }
        before |= is_workspace(piece);
    }
    true
}

// Whether a workspace stands at most once, as the whole filter or as a member of its outermost chain.
pub fn is_placed(filter: &Filter) -> bool
    ensures { result ≡ is_placed (shape filter.now) }
{
    match filter {
        Filter::Nop => true,
        Filter::Sub(_) => true,
        Filter::Prefix(_) => true,
        Filter::Dir(_) => true,
        Filter::File(_) => true,
        Filter::Exclude(inner) => !has_workspace(inner),
        Filter::Join(members) => !some_have_workspace(members.as_slice()),
        Filter::Chain(members) => has_one_place(members.as_slice()),
        Filter::Workspace(_) => true,
    }
}

// What is left of a room when so many are taken; None where they are too many.
fn without(room: usize, taken: usize) -> Option<usize>
    ensures { result ≡ without room taken }
{
    if taken <= room {
        Some(room - taken)
    } else {
        None
    }
}

// What is left of a room for pieces.
#[cycle(pieces)]
pub fn without_pieces(room: usize, filter: &Filter) -> Option<usize>
    ensures { result ≡ without room (pieces (shape filter.now)) }
{
    match filter {
        Filter::Nop => without(room, 1),
        Filter::Sub(_) => without(room, 1),
        Filter::Prefix(_) => without(room, 1),
        Filter::Dir(_) => without(room, 1),
        Filter::File(_) => without(room, 1),
        Filter::Exclude(inner) => match without(room, 1) {
            None => None,
            Some(room) => without_pieces(room, inner),
        },
        Filter::Join(members) => match without(room, 1) {
            None => None,
            Some(room) => without_pieces_in(room, members.as_slice()),
        },
        Filter::Chain(members) => without_pieces_in(room, members.as_slice()),
        Filter::Workspace(_) => without(room, 1),
    }
}

#[cycle(pieces)]
fn without_pieces_in(room: usize, members: &[Filter]) -> Option<usize>
    ensures { result ≡ without room (pieces_in (shapes members.now)) }
{
    let mut room = room;
    for m in members {
        match without_pieces(room, m) {
            None => return None,
            Some(left) => room = left,
        }
    }
    Some(room)
}

// What is left of a room for components.
#[cycle(components)]
pub fn without_components(room: usize, filter: &Filter) -> Option<usize>
    ensures { result ≡ without room (components (shape filter.now)) }
{
    match filter {
        Filter::Nop => Some(room),
        Filter::Sub(path) => without(room, path.components().len()),
        Filter::Prefix(path) => without(room, path.components().len()),
        Filter::Dir(path) => without(room, path.components().len()),
        Filter::File(path) => without(room, path.components().len()),
        Filter::Exclude(inner) => without_components(room, inner),
        Filter::Join(members) => without_components_in(room, members.as_slice()),
        Filter::Chain(members) => without_components_in(room, members.as_slice()),
        Filter::Workspace(path) => without(room, path.components().len()),
    }
}

#[cycle(components)]
fn without_components_in(room: usize, members: &[Filter]) -> Option<usize>
    ensures { result ≡ without room (components_in (shapes members.now)) }
{
    let mut room = room;
    for m in members {
        match without_components(room, m) {
            None => return None,
            Some(left) => room = left,
        }
    }
    Some(room)
}

// Whether the filter has few enough pieces and components.
pub fn is_small(filter: &Filter) -> bool
    ensures { result ≡ is_small (shape filter.now) }
{
    without_pieces(FILTER_PIECES, filter).is_some()
        && without_components(FILTER_COMPONENTS, filter).is_some()
}
