// Workspace files.
ghost use Rattle.std.specs.Prelude.{◌≡◌, ◌≤◌, ◌<◌, ◌⊎◌, [], Some, None, true, false, IfOk};
ghost use Rattle.std.specs.Prelude.{IfSome, MatchResult};
ghost use Rattle.std.specs.Prelude.{option_map, length};
ghost use Rattle.std.specs.Option.{option_and_then};
ghost use Rattle.std.specs.List.{list_all};
ghost use Rattle.git_objects.specs.Lists.{Each};
ghost use Rattle.git_objects.specs.Paths.{is_nil};
ghost use Rattle.git_objects.specs.declared.limits.TheConstants.{FILTER_PIECES};
ghost use Rattle.filter_text.specs.Shapes.{shape};
ghost use Rattle.filter_text.specs.Items.{IsMadeOfPaths, sized_member, member_at, ends_member, members, kept_place};
ghost use Rattle.filter_text.specs.Items.{place, is_item_filter, is_fit, item_of, roomy_item, items_of, items_from};
ghost use Rattle.filter_text.specs.Items.{with_item, TellsMember, items};
ghost use Rattle.filter_text.specs.Views.{member_value, member_read, item_value, item_values, items_read, next_read};

use crate::gaps::gap;
use crate::limits::{has_workspace, too_deep, without_components, without_pieces};
use crate::making::made;
use crate::names::target_at;
use crate::reader::pieces_to;
use crate::{Filter, Item, ItemsFault};
use git_objects::limits::{FILTER_BYTES, FILTER_COMPONENTS, FILTER_PIECES, WORKSPACE_BYTES};
use path_names::Path;
use std::alloc::{AllocError, Global};

// A member of a file's list.
#[derive(Drop)]
pub struct Member {
    target: Option<Path>,
    filter: Filter,
    // The bytes of its text.
    size: usize,
}

fn copy_target(alloc: Global, target: &Option<Path>) -> Result<Option<Path>, AllocError>
    ensures { IfOk result (λ t. t ≡ target.now) }
{
    match target {
        None => Ok(None),
        Some(path) => Ok(Some(path.copy(alloc)?)),
    }
}

// The member of this target and the pieces at the front of a text, so many bytes before whose end it began. None also
// where its text is too long.
fn sized_member<'a>(
    alloc: Global,
    before: usize,
    target: Option<Path>,
    text: &'a [u8],
) -> Result<Option<(Member, &'a [u8])>, AllocError>
    requires { length text.now ≤ before }
    ensures { IfOk result (λ read. TellsMember (sized_member before (target, text.now)) (member_read read)) }
{
    match pieces_to(alloc, text, before.saturating_sub(FILTER_BYTES))? {
        None => Ok(None),
        Some((pieces, rest)) => {
            let size = before - rest.len();
            let kept = copy_target(alloc, &target)?;
            let filter = made(target, pieces)?;
            Ok(Some((
                Member {
                    target: kept,
                    filter,
                    size,
                },
                rest,
            )))
        }
    }
}

// The member at the front of a text, and what follows it. None also where its text is too long.
fn member_at<'a>(alloc: Global, text: &'a [u8]) -> Result<Option<(Member, &'a [u8])>, AllocError>
    ensures { IfOk result (λ read. TellsMember (member_at text.now) (member_read read)) }
{
    match target_at(alloc, text)? {
        None => Ok(None),
        Some((target, rest)) => sized_member(alloc, text.len(), target, rest),
    }
}

// Whether a break or the end of the file follows a member.
fn ends_member(text: &[u8]) -> bool
    ensures { result ≡ ends_member text.now }
{
    let (broken, rest) = gap(text);
    broken || rest.is_empty()
}

// The path of a filter that is one piece `::a` or `::a/`.
fn kept_place(alloc: Global, filter: &Filter) -> Result<Option<Path>, AllocError>
    ensures { IfOk result (λ p. p ≡ kept_place (shape filter.now)) }
{
    match filter {
        Filter::Dir(path) => Ok(Some(path.copy(alloc)?)),
        Filter::File(path) => Ok(Some(path.copy(alloc)?)),
        Filter::Nop => Ok(None),
        Filter::Sub(_) => Ok(None),
        Filter::Prefix(_) => Ok(None),
        Filter::Exclude(_) => Ok(None),
        Filter::Join(_) => Ok(None),
        Filter::Chain(_) => Ok(None),
        Filter::Workspace(_) => Ok(None),
    }
}

// Whether the member is short enough, has few enough components and no workspace.
fn is_fit(member: &Member) -> bool
    ensures { result ≡ is_fit (member_value member.now) }
{
    member.size <= FILTER_BYTES
        && without_components(FILTER_COMPONENTS, &member.filter).is_some()
        && !has_workspace(&member.filter)
}

// The member as an item, where it is one.
fn item_of(alloc: Global, member: Member) -> Result<Option<Item>, AllocError>
    ensures { IfOk result (λ i. option_map item_value i ≡ item_of (member_value member)) }
{
    if !is_fit(&member) {
        return Ok(None);
    }
    let Member {
        target,
        filter,
        size: _,
    } = member;
    match target {
        Some(place) => Ok(Some(Item { place, filter })),
        None => match kept_place(alloc, &filter)? {
            Some(place) => Ok(Some(Item { place, filter })),
            None => Ok(None),
        },
    }
}

// The item of this member, where there is room for so many pieces, and the room that is left.
fn roomy_item(
    alloc: Global,
    room: usize,
    member: Member,
) -> Result<Option<(Item, usize)>, AllocError>
    ensures { IfOk result (λ i. option_map (λ r. (item_value r.0, r.1)) i ≡ roomy_item room (member_value member)) }
{
    match without_pieces(room, &member.filter) {
        None => Ok(None),
        Some(left) => match item_of(alloc, member)? {
            None => Ok(None),
            Some(item) => Ok(Some((item, left))),
        },
    }
}

// The first item, behind which its member has ended, the room that is left, and what follows it and a gap.
fn next_item<'a>(
    alloc: Global,
    room: usize,
    text: &'a [u8],
) -> Result<Option<(Item, usize, &'a [u8])>, AllocError>
    requires { is_nil text.now ≡ false }
    ensures item { IfOk result (λ r. items_from room text.now ≡ with_item (next_read r)) }
    ensures shorter { IfOk result (λ r. IfSome r (λ n. length n.2.now < length text.now)) }
{
    match member_at(alloc, text)? {
        None => Ok(None),
        Some((member, rest)) => {
            if !ends_member(rest) {
                return Ok(None);
            }
            match roomy_item(alloc, room, member)? {
                None => Ok(None),
                Some((item, left)) => Ok(Some((item, left, gap(rest).1))),
            }
        }
    }
}

// The items of the list that a whole text is; None where it is none, or a member is no item.
fn read_items(alloc: Global, text: &[u8]) -> Result<Option<Vec<Item>>, AllocError>
    ensures { IfOk result (λ r. items_read r ≡ option_and_then (items_of FILTER_PIECES) (members text.now)) }
{
    let mut items = Vec::new(alloc);
    let mut room = FILTER_PIECES;
    let mut rest = gap(text).1;
    while !rest.is_empty() {
        match next_item(alloc, room, rest)? {
            None => return Ok(None),
            Some((item, left, behind)) => {
                items.push(item)?;
                room = left;
                rest = behind;
            }
        }
    }
    Ok(Some(items))
}

#[tactic(auto, unfolding(crate::specs::Items::items))]
fn items_in(alloc: Global, text: &[u8]) -> Result<Vec<Item>, ItemsFault>
    ensures { MatchResult result (λ v. items text.now ≡ Some (item_values v.items))
        (λ fault. (fault ≡ ItemsFault.OutOfMemory) ⊎ ((fault ≡ ItemsFault.Unreadable)
        × (items text.now ≡ None))) }
{
    if text.len() > WORKSPACE_BYTES {
        return Err(ItemsFault::Unreadable);
    }
    if too_deep(text) {
        return Err(ItemsFault::Unreadable);
    }
    match read_items(alloc, text) {
        Err(_) => Err(ItemsFault::OutOfMemory),
        Ok(None) => Err(ItemsFault::Unreadable),
        Ok(Some(items)) => Ok(items),
    }
}

/// Reads the items of a workspace file. Each item's filter is one that other calls may be given, without a workspace,
/// and its place and its filter are made of paths.
pub fn parse_items(alloc: Global, text: &[u8]) -> Result<Vec<Item>, ItemsFault>
    ensures read { MatchResult result (λ v. items text.now ≡ Some (item_values v.items))
        (λ fault. (fault ≡ ItemsFault.OutOfMemory) ⊎ ((fault ≡ ItemsFault.Unreadable)
        × (items text.now ≡ None))) }
    ensures valid { IfOk result (λ v. list_all (λ i. is_item_filter i.1) (item_values v.items) ≡ true) }
    ensures paths { IfOk result (λ v. Each IsMadeOfPaths (item_values v.items)) }
{
    items_in(alloc, text)
}
