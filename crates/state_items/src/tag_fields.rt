// The tags of an item.
ghost use Rattle.std.specs.Prelude.{◌≡◌, None, Ok, IfOk, IfSome, MatchResult};
ghost use Rattle.std.specs.Option.{option_copied};
ghost use Rattle.state_items.specs.Items.{message_field, name_field, tag_field, tagger_field, tags_field};
ghost use Rattle.state_items.specs.Steps.{one_tag};
ghost use Rattle.state_items.specs.Stops.{IsStop};
ghost use Rattle.state_items.specs.TagPlaces.{IsHighest};

use crate::ItemFault;
use crate::cursor::Cursor;
use crate::ref_fields::{head_field, rises};
use crate::tag_places::put_behind;
use git_objects::limits::MESSAGE_BYTES;
use git_objects::{Bytes, Ident, IdentFault};
use object_store::Incoming;
use std::alloc::Global;
use tag_objects::{Tag, TagName, TagNameFault};

// The field of a tag's name, which has to stand above the one before in byte order: the name, and its text in the item.
fn name_field<'a>(
    alloc: Global,
    cursor: &mut Cursor<'a>,
    before: Option<&[u8]>,
) -> Result<(TagName, &'a [u8]), ItemFault>
    ensures field { MatchResult result
        (λ name. name_field (option_copied before.entry) cursor.old ≡ Ok (name.1.now, cursor.new))
        (λ stop. IsStop stop (name_field (option_copied before.entry) cursor.old)) }
    ensures text { IfOk result (λ name. name.0 ≡ name.1.now) }
{
    let length = cursor.two_bytes()?;
    let at = cursor.at();
    let text = cursor.field(length as usize)?;
    match TagName::parse(alloc, text) {
        Err(TagNameFault::Bad) => Err(ItemFault::Broken { at: at as u64 }),
        Err(TagNameFault::OutOfMemory) => Err(ItemFault::OutOfMemory),
        Ok(name) => {
            if rises(before, text) {
                Ok((name, text))
            } else {
                Err(ItemFault::Broken { at: at as u64 })
            }
        }
    }
}

// The field of an ident.
fn tagger_field(alloc: Global, cursor: &mut Cursor<'_>) -> Result<Ident, ItemFault>
    ensures { MatchResult result
        (λ tagger. tagger_field cursor.old ≡ Ok (tagger, cursor.new))
        (λ stop. IsStop stop (tagger_field cursor.old)) }
{
    let length = cursor.four_bytes()?;
    let at = cursor.at();
    let text = cursor.field(length as usize)?;
    match Ident::parse(alloc, text) {
        Err(IdentFault::Bad) => Err(ItemFault::Broken { at: at as u64 }),
        Err(IdentFault::OutOfMemory) => Err(ItemFault::OutOfMemory),
        Ok(tagger) => Ok(tagger),
    }
}

// The field of a message within its limit.
fn message_field(alloc: Global, cursor: &mut Cursor<'_>) -> Result<Bytes, ItemFault>
    ensures { MatchResult result
        (λ message. message_field cursor.old ≡ Ok (message, cursor.new))
        (λ stop. IsStop stop (message_field cursor.old)) }
{
    let length = cursor.four_bytes()?;
    let at = cursor.at();
    let text = cursor.field(length as usize)?;
    if text.len() > MESSAGE_BYTES as usize {
        return Err(ItemFault::Broken { at: at as u64 });
    }
    Ok(Bytes::of(text.to_vec(alloc)?))
}

// A tag of a commit that is held, and the text of its name in the item.
fn tag_field<'a>(
    alloc: Global,
    cursor: &mut Cursor<'a>,
    held: &Incoming,
    before: Option<&[u8]>,
) -> Result<(Tag, &'a [u8]), ItemFault>
    ensures field { MatchResult result
        (λ tag. tag_field held.now.objects (option_copied before.entry) cursor.old ≡ Ok (tag.0, cursor.new))
        (λ stop. IsStop stop (tag_field held.now.objects (option_copied before.entry) cursor.old)) }
    ensures text { IfOk result (λ tag. tag.0.name ≡ tag.1.now) }
{
    let (name, text) = name_field(alloc, cursor, before)?;
    let target = head_field(cursor, held)?;
    let tagger = tagger_field(alloc, cursor)?;
    let message = message_field(alloc, cursor)?;
    let tag = Tag {
        name,
        target,
        tagger,
        message,
    };
    Ok((tag, text))
}

// Reads a tag and puts it, and answers its name and its place. The last place is that of the tag before it in the item.
fn set_tag<'a>(
    alloc: Global,
    cursor: &mut Cursor<'a>,
    held: &Incoming,
    before: Option<&[u8]>,
    last: Option<usize>,
    tags: &mut Vec<Tag>,
) -> Result<(&'a [u8], usize), ItemFault>
    requires { IfSome last (λ at. IsHighest at tags.old.items) }
    ensures tags { MatchResult result
        (λ put. one_tag held.now.objects (option_copied before.entry) tags.old.items cursor.old
        ≡ Ok ((put.0.now, tags.new.items), cursor.new))
        (λ stop. IsStop stop (one_tag held.now.objects (option_copied before.entry) tags.old.items cursor.old)) }
    ensures place { IfOk result (λ put. IsHighest put.1 tags.new.items) }
{
    let (tag, name) = tag_field(alloc, cursor, held, before)?;
    let at = put_behind(tags, tag, last)?;
    Ok((name, at))
}

/// Puts the tags of an item, so many as the item says. It takes as many steps as there are tags in the item and in the
/// list together, but for the moving of those that stand behind a new one.
pub(crate) fn set_tags(
    alloc: Global,
    cursor: &mut Cursor<'_>,
    held: &Incoming,
    count: u32,
    tags: &mut Vec<Tag>,
) -> Result<(), ItemFault>
    ensures { MatchResult result
        (λ _. tags_field count held.now.objects None tags.old.items cursor.old ≡ Ok (tags.new.items, cursor.new))
        (λ stop. IsStop stop (tags_field count held.now.objects None tags.old.items cursor.old)) }
{
    let mut before = None;
    let mut last = None;
    for i in 0..count {
        match set_tag(alloc, cursor, held, before, last, tags) {
            Err(fault) => return Err(fault),
            Ok((name, at)) => {
                before = Some(name);
                last = Some(at);
            }
        }
    }
    Ok(())
}
