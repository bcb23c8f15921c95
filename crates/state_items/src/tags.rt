// The tags that change.
ghost use Rattle.std.specs.Prelude.{◌≡◌, None, true, IfOk};
ghost use Rattle.state_items.specs.ChangedTags.{from_name, is_new};
ghost use Rattle.tag_objects.specs.TagLists.{changed, rise, says_same, with_tags};

use crate::tag_places::put_behind;
use std::alloc::{AllocError, Global};
use tag_objects::{Tag, TagName};

// The tags from the first on whose name isn't below that one.
pub(crate) fn from_name<'a>(tags: &'a [Tag], name: &TagName) -> &'a [Tag]
    ensures { result.now ≡ from_name name.now tags.now }
{
    for i in 0..tags.len() {
        if !tags[i].name.cmp(name).is_lt() {
            return &tags[i..];
        }
    }
    &tags[tags.len()..]
}

// Whether they have the same commit, tagger and message.
pub(crate) fn says_same(tag: &Tag, other: &Tag) -> bool
    ensures { result ≡ says_same tag.now other.now }
{
    tag.target.bytes() == other.target.bytes()
        && tag.tagger.bytes() == other.tagger.bytes()
        && tag.message.bytes() == other.message.bytes()
}

// Whether the first of these has another name or says something else.
fn is_new(tags: &[Tag], tag: &Tag) -> bool
    ensures { result ≡ is_new tags.now tag.now }
{
    match tags {
        [] => true,
        [first, ..] => !(first.name.text() == tag.name.text() && says_same(tag, first)),
    }
}

/// Those of the tags that the held ones don't have as they are. Both stand in the byte order of their names, and it
/// takes as many steps as there are tags in both.
pub fn changed_tags(alloc: Global, held: &[Tag], tags: Vec<Tag>) -> Result<Vec<Tag>, AllocError>
    requires held { rise None held.now ≡ true }
    requires tags { rise None tags.items ≡ true }
    ensures { IfOk result (λ news. news.items ≡ changed held.now tags.items) }
{
    let mut news = Vec::new(alloc);
    let mut rest = held;
    for tag in tags {
        rest = from_name(rest, &tag.name);
        if !is_new(rest, &tag) {
            continue;
        }
        news.push(tag)?;
    }
    Ok(news)
}

fn copy_tag(alloc: Global, tag: &Tag) -> Result<Tag, AllocError>
    ensures { IfOk result (λ copy. copy ≡ tag.now) }
{
    Ok(Tag {
        name: tag.name.copy(alloc)?,
        target: tag.target,
        tagger: tag.tagger.copy(alloc)?,
        message: tag.message.copy(alloc)?,
    })
}

fn copy_tags(alloc: Global, tags: &[Tag]) -> Result<Vec<Tag>, AllocError>
    ensures { IfOk result (λ copy. copy.items ≡ tags.now) }
{
    let mut copy = Vec::with_capacity(alloc, tags.len())?;
    for tag in tags {
        copy.push(copy_tag(alloc, tag)?)?;
    }
    Ok(copy)
}

/// A copy of the tags in which these are put. Where the names of these rise it takes as many steps as there are tags in
/// both, but for the moving of those that stand behind a new one.
pub fn with_tags(alloc: Global, tags: &[Tag], news: &[Tag]) -> Result<Vec<Tag>, AllocError>
    ensures { IfOk result (λ after. after.items ≡ with_tags tags.now news.now) }
{
    let mut after = copy_tags(alloc, tags)?;
    let mut last = None;
    for tag in news {
        last = Some(put_behind(&mut after, copy_tag(alloc, tag)?, last)?);
    }
    Ok(after)
}
