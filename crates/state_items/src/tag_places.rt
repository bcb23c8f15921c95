// Putting tags of rising names one after another.
ghost use Rattle.std.specs.Prelude.{◌≡◌, IfOk, IfSome, OnOk};
ghost use Rattle.state_items.specs.TagPlaces.{AreLower, IsHighest};
ghost use Rattle.tag_objects.specs.TagLists.{put_tag};

use std::alloc::AllocError;
use std::cmp::Ordering;
use tag_objects::{Tag, TagName};

// From where the place of a name is to be looked for: behind the last place, where the name there is lower, and else
// from the front.
fn first_place(tags: &[Tag], name: &TagName, last: Option<usize>) -> usize
    requires { IfSome last (λ at. IsHighest at tags.now) }
    ensures { AreLower name.now result tags.now }
{
    match last {
        None => 0,
        Some(at) => {
            if tags[at].name.cmp(name).is_lt() {
                at + 1
            } else {
                0
            }
        }
    }
}

/// Puts a tag into its place, in place of the one of its name, and answers the place. It looks behind the place of the
/// last tag, where there is one and its name is lower, and else from the front. So tags whose names rise, each put
/// behind the one before, take two comparisons each, and one for each tag that is passed.
pub(crate) fn put_behind(
    tags: &mut Vec<Tag>,
    tag: Tag,
    last: Option<usize>,
) -> Result<usize, AllocError>
    requires { IfSome last (λ at. IsHighest at tags.old.items) }
    ensures tags { OnOk result (tags.new.items ≡ put_tag tag tags.old.items) }
    ensures place { IfOk result (λ at. IsHighest at tags.new.items) }
{
    let mut at = first_place(tags, &tag.name, last);
    'places: while at < tags.len() {
        match tag.name.cmp(&tags[at].name) {
            Ordering::Less => break 'places,
            Ordering::Equal => {
                tags[at] = tag;
                return Ok(at);
            }
            Ordering::Greater => at += 1,
        }
    }
    tags.insert(at, tag)?;
    Ok(at)
}
