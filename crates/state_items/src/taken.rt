// The first tag whose name is taken.
ghost use Rattle.std.specs.Prelude.{◌≡◌, None, true};
ghost use Rattle.std.specs.Option.{option_map};
ghost use Rattle.state_items.specs.ChangedTags.{has_other};
ghost use Rattle.tag_objects.specs.TagLists.{first_taken, rise};

use crate::tags::{from_name, says_same};
use tag_objects::Tag;

// Whether the first of these has the tag's name and says something else.
fn has_other(tags: &[Tag], tag: &Tag) -> bool
    ensures { result ≡ has_other tags.now tag.now }
{
    match tags {
        [] => false,
        [first, ..] => first.name.text() == tag.name.text() && !says_same(tag, first),
    }
}

/// The first of the tags that has the name of another one of those that are held. Both stand in the byte order of their
/// names, and it takes as many steps as there are tags in both.
pub fn first_taken<'a>(held: &[Tag], tags: &'a [Tag]) -> Option<&'a Tag>
    requires held { rise None held.now ≡ true }
    requires tags { rise None tags.now ≡ true }
    ensures { option_map (λ t. t.now.name) result ≡ first_taken held.now tags.now }
{
    let mut rest = held;
    for tag in tags {
        rest = from_name(rest, &tag.name);
        if has_other(rest, tag) {
            return Some(tag);
        }
    }
    None
}
