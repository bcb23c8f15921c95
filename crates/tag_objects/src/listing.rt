// Lists of tags, one of each name, in the byte order of their names.
ghost use Rattle.std.specs.Prelude.{◌≡◌, OnErr, OnOk};
ghost use Rattle.tag_objects.specs.TagLists.{put_tag};

use crate::Tag;
use std::alloc::AllocError;
use std::cmp::Ordering;

/// Puts a tag into its place, in place of the one of its name. It looks from the front and moves those behind, so it
/// takes as many steps as there are tags.
pub fn put_tag(tags: &mut Vec<Tag>, tag: Tag) -> Result<(), AllocError>
    ensures ok { OnOk result (tags.new.items ≡ put_tag tag tags.old.items) }
    ensures err { OnErr result (tags.new.items ≡ tags.old.items) }
{
    let mut at = 0;
    'places: while at < tags.len() {
        match tag.name.cmp(&tags[at].name) {
            Ordering::Less => break 'places,
            Ordering::Equal => {
                tags[at] = tag;
                return Ok(());
            }
            Ordering::Greater => at += 1,
        }
    }
    tags.insert(at, tag)?;
    Ok(())
}
