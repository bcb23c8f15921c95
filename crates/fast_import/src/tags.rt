// The tags that a stream has given.
ghost use Rattle.std.specs.Prelude.{◌≡◌, [], OnErr, OnOk};
ghost use Rattle.fast_import.specs.Replaying.{is_behind};
ghost use Rattle.tag_objects.specs.TagLists.{put_tag};

use std::alloc::{AllocError, Global};
use std::marker::Model;
use tag_objects::{Tag, TagName, put_tag};

/// The tags that were read, the last one of each name, in the byte order of their names.
#[derive(Drop)]
pub(crate) struct Tags {
    tags: Vec<Tag>,
}

impl Model for Tags {
    ghost use Rattle.std.specs.Prelude.{◌≡◌, true, List, None};
    ghost use Rattle.tag_objects.specs.TagLists.{rise};
    ghost use Rattle.tag_objects.specs.declared.tag.Tag.{Tag};

    ghost Value = { List Tag };

    ghost view = { λ t. t.tags.items };

    ghost invariant = { λ t. rise None t.tags.items ≡ true };
}

impl Tags {
    pub(crate) fn new(alloc: Global) -> Tags
        ensures { result ≡ [] }
    {
        Tags {
            tags: Vec::new(alloc),
        }
    }

    /// Puts a tag into its place, in place of the one of its name. Behind all the others that takes one comparison, and
    /// else one with each of those before it. At a refusal nothing changes.
    pub(crate) fn put(&mut self, tag: Tag) -> Result<(), AllocError>
        ensures ok { OnOk result (self.new ≡ put_tag tag self.old) }
        ensures err { OnErr result (self.new ≡ self.old) }
    {
        if !is_behind(&self.tags, &tag.name) {
            return put_tag(&mut self.tags, tag);
        }
        self.tags.push(tag)?;
        Ok(())
    }

    pub(crate) fn as_slice(&self) -> &[Tag]
        ensures { result.now ≡ self.now }
    {
        &self.tags
    }

    pub(crate) fn into_vec(self) -> Vec<Tag>
        ensures { result.items ≡ self }
    {
        self.tags
    }
}

// Whether a name is above that of the last tag, where there is one.
fn is_behind(tags: &[Tag], name: &TagName) -> bool
    ensures { result ≡ is_behind name.now tags.now }
{
    match tags.last() {
        None => true,
        Some(last) => last.name.cmp(name).is_lt(),
    }
}
