// The item of a change, and the limits that it may pass.
ghost use Rattle.std.specs.Prelude.{◌≡◌, ◌≤◌, ◌<◌, ◌+◌, ◌&&◌, List, drop};
ghost use Rattle.std.specs.Prelude.{filter, length, map, IfOk, IsErrOf};
ghost use Rattle.git_objects.specs.Paths.{is_nil};
ghost use Rattle.git_objects.specs.declared.limits.TheConstants.{ITEM_BYTES, ITEMS};
ghost use Rattle.object_store.specs.Errors.{object_value};
ghost use Rattle.object_store.specs.Fits.{is_commit};
ghost use Rattle.object_store.specs.Objects.{Object};
ghost use Rattle.proj_io.specs.Stops.{OnlyAdds, IsBeforeOrAfter, IsPresent};
ghost use Rattle.proj_io.specs.Uses.{IsUsed};
ghost use Rattle.proj_io.specs.Views.{keeper_view};
ghost use Rattle.ref_store.specs.Pairs.{pairs};
ghost use Rattle.state_items.specs.Items.{text_with};
ghost use Rattle.tag_objects.specs.TagLists.{with_tags};
ghost use Rattle.repo_ground.specs.Drafting.{Adds, IsSizeOf, passed_with, tags_in};

use git_objects::{Name, Quantity};
use indexmap::IndexSet;
use object_store::ObjectRef;
use path_names::RefName;
use proj_io::{KeepError, Keeper};
use ref_store::Refs;
use state_items::{
    change_heads, change_parts, change_size, count_commits, first_passed, with_tags,
};
use std::alloc::{AllocError, Global};
use tag_objects::Tag;

/// How many commits are held before a change and how many objects with it, and how many items there are of how many
/// bytes together.
#[derive(Clone, Copy)]
pub(crate) struct Meter {
    pub(crate) commits: u32,
    pub(crate) objects: usize,
    pub(crate) number: u32,
    pub(crate) size: u64,
}

/// What an item of objects, refs and tags says.
#[derive(Clone, Copy)]
pub(crate) struct Change<'a> {
    pub(crate) objects: &'a [ObjectRef<'a>],
    pub(crate) refs: &'a [(RefName, Name)],
    pub(crate) tags: &'a [Tag],
}

/// How many bytes an item has that was appended, the refs behind it, and the tags where it has some.
#[derive(Drop)]
pub(crate) struct Draft {
    pub(crate) size: usize,
    pub(crate) refs: Refs,
    pub(crate) tags: Option<Vec<Tag>>,
}

/// The names of the held objects from a place on.
pub(crate) fn names_from(held: &IndexSet<Name>, before: usize) -> &[Name]
    requires { before ≤ length held.now.keys }
    ensures { result.now ≡ drop before held.now.keys }
{
    &held.as_slice()[before..]
}

/// Whether there are no names, no refs and no tags.
pub(crate) fn is_nothing(names: &[Name], moved: &[(RefName, Name)], tags: &[Tag]) -> bool
    ensures { result ≡ (is_nil names.now && is_nil (pairs moved.now) && is_nil tags.now) }
{
    names.is_empty() && moved.is_empty() && tags.is_empty()
}

/// A copy of the tags in which these are put, if there are any.
pub(crate) fn tags_behind(
    alloc: Global,
    tags: &[Tag],
    news: &[Tag],
) -> Result<Option<Vec<Tag>>, AllocError>
    ensures { IfOk result (λ after. tags_in tags.now after ≡ with_tags tags.now news.now) }
{
    match news {
        [] => Ok(None),
        [_, ..] => {
            let after = with_tags(alloc, tags, news)?;
            Ok(Some(after))
        }
    }
}

/// The length in bytes of the item of a change, or the first limit that it passes.
pub(crate) fn size_within(change: Change<'_>, meter: Meter) -> Result<usize, Quantity>
    ensures { let objects = map object_value change.entry.objects.now in
        (S : List Object) → meter.commits + length (filter is_commit objects) ≡ length (filter is_commit S) →
        meter.objects ≡ length S →
        let text = text_with objects (pairs change.entry.refs.now) change.entry.tags.now in
        IsSizeOf (passed_with S meter.number meter.size text) text result }
{
    let commits = meter.commits as usize + count_commits(change.objects);
    let size = change_size(change.objects, change.refs, change.tags);
    match first_passed(commits, meter.objects, size, meter.number, meter.size) {
        Some(which) => Err(which),
        None => match size {
            None => unreachable!(),
            Some(size) => Ok(size),
        },
    }
}

/// Appends the item of a change, whose bodies aren't copied for it. All memory but the keeper's own is taken before.
pub(crate) fn append_change<K: Keeper>(
    alloc: Global,
    keeper: &mut K,
    change: Change<'_>,
) -> Result<(), KeepError>
    requires open { K.is_open keeper.old }
    requires size { let text = text_with (map object_value change.objects.now) (pairs change.refs.now)
        change.tags.now in
        (0 < length text) × (length text ≤ ITEM_BYTES) }
    requires room { K.number keeper.old < ITEMS }
    ensures items { let seen = keeper_view K.items K.number K.faults in
        Adds (text_with (map object_value change.entry.objects.now) (pairs change.entry.refs.now) change.entry.tags.now)
        (seen keeper.old) (seen keeper.new) result }
    ensures stops { let adds = OnlyAdds (K.moment keeper.old) (K.moment keeper.new) (K.left_since keeper.old)
        (K.left_since keeper.new) in
        adds (IsBeforeOrAfter (K.items keeper.old)
        (text_with (map object_value change.entry.objects.now) (pairs change.entry.refs.now)
        change.entry.tags.now))
        × (IsErrOf result KeepError.OutOfMemory → adds (IsPresent (K.items keeper.old))) }
    ensures used { IsUsed K.faults K.is_open K.tells keeper.old keeper.new (IsErrOf result KeepError.Failed) }
{
    let Ok(heads) = change_heads(alloc, change.objects, change.refs, change.tags) else {
        return Err(KeepError::OutOfMemory);
    };
    let Ok(parts) = change_parts(alloc, &heads, change.objects) else {
        return Err(KeepError::OutOfMemory);
    };
    keeper.append_parts(&parts)
}
