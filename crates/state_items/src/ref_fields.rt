// The refs of an item.
ghost use Rattle.std.specs.Prelude.{◌≡◌, ◌&&◌, ◌==◌, [], None, Some, Ok, true, false, length, IfOk};
ghost use Rattle.std.specs.Prelude.{MatchResult, OnOk};
ghost use Rattle.std.specs.Bool.{if◌then◌else◌};
ghost use Rattle.std.specs.Option.{option_copied, option_map};
ghost use Rattle.std.specs.Ordering.{is_lt};
ghost use Rattle.std.specs.FinMap.{put};
ghost use Rattle.git_objects.specs.Parts.{name_bytes};
ghost use Rattle.git_objects.specs.Refs.{bytes_cmp};
ghost use Rattle.object_store.specs.Objects.{has};
ghost use Rattle.path_names.specs.RefNames.{is_ref_name};
ghost use Rattle.ref_store.specs.Refs.{AreDistinct};
ghost use Rattle.state_items.specs.Changes.{with_refs};
ghost use Rattle.state_items.specs.Items.{head_field, ref_field, refs_field, rises};
ghost use Rattle.state_items.specs.Steps.{are_heads, one_ref};
ghost use Rattle.state_items.specs.Stops.{IsStop};

use crate::ItemFault;
use crate::cursor::Cursor;
use git_objects::{Kind, Name};
use object_store::Incoming;
use path_names::{RefFault, RefName, is_ref_name};
use ref_store::Refs;
use std::alloc::Global;

fn is_below<'x>(a: &'x [u8], b: &'x [u8]) -> bool
    ensures { result ≡ is_lt (bytes_cmp a.now b.now) }
{
    a.cmp(&b).is_lt()
}

/// Whether a name follows the one before.
pub(crate) fn rises(before: Option<&[u8]>, name: &[u8]) -> bool
    ensures { result ≡ rises (option_copied before.entry) name.now }
{
    match before {
        None => true,
        Some(before) => is_below(before, name),
    }
}

// The field of a ref name, which has to stand above the one before in byte order.
fn ref_field<'a>(cursor: &mut Cursor<'a>, before: Option<&[u8]>) -> Result<&'a [u8], ItemFault>
    ensures { MatchResult result
        (λ name. ref_field (option_copied before.entry) cursor.old ≡ Ok (name.now, cursor.new))
        (λ stop. IsStop stop (ref_field (option_copied before.entry) cursor.old)) }
{
    let length = cursor.two_bytes()?;
    let at = cursor.at();
    let name = cursor.field(length as usize)?;
    if is_ref_name(name) && rises(before, name) {
        Ok(name)
    } else {
        Err(ItemFault::Broken { at: at as u64 })
    }
}

// Whether a commit of that name is held.
pub(crate) fn has_commit(held: &Incoming, name: &Name) -> bool
    ensures { result ≡ has Kind.Commit held.now.objects name.now.0 }
{
    match held.get(name) {
        None => false,
        Some(object) => object.kind == Kind::Commit,
    }
}

// The name of which a field has the 20 bytes.
pub(crate) fn name_in(bytes: &[u8]) -> Option<Name>
    ensures { option_map name_bytes result ≡ (if length bytes.now == 20 then Some bytes.now else None) }
{
    if bytes.len() != 20 {
        return None;
    }
    match bytes.split_first_chunk::<20>() {
        None => None,
        Some((name, _)) => Some(Name(*name)),
    }
}

/// The field of a commit's name, which has to be held.
pub(crate) fn head_field(cursor: &mut Cursor<'_>, held: &Incoming) -> Result<Name, ItemFault>
    ensures field { MatchResult result
        (λ name. head_field held.now.objects cursor.old ≡ Ok (name.0, cursor.new))
        (λ stop. IsStop stop (head_field held.now.objects cursor.old)) }
    ensures head { IfOk result (λ name. has Kind.Commit held.now.objects name.0 ≡ true) }
{
    let at = cursor.at();
    let bytes = cursor.field(20)?;
    match name_in(bytes) {
        None => unreachable!(),
        Some(name) => {
            if has_commit(held, &name) {
                Ok(name)
            } else {
                Err(ItemFault::Broken { at: at as u64 })
            }
        }
    }
}

// Sets a ref, whose name is one.
fn set(alloc: Global, refs: &mut Refs, name: &[u8], head: Name) -> Result<(), ItemFault>
    requires named { is_ref_name name.now ≡ true }
    requires distinct { AreDistinct refs.old }
    ensures refs { MatchResult result
        (λ _. with_refs [] refs.new ≡ put bytes_cmp name.now head.0 (with_refs [] refs.old))
        (λ stop. stop ≡ ItemFault.OutOfMemory) }
    ensures distinct { OnOk result (AreDistinct refs.new) }
{
    match RefName::parse(alloc, name) {
        Err(RefFault::Bad) => unreachable!(),
        Err(RefFault::OutOfMemory) => Err(ItemFault::OutOfMemory),
        Ok(name) => match refs.set(name, head) {
            Err(_) => Err(ItemFault::OutOfMemory),
            Ok(()) => Ok(()),
        },
    }
}

// Reads a ref and sets it, and answers its name.
fn set_ref<'a>(
    alloc: Global,
    cursor: &mut Cursor<'a>,
    held: &Incoming,
    before: Option<&[u8]>,
    refs: &mut Refs,
) -> Result<&'a [u8], ItemFault>
    requires heads { are_heads held.now.objects (with_refs [] refs.old) ≡ true }
    requires distinct { AreDistinct refs.old }
    ensures one { MatchResult result
        (λ name. one_ref held.now.objects (option_copied before.entry) (with_refs [] refs.old) cursor.old ≡ Ok
        ((name.now, with_refs [] refs.new), cursor.new))
        (λ stop. IsStop stop (one_ref held.now.objects (option_copied before.entry) (with_refs [] refs.old)
        cursor.old)) }
    ensures heads { OnOk result (are_heads held.now.objects (with_refs [] refs.new) ≡ true) }
    ensures distinct { OnOk result (AreDistinct refs.new) }
{
    let name = ref_field(cursor, before)?;
    let head = head_field(cursor, held)?;
    set(alloc, refs, name, head)?;
    Ok(name)
}

/// Sets the refs of an item, so many as the item says.
pub(crate) fn set_refs(
    alloc: Global,
    cursor: &mut Cursor<'_>,
    held: &Incoming,
    count: u32,
    refs: &mut Refs,
) -> Result<(), ItemFault>
    requires heads { are_heads held.now.objects (with_refs [] refs.old) ≡ true }
    requires distinct { AreDistinct refs.old }
    ensures refs { MatchResult result
        (λ _. refs_field count held.now.objects None (with_refs [] refs.old) cursor.old
        ≡ Ok (with_refs [] refs.new, cursor.new))
        (λ stop. IsStop stop (refs_field count held.now.objects None (with_refs [] refs.old) cursor.old)) }
    ensures heads { OnOk result (are_heads held.now.objects (with_refs [] refs.new) ≡ true) }
    ensures distinct { OnOk result (AreDistinct refs.new) }
{
    let mut before = None;
    for i in 0..count {
        match set_ref(alloc, cursor, held, before, refs) {
            Err(fault) => return Err(fault),
            Ok(name) => before = Some(name),
        }
    }
    Ok(())
}
