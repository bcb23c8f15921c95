// Writing items.
ghost use Rattle.std.specs.Prelude.{◌≡◌, ◌≤◌, ◌<◌, ◌^◌, ◌+◌, ◌*◌, ◌++◌, None, filter};
ghost use Rattle.std.specs.Prelude.{length, map, nat_le};
ghost use Rattle.std.specs.Prelude.{IfOk, IsSome, List, OnOk, ℕ};
ghost use Rattle.std.specs.Int.{to_be_bytes, w32};
ghost use Rattle.std.specs.List.{flat_map};
ghost use Rattle.git_objects.specs.Refs.{Refs};
ghost use Rattle.git_objects.specs.declared.limits.TheConstants.{ITEMS, STORE_BYTES};
ghost use Rattle.object_store.specs.Errors.{object_value};
ghost use Rattle.object_store.specs.Fits.{is_commit};
ghost use Rattle.object_store.specs.Objects.{Object};
ghost use Rattle.ref_store.specs.Pairs.{pair, pairs};
ghost use Rattle.commit_map.specs.Rules.{rule_number};
ghost use Rattle.commit_map.specs.Shown.{entry_value, entry_values};
ghost use Rattle.state_items.specs.Changes.{or_else, passed_by_item, passed_by_objects};
ghost use Rattle.state_items.specs.Items.{change_text, entry_text, kept_text, kind_byte, object_text, ref_text};
ghost use Rattle.state_items.specs.Items.{rule_text, tag_item_text, tagged_change_text, text_with};
ghost use Rattle.state_items.specs.Writings.{first_passed, found, heads_text, heads_with, object_head, sized};
ghost use Rattle.state_items.specs.Writings.{tagged_heads_text};
ghost use Rattle.tag_objects.specs.declared.tag.Tag.{Tag as TagValue};

use commit_map::{Rule, Shown};
use git_objects::limits::{COMMITS, ITEM_BYTES, ITEMS, OBJECTS, STORE_BYTES};
use git_objects::{Kind, Name, Quantity};
use object_store::{ObjectRef, Store};
use path_names::RefName;
use std::alloc::{AllocError, Global};
use tag_objects::Tag;

/// `size + more`, in bytes, or None above the limit of an item.
pub fn add_size(size: usize, more: usize) -> Option<usize>
    requires { size ≤ 2 ^ 29 }
    ensures { result ≡ sized (size + more) }
{
    if more <= ITEM_BYTES - size {
        Some(size + more)
    } else {
        None
    }
}

/// The objects of these names that are in the store, each looked up once. Names that stand in the order in which their
/// objects arrived are looked up faster.
pub fn found_objects<'a>(
    alloc: Global,
    store: &'a Store,
    names: &[Name],
) -> Result<Vec<ObjectRef<'a>>, AllocError>
    ensures { IfOk result (λ v. map object_value v.items ≡ found store.now names.now) }
{
    let mut objects = Vec::with_capacity(alloc, names.len())?;
    let mut near = 0;
    for name in names {
        if let Some(object) = store.get_near(&mut near, name) {
            objects.push(object)?;
        }
    }
    Ok(objects)
}

// `size` and the bytes that an item takes for an object, or None above the limit of an item.
fn add_object(object: &ObjectRef<'_>, size: usize) -> Option<usize>
    requires { size ≤ 2 ^ 29 }
    ensures { result ≡ sized (size + length (object_text (object_value object.now))) }
{
    match add_size(size, 5) {
        None => None,
        Some(size) => add_size(size, object.body.len()),
    }
}

// `size` and the bytes that an item takes for these objects, or None above the limit of an item.
fn add_objects(objects: &[ObjectRef<'_>], size: usize) -> Option<usize>
    requires { size ≤ 2 ^ 29 }
    ensures { result ≡ sized (size + length (flat_map object_text (map object_value objects.now))) }
{
    let mut size = size;
    for object in objects {
        match add_object(object, size) {
            None => return None,
            Some(more) => size = more,
        }
    }
    Some(size)
}

// `size` and the bytes that an item takes for a ref, or None above the limit of an item.
fn add_ref(entry: &(RefName, Name), size: usize) -> Option<usize>
    requires { size ≤ 2 ^ 29 }
    ensures { result ≡ sized (size + length (ref_text (pair entry.now))) }
{
    let (refname, head) = entry;
    match add_size(size, 2 + head.bytes().len()) {
        None => None,
        Some(size) => add_size(size, refname.text().len()),
    }
}

// `size` and the bytes that an item takes for these refs, or None above the limit of an item.
fn add_refs(refs: &[(RefName, Name)], size: usize) -> Option<usize>
    requires { size ≤ 2 ^ 29 }
    ensures { result ≡ sized (size + length (flat_map ref_text (pairs refs.now))) }
{
    let mut size = size;
    for entry in refs {
        match add_ref(entry, size) {
            None => return None,
            Some(more) => size = more,
        }
    }
    Some(size)
}

// `size` and the bytes that an item takes for a tag, or None above the limit of an item.
fn add_tag(tag: &Tag, size: usize) -> Option<usize>
    requires { size ≤ 2 ^ 29 }
    ensures { result ≡ sized (size + length (tag_item_text tag.now)) }
{
    let size = add_size(size, 10 + tag.target.bytes().len())?;
    let size = add_size(size, tag.name.text().len())?;
    let size = add_size(size, tag.tagger.bytes().len())?;
    add_size(size, tag.message.bytes().len())
}

// `size` and the bytes that an item takes for these tags, or None above the limit of an item.
fn add_tags(tags: &[Tag], size: usize) -> Option<usize>
    requires { size ≤ 2 ^ 29 }
    ensures { result ≡ sized (size + length (flat_map tag_item_text tags.now)) }
{
    let mut size = size;
    for tag in tags {
        match add_tag(tag, size) {
            None => return None,
            Some(more) => size = more,
        }
    }
    Some(size)
}

/// The length in bytes of the item of these objects and refs, and of these tags where there are any, or None above the
/// limit of an item.
pub fn change_size(
    objects: &[ObjectRef<'_>],
    refs: &[(RefName, Name)],
    tags: &[Tag],
) -> Option<usize>
    ensures { result ≡ sized (length (text_with (map object_value objects.now) (pairs refs.now) tags.now)) }
{
    match tags {
        [] => plain_size(objects, refs),
        [_, ..] => tagged_size(objects, refs, tags),
    }
}

// The length in bytes of an item with these tags, or None above the limit of an item.
#[tactic(auto, unfolding(crate::specs::Items::tagged_change_text))]
fn tagged_size(objects: &[ObjectRef<'_>], refs: &[(RefName, Name)], tags: &[Tag]) -> Option<usize>
    ensures { result
        ≡ sized (length (tagged_change_text (map object_value objects.now) (pairs refs.now) tags.now)) }
{
    let size = add_objects(objects, 14)?;
    let size = add_refs(refs, size)?;
    add_tags(tags, size)
}

// The length in bytes of an item without tags, or None above the limit of an item.
#[tactic(auto, unfolding(crate::specs::Items::change_text))]
fn plain_size(objects: &[ObjectRef<'_>], refs: &[(RefName, Name)]) -> Option<usize>
    ensures { result ≡ sized (length (change_text (map object_value objects.now) (pairs refs.now))) }
{
    match add_objects(objects, 10) {
        None => None,
        Some(size) => add_refs(refs, size),
    }
}

fn is_commit(object: &ObjectRef<'_>) -> bool
    ensures { result ≡ is_commit (object_value object.now) }
{
    object.kind == Kind::Commit
}

/// How many of these objects are commits.
pub fn count_commits(objects: &[ObjectRef<'_>]) -> usize
    ensures number { result ≡ length (filter is_commit (map object_value objects.now)) }
    ensures bound { result < 2 ^ 63 }
{
    let mut count = 0;
    for object in objects {
        if is_commit(object) {
            count += 1;
        }
    }
    count
}

/// The first limit of a state that an item passes: by how many commits and objects are held with it, its length in
/// bytes or None above the limit of an item, and how many items of how many bytes stand before it.
pub fn first_passed(
    commits: usize,
    objects: usize,
    item: Option<usize>,
    number: u32,
    size: u64,
) -> Option<Quantity>
    ensures first { (S : List Object) (bytes : List ℕ) → commits ≡ length (filter is_commit S) →
        objects ≡ length S →
        item ≡ sized (length bytes) → result ≡ passed_by_objects S
        (passed_by_item (record { number = number; size = size }) bytes) }
    ensures large { item ≡ None → IsSome result }
{
    passed_by_numbers(commits, objects, item, number, size)
}

fn passed_by_numbers(
    commits: usize,
    objects: usize,
    item: Option<usize>,
    number: u32,
    size: u64,
) -> Option<Quantity>
    ensures { result ≡ first_passed commits objects item number size }
{
    if commits > COMMITS as usize {
        return Some(Quantity::Commits);
    }
    if objects > OBJECTS as usize {
        return Some(Quantity::Objects);
    }
    match item {
        None => Some(Quantity::Item),
        Some(length) => passed_by_items(length, number, size),
    }
}

// The first limit on all items together that one item more passes.
fn passed_by_items(length: usize, number: u32, size: u64) -> Option<Quantity>
    ensures { result ≡ or_else (nat_le (number + 1) ITEMS) Quantity.Items (or_else (nat_le
        (size + length) STORE_BYTES) Quantity.Store None) }
{
    if number >= ITEMS {
        return Some(Quantity::Items);
    }
    if size > STORE_BYTES {
        return Some(Quantity::Store);
    }
    if length as u64 > STORE_BYTES - size {
        return Some(Quantity::Store);
    }
    None
}

fn kind_byte(kind: Kind) -> u8
    ensures { result ≡ kind_byte kind }
{
    match kind {
        Kind::Blob => 1,
        Kind::Tree => 2,
        Kind::Commit => 3,
    }
}

// Writes a ref: its length, itself, and its commit's name.
fn write_ref(text: &mut Vec<u8>, entry: &(RefName, Name)) -> Result<(), AllocError>
    ensures { OnOk result (text.new.items ≡ text.old.items ++ ref_text (pair entry.now)) }
{
    let (refname, head) = entry;
    let name = refname.text();
    text.extend_from_slice(&(name.len() as u16).to_be_bytes())?;
    text.extend_from_slice(name)?;
    text.extend_from_slice(head.bytes())?;
    Ok(())
}

// Writes these refs.
fn write_refs(text: &mut Vec<u8>, refs: &[(RefName, Name)]) -> Result<(), AllocError>
    ensures { OnOk result (text.new.items ≡ text.old.items ++ flat_map ref_text (pairs refs.now)) }
{
    for entry in refs {
        write_ref(text, entry)?;
    }
    Ok(())
}

// Writes a number of four bytes, the high byte first.
fn write_number(text: &mut Vec<u8>, n: usize) -> Result<(), AllocError>
    requires { n < 2 ^ 32 }
    ensures { OnOk result (text.new.items ≡ text.old.items ++ to_be_bytes w32 n) }
{
    text.extend_from_slice(&(n as u32).to_be_bytes())
}

// Writes what stands before the body of an object: its kind and its length.
fn write_head(text: &mut Vec<u8>, object: &ObjectRef<'_>) -> Result<(), AllocError>
    requires { length (object_text (object_value object.now)) ≤ 2 ^ 29 }
    ensures { OnOk result (text.new.items ≡ text.old.items ++ object_head (object_value object.now)) }
{
    text.push(kind_byte(object.kind))?;
    text.extend_from_slice(&(object.body.len() as u32).to_be_bytes())?;
    Ok(())
}

// Writes what stands before the bodies of these objects.
fn write_heads(text: &mut Vec<u8>, objects: &[ObjectRef<'_>]) -> Result<(), AllocError>
    requires { length (flat_map object_text (map object_value objects.now)) ≤ 2 ^ 29 }
    ensures { OnOk result (text.new.items ≡ text.old.items ++ flat_map object_head (map object_value objects.now)) }
{
    for object in objects {
        write_head(text, object)?;
    }
    Ok(())
}

// Writes bytes behind their length.
fn write_field(text: &mut Vec<u8>, field: &[u8]) -> Result<(), AllocError>
    requires { length field.now < 2 ^ 32 }
    ensures { OnOk result (text.new.items ≡ text.old.items ++ to_be_bytes w32 (length field.now) ++ field.now) }
{
    write_number(text, field.len())?;
    text.extend_from_slice(field)
}

// Writes a tag: its length, its name, its commit's name, the tagger and the message.
fn write_tag(text: &mut Vec<u8>, tag: &Tag) -> Result<(), AllocError>
    requires { length (tag_item_text tag.now) ≤ 2 ^ 29 }
    ensures { OnOk result (text.new.items ≡ text.old.items ++ tag_item_text tag.now) }
{
    let name = tag.name.text();
    text.extend_from_slice(&(name.len() as u16).to_be_bytes())?;
    text.extend_from_slice(name)?;
    text.extend_from_slice(tag.target.bytes())?;
    write_field(text, tag.tagger.bytes())?;
    write_field(text, tag.message.bytes())
}

// Writes these tags.
fn write_tags(text: &mut Vec<u8>, tags: &[Tag]) -> Result<(), AllocError>
    requires { length (flat_map tag_item_text tags.now) ≤ 2 ^ 29 }
    ensures { OnOk result (text.new.items ≡ text.old.items ++ flat_map tag_item_text tags.now) }
{
    for tag in tags {
        write_tag(text, tag)?;
    }
    Ok(())
}

/// The item of these objects and refs, and of these tags where there are any, but for the objects' bodies: six bytes,
/// five for each object, and then the refs and the tags.
pub fn change_heads(
    alloc: Global,
    objects: &[ObjectRef<'_>],
    refs: &[(RefName, Name)],
    tags: &[Tag],
) -> Result<Vec<u8>, AllocError>
    requires size { length (text_with (map object_value objects.now) (pairs refs.now) tags.now) ≤ 2 ^ 29 }
    ensures heads { IfOk result (λ heads.
        heads.items ≡ heads_with (map object_value objects.now) (pairs refs.now) tags.now) }
    ensures room { IfOk result (λ heads. 6 + 5 * length objects.now ≤ length heads.items) }
{
    match tags {
        [] => plain_heads(alloc, objects, refs),
        [_, ..] => tagged_heads(alloc, objects, refs, tags),
    }
}

// An item with these tags but for the objects' bodies.
#[tactic(auto, unfolding(crate::specs::Items::tagged_change_text, crate::specs::Writings::tagged_heads_text))]
fn tagged_heads(
    alloc: Global,
    objects: &[ObjectRef<'_>],
    refs: &[(RefName, Name)],
    tags: &[Tag],
) -> Result<Vec<u8>, AllocError>
    requires size { length (tagged_change_text (map object_value objects.now) (pairs refs.now) tags.now) ≤ 2 ^ 29 }
    ensures heads { IfOk result (λ heads.
        heads.items ≡ tagged_heads_text (map object_value objects.now) (pairs refs.now) tags.now) }
    ensures room { IfOk result (λ heads. 6 + 5 * length objects.now ≤ length heads.items) }
{
    let mut text = Vec::new(alloc);
    text.extend_from_slice(&[2, 4])?;
    write_number(&mut text, objects.len())?;
    write_heads(&mut text, objects)?;
    write_number(&mut text, refs.len())?;
    write_refs(&mut text, refs)?;
    write_number(&mut text, tags.len())?;
    write_tags(&mut text, tags)?;
    Ok(text)
}

// An item without tags but for the objects' bodies.
#[tactic(auto, unfolding(crate::specs::Items::change_text, crate::specs::Writings::heads_text))]
fn plain_heads(
    alloc: Global,
    objects: &[ObjectRef<'_>],
    refs: &[(RefName, Name)],
) -> Result<Vec<u8>, AllocError>
    requires size { length (change_text (map object_value objects.now) (pairs refs.now)) ≤ 2 ^ 29 }
    ensures heads { IfOk result (λ heads. heads.items ≡ heads_text (map object_value objects.now) (pairs refs.now)) }
    ensures room { IfOk result (λ heads. 6 + 5 * length objects.now ≤ length heads.items) }
{
    let mut text = Vec::new(alloc);
    text.reserve(add_refs(refs, 10 + 5 * objects.len()).unwrap_or(0))?;
    text.extend_from_slice(&[1, 1])?;
    write_number(&mut text, objects.len())?;
    write_heads(&mut text, objects)?;
    write_number(&mut text, refs.len())?;
    write_refs(&mut text, refs)?;
    Ok(text)
}

/// The item of which these are the heads, in parts: each body is lent between two parts of the heads.
pub fn change_parts<'a, 'b>(
    alloc: Global,
    heads: &'a [u8],
    objects: &'a [ObjectRef<'b>],
) -> Result<Vec<&'a [u8]>, AllocError>
    requires room { 6 + 5 * length objects.now ≤ length heads.now }
    ensures { (refs : Refs) (tags : List TagValue) →
        heads.now ≡ heads_with (map object_value objects.now) refs tags → IfOk result
        (λ parts. flat_map (λ part. part.now) parts.items ≡ text_with (map object_value objects.now) refs tags) }
{
    let mut parts = Vec::with_capacity(alloc, 2 * objects.len() + 2)?;
    parts.push(&heads[..6])?;
    let mut rest = &heads[6..];
    for object in objects {
        let (head, behind) = rest.split_at(5);
        parts.push(head)?;
        parts.push(object.body)?;
        rest = behind;
    }
    parts.push(rest)?;
    Ok(parts)
}

// Writes an original with its projection, if it has one.
fn write_entry(text: &mut Vec<u8>, entry: &(Name, Option<Shown>)) -> Result<(), AllocError>
    ensures { OnOk result (text.new.items ≡ text.old.items ++ entry_text (entry_value entry.now)) }
{
    let (original, shown) = entry;
    text.extend_from_slice(original.bytes())?;
    match shown {
        None => text.push(0)?,
        Some(shown) => {
            text.push(1)?;
            text.extend_from_slice(shown.commit.bytes())?;
            text.extend_from_slice(shown.tree.bytes())?;
        }
    }
    Ok(())
}

// Writes these originals.
fn write_entries(text: &mut Vec<u8>, entries: &[(Name, Option<Shown>)]) -> Result<(), AllocError>
    ensures { OnOk result (text.new.items ≡ text.old.items ++ flat_map entry_text (entry_values entries.now)) }
{
    for entry in entries {
        write_entry(text, entry)?;
    }
    Ok(())
}

/// The item of these originals with their projections, for the filter of that canonical text and a rule.
#[tactic(auto, unfolding(crate::specs::Items::kept_text))]
pub fn kept_item(
    alloc: Global,
    rule: Rule,
    text: &[u8],
    entries: &[(Name, Option<Shown>)],
) -> Result<Vec<u8>, AllocError>
    requires short { length text.now < 2 ^ 16 }
    requires few { length entries.now < 2 ^ 32 }
    ensures { IfOk result (λ item. item.items ≡ kept_text (rule_number rule) text.now (entry_values entries.now)) }
{
    let mut item = Vec::new(alloc);
    item.extend_from_slice(&[2, 2, rule.number()])?;
    item.extend_from_slice(&(text.len() as u16).to_be_bytes())?;
    item.extend_from_slice(text)?;
    write_number(&mut item, entries.len())?;
    write_entries(&mut item, entries)?;
    Ok(item)
}

/// The item that sets a rule.
pub fn rule_item(rule: Rule) -> [u8; 3]
    ensures { result ≡ rule_text (rule_number rule) }
{
    [2, 3, rule.number()]
}
