// The kept projections of an item.
ghost use Rattle.std.specs.Prelude.{◌≡◌, [], true, false, None, Some, Ok, IfOk, OnOk, MatchResult};
ghost use Rattle.std.specs.Option.{option_map};
ghost use Rattle.commit_map.specs.Rules.{rule_number};
ghost use Rattle.commit_map.specs.Shown.{kept_at, shown_value};
ghost use Rattle.filter_text.specs.Filters.{has_paths};
ghost use Rattle.filter_text.specs.Shapes.{shape};
ghost use Rattle.state_items.specs.Fields.{field};
ghost use Rattle.state_items.specs.Items.{is_canonical, is_text_of, result_field, rule_field, text_field};
ghost use Rattle.state_items.specs.KeptMaps.{entries_at, with_map_by};
ghost use Rattle.state_items.specs.Steps.{entries_step, entry_step, kept_maps, original_field, shown_field};
ghost use Rattle.state_items.specs.Stops.{IsStop};

use crate::cursor::Cursor;
use crate::ref_fields::{has_commit, name_in};
use crate::{ItemFault, KeptMaps};
use commit_map::{CommitMap, Rule, Shown};
use filter_routes::is_sound;
use filter_text::{Filter, FilterFault, parse, print};
use git_objects::Name;
use object_store::Incoming;
use std::alloc::{AllocError, Global};

// The field of a name.
fn name_field(cursor: &mut Cursor<'_>) -> Result<Name, ItemFault>
    ensures { MatchResult result
        (λ name. field 20 cursor.old ≡ Ok (name.0, cursor.new))
        (λ stop. IsStop stop (field 20 cursor.old)) }
{
    match name_in(cursor.field(20)?) {
        None => unreachable!(),
        Some(name) => Ok(name),
    }
}

/// The number of a rule.
pub(crate) fn rule_field(cursor: &mut Cursor<'_>) -> Result<Rule, ItemFault>
    ensures { MatchResult result
        (λ rule. rule_field cursor.old ≡ Ok (rule_number rule, cursor.new))
        (λ stop. IsStop stop (rule_field cursor.old)) }
{
    let at = cursor.at();
    let number = cursor.byte()?;
    match Rule::of(number) {
        None => Err(ItemFault::Broken { at: at as u64 }),
        Some(rule) => Ok(rule),
    }
}

// A projected commit with its tree.
fn shown_field(cursor: &mut Cursor<'_>) -> Result<Shown, ItemFault>
    ensures { MatchResult result
        (λ shown. shown_field cursor.old ≡ Ok (shown_value shown, cursor.new))
        (λ stop. IsStop stop (shown_field cursor.old)) }
{
    let commit = name_field(cursor)?;
    let tree = name_field(cursor)?;
    Ok(Shown { commit, tree })
}

// A projection, if there is one.
fn result_field(cursor: &mut Cursor<'_>) -> Result<Option<Shown>, ItemFault>
    ensures { MatchResult result
        (λ shown. result_field cursor.old ≡ Ok (option_map shown_value shown, cursor.new))
        (λ stop. IsStop stop (result_field cursor.old)) }
{
    let at = cursor.at();
    match cursor.byte()? {
        0 => Ok(None),
        1 => {
            let shown = shown_field(cursor)?;
            Ok(Some(shown))
        }
        _ => Err(ItemFault::Broken { at: at as u64 }),
    }
}

// The name of an original that is held and isn't in the map.
fn original_field(
    cursor: &mut Cursor<'_>,
    held: &Incoming,
    map: &CommitMap,
) -> Result<Name, ItemFault>
    ensures name { MatchResult result
        (λ name. original_field held.now.objects map.now cursor.old ≡ Ok (name.0, cursor.new))
        (λ stop. IsStop stop (original_field held.now.objects map.now cursor.old)) }
    ensures new { IfOk result (λ name. kept_at name.0 map.now ≡ None) }
{
    let at = cursor.at();
    let name = name_field(cursor)?;
    if has_commit(held, &name) && map.get(&name).is_none() {
        Ok(name)
    } else {
        Err(ItemFault::Broken { at: at as u64 })
    }
}

// Reads an original with its projection, into the map.
fn read_entry(
    cursor: &mut Cursor<'_>,
    held: &Incoming,
    map: &mut CommitMap,
) -> Result<(), ItemFault>
    ensures { MatchResult result
        (λ _. entry_step held.now.objects map.old cursor.old ≡ Ok (map.new, cursor.new))
        (λ stop. IsStop stop (entry_step held.now.objects map.old cursor.old)) }
{
    let original = original_field(cursor, held, map)?;
    let shown = result_field(cursor)?;
    map.set(original, shown)?;
    Ok(())
}

// Reads so many of them.
fn read_entries(
    cursor: &mut Cursor<'_>,
    held: &Incoming,
    count: u32,
    map: &mut CommitMap,
) -> Result<(), ItemFault>
    ensures { MatchResult result
        (λ _. entries_step count held.now.objects map.old cursor.old ≡ Ok (map.new, cursor.new))
        (λ stop. IsStop stop (entries_step count held.now.objects map.old cursor.old)) }
{
    for i in 0..count {
        match read_entry(cursor, held, map) {
            Err(fault) => return Err(fault),
            Ok(()) => {}
        }
    }
    Ok(())
}

// Whether a filter is sound and has that canonical text.
fn is_text_of(alloc: Global, filter: &Filter, text: &[u8]) -> Result<bool, AllocError>
    requires { has_paths (shape filter.now) ≡ true }
    ensures { IfOk result (λ b. b ≡ is_text_of text.now (Ok (shape filter.now))) }
{
    let printed = print(alloc, filter)?;
    if printed.as_slice() == text {
        is_sound(alloc, filter)
    } else {
        Ok(false)
    }
}

// A text that isn't read as a filter is none's, unless there was no memory.
fn refused(fault: FilterFault) -> Result<bool, AllocError>
    ensures { IfOk result (λ b. (b ≡ false) × (fault ≡ FilterFault.OutOfMemory → ⊥)) }
{
    match fault {
        FilterFault::TooLong => Ok(false),
        FilterFault::TooDeep => Ok(false),
        FilterFault::Syntax => Ok(false),
        FilterFault::WorkspacePlace => Ok(false),
        FilterFault::TooMany => Ok(false),
        FilterFault::OutOfMemory => Err(AllocError),
    }
}

/// Whether a text is the canonical one of a sound filter.
#[tactic(auto, unfolding(crate::specs::Items::is_canonical))]
pub fn is_canonical(alloc: Global, text: &[u8]) -> Result<bool, AllocError>
    ensures { IfOk result (λ b. b ≡ is_canonical text.now) }
{
    match parse(alloc, text) {
        Err(fault) => refused(fault),
        Ok(filter) => is_text_of(alloc, &filter, text),
    }
}

// The canonical text of a sound filter.
fn text_field<'a>(alloc: Global, cursor: &mut Cursor<'a>) -> Result<&'a [u8], ItemFault>
    ensures { MatchResult result
        (λ text. text_field cursor.old ≡ Ok (text.now, cursor.new))
        (λ stop. IsStop stop (text_field cursor.old)) }
{
    let length = cursor.two_bytes()?;
    let at = cursor.at();
    let text = cursor.field(length as usize)?;
    match is_canonical(alloc, text) {
        Err(_) => Err(ItemFault::OutOfMemory),
        Ok(false) => Err(ItemFault::Broken { at: at as u64 }),
        Ok(true) => Ok(text),
    }
}

// What is kept for a text and a rule is taken out of the maps.
fn taken(
    alloc: Global,
    kept: &mut KeptMaps,
    text: &[u8],
    rule: Rule,
) -> Result<CommitMap, AllocError>
    ensures map { IfOk result (λ map. map ≡ entries_at (rule_number rule) text.now kept.old) }
    ensures kept { OnOk result (kept.new ≡ with_map_by (rule_number rule) kept.old text.now []) }
{
    match kept.set(text, rule, CommitMap::new(alloc))? {
        None => Ok(CommitMap::new(alloc)),
        Some(map) => Ok(map),
    }
}

/// Reads a filter's text, the originals with their projections, and the end of an item, into the maps.
pub(crate) fn read_kept(
    alloc: Global,
    cursor: &mut Cursor<'_>,
    held: &Incoming,
    rule: Rule,
    kept: &mut KeptMaps,
) -> Result<(), ItemFault>
    ensures { MatchResult result
        (λ _. kept_maps held.now.objects (rule_number rule) kept.old cursor.old ≡ Ok kept.new)
        (λ stop. IsStop stop (kept_maps held.now.objects (rule_number rule) kept.old cursor.old)) }
{
    let text = text_field(alloc, cursor)?;
    let count = cursor.four_bytes()?;
    let mut map = taken(alloc, kept, text, rule)?;
    read_entries(cursor, held, count, &mut map)?;
    cursor.ended()?;
    kept.set(text, rule, map)?;
    Ok(())
}
