// The maps of filters, of which one may be selected.
ghost use Rattle.std.specs.Prelude.{◌≡◌, ℕ, true, take, IfOk, None, OnErr, OnOk, Some};
ghost use Rattle.std.specs.Option.{unwrap_or};
ghost use Rattle.commit_map.specs.Rules.{rule_number};
ghost use Rattle.commit_map.specs.Shown.{kept_at};
ghost use Rattle.git_objects.specs.Paths.{Bytes};
ghost use Rattle.state_items.specs.Items.{is_rule};
ghost use Rattle.state_items.specs.KeptMaps.{entries_at};
ghost use Rattle.repo_ground.specs.Choices.{HasMap, HasPlace, IsSpare, entries_beside, maps_in};
ghost use Rattle.repo_ground.specs.Choices.{rested, with_place};
ghost use Rattle.repo_ground.specs.Contents.{is_selected};

use commit_map::{CommitMap, Rule};
use state_items::KeptMaps;
use std::alloc::{AllocError, Global};
use std::marker::Model;

// The canonical text of a filter, and a rule.
#[derive(Drop)]
struct Selected {
    text: Vec<u8>,
    rule: Rule,
}

// The map of a filter that was selected. Items hold its first `kept` entries.
#[derive(Drop)]
struct RestingMap {
    filter: Selected,
    map: CommitMap,
    kept: usize,
}

// The filter whose map is elsewhere. In its place among the kept maps there is an empty one.
#[derive(Drop)]
enum Choice {
    Free,
    // It is selected, and its map is with the caller.
    Chosen(Selected),
    // It was selected last.
    Resting(RestingMap),
}

/// The maps of filters with the entries that items hold. The map of the filter that is selected is the caller's, and
/// may have further entries behind these.
#[derive(Drop)]
pub(crate) struct FilterMaps {
    kept: KeptMaps,
    choice: Choice,
}

impl Model for FilterMaps {
    ghost use Rattle.repo_ground.specs.Choices.{HasPlace, Selection, maps_in, selected_in};

    ghost Value = { Selection };

    ghost view = { λ m. record { maps = maps_in m.kept m.choice; selected = selected_in m.choice } };

    ghost invariant = { λ m. HasPlace m.kept m.choice };
}

impl FilterMaps {
    /// These maps, where no filter is selected.
    pub(crate) fn of(kept: KeptMaps) -> FilterMaps
        ensures { result ≡ record { maps = kept; selected = None } }
    {
        FilterMaps {
            kept,
            choice: Choice::Free,
        }
    }

    /// Whether the filter with that text is selected under that rule.
    pub(crate) fn is_selected(&self, text: &[u8], rule: Rule) -> bool
        ensures { result ≡ is_selected self.now.selected text.now (rule_number rule) }
    {
        match &self.choice {
            Choice::Chosen(last) => {
                last.text.as_slice() == text && last.rule.number() == rule.number()
            }
            _ => false,
        }
    }

    /// Takes back the map of the filter that is selected, with its first `kept` entries, so that none is selected.
    /// Needs no memory.
    pub(crate) fn put_away(&mut self, map: CommitMap, kept: usize)
        ensures none { self.new.selected ≡ None }
        ensures entries { (text : Bytes) (k : ℕ) → is_rule k ≡ true →
            entries_at k text self.new.maps ≡ entries_beside self.old (take kept map) text k }
    {
        let last = std::mem::replace(&mut self.choice, Choice::Free);
        self.choice = rest(last, map, kept);
    }

    /// Selects the filter with that text under that rule, and puts its map into the place of `map`, which is taken back
    /// with its first `kept` entries as that of the filter that was selected. For want of memory nothing changes.
    pub(crate) fn select(
        &mut self,
        alloc: Global,
        text: Vec<u8>,
        rule: Rule,
        map: &mut CommitMap,
        kept: usize,
    ) -> Result<(), AllocError>
        ensures selected { OnOk result (self.new.selected ≡ Some (text.items, rule_number rule)) }
        ensures entries { OnOk result ((m : Bytes) (k : ℕ) (n : Bytes) → is_rule k ≡ true →
            kept_at n (entries_beside self.new map.new m k)
            ≡ kept_at n (entries_beside self.old (take kept map.old) m k)) }
        ensures err { OnErr result ((self.new ≡ self.old) × (map.new ≡ map.old)) }
    {
        let spare = spare_of(alloc, &self.choice, map, kept)?;
        add_place(alloc, &mut self.kept, &text, rule)?;
        // From here on no memory is taken.
        let old = std::mem::replace(map, CommitMap::new(alloc));
        let last = std::mem::replace(&mut self.choice, Choice::Free);
        put_back(&mut self.kept, rest(last, old, kept), spare);
        *map = self.kept.exchange(&text, rule, CommitMap::new(alloc));
        self.choice = Choice::Chosen(Selected { text, rule });
        Ok(())
    }
}

// A choice whose filter isn't selected any more, which has this map. Where none was selected, the map is nobody's.
fn rest(choice: Choice, map: CommitMap, kept: usize) -> Choice
    ensures { result ≡ rested choice map kept }
{
    match choice {
        Choice::Chosen(filter) => Choice::Resting(RestingMap { filter, map, kept }),
        other => other,
    }
}

// Makes room for the map of a text and a rule, an empty one where there is none.
fn add_place(alloc: Global, maps: &mut KeptMaps, text: &[u8], rule: Rule) -> Result<(), AllocError>
    ensures ok { OnOk result (maps.new ≡ with_place (rule_number rule) text.now maps.old) }
    ensures err { OnErr result (maps.new ≡ maps.old) }
{
    if maps.get(text, rule).is_none() {
        maps.set(text, rule, CommitMap::new(alloc))?;
    }
    Ok(())
}

// What is put back of a choice's map, where that isn't the whole map.
fn spare_of(
    alloc: Global,
    choice: &Choice,
    map: &CommitMap,
    kept: usize,
) -> Result<Option<CommitMap>, AllocError>
    ensures { IfOk result (IsSpare (rested choice.now map.now kept)) }
{
    match choice {
        Choice::Free => Ok(None),
        Choice::Chosen(_) => front(alloc, map, kept),
        Choice::Resting(last) => front(alloc, &last.map, last.kept),
    }
}

// A map with what the first `kept` entries of `map` have, where there are more entries.
fn front(alloc: Global, map: &CommitMap, kept: usize) -> Result<Option<CommitMap>, AllocError>
    ensures { IfOk result (λ front. (n : Bytes) →
        kept_at n (unwrap_or front map.now) ≡ kept_at n (take kept map.now)) }
{
    if kept >= map.len() {
        return Ok(None);
    }
    let mut front = CommitMap::new(alloc);
    for i in 0..kept {
        let (original, shown) = map.entry(i);
        if front.get(&original).is_none() {
            front.set(original, shown)?;
        }
    }
    Ok(Some(front))
}

// Puts a map that rests back into its place, or the spare one in its stead. Needs no memory.
fn put_back(maps: &mut KeptMaps, last: Choice, spare: Option<CommitMap>)
    requires place { HasPlace maps.old last }
    requires spare { IsSpare last spare }
    ensures entries { (text : Bytes) (rule : ℕ) (n : Bytes) → is_rule rule ≡ true →
        kept_at n (entries_at rule text maps.new) ≡ kept_at n (entries_at rule text (maps_in maps.old last)) }
    ensures places { (text : Bytes) (rule : ℕ) → HasMap rule text maps.old → HasMap rule text maps.new }
{
    if let Choice::Resting(last) = last {
        let map = spare.unwrap_or(last.map);
        maps.exchange(&last.filter.text, last.filter.rule, map);
    }
}
