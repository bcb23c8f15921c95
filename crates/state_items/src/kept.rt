// Kept projections of each filter and rule.
ghost use Rattle.std.specs.Prelude.{◌≡◌, IfOk, IsSome, OnErr, OnOk, Some};
ghost use Rattle.std.specs.Option.{option_copied};
ghost use Rattle.commit_map.specs.Rules.{rule_number};
ghost use Rattle.state_items.specs.KeptMaps.{map_of, maps_by, no_maps, text_maps, with_map, with_map_by};

use commit_map::{CommitMap, Rule};
use indexmap::IndexMap;
use std::alloc::{AllocError, Global};
use std::marker::Model;

/// For the canonical text of a filter and a rule, the commits whose projections are kept.
#[derive(Drop)]
pub struct KeptMaps {
    first: IndexMap<Vec<u8>, CommitMap>,
    second: IndexMap<Vec<u8>, CommitMap>,
}

impl Model for KeptMaps {
    ghost use Rattle.state_items.specs.KeptMaps.{RuleMaps, text_maps};

    ghost Value = { RuleMaps };

    ghost view = { λ m. record {
      first = text_maps (λ t. t.items) m.first.entries;
      second = text_maps (λ t. t.items) m.second.entries;
    } };
}

// Puts a text's map in the place of its old one, or behind all, and gives the old one.
fn put(
    maps: &mut IndexMap<Vec<u8>, CommitMap>,
    text: &[u8],
    map: CommitMap,
) -> Result<Option<CommitMap>, AllocError>
    ensures old { IfOk result (λ old. old ≡ map_of text.now (text_maps (λ t. t.items) maps.old.entries)) }
    ensures ok { OnOk result (text_maps (λ t. t.items) maps.new.entries
        ≡ with_map (text_maps (λ t. t.items) maps.old.entries) text.now map) }
    ensures err { OnErr result (maps.new.entries ≡ maps.old.entries) }
{
    let key = text.to_vec(*maps.allocator())?;
    let old = maps.insert(key, map)?;
    Ok(old)
}

// Puts a text's map in the place of its old one, and gives the old one.
fn exchange(maps: &mut IndexMap<Vec<u8>, CommitMap>, text: &[u8], map: CommitMap) -> CommitMap
    requires { IsSome (map_of text.now (text_maps (λ t. t.items) maps.old.entries)) }
    ensures old { Some result ≡ map_of text.now (text_maps (λ t. t.items) maps.old.entries) }
    ensures new { text_maps (λ t. t.items) maps.new.entries
        ≡ with_map (text_maps (λ t. t.items) maps.old.entries) text.now map }
{
    match maps.get_mut(text) {
        None => unreachable!(),
        Some(place) => std::mem::replace(place, map),
    }
}

impl KeptMaps {
    /// Nothing is kept.
    pub fn new(alloc: Global) -> KeptMaps
        ensures { result ≡ no_maps }
    {
        KeptMaps {
            first: IndexMap::new(alloc),
            second: IndexMap::new(alloc),
        }
    }

    /// What is kept for a filter's canonical text and a rule, if anything was ever kept for them. Needs no memory.
    pub fn get(&self, text: &[u8], rule: Rule) -> Option<&CommitMap>
        ensures { option_copied result ≡ map_of text.now (maps_by (rule_number rule) self.now) }
    {
        match rule {
            Rule::One => self.first.get(text),
            Rule::Two => self.second.get(text),
        }
    }

    /// Puts a map in the place of what was kept for that text and rule, and gives what was.
    pub fn set(
        &mut self,
        text: &[u8],
        rule: Rule,
        map: CommitMap,
    ) -> Result<Option<CommitMap>, AllocError>
        ensures old { IfOk result (λ old. old ≡ map_of text.now (maps_by (rule_number rule) self.old)) }
        ensures ok { OnOk result (self.new ≡ with_map_by (rule_number rule) self.old text.now map) }
        ensures err { OnErr result (self.new ≡ self.old) }
    {
        match rule {
            Rule::One => put(&mut self.first, text, map),
            Rule::Two => put(&mut self.second, text, map),
        }
    }

    /// Puts a map in the place of what was kept for that text and rule, and gives what was. Needs no memory.
    pub fn exchange(&mut self, text: &[u8], rule: Rule, map: CommitMap) -> CommitMap
        requires { IsSome (map_of text.now (maps_by (rule_number rule) self.old)) }
        ensures old { Some result ≡ map_of text.now (maps_by (rule_number rule) self.old) }
        ensures new { self.new ≡ with_map_by (rule_number rule) self.old text.now map }
    {
        match rule {
            Rule::One => exchange(&mut self.first, text, map),
            Rule::Two => exchange(&mut self.second, text, map),
        }
    }
}
