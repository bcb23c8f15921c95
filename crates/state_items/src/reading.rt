// Reading items, one after another.
ghost use Rattle.std.specs.Prelude.{◌≡◌, ◌≤◌, [], None, Ok, true, length};
ghost use Rattle.std.specs.Prelude.{map, replicate, IfOk, OnErr, OnOk, MatchResult};
ghost use Rattle.std.specs.Option.{option_map};
ghost use Rattle.std.specs.Borrow.{sem};
ghost use Rattle.git_objects.specs.Parts.{name_bytes};
ghost use Rattle.ref_store.specs.Refs.{AreDistinct};
ghost use Rattle.commit_map.specs.Rules.{rule_number};
ghost use Rattle.state_items.specs.HeldObjects.{HoldsObjects};
ghost use Rattle.state_items.specs.Changes.{with_refs};
ghost use Rattle.state_items.specs.Fields.{number, start};
ghost use Rattle.state_items.specs.Items.{Held, item_kind, item_kind_field, nothing, read_item};
ghost use Rattle.state_items.specs.Lending.{LendsPiece};
ghost use Rattle.state_items.specs.Readings.{Gathered, Holds, HoldsSomething, kind_value, parts_of, with_piece};
ghost use Rattle.state_items.specs.Steps.{are_heads, item_step, kept_by_rule, kept_maps};
ghost use Rattle.state_items.specs.Steps.{objects_step, part_step, refs_step, rule_end, tagged_step, tags_step};
ghost use Rattle.state_items.specs.Stops.{IsStop, spot_at};

use crate::cursor::Cursor;
use crate::kept_fields::{read_kept, rule_field};
use crate::objects::Objects;
use crate::ref_fields::set_refs;
use crate::tag_fields::set_tags;
use crate::{ItemFault, KeptMaps};
use commit_graph::Graph;
use commit_map::Rule;
use git_objects::Name;
use indexmap::IndexSet;
use object_store::{Incoming, Store};
use ref_store::Refs;
use std::alloc::{AllocError, Global};
use std::marker::Model;
use tag_objects::Tag;

// What an item brings.
#[derive(Clone, Copy)]
enum ItemKind {
    // Objects and refs.
    Change,
    // Kept projections of the first rule.
    OldKept,
    // Kept projections of the rule that the item names.
    Kept,
    NewRule,
    // Objects, refs and tags.
    Tagged,
}

// The kind of an item, and the place behind it.
#[derive(Clone, Copy)]
struct Start {
    kind: ItemKind,
    at: usize,
}

/// What was read of items: all that they hold.
#[derive(Drop)]
pub struct Loaded {
    pub store: Store,
    /// The names of all objects, in order of arrival.
    pub names: IndexSet<Name>,
    pub graph: Graph,
    /// The names of the blobs, in order of arrival.
    pub blobs: IndexSet<Name>,
    pub refs: Refs,
    pub kept: KeptMaps,
    pub rule: Rule,
    /// One of each name, in the byte order of their names.
    pub tags: Vec<Tag>,
}

/// Items that are read one after another. Each is written into the piece and then read there: bodies of objects stay
/// where they stand.
pub struct Reading {
    objects: Objects,
    refs: Refs,
    kept: KeptMaps,
    rule: Rule,
    tags: Vec<Tag>,
    alloc: Global,
}

// Written out, so that to drop one is a call: a derived drop would stand in full in each function that drops one, and
// in its proof.
impl Drop for Reading {
    fn drop(self) {
        let Reading {
            objects: _,
            refs: _,
            kept: _,
            rule: _,
            tags: _,
            alloc: _,
        } = self;
    }
}

impl Model for Reading {
    ghost use Rattle.std.specs.Prelude.{◌≡◌, true, map};
    ghost use Rattle.git_objects.specs.Parts.{name_bytes};
    ghost use Rattle.commit_map.specs.Rules.{rule_number};
    ghost use Rattle.state_items.specs.Readings.{Gathered};

    ghost Value = { Gathered };

    ghost view = { λ r. record {
      objects = r.objects.incoming.objects;
      names = map name_bytes r.objects.names.keys;
      rows = r.objects.graph;
      blobs = map name_bytes r.objects.blobs.keys;
      refs = r.refs;
      maps = r.kept;
      rule = rule_number r.rule;
      tags = r.tags.items;
      piece = r.objects.incoming.piece;
    } };

    ghost invariant = { λ r. r.objects.incoming.is_open ≡ true };
}

fn item_kind(format: u8, kind: u8) -> Option<ItemKind>
    ensures { option_map kind_value result ≡ item_kind format kind }
{
    match (format, kind) {
        (1, 1) => Some(ItemKind::Change),
        (1, 2) => Some(ItemKind::OldKept),
        (2, 2) => Some(ItemKind::Kept),
        (2, 3) => Some(ItemKind::NewRule),
        (2, 4) => Some(ItemKind::Tagged),
        _ => None,
    }
}

// The bytes for the format and for the kind.
fn item_kind_field(cursor: &mut Cursor<'_>) -> Result<ItemKind, ItemFault>
    ensures { MatchResult result
        (λ kind. item_kind_field cursor.old ≡ Ok (kind_value kind, cursor.new))
        (λ stop. IsStop stop (item_kind_field cursor.old)) }
{
    let format_at = cursor.at();
    let format = cursor.byte()?;
    if format != 1 && format != 2 {
        return Err(ItemFault::Broken {
            at: format_at as u64,
        });
    }
    let kind_at = cursor.at();
    let kind = cursor.byte()?;
    match item_kind(format, kind) {
        None => Err(ItemFault::Broken { at: kind_at as u64 }),
        Some(kind) => Ok(kind),
    }
}

fn start_of_item(item: &[u8]) -> Result<Start, ItemFault>
    ensures kind { MatchResult result
        (λ s. item_kind_field (start item.now) ≡ Ok (kind_value s.kind, spot_at s.at item.now))
        (λ stop. IsStop stop (item_kind_field (start item.now))) }
    ensures within { IfOk result (λ s. s.at ≤ length item.now) }
{
    let mut cursor = Cursor::new(item, 0);
    let kind = item_kind_field(&mut cursor)?;
    Ok(Start {
        kind,
        at: cursor.at(),
    })
}

// A number of four bytes at a place of an item, and the place behind it.
fn count_at(item: &[u8], at: usize) -> Result<(u32, usize), ItemFault>
    requires { at ≤ length item.now }
    ensures count { MatchResult result
        (λ n. number 4 (spot_at at item.now) ≡ Ok (n.0, spot_at n.1 item.now))
        (λ stop. IsStop stop (number 4 (spot_at at item.now))) }
    ensures within { IfOk result (λ n. n.1 ≤ length item.now) }
{
    let mut cursor = Cursor::new(item, at);
    let count = cursor.four_bytes()?;
    Ok((count, cursor.at()))
}

// Reads the refs from a place on, and the end.
fn read_refs(alloc: Global, held: &Incoming, at: usize, refs: &mut Refs) -> Result<(), ItemFault>
    requires within { at ≤ length held.now.piece }
    requires heads { are_heads held.now.objects (with_refs [] refs.old) ≡ true }
    requires distinct { AreDistinct refs.old }
    ensures refs { MatchResult result
        (λ _. refs_step held.now.objects (with_refs [] refs.old) (spot_at at held.now.piece)
        ≡ Ok (with_refs [] refs.new))
        (λ stop. IsStop stop (refs_step held.now.objects (with_refs [] refs.old) (spot_at at held.now.piece))) }
    ensures heads { OnOk result (are_heads held.now.objects (with_refs [] refs.new) ≡ true) }
    ensures distinct { OnOk result (AreDistinct refs.new) }
{
    let mut cursor = Cursor::new(held.piece(), at);
    let count = cursor.four_bytes()?;
    set_refs(alloc, &mut cursor, held, count, refs)?;
    cursor.ended()
}

// Reads objects and refs from a place on, and the end.
fn read_change(
    alloc: Global,
    objects: &mut Objects,
    refs: &mut Refs,
    at: usize,
) -> Result<(), ItemFault>
    requires within { at ≤ length objects.old.incoming.piece }
    requires held { HoldsObjects objects.old }
    requires heads { are_heads objects.old.incoming.objects (with_refs [] refs.old) ≡ true }
    requires distinct { AreDistinct refs.old }
    ensures change { MatchResult result
        (λ _. objects_step objects.old.incoming.objects (with_refs [] refs.old)
        (spot_at at objects.old.incoming.piece) ≡ Ok (objects.new.incoming.objects, with_refs [] refs.new))
        (λ stop. IsStop stop (objects_step objects.old.incoming.objects (with_refs [] refs.old)
        (spot_at at objects.old.incoming.piece))) }
    ensures held { OnOk result (HoldsObjects objects.new) }
    ensures heads { OnOk result (are_heads objects.new.incoming.objects (with_refs [] refs.new) ≡ true) }
    ensures distinct { OnOk result (AreDistinct refs.new) }
{
    let (count, begin) = count_at(objects.incoming.piece(), at)?;
    objects.reserve(begin, count)?;
    let end = objects.read(alloc, begin, count)?;
    read_refs(alloc, &objects.incoming, end, refs)
}

// Reads refs and tags from a place on, and the end.
fn read_tags(
    alloc: Global,
    held: &Incoming,
    at: usize,
    refs: &mut Refs,
    tags: &mut Vec<Tag>,
) -> Result<(), ItemFault>
    requires within { at ≤ length held.now.piece }
    requires heads { are_heads held.now.objects (with_refs [] refs.old) ≡ true }
    requires distinct { AreDistinct refs.old }
    ensures tags { MatchResult result
        (λ _. tags_step held.now.objects (with_refs [] refs.old) tags.old.items (spot_at at held.now.piece)
        ≡ Ok (with_refs [] refs.new, tags.new.items))
        (λ stop. IsStop stop (tags_step held.now.objects (with_refs [] refs.old) tags.old.items
        (spot_at at held.now.piece))) }
    ensures heads { OnOk result (are_heads held.now.objects (with_refs [] refs.new) ≡ true) }
    ensures distinct { OnOk result (AreDistinct refs.new) }
{
    let mut cursor = Cursor::new(held.piece(), at);
    let count = cursor.four_bytes()?;
    set_refs(alloc, &mut cursor, held, count, refs)?;
    let count = cursor.four_bytes()?;
    set_tags(alloc, &mut cursor, held, count, tags)?;
    cursor.ended()
}

// Reads objects, refs and tags from a place on, and the end.
fn read_tagged(
    alloc: Global,
    objects: &mut Objects,
    refs: &mut Refs,
    tags: &mut Vec<Tag>,
    at: usize,
) -> Result<(), ItemFault>
    requires within { at ≤ length objects.old.incoming.piece }
    requires held { HoldsObjects objects.old }
    requires heads { are_heads objects.old.incoming.objects (with_refs [] refs.old) ≡ true }
    requires distinct { AreDistinct refs.old }
    ensures change { MatchResult result
        (λ _. tagged_step objects.old.incoming.objects (with_refs [] refs.old) tags.old.items
        (spot_at at objects.old.incoming.piece)
        ≡ Ok (objects.new.incoming.objects, with_refs [] refs.new, tags.new.items))
        (λ stop. IsStop stop (tagged_step objects.old.incoming.objects (with_refs [] refs.old) tags.old.items
        (spot_at at objects.old.incoming.piece))) }
    ensures held { OnOk result (HoldsObjects objects.new) }
    ensures heads { OnOk result (are_heads objects.new.incoming.objects (with_refs [] refs.new) ≡ true) }
    ensures distinct { OnOk result (AreDistinct refs.new) }
{
    let (count, begin) = count_at(objects.incoming.piece(), at)?;
    objects.reserve(begin, count)?;
    let end = objects.read(alloc, begin, count)?;
    read_tags(alloc, &objects.incoming, end, refs, tags)
}

// Reads kept projections of a rule from a place on, and the end.
fn read_kept_at(
    alloc: Global,
    held: &Incoming,
    at: usize,
    rule: Rule,
    kept: &mut KeptMaps,
) -> Result<(), ItemFault>
    requires { at ≤ length held.now.piece }
    ensures { MatchResult result
        (λ _. kept_maps held.now.objects (rule_number rule) kept.old (spot_at at held.now.piece) ≡ Ok kept.new)
        (λ stop. IsStop stop (kept_maps held.now.objects (rule_number rule) kept.old
        (spot_at at held.now.piece))) }
{
    let mut cursor = Cursor::new(held.piece(), at);
    read_kept(alloc, &mut cursor, held, rule, kept)
}

// Reads a rule and its kept projections from a place on, and the end.
fn read_kept_by_rule(
    alloc: Global,
    held: &Incoming,
    at: usize,
    kept: &mut KeptMaps,
) -> Result<(), ItemFault>
    requires { at ≤ length held.now.piece }
    ensures { MatchResult result
        (λ _. kept_by_rule held.now.objects kept.old (spot_at at held.now.piece) ≡ Ok kept.new)
        (λ stop. IsStop stop (kept_by_rule held.now.objects kept.old (spot_at at held.now.piece))) }
{
    let mut cursor = Cursor::new(held.piece(), at);
    let rule = rule_field(&mut cursor)?;
    read_kept(alloc, &mut cursor, held, rule, kept)
}

// Reads a rule from a place on, and the end.
fn read_rule(item: &[u8], at: usize) -> Result<Rule, ItemFault>
    requires { at ≤ length item.now }
    ensures { MatchResult result
        (λ rule. rule_end (spot_at at item.now) ≡ Ok (rule_number rule))
        (λ stop. IsStop stop (rule_end (spot_at at item.now))) }
{
    let mut cursor = Cursor::new(item, at);
    let rule = rule_field(&mut cursor)?;
    cursor.ended()?;
    Ok(rule)
}

// Reads an item behind its start.
fn read_part(
    alloc: Global,
    from: Start,
    objects: &mut Objects,
    refs: &mut Refs,
    kept: &mut KeptMaps,
    rule: &mut Rule,
    tags: &mut Vec<Tag>,
) -> Result<(), ItemFault>
    requires within { from.at ≤ length objects.old.incoming.piece }
    requires held { HoldsObjects objects.old }
    requires heads { are_heads objects.old.incoming.objects (with_refs [] refs.old) ≡ true }
    requires distinct { AreDistinct refs.old }
    ensures part { let p = parts_of objects.old.incoming.objects refs.old kept.old (rule_number rule.old)
        tags.old.items in
        MatchResult result
        (λ _. part_step p (kind_value from.kind) (spot_at from.at objects.old.incoming.piece)
        ≡ Ok (parts_of objects.new.incoming.objects refs.new kept.new (rule_number rule.new) tags.new.items))
        (λ stop. IsStop stop (part_step p (kind_value from.kind) (spot_at from.at objects.old.incoming.piece))) }
    ensures held { OnOk result (HoldsObjects objects.new) }
    ensures heads { OnOk result (are_heads objects.new.incoming.objects (with_refs [] refs.new) ≡ true) }
    ensures distinct { OnOk result (AreDistinct refs.new) }
{
    let at = from.at;
    match from.kind {
        ItemKind::Change => read_change(alloc, objects, refs, at),
        ItemKind::OldKept => read_kept_at(alloc, &objects.incoming, at, Rule::One, kept),
        ItemKind::Kept => read_kept_by_rule(alloc, &objects.incoming, at, kept),
        ItemKind::NewRule => {
            *rule = read_rule(objects.incoming.piece(), at)?;
            Ok(())
        }
        ItemKind::Tagged => read_tagged(alloc, objects, refs, tags, at),
    }
}

// Reads the item that the piece is.
#[tactic(auto, unfolding(crate::specs::Steps::item_step))]
fn read_parts(
    alloc: Global,
    objects: &mut Objects,
    refs: &mut Refs,
    kept: &mut KeptMaps,
    rule: &mut Rule,
    tags: &mut Vec<Tag>,
) -> Result<(), ItemFault>
    requires held { HoldsObjects objects.old }
    requires heads { are_heads objects.old.incoming.objects (with_refs [] refs.old) ≡ true }
    requires distinct { AreDistinct refs.old }
    ensures parts { let p = parts_of objects.old.incoming.objects refs.old kept.old (rule_number rule.old)
        tags.old.items in
        MatchResult result
        (λ _. item_step p objects.old.incoming.piece
        ≡ Ok (parts_of objects.new.incoming.objects refs.new kept.new (rule_number rule.new) tags.new.items))
        (λ stop. IsStop stop (item_step p objects.old.incoming.piece)) }
    ensures held { OnOk result (HoldsObjects objects.new) }
    ensures heads { OnOk result (are_heads objects.new.incoming.objects (with_refs [] refs.new) ≡ true) }
    ensures distinct { OnOk result (AreDistinct refs.new) }
{
    let from = start_of_item(objects.incoming.piece())?;
    read_part(alloc, from, objects, refs, kept, rule, tags)
}

impl Reading {
    /// Nothing is read yet, and the piece is empty.
    pub fn new(alloc: Global) -> Reading
        ensures holds { Holds nothing result }
        ensures piece { result.piece ≡ [] }
    {
        Reading {
            objects: Objects::new(alloc),
            refs: Refs::new(alloc),
            kept: KeptMaps::new(alloc),
            rule: Rule::One,
            tags: Vec::new(alloc),
            alloc,
        }
    }

    /// Takes memory for so many bytes of items at once.
    pub fn reserve(&mut self, bytes: usize) -> Result<(), AllocError>
        ensures { self.new ≡ self.old }
    {
        self.objects.incoming.reserve(bytes)
    }

    /// Begins a piece of so many zeros, into which an item is written.
    pub fn begin(&mut self, size: usize) -> Result<(), AllocError>
        ensures ok { OnOk result (self.new ≡ with_piece self.old (replicate size 0)) }
        ensures err { OnErr result (self.new ≡ self.old) }
    {
        self.objects.incoming.begin(size)
    }

    pub fn piece(&self) -> &[u8]
        ensures { result.now ≡ self.now.piece }
    {
        self.objects.incoming.piece()
    }

    /// The piece, to be written.
    pub fn piece_mut(&mut self) -> &mut [u8]
        ensures* lends { sem 𝓛 (LendsPiece self.entry result) }
        ensures piece { result.now ≡ self.old.piece }
    {
        let objects = &mut self.objects;
        let incoming = &mut objects.incoming;
        incoming.piece_mut()
    }

    /// Reads the item that the piece is; then the piece is empty. After an error the reading is of no more use.
    pub fn read_item(&mut self) -> Result<(), ItemFault>
        requires { HoldsSomething self.old }
        ensures item { (h : Held) → Holds h self.old → MatchResult result
            (λ _. (g : Held) × (read_item h self.old.piece ≡ Ok g) × Holds g self.new)
            (λ stop. IsStop stop (read_item h self.old.piece)) }
        ensures piece { self.new.piece ≡ [] }
    {
        let read = read_parts(
            self.alloc,
            &mut self.objects,
            &mut self.refs,
            &mut self.kept,
            &mut self.rule,
            &mut self.tags,
        );
        self.objects.incoming.close();
        read
    }

    /// All that was read.
    pub fn finish(self) -> Loaded
        ensures store { result.store ≡ self.objects }
        ensures names { map name_bytes result.names.keys ≡ self.names }
        ensures graph { result.graph ≡ self.rows }
        ensures blobs { map name_bytes result.blobs.keys ≡ self.blobs }
        ensures refs { result.refs ≡ self.refs }
        ensures kept { result.kept ≡ self.maps }
        ensures rule { rule_number result.rule ≡ self.rule }
        ensures tags { result.tags.items ≡ self.tags }
    {
        let Reading {
            objects,
            refs,
            kept,
            rule,
            tags,
            alloc: _,
        } = self;
        let Objects {
            incoming,
            names,
            graph,
            blobs,
        } = objects;
        Loaded {
            store: incoming.finish(),
            names,
            graph,
            blobs,
            refs,
            kept,
            rule,
            tags,
        }
    }
}
