// Keeping the projections of the selected filter.
ghost use Rattle.std.specs.Prelude.{◌≡◌, ◌≢◌, ◌≤◌, ◌+◌, ◌*◌, ◌^◌};
ghost use Rattle.std.specs.Prelude.{ℕ, List, true, Err, length};
ghost use Rattle.std.specs.Prelude.{IfOk, IsErrOf, IsSome, OnOk, MatchResult};
ghost use Rattle.std.specs.List.{flat_map};
ghost use Rattle.std.specs.Option.{is_some, option_map};
ghost use Rattle.git_objects.specs.Paths.{Bytes};
ghost use Rattle.commit_graph.specs.Graphs.{Row};
ghost use Rattle.commit_map.specs.Shown.{entry_value, entry_values, kept_at};
ghost use Rattle.state_items.specs.Changes.{passed_by_item, passed_by_objects};
ghost use Rattle.state_items.specs.Writings.{sized};
ghost use Rattle.filter_text.specs.Printing.{printed};
ghost use Rattle.filter_text.specs.Shapes.{shape};
ghost use Rattle.proj_io.specs.Stops.{IsPresent, OnlyAdds};
ghost use Rattle.proj_io.specs.Uses.{IsUsed};
ghost use Rattle.proj_io.specs.Views.{keeper_view};
ghost use Rattle.state_items.specs.Appending.{is_result};
ghost use Rattle.state_items.specs.Items.{Held, entry_text, is_canonical, kept_text};
ghost use Rattle.repo_ground.specs.Changes.{Appends, IsCommitted, IsStopOf, keep_error_result};
ghost use Rattle.repo_ground.specs.Contents.{Spells, SpellsSomething, room_in};
ghost use Rattle.repo_ground.specs.Keeping.{AreFrom, AreNamed, IsItemOf, IsKeepable, IsKeepRefused, keep_plan};
ghost use Rattle.repo_ground.specs.Keeping.{new_entries, new_entry, unheld};

use crate::State;
use commit_map::{CommitMap, Shown};
use filter_text::{Filter, print};
use git_objects::Name;
use proj_io::{KeepError, Keeper};
use state_items::{add_size, first_passed, is_canonical, kept_item};
use std::alloc::AllocError;

impl State {
    /// Appends the entries of the selected filter's map that no item holds, as one item, in the graph's order. It
    /// appends nothing where there are none, where the filter's text isn't one that is read as a sound filter's
    /// canonical text, or where the state would pass a limit. After `Failed` the state is of no more use.
    pub fn keep<K: Keeper>(&mut self, keeper: &mut K, filter: &Filter) -> Result<(), KeepError>
        requires open { K.is_open keeper.old × (self.old.number ≡ K.number keeper.old) }
        requires state { IsKeepable self.old (printed (shape filter.now)) }
        ensures state { (h : Held) → Spells h self.old →
            let p = keep_plan h self.old (printed (shape filter.now)) in
            MatchResult result (λ _. IsCommitted h p self.old self.new) (λ e. IsKeepRefused p self.old self.new e) }
        ensures items { let seen = keeper_view K.items K.number K.faults in (h : Held) → Spells h self.old →
            Appends (keep_plan h self.old (printed (shape filter.now)))
            (seen keeper.old) (seen keeper.new)
            (keep_error_result result) }
        // A stop during the call leaves the items, or these with the plan's item behind them; only the items where
        // there is no memory.
        ensures stops { let adds = OnlyAdds (K.moment keeper.old) (K.moment keeper.new) (K.left_since keeper.old)
            (K.left_since keeper.new) in
            ((h : Held) → Spells h self.old →
            adds (IsStopOf h self.old (keep_plan h self.old (printed (shape filter.now))) (K.items keeper.old)))
            × (IsErrOf result KeepError.OutOfMemory → adds (IsPresent (K.items keeper.old))) }
        ensures used { IsUsed K.faults K.is_open K.tells keeper.old keeper.new (IsErrOf result KeepError.Failed) }
        ensures basis { self.new.basis ≡ self.old.basis }
        ensures named { result ≢ Err KeepError.OutOfMemory → is_canonical (printed (shape filter.now)) ≡ true →
            AreNamed (new_entries self.old) }
    {
        match self.kept_news(filter) {
            Err(_) => Err(KeepError::OutOfMemory),
            Ok(None) => Ok(()),
            Ok(Some(item)) => match keeper.append(&item) {
                Err(error) => Err(error),
                Ok(()) => {
                    self.kept = self.ground.map.len();
                    self.number += 1;
                    self.size += item.len() as u64;
                    Ok(())
                }
            },
        }
    }

    // The item of the entries that are to be kept, if they may be.
    fn kept_news(&self, filter: &Filter) -> Result<Option<Vec<u8>>, AllocError>
        requires spells { SpellsSomething self.now }
        ensures item { IfOk result (λ item. (h : Held) → Spells h self.now →
            IsItemOf h self.now (keep_plan h self.now (printed (shape filter.now))) item) }
        ensures named { OnOk result (is_canonical (printed (shape filter.now)) ≡ true →
            AreNamed (new_entries self.now)) }
    {
        let news = self.news()?;
        if news.is_empty() {
            return Ok(None);
        }
        let text = print(self.alloc, filter)?;
        if !is_canonical(self.alloc, &text)? {
            return Ok(None);
        }
        let size = kept_size(&text, &news);
        if self.is_passed(size) {
            return Ok(None);
        }
        let item = kept_item(self.alloc, self.ground.rule, &text, &news)?;
        Ok(Some(item))
    }

    // The entries of the map that no item holds, in the graph's order.
    fn news(&self) -> Result<Vec<(Name, Option<Shown>)>, AllocError>
        ensures { IfOk result (λ news. entry_values news.items ≡ new_entries self.now) }
    {
        let fresh = self.fresh()?;
        let mut news = Vec::new(self.alloc);
        for place in self.lowest(&fresh)..self.ground.graph.len() {
            let name = self.ground.graph.name(place);
            match self.new_entry(&fresh, name) {
                None => {}
                Some(entry) => news.push(entry)?,
            }
        }
        Ok(news)
    }

    // The entries that no item holds, each commit once.
    fn fresh(&self) -> Result<CommitMap, AllocError>
        ensures { IfOk result (λ fresh. (n : Bytes) → kept_at n fresh ≡ kept_at n (unheld self.now)) }
    {
        let mut fresh = CommitMap::new(self.alloc);
        for i in self.kept..self.ground.map.len() {
            let (original, shown) = self.ground.map.entry(i);
            if fresh.get(&original).is_none() {
                fresh.set(original, shown)?;
            }
        }
        Ok(fresh)
    }

    // A place before which no commit has an entry in `fresh`: the lowest of those that have one, or else how many
    // places there are.
    fn lowest(&self, fresh: &CommitMap) -> u32
        ensures within { result ≤ length self.now.basis.graph }
        ensures before { AreFrom self.now.basis.graph result fresh.now }
    {
        let mut lowest = self.ground.graph.len();
        for i in 0..fresh.len() {
            let (original, _) = fresh.entry(i);
            match self.ground.graph.index_of(&original) {
                None => {}
                Some(place) => {
                    if place < lowest {
                        lowest = place;
                    }
                }
            }
        }
        lowest
    }

    // What the map has of a commit, where no item holds it.
    fn new_entry(&self, fresh: &CommitMap, name: Name) -> Option<(Name, Option<Shown>)>
        requires { (n : Bytes) → kept_at n fresh.now ≡ kept_at n (unheld self.now) }
        ensures { (r : Row) → name.0 ≡ r.name → option_map (λ e. entry_value e) result ≡ new_entry self.now r }
    {
        if fresh.get(&name).is_none() {
            return None;
        }
        match self.ground.map.get(&name) {
            None => None,
            Some(shown) => Some((name, shown)),
        }
    }

    // Whether an item of that length that brings no objects passes a limit.
    fn is_passed(&self, size: Option<usize>) -> bool
        requires spells { SpellsSomething self.now }
        ensures { (h : Held) (bytes : List ℕ) → Spells h self.now → size ≡ sized (length bytes) →
            result ≡ is_some (passed_by_objects h.objects (passed_by_item (room_in self.now) bytes)) }
    {
        let commits = self.ground.graph.len() as usize;
        first_passed(commits, self.held.len(), size, self.number, self.size).is_some()
    }
}

// `size` and the bytes that an item takes for an entry, or None above the limit of an item.
fn add_entry(entry: &(Name, Option<Shown>), size: usize) -> Option<usize>
    requires { size ≤ 2 ^ 29 }
    ensures size { result ≡ sized (size + length (entry_text (entry_value entry.now))) }
    ensures named { is_result (entry_value entry.now).1 ≡ true }
    ensures short { length (entry_text (entry_value entry.now)) ≤ 61 }
{
    let (original, shown) = entry;
    match shown {
        None => add_size(size, original.bytes().len() + 1),
        Some(shown) => add_size(
            size,
            original.bytes().len() + 1 + shown.commit.bytes().len() + shown.tree.bytes().len(),
        ),
    }
}

// `size` and the bytes that an item takes for these entries, or None above the limit of an item.
fn add_entries(entries: &[(Name, Option<Shown>)], size: usize) -> Option<usize>
    requires { size ≤ 2 ^ 29 }
    ensures size { result ≡ sized (size + length (flat_map entry_text (entry_values entries.now))) }
    ensures named { IsSome result → AreNamed (entry_values entries.now) }
    ensures few { size + 61 * length entries.now ≤ 2 ^ 29 → IsSome result }
{
    let mut size = size;
    for entry in entries {
        match add_entry(entry, size) {
            None => return None,
            Some(more) => size = more,
        }
    }
    Some(size)
}

// The length in bytes of the item of these entries, or None above the limit of an item.
#[tactic(auto, unfolding(state_items::specs::Items::kept_text))]
fn kept_size(text: &[u8], entries: &[(Name, Option<Shown>)]) -> Option<usize>
    ensures size { (rule : ℕ) → result ≡ sized (length (kept_text rule text.now (entry_values entries.now))) }
    ensures named { IsSome result → AreNamed (entry_values entries.now) }
    ensures few { 9 + length text.now + 61 * length entries.now ≤ 2 ^ 29 → IsSome result }
{
    match add_size(9, text.len()) {
        None => None,
        Some(size) => add_entries(entries, size),
    }
}
