// A keeper in memory. Which call fails is decided by its number alone.
ghost use Rattle.std.specs.Prelude.{◌≡◌, ◌==◌, ◌<◌, ◌≤◌, ◌+◌, ◌^◌, ◌⊎◌, ◌↔◌};
ghost use Rattle.std.specs.Prelude.{◌++◌, [], ◌∷◌, List, ℕ, min, length};
ghost use Rattle.std.specs.Prelude.{take, drop, All, find, true, false, Option, Some, None, IfOk, OnOk, OnErr};
ghost use Rattle.std.specs.Prelude.{IfSome, IsErr, IsErrOf, MatchResult, ⊤, refl};
ghost use Rattle.git_objects.specs.declared.limits.TheConstants.{ITEM_BYTES, ITEMS};
ghost use Rattle.proj_io.specs.Counts.{Counts, held, held_bound, one_more};
ghost use Rattle.proj_io.specs.Items.{Stays, Gets, item_of, joined};
ghost use Rattle.proj_io.specs.Kept.{entry_of, KeeperTurn, AppendTurn};
ghost use Rattle.proj_io.specs.Stops.{OnlyAdds, Nothing, Untold, IsPresent, IsBeforeOrAfter};

use crate::memory::copy_front;
use crate::{Failed, KeepError, Keeper};
use git_objects::Bytes;
use std::alloc::{AllocError, Global};
use std::marker::Model;

/// A call that fails.
#[derive(Clone, Copy, Debug, PartialEq, Eq)]
pub struct Failing {
    /// The number of the call.
    pub call: u64,
    /// Whether the item is left there, if the call is an append.
    pub landed: bool,
}

/// A keeper in memory. Its calls are numbered from 0, and the number stays at its last value.
#[derive(Drop)]
pub struct MemKeeper {
    alloc: Global,
    items: Vec<Bytes>,
    failing: Vec<Failing>,
    calls: u64,
    faults: u64,
    broken: bool,
}

impl Model for MemKeeper {
    ghost use Rattle.std.specs.Prelude.{◌≤◌, ◌^◌, length, All, List, ℕ};
    ghost use Rattle.git_objects.specs.declared.limits.TheConstants.{ITEM_BYTES, ITEMS};
    ghost use Rattle.proj_io.specs.Kept.{KeeperState};

    ghost Value = { KeeperState };

    ghost view = { λ s. record {
      items = s.items.items;
      failing = s.failing.items;
      calls = s.calls;
      faults = s.faults;
      broken = s.broken;
    } };

    ghost invariant = { λ s. (length s.items.items ≤ ITEMS)
        × All (λ item. length item ≤ ITEM_BYTES) s.items.items };
}

impl MemKeeper {
    /// An empty keeper. The calls numbered in `failing` fail; the first entry of a number counts.
    pub fn new(alloc: Global, failing: Vec<Failing>) -> MemKeeper
        ensures { result ≡ record {
          items = [];
          failing = failing.items;
          calls = 0;
          faults = 0;
          broken = false;
        } }
    {
        MemKeeper {
            alloc,
            items: Vec::new(alloc),
            failing,
            calls: 0,
            faults: 0,
            broken: false,
        }
    }

    /// Its items, in the order in which they were added.
    pub fn items(&self) -> &[Bytes]
        ensures { result.now ≡ self.now.items }
    {
        &self.items
    }

    /// How often a call of it has failed.
    pub fn faults(&self) -> u64
        ensures { result ≡ self.now.faults }
    {
        self.faults
    }

    /// The keeper, opened again. The numbers of its calls and its count of faults go on.
    pub fn reopen(mut self) -> MemKeeper
        ensures { result ≡ record self { broken = false } }
    {
        self.broken = false;
        self
    }

    // Numbers this call, and answers its entry.
    fn next_call(&mut self) -> Option<Failing>
        ensures entry { result ≡ entry_of self.old }
        ensures numbered { self.new ≡ record self.old { calls = one_more self.old.calls } }
    {
        let entry = failing_at(&self.failing, self.calls);
        self.calls = self.calls.saturating_add(1);
        entry
    }

    // Numbers a call that isn't an append, and counts it where it fails.
    fn check_call(&mut self) -> Result<(), Failed>
        ensures turn { KeeperTurn self.old self.new result }
        ensures counted { Counts (held self.old.faults) (held self.new.faults) (IsErr result) }
    {
        if self.next_call().is_none() {
            return Ok(());
        }
        self.faults = self.faults.saturating_add(1);
        Err(Failed)
    }
}

impl Keeper for MemKeeper {
    ghost tells = { λ _. ⊤ };

    ghost items = { λ k. Some k.items };

    ghost number = { λ k. length k.items };

    ghost faults = { λ k. held k.faults };

    ghost is_open = { λ k. k.broken ≡ false };

    ghost moment = { λ _. 0 };

    // What a stop would leave isn't told.
    ghost left_since = { λ _. Untold };

    ghost known = { λ _ _. refl };

    ghost in_range = { λ k. held_bound k.faults };

    ghost counted = { λ _. refl };

    ghost settled = { λ _ _ _ left. absurd left };

    fn count(&mut self) -> Result<u32, Failed>
        requires { self.old.broken ≡ false }
        ensures number { IfOk result (λ n. n ≡ length self.old.items) }
        ensures same { length self.new.items ≡ length self.old.items }
        ensures items { Stays (Some self.old.items) (Some self.new.items) }
        ensures is_open { self.new.broken ≡ false }
        ensures told { ⊤ ↔ ⊤ }
        ensures stops { OnlyAdds 0 0 Untold Untold Nothing }
        ensures cause { Counts (held self.old.faults) (held self.new.faults) (IsErr result) }
        ensures turn { KeeperTurn self.old self.new result }
    {
        self.check_call()?;
        Ok(self.items.len() as u32)
    }

    fn size(&mut self, item: u32) -> Result<u32, Failed>
        requires { self.old.broken ≡ false }
        ensures size { IfOk result (λ n. IfSome (Some self.old.items) (λ all. n ≡ length (item_of all item))) }
        ensures none { IfOk result (λ n. length self.old.items ≤ item → n ≡ 0) }
        ensures same { length self.new.items ≡ length self.old.items }
        ensures items { Stays (Some self.old.items) (Some self.new.items) }
        ensures is_open { self.new.broken ≡ false }
        ensures told { ⊤ ↔ ⊤ }
        ensures stops { OnlyAdds 0 0 Untold Untold Nothing }
        ensures cause { Counts (held self.old.faults) (held self.new.faults) (IsErr result) }
        ensures turn { KeeperTurn self.old self.new result }
    {
        self.check_call()?;
        Ok(item_bytes(&self.items, item).len() as u32)
    }

    fn read(&mut self, item: u32, from: u32, buf: &mut [u8]) -> Result<usize, Failed>
        requires { self.old.broken ≡ false }
        ensures bound { IfOk result (λ n. n ≤ length buf.old) }
        ensures bytes { IfOk result (λ n. IfSome (Some self.old.items) (λ all.
            take n buf.new ≡ take (length buf.old) (drop from (item_of all item)))) }
        ensures rest { IfOk result (λ n. drop n buf.new ≡ drop n buf.old) }
        ensures none { IfOk result (λ n. length self.old.items ≤ item → n ≡ 0) }
        ensures same { length self.new.items ≡ length self.old.items }
        ensures items { Stays (Some self.old.items) (Some self.new.items) }
        ensures is_open { self.new.broken ≡ false }
        ensures told { ⊤ ↔ ⊤ }
        ensures stops { OnlyAdds 0 0 Untold Untold Nothing }
        ensures cause { Counts (held self.old.faults) (held self.new.faults) (IsErr result) }
        ensures turn { KeeperTurn self.old self.new result }
        ensures kept { OnErr result (buf.new ≡ buf.old) }
    {
        self.check_call()?;
        let bytes = item_bytes(&self.items, item);
        let from = bytes.len().min(from as usize);
        Ok(copy_front(&bytes[from..], buf, usize::MAX))
    }

    fn append(&mut self, bytes: &[u8]) -> Result<(), KeepError>
        requires is_open { self.old.broken ≡ false }
        requires some { 0 < length bytes.now }
        requires size { length bytes.now ≤ ITEM_BYTES }
        requires room { length self.old.items < ITEMS }
        ensures number { OnOk result (length self.new.items ≡ length self.old.items + 1) }
        ensures items { OnOk result (Gets (Some self.old.items) (Some self.new.items) bytes.now) }
        ensures failed { IsErrOf result KeepError.Failed →
            ((length self.new.items ≡ length self.old.items) × Stays (Some self.old.items) (Some self.new.items))
            ⊎ ((length self.new.items ≡ length self.old.items + 1)
            × Gets (Some self.old.items) (Some self.new.items) bytes.now) }
        ensures memory { IsErrOf result KeepError.OutOfMemory →
            (length self.new.items ≡ length self.old.items) × Stays (Some self.old.items) (Some self.new.items) }
        ensures closed { IsErrOf result KeepError.Failed → ¬ (self.new.broken ≡ false) }
        ensures is_open { MatchResult result
            (λ _. self.new.broken ≡ false)
            (λ error. error ≡ KeepError.OutOfMemory → self.new.broken ≡ false) }
        ensures told { ⊤ ↔ ⊤ }
        ensures stops { OnlyAdds 0 0 Untold Untold (IsBeforeOrAfter (Some self.old.items) bytes.now) }
        ensures stops_memory { IsErrOf result KeepError.OutOfMemory →
            OnlyAdds 0 0 Untold Untold (IsPresent (Some self.old.items)) }
        ensures cause { Counts (held self.old.faults) (held self.new.faults) (IsErrOf result KeepError.Failed) }
        ensures calm { IsErrOf result KeepError.OutOfMemory → held self.new.faults ≡ held self.old.faults }
        ensures turn { AppendTurn self.old self.new bytes.now result }
    {
        let entry = self.next_call();
        if add(self.alloc, &mut self.items, bytes).is_err() {
            return Err(KeepError::OutOfMemory);
        }
        let Some(entry) = entry else {
            return Ok(());
        };
        if !entry.landed {
            self.items.pop();
        }
        self.faults = self.faults.saturating_add(1);
        self.broken = true;
        Err(KeepError::Failed)
    }

    fn append_parts(&mut self, parts: &[&[u8]]) -> Result<(), KeepError>
        requires is_open { self.old.broken ≡ false }
        requires some { 0 < length (joined parts.now) }
        requires size { length (joined parts.now) ≤ ITEM_BYTES }
        requires room { length self.old.items < ITEMS }
        ensures number { OnOk result (length self.new.items ≡ length self.old.items + 1) }
        ensures items { OnOk result (Gets (Some self.old.items) (Some self.new.items) (joined parts.now)) }
        ensures failed { IsErrOf result KeepError.Failed →
            ((length self.new.items ≡ length self.old.items) × Stays (Some self.old.items) (Some self.new.items))
            ⊎ ((length self.new.items ≡ length self.old.items + 1)
            × Gets (Some self.old.items) (Some self.new.items) (joined parts.now)) }
        ensures memory { IsErrOf result KeepError.OutOfMemory →
            (length self.new.items ≡ length self.old.items) × Stays (Some self.old.items) (Some self.new.items) }
        ensures closed { IsErrOf result KeepError.Failed → ¬ (self.new.broken ≡ false) }
        ensures is_open { MatchResult result
            (λ _. self.new.broken ≡ false)
            (λ error. error ≡ KeepError.OutOfMemory → self.new.broken ≡ false) }
        ensures told { ⊤ ↔ ⊤ }
        ensures stops { OnlyAdds 0 0 Untold Untold (IsBeforeOrAfter (Some self.old.items) (joined parts.now)) }
        ensures stops_memory { IsErrOf result KeepError.OutOfMemory →
            OnlyAdds 0 0 Untold Untold (IsPresent (Some self.old.items)) }
        ensures cause { Counts (held self.old.faults) (held self.new.faults) (IsErrOf result KeepError.Failed) }
        ensures calm { IsErrOf result KeepError.OutOfMemory → held self.new.faults ≡ held self.old.faults }
        ensures turn { AppendTurn self.old self.new (joined parts.now) result }
    {
        match join_parts(self.alloc, parts) {
            Ok(bytes) => self.append(&bytes),
            Err(_) => {
                self.next_call();
                Err(KeepError::OutOfMemory)
            }
        }
    }
}

// These parts, one behind another.
fn join_parts(alloc: Global, parts: &[&[u8]]) -> Result<Vec<u8>, AllocError>
    ensures { IfOk result (λ bytes. bytes.items ≡ joined parts.now) }
{
    let mut bytes = Vec::new(alloc);
    for part in parts {
        bytes.extend_from_slice(part)?;
    }
    Ok(bytes)
}

// The entry for a call.
fn failing_at(failing: &[Failing], call: u64) -> Option<Failing>
    ensures { result ≡ find (λ entry. entry.call == call) failing.now }
{
    failing.iter().copied().find(|entry| entry.call == call)
}

// The bytes of an item, none where there is no such item.
fn item_bytes(items: &[Bytes], item: u32) -> &[u8]
    ensures bytes { result.now ≡ item_of items.now item }
    ensures none { length items.now ≤ item → length result.now ≡ 0 }
    ensures size { All (λ bytes. length bytes ≤ ITEM_BYTES) items.now → length result.now ≤ ITEM_BYTES }
{
    match items.get(item as usize) {
        Some(bytes) => bytes.bytes(),
        None => &[],
    }
}

// Adds an item.
fn add(alloc: Global, items: &mut Vec<Bytes>, bytes: &[u8]) -> Result<(), AllocError>
    ensures ok { OnOk result (items.new.items ≡ items.old.items ++ bytes.now ∷ []) }
    ensures err { OnErr result (items.new.items ≡ items.old.items) }
{
    let copy = bytes.to_vec(alloc)?;
    items.push(Bytes::of(copy))?;
    Ok(())
}
