// A keeper of items.
ghost use Rattle.std.specs.Prelude.{◌≡◌, ◌<◌, ◌≤◌, ◌+◌, ◌-◌, ◌^◌, ◌⊎◌, ◌↔◌};
ghost use Rattle.std.specs.Prelude.{List, ℕ, length, take, drop, Option};
ghost use Rattle.std.specs.Prelude.{IfOk, OnOk, IfSome, IsErr, IsErrOf, IsSome, MatchResult};
ghost use Rattle.git_objects.specs.declared.limits.TheConstants.{ITEM_BYTES, ITEMS};
ghost use Rattle.proj_io.specs.Counts.{Counts};
ghost use Rattle.proj_io.specs.Items.{Stays, Gets, item_of, joined};
ghost use Rattle.proj_io.specs.Stops.{OnlyAdds, Nothing, IsPresent, IsBeforeOrAfter};

use crate::Failed;

/// Why a keeper doesn't say that it has added an item.
#[derive(Clone, Copy, Debug, PartialEq, Eq)]
pub enum KeepError {
    /// The keeper failed. The item may be there or not, and the keeper has to be opened again.
    Failed,
    /// There was no memory, and nothing has changed.
    OutOfMemory,
}

/// Where items are kept: lists of 1 to `ITEM_BYTES` bytes, at most `ITEMS` of them, numbered from 0. Its count of
/// faults is a u64 that stays at its last value.
pub trait Keeper {
    /// Whether it tells its items. No call changes that.
    ghost tells: { Self → Type 0 };

    /// Its items, where they are known.
    ghost items: { Self → Option (List (List ℕ)) };

    /// How many they are, which is always known.
    ghost number: { Self → ℕ };

    /// How often it has failed.
    ghost faults: { Self → ℕ };

    /// Whether a call may be made. After a failed append none may be.
    ghost is_open: { Self → Type 0 };

    /// The moment, a number that doesn't fall.
    ghost moment: { Self → ℕ };

    /// The lists of items that a stop at some moment from that one on may leave, where this is told: during a call or
    /// between two.
    ghost left_since: { Self → ℕ → List (List ℕ) → Type 0 };

    /// The number of items.
    fn count(&mut self) -> Result<u32, Failed>
        requires { is_open self.old }
        ensures number { IfOk result (λ n. n ≡ number self.old) }
        ensures same { number self.new ≡ number self.old }
        ensures items { Stays (items self.old) (items self.new) }
        ensures is_open { is_open self.new }
        ensures told { tells self.new ↔ tells self.old }
        ensures stops { OnlyAdds (moment self.old) (moment self.new) (left_since self.old)
            (left_since self.new) Nothing }
        ensures cause { Counts (faults self.old) (faults self.new) (IsErr result) };

    /// The length of an item in bytes, 0 where there is no such item.
    fn size(&mut self, item: u32) -> Result<u32, Failed>
        requires { is_open self.old }
        ensures size { IfOk result (λ n. IfSome (items self.old) (λ all. n ≡ length (item_of all item))) }
        ensures none { IfOk result (λ n. number self.old ≤ item → n ≡ 0) }
        ensures same { number self.new ≡ number self.old }
        ensures items { Stays (items self.old) (items self.new) }
        ensures is_open { is_open self.new }
        ensures told { tells self.new ↔ tells self.old }
        ensures stops { OnlyAdds (moment self.old) (moment self.new) (left_since self.old)
            (left_since self.new) Nothing }
        ensures cause { Counts (faults self.old) (faults self.new) (IsErr result) };

    /// Puts the item's bytes from a place on at the front of the buffer, and says how many these are.
    fn read(&mut self, item: u32, from: u32, buf: &mut [u8]) -> Result<usize, Failed>
        requires { is_open self.old }
        ensures bound { IfOk result (λ n. n ≤ length buf.old) }
        ensures bytes { IfOk result (λ n. IfSome (items self.old) (λ all.
            take n buf.new ≡ take (length buf.old) (drop from (item_of all item)))) }
        ensures rest { IfOk result (λ n. drop n buf.new ≡ drop n buf.old) }
        ensures none { IfOk result (λ n. number self.old ≤ item → n ≡ 0) }
        ensures same { number self.new ≡ number self.old }
        ensures items { Stays (items self.old) (items self.new) }
        ensures is_open { is_open self.new }
        ensures told { tells self.new ↔ tells self.old }
        ensures stops { OnlyAdds (moment self.old) (moment self.new) (left_since self.old)
            (left_since self.new) Nothing }
        ensures cause { Counts (faults self.old) (faults self.new) (IsErr result) };

    /// Adds an item behind the others.
    fn append(&mut self, bytes: &[u8]) -> Result<(), KeepError>
        requires is_open { is_open self.old }
        requires some { 0 < length bytes.now }
        requires size { length bytes.now ≤ ITEM_BYTES }
        requires room { number self.old < ITEMS }
        ensures number { OnOk result (number self.new ≡ number self.old + 1) }
        ensures items { OnOk result (Gets (items self.old) (items self.new) bytes.now) }
        ensures failed { IsErrOf result KeepError.Failed →
            ((number self.new ≡ number self.old) × Stays (items self.old) (items self.new))
            ⊎ ((number self.new ≡ number self.old + 1) × Gets (items self.old) (items self.new) bytes.now) }
        ensures memory { IsErrOf result KeepError.OutOfMemory →
            (number self.new ≡ number self.old) × Stays (items self.old) (items self.new) }
        ensures closed { IsErrOf result KeepError.Failed → ¬ is_open self.new }
        ensures is_open { MatchResult result
            (λ _. is_open self.new)
            (λ error. error ≡ KeepError.OutOfMemory → is_open self.new) }
        ensures told { tells self.new ↔ tells self.old }
        // A stop at any moment of the call leaves the items without the new one or with it.
        ensures stops { OnlyAdds (moment self.old) (moment self.new) (left_since self.old) (left_since self.new)
            (IsBeforeOrAfter (items self.old) bytes.now) }
        ensures stops_memory { IsErrOf result KeepError.OutOfMemory →
            OnlyAdds (moment self.old) (moment self.new) (left_since self.old) (left_since self.new)
            (IsPresent (items self.old)) }
        ensures cause { Counts (faults self.old) (faults self.new) (IsErrOf result KeepError.Failed) }
        ensures calm { IsErrOf result KeepError.OutOfMemory → faults self.new ≡ faults self.old };

    /// Adds an item behind the others whose bytes are those of these parts, one part behind another. It does what
    /// `append` does of them; a keeper that writes them as they come needs no buffer of the item's size.
    fn append_parts(&mut self, parts: &[&[u8]]) -> Result<(), KeepError>
        requires is_open { is_open self.old }
        requires some { 0 < length (joined parts.now) }
        requires size { length (joined parts.now) ≤ ITEM_BYTES }
        requires room { number self.old < ITEMS }
        ensures number { OnOk result (number self.new ≡ number self.old + 1) }
        ensures items { OnOk result (Gets (items self.old) (items self.new) (joined parts.now)) }
        ensures failed { IsErrOf result KeepError.Failed →
            ((number self.new ≡ number self.old) × Stays (items self.old) (items self.new))
            ⊎ ((number self.new ≡ number self.old + 1)
            × Gets (items self.old) (items self.new) (joined parts.now)) }
        ensures memory { IsErrOf result KeepError.OutOfMemory →
            (number self.new ≡ number self.old) × Stays (items self.old) (items self.new) }
        ensures closed { IsErrOf result KeepError.Failed → ¬ is_open self.new }
        ensures is_open { MatchResult result
            (λ _. is_open self.new)
            (λ error. error ≡ KeepError.OutOfMemory → is_open self.new) }
        ensures told { tells self.new ↔ tells self.old }
        // A stop at any moment of the call leaves the items without the new one or with it.
        ensures stops { OnlyAdds (moment self.old) (moment self.new) (left_since self.old) (left_since self.new)
            (IsBeforeOrAfter (items self.old) (joined parts.now)) }
        ensures stops_memory { IsErrOf result KeepError.OutOfMemory →
            OnlyAdds (moment self.old) (moment self.new) (left_since self.old) (left_since self.new)
            (IsPresent (items self.old)) }
        ensures cause { Counts (faults self.old) (faults self.new) (IsErrOf result KeepError.Failed) }
        ensures calm { IsErrOf result KeepError.OutOfMemory → faults self.new ≡ faults self.old };

    /// What tells is known.
    ghost known: { (keeper : Self) → tells keeper → IsSome (items keeper) };

    /// The count of faults is a u64.
    ghost in_range: { (keeper : Self) → faults keeper ≤ 2 ^ 64 - 1 };

    /// There are so many items as it says.
    ghost counted: { (keeper : Self) → IfSome (items keeper) (λ all. length all ≡ number keeper) };

    /// Where a call may be made, a stop leaves the items as they are.
    ghost settled: { (keeper : Self) (list : List (List ℕ)) → is_open keeper →
        left_since keeper (moment keeper) list →
        IsPresent (items keeper) list };
}
