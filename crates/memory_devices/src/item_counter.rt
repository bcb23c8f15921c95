// A keeper that keeps nothing but the number of its items.
ghost use Rattle.std.specs.Prelude.{◌≡◌, ◌<◌, ◌≤◌, ◌+◌, ◌⊎◌, ◌↔◌, ℕ, length};
ghost use Rattle.std.specs.Prelude.{take, drop, None, Ok, IfOk, OnOk, IfSome, IsErr, IsErrOf, MatchResult, ⊤};
ghost use Rattle.git_objects.specs.declared.limits.TheConstants.{ITEM_BYTES, ITEMS};
ghost use Rattle.proj_io.specs.Counts.{Counts};
ghost use Rattle.proj_io.specs.Items.{Stays, Gets, item_of, joined};
ghost use Rattle.proj_io.specs.Stops.{OnlyAdds, Nothing, Untold, IsPresent, IsBeforeOrAfter};
ghost use Rattle.memory_devices.specs.Turns.{in_range};

use proj_io::{Failed, KeepError, Keeper};
use std::marker::Model;

/// The number of the items that were added. It keeps none of their bytes, and gives none.
#[derive(Drop)]
pub struct ItemCounter {
    number: u32,
}

impl Model for ItemCounter {
    ghost use Rattle.std.specs.Prelude.{ℕ};

    ghost Value = { ℕ };

    ghost view = { λ k. k.number };
}

impl ItemCounter {
    /// A counter of no items. It takes no memory.
    pub fn new() -> ItemCounter
        ensures { result ≡ 0 }
    {
        ItemCounter { number: 0 }
    }

    fn add_one(&mut self)
        requires { self.old < ITEMS }
        ensures { self.new ≡ self.old + 1 }
    {
        self.number += 1;
    }
}

impl Keeper for ItemCounter {
    ghost tells = { λ _. ⊥ };

    ghost items = { λ _. None };

    ghost number = { λ k. k };

    ghost faults = { λ _. 0 };

    ghost is_open = { λ _. ⊤ };

    ghost moment = { λ _. 0 };

    // What a stop would leave isn't told.
    ghost left_since = { λ _. Untold };

    ghost known = { λ _ told. absurd told };

    ghost in_range = { λ _. in_range };

    ghost counted = { λ _. tt };

    ghost settled = { λ _ _ _ left. absurd left };

    fn count(&mut self) -> Result<u32, Failed>
        requires { ⊤ }
        ensures number { IfOk result (λ n. n ≡ self.old) }
        ensures same { self.new ≡ self.old }
        ensures items { Stays None None }
        ensures is_open { ⊤ }
        ensures told { ⊥ ↔ ⊥ }
        ensures stops { OnlyAdds 0 0 Untold Untold Nothing }
        ensures cause { Counts 0 0 (IsErr result) }
        ensures answer { result ≡ Ok self.old }
    {
        Ok(self.number)
    }

    /// Always 0, also for an item that was added.
    fn size(&mut self, item: u32) -> Result<u32, Failed>
        requires { ⊤ }
        ensures size { IfOk result (λ n. IfSome None (λ all. n ≡ length (item_of all item))) }
        ensures none { IfOk result (λ n. self.old ≤ item → n ≡ 0) }
        ensures same { self.new ≡ self.old }
        ensures items { Stays None None }
        ensures is_open { ⊤ }
        ensures told { ⊥ ↔ ⊥ }
        ensures stops { OnlyAdds 0 0 Untold Untold Nothing }
        ensures cause { Counts 0 0 (IsErr result) }
        ensures answer { result ≡ Ok 0 }
    {
        Ok(0)
    }

    /// Gives no byte, also of an item that was added.
    fn read(&mut self, item: u32, from: u32, buf: &mut [u8]) -> Result<usize, Failed>
        requires { ⊤ }
        ensures bound { IfOk result (λ n. n ≤ length buf.old) }
        ensures bytes { IfOk result (λ n. IfSome None (λ all.
            take n buf.new ≡ take (length buf.old) (drop from (item_of all item)))) }
        ensures rest { IfOk result (λ n. drop n buf.new ≡ drop n buf.old) }
        ensures none { IfOk result (λ n. self.old ≤ item → n ≡ 0) }
        ensures same { self.new ≡ self.old }
        ensures items { Stays None None }
        ensures is_open { ⊤ }
        ensures told { ⊥ ↔ ⊥ }
        ensures stops { OnlyAdds 0 0 Untold Untold Nothing }
        ensures cause { Counts 0 0 (IsErr result) }
        ensures answer { result ≡ Ok 0 }
    {
        Ok(0)
    }

    fn append(&mut self, bytes: &[u8]) -> Result<(), KeepError>
        requires is_open { ⊤ }
        requires some { 0 < length bytes.now }
        requires size { length bytes.now ≤ ITEM_BYTES }
        requires room { self.old < ITEMS }
        ensures number { OnOk result (self.new ≡ self.old + 1) }
        ensures items { OnOk result (Gets None None bytes.now) }
        ensures failed { IsErrOf result KeepError.Failed →
            ((self.new ≡ self.old) × Stays None None) ⊎ ((self.new ≡ self.old + 1) × Gets None None bytes.now) }
        ensures memory { IsErrOf result KeepError.OutOfMemory → (self.new ≡ self.old) × Stays None None }
        ensures closed { IsErrOf result KeepError.Failed → ¬ ⊤ }
        ensures is_open { MatchResult result (λ _. ⊤) (λ error. error ≡ KeepError.OutOfMemory → ⊤) }
        ensures told { ⊥ ↔ ⊥ }
        ensures stops { OnlyAdds 0 0 Untold Untold (IsBeforeOrAfter None bytes.now) }
        ensures stops_memory { IsErrOf result KeepError.OutOfMemory → OnlyAdds 0 0 Untold Untold (IsPresent None) }
        ensures cause { Counts 0 0 (IsErrOf result KeepError.Failed) }
        ensures calm { IsErrOf result KeepError.OutOfMemory → ◌≡◌ {A = ℕ} 0 0 }
        ensures done { result ≡ Ok tt }
    {
        self.add_one();
        Ok(())
    }

    fn append_parts(&mut self, parts: &[&[u8]]) -> Result<(), KeepError>
        requires is_open { ⊤ }
        requires some { 0 < length (joined parts.now) }
        requires size { length (joined parts.now) ≤ ITEM_BYTES }
        requires room { self.old < ITEMS }
        ensures number { OnOk result (self.new ≡ self.old + 1) }
        ensures items { OnOk result (Gets None None (joined parts.now)) }
        ensures failed { IsErrOf result KeepError.Failed →
            ((self.new ≡ self.old) × Stays None None)
            ⊎ ((self.new ≡ self.old + 1) × Gets None None (joined parts.now)) }
        ensures memory { IsErrOf result KeepError.OutOfMemory → (self.new ≡ self.old) × Stays None None }
        ensures closed { IsErrOf result KeepError.Failed → ¬ ⊤ }
        ensures is_open { MatchResult result (λ _. ⊤) (λ error. error ≡ KeepError.OutOfMemory → ⊤) }
        ensures told { ⊥ ↔ ⊥ }
        ensures stops { OnlyAdds 0 0 Untold Untold (IsBeforeOrAfter None (joined parts.now)) }
        ensures stops_memory { IsErrOf result KeepError.OutOfMemory → OnlyAdds 0 0 Untold Untold (IsPresent None) }
        ensures cause { Counts 0 0 (IsErrOf result KeepError.Failed) }
        ensures calm { IsErrOf result KeepError.OutOfMemory → ◌≡◌ {A = ℕ} 0 0 }
        ensures done { result ≡ Ok tt }
    {
        self.add_one();
        Ok(())
    }
}
