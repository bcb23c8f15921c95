// Reading a keeper's items, one after another.
ghost use Rattle.std.specs.Prelude.{◌≡◌, ◌≤◌, ◌+◌, ◌^◌, ◌&&◌, ◌⊎◌, Err, nat_lt, nat_le};
ghost use Rattle.std.specs.Prelude.{IfOk};
ghost use Rattle.std.specs.Prelude.{IfErr, IfSome, IsErr, MatchResult};
ghost use Rattle.git_objects.specs.declared.limits.TheConstants.{ITEM_BYTES, ITEMS, STORE_BYTES};
ghost use Rattle.proj_io.specs.Counts.{Counts};
ghost use Rattle.proj_io.specs.Items.{item_of};
ghost use Rattle.proj_io.specs.Uses.{IsOnlyRead};
ghost use Rattle.state_items.specs.Items.{Held, item_fits, nothing, read_items, read_one};
ghost use Rattle.state_items.specs.Readings.{Holds, HoldsSomething};
ghost use Rattle.repo_ground.specs.Loads.{IsLoadFault};
ghost use Rattle.repo_ground.specs.Steps.{AreRead, IsFetched, IsReadNext, IsUnread, load_error};

use crate::LoadError;
use git_objects::limits::{ITEM_BYTES, ITEMS, STORE_BYTES};
use proj_io::{Failed, Keeper};
use state_items::{ItemFault, Reading};

// Whether an item of so many bytes may stand behind others of so many bytes.
fn item_fits(number: u32, before: u64, size: u32) -> bool
    requires { before ≤ 2 ^ 31 }
    ensures { result ≡ (nat_lt number ITEMS && nat_le size ITEM_BYTES && nat_le (before + size) STORE_BYTES) }
{
    number < ITEMS && size as usize <= ITEM_BYTES && before + size as u64 <= STORE_BYTES
}

// The error of an item that isn't read to its end.
fn load_error(item: u32, fault: ItemFault) -> LoadError
    ensures { result ≡ load_error item fault }
{
    match fault {
        ItemFault::Broken { at } => LoadError::Damaged { item, at },
        ItemFault::Collision { name } => LoadError::Collision { name },
        ItemFault::OutOfMemory => LoadError::OutOfMemory,
    }
}

// The bytes of the first `count` items, as far as a keeper may have so many.
fn total_size<K: Keeper>(keeper: &mut K, count: u32) -> Result<u64, Failed>
    requires { K.is_open keeper.old }
    ensures sum { IfOk result (λ total. total ≤ 2 ^ 31) }
    ensures kept { IsOnlyRead K.items K.number K.is_open K.tells K.moment K.left_since keeper.old keeper.new }
    ensures cause { Counts (K.faults keeper.old) (K.faults keeper.new) (IsErr result) }
{
    let mut total = 0u64;
    for item in 0..count {
        match keeper.size(item) {
            Err(failed) => return Err(failed),
            Ok(size) => {
                if total + size as u64 > STORE_BYTES {
                    return Ok(total);
                }
                total += size as u64;
            }
        }
    }
    Ok(total)
}

/// Takes memory for the first `count` items at once. What was read is as before.
pub(crate) fn reserve_items<K: Keeper>(
    keeper: &mut K,
    count: u32,
    reading: &mut Reading,
) -> Result<(), LoadError>
    requires { K.is_open keeper.old }
    ensures error { IfErr result (λ e. (e ≡ LoadError.StoreFault) ⊎ (e ≡ LoadError.OutOfMemory)) }
    ensures reading { reading.new ≡ reading.old }
    ensures kept { IsOnlyRead K.items K.number K.is_open K.tells K.moment K.left_since keeper.old keeper.new }
    ensures cause { Counts (K.faults keeper.old) (K.faults keeper.new) (result ≡ Err LoadError.StoreFault) }
{
    let total = match total_size(keeper, count) {
        Err(_) => return Err(LoadError::StoreFault),
        Ok(total) => total,
    };
    match reading.reserve(total as usize) {
        Err(_) => Err(LoadError::OutOfMemory),
        Ok(()) => Ok(()),
    }
}

// Writes an item's bytes into the piece, where the item fits, and gives the bytes of the items with it.
fn fetch<K: Keeper>(
    keeper: &mut K,
    number: u32,
    before: u64,
    reading: &mut Reading,
) -> Result<u64, LoadError>
    requires open { K.is_open keeper.old }
    requires before { before ≤ 2 ^ 31 }
    ensures fetched { IfOk result (IsFetched (K.items keeper.old) number before reading.old reading.new) }
    ensures unread { IfSome (K.items keeper.old) (λ all.
        IfErr result (λ e. IsUnread number e (item_fits number before (item_of all number)))) }
    ensures sum { IfOk result (λ now. now ≤ 2 ^ 31) }
    ensures kept { IsOnlyRead K.items K.number K.is_open K.tells K.moment K.left_since keeper.old keeper.new }
    ensures cause { Counts (K.faults keeper.old) (K.faults keeper.new) (result ≡ Err LoadError.StoreFault) }
{
    let size = match keeper.size(number) {
        Err(_) => return Err(LoadError::StoreFault),
        Ok(size) => size,
    };
    if !item_fits(number, before, size) {
        return Err(LoadError::Damaged {
            item: number,
            at: 0,
        });
    }
    if reading.begin(size as usize).is_err() {
        return Err(LoadError::OutOfMemory);
    }
    match keeper.read(number, 0, reading.piece_mut()) {
        Err(_) => Err(LoadError::StoreFault),
        Ok(got) => {
            if got < size as usize {
                Err(LoadError::Damaged {
                    item: number,
                    at: got as u64,
                })
            } else {
                Ok(before + size as u64)
            }
        }
    }
}

// Reads the item of this number behind those that were read, and gives the bytes of the items with it.
fn load_item<K: Keeper>(
    keeper: &mut K,
    number: u32,
    before: u64,
    reading: &mut Reading,
) -> Result<u64, LoadError>
    requires open { K.is_open keeper.old }
    requires before { before ≤ 2 ^ 31 }
    requires holds { HoldsSomething reading.old }
    ensures item { (h : Held) → Holds h reading.old → MatchResult result
        (λ now. IsReadNext (K.items keeper.old) number before h now reading.new)
        (λ e. IfSome (K.items keeper.old) (λ all. IsLoadFault e (read_one number before h (item_of all number)))) }
    ensures sum { IfOk result (λ now. now ≤ 2 ^ 31) }
    ensures kept { IsOnlyRead K.items K.number K.is_open K.tells K.moment K.left_since keeper.old keeper.new }
    ensures cause { Counts (K.faults keeper.old) (K.faults keeper.new) (result ≡ Err LoadError.StoreFault) }
{
    let now = match fetch(keeper, number, before, reading) {
        Err(e) => return Err(e),
        Ok(now) => now,
    };
    match reading.read_item() {
        Err(fault) => Err(load_error(number, fault)),
        Ok(()) => Ok(now),
    }
}

/// Reads all items of a keeper, which are `count`, and gives their bytes together.
pub(crate) fn load_items<K: Keeper>(
    keeper: &mut K,
    count: u32,
    reading: &mut Reading,
) -> Result<u64, LoadError>
    requires open { K.is_open keeper.old }
    requires count { count ≡ K.number keeper.old }
    requires nothing { Holds nothing reading.old }
    ensures read { MatchResult result
        (λ size. AreRead (K.items keeper.old) count size reading.new)
        (λ e. IfSome (K.items keeper.old) (λ all. IsLoadFault e (read_items all))) }
    ensures kept { IsOnlyRead K.items K.number K.is_open K.tells K.moment K.left_since keeper.old keeper.new }
    ensures cause { Counts (K.faults keeper.old) (K.faults keeper.new) (result ≡ Err LoadError.StoreFault) }
{
    let mut size = 0;
    for number in 0..count {
        match load_item(keeper, number, size, reading) {
            Err(e) => return Err(e),
            Ok(now) => size = now,
        }
    }
    Ok(size)
}
