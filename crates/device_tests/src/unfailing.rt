// What the devices in memory that never fail answer to generic code.
ghost use Rattle.std.specs.Prelude.{◌≡◌, ◌<◌, ◌≤◌, ◌+◌, length, IfOk, OnOk, IsErrOf};
ghost use Rattle.git_objects.specs.declared.limits.TheConstants.{ITEM_BYTES, ITEMS};
ghost use Rattle.proj_io.specs.Counts.{Counts};

use git_objects::Bytes;
use memory_devices::{ByteSink, ItemCounter, SliceSource};
use proj_io::{KeepError, Keeper, ReadError, SinkError, read_up_to, write_whole};
use std::alloc::Global;
use std::test::Fail;

// Three bytes, or fewer, of a source. No fault is answered.
fn front(alloc: Global, text: &[u8]) -> Result<Bytes, ReadError>
    ensures no_fault { ¬ (IsErrOf result ReadError.Fault) }
{
    let mut source = SliceSource::new(text);
    match read_up_to(alloc, &mut source, 3) {
        Ok(taken) => Ok(taken.bytes),
        Err(error) => Err(error),
    }
}

// Two pieces, as a sink has them. No fault is answered.
fn joined(alloc: Global, first: &[u8], second: &[u8]) -> Result<Bytes, SinkError>
    ensures no_fault { ¬ (IsErrOf result SinkError.Failed) }
{
    let mut sink = ByteSink::new(alloc);
    write_whole(&mut sink, first)?;
    write_whole(&mut sink, second)?;
    Ok(sink.into_bytes())
}

// Adds an item twice, the second time as one part.
fn add_twice<K: Keeper>(keeper: &mut K, item: &[u8]) -> Result<(), KeepError>
    requires is_open { K.is_open keeper.old }
    requires some { 0 < length item.now }
    requires size { length item.now ≤ ITEM_BYTES }
    requires room { K.number keeper.old + 1 < ITEMS }
    ensures is_open { OnOk result (K.is_open keeper.new) }
    ensures number { OnOk result (K.number keeper.new ≡ K.number keeper.old + 2) }
    ensures cause { Counts (K.faults keeper.old) (K.faults keeper.new) (IsErrOf result KeepError.Failed) }
{
    keeper.append(item)?;
    keeper.append_parts(&[item])?;
    Ok(())
}

// A counter of two items. No fault is answered.
fn two(item: &[u8]) -> Result<ItemCounter, KeepError>
    requires some { 0 < length item.now }
    requires size { length item.now ≤ ITEM_BYTES }
    ensures number { IfOk result (λ counter. counter ≡ 2) }
    ensures no_fault { ¬ (IsErrOf result KeepError.Failed) }
{
    let mut counter = ItemCounter::new();
    add_twice(&mut counter, item)?;
    Ok(counter)
}

// Whether two items are counted.
fn counts_two(item: &[u8]) -> bool
    requires some { 0 < length item.now }
    requires size { length item.now ≤ ITEM_BYTES }
{
    match two(item) {
        Ok(mut counter) => counter.count() == Ok(2),
        Err(_) => false,
    }
}

// A text, and its front of three bytes or fewer.
const FRONTS: [(&[u8], &[u8]); 3] = [(b"abcd", b"abc"), (b"abc", b"abc"), (b"", b"")];

#[test]
fn generic_code_gets_to_its_end_over_each(rt: HostRuntime) -> Result<(), Fail> {
    let alloc = rt.alloc();
    for (text, want) in &FRONTS {
        assert!(rt; matches!(front(alloc, text), Ok(bytes) if bytes.bytes() == *want));
    }
    assert!(rt;
        matches!(joined(alloc, b"ab", b"c"), Ok(bytes) if bytes.bytes() == b"abc".as_slice())
    );
    assert!(rt; counts_two(b"item"));
    Ok(())
}
