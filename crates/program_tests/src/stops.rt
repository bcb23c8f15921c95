// Six commands on one store, and what a stop at each call of its disk leaves.
ghost use Rattle.std.specs.Prelude.{◌≡◌, ◌≢◌, ◌<◌, ◌≤◌, true, Some, IfOk};
ghost use Rattle.proj_disk.specs.MemDisks.{MemDiskState, view_of};
ghost use Rattle.proj_journal.specs.Journals.{IsOpen};

use crate::calls::{
    FIRST, IMPORT, PROJECT, PUSH, PUSHED, RULE, SECOND, TAGS, THIRD, WHOLE, sink, source, strings,
};
use crate::serving::{disk_of, served};
use proj_cli::{Outcome, run};
use proj_disk::{Fill, MemDisk};
use proj_io::{Keeper, MemSink};
use proj_journal::Journal;
use std::alloc::{AllocError, Global};
use std::test::Fail;

// Each appends one item: objects and a ref, of the third import a tag too, a rule, or kept projections.
const COMMANDS: [(&[&str], &[u8]); 6] = [
    (IMPORT, FIRST),
    (IMPORT, SECOND),
    (RULE, b""),
    (IMPORT, THIRD),
    (PROJECT, b""),
    (PUSH, PUSHED),
];

// What is told of a state: the name that Git gives the ref's commit, and those that it gives the tags' objects.
#[derive(Clone, Copy)]
pub(crate) struct Told {
    pub(crate) head: &'static [u8],
    pub(crate) tags: &'static [u8],
}

const ONE: Told = Told {
    head: b"5990ba6163d77f77071ca2e8e9899c368dbc6eb7\n",
    tags: b"",
};

const TWO: Told = Told {
    head: b"592cd3665c8a2250cf7988e22686ce308524df8c\n",
    tags: b"",
};

const THREE: Told = Told {
    head: b"fcfc493607bfc8dbf616768af28cd698dfb8108a\n",
    tags: b"v1 91441b133ff576ee75d55a9d00a96487d8c2bca4\n",
};

const PUSHED_THEN: Told = Told {
    head: b"c0087f5ed9a3c59cccefdc3ba1fe9cbbb5ab8376\n",
    tags: b"v1 91441b133ff576ee75d55a9d00a96487d8c2bca4\n",
};

// What is told after each number of the commands. At first there is no ref.
const STATES: [Option<Told>; 7] = [
    None,
    Some(ONE),
    Some(TWO),
    Some(TWO),
    Some(THREE),
    Some(THREE),
    Some(PUSHED_THEN),
];

// What a stop leaves of writes that weren't synced.
const FILLS: [Fill; 3] = [Fill::Old, Fill::Written, Fill::Ones];

// Runs a command, and says how it ended.
pub(crate) fn outcome_of<K: Keeper>(
    alloc: Global,
    store: &mut K,
    words: &[&str],
    input: &[u8],
    out: &mut MemSink,
) -> Result<Outcome, AllocError>
    requires { K.is_open store.old }
    ensures { IfOk result (λ outcome. outcome ≢ Outcome.StoreFault → K.is_open store.new) }
{
    let words = strings(alloc, words)?;
    let mut input = source(alloc, input)?;
    let mut err = sink(alloc);
    Ok(run(alloc, &words, &mut input, out, &mut err, store))
}

// Runs a command, and says whether it is done.
fn is_done(
    alloc: Global,
    journal: &mut Journal<MemDisk>,
    words: &[&str],
    input: &[u8],
) -> Result<bool, AllocError>
    requires { IsOpen (λ (s : MemDiskState). Some (view_of s)) journal.old }
    ensures { IfOk result (λ done. done ≡ true → IsOpen (λ (s : MemDiskState). Some (view_of s)) journal.new) }
{
    match outcome_of(alloc, journal, words, input, &mut sink(alloc))? {
        Outcome::Done => Ok(true),
        _ => Ok(false),
    }
}

// How many items the journal on a disk has, if there is one.
fn item_count(alloc: Global, disk: MemDisk) -> Option<u32> {
    Journal::open(alloc, disk).ok()?.count().ok()
}

// Whether the program, on a disk with these bytes, tells this of the ref; or where that is nothing, that there is none.
fn tells(
    alloc: Global,
    bytes: &[u8],
    words: &[&str],
    told: Option<&[u8]>,
) -> Result<bool, AllocError> {
    let answer = served(alloc, disk_of(alloc, bytes)?, words, b"")?;
    Ok(answer.tells(told))
}

// Whether a disk with these bytes has the state after so many commands.
fn has_state(
    alloc: Global,
    bytes: &[u8],
    states: &[Option<Told>],
    number: usize,
) -> Result<bool, AllocError> {
    match (
        item_count(alloc, disk_of(alloc, bytes)?),
        states.get(number),
    ) {
        (Some(count), Some(state)) if count as usize == number => {
            let head = state.map(|told| told.head);
            let tags = state.map(|told| told.tags);
            Ok(tells(alloc, bytes, WHOLE, head)? && tells(alloc, bytes, TAGS, tags)?)
        }
        _ => Ok(false),
    }
}

// Whether a stop behind the first so many calls leaves the state after so many commands.
fn leaves(
    alloc: Global,
    disk: &MemDisk,
    calls: u64,
    fill: Fill,
    states: &[Option<Told>],
    number: usize,
) -> Result<bool, AllocError>
    requires { calls ≤ disk.now.calls }
{
    has_state(alloc, &disk.image(calls, fill)?, states, number)
}

// Whether a stop leaves the state after so many commands where the disk had made `before` calls, the state after one
// more where it had made `after` calls, and one of the two in between. The states are those after each number of
// commands.
pub(crate) fn leaves_state(
    alloc: Global,
    disk: &MemDisk,
    before: u64,
    after: u64,
    states: &[Option<Told>],
    number: usize,
) -> Result<bool, AllocError>
    requires calls { after ≤ disk.now.calls }
    requires number { number < 6 }
{
    for calls in before..=after {
        for fill in FILLS {
            let is_earlier = calls < after && leaves(alloc, disk, calls, fill, states, number)?;
            let is_later = calls > before && leaves(alloc, disk, calls, fill, states, number + 1)?;
            if !is_earlier && !is_later {
                return Ok(false);
            }
        }
    }
    Ok(true)
}

#[test]
fn each_image_has_the_acknowledged_commands(rt: HostRuntime) -> Result<(), Fail> {
    let alloc = rt.alloc();
    let disk = MemDisk::new(alloc, Vec::new(alloc), Vec::new(alloc));
    let Ok(mut journal) = Journal::create(alloc, disk) else {
        return Err(Fail::from("no journal"));
    };
    for number in 0..6usize {
        assert!(rt; runs_on(alloc, &mut journal, number)?, "{number}");
    }
    Ok(())
}

// Whether the next command is done, and a stop during it leaves the state before it or the one behind it.
fn runs_on(alloc: Global, journal: &mut Journal<MemDisk>, number: usize) -> Result<bool, AllocError>
    requires open { IsOpen (λ (s : MemDiskState). Some (view_of s)) journal.old }
    requires number { number < 6 }
    ensures { IfOk result (λ done. done ≡ true → IsOpen (λ (s : MemDiskState). Some (view_of s)) journal.new) }
{
    let (words, input) = &COMMANDS[number];
    let before = journal.disk().calls();
    if !is_done(alloc, journal, words, input)? {
        return Ok(false);
    }
    let (disk, after) = (journal.disk(), journal.disk().calls());
    leaves_state(alloc, disk, before, after, &STATES, number)
}
