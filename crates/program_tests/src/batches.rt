// A batch on one store, and what a stop at each call of its disk leaves. An entry is acknowledged when its reply is
// written. How many are when a call of the disk is made is seen in a run in which that call fails.
ghost use Rattle.std.specs.Prelude.{◌≤◌, IfOk};

use crate::calls::{BATCH, FIRST, PUSHED, SECOND, THIRD, sink};
use crate::stops::{Told, leaves_state, outcome_of};
use proj_cli::outcome_code;
use proj_disk::MemDisk;
use proj_io::MemSink;
use proj_journal::Journal;
use std::alloc::{AllocError, Global};
use std::test::Fail;

// The lines in front of an entry's input, the input, and the reply. Each entry appends one item.
const ENTRIES: [(&[u8], &[u8], &[u8]); 4] = [
    (
        b"import\nbytes 103\n",
        FIRST,
        b"status 0\nbytes 57\nrefs/heads/main 5990ba6163d77f77071ca2e8e9899c368dbc6eb7\n\n",
    ),
    (
        b"import\nbytes 161\n",
        SECOND,
        b"status 0\nbytes 57\nrefs/heads/main 592cd3665c8a2250cf7988e22686ce308524df8c\n\n",
    ),
    (
        b"import\nbytes 216\n",
        THIRD,
        b"status 0\nbytes 57\nrefs/heads/main fcfc493607bfc8dbf616768af28cd698dfb8108a\n\n",
    ),
    (
        b"push refs/heads/main :/a\nbytes 143\n",
        PUSHED,
        b"status 0\nbytes 82\n\
1874e2958230748a7df8ec4183ceee812267435e c0087f5ed9a3c59cccefdc3ba1fe9cbbb5ab8376\n\n",
    ),
];

// What is told after each number of the entries.
const STATES: [Option<Told>; 5] = [
    None,
    Some(Told {
        head: b"5990ba6163d77f77071ca2e8e9899c368dbc6eb7\n",
        tags: b"",
    }),
    Some(Told {
        head: b"592cd3665c8a2250cf7988e22686ce308524df8c\n",
        tags: b"",
    }),
    Some(Told {
        head: b"fcfc493607bfc8dbf616768af28cd698dfb8108a\n",
        tags: b"v1 91441b133ff576ee75d55a9d00a96487d8c2bca4\n",
    }),
    Some(Told {
        head: b"c0087f5ed9a3c59cccefdc3ba1fe9cbbb5ab8376\n",
        tags: b"v1 91441b133ff576ee75d55a9d00a96487d8c2bca4\n",
    }),
];

// The reply to an entry at which the store fails. It is the last one.
const FAULT: &[u8] = b"status 24\nbytes 0\n\n";

// How a run of the batch ended, what it wrote, the disk, and how many calls of that had been made before the run.
#[derive(Drop)]
struct Ran {
    status: u8,
    out: MemSink,
    disk: MemDisk,
    before: u64,
}

// The input that the entries are.
fn batch_input(alloc: Global) -> Result<Vec<u8>, AllocError> {
    let mut input = Vec::new(alloc);
    for (lines, bytes, _) in &ENTRIES {
        input.extend_from_slice(lines)?;
        input.extend_from_slice(bytes)?;
        input.push(b'\n')?;
    }
    Ok(input)
}

// The replies to the first so many entries.
fn replies(alloc: Global, number: usize) -> Result<Vec<u8>, AllocError> {
    let mut written = Vec::new(alloc);
    for (_, _, reply) in ENTRIES.iter().take(number) {
        written.extend_from_slice(reply)?;
    }
    Ok(written)
}

// Runs the batch on a journal without items. The calls of the disk that are numbered in `failing` fail.
fn run_batch(alloc: Global, failing: Vec<u64>) -> Result<Ran, Fail> {
    let Ok(mut journal) = Journal::create(alloc, MemDisk::new(alloc, Vec::new(alloc), failing))
    else {
        return Err(Fail::from("no journal"));
    };
    let before = journal.disk().calls();
    let mut out = sink(alloc);
    let outcome = outcome_of(alloc, &mut journal, BATCH, &batch_input(alloc)?, &mut out)?;
    Ok(Ran {
        status: outcome_code(&outcome),
        out,
        disk: journal.into_disk(),
        before,
    })
}

// Whether these are the replies to the first so many entries, and that to one at which the store fails.
fn is_cut(alloc: Global, written: &[u8], number: usize) -> Result<bool, AllocError> {
    let mut replies = replies(alloc, number)?;
    replies.extend_from_slice(FAULT)?;
    Ok(written == replies.as_slice())
}

// How many entries were acknowledged when the disk had made so many calls. The next one fails.
fn acknowledged(alloc: Global, calls: u64) -> Result<usize, Fail> {
    let cut = run_batch(alloc, [calls].to_vec(alloc)?)?;
    if cut.status != 24 {
        return Err(Fail::from("no store fault"));
    }
    replied(alloc, cut.out.bytes())
}

// How many entries have these replies, of a batch at which the store fails.
fn replied(alloc: Global, written: &[u8]) -> Result<usize, Fail> {
    for number in 0..4usize {
        if is_cut(alloc, written, number)? {
            return Ok(number);
        }
    }
    Err(Fail::from("other replies"))
}

// How many calls the disk had made, from `before` on, when first more than so many entries were acknowledged. When it
// had made all its calls, each entry was.
fn reply_moment(alloc: Global, disk: &MemDisk, before: u64, number: usize) -> Result<u64, Fail>
    ensures { IfOk result (λ calls. calls ≤ disk.now.calls) }
{
    for calls in before..disk.calls() {
        if acknowledged(alloc, calls)? > number {
            return Ok(calls);
        }
    }
    Ok(disk.calls())
}

#[test]
fn each_image_has_the_acknowledged_entries(rt: HostRuntime) -> Result<(), Fail> {
    let alloc = rt.alloc();
    let whole = run_batch(alloc, Vec::new(alloc))?;
    assert!(rt; whole.status == 0);
    assert!(rt; is_whole(alloc, whole.out.bytes())?);
    each_image(alloc, &whole)
}

// Whether these are the replies to all entries.
fn is_whole(alloc: Global, written: &[u8]) -> Result<bool, AllocError> {
    Ok(written == replies(alloc, 4)?.as_slice())
}

// Fails with the number of an entry of which a stop leaves another state than its reply lets it.
fn each_image(alloc: Global, whole: &Ran) -> Result<(), Fail> {
    let mut before = whole.before;
    for number in 0..4usize {
        let after = reply_moment(alloc, &whole.disk, before, number)?;
        if !leaves_state(alloc, &whole.disk, before, after, &STATES, number)? {
            return Err(Fail::new(number));
        }
        before = after;
    }
    Ok(())
}
