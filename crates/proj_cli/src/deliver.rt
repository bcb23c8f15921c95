// Writing reports, and the texts of outcomes.
ghost use Rattle.std.specs.Prelude.{◌≡◌, ◌≤◌, ◌⊎◌, ◌+◌, ◌++◌, length, drop, IsErr, true};
ghost use Rattle.std.specs.List.{flat_map};
ghost use Rattle.proj_io.specs.Counts.{Counts};
ghost use Rattle.proj_io.specs.Views.{sink_view};
ghost use Rattle.proj_words.specs.Entries.{reply_text};
ghost use Rattle.proj_words.specs.Outcomes.{is_plain, text_of};
ghost use Rattle.proj_cli.specs.Answers.{GetsText};
ghost use Rattle.proj_cli.specs.Sent.{IsConcluded, IsSent, TakesMemory, reply_head};

use git_objects::Bytes;
use itoa::write_digits;
use proj_io::{Sink, SinkError, write_whole};
use proj_words::{Outcome, outcome_code, outcome_text, plain_text};
use std::alloc::Global;

// Writes a report.
fn deliver<O: Sink>(report: &[u8], out: &mut O) -> Outcome
    ensures sent { let seen = sink_view O.written O.faults O.refusals in IsSent result report.now (seen out.old)
        (seen out.new) }
    ensures cause { Counts (O.faults out.old) (O.faults out.new) (result ≡ Outcome.WriteFault) }
    ensures memory { O.refusals out.old ≤ O.refusals out.new }
{
    match write_whole(out, report) {
        Ok(()) => Outcome::Done,
        Err(SinkError::Failed) => Outcome::WriteFault,
        Err(SinkError::OutOfMemory) => Outcome::OutOfMemory,
    }
}

/// Writes the report that was made, and nothing after a refusal.
pub fn conclude<O: Sink>(made: Result<Bytes, Outcome>, out: &mut O) -> Outcome
    ensures concluded { let seen = sink_view O.written O.faults O.refusals in IsConcluded made (seen out.old)
        (seen out.new) result }
    ensures same { IsErr made → out.new ≡ out.old }
{
    match made {
        Ok(report) => deliver(report.bytes(), out),
        Err(outcome) => outcome,
    }
}

// Writes pieces one after another.
fn deliver_all<O: Sink>(pieces: &[&[u8]], out: &mut O) -> Outcome
    ensures sent { let seen = sink_view O.written O.faults O.refusals in
        IsSent result (flat_map (λ piece. piece.now) pieces.now) (seen out.old) (seen out.new) }
    ensures cause { Counts (O.faults out.old) (O.faults out.new) (result ≡ Outcome.WriteFault) }
    ensures memory { O.refusals out.old ≤ O.refusals out.new }
{
    for piece in pieces {
        match deliver(piece, out) {
            Outcome::Done => {}
            outcome => return outcome,
        }
    }
    Outcome::Done
}

// What stands before the output of a reply takes as many bytes at most: `status `, 3 digits, `\nbytes `, 20 digits and
// an LF.
const HEAD_BYTES: usize = 38;

// Writes a word so that it ends at `end`, and returns where it starts.
fn put_before(word: &[u8], buffer: &mut [u8], end: usize) -> usize
    requires word { length word.now ≤ end }
    requires end { end ≤ length buffer.old }
    ensures start { result + length word.now ≡ end }
    ensures length { length buffer.new ≡ length buffer.old }
    ensures written { drop result buffer.new ≡ word.now ++ drop end buffer.old }
{
    let start = end - word.len();
    buffer[start..end].copy_from_slice(word);
    start
}

// Writes what stands before the output of a reply at the end of a buffer, and returns where it starts.
fn put_head(outcome: &Outcome, len: u64, buffer: &mut [u8]) -> usize
    requires { length buffer.old ≡ 38 }
    ensures start { result ≤ length buffer.new }
    ensures written { drop result buffer.new ≡ reply_head outcome.now len }
{
    let end = put_before(b"\n", buffer, HEAD_BYTES);
    let end = write_digits(len, buffer, end);
    let end = put_before(b"\nbytes ", buffer, end);
    let end = write_digits(u64::from(outcome_code(outcome)), buffer, end);
    put_before(b"status ", buffer, end)
}

/// Writes the reply to an entry of a batch: the number of its outcome, and its output. These are at most three pieces,
/// and it takes no memory.
pub(crate) fn write_reply<O: Sink>(outcome: &Outcome, output: &[u8], out: &mut O) -> Outcome
    ensures sent { let seen = sink_view O.written O.faults O.refusals in
        IsSent result (reply_text outcome.now output.now) (seen out.old) (seen out.new) }
    ensures cause { Counts (O.faults out.old) (O.faults out.new) (result ≡ Outcome.WriteFault) }
    ensures memory { O.refusals out.old ≤ O.refusals out.new }
{
    let mut buffer = [0u8; HEAD_BYTES];
    let start = put_head(outcome, output.len() as u64, &mut buffer);
    let (_, head) = buffer.split_at(start);
    deliver_all(&[head, output, b"\n"], out)
}

/// Writes a text as far as the sink takes it.
pub fn tell<E: Sink>(text: &[u8], err: &mut E)
    ensures { let seen = sink_view E.written E.faults E.refusals in GetsText (seen err.old) (seen err.new) text.now }
{
    let _ = write_whole(err, text);
}

/// Writes the text of an outcome that needs no memory for it.
pub(crate) fn tell_plain<E: Sink>(outcome: &Outcome, err: &mut E)
    requires { is_plain outcome.now ≡ true }
    ensures { let seen = sink_view E.written E.faults E.refusals in GetsText (seen err.old) (seen err.new)
        (text_of outcome.now) }
{
    match plain_text(outcome) {
        Some(text) => tell(text, err),
        None => unreachable!(),
    }
}

/// Writes the outcome's text. Where there is no memory for it, the outcome is that.
pub fn finish<E: Sink>(alloc: Global, outcome: Outcome, err: &mut E) -> Outcome
    ensures outcome { (result ≡ outcome) ⊎ ((result ≡ Outcome.OutOfMemory) × TakesMemory outcome) }
    ensures text { let seen = sink_view E.written E.faults E.refusals in GetsText (seen err.old) (seen err.new)
        (text_of result) }
{
    if let Some(text) = plain_text(&outcome) {
        tell(text, err);
        return outcome;
    }
    match outcome_text(alloc, &outcome) {
        Ok(text) => {
            tell(&text, err);
            outcome
        }
        Err(_) => {
            tell_plain(&Outcome::OutOfMemory, err);
            Outcome::OutOfMemory
        }
    }
}
