// The program on a disk.
ghost use Rattle.std.specs.Prelude.{◌≡◌, ◌≢◌, ◌≤◌, ◌⊎◌, [], ℕ, List, map, string_bytes};
ghost use Rattle.std.specs.Prelude.{true, false, Some, IfErr, IfOk, IsErr, MatchResult};
ghost use Rattle.fast_import.specs.Waited.{TakesWithin};
ghost use Rattle.proj_io.specs.Counts.{Counts};
ghost use Rattle.proj_io.specs.Stops.{OnlyAdds, Nothing};
ghost use Rattle.proj_io.specs.Views.{sink_view};
ghost use Rattle.proj_disk.specs.Disks.{DiskView};
ghost use Rattle.proj_journal.specs.Journals.{IsOpen, ListsLeft, disk_of, items_of};
ghost use Rattle.proj_journal.specs.Spelling.{listed};
ghost use Rattle.proj_words.specs.Words.{Unknown, command, reads};
ghost use Rattle.proj_cli.specs.Answers.{GetsText};
ghost use Rattle.proj_commands.specs.Cases.{is_one, verdict};
ghost use Rattle.proj_commands.specs.Inputs.{ForInput};
ghost use Rattle.proj_cli.specs.Stopped.{OnlyGrows};
ghost use Rattle.proj_cli.specs.Served.{HasList, IsBegun, IsOnlyOpened, IsServed, IsSteady, IsWhole, KeepsBytes};
ghost use Rattle.proj_cli.specs.Served.{LeavesKind, LeavesList, LeavesWhole, SaysWhy, error_code, error_text, seen};

use crate::deliver::{tell, tell_plain};
use crate::program::run;
use itoa::Buffer;
use proj_disk::Disk;
use proj_io::{Sink, Source};
use proj_journal::{Journal, JournalError, NoJournal};
use proj_words::{Outcome, outcome_code};
use std::alloc::{AllocError, Global};

/// How a call ended: the exit status, and the disk.
#[derive(Drop)]
pub struct Served<D> {
    pub status: u8,
    pub disk: D,
}

// The journal on a disk, a new one where the disk is empty.
fn journal_on<D: Disk>(alloc: Global, disk: D) -> Result<Journal<D>, NoJournal<D>>
    ensures opened { IfOk result (λ journal. IsOpen D.content journal) }
    ensures list { IfOk result (λ _. HasList (D.content disk)) }
    ensures items { IfOk result (λ journal. items_of (D.content (disk_of journal)) ≡ items_of (D.content disk)) }
    ensures fresh { IfOk result (λ journal. IsOnlyOpened (D.content disk) (D.content (disk_of journal))) }
    ensures why { IfErr result (λ none. SaysWhy (D.content disk) none.error) }
    ensures kept { IfErr result (λ none. KeepsBytes (D.content disk) (D.content none.disk)) }
    ensures begun { IfErr result (λ none. IsBegun (D.content disk) (D.content none.disk) none.error) }
    // A stop leaves nothing of a disk that wasn't empty that it wouldn't have left before.
    ensures stops { (view : DiskView) → D.content disk ≡ Some view → view.bytes ≢ [] → MatchResult result
        (λ journal. OnlyAdds (D.moment disk) (D.moment (disk_of journal))
        (D.left_since disk) (D.left_since (disk_of journal)) Nothing)
        (λ none. OnlyAdds (D.moment disk) (D.moment none.disk) (D.left_since disk)
        (D.left_since none.disk) Nothing) }
    ensures cause { MatchResult result
        (λ journal. D.faults disk ≤ D.faults (disk_of journal))
        (λ none. Counts (D.faults disk) (D.faults none.disk) (none.error ≡ JournalError.Failed)) }
{
    let mut disk = disk;
    match disk.len() {
        Err(_) => Err(NoJournal {
            disk,
            error: JournalError::Failed,
        }),
        Ok(count) => {
            if count == 0 {
                Journal::create(alloc, disk)
            } else {
                Journal::open(alloc, disk)
            }
        }
    }
}

// The text of a journal that is broken at a place.
fn broken_text(alloc: Global, at: u64) -> Result<Vec<u8>, AllocError>
    ensures { IfOk result (λ text. text.items ≡ error_text (JournalError.Broken at)) }
{
    let mut text = b"damaged: journal at ".to_vec(alloc)?;
    let mut buffer = Buffer::new();
    text.extend_from_slice(buffer.format(at).as_bytes())?;
    text.push(b'\n')?;
    Ok(text)
}

/// Writes why there is no journal, and answers what was written: where there is no memory for the text of a broken one,
/// it is that.
pub fn tell_error<E: Sink>(alloc: Global, error: JournalError, err: &mut E) -> JournalError
    ensures error { (result ≡ error) ⊎ ((result ≡ JournalError.OutOfMemory) ×
        ((at : ℕ) × (error ≡ JournalError.Broken at))) }
    ensures text { let seen = sink_view E.written E.faults E.refusals in GetsText (seen err.old) (seen err.new)
        (error_text result) }
{
    match error {
        JournalError::Failed => tell_plain(&Outcome::StoreFault, err),
        JournalError::OutOfMemory => tell_plain(&Outcome::OutOfMemory, err),
        JournalError::Broken { at } => match broken_text(alloc, at) {
            Ok(text) => tell(&text, err),
            Err(_) => {
                tell_plain(&Outcome::OutOfMemory, err);
                return JournalError::OutOfMemory;
            }
        },
    }
    error
}

/// The exit status where there is no journal.
pub fn error_code(error: JournalError) -> u8
    ensures { result ≡ error_code error }
{
    match error {
        JournalError::Failed => 24,
        JournalError::Broken { at: _ } => 25,
        JournalError::OutOfMemory => 1,
    }
}

/// Runs the command that the words ask for over the journal on the disk, which is made where the disk is empty. The
/// status is the number of its outcome.
///
/// Where there is no journal, `input` and `out` are untouched, a disk that wasn't empty has the bytes that it had, and
/// `err` gets one text: `store fault` with status 24 where the disk failed, `damaged: journal at` and the place with
/// status 25 where its bytes are no journal's, and `out of memory` with status 1.
pub fn serve<S: Source, O: Sink, E: Sink, D: Disk>(
    alloc: Global,
    words: &[String],
    input: &mut S,
    out: &mut O,
    err: &mut E,
    disk: D,
) -> Served<D>
    // The words were run, with the list that the bytes spell as the items at entry and the list on the disk handed
    // back as the items after; or there was no journal.
    ensures served { let at = seen S.left S.faults O.written O.faults O.refusals E.written E.faults E.refusals
        D.content D.faults in
        IsServed (command (map (λ word. string_bytes word) words.now))
        ((input.new ≡ input.old) × (out.new ≡ out.old))
        (at input.old out.old err.old disk) (at input.new out.new err.new result.disk) result.status }
    // At most 2^29 bytes of the input are taken, and one more.
    ensures within { TakesWithin (S.left input.old) (S.left input.new) }
    // A form that doesn't read leaves the input, and so does a command whose filter is refused; for words without a
    // form nothing is written.
    ensures unread { reads (command (map (λ word. string_bytes word) words.now)) ≡ false →
        input.new ≡ input.old }
    ensures unjudged { let asked = command (map (λ word. string_bytes word) words.now) in
        is_one asked ≡ true → IsErr (verdict asked) → input.new ≡ input.old }
    ensures idle { command (map (λ word. string_bytes word) words.now) ≡ Unknown → out.new ≡ out.old }
    // Of a disk of which no stop at entry leaves a broken journal, a stop at any moment since leaves none: it leaves a
    // list that a stop at entry might have left, or the list that the bytes spell, or this with the command's item
    // behind it.
    ensures stops { let asked = command (map (λ word. string_bytes word) words.now) in
        (view : DiskView) → D.content disk ≡ Some view → IsWhole view → ForInput (S.left input.old) (λ all.
        (image : List ℕ) → D.left_since result.disk (D.moment disk) image →
        LeavesWhole asked all view image) }
    // Where a stop at entry leaves the list that the bytes spell, it is this or this with the item.
    ensures steady { let asked = command (map (λ word. string_bytes word) words.now) in
        (view : DiskView) → D.content disk ≡ Some view → IsSteady view → ForInput (S.left input.old) (λ all.
        (image : List ℕ) → D.left_since result.disk (D.moment disk) image →
        LeavesList asked all (listed view.bytes) image) }
    // Unless the store failed, which has status 24, the list that the bytes spell at entry is there still, with others
    // behind it or none. Of a disk of which no stop at entry leaves a broken journal, a stop at any moment since leaves
    // a list that a stop at entry might have left, or one that is between the two: the first is in front of it, and it
    // is a front of the list on the disk handed back. Since a moment before the call a disk that wasn't empty leaves a
    // list that it might have left then, or one between the two.
    ensures fronts { (view : DiskView) → D.content disk ≡ Some view → result.status ≢ 24 →
        OnlyGrows (listed view.bytes) (items_of (D.content result.disk)) (λ Between. (IsWhole view →
        (image : List ℕ) → D.left_since result.disk (D.moment disk) image → LeavesKind Between view image) ×
        (view.bytes ≢ [] → OnlyAdds (D.moment disk) (D.moment result.disk) (ListsLeft (D.left_since disk))
        (ListsLeft (D.left_since result.disk)) Between)) }
{
    match journal_on(alloc, disk) {
        Ok(mut journal) => {
            let outcome = run(alloc, words, input, out, err, &mut journal);
            Served {
                status: outcome_code(&outcome),
                disk: journal.into_disk(),
            }
        }
        Err(none) => {
            let error = tell_error(alloc, none.error, err);
            Served {
                status: error_code(error),
                disk: none.disk,
            }
        }
    }
}
