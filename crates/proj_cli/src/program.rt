// The top call.
ghost use Rattle.std.specs.Prelude.{◌≡◌, ◌≢◌, List, map, string_bytes, Some, Err, IsErr, true, false};
ghost use Rattle.git_objects.specs.Paths.{Bytes};
ghost use Rattle.fast_import.specs.Waited.{TakesWithin};
ghost use Rattle.proj_io.specs.Stops.{OnlyAdds};
ghost use Rattle.proj_io.specs.Views.{source_view, sink_view, keeper_view};
ghost use Rattle.proj_words.specs.Words.{Command as Asked, Unknown, command, is_formed, loads, reads};
ghost use Rattle.proj_words.specs.Views.{command_of};
ghost use Rattle.proj_words.specs.Outcomes.{text_of};
ghost use Rattle.proj_cli.specs.Answers.{GetsText};
ghost use Rattle.proj_cli.specs.Calls.{devices};
ghost use Rattle.proj_commands.specs.Steps.{case};
ghost use Rattle.proj_commands.specs.Cases.{is_one, loaded, verdict};
ghost use Rattle.proj_commands.specs.Forms.{IsMade};
ghost use Rattle.proj_commands.specs.Intake.{TakesUpTo, waited_by};
ghost use Rattle.proj_commands.specs.Judging.{IsJudged, IsSomeJudged};
ghost use Rattle.proj_commands.specs.Inputs.{ForInput};
ghost use Rattle.proj_cli.specs.Runs.{IsAnswer, IsComplete, MayLeave};
ghost use Rattle.proj_cli.specs.Stopped.{OnlyGrows};

use crate::batching::batch;
use crate::deliver::{conclude, finish};
use crate::trying::trial;
use git_objects::Bytes;
use proj_commands::{
    Judged, export_granted, export_loaded, judge, load, name, perform, recall_law, verify_text,
};
use proj_io::{Keeper, Sink, Source};
use proj_words::{Command, Outcome, read_command};
use std::alloc::Global;

// Loads what the store holds, and performs a command upon it.
fn perform_loaded<S: Source, K: Keeper>(
    alloc: Global,
    judged: &Judged,
    input: &mut S,
    store: &mut K,
) -> Result<Bytes, Outcome>
    requires open { K.is_open store.old }
    requires judged { IsSomeJudged judged.now }
    ensures made { let read = source_view S.left S.faults in let kept = keeper_view K.items K.number K.faults in
        (asked : Asked) → IsJudged asked judged.now → loads asked ≡ true →
        IsMade asked (read input.old) (read input.new) (kept store.old) (kept store.new)
        (OnlyAdds (K.moment store.old) (K.moment store.new) (K.left_since store.old) (K.left_since store.new)) result }
    ensures taken { (asked : Asked) (items : List Bytes) → IsJudged asked judged.now →
        K.items store.old ≡ Some items →
        TakesUpTo (waited_by (case asked (loaded items))) (S.left input.old) (S.left input.new) }
    ensures within { TakesWithin (S.left input.old) (S.left input.new) }
    ensures caseless { (asked : Asked) (items : List Bytes) → IsJudged asked judged.now →
        K.items store.old ≡ Some items → ((all : Bytes) → IsErr (case asked (loaded items) all)) →
        input.new ≡ input.old }
    ensures unread { (asked : Asked) → IsJudged asked judged.now → reads asked ≡ false →
        input.new ≡ input.old }
    ensures is_open { result ≢ Err Outcome.StoreFault → K.is_open store.new }
{
    match load(alloc, store) {
        Err(outcome) => Err(outcome),
        Ok(mut state) => perform(alloc, judged, input, &mut state, store),
    }
}

// Performs a judged command, and writes its report.
fn perform_judged<S: Source, O: Sink, K: Keeper>(
    alloc: Global,
    judged: &Judged,
    input: &mut S,
    out: &mut O,
    store: &mut K,
) -> Outcome
    requires open { K.is_open store.old }
    requires judged { IsSomeJudged judged.now }
    ensures answer { let seen = devices S.left S.faults O.written O.faults O.refusals K.items K.number K.faults in
        (asked : Asked) → IsJudged asked judged.now →
        IsAnswer asked (seen input.old out.old store.old) (seen input.new out.new store.new) result }
    ensures adds { (asked : Asked) (items : List Bytes) → IsJudged asked judged.now →
        K.items store.old ≡ Some items → ForInput (S.left input.old) (λ all.
        OnlyAdds (K.moment store.old) (K.moment store.new) (K.left_since store.old) (K.left_since store.new)
        (MayLeave asked items all)) }
    ensures fronts { (items : List Bytes) → K.items store.old ≡ Some items → result ≢ Outcome.StoreFault →
        OnlyGrows items (K.items store.new) (OnlyAdds (K.moment store.old) (K.moment store.new)
        (K.left_since store.old) (K.left_since store.new)) }
    ensures unread { (asked : Asked) → IsJudged asked judged.now → reads asked ≡ false →
        input.new ≡ input.old }
    ensures within { TakesWithin (S.left input.old) (S.left input.new) }
    ensures unloaded { (asked : Asked) → IsJudged asked judged.now → loads asked ≡ false →
        store.new ≡ store.old }
    ensures is_open { result ≢ Outcome.StoreFault → K.is_open store.new }
{
    recall_law();
    match judged {
        Judged::Export(subject) => export_loaded(alloc, subject, false, out, store),
        Judged::ExportTags(subject) => export_loaded(alloc, subject, true, out, store),
        Judged::AsExport(user, subject) => {
            export_granted(alloc, user.bytes(), subject, out, store)
        }
        Judged::Name(subject) => {
            let made = name(alloc, &subject.filter, &subject.refname, input);
            conclude(made, out)
        }
        Judged::Verify(claim) => {
            let made = verify_text(alloc, &claim.commit, &claim.filter, &claim.path, input);
            conclude(made, out)
        }
        _ => {
            let made = perform_loaded(alloc, judged, input, store);
            conclude(made, out)
        }
    }
}

// Judges and performs a command, and writes its report.
fn act<S: Source, O: Sink, K: Keeper>(
    alloc: Global,
    asked: Command<'_>,
    input: &mut S,
    out: &mut O,
    store: &mut K,
) -> Outcome
    requires open { K.is_open store.old }
    requires formed { is_formed (command_of asked) ≡ true }
    ensures answer { let seen = devices S.left S.faults O.written O.faults O.refusals K.items K.number K.faults in
        IsAnswer (command_of asked.entry) (seen input.old out.old store.old) (seen input.new out.new store.new) result }
    ensures adds { (items : List Bytes) → K.items store.old ≡ Some items → ForInput (S.left input.old) (λ all.
        OnlyAdds (K.moment store.old) (K.moment store.new) (K.left_since store.old) (K.left_since store.new)
        (MayLeave (command_of asked.entry) items all)) }
    ensures fronts { (items : List Bytes) → K.items store.old ≡ Some items → result ≢ Outcome.StoreFault →
        OnlyGrows items (K.items store.new) (OnlyAdds (K.moment store.old) (K.moment store.new)
        (K.left_since store.old) (K.left_since store.new)) }
    ensures unread { reads (command_of asked.entry) ≡ false → input.new ≡ input.old }
    ensures within { TakesWithin (S.left input.old) (S.left input.new) }
    ensures unloaded { loads (command_of asked.entry) ≡ false → store.new ≡ store.old }
    ensures unjudged { is_one (command_of asked.entry) ≡ true → IsErr (verdict (command_of asked.entry)) →
        (input.new ≡ input.old) × (store.new ≡ store.old) }
    ensures idle { command_of asked.entry ≡ Unknown → (out.new ≡ out.old) × (result ≡ Outcome.Usage) }
    ensures is_open { result ≢ Outcome.StoreFault → K.is_open store.new }
{
    recall_law();
    match asked {
        Command::Batch => batch(alloc, input, out, store),
        Command::Trial(count) => conclude(trial(alloc, count), out),
        _ => match judge(alloc, asked) {
            Err(outcome) => outcome,
            Ok(judged) => perform_judged(alloc, &judged, input, out, store),
        },
    }
}

/// Runs the command that the words ask for, and writes the outcome's text to `err`.
pub fn run<S: Source, O: Sink, E: Sink, K: Keeper>(
    alloc: Global,
    words: &[String],
    input: &mut S,
    out: &mut O,
    err: &mut E,
    store: &mut K,
) -> Outcome
    requires { K.is_open store.old }
    // Each outcome is answered where it may be, each fault has its cause, and what is written and appended is the
    // step's; nothing is written before a refusal, after which the items are as they were.
    ensures answer { let seen = devices S.left S.faults O.written O.faults O.refusals K.items K.number K.faults in
        let asked = command (map (λ word. string_bytes word) words.now) in
        IsAnswer asked (seen input.old out.old store.old) (seen input.new out.new store.new) result }
    // Where input and items are told and no device failed, the outcome is the step's, or there was no memory, or two
    // objects in hand have one name.
    ensures complete { let seen = devices S.left S.faults O.written O.faults O.refusals K.items K.number K.faults in
        let asked = command (map (λ word. string_bytes word) words.now) in
        IsComplete asked (seen input.old out.old store.old) (seen input.new out.new store.new) result }
    // At most 2^29 bytes of the input are taken, and one more.
    ensures within { TakesWithin (S.left input.old) (S.left input.new) }
    // A form that doesn't read leaves the input, and one that doesn't load leaves the store.
    ensures untouched { let asked = command (map (λ word. string_bytes word) words.now) in
        (reads asked ≡ false → input.new ≡ input.old) × (loads asked ≡ false → store.new ≡ store.old) }
    // A command whose filter is refused leaves both.
    ensures unjudged { let asked = command (map (λ word. string_bytes word) words.now) in
        is_one asked ≡ true → IsErr (verdict asked) → (input.new ≡ input.old) × (store.new ≡ store.old) }
    // Words without a form are answered without a look at any device.
    ensures idle { command (map (λ word. string_bytes word) words.now) ≡ Unknown →
        (out.new ≡ out.old) × (result ≡ Outcome.Usage) }
    ensures text { let seen = sink_view E.written E.faults E.refusals in GetsText (seen err.old) (seen err.new)
        (text_of result) }
    // A stop at any moment of the call leaves the items at entry, or these and behind them, whole, the command's item.
    // Since a moment before the call it leaves what it might have left then, or one of these two lists.
    ensures stops { let asked = command (map (λ word. string_bytes word) words.now) in
        (items : List Bytes) → K.items store.old ≡ Some items → ForInput (S.left input.old) (λ all.
        ((list : List Bytes) → K.left_since store.new (K.moment store.old) list → MayLeave asked items all list) ×
        OnlyAdds (K.moment store.old) (K.moment store.new) (K.left_since store.old) (K.left_since store.new)
        (MayLeave asked items all)) }
    // Unless the store failed, these are the items at entry with a front of what has come behind them since.
    ensures fronts { (items : List Bytes) → K.items store.old ≡ Some items → result ≢ Outcome.StoreFault →
        OnlyGrows items (K.items store.new) (λ Kind. ((list : List Bytes) →
        K.left_since store.new (K.moment store.old) list → Kind list) ×
        OnlyAdds (K.moment store.old) (K.moment store.new) (K.left_since store.old) (K.left_since store.new) Kind) }
    // Only after a fault of the store it may have to be opened again. After a call that didn't answer one a stop leaves
    // the items that the store then has.
    ensures settled { result ≢ Outcome.StoreFault → K.is_open store.new × ((all : List Bytes) →
        K.items store.new ≡ Some all → (list : List Bytes) → K.left_since store.new (K.moment store.new) list →
        list ≡ all) }
{
    let asked = read_command(words);
    let outcome = act(alloc, asked, input, out, store);
    finish(alloc, outcome, err)
}
