// Batches: commands one after another, upon one state.
ghost use Rattle.std.specs.Prelude.{◌≡◌, ◌≢◌, ◌≤◌, List, Err, Some};
ghost use Rattle.std.specs.Prelude.{false, map};
ghost use Rattle.git_objects.specs.Paths.{Bytes};
ghost use Rattle.proj_io.specs.Counts.{Counts};
ghost use Rattle.proj_io.specs.Stops.{OnlyAdds};
ghost use Rattle.proj_io.specs.Uses.{IsUsed};
ghost use Rattle.proj_io.specs.Views.{SourceView, keeper_view, sink_view};
ghost use Rattle.proj_words.specs.Views.{entry_value};
ghost use Rattle.state_items.specs.Items.{Held};
ghost use Rattle.proj_cli.specs.Batches.{BatchLeaves, IsBatchAnswer, IsBatchBy, IsLeftBy, IsRun};
ghost use Rattle.proj_cli.specs.Calls.{devices};
ghost use Rattle.proj_commands.specs.Cases.{is_verdict};
ghost use Rattle.proj_commands.specs.Makes.{IsStateOf};
ghost use Rattle.proj_commands.specs.Inputs.{ForInput};
ghost use Rattle.proj_cli.specs.Running.{IsBehind, IsEntryAnswered, IsStateBehind, IsTurnStop};
ghost use Rattle.proj_cli.specs.Sent.{IsReplied};
ghost use Rattle.proj_cli.specs.Stopped.{OnlyGrows};
ghost use Rattle.proj_cli.specs.Turns.{Turn, begun, items_after, loading};

use crate::deliver::write_reply;
use git_objects::Bytes;
use proj_commands::{load, read_input, recall_law, run_upon};
use proj_io::{Keeper, Sink, Source};
use proj_words::{Entry, Outcome, line_command, read_entries};
use repo_ground::State;
use std::alloc::Global;

// The reply to a refusal. Where there was no memory there is none, and a fault of the store stays one.
fn refuse<O: Sink>(refusal: &Outcome, out: &mut O) -> Outcome
    ensures replied { let seen = sink_view O.written O.faults O.refusals in
        IsReplied (Err refusal.now) result (seen out.old) (seen out.new) }
    ensures write { Counts (O.faults out.old) (O.faults out.new) (result ≡ Outcome.WriteFault) }
    ensures memory { O.refusals out.old ≤ O.refusals out.new }
{
    match refusal {
        Outcome::OutOfMemory => Outcome::OutOfMemory,
        Outcome::StoreFault => {
            let _ = write_reply(refusal, &[], out);
            Outcome::StoreFault
        }
        _ => write_reply(refusal, &[], out),
    }
}

// The reply to a report or a refusal.
fn reply<O: Sink>(made: Result<Bytes, Outcome>, out: &mut O) -> Outcome
    ensures replied { let seen = sink_view O.written O.faults O.refusals in
        IsReplied made result (seen out.old) (seen out.new) }
    ensures write { Counts (O.faults out.old) (O.faults out.new) (result ≡ Outcome.WriteFault) }
    ensures memory { O.refusals out.old ≤ O.refusals out.new }
{
    match made {
        Ok(report) => write_reply(&Outcome::Done, report.bytes(), out),
        Err(outcome) => refuse(&outcome, out),
    }
}

// Answers an entry upon a state. At `Done` the batch goes on: the entry has its reply, which may be that of a refusal.
fn answer_entry<O: Sink, K: Keeper>(
    alloc: Global,
    entry: Entry<'_>,
    state: &mut State,
    out: &mut O,
    store: &mut K,
) -> Outcome
    requires open { K.is_open store.old × (state.old.number ≡ K.number store.old) }
    requires state { IsBehind state.old }
    ensures answered { let kept = keeper_view K.items K.number K.faults in
        let shown = sink_view O.written O.faults O.refusals in
        (items : List Bytes) (ts : List Turn) (i j : SourceView) → IsStateBehind items ts state.old →
        IsEntryAnswered items ts (entry_value entry.entry) state.new
        (record { input = i; out = shown out.old; store = kept store.old })
        (record { input = j; out = shown out.new; store = kept store.new }) result }
    ensures stops { (items : List Bytes) (ts : List Turn) → IsStateBehind items ts state.old →
        K.items store.old ≡ Some (items_after items ts) →
        OnlyAdds (K.moment store.old) (K.moment store.new) (K.left_since store.old) (K.left_since store.new)
        (IsTurnStop items ts (entry_value entry.entry)) }
    ensures fronts { (items : List Bytes) → K.items store.old ≡ Some items → result ≢ Outcome.StoreFault →
        OnlyGrows items (K.items store.new) (OnlyAdds (K.moment store.old) (K.moment store.new)
        (K.left_since store.old) (K.left_since store.new)) }
    ensures number { result ≡ Outcome.Done → state.new.number ≡ K.number store.new }
    ensures used { IsUsed K.faults K.is_open K.tells store.old store.new (result ≡ Outcome.StoreFault) }
    ensures write { Counts (O.faults out.old) (O.faults out.new) (result ≡ Outcome.WriteFault) }
    ensures memory { O.refusals out.old ≤ O.refusals out.new }
{
    recall_law();
    let asked = line_command(entry.words);
    let made = run_upon(alloc, asked, entry.input, state, store);
    reply(made, out)
}

// Answers entries upon a state that was loaded, one after another.
fn answer_entries<O: Sink, K: Keeper>(
    alloc: Global,
    entries: &[Entry<'_>],
    state: &mut State,
    out: &mut O,
    store: &mut K,
) -> Outcome
    requires open { K.is_open store.old × (state.old.number ≡ K.number store.old) }
    requires state { (items : List Bytes) × (h : Held) × IsStateOf items h state.old ×
        (state.old.basis.store ≡ h.objects) }
    ensures run { let kept = keeper_view K.items K.number K.faults in
        let shown = sink_view O.written O.faults O.refusals in
        (items : List Bytes) (h : Held) (i j : SourceView) → IsStateOf items h state.old →
        state.old.basis.store ≡ h.objects → K.items store.old ≡ Some items →
        IsRun items (map entry_value entries.now)
        (record { input = i; out = shown out.old; store = kept store.old })
        (record { input = j; out = shown out.new; store = kept store.new }) result }
    ensures stops { (items : List Bytes) (h : Held) → IsStateOf items h state.old →
        state.old.basis.store ≡ h.objects → K.items store.old ≡ Some items →
        OnlyAdds (K.moment store.old) (K.moment store.new) (K.left_since store.old) (K.left_since store.new)
        (IsLeftBy items (map entry_value entries.now)) }
    ensures fronts { (items : List Bytes) → K.items store.old ≡ Some items → result ≢ Outcome.StoreFault →
        OnlyGrows items (K.items store.new) (OnlyAdds (K.moment store.old) (K.moment store.new)
        (K.left_since store.old) (K.left_since store.new)) }
    ensures early { result ≢ Outcome.ReadFault }
    ensures other { is_verdict result ≡ false }
    ensures used { IsUsed K.faults K.is_open K.tells store.old store.new (result ≡ Outcome.StoreFault) }
    ensures write { Counts (O.faults out.old) (O.faults out.new) (result ≡ Outcome.WriteFault) }
    ensures memory { O.refusals out.old ≤ O.refusals out.new }
{
    for entry in entries {
        match answer_entry(alloc, *entry, state, out, store) {
            Outcome::Done => {}
            outcome => return outcome,
        }
    }
    Outcome::Done
}

// Loads the store, and answers entries upon what it holds.
fn answer_upon<O: Sink, K: Keeper>(
    alloc: Global,
    entries: &[Entry<'_>],
    out: &mut O,
    store: &mut K,
) -> Outcome
    requires { K.is_open store.old }
    ensures run { let kept = keeper_view K.items K.number K.faults in
        let shown = sink_view O.written O.faults O.refusals in
        (items : List Bytes) (i j : SourceView) → K.items store.old ≡ Some items →
        IsBatchBy items (loading items (map entry_value entries.now))
        (record { input = i; out = shown out.old; store = kept store.old })
        (record { input = j; out = shown out.new; store = kept store.new }) result }
    ensures stops { (items : List Bytes) → K.items store.old ≡ Some items →
        OnlyAdds (K.moment store.old) (K.moment store.new) (K.left_since store.old) (K.left_since store.new)
        (BatchLeaves items (loading items (map entry_value entries.now))) }
    ensures fronts { (items : List Bytes) → K.items store.old ≡ Some items → result ≢ Outcome.StoreFault →
        OnlyGrows items (K.items store.new) (OnlyAdds (K.moment store.old) (K.moment store.new)
        (K.left_since store.old) (K.left_since store.new)) }
    ensures early { result ≢ Outcome.ReadFault }
    ensures other { is_verdict result ≡ false }
    ensures is_open { result ≢ Outcome.StoreFault → K.is_open store.new }
    ensures cause { Counts (K.faults store.old) (K.faults store.new) (result ≡ Outcome.StoreFault) }
    ensures write { Counts (O.faults out.old) (O.faults out.new) (result ≡ Outcome.WriteFault) }
    ensures memory { O.refusals out.old ≤ O.refusals out.new }
{
    match load(alloc, store) {
        Err(outcome) => outcome,
        Ok(mut state) => answer_entries(alloc, entries, &mut state, out, store),
    }
}

/// Reads the entries of a batch, loads the store, and answers them one after another.
pub fn batch<S: Source, O: Sink, K: Keeper>(
    alloc: Global,
    input: &mut S,
    out: &mut O,
    store: &mut K,
) -> Outcome
    requires { K.is_open store.old }
    ensures answer { let seen = devices S.left S.faults O.written O.faults O.refusals K.items K.number K.faults in
        IsBatchAnswer (seen input.old out.old store.old) (seen input.new out.new store.new) result }
    ensures adds { (items : List Bytes) → K.items store.old ≡ Some items → ForInput (S.left input.old) (λ all.
        OnlyAdds (K.moment store.old) (K.moment store.new) (K.left_since store.old) (K.left_since store.new)
        (BatchLeaves items (begun items all))) }
    ensures fronts { (items : List Bytes) → K.items store.old ≡ Some items → result ≢ Outcome.StoreFault →
        OnlyGrows items (K.items store.new) (OnlyAdds (K.moment store.old) (K.moment store.new)
        (K.left_since store.old) (K.left_since store.new)) }
    ensures is_open { result ≢ Outcome.StoreFault → K.is_open store.new }
{
    let taken = match read_input(alloc, input) {
        Err(outcome) => return outcome,
        Ok(taken) => taken,
    };
    match read_entries(alloc, taken.bytes()) {
        Err(outcome) => outcome,
        Ok(entries) => answer_upon(alloc, &entries, out, store),
    }
}
