// The top call.
ghost use Rattle.std.specs.Prelude.{◌≡◌, ◌≢◌, ◌≤◌, false, List, map, string_bytes, Ok, Some};
ghost use Rattle.git_objects.specs.Paths.{Bytes};
ghost use Rattle.proj_io.specs.Counts.{Counts};
ghost use Rattle.proj_io.specs.Uses.{IsOnlyRead};
ghost use Rattle.proj_io.specs.Views.{sink_view};
ghost use Rattle.state_items.specs.Items.{Held};
ghost use Rattle.proj_cli.specs.Answers.{GetsText};
ghost use Rattle.proj_commands.specs.Cases.{is_verdict};
ghost use Rattle.proj_commands.specs.Makes.{IsState, IsStateOf};
ghost use Rattle.read_cli.specs.Answers.{IsLawful, IsReadAnswer};
ghost use Rattle.read_cli.specs.Looks.{IsAsked, IsEnd, IsFormed, IsLooked, form_reading, read_text};
ghost use Rattle.read_cli.specs.Outputs.{hands, output};
ghost use Rattle.read_cli.specs.Readings.{IsJudgedRightly, Reading, Unknown, reading};

use crate::checking::check;
use crate::deliver::finish_read;
use crate::judging::{Asked, judge};
use crate::logging::log;
use crate::newly::{write_originals, write_projected};
use crate::words::{Form, read_words};
use proj_cli::{Outcome, conclude};
use proj_commands::{load, refs_lines};
use proj_io::{Keeper, Sink};
use repo_ground::State;
use std::alloc::Global;

// Looks at a state, and writes what is asked for.
fn look<O: Sink>(alloc: Global, asked: &Asked, state: &mut State, out: &mut O) -> Outcome
    requires asked { (form : Reading) × IsAsked form asked.now }
    requires state { IsState state.old }
    ensures looked { let seen = sink_view O.written O.faults O.refusals in
        (form : Reading) (items : List Bytes) (h : Held) → IsAsked form asked.now → IsStateOf items h state.old →
        IsLooked state.old.basis.store (hands form (Ok h)) (output form (Ok h)) (seen out.old) (seen out.new) result }
    ensures lawful { (form : Reading) (items : List Bytes) (h : Held) → IsAsked form asked.now →
        IsStateOf items h state.old → result ≡ Outcome.Done → IsLawful form (Ok h) }
    ensures ends { IsEnd result }
    ensures write { Counts (O.faults out.old) (O.faults out.new) (result ≡ Outcome.WriteFault) }
    ensures memory { O.refusals out.old ≤ O.refusals out.new }
{
    match asked {
        Asked::Refs => conclude(refs_lines(alloc, &state.refs), out),
        Asked::Log(subject) => conclude(log(alloc, subject, state), out),
        Asked::Check(subject) => conclude(check(alloc, subject, state), out),
        Asked::New(beside, subject, haves) => {
            write_projected(alloc, state, subject, *beside, haves, out)
        }
        Asked::Originals(refname, haves) => write_originals(alloc, state, refname, haves, out),
    }
}

// Loads what the store holds, and looks at it.
fn look_into<O: Sink, K: Keeper>(
    alloc: Global,
    asked: &Asked,
    out: &mut O,
    store: &mut K,
) -> Outcome
    requires open { K.is_open store.old }
    requires asked { (form : Reading) × IsAsked form asked.now }
    ensures answer { let seen = sink_view O.written O.faults O.refusals in
        (form : Reading) (items : List Bytes) → IsAsked form asked.now → K.items store.old ≡ Some items →
        IsReadAnswer form items (seen out.old) (seen out.new) result }
    ensures other { is_verdict result ≡ false }
    ensures unread { result ≢ Outcome.ReadFault }
    ensures kept { IsOnlyRead K.items K.number K.is_open K.tells K.moment K.left_since store.old store.new }
    ensures cause { Counts (K.faults store.old) (K.faults store.new) (result ≡ Outcome.StoreFault) }
    ensures write { Counts (O.faults out.old) (O.faults out.new) (result ≡ Outcome.WriteFault) }
    ensures memory { O.refusals out.old ≤ O.refusals out.new }
{
    match load(alloc, store) {
        Err(outcome) => outcome,
        Ok(mut state) => look(alloc, asked, &mut state, out),
    }
}

// Judges a form, and writes what is asked for.
fn act<O: Sink, K: Keeper>(alloc: Global, form: Form<'_>, out: &mut O, store: &mut K) -> Outcome
    requires open { K.is_open store.old }
    requires formed { IsFormed form }
    ensures answer { let seen = sink_view O.written O.faults O.refusals in
        (items : List Bytes) → K.items store.old ≡ Some items →
        IsReadAnswer (form_reading form.entry) items (seen out.old) (seen out.new) result }
    ensures judged { IsJudgedRightly (form_reading form.entry) result }
    ensures idle { form_reading form.entry ≡ Unknown →
        (out.new ≡ out.old) × (store.new ≡ store.old) × (result ≡ Outcome.Usage) }
    ensures unread { result ≢ Outcome.ReadFault }
    ensures kept { IsOnlyRead K.items K.number K.is_open K.tells K.moment K.left_since store.old store.new }
    ensures cause { Counts (K.faults store.old) (K.faults store.new) (result ≡ Outcome.StoreFault) }
    ensures write { Counts (O.faults out.old) (O.faults out.new) (result ≡ Outcome.WriteFault) }
    ensures memory { O.refusals out.old ≤ O.refusals out.new }
{
    match judge(alloc, form) {
        Err(outcome) => outcome,
        Ok(asked) => look_into(alloc, &asked, out, store),
    }
}

/// Writes what the words ask of a store, and the outcome's text to `err`. The store is only read.
pub fn read<O: Sink, E: Sink, K: Keeper>(
    alloc: Global,
    words: &[String],
    out: &mut O,
    err: &mut E,
    store: &mut K,
) -> Outcome
    requires { K.is_open store.old }
    // Each outcome is answered where it may be, what is written is exactly what the words ask for, and nothing is
    // written of a refusal; what is written of commits is read again as these.
    ensures answer { let seen = sink_view O.written O.faults O.refusals in
        (items : List Bytes) → K.items store.old ≡ Some items →
        IsReadAnswer (reading (map (λ word. string_bytes word) words.now)) items (seen out.old) (seen out.new) result }
    // Words without a form and faults of a filter are told only where they are.
    ensures judged { IsJudgedRightly (reading (map (λ word. string_bytes word) words.now)) result }
    // Words without a form are answered without a look at any device.
    ensures idle { reading (map (λ word. string_bytes word) words.now) ≡ Unknown →
        (out.new ≡ out.old) × (store.new ≡ store.old) × (result ≡ Outcome.Usage) }
    ensures unread { result ≢ Outcome.ReadFault }
    // The store has the items that it had, whatever happens, and a stop leaves nothing else.
    ensures kept { IsOnlyRead K.items K.number K.is_open K.tells K.moment K.left_since store.old store.new }
    // A fault of a device is answered only where its own count rose.
    ensures cause { Counts (K.faults store.old) (K.faults store.new) (result ≡ Outcome.StoreFault) }
    ensures write { Counts (O.faults out.old) (O.faults out.new) (result ≡ Outcome.WriteFault) }
    ensures memory { O.refusals out.old ≤ O.refusals out.new }
    ensures text { let seen = sink_view E.written E.faults E.refusals in GetsText (seen err.old) (seen err.new)
        (read_text result) }
{
    let outcome = act(alloc, read_words(words), out, store);
    finish_read(alloc, outcome, err)
}
