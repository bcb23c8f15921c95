// The trial: an import and three pushes, upon a state of its own.
ghost use Rattle.std.specs.Prelude.{◌≡◌, ◌≢◌, ◌≤◌, ◌++◌, ◌∷◌, [], List, decimal, Err, OnOk};
ghost use Rattle.git_objects.specs.Paths.{Bytes};
ghost use Rattle.filter_text.specs.Shapes.{shape};
ghost use Rattle.workspace.specs.Laws.{IsUsable};
ghost use Rattle.state_items.specs.Items.{Held};
ghost use Rattle.repo_ground.specs.Loads.{IsEmpty};
ghost use Rattle.proj_words.specs.Views.{push_value};
ghost use Rattle.proj_words.specs.Words.{Export};
ghost use Rattle.proj_words.specs.TrialTexts.{main};
ghost use Rattle.proj_commands.specs.Steps.{case};
ghost use Rattle.proj_commands.specs.Cases.{loaded};
ghost use Rattle.proj_commands.specs.Push.{push_case};
ghost use Rattle.proj_commands.specs.Hands.{Hand, IsInHands};
ghost use Rattle.proj_commands.specs.Makes.{IsReported, hands_of};
ghost use Rattle.proj_cli.specs.Trials.{import_hands, import_left, push_hands, push_left, report_hands, report_of};
ghost use Rattle.proj_cli.specs.Trials.{third_hands, third_left, trial_hands, trial_made};
ghost use Rattle.proj_cli.specs.Trying.{IsFrom, IsLeft, IsLine, IsToldOf, IsTried, IsTriedState, from_of, line_of};

use filter_text::{Filter, print};
use git_objects::{Bytes, Name};
use history_ground::{history, seen_head};
use itoa::Buffer;
use memory_devices::{ItemCounter, SliceSource};
use path_names::RefName;
use proj_commands::{
    Manner, Telling, apply_outcome, import, push, read_subject, ref_name, sound_filter,
};
use proj_words::{
    Outcome, TrialPush, first_push, push_stream, second_push, third_push, trial_stream,
};
use repo_ground::State;
use std::alloc::{AllocError, Global};

const MAIN: &[u8] = b"refs/heads/main";

// The date of the first commit, in seconds.
const FIRST_DATE: u64 = 1_700_000_000;

// What a ref's commit is projected to.
fn head_projection(
    alloc: Global,
    state: &mut State,
    filter: &Filter,
    refname: &RefName,
) -> Result<Option<Name>, Outcome>
    requires usable { IsUsable (shape filter.now) }
    requires state { IsTriedState state.old }
    ensures { (items : List Bytes) (h : Held) (hands : List Hand) (all : Bytes) →
        IsTried items h hands state.old →
        IsFrom items h (hands ++ hands_of (push_case Manner.InLine Telling.Both h (shape filter.now) refname.now all))
        (from_of h (shape filter.now) refname.now) state.new result }
{
    let Some(head) = state.head(refname) else {
        return Err(Outcome::UnknownRef);
    };
    let seen = match seen_head(alloc, &mut state.ground, filter, &head) {
        Err(error) => return Err(apply_outcome(error)),
        Ok(seen) => seen,
    };
    Ok(seen.from)
}

// Takes a push of the trial back into a state.
fn try_push(
    alloc: Global,
    state: &mut State,
    store: &mut ItemCounter,
    pushed: &TrialPush,
    seconds: u64,
) -> Result<(), Outcome>
    requires state { IsTriedState state.old }
    requires number { state.old.number ≡ store.old }
    ensures left { (items : List Bytes) (h : Held) (hands : List Hand) → IsTried items h hands state.old →
        let p = push_value pushed.now in
        IsLeft (hands ++ push_hands p seconds items) (push_left p seconds items) state.new result }
    ensures number { OnOk result (state.new.number ≡ store.new) }
{
    let subject = read_subject(alloc, MAIN, pushed.filter)?;
    let from = head_projection(alloc, state, &subject.filter, &subject.refname)?;
    let stream = push_stream(alloc, seconds, pushed, from)?;
    let mut input = SliceSource::new(&stream);
    push(
        alloc,
        state,
        &mut input,
        store,
        &subject.filter,
        &subject.refname,
        Manner::InLine,
        Telling::Both,
    )?;
    Ok(())
}

// Imports so many commits into an empty state.
fn try_import(
    alloc: Global,
    state: &mut State,
    store: &mut ItemCounter,
    count: u64,
) -> Result<(), Outcome>
    requires count { (1 ≤ count) × (count ≤ 100000) }
    requires empty { IsEmpty state.old }
    requires number { store.old ≡ 0 }
    ensures left { IsLeft (import_hands count) (import_left count) state.new result }
    ensures number { OnOk result (state.new.number ≡ store.new) }
{
    let stream = trial_stream(alloc, count as u32)?;
    let mut input = SliceSource::new(&stream);
    import(alloc, state, &mut input, store, false)?;
    Ok(())
}

// The import and the pushes.
fn tried(alloc: Global, state: &mut State, count: u64) -> Result<(), Outcome>
    requires count { (1 ≤ count) × (count ≤ 100000) }
    requires empty { IsEmpty state.old }
    ensures { IsLeft (third_hands count) (third_left count) state.new result }
{
    let mut store = ItemCounter::new();
    try_import(alloc, state, &mut store, count)?;
    try_push(alloc, state, &mut store, &first_push(), FIRST_DATE + count)?;
    try_push(
        alloc,
        state,
        &mut store,
        &second_push(),
        FIRST_DATE + 1 + count,
    )?;
    try_push(
        alloc,
        state,
        &mut store,
        &third_push(),
        FIRST_DATE + 2 + count,
    )
}

// Adds a line: a text, a space, and a number in decimal.
fn add_line(report: &mut Vec<u8>, text: &[u8], number: u64) -> Result<(), AllocError>
    ensures { OnOk result (
        report.new.items ≡ report.old.items ++ text.now ++ 32 ∷ (decimal number ++ 10 ∷ [])) }
{
    let mut buffer = Buffer::new();
    report.extend_from_slice(text)?;
    report.push(b' ')?;
    report.extend_from_slice(buffer.format(number).as_bytes())?;
    report.push(b'\n')?;
    Ok(())
}

// Adds the line of a filter: its canonical text, and how many commits its history of a ref has.
fn add_history_line(
    alloc: Global,
    state: &mut State,
    filter: &[u8],
    refname: &RefName,
    report: &mut Vec<u8>,
) -> Result<(), Outcome>
    requires { IsTriedState state.old }
    ensures { (items : List Bytes) (h : Held) (hands : List Hand) → IsTried items h hands state.old →
        IsLine items h (hands ++ hands_of (case (Export refname.now filter.now) (loaded items) []))
        (line_of h refname.now filter.now) report.old.items report.new.items state.new result }
{
    let Some(head) = state.head(refname) else {
        return Err(Outcome::UnknownRef);
    };
    let filter = sound_filter(alloc, filter)?;
    let commits = match history(alloc, &mut state.ground, &filter, &head) {
        Err(error) => return Err(apply_outcome(error)),
        Ok(commits) => commits,
    };
    let text = print(alloc, &filter)?;
    add_line(report, &text, commits.len() as u64)?;
    Ok(())
}

// The report of what was tried.
fn trial_report(alloc: Global, state: &mut State) -> Result<Bytes, Outcome>
    requires { IsTriedState state.old }
    ensures { (items : List Bytes) (h : Held) (hands : List Hand) → IsTried items h hands state.old →
        IsToldOf (hands ++ report_hands items) (report_of items) result }
{
    let refname = ref_name(alloc, MAIN)?;
    let first = first_push();
    let second = second_push();
    let third = third_push();
    let mut report = Vec::new(alloc);
    add_line(&mut report, b"commits", state.ground.graph.len() as u64)?;
    add_history_line(alloc, state, first.filter, &refname, &mut report)?;
    add_history_line(alloc, state, second.filter, &refname, &mut report)?;
    add_history_line(alloc, state, third.filter, &refname, &mut report)?;
    Ok(Bytes::of(report))
}

// The import, the pushes, and the report of both.
fn report_tried(alloc: Global, state: &mut State, count: u64) -> Result<Bytes, Outcome>
    requires count { (1 ≤ count) × (count ≤ 100000) }
    requires empty { IsEmpty state.old }
    ensures made { IsReported (IsInHands (trial_hands count)) (trial_made count) result }
    ensures early { (result ≢ Err Outcome.ReadFault) × (result ≢ Err Outcome.WriteFault) ×
        (result ≢ Err Outcome.StoreFault) }
{
    tried(alloc, state, count)?;
    trial_report(alloc, state)
}

/// Imports so many commits, 1 to 100,000, into a state of its own, and takes three pushes back. The report has the
/// number of commits, and for each push's filter its canonical text and the length of its history.
pub fn trial(alloc: Global, count: u64) -> Result<Bytes, Outcome>
    requires { (1 ≤ count) × (count ≤ 100000) }
    ensures made { IsReported (IsInHands (trial_hands count)) (trial_made count) result }
    ensures early { (result ≢ Err Outcome.ReadFault) × (result ≢ Err Outcome.WriteFault) ×
        (result ≢ Err Outcome.StoreFault) }
{
    match State::empty(alloc) {
        Err(_) => Err(Outcome::OutOfMemory),
        Ok(mut state) => report_tried(alloc, &mut state, count),
    }
}
