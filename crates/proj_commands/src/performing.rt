// Performing a judged command upon a state.
ghost use Rattle.std.specs.Prelude.{◌≡◌, ◌≢◌, List, Err, IsErr, Ok, false, true};
ghost use Rattle.git_objects.specs.Paths.{Bytes};
ghost use Rattle.fast_import.specs.Waited.{TakesWithin};
ghost use Rattle.proj_io.specs.Counts.{Counts};
ghost use Rattle.proj_io.specs.Stops.{OnlyAdds};
ghost use Rattle.proj_io.specs.Uses.{IsUsed};
ghost use Rattle.proj_io.specs.Views.{keeper_view};
ghost use Rattle.proj_words.specs.Views.{command_of};
ghost use Rattle.proj_words.specs.Words.{Command as Asked, is_formed, reads};
ghost use Rattle.state_items.specs.Items.{Held};
ghost use Rattle.proj_commands.specs.Steps.{case};
ghost use Rattle.proj_commands.specs.Intake.{TakesUpTo, waited_by};
ghost use Rattle.proj_commands.specs.Judging.{IsJudged, IsSomeJudged, permission};
ghost use Rattle.proj_commands.specs.Makes.{IsState, IsStateOf, IsCommandMade};
ghost use Rattle.proj_commands.specs.Inputs.{ForInput};

use crate::exporting::exported;
use crate::gating::permitted;
use crate::importing::import;
use crate::judging::{Judged, judge};
use crate::lines::Telling;
use crate::naming::name;
use crate::projecting::project_upon;
use crate::pushing::{Manner, push};
use crate::querying::query_upon;
use crate::rule::set_rule;
use crate::verifying::verify_text;
use git_objects::Bytes;
use memory_devices::SliceSource;
use proj_io::{Keeper, Source};
use proj_words::{Command, Outcome};
use repo_ground::State;
use std::alloc::Global;

/// Performs a command upon a state, and gives its report; what it changes is appended before. Where a user asks for it
/// the policy that the state has is asked first. After want of memory or a fault of the store the state is of no more
/// use.
pub fn perform<S: Source, K: Keeper>(
    alloc: Global,
    judged: &Judged,
    input: &mut S,
    state: &mut State,
    store: &mut K,
) -> Result<Bytes, Outcome>
    requires open { K.is_open store.old × (state.old.number ≡ K.number store.old) }
    requires state { IsState state.old }
    requires judged { IsSomeJudged judged.now }
    ensures made { let seen = keeper_view K.items K.number K.faults in
        (asked : Asked) (items : List Bytes) (h : Held) → IsJudged asked judged.now →
        IsStateOf items h state.old →
        ForInput (S.left input.old) (λ all.
        IsCommandMade asked all items h state.old state.new (seen store.old) (seen store.new)
        (OnlyAdds (K.moment store.old) (K.moment store.new) (K.left_since store.old) (K.left_since store.new)) result) }
    ensures taken { (asked : Asked) (items : List Bytes) (h : Held) → IsJudged asked judged.now →
        IsStateOf items h state.old →
        TakesUpTo (waited_by (case asked (Ok h))) (S.left input.old) (S.left input.new) }
    ensures within { TakesWithin (S.left input.old) (S.left input.new) }
    // Where no case comes up, whatever is read, nothing is read.
    ensures caseless { (asked : Asked) (items : List Bytes) (h : Held) → IsJudged asked judged.now →
        IsStateOf items h state.old → ((all : Bytes) → IsErr (case asked (Ok h) all)) → input.new ≡ input.old }
    ensures early { result ≢ Err Outcome.WriteFault }
    ensures read { Counts (S.faults input.old) (S.faults input.new) (result ≡ Err Outcome.ReadFault) }
    ensures unread { (asked : Asked) → IsJudged asked judged.now → reads asked ≡ false →
        (input.new ≡ input.old) × (result ≢ Err Outcome.ReadFault) }
    ensures used { IsUsed K.faults K.is_open K.tells store.old store.new (result ≡ Err Outcome.StoreFault) }
{
    match permitted(alloc, judged, state) {
        Err(outcome) => Err(outcome),
        Ok(()) => perform_permitted(alloc, judged, input, state, store),
    }
}

// Performs a command that the policy lets be done, or of which it isn't asked.
fn perform_permitted<S: Source, K: Keeper>(
    alloc: Global,
    judged: &Judged,
    input: &mut S,
    state: &mut State,
    store: &mut K,
) -> Result<Bytes, Outcome>
    requires open { K.is_open store.old × (state.old.number ≡ K.number store.old) }
    requires state { IsState state.old }
    requires judged { IsSomeJudged judged.now }
    requires permitted { (items : List Bytes) (h : Held) → IsStateOf items h state.old →
        permission h judged.now ≡ Ok tt }
    ensures made { let seen = keeper_view K.items K.number K.faults in
        (asked : Asked) (items : List Bytes) (h : Held) → IsJudged asked judged.now →
        IsStateOf items h state.old →
        ForInput (S.left input.old) (λ all.
        IsCommandMade asked all items h state.old state.new (seen store.old) (seen store.new)
        (OnlyAdds (K.moment store.old) (K.moment store.new) (K.left_since store.old) (K.left_since store.new)) result) }
    ensures taken { (asked : Asked) (items : List Bytes) (h : Held) → IsJudged asked judged.now →
        IsStateOf items h state.old →
        TakesUpTo (waited_by (case asked (Ok h))) (S.left input.old) (S.left input.new) }
    ensures within { TakesWithin (S.left input.old) (S.left input.new) }
    // Where no case comes up, whatever is read, nothing is read.
    ensures caseless { (asked : Asked) (items : List Bytes) (h : Held) → IsJudged asked judged.now →
        IsStateOf items h state.old → ((all : Bytes) → IsErr (case asked (Ok h) all)) → input.new ≡ input.old }
    ensures early { result ≢ Err Outcome.WriteFault }
    ensures read { Counts (S.faults input.old) (S.faults input.new) (result ≡ Err Outcome.ReadFault) }
    ensures unread { (asked : Asked) → IsJudged asked judged.now → reads asked ≡ false →
        (input.new ≡ input.old) × (result ≢ Err Outcome.ReadFault) }
    ensures used { IsUsed K.faults K.is_open K.tells store.old store.new (result ≡ Err Outcome.StoreFault) }
{
    match judged {
        Judged::Import(force) => import(alloc, state, input, store, *force),
        Judged::Project(subject) => project_upon(alloc, subject, state, store),
        Judged::Push(subject) => push(
            alloc,
            state,
            input,
            store,
            &subject.filter,
            &subject.refname,
            Manner::InLine,
            Telling::Both,
        ),
        Judged::PushMerges(subject) => push(
            alloc,
            state,
            input,
            store,
            &subject.filter,
            &subject.refname,
            Manner::Merging,
            Telling::Both,
        ),
        Judged::Export(subject) => exported(alloc, subject, state, false),
        Judged::ExportTags(subject) => exported(alloc, subject, state, true),
        Judged::Name(subject) => name(alloc, &subject.filter, &subject.refname, input),
        Judged::Rule(rule) => set_rule(alloc, state, store, *rule),
        Judged::Ask(query) => query_upon(alloc, query, state),
        Judged::Verify(claim) => {
            verify_text(alloc, &claim.commit, &claim.filter, &claim.path, input)
        }
        Judged::AsProject(_, subject) => project_upon(alloc, subject, state, store),
        Judged::AsPush(_, subject) => push(
            alloc,
            state,
            input,
            store,
            &subject.filter,
            &subject.refname,
            Manner::InLine,
            Telling::PushedAlone,
        ),
        Judged::AsExport(_, subject) => exported(alloc, subject, state, false),
    }
}

/// Judges a command and performs it upon a state, with these bytes as its input.
pub fn run_upon<K: Keeper>(
    alloc: Global,
    asked: Command<'_>,
    input: &[u8],
    state: &mut State,
    store: &mut K,
) -> Result<Bytes, Outcome>
    requires open { K.is_open store.old × (state.old.number ≡ K.number store.old) }
    requires state { IsState state.old }
    requires formed { is_formed (command_of asked) ≡ true }
    ensures made { let seen = keeper_view K.items K.number K.faults in
        (items : List Bytes) (h : Held) → IsStateOf items h state.old →
        IsCommandMade (command_of asked.entry) input.now items h state.old state.new (seen store.old) (seen store.new)
        (OnlyAdds (K.moment store.old) (K.moment store.new) (K.left_since store.old) (K.left_since store.new)) result }
    ensures early { (result ≢ Err Outcome.WriteFault) × (result ≢ Err Outcome.ReadFault) }
    ensures used { IsUsed K.faults K.is_open K.tells store.old store.new (result ≡ Err Outcome.StoreFault) }
{
    match judge(alloc, asked) {
        Err(outcome) => Err(outcome),
        Ok(judged) => perform(alloc, &judged, &mut SliceSource::new(input), state, store),
    }
}
