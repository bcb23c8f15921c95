// The projection of a ref of a stream.
ghost use Rattle.std.specs.Prelude.{◌≡◌, ◌≢◌, ◌↔◌, ◌<◌, Err, Ok, IfErr, IfOk, IfSome, IsSome};
ghost use Rattle.std.specs.Prelude.{map, true};
ghost use Rattle.std.specs.FinMap.{find};
ghost use Rattle.std.specs.Option.{option_map};
ghost use Rattle.git_objects.specs.Parts.{name_bytes};
ghost use Rattle.git_objects.specs.Paths.{Bytes, is_bytes};
ghost use Rattle.git_objects.specs.Refs.{bytes_cmp};
ghost use Rattle.commit_graph.specs.Graphs.{place_of};
ghost use Rattle.commit_map.specs.Shown.{shown_value};
ghost use Rattle.fast_import.specs.Replaying.{setting_value};
ghost use Rattle.fast_import.specs.Replays.{empty_base};
ghost use Rattle.filter_apply.specs.Faults.{IsApplyFault};
ghost use Rattle.filter_text.specs.Filters.{Filter as FilterValue};
ghost use Rattle.filter_text.specs.Shapes.{shape};
ghost use Rattle.projection_laws.specs.Projections.{projection_by};
ghost use Rattle.projection_ground.specs.Grounds.{Extends, IsGround, IsShownOf, commits_of};
ghost use Rattle.fast_import.specs.Waited.{TakesWithin};
ghost use Rattle.proj_io.specs.Counts.{Counts};
ghost use Rattle.repo_ground.specs.Loads.{IsEmpty};
ghost use Rattle.workspace.specs.Laws.{IsUsable};
ghost use Rattle.workspace.specs.Workspaces.{shown};
ghost use Rattle.proj_commands.specs.Cases.{NameCase};
ghost use Rattle.proj_commands.specs.Import.{tagged_ran};
ghost use Rattle.proj_commands.specs.Intake.{TakesUpTo, tagged_waited};
ghost use Rattle.proj_commands.specs.Makes.{IsReportOf};
ghost use Rattle.proj_commands.specs.StreamsGiven.{IsGiven, IsUnnamed};

use crate::lines::projection_report;
use crate::refusals::{apply_outcome, commit_outcome, replay_outcome};
use commit_map::Shown;
use fast_import::{EmptyBase, Made, Setting, TaggedReplay, replay_tagged};
use filter_apply::ApplyError;
use filter_text::Filter;
use git_objects::{Bytes, Name, Steps};
use history_ground::project_to;
use path_names::RefName;
use proj_io::Source;
use proj_words::Outcome;
use projection_ground::Ground;
use repo_ground::{Batch, State};
use std::alloc::{AllocError, Global};
use std::marker::Brand;
use std::sync::ledger::{Blank, Ledger};

/// The names of commits that were made.
pub(crate) fn commit_names(alloc: Global, made: &[Made]) -> Result<Vec<Name>, AllocError>
    ensures { IfOk result (λ names. names.items ≡ map (λ m. m.name) made.now) }
{
    let mut names = Vec::new(alloc);
    for commit in made {
        names.push(commit.name)?;
    }
    Ok(names)
}

// The commit to which a ref is set.
fn head_among(heads: &[Setting], refname: &RefName) -> Option<Name>
    ensures { option_map name_bytes result ≡ find bytes_cmp refname.now (map setting_value heads.now) }
{
    for set in heads {
        if set.refname == *refname {
            return Some(set.head);
        }
    }
    None
}

// What a commit is projected to, where nobody asks for the steps.
fn projected<L: Ledger>(
    alloc: Global,
    ground: &mut Ground,
    filter: &Filter,
    head: &Name,
    blank: Blank,
) -> Result<Option<Shown>, ApplyError>
    requires blank { (blank.name ≡ L.name) × (blank.parts ≡ L.parts) × (0 < blank.parts) }
    requires usable { IsUsable (shape filter.now) }
    requires ground { IsGround ground.old }
    requires head { IsSome (place_of head.now.0 ground.old.graph) }
    ensures ok { IfOk result (λ o. option_map shown_value o
        ≡ projection_by ground.old.rule (shown (shape filter.now)) ground.old.map
        (commits_of ground.old) head.now.0) }
    ensures same { Extends (IsShownOf (shape filter.now) (commits_of ground.old)) ground.old ground.new }
    ensures err { IfErr result
        (IsApplyFault (IsShownOf (shape filter.now) (commits_of ground.old)) ground.new.store) }
{
    let mut steps = Steps::<L>::new(blank);
    project_to(alloc, ground, filter, head, &mut steps)
}

// What a stream gives, to be taken in without refs and tags, and its heads.
fn unnamed(alloc: Global, given: TaggedReplay) -> Result<(Batch, Vec<Setting>), AllocError>
    ensures { IfOk result (λ x. IsUnnamed given.replayed x.0 x.1.items) }
{
    let names = commit_names(alloc, &given.replayed.commits)?;
    let TaggedReplay { replayed, tags: _ } = given;
    let batch = Batch {
        blobs: replayed.blobs,
        commits: names,
        refs: Vec::new(alloc),
    };
    Ok((batch, replayed.heads))
}

// Takes a stream's commits into a state that has nothing, and gives the stream's heads.
fn take_stream<S: Source>(
    alloc: Global,
    state: &mut State,
    input: &mut S,
) -> Result<Vec<Setting>, Outcome>
    requires { IsEmpty state.old }
    ensures given { (all : Bytes) × (is_bytes all ≡ true) × IfSome (S.left input.old) (λ l. all ≡ l) ×
        IfOk result (λ heads. IsGiven all state.new heads.items) ×
        IfErr result (λ e. (f : FilterValue) (refname : Bytes) →
        IsReportOf (Ok (NameCase f refname (tagged_ran empty_base all))) (Err e)) }
    ensures early { (result ≢ Err Outcome.WriteFault) × (result ≢ Err Outcome.StoreFault) }
    ensures taken { TakesUpTo (tagged_waited empty_base) (S.left input.old) (S.left input.new) }
    ensures within { TakesWithin (S.left input.old) (S.left input.new) }
    ensures told { S.tells input.new ↔ S.tells input.old }
    ensures read { Counts (S.faults input.old) (S.faults input.new) (result ≡ Err Outcome.ReadFault) }
{
    let given = match replay_tagged(alloc, input, &EmptyBase, &mut state.ground.store) {
        Err(error) => return Err(replay_outcome(error)),
        Ok(given) => given,
    };
    let (batch, heads) = unnamed(alloc, given)?;
    match state.take(&batch) {
        Err(error) => Err(commit_outcome(error)),
        Ok(()) => Ok(heads),
    }
}

// The line with the name of the projection of a ref's commit, upon a state with the stream's commits.
fn head_line(
    alloc: Global,
    state: &mut State,
    heads: &[Setting],
    filter: &Filter,
    refname: &RefName,
) -> Result<Bytes, Outcome>
    requires usable { IsUsable (shape filter.now) }
    requires given { (all : Bytes) × (is_bytes all ≡ true) × IsGiven all state.old heads.now }
    ensures made { (all : Bytes) → is_bytes all ≡ true → IsGiven all state.old heads.now →
        IsReportOf (Ok (NameCase (shape filter.now) refname.now (tagged_ran empty_base all))) result }
    ensures early { (result ≢ Err Outcome.ReadFault) × (result ≢ Err Outcome.WriteFault) ×
        (result ≢ Err Outcome.StoreFault) }
{
    let Some(head) = head_among(heads, refname) else {
        return Err(Outcome::UnknownRef);
    };
    let line = match projected::<Brand>(alloc, &mut state.ground, filter, &head, Blank::new(1)) {
        Err(error) => return Err(apply_outcome(error)),
        Ok(shown) => projection_report(alloc, shown)?,
    };
    Ok(Bytes::of(line))
}

// The line with the name of the projection of a ref's commit, for a stream that is replayed upon a state that has
// nothing.
fn name_upon<S: Source>(
    alloc: Global,
    state: &mut State,
    filter: &Filter,
    refname: &RefName,
    input: &mut S,
) -> Result<Bytes, Outcome>
    requires usable { IsUsable (shape filter.now) }
    requires empty { IsEmpty state.old }
    ensures made { (all : Bytes) × IfSome (S.left input.old) (λ l. all ≡ l) ×
        IsReportOf (Ok (NameCase (shape filter.now) refname.now (tagged_ran empty_base all))) result }
    ensures early { (result ≢ Err Outcome.WriteFault) × (result ≢ Err Outcome.StoreFault) }
    ensures taken { TakesUpTo (tagged_waited empty_base) (S.left input.old) (S.left input.new) }
    ensures within { TakesWithin (S.left input.old) (S.left input.new) }
    ensures told { S.tells input.new ↔ S.tells input.old }
    ensures read { Counts (S.faults input.old) (S.faults input.new) (result ≡ Err Outcome.ReadFault) }
{
    let heads = take_stream(alloc, state, input)?;
    head_line(alloc, state, &heads, filter, refname)
}

/// The line with the name of the projection of a ref's commit, for a stream that is replayed upon nothing.
pub fn name<S: Source>(
    alloc: Global,
    filter: &Filter,
    refname: &RefName,
    input: &mut S,
) -> Result<Bytes, Outcome>
    requires usable { IsUsable (shape filter.now) }
    ensures made { (all : Bytes) × IfSome (S.left input.old) (λ l. all ≡ l) ×
        IsReportOf (Ok (NameCase (shape filter.now) refname.now (tagged_ran empty_base all))) result }
    ensures early { (result ≢ Err Outcome.WriteFault) × (result ≢ Err Outcome.StoreFault) }
    ensures taken { TakesUpTo (tagged_waited empty_base) (S.left input.old) (S.left input.new) }
    ensures within { TakesWithin (S.left input.old) (S.left input.new) }
    ensures told { S.tells input.new ↔ S.tells input.old }
    ensures read { Counts (S.faults input.old) (S.faults input.new) (result ≡ Err Outcome.ReadFault) }
{
    match State::empty(alloc) {
        Err(_) => Err(Outcome::OutOfMemory),
        Ok(mut state) => name_upon(alloc, &mut state, filter, refname, input),
    }
}
