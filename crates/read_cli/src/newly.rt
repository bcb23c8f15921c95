// What is new beside commits that are there.
ghost use Rattle.std.specs.Prelude.{◌≡◌, ◌≤◌, ◌↔◌, ◌++◌, ◌∷◌, [], List, filter, map};
ghost use Rattle.std.specs.Prelude.{reverse, IfErr, IfOk, IsSome, Ok};
ghost use Rattle.git_objects.specs.Parts.{name_bytes};
ghost use Rattle.git_objects.specs.Paths.{Bytes};
ghost use Rattle.git_objects.specs.Snapshots.{ancestors, tree_at};
ghost use Rattle.commit_graph.specs.Graphs.{place_of};
ghost use Rattle.fast_export.specs.ExportTexts.{is_among};
ghost use Rattle.fast_export.specs.Histories.{snapshots_at};
ghost use Rattle.filter_apply.specs.Faults.{IsApplyFault};
ghost use Rattle.filter_text.specs.Shapes.{shape};
ghost use Rattle.history_ground.specs.Histories.{IsOfHistory};
ghost use Rattle.incremental_export.specs.ChangeTexts.{changes_text};
ghost use Rattle.incremental_export.specs.Histories.{AreCommitsIn, tree_in};
ghost use Rattle.incremental_export.specs.Unreached.{unreached};
ghost use Rattle.proj_io.specs.Counts.{Counts};
ghost use Rattle.proj_io.specs.Views.{sink_view};
ghost use Rattle.projection_ground.specs.Grounds.{Extends, IsGround, commits_of};
ghost use Rattle.projection_laws.specs.Projections.{history_graph};
ghost use Rattle.state_items.specs.Items.{Held};
ghost use Rattle.state_items.specs.Repos.{repo};
ghost use Rattle.tag_objects.specs.Tags.{tags_text};
ghost use Rattle.workspace.specs.Laws.{IsUsable};
ghost use Rattle.workspace.specs.Workspaces.{shown};
ghost use Rattle.proj_commands.specs.Export.{export_hand};
ghost use Rattle.proj_commands.specs.Hands.{still_hand};
ghost use Rattle.proj_commands.specs.Makes.{IsState, IsStateOf};
ghost use Rattle.read_cli.specs.Answers.{IsGiven, IsNewLawful, IsReadBackUpon, OfHead};
ghost use Rattle.read_cli.specs.Looks.{AreFresh, AreNew, at_head};
ghost use Rattle.read_cli.specs.Looks.{IsAtHand, IsEnd, IsLookedFor, IsUnshown, IsWriteOutcome};
ghost use Rattle.read_cli.specs.Outputs.{has_tags, names_text, new_output, original_commits, originals_output};

use crate::logging::history_of;
use crate::named::{has_tags, lines_before};
use crate::words::Beside;
use fast_export::ExportError;
use filter_apply::ApplyError;
use filter_text::Filter;
use git_objects::Name;
use history_ground::history;
use incremental_export::{
    read_upon_law, stored_new_law, stored_unreached_law, tagged_upon_law, unreached, write_changes,
};
use indexmap::IndexSet;
use object_store::Store;
use path_names::RefName;
use proj_cli::Outcome;
use proj_commands::{Subject, apply_outcome, tags_beside};
use proj_io::{Sink, SinkError, write_whole};
use projection_ground::Ground;
use projection_laws::history_law;
use repo_ground::State;
use std::alloc::{AllocError, Global};
use tag_objects::{Tag, write_tags};

// Those of the tags that are of one of these commits.
fn tags_of(alloc: Global, tags: Vec<Tag>, commits: &[Name]) -> Result<Vec<Tag>, AllocError>
    ensures { IfOk result (λ left. left.items
        ≡ filter (λ t. is_among t.target.0 (map name_bytes commits.now)) tags.items) }
{
    let mut names = IndexSet::new(alloc);
    for commit in commits {
        names.insert(*commit)?;
    }
    let mut left = Vec::new(alloc);
    for tag in tags {
        if names.contains(&tag.target) {
            left.push(tag)?;
        }
    }
    Ok(left)
}

// Writes commits as a stream that sets a ref to the last of them, and the commands of tags behind it.
fn write_new<O: Sink>(
    alloc: Global,
    store: &Store,
    names: &[Name],
    refname: &RefName,
    tags: &[Tag],
    out: &mut O,
) -> Outcome
    requires { AreCommitsIn store.now (map name_bytes names.now) }
    ensures outcome { IsWriteOutcome result }
    ensures given { let seen = sink_view O.written O.faults O.refusals in IsGiven
        (changes_text (tree_in store.now) (snapshots_at store.now (map name_bytes names.now)) refname.now
        ++ tags_text tags.now) (seen out.old) (seen out.new) result }
    ensures told { O.tells out.new ↔ O.tells out.old }
    ensures write { Counts (O.faults out.old) (O.faults out.new) (result ≡ Outcome.WriteFault) }
    ensures memory { O.refusals out.old ≤ O.refusals out.new }
{
    match write_changes(alloc, store, names, refname, out) {
        Err(ExportError::Fault) => Outcome::WriteFault,
        Err(ExportError::OutOfMemory) => Outcome::OutOfMemory,
        Ok(()) => match write_tags(alloc, tags, out) {
            Ok(()) => Outcome::Done,
            Err(SinkError::Failed) => Outcome::WriteFault,
            Err(SinkError::OutOfMemory) => Outcome::OutOfMemory,
        },
    }
}

// Writes lines, and then commits and tags so.
fn write_named<O: Sink>(
    alloc: Global,
    lines: &[u8],
    store: &Store,
    names: &[Name],
    refname: &RefName,
    tags: &[Tag],
    out: &mut O,
) -> Outcome
    requires { AreCommitsIn store.now (map name_bytes names.now) }
    ensures outcome { IsWriteOutcome result }
    ensures given { let seen = sink_view O.written O.faults O.refusals in IsGiven (lines.now ++
        (changes_text (tree_in store.now) (snapshots_at store.now (map name_bytes names.now)) refname.now
        ++ tags_text tags.now)) (seen out.old) (seen out.new) result }
    ensures write { Counts (O.faults out.old) (O.faults out.new) (result ≡ Outcome.WriteFault) }
    ensures memory { O.refusals out.old ≤ O.refusals out.new }
{
    match write_whole(out, lines) {
        Err(SinkError::Failed) => Outcome::WriteFault,
        Err(SinkError::OutOfMemory) => Outcome::OutOfMemory,
        Ok(()) => write_new(alloc, store, names, refname, tags, out),
    }
}

// Those of a projected history's commits that aren't reached from others.
fn fresh_names(
    alloc: Global,
    ground: &mut Ground,
    filter: &Filter,
    head: &Name,
    haves: &[Name],
) -> Result<Vec<Name>, ApplyError>
    requires usable { IsUsable (shape filter.now) }
    requires ground { IsGround ground.old }
    requires head { IsSome (place_of head.now.0 ground.old.graph) }
    ensures ok { let made = history_graph ground.old.rule (shown (shape filter.now)) (commits_of ground.old) head.now.0
        in IfOk result (λ names. AreFresh ground.new.store (tree_at made)
        (reverse (unreached made (map name_bytes haves.now))) (map name_bytes names.items)) }
    ensures same { Extends (IsOfHistory (shape filter.now) ground.old head.now.0) ground.old ground.new }
    ensures err { IfErr result (IsApplyFault (IsOfHistory (shape filter.now) ground.old head.now.0) ground.new.store) }
{
    history_law();
    stored_unreached_law();
    stored_new_law();
    read_upon_law();
    tagged_upon_law();
    let names = history(alloc, ground, filter, head)?;
    let left = unreached(alloc, &ground.store, &names, haves)?;
    Ok(left)
}

// Those of a projected history's commits that aren't reached from others, and the tags that are of one of these.
fn fresh(
    alloc: Global,
    state: &mut State,
    subject: &Subject,
    head: &Name,
    tagged: bool,
    haves: &[Name],
) -> Result<(Vec<Name>, Vec<Tag>), Outcome>
    requires usable { IsUsable (shape subject.now.filter) }
    requires state { IsState state.old }
    requires head { IsSome (place_of head.now.0 state.old.basis.graph) }
    ensures ok { (items : List Bytes) (h : Held) → IsStateOf items h state.old → IfOk result (λ r.
        AreNew tagged h (shape subject.now.filter) head.now.0 (map name_bytes haves.now) state.new.basis.store
        (map name_bytes r.0.items) r.1.items) }
    ensures err { (items : List Bytes) (h : Held) → IsStateOf items h state.old → IfErr result
        (IsUnshown (IsAtHand state.old.basis.store
        (export_hand tagged h (shape subject.now.filter) head.now.0 ∷ []))) }
{
    let tags = match tags_beside(alloc, state, &subject.filter, head, tagged) {
        Err(error) => return Err(apply_outcome(error)),
        Ok(tags) => tags,
    };
    let names = match fresh_names(alloc, &mut state.ground, &subject.filter, head, haves) {
        Err(error) => return Err(apply_outcome(error)),
        Ok(names) => names,
    };
    match tags_of(alloc, tags, &names) {
        Err(_) => Err(Outcome::OutOfMemory),
        Ok(tags) => Ok((names, tags)),
    }
}

// The lines that stand in front of what is new, and that.
fn found(
    alloc: Global,
    state: &mut State,
    subject: &Subject,
    head: &Name,
    beside: Beside,
    haves: &[Name],
) -> Result<(Vec<u8>, Vec<Name>, Vec<Tag>), Outcome>
    requires usable { IsUsable (shape subject.now.filter) }
    requires state { IsState state.old }
    requires head { IsSome (place_of head.now.0 state.old.basis.graph) }
    ensures ok { (items : List Bytes) (h : Held) → IsStateOf items h state.old → IfOk result (λ r.
        (r.0.items ≡ names_text beside h (shape subject.now.filter) head.now.0) ×
        AreNew (has_tags beside) h (shape subject.now.filter) head.now.0 (map name_bytes haves.now)
        state.new.basis.store (map name_bytes r.1.items) r.2.items) }
    ensures err { (items : List Bytes) (h : Held) → IsStateOf items h state.old → IfErr result
        (IsUnshown (IsAtHand state.old.basis.store
        (export_hand (has_tags beside) h (shape subject.now.filter) head.now.0 ∷ []))) }
{
    let lines = match lines_before(alloc, state, &subject.filter, head, beside) {
        Err(outcome) => return Err(outcome),
        Ok(lines) => lines,
    };
    match fresh(alloc, state, subject, head, has_tags(beside), haves) {
        Err(outcome) => Err(outcome),
        Ok((names, tags)) => Ok((lines, names, tags)),
    }
}

/// Writes the projected history of a ref's commit without what is reached from others, as a stream that sets the ref
/// to its last commit, and behind it the tags of what is written, where they are asked for. Where names are asked for,
/// these stand in front.
pub fn write_projected<O: Sink>(
    alloc: Global,
    state: &mut State,
    subject: &Subject,
    beside: Beside,
    haves: &[Name],
    out: &mut O,
) -> Outcome
    requires usable { IsUsable (shape subject.now.filter) }
    requires state { IsState state.old }
    ensures looked { let seen = sink_view O.written O.faults O.refusals in
        (items : List Bytes) (h : Held) → IsStateOf items h state.old →
        IsLookedFor state.old.basis.store
        (at_head subject.now.refname h (export_hand (has_tags beside) h (shape subject.now.filter)))
        (at_head subject.now.refname h (λ n. new_output beside h (shape subject.now.filter) subject.now.refname n
        (map name_bytes haves.now))) (seen out.old) (seen out.new) result }
    ensures lawful { (items : List Bytes) (h : Held) → IsStateOf items h state.old → result ≡ Outcome.Done →
        OfHead (Ok h) subject.now.refname (λ h n.
        IsNewLawful (has_tags beside) h (shape subject.now.filter) subject.now.refname n
        (map name_bytes haves.now)) }
    ensures ends { IsEnd result }
    ensures write { Counts (O.faults out.old) (O.faults out.new) (result ≡ Outcome.WriteFault) }
    ensures memory { O.refusals out.old ≤ O.refusals out.new }
{
    history_law();
    let Some(head) = state.head(&subject.refname) else {
        return Outcome::UnknownRef;
    };
    match found(alloc, state, subject, &head, beside, haves) {
        Err(outcome) => outcome,
        Ok((lines, names, tags)) => {
            let store = &state.ground.store;
            write_named(alloc, &lines, store, &names, &subject.refname, &tags, out)
        }
    }
}

// Those of a history's commits that aren't reached from others.
fn fresh_originals(
    alloc: Global,
    ground: &Ground,
    head: &Name,
    haves: &[Name],
) -> Result<Vec<Name>, AllocError>
    requires ground { IsGround ground.now }
    requires head { IsSome (place_of head.now.0 ground.now.graph) }
    ensures { IfOk result (λ names. AreFresh ground.now.store (tree_at (commits_of ground.now))
        (reverse (unreached (ancestors (commits_of ground.now) head.now.0) (map name_bytes haves.now)))
        (map name_bytes names.items)) }
{
    stored_unreached_law();
    stored_new_law();
    read_upon_law();
    tagged_upon_law();
    let names = history_of(alloc, ground, head)?;
    unreached(alloc, &ground.store, &names, haves)
}

/// Writes the history of a ref's commit itself, by no rule, without what is reached from others, as a stream that sets
/// the ref to it.
pub fn write_originals<O: Sink>(
    alloc: Global,
    state: &State,
    refname: &RefName,
    haves: &[Name],
    out: &mut O,
) -> Outcome
    requires state { IsState state.now }
    ensures looked { let seen = sink_view O.written O.faults O.refusals in
        (items : List Bytes) (h : Held) → IsStateOf items h state.now →
        IsLookedFor state.now.basis.store (Ok (still_hand h.objects [] []))
        (at_head refname.now h (λ n. originals_output h refname.now n (map name_bytes haves.now)))
        (seen out.old) (seen out.new) result }
    ensures lawful { (items : List Bytes) (h : Held) → IsStateOf items h state.now → result ≡ Outcome.Done →
        OfHead (Ok h) refname.now (λ h n. IsReadBackUpon (tree_at (repo h).commits)
        (original_commits h n (map name_bytes haves.now)) refname.now) }
    ensures ends { IsEnd result }
    ensures write { Counts (O.faults out.old) (O.faults out.new) (result ≡ Outcome.WriteFault) }
    ensures memory { O.refusals out.old ≤ O.refusals out.new }
{
    let Some(head) = state.head(refname) else {
        return Outcome::UnknownRef;
    };
    match fresh_originals(alloc, &state.ground, &head, haves) {
        Err(_) => Outcome::OutOfMemory,
        Ok(names) => write_new(alloc, &state.ground.store, &names, refname, &[], out),
    }
}
