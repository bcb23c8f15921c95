// The projected history of a ref's commit, as a stream.
ghost use Rattle.std.specs.Prelude.{◌≡◌, ◌↔◌, ◌≤◌, ◌≢◌, ◌++◌, ℕ, false, take, map, List};
ghost use Rattle.std.specs.Prelude.{Ok, Err, Some};
ghost use Rattle.std.specs.Prelude.{OnErr, OnOk, IsErrOf};
ghost use Rattle.std.specs.Io.KnownBytes.{Appends};
ghost use Rattle.git_objects.specs.Parts.{name_bytes};
ghost use Rattle.fast_export.specs.ExportTexts.{export_text};
ghost use Rattle.fast_export.specs.Histories.{IsHistoryIn, snapshots_at};
ghost use Rattle.tag_objects.specs.Tags.{tags_text};
ghost use Rattle.git_objects.specs.Paths.{Bytes};
ghost use Rattle.filter_text.specs.Shapes.{shape};
ghost use Rattle.proj_io.specs.Counts.{Counts};
ghost use Rattle.proj_io.specs.Uses.{IsOnlyRead};
ghost use Rattle.proj_io.specs.Views.{KeeperView, sink_view};
ghost use Rattle.state_items.specs.Changes.{NoPlan};
ghost use Rattle.state_items.specs.Items.{Held};
ghost use Rattle.workspace.specs.Laws.{IsUsable};
ghost use Rattle.proj_commands.specs.Export.{export_case};
ghost use Rattle.proj_commands.specs.Cases.{is_verdict, loaded};
ghost use Rattle.proj_commands.specs.Filters.{sound};
ghost use Rattle.proj_commands.specs.Forms.{IsExport, exported_case, user_exported_case};
ghost use Rattle.proj_commands.specs.Makes.{IsExported, IsMadeOf, IsState, IsStateOf};

use crate::gating::granted;
use crate::loading::load;
use crate::refusals::apply_outcome;
use crate::subjects::Subject;
use crate::tagging::tags_beside;
use fast_export::{ExportError, stored_history_law, tagged_again_law, write_history};
use filter_text::Filter;
use git_objects::{Bytes, Name};
use history_ground::history;
use memory_devices::ByteSink;
use object_store::Store;
use path_names::RefName;
use proj_gate::Act;
use proj_io::{Keeper, Sink, SinkError};
use proj_words::Outcome;
use projection_laws::{history_law, order_law};
use repo_ground::State;
use std::alloc::Global;
use tag_objects::{Tag, write_tags};

// Writes commits as a stream that sets a ref to the last of them, and the commands of tags behind it.
fn write_tagged<O: Sink>(
    alloc: Global,
    store: &Store,
    names: &[Name],
    refname: &RefName,
    tags: &[Tag],
    out: &mut O,
) -> Result<(), ExportError>
    requires { IsHistoryIn store.now (map name_bytes names.now) }
    ensures text { OnOk result (Appends (O.written out.old) (O.written out.new)
        (export_text (snapshots_at store.now (map name_bytes names.now)) refname.now ++ tags_text tags.now)) }
    ensures front { OnErr result ((n : ℕ) × Appends (O.written out.old) (O.written out.new)
        (take n (export_text (snapshots_at store.now (map name_bytes names.now)) refname.now ++ tags_text tags.now))) }
    ensures told { O.tells out.new ↔ O.tells out.old }
    ensures cause { Counts (O.faults out.old) (O.faults out.new) (IsErrOf result ExportError.Fault) }
    ensures memory { O.refusals out.old ≤ O.refusals out.new }
{
    match write_history(alloc, store, names, refname, out) {
        Err(error) => Err(error),
        Ok(()) => match write_tags(alloc, tags, out) {
            Ok(()) => Ok(()),
            Err(SinkError::Failed) => Err(ExportError::Fault),
            Err(SinkError::OutOfMemory) => Err(ExportError::OutOfMemory),
        },
    }
}

/// Writes the projected history of a ref's commit as a stream that sets the ref to its projection, and behind it the
/// tags of its commits where they are asked for.
pub fn export<O: Sink>(
    alloc: Global,
    state: &mut State,
    filter: &Filter,
    refname: &RefName,
    tagged: bool,
    out: &mut O,
) -> Outcome
    requires usable { IsUsable (shape filter.now) }
    requires state { IsState state.old }
    ensures exported { let seen = sink_view O.written O.faults O.refusals in
        (items : List Bytes) (h : Held) → IsStateOf items h state.old →
        IsExported (export_case tagged h (shape filter.now) refname.now) items h
        state.old state.new (seen out.old) (seen out.new) result }
    ensures told { O.tells out.new ↔ O.tells out.old }
    ensures cause { Counts (O.faults out.old) (O.faults out.new) (result ≡ Outcome.WriteFault) }
    ensures memory { O.refusals out.old ≤ O.refusals out.new }
{
    let Some(head) = state.head(refname) else {
        return Outcome::UnknownRef;
    };
    let tags = match tags_beside(alloc, state, filter, &head, tagged) {
        Err(error) => return apply_outcome(error),
        Ok(tags) => tags,
    };
    let names = match history(alloc, &mut state.ground, filter, &head) {
        Err(error) => return apply_outcome(error),
        Ok(names) => names,
    };
    history_law();
    order_law();
    stored_history_law();
    tagged_again_law();
    match write_tagged(alloc, &state.ground.store, &names, refname, &tags, out) {
        Ok(()) => Outcome::Done,
        Err(ExportError::Fault) => Outcome::WriteFault,
        Err(ExportError::OutOfMemory) => Outcome::OutOfMemory,
    }
}

/// Loads what the items of a store hold, and writes the export of a subject while it is made.
pub fn export_loaded<O: Sink, K: Keeper>(
    alloc: Global,
    subject: &Subject,
    tagged: bool,
    out: &mut O,
    store: &mut K,
) -> Outcome
    requires open { K.is_open store.old }
    requires usable { IsUsable (shape subject.now.filter) }
    ensures exported { let seen = sink_view O.written O.faults O.refusals in
        (items : List Bytes) → K.items store.old ≡ Some items →
        IsExport (exported_case tagged (loaded items) (shape subject.now.filter) subject.now.refname) items
        (seen out.old) (seen out.new) result }
    ensures other { is_verdict result ≡ false }
    ensures unread { result ≢ Outcome.ReadFault }
    ensures kept { IsOnlyRead K.items K.number K.is_open K.tells K.moment K.left_since store.old store.new }
    ensures cause { Counts (K.faults store.old) (K.faults store.new) (result ≡ Outcome.StoreFault) }
    ensures write { Counts (O.faults out.old) (O.faults out.new) (result ≡ Outcome.WriteFault) }
    ensures memory { O.refusals out.old ≤ O.refusals out.new }
{
    match load(alloc, store) {
        Err(outcome) => outcome,
        Ok(mut state) => export(
            alloc,
            &mut state,
            &subject.filter,
            &subject.refname,
            tagged,
            out,
        ),
    }
}

/// Loads what the items of a store hold, and writes the export of a subject while it is made, where the policy that
/// they have lets a user see it.
pub fn export_granted<O: Sink, K: Keeper>(
    alloc: Global,
    user: &[u8],
    subject: &Subject,
    out: &mut O,
    store: &mut K,
) -> Outcome
    requires open { K.is_open store.old }
    requires usable { IsUsable (shape subject.now.filter) }
    requires sound { (text : Bytes) × (sound text ≡ Ok (shape subject.now.filter)) }
    ensures exported { let seen = sink_view O.written O.faults O.refusals in
        (items : List Bytes) → K.items store.old ≡ Some items →
        IsExport (user_exported_case (loaded items) user.now (shape subject.now.filter) subject.now.refname) items
        (seen out.old) (seen out.new) result }
    ensures other { is_verdict result ≡ false }
    ensures unread { result ≢ Outcome.ReadFault }
    ensures kept { IsOnlyRead K.items K.number K.is_open K.tells K.moment K.left_since store.old store.new }
    ensures cause { Counts (K.faults store.old) (K.faults store.new) (result ≡ Outcome.StoreFault) }
    ensures write { Counts (O.faults out.old) (O.faults out.new) (result ≡ Outcome.WriteFault) }
    ensures memory { O.refusals out.old ≤ O.refusals out.new }
{
    match load(alloc, store) {
        Err(outcome) => outcome,
        Ok(mut state) => match granted(alloc, &state, user, Act::See, subject) {
            Err(outcome) => outcome,
            Ok(()) => export(
                alloc,
                &mut state,
                &subject.filter,
                &subject.refname,
                false,
                out,
            ),
        },
    }
}

/// What the export of a subject upon a state writes, kept in memory.
pub fn exported(
    alloc: Global,
    subject: &Subject,
    state: &mut State,
    tagged: bool,
) -> Result<Bytes, Outcome>
    requires usable { IsUsable (shape subject.now.filter) }
    requires state { IsState state.old }
    ensures made { (items : List Bytes) (h : Held) (store : KeeperView) → IsStateOf items h state.old →
        IsMadeOf (export_case tagged h (shape subject.now.filter) subject.now.refname) items h
        state.old state.new store store NoPlan result }
    ensures early { (result ≢ Err Outcome.WriteFault) × (result ≢ Err Outcome.ReadFault) ×
        (result ≢ Err Outcome.StoreFault) }
{
    let mut out = ByteSink::new(alloc);
    match export(
        alloc,
        state,
        &subject.filter,
        &subject.refname,
        tagged,
        &mut out,
    ) {
        Outcome::Done => Ok(out.into_bytes()),
        outcome => Err(outcome),
    }
}
