// Changes of the commit that is being made.
ghost use Rattle.std.specs.Prelude.{◌≡◌, ◌||◌, true, List};
ghost use Rattle.std.specs.List.{list_any};
ghost use Rattle.git_objects.specs.Paths.{same_bytes};
ghost use Rattle.git_objects.specs.Trees.{Flat};
ghost use Rattle.git_objects.specs.declared.mode.Mode.{Mode};
ghost use Rattle.object_store.specs.Objects.{IsStore, Object};
ghost use Rattle.stage_tree.specs.Stages.{Shows};
ghost use Rattle.fast_import.specs.Bases.{IsBaseIn, base_in};
ghost use Rattle.fast_import.specs.Replays.{Base as BaseOf, Replay as ReplayOf, edited};
ghost use Rattle.fast_import.specs.Replays.{given_bytes};
ghost use Rattle.stream_reader.specs.Replayable.{is_fit, is_replayable};
ghost use Rattle.fast_import.specs.Replaying.{is_named};
ghost use Rattle.fast_import.specs.Standing.{Gives, IsChanged, IsGiven, IsLeafIn};
ghost use Rattle.fast_import.specs.Standing.{IsReplayOf, IsStepped};
ghost use Rattle.stream_reader.specs.declared.command.BlobRef.TheVariants.{Digits, Mark};
ghost use Rattle.stream_reader.specs.declared.command.Command.TheVariants.{Change as ChangeCommand};

use crate::edits::{copy_path, move_path, remove_path, set_leaf};
use crate::marks::Marked;
use crate::{Base, BlobRef, Change, Replay, StreamFault};
use git_objects::{Mode, Name};
use object_store::{Store, store_law};
use path_trees::Leaf;
use stage_tree::Stage;

impl Replay {
    // Whether a blob of that name was read or known before.
    fn is_blob<B: Base>(&self, base: &B, name: &Name) -> bool
        ensures { result ≡ (list_any (is_named name.now) self.now.blobs
            || list_any (same_bytes name.now.0) (B.blobs base.now)) }
    {
        self.blobs.has(name) || base.knows_blob(name)
    }

    // The blob or the module of that name.
    fn named_blob<B: Base>(
        &self,
        base: &B,
        at: u64,
        mode: Mode,
        name: &Name,
    ) -> Result<Name, StreamFault>
        ensures { (S : List Object) (r : ReplayOf) → IsStore S →
            IsBaseIn S (B.commits base.now) (B.refs base.now) (B.blobs base.now) → IsReplayOf S self.now r →
            Gives (IsLeafIn S mode) (given_bytes (base_in S (B.commits base.now) (B.refs base.now) (B.blobs base.now))
            r at mode (Digits name.now)) result }
    {
        match mode {
            Mode::Module => Ok(*name),
            _ => {
                if self.is_blob(base, name) {
                    Ok(*name)
                } else {
                    Err(StreamFault::Unresolved { at })
                }
            }
        }
    }

    // The blob of a mark.
    fn marked_blob(&self, at: u64, mark: u64) -> Result<Name, StreamFault>
        ensures { (S : List Object) (base : BaseOf) (r : ReplayOf) (mode : Mode) →
            is_fit mode (Mark mark) ≡ true →
            IsReplayOf S self.now r → Gives (IsLeafIn S mode) (given_bytes base r at mode (Mark mark)) result }
    {
        match self.marks.get(mark) {
            Some(Marked::Blob(name)) => Ok(name),
            _ => Err(StreamFault::Unresolved { at }),
        }
    }

    // What a change puts: a blob, or a module by its name.
    fn given<B: Base>(
        &mut self,
        base: &B,
        store: &mut Store,
        at: u64,
        mode: Mode,
        blob: &BlobRef,
    ) -> Result<Name, StreamFault>
        requires store { IsStore store.old }
        requires base { IsBaseIn store.old (B.commits base.now) (B.refs base.now) (B.blobs base.now) }
        requires fit { is_fit mode blob.now ≡ true }
        ensures { (r : ReplayOf) → IsReplayOf store.old self.old r →
            IsGiven store.old store.new self.new r mode blob.now
            (given_bytes (base_in store.old (B.commits base.now) (B.refs base.now) (B.blobs base.now)) r at mode
            blob.now) result }
    {
        match blob {
            BlobRef::Inline(content) => self.bring(store, content.bytes()),
            BlobRef::Mark(mark) => self.marked_blob(at, *mark),
            BlobRef::Digits(name) => self.named_blob(base, at, mode, name),
        }
    }

    // Edits the tree of the commit that is being made.
    fn edited<B: Base>(
        &mut self,
        base: &B,
        store: &mut Store,
        at: u64,
        stage: &mut Stage,
        change: Change,
    ) -> Result<(), StreamFault>
        requires store { IsStore store.old }
        requires base { IsBaseIn store.old (B.commits base.now) (B.refs base.now) (B.blobs base.now) }
        requires fit { is_replayable (ChangeCommand change) ≡ true }
        requires so_far { (r : ReplayOf) × IsReplayOf store.old self.old r }
        requires stage { (t : Flat) × Shows store.old stage.old t }
        ensures { (r : ReplayOf) (t : Flat) → IsReplayOf store.old self.old r → Shows store.old stage.old t →
            IsChanged store.old store.new self.new stage.new r change
            (edited (base_in store.old (B.commits base.now) (B.refs base.now) (B.blobs base.now)) r at t
            change) result }
    {
        match change {
            Change::Modify { mode, blob, path } => {
                match self.given(base, store, at, mode, &blob) {
                    Err(fault) => Err(fault),
                    Ok(name) => set_leaf(stage, store, at, path, Leaf { mode, name }),
                }
            }
            Change::Delete { path } => remove_path(stage, store, &path),
            Change::Rename { from, to } => move_path(stage, store, at, &from, &to),
            Change::Copy { from, to } => copy_path(stage, store, at, &from, &to),
            Change::DeleteAll => {
                stage.clear();
                Ok(())
            }
        }
    }

    // A change of the commit that is being made.
    pub(crate) fn change<B: Base>(
        &mut self,
        base: &B,
        store: &mut Store,
        at: u64,
        change: Change,
    ) -> Result<(), StreamFault>
        requires base { IsBaseIn store.old (B.commits base.now) (B.refs base.now) (B.blobs base.now) }
        requires fit { is_replayable (ChangeCommand change) ≡ true }
        requires so_far { (r : ReplayOf) × IsReplayOf store.old self.old r }
        ensures { (r : ReplayOf) → IsReplayOf store.old self.old r → IsStepped
            (base_in store.old (B.commits base.now) (B.refs base.now) (B.blobs base.now))
            store.old store.new self.new r (record { at = at; command = ChangeCommand change }) result }
    {
        let Some(mut draft) = self.take_draft() else {
            store_law(store);
            return Err(StreamFault::Syntax { at });
        };
        let changed = self.edited(base, store, at, &mut draft.stage, change);
        self.put_draft(draft);
        changed
    }
}
