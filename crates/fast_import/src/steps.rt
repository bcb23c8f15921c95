// The commands of a stream, carried out.
ghost use Rattle.std.specs.Prelude.{◌≡◌, ℕ, true, OnOk, IfErr, List};
ghost use Rattle.object_store.specs.Objects.{Object};
ghost use Rattle.fast_import.specs.Bases.{IsBaseIn, base_in};
ghost use Rattle.fast_import.specs.Replays.{Base as BaseOf, Replay as ReplayOf, command_step, tagged};
ghost use Rattle.stream_reader.specs.Replayable.{is_replayable};
ghost use Rattle.fast_import.specs.Replaying.{with_head};
ghost use Rattle.fast_import.specs.Standing.{IsBrought, IsGivenMark, IsReplayOf, IsStepped, IsTagKept, IsTried};
ghost use Rattle.stream_reader.specs.declared.command.Command.TheVariants.{Blob, Reset, Tag as TagCommand};
ghost use Rattle.stream_reader.specs.declared.fault.StreamFault.TheVariants.{OutOfMemory};

use crate::marks::Marked;
use crate::puts::put_fault;
use crate::{Base, Command, CommitRef, Placed, Replay, StreamFault, TagHead};
use git_objects::{Bytes, Kind, Name};
use object_store::{Store, store_law};
use path_names::RefName;
use tag_objects::Tag;

impl Replay {
    /// Carries out a command that a reader gave behind those before it, none of which was refused. A base gives
    /// the same answers in each call, and the store may only have grown. A command is refused exactly where it has a
    /// fault; Collision comes only where another object has the name of one that the command brings. After a refusal
    /// the replay is of no more use.
    pub fn step<B: Base>(
        &mut self,
        base: &B,
        store: &mut Store,
        placed: Placed,
    ) -> Result<(), StreamFault>
        requires base { IsBaseIn store.old (B.commits base.now) (B.refs base.now) (B.blobs base.now) }
        requires so_far { (r : ReplayOf) × IsReplayOf store.old self.old r }
        requires replayable { is_replayable placed.command ≡ true }
        ensures { (r : ReplayOf) → IsReplayOf store.old self.old r → IsStepped
            (base_in store.old (B.commits base.now) (B.refs base.now) (B.blobs base.now))
            store.old store.new self.new r placed result }
    {
        let Placed { at, command } = placed;
        match command {
            Command::Blob { mark, content } => self.blob(store, mark, &content),
            Command::Commit(head) => {
                store_law(store);
                self.commit(base, store, head)
            }
            Command::Change(change) => self.change(base, store, at, change),
            Command::CommitEnd => self.commit_end(store, at),
            Command::Reset { refname, from } => {
                store_law(store);
                self.reset(base, refname, &from)
            }
            Command::Tag(head) => {
                store_law(store);
                self.tag(base, head)
            }
            Command::Done => {
                store_law(store);
                Ok(())
            }
        }
    }

    // Puts a blob into the store, behind those that were read.
    pub(crate) fn bring(&mut self, store: &mut Store, content: &[u8]) -> Result<Name, StreamFault>
        ensures { IsBrought store.old store.new self.old self.new content.now result }
    {
        match store.put_fitting(Kind::Blob, content) {
            Err(error) => Err(put_fault(error)),
            Ok(name) => {
                self.blobs.add(name)?;
                Ok(name)
            }
        }
    }

    // Gives a mark its object, where there is a mark.
    pub(crate) fn mark(&mut self, mark: Option<u64>, marked: Marked) -> Result<(), StreamFault>
        ensures ok { OnOk result (IsGivenMark self.old self.new mark marked) }
        ensures err { IfErr result (λ f. f ≡ OutOfMemory) }
    {
        if let Some(mark) = mark {
            self.marks.set(mark, marked)?;
        }
        Ok(())
    }

    // Sets a branch, or makes it unset.
    pub(crate) fn set_branch(
        &mut self,
        refname: RefName,
        head: Option<Name>,
    ) -> Result<(), StreamFault>
        ensures ok { OnOk result (self.new
            ≡ record self.old { branches = with_head refname head self.old.branches }) }
        ensures err { IfErr result (λ f. f ≡ OutOfMemory) }
    {
        match head {
            None => self.branches.unset(&refname),
            Some(head) => self.branches.set(refname, head)?,
        }
        Ok(())
    }

    // A blob with its mark.
    pub(crate) fn blob(
        &mut self,
        store: &mut Store,
        mark: Option<u64>,
        content: &Bytes,
    ) -> Result<(), StreamFault>
        ensures { (base : BaseOf) (at : ℕ) (r : ReplayOf) → IsReplayOf store.old self.old r →
            IsStepped base store.old store.new self.new r (record { at = at; command = Blob mark content.now }) result }
    {
        match self.bring(store, content.bytes()) {
            Err(fault) => Err(fault),
            Ok(name) => self.mark(mark, Marked::Blob(name)),
        }
    }

    // A tag of this commit.
    pub(crate) fn keep_tag(&mut self, head: TagHead, target: Name) -> Result<(), StreamFault>
        ensures { (S : List Object) (r : ReplayOf) → IsReplayOf S self.old r → IsTagKept S self.new
            (tagged head target.0 r) result }
    {
        let TagHead {
            name,
            from: _,
            mark,
            tagger,
            message,
        } = head;
        let tag = Tag {
            name,
            target,
            tagger,
            message,
        };
        let Ok(()) = self.tags.put(tag) else {
            return Err(StreamFault::OutOfMemory);
        };
        self.mark(mark, Marked::Tag)
    }

    // A tag of a commit that is there.
    pub(crate) fn tag<B: Base>(&mut self, base: &B, head: TagHead) -> Result<(), StreamFault>
        ensures { (S : List Object) (at : ℕ) (r : ReplayOf) → IsReplayOf S self.old r →
            IsTried S self.new (command_step (base_in S (B.commits base.now) (B.refs base.now) (B.blobs base.now))
            r at (TagCommand head)) result }
    {
        match self.known(base, &head.from) {
            Err(fault) => Err(fault),
            Ok(target) => self.keep_tag(head, target),
        }
    }

    // A branch that is set, or made unset.
    pub(crate) fn reset<B: Base>(
        &mut self,
        base: &B,
        refname: RefName,
        from: &Option<CommitRef>,
    ) -> Result<(), StreamFault>
        ensures { (S : List Object) (at : ℕ) (r : ReplayOf) →
            IsBaseIn S (B.commits base.now) (B.refs base.now) (B.blobs base.now) → IsReplayOf S self.old r →
            IsTried S self.new (command_step (base_in S (B.commits base.now) (B.refs base.now) (B.blobs base.now))
            r at (Reset refname from.now)) result }
    {
        match self.said(base, from) {
            Err(fault) => Err(fault),
            Ok(head) => self.set_branch(refname, head),
        }
    }
}
