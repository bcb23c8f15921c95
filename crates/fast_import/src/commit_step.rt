// A commit that begins, and one that ends.
ghost use Rattle.std.specs.Prelude.{◌≡◌, ◌++◌, ◌∷◌, [], ℕ, OnOk, IfErr, IfOk, List, None, Some};
ghost use Rattle.std.specs.Option.{option_map};
ghost use Rattle.git_objects.specs.Parts.{name_bytes};
ghost use Rattle.git_objects.specs.Trees.{Flat};
ghost use Rattle.object_store.specs.Growth.{IsGrownBy};
ghost use Rattle.object_store.specs.Objects.{Object};
ghost use Rattle.object_store.specs.Unfolding.{StandsFor};
ghost use Rattle.stage_tree.specs.Stages.{Shows};
ghost use Rattle.fast_import.specs.Bases.{IsBaseIn, base_in};
ghost use Rattle.fast_import.specs.Made.{IsDirectoryOf, IsMadeOf, IsPutFault};
ghost use Rattle.fast_import.specs.Replays.{Base as BaseOf, Draft as DraftOf, Replay as ReplayOf};
ghost use Rattle.fast_import.specs.Replays.{command_step, commit_of, entered, tree_upon};
ghost use Rattle.fast_import.specs.Replaying.{tree_fault};
ghost use Rattle.fast_import.specs.Standing.{IsBegun, IsCommitIn, IsDraftOf, IsEnded, IsReplayOf, IsStepped};
ghost use Rattle.fast_import.specs.Standing.{IsTried};
ghost use Rattle.stream_reader.specs.declared.command.Command.TheVariants.{Commit, CommitEnd};
ghost use Rattle.stream_reader.specs.declared.fault.StreamFault.TheVariants.{OutOfMemory};

use crate::draft::{Begun, Draft, Ended, draft_of};
use crate::marks::Marked;
use crate::puts::put_commit;
use crate::{Base, CommitHead, Made, Replay, StreamFault};
use git_objects::Name;
use object_store::{Store, store_law};
use path_trees::TreeFault;
use stage_tree::Stage;
use std::alloc::{AllocError, Global};

impl Replay {
    // The tree of a commit's first parent, and the empty one without such a parent.
    fn stage_upon<B: Base>(
        &self,
        base: &B,
        store: &Store,
        first: Option<Name>,
    ) -> Result<Stage, AllocError>
        requires base { IsBaseIn store.now (B.commits base.now) (B.refs base.now) (B.blobs base.now) }
        requires so_far { (r : ReplayOf) × IsReplayOf store.now self.now r }
        ensures { IfOk result (λ s. (r : ReplayOf) → IsReplayOf store.now self.now r → Shows store.now s (tree_upon
            (base_in store.now (B.commits base.now) (B.refs base.now) (B.blobs base.now)) r
            (option_map name_bytes first))) }
    {
        let Some(name) = first else {
            store_law(store);
            return Stage::empty(self.alloc);
        };
        match self.tree_of(base, &name) {
            None => {
                store_law(store);
                Stage::empty(self.alloc)
            }
            Some(tree) => Stage::begin(self.alloc, store, tree),
        }
    }

    // The parents of a commit that begins, and the tree of the first one.
    fn begun<B: Base>(
        &self,
        base: &B,
        store: &Store,
        head: &CommitHead,
    ) -> Result<Begun, StreamFault>
        requires base { IsBaseIn store.now (B.commits base.now) (B.refs base.now) (B.blobs base.now) }
        requires so_far { (r : ReplayOf) × IsReplayOf store.now self.now r }
        ensures { (at : ℕ) (r : ReplayOf) → IsReplayOf store.now self.now r → IsBegun store.now self.now head.now
            (command_step (base_in store.now (B.commits base.now) (B.refs base.now) (B.blobs base.now)) r at
            (Commit head.now)) result }
    {
        let first = match self.first_parent(base, head) {
            Err(fault) => return Err(fault),
            Ok(first) => first,
        };
        let parents = match self.with_merges(base, first, head.merges.refs()) {
            Err(fault) => return Err(fault),
            Ok(parents) => parents,
        };
        match self.stage_upon(base, store, first) {
            Err(_) => Err(StreamFault::OutOfMemory),
            Ok(stage) => Ok(Begun { parents, stage }),
        }
    }

    // A commit begins, upon its first parent.
    pub(crate) fn commit<B: Base>(
        &mut self,
        base: &B,
        store: &Store,
        head: CommitHead,
    ) -> Result<(), StreamFault>
        requires base { IsBaseIn store.now (B.commits base.now) (B.refs base.now) (B.blobs base.now) }
        requires so_far { (r : ReplayOf) × IsReplayOf store.now self.old r }
        ensures { (at : ℕ) (r : ReplayOf) → IsReplayOf store.now self.old r →
            IsTried store.now self.new (command_step
            (base_in store.now (B.commits base.now) (B.refs base.now) (B.blobs base.now)) r at (Commit head)) result }
    {
        match self.begun(base, store, &head) {
            Err(fault) => Err(fault),
            Ok(begun) => {
                self.put_draft(draft_of(head, begun));
                Ok(())
            }
        }
    }

    // This commit is being made, and no other.
    pub(crate) fn put_draft(&mut self, draft: Draft)
        ensures { self.new ≡ record self.old { draft = Some draft } }
    {
        self.draft = Some(draft);
    }

    fn add_commit(&mut self, made: Made) -> Result<(), StreamFault>
        ensures ok { OnOk result (self.new ≡ record self.old { commits = self.old.commits ++ made ∷ [] }) }
        ensures err { IfErr result (λ f. f ≡ OutOfMemory) }
    {
        match self.commits.add(made) {
            Err(_) => Err(StreamFault::OutOfMemory),
            Ok(()) => Ok(()),
        }
    }

    // The commit that was being made is there: its branch is at it, and its mark names it.
    fn enter(&mut self, ended: Ended) -> Result<(), StreamFault>
        ensures ok { OnOk result ((S : List Object) (r : ReplayOf) (d : DraftOf) → IsReplayOf S self.old r →
            IsEnded S ended d → IsReplayOf S self.new (entered d.head.refname d.head.mark (commit_of d) r)) }
        ensures err { IfErr result (λ f. f ≡ OutOfMemory) }
    {
        let Ended {
            made,
            refname,
            mark,
        } = ended;
        match self.add_commit(made) {
            Err(fault) => Err(fault),
            Ok(()) => match self.set_branch(refname, Some(made.name)) {
                Err(fault) => Err(fault),
                Ok(()) => self.mark(mark, Marked::Commit(made.name)),
            },
        }
    }

    // The commit that is being made, which is given up.
    pub(crate) fn take_draft(&mut self) -> Option<Draft>
        ensures value { result ≡ self.old.draft }
        ensures after { self.new ≡ record self.old { draft = None } }
    {
        self.draft.take()
    }

    // The end of a commit.
    pub(crate) fn commit_end(&mut self, store: &mut Store, at: u64) -> Result<(), StreamFault>
        requires so_far { (r : ReplayOf) × IsReplayOf store.old self.old r }
        ensures { (base : BaseOf) (r : ReplayOf) → IsReplayOf store.old self.old r →
            IsStepped base store.old store.new self.new r (record { at = at; command = CommitEnd }) result }
    {
        let Some(mut draft) = self.take_draft() else {
            store_law(store);
            return Err(StreamFault::Syntax { at });
        };
        let ended = end_of(self.alloc, store, &mut draft);
        let Draft {
            refname,
            mark,
            parts: _,
            stage: _,
        } = draft;
        match ended {
            Err(fault) => Err(fault),
            Ok(made) => self.enter(Ended {
                made,
                refname,
                mark,
            }),
        }
    }
}

// A fault of a tree, as one of the stream.
fn tree_fault(fault: TreeFault) -> StreamFault
    ensures { result ≡ tree_fault fault }
{
    match fault {
        TreeFault::Collision { name } => StreamFault::Collision { name },
        TreeFault::OutOfMemory => StreamFault::OutOfMemory,
    }
}

// Brings the tree of a stage into the store.
fn finished(store: &mut Store, stage: &mut Stage) -> Result<Name, StreamFault>
    requires { (t : Flat) × Shows store.old stage.old t }
    ensures ok { IfOk result (λ n. (t : Flat) → Shows store.old stage.old t → StandsFor store.new n.0 t) }
    ensures err { IfErr result (λ f. (t : Flat) → Shows store.old stage.old t →
        IsPutFault (IsDirectoryOf t) store.new f) }
    ensures store { (t : Flat) → Shows store.old stage.old t →
        IsGrownBy (IsDirectoryOf t) store.old store.new }
{
    match stage.finish(store) {
        Err(fault) => Err(tree_fault(fault)),
        Ok(tree) => Ok(tree),
    }
}

// Brings a commit and its tree into the store.
fn end_of(alloc: Global, store: &mut Store, draft: &mut Draft) -> Result<Made, StreamFault>
    requires { (d : DraftOf) × IsDraftOf store.old draft.old d }
    ensures ok { IfOk result (λ m. (d : DraftOf) → IsDraftOf store.old draft.old d →
        IsCommitIn store.new m (commit_of d)) }
    ensures err { IfErr result (λ f. (d : DraftOf) → IsDraftOf store.old draft.old d →
        IsPutFault (IsMadeOf (Some d)) store.new f) }
    ensures store { (d : DraftOf) → IsDraftOf store.old draft.old d →
        IsGrownBy (IsMadeOf (Some d)) store.old store.new }
    ensures same { (draft.new.refname ≡ draft.old.refname) × (draft.new.mark ≡ draft.old.mark) }
{
    let tree = match finished(store, &mut draft.stage) {
        Err(fault) => return Err(fault),
        Ok(tree) => tree,
    };
    draft.parts.tree = tree;
    match put_commit(alloc, store, &draft.parts) {
        Err(fault) => Err(fault),
        Ok(name) => Ok(Made { name, tree }),
    }
}
