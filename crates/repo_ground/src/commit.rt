// Committing what a command brings.
ghost use Rattle.std.specs.Prelude.{◌≡◌, ◌≤◌, ◌<◌, ◌+◌, List, length, IsErrOf, MatchResult};
ghost use Rattle.git_objects.specs.Paths.{Bytes};
ghost use Rattle.git_objects.specs.declared.limits.TheConstants.{ITEMS, STORE_BYTES};
ghost use Rattle.git_objects.specs.Snapshots.{Snapshot};
ghost use Rattle.projection_ground.specs.Grounds.{IsGround};
ghost use Rattle.proj_io.specs.Stops.{OnlyAdds, IsPresent};
ghost use Rattle.proj_io.specs.Uses.{IsUsed};
ghost use Rattle.proj_io.specs.Views.{keeper_view};
ghost use Rattle.state_items.specs.Items.{Held};
ghost use Rattle.repo_ground.specs.Drafting.{HasMore, cut_to, IsDraftOrNot, IsNoDraft, outcome, with_draft};
ghost use Rattle.repo_ground.specs.Changes.{Appends, AreTagsOf, IsBatchOf, IsCommitted, IsRefusal, IsRefused};
ghost use Rattle.repo_ground.specs.Changes.{IsStopOf, batch_plan, tagged_batch_plan};

use crate::State;
use crate::draft::{
    Change, Draft, Meter, append_change, is_nothing, names_from, size_within, tags_behind,
};
use crate::enter::enter;
use crate::holding::hold_batch;
use crate::moved::{moved, with_moved};
use crate::rule::keep_error;
use fast_import::Setting;
use git_objects::{Name, Quantity};
use proj_io::Keeper;
use state_items::{changed_tags, found_objects};
use std::alloc::AllocError;
use tag_objects::Tag;

/// What is to be committed: names of objects in the state's store, and refs.
#[derive(Drop)]
pub struct Batch {
    /// Blobs in the order in which they were read.
    pub blobs: Vec<Name>,
    /// Commits in order, parents before children.
    pub commits: Vec<Name>,
    /// In the byte order of the ref names, each once.
    pub refs: Vec<Setting>,
}

/// Why nothing is committed.
#[derive(Clone, Copy, Debug, PartialEq, Eq)]
pub enum CommitError {
    /// The keeper failed. It may have the item or not, and the state is of no more use.
    StoreFault,
    /// The state would pass a limit, and is as before.
    Limit { which: Quantity },
    /// There was no memory, and the state is as before.
    OutOfMemory,
}

impl From<AllocError> for CommitError {
    ghost use Rattle.std.specs.Prelude.{◌≡◌};
    ghost use Rattle.repo_ground.specs.declared.commit.CommitError.TheVariants.{OutOfMemory};

    ghost from_gives = { λ _ error. error ≡ OutOfMemory };

    fn from(_error: AllocError) -> CommitError {
        CommitError::OutOfMemory
    }
}

// How many names, blobs and commits there are.
#[derive(Clone, Copy)]
struct Mark {
    names: usize,
    blobs: usize,
    commits: u32,
}

impl State {
    /// Appends one item with all that the batch brings and no item holds: its blobs, then commit by commit the trees,
    /// each after what it names and these in the order of its body, and the commit; and the refs whose commit
    /// changes, in byte order. A batch that changes nothing appends nothing.
    ///
    /// The keeper gets the item in parts, and bodies aren't copied for it. All memory but the keeper's own is taken
    /// before.
    pub fn commit<K: Keeper>(&mut self, keeper: &mut K, batch: Batch) -> Result<(), CommitError>
        requires open { K.is_open keeper.old × (self.old.number ≡ K.number keeper.old) }
        requires ground { IsGround self.old.basis }
        requires batch { (h : Held) × (blobs : List Bytes) × (cs : List Snapshot) ×
            IsBatchOf h self.old batch blobs cs }
        ensures state { (h : Held) (blobs : List Bytes) (cs : List Snapshot) → IsBatchOf h self.old batch blobs cs →
            MatchResult result
            (λ _. IsCommitted h (batch_plan h batch blobs cs) self.old self.new × IsGround self.new.basis)
            (λ e. IsRefused h (batch_plan h batch blobs cs) self.old self.new e) }
        ensures store { self.new.basis.store ≡ self.old.basis.store }
        ensures items { let seen = keeper_view K.items K.number K.faults in
            (h : Held) (blobs : List Bytes) (cs : List Snapshot) → IsBatchOf h self.old batch blobs cs →
            Appends (batch_plan h batch blobs cs) (seen keeper.old) (seen keeper.new) result }
        // A stop during the call leaves the items, or these with the plan's item behind them; only the items where the
        // plan is refused.
        ensures stops { let adds = OnlyAdds (K.moment keeper.old) (K.moment keeper.new) (K.left_since keeper.old)
            (K.left_since keeper.new) in
            ((h : Held) (blobs : List Bytes) (cs : List Snapshot) → IsBatchOf h self.old batch blobs cs →
            adds (IsStopOf h self.old (batch_plan h batch blobs cs) (K.items keeper.old)))
            × (IsRefusal result → adds (IsPresent (K.items keeper.old))) }
        ensures used { IsUsed K.faults K.is_open K.tells keeper.old keeper.new
            (IsErrOf result CommitError.StoreFault) }
    {
        let tags = Vec::new(self.alloc);
        self.commit_tagged(keeper, batch, tags)
    }

    /// Appends one item with all that the batch brings and no item holds: its blobs, then commit by commit the trees,
    /// each after what it names and these in the order of its body, and the commit; the refs whose commit changes, in
    /// byte order; and those of the tags that change. Where nothing changes, nothing is appended. Where no tag changes
    /// the item is that of `commit`.
    ///
    /// The keeper gets the item in parts, and bodies aren't copied for it. All memory but the keeper's own is taken
    /// before.
    pub fn commit_tagged<K: Keeper>(
        &mut self,
        keeper: &mut K,
        batch: Batch,
        tags: Vec<Tag>,
    ) -> Result<(), CommitError>
        requires open { K.is_open keeper.old × (self.old.number ≡ K.number keeper.old) }
        requires ground { IsGround self.old.basis }
        requires batch { (h : Held) × (blobs : List Bytes) × (cs : List Snapshot) ×
            IsBatchOf h self.old batch blobs cs }
        requires tags { AreTagsOf self.old batch tags.items }
        ensures state { (h : Held) (blobs : List Bytes) (cs : List Snapshot) → IsBatchOf h self.old batch blobs cs →
            MatchResult result
            (λ _. IsCommitted h (tagged_batch_plan h batch blobs cs tags.items) self.old self.new
            × IsGround self.new.basis)
            (λ e. IsRefused h (tagged_batch_plan h batch blobs cs tags.items) self.old self.new e) }
        ensures store { self.new.basis.store ≡ self.old.basis.store }
        ensures items { let seen = keeper_view K.items K.number K.faults in
            (h : Held) (blobs : List Bytes) (cs : List Snapshot) → IsBatchOf h self.old batch blobs cs →
            Appends (tagged_batch_plan h batch blobs cs tags.items) (seen keeper.old) (seen keeper.new) result }
        // A stop during the call leaves the items, or these with the plan's item behind them; only the items where the
        // plan is refused.
        ensures stops { let adds = OnlyAdds (K.moment keeper.old) (K.moment keeper.new) (K.left_since keeper.old)
            (K.left_since keeper.new) in
            ((h : Held) (blobs : List Bytes) (cs : List Snapshot) → IsBatchOf h self.old batch blobs cs →
            adds (IsStopOf h self.old (tagged_batch_plan h batch blobs cs tags.items) (K.items keeper.old)))
            × (IsRefusal result → adds (IsPresent (K.items keeper.old))) }
        ensures used { IsUsed K.faults K.is_open K.tells keeper.old keeper.new
            (IsErrOf result CommitError.StoreFault) }
    {
        let mark = self.mark();
        match self.append_batch(keeper, &batch, tags) {
            Err(error) => {
                self.cut_back(mark);
                Err(error)
            }
            Ok(None) => Ok(()),
            Ok(Some(draft)) => {
                self.settle(draft);
                Ok(())
            }
        }
    }

    fn mark(&self) -> Mark
        ensures names { result.names ≡ length self.now.names }
        ensures blobs { result.blobs ≡ length self.now.blobs }
        ensures commits { result.commits ≡ length self.now.basis.graph }
    {
        Mark {
            names: self.held.len(),
            blobs: self.blobs.len(),
            commits: self.ground.graph.len(),
        }
    }

    // Leaves the first names, blobs and commits.
    fn cut_back(&mut self, mark: Mark)
        requires { mark.commits ≤ length self.old.basis.graph }
        ensures { self.new ≡ cut_to mark.names mark.blobs mark.commits self.old }
    {
        self.held.truncate(mark.names);
        self.blobs.truncate(mark.blobs);
        self.ground.graph.truncate(mark.commits);
    }

    // Counts the item that was appended, and takes up the refs and tags behind it.
    fn settle(&mut self, draft: Draft)
        requires number { self.old.number < ITEMS }
        requires size { self.old.size + draft.size ≤ STORE_BYTES }
        ensures { self.new ≡ with_draft self.old draft }
    {
        self.number += 1;
        self.size += draft.size as u64;
        self.refs = draft.refs;
        if let Some(tags) = draft.tags {
            self.tags = tags;
        }
    }

    // Holds and enters what the batch brings, appends its item with the tags that change, and gives the item's length
    // and the refs and tags behind it. None: nothing is new, and nothing is appended. After an error some of the batch
    // may be held and entered.
    fn append_batch<K: Keeper>(
        &mut self,
        keeper: &mut K,
        batch: &Batch,
        tags: Vec<Tag>,
    ) -> Result<Option<Draft>, CommitError>
        requires open { K.is_open keeper.old × (self.old.number ≡ K.number keeper.old) }
        requires ground { IsGround self.old.basis }
        requires batch { (h : Held) × (blobs : List Bytes) × (cs : List Snapshot) ×
            IsBatchOf h self.old batch.now blobs cs }
        requires tags { AreTagsOf self.old batch.now tags.items }
        ensures prepared { (h : Held) (blobs : List Bytes) (cs : List Snapshot) →
            IsBatchOf h self.old batch.now blobs cs →
            let p = tagged_batch_plan h batch.now blobs cs tags.items in MatchResult result
            (λ d. IsDraftOrNot h p self.old self.new d) (λ e. IsNoDraft h p self.old e) }
        ensures more { HasMore self.old self.new }
        ensures items { let seen = keeper_view K.items K.number K.faults in
            let adds = OnlyAdds (K.moment keeper.old) (K.moment keeper.new) (K.left_since keeper.old)
            (K.left_since keeper.new) in
            (h : Held) (blobs : List Bytes) (cs : List Snapshot) → IsBatchOf h self.old batch.now blobs cs →
            let p = tagged_batch_plan h batch.now blobs cs tags.items in
            Appends p (seen keeper.old) (seen keeper.new) (outcome result)
            × adds (IsStopOf h self.old p (K.items keeper.old)) }
        ensures refused { IsRefusal (outcome result) → OnlyAdds (K.moment keeper.old) (K.moment keeper.new)
            (K.left_since keeper.old) (K.left_since keeper.new) (IsPresent (K.items keeper.old)) }
        ensures used { IsUsed K.faults K.is_open K.tells keeper.old keeper.new
            (IsErrOf result CommitError.StoreFault) }
    {
        let before = self.held.len();
        hold_batch(self.alloc, &self.ground.store, &mut self.held, batch)?;
        let moved = moved(self.alloc, &self.refs, &batch.refs)?;
        let news = changed_tags(self.alloc, &self.tags, tags)?;
        let names = names_from(&self.held, before);
        if is_nothing(names, &moved, &news) {
            return Ok(None);
        }
        let meter = Meter {
            commits: self.ground.graph.len(),
            objects: self.held.len(),
            number: self.number,
            size: self.size,
        };
        let objects = found_objects(self.alloc, &self.ground.store, names)?;
        let change = Change {
            objects: &objects,
            refs: &moved,
            tags: &news,
        };
        let size = match size_within(change, meter) {
            Err(which) => return Err(CommitError::Limit { which }),
            Ok(size) => size,
        };
        let refs = with_moved(self.alloc, &self.refs, change.refs)?;
        let tags = tags_behind(self.alloc, &self.tags, change.tags)?;
        let graph = &mut self.ground.graph;
        enter(self.alloc, graph, &mut self.blobs, names, change.objects)?;
        match append_change(self.alloc, keeper, change) {
            Err(error) => Err(keep_error(error)),
            Ok(()) => Ok(Some(Draft { size, refs, tags })),
        }
    }
}
