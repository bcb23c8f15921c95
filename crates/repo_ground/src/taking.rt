// Taking in what is brought, without an item.
ghost use Rattle.std.specs.Prelude.{List, MatchResult};
ghost use Rattle.git_objects.specs.Paths.{Bytes};
ghost use Rattle.git_objects.specs.Snapshots.{Snapshot};
ghost use Rattle.projection_ground.specs.Grounds.{IsGround};
ghost use Rattle.state_items.specs.Changes.{fresh, objects_of};
ghost use Rattle.state_items.specs.Items.{Held};
ghost use Rattle.repo_ground.specs.Changes.{IsBatchOf};
ghost use Rattle.repo_ground.specs.Taking.{IsNotTaken, IsTaken};

use crate::draft::names_from;
use crate::enter::enter;
use crate::holding::hold_batch;
use crate::{Batch, CommitError, State};
use state_items::{count_commits, first_passed, found_objects};

impl State {
    /// Holds and enters the blobs and commits of a batch, where the state then passes no limit of commits and objects.
    /// No item is appended for them, and no ref moves. After an error the state is of no more use.
    pub fn take(&mut self, batch: &Batch) -> Result<(), CommitError>
        requires ground { IsGround self.old.basis }
        requires batch { (h : Held) × (blobs : List Bytes) × (cs : List Snapshot) ×
            IsBatchOf h self.old batch.now blobs cs }
        ensures { (h : Held) (blobs : List Bytes) (cs : List Snapshot) → IsBatchOf h self.old batch.now blobs cs →
            MatchResult result
            (λ _. IsTaken h (fresh h.objects (objects_of blobs cs)) self.old self.new)
            (λ e. IsNotTaken h (fresh h.objects (objects_of blobs cs)) e) }
    {
        let before = self.held.len();
        hold_batch(self.alloc, &self.ground.store, &mut self.held, batch)?;
        let names = names_from(&self.held, before);
        let objects = found_objects(self.alloc, &self.ground.store, names)?;
        let commits = self.ground.graph.len() as usize + count_commits(&objects);
        // An item of no bytes, which is the only one, passes no limit.
        if let Some(which) = first_passed(commits, self.held.len(), Some(0), 0, 0) {
            return Err(CommitError::Limit { which });
        }
        let graph = &mut self.ground.graph;
        enter(self.alloc, graph, &mut self.blobs, names, &objects)?;
        Ok(())
    }
}
