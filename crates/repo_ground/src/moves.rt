// Whether refs move forward.
ghost use Rattle.std.specs.Prelude.{◌≡◌, ◌++◌, ◌∷◌, [], List, map, reverse, true, IfOk, None};
ghost use Rattle.std.specs.FinMap.{find};
ghost use Rattle.git_objects.specs.Paths.{Bytes};
ghost use Rattle.git_objects.specs.Refs.{Refs as Heads, bytes_cmp};
ghost use Rattle.git_objects.specs.Snapshots.{Snapshot};
ghost use Rattle.fast_import.specs.Replaying.{setting_value};
ghost use Rattle.projection_ground.specs.Grounds.{IsGround};
ghost use Rattle.object_store.specs.Objects.{Object};
ghost use Rattle.state_items.specs.Items.{Held};
ghost use Rattle.state_items.specs.Repos.{repo};
ghost use Rattle.repo_ground.specs.Changes.{IsBatchOf, settings_of};
ghost use Rattle.repo_ground.specs.Entering.{IsFront};
ghost use Rattle.repo_ground.specs.Moves.{IsMove, backward, first_backward};
ghost use Rattle.repo_ground.specs.Reaching.{IsSorting, MayMove, MayTest};

use crate::enter::enter_commits;
use crate::{Batch, State};
use commit_graph::Graph;
use fast_import::Setting;
use git_objects::Name;
use object_store::Store;
use path_names::RefName;
use ref_store::{Refs, forward};
use std::alloc::{AllocError, Global};

/// A ref that would get a commit that isn't its old one and doesn't descend from it.
#[derive(Drop)]
pub struct Backward {
    pub refname: RefName,
    pub old_commit: Name,
    pub new_commit: Name,
}

// The ref of a setting, if it is there already, and the new commit is neither its old one nor descends from it.
fn backward_at(
    alloc: Global,
    graph: &Graph,
    refs: &Refs,
    setting: &Setting,
) -> Result<Option<Backward>, AllocError>
    requires may { (S : List Object) × (cs : List Snapshot) × (sorted : Heads) ×
        MayTest S graph.now cs refs.now sorted (setting_value setting.now ∷ []) }
    ensures { (S : List Object) (cs : List Snapshot) (sorted : Heads) →
        MayTest S graph.now cs refs.now sorted (setting_value setting.now ∷ []) →
        let e = setting_value setting.now in
        IfOk result (IsMove (backward cs e (find bytes_cmp e.0 sorted))) }
{
    match refs.get(&setting.refname) {
        None => Ok(None),
        Some(old) => {
            if old == setting.head {
                return Ok(None);
            }
            if forward(alloc, graph, &old, &setting.head)? {
                return Ok(None);
            }
            let refname = setting.refname.copy(alloc)?;
            Ok(Some(Backward {
                refname,
                old_commit: old,
                new_commit: setting.head,
            }))
        }
    }
}

// The first of the settings whose ref moves backward.
fn backward_among(
    alloc: Global,
    graph: &Graph,
    refs: &Refs,
    settings: &[Setting],
) -> Result<Option<Backward>, AllocError>
    requires may { (S : List Object) × (cs : List Snapshot) × (sorted : Heads) ×
        MayTest S graph.now cs refs.now sorted (map setting_value settings.now) }
    ensures { (S : List Object) (cs : List Snapshot) (sorted : Heads) →
        MayTest S graph.now cs refs.now sorted (map setting_value settings.now) →
        IfOk result (IsMove (first_backward cs sorted (map setting_value settings.now))) }
{
    for setting in settings {
        let found = backward_at(alloc, graph, refs, setting)?;
        if found.is_some() {
            return Ok(found);
        }
    }
    Ok(None)
}

// Whether a setting's ref isn't there, or has the new commit already.
fn is_settled(refs: &Refs, setting: &Setting) -> bool
    ensures { result ≡ true → let e = setting_value setting.now in (cs : List Snapshot) (sorted : Heads) →
        IsSorting refs.now sorted → backward cs e (find bytes_cmp e.0 sorted) ≡ None }
{
    match refs.get(&setting.refname) {
        None => true,
        Some(old) => old == setting.head,
    }
}

// Whether the ref of each setting isn't there or has the new commit already: then none moves backward, whatever
// commits there are.
fn are_settled(refs: &Refs, settings: &[Setting]) -> bool
    ensures { result ≡ true → (cs : List Snapshot) (sorted : Heads) → IsSorting refs.now sorted →
        first_backward cs sorted (map setting_value settings.now) ≡ None }
{
    for setting in settings {
        if !is_settled(refs, setting) {
            return false;
        }
    }
    true
}

// Enters the batch's commits that have no rows, and tests its settings. The first rows stay. Where no ref moves that is
// there, no commit has to be entered.
fn backward_in(
    alloc: Global,
    store: &Store,
    graph: &mut Graph,
    refs: &Refs,
    batch: &Batch,
) -> Result<Option<Backward>, AllocError>
    requires may { (known : List Snapshot) × (sorted : Heads) × (cs : List Snapshot) ×
        MayMove store.now graph.old known refs.now sorted batch.now cs }
    ensures first { (known : List Snapshot) (sorted : Heads) (cs : List Snapshot) →
        MayMove store.now graph.old known refs.now sorted batch.now cs →
        IfOk result (IsMove (first_backward (reverse cs ++ known) sorted (settings_of batch.now))) }
    ensures front { IsFront graph.old graph.new }
{
    if are_settled(refs, &batch.refs) {
        return Ok(None);
    }
    enter_commits(alloc, store, graph, &batch.commits)?;
    backward_among(alloc, graph, refs, &batch.refs)
}

impl State {
    /// The first ref of a batch that is there already, and whose new commit is neither its old one nor descends from
    /// it. Nothing changes.
    pub fn first_backward(&mut self, batch: &Batch) -> Result<Option<Backward>, AllocError>
        requires ground { IsGround self.old.basis }
        requires batch { (h : Held) × (blobs : List Bytes) × (cs : List Snapshot) ×
            IsBatchOf h self.old batch.now blobs cs }
        ensures first { (h : Held) (blobs : List Bytes) (cs : List Snapshot) →
            IsBatchOf h self.old batch.now blobs cs →
            IfOk result (IsMove (first_backward (reverse cs ++ (repo h).commits) h.refs (settings_of batch.now))) }
        ensures same { self.new ≡ self.old }
    {
        let commits = self.ground.graph.len();
        let graph = &mut self.ground.graph;
        let found = backward_in(self.alloc, &self.ground.store, graph, &self.refs, batch);
        self.ground.graph.truncate(commits);
        found
    }
}
