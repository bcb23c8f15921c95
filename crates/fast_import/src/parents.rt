// The commits that a stream's lines name.
ghost use Rattle.std.specs.Prelude.{◌≡◌, true, IfSome, List, map};
ghost use Rattle.std.specs.Option.{option_map, option_to_list};
ghost use Rattle.git_objects.specs.Parts.{name_bytes};
ghost use Rattle.git_objects.specs.declared.kind.Kind.TheVariants.{Tree};
ghost use Rattle.object_store.specs.Objects.{Object, has};
ghost use Rattle.object_store.specs.Unfolding.{flat};
ghost use Rattle.fast_import.specs.Bases.{IsBaseIn, base_in};
ghost use Rattle.fast_import.specs.Replays.{Replay as ReplayOf, first_parent, known, named_parent, said, tree_of};
ghost use Rattle.fast_import.specs.Replays.{one_merge, with_merges};
ghost use Rattle.fast_import.specs.Replaying.{Answers, AnswersIfRoom};
ghost use Rattle.fast_import.specs.Standing.{IsReplayOf};

use crate::{Base, CommitHead, CommitRef, Replay, StreamFault};
use git_objects::limits::PARENTS;
use git_objects::{Name, Quantity};

impl Replay {
    /// The commit that a head's line `from` names, there or not. Without this line it is the head of a branch that the
    /// stream has set, else none. Unresolved exactly where nothing stands for the line's name. Takes no memory.
    pub fn parent<B: Base>(&self, base: &B, head: &CommitHead) -> Result<Option<Name>, StreamFault>
        ensures { (S : List Object) (r : ReplayOf) → IsReplayOf S self.now r →
            Answers (option_map name_bytes) result
            (named_parent (base_in S (B.commits base.now) (B.refs base.now) (B.blobs base.now)) r head.now) }
    {
        match &head.from {
            None => Ok(self.branches.get(&head.refname)),
            Some(from) => match self.named(base, from) {
                None => Err(StreamFault::Unresolved { at: from.at }),
                Some(name) => Ok(Some(name)),
            },
        }
    }

    // The tree of a commit that is there or that the stream has made.
    pub(crate) fn tree_of<B: Base>(&self, base: &B, name: &Name) -> Option<Name>
        ensures tree { (S : List Object) (r : ReplayOf) → IsReplayOf S self.now r →
            option_map (λ t. flat S t.0) result
            ≡ tree_of (base_in S (B.commits base.now) (B.refs base.now) (B.blobs base.now)) r name.now.0 }
        ensures held { (S : List Object) (r : ReplayOf) → IsReplayOf S self.now r →
            IsBaseIn S (B.commits base.now) (B.refs base.now) (B.blobs base.now) →
            IfSome result (λ t. has Tree S t.0 ≡ true) }
    {
        match self.commits.tree_of(name) {
            Some(tree) => Some(tree),
            None => base.tree_of(name),
        }
    }

    // The commit that a line names, which must be there.
    pub(crate) fn known<B: Base>(&self, base: &B, line: &CommitRef) -> Result<Name, StreamFault>
        ensures { (S : List Object) (r : ReplayOf) → IsReplayOf S self.now r → Answers name_bytes result
            (known (base_in S (B.commits base.now) (B.refs base.now) (B.blobs base.now)) r line.now) }
    {
        let Some(name) = self.named(base, line) else {
            return Err(StreamFault::Unresolved { at: line.at });
        };
        if self.tree_of(base, &name).is_none() {
            return Err(StreamFault::Unresolved { at: line.at });
        }
        Ok(name)
    }

    // The commit of a line `from`, where there is one.
    pub(crate) fn said<B: Base>(
        &self,
        base: &B,
        from: &Option<CommitRef>,
    ) -> Result<Option<Name>, StreamFault>
        ensures { (S : List Object) (r : ReplayOf) → IsReplayOf S self.now r →
            Answers (option_map name_bytes) result
            (said (base_in S (B.commits base.now) (B.refs base.now) (B.blobs base.now)) r from.now) }
    {
        match from {
            None => Ok(None),
            Some(line) => match self.known(base, line) {
                Err(fault) => Err(fault),
                Ok(name) => Ok(Some(name)),
            },
        }
    }

    // The first parent of a commit.
    pub(crate) fn first_parent<B: Base>(
        &self,
        base: &B,
        head: &CommitHead,
    ) -> Result<Option<Name>, StreamFault>
        ensures { (S : List Object) (r : ReplayOf) → IsReplayOf S self.now r →
            Answers (option_map name_bytes) result
            (first_parent (base_in S (B.commits base.now) (B.refs base.now) (B.blobs base.now)) r head.now) }
    {
        match self.said(base, &head.from) {
            Err(fault) => Err(fault),
            Ok(Some(name)) => Ok(Some(name)),
            Ok(None) => Ok(self.branches.get(&head.refname)),
        }
    }

    // Adds the commit of a line `merge` to the parents.
    fn add_merge<B: Base>(
        &self,
        base: &B,
        parents: &mut Vec<Name>,
        merge: &CommitRef,
    ) -> Result<(), StreamFault>
        ensures { (S : List Object) (r : ReplayOf) → IsReplayOf S self.now r →
            AnswersIfRoom (λ _. map name_bytes parents.new.items) result
            (one_merge (base_in S (B.commits base.now) (B.refs base.now) (B.blobs base.now)) r
            (map name_bytes parents.old.items) merge.now) }
    {
        let name = self.known(base, merge)?;
        if parents.len() >= PARENTS {
            return Err(StreamFault::Limit {
                at: merge.at,
                which: Quantity::Parents,
            });
        }
        parents.push(name)?;
        Ok(())
    }

    // The parents of a commit: the first one, and those of its lines `merge`.
    pub(crate) fn with_merges<B: Base>(
        &self,
        base: &B,
        first: Option<Name>,
        merges: &[CommitRef],
    ) -> Result<Vec<Name>, StreamFault>
        ensures { (S : List Object) (r : ReplayOf) → IsReplayOf S self.now r →
            AnswersIfRoom (λ v. map name_bytes v.items) result
            (with_merges (base_in S (B.commits base.now) (B.refs base.now) (B.blobs base.now)) r
            (option_to_list (option_map name_bytes first)) merges.now) }
    {
        let mut parents = Vec::new(self.alloc);
        if let Some(name) = first {
            parents.push(name)?;
        }
        for merge in merges {
            match self.add_merge(base, &mut parents, merge) {
                Err(fault) => return Err(fault),
                Ok(()) => {}
            }
        }
        Ok(parents)
    }
}
