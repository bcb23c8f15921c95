// The replay of a stream's commands into a store.
ghost use Rattle.std.specs.Prelude.{◌≡◌, ◌≤◌, List, None, length};
ghost use Rattle.std.specs.List.{last_or};
ghost use Rattle.std.specs.Option.{option_map};
ghost use Rattle.git_objects.specs.Parts.{name_bytes};
ghost use Rattle.git_objects.specs.Snapshots.{snapshot_name};
ghost use Rattle.git_objects.specs.declared.limits.TheConstants.{STREAM_BYTES};
ghost use Rattle.object_store.specs.Objects.{Object};
ghost use Rattle.fast_import.specs.Bases.{base_in};
ghost use Rattle.fast_import.specs.Replays.{Replay as ReplayOf, branch, given_by, nothing_yet, tagged_given};
ghost use Rattle.fast_import.specs.Replays.{target_name};
ghost use Rattle.fast_import.specs.Standing.{IsReplayOf, IsReplayedOf, IsTaggedReplayedOf};

use crate::blobs::Blobs;
use crate::branches::Branches;
use crate::commits::Commits;
use crate::draft::Draft;
use crate::marks::{Marked, Marks};
use crate::tags::Tags;
use crate::{Base, CommitRef, Replayed, TaggedReplay, Target};
use git_objects::Name;
use path_names::RefName;
use std::alloc::Global;
use std::marker::Model;
use tag_objects::Tag;

/// How far a replay has come: what the stream has brought, by the names of objects that a store has.
pub struct Replay {
    pub(crate) alloc: Global,
    pub(crate) blobs: Blobs,
    pub(crate) commits: Commits,
    pub(crate) branches: Branches,
    pub(crate) marks: Marks,
    pub(crate) draft: Option<Draft>,
    pub(crate) tags: Tags,
}

// Written out, so that to drop one is a call: a derived drop would stand in full in each function that drops one, and
// in its proof.
impl Drop for Replay {
    fn drop(self) {
        let Replay {
            alloc: _,
            blobs: _,
            commits: _,
            branches: _,
            marks: _,
            draft: _,
            tags: _,
        } = self;
    }
}

impl Model for Replay {
    ghost use Rattle.fast_import.specs.Replaying.{Replaying};

    ghost Value = { Replaying };

    ghost view = { λ r. record {
      blobs = r.blobs;
      commits = r.commits;
      branches = r.branches;
      marks = r.marks;
      draft = r.draft;
      tags = r.tags;
    } };
}

impl Replay {
    /// Nothing has been replayed.
    pub fn new(alloc: Global) -> Replay
        ensures { (S : List Object) → IsReplayOf S result nothing_yet }
    {
        Replay {
            alloc,
            blobs: Blobs::new(alloc),
            commits: Commits::new(alloc),
            branches: Branches::new(alloc),
            marks: Marks::new(alloc),
            draft: None,
            tags: Tags::new(alloc),
        }
    }

    /// What the commands have given, without the tags. Takes no memory.
    pub fn finish(self) -> Replayed
        ensures gives { (S : List Object) (r : ReplayOf) → IsReplayOf S self r →
            IsReplayedOf S result (given_by r) }
        ensures few { length result.commits.items ≤ STREAM_BYTES }
    {
        let TaggedReplay { replayed, tags: _ } = self.finish_tagged();
        replayed
    }

    /// What the commands have given, and the tags that were read. Takes no memory.
    pub fn finish_tagged(self) -> TaggedReplay
        ensures gives { (S : List Object) (r : ReplayOf) → IsReplayOf S self r →
            IsTaggedReplayedOf S result (tagged_given r) }
        ensures few { length result.replayed.commits.items ≤ STREAM_BYTES }
    {
        let Replay {
            alloc: _,
            blobs,
            commits,
            branches,
            marks: _,
            draft: _,
            tags,
        } = self;
        let replayed = Replayed {
            blobs: blobs.into_vec(),
            commits: commits.into_vec(),
            heads: branches.into_settings(),
        };
        TaggedReplay {
            replayed,
            tags: tags.into_vec(),
        }
    }

    /// The tags that were read, the last one of each name, in the byte order of their names. Takes no memory.
    pub fn tags(&self) -> &[Tag]
        ensures { (S : List Object) (r : ReplayOf) → IsReplayOf S self.now r → result.now ≡ r.tags }
    {
        self.tags.as_slice()
    }

    /// How many commits the stream has made.
    pub fn commit_count(&self) -> u32
        ensures count { (S : List Object) (r : ReplayOf) → IsReplayOf S self.now r → result ≡ length r.commits }
        ensures few { result ≤ STREAM_BYTES }
    {
        self.commits.count()
    }

    /// The commit that the stream has made last.
    pub fn last_commit(&self) -> Option<Name>
        ensures { (S : List Object) (r : ReplayOf) → IsReplayOf S self.now r →
            option_map name_bytes result ≡ option_map snapshot_name (last_or None r.commits) }
    {
        match self.commits.last() {
            None => None,
            Some(made) => Some(made.name),
        }
    }

    /// The commit to which the stream has set a branch. Takes no memory.
    pub fn branch(&self, refname: &RefName) -> Option<Name>
        ensures { (S : List Object) (r : ReplayOf) → IsReplayOf S self.now r →
            option_map name_bytes result ≡ branch r refname.now }
    {
        self.branches.get(refname)
    }

    /// The name that stands for a commit in the stream: digits give themselves. Takes no memory.
    pub fn named<B: Base>(&self, base: &B, r: &CommitRef) -> Option<Name>
        ensures { (S : List Object) (so_far : ReplayOf) → IsReplayOf S self.now so_far →
            option_map name_bytes result
            ≡ target_name (base_in S (B.commits base.now) (B.refs base.now) (B.blobs base.now)) so_far r.now.target }
    {
        match &r.target {
            Target::Mark(mark) => match self.marks.get(*mark) {
                Some(Marked::Commit(name)) => Some(name),
                _ => None,
            },
            Target::Digits(name) => Some(*name),
            Target::Ref(refname) => match self.branches.get(refname) {
                Some(head) => Some(head),
                None => base.branch(refname),
            },
        }
    }
}
