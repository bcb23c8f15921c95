// What a stream's commands say.
ghost use Rattle.std.specs.Prelude.{◌≡◌};

use crate::CommitRef;
use git_objects::{Bytes, Ident, Mode, Name};
use path_names::{Path, RefName};
use std::marker::Model;
use tag_objects::TagName;

/// A command of a stream.
#[derive(Drop)]
pub enum Command {
    Blob {
        mark: Option<u64>,
        content: Bytes,
    },
    /// A commit begins. Its changes and its end follow as commands of their own.
    Commit(CommitHead),
    Change(Change),
    CommitEnd,
    Reset {
        refname: RefName,
        from: Option<CommitRef>,
    },
    Tag(TagHead),
    Done,
}

/// A command and the place of its first line in the stream.
#[derive(Drop)]
pub struct Placed {
    pub at: u64,
    pub command: Command,
}

/// What stands before a commit's changes.
#[derive(Drop)]
pub struct CommitHead {
    pub refname: RefName,
    pub mark: Option<u64>,
    /// The committer where the stream names no author.
    pub author: Ident,
    pub committer: Ident,
    pub message: Bytes,
    pub from: Option<CommitRef>,
    pub merges: Merges,
}

/// An annotated tag.
#[derive(Drop)]
pub struct TagHead {
    pub name: TagName,
    pub from: CommitRef,
    pub mark: Option<u64>,
    pub tagger: Ident,
    pub message: Bytes,
}

/// The commits of a head's `merge` lines, in order: a vector of them, seen as a list.
#[derive(Drop)]
pub struct Merges {
    inner: Vec<CommitRef>,
}

impl Model for Merges {
    ghost use Rattle.std.specs.Prelude.{List};
    ghost use Rattle.stream_reader.specs.declared.commit_ref.CommitRef.{CommitRef};

    ghost Value = { List CommitRef };

    ghost view = { λ m. m.inner.items };
}

impl Merges {
    pub fn of(refs: Vec<CommitRef>) -> Merges
        ensures { result ≡ refs.items }
    {
        Merges { inner: refs }
    }

    pub fn refs(&self) -> &[CommitRef]
        ensures { result.now ≡ self.now }
    {
        &self.inner
    }

    pub fn into_vec(self) -> Vec<CommitRef>
        ensures { result.items ≡ self }
    {
        self.inner
    }
}

/// A change of a commit's tree.
#[derive(Drop)]
pub enum Change {
    Modify {
        mode: Mode,
        blob: BlobRef,
        path: Path,
    },
    Delete {
        path: Path,
    },
    Rename {
        from: Path,
        to: Path,
    },
    Copy {
        from: Path,
        to: Path,
    },
    DeleteAll,
}

/// What a change puts at a path: a blob of the stream, one by its name (for a module another repository's commit), or
/// the bytes themselves.
#[derive(Drop)]
pub enum BlobRef {
    Mark(u64),
    Digits(Name),
    Inline(Bytes),
}
