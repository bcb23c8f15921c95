// How a command ends, and the number of each outcome.
ghost use Rattle.std.specs.Prelude.{◌≡◌};
ghost use Rattle.proj_words.specs.Outcomes.{code_of};

use git_objects::{Name, Quantity};
use path_names::{Path, RefName};
use stream_reader::Feature;
use tag_objects::TagName;

/// What is wrong with the text of a filter.
#[derive(Clone, Copy, Debug, PartialEq, Eq)]
pub enum FilterWhat {
    TooLong,
    TooDeep,
    Syntax,
    /// A workspace inside brackets, or two of them.
    WorkspacePlace,
    TooMany,
}

/// How a command ended.
///
/// In what a stream is refused for, `at` is the first byte of the line in which the fault stands, counted from 0.
/// `n` is the number of a pushed commit, counted from 1.
#[derive(Debug, Drop)]
pub enum Outcome {
    /// The command's result was written.
    Done,
    OutOfMemory,
    /// The words have none of the forms.
    Usage,
    /// A line of the input fits no place, or one is missing.
    Syntax {
        at: u64,
    },
    /// The input has what git-fast-import(1) knows and this doesn't read.
    Unsupported {
        at: u64,
        what: Feature,
    },
    /// A mark, a name or a ref of the input names nothing that is known.
    Unresolved {
        at: u64,
    },
    /// A text of the input names no path.
    BadPath {
        at: u64,
    },
    /// Nothing is there that the input could move or copy.
    NoSource {
        at: u64,
    },
    /// The ref is not there.
    UnknownRef,
    /// The text is no filter.
    FilterFault {
        what: FilterWhat,
    },
    /// Two branches of a list of the filter have a path in common, or paths with comparable images. Lists and
    /// branches are numbered from 0.
    Overlap {
        list: u32,
        first: u32,
        second: u32,
    },
    /// The piece of the filter, numbered from 0, may not stand inside of an exclude.
    NotKeeping {
        piece: u32,
    },
    /// The ref's new commit isn't its old one and doesn't descend from it.
    NotForward {
        refname: RefName,
        old: Name,
        new: Name,
    },
    /// A pushed commit is on another ref.
    OtherRef {
        at: u64,
    },
    /// A pushed commit stands upon `got`, and not upon the projection of the ref's commit or the pushed commit
    /// before it, which is `expected`. Each may be none, and they differ.
    NotAtHead {
        expected: Option<Name>,
        got: Option<Name>,
    },
    /// A pushed commit has several parents.
    MergePushed {
        n: u32,
    },
    /// A pushed commit has the tree of the one before it.
    NoChange {
        n: u32,
    },
    /// The filter shows no path as `path`, which is the first such path that is pushed.
    NotHeld {
        n: u32,
        path: Path,
    },
    /// The tree of a pushed commit can't be laid into the original one: of two comparable paths `path`, in path
    /// order, is the first that is pushed, and `by` the first other one. Both are original paths.
    Blocked {
        n: u32,
        path: Path,
        by: Path,
    },
    /// More than there may be; a limit of streams has a place.
    Limit {
        which: Quantity,
        at: Option<u64>,
    },
    /// Two different objects have this name.
    Collision {
        name: Name,
    },
    /// The input failed.
    ReadFault,
    /// The output failed.
    WriteFault,
    /// The store failed.
    StoreFault,
    /// The first item of the store, numbered from 0, that breaks a rule of items, and the first byte that breaks it.
    Damaged {
        item: u32,
        at: u64,
    },
    /// A pushed commit changes the workspace file to what gives no workspace.
    BadWorkspace {
        n: u32,
    },
    /// The pushed workspace file shows the original path `path`, which was not shown before, and the pushed tree
    /// has something else there.
    Unseen {
        n: u32,
        path: Path,
    },
    /// Two parents of a pushed commit are one commit.
    RepeatedParent {
        n: u32,
    },
    /// The state has an annotated tag of this name, and the input one of another commit, tagger or message. It is
    /// the first such name in byte order.
    TagExists {
        tag: TagName,
    },
    /// A certificate has no object of this name that is needed.
    NotProved {
        name: Name,
    },
    /// The policy's rule in that line denies the command; 0 where no rule decides.
    Denied {
        rule: u32,
    },
    /// That line of the policy, counted from 1, is no rule; 0 where the policy is too long.
    BadPolicy {
        line: u32,
    },
}

/// The status that the program ends with.
pub fn outcome_code(outcome: &Outcome) -> u8
    ensures { result ≡ code_of outcome.now }
{
    match outcome {
        Outcome::Done => 0,
        Outcome::OutOfMemory => 1,
        Outcome::Usage => 2,
        Outcome::Syntax { .. } => 3,
        Outcome::Unsupported { .. } => 4,
        Outcome::Unresolved { .. } => 5,
        Outcome::BadPath { .. } => 6,
        Outcome::NoSource { .. } => 7,
        Outcome::UnknownRef => 8,
        Outcome::FilterFault { .. } => 9,
        Outcome::Overlap { .. } => 10,
        Outcome::NotKeeping { .. } => 11,
        Outcome::NotForward { .. } => 12,
        Outcome::OtherRef { .. } => 13,
        Outcome::NotAtHead { .. } => 14,
        Outcome::MergePushed { .. } => 15,
        Outcome::NoChange { .. } => 16,
        Outcome::NotHeld { .. } => 18,
        Outcome::Blocked { .. } => 19,
        Outcome::Limit { .. } => 20,
        Outcome::Collision { .. } => 21,
        Outcome::ReadFault => 22,
        Outcome::WriteFault => 23,
        Outcome::StoreFault => 24,
        Outcome::Damaged { .. } => 25,
        Outcome::BadWorkspace { .. } => 26,
        Outcome::Unseen { .. } => 27,
        Outcome::RepeatedParent { .. } => 28,
        Outcome::TagExists { .. } => 29,
        Outcome::NotProved { .. } => 30,
        Outcome::Denied { .. } => 31,
        Outcome::BadPolicy { .. } => 32,
    }
}
