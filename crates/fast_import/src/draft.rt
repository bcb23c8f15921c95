// The commit that is being made.
ghost use Rattle.fast_import.specs.Standing.{IsDrawnUp};

use crate::{CommitHead, Made};
use git_objects::{CommitParts, Name};
use path_names::RefName;
use stage_tree::Stage;

/// Where the commit goes, what it says, and its tree so far. The tree among its parts is only known at its end.
#[derive(Drop)]
pub(crate) struct Draft {
    pub(crate) refname: RefName,
    pub(crate) mark: Option<u64>,
    pub(crate) parts: CommitParts,
    pub(crate) stage: Stage,
}

/// The parents of a commit that begins, and the tree of the first one.
#[derive(Drop)]
pub(crate) struct Begun {
    pub(crate) parents: Vec<Name>,
    pub(crate) stage: Stage,
}

/// A commit that has been made, its branch and its mark.
#[derive(Drop)]
pub(crate) struct Ended {
    pub(crate) made: Made,
    pub(crate) refname: RefName,
    pub(crate) mark: Option<u64>,
}

// The draft of a commit that begins.
pub(crate) fn draft_of(head: CommitHead, begun: Begun) -> Draft
    ensures { IsDrawnUp head begun result }
{
    let CommitHead {
        refname,
        mark,
        author,
        committer,
        message,
        from: _,
        merges: _,
    } = head;
    let Begun { parents, stage } = begun;
    let parts = CommitParts {
        tree: Name([0; 20]),
        parents,
        author,
        committer,
        message,
    };
    Draft {
        refname,
        mark,
        parts,
        stage,
    }
}
