// Why a push with merges brings nothing.
ghost use Rattle.std.specs.Prelude.{◌≡◌};
ghost use Rattle.merge_push.specs.Faults.{of_push};

use fast_import::StreamFault;
use git_objects::{Name, Quantity};
use path_names::Path;
use push_back::PushFault;

/// Why a push with merges is refused. Commits are numbered from 1.
#[derive(Debug, Drop)]
pub enum MergeFault {
    /// The source failed.
    ReadFault,
    /// A fault of any stream. A parent that is no projection, and no commit that was pushed before, is Unresolved.
    Stream(StreamFault),
    /// A commit or a reset is on another ref. The place is the first byte of its first line.
    OtherRef {
        at: u64,
    },
    /// A commit's first parent, or at the end the ref, isn't the commit that was pushed last, or before the first one
    /// the projection.
    NotAtHead {
        expected: Option<Name>,
        got: Option<Name>,
    },
    /// Two of the commit's parents are one.
    RepeatedParent {
        n: u32,
    },
    /// The commit's original would be projected to nothing, or to what a parent is projected to.
    NoChange {
        n: u32,
    },
    /// The workspace's file can't be read, or moves itself.
    BadWorkspace {
        n: u32,
    },
    /// The original path that would be shown from now on isn't pushed as it stands.
    Unseen {
        n: u32,
        path: Path,
    },
    /// No path is shown as this one. It is a projected one.
    NotHeld {
        n: u32,
        path: Path,
    },
    /// The first path has no place beside the second. Both are original paths.
    Blocked {
        n: u32,
        path: Path,
        by: Path,
    },
    /// The original tree is too large, or the original commit has too many parents.
    TreeLimit {
        n: u32,
        which: Quantity,
    },
    /// Another kind or body has the name of an object that is made.
    Collision {
        name: Name,
    },
    OutOfMemory,
}

impl From<PushFault> for MergeFault {
    ghost from_gives = { λ f r. r ≡ of_push f };

    fn from(fault: PushFault) -> MergeFault {
        match fault {
            PushFault::ReadFault => MergeFault::ReadFault,
            PushFault::Stream(fault) => MergeFault::Stream(fault),
            PushFault::OtherRef { at } => MergeFault::OtherRef { at },
            PushFault::NotAtHead { expected, got } => MergeFault::NotAtHead { expected, got },
            PushFault::MergePushed { n } => MergeFault::RepeatedParent { n },
            PushFault::NoChange { n } => MergeFault::NoChange { n },
            PushFault::BadWorkspace { n } => MergeFault::BadWorkspace { n },
            PushFault::Unseen { n, path } => MergeFault::Unseen { n, path },
            PushFault::NotHeld { n, path } => MergeFault::NotHeld { n, path },
            PushFault::Blocked { n, path, by } => MergeFault::Blocked { n, path, by },
            PushFault::TreeLimit { n, which } => MergeFault::TreeLimit { n, which },
            PushFault::Collision { name } => MergeFault::Collision { name },
            PushFault::OutOfMemory => MergeFault::OutOfMemory,
        }
    }
}
