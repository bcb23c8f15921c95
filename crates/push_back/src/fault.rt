// Why a push brings nothing.
ghost use Rattle.std.specs.Prelude.{◌≡◌};
ghost use Rattle.push_back.specs.Faults.{of_apply, of_original, of_stream};
ghost use Rattle.push_back.specs.declared.fault.PushFault.TheVariants.{OutOfMemory};

use crate::{OriginalError, PushError, TreeRefusal};
use fast_import::StreamFault;
use filter_apply::ApplyError;
use git_objects::{Name, Quantity};
use path_names::Path;
use std::alloc::AllocError;

/// Why a push is refused. Commits are numbered from 1.
#[derive(Debug, Drop)]
pub enum PushFault {
    /// The source failed.
    ReadFault,
    /// A fault of any stream.
    Stream(StreamFault),
    /// A commit or a reset is on another ref. The place is the first byte of its first line.
    OtherRef {
        at: u64,
    },
    /// A commit's parent, or at the end the ref, isn't the commit that was pushed last, or before the first one the
    /// projection.
    NotAtHead {
        expected: Option<Name>,
        got: Option<Name>,
    },
    /// The commit has a further parent.
    MergePushed {
        n: u32,
    },
    /// The commit's tree is the one before.
    NoChange {
        n: u32,
    },
    /// The workspace's file can't be read, or moves itself.
    BadWorkspace {
        n: u32,
    },
    /// The original path that would be shown from now on isn't pushed as it stands.
    Unseen {
        n: u32,
        path: Path,
    },
    /// No path is shown as this one. It is a projected one.
    NotHeld {
        n: u32,
        path: Path,
    },
    /// The first path has no place beside the second. Both are original paths.
    Blocked {
        n: u32,
        path: Path,
        by: Path,
    },
    /// The original tree is too large.
    TreeLimit {
        n: u32,
        which: Quantity,
    },
    /// Another kind or body has the name of an object that is made.
    Collision {
        name: Name,
    },
    OutOfMemory,
}

impl From<AllocError> for PushFault {
    ghost from_gives = { λ _ r. r ≡ OutOfMemory };

    fn from(_e: AllocError) -> PushFault {
        PushFault::OutOfMemory
    }
}

impl From<ApplyError> for PushFault {
    ghost from_gives = { λ e r. r ≡ of_apply e };

    fn from(error: ApplyError) -> PushFault {
        match error {
            ApplyError::Collision { name } => PushFault::Collision { name },
            ApplyError::OutOfMemory => PushFault::OutOfMemory,
        }
    }
}

impl From<PushError> for PushFault {
    ghost from_gives = { λ e r. r ≡ of_stream e };

    fn from(error: PushError) -> PushFault {
        match error {
            PushError::ReadFault => PushFault::ReadFault,
            PushError::OtherRef { at } => PushFault::OtherRef { at },
            PushError::NotAtHead { expected, got } => PushFault::NotAtHead { expected, got },
            PushError::FurtherParents { n } => PushFault::MergePushed { n },
            PushError::Stream(fault) => PushFault::Stream(fault),
        }
    }
}

impl From<OriginalError> for PushFault {
    ghost from_gives = { λ e r. r ≡ of_original e.n e.refusal };

    fn from(error: OriginalError) -> PushFault {
        let OriginalError { n, refusal } = error;
        match refusal {
            TreeRefusal::NoChange => PushFault::NoChange { n },
            TreeRefusal::BadWorkspace => PushFault::BadWorkspace { n },
            TreeRefusal::Unseen { path } => PushFault::Unseen { n, path },
            TreeRefusal::NotHeld { path } => PushFault::NotHeld { n, path },
            TreeRefusal::Blocked { path, by } => PushFault::Blocked { n, path, by },
            TreeRefusal::TreeLimit { which } => PushFault::TreeLimit { n, which },
            TreeRefusal::Collision { name } => PushFault::Collision { name },
            TreeRefusal::OutOfMemory => PushFault::OutOfMemory,
        }
    }
}
