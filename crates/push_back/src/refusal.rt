// Why a pushed commit has no original.
ghost use Rattle.std.specs.Prelude.{◌≡◌};
ghost use Rattle.push_back.specs.Refusals.{of_apply, of_lay};
ghost use Rattle.push_back.specs.declared.refusal.TreeRefusal.TheVariants.{OutOfMemory};

use filter_apply::ApplyError;
use filter_unapply::LayFault;
use git_objects::{Name, Quantity};
use path_names::Path;
use std::alloc::AllocError;

/// Why a pushed tree has no original.
#[derive(Debug, Drop)]
pub enum TreeRefusal {
    /// The tree is the one before.
    NoChange,
    /// The workspace's file can't be read, or moves itself.
    BadWorkspace,
    /// The original path that would be shown from now on isn't pushed as it stands.
    Unseen { path: Path },
    /// No path is shown as this one. It is a projected one.
    NotHeld { path: Path },
    /// The first path has no place beside the second. Both are original paths.
    Blocked { path: Path, by: Path },
    /// The original tree is too large.
    TreeLimit { which: Quantity },
    /// Another kind or body has the name of an object that is made.
    Collision { name: Name },
    OutOfMemory,
}

/// Why pushed commits have no originals.
#[derive(Debug, Drop)]
pub struct OriginalError {
    /// The number of the first commit that has none, from 1.
    pub n: u32,
    pub refusal: TreeRefusal,
}

impl From<AllocError> for TreeRefusal {
    ghost from_gives = { λ _ r. r ≡ OutOfMemory };

    fn from(_e: AllocError) -> TreeRefusal {
        TreeRefusal::OutOfMemory
    }
}

impl From<LayFault> for TreeRefusal {
    ghost from_gives = { λ f r. r ≡ of_lay f };

    fn from(fault: LayFault) -> TreeRefusal {
        match fault {
            LayFault::NotHeld { path } => TreeRefusal::NotHeld { path },
            LayFault::Blocked { path, by } => TreeRefusal::Blocked { path, by },
            LayFault::Collision { name } => TreeRefusal::Collision { name },
            LayFault::OutOfMemory => TreeRefusal::OutOfMemory,
        }
    }
}

impl From<ApplyError> for TreeRefusal {
    ghost from_gives = { λ f r. r ≡ of_apply f };

    fn from(fault: ApplyError) -> TreeRefusal {
        match fault {
            ApplyError::Collision { name } => TreeRefusal::Collision { name },
            ApplyError::OutOfMemory => TreeRefusal::OutOfMemory,
        }
    }
}
