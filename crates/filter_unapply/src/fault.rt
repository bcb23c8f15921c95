// Why a tree is not laid.
ghost use Rattle.std.specs.Prelude.{◌≡◌};
ghost use Rattle.filter_unapply.specs.Stored.{fault_of};
ghost use Rattle.filter_unapply.specs.declared.fault.LayFault.TheVariants.{OutOfMemory};

use git_objects::Name;
use path_names::Path;
use path_trees::TreeFault;
use std::alloc::AllocError;

/// Why a tree is not laid.
#[derive(Debug, Drop)]
pub enum LayFault {
    /// The first path of the tree, in path order, that no path is shown as. It is a projected one.
    NotHeld { path: Path },
    /// Two paths of what would be laid are comparable. `path` is, in path order, the first of those that come from the
    /// tree and are comparable with another, and `by` the first other one. Both are original paths.
    Blocked { path: Path, by: Path },
    /// Another kind or body has that name.
    Collision { name: Name },
    OutOfMemory,
}

impl From<AllocError> for LayFault {
    ghost from_gives = { λ _ f. f ≡ OutOfMemory };

    fn from(_e: AllocError) -> LayFault {
        LayFault::OutOfMemory
    }
}

impl From<TreeFault> for LayFault {
    ghost from_gives = { λ t f. f ≡ fault_of t };

    fn from(fault: TreeFault) -> LayFault {
        match fault {
            TreeFault::Collision { name } => LayFault::Collision { name },
            TreeFault::OutOfMemory => LayFault::OutOfMemory,
        }
    }
}
