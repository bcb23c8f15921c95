// Why nothing is shown.
ghost use Rattle.std.specs.Prelude.{◌≡◌};
ghost use Rattle.filter_apply.specs.Faults.{fault_of};
ghost use Rattle.filter_apply.specs.declared.fault.ApplyError.TheVariants.{OutOfMemory};

use git_objects::Name;
use path_trees::TreeFault;
use std::alloc::AllocError;

/// Why nothing is shown of a tree.
#[derive(Clone, Copy)]
pub enum ApplyError {
    /// Another kind or body has the name of a tree that is made.
    Collision { name: Name },
    OutOfMemory,
}

impl From<AllocError> for ApplyError {
    ghost from_gives = { λ _ f. f ≡ OutOfMemory };

    fn from(_e: AllocError) -> ApplyError {
        ApplyError::OutOfMemory
    }
}

impl From<TreeFault> for ApplyError {
    ghost from_gives = { λ t f. f ≡ fault_of t };

    fn from(fault: TreeFault) -> ApplyError {
        match fault {
            TreeFault::Collision { name } => ApplyError::Collision { name },
            TreeFault::OutOfMemory => ApplyError::OutOfMemory,
        }
    }
}
