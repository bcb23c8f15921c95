// Why an edit is refused.
ghost use Rattle.std.specs.Prelude.{◌≡◌};
ghost use Rattle.stage_tree.specs.declared.fault.StageFault.TheVariants.{OutOfMemory};

use std::alloc::AllocError;

/// Why an edit of a stage is refused, the first reason in this order. The stage shows the tree that it showed.
#[derive(Clone, Copy, Debug, PartialEq, Eq)]
pub enum StageFault {
    /// Nothing stands at the source.
    NoSource,
    /// A path that is put has more than 128 components.
    TooDeep,
    /// The text of a path that is put has more than 4,096 bytes.
    TooLong,
    /// More than 1,048,576 files would be left.
    TooMany,
    OutOfMemory,
}

impl From<AllocError> for StageFault {
    ghost from_gives = { λ _ fault. fault ≡ OutOfMemory };

    fn from(_error: AllocError) -> StageFault {
        StageFault::OutOfMemory
    }
}
