// Why an item isn't read.
ghost use Rattle.std.specs.Prelude.{◌≡◌};
ghost use Rattle.state_items.specs.declared.fault.ItemFault.TheVariants.{OutOfMemory};

use git_objects::Name;
use std::alloc::AllocError;

/// Why an item isn't read to its end.
#[derive(Clone, Copy, Debug, PartialEq, Eq)]
pub enum ItemFault {
    /// A rule is broken at this place: bytes from the item's front.
    Broken { at: u64 },
    /// Another object has this name.
    Collision { name: Name },
    OutOfMemory,
}

impl From<AllocError> for ItemFault {
    ghost from_gives = { λ _ fault. fault ≡ OutOfMemory };

    fn from(_error: AllocError) -> ItemFault {
        ItemFault::OutOfMemory
    }
}
