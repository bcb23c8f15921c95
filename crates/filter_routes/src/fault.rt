// Why a filter has no table.
ghost use Rattle.std.specs.Prelude.{◌≡◌};
ghost use Rattle.filter_routes.specs.declared.fault.RouteFault.TheVariants.{OutOfMemory};

use std::alloc::AllocError;

/// Why a filter is refused.
///
/// The pieces of a filter are all its parts but the chains. They are numbered from 0, each before its parts; the
/// branches of a list are numbered from 0 too.
#[derive(Clone, Copy, Debug, PartialEq, Eq)]
pub enum RouteFault {
    /// The first piece that may not stand inside of an exclude, as it doesn't only keep paths.
    NotKeeping { piece: u32 },
    /// Each piece may stand where it does, `list` is the first list outside of excludes with two branches that clash,
    /// and these are its first two: they have a path in common, or paths with comparable images.
    Overlap { list: u32, first: u32, second: u32 },
    /// Memory ran out, or the filter isn't sound and its lists grow too long for the place of its fault to be found.
    OutOfMemory,
}

impl From<AllocError> for RouteFault {
    ghost from_gives = { λ _ f. f ≡ OutOfMemory };

    fn from(_e: AllocError) -> RouteFault {
        RouteFault::OutOfMemory
    }
}
