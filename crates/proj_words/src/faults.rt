// The outcomes of faults that lower crates tell.
ghost use Rattle.std.specs.Prelude.{◌≡◌};
ghost use Rattle.proj_words.specs.Faults.{filter_outcome, route_outcome, stream_outcome};
ghost use Rattle.proj_words.specs.declared.outcome.Outcome.TheVariants.{OutOfMemory};

use crate::{FilterWhat, Outcome};
use filter_routes::RouteFault;
use filter_text::FilterFault;
use std::alloc::AllocError;
use stream_reader::StreamFault;

impl From<AllocError> for Outcome {
    ghost from_gives = { λ _ outcome. outcome ≡ OutOfMemory };

    fn from(_e: AllocError) -> Outcome {
        Outcome::OutOfMemory
    }
}

impl From<StreamFault> for Outcome {
    ghost from_gives = { λ fault outcome. outcome ≡ stream_outcome fault };

    fn from(fault: StreamFault) -> Outcome {
        match fault {
            StreamFault::Syntax { at } => Outcome::Syntax { at },
            StreamFault::Unsupported { at, what } => Outcome::Unsupported { at, what },
            StreamFault::Unresolved { at } => Outcome::Unresolved { at },
            StreamFault::BadPath { at } => Outcome::BadPath { at },
            StreamFault::NoSource { at } => Outcome::NoSource { at },
            StreamFault::Limit { at, which } => Outcome::Limit {
                which,
                at: Some(at),
            },
            StreamFault::Collision { name } => Outcome::Collision { name },
            StreamFault::OutOfMemory => Outcome::OutOfMemory,
        }
    }
}

impl From<FilterFault> for Outcome {
    ghost from_gives = { λ fault outcome. outcome ≡ filter_outcome fault };

    fn from(fault: FilterFault) -> Outcome {
        let what = match fault {
            FilterFault::TooLong => FilterWhat::TooLong,
            FilterFault::TooDeep => FilterWhat::TooDeep,
            FilterFault::Syntax => FilterWhat::Syntax,
            FilterFault::WorkspacePlace => FilterWhat::WorkspacePlace,
            FilterFault::TooMany => FilterWhat::TooMany,
            FilterFault::OutOfMemory => return Outcome::OutOfMemory,
        };
        Outcome::FilterFault { what }
    }
}

impl From<RouteFault> for Outcome {
    ghost from_gives = { λ fault outcome. outcome ≡ route_outcome fault };

    fn from(fault: RouteFault) -> Outcome {
        match fault {
            RouteFault::NotKeeping { piece } => Outcome::NotKeeping { piece },
            RouteFault::Overlap {
                list,
                first,
                second,
            } => Outcome::Overlap {
                list,
                first,
                second,
            },
            RouteFault::OutOfMemory => Outcome::OutOfMemory,
        }
    }
}
