// Why nothing was read.
ghost use Rattle.std.specs.Prelude.{◌≡◌};
ghost use Rattle.stream_reader.specs.Views.{halt_of};
ghost use Rattle.stream_reader.specs.declared.halt.Halt.TheVariants.{Memory};

use crate::StreamFault;
use git_objects::Quantity;
use git_objects::limits::STREAM_BYTES;
use std::alloc::AllocError;
use stream_lex::{LimitFault, Stop, Wanted};

/// Why nothing was read.
#[derive(Clone, Copy)]
pub enum Halt {
    /// It can't be told before more has come.
    More(Wanted),
    /// There is no memory.
    Memory,
    Fault(StreamFault),
}

impl From<Stop<LimitFault>> for Halt {
    ghost from_gives = { λ s h. h ≡ halt_of s };

    fn from(stop: Stop<LimitFault>) -> Halt {
        match stop {
            Stop::More(wanted) => Halt::More(wanted),
            Stop::Fault(LimitFault::LongLine { at }) => Halt::Fault(StreamFault::Limit {
                at,
                which: Quantity::Line,
            }),
            Stop::Fault(LimitFault::StreamTooLong) => Halt::Fault(StreamFault::Limit {
                at: STREAM_BYTES,
                which: Quantity::Stream,
            }),
        }
    }
}

impl From<AllocError> for Halt {
    ghost from_gives = { λ _ h. h ≡ Memory };

    fn from(_e: AllocError) -> Halt {
        Halt::Memory
    }
}
