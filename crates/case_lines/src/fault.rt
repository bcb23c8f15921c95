// Why a line is not answered.
use std::alloc::{AllocError, AllocFailed};
use std::io;

/// Why a line of cases has no answer.
#[derive(Clone, Copy, Debug, PartialEq, Eq)]
pub enum Fault {
    /// The line has none of the forms, or names a text that isn't there.
    BadLine,
    OutOfMemory,
    /// Standard input or output failed.
    Device,
}

impl From<AllocError> for Fault {
    fn from(_error: AllocError) -> Fault {
        Fault::OutOfMemory
    }
}

impl<T: Drop> From<AllocFailed<T>> for Fault {
    fn from(_error: AllocFailed<T>) -> Fault {
        Fault::OutOfMemory
    }
}

impl From<io::Error> for Fault {
    fn from(_error: io::Error) -> Fault {
        Fault::Device
    }
}
