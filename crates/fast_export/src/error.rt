// Why a text isn't written.
ghost use Rattle.std.specs.Prelude.{◌≡◌};
ghost use Rattle.fast_export.specs.declared.error.ExportError.TheVariants.{OutOfMemory};

use std::alloc::{AllocError, AllocFailed};

/// Why a history isn't exported.
#[derive(Clone, Copy, Debug, PartialEq, Eq)]
pub enum ExportError {
    /// The sink failed.
    Fault,
    /// There is no memory, or the sink has none.
    OutOfMemory,
}

impl From<AllocError> for ExportError {
    ghost from_gives = { λ _ e. e ≡ OutOfMemory };

    fn from(_error: AllocError) -> ExportError {
        ExportError::OutOfMemory
    }
}

impl<T: Drop> From<AllocFailed<T>> for ExportError {
    ghost from_gives = { λ _ e. e ≡ OutOfMemory };

    fn from(_error: AllocFailed<T>) -> ExportError {
        ExportError::OutOfMemory
    }
}
