// Why a stream is refused.
ghost use Rattle.std.specs.Prelude.{◌≡◌};
ghost use Rattle.stream_reader.specs.declared.fault.StreamFault.TheVariants.{OutOfMemory};

use git_objects::{Name, Quantity};
use std::alloc::{AllocError, AllocFailed};

/// Why a stream is refused. A place is the first byte of the line in which the fault stands.
#[derive(Clone, Copy, Debug, PartialEq, Eq)]
pub enum StreamFault {
    /// A line fits no place, or one is missing: then the place is the stream's length.
    Syntax { at: u64 },
    /// What git-fast-import(1) knows and this doesn't read.
    Unsupported { at: u64, what: Feature },
    /// A mark, a name or a ref names nothing that is known.
    Unresolved { at: u64 },
    /// A text names no path.
    BadPath { at: u64 },
    /// Nothing is there that could be moved or copied.
    NoSource { at: u64 },
    /// More than there may be.
    Limit { at: u64, which: Quantity },
    /// Two objects have one name.
    Collision { name: Name },
    OutOfMemory,
}

impl From<AllocError> for StreamFault {
    ghost from_gives = { λ _ fault. fault ≡ OutOfMemory };

    fn from(_error: AllocError) -> StreamFault {
        StreamFault::OutOfMemory
    }
}

impl<T: Drop> From<AllocFailed<T>> for StreamFault {
    ghost from_gives = { λ _ fault. fault ≡ OutOfMemory };

    fn from(_error: AllocFailed<T>) -> StreamFault {
        StreamFault::OutOfMemory
    }
}

/// What isn't read of git-fast-import(1).
#[derive(Clone, Copy, Debug, PartialEq, Eq)]
pub enum Feature {
    /// The command `tag`.
    Tag,
    /// The command `option`.
    Options,
    /// The command `alias`.
    Alias,
    /// The command `ls`.
    Ls,
    /// The command `cat-blob`.
    CatBlob,
    /// The command `get-mark`.
    GetMark,
    /// The change `N`.
    Notes,
    /// The command `feature` with another word than `done`.
    FeatureLine,
    /// The line `encoding` of a commit.
    Encoding,
    /// The line `gpgsig` of a commit.
    Signature,
    /// Data up to a delimiter.
    Delimiter,
    /// The mode of a directory.
    DirectoryMode,
    /// A module that is no name.
    LinkTarget,
    /// A path without bytes.
    EmptyPath,
    /// A name of 20 zero bytes.
    ZeroName,
}
