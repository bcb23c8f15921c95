// Why a pushed stream isn't replayed.
use fast_import::StreamFault;
use git_objects::Name;

/// Why a pushed stream isn't replayed.
#[derive(Clone, Copy, Debug, PartialEq, Eq)]
pub enum PushError {
    /// The source failed.
    ReadFault,
    /// A commit or a reset is on another ref. The place is the first byte of its first line.
    OtherRef {
        at: u64,
    },
    /// A commit's parent, or at the end the ref, isn't the commit that was pushed last, or before the first one the
    /// projection.
    NotAtHead {
        expected: Option<Name>,
        got: Option<Name>,
    },
    /// The further parents of the commit of this number, from 1, are refused.
    FurtherParents {
        n: u32,
    },
    /// A fault of any stream.
    Stream(StreamFault),
}
