// Why nothing was read.

/// What reading waits for.
#[derive(Clone, Copy, Debug, PartialEq, Eq)]
pub enum Wanted {
    /// The end of the line that begins at a place, or of one behind it where it is a comment.
    Line { at: u64 },
    /// A block that begins at a place, and the byte behind it.
    Block { at: u64, size: usize },
}

/// Why nothing was read.
#[derive(Clone, Copy, Debug, PartialEq, Eq)]
pub enum Stop<F> {
    /// It can't be told before more has come.
    More(Wanted),
    /// What stands there is refused.
    Fault(F),
}

/// Why a line or a block is refused.
#[derive(Clone, Copy, Debug, PartialEq, Eq)]
pub enum LimitFault {
    /// A line of more bytes than `limits::LINE_BYTES` begins there.
    LongLine { at: u64 },
    /// The stream has more bytes than `limits::STREAM_BYTES`.
    StreamTooLong,
}
