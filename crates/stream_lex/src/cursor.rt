// What is still to be read of a stream.

/// What is still to be read, and the place of its first byte in the stream.
#[derive(Clone, Copy)]
pub struct Cursor<'a> {
    pub at: u64,
    pub rest: &'a [u8],
}

/// A line without its LF, and the place of its first byte in the stream.
#[derive(Clone, Copy)]
pub struct LineView<'a> {
    pub at: u64,
    pub bytes: &'a [u8],
}
