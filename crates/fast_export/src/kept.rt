// What is kept of a text.
ghost use Rattle.std.specs.Prelude.{◌≡◌, [], IfOk};

use crate::known::KnownLines;
use crate::sending::PIECE;
use std::alloc::{AllocError, Global};

/// What is kept of a text on its way: what isn't sent yet, and the lines of directories that were written.
#[derive(Drop)]
pub struct Kept {
    pub text: Vec<u8>,
    pub lines: KnownLines,
}

impl Kept {
    pub fn new(alloc: Global) -> Result<Kept, AllocError>
        ensures text { IfOk result (λ k. k.text.items ≡ []) }
        ensures lines { IfOk result (λ k. k.lines ≡ []) }
    {
        let text = Vec::with_capacity(alloc, 2 * PIECE)?;
        Ok(Kept {
            text,
            lines: KnownLines::new(alloc),
        })
    }
}
