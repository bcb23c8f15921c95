// Named texts, and texts that pieces spell.
use crate::{Fault, Word};
use std::alloc::{AllocError, Global};

// A text under its name.
#[derive(Drop)]
struct Text {
    name: Vec<u8>,
    bytes: Vec<u8>,
}

/// Texts under their names. A name that is given again stands for the later text.
#[derive(Drop)]
pub struct Texts {
    alloc: Global,
    texts: Vec<Text>,
}

impl Texts {
    /// No texts.
    pub fn new(alloc: Global) -> Texts {
        Texts {
            alloc,
            texts: Vec::new(alloc),
        }
    }

    /// The text of that name.
    pub fn get(&self, name: &[u8]) -> Option<&[u8]> {
        let mut found = None;
        for text in &self.texts {
            if text.name.as_slice() == name {
                found = Some(text.bytes.as_slice());
            }
        }
        found
    }

    /// The first name that a text with these bytes was given.
    pub fn name_of(&self, bytes: &[u8]) -> Option<&[u8]> {
        for text in &self.texts {
            if text.bytes.as_slice() == bytes {
                return Some(&text.name);
            }
        }
        None
    }

    /// Gives a name to a text.
    pub fn set(&mut self, name: &[u8], bytes: Vec<u8>) -> Result<(), AllocError> {
        let name = name.to_vec(self.alloc)?;
        self.texts.push(Text { name, bytes })?;
        Ok(())
    }

    /// Adds a line to the text that came last.
    pub fn add_line(&mut self, line: &[u8]) -> Result<(), Fault> {
        match self.texts.last_mut() {
            Some(text) => {
                add_bytes(&mut text.bytes, line)?;
                add_bytes(&mut text.bytes, b"\n")
            }
            None => Err(Fault::BadLine),
        }
    }

    /// The bytes that pieces spell, one after another.
    pub fn spelled(&self, pieces: &[Word]) -> Result<Vec<u8>, Fault> {
        let mut bytes = Vec::new(self.alloc);
        for piece in pieces {
            self.add_piece(&mut bytes, piece)?;
        }
        Ok(bytes)
    }

    /// The bytes that one piece spells.
    pub fn word(&self, piece: &Word) -> Result<Vec<u8>, Fault> {
        let mut bytes = Vec::new(self.alloc);
        self.add_piece(&mut bytes, piece)?;
        Ok(bytes)
    }

    // Adds what a piece stands for: `upto:N` as many LF as make N bytes of all, `N*PIECE` so many times the piece.
    fn add_piece(&self, bytes: &mut Vec<u8>, piece: &Word) -> Result<(), Fault> {
        if piece.is_quoted {
            return add_bytes(bytes, &piece.bytes);
        }
        match piece.text().strip_prefix("upto:") {
            Some(size) => fill(bytes, size),
            None => self.add_times(bytes, piece.text()),
        }
    }

    // Adds a piece so many times as the number in front of a star says, and once where there is none.
    fn add_times(&self, bytes: &mut Vec<u8>, text: &str) -> Result<(), Fault> {
        let (count, inner) = times(text);
        for _ in 0..count {
            self.add_plain(bytes, inner)?;
        }
        Ok(())
    }

    // Adds what a word stands for: `hex:DIGITS` bytes, `u8:N`, `u16:N` and `u32:N` a number whose highest byte comes
    // first, and any other word what `add_named` adds.
    fn add_plain(&self, bytes: &mut Vec<u8>, text: &str) -> Result<(), Fault> {
        match text.split_once(':') {
            Some(("hex", digits)) => add_hex(bytes, digits),
            Some(("u8", digits)) => add_u8(bytes, digits),
            Some(("u16", digits)) => add_u16(bytes, digits),
            Some(("u32", digits)) => add_u32(bytes, digits),
            _ => self.add_named(bytes, text),
        }
    }

    // Adds the text that `$NAME` names, and any other word itself.
    fn add_named(&self, bytes: &mut Vec<u8>, text: &str) -> Result<(), Fault> {
        let Some(name) = text.strip_prefix('$') else {
            return add_bytes(bytes, text.as_bytes());
        };
        match self.get(name.as_bytes()) {
            Some(named) => add_bytes(bytes, named),
            None => Err(Fault::BadLine),
        }
    }
}

// The number in front of a star, and what follows the star; or once the whole.
fn times(text: &str) -> (u64, &str) {
    if let Some((count, inner)) = text.split_once('*') {
        if let Ok(count) = count.parse::<u64>() {
            return (count, inner);
        }
    }
    (1, text)
}

fn add_bytes(bytes: &mut Vec<u8>, more: &[u8]) -> Result<(), Fault> {
    bytes.extend_from_slice(more).map_err(Fault::from)
}

// Adds LF until there are so many bytes.
fn fill(bytes: &mut Vec<u8>, size: &str) -> Result<(), Fault> {
    match size.parse::<usize>() {
        Ok(size) if bytes.len() <= size => bytes.resize(size, b'\n').map_err(Fault::from),
        _ => Err(Fault::BadLine),
    }
}

fn add_hex(bytes: &mut Vec<u8>, digits: &str) -> Result<(), Fault> {
    match &hex::decode(*bytes.allocator(), digits.as_bytes()) {
        Ok(read) => add_bytes(bytes, read),
        Err(_) => Err(Fault::BadLine),
    }
}

fn add_u8(bytes: &mut Vec<u8>, digits: &str) -> Result<(), Fault> {
    match digits.parse::<u8>() {
        Ok(number) => add_bytes(bytes, &number.to_be_bytes()),
        Err(_) => Err(Fault::BadLine),
    }
}

fn add_u16(bytes: &mut Vec<u8>, digits: &str) -> Result<(), Fault> {
    match digits.parse::<u16>() {
        Ok(number) => add_bytes(bytes, &number.to_be_bytes()),
        Err(_) => Err(Fault::BadLine),
    }
}

fn add_u32(bytes: &mut Vec<u8>, digits: &str) -> Result<(), Fault> {
    match digits.parse::<u32>() {
        Ok(number) => add_bytes(bytes, &number.to_be_bytes()),
        Err(_) => Err(Fault::BadLine),
    }
}
