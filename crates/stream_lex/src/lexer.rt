// A lexer of a stream that is fed in pieces.
ghost use Rattle.std.specs.Prelude.{◌≡◌, ◌+◌, ◌-◌, ◌≤◌, [], false, true, OnOk, OnErr, length, drop};
ghost use Rattle.std.specs.Prelude.{vec_len};
ghost use Rattle.git_objects.specs.declared.limits.TheConstants.{STREAM_BYTES};
ghost use Rattle.stream_lex.specs.Lines.{line_at, block_at};
ghost use Rattle.stream_lex.specs.Views.{input};
ghost use Rattle.stream_lex.specs.Cutting.{grown, place, from_place, still_wanted};
ghost use Rattle.stream_lex.specs.Lexing.{TellsLine, TellsBlock, lex_fault};

use crate::lines::look;
use crate::{Cursor, LimitFault, Stop, Wanted, block, line};
use git_objects::Bytes;
use std::alloc::{AllocError, Global};
use std::marker::Model;

/// What `Lexer::line` tells.
#[derive(Drop)]
pub enum LineAnswer {
    /// A line without its LF, and the place of its first byte in the stream.
    Line { at: u64, bytes: Bytes },
    /// It can't be told before more has come.
    More,
    /// No line is left, and the stream has so many bytes.
    Ended { at: u64 },
}

/// What `Lexer::block` tells.
#[derive(Drop)]
pub enum BlockAnswer {
    /// So many bytes as were asked for.
    Block(Bytes),
    /// It can't be told before more has come.
    More,
    /// The stream ends before.
    Short,
}

/// Why a line or a block isn't handed out.
#[derive(Clone, Copy, Debug, PartialEq, Eq)]
pub enum LexFault {
    /// A line of more bytes than `limits::LINE_BYTES` begins there.
    LongLine { at: u64 },
    /// The stream has more bytes than `limits::STREAM_BYTES`.
    StreamTooLong,
    OutOfMemory,
}

impl From<LimitFault> for LexFault {
    ghost from_gives = { λ l f. f ≡ lex_fault l };

    fn from(fault: LimitFault) -> LexFault {
        match fault {
            LimitFault::LongLine { at } => LexFault::LongLine { at },
            LimitFault::StreamTooLong => LexFault::StreamTooLong,
        }
    }
}

/// Keeps what was fed and isn't handed out.
#[derive(Drop)]
pub struct Lexer {
    // the bytes from the place `base` on, of which `used` are handed out
    bytes: Vec<u8>,
    base: u64,
    used: usize,
    // behind the comments that were looked at, and how many bytes from there on are known to have no LF
    from: usize,
    clear: usize,
    ended: bool,
    alloc: Global,
}

impl Model for Lexer {
    ghost use Rattle.stream_lex.specs.Lexing.{Lexed};

    ghost Value = { Lexed };

    ghost use Rattle.stream_lex.specs.Held.{held, IsHeld};

    ghost view = { held };

    ghost invariant = { IsHeld };
}

impl Lexer {
    /// A lexer of a stream of which nothing has come.
    pub fn new(alloc: Global) -> Lexer
        ensures { result ≡ record { input = record { at = 0; rest = [] }; ended = false } }
    {
        Lexer {
            bytes: Vec::new(alloc),
            base: 0,
            used: 0,
            from: 0,
            clear: 0,
            ended: false,
            alloc,
        }
    }

    /// Takes the next piece of the stream. Bytes that were handed out are given up.
    pub fn feed(&mut self, piece: &[u8]) -> Result<(), AllocError>
        requires { self.old.ended ≡ false }
        ensures ok { OnOk result
            (self.new ≡ record { input = grown piece.now self.old.input; ended = false }) }
        ensures err { OnErr result (self.new ≡ self.old) }
    {
        self.give_up();
        self.bytes.extend_from_slice(piece)?;
        Ok(())
    }

    /// Nothing more comes.
    pub fn end(&mut self)
        ensures { self.new ≡ record { input = self.old.input; ended = true } }
    {
        self.ended = true;
    }

    /// The next line behind comments, without its LF.
    pub fn line(&mut self) -> Result<LineAnswer, LexFault>
        ensures { TellsLine result self.old self.new (line_at self.old.ended self.old.input) }
    {
        let start = self.base + self.used as u64;
        let at = self.base + self.from as u64;
        let rest = &self.bytes[self.from..];
        let (from, found) = look(self.ended, Cursor { at, rest }, self.clear);
        match found {
            Err(Stop::More(_)) => {
                let passed = (from.at - at) as usize;
                let clear = from.rest.len();
                self.from += passed;
                self.clear = clear;
                Ok(LineAnswer::More)
            }
            Err(Stop::Fault(fault)) => Err(LexFault::from(fault)),
            Ok((None, after)) => {
                let by = (after.at - start) as usize;
                self.used += by;
                self.from = self.used;
                self.clear = 0;
                Ok(LineAnswer::Ended { at: after.at })
            }
            Ok((Some(line), after)) => {
                let Ok(bytes) = Vec::from_slice(self.alloc, line.bytes) else {
                    return Err(LexFault::OutOfMemory);
                };
                let by = (after.at - start) as usize;
                self.used += by;
                self.from = self.used;
                self.clear = 0;
                Ok(LineAnswer::Line {
                    at: line.at,
                    bytes: Bytes::of(bytes),
                })
            }
        }
    }

    /// The next `size` bytes, with one LF behind them passed over where it is there.
    pub fn block(&mut self, size: u32) -> Result<BlockAnswer, LexFault>
        ensures { TellsBlock result self.old self.new (block_at size self.old.ended self.old.input) }
    {
        let rest = &self.bytes[self.used..];
        let at = self.base + self.used as u64;
        match block(size as usize, self.ended, Cursor { at, rest }) {
            Err(Stop::More(_)) => Ok(BlockAnswer::More),
            Err(Stop::Fault(fault)) => Err(LexFault::from(fault)),
            Ok((None, _)) => Ok(BlockAnswer::Short),
            Ok((Some(found), after)) => {
                let Ok(bytes) = Vec::from_slice(self.alloc, found) else {
                    return Err(LexFault::OutOfMemory);
                };
                let by = (after.at - at) as usize;
                self.used += by;
                self.from = self.used;
                self.clear = 0;
                Ok(BlockAnswer::Block(Bytes::of(bytes)))
            }
        }
    }

    /// What isn't handed out, lent: `line` and `block` of this crate read it without copies, and `pass` then hands it
    /// out.
    pub fn cursor(&self) -> Cursor<'_>
        ensures value { input result ≡ self.now.input }
        ensures within { result.at ≤ STREAM_BYTES }
    {
        Cursor {
            at: self.base + self.used as u64,
            rest: &self.bytes[self.used..],
        }
    }

    // What isn't handed out from a place on, lent.
    fn cursor_from(&self, at: u64) -> Cursor<'_>
        requires within { at ≤ STREAM_BYTES }
        requires from { self.now.input.at ≤ at }
        requires room { at ≤ self.now.input.at + length self.now.input.rest }
        ensures value { input result ≡ from_place at self.now.input }
        ensures within { result.at ≤ STREAM_BYTES }
    {
        let by = (at - self.base) as usize;
        Cursor {
            at,
            rest: &self.bytes[by..],
        }
    }

    /// What is waited for now where `wanted` was waited for before; None where it can be told.
    pub fn still_wants(&self, wanted: Wanted) -> Option<Wanted>
        requires within { place wanted ≤ STREAM_BYTES }
        requires from { self.now.input.at ≤ place wanted }
        requires room { place wanted ≤ self.now.input.at + length self.now.input.rest }
        ensures { result ≡ still_wanted wanted self.now.ended self.now.input }
    {
        match wanted {
            Wanted::Line { at } => match line(self.ended, self.cursor_from(at)) {
                Err(Stop::More(wanted)) => Some(wanted),
                Err(Stop::Fault(_)) | Ok(_) => None,
            },
            Wanted::Block { at, size } => match block(size, self.ended, self.cursor_from(at)) {
                Err(Stop::More(wanted)) => Some(wanted),
                Err(Stop::Fault(_)) | Ok(_) => None,
            },
        }
    }

    /// Whether nothing more comes.
    pub fn has_ended(&self) -> bool
        ensures { result ≡ self.now.ended }
    {
        self.ended
    }

    /// Hands out what stands before a place.
    pub fn pass(&mut self, to: u64)
        requires within { to ≤ STREAM_BYTES }
        requires from { self.old.input.at ≤ to }
        requires room { to ≤ self.old.input.at + length self.old.input.rest }
        ensures { self.new ≡ record {
          input = record { at = to; rest = drop (to - self.old.input.at) self.old.input.rest };
          ended = self.old.ended;
        } }
    {
        let by = (to - (self.base + self.used as u64)) as usize;
        self.used += by;
        self.from = self.used;
        self.clear = 0;
    }

    // Gives up the bytes that are handed out.
    fn give_up(&mut self)
        ensures { self.new ≡ self.old }
    {
        if self.used > 0 {
            let used = self.used;
            drop_front(&mut self.bytes, used);
            self.base += used as u64;
            self.from -= used;
            self.used = 0;
        }
    }
}

// Takes out the first n bytes and keeps the memory.
fn drop_front(bytes: &mut Vec<u8>, n: usize)
    requires { n ≤ vec_len bytes.old }
    ensures { bytes.new.items ≡ drop n bytes.old.items }
{
    let left = bytes.len() - n;
    bytes.as_mut_slice().copy_within(n.., 0);
    bytes.truncate(left);
}
