// A reader of a stream that is fed in pieces.
ghost use Rattle.std.specs.Prelude.{◌≡◌, ◌≤◌, ◌<◌, [], false, true, IfSome, OnOk, OnErr};
ghost use Rattle.git_objects.specs.declared.limits.TheConstants.{STREAM_BYTES};
ghost use Rattle.stream_lex.specs.Cutting.{place};
ghost use Rattle.stream_reader.specs.Readers.{IsPlace, TellsTurn, TellsNext, reading, fed, wanted_now};
ghost use Rattle.stream_reader.specs.Readers.{Follows, OnCommand, OnMore, came, left};
ghost use Rattle.stream_reader.specs.Replayable.{IfTold};
ghost use Rattle.stream_reader.specs.Verdicts.{start, start_in, tagged_start};
ghost use Rattle.stream_reader.specs.Waited.{IsNear};

use crate::halt::Halt;
use crate::progress::{Event, Manner, Phase, Progress};
use crate::turns::turn;
use crate::{Placed, StreamFault};
use std::alloc::{AllocError, Global};
use std::marker::Model;
use stream_lex::{Lexer, Wanted};

/// What `Reader::next` tells.
#[derive(Drop)]
pub enum Next {
    Command(Placed),
    /// It can't be told before more has come.
    More,
    /// The stream ends, or `done` was read.
    Ended,
}

/// Reads the commands of a stream one by one. It keeps what was fed and isn't read yet.
#[derive(Drop)]
pub struct Reader {
    lexer: Lexer,
    progress: Progress,
    // what was waited for when the last answer was that more must come: nothing is read again before it is there
    waits: Option<Wanted>,
    alloc: Global,
}

impl Model for Reader {
    ghost use Rattle.stream_reader.specs.Readers.{Reading, reading};

    ghost Value = { Reading };

    ghost view = { λ r. reading r.progress r.lexer };

    ghost use Rattle.stream_reader.specs.Readers.{IsWaiting};

    ghost invariant = { λ r. IsWaiting r.waits (reading r.progress r.lexer) };
}

impl Reader {
    /// A reader of a stream of which nothing has come. It refuses the command `tag`.
    pub fn new(alloc: Global) -> Reader
        ensures { result ≡ record {
          progress = start;
          input = record { at = 0; rest = [] };
          ended = false;
        } }
    {
        Reader::of(alloc, false)
    }

    /// A reader of a stream of which nothing has come. It reads the command `tag`, too.
    pub fn tagged(alloc: Global) -> Reader
        ensures { result ≡ record {
          progress = tagged_start;
          input = record { at = 0; rest = [] };
          ended = false;
        } }
    {
        Reader::of(alloc, true)
    }

    fn of(alloc: Global, takes_tags: bool) -> Reader
        ensures { result ≡ record {
          progress = start_in takes_tags;
          input = record { at = 0; rest = [] };
          ended = false;
        } }
    {
        Reader {
            lexer: Lexer::new(alloc),
            progress: Progress {
                phase: Phase::Between,
                manner: Manner {
                    wants_done: false,
                    takes_tags,
                },
            },
            waits: None,
            alloc,
        }
    }

    /// Takes the next piece of the stream. What was read is given up.
    pub fn feed(&mut self, piece: &[u8]) -> Result<(), AllocError>
        requires { self.old.ended ≡ false }
        ensures ok { OnOk result (self.new ≡ fed piece.now false self.old) }
        ensures err { OnErr result (self.new ≡ self.old) }
    {
        self.lexer.feed(piece)
    }

    /// Nothing more comes.
    pub fn end(&mut self)
        ensures { self.new ≡ record {
          progress = self.old.progress;
          input = self.old.input;
          ended = true;
        } }
    {
        self.lexer.end();
    }

    /// The next command with the place of its first line, that more must come, or the end. After a fault every later
    /// call gives the same fault, want of memory apart, after which the reader must be dropped.
    pub fn next(&mut self) -> Result<Next, StreamFault>
        ensures told { TellsNext result self.old self.new }
        ensures follows { Follows result self.old self.new }
        ensures lowers { OnCommand result (left self.new < left self.old) }
        ensures more { OnMore result (came self.old ≤ STREAM_BYTES) }
        ensures near { OnMore result (IsNear self.old) }
        ensures came { OnOk result (came self.new ≡ came self.old) }
        ensures replayable { IfTold result }
    {
        self.read()
    }

    // Reads up to the next command, the end, a fault, or what must come.
    fn read(&mut self) -> Result<Next, StreamFault>
        ensures { TellsNext result self.old self.new }
    {
        self.waits = still_wanted(&self.lexer, self.waits);
        if self.waits.is_some() {
            return Ok(Next::More);
        }
        'turns: loop {
            match advance(self.alloc, &mut self.lexer, &mut self.progress) {
                Err(Halt::More(wanted)) => {
                    self.waits = Some(wanted);
                    return Ok(Next::More);
                }
                Err(Halt::Memory) => return Err(StreamFault::OutOfMemory),
                Err(Halt::Fault(fault)) => return Err(fault),
                Ok(Event::Gives(placed)) => return Ok(Next::Command(placed)),
                Ok(Event::Ends) => return Ok(Next::Ended),
                Ok(Event::Skips) => {}
            }
        }
    }
}

// What is waited for now where this was waited for.
fn still_wanted(lexer: &Lexer, waits: Option<Wanted>) -> Option<Wanted>
    requires { IfSome waits (λ w. IsPlace lexer.now (place w)) }
    ensures { result ≡ wanted_now waits lexer.now }
{
    match waits {
        None => None,
        Some(wanted) => lexer.still_wants(wanted),
    }
}

// One line or one command of what the lexer holds.
fn advance(alloc: Global, lexer: &mut Lexer, progress: &mut Progress) -> Result<Event, Halt>
    ensures { TellsTurn result (reading progress.old lexer.old) (reading progress.new lexer.new) }
{
    let i = lexer.cursor();
    let ended = lexer.has_ended();
    match turn(alloc, *progress, ended, i) {
        Err(halt) => Err(halt),
        Ok((event, behind, after)) => {
            let to = after.at;
            lexer.pass(to);
            *progress = behind;
            Ok(event)
        }
    }
}
