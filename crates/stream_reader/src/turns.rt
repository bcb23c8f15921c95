// One line or one command of a stream.
ghost use Rattle.std.specs.Prelude.{◌≡◌, ◌≤◌, Ok, IfOk, true};
ghost use Rattle.git_objects.specs.declared.limits.TheConstants.{STREAM_BYTES};
ghost use Rattle.stream_lex.specs.Views.{input};
ghost use Rattle.stream_reader.specs.Commands.{gives, skips, between, at_the_end, changed, turn};
ghost use Rattle.stream_reader.specs.Views.{Tells, turn_read, command_kind, change_kind};

use crate::changes::change;
use crate::halt::Halt;
use crate::heads::{blob, head, reset, tag};
use crate::kinds::{ChangeKind, CommandKind, change_kind, command_kind};
use crate::progress::{Event, Manner, Phase, Progress};
use crate::{Command, Feature, Placed, StreamFault};
use std::alloc::Global;
use stream_lex::{Cursor, line};

// A command whose first line stands at a place, and what is expected behind it.
fn gives<'a>(
    at: u64,
    phase: Phase,
    manner: Manner,
    command: Command,
    rest: Cursor<'a>,
) -> (Event, Progress, Cursor<'a>)
    ensures value { Ok (turn_read result) ≡ gives at phase manner command true (input rest.entry) }
    ensures rest { result.2 ≡ rest.entry }
{
    let progress = Progress { phase, manner };
    (Event::Gives(Placed { at, command }), progress, rest)
}

fn skips<'a>(manner: Manner, rest: Cursor<'a>) -> (Event, Progress, Cursor<'a>)
    ensures value { Ok (turn_read result) ≡ skips manner true (input rest.entry) }
    ensures rest { result.2 ≡ rest.entry }
{
    let progress = Progress {
        phase: Phase::Between,
        manner,
    };
    (Event::Skips, progress, rest)
}

// Behind a line between commands, which stands at a place.
fn between<'a>(
    alloc: Global,
    kind: CommandKind<'a>,
    at: u64,
    manner: Manner,
    ended: bool,
    i: Cursor<'a>,
) -> Result<(Event, Progress, Cursor<'a>), Halt>
    requires { i.at ≤ STREAM_BYTES }
    ensures told { Tells turn_read result (between (command_kind kind.entry) at manner ended (input i.entry)) }
    ensures within { IfOk result (λ x. x.2.at ≤ STREAM_BYTES) }
{
    match kind {
        CommandKind::Empty | CommandKind::Idle => Ok(skips(manner, i)),
        CommandKind::WantsDone => {
            let manner = Manner {
                wants_done: true,
                takes_tags: manner.takes_tags,
            };
            Ok(skips(manner, i))
        }
        CommandKind::Done => Ok(gives(at, Phase::Finished, manner, Command::Done, i)),
        CommandKind::Blob => {
            let (command, rest) = blob(alloc, ended, i)?;
            Ok(gives(at, Phase::Between, manner, command, rest))
        }
        CommandKind::Commit(text) => {
            let (command, rest) = head(alloc, at, text, ended, i)?;
            Ok(gives(at, Phase::InCommit, manner, command, rest))
        }
        CommandKind::Reset(text) => {
            let (command, rest) = reset(alloc, at, text, ended, i)?;
            Ok(gives(at, Phase::Between, manner, command, rest))
        }
        CommandKind::Tag(text) => {
            if !manner.takes_tags {
                return Err(Halt::Fault(StreamFault::Unsupported {
                    at,
                    what: Feature::Tag,
                }));
            }
            let (command, rest) = tag(alloc, at, text, ended, i)?;
            Ok(gives(at, Phase::Between, manner, command, rest))
        }
        CommandKind::Refused(what) => Err(Halt::Fault(StreamFault::Unsupported { at, what })),
        CommandKind::Other => Err(Halt::Fault(StreamFault::Syntax { at })),
    }
}

// Behind the last line.
fn at_the_end<'a>(manner: Manner, i: Cursor<'a>) -> Result<(Event, Progress, Cursor<'a>), Halt>
    requires { i.at ≤ STREAM_BYTES }
    ensures told { Tells turn_read result (at_the_end i.entry.at manner true (input i.entry)) }
    ensures within { IfOk result (λ x. x.2.at ≤ STREAM_BYTES) }
{
    if manner.wants_done {
        return Err(Halt::Fault(StreamFault::Syntax { at: i.at }));
    }
    let progress = Progress {
        phase: Phase::Between,
        manner,
    };
    Ok((Event::Ends, progress, i))
}

// Behind a line of a commit's changes, which stands at a place and begins what is left before it.
fn changed<'a>(
    alloc: Global,
    kind: ChangeKind<'a>,
    at: u64,
    manner: Manner,
    ended: bool,
    before: Cursor<'a>,
    i: Cursor<'a>,
) -> Result<(Event, Progress, Cursor<'a>), Halt>
    requires before { before.at ≤ STREAM_BYTES }
    requires after { i.at ≤ STREAM_BYTES }
    ensures told { Tells turn_read result
        (changed (change_kind kind.entry) at manner ended (input before.entry) (input i.entry)) }
    ensures within { IfOk result (λ x. x.2.at ≤ STREAM_BYTES) }
{
    match kind {
        ChangeKind::Empty => Ok(gives(at, Phase::Between, manner, Command::CommitEnd, i)),
        ChangeKind::Other => Ok(gives(at, Phase::Between, manner, Command::CommitEnd, before)),
        ChangeKind::Modify(_)
        | ChangeKind::Delete(_)
        | ChangeKind::Rename(_)
        | ChangeKind::Copy(_)
        | ChangeKind::DeleteAll
        | ChangeKind::Notes => {
            let (change, rest) = change(alloc, at, kind, ended, i)?;
            Ok(gives(at, Phase::InCommit, manner, Command::Change(change), rest))
        }
    }
}

// Reads a command, or passes over a line that gives none.
#[tactic(auto, unfolding(crate::specs::Commands::turn))]
pub fn turn<'a>(
    alloc: Global,
    progress: Progress,
    ended: bool,
    i: Cursor<'a>,
) -> Result<(Event, Progress, Cursor<'a>), Halt>
    requires { i.at ≤ STREAM_BYTES }
    ensures told { Tells turn_read result (turn progress ended (input i.entry)) }
    ensures within { IfOk result (λ x. x.2.at ≤ STREAM_BYTES) }
{
    let manner = progress.manner;
    match progress.phase {
        Phase::Finished => Ok((Event::Ends, progress, i)),
        Phase::Between => match line(ended, i)? {
            (None, after) => at_the_end(manner, after),
            (Some(l), after) => {
                let kind = command_kind(l.bytes);
                between(alloc, kind, l.at, manner, ended, after)
            }
        },
        Phase::InCommit => match line(ended, i)? {
            (None, after) => {
                let at = after.at;
                Ok(gives(at, Phase::Between, manner, Command::CommitEnd, after))
            }
            (Some(l), after) => {
                let kind = change_kind(l.bytes);
                changed(alloc, kind, l.at, manner, ended, i, after)
            }
        },
    }
}
