// Lines that may be missing, and lines that must be there.
ghost use Rattle.std.specs.Prelude.{◌≤◌, IfOk};
ghost use Rattle.git_objects.specs.declared.limits.TheConstants.{STREAM_BYTES};
ghost use Rattle.stream_lex.specs.Views.{input, read_line};
ghost use Rattle.stream_reader.specs.Reading.{option_line, need_line};
ghost use Rattle.stream_reader.specs.Views.{Tells, line_read};

use crate::StreamFault;
use crate::halt::Halt;
use path_names::strip;
use stream_lex::{Cursor, LineView, line};

// The next line where it begins with a word, without this word. Else it isn't taken.
#[tactic(auto, unfolding(crate::specs::Reading::option_line))]
pub fn option_line<'a>(
    word: &[u8],
    ended: bool,
    i: Cursor<'a>,
) -> Result<(Option<LineView<'a>>, Cursor<'a>), Halt>
    requires { i.at ≤ STREAM_BYTES }
    ensures told { Tells read_line result (option_line word.now ended (input i.entry)) }
    ensures within { IfOk result (λ x. x.1.at ≤ STREAM_BYTES) }
{
    let (found, after) = line(ended, i)?;
    let Some(l) = found else {
        return Ok((None, i));
    };
    match strip(word, l.bytes) {
        None => Ok((None, i)),
        Some(bytes) => Ok((Some(LineView { at: l.at, bytes }), after)),
    }
}

// The next line, which must be there.
#[tactic(auto, unfolding(crate::specs::Reading::need_line))]
pub fn need_line<'a>(ended: bool, i: Cursor<'a>) -> Result<(LineView<'a>, Cursor<'a>), Halt>
    requires { i.at ≤ STREAM_BYTES }
    ensures told { Tells line_read result (need_line ended (input i.entry)) }
    ensures within { IfOk result (λ x. x.1.at ≤ STREAM_BYTES) }
{
    match line(ended, i)? {
        (None, after) => Err(Halt::Fault(StreamFault::Syntax { at: after.at })),
        (Some(l), after) => Ok((l, after)),
    }
}
