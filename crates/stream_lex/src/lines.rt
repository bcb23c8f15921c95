// Lines.
ghost use Rattle.std.specs.Prelude.{◌≡◌, ◌≤◌, ◌<◌, ◌+◌, Some, false, length, take, drop, IfOk};
ghost use Rattle.std.specs.Prelude.{IfNone, IfSome};
ghost use Rattle.git_objects.specs.declared.limits.TheConstants.{LINE_BYTES, STREAM_BYTES};
ghost use Rattle.stream_lex.specs.Lines.{split_line, any_line, line_at, is_comment, HasNone};
ghost use Rattle.stream_lex.specs.Cutting.{Advances};
ghost use Rattle.stream_lex.specs.Passed.{IsPast};
ghost use Rattle.stream_lex.specs.Views.{Tells, WaitsClear, input, read_line};

use crate::{Cursor, LimitFault, LineView, Stop, Wanted};
use git_objects::limits::{LINE_BYTES, STREAM_BYTES};
use memchr::memchr;

// A line with what is behind it, or none at the end.
type Found<'a> = Result<(Option<LineView<'a>>, Cursor<'a>), Stop<LimitFault>>;

/// Whether a line begins with `#`.
pub fn is_comment(line: &[u8]) -> bool
    ensures { result ≡ is_comment line.now }
{
    match line {
        [] => false,
        [x, ..] => *x == b'#',
    }
}

/// The next line, a comment or not, or none at the end.
pub fn any_line<'a>(
    ended: bool,
    i: Cursor<'a>,
) -> Result<(Option<LineView<'a>>, Cursor<'a>), Stop<LimitFault>>
    requires { i.at ≤ STREAM_BYTES }
    ensures { Tells read_line result (any_line ended (input i.entry)) }
{
    next_line(ended, i, 0)
}

/// The next line behind comments, or none at the end.
pub fn line<'a>(
    ended: bool,
    i: Cursor<'a>,
) -> Result<(Option<LineView<'a>>, Cursor<'a>), Stop<LimitFault>>
    requires { i.at ≤ STREAM_BYTES }
    ensures told { Tells read_line result (line_at ended (input i.entry)) }
    ensures within { IfOk result (λ x. x.1.at ≤ STREAM_BYTES) }
    ensures steps { IfOk result (λ x. Advances (input i.entry) (input x.1)) }
{
    let (_, found) = look(ended, i, 0);
    found
}

// Where the next line begins that is no comment, and what is read there. The first `clear` bytes have no LF.
pub fn look<'a>(
    ended: bool,
    i: Cursor<'a>,
    clear: usize,
) -> (
    Cursor<'a>,
    Result<(Option<LineView<'a>>, Cursor<'a>), Stop<LimitFault>>,
)
    requires at { i.at ≤ STREAM_BYTES }
    requires room { clear ≤ length i.rest.now }
    requires clear { HasNone i.rest.now clear }
    ensures told { Tells read_line result.1 (line_at ended (input i.entry)) }
    ensures within { IfOk result.1 (λ x. x.1.at ≤ STREAM_BYTES) }
    ensures steps { IfOk result.1 (λ x. Advances (input i.entry) (input x.1)) }
    ensures from_within { result.0.at ≤ STREAM_BYTES }
    ensures from_steps { Advances (input i.entry) (input result.0) }
    ensures past { ended ≡ false → IsPast (input i.entry) (input result.0) }
    ensures waits { WaitsClear result.1 ended result.0.rest.now }
{
    let mut i = i;
    let mut clear = clear;
    'lines: loop {
        match next_line(ended, i, clear) {
            Err(stop) => return (i, Err(stop)),
            Ok((None, after)) => return (i, Ok((None, after))),
            Ok((Some(line), after)) => {
                if !is_comment(line.bytes) {
                    return (i, Ok((Some(line), after)));
                }
                i = after;
                clear = 0;
            }
        }
    }
}

// The next line, a comment or not, where the first `clear` bytes have no LF.
fn next_line<'a>(
    ended: bool,
    i: Cursor<'a>,
    clear: usize,
) -> Result<(Option<LineView<'a>>, Cursor<'a>), Stop<LimitFault>>
    requires at { i.at ≤ STREAM_BYTES }
    requires room { clear ≤ length i.rest.now }
    requires clear { HasNone i.rest.now clear }
    ensures told { Tells read_line result (any_line ended (input i.entry)) }
    ensures waits { WaitsClear result ended i.entry.rest.now }
{
    let at = i.at;
    let rest = i.rest;
    let Some(n) = line_end(rest, clear) else {
        return unended(ended, i);
    };
    if n as u64 + 1 > STREAM_BYTES - at {
        return Err(Stop::Fault(LimitFault::StreamTooLong));
    }
    let line = LineView {
        at,
        bytes: &rest[..n],
    };
    let after = Cursor {
        at: at + (n as u64 + 1),
        rest: &rest[n + 1..],
    };
    Ok((Some(line), after))
}

// The next line where no LF ends it.
fn unended<'a>(
    ended: bool,
    i: Cursor<'a>,
) -> Result<(Option<LineView<'a>>, Cursor<'a>), Stop<LimitFault>>
    requires at { i.at ≤ STREAM_BYTES }
    requires none { HasNone i.rest.now (LINE_BYTES + 1) }
    ensures told { Tells read_line result (any_line ended (input i.entry)) }
    ensures waits { WaitsClear result ended i.entry.rest.now }
{
    let at = i.at;
    let rest = i.rest;
    if rest.len() > LINE_BYTES {
        if at + LINE_BYTES as u64 + 1 > STREAM_BYTES {
            return Err(Stop::Fault(LimitFault::StreamTooLong));
        }
        return Err(Stop::Fault(LimitFault::LongLine { at }));
    }
    if rest.len() as u64 > STREAM_BYTES - at {
        return Err(Stop::Fault(LimitFault::StreamTooLong));
    }
    if !ended {
        return Err(Stop::More(Wanted::Line { at }));
    }
    if rest.is_empty() {
        return Ok((None, i));
    }
    let line = LineView { at, bytes: rest };
    let after = Cursor {
        at: at + rest.len() as u64,
        rest: &rest[rest.len()..],
    };
    Ok((Some(line), after))
}

// Where the first LF stands, among the bytes that a line may have and one more. The first `clear` bytes have none.
fn line_end(rest: &[u8], clear: usize) -> Option<usize>
    requires room { clear ≤ length rest.now }
    requires clear { HasNone rest.now clear }
    ensures found { IfSome result (λ n. split_line rest.now ≡ Some (take n rest.now, drop (n + 1) rest.now)) }
    ensures within { IfSome result (λ n. (n < length rest.now) × (n ≤ LINE_BYTES)) }
    ensures none { IfNone result (HasNone rest.now (LINE_BYTES + 1)) }
{
    let end = rest.len().min(LINE_BYTES + 1);
    let from = clear.min(end);
    match memchr(b'\n', &rest[from..end]) {
        Some(n) => Some(from + n),
        None => None,
    }
}
