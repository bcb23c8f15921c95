// Blocks of data.
ghost use Rattle.std.specs.Prelude.{◌≡◌, ◌≤◌, ◌<◌, ◌^◌, IfOk};
ghost use Rattle.git_objects.specs.declared.limits.TheConstants.{STREAM_BYTES};
ghost use Rattle.stream_lex.specs.Views.{input, line};
ghost use Rattle.stream_reader.specs.Blocks.{count, whole_block, sized_block, data_behind, blob_data};
ghost use Rattle.stream_reader.specs.Blocks.{message_behind, message_data, tag_data};
ghost use Rattle.stream_reader.specs.Views.{Tells, bytes_read};

use crate::halt::Halt;
use crate::lines::need_line;
use crate::{Feature, StreamFault};
use git_objects::Quantity;
use git_objects::limits::{BLOB_BYTES, MESSAGE_BYTES};
use path_names::{number, strip};
use stream_lex::{Cursor, LineView, block};

// How many bytes a line `data N` says.
fn count(line: &[u8]) -> Option<u64>
    ensures { result ≡ count line.now }
{
    let digits = strip(b"data ", line)?;
    number(digits)
}

// The next size bytes; at is the place of their `data` line.
fn whole_block<'a>(
    at: u64,
    size: u64,
    ended: bool,
    i: Cursor<'a>,
) -> Result<(&'a [u8], Cursor<'a>), Halt>
    requires within { i.at ≤ STREAM_BYTES }
    requires size { size < 2 ^ 63 }
    ensures told { Tells bytes_read result (whole_block at size ended (input i.entry)) }
    ensures within { IfOk result (λ x. x.1.at ≤ STREAM_BYTES) }
{
    match block(size as usize, ended, i)? {
        (None, _) => Err(Halt::Fault(StreamFault::Syntax { at })),
        (Some(bytes), rest) => Ok((bytes, rest)),
    }
}

fn sized_block<'a>(
    which: Quantity,
    most: u64,
    at: u64,
    size: u64,
    ended: bool,
    i: Cursor<'a>,
) -> Result<(&'a [u8], Cursor<'a>), Halt>
    requires within { i.at ≤ STREAM_BYTES }
    requires most { most < 2 ^ 63 }
    ensures told { Tells bytes_read result (sized_block which most at size ended (input i.entry)) }
    ensures within { IfOk result (λ x. x.1.at ≤ STREAM_BYTES) }
{
    if size > most {
        return Err(Halt::Fault(StreamFault::Limit { at, which }));
    }
    whole_block(at, size, ended, i)
}

// What stands behind a line `data N`.
#[tactic(auto, unfolding(crate::specs::Blocks::data_behind))]
fn data_behind<'a>(
    which: Quantity,
    most: u64,
    l: LineView<'a>,
    ended: bool,
    i: Cursor<'a>,
) -> Result<(&'a [u8], Cursor<'a>), Halt>
    requires within { i.at ≤ STREAM_BYTES }
    requires most { most < 2 ^ 63 }
    ensures told { Tells bytes_read result (data_behind which most (line l.entry) ended (input i.entry)) }
    ensures within { IfOk result (λ x. x.1.at ≤ STREAM_BYTES) }
{
    let at = l.at;
    if l.bytes.starts_with(b"data <<") {
        return Err(Halt::Fault(StreamFault::Unsupported {
            at,
            what: Feature::Delimiter,
        }));
    }
    let Some(size) = count(l.bytes) else {
        return Err(Halt::Fault(StreamFault::Syntax { at }));
    };
    sized_block(which, most, at, size, ended, i)
}

// A blob's data.
#[tactic(auto, unfolding(crate::specs::Blocks::blob_data))]
pub fn blob_data<'a>(ended: bool, i: Cursor<'a>) -> Result<(&'a [u8], Cursor<'a>), Halt>
    requires { i.at ≤ STREAM_BYTES }
    ensures told { Tells bytes_read result (blob_data ended (input i.entry)) }
    ensures within { IfOk result (λ x. x.1.at ≤ STREAM_BYTES) }
{
    let (l, after) = need_line(ended, i)?;
    data_behind(Quantity::Blob, BLOB_BYTES as u64, l, ended, after)
}

fn message_behind<'a>(
    l: LineView<'a>,
    ended: bool,
    i: Cursor<'a>,
) -> Result<(&'a [u8], Cursor<'a>), Halt>
    requires { i.at ≤ STREAM_BYTES }
    ensures told { Tells bytes_read result (message_behind (line l.entry) ended (input i.entry)) }
    ensures within { IfOk result (λ x. x.1.at ≤ STREAM_BYTES) }
{
    let at = l.at;
    if l.bytes.starts_with(b"encoding ") {
        return Err(Halt::Fault(StreamFault::Unsupported {
            at,
            what: Feature::Encoding,
        }));
    }
    if l.bytes.starts_with(b"gpgsig ") {
        return Err(Halt::Fault(StreamFault::Unsupported {
            at,
            what: Feature::Signature,
        }));
    }
    data_behind(Quantity::Message, MESSAGE_BYTES as u64, l, ended, i)
}

// A tag's message, before which no other lines are looked for.
#[tactic(auto, unfolding(crate::specs::Blocks::tag_data))]
pub fn tag_data<'a>(ended: bool, i: Cursor<'a>) -> Result<(&'a [u8], Cursor<'a>), Halt>
    requires { i.at ≤ STREAM_BYTES }
    ensures told { Tells bytes_read result (tag_data ended (input i.entry)) }
    ensures within { IfOk result (λ x. x.1.at ≤ STREAM_BYTES) }
{
    let (l, after) = need_line(ended, i)?;
    data_behind(Quantity::Message, MESSAGE_BYTES as u64, l, ended, after)
}

// A commit's message.
#[tactic(auto, unfolding(crate::specs::Blocks::message_data))]
pub fn message_data<'a>(ended: bool, i: Cursor<'a>) -> Result<(&'a [u8], Cursor<'a>), Halt>
    requires { i.at ≤ STREAM_BYTES }
    ensures told { Tells bytes_read result (message_data ended (input i.entry)) }
    ensures within { IfOk result (λ x. x.1.at ≤ STREAM_BYTES) }
{
    let (l, after) = need_line(ended, i)?;
    message_behind(l, ended, after)
}
