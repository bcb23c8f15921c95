// A text on its way to a sink. It is gathered, so that the sink gets pieces of some size.
ghost use Rattle.std.specs.Prelude.{◌≡◌, ◌++◌, [], true, Ok, OnOk};
ghost use Rattle.fast_export.specs.Sending.{IsPut, unit_of};

use crate::ExportError;
use proj_io::{Sink, SinkError, write_whole};

/// Bytes that a piece has at least, but for the last one.
pub const PIECE: usize = 262_144;

impl From<SinkError> for ExportError {
    ghost use Rattle.fast_export.specs.Errors.{error_of};

    ghost from_gives = { λ s e. e ≡ error_of s };

    fn from(error: SinkError) -> ExportError {
        match error {
            SinkError::Failed => ExportError::Fault,
            SinkError::OutOfMemory => ExportError::OutOfMemory,
        }
    }
}

// Sends bytes.
fn send_bytes<O: Sink>(sink: &mut O, bytes: &[u8]) -> Result<(), ExportError>
    ensures { IsPut O.tells O.written O.faults O.refusals sink.old sink.new
        [] [] bytes.now result }
{
    write_whole(sink, bytes)?;
    Ok(())
}

/// Sends what is kept.
pub fn send<O: Sink>(sink: &mut O, kept: &mut Vec<u8>) -> Result<(), ExportError>
    ensures put { IsPut O.tells O.written O.faults O.refusals sink.old sink.new
        kept.old.items kept.new.items [] result }
    ensures none { OnOk result (kept.new.items ≡ []) }
{
    send_bytes(sink, kept)?;
    kept.clear();
    Ok(())
}

/// Sends what is kept where it is enough for a piece; true where it isn't, so that all of it is kept on.
pub fn send_piece<O: Sink>(sink: &mut O, kept: &mut Vec<u8>) -> Result<bool, ExportError>
    ensures put { IsPut O.tells O.written O.faults O.refusals sink.old sink.new
        kept.old.items kept.new.items [] (unit_of result) }
    ensures whole { result ≡ Ok true → kept.new.items ≡ kept.old.items }
{
    if kept.len() < PIECE {
        return Ok(true);
    }
    send(sink, kept)?;
    Ok(false)
}

/// Puts bytes behind what is kept, and sends it where it is enough for a piece; true where it isn't.
pub fn put_piece<O: Sink>(
    sink: &mut O,
    kept: &mut Vec<u8>,
    bytes: &[u8],
) -> Result<bool, ExportError>
    ensures put { IsPut O.tells O.written O.faults O.refusals sink.old sink.new
        kept.old.items kept.new.items bytes.now (unit_of result) }
    ensures whole { result ≡ Ok true → kept.new.items ≡ kept.old.items ++ bytes.now }
{
    kept.extend_from_slice(bytes)?;
    send_piece(sink, kept)
}

// Puts bytes behind what is kept, and sends all of it.
fn fill<O: Sink>(sink: &mut O, kept: &mut Vec<u8>, bytes: &[u8]) -> Result<(), ExportError>
    ensures put { IsPut O.tells O.written O.faults O.refusals sink.old sink.new
        kept.old.items kept.new.items bytes.now result }
    ensures none { OnOk result (kept.new.items ≡ []) }
{
    kept.extend_from_slice(bytes)?;
    send(sink, kept)
}

/// Puts bytes behind what is kept. Many bytes go to the sink without a copy, but for those that fill a piece.
pub fn put<O: Sink>(sink: &mut O, kept: &mut Vec<u8>, bytes: &[u8]) -> Result<(), ExportError>
    ensures { IsPut O.tells O.written O.faults O.refusals sink.old sink.new
        kept.old.items kept.new.items bytes.now result }
{
    let room = PIECE.saturating_sub(kept.len());
    if bytes.len() < room {
        kept.extend_from_slice(bytes)?;
        return Ok(());
    }
    let (front, rest) = bytes.split_at(room);
    fill(sink, kept, front)?;
    if rest.len() < PIECE {
        kept.extend_from_slice(rest)?;
        return Ok(());
    }
    send_bytes(sink, rest)
}
