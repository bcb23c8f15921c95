// Reading an input whole.
ghost use Rattle.std.specs.Prelude.{◌≡◌, ◌≤◌, ◌^◌, ◌↔◌, IfErr, IfOk, IfSome, Err, None};
ghost use Rattle.std.specs.Prelude.{length, true, false};
ghost use Rattle.fast_import.specs.Waited.{TakesWithin};
ghost use Rattle.proj_io.specs.Counts.{Counts};
ghost use Rattle.proj_commands.specs.Inputs.{IsUnread};

use git_objects::limits::INPUT_BYTES;
use git_objects::{Bytes, Quantity};
use proj_io::{ReadError, Source, Taken, read_up_to};
use proj_words::Outcome;
use std::alloc::Global;

// What was read, unless there is more of it.
fn whole_input(taken: Taken) -> Result<Bytes, Outcome>
    ensures ok { IfOk result (λ bytes. (taken.more ≡ false) × (bytes ≡ taken.bytes)) }
    ensures err { IfErr result (λ e. (taken.more ≡ true) × (e ≡ Outcome.Limit Quantity.Input None)) }
{
    let Taken { bytes, more } = taken;
    if more {
        return Err(Outcome::Limit {
            which: Quantity::Input,
            at: None,
        });
    }
    Ok(bytes)
}

/// Reads an input of at most 2^29 bytes, and one byte more where there is more.
pub fn read_input<S: Source>(alloc: Global, input: &mut S) -> Result<Bytes, Outcome>
    ensures ok { IfOk result (λ bytes. IfSome (S.left input.old) (λ all. bytes ≡ all)) }
    ensures within { IfOk result (λ bytes. length bytes ≤ 2 ^ 29) }
    ensures err { IfErr result (IsUnread (S.left input.old)) }
    ensures taken { TakesWithin (S.left input.old) (S.left input.new) }
    ensures told { S.tells input.new ↔ S.tells input.old }
    ensures cause { Counts (S.faults input.old) (S.faults input.new) (result ≡ Err Outcome.ReadFault) }
{
    match read_up_to(alloc, input, INPUT_BYTES) {
        Err(ReadError::Fault) => Err(Outcome::ReadFault),
        Err(ReadError::OutOfMemory) => Err(Outcome::OutOfMemory),
        Ok(taken) => whole_input(taken),
    }
}
