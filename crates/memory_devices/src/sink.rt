// A sink that collects bytes.
ghost use Rattle.std.specs.Prelude.{◌≡◌, ◌<◌, ◌↔◌, [], length, IfOk, IsErrOf, Some, ⊤, refl};
ghost use Rattle.std.specs.Io.{WritesAtMost};
ghost use Rattle.std.specs.Io.KnownBytes.{WriteAppends};
ghost use Rattle.proj_io.specs.Counts.{Counts, held, held_bound};
ghost use Rattle.memory_devices.specs.Turns.{in_range, SinkState, WriteTurn};

use git_objects::Bytes;
use proj_io::{Sink, SinkError};
use std::alloc::Global;
use std::marker::Model;

/// The bytes that were written to it. A write takes the whole piece, or nothing where there is no memory for it.
#[derive(Drop)]
pub struct ByteSink {
    bytes: Vec<u8>,
    refusals: u64,
}

impl Model for ByteSink {
    ghost use Rattle.memory_devices.specs.Turns.{SinkState};

    ghost Value = { SinkState };

    ghost view = { λ s. record { bytes = s.bytes.items; refusals = s.refusals } };
}

impl ByteSink {
    /// An empty sink.
    pub fn new(alloc: Global) -> ByteSink
        ensures { result ≡ record { bytes = []; refusals = 0 } }
    {
        ByteSink {
            bytes: Vec::new(alloc),
            refusals: 0,
        }
    }

    /// All that it has got. It copies none of it.
    pub fn into_bytes(self) -> Bytes
        ensures { result ≡ self.bytes }
    {
        Bytes::of(self.bytes)
    }
}

impl Sink for ByteSink {
    ghost tells = { λ _. ⊤ };

    ghost written = { λ s. Some s.bytes };

    ghost faults = { λ _. 0 };

    ghost refusals = { λ s. held s.refusals };

    ghost known = { λ _ _. refl };

    ghost in_range = { λ s. (in_range, held_bound s.refusals) };

    fn write(&mut self, piece: &[u8]) -> Result<usize, SinkError>
        ensures bound { WritesAtMost result piece.now }
        ensures some { IfOk result (λ n. 0 < length piece.now → 0 < n) }
        ensures bytes { WriteAppends (Some self.old.bytes) (Some self.new.bytes) result piece.now }
        ensures told { ⊤ ↔ ⊤ }
        ensures cause { Counts 0 0 (IsErrOf result SinkError.Failed) }
        ensures memory { Counts (held self.old.refusals) (held self.new.refusals)
            (IsErrOf result SinkError.OutOfMemory) }
        ensures turn { WriteTurn self.old self.new piece.now result }
    {
        match self.bytes.extend_from_slice(piece) {
            Ok(()) => Ok(piece.len()),
            Err(_) => {
                self.refusals = self.refusals.saturating_add(1);
                Err(SinkError::OutOfMemory)
            }
        }
    }
}
