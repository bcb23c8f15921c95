// A source over borrowed bytes.
ghost use Rattle.std.specs.Prelude.{◌≡◌, ◌↔◌, ℕ, List, min, length, drop};
ghost use Rattle.std.specs.Prelude.{IfOk, IsErr, Ok, Some, ⊤, refl};
ghost use Rattle.std.specs.Io.{ReadsAtMost};
ghost use Rattle.std.specs.Io.KnownBytes.{ReadConsumes};
ghost use Rattle.proj_io.specs.Counts.{Counts};
ghost use Rattle.proj_io.specs.HeldBytes.{held_bytes, left_are_bytes};
ghost use Rattle.memory_devices.specs.Turns.{in_range};

use proj_io::{Failed, Source};
use std::marker::Model;

/// The bytes of a slice that have not been read. It gives as many of them in a call as the buffer takes.
#[derive(Drop)]
pub struct SliceSource<'a> {
    rest: &'a [u8],
}

impl<'a> Model for SliceSource<'a> {
    ghost use Rattle.std.specs.Prelude.{List, ℕ};

    ghost Value = { List ℕ };

    ghost view = { λ s. s.rest.now };
}

impl<'a> SliceSource<'a> {
    /// A source of these bytes. It copies none of them.
    pub fn new(bytes: &'a [u8]) -> SliceSource<'a>
        ensures state { result ≡ bytes.now }
        ensures told { Some (held_bytes result) ≡ Some bytes.now }
    {
        SliceSource { rest: bytes }
    }
}

impl<'a> Source for SliceSource<'a> {
    ghost tells = { λ _. ⊤ };

    ghost left = { λ s. Some (held_bytes s) };

    ghost faults = { λ _. 0 };

    ghost known = { λ _ _. refl };

    ghost bytes = { λ s. left_are_bytes (Some s) };

    ghost in_range = { λ _. in_range };

    fn read(&mut self, buf: &mut [u8]) -> Result<usize, Failed>
        ensures bound { ReadsAtMost result buf.new }
        ensures bytes { ReadConsumes (Some (held_bytes self.old)) (Some (held_bytes self.new)) result buf.new }
        ensures rest { IfOk result (λ n. drop n buf.new ≡ drop n buf.old) }
        ensures empty { length buf.old ≡ 0 →
            (result ≡ Ok 0) × (Some (held_bytes self.new) ≡ Some (held_bytes self.old))
            × ◌≡◌ {A = ℕ} 0 0 }
        ensures told { ⊤ ↔ ⊤ }
        ensures cause { Counts 0 0 (IsErr result) }
        ensures count { result ≡ Ok (min (length self.old) (length buf.old)) }
        ensures after { self.new ≡ drop (length buf.old) self.old }
    {
        let count = self.rest.len().min(buf.len());
        let (front, rest) = self.rest.split_at(count);
        buf[..count].copy_from_slice(front);
        self.rest = rest;
        Ok(count)
    }
}
