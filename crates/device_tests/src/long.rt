// A long stream that is refused at its first line.
ghost use Rattle.std.specs.Prelude.{None};
ghost use Rattle.proj_io.specs.Counts.{held, held_bound};

use fast_import::{EmptyBase, ReplayError, StreamFault, replay_all};
use object_store::Store;
use proj_io::{Failed, Source};
use std::test::Fail;

const STREAM: u64 = 134_217_728;

// A stream of so many bytes that begins with the line `x`. It doesn't tell what it has left.
#[derive(Drop)]
struct Long {
    given: u64,
}

impl Source for Long {
    ghost tells = { λ _. ⊥ };

    ghost left = { λ _. None };

    ghost faults = { λ _. held 0 };

    ghost known = { λ _ told. absurd told };

    ghost bytes = { λ _. tt };

    ghost in_range = { λ _. held_bound 0 };

    fn read(&mut self, buf: &mut [u8]) -> Result<usize, Failed> {
        if self.given >= STREAM {
            return Ok(0);
        }
        for byte in buf.iter_mut() {
            *byte = b'y';
        }
        if self.given == 0 && buf.len() > 1 {
            buf[0] = b'x';
            buf[1] = b'\n';
        }
        self.given = self.given.saturating_add(buf.len() as u64);
        Ok(buf.len())
    }
}

#[test]
fn a_fault_is_told_before_the_stream_is_read(rt: HostRuntime) -> Result<(), Fail> {
    let alloc = rt.alloc();
    let mut source = Long { given: 0 };
    let mut store = Store::new(alloc);
    let answer = replay_all(alloc, &mut source, &EmptyBase, &mut store);
    assert!(rt;
        matches!(
            answer,
            Err(ReplayError::Stream(StreamFault::Syntax { at: 0 }))
        )
    );
    assert!(rt; source.given <= 33_554_432);
    Ok(())
}
