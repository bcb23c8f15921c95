// Files that are no journals.
use crate::opened::{Found, opened};
use std::test::Fail;

// Bytes, and the place where they are broken.
const BROKEN: [(&[u8], u64); 9] = [
    (b"proj 02\n\0", 0),
    (b"proj 01x", 0),
    (b"", 0),
    (b"proj 01\n", 8),
    (b"proj 01\n\x01\0\0\0", 8),
    (b"proj 01\n\x01\0\0\0\0\0", 8),
    (b"proj 01\n\x01\0\0\0\x01a", 14),
    (b"proj 01\n\x01\0\0\0\x02a", 8),
    (b"proj 01\n\x01\x20\0\0\x01a", 8),
];

#[test]
fn bytes_that_are_no_journal_are_broken(rt: HostRuntime) -> Result<(), Fail> {
    let alloc = rt.alloc();
    for (bytes, at) in &BROKEN {
        assert!(rt; opened(alloc, bytes)? == Found::Broken(*at));
    }
    Ok(())
}
