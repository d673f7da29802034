//! A reader without an end.
use super::expect_frames;
use std::io;
use std::io::Read;
use std::process::Abort;

// In how many reads a reader has to give its end.
const READS: u64 = 16_777_216;

// Gives an empty line at each read, and counts the reads.
#[derive(Drop)]
struct Endless {
    reads: u64,
}

impl Read for Endless {
    fn read(&mut self, buf: &mut [u8]) -> io::Result<usize> {
        self.reads = self.reads.saturating_add(1);
        let Some(first) = buf.first_mut() else {
            return Ok(0);
        };
        *first = b'\n';
        Ok(1)
    }
}

#[test]
fn a_reader_without_an_end_is_left(rt: HostRuntime) {
    let mut input = Endless { reads: 0 };
    expect_frames(&rt, rt.alloc(), &mut input, 31, (1, b"", b"fault: input\n"));
    assert!(rt; input.reads == READS);
}
