//! A line over a reader and a writer.
ghost use Rattle.std.specs.Prelude.{◌≤◌, IfOk};

use serial_line::*;
use std::io;
use std::io::{ErrorKind, Read, Write};
use std::process::Abort;

// It gives the same answer to each read, and to each write.
#[derive(Drop)]
struct Same(Result<usize, ErrorKind>);

impl Same {
    fn answer(&self, room: usize) -> io::Result<usize>
        ensures { IfOk result (λ n. n ≤ room) }
    {
        match self.0 {
            Ok(count) => Ok(count.min(room)),
            Err(kind) => Err(io::Error::from(kind)),
        }
    }
}

impl Read for Same {
    fn read(&mut self, buf: &mut [u8]) -> io::Result<usize> {
        self.answer(buf.len())
    }
}

impl Write for Same {
    fn write(&mut self, buf: &[u8]) -> io::Result<usize> {
        self.answer(buf.len())
    }

    fn flush(&mut self) -> io::Result<()> {
        Ok(())
    }
}

// What a read with room for 4 octets and a write of 3 come to, twice.
fn expect(
    rt: &impl Abort,
    answer: Result<usize, ErrorKind>,
    zero: ZeroRead,
    read: Result<usize, LineFault>,
    write: Result<usize, LineFault>,
) {
    let mut line = StreamLine::new(Same(answer), Same(answer), zero);
    for _ in 0..2 {
        assert!(rt; line.try_read(&mut [0; 4]) == read);
        assert!(rt; line.try_write(b"abc") == write);
    }
    assert!(rt; zero == ZeroRead::Ended || line.try_read(&mut []) == read.map(|_| 0));
}

#[test]
fn what_is_refused_for_now_is_nothing_and_any_other_refusal_a_fault(rt: HostRuntime) {
    for zero in [ZeroRead::Quiet, ZeroRead::Ended] {
        expect(&rt, Ok(2), zero, Ok(2), Ok(2));
        expect(&rt, Ok(9), zero, Ok(4), Ok(3));
        expect(&rt, Err(ErrorKind::Interrupted), zero, Ok(0), Ok(0));
        expect(&rt, Err(ErrorKind::WouldBlock), zero, Ok(0), Ok(0));
        expect(&rt, Err(ErrorKind::TimedOut), zero, Ok(0), Ok(0));
        let failed = Err(LineFault);
        expect(&rt, Err(ErrorKind::BrokenPipe), zero, failed, failed);
    }
    expect(&rt, Ok(0), ZeroRead::Quiet, Ok(0), Ok(0));
    expect(&rt, Ok(0), ZeroRead::Ended, Err(LineFault), Ok(0));
}

#[test]
fn a_line_over_a_slice_gives_it_and_ends(rt: HostRuntime) {
    let mut line = StreamLine::new(b"abcdef".as_slice(), io::sink(), ZeroRead::Ended);
    let mut buffer = [0; 4];
    assert!(rt; line.try_read(&mut []) == Ok(0));
    assert!(rt; line.try_read(&mut buffer) == Ok(4) && &buffer == b"abcd");
    assert!(rt; line.try_write(&buffer) == Ok(4));
    assert!(rt; line.try_read(&mut buffer) == Ok(2) && &buffer == b"efcd");
    assert!(rt; line.try_read(&mut buffer) == Err(LineFault));
    let (rest, _) = line.into_parts();
    assert!(rt; rest.is_empty());
}
