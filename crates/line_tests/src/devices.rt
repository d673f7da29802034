//! The line of a device whose calls wait.
ghost use Rattle.std.specs.Prelude.{◌≤◌, IfOk};

use crate::made::made;
use crate::threads::long_text;
use bell::Bell;
use device_line::{DeviceLine, FlowEnd, RingReader, RingWriter, drain, leave, line_over, pump};
use rtrb::{Consumer, Producer, RingBuffer};
use serial_line::*;
use std::alloc::{AllocError, Global};
use std::io::{ErrorKind, Print, Read, Write};
use std::process::Abort;
use std::rt::Clock;
use std::sync::Wait;
use std::sync::atomic::{AtomicU64, Ordering};
use std::test::*;
use std::thread::Threads;
use std::time::Duration;
use std::{io, thread};

// What a device answers, call by call: so many octets, or a refusal. Behind the last it fails.
#[derive(Drop)]
struct Answers<'a> {
    next: &'a [Result<usize, ErrorKind>],
    calls: usize,
}

impl<'a> Answers<'a> {
    fn of(next: &'a [Result<usize, ErrorKind>]) -> Answers<'a> {
        Answers { next, calls: 0 }
    }

    fn answer(&mut self, room: usize) -> io::Result<usize>
        ensures { IfOk result (λ n. n ≤ room) }
    {
        self.calls = self.calls.saturating_add(1);
        let [first, rest @ ..] = self.next else {
            return Err(io::Error::from(ErrorKind::Other));
        };
        self.next = rest;
        match first {
            Ok(count) => Ok(room.min(*count)),
            Err(kind) => Err(io::Error::from(*kind)),
        }
    }
}

impl<'a> Read for Answers<'a> {
    fn read(&mut self, buf: &mut [u8]) -> io::Result<usize> {
        self.answer(buf.len())
    }
}

impl<'a> Write for Answers<'a> {
    fn write(&mut self, buf: &[u8]) -> io::Result<usize> {
        self.answer(buf.len())
    }

    fn flush(&mut self) -> io::Result<()> {
        Ok(())
    }
}

// A clock that goes on by so many milliseconds at each look.
#[derive(Drop)]
struct Steps {
    now: AtomicU64,
    step: u64,
}

impl Clock for Steps {
    fn monotonic(&self) -> io::Result<Duration> {
        let now = self.now.fetch_add(self.step, Ordering::SeqCst);
        Ok(Duration::from_millis(now % 1_000_000_000))
    }

    fn since_1970(&self) -> io::Result<Duration> {
        self.monotonic()
    }
}

fn clock_by(step: u64) -> Steps {
    Steps {
        now: AtomicU64::new(0),
        step,
    }
}

// A new bell.
fn bell(rt: &impl Abort, alloc: Global) -> Bell {
    made(rt, Bell::new(alloc))
}

// How a device with these answers is read to its end, by how many reads, and how many octets came.
fn read_by(
    rt: &impl Abort,
    alloc: Global,
    step: u64,
    zero: ZeroRead,
    answers: &[Result<usize, ErrorKind>],
) -> (FlowEnd, usize, usize) {
    let (bell, own) = (bell(rt, alloc), bell(rt, alloc));
    let (mut ring, mut octets) = made(rt, RingBuffer::new(alloc, 1024));
    let mut device = Answers::of(answers);
    let end = pump(&clock_by(step), &mut device, &mut ring, &bell, &own, zero);
    (end, device.calls, octets.slots())
}

#[test]
fn eight_empty_reads_in_a_row_that_come_back_at_once_are_a_hang_up(rt: HostRuntime) {
    let empty = [Ok(0); 20];
    // Octets between them begin the row anew.
    let mut answers = empty;
    answers[7] = Ok(3);
    // Reads that take a while are just quiet: behind the last answer the device fails.
    for (step, zero, answers, want) in [
        (1, ZeroRead::Quiet, &empty, (FlowEnd::Ended, 8, 0)),
        (100, ZeroRead::Quiet, &empty, (FlowEnd::Failed, 21, 0)),
        (100, ZeroRead::Ended, &empty, (FlowEnd::Ended, 1, 0)),
        (1, ZeroRead::Quiet, &answers, (FlowEnd::Ended, 16, 3)),
    ] {
        assert!(rt; read_by(&rt, rt.alloc(), step, zero, answers) == want);
    }
}

#[test]
fn a_read_that_may_be_made_again_is(rt: HostRuntime) {
    let answers = [
        Ok(5),
        Err(ErrorKind::Interrupted),
        Err(ErrorKind::WouldBlock),
        Err(ErrorKind::TimedOut),
        Ok(7),
        Err(ErrorKind::BrokenPipe),
        Ok(9),
    ];
    let got = read_by(&rt, rt.alloc(), 1, ZeroRead::Quiet, &answers);
    assert!(rt; got == (FlowEnd::Failed, 6, 12));
}

// Longer than a test may last: a wait that isn't rung for fails it.
fn long() -> Duration {
    Duration::from_secs(3600)
}

// Reads a line until it fails.
fn receive<R: Wait>(rt: &R, bell: &Bell, mut line: DeviceLine, mut text: Vec<u8>) -> Vec<u8> {
    let mut buffer = [0; 40];
    for _ in rt.forever() {
        match line.try_read(&mut buffer) {
            Ok(0) => bell.wait(rt, long()),
            Ok(count) => text.extend_from_slice(&buffer[..count]).unwrap_or(()),
            Err(_) => return text,
        }
    }
    unreachable!()
}

// Writes the whole text to a line, or as much as it takes before it fails.
fn send<R: Wait>(rt: &R, bell: &Bell, mut line: DeviceLine, own: &Bell, text: &[u8]) {
    let mut rest = text;
    for _ in rt.forever() {
        if rest.is_empty() {
            break;
        }
        match line.try_write(rest) {
            Ok(0) => bell.wait(rt, long()),
            Ok(count) => rest = &rest[count..],
            Err(_) => break,
        }
    }
    leave(line, own);
}

// A line, the other ends of its rings, and a share of the bell that its writer rings.
fn line(alloc: Global, own: &Bell) -> Result<(DeviceLine, Producer<u8>, Consumer<u8>), AllocError> {
    let (filled, octets) = RingBuffer::new(alloc, 64)?;
    let (out, emptied) = RingBuffer::new(alloc, 64)?;
    let line = line_over(RingReader::new(octets), RingWriter::new(out, own.share()?));
    Ok((line, filled, emptied))
}

// Reads a device that has this text.
fn fill<K: Clock>(
    clock: &K,
    text: &[u8],
    mut ring: Producer<u8>,
    bell: &Bell,
    own: &Bell,
) -> FlowEnd {
    let mut device = text;
    let end = pump(clock, &mut device, &mut ring, bell, own, ZeroRead::Ended);
    leave(ring, bell);
    end
}

// Writes a device that keeps all.
fn empty<R: Wait>(
    rt: &R,
    mut device: Vec<u8>,
    mut ring: Consumer<u8>,
    bell: &Bell,
    own: &Bell,
) -> (FlowEnd, Vec<u8>) {
    let end = drain(rt, &mut device, &mut ring, bell, own);
    leave(ring, bell);
    (end, device)
}

// What comes of a text by a device, and how its reading ended. Where no thread can be started the device is read first, and then the
// line: so the text has to fit the ring.
fn from_device<R: Threads + Wait + Clock + Sync>(
    rt: &R,
    alloc: Global,
    text: &[u8],
) -> Result<(FlowEnd, Vec<u8>), AllocError> {
    let bell = Bell::new(alloc)?;
    let own = Bell::new(alloc)?;
    let (line, ring, _) = line(alloc, &own)?;
    let came = Vec::with_capacity(alloc, text.len())?;
    let (bell, own) = (&bell, &own);
    let (came, end) = thread::join(
        rt,
        move || receive(rt, bell, line, came),
        move || fill(rt, text, ring, bell, own),
    );
    Ok((end, came))
}

// What goes of a text to a device, and how its writing ended. Where no thread can be started the line is written first, and then the
// device.
fn to_device<R: Threads + Wait + Sync>(
    rt: &R,
    alloc: Global,
    text: &[u8],
) -> Result<(FlowEnd, Vec<u8>), AllocError> {
    let bell = Bell::new(alloc)?;
    let own = Bell::new(alloc)?;
    let (line, _, ring) = line(alloc, &own)?;
    let device = Vec::with_capacity(alloc, text.len())?;
    let (bell, own) = (&bell, &own);
    let (written, ()) = thread::join(
        rt,
        move || empty(rt, device, ring, bell, own),
        move || send(rt, bell, line, own, text),
    );
    Ok(written)
}

// It went whole, and the end was seen.
fn is_whole(rt: &impl Abort, went: &(FlowEnd, Vec<u8>), text: &[u8]) {
    assert!(rt; went.0 == FlowEnd::Ended && went.1.as_slice() == text);
}

#[test]
fn a_text_goes_through_the_line_of_a_device_each_way(rt: HostRuntime) {
    let text = made(&rt, long_text(rt.alloc(), 10_000));
    let came = made(&rt, from_device(&rt, rt.alloc(), &text));
    is_whole(&rt, &came, &text);
    let went = made(&rt, to_device(&rt, rt.alloc(), &text));
    is_whole(&rt, &went, &text);
}

// Memory and threads may be refused between its two marks.
#[test]
fn a_text_goes_whole_through_the_line_of_a_device_or_memory_is_refused(rt: HostRuntime) {
    let text = b"a text that is shorter than the ring";
    let _ = rt.println("> bells, rings and threads");
    let read = from_device(&rt, rt.alloc(), text);
    let written = to_device(&rt, rt.alloc(), text);
    let _ = rt.println("<");
    if let Ok(came) = &read {
        is_whole(&rt, came, text);
    }
    if let Ok(went) = &written {
        is_whole(&rt, went, text);
    }
}

// How a device with these answers is written to its end, where 5 octets wait and nobody is left to write more.
fn written_by(
    rt: &(impl Wait + Abort),
    alloc: Global,
    answers: &[Result<usize, ErrorKind>],
) -> (FlowEnd, usize) {
    let (bell, own) = (bell(rt, alloc), bell(rt, alloc));
    let (mut line, _, mut ring) = made(rt, line(alloc, &own));
    assert!(rt; line.try_write(b"abcde") == Ok(5));
    leave(line, &own);
    let mut device = Answers::of(answers);
    let end = drain(rt, &mut device, &mut ring, &bell, &own);
    (end, device.calls)
}

#[test]
fn a_write_that_fails_or_takes_nothing_ends_the_writing(rt: HostRuntime) {
    for (second, want) in [
        (Err(ErrorKind::WouldBlock), (FlowEnd::Ended, 3)),
        (Err(ErrorKind::BrokenPipe), (FlowEnd::Failed, 2)),
        (Ok(0), (FlowEnd::Failed, 2)),
    ] {
        let answers = [Ok(2), second, Ok(3)];
        assert!(rt; written_by(&rt, rt.alloc(), &answers) == want);
    }
}

// The line is read to its end, and then it fails.
fn reads_all(rt: &impl Abort, line: &mut DeviceLine, mut filled: Producer<u8>) {
    let mut buffer = [0; 4];
    assert!(rt; line.try_read(&mut buffer) == Ok(0));
    assert!(rt; filled.push_entire_slice(b"abc").is_ok());
    drop(filled);
    assert!(rt; line.try_read(&mut buffer) == Ok(3) && &buffer[..3] == b"abc".as_slice());
    assert!(rt; line.try_read(&mut buffer) == Err(LineFault));
}

// It is written until nobody reads.
fn writes_all(rt: &impl Abort, line: &mut DeviceLine, emptied: Consumer<u8>) {
    assert!(rt; line.try_write(b"de") == Ok(2));
    drop(emptied);
    assert!(rt; line.try_write(b"f") == Err(LineFault));
}

#[test]
fn a_line_fails_once_the_threads_are_gone_and_all_is_read(rt: HostRuntime) {
    let own = bell(&rt, rt.alloc());
    let (mut line, filled, emptied) = made(&rt, line(rt.alloc(), &own));
    reads_all(&rt, &mut line, filled);
    writes_all(&rt, &mut line, emptied);
}

// It is over: a device with an answer is neither read nor written, though octets wait.
fn is_over(
    rt: &(impl Wait + Abort),
    bell: &Bell,
    own: &Bell,
    filled: &mut Producer<u8>,
    emptied: &mut Consumer<u8>,
) {
    let mut device = Answers::of(&[Ok(2)]);
    let end = pump(
        &clock_by(1),
        &mut device,
        filled,
        bell,
        own,
        ZeroRead::Quiet,
    );
    assert!(rt; end == FlowEnd::Stopped);
    let end = drain(rt, &mut device, emptied, bell, own);
    assert!(rt; end == FlowEnd::Stopped && device.calls == 0);
}

#[test]
fn nothing_is_read_or_written_once_it_is_over(rt: HostRuntime) {
    let (bell, own) = (bell(&rt, rt.alloc()), bell(&rt, rt.alloc()));
    let (mut line, mut filled, mut emptied) = made(&rt, line(rt.alloc(), &own));
    assert!(rt; line.try_write(b"abc") == Ok(3));
    own.end();
    is_over(&rt, &bell, &own, &mut filled, &mut emptied);
}
