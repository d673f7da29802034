//! The calls that take no memory.
use crate::made::made;
use bell::Bell;
use device_line::{RingReader, RingWriter, drain, leave, line_over, pump};
use marks_tests::{begin, end};
use rtrb::RingBuffer;
use serial_line::*;
use std::alloc::Global;
use std::io;
use std::io::Print;
use std::process::Abort;
use std::rt::Clock;
use std::sync::Wait;
use std::test::*;
use std::time::Duration;

// Reads and writes in turn.
fn turn<L: SerialLine>(line: &mut L, buffer: &mut [u8]) {
    for _ in 0..20 {
        let _ = line.try_read(buffer);
        let _ = line.try_write(buffer);
    }
}

// The calls of lines in memory.
fn cut_lines<R: Abort + Print>(rt: &R, near: &mut CutLine, far: &mut CutLine) {
    let mut buffer = [0x41; 32];
    begin(rt, "CutLine::put, CutLine::try_read, CutLine::try_write");
    assert!(rt; near.put(b"gh") == 2);
    turn(near, &mut buffer);
    turn(far, &mut buffer);
    end(rt);
    begin(rt, "CutLine::take, CutLine::sent, CutLine::carry");
    assert!(rt; far.take(&mut [0; 2]) == 2);
    assert!(rt; !near.sent().is_empty());
    let _ = near.carry(far, 1000);
    end(rt);
}

// The calls of each end of a line between threads.
fn thread_lines<R: Print>(rt: &R, near: &mut ThreadLine, far: &mut ThreadLine) {
    let mut buffer = [0x41; 32];
    begin(rt, "ThreadLine::try_read, ThreadLine::try_write");
    turn(near, &mut buffer);
    turn(far, &mut buffer);
    end(rt);
}

// Octets are read and used.
fn buffer_reads<R: Abort + Print>(rt: &R, line: &mut CutLine, buffer: &mut ReadBuffer) {
    begin(
        rt,
        "ReadBuffer::read, ReadBuffer::is_empty, ReadBuffer::as_slice, ReadBuffer::pass",
    );
    if buffer.is_empty() {
        let _ = buffer.read(line);
    }
    let came = buffer.as_slice().len();
    buffer.pass(came);
    end(rt);
    assert!(rt; came == 6);
}

const CUTS: [Cut; 3] = [Cut::Upto(3), Cut::Fault, Cut::Upto(1)];

fn between_two<R: Abort + Print>(rt: &R, alloc: Global) {
    let mut near = made(rt, CutLine::new(alloc, b"abcdef", &CUTS, &CUTS, 4096));
    let mut far = made(rt, CutLine::new(alloc, b"", &[], &[], 4096));
    cut_lines(rt, &mut near, &mut far);
}

fn into_a_buffer<R: Abort + Print>(rt: &R, alloc: Global) {
    let mut line = made(rt, CutLine::new(alloc, b"abcdef", &[], &[], 64));
    let mut buffer = made(rt, ReadBuffer::new(alloc));
    buffer_reads(rt, &mut line, &mut buffer);
}

fn between_threads<R: Abort + Print>(rt: &R, alloc: Global) {
    let Ok((mut near, mut far)) = ThreadLine::pair(alloc, 64) else {
        panic!(rt; "no memory");
    };
    begin(rt, "ThreadLine::under_way");
    assert!(rt; near.under_way(&mut far) == 0);
    end(rt);
    thread_lines(rt, &mut near, &mut far);
}

// Of a line over a reader and a writer.
fn over_a_slice<R: Print>(rt: &R) {
    let mut buffer = [0x41; 4];
    begin(
        rt,
        "StreamLine::new, StreamLine::try_read, StreamLine::try_write, StreamLine::into_parts",
    );
    let mut line = StreamLine::new(b"abcdef".as_slice(), io::sink(), ZeroRead::Ended);
    turn(&mut line, &mut buffer);
    let _ = line.into_parts();
    end(rt);
}

// Of the line of a device, and of its bell.
fn of_a_device<R: Abort + Print>(rt: &R, alloc: Global) {
    let bell = made(rt, Bell::new(alloc));
    let (mut filled, octets) = made(rt, RingBuffer::new(alloc, 64));
    let (out, _emptied) = made(rt, RingBuffer::new(alloc, 64));
    let _ = filled.push_entire_slice(b"abcdef");
    begin(
        rt,
        "RingReader::read, RingWriter::write, Bell::share, Bell::ring",
    );
    let writer = RingWriter::new(out, made(rt, bell.share()));
    let mut line = line_over(RingReader::new(octets), writer);
    turn(&mut line, &mut [0x41; 4]);
    end(rt);
}

// Of the threads of a device's line: what is read into a ring is written out of it.
fn of_its_threads<R: Abort + Wait + Clock + Print>(rt: &R, alloc: Global) {
    let bell = made(rt, Bell::new(alloc));
    let own = made(rt, Bell::new(alloc));
    let (mut filled, mut octets) = made(rt, RingBuffer::new(alloc, 64));
    begin(rt, "pump, drain, Bell::wait, Bell::end, Bell::is_over");
    let mut device = b"abcdef".as_slice();
    let _ = pump(rt, &mut device, &mut filled, &bell, &own, ZeroRead::Ended);
    leave(filled, &own);
    let _ = drain(rt, &mut io::sink(), &mut octets, &bell, &own);
    bell.wait(rt, Duration::from_millis(1));
    own.end();
    let _ = own.is_over();
    end(rt);
}

#[test]
fn calls_that_take_no_memory(rt: HostRuntime) {
    let alloc = rt.alloc();
    between_two(&rt, alloc);
    into_a_buffer(&rt, alloc);
    over_a_slice(&rt);
    of_a_device(&rt, alloc);
    of_its_threads(&rt, alloc);
    between_threads(&rt, alloc);
}
