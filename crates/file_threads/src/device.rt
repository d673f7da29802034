//! The threads of a device, or of an input.
ghost use Rattle.std.specs.Prelude.{◌≡◌, IfOk, None};
ghost use Rattle.serial_line.specs.StreamLine.{new_stream};
ghost use Rattle.serial_line.specs.declared.stream_line.ZeroRead.TheVariants.{Ended};

use crate::fault::FileFault;
use bell::Bell;
use device_line::{DeviceLine, FlowEnd, RingReader, RingWriter, drain, leave, line_over, pump};
use results::beside;
use rtrb::{Consumer, Producer, RingBuffer};
use serial_line::ZeroRead;
use std::alloc::{AllocError, AllocGlobal, Global};
use std::io::{Read, Write};
use std::rt::Clock;
use std::sync::Wait;
use std::thread;
use std::thread::{SpawnError, Threads};

/// Octets that a ring has room for.
const ROOM: usize = 65536;

/// A bell between who starts a thread and the thread. By it a thread that writes says that it is through. Once this is dropped, the thread is told to
/// end; it does so as soon as the call in which it waits comes back.
pub struct StopBell {
    own: Bell,
}

impl StopBell {
    /// For a thread that is to be started.
    fn new(alloc: Global) -> Result<StopBell, AllocError> {
        let own = Bell::new(alloc)?;
        Ok(StopBell { own })
    }

    /// Whether the thread said that it is through. It is rung, so that it looks.
    fn is_through(&self) -> bool {
        self.own.ring();
        self.own.is_over()
    }

    /// The thread's share.
    fn share(&self) -> Result<Bell, AllocError> {
        self.own.share()
    }
}

impl Drop for StopBell {
    fn drop(self) {
        let StopBell { own } = self;
        own.end();
    }
}

/// What ends the threads of a device, once it is dropped.
#[derive(Drop)]
pub struct DeviceThreads {
    reading: StopBell,
    writing: StopBell,
}

impl DeviceThreads {
    /// Whether all that was put into the ring is written to the device, once the ring's writer is dropped.
    pub fn are_through(&self) -> bool {
        self.writing.is_through()
    }
}

/// A thread that was spawned. Generic, because proving the drop for a concrete closure is slow.
fn spawned<H: Drop, F: Drop>(thread: Result<H, SpawnError<F>>) -> Result<(), FileFault> {
    match thread {
        Ok(_) => Ok(()),
        Err(_) => Err(FileFault::NoThread),
    }
}

/// A thread's shares: of the bell that it rings, and of the one by which it is told to end.
#[derive(Drop)]
struct Shares {
    bell: Bell,
    own: Bell,
}

/// Shares for a thread that is told to end by this bell.
fn shares_of(bell: &Bell, stop: &StopBell) -> Result<Shares, AllocError> {
    let bell = bell.share()?;
    let own = stop.share()?;
    Ok(Shares { bell, own })
}

/// What ends a thread, and the thread's shares.
fn shares_for(alloc: Global, bell: &Bell) -> Result<(StopBell, Shares), AllocError> {
    let stop = StopBell::new(alloc)?;
    let (shares, stop) = beside(shares_of(bell, &stop), stop)?;
    Ok((stop, shares))
}

/// Starts a thread that reads a device into a ring.
fn start_reading<R, I>(
    rt: &R,
    input: I,
    ring: Producer<u8>,
    shares: Shares,
    zero: ZeroRead,
) -> Result<(), FileFault>
where
    R: Threads + Wait + Clock + AllocGlobal + Copy + Send + Drop + 'static,
    I: Read + Send + Drop + 'static,
{
    let rt_there = *rt;
    let mut input = input;
    let mut ring = ring;
    spawned(thread::spawn(rt, move || {
        let _ = pump(
            &rt_there,
            &mut input,
            &mut ring,
            &shares.bell,
            &shares.own,
            zero,
        );
        leave(ring, &shares.bell);
    }))
}

/// The ends of a ring to a thread that waits on this bell: the writer rings it.
fn ring_to(alloc: Global, stop: &StopBell) -> Result<(RingWriter, Consumer<u8>), FileFault> {
    let rung = stop.share()?;
    let (ends, rung) = beside(RingBuffer::new(alloc, ROOM), rung)?;
    let (octets, ring) = ends;
    Ok((RingWriter::new(octets, rung), ring))
}

/// Starts a thread that writes a ring out to a device.
fn start_writing<R, O>(
    rt: &R,
    output: O,
    ring: Consumer<u8>,
    shares: Shares,
) -> Result<(), FileFault>
where
    R: Threads + Wait + Clock + AllocGlobal + Copy + Send + Drop + 'static,
    O: Write + Send + Drop + 'static,
{
    let rt_there = *rt;
    let mut output = output;
    let mut ring = ring;
    spawned(thread::spawn(rt, move || {
        if drain(&rt_there, &mut output, &mut ring, &shares.bell, &shares.own) == FlowEnd::Ended {
            shares.own.end();
        }
        leave(ring, &shares.bell);
    }))
}

/// Has a thread read a device into a ring, until what ends the thread or the ring's reader is dropped. Refused where the ring or the
/// thread can't be had: then there is no thread.
pub fn read_beside<R, I>(
    rt: &R,
    input: I,
    bell: &Bell,
    zero: ZeroRead,
) -> Result<(RingReader, StopBell), FileFault>
where
    R: Threads + Wait + Clock + AllocGlobal + Copy + Send + Drop + 'static,
    I: Read + Send + Drop + 'static,
{
    let told = shares_for(rt.alloc(), bell)?;
    let made = RingBuffer::new(rt.alloc(), ROOM);
    let ((ring, octets), (told, input)) = beside(made, (told, input))?;
    let (stop, shares) = told;
    let started = start_reading(rt, input, ring, shares, zero);
    let (_, (octets, stop)) = beside(started, (octets, stop))?;
    Ok((RingReader::new(octets), stop))
}

/// Has a thread write a ring out to a device, until what ends the thread is dropped, or the ring's writer is dropped and all is
/// written. Refused where the ring or the thread can't be had: then there is no thread.
pub fn write_beside<R, O>(
    rt: &R,
    output: O,
    bell: &Bell,
) -> Result<(RingWriter, StopBell), FileFault>
where
    R: Threads + Wait + Clock + AllocGlobal + Copy + Send + Drop + 'static,
    O: Write + Send + Drop + 'static,
{
    let (stop, shares) = shares_for(rt.alloc(), bell)?;
    let made = ring_to(rt.alloc(), &stop);
    let ((writer, ring), ((stop, shares), output)) = beside(made, ((stop, shares), output))?;
    let started = start_writing(rt, output, ring, shares);
    let (_, (writer, stop)) = beside(started, (writer, stop))?;
    Ok((writer, stop))
}

/// The line of a device by two threads, which ring this bell. Refused where one of them can't be started: the other is told to end, and
/// nothing is written to the device.
pub fn line_beside<R, I, O>(
    rt: &R,
    reader: I,
    writer: O,
    zero: ZeroRead,
    bell: &Bell,
) -> Result<(DeviceLine, DeviceThreads), FileFault>
where
    R: Threads + Wait + Clock + AllocGlobal + Copy + Send + Drop + 'static,
    I: Read + Send + Drop + 'static,
    O: Write + Send + Drop + 'static,
    ensures { IfOk result (λ r. r.0 ≡ new_stream None None Ended) }
{
    let read = read_beside(rt, reader, bell, zero);
    let ((octets, reading), writer) = beside(read, writer)?;
    let written = write_beside(rt, writer, bell);
    let ((sink, writing), (octets, reading)) = beside(written, (octets, reading))?;
    Ok((line_over(octets, sink), DeviceThreads { reading, writing }))
}
