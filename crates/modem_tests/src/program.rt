//! Tests of the runs of the program, over readers and writers of their own.
mod bench_limit;
mod endless;
mod gate;

use at_text::{Text, UrcKind};
use ctl_run::{bench_run, frames_run, push_act, replay_run};
use modem_desk::Urc;
use modem_driver::Act;
use modem_sim::Script;
use mux_frame::Dlci;
use std::alloc::{AllocGlobal, Global};
use std::io;
use std::io::{ErrorKind, Read, Write};
use std::process::Abort;
use std::random::RandomSource;
use std::sync::Wait;
use std::test::Fail;
use std::thread::Threads;

// What a run comes to: its status, what it writes, and what it says beside it.
type End<'a> = (u8, &'a [u8], &'a [u8]);

fn expect(rt: &impl Abort, end: End<'_>, want: End<'_>) {
    assert!(rt; end.0 == want.0);
    assert!(rt; end.1 == want.1);
    assert!(rt; end.2 == want.2);
}

// What comes of callers who submit this, with so many octets under way each way at most: status, output, and what is said beside it.
fn bench<R>(
    rt: &R,
    mut submitted: &[u8],
    callers: u8,
    cut: usize,
    script: Script,
) -> (u8, Vec<u8>, Vec<u8>)
where
    R: Threads + Wait + RandomSource + AllocGlobal + Copy + Send + Drop + 'static,
{
    let alloc = rt.alloc();
    let (mut output, mut faults) = (Vec::new(alloc), Vec::new(alloc));
    let status = bench_run(
        rt,
        alloc,
        &mut submitted,
        &mut output,
        &mut faults,
        callers,
        cut,
        script,
    );
    (status, output, faults)
}

// Frames read so, with this N1, come to this.
fn expect_frames<I: Read>(rt: &impl Abort, alloc: Global, input: &mut I, n1: u16, want: End<'_>) {
    let (mut output, mut faults) = (Vec::new(alloc), Vec::new(alloc));
    let status = frames_run(alloc, input, &mut output, &mut faults, n1);
    expect(rt, (status, output.as_slice(), faults.as_slice()), want);
}

// So does a replay.
fn expect_replay<I: Read>(rt: &impl Abort, alloc: Global, input: &mut I, n1: u16, want: End<'_>) {
    let (mut output, mut faults) = (Vec::new(alloc), Vec::new(alloc));
    let status = replay_run(alloc, input, &mut output, &mut faults, n1);
    expect(rt, (status, output.as_slice(), faults.as_slice()), want);
}

// The output of a replay isn't taken.
fn expect_output_fault<O: Write>(rt: &impl Abort, alloc: Global, output: &mut O) {
    let mut input = b"open 0\n".as_slice();
    let mut faults = Vec::new(alloc);
    let status = replay_run(alloc, &mut input, output, &mut faults, 31);
    expect(
        rt,
        (status, b"", faults.as_slice()),
        (1, b"", b"fault: output\n"),
    );
}

fn expect_printed(rt: &impl Abort, alloc: Global, act: Act, want: &str) -> Result<(), Fail> {
    let mut text = String::new(alloc);
    push_act(alloc, &act, &mut text)?;
    assert!(rt; text.as_str() == want);
    Ok(())
}

// A line of octets that are printed as they are and others.
fn heard(alloc: Global, dlci: Dlci) -> Result<Act, Fail> {
    let line = Text::from(Vec::from_slice(alloc, &[0x20, 0x7E, 0x7F, 0xFF, 0x1F])?);
    let kind = UrcKind::Cgreg;
    Ok(Act::Heard(Urc { kind, dlci, line }))
}

#[test]
fn acts_without_a_request_are_printed(rt: HostRuntime) -> Result<(), Fail> {
    let alloc = rt.alloc();
    let dlci = Dlci::new(61).unwrap();
    expect_printed(&rt, alloc, Act::Tick, "tick\n")?;
    expect_printed(&rt, alloc, Act::Lost, "lost\n")?;
    expect_printed(&rt, alloc, Act::Held(dlci), "held 61\n")?;
    expect_printed(&rt, alloc, Act::Freed(dlci), "freed 61\n")?;
    let heard = heard(alloc, dlci)?;
    expect_printed(&rt, alloc, heard, "heard CGREG 61  ~\\x7f\\xff\\x1f\n")
}

// Gives or takes so many octets one by one, and fails then.
#[derive(Drop)]
struct Failing {
    left: usize,
}

impl Read for Failing {
    fn read(&mut self, buf: &mut [u8]) -> io::Result<usize> {
        if self.left == 0 || buf.is_empty() {
            return Err(io::Error::from(ErrorKind::BrokenPipe));
        }
        self.left -= 1;
        buf[0] = b'\n';
        Ok(1)
    }
}

impl Write for Failing {
    fn write(&mut self, buf: &[u8]) -> io::Result<usize> {
        if self.left == 0 || buf.is_empty() {
            return Err(io::Error::from(ErrorKind::BrokenPipe));
        }
        self.left -= 1;
        Ok(1)
    }

    fn flush(&mut self) -> io::Result<()> {
        Ok(())
    }
}

// A bad line isn't told, since what is said beside the output isn't taken.
fn expect_untold(rt: &impl Abort, alloc: Global, faults: &mut Failing) {
    let mut input = b"x".as_slice();
    let mut output = Vec::new(alloc);
    assert!(rt; frames_run(alloc, &mut input, &mut output, faults, 31) == 2);
}

fn expect_failures(rt: &impl Abort, alloc: Global, left: usize) {
    expect_replay(
        rt,
        alloc,
        &mut Failing { left },
        31,
        (1, b"", b"fault: input\n"),
    );
    expect_output_fault(rt, alloc, &mut Failing { left });
    expect_untold(rt, alloc, &mut Failing { left });
}

#[test]
fn readers_and_writers_may_fail(rt: HostRuntime) {
    expect_failures(&rt, rt.alloc(), 0);
    expect_failures(&rt, rt.alloc(), 3);
}

// Gives its octets one by one, and is interrupted once before the first.
#[derive(Drop)]
struct OneByOne<'a> {
    interrupted: bool,
    left: &'a [u8],
}

impl Read for OneByOne<'_> {
    fn read(&mut self, buf: &mut [u8]) -> io::Result<usize> {
        if !self.interrupted {
            self.interrupted = true;
            return Err(io::Error::from(ErrorKind::Interrupted));
        }
        let Some((first, rest)) = self.left.split_first() else {
            return Ok(0);
        };
        if buf.is_empty() {
            return Ok(0);
        }
        buf[0] = *first;
        self.left = rest;
        Ok(1)
    }
}

fn expect_one_by_one(rt: &impl Abort, alloc: Global, interrupted: bool) {
    let left = b"F9 03 73 01 D7 F9\r\nF9".as_slice();
    let mut input = OneByOne { interrupted, left };
    expect_frames(
        rt,
        alloc,
        &mut input,
        31,
        (0, b"0 UA 1 1 -\nrest f9\n", b""),
    );
}

#[test]
fn a_reader_may_give_octets_one_by_one_and_be_interrupted(rt: HostRuntime) {
    expect_one_by_one(&rt, rt.alloc(), false);
    expect_one_by_one(&rt, rt.alloc(), true);
}

// Takes all, and fails when it is flushed.
#[derive(Drop)]
struct Unflushed;

impl Write for Unflushed {
    fn write(&mut self, buf: &[u8]) -> io::Result<usize> {
        Ok(buf.len())
    }

    fn flush(&mut self) -> io::Result<()> {
        Err(io::Error::from(ErrorKind::BrokenPipe))
    }
}

#[test]
fn output_that_is_not_flushed_is_a_fault(rt: HostRuntime) {
    expect_output_fault(&rt, rt.alloc(), &mut Unflushed);
}

// Runs with this N1 read and write nothing, and say why.
fn expect_bad_n1(rt: &impl Abort, alloc: Global, n1: u16) {
    let want: End<'_> = (2, b"", b"error: N1 is 31 to 32767\n");
    let mut input = b"x".as_slice();
    expect_frames(rt, alloc, &mut input, n1, want);
    expect_replay(rt, alloc, &mut input, n1, want);
    assert!(rt; input.len() == 1);
}

#[test]
fn a_bad_n1_is_refused_before_anything_is_read(rt: HostRuntime) {
    for n1 in [0, 30, 32768, u16::MAX] {
        expect_bad_n1(&rt, rt.alloc(), n1);
    }
}
