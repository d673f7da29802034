//! A drive of one command over a device whose reads end, with its threads.
use at_text::Dialect;
use ctl_drive::{DriveFault, Driven, Settings, drive_threaded};
use std::alloc::{AllocError, AllocGlobal, Global};
use std::io::{ErrorKind, Print, Read, Write};
use std::process::Abort;
use std::rt::Clock;
use std::sync::atomic::{AtomicUsize, Ordering};
use std::sync::{Arc, Wait};
use std::test::Fail;
use std::thread::Threads;
use std::time::Duration;
use std::{io, thread};

/// What the modem says, each once so many octets were written to it: to the text that enters the multiplexer, to the SABM of 0 and
/// of 1, to AT+CSQ behind an MSC, and to the CLD.
const SAYS: [(usize, &[u8]); 5] = [
    (10, b"\r\nOK\r\n"),
    (16, b"\xF9\x03\x73\x01\xD7\xF9"),
    (22, b"\xF9\x07\x73\x01\x15\xF9"),
    (
        45,
        b"\xF9\x05\xEF\x1F\r\n+CSQ: 18,99\r\n\xA0\xF9\xF9\x05\xEF\x0D\r\nOK\r\n\x5F\xF9",
    ),
    (53, b"\xF9\x01\xEF\x05\xC1\x01\x93\xF9"),
];

/// What a whole drive prints.
const WHOLE: &[u8] = b"1 1 done\n| +CSQ: 18,99\n| OK\n";

/// What it prints where the line is lost before the answer.
const LOST: &[u8] = b"1 1 linelost\n";

/// How many octets were written to the device. Each end of it has a share, and the input one: so the shares say which are gone.
type Written = Arc<AtomicUsize, Global>;

/// The device, to be read. A read that has nothing to give comes back after a millisecond.
#[derive(Drop)]
struct Reading<R: Clock> {
    clock: R,
    written: Written,
    said: usize,
}

impl<R: Clock> Read for Reading<R> {
    fn read(&mut self, buf: &mut [u8]) -> io::Result<usize> {
        let written = self.written.load(Ordering::SeqCst);
        match SAYS.get(self.said) {
            Some((after, text)) if *after <= written && text.len() <= buf.len() => {
                self.said = self.said.saturating_add(1);
                buf[..text.len()].copy_from_slice(text);
                Ok(text.len())
            }
            _ => {
                thread::sleep(&self.clock, Duration::from_millis(1));
                Err(io::Error::from(ErrorKind::WouldBlock))
            }
        }
    }
}

/// The device, to be written.
#[derive(Drop)]
struct Writing {
    written: Written,
}

impl Write for Writing {
    fn write(&mut self, buf: &[u8]) -> io::Result<usize> {
        self.written.fetch_add(buf.len(), Ordering::SeqCst);
        Ok(buf.len())
    }

    fn flush(&mut self) -> io::Result<()> {
        Ok(())
    }
}

/// The input.
#[derive(Drop)]
struct Asking {
    text: &'static [u8],
    written: Written,
}

impl Read for Asking {
    fn read(&mut self, buf: &mut [u8]) -> io::Result<usize> {
        self.text.read(buf)
    }
}

/// What came of a drive.
#[derive(Drop)]
struct Came {
    fault: Option<DriveFault>,
    printed: Vec<u8>,
    written: usize,
}

/// Whether device and input are let go within five seconds: so the threads have ended.
fn are_let_go<K: Clock>(clock: &K, written: &Written) -> bool {
    for _ in 0..5000 {
        if Arc::strong_count(written) == 1 {
            return true;
        }
        thread::sleep(clock, Duration::from_millis(1));
    }
    false
}

/// The fault of a drive, if it has one.
fn fault_of(ended: Result<Driven, DriveFault>) -> Option<DriveFault> {
    match ended {
        Ok(driven) => driven.fault,
        Err(fault) => Some(fault),
    }
}

/// The ends of a device, and an input of one command.
fn ends<R: Clock + Copy>(
    rt: &R,
    written: &Written,
) -> Result<(Reading<R>, Writing, Asking), AllocError> {
    let reading = Reading {
        clock: *rt,
        written: Arc::try_clone(written)?,
        said: 0,
    };
    let writing = Writing {
        written: Arc::try_clone(written)?,
    };
    let asking = Asking {
        text: b"1 AT+CSQ\n",
        written: Arc::try_clone(written)?,
    };
    Ok((reading, writing, asking))
}

/// Drives the command, and gives the fault, if there is one. Memory may be refused between the two marks.
fn drive<R>(
    rt: &R,
    mark: &str,
    ends: (Reading<R>, Writing, Asking),
    printed: &mut Vec<u8>,
    faults: &mut Vec<u8>,
) -> Option<DriveFault>
where
    R: Threads + Wait + Clock + AllocGlobal + Print + Copy + Send + Drop + 'static,
{
    let dialect = Dialect::standard(rt.alloc());
    let settings = Settings {
        n1: 31,
        entry: None,
        tick: Duration::from_secs(1),
        quiet_for: None,
        dialect: &dialect,
        data: &[],
        capture: None,
    };
    let (reading, writing, asking) = ends;
    let _ = rt.println(format_args!("> {mark}"));
    let ended = drive_threaded::<R, Reading<R>, Writing, Vec<u8>, Asking, Vec<u8>, Vec<u8>>(
        rt,
        (reading, writing),
        None,
        asking,
        printed,
        faults,
        settings,
    );
    let _ = rt.println("<");
    fault_of(ended)
}

/// Drives it with what counts the octets that are written to the device.
fn drive_counted<R>(
    rt: &R,
    mark: &str,
    written: &Written,
    printed: &mut Vec<u8>,
) -> Result<Option<DriveFault>, AllocError>
where
    R: Threads + Wait + Clock + AllocGlobal + Print + Copy + Send + Drop + 'static,
{
    let mut faults = Vec::with_capacity(rt.alloc(), 256)?;
    let ends = ends(rt, written)?;
    Ok(drive(rt, mark, ends, printed, &mut faults))
}

/// What comes of it.
fn drive_one<R>(rt: &R, mark: &str) -> Result<Came, Fail>
where
    R: Threads + Wait + Clock + AllocGlobal + Print + Abort + Copy + Send + Drop + 'static,
{
    let written = Arc::new(rt.alloc(), AtomicUsize::new(0))?;
    let mut printed = Vec::with_capacity(rt.alloc(), 256)?;
    let fault = drive_counted(rt, mark, &written, &mut printed)?;
    assert!(rt; are_let_go(rt, &written));
    let written = written.load(Ordering::SeqCst);
    Ok(Came {
        fault,
        printed,
        written,
    })
}

#[test]
fn a_drive_is_whole_or_memory_is_refused_and_its_threads_end(rt: HostRuntime) -> Result<(), Fail> {
    let came = drive_one(&rt, "bells, rings, threads and a drive")?;
    let printed = came.printed.as_slice();
    match came.fault {
        None => assert!(rt; printed == WHOLE),
        Some(DriveFault::NoMemory) => assert!(rt; WHOLE.starts_with(printed) || printed == LOST),
        Some(DriveFault::NoThread) => assert!(rt; printed.is_empty() && came.written == 0),
        Some(_) => panic!(rt; "another fault"),
    }
    Ok(())
}

#[test]
fn where_a_thread_cant_be_started_nothing_is_written_to_the_device(
    rt: HostRuntime,
) -> Result<(), Fail> {
    let came = drive_one(&rt, "threads")?;
    let printed = came.printed.as_slice();
    match came.fault {
        None => assert!(rt; printed == WHOLE),
        Some(DriveFault::NoThread) => assert!(rt; printed.is_empty() && came.written == 0),
        Some(_) => panic!(rt; "another fault"),
    }
    Ok(())
}
