//! A line over a reader and a writer of one's own, here over octets in memory: the entry into the multiplexer (27.007, 5.7).
use crate::Stop;
use modem_driver::enter;
use serial_line::{StreamLine, ZeroRead};
use std::alloc::Global;
use std::io::Print;
use std::str;

/// The most calls of the line.
const CALLS: u32 = 100;

/// What the modem says: the echo, and the final code.
const ANSWER: &[u8] = b"AT+CMUX=0\r\r\nOK\r\n";

/// Enters the multiplexer, and prints what was sent.
pub fn run<R: Print>(rt: &R, alloc: Global) -> Result<(), Stop> {
    let mut line = StreamLine::new(ANSWER, Vec::new(alloc), ZeroRead::Ended);
    let _ = match enter(&mut line, CALLS) {
        Ok(()) => rt.println("entered"),
        Err(why) => rt.println(format_args!("{why}")),
    };
    let (_rest, sent) = line.into_parts();
    let _ = rt.println(format_args!("{:?}", str::from_utf8(sent.as_slice())));
    Ok(())
}
