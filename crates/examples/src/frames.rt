//! Feeds octets as they come, and looks at each frame that they end (27.010, 5.2).
use crate::Stop;
use mux_frame::Deframer;
use std::alloc::Global;
use std::io::Print;

/// An UA frame for connection 0, and the front of another one.
const OCTETS: &[u8] = b"\xF9\x03\x73\x01\xD7\xF9\x07\x73";

/// Prints each frame that these octets end.
fn frames_in<R: Print>(rt: &R, deframer: &mut Deframer, octets: &[u8]) -> Result<(), Stop> {
    if deframer.feed(octets) < octets.len() {
        return Err(Stop::Unexpected);
    }
    for _ in 0..octets.len() {
        let Some(frame) = deframer.peek() else {
            return Ok(());
        };
        let _ = rt.println(format_args!("{:?} on {}", frame.kind, frame.dlci.number()));
        deframer.advance();
    }
    Ok(())
}

/// N1 is 31.
pub fn run<R: Print>(rt: &R, alloc: Global) -> Result<(), Stop> {
    let Ok(mut deframer) = Deframer::new(alloc, 31) else {
        return Err(Stop::NoMemory);
    };
    for octet in OCTETS {
        frames_in(rt, &mut deframer, &[*octet])?;
    }
    Ok(())
}
