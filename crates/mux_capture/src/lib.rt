//! Captures of a line, in the file format of tcpdump and Wireshark (pcap, version 2.4), with the link type that Wireshark's dissector of
//! 3GPP TS 27.010 takes. A file is a header and then packets: one for each frame, and others for octets that are no frame.
//! `Capture` finds them in the octets that pass; `read_header` and `read_packet` read a file; `first_frame` finds one frame.
//!
//! # Layout
//!
//! - `capture`, `pieces`: a capture as octets pass. `packet`: its octets. `read`: a file is read. `finding`: the first frame of a text.
//! - `laws`, `tests`.
#![tactic(auto)]

mod capture;
mod finding;
pub mod laws;
mod packet;
mod pieces;
mod read;
#[cfg(test)]
mod tests;

pub use capture::{Capture, CaptureFault};
pub use finding::{Found, first_frame};
pub use packet::{Direction, Kind, Stamp, push_damage, push_header, push_packet};
pub use read::{Packet, read_header, read_packet};
