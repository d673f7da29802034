//! Frames of the basic option of 3GPP TS 27.010 (5.2.1). `write_frame` writes a frame, `Deframer` reads frames from
//! octets as they come, and `laws::read_plain` reads a whole text at once.
//!
//! # Layout
//!
//! - `frame`, `dlci`, `info`, `probe`, `n1`, `error`: what a frame is.
//! - `write`, `check`: writes one.
//! - `deframer`: reads frames. Under it `settling` takes octets in, `judge` tells what a candidate is, `straight` and `slice` lend the
//!   ring's octets as one slice.
//! - `laws`: what was written is read back; each text has one reading.
#![tactic(auto)]

mod check;
mod deframer;
mod dlci;
mod error;
mod frame;
mod info;
mod judge;
pub mod laws;
mod n1;
mod probe;
mod settling;
mod slice;
mod straight;
mod write;

pub use check::check_octet;
pub use deframer::Deframer;
pub use dlci::Dlci;
pub use error::FrameError;
pub use frame::{FrameBuf, FrameView, Kind};
pub use info::Info;
pub use judge::kind_of;
pub use n1::N1;
pub use probe::ProbeData;
pub use write::write_frame;
