//! The line of a device. Calls on the device wait; calls on the line don't. One thread reads the device into a ring, another
//! writes a second ring out to the device. The line is a `StreamLine` over the other ends of the two rings.
//!
//! The octets that the line received and sent are those that passed its ends of the rings. No contract says what the device itself
//! gave and took. The clauses of `pump` and `drain` say what they carry, where the octets of the reader or the writer are known.
//!
//! The line ends once the device has failed or hung up and all that came before is read; it fails from then on. Eight empty reads
//! in a row that come back at once are a hang-up. A terminal set to `min 0 time 1` gives an empty read after a tenth of a second;
//! it comes back at once only where it is gone, or isn't set up so.
#![tactic(auto)]

ghost use Rattle.std.specs.Prelude.{◌≡◌, None};
ghost use Rattle.serial_line.specs.StreamLine.{new_stream};
ghost use Rattle.serial_line.specs.declared.stream_line.ZeroRead.TheVariants.{Ended};

mod draining;
mod pumping;
mod ring_reader;
mod ring_writer;

use bell::Bell;
pub use draining::drain;
pub use pumping::pump;
pub use ring_reader::RingReader;
pub use ring_writer::RingWriter;
use serial_line::{StreamLine, ZeroRead};
use std::io::{Error, ErrorKind};

/// The line of a device, over a ring in each direction.
pub type DeviceLine = StreamLine<RingReader, RingWriter>;

/// Why a thread stopped carrying octets between a device and its ring.
#[derive(Clone, Copy, PartialEq, Eq)]
pub enum FlowEnd {
    /// It was asked to stop, or nobody is left to read the ring.
    Stopped,
    /// All is carried: the input ended or the device hung up, or the ring's writer is gone.
    Ended,
    /// The device failed.
    Failed,
}

/// The line over these ends of the rings. A read fails once the thread that filled its ring is gone and all is read. A write fails
/// once the thread that empties its ring is gone.
pub fn line_over(reader: RingReader, writer: RingWriter) -> DeviceLine
    ensures { result ≡ new_stream None None Ended }
{
    StreamLine::new(reader, writer, ZeroRead::Ended)
}

/// Drops a ring's end and rings the bell, so that the thread at the other end learns that it is alone.
pub fn leave<E: Drop>(end: E, bell: &Bell) {
    drop(end);
    bell.ring();
}

/// Whether a call that the system refused for this reason may be made again.
fn is_passing(error: &Error) -> bool {
    matches!(
        error.kind(),
        ErrorKind::Interrupted | ErrorKind::WouldBlock | ErrorKind::TimedOut
    )
}
