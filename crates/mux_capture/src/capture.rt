//! A file of packets, a packet for each frame of what passes on a line, and for octets that are none.
ghost use Rattle.std.specs.Prelude.{◌≡◌, [], false, true, IfOk, OnOk};
ghost use Rattle.std.specs.Io.KnownBytes.{Appends};
ghost use Rattle.mux_capture.specs.Passing.{Captures, HasCaptured, Renews};
ghost use Rattle.mux_capture.specs.Pushing.{Passes, PushesRests};

use crate::packet::{Direction, Stamp, push_header};
use crate::pieces::{push_all_damage, push_pieces};
use std::alloc::{AllocError, Global};
use std::io::Write;
use std::marker::Model;
use std::rt::Clock;
use thiserror::Error;

/// The most octets of information that a frame can have (27.010, 5.2.1.5).
const MOST_INFO: u16 = 32767;

/// A capture can't be written, or memory for it was refused.
#[derive(Clone, Copy, PartialEq, Eq, Debug, Error)]
#[error("fault: capture")]
pub struct CaptureFault;

impl From<AllocError> for CaptureFault {
    fn from(_refused: AllocError) -> CaptureFault {
        CaptureFault
    }
}

/// Writes what passes on a line to a file. A frame becomes a packet as soon as its closing flag has passed. Octets that read as no frame
/// become a marked packet once that is known. Only flags outside packets are left out.
///
/// After a write that failed it writes nothing more.
#[derive(Drop)]
pub struct Capture<C: Write> {
    alloc: Global,
    output: C,
    n1: u16,
    /// The octets to the modem that can become a frame.
    to_modem: Vec<u8>,
    /// Those from the modem.
    from_modem: Vec<u8>,
    failed: bool,
}

impl<C: Write> Model for Capture<C> {
    ghost use Rattle.mux_capture.specs.Passing.{CaptureState};

    ghost Value = { CaptureState };

    ghost view = { λ c. record {
      written = C.contents c.output;
      n1 = c.n1;
      to_modem = c.to_modem.items;
      from_modem = c.from_modem.items;
      failed = c.failed;
    } };
}

/// Writes octets whole.
fn put<C: Write>(output: &mut C, octets: &[u8]) -> Result<(), CaptureFault>
    ensures { OnOk result (Appends (C.contents output.old) (C.contents output.new) octets.now) }
{
    if output.write_all(octets).is_ok() && output.flush().is_ok() {
        Ok(())
    } else {
        Err(CaptureFault)
    }
}

/// Writes the packets of what octets come to behind those that can become a frame, `kept`, and keeps what can become one then.
fn pass<C: Write>(
    alloc: Global,
    n1: u16,
    stamp: Stamp,
    direction: Direction,
    kept: &mut Vec<u8>,
    octets: &[u8],
    output: &mut C,
) -> Result<(), CaptureFault>
    ensures { OnOk result (Passes n1 stamp direction kept.old.items octets.now kept.new.items (C.contents output.old)
        (C.contents output.new)) }
{
    let mut packets = Vec::new(alloc);
    let mut text = Vec::from_slice(alloc, kept.as_slice())?;
    text.extend_from_slice(octets)?;
    let rest = push_pieces(alloc, n1, stamp, direction, text.as_slice(), &mut packets)?;
    kept.clear();
    kept.extend_from_slice(rest)?;
    put(output, packets.as_slice())
}

/// Writes the packets of what could still become a frame each way, as damage, and keeps nothing of it.
fn put_rests<C: Write>(
    alloc: Global,
    stamp: Stamp,
    to_modem: &mut Vec<u8>,
    from_modem: &mut Vec<u8>,
    output: &mut C,
) -> Result<(), CaptureFault>
    ensures { OnOk result (PushesRests stamp to_modem.old.items from_modem.old.items to_modem.new.items from_modem.new.items
        (C.contents output.old) (C.contents output.new)) }
{
    let mut packets = Vec::new(alloc);
    push_all_damage(stamp, Direction::ToModem, to_modem.as_slice(), &mut packets)?;
    push_all_damage(
        stamp,
        Direction::FromModem,
        from_modem.as_slice(),
        &mut packets,
    )?;
    to_modem.clear();
    from_modem.clear();
    put(output, packets.as_slice())
}

impl<C: Write> Capture<C> {
    /// Begins a capture: writes the header of a file. N1 is the most octets of information that a frame may have.
    pub fn with_n1(alloc: Global, output: C, n1: u16) -> Result<Capture<C>, CaptureFault>
    where
        C: Drop,
        ensures captured { IfOk result (HasCaptured (C.contents output) []) }
        ensures n1 { IfOk result (λ c. c.n1 ≡ n1) }
    {
        let mut output = output;
        let mut header = Vec::new(alloc);
        push_header(&mut header)?;
        put(&mut output, header.as_slice())?;
        Ok(Capture {
            alloc,
            output,
            n1,
            to_modem: Vec::new(alloc),
            from_modem: Vec::new(alloc),
            failed: false,
        })
    }

    /// As `with_n1`, at the greatest N1, 32767.
    pub fn begin(alloc: Global, output: C) -> Result<Capture<C>, CaptureFault>
    where
        C: Drop,
        ensures { IfOk result (HasCaptured (C.contents output) []) }
    {
        Capture::with_n1(alloc, output, MOST_INFO)
    }
}

impl<C: Write> Capture<C> {
    /// Takes octets that passed at this time, and writes the packets of what they come to.
    fn write(
        &mut self,
        stamp: Stamp,
        direction: Direction,
        octets: &[u8],
    ) -> Result<(), CaptureFault>
        ensures same { (self.new.failed ≡ self.old.failed) × (self.new.n1 ≡ self.old.n1) }
        ensures wrote { OnOk result
            (Captures self.old self.new (record { stamp = stamp; direction = direction; octets = octets.now })) }
    {
        match direction {
            Direction::ToModem => pass(
                self.alloc,
                self.n1,
                stamp,
                direction,
                &mut self.to_modem,
                octets,
                &mut self.output,
            ),
            Direction::FromModem => pass(
                self.alloc,
                self.n1,
                stamp,
                direction,
                &mut self.from_modem,
                octets,
                &mut self.output,
            ),
        }
    }

    /// Takes octets that passed at this time, and writes the packets that they complete. Once a packet can't be written or memory is
    /// refused, the capture has failed, and nothing more is written.
    pub fn take(&mut self, stamp: Stamp, direction: Direction, octets: &[u8])
        ensures captures { self.new.failed ≡ false
            → Captures self.old self.new (record { stamp = stamp; direction = direction; octets = octets.now }) }
        ensures over { self.old.failed ≡ true → self.new ≡ self.old }
        ensures n1 { self.new.n1 ≡ self.old.n1 }
    {
        if !self.failed {
            self.failed = self.write(stamp, direction, octets).is_err();
        }
    }

    /// Writes as damage what could still become a frame each way, and goes on with this N1.
    fn write_rests(&mut self, stamp: Stamp, n1: u16) -> Result<(), CaptureFault>
        ensures same { (self.new.failed ≡ self.old.failed) × (self.new.n1 ≡ n1) }
        ensures renews { OnOk result (Renews self.old self.new) }
    {
        self.n1 = n1;
        put_rests(
            self.alloc,
            stamp,
            &mut self.to_modem,
            &mut self.from_modem,
            &mut self.output,
        )
    }

    /// Begins another stretch at this time, in which a frame may have N1 octets of information: an entry into a multiplexer
    /// can name one of its own. Each way, octets that could still become a frame are written as damage. Once a packet can't be
    /// written or memory is refused, the capture has failed, and nothing more is written.
    pub fn renew(&mut self, stamp: Stamp, n1: u16)
        ensures renews { self.new.failed ≡ false → Renews self.old self.new }
        ensures n1 { self.new.failed ≡ false → self.new.n1 ≡ n1 }
        ensures over { self.old.failed ≡ true → self.new ≡ self.old }
    {
        if !self.failed {
            self.failed = self.write_rests(stamp, n1).is_err();
        }
    }

    /// Whether it has failed.
    pub fn has_failed(&self) -> bool
        ensures { result ≡ self.now.failed }
    {
        self.failed
    }
}
