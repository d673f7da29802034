//! Tells the packets of a capture.
ghost use Rattle.std.specs.Prelude.{◌≡◌, ◌≢◌, ◌++◌, map, Err, OnOk};
ghost use Rattle.std.specs.Io.KnownBytes.{Appends};
ghost use Rattle.std.specs.String.{string_bytes};
ghost use Rattle.mux_frame.specs.Frames.{kept_frame};
ghost use Rattle.mux_capture.specs.declared.packet.Kind.TheVariants as kind;
ghost use Rattle.show_texts.specs.Captures.{TellsFrames, TellsPacket, Writes};
ghost use Rattle.show_texts.specs.declared.fault.ShowFault.TheVariants as ShowFault;
ghost use Rattle.show_texts.specs.Telling.{Damage, Tells, damage_text};

use crate::complaint::push_octets;
use crate::fault::ShowFault;
use crate::teller::Teller;
use crate::words::push_head;
use ctl_text::put_octets;
use mux_capture::{Direction, Kind, Stamp};
use mux_frame::FrameBuf;
use mux_frame::laws::read_plain;
use std::alloc::{AllocError, Global};
use std::io::Write;

/// The most octets of information that a frame can have (27.010, 5.2.1.5).
const MOST_INFO: u16 = 32767;

/// How much text may wait until it is written.
const MOST_TEXT: usize = 32768;

/// Octets that no frame is read in.
fn push_damage(
    alloc: Global,
    stamp: Stamp,
    direction: Direction,
    octets: &[u8],
    text: &mut String,
) -> Result<(), AllocError>
    ensures { OnOk result (string_bytes text.new ≡ string_bytes text.old
        ++ damage_text (record { stamp = stamp; direction = direction; octets = octets.now })) }
{
    push_head(stamp, direction, text)?;
    text.push_str("damage ")?;
    push_octets(alloc, octets, text)?;
    text.push_str("\n")
}

impl Teller {
    /// Takes octets that passed and that no frame is read in. After want of memory nothing is said.
    fn take_damage(
        &mut self,
        stamp: Stamp,
        direction: Direction,
        octets: &[u8],
    ) -> Result<(), AllocError>
        ensures { OnOk result
            (Tells self.old self.new (Damage (record { stamp = stamp; direction = direction; octets = octets.now }))) }
    {
        push_damage(self.alloc, stamp, direction, octets, &mut self.text)
    }

    /// Takes the frames of a packet.
    fn take_frames(
        &mut self,
        stamp: Stamp,
        direction: Direction,
        octets: &[u8],
        frames: &[FrameBuf],
    ) -> Result<(), AllocError>
        ensures { OnOk result (TellsFrames self.old self.new
            (record { stamp = stamp; direction = direction; octets = octets.now }) (map kept_frame frames.now)) }
    {
        for frame in frames {
            self.take_frame(stamp, direction, frame.view())?;
        }
        Ok(())
    }

    /// Takes a packet of a frame: the frames that its octets are read as by themselves, or damage where they are read as none.
    fn take_read(
        &mut self,
        stamp: Stamp,
        direction: Direction,
        octets: &[u8],
    ) -> Result<(), AllocError>
        ensures { OnOk result
            (TellsPacket self.old self.new kind.Frame (record { stamp = stamp; direction = direction; octets = octets.now })) }
    {
        let Ok((frames, _)) = read_plain(self.alloc, MOST_INFO, octets) else {
            return Err(AllocError);
        };
        if frames.is_empty() {
            return self.take_damage(stamp, direction, octets);
        }
        self.take_frames(stamp, direction, octets, frames.as_slice())
    }

    /// Takes a packet. Octets of damage are told as damage. Those of a frame are told by the frames that they are read as by themselves,
    /// or as damage where there is none. Where memory is refused nothing is promised.
    #[tactic(auto, using(crate::proofs::Shown::damage_packet))]
    pub fn take_packet(
        &mut self,
        kind: Kind,
        stamp: Stamp,
        direction: Direction,
        octets: &[u8],
    ) -> Result<(), AllocError>
        ensures { OnOk result
            (TellsPacket self.old self.new kind (record { stamp = stamp; direction = direction; octets = octets.now })) }
    {
        match kind {
            Kind::Frame => self.take_read(stamp, direction, octets),
            Kind::Damage => self.take_damage(stamp, direction, octets),
        }
    }

    /// Writes the text so far, and forgets it. Fails where the writer does.
    pub fn write<W: Write>(&mut self, output: &mut W) -> Result<(), ShowFault>
        ensures writes { OnOk result (Writes self.old self.new (W.contents output.old) (W.contents output.new)) }
        ensures all { OnOk result (Appends (W.contents output.old) (W.contents output.new) self.old.text) }
        ensures wrong { OnOk result (self.new.is_wrong ≡ self.old.is_wrong) }
        ensures others { result ≢ Err ShowFault.NoCapture }
    {
        if !put_octets(output, self.text.as_bytes()) {
            return Err(ShowFault::Output);
        }
        self.text.clear();
        Ok(())
    }

    /// As `write`, but only where 32768 octets of text wait.
    pub fn write_much<W: Write>(&mut self, output: &mut W) -> Result<(), ShowFault>
        ensures writes { OnOk result (Writes self.old self.new (W.contents output.old) (W.contents output.new)) }
        ensures others { result ≢ Err ShowFault.NoCapture }
    {
        if self.text.len() < MOST_TEXT {
            return Ok(());
        }
        self.write(output)
    }
}
