//! One end of a line.
ghost use Rattle.std.specs.Prelude.{◌≡◌, ◌≢◌, ◌↔◌, ◌-◌, ◌<◌, ◌≤◌, ◌==◌, [], true, None, Some, is_some, length, min, option_map, take, drop, IfOk, IfSome, IsErrOf, IsSome, OnErr, OnOk};
ghost use Rattle.std.specs.Borrow.{sem};
ghost use Rattle.std.specs.Io.BufRead.{Rests};
ghost use Rattle.mux_frame.specs.Deframing.{Deframes, HandsOver, TakesIn, ring_room};
ghost use Rattle.mux_frame.specs.Frames.{Frame, frame_of};
ghost use Rattle.mux_frame.specs.Spelling.{most_info, spelled, IsBadN1};
ghost use Rattle.serial_line.specs.LineViews.{after_fault, after_read, after_write};
ghost use Rattle.line_end.specs.LineEnds.{new_end};

use mux_frame::{Deframer, FrameError, FrameView};
use mux_station::WriteBuffer;
use serial_line::{LineFault, ReadBuffer, SerialLine};
use std::alloc::Global;
use std::marker::Model;

/// One end of a line. Octets that were read wait until its deframer takes them, and the octets of a frame wait until the
/// line takes them. It holds no line: `read` and `write` are handed one; `feed_from`, `unwritten`, `pass` and `fail` are
/// for a caller that carries the octets.
#[derive(Drop)]
pub struct LineEnd {
    unfed: ReadBuffer,
    deframer: Deframer,
    unwritten: WriteBuffer,
    failed: bool,
}

impl Model for LineEnd {
    ghost use Rattle.line_end.specs.LineEnds.{LineEnd};

    ghost Value = { LineEnd };

    ghost view = { λ e. record {
      unfed = e.unfed;
      deframer = e.deframer;
      unwritten = e.unwritten;
      failed = e.failed;
    } };
}

impl LineEnd {
    ghost use Rattle.line_end.specs.contracts.line_end.LineEnd.{the_row};

    /// A new end. N1 is the most octets of information that a received frame may have. It takes all the room that it ever
    /// needs. Refused with 3 BadN1 where N1 isn't 31 to 32767, checked first, and with 2 NoMemory.
    pub fn new(alloc: Global, n1: u16) -> Result<LineEnd, FrameError>
        ensures ok { IfOk result (λ e. e ≡ new_end n1) }
        ensures past { IfOk result (λ e. Deframes [] [] e.deframer) }
        ensures bad_n1 { IsErrOf result FrameError.BadN1 ↔ IsBadN1 n1 }
        ensures others { result ≢ Err FrameError.TooLong }
    {
        let deframer = Deframer::new(alloc, n1)?;
        let unfed = ReadBuffer::new(alloc)?;
        let unwritten = WriteBuffer::new(alloc)?;
        Ok(LineEnd {
            unfed,
            deframer,
            unwritten,
            failed: false,
        })
    }

    /// Whether the line has failed.
    pub fn has_failed(&self) -> bool
        ensures { result ≡ self.now.failed }
    {
        self.failed
    }

    /// Notes that the line has failed, for a caller that carries the octets.
    pub fn fail(&mut self)
        ensures { self.new ≡ record self.old { failed = true } }
    {
        self.failed = true;
    }

    /// Whether the deframer has taken all octets that were read.
    pub fn is_fed(&self) -> bool
        ensures { result ≡ (length self.now.unfed == 0) }
    {
        self.unfed.is_empty()
    }

    /// Reads the line once, with room for 512 octets, and says how many came. They wait for the deframer. Requires that
    /// no octets wait for it. After a fault `has_failed` says yes.
    pub fn read<L: SerialLine>(&mut self, line: &mut L) -> Result<usize, LineFault>
        requires { self.old.unfed ≡ [] }
        ensures bound { IfOk result (λ n. n ≤ 512) }
        ensures count { IfOk result (λ n. n ≡ length self.new.unfed) }
        ensures ok { OnOk result (self.new ≡ record self.old { unfed = self.new.unfed }) }
        ensures err { OnErr result (self.new ≡ record self.old { failed = true }) }
        ensures came { IfOk result (λ n. L.seen line.new ≡ after_read 512 n self.new.unfed (L.seen line.old)) }
        ensures fault { OnErr result (L.seen line.new ≡ after_fault (L.seen line.old)) }
        ensures beyond { L.other_side line.new ≡ L.other_side line.old }
    {
        let came = self.unfed.read(line);
        self.failed |= came.is_err();
        came
    }

    /// Gives the deframer the octets that wait for it, as many of the first as it has room for, and says how many.
    pub fn feed(&mut self) -> usize
        ensures count { result ≡ min (length self.old.unfed)
            (ring_room self.old.deframer.n1 - length self.old.deframer.undecided) }
        ensures some { self.old.deframer.next ≡ None → 0 < length self.old.unfed → 0 < result }
        ensures n1 { self.new.deframer.n1 ≡ self.old.deframer.n1 }
        ensures stays { (f : Frame) → self.old.deframer.next ≡ Some f → self.new.deframer.next ≡ Some f }
        ensures past { TakesIn self.old.deframer (take result self.old.unfed) self.new.deframer }
        ensures rest { self.new ≡ record self.old {
          unfed = drop result self.old.unfed;
          deframer = self.new.deframer;
        } }
    {
        let count = self.deframer.feed(self.unfed.as_slice());
        self.unfed.pass(count);
        count
    }

    /// Gives the deframer octets from the caller, as many of the first as it has room for, and says how many. Requires
    /// that no octets that were read wait for it: those come first.
    pub fn feed_from(&mut self, octets: &[u8]) -> usize
        requires { self.old.unfed ≡ [] }
        ensures count { result ≡ min (length octets.now)
            (ring_room self.old.deframer.n1 - length self.old.deframer.undecided) }
        ensures some { self.old.deframer.next ≡ None → 0 < length octets.now → 0 < result }
        ensures n1 { self.new.deframer.n1 ≡ self.old.deframer.n1 }
        ensures stays { (f : Frame) → self.old.deframer.next ≡ Some f → self.new.deframer.next ≡ Some f }
        ensures past { TakesIn self.old.deframer (take result octets.now) self.new.deframer }
        ensures rest { self.new ≡ record self.old { deframer = self.new.deframer } }
    {
        self.deframer.feed(octets)
    }

    /// Lends the next frame that came, if one is whole. It stays until `advance`.
    pub fn peek(&mut self) -> Option<FrameView<'_>>
        ensures frame { option_map frame_of result ≡ self.old.deframer.next }
        ensures room { IfSome result (λ f. length f.info.now ≤ most_info self.old.deframer.n1 f.kind) }
        ensures* after { sem 𝓛 (Rests the_row self.entry (λ new. new ≡ self.old)) }
    {
        self.deframer.peek()
    }

    /// Whether a frame is at hand: then `peek` lends it.
    pub fn has_frame(&self) -> bool
        ensures { result ≡ is_some self.now.deframer.next }
    {
        self.deframer.has_frame()
    }

    /// Drops the frame at hand and goes on behind it. Requires a frame at hand: the last call was a `peek` that gave one.
    pub fn advance(&mut self)
        requires { IsSome self.old.deframer.next }
        ensures n1 { self.new.deframer.n1 ≡ self.old.deframer.n1 }
        ensures shorter { length self.new.deframer.undecided < length self.old.deframer.undecided }
        ensures past { HandsOver self.old.deframer self.new.deframer }
        ensures rest { self.new ≡ record self.old { deframer = self.new.deframer } }
    {
        self.deframer.advance();
    }

    /// Whether the line has taken all octets that were put in.
    pub fn is_written(&self) -> bool
        ensures { result ≡ (length self.now.unwritten == 0) }
    {
        self.unwritten.is_empty()
    }

    /// Puts in the octets of a frame, between two flags, to be written. Requires that none wait, and that the frame's
    /// information is at most 1024 octets. A kind other than UIH has no information (27.010, 5.2.1.4), and none is
    /// written. It takes no memory.
    pub fn put(&mut self, frame: FrameView<'_>)
        requires none { self.old.unwritten ≡ [] }
        requires short { length frame.info.now ≤ 1024 }
        ensures some { self.new.unwritten ≢ [] }
        ensures octets { length (frame_of frame.entry).info ≤ most_info 1024 (frame_of frame.entry).kind
            → self.new.unwritten ≡ spelled (frame_of frame.entry) }
        ensures rest { self.new ≡ record self.old { unwritten = self.new.unwritten } }
    {
        self.unwritten.put(frame);
    }

    /// Offers the line once the octets that wait to be written, and says how many of the first it took. After a fault
    /// they all wait on, and `has_failed` says yes.
    pub fn write<L: SerialLine>(&mut self, line: &mut L) -> Result<usize, LineFault>
        ensures bound { IfOk result (λ n. n ≤ length self.old.unwritten) }
        ensures ok { IfOk result (λ n. self.new ≡ record self.old { unwritten = drop n self.old.unwritten }) }
        ensures err { OnErr result (self.new ≡ record self.old { failed = true }) }
        ensures went { IfOk result (λ n. L.seen line.new ≡ after_write n self.old.unwritten (L.seen line.old)) }
        ensures fault { OnErr result (L.seen line.new ≡ after_fault (L.seen line.old)) }
        ensures beyond { L.other_side line.new ≡ L.other_side line.old }
    {
        match line.try_write(self.unwritten.as_slice()) {
            Ok(count) => {
                self.unwritten.pass(count);
                Ok(count)
            }
            Err(fault) => {
                self.failed = true;
                Err(fault)
            }
        }
    }

    /// The octets that wait to be written, lent.
    pub fn unwritten(&self) -> &[u8]
        ensures { result.now ≡ self.now.unwritten }
    {
        self.unwritten.as_slice()
    }

    /// Drops the first `count` of the octets that wait to be written. Requires that there are as many.
    pub fn pass(&mut self, count: usize)
        requires { count ≤ length self.old.unwritten }
        ensures { self.new ≡ record self.old { unwritten = drop count self.old.unwritten } }
    {
        self.unwritten.pass(count);
    }
}
