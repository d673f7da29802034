//! Reads frames from octets as they come (27.010, 5.2.3, 5.2.5 and 5.2.6.1).
ghost use Rattle.std.specs.Prelude.{◌≡◌, ◌≢◌, ◌↔◌, ◌+◌, ◌-◌, ◌<◌, ◌≤◌, ◌++◌, [], ◌∷◌, List, ℕ, None, Some, is_some, length, min, option_map, take, IfOk, IfSome, IsErrOf, IsSome, OnErr, OnOk};
ghost use Rattle.std.specs.Borrow.{sem};
ghost use Rattle.std.specs.Io.BufRead.{Rests};
ghost use Rattle.mux_frame.specs.Deframing.{Deframes, HandsOver, TakesIn, ring_room};
ghost use Rattle.mux_frame.specs.Frames.{Frame, frame_of};
ghost use Rattle.mux_frame.specs.Spelling.{most_info, IsBadN1};

use crate::error::FrameError;
use crate::frame::FrameView;
use crate::judge::front_frame;
use crate::n1::N1;
use crate::settling::{settle, slices_from, take_in};
use crate::slice::one_slice;
use circular_buffer::HeapCircularBuffer;
use std::alloc::Global;
use std::marker::Model;

/// The least room of the ring, in octets. N1 + 7 would do; but with so much the octets seldom wrap round the ring's
/// end, and whoever reads 4096 octets at a time can feed them all at once.
const LEAST_ROOM: usize = 8192;

/// How many octets the ring has room for: at least N1 + 7, which is a whole frame: two flags, address, control, two length octets,
/// information and check octet. So what a full ring holds is always decided.
fn room_for(n1: N1) -> usize
    ensures { result ≡ ring_room n1.octets }
{
    (usize::from(n1.octets) + 7).max(LEAST_ROOM)
}

/// Reads frames from octets, however the octets are cut. Undecided octets wait in a ring, and a frame stays there until
/// `advance`. `peek` lends it from the ring as one slice: where a frame is whole, octets that wrap round the ring's end are moved.
#[derive(Drop)]
pub struct Deframer {
    octets: HeapCircularBuffer<u8>,
    n1: N1,
    /// How many octets at the ring's front are done with. They go when `feed` takes others in.
    passed: usize,
    /// Where a frame is at hand: the place of its check octet, counted from its address octet.
    check_place: Option<usize>,
}

impl Model for Deframer {
    ghost use Rattle.mux_frame.specs.Deframing.{Deframing, next_in};
    ghost use Rattle.mux_frame.specs.Judged.{IsReady};
    ghost use Rattle.std.specs.Prelude.{drop};

    ghost Value = { Deframing };

    ghost view = { λ d. record {
      n1 = d.n1.octets;
      undecided = drop d.passed d.octets.items;
      next = next_in d.n1.octets (drop d.passed d.octets.items);
    } };

    ghost invariant = { λ d. IsReady d.n1.octets d.octets.items d.passed d.octets.capacity d.check_place };
}

impl Deframer {
    ghost use Rattle.mux_frame.specs.contracts.deframer.Deframer.{the_row};

    /// A deframer that has taken nothing. N1, 31 to 32767, is the most octets of information that a frame may have. Refused
    /// with 3 BadN1 for any other N1, checked first, and with 2 NoMemory.
    pub fn new(alloc: Global, n1: u16) -> Result<Deframer, FrameError>
        ensures ok { IfOk result (λ d. d ≡ record { n1 = n1; undecided = []; next = None }) }
        ensures past { IfOk result (λ d. Deframes [] [] d) }
        ensures bad_n1 { IsErrOf result FrameError.BadN1 ↔ IsBadN1 n1 }
        ensures others { result ≢ Err FrameError.TooLong }
    {
        let Some(n1) = N1::new(n1) else {
            return Err(FrameError::BadN1);
        };
        let octets = HeapCircularBuffer::with_capacity(alloc, room_for(n1))?;
        Ok(Deframer {
            octets,
            n1,
            passed: 0,
            check_place: None,
        })
    }

    /// Takes octets from the front of `octets`, as many as there is room for, and says how many. Takes none only where a whole frame
    /// waits, or `octets` is empty.
    pub fn feed(&mut self, octets: &[u8]) -> usize
        ensures count { result ≡
            min (length octets.now) (ring_room self.old.n1 - length self.old.undecided) }
        ensures some { self.old.next ≡ None → 0 < length octets.now → 0 < result }
        ensures n1 { self.new.n1 ≡ self.old.n1 }
        ensures stays { (f : Frame) → self.old.next ≡ Some f → self.new.next ≡ Some f }
        ensures past { TakesIn self.old (take result octets.now) self.new }
    {
        let undecided = self.octets.len() - self.passed;
        let count = octets.len().min(self.octets.capacity() - undecided);
        let more = &octets[..count];
        self.check_place = take_in(&mut self.octets, &mut self.passed, more, self.n1.octets);
        count
    }

    /// Whether a frame is at hand: then `peek` lends it.
    pub fn has_frame(&self) -> bool
        ensures { result ≡ is_some self.now.next }
    {
        self.check_place.is_some()
    }

    /// Lends the next frame, if one is whole. It stays until `advance`.
    pub fn peek(&mut self) -> Option<FrameView<'_>>
        ensures frame { option_map frame_of result ≡ self.old.next }
        ensures room { IfSome result (λ f. length f.info.now ≤ most_info self.old.n1 f.kind) }
        ensures* after { sem 𝓛 (Rests the_row self.entry (λ new. new ≡ self.old)) }
    {
        let Some(place) = self.check_place else {
            return None;
        };
        let (n1, passed) = (self.n1.octets, self.passed);
        Some(front_frame(n1, one_slice(&mut self.octets), passed, place))
    }

    /// Drops the frame at hand and goes on behind it. Requires a frame at hand: the last call was a `peek` that gave one.
    pub fn advance(&mut self)
        requires { IsSome self.old.next }
        ensures n1 { self.new.n1 ≡ self.old.n1 }
        ensures shorter { length self.new.undecided < length self.old.undecided }
        ensures past { HandsOver self.old self.new }
    {
        let Some(place) = self.check_place else {
            unreachable!()
        };
        let octets = one_slice(&mut self.octets);
        let from = self.passed + place + 2;
        self.check_place = settle(octets, from, &mut self.passed, self.n1.octets);
    }

    /// Appends the rest of what was taken: the undecided octets. Requires that no frame is at hand: the last `peek`
    /// answered `None`, and nothing was fed since. Refused with 2 NoMemory, which leaves `out` as it was.
    pub fn rest(&self, out: &mut Vec<u8>) -> Result<(), FrameError>
        requires { self.now.next ≡ None }
        ensures ok { OnOk result (out.new.items ≡ out.old.items ++ self.now.undecided) }
        ensures err { OnErr result (out.new.items ≡ out.old.items) }
        ensures no_memory { OnErr result (result ≡ Err FrameError.NoMemory) }
    {
        let (front, back) = self.octets.as_slices();
        let (front, back) = slices_from(front, back, self.passed);
        out.reserve(front.len() + back.len())?;
        out.extend_from_slice(front).unwrap();
        out.extend_from_slice(back).unwrap();
        Ok(())
    }
}
