//! The frames that wait in the control queue.
ghost use Rattle.std.specs.Prelude.{◌≡◌, ◌≢◌, ◌+◌, ◌≤◌, ◌++◌, ◌∷◌, ◌==◌, true, [], drop, length, nat_le, slice_get, option_map, IfOk, Some};
ghost use Rattle.std.specs.Borrow.{sem};
ghost use Rattle.std.specs.Io.BufRead.{Rests};
ghost use Rattle.mux_frame.specs.Frames.{frame_of};
ghost use Rattle.mux_station.specs.Written.{written_length};
ghost use Rattle.mux_station.specs.Tables.{octets_of};
ghost use Rattle.mux_station.specs.ControlFrames.{control_frame};

use crate::control_frame::ControlFrame;
use crate::control_octets::{frame_at, place_of};
use crate::role::Role;
use crate::write_buffer::WriteBuffer;
use circular_buffer::HeapCircularBuffer;
use mux_frame::{Dlci, FrameView, Kind};
use std::alloc::{AllocError, Global};
use std::marker::Model;

/// Control frames that wait as the octets that are to be written: each spelled between two flags, one after another. So
/// the queue's bound is the room of its ring. A frame is read back from its header when it is given on.
#[derive(Drop)]
pub(crate) struct ControlQueue {
    octets: HeapCircularBuffer<u8>,
    /// How many frames wait.
    count: usize,
    /// Where a frame is spelled before it is put into the queue.
    spelling: WriteBuffer,
    /// The frame that was looked at last, which may be lent.
    looked_at: ControlFrame,
}

impl Model for ControlQueue {
    ghost use Rattle.mux_station.specs.ControlQueues.{ControlQueue, IsKeptAsOctets};
    ghost use Rattle.mux_station.specs.ControlOctets.{read_frames};

    ghost Value = { ControlQueue };

    ghost view = { λ q. record { frames = read_frames q.count q.octets.items; room = q.octets.capacity } };

    ghost invariant = { λ q. IsKeptAsOctets q.octets.items q.count q.spelling };
}

impl ControlQueue {
    ghost use Rattle.mux_station.specs.contracts.control_queue.ControlQueue.{the_row};

    /// An empty queue with room for so many octets.
    pub fn new(alloc: Global, room: usize) -> Result<ControlQueue, AllocError>
        ensures { IfOk result (λ q. q ≡ record { frames = []; room = room }) }
    {
        let octets = HeapCircularBuffer::with_capacity(alloc, room)?;
        let spelling = WriteBuffer::new(alloc)?;
        Ok(ControlQueue {
            octets,
            count: 0,
            spelling,
            looked_at: ControlFrame::bare(Role::Initiator, Kind::Dm, Dlci::CONTROL),
        })
    }

    /// Whether so many octets more fit.
    pub fn has_room(&self, more: usize) -> bool
        ensures fits { result ≡ nat_le (octets_of self.now.frames + more) self.now.room }
        ensures none { more ≡ 0 → result ≡ true }
    {
        more <= self.octets.capacity() - self.octets.len()
    }

    /// Puts a frame at the end.
    pub fn push(&mut self, frame: ControlFrame)
        requires { octets_of self.old.frames + written_length (control_frame frame) ≤ self.old.room }
        ensures { self.new ≡ record self.old { frames = self.old.frames ++ control_frame frame ∷ [] } }
    {
        // Looked at so that the proof knows that the count fits.
        let _ = self.octets.len();
        self.spelling.put(frame.view());
        let spelled = self.spelling.as_slice();
        let length = spelled.len();
        self.octets.fill_from_slice(spelled);
        self.spelling.pass(length);
        self.count += 1;
    }

    /// How many frames wait.
    pub fn len(&self) -> usize
        ensures { result ≡ length self.now.frames }
    {
        self.count
    }

    pub fn is_empty(&self) -> bool
        ensures { result ≡ (length self.now.frames == 0) }
    {
        self.count == 0
    }

    /// The frame of an index, lent.
    pub fn get(&mut self, index: usize) -> Option<FrameView<'_>>
        ensures frame { option_map frame_of result ≡ slice_get self.old.frames index }
        ensures* after { sem 𝓛 (Rests the_row self.entry (λ new. new ≡ self.old)) }
    {
        let place = place_of(&self.octets, self.count, index)?;
        self.looked_at = frame_at(&self.octets, place);
        Some(self.looked_at.view())
    }

    /// Takes the frame at the front out, and lends it. The condition is that there is one.
    pub fn take(&mut self) -> FrameView<'_>
        requires { self.old.frames ≢ [] }
        ensures frame { Some (frame_of result) ≡ slice_get self.old.frames 0 }
        ensures short { length result.info.now ≤ 1024 }
        ensures* after { sem 𝓛
            (Rests the_row self.entry
            (λ new. new ≡ record self.old { frames = drop 1 self.old.frames })) }
    {
        self.looked_at = frame_at(&self.octets, 0);
        let length = self.looked_at.written_len();
        self.octets.truncate_front(self.octets.len() - length);
        self.count -= 1;
        self.looked_at.view()
    }
}
