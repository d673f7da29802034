//! What is kept of one connection.
ghost use Rattle.std.specs.Prelude.{◌≡◌, ◌+◌, ◌<◌, ◌≤◌, ◌==◌, ◌++◌, [], false, not, length, nat_le, take, drop, IfOk};
ghost use Rattle.circular_buffer.specs.Buffer.{buffer};
ghost use Rattle.mux_station.specs.States.{is_opened, is_shut};
ghost use Rattle.mux_station.specs.Stages.{stage_state, as_shown};
ghost use Rattle.mux_station.specs.Stations.{shut_channel};
ghost use Rattle.mux_station.specs.Marks.{may_send};

use crate::repeats::Repeats;
use crate::role::ChannelState;
use arrayvec::ArrayVec;
use circular_buffer::HeapCircularBuffer;
use std::alloc::{AllocError, Global};
use std::marker::Model;

/// The octets that a send ring holds.
const RING: usize = 1024;

/// The state of a connection, with its count of repeats or ticks.
#[derive(Clone, Copy)]
pub(crate) enum Stage {
    Shut,
    Opening(Repeats),
    Opened,
    Closing(Repeats),
    Stopping(Repeats),
}

impl Stage {
    /// The state without its count.
    pub fn shown(self) -> ChannelState
        ensures { result ≡ as_shown (stage_state self) }
    {
        match self {
            Stage::Shut => ChannelState::Shut,
            Stage::Opening(_) => ChannelState::Opening,
            Stage::Opened => ChannelState::Opened,
            Stage::Closing(_) => ChannelState::Closing,
            Stage::Stopping(_) => ChannelState::Stopping,
        }
    }

    pub fn is_opened(self) -> bool
        ensures { result ≡ is_opened (stage_state self) }
    {
        matches!(self, Stage::Opened)
    }

    pub fn is_shut(self) -> bool
        ensures { result ≡ is_shut (stage_state self) }
    {
        matches!(self, Stage::Shut)
    }
}

/// One connection: its stage, its own stop, and the octets that wait in its send ring.
#[derive(Drop)]
pub(crate) struct Channel {
    stage: Stage,
    stopped: bool,
    octets: HeapCircularBuffer<u8>,
}

impl Model for Channel {
    ghost use Rattle.std.specs.Prelude.{◌≡◌};
    ghost use Rattle.mux_station.specs.Stations.{Channel};
    ghost use Rattle.mux_station.specs.Stages.{stage_state};

    ghost Value = { Channel };

    ghost view = { λ c. record {
      state = stage_state c.stage;
      is_stopped = c.stopped;
      waiting = c.octets.items;
    } };

    ghost invariant = { λ c. c.octets.capacity ≡ 1024 };
}

impl Channel {
    /// A connection that is shut.
    pub fn new(alloc: Global) -> Result<Channel, AllocError>
        ensures { IfOk result (λ c. c ≡ shut_channel) }
    {
        let octets = HeapCircularBuffer::with_capacity(alloc, RING)?;
        Ok(Channel {
            stage: Stage::Shut,
            stopped: false,
            octets,
        })
    }

    pub fn stage(&self) -> Stage
        ensures { stage_state result ≡ self.now.state }
    {
        self.stage
    }

    pub fn is_stopped(&self) -> bool
        ensures { result ≡ self.now.is_stopped }
    {
        self.stopped
    }

    /// Goes to another stage, in which stop and send ring start afresh.
    pub fn turn(&mut self, stage: Stage)
        ensures { self.new ≡ record { state = stage_state stage; is_stopped = false; waiting = [] } }
    {
        self.stage = stage;
        self.stopped = false;
        self.octets.truncate_front(0);
    }

    pub fn set_stopped(&mut self, stopped: bool)
        ensures { self.new ≡ record self.old { is_stopped = stopped } }
    {
        self.stopped = stopped;
    }

    /// Whether so many octets more fit into the send ring.
    pub fn has_room(&self, more: usize) -> bool
        ensures { result ≡ nat_le (length self.now.waiting + more) 1024 }
    {
        more <= RING - self.octets.len()
    }

    /// Puts octets into the send ring.
    pub fn append(&mut self, octets: &[u8])
        requires { length self.old.waiting + length octets.now ≤ 1024 }
        ensures { self.new ≡ record self.old { waiting = self.old.waiting ++ octets.now } }
    {
        self.octets.fill_from_slice(octets);
    }

    /// How many octets wait in the send ring.
    pub fn waiting(&self) -> usize
        ensures { result ≡ length self.now.waiting }
    {
        self.octets.len()
    }

    /// Whether it may send: it is Opened, its own stop isn't set, and octets wait in its send ring.
    pub fn may_send(&self) -> bool
        ensures { result ≡ may_send self.now }
    {
        self.stage.is_opened() && !self.stopped && !self.octets.is_empty()
    }

    /// Takes the first octets out of the send ring, at most so many.
    pub fn take_front(&mut self, most: usize, taken: &mut ArrayVec<u8, 1024>)
        ensures taken { taken.new.items ≡ take most self.old.waiting }
        ensures rest { self.new ≡ record self.old { waiting = drop most self.old.waiting } }
    {
        let count = most.min(self.octets.len());
        take_octets(&mut self.octets, count, taken);
    }
}

/// Takes so many octets off the front.
fn take_octets(octets: &mut HeapCircularBuffer<u8>, count: usize, taken: &mut ArrayVec<u8, 1024>)
    requires there { count ≤ length octets.old.items }
    requires short { count ≤ 1024 }
    ensures taken { taken.new.items ≡ take count octets.old.items }
    ensures rest { octets.new ≡ buffer (drop count octets.old.items) octets.old.capacity }
{
    let (front, back) = octets.as_slices();
    let from_front = count.min(front.len());
    taken.clear();
    taken.try_extend_from_slice(&front[..from_front]).unwrap();
    taken
        .try_extend_from_slice(&back[..count - from_front])
        .unwrap();
    octets.truncate_front(octets.len() - count);
}
