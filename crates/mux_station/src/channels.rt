//! All connections, and which of them may send.
ghost use Rattle.std.specs.Prelude.{◌≡◌, ℕ, ◌+◌, ◌<◌, ◌≤◌, ◌==◌, ◌++◌, [], false, Bool, List, length, take, drop, option_map, replicate, slice_index_or, slice_set, IfOk};
ghost use Rattle.std.specs.Borrow.{sem};
ghost use Rattle.std.specs.Int.{bit_at};
ghost use Rattle.std.specs.Io.BufRead.{Rests};
ghost use Rattle.mux_station.specs.Stages.{stage_state};
ghost use Rattle.mux_station.specs.Stations.{shut_channel};
ghost use Rattle.mux_station.specs.GivenFrames.{dlci_of};
ghost use Rattle.mux_station.specs.Marks.{bit_of, first_sender};

use crate::channel::{Channel, Stage};
use arrayvec::ArrayVec;
use mux_frame::Dlci;
use std::alloc::{AllocError, Global};
use std::marker::Model;

/// The connections 0 to 61, and a set of bits: bit d is set where connection d may send. It may where it is Opened, its
/// own stop isn't set, and octets wait in its send ring. The set shows whose turn it is without a look at each
/// connection.
#[derive(Drop)]
pub(crate) struct Channels {
    each: Vec<Channel>,
    senders: u64,
    /// The octets that were taken last, which may be lent.
    taken: ArrayVec<u8, 1024>,
}

impl Model for Channels {
    ghost use Rattle.std.specs.Prelude.{List};
    ghost use Rattle.mux_station.specs.Stations.{Channel};
    ghost use Rattle.mux_station.specs.Marks.{AreMarked};

    ghost Value = { List Channel };

    ghost view = { λ c. c.each.items };

    ghost invariant = { λ c. AreMarked c.each.items c.senders };
}

impl Channels {
    ghost use Rattle.mux_station.specs.contracts.channels.Channels.{the_row};

    /// All connections, shut.
    pub fn new(alloc: Global) -> Result<Channels, AllocError>
        ensures { IfOk result (λ cs. cs ≡ replicate 62 shut_channel) }
    {
        let each = shut_channels(alloc)?;
        Ok(Channels {
            each,
            senders: 0,
            taken: ArrayVec::new(),
        })
    }

    /// One connection.
    pub fn at(&self, dlci: Dlci) -> &Channel
        ensures { result.now ≡ slice_index_or self.now dlci.number shut_channel }
    {
        &self.each[usize::from(dlci.number())]
    }

    /// Puts a connection into another stage, in which its stop and its send ring start afresh.
    pub fn turn(&mut self, dlci: Dlci, stage: Stage)
        ensures { self.new ≡ slice_set self.old dlci.number
            (record { state = stage_state stage; is_stopped = false; waiting = [] }) }
    {
        let channel = &mut self.each[usize::from(dlci.number())];
        channel.turn(stage);
        self.senders = marked(self.senders, dlci, false);
    }

    /// Makes every connection Shut.
    pub fn shut_all(&mut self)
        ensures { self.new ≡ replicate 62 shut_channel }
    {
        shut_each(&mut self.each);
        self.senders = 0;
    }

    /// Sets or clears the own stop of a connection.
    pub fn set_stopped(&mut self, dlci: Dlci, stopped: bool)
        ensures { self.new ≡ slice_set self.old dlci.number
            (record (slice_index_or self.old dlci.number shut_channel) { is_stopped = stopped }) }
    {
        let channel = &mut self.each[usize::from(dlci.number())];
        channel.set_stopped(stopped);
        let sends = channel.may_send();
        self.senders = marked(self.senders, dlci, sends);
    }

    /// Puts octets into a connection's send ring.
    pub fn append(&mut self, dlci: Dlci, octets: &[u8])
        requires { length (slice_index_or self.old dlci.number shut_channel).waiting
            + length octets.now ≤ 1024 }
        ensures { self.new ≡ slice_set self.old dlci.number
            (record (slice_index_or self.old dlci.number shut_channel)
            { waiting = (slice_index_or self.old dlci.number shut_channel).waiting ++ octets.now }) }
    {
        let channel = &mut self.each[usize::from(dlci.number())];
        channel.append(octets);
        let sends = channel.may_send();
        self.senders = marked(self.senders, dlci, sends);
    }

    /// Takes the first octets out of a connection's send ring, at most so many, and lends them.
    pub fn take_front(&mut self, dlci: Dlci, most: usize) -> &[u8]
        ensures taken { result.now
            ≡ take most (slice_index_or self.old dlci.number shut_channel).waiting }
        ensures short { length result.now ≤ 1024 }
        ensures* rest { sem 𝓛
            (Rests the_row self.entry
            (λ new. new ≡ slice_set self.old dlci.number
            (record (slice_index_or self.old dlci.number shut_channel)
            { waiting = drop most (slice_index_or self.old dlci.number shut_channel).waiting }))) }
    {
        let channel = &mut self.each[usize::from(dlci.number())];
        channel.take_front(most, &mut self.taken);
        let has_more = channel.may_send();
        self.senders = marked(self.senders, dlci, has_more);
        self.taken.as_slice()
    }

    /// The least connection from this one on that may send.
    pub fn first_sender(&self, from: u8) -> Option<Dlci>
        requires { from ≤ 62 }
        ensures { option_map dlci_of result ≡ first_sender self.now from }
    {
        let above = self.senders & (u64::MAX << from);
        if above == 0 {
            return None;
        }
        let number = above.trailing_zeros() as u8;
        Some(Dlci { number })
    }
}

/// The set of bits with a connection's bit set where it may send, and else clear.
fn marked(senders: u64, dlci: Dlci, sends: bool) -> u64
    ensures same { bit_at result dlci.number ≡ bit_of sends }
    ensures others { (d : ℕ) → (d == dlci.number) ≡ false → bit_at result d ≡ bit_at senders d }
{
    let bit = 1u64 << dlci.number();
    if sends { senders | bit } else { senders & !bit }
}

/// All connections, shut.
fn shut_channels(alloc: Global) -> Result<Vec<Channel>, AllocError>
    ensures { IfOk result (λ cs. cs.items ≡ replicate 62 shut_channel) }
{
    let mut channels = Vec::with_capacity(alloc, Dlci::COUNT)?;
    for _ in 0..Dlci::COUNT {
        channels.push(Channel::new(alloc)?)?;
    }
    Ok(channels)
}

/// Makes every connection Shut.
fn shut_each(channels: &mut Vec<Channel>)
    ensures { channels.new.items ≡ replicate (length channels.old.items) shut_channel }
{
    for channel in channels.iter_mut() {
        channel.turn(Stage::Shut);
    }
}
