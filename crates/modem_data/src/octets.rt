//! Octets that wait, in their order.
ghost use Rattle.std.specs.Prelude.{◌≡◌, ◌==◌, ◌<◌, ◌≤◌, ◌+◌, ◌++◌, [], length, take, drop, min, vec_capacity, IfOk, OnOk, OnErr};
ghost use Rattle.mux_frame.specs.Frames.{frame_of};
ghost use Rattle.mux_frame.specs.Spelling.{most_info, spelled};

use mux_frame::{FrameView, write_frame};
use std::alloc::{AllocError, Global};
use std::marker::Model;

/// Octets that wait. Contracts see them, how many octets are kept with those that have gone, and how many there is room for.
#[derive(Drop)]
pub(crate) struct Octets {
    octets: Vec<u8>,
    start: usize,
}

impl Model for Octets {
    ghost use Rattle.std.specs.Prelude.{drop, length, vec_capacity, ◌≤◌};
    ghost use Rattle.std.specs.Vec.{vec_len};
    ghost use Rattle.modem_data.specs.Queues.{Queue};

    ghost Value = { Queue };

    ghost view = { λ o. record {
      items = drop o.start o.octets.items;
      len = length o.octets.items;
      capacity = vec_capacity o.octets;
    } };

    ghost invariant = { λ o. o.start ≤ vec_len o.octets };
}

impl Octets {
    /// None wait.
    pub(crate) fn new(alloc: Global) -> Octets
        ensures { result.items ≡ [] }
    {
        Octets {
            octets: Vec::new(alloc),
            start: 0,
        }
    }

    /// None wait, and there is room for so many. Refusal: no memory.
    pub(crate) fn with_capacity(alloc: Global, capacity: usize) -> Result<Octets, AllocError>
        ensures none { IfOk result (λ o. o.items ≡ []) }
        ensures room { IfOk result (λ o. capacity ≤ o.capacity) }
    {
        Ok(Octets {
            octets: Vec::with_capacity(alloc, capacity)?,
            start: 0,
        })
    }

    /// All are dropped.
    pub(crate) fn clear(&mut self)
        ensures none { self.new.items ≡ [] }
        ensures capacity { self.new.capacity ≡ self.old.capacity }
    {
        self.octets.clear();
        self.start = 0;
    }

    /// How many wait.
    pub(crate) fn len(&self) -> usize
        ensures { result ≡ length self.now.items }
    {
        self.octets.len() - self.start
    }

    /// Whether none wait.
    pub(crate) fn is_empty(&self) -> bool
        ensures { result ≡ (length self.now.items == 0) }
    {
        self.octets.len() == self.start
    }

    /// The octets, lent.
    pub(crate) fn as_slice(&self) -> &[u8]
        ensures { result.now ≡ self.now.items }
    {
        &self.octets[self.start..]
    }

    /// Drops the first `count` octets. Requires that there are as many.
    pub(crate) fn pass(&mut self, count: usize)
        requires { count ≤ length self.old.items }
        ensures rest { self.new.items ≡ drop count self.old.items }
        ensures capacity { self.new.capacity ≡ self.old.capacity }
    {
        self.start += count;
        if self.start == self.octets.len() {
            self.octets.clear();
            self.start = 0;
        }
    }

    /// Moves the octets to the front of their room.
    fn compact(&mut self)
        ensures same { self.new.items ≡ self.old.items }
        ensures len { self.new.len ≡ length self.old.items }
        ensures capacity { self.new.capacity ≡ self.old.capacity }
    {
        let rest = self.octets.len() - self.start;
        self.octets.copy_within(self.start.., 0);
        self.octets.truncate(rest);
        self.start = 0;
    }

    /// Makes room for so many octets more, by moving those that wait. Requires that there is room for all.
    pub(crate) fn fit(&mut self, more: usize)
        requires { length self.old.items + more ≤ self.old.capacity }
        ensures same { self.new.items ≡ self.old.items }
        ensures room { self.new.len + more ≤ self.new.capacity }
        ensures capacity { self.new.capacity ≡ self.old.capacity }
    {
        if self.octets.capacity() - self.octets.len() < more {
            self.compact();
        }
    }

    /// Makes room for so many octets more: first by moving those that wait, where as many have gone. Its first memory is for at least
    /// `first` octets. Refusal: no memory.
    pub(crate) fn reserve(&mut self, more: usize, first: usize) -> Result<(), AllocError>
        ensures same { self.new.items ≡ self.old.items }
        ensures room { OnOk result (self.new.len + more ≤ self.new.capacity) }
    {
        if self.octets.capacity() - self.octets.len() >= more {
            return Ok(());
        }
        if self.octets.capacity() == 0 {
            return self.octets.reserve(more.max(first));
        }
        if self.start >= self.len() {
            self.compact();
        }
        self.octets.reserve(more)
    }

    /// Puts octets behind the others. Requires that there is room.
    pub(crate) fn put(&mut self, octets: &[u8])
        requires { self.old.len + length octets.now ≤ self.old.capacity }
        ensures items { self.new.items ≡ self.old.items ++ octets.now }
        ensures capacity { self.old.capacity ≤ self.new.capacity }
    {
        let _ = self.octets.extend_from_slice(octets);
    }

    /// Puts a frame behind the others. Requires that there is room.
    #[tactic(auto, using(crate::proofs::FrameRoom::some_wait))]
    pub(crate) fn put_frame(&mut self, frame: FrameView<'_>, n1: u16)
        requires short { length frame.info.now ≤ most_info n1 frame.kind }
        requires bound { n1 ≤ 32767 }
        requires room { self.old.len + (length frame.info.now + 7) ≤ self.old.capacity }
        ensures written { self.new.items ≡ self.old.items ++ spelled (frame_of frame.entry) }
        ensures some { 0 < length self.new.items }
        ensures len { self.new.len ≤ self.old.len + (length frame.entry.info.now + 7) }
        ensures capacity { self.old.capacity ≤ self.new.capacity }
    {
        write(frame, n1, &mut self.octets);
    }

    /// Gives the first octets, as many as there is room for, and says how many.
    pub(crate) fn take(&mut self, room: &mut [u8]) -> usize
        ensures count { result ≡ min (length self.old.items) (length room.old) }
        ensures given { take result room.new ≡ take result self.old.items }
        ensures behind { drop result room.new ≡ drop result room.old }
        ensures rest { self.new.items ≡ drop result self.old.items }
        ensures capacity { self.new.capacity ≡ self.old.capacity }
    {
        let count = copy_front(self.as_slice(), room);
        self.pass(count);
        count
    }
}

/// Copies the first octets to the front of the room, as many as there is room for.
fn copy_front(octets: &[u8], room: &mut [u8]) -> usize
    ensures count { result ≡ min (length octets.now) (length room.old) }
    ensures given { take result room.new ≡ take result octets.now }
    ensures behind { drop result room.new ≡ drop result room.old }
{
    let count = octets.len().min(room.len());
    let (front, _) = room.split_at_mut(count);
    front.copy_from_slice(&octets[..count]);
    count
}

/// Writes a frame. Requires that there is room.
fn write(frame: FrameView<'_>, n1: u16, output: &mut Vec<u8>)
    requires short { length frame.info.now ≤ most_info n1 frame.kind }
    requires bound { n1 ≤ 32767 }
    requires room { length output.old.items + (length frame.info.now + 7) ≤ vec_capacity output.old }
    ensures written { output.new.items ≡ output.old.items ++ spelled (frame_of frame.entry) }
    ensures capacity { vec_capacity output.old ≤ vec_capacity output.new }
{
    let _ = write_frame(frame, n1, output);
}
