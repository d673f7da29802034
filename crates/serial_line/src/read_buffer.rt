//! Octets that were read from a line and wait to be used.
ghost use Rattle.std.specs.Prelude.{◌≡◌, ◌≤◌, ◌==◌, [], length, drop, IfOk, OnErr};
ghost use Rattle.serial_line.specs.LineViews.{after_read, after_fault};

use crate::{LineFault, SerialLine};
use std::alloc::{AllocError, Global};
use std::marker::Model;

/// The most octets that are read at once.
const ROOM: usize = 512;

/// The octets that were read from a line and not yet used, at most 512. Contracts see them as a list.
#[derive(Drop)]
pub struct ReadBuffer {
    octets: Vec<u8>,
    start: usize,
    end: usize,
}

impl Model for ReadBuffer {
    ghost use Rattle.std.specs.Prelude.{◌≡◌, ℕ, List, take, drop, ◌≤◌};
    ghost use Rattle.std.specs.Vec.{vec_len};

    ghost Value = { List ℕ };

    ghost view = { λ i. drop i.start (take i.end i.octets.items) };

    ghost invariant = { λ i. (i.start ≤ i.end) × (i.end ≤ vec_len i.octets) × (vec_len i.octets ≡ 512) };
}

impl ReadBuffer {
    /// An empty buffer with room for 512 octets.
    pub fn new(alloc: Global) -> Result<ReadBuffer, AllocError>
        ensures { IfOk result (λ i. i ≡ []) }
    {
        let octets = vec![in alloc; 0; ROOM]?;
        Ok(ReadBuffer {
            octets,
            start: 0,
            end: 0,
        })
    }

    /// Whether all octets were used.
    pub fn is_empty(&self) -> bool
        ensures { result ≡ (length self.now == 0) }
    {
        self.start == self.end
    }

    /// The octets, lent.
    pub fn as_slice(&self) -> &[u8]
        ensures { result.now ≡ self.now }
    {
        &self.octets[self.start..self.end]
    }

    /// Drops the first `count` octets, which were used. Requires that there are as many.
    pub fn pass(&mut self, count: usize)
        requires { count ≤ length self.old }
        ensures { self.new ≡ drop count self.old }
    {
        self.start += count;
    }

    /// Reads the line once, with room for 512 octets, and says how many came. Requires that the buffer is empty.
    pub fn read<L: SerialLine>(&mut self, line: &mut L) -> Result<usize, LineFault>
        requires { self.old ≡ [] }
        ensures bound { IfOk result (λ n. n ≤ 512) }
        ensures count { IfOk result (λ n. n ≡ length self.new) }
        ensures none { OnErr result (self.new ≡ []) }
        ensures came { IfOk result (λ n. L.seen line.new ≡ after_read 512 n self.new (L.seen line.old)) }
        ensures fault { OnErr result (L.seen line.new ≡ after_fault (L.seen line.old)) }
        ensures beyond { L.other_side line.new ≡ L.other_side line.old }
    {
        self.start = 0;
        self.end = 0;
        let count = line.try_read(&mut self.octets)?;
        self.end = count;
        Ok(count)
    }
}
