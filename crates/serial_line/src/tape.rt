//! Octets in order, of which the first ones have passed.
ghost use Rattle.std.specs.Prelude.{◌≡◌, ◌<◌, ◌≤◌, ◌^◌, ◌++◌, [], length, IfOk};
ghost use Rattle.serial_line.specs.Tape.{free, with_more, with_passed};

use std::alloc::{AllocError, Global};
use std::marker::Model;

/// All octets that it was ever given, and how many of them have passed.
#[derive(Drop)]
pub(crate) struct Tape {
    octets: Vec<u8>,
    passed: usize,
    room: usize,
}

impl Model for Tape {
    ghost use Rattle.std.specs.Prelude.{◌≤◌, take, drop, vec_len, vec_capacity};
    ghost use Rattle.serial_line.specs.Tape.{Track};

    ghost Value = { Track };

    ghost view = { λ t. record {
      gone = take t.passed t.octets.items;
      ahead = drop t.passed t.octets.items;
      room = t.room;
    } };

    ghost invariant = { λ t. (t.passed ≤ vec_len t.octets) × (vec_len t.octets ≤ t.room)
        × (t.room ≤ vec_capacity t.octets) };
}

impl Tape {
    /// Takes all the memory that it will ever need.
    pub(crate) fn new(alloc: Global, room: usize) -> Result<Tape, AllocError>
        ensures { IfOk result (λ t. t ≡ record { gone = []; ahead = []; room = room }) }
    {
        Ok(Tape {
            octets: Vec::with_capacity(alloc, room)?,
            passed: 0,
            room,
        })
    }

    /// All octets: those that have passed, then those ahead.
    pub(crate) fn all(&self) -> &[u8]
        ensures { result.now ≡ self.now.gone ++ self.now.ahead }
    {
        &self.octets
    }

    /// Those that have not passed.
    pub(crate) fn ahead(&self) -> &[u8]
        ensures octets { result.now ≡ self.now.ahead }
        ensures small { length result.now < 2 ^ 63 }
    {
        &self.octets[self.passed..]
    }

    /// How many octets more it has room for.
    pub(crate) fn free(&self) -> usize
        ensures { result ≡ free self.now }
    {
        self.room - self.octets.len()
    }

    pub(crate) fn append(&mut self, octets: &[u8])
        requires { length octets.now ≤ free self.old }
        ensures { self.new ≡ with_more self.old octets.now }
    {
        self.octets.extend_from_slice(octets).unwrap();
    }

    pub(crate) fn pass(&mut self, count: usize)
        requires { count ≤ length self.old.ahead }
        ensures { self.new ≡ with_passed self.old count }
    {
        self.passed += count;
    }
}
