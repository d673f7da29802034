//! Who is told what passes between a client and its modem.
ghost use Rattle.std.specs.Prelude.{◌≡◌, List, ℕ, ⊤};
ghost use Rattle.mux_capture.specs.declared.packet.Direction.{Direction as Way};
ghost use Rattle.ctl_sim.specs.Watching.{BeginsAnew, EndsCapture, SeesPassed};

use mux_capture::{Capture, Direction, Stamp};
use mux_frame::N1;
use std::io::Write;
use std::marker::Model;
use std::rt::Clock;

/// Who is told what passes between a client and its modem.
pub(crate) trait Watcher {
    /// How it goes from one state to another as these octets pass this way.
    ghost sees: { Self → Self → Way → List ℕ → Type 0 };

    /// How it goes from one state to another where a multiplexer begins, with this N1.
    ghost begins: { Self → Self → ℕ → Type 0 };

    /// These octets passed this way.
    fn see(&mut self, direction: Direction, octets: &[u8])
        ensures { sees self.old self.new direction octets.now };

    /// A line has entered the multiplexer, with this N1, and what is said to it has passed.
    fn begin(&mut self, n1: N1)
        ensures { begins self.old self.new n1.octets };
}

/// Nobody.
#[derive(Drop)]
pub(crate) struct Nobody;

impl Watcher for Nobody {
    ghost sees = { λ _ _ _ _. ⊤ };

    ghost begins = { λ _ _ _. ⊤ };

    fn see(&mut self, _direction: Direction, _octets: &[u8]) {}

    fn begin(&mut self, _n1: N1) {}
}

/// An N1 behind which nothing passes.
const NO_INFO: u16 = 0;

/// A capture, and the clock of its times.
#[derive(Drop)]
pub(crate) struct Recorder<'a, K: Clock, C: Write> {
    clock: &'a K,
    capture: Capture<C>,
}

impl<'a, K: Clock, C: Write> Model for Recorder<'a, K, C> {
    ghost use Rattle.mux_capture.specs.Passing.{CaptureState};

    ghost Value = { CaptureState };

    ghost view = { λ r. r.capture };
}

impl<'a, K: Clock, C: Write> Recorder<'a, K, C> {
    ghost use Rattle.std.specs.Prelude.{◌≡◌};

    /// A capture that takes its times of this clock.
    pub(crate) fn new(clock: &'a K, capture: Capture<C>) -> Recorder<'a, K, C>
        ensures { result ≡ capture }
    {
        Recorder { clock, capture }
    }

    /// The capture, in which all is over: what could still become a frame came to none.
    pub(crate) fn finish(self) -> Capture<C>
        ensures { EndsCapture self.entry result }
    {
        let Recorder { clock, mut capture } = self;
        capture.renew(Stamp::now(clock), NO_INFO);
        capture
    }
}

impl<'a, K: Clock, C: Write> Watcher for Recorder<'a, K, C> {
    ghost sees = { SeesPassed };

    ghost begins = { BeginsAnew };

    fn see(&mut self, direction: Direction, octets: &[u8]) {
        self.capture.take(Stamp::now(self.clock), direction, octets);
    }

    fn begin(&mut self, n1: N1) {
        self.capture.renew(Stamp::now(self.clock), n1.octets);
    }
}
