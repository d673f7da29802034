//! How long an entry goes on: a time, counted by a clock, and a bell to wait on.
ghost use Rattle.std.specs.Prelude.{◌≡◌, false};
ghost use Rattle.serial_line.specs.Counts.{one_more};

use bell::Bell;
use modem_driver::Patience;
use std::rt::Clock;
use std::sync::Wait;
use std::time::{Duration, Instant};

/// How long a modem may take to answer a CLD frame, in milliseconds.
const PAUSE_MILLIS: u64 = 300;

/// A time from its beginning or its last renewal on, or a pause. It waits on the bell where a step moved nothing.
#[derive(Drop)]
pub struct TimeLimit<'a, R: Wait + Clock> {
    rt: &'a R,
    bell: &'a Bell,
    time: Duration,
    limit: Duration,
    start: Option<Instant>,
    asked: u64,
    idle: u64,
    waits: u64,
    over: bool,
}

impl<'a, R: Wait + Clock> TimeLimit<'a, R> {
    /// So much time from now on.
    pub fn new(rt: &'a R, bell: &'a Bell, time: Duration) -> TimeLimit<'a, R> {
        TimeLimit {
            rt,
            bell,
            time,
            limit: time,
            start: Instant::now(rt).ok(),
            asked: 0,
            idle: 0,
            waits: 0,
            over: false,
        }
    }

    /// So much time from now on.
    fn begin(&mut self, limit: Duration)
        ensures ready { self.new.over ≡ false }
        ensures same { (self.new.asked ≡ self.old.asked) × (self.new.idle ≡ self.old.idle) }
        ensures waits { self.new.waits ≡ one_more self.old.waits }
    {
        self.limit = limit;
        self.start = Instant::now(self.rt).ok();
        self.waits = self.waits.saturating_add(1);
        self.over = false;
    }

    /// What is left of the time: none where the clock fails.
    fn left(&self) -> Duration {
        let passed = self.start.and_then(|start| start.elapsed(self.rt).ok());
        match passed {
            Some(passed) => self.limit.saturating_sub(passed),
            None => Duration::ZERO,
        }
    }
}

impl<R: Wait + Clock> Patience for TimeLimit<'_, R> {
    ghost is_over = { λ limit. limit.over };

    ghost asked = { λ limit. limit.asked };

    ghost idle = { λ limit. limit.idle };

    ghost waits = { λ limit. limit.waits };

    fn goes_on(&mut self, moved: bool) -> bool {
        self.asked = self.asked.saturating_add(1);
        if !moved {
            self.idle = self.idle.saturating_add(1);
        }
        let left = self.left();
        self.over = left.is_zero();
        if !self.over && !moved {
            self.bell.wait(self.rt, left);
        }
        !self.over
    }

    fn renew(&mut self) {
        let time = self.time;
        self.begin(time);
    }

    fn pause(&mut self) {
        self.begin(Duration::from_millis(PAUSE_MILLIS));
    }
}
