//! The bells on which the threads of a bench wait.
use bell::Bell;
use std::alloc::{AllocError, Global};

/// A bell for each thread of a bench. A thread that made work for another rings the other's bell.
#[derive(Drop)]
pub struct Bells {
    /// The driver's: requests, room for outcomes, octets or room on the line.
    pub driver: Bell,
    /// The simulated modem's: octets or room on the line.
    pub modem: Bell,
    /// Caller 0's: outcomes, or room for requests.
    first: Bell,
    /// The other callers', by their numbers.
    others: Vec<Bell>,
}

impl Bells {
    /// Bells for the driver, the simulated modem and so many callers. This one is caller 0's.
    pub fn new(alloc: Global, first: Bell, callers: u8) -> Result<Bells, AllocError> {
        let mut bells = Bells {
            driver: Bell::new(alloc)?,
            modem: Bell::new(alloc)?,
            first,
            others: Vec::new(alloc),
        };
        for _ in 1..callers {
            let bell = Bell::new(alloc)?;
            bells.others.push(bell)?;
        }
        Ok(bells)
    }

    /// The bell of the caller of this number, or of caller 0 where there is none of this number.
    pub fn of_caller(&self, number: u8) -> &Bell {
        if number == 0 {
            return &self.first;
        }
        match self.others.get(usize::from(number) - 1) {
            Some(bell) => bell,
            None => &self.first,
        }
    }

    /// Rings the bell of each caller.
    pub fn ring_callers(&self) {
        self.first.ring();
        for bell in &self.others {
            bell.ring();
        }
    }

    /// Rings all of them.
    pub fn ring_all(&self) {
        self.driver.ring();
        self.modem.ring();
        self.ring_callers();
    }
}
