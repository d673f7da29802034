//! How long a bench goes on.
ghost use Rattle.std.specs.Prelude.{◌≡◌, ◌+◌, None, Some, IfErr, OnErr, OnOk};
ghost use Rattle.modem_bench.specs.Limits.{cause_at, fresh_limit};

use crate::cause::Cause;

/// How long a bench may go on.
#[derive(Clone, Copy)]
pub struct Limits {
    /// How many polls its session may make.
    pub polls: u32,
    /// How many polls in a row may move nothing.
    pub still: u32,
}

impl Limits {
    /// So many polls, of which 600 in a row may move nothing. Behind a poll that moved nothing the driver waits until it is rung, or
    /// for a tenth of a second. So a bench in which nothing moves any more is given up after a minute. A bench that works never gets
    /// there: between two polls that move something callers and modem ring a few hundred times at most. By then the room for what
    /// they ring for is used up.
    pub fn of_polls(polls: u32) -> Limits
        ensures { result ≡ record { polls = polls; still = 600 } }
    {
        Limits { polls, still: 600 }
    }
}

/// How many polls a session has left. How many in a row moved nothing, counting the one under way. How many in a row may.
#[derive(Drop)]
pub struct Limit {
    left: u32,
    quiet: u32,
    most: u32,
}

impl Limit {
    /// That of a session which has made no poll yet.
    pub fn new(limits: Limits) -> Limit
        ensures { result ≡ fresh_limit limits }
    {
        Limit {
            left: limits.polls,
            quiet: 0,
            most: limits.still,
        }
    }

    /// Counts a poll that is to be made. Refused with UsedUp where no poll is left, checked first. Refused with Quiet where as many in a
    /// row moved nothing as may.
    pub fn count(&mut self) -> Result<(), Cause>
        ensures may { OnOk result (cause_at self.old ≡ None) }
        ensures left { OnOk result (self.new.left + 1 ≡ self.old.left) }
        ensures quiet { OnOk result (self.new.quiet ≡ self.old.quiet + 1) }
        ensures most { OnOk result (self.new.most ≡ self.old.most) }
        ensures refused { IfErr result (λ cause. cause_at self.old ≡ Some cause) }
        ensures same { OnErr result (self.new ≡ self.old) }
    {
        if self.left == 0 {
            return Err(Cause::UsedUp);
        }
        if self.quiet >= self.most {
            return Err(Cause::Quiet);
        }
        self.left -= 1;
        self.quiet += 1;
        Ok(())
    }

    /// The poll under way moved something.
    pub fn moved(&mut self)
        ensures { self.new ≡ record self.old { quiet = 0 } }
    {
        self.quiet = 0;
    }
}
