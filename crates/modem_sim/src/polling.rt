//! A simulated modem as a future. It keeps no handle, since no turn waits.
ghost use Rattle.std.specs.Prelude.{◌≡◌, ◌+◌, ◌≤◌};
ghost use Rattle.modem_sim.specs.Sims.{SimGoes, end_given};
ghost use Rattle.modem_sim.specs.Polls.{Polls, Runs, with_given};

use crate::error::SimError;
use crate::sim::{Sim, SimTurn};
use futures::Future;
use futures::task::{Context, Poll};
use serial_line::SerialLine;

/// The most turns of a poll.
const TURNS: usize = 64;

impl<L: SerialLine> Sim<L> {
    /// At most 64 turns, and none behind one that doesn't answer Moved. Nothing where there is more to come.
    fn turns(&mut self) -> Option<Result<SimTurn, SimError>>
        ensures runs { Runs L.seen self.old self.new result }
        ensures goes { SimGoes L.seen self.old self.new }
        ensures bounded { (L.seen self.new.line).calls ≤ (L.seen self.old.line).calls + 128 }
        ensures beyond { L.other_side self.new.line ≡ L.other_side self.old.line }
    {
        for _ in 0..TURNS {
            match self.turn() {
                Ok(SimTurn::Moved) => {}
                Ok(SimTurn::Idle) => return None,
                Ok(SimTurn::Ended) => return Some(Ok(SimTurn::Ended)),
                Err(why) => return Some(Err(why)),
            }
        }
        None
    }

    /// The end that a poll gave, if one did.
    fn end(&self) -> Option<Result<SimTurn, SimError>>
        ensures { result ≡ end_given self.now }
    {
        self.machine.end
    }

    /// What a poll gives is kept as the end, but for 1 NoMemory.
    fn keep(&mut self, given: Option<Result<SimTurn, SimError>>)
        ensures { self.new ≡ with_given given self.old }
    {
        match given {
            None | Some(Err(SimError::NoMemory)) => {}
            Some(end) => self.machine.end = Some(end),
        }
    }

    /// Makes a poll, and gives its end if it has one. After an earlier poll's end it gives that end again and does nothing.
    /// Else it makes at most 64 turns and gives the end that they lead to. That end is kept, unless it is 1 NoMemory. Call it
    /// in a future of your own that hands the simulated modem on: a simulated modem polled as a future shows only its output.
    pub fn advance(&mut self) -> Option<Result<SimTurn, SimError>>
        ensures polls { Polls L.seen self.old self.new result }
        ensures goes { SimGoes L.seen self.old self.new }
        ensures bounded { (L.seen self.new.line).calls ≤ (L.seen self.old.line).calls + 128 }
        ensures beyond { L.other_side self.new.line ≡ L.other_side self.old.line }
    {
        if let Some(end) = self.end() {
            return Some(end);
        }
        let given = self.turns();
        self.keep(given);
        given
    }
}

/// A poll makes at most 64 turns, up to the first that doesn't answer Moved. It is done with Ended, and with each refusal of a
/// turn; else it yields. A poll after an end makes no turn and gives the same end; after 1 NoMemory, which is no end, a poll goes on.
impl<L: SerialLine + Drop> Future for Sim<L> {
    ghost use Rattle.modem_sim.specs.Polls.{Gives};

    type Output = Result<SimTurn, SimError>;

    ghost gives = { λ s given. Gives L.seen s given };

    fn poll(&mut self, cx: &mut Context<'_>) -> Poll<Result<SimTurn, SimError>> {
        match self.advance() {
            Some(end) => Poll::Ready(end),
            None => cx.yield_now(),
        }
    }
}
