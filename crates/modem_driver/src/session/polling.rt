//! A session as a future.
ghost use Rattle.std.specs.Prelude.{◌≡◌, ◌+◌, ◌≤◌, IfErr, IfSome};
ghost use Rattle.modem_driver.specs.SessionStates.{TakesMore};
ghost use Rattle.modem_history.specs.Turns.{says_moved};
ghost use Rattle.modem_driver.specs.SessionTurns.{turn_answer, LeavesLost};
ghost use Rattle.modem_driver.specs.Polls.{has_ended, end_given, end_in, with_end, SessionGoesOn, RunsTurns, PollsOn, Polls, SaysEnd, Gives};

use crate::machine::course::Course;
use crate::session::Session;
use crate::session::ending::Ended;
use crate::session::error::SessionFault;
use crate::session::turn::Turn;
use futures::Future;
use futures::task::{Context, Poll};
use serial_line::SerialLine;
use std::sync::Wait;

/// The most turns of a poll.
const TURNS: usize = 64;

/// What a poll came to.
#[derive(Clone, Copy)]
pub enum Progress {
    /// Its 64 turns all moved something: there may be more to do at once.
    More,
    /// A turn moved nothing: there is nothing to do until octets, a request or room comes.
    Idle,
    /// The session's end, or a turn's fault. `NoMemory` is no end: the next poll goes on.
    Ended(Result<Ended, SessionFault>),
}

impl Turn {
    /// Whether it is Moved.
    fn is_moved(self) -> bool
        ensures { result ≡ says_moved (turn_answer self) }
    {
        matches!(self, Turn::Moved)
    }
}

impl<L: SerialLine, R: Wait + Drop> Session<L, R> {
    /// Whether it has ended.
    fn has_ended(&self) -> bool
        ensures { result ≡ has_ended self.now.machine }
    {
        self.machine.has_ended()
    }

    /// At most 64 turns, none behind one that doesn't answer Moved, and none once it has ended. Whether
    /// all 64 were made and answered so; or the fault by which the last one ended.
    fn turns(&mut self) -> Result<bool, SessionFault>
        ensures runs { RunsTurns L.seen self.old self.new result }
        ensures goes { SessionGoesOn L.seen self.old self.new }
        ensures bounded { (L.seen self.new.line).calls ≤ (L.seen self.old.line).calls + 128 }
        ensures takes { TakesMore self.old.driver self.new.driver }
        ensures beyond { L.other_side self.new.line ≡ L.other_side self.old.line }
        ensures lost { IfErr result (λ why. LeavesLost why self.new) }
    {
        for _ in 0..TURNS {
            if self.has_ended() {
                return Ok(false);
            }
            match self.turn() {
                Ok(says) => {
                    if !says.is_moved() {
                        return Ok(false);
                    }
                }
                Err(why) => return Err(why),
            }
        }
        Ok(true)
    }

    /// The end that a poll gave, if one did.
    fn end(&self) -> Option<Result<Ended, SessionFault>>
        ensures { result ≡ end_given self.now.machine.course }
    {
        match self.machine.course {
            Course::Ended(end) => Some(end),
            _ => None,
        }
    }

    /// What a poll gives is kept as the end, but for 1 NoMemory.
    fn keep_end(&mut self, given: Result<Ended, SessionFault>)
        ensures { self.new ≡ with_end given self.old }
    {
        match given {
            Err(SessionFault::NoMemory) => {}
            end => self.machine.course = Course::Ended(end),
        }
    }

    /// What at most 64 turns lead to: Stopped where it has ended then, or the fault of the last one. It is
    /// kept as the end, but for 1 NoMemory. Where there is no end, whether there may be more to do.
    fn run(&mut self) -> Progress
        ensures polls { PollsOn L.seen self.old self.new result }
        ensures goes { SessionGoesOn L.seen self.old self.new }
        ensures says { IfSome (end_in result) (SaysEnd L.seen self.new) }
        ensures bounded { (L.seen self.new.line).calls ≤ (L.seen self.old.line).calls + 128 }
        ensures takes { TakesMore self.old.driver self.new.driver }
        ensures beyond { L.other_side self.new.line ≡ L.other_side self.old.line }
    {
        match self.turns() {
            Ok(more) => {
                if self.has_ended() {
                    self.keep_end(Ok(Ended::Stopped));
                    return Progress::Ended(Ok(Ended::Stopped));
                }
                if more {
                    return Progress::More;
                }
                Progress::Idle
            }
            Err(why) => {
                self.keep_end(Err(why));
                Progress::Ended(Err(why))
            }
        }
    }

    /// One poll. Where an earlier poll gave an end, it gives that again and does nothing. Else it makes turns, at most
    /// 64, up to the first that doesn't answer Moved. It gives the end, or, before that, whether there may be more to
    /// do at once. It is for a loop or a future of one's own: a session polled as a future shows only its output.
    pub fn advance(&mut self) -> Progress
        ensures polls { Polls L.seen self.old self.new result }
        ensures goes { SessionGoesOn L.seen self.old self.new }
        ensures gives { IfSome (end_in result) (Gives L.seen self.old) }
        ensures bounded { (L.seen self.new.line).calls ≤ (L.seen self.old.line).calls + 128 }
        ensures takes { TakesMore self.old.driver self.new.driver }
        ensures beyond { L.other_side self.new.line ≡ L.other_side self.old.line }
    {
        match self.end() {
            Some(end) => Progress::Ended(end),
            None => self.run(),
        }
    }
}

/// A poll makes at most 64 turns, up to the first that doesn't answer Moved. It is done with Stopped as soon as a Stop
/// was answered by Stopped or NoAnswer, all frames sent are written, and no outcome waits for its caller. It is done with
/// each fault of a turn. Else it yields. A poll after an end makes no turn and gives the same end, whatever happened in
/// between; 1 NoMemory is no end, and the next poll goes on. After a fault, call `turn` to place what still waits, or
/// take it from `finish`.
impl<L: SerialLine + Drop, R: Wait + Drop> Future for Session<L, R> {
    ghost use Rattle.modem_driver.specs.Polls.{Gives};

    type Output = Result<Ended, SessionFault>;

    ghost gives = { λ s end. Gives L.seen s end };

    fn poll(&mut self, cx: &mut Context<'_>) -> Poll<Result<Ended, SessionFault>> {
        match self.advance() {
            Progress::Ended(end) => Poll::Ready(end),
            Progress::More => cx.yield_now(),
            Progress::Idle => cx.yield_now(),
        }
    }
}
