//! A session on a line in memory.
use crate::holding::lend;
use crate::lines::{Begins, Host, Player};
use crate::near::{Near, caller_takes};
use crate::printing::{print_count, print_octets, print_sent, say};
use crate::setup::Setup;
use crate::words::{come, split};
use ctl_run::Stop;
use modem_desk::{Caller, DriverEnd};
use modem_driver::{Finished, enter};
use serial_line::CutLine;

/// A session, and how many octets were printed that it sent. What it reads beside the lines of `Near`:
///
/// - `in HEX`: these octets come.
/// - `sent`: the octets that were sent since the last `sent`.
/// - `finish`: the session ends, and so does the script. It prints how many requests are in hand, outcomes that have no place,
///   lines that have none and requests at the desk are left, and how many outcomes each caller takes then.
#[derive(Drop)]
pub struct Played<R: Host> {
    near: Near<CutLine, R>,
    printed: usize,
}

/// How many requests are left at a desk, which has room for 64.
fn count_left<R: Host>(rt: &R, driver: &mut DriverEnd) -> u32 {
    for count in 0..64 {
        if driver.next(rt).is_none() {
            return count;
        }
    }
    64
}

fn print_finished<R: Host>(rt: &R, finished: &mut Finished<CutLine>) {
    let in_hand = finished.in_hand.len();
    let unplaced = finished.unplaced.len();
    let unannounced = finished.unannounced.len();
    let left = count_left(rt, &mut finished.driver);
    let _ = rt.println(format_args!(
        "{in_hand} in hand, {unplaced} unplaced, {unannounced} unannounced, {left} left"
    ));
}

/// How many outcomes each caller takes.
fn print_untaken<R: Host>(rt: &R, callers: &mut [Caller]) {
    for caller in callers {
        print_count(rt, caller_takes(caller), "untaken");
    }
}

impl<R: Host> Player for Played<R> {
    fn go(&mut self, line: &str) -> Result<bool, Stop> {
        let rt = self.near.rt;
        match line {
            "sent" => print_sent(&rt, self.near.session.line_mut(), &mut self.printed)?,
            "finish" => return Ok(true),
            _ if split(line).0 == "in" => come(rt.alloc(), self.near.session.line_mut(), line)?,
            _ => self.near.go(line)?,
        }
        Ok(false)
    }
}

impl<R: Host> Begins<R> for Played<R> {
    fn begin(rt: R, setup: &mut Setup) -> Result<Played<R>, Stop> {
        let near = Near::new(rt, setup.line()?, setup)?;
        Ok(Played { near, printed: 0 })
    }

    fn end(self) {
        let Near {
            rt,
            session,
            callers,
            ..
        } = self.near;
        lend(session.finish(), |finished| print_finished(&rt, finished));
        lend(callers, |callers| print_untaken(&rt, callers));
    }
}

/// Enters the multiplexer with at most so many calls on the line, and prints what was sent.
pub fn enter_line<R: Host>(rt: &R, setup: &Setup, calls: u32) -> Result<(), Stop> {
    let mut line = setup.line()?;
    match enter(&mut line, calls) {
        Ok(()) => {
            let _ = rt.println("entered");
        }
        Err(why) => say(rt, &why),
    }
    print_octets(rt, line.sent())
}
