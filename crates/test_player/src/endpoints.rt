//! An endpoint and its caller.
ghost use Rattle.std.specs.Prelude.{◌≤◌};

use crate::holding::lend;
use crate::lines::{Begins, Host, Player};
use crate::printing::{print_act, print_octets, print_refused, show};
use crate::setup::Setup;
use crate::words::{BAD, dlci, event, number, split};
use ctl_run::Stop;
use modem_driver::{Act, Ask, Endpoint, Event, Left, RequestError, SessionError};

/// The most octets of a piece.
const MOST: usize = 4096;

/// An endpoint, and the octets that it gave since they were last printed. What it reads of a line of a script:
///
/// - `open D`, `close D`, `cmd D TEXT`, `probe HEX`, `stop`: a request. It prints why it is refused.
/// - `in HEX`: these octets come. It prints how many are taken where the endpoint doesn't go on, and why.
/// - `tick`, `lost`: a tick, and the loss of the line. It prints why it is refused.
/// - `out N`: octets are taken in pieces of N, until there are no more. `sent`: those taken since the last `sent`.
/// - `outcomes`, `lines`: the outcomes and the unsolicited lines that wait are taken.
/// - `state D`: how the connection stands. `wants`: whether it wants ticks.
/// - `finish`: the endpoint ends, and so does the script. It prints how many requests, outcomes and lines are left.
#[derive(Drop)]
pub struct Played<R: Host> {
    rt: R,
    endpoint: Endpoint,
    sent: Vec<u8>,
}

/// Makes a request.
fn request(endpoint: &mut Endpoint, ask: Ask) -> Result<u64, RequestError> {
    match ask {
        Ask::OpenChannel(dlci) => endpoint.open(dlci),
        Ask::CloseChannel(dlci) => endpoint.close(dlci),
        Ask::Command(dlci, line) => match endpoint.command(dlci, line) {
            Ok(number) => Ok(number),
            Err(refused) => Err(refused.why),
        },
        Ask::Probe(octets) => match endpoint.probe(octets) {
            Ok(number) => Ok(number),
            Err(refused) => Err(refused.why),
        },
        Ask::Stop => endpoint.stop(),
    }
}

impl<R: Host> Played<R> {
    fn come(&mut self, octets: &[u8]) {
        let input = self.endpoint.handle_input(octets);
        if let Some(why) = input.blocked {
            let _ = self
                .rt
                .println(format_args!("{} taken, {why:?}", input.taken));
        }
    }

    fn happen(&mut self, line: &str) -> Result<(), Stop> {
        match event(self.rt.alloc(), line)? {
            Event::Ask(asked) => print_refused(&self.rt, request(&mut self.endpoint, asked.ask)),
            Event::Octets(octets) => self.come(octets.into_vec().as_slice()),
            Event::Tick => print_refused(&self.rt, self.endpoint.tick()),
            Event::Lost => print_refused(&self.rt, self.endpoint.line_lost()),
        }
        Ok(())
    }

    /// Takes a piece of so many octets, and says whether it was whole.
    fn take_piece(&mut self, most: usize) -> Result<bool, Stop>
        requires { most ≤ 4096 }
    {
        let mut room = [0; MOST];
        let count = self.endpoint.poll_output(&mut room[..most]);
        self.sent.extend_from_slice(&room[..count])?;
        Ok(count == most)
    }

    fn go_out(&mut self, most: usize) -> Result<(), Stop> {
        if most == 0 || most > MOST {
            return Err(BAD);
        }
        let rt = self.rt;
        for _ in rt.forever() {
            if !self.take_piece(most)? {
                return Ok(());
            }
        }
        unreachable!()
    }

    fn print_sent(&mut self) -> Result<(), Stop> {
        print_octets(&self.rt, self.sent.as_slice())?;
        self.sent.clear();
        Ok(())
    }

    /// The unsolicited line that waits first, or the outcome that does.
    fn next(&mut self, is_line: bool) -> Option<Act> {
        if is_line {
            return self.endpoint.poll_unsolicited().map(Act::Heard);
        }
        self.endpoint.poll_outcome().map(Act::Told)
    }

    /// Takes and prints all unsolicited lines that wait, or all outcomes.
    fn take_all(&mut self, are_lines: bool) -> Result<(), Stop> {
        let rt = self.rt;
        for _ in rt.forever() {
            let Some(act) = self.next(are_lines) else {
                return Ok(());
            };
            print_act(&rt, act)?;
        }
        unreachable!()
    }

    /// Takes a line of several words, or of what happens.
    fn go_on(&mut self, line: &str) -> Result<(), Stop> {
        match split(line) {
            ("out", most) => self.go_out(number(most)?),
            ("state", word) => {
                show(&self.rt, &self.endpoint.state(dlci(word)?));
                Ok(())
            }
            _ => self.happen(line),
        }
    }
}

impl<R: Host> Player for Played<R> {
    fn go(&mut self, line: &str) -> Result<bool, Stop> {
        match line {
            "sent" => self.print_sent()?,
            "outcomes" => self.take_all(false)?,
            "lines" => self.take_all(true)?,
            "wants" => show(&self.rt, &self.endpoint.wants_tick()),
            "finish" => return Ok(true),
            _ => self.go_on(line)?,
        }
        Ok(false)
    }
}

fn print_left<R: Host>(rt: &R, left: &mut Left) {
    let _ = rt.println(format_args!(
        "{} in hand, {} outcomes, {} lines",
        left.in_hand.len(),
        left.outcomes.len(),
        left.unsolicited.len()
    ));
}

fn endpoint(setup: &Setup) -> Result<Endpoint, Stop> {
    match Endpoint::new(setup.alloc, setup.n1, setup.kinds.as_slice(), 1) {
        Ok(endpoint) => Ok(endpoint),
        Err(SessionError::BadN1) => Err(Stop::BadN1),
        Err(_) => Err(Stop::NoMemory),
    }
}

impl<R: Host> Begins<R> for Played<R> {
    fn begin(rt: R, setup: &mut Setup) -> Result<Played<R>, Stop> {
        Ok(Played {
            rt,
            endpoint: endpoint(setup)?,
            sent: Vec::new(setup.alloc),
        })
    }

    fn end(self) {
        let rt = self.rt;
        lend(self.endpoint.finish(), |left| print_left(&rt, left));
    }
}
