//! The command that enters the multiplexer (27.007, 5.7).
ghost use Rattle.std.specs.Prelude.{◌≡◌, ◌≤◌, option_map, IfOk};
ghost use Rattle.ctl_sim.specs.Entry.{Read, digit_read, entered_by, entered_with, entering, is_basic, is_between, is_good, mux_entry, n1_of, none_read, number_so_far, octets_of, parameter_ended, parameter_octet};

use at_cmds::commands_in;
use mux_frame::N1;
use std::alloc::{AllocError, Global};
use std::marker::Model;

/// Whether a parameter is left out, or between these.
fn is_between(low: u32, high: u32, number: Option<u32>) -> bool
    ensures { result ≡ is_between low high number }
{
    match number {
        None => true,
        Some(number) => low <= number && number <= high,
    }
}

/// Whether a parameter of this place may be this number.
fn is_good(place: u8, number: Option<u32>) -> bool
    ensures { result ≡ is_good place number }
{
    match place {
        0 => number == Some(0),
        1 => is_between(0, 0, number),
        2 => is_between(1, 8, number),
        3 => is_between(31, 32767, number),
        4 => is_between(1, 255, number),
        5 => is_between(0, 100, number),
        6 => is_between(2, 255, number),
        7 => is_between(1, 255, number),
        8 => is_between(1, 7, number),
        _ => false,
    }
}

/// Parameters so far.
#[derive(Drop)]
struct Parameters {
    place: u8,
    digits: Option<u32>,
    n1: N1,
    good: bool,
}

impl Model for Parameters {
    ghost Value = { Read };

    ghost view = { λ p. record { place = p.place; digits = p.digits; n1 = p.n1.octets; good = p.good } };
}

impl Parameters {
    /// A parameter ends.
    fn end(&mut self)
        ensures { self.new ≡ parameter_ended self.old }
    {
        self.good = self.good && is_good(self.place, self.digits);
        if self.place == 3 {
            self.take_n1();
        }
        if self.place < 9 {
            self.place += 1;
        }
        self.digits = None;
    }

    /// N1 is the number that was read, if one was and it is 31 to 32767.
    fn take_n1(&mut self)
        ensures { self.new ≡ record self.old { n1 = n1_of self.old.digits self.old.n1 } }
    {
        if let Some(number) = self.digits {
            if number <= 32767 {
                self.n1 = N1::new(number as u16).unwrap_or(self.n1);
            }
        }
    }

    /// One more digit.
    fn push_digit(&mut self, digit: u8)
        requires { digit ≤ 9 }
        ensures { self.new ≡ digit_read self.old digit }
    {
        let number = self.digits.unwrap_or(0);
        if number < 10000 {
            self.digits = Some(number * 10 + u32::from(digit));
        } else {
            self.good = false;
        }
    }

    /// One more octet.
    fn push(&mut self, octet: u8)
        ensures { self.new ≡ parameter_octet self.old octet }
    {
        match octet {
            b',' => self.end(),
            b'0'..=b'9' => self.push_digit(octet - b'0'),
            _ => self.good = false,
        }
    }
}

/// The N1 of the basic option that these parameters enter, each in its range; it is this where they leave it out.
#[tactic(auto, unfolding(crate::specs::Entry::entering))]
fn entering(n1: N1, text: &[u8]) -> Option<N1>
    ensures { option_map octets_of result ≡ entering n1.octets text.now }
{
    let mut parameters = Parameters {
        place: 0,
        digits: None,
        n1,
        good: true,
    };
    for octet in text {
        parameters.push(*octet);
    }
    parameters.end();
    if parameters.good {
        Some(parameters.n1)
    } else {
        None
    }
}

/// The N1 of the multiplexer that one command enters, if it enters it.
fn entered_by(n1: N1, command: &[u8]) -> Option<N1>
    ensures { option_map octets_of result ≡ entered_by n1.octets command.now }
{
    let (head, parameters) = command.split_at_checked(8)?;
    if !head.eq_ignore_ascii_case(b"AT+CMUX=") {
        return None;
    }
    entering(n1, parameters)
}

/// So many octets are kept of a line; one that is as long is taken for longer.
const TOO_LONG: usize = 512;

/// The N1 of the multiplexer that a command line enters, if its only command does and it isn't too long: `AT+CMUX=0` with or without
/// further parameters, each in its range. Where it names no N1, that is `n1`. Any other line is the modem's.
pub fn mux_entry(alloc: Global, n1: N1, line: &[u8]) -> Result<Option<N1>, AllocError>
    ensures { IfOk result (λ entered. option_map octets_of entered ≡ mux_entry n1.octets line.now) }
{
    if line.len() >= TOO_LONG {
        return Ok(None);
    }
    let Some(commands) = commands_in(alloc, line)? else {
        return Ok(None);
    };
    match commands.as_slice() {
        [command] => Ok(entered_by(n1, command.as_slice())),
        _ => Ok(None),
    }
}
