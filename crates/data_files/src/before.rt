//! What a line had given and taken at a time, which only clauses read.
ghost use Rattle.std.specs.Prelude.{◌≡◌, ◌-◌, ◌++◌, length, take};
ghost use Rattle.modem_data_line.specs.LineLaws.{before_of};

use crate::unwritten::Unwritten;
use boxcar::tag::{Names, Tag};
use serial_line::{ReadBuffer, SerialLine};
use std::marker::Model;

/// What a line had given and taken. It takes no memory, and does nothing when the program runs.
#[derive(Drop)]
pub(crate) struct Before {
    received: Tag,
    sent: Tag,
}

impl Model for Before {
    ghost use Rattle.modem_data_line.specs.DataLines.{Before};

    ghost Value = { Before };

    ghost view = { λ b. record { received = b.received.numbers; sent = b.sent.numbers } };
}

// The octets that a line has given.
struct Received;

impl<'a, L: SerialLine> Names<&'a L> for Received {
    ghost numbers = { λ line. (L.seen line.now).received };
}

// The octets that a line has taken.
struct Sent;

impl<'a, L: SerialLine> Names<&'a L> for Sent {
    ghost numbers = { λ line. (L.seen line.now).sent };
}

// The octets that a line has given, but for these last ones.
struct ReceivedBut;

impl<'a, L: SerialLine> Names<(&'a L, &'a ReadBuffer)> for ReceivedBut {
    ghost numbers = { λ both. take (length (L.seen both.0.now).received - length both.1.now) (L.seen both.0.now).received };
}

// The octets that a line has taken, and then these.
struct SentWith;

impl<'a, L: SerialLine> Names<(&'a L, &'a Unwritten)> for SentWith {
    ghost numbers = { λ both. (L.seen both.0.now).sent ++ both.1.now };
}

impl Before {
    /// What this line has given and taken.
    pub fn of<L: SerialLine>(line: &L) -> Before
        ensures { result ≡ before_of L.seen line.now }
    {
        Before {
            received: Tag::of::<&L, Received>(&line),
            sent: Tag::of::<&L, Sent>(&line),
        }
    }

    /// What this line has given but for `ungiven`, and taken with `unwritten`.
    pub fn but<L: SerialLine>(line: &L, ungiven: &ReadBuffer, unwritten: &Unwritten) -> Before
        ensures { result ≡ record {
          received = take (length (L.seen line.now).received - length ungiven.now) (L.seen line.now).received;
          sent = (L.seen line.now).sent ++ unwritten.now;
        } }
    {
        Before {
            received: Tag::of::<(&L, &ReadBuffer), ReceivedBut>(&(line, ungiven)),
            sent: Tag::of::<(&L, &Unwritten), SentWith>(&(line, unwritten)),
        }
    }
}
