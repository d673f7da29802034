//! The first part of an input's line that isn't as it must be.
ghost use Rattle.std.specs.Prelude.{◌≡◌, ◌++◌};
ghost use Rattle.ctl_text.specs.LineFaults.{bad_line, reason_line, reason_text};
ghost use Rattle.ctl_text.specs.Writing.{IsBegun};

use crate::writing::{put_line, say_line};
use std::io::Write;

/// What has to stand at the first wrong part of a line, read from its front.
#[derive(Clone, Copy, Debug)]
pub enum Expected {
    /// The word that an event begins with.
    Event,
    /// The number of commands that a step begins with.
    Count,
    /// The word for what a modem does.
    Deed,
    /// A caller.
    Caller,
    /// A connection.
    Connection,
    /// A connection that carries commands.
    Carrier,
    /// A command line.
    Command,
    /// The text of an announcement.
    Text,
    /// Octets in one word.
    Octets,
    /// At most 16 octets, the data of a probe.
    Probe,
    /// Octets in any number of words.
    Pairs,
    /// The end of the line.
    End,
}

impl Expected {
    /// What has to stand there.
    pub fn reason(self) -> &'static str
        ensures { result.now ≡ reason_text self }
    {
        match self {
            Expected::Event => {
                "a line begins with open, close, cmd, probe, in, stop, tick or lost"
            }
            Expected::Count => {
                "a step begins with a decimal number below 2^64, without leading zeros"
            }
            Expected::Deed => {
                "behind the number stands announce, stop, go, hold, disconnect or closedown"
            }
            Expected::Caller => {
                "a caller is below the number of --callers, without leading zeros"
            }
            Expected::Connection => "a connection is 0 to 61, without leading zeros",
            Expected::Carrier => "a connection is 1 to 61, without leading zeros",
            Expected::Command => {
                "a command line is AT or at and octets 20 to 7E, at most 256 in all"
            }
            Expected::Text => "behind the connection stand one blank and a text",
            Expected::Octets => {
                "octets are pairs of hexadecimal digits, at least one, without blanks"
            }
            Expected::Probe => "a probe has 1 to 16 octets",
            Expected::Pairs => {
                "a line is pairs of hexadecimal digits, without blanks inside a pair"
            }
            Expected::End => "the line has a word or a blank too many",
        }
    }
}

/// Names a bad line by its number. On a second line it says which file the line is of, if that is named, and what has to stand in place
/// of its first wrong part. `file` ends with a colon and a blank, or is empty.
pub fn say_bad_line<W: Write>(faults: &mut W, number: &str, file: &str, why: Expected)
    ensures { IsBegun (W.contents faults.old) (W.contents faults.new) (bad_line number.now ++ reason_line file.now why) }
{
    if put_line(faults, "", "bad line ", number) {
        say_line(faults, "", file, why.reason());
    }
}
