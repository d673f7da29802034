//! How a device is driven.
ghost use Rattle.std.specs.Prelude.{◌≡◌, ◌*◌, ◌^◌, ◌++◌, IfOk, IfSome, None, codes};
ghost use Rattle.std.specs.Duration.{as_nanos};
ghost use Rattle.std.specs.String.{string_bytes};
ghost use Rattle.ctl_drive.specs.Entry.{entry_for, entry_text, given_text};

use at_text::Dialect;
use mux_frame::{Dlci, N1};
use std::alloc::{AllocError, Global};
use std::fmt::Write;
use std::time::Duration;

/// Seconds that a connection may be without an answer where no time is given.
const QUIET_SECONDS: u64 = 120;

/// How a device is driven.
#[derive(Clone, Copy)]
pub struct Settings<'a> {
    /// Octets of information that a frame may have, 31 to 32767.
    pub n1: u16,
    /// What enters the multiplexer, without CR. Where it is `None`: `AT+CMUX=0`, and `AT+CMUX=0,0,,N1` where N1 isn't 31.
    pub entry: Option<&'a str>,
    /// The time from tick to tick, while something waits for one: T1 (27.010, 5.7.1).
    pub tick: Duration,
    /// How long a connection may be without an answer to its command before it is closed. Where it is `None`: 120 seconds.
    pub quiet_for: Option<Duration>,
    /// The codes of the modem.
    pub dialect: &'a Dialect,
    /// The connections that carry data. Each is opened though no line of the input names it.
    pub data: &'a [Dlci],
    /// The path of a file for a capture of the frames that pass. Where it is `None` there is none.
    pub capture: Option<&'a str>,
}

/// How long a connection may be without an answer to its command.
pub fn quiet_time(given: Option<Duration>) -> Duration
    ensures given { IfSome given (λ time. result ≡ time) }
    ensures usual { given ≡ None → as_nanos result ≡ 120 * 10 ^ 9 }
{
    match given {
        Some(time) => time,
        None => Duration::from_secs(QUIET_SECONDS),
    }
}

/// What enters the multiplexer where no text is given, and CR.
fn usual_entry(alloc: Global, n1: u16) -> Result<String, AllocError>
    ensures { IfOk result (λ text. string_bytes text ≡ entry_text n1) }
{
    let mut text = String::new(alloc);
    text.push_str("AT+CMUX=0")?;
    if n1 != N1::DEFAULT {
        write!(text, ",0,,{n1}")?;
    }
    text.push_str("\r")?;
    Ok(text)
}

/// A text that was given, and CR.
fn given_entry(alloc: Global, given: &str) -> Result<String, AllocError>
    ensures { IfOk result (λ text. string_bytes text ≡ given.now ++ codes "\r") }
{
    let mut text = String::new(alloc);
    text.push_str(given)?;
    text.push_str("\r")?;
    Ok(text)
}

/// What enters the multiplexer: the text that was given, or where there is none that of this N1, and CR.
pub fn entry_of(alloc: Global, settings: &Settings<'_>) -> Result<String, AllocError>
    ensures { IfOk result (λ text. string_bytes text ≡ entry_for (given_text settings.now.entry) settings.now.n1) }
{
    match settings.entry {
        Some(given) => given_entry(alloc, given),
        None => usual_entry(alloc, settings.n1),
    }
}
