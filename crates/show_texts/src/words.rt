//! Times and ways, as text.
ghost use Rattle.std.specs.Prelude.{◌≡◌, ◌++◌, OnOk};
ghost use Rattle.std.specs.String.{string_bytes};
ghost use Rattle.show_texts.specs.Words.{head_text, six_digits, span_text, way_text};

use mux_capture::{Direction, Stamp};
use std::alloc::AllocError;
use std::fmt::Write;

/// The last six digits of a number.
fn push_digits(number: u64, text: &mut String) -> Result<(), AllocError>
    ensures { OnOk result (string_bytes text.new ≡ string_bytes text.old ++ six_digits number) }
{
    let a = number / 100_000 % 10;
    let b = number / 10_000 % 10;
    let c = number / 1_000 % 10;
    let d = number / 100 % 10;
    let e = number / 10 % 10;
    let f = number % 10;
    write!(text, "{a}{b}{c}{d}{e}{f}")
}

/// A span of microseconds, in seconds.
pub(crate) fn push_span(micros: u64, text: &mut String) -> Result<(), AllocError>
    ensures { OnOk result (string_bytes text.new ≡ string_bytes text.old ++ span_text micros) }
{
    let seconds = micros / 1_000_000;
    write!(text, "{seconds}.")?;
    push_digits(micros, text)
}

fn way_word(direction: Direction) -> &'static str
    ensures { result.now ≡ way_text direction }
{
    match direction {
        Direction::ToModem => ">",
        Direction::FromModem => "<",
    }
}

/// How each line of an event begins: when it was, and which way it went.
pub(crate) fn push_head(
    stamp: Stamp,
    direction: Direction,
    text: &mut String,
) -> Result<(), AllocError>
    ensures { OnOk result (string_bytes text.new ≡ string_bytes text.old ++ head_text stamp direction) }
{
    let seconds = stamp.seconds;
    let way = way_word(direction);
    write!(text, "{seconds}.")?;
    push_digits(u64::from(stamp.micros), text)?;
    write!(text, " {way} ")
}
