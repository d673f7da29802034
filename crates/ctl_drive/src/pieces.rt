//! Writes one piece of the output as text.
ghost use Rattle.std.specs.Prelude.{OnOk};
ghost use Rattle.std.specs.Io.KnownBytes.{Appends};
ghost use Rattle.ctl_text.specs.Texts.{heard_text_by, told_text};

use crate::fault::DriveFault;
use crate::users::UnderWay;
use at_text::Dialect;
use ctl_text::{push_heard_by, push_told};
use modem_desk::{Outcome, Urc};
use std::alloc::Global;
use std::io::Write;

/// Writes a text whole, and flushes.
fn put<W: Write>(output: &mut W, text: &str) -> Result<(), DriveFault>
    ensures { OnOk result (Appends (W.contents output.old) (W.contents output.new) text.now) }
{
    if output.write_all(text.as_bytes()).is_ok() && output.flush().is_ok() {
        Ok(())
    } else {
        Err(DriveFault::Output)
    }
}

/// Writes what a line was told: `D i answer`, and the lines of the answer.
pub fn write_outcome<W: Write>(
    alloc: Global,
    output: &mut W,
    line: UnderWay,
    outcome: &Outcome,
) -> Result<(), DriveFault>
    ensures { OnOk result (Appends (W.contents output.old) (W.contents output.new)
        (told_text line.dlci.number line.place outcome.now.answer)) }
{
    let mut text = String::new(alloc);
    push_told(
        alloc,
        line.dlci.number(),
        line.place,
        &outcome.answer,
        &mut text,
    )?;
    put(output, text.as_str())
}

/// Writes a line that was heard: `heard KIND D TEXT`, where a kind of the dialect's own has its name.
pub fn write_line<W: Write>(
    alloc: Global,
    output: &mut W,
    dialect: &Dialect,
    line: &Urc,
) -> Result<(), DriveFault>
    ensures { OnOk result (Appends (W.contents output.old) (W.contents output.new) (heard_text_by dialect.now line.now)) }
{
    let mut text = String::new(alloc);
    push_heard_by(alloc, dialect, line, &mut text)?;
    put(output, text.as_str())
}
