//! The lines of a connection, as text.
ghost use Rattle.std.specs.Prelude.{◌≡◌, ◌++◌, codes, OnOk};
ghost use Rattle.std.specs.Fmt.{decimal};
ghost use Rattle.std.specs.List.{flat_map};
ghost use Rattle.std.specs.String.{string_bytes};
ghost use Rattle.mux_frame.specs.Frames.{frame_of};
ghost use Rattle.ctl_text.specs.Texts.{line_text};
ghost use Rattle.show_texts.specs.Lines.{are_wrong, heard_line, micros_of, said_text, seen_text, told_line, told_text, waited};
ghost use Rattle.show_texts.specs.Words.{span_text};

use crate::complaint::complain_if;
use crate::words::{push_head, push_span};
use at_text::{Dialect, Seen, Text, UrcKind};
use ctl_text::{push_heard_by, push_line};
use modem_desk::Urc;
use modem_show::{Rule, Told};
use mux_capture::{Direction, Stamp};
use mux_frame::{Dlci, FrameView};
use std::alloc::{AllocError, Global};
use std::fmt::Write;

/// A stamp in microseconds.
fn micros_of(stamp: Stamp) -> u64
    ensures { result ≡ micros_of stamp }
{
    u64::from(stamp.seconds) * 1_000_000 + u64::from(stamp.micros)
}

/// How long it is since then, in microseconds.
pub(crate) fn waited(then: Option<Stamp>, now: Stamp) -> u64
    ensures { result ≡ waited then now }
{
    match then {
        Some(then) => micros_of(now).saturating_sub(micros_of(then)),
        None => 0,
    }
}

/// A word, the connection, and the line.
fn push_said(
    alloc: Global,
    word: &str,
    dlci: Dlci,
    line: &[u8],
    text: &mut String,
) -> Result<(), AllocError>
    ensures { OnOk result (string_bytes text.new ≡ string_bytes text.old ++ said_text word.now dlci.number line.now) }
{
    let dlci = dlci.number();
    write!(text, "{word} {dlci} ")?;
    push_line(alloc, line, text)?;
    text.push_str("\n")
}

/// A line that no command asked for, under its kind.
fn push_report(
    alloc: Global,
    dialect: &Dialect,
    kind: UrcKind,
    dlci: Dlci,
    line: &[u8],
    text: &mut String,
) -> Result<(), AllocError>
    ensures { OnOk result (string_bytes text.new ≡ string_bytes text.old ++ heard_line dialect.now kind dlci.number line.now) }
{
    let line = Text::from(Vec::from_slice(alloc, line)?);
    let urc = Urc { kind, dlci, line };
    push_heard_by(alloc, dialect, &urc, text)
}

/// The last line of an answer, and how long the answer took.
fn push_answered(
    alloc: Global,
    wait: u64,
    dlci: Dlci,
    line: &[u8],
    text: &mut String,
) -> Result<(), AllocError>
    ensures { OnOk result (string_bytes text.new ≡ string_bytes text.old ++ (codes "answered " ++ decimal dlci.number ++ codes " "
        ++ span_text wait ++ codes " " ++ line_text line.now ++ codes "\n")) }
{
    let dlci = dlci.number();
    write!(text, "answered {dlci} ")?;
    push_span(wait, text)?;
    text.push_str(" ")?;
    push_line(alloc, line, text)?;
    text.push_str("\n")
}

/// A line of the modem.
fn push_seen(
    alloc: Global,
    dialect: &Dialect,
    wait: u64,
    dlci: Dlci,
    line: &[u8],
    seen: &Seen,
    text: &mut String,
) -> Result<(), AllocError>
    ensures { OnOk result
        (string_bytes text.new ≡ string_bytes text.old ++ seen_text dialect.now wait dlci.number line.now seen.now) }
{
    match seen {
        Seen::Echo => push_said(alloc, "echo", dlci, line, text),
        Seen::Kept => push_said(alloc, "line", dlci, line, text),
        Seen::Done(_) => push_answered(alloc, wait, dlci, line, text),
        Seen::Unsolicited(kind) => push_report(alloc, dialect, *kind, dlci, line, text),
        Seen::Other => push_report(alloc, dialect, UrcKind::Other, dlci, line, text),
    }
}

/// A line of either end.
fn push_told(
    alloc: Global,
    dialect: &Dialect,
    wait: u64,
    dlci: Dlci,
    told: &Told,
    text: &mut String,
) -> Result<(), AllocError>
    ensures { OnOk result
        (string_bytes text.new ≡ string_bytes text.old ++ told_text dialect.now wait dlci.number told.now) }
{
    match told {
        Told::Command(line, _) => push_said(alloc, "command", dlci, line.as_slice(), text),
        Told::Text(line) => push_said(alloc, "text", dlci, line.as_slice(), text),
        Told::Line(line, seen) => {
            push_seen(alloc, dialect, wait, dlci, line.as_slice(), seen, text)
        }
    }
}

/// What is told of a line that ends in this frame, and what is wrong with it. `asked` says when the last command passed.
fn push_told_line(
    alloc: Global,
    dialect: &Dialect,
    stamp: Stamp,
    direction: Direction,
    asked: Option<Stamp>,
    frame: FrameView<'_>,
    told: &Told,
    text: &mut String,
) -> Result<(), AllocError>
    ensures { OnOk result (string_bytes text.new ≡ string_bytes text.old
        ++ told_line dialect.now stamp direction asked (frame_of frame.entry) told.now) }
{
    let overlaps = told.overlaps();
    let unprompted = told.is_unprompted(dialect);
    push_head(stamp, direction, text)?;
    push_told(alloc, dialect, waited(asked, stamp), frame.dlci, told, text)?;
    complain_if(
        alloc,
        overlaps,
        stamp,
        direction,
        Rule::Overlapping,
        frame,
        text,
    )?;
    complain_if(
        alloc,
        unprompted,
        stamp,
        direction,
        Rule::Unprompted,
        frame,
        text,
    )
}

/// The same of each line that ends in this frame.
pub(crate) fn push_told_lines(
    alloc: Global,
    dialect: &Dialect,
    stamp: Stamp,
    direction: Direction,
    asked: Option<Stamp>,
    frame: FrameView<'_>,
    told: &[Told],
    text: &mut String,
) -> Result<(), AllocError>
    ensures { OnOk result (string_bytes text.new ≡ string_bytes text.old
        ++ flat_map (told_line dialect.now stamp direction asked (frame_of frame.entry)) told.now) }
{
    for one in told {
        push_told_line(alloc, dialect, stamp, direction, asked, frame, one, text)?;
    }
    Ok(())
}

/// Whether one of them is wrong.
pub(crate) fn are_wrong(dialect: &Dialect, told: &[Told]) -> bool
    ensures { result ≡ are_wrong dialect.now told.now }
{
    told.iter()
        .any(|one| one.overlaps() || one.is_unprompted(dialect))
}
