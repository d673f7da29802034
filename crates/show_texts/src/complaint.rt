//! Complaints, as text.
ghost use Rattle.std.specs.Prelude.{◌≡◌, ◌++◌, ◌||◌, OnOk};
ghost use Rattle.std.specs.String.{string_bytes};
ghost use Rattle.hex.specs.Hex.{encode_lower};
ghost use Rattle.mux_frame.specs.Frames.{frame_of};
ghost use Rattle.mux_frame.specs.Spelling.{spelled};
ghost use Rattle.show_texts.specs.Complaints.{complaint_if, complaint_text, faults_text, has_fault};

use crate::words::push_head;
use modem_show::{Faults, Rule};
use mux_capture::{Direction, Stamp};
use mux_frame::{FrameView, write_frame};
use std::alloc::{AllocError, Global};
use std::fmt::Write;

/// Octets as pairs of hexadecimal digits in lower case.
pub(crate) fn push_octets(alloc: Global, octets: &[u8], text: &mut String) -> Result<(), AllocError>
    ensures { OnOk result (string_bytes text.new ≡ string_bytes text.old ++ encode_lower octets.now) }
{
    text.push_str(hex::encode(alloc, octets)?.as_str())
}

/// A frame from flag to flag.
fn push_spelled(alloc: Global, frame: FrameView<'_>, text: &mut String) -> Result<(), AllocError>
    ensures { OnOk result (string_bytes text.new ≡ string_bytes text.old ++ encode_lower (spelled (frame_of frame.entry))) }
{
    let mut octets = Vec::new(alloc);
    match write_frame(frame, 32767, &mut octets) {
        Ok(()) => push_octets(alloc, octets.as_slice(), text),
        Err(_) => Err(AllocError),
    }
}

/// That a rule was broken, when, and with which frame.
fn push_complaint(
    alloc: Global,
    stamp: Stamp,
    direction: Direction,
    rule: Rule,
    frame: FrameView<'_>,
    text: &mut String,
) -> Result<(), AllocError>
    ensures { OnOk result
        (string_bytes text.new ≡ string_bytes text.old ++ complaint_text stamp direction rule (frame_of frame.entry)) }
{
    let dlci = frame.dlci.number();
    let words = rule.words();
    push_head(stamp, direction, text)?;
    write!(text, "! {dlci} {words}: ")?;
    push_spelled(alloc, frame, text)?;
    text.push_str("\n")
}

#[tactic(auto, unfolding(crate::specs::Complaints::complaint_if))]
/// The same, where it was broken.
pub(crate) fn complain_if(
    alloc: Global,
    broken: bool,
    stamp: Stamp,
    direction: Direction,
    rule: Rule,
    frame: FrameView<'_>,
    text: &mut String,
) -> Result<(), AllocError>
    ensures { OnOk result (string_bytes text.new
        ≡ string_bytes text.old ++ complaint_if broken stamp direction rule (frame_of frame.entry)) }
{
    if !broken {
        return Ok(());
    }
    push_complaint(alloc, stamp, direction, rule, frame, text)
}

/// A line for each rule that a frame breaks.
pub(crate) fn push_faults(
    alloc: Global,
    stamp: Stamp,
    direction: Direction,
    faults: Faults,
    frame: FrameView<'_>,
    text: &mut String,
) -> Result<(), AllocError>
    ensures { OnOk result (string_bytes text.new
        ≡ string_bytes text.old ++ faults_text stamp direction faults (frame_of frame.entry)) }
{
    complain_if(
        alloc,
        faults.unasked,
        stamp,
        direction,
        Rule::Unasked,
        frame,
        text,
    )?;
    complain_if(
        alloc,
        faults.unopened,
        stamp,
        direction,
        Rule::Unopened,
        frame,
        text,
    )?;
    complain_if(
        alloc,
        faults.unstopped,
        stamp,
        direction,
        Rule::Unstopped,
        frame,
        text,
    )?;
    complain_if(
        alloc,
        faults.too_long,
        stamp,
        direction,
        Rule::TooLong,
        frame,
        text,
    )?;
    complain_if(
        alloc,
        faults.astray,
        stamp,
        direction,
        Rule::Astray,
        frame,
        text,
    )
}

/// Whether one of two holds.
pub(crate) fn either(one: bool, other: bool) -> bool
    ensures { result ≡ (one || other) }
{
    one || other
}

/// Whether a frame breaks a rule.
pub(crate) fn has_fault(faults: Faults) -> bool
    ensures { result ≡ has_fault faults }
{
    faults.unasked || faults.unopened || faults.unstopped || faults.too_long || faults.astray
}
