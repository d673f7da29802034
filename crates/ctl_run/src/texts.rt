//! Acts and frames as text.
ghost use Rattle.std.specs.Prelude.{◌≡◌, ◌++◌, map, IfOk, OnOk};
ghost use Rattle.std.specs.String.{string_bytes};
ghost use Rattle.hex.specs.Hex.{encode_lower};
ghost use Rattle.mux_frame.specs.Frames.{frame_of, kept_frame};
ghost use Rattle.mux_frame.specs.Spelling.{spelled};
ghost use Rattle.modem_history.specs.Acts.{Act as DriverAct, act_of};
ghost use Rattle.ctl_run.specs.Texts.{act_text, act_text_by, acts_text, acts_text_by, ask_text, frame_text, frames_text, kind_text, octets_text, rest_text};

use at_text::Dialect;
use ctl_text::{answer_word, push_heard, push_heard_by, push_line, push_lines};
use modem_desk::{Answer, Ask, Outcome, Request};
use modem_driver::Act;
use mux_frame::{FrameBuf, FrameView, Kind, write_frame};
use std::alloc::{AllocError, Global};
use std::fmt::Write;

/// Octets as pairs of hexadecimal digits in lower case.
fn push_octets(alloc: Global, octets: &[u8], text: &mut String) -> Result<(), AllocError>
    ensures { OnOk result (string_bytes text.new ≡ string_bytes text.old ++ encode_lower octets.now) }
{
    text.push_str(hex::encode(alloc, octets)?.as_str())
}

/// The same, or `-` where there is none.
fn push_octets_or_dash(alloc: Global, octets: &[u8], text: &mut String) -> Result<(), AllocError>
    ensures { OnOk result (string_bytes text.new ≡ string_bytes text.old ++ octets_text octets.now) }
{
    if octets.is_empty() {
        return text.push_str("-");
    }
    push_octets(alloc, octets, text)
}

fn kind_word(kind: Kind) -> &'static str
    ensures { result.now ≡ kind_text kind }
{
    match kind {
        Kind::Sabm => "SABM",
        Kind::Ua => "UA",
        Kind::Dm => "DM",
        Kind::Disc => "DISC",
        Kind::Uih => "UIH",
    }
}

/// A frame: connection, kind, C/R, P/F and information.
pub fn push_frame(alloc: Global, frame: &FrameView<'_>, text: &mut String) -> Result<(), AllocError>
    ensures { OnOk result (string_bytes text.new ≡ string_bytes text.old ++ frame_text (frame_of frame.now)) }
{
    let dlci = frame.dlci.number();
    let kind = kind_word(frame.kind);
    let cr = u8::from(frame.cr);
    let pf = u8::from(frame.pf);
    write!(text, "{dlci} {kind} {cr} {pf} ")?;
    push_octets_or_dash(alloc, frame.info, text)?;
    text.push_str("\n")
}

/// The octets of the rest, with the line end.
fn push_rest(alloc: Global, rest: &[u8], text: &mut String) -> Result<(), AllocError>
    ensures { OnOk result (string_bytes text.new ≡ string_bytes text.old ++ rest_text rest.now) }
{
    text.push_str("rest ")?;
    push_octets_or_dash(alloc, rest, text)?;
    text.push_str("\n")
}

/// Frames, a line for each, and the octets of the rest.
pub fn frames_text(alloc: Global, frames: &[FrameBuf], rest: &[u8]) -> Result<String, AllocError>
    ensures { IfOk result (λ text. string_bytes text ≡ frames_text (map kept_frame frames.now) rest.now) }
{
    let mut text = String::new(alloc);
    for frame in frames {
        push_frame(alloc, &frame.view(), &mut text)?;
    }
    push_rest(alloc, rest, &mut text)?;
    Ok(text)
}

/// A frame as it is spelled.
fn push_spelled(alloc: Global, frame: &FrameBuf, text: &mut String) -> Result<(), AllocError>
    ensures { OnOk result
        (string_bytes text.new ≡ string_bytes text.old ++ encode_lower (spelled (kept_frame frame.now))) }
{
    let mut octets = Vec::new(alloc);
    match write_frame(frame.view(), 32767, &mut octets) {
        Ok(()) => push_octets(alloc, octets.as_slice(), text),
        Err(_) => Err(AllocError),
    }
}

fn push_ask(alloc: Global, ask: &Ask, text: &mut String) -> Result<(), AllocError>
    ensures { OnOk result (string_bytes text.new ≡ string_bytes text.old ++ ask_text ask.now) }
{
    match ask {
        Ask::OpenChannel(dlci) => {
            let dlci = dlci.number();
            write!(text, "open {dlci}")
        }
        Ask::CloseChannel(dlci) => {
            let dlci = dlci.number();
            write!(text, "close {dlci}")
        }
        Ask::Command(dlci, line) => {
            let dlci = dlci.number();
            write!(text, "cmd {dlci} ")?;
            push_line(alloc, line.text(), text)
        }
        Ask::Probe(probe) => {
            text.push_str("probe ")?;
            push_octets(alloc, probe.octets(), text)
        }
        Ask::Stop => text.push_str("stop"),
    }
}

fn push_request(alloc: Global, request: &Request, text: &mut String) -> Result<(), AllocError>
    ensures { OnOk result
        (string_bytes text.new ≡ string_bytes text.old ++ act_text (DriverAct.Took request.now)) }
{
    let number = request.number;
    write!(text, "took {number} ")?;
    push_ask(alloc, &request.ask, text)?;
    text.push_str("\n")
}

fn push_outcome(alloc: Global, outcome: &Outcome, text: &mut String) -> Result<(), AllocError>
    ensures { OnOk result
        (string_bytes text.new ≡ string_bytes text.old ++ act_text (DriverAct.Told outcome.now)) }
{
    let number = outcome.number;
    let answer = answer_word(&outcome.answer);
    writeln!(text, "told {number} {answer}")?;
    match &outcome.answer {
        Answer::Done(lines) => push_lines(alloc, lines, text),
        _ => Ok(()),
    }
}

/// An act, with its line end.
pub fn push_act(alloc: Global, act: &Act, text: &mut String) -> Result<(), AllocError>
    ensures { OnOk result (string_bytes text.new ≡ string_bytes text.old ++ act_text (act_of act.now)) }
{
    match act {
        Act::Took(request) => push_request(alloc, request, text),
        Act::Got(frame) => {
            text.push_str("got ")?;
            push_frame(alloc, &frame.view(), text)
        }
        Act::Sent(frame) => {
            text.push_str("sent ")?;
            push_spelled(alloc, frame, text)?;
            text.push_str("\n")
        }
        Act::Told(outcome) => push_outcome(alloc, outcome, text),
        Act::Heard(urc) => push_heard(alloc, urc, text),
        Act::Tick => text.push_str("tick\n"),
        Act::Lost => text.push_str("lost\n"),
        Act::Held(dlci) => {
            let dlci = dlci.number();
            writeln!(text, "held {dlci}")
        }
        Act::Freed(dlci) => {
            let dlci = dlci.number();
            writeln!(text, "freed {dlci}")
        }
    }
}

/// Acts, in order.
pub fn acts_text(alloc: Global, acts: &[Act]) -> Result<String, AllocError>
    ensures { IfOk result (λ text. string_bytes text ≡ acts_text (map act_of acts.now)) }
{
    let mut text = String::new(alloc);
    for act in acts {
        push_act(alloc, act, &mut text)?;
    }
    Ok(text)
}

/// As `push_act`, at a modem with the codes of this dialect: lines of its own kinds are heard under their names.
pub fn push_act_by(
    alloc: Global,
    dialect: &Dialect,
    act: &Act,
    text: &mut String,
) -> Result<(), AllocError>
    ensures { OnOk result
        (string_bytes text.new ≡ string_bytes text.old ++ act_text_by dialect.now (act_of act.now)) }
{
    match act {
        Act::Heard(urc) => push_heard_by(alloc, dialect, urc, text),
        _ => push_act(alloc, act, text),
    }
}

/// Acts at a modem with the codes of this dialect, in order.
pub fn acts_text_by(alloc: Global, dialect: &Dialect, acts: &[Act]) -> Result<String, AllocError>
    ensures { IfOk result (λ text. string_bytes text ≡ acts_text_by dialect.now (map act_of acts.now)) }
{
    let mut text = String::new(alloc);
    for act in acts {
        push_act_by(alloc, dialect, act, &mut text)?;
    }
    Ok(text)
}
