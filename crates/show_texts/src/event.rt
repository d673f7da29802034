//! What happened with a frame, as text.
ghost use Rattle.std.specs.Prelude.{◌≡◌, ◌++◌, OnOk, length, option_map};
ghost use Rattle.std.specs.String.{string_bytes};
ghost use Rattle.mux_frame.specs.Frames.{frame_of};
ghost use Rattle.mux_station.specs.Messages.{message_of};
ghost use Rattle.mux_station.specs.MessagesRead.{message_read};
ghost use Rattle.show_texts.specs.Frames.{control_text, data_text, event_text, message_word, mode_text, mode_word, octets_part, uih_text, value_text};

use crate::complaint::push_octets;
use crate::line::push_told_lines;
use crate::words::push_head;
use at_text::Dialect;
use modem_show::Told;
use mux_capture::{Direction, Stamp};
use mux_frame::{Dlci, FrameView, Kind};
use mux_station::written::{
    CLD, CLD_RESPONSE, FCOFF, FCON, MSC, MSC_RESPONSE, NSC, NSC_RESPONSE, TEST, TEST_RESPONSE,
};
use mux_station::{Message, msc_dlci, msc_stops};
use std::alloc::{AllocError, Global};
use std::fmt::Write;

/// SABM, UA, DM and DISC by what they do, where the kind of the frame that an answer answers is given.
fn mode_word(kind: Kind, answered: Option<Kind>) -> &'static str
    ensures { result.now ≡ mode_word kind answered }
{
    match (kind, answered) {
        (Kind::Sabm, _) => "open",
        (Kind::Disc, _) => "close",
        (Kind::Ua, Some(Kind::Sabm)) => "opened",
        (Kind::Ua | Kind::Dm, Some(Kind::Disc)) => "closed",
        (Kind::Dm, Some(Kind::Sabm)) => "refused",
        (Kind::Ua, _) => "UA",
        (Kind::Dm, _) => "DM",
        (Kind::Uih, _) => "UIH",
    }
}

fn push_mode(
    kind: Kind,
    answered: Option<Kind>,
    dlci: Dlci,
    text: &mut String,
) -> Result<(), AllocError>
    ensures { OnOk result (string_bytes text.new ≡ string_bytes text.old ++ mode_text kind answered dlci.number) }
{
    let word = mode_word(kind, answered);
    let dlci = dlci.number();
    writeln!(text, "{word} {dlci}")
}

/// The types of control messages, as commands and as responses.
fn message_word(octet: u8) -> &'static str
    ensures { result.now ≡ message_word octet }
{
    match octet {
        TEST => "test",
        TEST_RESPONSE => "test answered",
        FCOFF => "stop all",
        0x61 => "stop all answered",
        FCON => "go all",
        0xA1 => "go all answered",
        CLD => "close down",
        CLD_RESPONSE => "close down answered",
        MSC => "status",
        MSC_RESPONSE => "status answered",
        NSC => "unsupported",
        NSC_RESPONSE => "unsupported answered",
        _ => "message",
    }
}

/// Octets in hexadecimal behind a blank; nothing where there is none.
fn push_octets_part(alloc: Global, octets: &[u8], text: &mut String) -> Result<(), AllocError>
    ensures { OnOk result (string_bytes text.new ≡ string_bytes text.old ++ octets_part octets.now) }
{
    if octets.is_empty() {
        return Ok(());
    }
    text.push_str(" ")?;
    push_octets(alloc, octets, text)
}

/// The connection that an MSC names, and whether it stops it or lets it go on; of another message its value.
fn push_value(alloc: Global, message: Message<'_>, text: &mut String) -> Result<(), AllocError>
    ensures { OnOk result (string_bytes text.new ≡ string_bytes text.old ++ value_text (message_read message.entry)) }
{
    if message.octet != MSC && message.octet != MSC_RESPONSE {
        return push_octets_part(alloc, message.value, text);
    }
    let dlci = msc_dlci(message.value);
    let says = if msc_stops(message.value) {
        "stop"
    } else {
        "go"
    };
    write!(text, " {dlci} {says}")
}

/// Information on 0: a control message, or none.
fn push_control(alloc: Global, info: &[u8], text: &mut String) -> Result<(), AllocError>
    ensures { OnOk result (string_bytes text.new ≡ string_bytes text.old ++ control_text info.now (message_of info.now)) }
{
    match Message::read(info) {
        Some(message) => {
            text.push_str(message_word(message.octet))?;
            push_value(alloc, message, text)?;
        }
        None => {
            text.push_str("no message")?;
            push_octets_part(alloc, info, text)?;
        }
    }
    text.push_str("\n")
}

fn push_data(dlci: Dlci, count: usize, text: &mut String) -> Result<(), AllocError>
    ensures { OnOk result (string_bytes text.new ≡ string_bytes text.old ++ data_text dlci.number count) }
{
    let dlci = dlci.number();
    writeln!(text, "data {dlci} {count}")
}

/// UIH: a control message, data in its count, or the lines that end in it.
fn push_uih(
    alloc: Global,
    dialect: &Dialect,
    stamp: Stamp,
    direction: Direction,
    asked: Option<Stamp>,
    is_data: bool,
    frame: FrameView<'_>,
    told: &[Told],
    text: &mut String,
) -> Result<(), AllocError>
    ensures { OnOk result (string_bytes text.new ≡ string_bytes text.old
        ++ uih_text dialect.now stamp direction asked is_data (frame_of frame.entry) told.now) }
{
    if frame.dlci.number() == 0 {
        push_head(stamp, direction, text)?;
        return push_control(alloc, frame.info, text);
    }
    if is_data {
        push_head(stamp, direction, text)?;
        return push_data(frame.dlci, frame.info.len(), text);
    }
    push_told_lines(alloc, dialect, stamp, direction, asked, frame, told, text)
}

/// What happened with a frame. `answered` is the kind of the frame that it answers, `asked` says when the last command of its
/// connection passed, and `told` is what is told of the lines that end in it.
pub(crate) fn push_event(
    alloc: Global,
    dialect: &Dialect,
    stamp: Stamp,
    direction: Direction,
    answered: Option<Kind>,
    asked: Option<Stamp>,
    is_data: bool,
    frame: FrameView<'_>,
    told: &[Told],
    text: &mut String,
) -> Result<(), AllocError>
    ensures { OnOk result (string_bytes text.new ≡ string_bytes text.old
        ++ event_text dialect.now stamp direction answered asked is_data (frame_of frame.entry) told.now) }
{
    match frame.kind {
        Kind::Uih => push_uih(
            alloc, dialect, stamp, direction, asked, is_data, frame, told, text,
        ),
        kind => {
            push_head(stamp, direction, text)?;
            push_mode(kind, answered, frame.dlci, text)
        }
    }
}
