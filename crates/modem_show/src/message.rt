//! Control messages of frames (27.010, 5.4.6).
ghost use Rattle.std.specs.Prelude.{◌≡◌, ℕ, ◌==◌, ◌&&◌, ◌≤◌, Some, option_map};
ghost use Rattle.mux_frame.specs.Frames.{frame_of};
ghost use Rattle.mux_station.specs.Messages.{message_in, message_of, is_command, brings_command, brings_response};
ghost use Rattle.mux_station.specs.Stopping.{flow_says, msc_says};
ghost use Rattle.mux_station.specs.Written.{is_data_frame, is_kind, is_on};
ghost use Rattle.mux_station.specs.Opening.{is_mode_frame_on};
ghost use Rattle.mux_station.specs.Tables.{is_supported};
ghost use Rattle.mux_station.specs.MessagesRead.{message_read};
ghost use Rattle.modem_show.specs.Asking.{message_asks, message_answers, names, responds, both_respond};
ghost use Rattle.modem_show.specs.Ends.{says_at};
ghost use Rattle.modem_show.specs.Judging.{is_message, is_text};

use mux_frame::{FrameView, Kind};
use mux_station::written::{CLD, FCOFF, FCON, MSC, NSC, NSC_RESPONSE, TEST};
use mux_station::{Message, msc_dlci, msc_stops};

/// Whether a frame is of this kind and on this connection.
pub(crate) fn is_on(kind: Kind, dlci: u8, frame: FrameView<'_>) -> bool
    ensures { result ≡ is_on kind dlci (frame_of frame.entry) }
{
    is_kind(frame.kind, kind) && frame.dlci.number() == dlci
}

/// Whether two kinds are the same.
pub(crate) fn is_kind(kind: Kind, other: Kind) -> bool
    ensures { result ≡ is_kind kind other }
{
    matches!(
        (kind, other),
        (Kind::Sabm, Kind::Sabm)
            | (Kind::Ua, Kind::Ua)
            | (Kind::Dm, Kind::Dm)
            | (Kind::Disc, Kind::Disc)
            | (Kind::Uih, Kind::Uih)
    )
}

/// Whether it is data of a connection.
pub(crate) fn is_data_frame(frame: FrameView<'_>) -> bool
    ensures { result ≡ is_data_frame (frame_of frame.entry) }
{
    is_kind(frame.kind, Kind::Uih) && frame.dlci.number() != 0
}

/// Whether a frame is a SABM, UA, DM or DISC on this connection.
pub(crate) fn is_mode_frame_on(dlci: u8, frame: FrameView<'_>) -> bool
    ensures { result ≡ is_mode_frame_on dlci (frame_of frame.entry) }
{
    is_on(Kind::Sabm, dlci, frame)
        || is_on(Kind::Ua, dlci, frame)
        || is_on(Kind::Dm, dlci, frame)
        || is_on(Kind::Disc, dlci, frame)
}

/// The message that a frame brings.
pub(crate) fn message_in(frame: FrameView<'_>) -> Option<Message<'_>>
    ensures { option_map message_read result ≡ message_in (frame_of frame.entry) }
{
    if is_on(Kind::Uih, 0, frame) {
        Message::read(frame.info)
    } else {
        None
    }
}

/// Whether a frame brings a close down command.
pub(crate) fn closes_down(frame: FrameView<'_>) -> bool
    ensures { result ≡ brings_command 0xc3 (frame_of frame.entry) }
{
    match message_in(frame) {
        Some(message) => message.octet == CLD,
        None => false,
    }
}

/// Whether a frame brings the response to a close down command.
pub(crate) fn answers_close_down(frame: FrameView<'_>) -> bool
    ensures { result ≡ brings_response 0xc3 (frame_of frame.entry) }
{
    match message_in(frame) {
        Some(message) => u16::from(message.octet) + 2 == u16::from(CLD),
        None => false,
    }
}

/// Whether octets are those of lines: printable ones, CR and LF.
pub(crate) fn is_text(octets: &[u8]) -> bool
    ensures { result ≡ is_text octets.now }
{
    octets.iter().all(|octet| (0x20..=0x7E).contains(octet) || *octet == 13 || *octet == 10)
}

/// Whether information is one whole control message, of a supported type.
pub(crate) fn is_message(info: &[u8]) -> bool
    ensures { result ≡ is_message info.now (message_of info.now) }
{
    match Message::read(info) {
        Some(message) => is_supported(message.octet) && info.len() == message.value.len() + 2,
        None => false,
    }
}

fn is_command(message: &Message<'_>) -> bool
    ensures { result ≡ is_command (message_read message.now) }
{
    message.octet / 2 % 2 == 1
}

/// Whether it asks for a response.
pub(crate) fn message_asks(message: &Message<'_>) -> bool
    ensures { result ≡ message_asks (Some (message_read message.now)) }
{
    is_command(message) && message.octet != NSC
}

/// Whether it is a response.
pub(crate) fn message_answers(message: &Message<'_>) -> bool
    ensures { result ≡ message_answers (Some (message_read message.now)) }
{
    !is_command(message)
}

fn is_supported(octet: u8) -> bool
    ensures { result ≡ is_supported octet }
{
    matches!(octet, TEST | FCOFF | FCON | CLD | MSC)
}

/// Whether a message's value names this type, as a command or as its response.
fn names(value: &[u8], octet: u8) -> bool
    requires { 2 ≤ octet }
    ensures { result ≡ names octet value.now }
{
    match value {
        [named] => *named == octet || *named == octet - 2,
        _ => false,
    }
}

/// Whether it responds to this command.
fn responds_to(message: &Message<'_>, command: &Message<'_>) -> bool
    ensures { result ≡ (message_asks (Some (message_read command.now))
        && responds (message_read command.now) (message_read message.now)) }
{
    message_asks(command)
        && ((message.octet == command.octet - 2
            && (!is_supported(command.octet) || message.value == command.value))
            || (message.octet == NSC_RESPONSE && names(message.value, command.octet)))
}

/// What it says of the stop that is kept at a connection.
pub(crate) fn told_at(message: &Message<'_>, dlci: u8) -> Option<bool>
    ensures { result ≡ says_at dlci (message_read message.now) }
{
    if dlci != 0 {
        return if message.octet == MSC && msc_dlci(message.value) == dlci {
            Some(msc_stops(message.value))
        } else {
            None
        };
    }
    match message.octet {
        FCOFF => Some(true),
        FCON => Some(false),
        _ => None,
    }
}

/// Whether the second message responds to the first.
pub(crate) fn both_respond(command: Option<Message<'_>>, message: Option<Message<'_>>) -> bool
    ensures { result ≡ both_respond (option_map message_read command.entry) (option_map message_read message.entry) }
{
    match (command, message) {
        (Some(command), Some(message)) => responds_to(&message, &command),
        _ => false,
    }
}
