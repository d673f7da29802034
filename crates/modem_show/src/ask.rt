//! Frames that ask for an answer, and their answers (27.010, 5.4.1, 5.4.2 and 5.4.6).
ghost use Rattle.std.specs.Prelude.{◌≡◌, false, IfOk};
ghost use Rattle.mux_frame.specs.Frames.{frame_of};
ghost use Rattle.modem_show.specs.Ways.{act_of};
ghost use Rattle.modem_show.specs.Asking.{answers, drops, excuses, excused_by, is_again, is_ask, is_answer, is_mode_command, is_mode_answer};

use crate::deed::Deed;
use crate::message::{
    answers_close_down, both_respond, closes_down, is_kind, is_mode_frame_on, message_answers,
    message_asks, message_in,
};
use mux_capture::Stamp;
use mux_frame::{FrameBuf, FrameView, Kind};
use std::alloc::{AllocError, Global};
use std::marker::Model;

/// Whether it is a SABM or a DISC, which UA or DM answers.
fn is_mode_command(frame: FrameView<'_>) -> bool
    ensures { result ≡ is_mode_command (frame_of frame.entry) }
{
    is_kind(frame.kind, Kind::Sabm) || is_kind(frame.kind, Kind::Disc)
}

fn is_mode_answer(frame: FrameView<'_>) -> bool
    ensures { result ≡ is_mode_answer (frame_of frame.entry) }
{
    is_kind(frame.kind, Kind::Ua) || is_kind(frame.kind, Kind::Dm)
}

/// Whether a frame asks for an answer.
pub(crate) fn is_ask(frame: FrameView<'_>) -> bool
    ensures { result ≡ is_ask (frame_of frame.entry) }
{
    is_mode_command(frame)
        || match message_in(frame) {
            Some(message) => message_asks(&message),
            None => false,
        }
}

/// Whether a frame is an answer.
pub fn is_answer(frame: FrameView<'_>) -> bool
    ensures { result ≡ is_answer (frame_of frame.entry) }
{
    is_mode_answer(frame)
        || match message_in(frame) {
            Some(message) => message_answers(&message),
            None => false,
        }
}

/// Whether the second frame answers the first.
pub(crate) fn answers(asked: FrameView<'_>, frame: FrameView<'_>) -> bool
    ensures { result ≡ answers (frame_of asked.entry) (frame_of frame.entry) }
{
    (is_mode_command(asked) && is_mode_answer(frame) && asked.dlci.number() == frame.dlci.number())
        || both_respond(message_in(asked), message_in(frame))
}

/// Whether 0 is closed or opened anew by the first frame, as by a CLD or its response, so that the second, a message, needn't be
/// answered any more.
fn drops(frame: FrameView<'_>, asked: FrameView<'_>) -> bool
    ensures { result ≡ drops (frame_of frame.entry) (frame_of asked.entry) }
{
    is_kind(asked.kind, Kind::Uih)
        && (is_mode_frame_on(0, frame)
            || ((closes_down(frame) || answers_close_down(frame)) && !closes_down(asked)))
}

/// Whether no answer to the second frame, with which an end asked, has to come once it got or sent the first.
fn excuses(deed: Deed, frame: FrameView<'_>, asked: FrameView<'_>) -> bool
    ensures { result ≡ excuses (act_of deed (frame_of frame.entry)) (frame_of asked.entry) }
{
    match deed {
        Deed::Got => answers(asked, frame) || drops(frame, asked),
        Deed::Sent => drops(frame, asked),
    }
}

/// A frame that asks and waits for its answer.
#[derive(Drop)]
pub struct Ask {
    stamp: Stamp,
    frame: FrameBuf,
    excused: bool,
}

impl Model for Ask {
    ghost use Rattle.mux_frame.specs.Frames.{kept_frame};
    ghost use Rattle.modem_show.specs.Asking.{Ask};

    ghost Value = { Ask };

    ghost view = { λ a. record { stamp = a.stamp; frame = kept_frame a.frame; is_excused = a.excused } };
}

impl Ask {
    /// What was asked with this frame.
    pub(crate) fn new(alloc: Global, stamp: Stamp, frame: FrameView<'_>) -> Result<Ask, AllocError>
        ensures { IfOk result (λ a. a ≡ record { stamp = stamp; frame = frame_of frame.entry; is_excused = false }) }
    {
        let frame = frame.to_buf(alloc)?;
        Ok(Ask {
            stamp,
            frame,
            excused: false,
        })
    }

    /// When it passed.
    pub fn stamp(&self) -> Stamp
        ensures { result ≡ self.now.stamp }
    {
        self.stamp
    }

    /// The frame.
    pub fn frame(&self) -> FrameView<'_>
        ensures { frame_of result ≡ self.now.frame }
    {
        self.frame.view()
    }

    /// Whether no answer has to come any more: another frame like it was answered, or it is a message and 0 was closed or opened anew.
    pub fn is_excused(&self) -> bool
        ensures { result ≡ self.now.is_excused }
    {
        self.excused
    }

    /// Whether it is a SABM or DISC that may have been answered before: another one like it was.
    pub(crate) fn is_again(&self) -> bool
        ensures { result ≡ is_again self.now }
    {
        is_mode_command(self.frame.view()) && self.excused
    }

    /// Its end got or sent a frame, and it may be excused by it.
    pub(crate) fn pass(&mut self, deed: Deed, frame: FrameView<'_>)
        ensures { self.new ≡ excused_by (act_of deed (frame_of frame.entry)) self.old }
    {
        if excuses(deed, frame, self.frame.view()) {
            self.excused = true;
        }
    }
}
