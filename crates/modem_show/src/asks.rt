//! The frames of one end that wait for their answer.
ghost use Rattle.std.specs.Prelude.{◌≡◌, map};
ghost use Rattle.std.specs.List.{position};
ghost use Rattle.std.specs.Option.{option_copied};
ghost use Rattle.mux_frame.specs.Frames.{frame_of};
ghost use Rattle.modem_show.specs.Ways.{act_of};
ghost use Rattle.modem_show.specs.Asking.{answers, answered_by, is_in_doubt, unanswered_by, excused_by};

use crate::ask::{Ask, answers};
use crate::deed::Deed;
use mux_frame::{Dlci, FrameView};

/// The place of the newest that a frame answers.
fn place_answered(asks: &[Ask], frame: FrameView<'_>) -> Option<usize>
    ensures { result ≡ position (λ a. answers a.frame (frame_of frame.entry)) asks.now }
{
    asks.iter().position(|ask| answers(ask.frame(), frame))
}

/// The newest that a frame answers.
pub(crate) fn answered<'a>(asks: &'a [Ask], frame: FrameView<'_>) -> Option<&'a Ask>
    ensures { option_copied result ≡ answered_by (frame_of frame.entry) asks.now }
{
    asks.iter().find(|ask| answers(ask.frame(), frame))
}

/// Whether a SABM or DISC of a connection waits that may have been answered before.
pub(crate) fn is_in_doubt(dlci: Dlci, asks: &[Ask]) -> bool
    ensures { result ≡ is_in_doubt dlci.number asks.now }
{
    asks.iter().any(|ask| ask.is_again() && ask.frame().dlci.number() == dlci.number())
}

/// Takes out the newest that a frame answers.
#[tactic(auto, using(crate::proofs::Places::found_there, crate::proofs::Places::found_nowhere, crate::proofs::Places::is_first, crate::proofs::Places::stays_whole))]
pub(crate) fn take_answered(asks: &mut Vec<Ask>, frame: FrameView<'_>) -> Option<Ask>
    ensures taken { result ≡ answered_by (frame_of frame.entry) asks.old.items }
    ensures rest { asks.new.items ≡ unanswered_by (frame_of frame.entry) asks.old.items }
{
    match place_answered(asks.as_slice(), frame) {
        Some(place) => Some(asks.remove(place)),
        None => None,
    }
}

/// The end got or sent a frame, which excuses those that it can.
pub(crate) fn pass_all(asks: &mut Vec<Ask>, deed: Deed, frame: FrameView<'_>)
    ensures { asks.new.items ≡ map (excused_by (act_of deed (frame_of frame.entry))) asks.old.items }
{
    for ask in asks.iter_mut() {
        ask.pass(deed, frame);
    }
}
