//! Frames that pass between the line and a driver.
ghost use Rattle.std.specs.Prelude.{◌≡◌, ◌≢◌, ◌==◌, ◌++◌, ◌≤◌, ◌<◌, ◌+◌, [], length, take, flat_map, true, false, None, Some, IfOk, OnErr};
ghost use Rattle.mux_frame.specs.Frames.{frame_of};
ghost use Rattle.mux_frame.specs.Spelling.{most_info, spelled};
ghost use Rattle.modem_data.specs.Switching.{IsWithin};
ghost use Rattle.modem_data.specs.Handing.{PassesIn, PassesOut, PassesOver, handed};
ghost use Rattle.modem_data.specs.Hops.{with_lines};
ghost use Rattle.modem_data.specs.Prompts.{mark_if};

use crate::octets::Octets;
use crate::pipe_set::Pipes;
use crate::switch::LineCut;
use mux_frame::{Deframer, FrameView};
use std::alloc::AllocError;

/// The first octets, or all where there are fewer.
fn first(octets: &[u8], count: usize) -> &[u8]
    ensures those { result.now ≡ take count octets.now }
    ensures few { length result.now ≤ length octets.now }
{
    if count < octets.len() {
        &octets[..count]
    } else {
        octets
    }
}

/// Writes lines of a frame's information, where there are any, in a frame of their own. Requires that there is room.
#[tactic(auto, using(crate::proofs::Handed::put_some))]
fn put_lines(frame: FrameView<'_>, lines: &[u8], n1: u16, to_driver: &mut Octets)
    requires short { length lines.now ≤ most_info n1 frame.kind }
    requires bound { n1 ≤ 32767 }
    requires room { to_driver.old.len + (length lines.now + 7) ≤ to_driver.old.capacity }
    ensures put { to_driver.new.items ≡ to_driver.old.items ++ flat_map spelled (with_lines (frame_of frame.entry) lines.now) }
    ensures len { to_driver.new.len ≤ to_driver.old.len + (length lines.now + 7) }
    ensures capacity { to_driver.old.capacity ≤ to_driver.new.capacity }
{
    if lines.is_empty() {
        return;
    }
    let view = FrameView {
        info: lines,
        ..frame
    };
    to_driver.put_frame(view, n1);
}

/// A `>` that was held back, or nothing.
fn mark_of(is_marked: bool) -> &'static [u8]
    ensures { result.now ≡ mark_if is_marked }
{
    if is_marked { b">" } else { b"" }
}

/// Writes what of a frame goes on to the driver. Requires that there is room.
#[tactic(auto, using(crate::proofs::Handed::all_lines))]
fn hand_on(frame: FrameView<'_>, cut: Option<LineCut>, n1: u16, to_driver: &mut Octets)
    requires short { length frame.info.now ≤ most_info n1 frame.kind }
    requires bound { n1 ≤ 32767 }
    requires within { IsWithin cut (length frame.info.now) }
    requires room { to_driver.old.len + (length frame.info.now + 22) ≤ to_driver.old.capacity }
    ensures { to_driver.new.items ≡ to_driver.old.items ++ handed (frame_of frame.entry) cut }
{
    let Some(cut) = cut else {
        to_driver.put_frame(frame, n1);
        return;
    };
    put_lines(frame, mark_of(cut.is_marked), n1, to_driver);
    put_lines(frame, first(frame.info, cut.before), n1, to_driver);
    put_lines(frame, &frame.info[cut.behind..], n1, to_driver);
}

/// Passes the frame at hand, if there is one: to the driver, but for data of the pipes. Says whether there was one. Refusal: no
/// memory, which changes nothing; the frame stays at hand.
pub(crate) fn pass_in(
    deframer: &mut Deframer,
    pipes: &mut Pipes,
    n1: u16,
    to_driver: &mut Octets,
) -> Result<bool, AllocError>
    requires same { n1 ≡ deframer.old.n1 }
    requires bound { n1 ≤ 32767 }
    ensures passes { IfOk result (λ one. one ≡ true
        → PassesIn deframer.old.next pipes.old pipes.new to_driver.old.items to_driver.new.items) }
    ensures over { IfOk result (λ one. one ≡ true → PassesOver deframer.old deframer.new) }
    ensures n1 { deframer.new.n1 ≡ deframer.old.n1 }
    ensures shorter { IfOk result (λ one. one ≡ true
        → length deframer.new.undecided < length deframer.old.undecided) }
    ensures none { IfOk result (λ one. one ≡ false → deframer.old.next ≡ None) }
    ensures still { IfOk result (λ one. one ≡ false → (deframer.new ≡ deframer.old) × (pipes.new ≡ pipes.old)
        × (to_driver.new.items ≡ to_driver.old.items)) }
    ensures at_hand { OnErr result (deframer.old.next ≢ None) }
    ensures err { OnErr result ((deframer.new ≡ deframer.old) × (pipes.new ≡ pipes.old)
        × (to_driver.new.items ≡ to_driver.old.items)) }
{
    let Some(frame) = deframer.peek() else {
        return Ok(false);
    };
    to_driver.reserve(frame.info.len() + 22, 0)?;
    let cut = pipes.came(frame)?;
    hand_on(frame, cut, n1, to_driver);
    deframer.advance();
    Ok(true)
}

/// Passes the driver's frame at hand, if there is one, to the line. Says whether there was one. Requires that no octets wait for
/// the line.
#[tactic(auto, using(crate::proofs::FrameRoom::has_room))]
pub(crate) fn pass_out(
    deframer: &mut Deframer,
    pipes: &mut Pipes,
    n1: u16,
    to_line: &mut Octets,
) -> bool
    requires same { n1 ≡ deframer.old.n1 }
    requires bound { n1 ≤ 32767 }
    requires none_wait { (length to_line.old.items == 0) ≡ true }
    requires room { n1 + 7 ≤ to_line.old.capacity }
    ensures passes { result ≡ true
        → PassesOut deframer.old.next pipes.old pipes.new to_line.old.items to_line.new.items }
    ensures over { result ≡ true → PassesOver deframer.old deframer.new }
    ensures n1 { deframer.new.n1 ≡ deframer.old.n1 }
    ensures some { result ≡ true → 0 < length to_line.new.items }
    ensures none { result ≡ false → deframer.old.next ≡ None }
    ensures still { result ≡ false → (deframer.new ≡ deframer.old) × (pipes.new ≡ pipes.old)
        × (to_line.new.items ≡ to_line.old.items) }
    ensures capacity { to_line.old.capacity ≤ to_line.new.capacity }
{
    let Some(frame) = deframer.peek() else {
        return false;
    };
    to_line.fit(frame.info.len() + 7);
    pipes.went(frame);
    to_line.put_frame(frame, n1);
    deframer.advance();
    true
}
