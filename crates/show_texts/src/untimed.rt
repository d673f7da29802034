//! Shows the octets of both ways, of which it isn't known when they passed.
ghost use Rattle.std.specs.Prelude.{◌≡◌, ℕ, ◌+◌, ◌<◌, ◌≤◌, ◌≢◌, ◌⊎◌, List, [], ◌∷◌, Err, IfErr, IfOk, IfSome, None, OnOk, false, length, map, true};
ghost use Rattle.std.specs.Io.KnownBytes.{IsAtEnd};
ghost use Rattle.mux_frame.specs.Frames.{frame_of, kept_frame};
ghost use Rattle.mux_capture.specs.Passing.{Caught};
ghost use Rattle.modem_show.specs.Judging.{WatchFits};
ghost use Rattle.modem_show.specs.Judging.{is_unasked as unasked};
ghost use Rattle.modem_show.specs.Ways.{caught};
ghost use Rattle.mux_capture.specs.declared.packet.Direction.TheVariants.{ToModem};
ghost use Rattle.show_texts.specs.Captures.{SaysFault};
ghost use Rattle.show_texts.specs.Merging.{Comes, HasFrames, HasShownUntimed, IsShownUntimed, PrintsBoth, TellsBoth, untimed, waits};
ghost use Rattle.show_texts.specs.Options.{setting_by};
ghost use Rattle.show_texts.specs.Telling.{Item, TellerFits, frames_of, setting_of};
ghost use Rattle.show_texts.specs.declared.fault.ShowFault.TheVariants as ShowFault;

use crate::closing::some_unanswered;
use crate::fault::ShowFault;
use crate::run::{ShowOptions, give_up};
use crate::teller::Teller;
use modem_show::{Watcher, is_answer};
use mux_capture::{Direction, Stamp};
use mux_frame::laws::read_plain;
use mux_frame::{FrameBuf, FrameView};
use std::alloc::{AllocError, Global};
use std::io::{ErrorKind, Read, Write};

/// The most octets of information that a frame can have (27.010, 5.2.1.5).
const MOST_INFO: u16 = 32767;

/// No time is known.
const UNTIMED: Stamp = Stamp {
    seconds: 0,
    micros: 0,
};

/// Whether a frame of the driver answers what isn't asked yet.
fn is_unasked(watcher: &Watcher, frame: FrameView<'_>) -> bool
    ensures { (line : List Caught) → WatchFits watcher.now line
        → result ≡ unasked line (caught untimed ToModem (frame_of frame.entry)) }
{
    is_answer(frame) && watcher.answered(Direction::ToModem, frame).is_none()
}

/// The frame that comes next, the way it goes, and what is left of each way.
#[derive(Clone, Copy)]
struct Next<'a> {
    direction: Direction,
    frame: FrameView<'a>,
    to: &'a [FrameBuf],
    from: &'a [FrameBuf],
}

impl Teller {
    /// Whether a frame of the driver waits for the modem's next.
    fn waits(&self, frame: FrameView<'_>) -> bool
        ensures { (written : List ℕ) (items : List Item) → TellerFits written self.now items
            → result ≡ waits (setting_of self.now) (frames_of items) (frame_of frame.entry) }
    {
        is_unasked(&self.watcher, frame)
            || some_unanswered(self.watcher.asks(Direction::ToModem))
            || self.talks.is_under_way(frame.dlci)
    }

    /// The frame that comes next of those of both ways.
    fn next<'a>(&self, to: &'a [FrameBuf], from: &'a [FrameBuf]) -> Option<Next<'a>>
        ensures none { result ≡ None → (to.now ≡ []) × (from.now ≡ []) }
        ensures fewer { IfSome result (λ n. length n.to.now + length n.from.now < length to.now + length from.now) }
        ensures comes { IfSome result (λ n. (written : List ℕ) (items : List Item) → TellerFits written self.now items
            → Comes (setting_of self.now) items (map kept_frame to.now) (map kept_frame from.now) n.direction (frame_of n.frame)
            (map kept_frame n.to.now) (map kept_frame n.from.now)) }
    {
        match (to, from) {
            ([], []) => None,
            ([first, to @ ..], []) => Some(Next {
                direction: Direction::ToModem,
                frame: first.view(),
                to,
                from,
            }),
            ([], [first, from @ ..]) => Some(Next {
                direction: Direction::FromModem,
                frame: first.view(),
                to,
                from,
            }),
            ([ours, to_left @ ..], [theirs, from_left @ ..]) => {
                if self.waits(ours.view()) {
                    Some(Next {
                        direction: Direction::FromModem,
                        frame: theirs.view(),
                        to,
                        from: from_left,
                    })
                } else {
                    Some(Next {
                        direction: Direction::ToModem,
                        frame: ours.view(),
                        to: to_left,
                        from,
                    })
                }
            }
        }
    }

    /// Takes the frames of both ways, each way's in their order, with no time: the driver's next comes first, unless it answers what
    /// isn't asked yet, the driver asked and waits for its answer, or a command is under way on the frame's connection. After want of
    /// memory nothing is said.
    #[tactic(auto, using(crate::proofs::Merged::none_so_far, crate::proofs::Merged::more_so_far, crate::proofs::Merged::both_told))]
    fn take_both(&mut self, to: &[FrameBuf], from: &[FrameBuf]) -> Result<(), AllocError>
        ensures { OnOk result (TellsBoth self.old self.new (map kept_frame to.now) (map kept_frame from.now)) }
    {
        let mut to_left = to;
        let mut from_left = from;
        while let Some(next) = self.next(to_left, from_left) {
            self.take_frame(UNTIMED, next.direction, next.frame)?;
            to_left = next.to;
            from_left = next.from;
        }
        Ok(())
    }
}

/// All octets of a reader.
fn read_all<I: Read>(alloc: Global, input: &mut I) -> Result<Vec<u8>, ShowFault>
    ensures whole { IfOk result (λ octets. IfSome (I.remaining input.old) (λ all. all ≡ octets.items)) }
    ensures others { result ≢ Err ShowFault.NoCapture }
{
    let mut octets = Vec::new(alloc);
    match input.read_to_end(&mut octets) {
        Ok(_) => Ok(octets),
        Err(error) if error.kind() == ErrorKind::OutOfMemory => Err(ShowFault::NoMemory),
        Err(_) => Err(ShowFault::Input),
    }
}

/// The frames that all octets of a reader are read as.
fn frames_in<I: Read>(alloc: Global, input: &mut I) -> Result<Vec<FrameBuf>, ShowFault>
    ensures read { IfOk result (λ frames. HasFrames (I.remaining input.old) (map kept_frame frames.items)) }
    ensures others { result ≢ Err ShowFault.NoCapture }
{
    let octets = read_all(alloc, input)?;
    match read_plain(alloc, MOST_INFO, octets.as_slice()) {
        Ok((frames, _)) => Ok(frames),
        Err(_) => Err(ShowFault::NoMemory),
    }
}

/// Shows frames of both ways and what is said at their end.
#[tactic(auto, using(crate::proofs::Merged::both_printed))]
fn show_both<W: Write>(
    teller: &mut Teller,
    to: &[FrameBuf],
    from: &[FrameBuf],
    output: &mut W,
) -> Result<(), ShowFault>
    ensures shown { OnOk result (TellerFits [] teller.old [] → PrintsBoth (setting_of teller.old) teller.new.is_wrong
        (map kept_frame to.now) (map kept_frame from.now) (W.contents output.old) (W.contents output.new)) }
    ensures others { result ≢ Err ShowFault.NoCapture }
{
    teller.take_both(to, from)?;
    teller.close()?;
    teller.write(output)
}

/// Shows frames of both ways, and says whether there is a complaint.
#[tactic(auto, using(crate::proofs::Merged::prints_whole))]
fn show_frames<W: Write>(
    alloc: Global,
    options: ShowOptions,
    to: &[FrameBuf],
    from: &[FrameBuf],
    output: &mut W,
) -> Result<bool, ShowFault>
    ensures shown { IfOk result (λ wrong. PrintsBoth (setting_by options) wrong (map kept_frame to.now) (map kept_frame from.now)
        (W.contents output.old) (W.contents output.new)) }
    ensures others { result ≢ Err ShowFault.NoCapture }
{
    let mut teller = Teller::new(alloc, options.n1, options.dialect, options.data_channels)?;
    show_both(&mut teller, to, from, output)?;
    Ok(teller.is_wrong())
}

/// Shows the octets of both ways, and says whether there is a complaint.
fn show_untimed<I: Read, J: Read, W: Write>(
    alloc: Global,
    options: ShowOptions,
    to: &mut I,
    from: &mut J,
    output: &mut W,
) -> Result<bool, ShowFault>
    ensures shown { IfOk result (λ wrong. IsShownUntimed (setting_by options) wrong (I.remaining to.old) (J.remaining from.old)
        (W.contents output.old) (W.contents output.new)) }
    ensures others { result ≢ Err ShowFault.NoCapture }
{
    let to_frames = frames_in(alloc, to)?;
    let from_frames = frames_in(alloc, from)?;
    show_frames(
        alloc,
        options,
        to_frames.as_slice(),
        from_frames.as_slice(),
        output,
    )
}

/// Shows the octets of both ways where it isn't known when they passed: `to` has those to the modem, `from` those from there. It writes
/// what `show_run` writes of a capture of the frames that these read as, all with the time 0. Each way's frames keep their order. Of two
/// next frames the driver's comes first, with three exceptions: it answers what isn't asked yet; the driver waits for an answer; a
/// command is under way on the frame's connection. Octets that read as no frame are passed over. Memory holds both ways' octets and the
/// whole text.
///
/// The status is 0, or 3 where there is a complaint and the options are strict. It is 1 where a reader or the writer fails, or memory is
/// refused, and then it says on `faults` why.
pub fn show_untimed_run<I: Read, J: Read, W: Write, E: Write>(
    alloc: Global,
    to: &mut I,
    from: &mut J,
    output: &mut W,
    faults: &mut E,
    options: ShowOptions,
) -> u8
    ensures status { result ≤ 3 }
    ensures readable { result ≢ 2 }
    ensures shown { (result ≡ 0) ⊎ (result ≡ 3) → HasShownUntimed (setting_by options) options.strict (I.remaining to.old)
        (J.remaining from.old) (W.contents output.old) (W.contents output.new) result }
    ensures said { result ≡ 1 → SaysFault (E.contents faults.old) (E.contents faults.new) result }
    ensures silent { (result ≡ 0) ⊎ (result ≡ 3) → faults.new ≡ faults.old }
{
    let strict = options.strict;
    match show_untimed(alloc, options, to, from, output) {
        Ok(wrong) => { if strict && wrong { 3 } else { 0 } }
        Err(fault) => give_up(faults, fault),
    }
}
