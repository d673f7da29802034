//! Handles received frames (27.010, 5.4).
ghost use Rattle.std.specs.Prelude.{ℕ, List, None, ◌≡◌, ◌≢◌, ◌≤◌, ◌<◌, ◌+◌, ◌-◌, ◌++◌, ◌∷◌, ◌&&◌, ◌||◌, not, [], true, false, length, drop, map, option_map, slice_get, slice_set, is_some, is_none, if◌then◌else◌, IfOk, IfSome, IfNone, OnOk, OnErr, vec_capacity};
ghost use Rattle.std.specs.VecDeque.{deque_capacity};
ghost use Rattle.modem_core.specs.Doing.{Does, QueuesAtMost};
ghost use Rattle.mux_frame.specs.Frames.{frame_of, kept_frame};
ghost use Rattle.mux_frame.specs.Spelling.{most_info};
ghost use Rattle.mux_station.specs.Acts as station_acts;
ghost use Rattle.mux_station.specs.Fitting as station_fits;
ghost use Rattle.mux_station.specs.Noting.{says_open, noted_of};
ghost use Rattle.mux_station.specs.Sending.{got_refused, station_view};
ghost use Rattle.mux_station.specs.Stations.{setting_of, seen_in};
ghost use Rattle.mux_station.specs.Tables.{have_room, octets_of, by_frame};
ghost use Rattle.modem_history.specs.Acts.{Act as Happening, act_of, Got};
ghost use Rattle.modem_core.specs.Running.{CoreIsIdle};
ghost use Rattle.modem_core.specs.Cores.{Handles, shows_opened, lane_at};
ghost use Rattle.modem_core.specs.Lanes.{awaits_echo, lane_in, new_lane};
ghost use Rattle.modem_core.specs.Handing.{text_on, OffersLine, EndsCommand, EndedBy};
ghost use Rattle.modem_core.specs.Settling.{with_told, with_whole};
ghost use Rattle.modem_history.specs.Calls.{first_on};
ghost use Rattle.modem_queues.specs.Stops.{asker_of, ends_stop};
ghost use Rattle.modem_core.specs.Receiving.{Brings, HasRoom, answer_room, cut_to, sent_in, afresh_if, brings_data};
ghost use Rattle.modem_core.specs.Holding.{KeepsHeld};
ghost use Rattle.modem_core.specs.declared.error.CoreError.TheVariants as CoreError;

use crate::act_list::{ActList, none_told, push_told};
use crate::driver::Core;
use crate::error::CoreError;
use crate::frame_acts::FrameActs;
use crate::lanes::Lanes;
use crate::reports::Reading;
use crate::settling::{Answered, Whole};
use crate::telling::{Happened, tell_on};
use crate::took::offer_line;
use at_text::CommandLine;
use modem_desk::{Answer, Outcome};
use modem_history::Act;
use modem_queues::{Hand, LineRoom, first_asker, first_command, remove_command, text_of};
use mux_frame::{Dlci, FrameBuf, FrameView, Info, Kind};
use mux_station::{ChannelState, Noted, Station};
use std::collections::VecDeque;

/// An MSC is a type octet, a length octet and two octets of value.
const MSC_LEN: usize = 4;

/// The frame, its information in room that was taken before: what has none is cut off.
fn kept_in(spare: Vec<u8>, frame: FrameView<'_>) -> FrameBuf
    requires { spare.items ≡ [] }
    ensures { kept_frame result ≡ cut_to (vec_capacity spare) (frame_of frame.entry) }
{
    let mut octets = spare;
    let most = frame.info.len().min(octets.capacity());
    octets.extend_from_slice(&frame.info[..most]).unwrap();
    FrameBuf {
        dlci: frame.dlci,
        kind: frame.kind,
        cr: frame.cr,
        pf: frame.pf,
        info: Info::from_vec(octets),
    }
}

/// The frame at this place of the control queue, if there is one, is sent.
fn push_sent(station: &mut Station, place: usize, spare: Vec<u8>, acts: &mut ActList)
    requires empty { spare.items ≡ [] }
    requires room { 0 < acts.old.left }
    ensures station { station.new ≡ station.old }
    ensures acts { map act_of acts.new.acts
        ≡ map act_of acts.old.acts ++ sent_in (vec_capacity spare) (slice_get station.old.queue place) }
    ensures left { acts.old.left ≤ acts.new.left + 1 }
{
    if let Some(frame) = station.queued(place) {
        acts.push(Act::Sent(kept_in(spare, frame)));
    }
}

/// Whether it was Opened and isn't any more.
fn has_ended(before: ChannelState, now: ChannelState) -> bool
    ensures { result ≡ shows_opened before && not (shows_opened now) }
{
    matches!(before, ChannelState::Opened) && !matches!(now, ChannelState::Opened)
}

/// Whether the frame opened its connection.
fn opens(noted: Noted) -> bool
    ensures { result ≡ says_open noted }
{
    matches!(noted, Noted::Opened | Noted::Reset)
}

/// The station takes a frame. The condition is that there is room for all that it calls for.
fn take(station: &mut Station, frame: FrameView<'_>) -> Noted
    requires short { length frame.info.now ≤ most_info station.old.n1 frame.kind }
    requires room { have_room station.old.n1 (octets_of station.old.queue)
        (by_frame station.old.role (seen_in station.old).state (frame_of frame)) ≡ true }
    ensures past { station_fits.StationHandles station.old station.new
        (station_acts.Got (frame_of frame.entry)) }
    ensures noted { (past : List station_acts.Act) → station_fits.StationFits station.old past
        → result ≡ noted_of station.old.role (station_view (setting_of station.old) past)
        (frame_of frame.entry) }
    ensures taken { None ≡ got_refused (setting_of station.old) (seen_in station.old) (frame_of frame.entry) }
{
    let Ok(noted) = station.got(frame) else {
        unreachable!()
    };
    noted
}

impl Core {
    /// Where the frame opened its connection, everything of that starts afresh.
    fn start_lane(&mut self, dlci: Dlci, opened: bool)
        ensures { self.new ≡ record self.old { lanes = afresh_if opened dlci.number self.old.lanes } }
    {
        if opened {
            self.lanes.start(dlci);
        }
    }

    /// A frame that isn't data of an open connection, or that came after a loss of the line.
    fn got_other(&mut self, frame: FrameView<'_>) -> Result<Vec<Act>, CoreError>
        requires short { length frame.info.now ≤ most_info self.old.station.n1 frame.kind }
        requires no_data { brings_data self.old (frame_of frame) ≡ false }
        ensures past { IfOk result (λ acts.
            Handles self.old self.new (Got (frame_of frame.entry)) (map act_of acts.items)) }
        ensures holds { IfOk result (λ acts.
            KeepsHeld self.old self.new (Got (frame_of frame.entry)) (map act_of acts.items)) }
        ensures room { OnOk result (HasRoom self.old (Got (frame_of frame.entry)) true) }
        ensures no_room { result ≡ Err CoreError.NoRoom
            → HasRoom self.old (Got (frame_of frame.entry)) false }
        ensures no_memory { result ≡ Err CoreError.NoMemory
            → HasRoom self.old (Got (frame_of frame.entry)) true }
        ensures good_n1 { result ≢ Err CoreError.BadN1 }
        ensures err { OnErr result (self.new ≡ self.old) }
        ensures n1 { self.new.station.n1 ≡ self.old.station.n1 }
        ensures never_full { result ≡ Err CoreError.NoRoom → ¬ CoreIsIdle self.old }
    {
        if !self.has_room_for(frame) {
            return Err(CoreError::NoRoom);
        }
        let mut acts = ActList::with_room(self.alloc, 2 + self.hand.len())?;
        let spare = Vec::with_capacity(self.alloc, frame.info.len().max(MSC_LEN))?;
        let mut told = none_told(self.alloc)?;
        acts.push(Act::Got(frame.to_buf(self.alloc)?));
        let place = self.station.queue_len();
        let Some(_answered) = self.do_other(frame, &mut told) else {
            return Err(CoreError::NoRoom);
        };
        push_sent(&mut self.station, place, spare, &mut acts);
        push_told(&mut acts, &mut told);
        Ok(acts.into_vec())
    }

    /// Whether the control queue has room for all that the frame calls for. The condition is that the line isn't lost.
    fn has_live_room(&self, frame: FrameView<'_>) -> bool
        requires live { self.now.lost ≡ false }
        requires short { length frame.info.now ≤ most_info self.now.station.n1 frame.kind }
        ensures room { HasRoom self.now (Got (frame_of frame.entry)) result }
        ensures never_full { result ≡ false → ¬ CoreIsIdle self.now }
        ensures by_station { result ≡ have_room self.now.station.n1 (octets_of self.now.station.queue)
            (by_frame self.now.station.role (seen_in self.now.station).state (frame_of frame.entry)) }
    {
        self.station.has_room_for(frame)
    }

    /// The same, where the line may be lost: then the frame calls for nothing.
    fn has_room_for(&self, frame: FrameView<'_>) -> bool
        requires short { length frame.info.now ≤ most_info self.now.station.n1 frame.kind }
        ensures room { HasRoom self.now (Got (frame_of frame.entry)) result }
        ensures never_full { result ≡ false → ¬ CoreIsIdle self.now }
    {
        if self.lost {
            return true;
        }
        self.has_live_room(frame)
    }

    /// As `got_other`, without a copy of the frame. What it calls for waits in the control queue, and what it tells behind the
    /// outcomes that wait, so it takes no memory. Says whether the Stop that was in hand has ended by it. Gives nothing
    /// where the control queue has no room for what it calls for: nothing changes then.
    #[inline(never)]
    pub(crate) fn do_other(
        &mut self,
        frame: FrameView<'_>,
        told: &mut VecDeque<Outcome>,
    ) -> Option<bool>
        requires short { length frame.info.now ≤ most_info self.old.station.n1 frame.kind }
        requires no_data { brings_data self.old (frame_of frame) ≡ false }
        requires room { 128 ≤ deque_capacity told.old }
        ensures does { IfSome result (λ answered.
            Does self.old self.new told.old.items told.new.items (Got (frame_of frame.entry)) answered) }
        ensures queues { IfSome result (λ _.
            QueuesAtMost 1 (answer_room (frame_of frame.entry)) self.old self.new (Got (frame_of frame.entry))) }
        ensures has_room { IfSome result (λ _. HasRoom self.old (Got (frame_of frame.entry)) true) }
        ensures no_room { IfNone result (HasRoom self.old (Got (frame_of frame.entry)) false) }
        ensures stays { IfNone result (self.new ≡ self.old) }
        ensures untold { IfNone result (told.new.items ≡ told.old.items) }
        ensures n1 { self.new.station.n1 ≡ self.old.station.n1 }
        ensures lost { self.new.lost ≡ self.old.lost }
        ensures never_full { IfNone result (¬ CoreIsIdle self.old) }
        ensures room { 128 ≤ deque_capacity told.new }
    {
        if self.lost {
            return Some(false);
        }
        if !self.has_live_room(frame) {
            return None;
        }
        let before = self.station.state(Dlci::CONTROL);
        let noted = take(&mut self.station, frame);
        let ended = has_ended(before, self.station.state(Dlci::CONTROL));
        let answered = tell_on(
            &mut self.hand,
            &self.station,
            self.lost,
            Happened::Got(noted),
            ended,
            told,
        );
        self.start_lane(frame.dlci, opens(noted));
        Some(answered)
    }

    /// The command under way on the connection has its answer: it is in hand no more, and the next one
    /// is put into the send ring.
    fn end_command(&mut self, dlci: Dlci)
        ensures { EndsCommand self.old self.new dlci.number }
    {
        remove_command(&mut self.hand, dlci);
        if let Some(line) = first_command(self.hand.from_first(dlci), dlci).line {
            offer_next(&mut self.station, dlci, line);
        }
    }

    /// Where the answer of the command under way is whole, its outcome is made, and the next command goes out. It takes no memory.
    fn answer(&mut self, dlci: Dlci, whole: Option<Whole>) -> Option<Answered>
        ensures ends { EndedBy (is_some whole) self.old self.new dlci.number }
        ensures told { (heard : List Happening) → with_told result heard
            ≡ with_whole (option_map asker_of (first_on dlci.number self.old.hand)) whole heard }
        ensures within { (most : ℕ) → IfSome whole (λ w. w.place ≤ most) → IfSome result (λ a. a.place ≤ most) }
        ensures ends_none { IfSome result (λ a. ends_stop a.outcome.answer ≡ false) }
    {
        let whole = whole?;
        let owner = first_asker(self.hand.from_first(dlci), dlci);
        self.end_command(dlci);
        let owner = owner?;
        Some(Answered {
            place: whole.place,
            outcome: Outcome {
                caller: owner.caller,
                number: owner.number,
                answer: Answer::Done(whole.lines),
            },
        })
    }

    /// Data of an open connection is read; the hand lends the text of the command under way. The lines that are heard go behind the
    /// others. The station stays as it is, and where that command has its answer, its outcome is given and the next one goes out.
    /// Want of memory changes nothing.
    pub(crate) fn read<P: LineRoom>(
        &mut self,
        frame: FrameView<'_>,
        lines: &mut P,
    ) -> Result<Option<Answered>, CoreError>
        requires short { length frame.info.now ≤ most_info self.old.station.n1 frame.kind }
        requires is_data { brings_data self.old (frame_of frame) ≡ true }
        ensures brings { IfOk result (λ answered. Brings self.old self.new (frame_of frame.entry)
            (P.heard lines.old) (with_told answered (P.heard lines.new))) }
        ensures within { IfOk result (λ answered. IfSome answered (λ a. a.place ≤ length (P.heard lines.new))) }
        ensures ends_none { IfOk result (λ answered. IfSome answered (λ a. ends_stop a.outcome.answer ≡ false)) }
        ensures has_room { OnOk result (HasRoom self.old (Got (frame_of frame.entry)) true) }
        ensures no_memory { OnErr result (result ≡ Err CoreError.NoMemory) }
        ensures err { OnErr result (self.new ≡ self.old) }
        ensures unheard { OnErr result (P.heard lines.new ≡ P.heard lines.old) }
        ensures n1 { self.new.station.n1 ≡ self.old.station.n1 }
        ensures lost { self.new.lost ≡ self.old.lost }
    {
        let reading = Reading {
            alloc: self.alloc,
            dlci: frame.dlci,
            command: echo_text(&self.hand, &self.lanes, frame.dlci),
            dialect: &self.dialect,
            kinds: self.kinds.as_slice(),
        };
        let whole = self.lanes.read(&reading, frame.info, lines)?;
        Ok(self.answer(frame.dlci, whole))
    }

    /// Data of an open connection.
    fn got_data(&mut self, frame: FrameView<'_>) -> Result<Vec<Act>, CoreError>
        requires short { length frame.info.now ≤ most_info self.old.station.n1 frame.kind }
        requires is_data { brings_data self.old (frame_of frame) ≡ true }
        ensures past { IfOk result (λ acts.
            Handles self.old self.new (Got (frame_of frame.entry)) (map act_of acts.items)) }
        ensures holds { IfOk result (λ acts.
            KeepsHeld self.old self.new (Got (frame_of frame.entry)) (map act_of acts.items)) }
        ensures room { OnOk result (HasRoom self.old (Got (frame_of frame.entry)) true) }
        ensures no_memory { OnErr result (result ≡ Err CoreError.NoMemory) }
        ensures err { OnErr result (self.new ≡ self.old) }
        ensures n1 { self.new.station.n1 ≡ self.old.station.n1 }
    {
        let mut acts = FrameActs::new(self.alloc, frame)?;
        let answered = self.read(frame, &mut acts)?;
        Ok(acts.into_vec(answered))
    }

    /// Whether the frame is data of an open connection, and the line isn't lost.
    fn brings_data(&self, frame: FrameView<'_>) -> bool
        ensures { result ≡ brings_data self.now (frame_of frame.entry) }
    {
        !self.lost
            && frame.kind == Kind::Uih
            && frame.dlci.number() != 0
            && self.is_open(frame.dlci)
    }

    /// The same. Such a frame calls for no other, so there is room for what it calls for.
    pub fn is_data(&self, frame: FrameView<'_>) -> bool
        ensures value { result ≡ brings_data self.now (frame_of frame.entry) }
        ensures room { result ≡ true → HasRoom self.now (Got (frame_of frame.entry)) true }
    {
        let _ = &self.lanes;
        self.brings_data(frame)
    }

    /// Handles a received frame. Requires that its information is at most N1 octets, and empty in a kind other than
    /// UIH. Refusals, which change nothing: 3 NoRoom where not all frames that it calls for fit into the control queue,
    /// checked first; 1 NoMemory.
    pub fn got(&mut self, frame: FrameView<'_>) -> Result<Vec<Act>, CoreError>
        requires { length frame.info.now ≤ most_info self.old.station.n1 frame.kind }
        ensures past { IfOk result (λ acts.
            Handles self.old self.new (Got (frame_of frame.entry)) (map act_of acts.items)) }
        ensures holds { IfOk result (λ acts.
            KeepsHeld self.old self.new (Got (frame_of frame.entry)) (map act_of acts.items)) }
        ensures room { OnOk result (HasRoom self.old (Got (frame_of frame.entry)) true) }
        ensures no_room { result ≡ Err CoreError.NoRoom
            → HasRoom self.old (Got (frame_of frame.entry)) false }
        ensures no_memory { result ≡ Err CoreError.NoMemory
            → HasRoom self.old (Got (frame_of frame.entry)) true }
        ensures good_n1 { result ≢ Err CoreError.BadN1 }
        ensures err { OnErr result (self.new ≡ self.old) }
        ensures n1 { self.new.station.n1 ≡ self.old.station.n1 }
        ensures never_full { result ≡ Err CoreError.NoRoom → ¬ CoreIsIdle self.old }
    {
        if self.is_data(frame) {
            self.got_data(frame)
        } else {
            self.got_other(frame)
        }
    }
}

/// The text of the command under way, where the next line may be its echo. Most frames come later: for those no command is looked up.
fn echo_text<'a>(hand: &'a Hand, lanes: &Lanes, dlci: Dlci) -> &'a [u8]
    ensures { result.now ≡ (if awaits_echo (lane_in lanes.now dlci.number).under_way
        then text_on dlci.number hand.now else []) }
{
    if !lanes.awaits_echo(dlci) {
        return &[];
    }
    text_of(first_command(hand.from_first(dlci), dlci).line)
}

/// The next command goes out as its text and CR (V.250, 5.2.1).
#[tactic(auto, using(crate::proofs::requests::CommandRequests::short_line))]
fn offer_next(station: &mut Station, dlci: Dlci, line: &CommandLine)
    ensures { OffersLine station.old station.new dlci.number line.now }
{
    let _text = line.text();
    offer_line(station, dlci, line.with_cr());
}
