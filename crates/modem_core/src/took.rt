//! Takes requests.
ghost use Rattle.std.specs.Prelude.{◌≡◌, ◌∷◌, [], ◌+◌, ◌<◌, ◌≤◌, ◌++◌, length, map, false, true, Some, option_to_list, IfOk, IfErr, OnErr};
ghost use Rattle.mux_frame.specs.Frames.{kept_frame};
ghost use Rattle.modem_history.specs.Limits.{most_in_hand};
ghost use Rattle.modem_history.specs.Acts.{act_of, Took};
ghost use Rattle.modem_history.specs.Calls.{asking};
ghost use Rattle.mux_station.specs.Stations.{setting_of};
ghost use Rattle.mux_station.specs.declared.role.Role.TheVariants.{Initiator};
ghost use Rattle.modem_history.specs.Information.{line_in, line_of};
ghost use Rattle.modem_core.specs.Offers.{refused_command, sends_on, TakesLine, OffersFirstCommand};
ghost use Rattle.modem_core.specs.Refusals.{refusal_answer};
ghost use Rattle.modem_core.specs.TakenActs.{came_to, outcome_of};
ghost use Rattle.modem_core.specs.Doing.{MayTake, Asked, AsksAlone, Takes, tells_others};
ghost use Rattle.std.specs.VecDeque.{deque_capacity};
ghost use Rattle.modem_core.specs.Cores.{Handles};
ghost use Rattle.modem_core.specs.Holding.{KeepsHeld};
ghost use Rattle.modem_history.specs.declared.act.Act.TheVariants as act;
ghost use Rattle.modem_core.specs.declared.error.CoreError.TheVariants as CoreError;
ghost use Rattle.modem_desk.specs.declared.request.Ask.TheVariants as Ask;

use crate::act_list::{ActList, none_told, push_told};
use crate::driver::Core;
use crate::error::CoreError;
use crate::telling::{Happened, put_told, tell_on};
use crate::written::{bare, message};
use modem_desk::{Answer, Ask, Outcome, Request};
use modem_history::Act;
use modem_queues::{Asker, Hand, has_command};
use mux_frame::{Dlci, FrameBuf, Kind, ProbeData};
use mux_station::written::{CLD, TEST};
use mux_station::{ChannelState, Station, StationError};
use std::alloc::{AllocError, Global};
use std::collections::VecDeque;

/// What a request is told that the station refuses: want of room is Busy.
fn answer_of(why: StationError) -> Answer
    ensures { result ≡ refusal_answer why }
{
    match why {
        StationError::NotOpen => Answer::NotOpen,
        StationError::AlreadyOpen => Answer::AlreadyOpen,
        StationError::ControlChannel => Answer::ControlChannel,
        _ => Answer::Busy,
    }
}

/// The frame by which a request is asked for. A command has none.
fn asking(alloc: Global, ask: &Ask) -> Result<Option<FrameBuf>, AllocError>
    ensures { IfOk result (λ frame. map kept_frame (option_to_list frame) ≡ asking Initiator ask.now) }
{
    match ask {
        Ask::OpenChannel(dlci) => Ok(Some(bare(alloc, Kind::Sabm, *dlci))),
        Ask::CloseChannel(dlci) => Ok(Some(bare(alloc, Kind::Disc, *dlci))),
        Ask::Command(..) => Ok(None),
        Ask::Probe(octets) => Ok(Some(message(alloc, TEST, octets.octets())?)),
        Ask::Stop => Ok(Some(message(alloc, CLD, &[])?)),
    }
}

/// Whether others in hand may be told for it.
fn tells_others(ask: &Ask) -> bool
    ensures { result ≡ tells_others ask.now }
{
    matches!(ask, Ask::CloseChannel(_) | Ask::Stop)
}

/// No outcomes, with room for those that others may be told for it.
fn none_told_for(alloc: Global, ask: &Ask) -> Result<VecDeque<Outcome>, AllocError>
    ensures none { IfOk result (λ told. told.items ≡ []) }
    ensures room { IfOk result (λ told. tells_others ask.now ≡ true → most_in_hand ≤ deque_capacity told) }
{
    if !tells_others(ask) {
        return Ok(VecDeque::new(alloc));
    }
    none_told(alloc)
}

/// What a request came to is put behind the acts: what it is told at once, or else the frame that is sent for it.
fn push_came(acts: &mut ActList, asker: Asker, told: Option<Answer>, sent: Option<FrameBuf>)
    requires { 0 < acts.old.left }
    ensures acts { map act_of acts.new.acts ≡ map act_of acts.old.acts
        ++ came_to (outcome_of asker.caller asker.number told) (map kept_frame (option_to_list sent)) }
    ensures left { acts.old.left ≤ acts.new.left + 1 }
{
    match (told, sent) {
        (Some(answer), _) => acts.push(Act::Told(Outcome {
            caller: asker.caller,
            number: asker.number,
            answer,
        })),
        (None, Some(frame)) => acts.push(Act::Sent(frame)),
        (None, None) => {}
    }
}

impl Core {
    /// Takes a request, which is told its outcome at once or is in hand from then on. After a loss of the line it is
    /// told LineLost; while 128 requests are in hand, Busy. Refusal: 1 NoMemory, which changes nothing and hands the
    /// request back. NoMemory may come after a loss too, since two acts have to be kept.
    pub fn took(&mut self, request: Request) -> Result<Vec<Act>, (CoreError, Request)>
        ensures past { IfOk result (λ acts.
            Handles self.old self.new (Took request) (map act_of acts.items)) }
        ensures holds { IfOk result (λ acts.
            KeepsHeld self.old self.new (Took request) (map act_of acts.items)) }
        ensures err { OnErr result (self.new ≡ self.old) }
        ensures no_memory { IfErr result (λ e. e.0 ≡ CoreError.NoMemory) }
        ensures back { IfErr result (λ e. e.1 ≡ request) }
        ensures n1 { self.new.station.n1 ≡ self.old.station.n1 }
        ensures role { self.old.station.role ≡ Initiator }
    {
        let Ok((mut acts, sent, mut outcomes)) = self.begin(&request) else {
            return Err((CoreError::NoMemory, request));
        };
        let asker = Asker {
            caller: request.caller,
            number: request.number,
        };
        let told = self.ask_any(request, &mut outcomes);
        push_came(&mut acts, asker, told, sent);
        push_told(&mut acts, &mut outcomes);
        Ok(acts.into_vec())
    }

    /// Memory for all that comes of a request: its acts, of which the first is that it was taken; the frame by which it
    /// is asked for; and the outcomes that others are told.
    fn begin(
        &self,
        request: &Request,
    ) -> Result<(ActList, Option<FrameBuf>, VecDeque<Outcome>), AllocError>
        ensures acts { IfOk result (λ t. t.0 ≡ record { acts = act.Took request.now ∷ []; left = 1 + length self.now.hand }) }
        ensures sent { IfOk result (λ t. map kept_frame (option_to_list t.1) ≡ asking Initiator request.now.ask) }
        ensures none { IfOk result (λ t. t.2.items ≡ []) }
        ensures few { IfOk result (λ _. length self.now.hand ≤ most_in_hand) }
        ensures role { self.now.station.role ≡ Initiator }
        ensures room { IfOk result (λ t. tells_others request.now.ask ≡ true → most_in_hand ≤ deque_capacity t.2) }
    {
        let mut acts = ActList::with_room(self.alloc, 2 + self.hand.len())?;
        let sent = asking(self.alloc, &request.ask)?;
        let outcomes = none_told_for(self.alloc, &request.ask)?;
        acts.push(Act::Took(request.copy()?));
        Ok((acts, sent, outcomes))
    }

    /// Takes a command, which isn't told at once, into hand, and into the send ring where no other of its connection is in
    /// hand. It takes no memory.
    pub(crate) fn send(&mut self, dlci: Dlci, request: Request)
        requires { sends_on self.old request.ask ≡ Some dlci }
        ensures past { Handles self.old self.new (Took request) (Took request ∷ []) }
        ensures holds { KeepsHeld self.old self.new (Took request) (Took request ∷ []) }
        ensures lanes { self.new.lanes ≡ self.old.lanes }
        ensures n1 { self.new.station.n1 ≡ self.old.station.n1 }
        ensures role { self.old.station.role ≡ Initiator }
    {
        let line = octets_of(&request.ask);
        offer_first(&self.hand, &mut self.station, dlci, line);
        self.hand.push(request);
    }

    /// A connection is to be opened. It takes no memory. Gives what the request is told at once; where it is told nothing it is
    /// in hand from then on, and its SABM waits in the control queue.
    pub(crate) fn ask_open(&mut self, dlci: Dlci, request: Request) -> Option<Answer>
        requires { MayTake self.old request (Ask.OpenChannel dlci) }
        ensures { AsksAlone self.old self.new request result }
    {
        if let Err(why) = self.station.open(dlci) {
            return Some(answer_of(why));
        }
        self.hand.push(request);
        None
    }

    /// A connection is to be closed: its commands are told so, behind the outcomes that wait. It takes no memory. Gives what
    /// the request is told at once; where it is told nothing it is in hand from then on, and its DISC waits in the control
    /// queue.
    pub(crate) fn ask_close(
        &mut self,
        dlci: Dlci,
        request: Request,
        outcomes: &mut VecDeque<Outcome>,
    ) -> Option<Answer>
        requires may { MayTake self.old request (Ask.CloseChannel dlci) }
        requires room { most_in_hand ≤ deque_capacity outcomes.old }
        ensures asked { Asked self.old self.new outcomes.old.items outcomes.new.items request result }
        ensures room { most_in_hand ≤ deque_capacity outcomes.new }
    {
        if let Err(why) = self.station.close(dlci) {
            return Some(answer_of(why));
        }
        tell_on(
            &mut self.hand,
            &self.station,
            false,
            Happened::Took,
            false,
            outcomes,
        );
        self.hand.push(request);
        None
    }

    /// A probe is to be sent. It takes no memory. Gives what the request is told at once; where it is told nothing it is in
    /// hand from then on, and its Test command waits in the control queue.
    pub(crate) fn ask_probe(&mut self, echo: ProbeData, request: Request) -> Option<Answer>
        requires { MayTake self.old request (Ask.Probe echo) }
        ensures { AsksAlone self.old self.new request result }
    {
        if let Err(why) = self.station.probe(echo.octets()) {
            return Some(answer_of(why));
        }
        self.hand.push(request);
        None
    }

    /// Everything else is to be ended: all in hand are told so, behind the outcomes that wait. It takes no memory. Gives what
    /// the request is told at once; where it is told nothing it is in hand from then on, and its CLD waits in the control
    /// queue.
    pub(crate) fn ask_stop(
        &mut self,
        request: Request,
        outcomes: &mut VecDeque<Outcome>,
    ) -> Option<Answer>
        requires may { MayTake self.old request Ask.Stop }
        requires room { most_in_hand ≤ deque_capacity outcomes.old }
        ensures asked { Asked self.old self.new outcomes.old.items outcomes.new.items request result }
        ensures room { most_in_hand ≤ deque_capacity outcomes.new }
    {
        if let Err(why) = self.station.stop() {
            return Some(answer_of(why));
        }
        tell_on(
            &mut self.hand,
            &self.station,
            false,
            Happened::Took,
            true,
            outcomes,
        );
        self.hand.push(request);
        None
    }

    /// A command is to be sent. It takes no memory. Gives what it is told at once; where it is told nothing it is in hand from
    /// then on.
    fn ask_command(&mut self, dlci: Dlci, request: Request) -> Option<Answer>
        requires { MayTake self.old request (Ask.Command dlci (line_of request)) }
        ensures { AsksAlone self.old self.new request result }
    {
        if let Some(why) = refuses_command(&self.station, dlci) {
            return Some(why);
        }
        self.send(dlci, request);
        None
    }

    /// Any request, but for what it is told at once, which this gives.
    fn ask_any(&mut self, request: Request, outcomes: &mut VecDeque<Outcome>) -> Option<Answer>
        requires room { tells_others request.ask ≡ true → most_in_hand ≤ deque_capacity outcomes.old }
        ensures asked { Asked self.old self.new outcomes.old.items outcomes.new.items request result }
        ensures role { self.old.station.role ≡ Initiator }
        ensures room { most_in_hand ≤ deque_capacity outcomes.old → most_in_hand ≤ deque_capacity outcomes.new }
    {
        if self.lost {
            return Some(Answer::LineLost);
        }
        if self.hand.is_full() {
            return Some(Answer::Busy);
        }
        match &request.ask {
            Ask::OpenChannel(dlci) => {
                let dlci = *dlci;
                self.ask_open(dlci, request)
            }
            Ask::CloseChannel(dlci) => {
                let dlci = *dlci;
                self.ask_close(dlci, request, outcomes)
            }
            Ask::Command(dlci, _) => {
                let dlci = *dlci;
                self.ask_command(dlci, request)
            }
            Ask::Probe(octets) => {
                let echo = ProbeData::new(octets.octets()).unwrap();
                self.ask_probe(echo, request)
            }
            Ask::Stop => self.ask_stop(request, outcomes),
        }
    }

    /// Takes a request, which is told its outcome at once or is in hand from then on. What it asks for waits in the control
    /// queue, and what is told behind the outcomes that wait, so it takes no memory.
    pub(crate) fn ask(&mut self, request: Request, outcomes: &mut VecDeque<Outcome>)
        requires room { most_in_hand ≤ deque_capacity outcomes.old }
        ensures takes { Takes self.old self.new outcomes.old.items outcomes.new.items request }
        ensures n1 { self.new.station.n1 ≡ self.old.station.n1 }
        ensures role { self.old.station.role ≡ Initiator }
        ensures room { most_in_hand ≤ deque_capacity outcomes.new }
    {
        let caller = request.caller;
        let number = request.number;
        if let Some(answer) = self.ask_any(request, outcomes) {
            put_told(
                outcomes,
                Outcome {
                    caller,
                    number,
                    answer,
                },
            );
        }
    }
}

/// The text of a command and its CR.
#[tactic(auto, using(crate::proofs::requests::CommandRequests::short_line))]
fn octets_of(ask: &Ask) -> &[u8]
    ensures octets { result.now ≡ line_in ask.now ++ 13 ∷ [] }
    ensures short { length (line_in ask.now) ≤ 256 }
{
    match ask {
        Ask::Command(_, line) => {
            let _text = line.text();
            line.with_cr()
        }
        _ => b"\r",
    }
}

/// What a command is told at once by how its connection stands.
#[tactic(auto, using(crate::proofs::requests::CommandRequests::shown_refused))]
fn refuses_command(station: &Station, dlci: Dlci) -> Option<Answer>
    ensures { result ≡ refused_command station.now dlci.number }
{
    if dlci.number() == 0 {
        return Some(Answer::ControlChannel);
    }
    match station.state(dlci) {
        ChannelState::Opened => None,
        _ => Some(Answer::NotOpen),
    }
}

/// Offers a command's text and its CR.
#[tactic(auto, using(crate::proofs::requests::CommandRequests::offer_setting, crate::proofs::requests::CommandRequests::line_taken))]
pub(crate) fn offer_line(station: &mut Station, dlci: Dlci, line: &[u8])
    ensures setting { setting_of station.new ≡ setting_of station.old }
    ensures takes { TakesLine station.old station.new dlci.number line.now }
{
    let _ = station.offer(dlci, line);
}

/// The same, where no other command of the connection is in hand.
fn offer_first(hand: &Hand, station: &mut Station, dlci: Dlci, line: &[u8])
    ensures { OffersFirstCommand hand.now station.old station.new dlci.number line.now }
{
    if !has_command(hand, dlci) {
        offer_line(station, dlci, line);
    }
}
