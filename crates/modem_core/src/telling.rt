//! Tells the requests in hand their outcomes.
ghost use Rattle.std.specs.Prelude.{◌≡◌, ◌≤◌, ◌<◌, ◌++◌, ◌∷◌, [], length, map, find, option_map};
ghost use Rattle.std.specs.VecDeque.{deque_capacity};
ghost use Rattle.modem_history.specs.Acts.{Told, act_of};
ghost use Rattle.modem_core.specs.Doing.{Adds, outcomes_to};
ghost use Rattle.modem_queues.specs.Stops.{asker_of, is_answered, is_stop};
ghost use Rattle.modem_core.specs.Telling.{why_shut, probe_happened, stop_outcome, told_by, told_to, left_by};
ghost use Rattle.modem_core.specs.Cores.{state_shown};

use modem_desk::{Answer, Ask, Outcome, Request};
use modem_queues::{Asker, Hand};
use mux_frame::Dlci;
use mux_station::{ChannelState, Noted, Station};
use std::collections::VecDeque;

/// What happened, as far as it decides what the requests in hand are told.
#[derive(Clone, Copy)]
pub enum Happened {
    Took,
    Got(Noted),
    /// A tick, and whether the probe that waited was given up at it.
    Tick(bool),
    Lost,
}

impl Happened {
    /// Why a connection is Shut now, where nothing else is the cause.
    fn why_shut(self, ended: bool, why: Answer) -> Answer
        ensures { result ≡ why_shut self ended why }
    {
        match self {
            Happened::Lost => Answer::LineLost,
            Happened::Tick(_) if !ended => Answer::NoAnswer,
            _ if ended => Answer::Closed,
            _ => why,
        }
    }

    /// What a probe that waits is told while 0 is Opened.
    fn probe_told(self) -> Option<Answer>
        ensures { result ≡ probe_happened self }
    {
        match self {
            Happened::Got(Noted::ProbeBack) => Some(Answer::ProbeBack),
            Happened::Got(Noted::ProbeRefused) => Some(Answer::Refused),
            Happened::Tick(true) => Some(Answer::NoAnswer),
            _ => None,
        }
    }

    fn stop_ended(self) -> Answer
        ensures { result ≡ stop_outcome self }
    {
        match self {
            Happened::Lost => Answer::LineLost,
            Happened::Tick(_) => Answer::NoAnswer,
            _ => Answer::Stopped,
        }
    }
}

/// How a connection stands: all are Shut once the line is lost.
pub(crate) fn state_of(station: &Station, lost: bool, dlci: Dlci) -> ChannelState
    ensures { result ≡ state_shown station.now lost dlci.number }
{
    if lost {
        return ChannelState::Shut;
    }
    station.state(dlci)
}

/// The outcome that a request in hand is told now, if any. `ended` says whether connection 0 was Opened before and
/// isn't any more.
pub(crate) fn told_by(
    station: &Station,
    lost: bool,
    happened: Happened,
    ended: bool,
    ask: &Ask,
) -> Option<Answer>
    ensures { result ≡ told_by happened ended (λ d. state_shown station.now lost d) ask.now }
{
    match ask {
        Ask::OpenChannel(dlci) => match state_of(station, lost, *dlci) {
            ChannelState::Opened => Some(Answer::Opened),
            ChannelState::Opening => None,
            _ => Some(happened.why_shut(ended, Answer::Refused)),
        },
        Ask::CloseChannel(dlci) => match state_of(station, lost, *dlci) {
            ChannelState::Closing => None,
            _ => Some(happened.why_shut(ended, Answer::Shut)),
        },
        Ask::Command(dlci, _) => match state_of(station, lost, *dlci) {
            ChannelState::Opened => None,
            _ => Some(happened.why_shut(ended, Answer::Closed)),
        },
        Ask::Probe(_) => match state_of(station, lost, Dlci { number: 0 }) {
            ChannelState::Opened => happened.probe_told(),
            _ => Some(happened.why_shut(ended, Answer::Closed)),
        },
        Ask::Stop => match state_of(station, lost, Dlci { number: 0 }) {
            ChannelState::Stopping => None,
            _ => Some(happened.stop_ended()),
        },
    }
}

/// Whether the outcome tells this one, whose Stop is in hand, that it has ended.
fn ends_for(stop: Option<Asker>, outcome: &Outcome) -> bool
    ensures { result ≡ is_answered stop (Told outcome.now ∷ []) }
{
    match stop {
        Some(stop) => {
            stop.caller == outcome.caller
                && stop.number == outcome.number
                && matches!(outcome.answer, Answer::Stopped | Answer::NoAnswer)
        }
        None => false,
    }
}

#[inline(always)]
/// Puts an outcome behind those that wait, where those are fewer than 128.
pub(crate) fn put_told(told: &mut VecDeque<Outcome>, outcome: Outcome)
    requires { 128 ≤ deque_capacity told.old }
    ensures put { length told.old.items < 128 → told.new.items ≡ told.old.items ++ outcome ∷ [] }
    ensures room { 128 ≤ deque_capacity told.new }
{
    let _ = told.push_back(outcome);
}

/// The outcome of a request that is in hand no more.
fn outcome_of(request: Request, answer: Answer) -> Outcome
    ensures { result ≡ record { caller = request.caller; number = request.number; answer = answer } }
{
    Outcome {
        caller: request.caller,
        number: request.number,
        answer,
    }
}

/// Tells each request in hand what it is told by now, in the order taken. The others stay. The outcomes are put behind
/// those that wait, which takes no memory. Says whether the Stop that was in hand has ended by it.
#[tactic(auto, using(crate::proofs::requests::ToldOutcomes::begins_on, crate::proofs::requests::ToldOutcomes::waits_further, crate::proofs::requests::ToldOutcomes::told_further))]
pub(crate) fn tell_on(
    hand: &mut Hand,
    station: &Station,
    lost: bool,
    happened: Happened,
    ended: bool,
    told: &mut VecDeque<Outcome>,
) -> bool
    requires { 128 ≤ deque_capacity told.old }
    ensures hand { hand.new
        ≡ left_by (told_by happened ended (λ d. state_shown station.now lost d)) hand.old }
    ensures adds { Adds told.old.items told.new.items
        (outcomes_to (told_by happened ended (λ d. state_shown station.now lost d)) hand.old) }
    ensures answered { result ≡ is_answered (option_map asker_of (find is_stop hand.old))
        (map act_of (told_to (told_by happened ended (λ d. state_shown station.now lost d)) hand.old)) }
    ensures room { 128 ≤ deque_capacity told.new }
{
    let stop = hand.stop();
    let mut answered = false;
    let mut place = 0;
    while place < hand.len() {
        match told_by(station, lost, happened, ended, &hand.as_slice()[place].ask) {
            Some(answer) => {
                let outcome = outcome_of(hand.remove(place), answer);
                answered |= ends_for(stop, &outcome);
                put_told(told, outcome);
            }
            None => place += 1,
        }
    }
    answered
}
