//! A desk without a line, after a session has ended.
ghost use Rattle.std.specs.Prelude.{◌≡◌, ◌+◌, ◌<◌, ◌≤◌, ◌++◌, ◌∷◌, [], length, map, IfOk, IfErr};
ghost use Rattle.std.specs.VecDeque.{deque_capacity};
ghost use Rattle.modem_driver.specs.TurningAway.{line_lost, offline_from, PassSays, PassesAway, RefusesOne};

use crate::session::turn::Turn;
use modem_core::{IN_HAND, Waiting};
use modem_desk::{Answer, DriverEnd, Outcome, Request, Urc};
use std::alloc::{AllocError, Global};
use std::collections::VecDeque;
use std::marker::Model;
use std::sync::Wait;

/// What stands at a desk in the place of a session whose line is gone. It places the outcomes and the lines that still
/// wait, and tells LineLost to every request in hand and to each that is submitted from then on.
///
/// Contracts see the outcomes and the lines that wait for a place.
#[derive(Drop)]
pub struct Offline {
    waiting: Waiting,
}

impl Model for Offline {
    ghost use Rattle.modem_driver.specs.TurningAway.{Offline};

    ghost Value = { Offline };

    ghost view = { λ o. record { unplaced = o.waiting.outcomes; unannounced = o.waiting.lines } };
}

/// There was no memory, and what the session left is handed back as it was.
#[derive(Drop)]
pub struct OfflineRefused {
    pub in_hand: Vec<Request>,
    pub unplaced: Vec<Outcome>,
    pub unannounced: Vec<Urc>,
}

/// What a request is told where there is no line.
fn line_lost(request: &Request) -> Outcome
    ensures { result ≡ line_lost request.now }
{
    Outcome {
        caller: request.caller,
        number: request.number,
        answer: Answer::LineLost,
    }
}

/// Puts these behind the others, where there is room.
fn put_all<T: Drop>(queue: &mut VecDeque<T>, items: Vec<T>)
    requires { length queue.old.items + length items.items ≤ deque_capacity queue.old }
    ensures items { queue.new.items ≡ queue.old.items ++ items.items }
    ensures room { deque_capacity queue.new ≡ deque_capacity queue.old }
{
    for item in items {
        queue.push_back_reserved(item);
    }
}

/// Tells these LineLost, behind the others, where there is room.
fn lose_all(queue: &mut VecDeque<Outcome>, requests: Vec<Request>)
    requires { length queue.old.items + length requests.items ≤ deque_capacity queue.old }
    ensures items { queue.new.items ≡ queue.old.items ++ map line_lost requests.items }
    ensures room { deque_capacity queue.new ≡ deque_capacity queue.old }
{
    for request in requests {
        queue.push_back_reserved(line_lost(&request));
    }
}

/// Room for so many outcomes, or for 128, and for so many lines.
fn make_room(
    alloc: Global,
    outcomes: usize,
    lines: usize,
) -> Result<(VecDeque<Outcome>, VecDeque<Urc>), AllocError>
    ensures none { IfOk result (λ r. (r.0.items ≡ []) × (r.1.items ≡ [])) }
    ensures room { IfOk result (λ r. (outcomes ≤ deque_capacity r.0) × (lines ≤ deque_capacity r.1)) }
    ensures hand { IfOk result (λ r. 128 ≤ deque_capacity r.0) }
{
    let outcomes = VecDeque::with_capacity(alloc, outcomes.max(IN_HAND))?;
    let lines = VecDeque::with_capacity(alloc, lines)?;
    Ok((outcomes, lines))
}

/// The desk is asked for a request, where fewer than 128 outcomes wait. The LineLost of one that comes waits behind the
/// others. Whether one came.
fn refuse_one<R: Wait>(waiting: &mut Waiting, rt: &R, driver: &mut DriverEnd) -> bool
    ensures { RefusesOne waiting.old waiting.new driver.old driver.new result }
{
    if waiting.count() >= IN_HAND {
        return false;
    }
    let Some(request) = driver.next(rt) else {
        return false;
    };
    waiting.put_outcome(line_lost(&request));
    true
}

impl Offline {
    /// Takes the place of a session that left these: the requests in hand, the outcomes and the lines that wait, as
    /// `Session::finish` gives them. Each request in hand is told LineLost, behind the outcomes that wait. Refusal: no
    /// memory, which hands all back.
    pub fn new(
        alloc: Global,
        in_hand: Vec<Request>,
        unplaced: Vec<Outcome>,
        unannounced: Vec<Urc>,
    ) -> Result<Offline, OfflineRefused>
        ensures ok { IfOk result (λ o. o ≡ offline_from in_hand.items unplaced.items unannounced.items) }
        ensures back { IfErr result (λ e. (e.in_hand ≡ in_hand) × (e.unplaced ≡ unplaced)
            × (e.unannounced ≡ unannounced)) }
    {
        let count = unplaced.len() + in_hand.len();
        let Ok((mut outcomes, mut lines)) = make_room(alloc, count, unannounced.len()) else {
            return Err(OfflineRefused {
                in_hand,
                unplaced,
                unannounced,
            });
        };
        put_all(&mut outcomes, unplaced);
        lose_all(&mut outcomes, in_hand);
        put_all(&mut lines, unannounced);
        Ok(Offline {
            waiting: Waiting::of(outcomes, lines),
        })
    }

    /// What a pass answers by what still waits.
    fn answer(&self, moved: bool) -> Turn
        ensures { PassSays self.now moved result }
    {
        if moved {
            return Turn::Moved;
        }
        if let Some(caller) = self.waiting.least_caller() {
            return Turn::Waiting(caller);
        }
        match self.waiting.first_kind() {
            Some(kind) => Turn::Blocked(kind),
            None => Turn::Idle,
        }
    }

    /// Takes a request from the desk, unless 128 outcomes wait, and tells it LineLost. Offers the outcomes and the
    /// lines that wait to the desk, each in its order. Answers Moved where it took or placed anything; else what still
    /// waits, as a turn does: an outcome for this caller, a line of this kind, or nothing.
    pub fn turn_away<R: Wait>(&mut self, rt: &R, driver: &mut DriverEnd) -> Turn
        ensures { PassesAway self.old self.new driver.old driver.new result }
    {
        let took = refuse_one(&mut self.waiting, rt, driver);
        let told = self.waiting.place_outcomes(driver);
        let announced = self.waiting.place_lines(driver);
        self.answer(took | told | announced)
    }

    /// The outcomes and the lines that still wait, without taking memory.
    pub fn finish(self) -> (Vec<Outcome>, Vec<Urc>)
        ensures outcomes { result.0.items ≡ self.unplaced }
        ensures lines { result.1.items ≡ self.unannounced }
    {
        self.waiting.into_lists()
    }
}
