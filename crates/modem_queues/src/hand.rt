//! The requests in hand.
ghost use Rattle.std.specs.Prelude.{◌≡◌, ◌≤◌, ◌<◌, ◌+◌, ◌++◌, ◌∷◌, [], false, length, find, map, drop, option_map, position, remove, slice_index_or, take, IfOk, IfSome, nat_le, vec_capacity, vec_len};
ghost use Rattle.std.specs.List.{list_any};
ghost use Rattle.std.specs.Option.{option_copied};
ghost use Rattle.modem_history.specs.Limits.{most_in_hand};
ghost use Rattle.modem_history.specs.Calls.{first_on};
ghost use Rattle.modem_history.specs.Information.{line_of};
ghost use Rattle.modem_history.specs.Requests.{commands_on, without_first};
ghost use Rattle.modem_queues.specs.Stops.{asker_of, is_stop};
ghost use Rattle.modem_queues.specs.Hands.{text_or};
ghost use Rattle.modem_queues.specs.Hands.{moved_up};

use crate::asker::Asker;
use at_text::CommandLine;
use modem_desk::{Ask, Request};
use mux_frame::Dlci;
use std::alloc::{AllocError, Global};
use std::marker::Model;
use std::mem;

/// How many requests may be in hand.
pub const IN_HAND: usize = 128;

/// There is room for them and for 64 places that requests have left at the front.
const ROOM: usize = 192;

/// As many as there are connections, in a whole number of vectors of 16.
const STARTS: usize = 64;

/// At most 128 requests that wait for their outcome, in the order taken. Their room is taken when it
/// is made. For each connection a place is noted before which none of its commands stands, so that its first is found
/// without a look at all; and whether there may be a Stop.
#[derive(Drop)]
pub struct Hand {
    /// Where the first ones have left, something else stands.
    requests: Vec<Request>,
    /// How many of the first ones have left.
    gone: usize,
    starts: [u8; STARTS],
    may_stop: bool,
}

impl Model for Hand {
    ghost use Rattle.std.specs.Prelude.{List, drop};
    ghost use Rattle.modem_desk.specs.declared.request.Request.{Request};
    ghost use Rattle.modem_queues.specs.Hands.{HandIsKept};

    ghost Value = { List Request };

    ghost view = { λ h. drop h.gone h.requests.items };

    ghost invariant = { λ h. HandIsKept h.requests h.gone h.starts h.may_stop };
}

/// Whether it is a Stop.
fn is_stop(request: &Request) -> bool
    ensures { result ≡ is_stop request.now }
{
    matches!(request.ask, Ask::Stop)
}

impl Hand {
    /// No requests.
    pub fn new(alloc: Global) -> Result<Hand, AllocError>
        ensures { IfOk result (λ h. h ≡ []) }
    {
        let requests = Vec::with_capacity(alloc, ROOM)?;
        Ok(Hand {
            requests,
            gone: 0,
            starts: [0; STARTS],
            may_stop: false,
        })
    }

    /// How many there are.
    pub fn len(&self) -> usize
        ensures value { result ≡ length self.now }
        ensures few { result ≤ most_in_hand }
    {
        self.requests.len() - self.gone
    }

    /// Whether there are as many as may be.
    pub fn is_full(&self) -> bool
        ensures { result ≡ nat_le most_in_hand (length self.now) }
    {
        self.len() >= IN_HAND
    }

    /// How many more there may be.
    pub fn left(&self) -> usize
        ensures { result + length self.now ≡ most_in_hand }
    {
        IN_HAND - self.len()
    }

    /// The requests, lent.
    pub fn as_slice(&self) -> &[Request]
        ensures { result.now ≡ self.now }
    {
        let (_, there) = self.requests.as_slice().split_at(self.gone);
        there
    }

    /// The asker of the Stop among them, if there is one: at most one waits.
    pub fn stop(&self) -> Option<Asker>
        ensures { result ≡ option_map asker_of (find is_stop self.now) }
    {
        if !self.may_stop {
            return None;
        }
        let request = self.as_slice().iter().find(|request| is_stop(request))?;
        Some(Asker {
            caller: request.caller,
            number: request.number,
        })
    }

    /// Puts a request at the end.
    pub fn push(&mut self, request: Request)
        requires { length self.old < most_in_hand }
        ensures { self.new ≡ self.old ++ request ∷ [] }
    {
        self.note_before(&request);
        self.may_stop |= is_stop(&request);
        make_place(&mut self.requests, &mut self.gone);
        self.requests.push(request).unwrap();
    }

    /// Takes the request at a place out.
    pub fn remove(&mut self, place: usize) -> Request
        requires { place < length self.old }
        ensures value { result ≡ slice_index_or self.old place result }
        ensures items { self.new ≡ remove self.old place }
        ensures len { length self.new + 1 ≡ length self.old }
    {
        let len = self.len();
        move_up(&mut self.starts, place as u8);
        if place > len / 2 {
            return self.requests.remove(self.gone + place);
        }
        let first = self.gone;
        bring_first(&mut self.requests, first, place);
        self.gone += 1;
        mem::replace(&mut self.requests[first], left())
    }

    /// The requests, without taking memory, with room for 128.
    pub fn into_vec(self) -> Vec<Request>
        ensures items { result.items ≡ self }
        ensures room { most_in_hand ≤ vec_capacity result }
    {
        let Hand {
            mut requests,
            mut gone,
            ..
        } = self;
        close_up(&mut requests, &mut gone);
        requests
    }
}

/// What stands where a request has left.
fn left() -> Request {
    Request {
        caller: 0,
        number: 0,
        ask: Ask::Stop,
    }
}

/// The first ones, which have left, go from the list.
fn close_up(requests: &mut Vec<Request>, gone: &mut usize)
    requires { gone.old ≤ vec_len requests.old }
    ensures items { requests.new.items ≡ drop gone.old requests.old.items }
    ensures many { vec_len requests.new + gone.old ≡ vec_len requests.old }
    ensures gone { gone.new ≡ 0 }
    ensures room { vec_capacity requests.new ≡ vec_capacity requests.old }
{
    requests.drain(..*gone);
    *gone = 0;
}

#[inline(never)]
/// The one at a place comes before those that stand before it.
#[tactic(auto, using(crate::proofs::lists::CommandPlaces::brought_front))]
fn bring_front(requests: &mut [Request], place: usize)
    requires { place < length requests.old }
    ensures len { length requests.new ≡ length requests.old }
    ensures front { (other : Request) → requests.new ≡ slice_index_or requests.old place other ∷ remove requests.old place }
{
    let (front, _) = requests.split_at_mut(place + 1);
    front.rotate_right(1);
}

#[inline(always)]
/// The same behind the first ones, which have left.
#[tactic(auto, using(crate::proofs::lists::CommandPlaces::is_in_front))]
fn bring_first(requests: &mut Vec<Request>, gone: usize, place: usize)
    requires { gone + place < vec_len requests.old }
    ensures len { vec_len requests.new ≡ vec_len requests.old }
    ensures front { (other : Request) → drop gone requests.new.items
        ≡ slice_index_or (drop gone requests.old.items) place other ∷ remove (drop gone requests.old.items) place }
    ensures room { vec_capacity requests.new ≡ vec_capacity requests.old }
{
    if place == 0 {
        return;
    }
    let (_, there) = requests.as_mut_slice().split_at_mut(gone);
    bring_front(there, place);
}

/// Makes a place for one more where there is none, since the first ones have left.
fn make_place(requests: &mut Vec<Request>, gone: &mut usize)
    requires { gone.old ≤ vec_len requests.old }
    ensures items { drop gone.new requests.new.items ≡ drop gone.old requests.old.items }
    ensures many { vec_len requests.new + gone.old ≡ vec_len requests.old + gone.new }
    ensures within { gone.new ≤ vec_len requests.new }
    ensures place { vec_len requests.old < gone.old + most_in_hand → vec_len requests.old ≤ 192 → vec_len requests.new < 192 }
    ensures room { vec_capacity requests.new ≡ vec_capacity requests.old }
{
    if requests.len() < ROOM {
        return;
    }
    close_up(requests, gone);
}

/// It is a command on this connection.
fn is_command(request: &Request, dlci: Dlci) -> bool
    ensures { result ≡ commands_on dlci.number request.now }
{
    match &request.ask {
        Ask::Command(on, _) => on.number() == dlci.number(),
        _ => false,
    }
}

/// A place, once the request at `place` is taken out.
fn moved_up(start: u8, place: u8) -> u8
    ensures { result ≡ moved_up place start }
{
    start - u8::from(start > place)
}

/// The places, once the request at `place` is taken out.
fn move_up(starts: &mut [u8], place: u8)
    ensures { starts.new ≡ map (moved_up place) starts.old }
{
    for start in starts.iter_mut() {
        *start = moved_up(*start, place);
    }
}

/// The place of the first command on this connection. The condition is that none stands before `start`.
fn command_from(requests: &[Request], start: usize, dlci: Dlci) -> Option<usize>
    requires none { list_any (commands_on dlci.number) (take start requests.now) ≡ false }
    requires within { start ≤ length requests.now }
    ensures place { result ≡ position (commands_on dlci.number) requests.now }
    ensures few { IfSome result (λ place. place < length requests.now) }
{
    for place in start..requests.len() {
        if is_command(&requests[place], dlci) {
            return Some(place);
        }
    }
    None
}

impl Hand {
    /// A place before which no command on this connection stands.
    fn start(&self, dlci: Dlci) -> usize
        ensures within { result ≤ length self.now }
        ensures none { list_any (commands_on dlci.number) (take result self.now) ≡ false }
    {
        usize::from(self.starts[usize::from(dlci.number())])
    }

    /// The requests from such a place on.
    #[tactic(auto, using(crate::proofs::lists::FirstPlaces::first_dropped, crate::proofs::lists::FirstPlaces::any_dropped))]
    pub fn from_first(&self, dlci: Dlci) -> &[Request]
        ensures first { first_on dlci.number result.now ≡ first_on dlci.number self.now }
        ensures any { list_any (commands_on dlci.number) result.now ≡ list_any (commands_on dlci.number) self.now }
    {
        let (_, back) = self.as_slice().split_at(self.start(dlci));
        back
    }

    /// The place of the first command on this connection.
    fn command_at(&self, dlci: Dlci) -> Option<usize>
        ensures place { result ≡ position (commands_on dlci.number) self.now }
        ensures few { IfSome result (λ place. place < length self.now) }
    {
        command_from(self.as_slice(), self.start(dlci), dlci)
    }

    /// Notes where the first command on this connection stands, or that there is none.
    fn note_first(&mut self, dlci: Dlci)
        ensures { self.new ≡ self.old }
    {
        let place = self.command_at(dlci).unwrap_or(self.len());
        self.starts[usize::from(dlci.number())] = place as u8;
    }

    /// The same for the connection of a command that is to come.
    fn note_before(&mut self, request: &Request)
        ensures { self.new ≡ self.old }
    {
        if let Ask::Command(dlci, _) = &request.ask {
            self.note_first(*dlci);
        }
    }
}

/// The first command on a connection, if there is one: who asked for it, and its text.
#[derive(Clone, Copy)]
pub struct FirstCommand<'a> {
    pub owner: Option<Asker>,
    pub line: Option<&'a CommandLine>,
}

/// The first command on this connection.
pub fn first_command(hand: &[Request], dlci: Dlci) -> FirstCommand<'_>
    ensures owner { result.owner ≡ option_map asker_of (first_on dlci.number hand.now) }
    ensures line { option_copied result.line ≡ option_map line_of (first_on dlci.number hand.now) }
{
    for request in hand {
        if let Ask::Command(on, line) = &request.ask {
            if on.number() == dlci.number() {
                return FirstCommand {
                    owner: Some(Asker {
                        caller: request.caller,
                        number: request.number,
                    }),
                    line: Some(line),
                };
            }
        }
    }
    FirstCommand {
        owner: None,
        line: None,
    }
}

/// Who asked for the first command on this connection.
pub fn first_asker(hand: &[Request], dlci: Dlci) -> Option<Asker>
    ensures { result ≡ option_map asker_of (first_on dlci.number hand.now) }
{
    first_command(hand, dlci).owner
}

/// The text of the command, or nothing.
pub fn text_of(line: Option<&CommandLine>) -> &[u8]
    ensures { result.now ≡ text_or (option_copied line.entry) }
{
    match line {
        Some(line) => line.text(),
        None => &[],
    }
}

/// Whether one of them is a command on this connection.
fn any_command(requests: &[Request], dlci: Dlci) -> bool
    ensures { result ≡ list_any (commands_on dlci.number) requests.now }
{
    requests.iter().any(|request| is_command(request, dlci))
}

/// Whether a command on this connection is in hand.
pub fn has_command(hand: &Hand, dlci: Dlci) -> bool
    ensures { result ≡ list_any (commands_on dlci.number) hand.now }
{
    any_command(hand.from_first(dlci), dlci)
}

/// Takes the first command on this connection out.
#[tactic(auto, using(crate::proofs::lists::FirstLeftOut::left_at, crate::proofs::lists::FirstLeftOut::none_left))]
pub fn remove_command(hand: &mut Hand, dlci: Dlci)
    ensures { hand.new ≡ without_first (commands_on dlci.number) hand.old }
{
    if let Some(place) = hand.command_at(dlci) {
        hand.remove(place);
        hand.note_first(dlci);
    }
}
