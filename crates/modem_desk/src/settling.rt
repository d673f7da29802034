//! How a desk is settled. A pass of the queue knows only its own view. So each caller's pass comes back and puts its
//! number and list into the driver's view; then the last pop, which finds nothing, shows that nothing else waits. A pop
//! also records how much waits.
ghost use Rattle.std.specs.Prelude.{◌≡◌, ◌+◌, ◌≤◌, ◌<◌, [], ◌∷◌, ◌++◌, length, map, true, false, vec_capacity, vec_len, vec_items, slice_index_or, IfOk, IfErr, ℕ, All};
ghost use mathlib.Core.Option.{some};
ghost use lib.ListN.{get_elem?};
ghost use Rattle.rtrb.specs.Ring.{sent, received, IsPair, consumer_capacity};
ghost use Rattle.crossbeam_queue.specs.Passes.{view, IsPassOf, IsSamePass};
ghost use Rattle.modem_desk.specs.Ends.{place_of, subscription_of, Each, IsNumbered, IsWhole, AreSubscribed};
ghost use Rattle.ring_id.specs.Rings.{ring_of_producer, ring_of_consumer};
ghost use Rattle.modem_desk.specs.Books.{DeskBooks};
ghost use Rattle.modem_desk.specs.Settling.{AreRooms, AreWhole, AreListenersAt, HeldFor, HeardBy, IsRoomFor, known_of};
ghost use Rattle.modem_desk.specs.Rule.{driver, known, of_caller, AllLeft};
ghost use Rattle.modem_desk.specs.declared.rule.Known.{Known};
ghost use Rattle.modem_desk.specs.declared.error.DeskError.TheVariants.{NoMemory};

use crate::caller::{Caller, QUEUED, Queue, WAITING};
use crate::driver::DriverEnd;
use crate::error::DeskError;
use crate::listener::{LINES, Listener};
use crate::request::{Outcome, Request, Urc};
use crate::rule::{Drains, Leaves, View};
use crossbeam_queue::Pass;
use rtrb::{Consumer, Producer};
use std::alloc::{AllocError, Global};
use std::sync::Wait;

/// What a desk still held when it was settled.
#[derive(Drop)]
pub struct Settled {
    /// The requests that were still queued: of each caller in the order in which it submitted them.
    pub left: Vec<Request>,
    /// For each caller, in the order handed in, the outcomes that waited for it.
    pub untaken: Vec<Vec<Outcome>>,
    /// For each listener, in the order handed in, the lines that waited for it.
    pub unheard: Vec<Vec<Urc>>,
}

/// All ends of a desk that couldn't be settled, as they were.
#[derive(Drop)]
pub struct SettleRefused {
    /// It is always NoMemory.
    pub why: DeskError,
    pub driver: DriverEnd,
    pub callers: Vec<Caller>,
    pub listeners: Vec<Listener>,
}

// Takes all that waits in a ring, both ends of which are here.
fn empty_ring<T: Drop>(producer: &mut Producer<T>, mut consumer: Consumer<T>, into: &mut Vec<T>)
    requires ring { IsPair producer.old consumer }
    requires room { (into.old.items ≡ []) × (consumer_capacity consumer ≤ vec_capacity into.old) }
    ensures ring { (ring_of_producer producer.new ≡ ring_of_producer producer.old)
        × (sent producer.new ≡ sent producer.old) }
    ensures all { received consumer ++ into.new.items ≡ sent producer.old }
{
    let count = consumer.slots_beside(producer);
    for _ in 0..count {
        let item = consumer.pop_known();
        into.push(item).unwrap();
    }
}

// Takes a caller back: its pass, and the outcomes that wait for it.
fn leave(
    queue: &Queue,
    pass: &mut Pass<Request, View>,
    rings: &mut Vec<Producer<Outcome>>,
    caller: Caller,
    into: &mut Vec<Outcome>,
)
    requires pass { IsPassOf queue.now pass.old × ((view pass.old).drives ≡ true)
        × ((view pass.old).counted ≡ false) }
    requires place { (caller.place.queue ≡ pass.old.table_id)
        × (get_elem? (map ring_of_producer rings.old.items) caller.place.number ≡ some caller.place.ring) }
    requires room { (into.old.items ≡ []) × (8 ≤ vec_capacity into.old) }
    ensures pass { IsSamePass pass.old pass.new
        × (view pass.new ≡ driver (view pass.old).given (view pass.old).taken ((view pass.old).known
        ++ known caller.place.number caller.submitted ∷ [])) }
    ensures rings { (map ring_of_producer rings.new.items ≡ map ring_of_producer rings.old.items)
        × (map sent rings.new.items ≡ map sent rings.old.items) }
    ensures outcomes { caller.got
        ++ into.new.items ≡ slice_index_or (map sent rings.old.items) caller.place.number [] }
    ensures numbered { IsNumbered caller.place.first caller.submitted }
{
    let (theirs, outcomes, number) = caller.into_parts();
    let ring = &mut rings[number as usize];
    empty_ring(ring, outcomes, into);
    queue.absorb::<Leaves>(pass, theirs);
}

// Takes a listener back: its ring is drained of the lines that wait.
fn drain_listener(lines: &mut Vec<Producer<Urc>>, listener: Listener, into: &mut Vec<Urc>)
    requires place { get_elem? (map ring_of_producer lines.old.items) listener.subscription.place
        ≡ some listener.subscription.ring }
    requires room { (into.old.items ≡ []) × (256 ≤ vec_capacity into.old) }
    ensures rings { (map ring_of_producer lines.new.items ≡ map ring_of_producer lines.old.items)
        × (map sent lines.new.items ≡ map sent lines.old.items) }
    ensures lines { listener.heard
        ++ into.new.items ≡ slice_index_or (map sent lines.old.items) listener.subscription.place [] }
{
    let (theirs, place) = listener.into_parts();
    let ring = &mut lines[place];
    empty_ring(ring, theirs, into);
}

// Takes all that waits in the queue, once every caller has left.
fn drain<R: Wait>(rt: &R, queue: &Queue, pass: &mut Pass<Request, View>, left: &mut Vec<Request>)
    requires pass { IsPassOf queue.now pass.old × ((view pass.old).drives ≡ true)
        × ((view pass.old).counted ≡ false) × AllLeft (view pass.old) }
    requires room { (left.old.items ≡ []) × (64 ≤ vec_capacity left.old) }
    ensures order { (i : ℕ) (k : Known) → get_elem? (view pass.old).known i ≡ some k
        → of_caller k.number ((view pass.old).taken ++ left.new.items) ≡ k.submitted }
    ensures of_callers { All (λ r. r.caller < (view pass.old).given) left.new.items }
{
    for _ in rt.forever() {
        match queue.pop_as::<Drains, R>(rt, pass) {
            Some(request) => left.push(request).unwrap(),
            None => return,
        }
    }
}

// Memory for what may wait in some rings: an empty list for each, and room for those that are filled.
#[derive(Drop)]
struct Buffers<T> {
    empty: Vec<Vec<T>>,
    filled: Vec<Vec<T>>,
}

fn make_buffers<T: Drop>(alloc: Global, rings: usize, each: usize) -> Result<Buffers<T>, AllocError>
    ensures { IfOk result (λ s. AreRooms rings each s.empty.items × (s.filled.items ≡ [])
        × (rings ≤ vec_capacity s.filled)) }
{
    let filled = Vec::with_capacity(alloc, rings)?;
    let mut empty = Vec::with_capacity(alloc, rings)?;
    for _ in 0..rings {
        empty.push(Vec::with_capacity(alloc, each)?)?;
    }
    Ok(Buffers { empty, filled })
}

// The next of the empty lists.
fn next_room<T: Drop>(empty: &mut Vec<Vec<T>>) -> Vec<T>
    ghost each: { ℕ }
    requires { (0 < length empty.old.items) × All (λ v. (v.items ≡ [])
        × (each ≤ vec_capacity v)) empty.old.items }
    ensures room { (result.items ≡ []) × (each ≤ vec_capacity result) }
    ensures empty { (length empty.new.items + 1 ≡ length empty.old.items) × All (λ v. (v.items ≡ [])
        × (each ≤ vec_capacity v)) empty.new.items }
{
    empty.pop().unwrap()
}

// A filled list, where there is room for it.
fn put_away<T: Drop>(filled: &mut Vec<Vec<T>>, waiting: Vec<T>)
    requires { length filled.old.items < vec_capacity filled.old }
    ensures items { filled.new.items ≡ filled.old.items ++ waiting ∷ [] }
    ensures room { vec_capacity filled.old ≤ vec_capacity filled.new }
{
    filled.push(waiting).unwrap();
}

// Takes every caller back.
fn gather_outcomes(
    queue: &Queue,
    pass: &mut Pass<Request, View>,
    mut rings: Vec<Producer<Outcome>>,
    callers: Vec<Caller>,
    buffers: Buffers<Outcome>,
) -> Vec<Vec<Outcome>>
    requires pass { IsPassOf queue.now pass.old
        × (view pass.old ≡ driver (view pass.old).given (view pass.old).taken []) }
    requires places { Each (λ _ c. (c.place.queue ≡ pass.old.table_id)
        × (get_elem? (map ring_of_producer rings.items) c.place.number ≡ some c.place.ring)) callers.items }
    requires room { AreRooms (length callers.items) 8 buffers.empty.items × (buffers.filled.items ≡ [])
        × (length callers.items ≤ vec_capacity buffers.filled) }
    ensures pass { IsPassOf queue.now pass.new
        × (view pass.new ≡ driver (view pass.old).given (view pass.old).taken (map known_of callers.items)) }
    ensures outcomes { (length result.items ≡ length callers.items)
        × HeldFor (map sent rings.items) callers.items
        (map vec_items result.items) }
    ensures numbered { Each (λ _ c. IsNumbered c.place.first c.submitted) callers.items }
{
    let Buffers {
        mut empty,
        mut filled,
    } = buffers;
    for caller in callers {
        let mut waiting = next_room(&mut empty);
        leave(queue, pass, &mut rings, caller, &mut waiting);
        put_away(&mut filled, waiting);
    }
    filled
}

// Takes every listener back.
fn gather_lines(
    mut lines: Vec<Producer<Urc>>,
    listeners: Vec<Listener>,
    buffers: Buffers<Urc>,
) -> Vec<Vec<Urc>>
    requires places { Each
        (λ _ l. get_elem? (map ring_of_producer lines.items) l.subscription.place ≡ some l.subscription.ring)
        listeners.items }
    requires room { AreRooms (length listeners.items) 256 buffers.empty.items × (buffers.filled.items ≡ [])
        × (length listeners.items ≤ vec_capacity buffers.filled) }
    ensures { (length result.items ≡ length listeners.items)
        × HeardBy (map sent lines.items) listeners.items (map vec_items result.items) }
{
    let Buffers {
        mut empty,
        mut filled,
    } = buffers;
    for listener in listeners {
        let mut waiting = next_room(&mut empty);
        drain_listener(&mut lines, listener, &mut waiting);
        put_away(&mut filled, waiting);
    }
    filled
}

// All the memory that a settlement needs.
#[derive(Drop)]
struct Room {
    left: Vec<Request>,
    outcomes: Buffers<Outcome>,
    lines: Buffers<Urc>,
}

fn make_room(alloc: Global, callers: usize, listeners: usize) -> Result<Room, AllocError>
    ensures { IfOk result (λ r. IsRoomFor callers listeners r) }
{
    let left = Vec::with_capacity(alloc, QUEUED)?;
    let outcomes = make_buffers(alloc, callers, WAITING)?;
    let lines = make_buffers(alloc, listeners, LINES)?;
    Ok(Room {
        left,
        outcomes,
        lines,
    })
}

// Takes every end back, and what each still held.
fn gather<R: Wait>(
    rt: &R,
    driver: DriverEnd,
    callers: Vec<Caller>,
    listeners: Vec<Listener>,
    room: Room,
) -> Settled
    requires whole { AreWhole driver.desk (length driver.desk.rings) callers.items
        × AreListenersAt driver.desk listeners.items }
    requires room { IsRoomFor (length callers.items) (length listeners.items) room }
    ensures { DeskBooks driver callers.items listeners.items result.left.items
        (map vec_items result.untaken.items) (map vec_items result.unheard.items) }
{
    let Room {
        mut left,
        outcomes,
        lines,
    } = room;
    let (queue, mut pass, rings, line_rings) = driver.into_parts();
    let untaken = gather_outcomes(&queue, &mut pass, rings, callers, outcomes);
    let unheard = gather_lines(line_rings, listeners, lines);
    drain(rt, &queue, &mut pass, &mut left);
    Settled {
        left,
        untaken,
        unheard,
    }
}

/// Ends a desk. Takes back the driver's end, each of its callers once and any of its listeners, and gives what was still queued and what
/// still waited.
///
/// Refused only where memory is. It then hands all ends back as they were, since it takes its memory before anything else.
pub fn settle<R: Wait>(
    rt: &R,
    alloc: Global,
    driver: DriverEnd,
    callers: Vec<Caller>,
    listeners: Vec<Listener>,
) -> Result<Settled, SettleRefused>
    requires callers { IsWhole driver.desk (map place_of callers.items) }
    requires listeners { AreSubscribed driver.desk (map subscription_of listeners.items) }
    ensures books { IfOk result (λ s. DeskBooks driver callers.items listeners.items s.left.items
        (map vec_items s.untaken.items) (map vec_items s.unheard.items)) }
    ensures refused { IfErr result (λ e. (e.why ≡ NoMemory) × (e.driver ≡ driver) × (e.callers ≡ callers)
        × (e.listeners ≡ listeners)) }
{
    let Ok(room) = make_room(alloc, callers.len(), listeners.len()) else {
        return Err(SettleRefused {
            why: DeskError::NoMemory,
            driver,
            callers,
            listeners,
        });
    };
    Ok(gather(rt, driver, callers, listeners, room))
}
