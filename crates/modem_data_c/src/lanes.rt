//! Lanes, and their data.
ghost use Rattle.std.specs.Prelude.{◌≡◌, ◌≢◌, ◌⊎◌, ◌↔◌, ◌<◌, ◌≤◌, ◌-◌, Bool, length, take, drop, min, true, false, IfSome, None};
ghost use Rattle.mux_station.specs.Opening.{is_open};
ghost use Rattle.modem_data.specs.Switching.{Idle as idle, is_idle, takes_given};
ghost use Rattle.modem_data.specs.DataLanes.{most_to_go};
ghost use Rattle.modem_data.specs.Passing.{Began, EndedLane, Gave, Read, Lost, IsOver, carries, data_came, data_read, given, left, to_go, unread, wire};
ghost use Rattle.modem_data.specs.PipeSets.{HasPipe, IsNotData, OfEachPast};
ghost use Rattle.modem_data.specs.Hops.{Hops, Passed};
ghost use Rattle.modem_data_c.specs.DataCalls.{Becomes, BeginsBy, Keeps, begin_number, relay_of, until_number};

use crate::held_data::CimbalotyData;
use crate::numbers::{
    BAD_BEGIN, BAD_DLCI, LINES, NO_RELAY, NOT_DATA, NOT_OPEN, OK, UNDER_WAY, UNREAD,
};
use modem_data::{Begin, Relay, Until};
use mux_frame::Dlci;
use std::alloc::Global;

/// How a lane begins, by its number.
fn begin_of(how: u8) -> Option<Begin>
    ensures known { IfSome result (λ b. how ≡ begin_number b) }
    ensures few { IfSome result (λ b. how ≤ 2) }
    ensures unknown { result ≡ None → 2 < how }
{
    match how {
        0 => Some(Begin::AtOnce),
        1 => Some(Begin::ByConnect),
        2 => Some(Begin::ByPrompt),
        _ => None,
    }
}

/// Until when a lane lasts, by its number.
fn until_of(until: u8) -> Option<Until>
    ensures known { IfSome result (λ u. until ≡ until_number u) }
    ensures unknown { result ≡ None → 1 < until }
{
    match until {
        0 => Some(Until::Close),
        1 => Some(Until::CarrierLoss),
        _ => None,
    }
}

/// Begins a lane of a connection.
fn begin(relay: &mut Relay, dlci: u8, how: Begin, until: Until) -> u8
    ensures ok { result ≡ OK → Hops relay.old relay.new (Passed (Began dlci how until)) }
    ensures bad { (result ≡ BAD_DLCI) ↔ (61 < dlci) }
    ensures not_data { result ≡ NOT_DATA → IsNotData relay.old.pipes dlci }
    ensures under_way { result ≡ UNDER_WAY → OfEachPast relay.old.pipes (λ role past. is_idle (carries role dlci past) ≡ false) }
    ensures unread { result ≡ UNREAD → OfEachPast relay.old.pipes (λ role past.
        (carries role dlci past ≡ idle) × (data_read dlci past ≢ data_came role dlci past)) }
    ensures refused { result ≢ OK → relay.new ≡ relay.old }
    ensures others { result ≢ OK → result ≢ BAD_DLCI → result ≢ NOT_DATA → result ≢ UNDER_WAY → result ≡ UNREAD }
{
    let Some(dlci) = Dlci::new(dlci) else {
        return BAD_DLCI;
    };
    match relay.begin(dlci, how, until) {
        Ok(()) => OK,
        Err(why) => why.number(),
    }
}

/// Begins a lane: 0 at once, 1 by a CONNECT line, 2 by a prompt; until 0 its opening ends, 1 the carrier is lost too.
#[unsafe(no_mangle)]
pub extern "C" fn cimbaloty_data_begin(
    alloc: Global,
    d: &mut CimbalotyData,
    dlci: u8,
    how: u8,
    until: u8,
) -> u8
    ensures ok { result ≡ OK → BeginsBy how until (λ b u. Becomes d.old d.new (λ r s. Hops r s (Passed (Began dlci b u)))) }
    ensures bad_begin { (result ≡ BAD_BEGIN) ↔ ((2 < how) ⊎ (1 < until)) }
    ensures bad { how ≤ 2 → until ≤ 1 → relay_of d.old ≢ None → ((result ≡ BAD_DLCI) ↔ (61 < dlci)) }
    ensures not_data { result ≡ NOT_DATA → Keeps d.old (λ r. IsNotData r.pipes dlci) }
    ensures under_way { result ≡ UNDER_WAY → Keeps d.old (λ r. OfEachPast r.pipes (λ role past. is_idle (carries role dlci past) ≡ false)) }
    ensures unread { result ≡ UNREAD → Keeps d.old (λ r. OfEachPast r.pipes (λ role past.
        (carries role dlci past ≡ idle) × (data_read dlci past ≢ data_came role dlci past))) }
    ensures no_relay { how ≤ 2 → until ≤ 1 → ((result ≡ NO_RELAY) ↔ (relay_of d.old ≡ None)) }
    ensures refused { result ≢ OK → relay_of d.new ≡ relay_of d.old }
    ensures others { result ≢ OK → result ≢ BAD_BEGIN → result ≢ BAD_DLCI → result ≢ NOT_DATA → result ≢ UNDER_WAY → result ≢ NO_RELAY
        → result ≡ UNREAD }
{
    let Some(how) = begin_of(how) else {
        return BAD_BEGIN;
    };
    let Some(until) = until_of(until) else {
        return BAD_BEGIN;
    };
    let Some(mut relay) = d.take(alloc) else {
        return NO_RELAY;
    };
    let answer = begin(&mut relay, dlci, how, until);
    *d = CimbalotyData::of(relay);
    answer
}

/// Ends the lane of a connection.
fn end(relay: &mut Relay, dlci: u8) -> u8
    ensures ok { result ≡ OK → Hops relay.old relay.new (Passed (EndedLane dlci)) }
    ensures bad { (result ≡ BAD_DLCI) ↔ (61 < dlci) }
    ensures not_data { result ≡ NOT_DATA → IsNotData relay.old.pipes dlci }
    ensures refused { result ≢ OK → relay.new ≡ relay.old }
    ensures others { result ≢ OK → result ≢ BAD_DLCI → result ≡ NOT_DATA }
{
    let Some(dlci) = Dlci::new(dlci) else {
        return BAD_DLCI;
    };
    if relay.lines(dlci).is_err() {
        return NOT_DATA;
    }
    OK
}

/// Ends the lane of a connection, from the next frame on: lines come and go again.
#[unsafe(no_mangle)]
pub extern "C" fn cimbaloty_data_lines(alloc: Global, d: &mut CimbalotyData, dlci: u8) -> u8
    ensures ok { result ≡ OK → Becomes d.old d.new (λ r s. Hops r s (Passed (EndedLane dlci))) }
    ensures bad { relay_of d.old ≢ None → ((result ≡ BAD_DLCI) ↔ (61 < dlci)) }
    ensures not_data { result ≡ NOT_DATA → Keeps d.old (λ r. IsNotData r.pipes dlci) }
    ensures no_relay { (result ≡ NO_RELAY) ↔ (relay_of d.old ≡ None) }
    ensures refused { result ≢ OK → relay_of d.new ≡ relay_of d.old }
    ensures others { result ≢ OK → result ≢ BAD_DLCI → result ≢ NO_RELAY → result ≡ NOT_DATA }
{
    let Some(mut relay) = d.take(alloc) else {
        return NO_RELAY;
    };
    let answer = end(&mut relay, dlci);
    *d = CimbalotyData::of(relay);
    answer
}

/// The line was lost.
#[unsafe(no_mangle)]
pub extern "C" fn cimbaloty_data_lost(alloc: Global, d: &mut CimbalotyData)
    ensures lost { relay_of d.old ≢ None → Becomes d.old d.new (λ r s. Hops r s (Passed Lost)) }
    ensures none { relay_of d.old ≡ None → relay_of d.new ≡ None }
{
    let Some(mut relay) = d.take(alloc) else {
        return;
    };
    relay.lost();
    *d = CimbalotyData::of(relay);
}

/// What came of reading: how many octets, and whether the lane is over and all of its data was read.
#[repr(C)]
#[derive(Clone, Copy)]
pub struct DataRead {
    pub count: usize,
    pub is_over: bool,
}

/// Gives the first octets of data that wait.
fn read(relay: &mut Relay, dlci: u8, room: &mut [u8], got: &mut DataRead) -> u8
    ensures ok { result ≡ OK → Hops relay.old relay.new (Passed (Read dlci (take got.new.count room.new))) }
    ensures count { result ≡ OK → OfEachPast relay.old.pipes (λ role past. got.new.count ≡ min (unread role dlci past) (length room.old)) }
    ensures over { result ≡ OK → OfEachPast relay.new.pipes (λ role past. got.new.is_over ≡ true ↔ IsOver role dlci past) }
    ensures behind { result ≡ OK → drop got.new.count room.new ≡ drop got.new.count room.old }
    ensures bad { (result ≡ BAD_DLCI) ↔ (61 < dlci) }
    ensures not_data { result ≡ NOT_DATA → IsNotData relay.old.pipes dlci }
    ensures refused { result ≢ OK → relay.new ≡ relay.old }
    ensures room { result ≢ OK → room.new ≡ room.old }
    ensures same { result ≢ OK → got.new ≡ got.old }
    ensures others { result ≢ OK → result ≢ BAD_DLCI → result ≡ NOT_DATA }
{
    let Some(dlci) = Dlci::new(dlci) else {
        return BAD_DLCI;
    };
    let Ok(reading) = relay.read(dlci, room) else {
        return NOT_DATA;
    };
    *got = DataRead {
        count: reading.count,
        is_over: reading.is_over,
    };
    OK
}

/// Gives the first octets of data that wait, as many as there is room for.
#[unsafe(no_mangle)]
pub extern "C" fn cimbaloty_data_read_at(
    alloc: Global,
    d: &mut CimbalotyData,
    dlci: u8,
    room: &mut [u8],
    got: &mut DataRead,
) -> u8
    ensures ok { result ≡ OK → Becomes d.old d.new (λ r s. Hops r s (Passed (Read dlci (take got.new.count room.new)))) }
    ensures count { result ≡ OK → Keeps d.old (λ r. OfEachPast r.pipes (λ role past. got.new.count ≡ min (unread role dlci past) (length room.old))) }
    ensures over { result ≡ OK → Keeps d.new (λ s. OfEachPast s.pipes (λ role past. got.new.is_over ≡ true ↔ IsOver role dlci past)) }
    ensures behind { result ≡ OK → drop got.new.count room.new ≡ drop got.new.count room.old }
    ensures bad { relay_of d.old ≢ None → ((result ≡ BAD_DLCI) ↔ (61 < dlci)) }
    ensures not_data { result ≡ NOT_DATA → Keeps d.old (λ r. IsNotData r.pipes dlci) }
    ensures no_relay { (result ≡ NO_RELAY) ↔ (relay_of d.old ≡ None) }
    ensures refused { result ≢ OK → relay_of d.new ≡ relay_of d.old }
    ensures room { result ≢ OK → room.new ≡ room.old }
    ensures same { result ≢ OK → got.new ≡ got.old }
    ensures others { result ≢ OK → result ≢ BAD_DLCI → result ≢ NO_RELAY → result ≡ NOT_DATA }
{
    let Some(mut relay) = d.take(alloc) else {
        return NO_RELAY;
    };
    let answer = read(&mut relay, dlci, room, got);
    *d = CimbalotyData::of(relay);
    answer
}

/// Takes the first octets to be sent as data.
fn give(relay: &mut Relay, dlci: u8, octets: &[u8], taken: &mut usize) -> u8
    ensures ok { result ≡ OK → Hops relay.old relay.new (Passed (Gave dlci (take taken.new octets.now))) }
    ensures count { result ≡ OK → OfEachPast relay.old.pipes (λ role past.
        taken.new ≡ min (length octets.now) (most_to_go - (length (given dlci past) - length (left dlci past)))) }
    ensures bad { (result ≡ BAD_DLCI) ↔ (61 < dlci) }
    ensures not_data { result ≡ NOT_DATA → IsNotData relay.old.pipes dlci }
    ensures not_open { result ≡ NOT_OPEN → OfEachPast relay.old.pipes (λ role past. is_open role dlci (wire past) ≡ false) }
    ensures takes_none { result ≡ LINES → OfEachPast relay.old.pipes (λ role past. takes_given (carries role dlci past) ≡ false) }
    ensures lets { result ≡ OK → OfEachPast relay.old.pipes (λ role past. (is_open role dlci (wire past) ≡ true) × (takes_given (carries role dlci past) ≡ true)) }
    ensures named { (result ≡ NOT_OPEN) ⊎ (result ≡ LINES) → HasPipe relay.old.pipes dlci }
    ensures open_there { result ≡ LINES → OfEachPast relay.old.pipes (λ role past. is_open role dlci (wire past) ≡ true) }
    ensures refused { result ≢ OK → relay.new ≡ relay.old }
    ensures same { result ≢ OK → taken.new ≡ taken.old }
    ensures others { result ≢ OK → result ≢ BAD_DLCI → result ≢ NOT_DATA → result ≢ NOT_OPEN → result ≡ LINES }
{
    let Some(dlci) = Dlci::new(dlci) else {
        return BAD_DLCI;
    };
    match relay.give(dlci, octets) {
        Ok(count) => {
            *taken = count;
            OK
        }
        Err(why) => why.number(),
    }
}

/// Takes octets to be sent as data from the front of these, until 4096 wait.
#[unsafe(no_mangle)]
pub extern "C" fn cimbaloty_data_give_at(
    alloc: Global,
    d: &mut CimbalotyData,
    dlci: u8,
    octets: &[u8],
    taken: &mut usize,
) -> u8
    ensures ok { result ≡ OK → Becomes d.old d.new (λ r s. Hops r s (Passed (Gave dlci (take taken.new octets.now)))) }
    ensures count { result ≡ OK → Keeps d.old (λ r. OfEachPast r.pipes (λ role past.
        taken.new ≡ min (length octets.now) (most_to_go - (length (given dlci past) - length (left dlci past))))) }
    ensures bad { relay_of d.old ≢ None → ((result ≡ BAD_DLCI) ↔ (61 < dlci)) }
    ensures not_data { result ≡ NOT_DATA → Keeps d.old (λ r. IsNotData r.pipes dlci) }
    ensures not_open { result ≡ NOT_OPEN → Keeps d.old (λ r. OfEachPast r.pipes (λ role past. is_open role dlci (wire past) ≡ false)) }
    ensures takes_none { result ≡ LINES → Keeps d.old (λ r. OfEachPast r.pipes (λ role past. takes_given (carries role dlci past) ≡ false)) }
    ensures lets { result ≡ OK → Keeps d.old (λ r. OfEachPast r.pipes (λ role past. (is_open role dlci (wire past) ≡ true) × (takes_given (carries role dlci past) ≡ true))) }
    ensures named { (result ≡ NOT_OPEN) ⊎ (result ≡ LINES) → Keeps d.old (λ r. HasPipe r.pipes dlci) }
    ensures open_there { result ≡ LINES → Keeps d.old (λ r. OfEachPast r.pipes (λ role past. is_open role dlci (wire past) ≡ true)) }
    ensures no_relay { (result ≡ NO_RELAY) ↔ (relay_of d.old ≡ None) }
    ensures refused { result ≢ OK → relay_of d.new ≡ relay_of d.old }
    ensures same { result ≢ OK → taken.new ≡ taken.old }
    ensures others { result ≢ OK → result ≢ BAD_DLCI → result ≢ NOT_DATA → result ≢ NOT_OPEN → result ≢ NO_RELAY → result ≡ LINES }
{
    let Some(mut relay) = d.take(alloc) else {
        return NO_RELAY;
    };
    let answer = give(&mut relay, dlci, octets, taken);
    *d = CimbalotyData::of(relay);
    answer
}

/// How many octets of data were given and haven't left.
fn to_go(relay: &Relay, dlci: u8, count: &mut usize) -> u8
    ensures count { result ≡ OK → OfEachPast relay.now.pipes (λ role past. count.new ≡ to_go dlci past) }
    ensures bad { (result ≡ BAD_DLCI) ↔ (61 < dlci) }
    ensures not_data { result ≡ NOT_DATA → IsNotData relay.now.pipes dlci }
    ensures same { result ≢ OK → count.new ≡ count.old }
    ensures others { result ≢ OK → result ≢ BAD_DLCI → result ≡ NOT_DATA }
{
    let Some(dlci) = Dlci::new(dlci) else {
        return BAD_DLCI;
    };
    let Ok(waiting) = relay.to_go(dlci) else {
        return NOT_DATA;
    };
    *count = waiting;
    OK
}

/// How many octets of data were given and haven't left.
#[unsafe(no_mangle)]
pub extern "C" fn cimbaloty_data_to_go_at(
    alloc: Global,
    d: &mut CimbalotyData,
    dlci: u8,
    count: &mut usize,
) -> u8
    ensures count { result ≡ OK → Keeps d.old (λ r. OfEachPast r.pipes (λ role past. count.new ≡ to_go dlci past)) }
    ensures bad { relay_of d.old ≢ None → ((result ≡ BAD_DLCI) ↔ (61 < dlci)) }
    ensures not_data { result ≡ NOT_DATA → Keeps d.old (λ r. IsNotData r.pipes dlci) }
    ensures no_relay { (result ≡ NO_RELAY) ↔ (relay_of d.old ≡ None) }
    ensures stays { relay_of d.new ≡ relay_of d.old }
    ensures same { result ≢ OK → count.new ≡ count.old }
    ensures others { result ≢ OK → result ≢ BAD_DLCI → result ≢ NO_RELAY → result ≡ NOT_DATA }
{
    let Some(relay) = d.take(alloc) else {
        return NO_RELAY;
    };
    let answer = to_go(&relay, dlci, count);
    *d = CimbalotyData::of(relay);
    answer
}
