//! Data that goes to the line without a wait.
ghost use Rattle.std.specs.Prelude.{◌≡◌, ◌≢◌, ◌⊎◌, ◌↔◌, ◌<◌, ◌≤◌, ◌+◌, length, take, drop, false, true, None};
ghost use Rattle.mux_station.specs.Opening.{is_open};
ghost use Rattle.modem_data.specs.Switching.{takes_given};
ghost use Rattle.modem_data.specs.DataLanes.{most_to_go};
ghost use Rattle.modem_data.specs.Passing.{carries, to_go, wire};
ghost use Rattle.modem_data.specs.PipeSets.{HasPipe, IsNotData, OfEachPast};
ghost use Rattle.modem_data.specs.Hops.{HoldsNothing, SendsOut};
ghost use Rattle.modem_data_c.specs.DataCalls.{Becomes, Keeps, relay_of};

use crate::held_data::CimbalotyData;
use crate::numbers::{BAD_DLCI, LINES, NO_RELAY, NOT_DATA, NOT_OPEN, OK};
use modem_data::Relay;
use mux_frame::Dlci;
use std::alloc::Global;

/// What came of sending: how many octets of data were taken, and how many for the line the room has.
#[repr(C)]
#[derive(Clone, Copy)]
pub struct DataSent {
    pub taken: usize,
    pub count: usize,
}

/// Takes octets to be sent as data, and writes the next octets for the line to the front of the room.
fn send(relay: &mut Relay, dlci: u8, octets: &[u8], room: &mut [u8], sent: &mut DataSent) -> u8
    ensures ok { result ≡ OK → SendsOut relay.old relay.new dlci (take sent.new.taken octets.now) (take sent.new.count room.new) }
    ensures taken { result ≡ OK → OfEachPast relay.old.pipes (λ role past. sent.new.taken ≤ length octets.now) }
    ensures rest { result ≡ OK → sent.new.taken < length octets.now → (length room.old < sent.new.count + (relay.old.outer.n1 + 7))
        ⊎ OfEachPast relay.old.pipes (λ role past. most_to_go ≤ to_go dlci past + sent.new.taken) }
    ensures some { result ≡ OK → sent.new.taken ≡ 0 → 0 < length octets.now → OfEachPast relay.old.pipes (λ role past. most_to_go ≤ to_go dlci past) }
    ensures all { result ≡ OK → sent.new.count ≡ 0 → 0 < length room.old → HoldsNothing relay.new }
    ensures few { result ≡ OK → sent.new.count ≤ length room.old }
    ensures behind { result ≡ OK → drop sent.new.count room.new ≡ drop sent.new.count room.old }
    ensures bad { (result ≡ BAD_DLCI) ↔ (61 < dlci) }
    ensures not_data { result ≡ NOT_DATA → IsNotData relay.old.pipes dlci }
    ensures not_open { result ≡ NOT_OPEN → OfEachPast relay.old.pipes (λ role past. is_open role dlci (wire past) ≡ false) }
    ensures takes_none { result ≡ LINES → OfEachPast relay.old.pipes (λ role past. takes_given (carries role dlci past) ≡ false) }
    ensures lets { result ≡ OK → OfEachPast relay.old.pipes (λ role past. (is_open role dlci (wire past) ≡ true) × (takes_given (carries role dlci past) ≡ true)) }
    ensures named { (result ≡ NOT_OPEN) ⊎ (result ≡ LINES) → HasPipe relay.old.pipes dlci }
    ensures open_there { result ≡ LINES → OfEachPast relay.old.pipes (λ role past. is_open role dlci (wire past) ≡ true) }
    ensures refused { result ≢ OK → relay.new ≡ relay.old }
    ensures room { result ≢ OK → room.new ≡ room.old }
    ensures same { result ≢ OK → sent.new ≡ sent.old }
    ensures others { result ≢ OK → result ≢ BAD_DLCI → result ≢ NOT_DATA → result ≢ NOT_OPEN → result ≡ LINES }
{
    let Some(dlci) = Dlci::new(dlci) else {
        return BAD_DLCI;
    };
    match relay.send(dlci, octets, room) {
        Ok(done) => {
            *sent = DataSent {
                taken: done.taken,
                count: done.count,
            };
            OK
        }
        Err(why) => why.number(),
    }
}

/// Takes octets to be sent as data from the front of these, and writes the next octets for the line to the front of the room. They count
/// as written.
#[unsafe(no_mangle)]
pub extern "C" fn cimbaloty_data_send_at(
    alloc: Global,
    d: &mut CimbalotyData,
    dlci: u8,
    octets: &[u8],
    room: &mut [u8],
    sent: &mut DataSent,
) -> u8
    ensures ok { result ≡ OK → Becomes d.old d.new (λ r s. SendsOut r s dlci (take sent.new.taken octets.now) (take sent.new.count room.new)) }
    ensures taken { result ≡ OK → Keeps d.old (λ r. OfEachPast r.pipes (λ role past. sent.new.taken ≤ length octets.now)) }
    ensures rest { result ≡ OK → sent.new.taken < length octets.now → Keeps d.old (λ r. (length room.old < sent.new.count + (r.outer.n1 + 7))
        ⊎ OfEachPast r.pipes (λ role past. most_to_go ≤ to_go dlci past + sent.new.taken)) }
    ensures some { result ≡ OK → sent.new.taken ≡ 0 → 0 < length octets.now → Keeps d.old (λ r. OfEachPast r.pipes (λ role past. most_to_go ≤ to_go dlci past)) }
    ensures all { result ≡ OK → sent.new.count ≡ 0 → 0 < length room.old → Keeps d.new HoldsNothing }
    ensures few { result ≡ OK → sent.new.count ≤ length room.old }
    ensures behind { result ≡ OK → drop sent.new.count room.new ≡ drop sent.new.count room.old }
    ensures bad { relay_of d.old ≢ None → ((result ≡ BAD_DLCI) ↔ (61 < dlci)) }
    ensures not_data { result ≡ NOT_DATA → Keeps d.old (λ r. IsNotData r.pipes dlci) }
    ensures not_open { result ≡ NOT_OPEN → Keeps d.old (λ r. OfEachPast r.pipes (λ role past. is_open role dlci (wire past) ≡ false)) }
    ensures takes_none { result ≡ LINES → Keeps d.old (λ r. OfEachPast r.pipes (λ role past. takes_given (carries role dlci past) ≡ false)) }
    ensures lets { result ≡ OK → Keeps d.old (λ r. OfEachPast r.pipes (λ role past. (is_open role dlci (wire past) ≡ true) × (takes_given (carries role dlci past) ≡ true))) }
    ensures named { (result ≡ NOT_OPEN) ⊎ (result ≡ LINES) → Keeps d.old (λ r. HasPipe r.pipes dlci) }
    ensures open_there { result ≡ LINES → Keeps d.old (λ r. OfEachPast r.pipes (λ role past. is_open role dlci (wire past) ≡ true)) }
    ensures no_relay { (result ≡ NO_RELAY) ↔ (relay_of d.old ≡ None) }
    ensures refused { result ≢ OK → relay_of d.new ≡ relay_of d.old }
    ensures room { result ≢ OK → room.new ≡ room.old }
    ensures same { result ≢ OK → sent.new ≡ sent.old }
    ensures others { result ≢ OK → result ≢ BAD_DLCI → result ≢ NOT_DATA → result ≢ NOT_OPEN → result ≢ NO_RELAY → result ≡ LINES }
{
    let Some(mut relay) = d.take(alloc) else {
        return NO_RELAY;
    };
    let answer = send(&mut relay, dlci, octets, room, sent);
    *d = CimbalotyData::of(relay);
    answer
}
