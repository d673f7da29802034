//! Octets and time of an entry.
ghost use Rattle.std.specs.Prelude.{◌≡◌, ◌≢◌, ◌<◌, ◌≤◌, ◌↔◌, ◌⊎◌, ◌&&◌, length, take, drop, true, false, None, Some, IfSome};
ghost use Rattle.at_text.specs.declared.finals.Final.TheVariants.{Good};
ghost use Rattle.at_text.specs.declared.finals.Final.{Final};
ghost use Rattle.modem_c.specs.Entries.{Ends, EntryState, Gives, HearsIn, IsTurnedDown, next_part, now_of};
ghost use Rattle.modem_c.specs.EntryCalls.{Enters, EntersOn, entry_of, wait_for};

use crate::entries::entering::Entering;
use crate::entries::kept::CimbalotyEntry;
use crate::numbers::{ENTERED, NO_ENTRY, OK, OUTPUT_FIRST, SILENT, TURNED_DOWN};
use at_text::Final;
use std::alloc::Global;

/// Writes the next octets for the line to the front of the room, and says how many.
#[unsafe(no_mangle)]
pub extern "C" fn cimbaloty_enter_output_at(
    alloc: Global,
    e: &mut CimbalotyEntry,
    room: &mut [u8],
) -> usize
    ensures out { entry_of e.old ≢ None → EntersOn e.old e.new (λ s t. Gives s t (take result room.new)) }
    ensures all { entry_of e.old ≢ None → result < length room.old
        → Enters e.new (λ t. (now_of t).written ≡ length (now_of t).text) }
    ensures behind { drop result room.new ≡ drop result room.old }
    ensures few { result ≤ length room.old }
    ensures same { length room.new ≡ length room.old }
    ensures none { entry_of e.old ≡ None → entry_of e.new ≡ None }
    ensures none_given { entry_of e.old ≡ None → result ≡ 0 }
{
    let Some(mut entry) = e.take(alloc) else {
        return 0;
    };
    let count = entry.give(room);
    *e = CimbalotyEntry::of(entry);
    count
}

/// What is answered by a final code, if one came.
fn code_number(code: Option<Final>) -> u8
    ensures none { (result ≡ OK) ↔ (code ≡ None) }
    ensures good { (result ≡ ENTERED) ↔ (code ≡ Some Good) }
    ensures others { result ≢ OK → result ≢ ENTERED → result ≡ TURNED_DOWN }
{
    match code {
        None => OK,
        Some(Final::Good) => ENTERED,
        Some(_) => TURNED_DOWN,
    }
}

/// Takes octets of the line where all that is under way was given, and says how many it took.
fn take_in(entry: &mut Entering, octets: &[u8], taken: &mut usize) -> u8
    ensures goes { result ≡ OK → HearsIn entry.old entry.new (take taken.new octets.now) None }
    ensures entered { result ≡ ENTERED → Ends entry.old (take taken.new octets.now) Good }
    ensures turned_down { result ≡ TURNED_DOWN → IsTurnedDown entry.old (take taken.new octets.now) }
    ensures early { (result ≡ OUTPUT_FIRST) ↔ ((now_of entry.old).written ≢ length (now_of entry.old).text) }
    ensures stays { result ≡ OUTPUT_FIRST → (entry.new ≡ entry.old) × (taken.new ≡ 0) }
    ensures all { result ≡ OK → taken.new ≡ length octets.now }
    ensures few { taken.new ≤ length octets.now }
    ensures others { result ≢ OK → result ≢ ENTERED → result ≢ TURNED_DOWN → result ≡ OUTPUT_FIRST }
{
    *taken = 0;
    if !entry.is_given() {
        return OUTPUT_FIRST;
    }
    let heard = entry.hear(octets);
    *taken = heard.taken;
    code_number(heard.code)
}

/// Takes octets that came from the line, from the front of these, and says how many it took. An answer ends the entry.
#[unsafe(no_mangle)]
pub extern "C" fn cimbaloty_enter_input_at(
    alloc: Global,
    e: &mut CimbalotyEntry,
    octets: &[u8],
    taken: &mut usize,
) -> u8
    ensures goes { result ≡ OK → EntersOn e.old e.new (λ s t. HearsIn s t (take taken.new octets.now) None) }
    ensures entered { result ≡ ENTERED
        → Enters e.old (λ s. Ends s (take taken.new octets.now) Good) }
    ensures turned_down { result ≡ TURNED_DOWN → Enters e.old (λ s. IsTurnedDown s (take taken.new octets.now)) }
    ensures ended { (result ≡ ENTERED) ⊎ (result ≡ TURNED_DOWN) → entry_of e.new ≡ None }
    ensures early { (result ≡ OUTPUT_FIRST) ↔ Enters e.old (λ s. (now_of s).written ≢ length (now_of s).text) }
    ensures stays { result ≡ OUTPUT_FIRST → (entry_of e.new ≡ entry_of e.old) × (taken.new ≡ 0) }
    ensures all { result ≡ OK → taken.new ≡ length octets.now }
    ensures few { taken.new ≤ length octets.now }
    ensures no_entry { (result ≡ NO_ENTRY) ↔ (entry_of e.old ≡ None) }
    ensures none { entry_of e.old ≡ None → entry_of e.new ≡ None }
    ensures none_taken { entry_of e.old ≡ None → taken.new ≡ 0 }
    ensures others { result ≢ OK → result ≢ ENTERED → result ≢ TURNED_DOWN → result ≢ OUTPUT_FIRST → result ≡ NO_ENTRY }
{
    let Some(mut entry) = e.take(alloc) else {
        *taken = 0;
        return NO_ENTRY;
    };
    let said = take_in(&mut entry, octets, taken);
    if said == OK || said == OUTPUT_FIRST {
        *e = CimbalotyEntry::of(entry);
    }
    said
}

/// For how many milliseconds to wait for what comes: 1000 after the text, 300 after what closes down, 0 where there is no
/// entry.
#[unsafe(no_mangle)]
pub extern "C" fn cimbaloty_enter_wait(alloc: Global, e: &mut CimbalotyEntry) -> u32
    ensures value { (s : EntryState) → entry_of e.old ≡ Some s → result ≡ wait_for s }
    ensures none { entry_of e.old ≡ None → result ≡ 0 }
    ensures stays { entry_of e.new ≡ entry_of e.old }
{
    let Some(entry) = e.take(alloc) else {
        return 0;
    };
    let wait = if entry.is_closing { 300 } else { 1000 };
    *e = CimbalotyEntry::of(entry);
    wait
}

/// Notes that the time for the part under way is over: the next part begins. After the last try the entry ends, with SILENT.
#[unsafe(no_mangle)]
pub extern "C" fn cimbaloty_enter_time_over(alloc: Global, e: &mut CimbalotyEntry) -> u8
    ensures goes { result ≡ OK → EntersOn e.old e.new (λ s t. t ≡ next_part s) }
    ensures silent { (result ≡ SILENT) ↔ Enters e.old (λ s. (s.is_closing ≡ false) × (s.left ≡ 0)) }
    ensures ended { result ≡ SILENT → entry_of e.new ≡ None }
    ensures no_entry { (result ≡ NO_ENTRY) ↔ (entry_of e.old ≡ None) }
    ensures none { entry_of e.old ≡ None → entry_of e.new ≡ None }
    ensures others { result ≢ OK → result ≢ SILENT → result ≡ NO_ENTRY }
{
    let Some(mut entry) = e.take(alloc) else {
        return NO_ENTRY;
    };
    if !entry.go_on() {
        return SILENT;
    }
    *e = CimbalotyEntry::of(entry);
    OK
}
