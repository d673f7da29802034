//! Unsolicited lines.
ghost use Rattle.std.specs.Prelude.{◌≡◌, ◌≢◌, ◌↔◌, ◌⊎◌, ◌≤◌, ◌<◌, [], length, None, Some};
ghost use Rattle.modem_c.specs.Calls.{Goes, Holds, endpoint_of};
ghost use Rattle.modem_c.specs.Texts.{HandsLine, IsLineHead, ShowsLine};

use crate::driver::Cimbaloty;
use crate::kinds::kind_number;
use crate::numbers::{NO_DRIVER, NO_ROOM, NOTHING, OK};
use crate::places::put;
use modem_driver::{Endpoint, Urc};
use std::alloc::Global;

/// An unsolicited line but for its text.
#[repr(C)]
#[derive(Clone, Copy)]
pub struct LineHead {
    pub length: usize,
    pub dlci: u8,
    pub kind: u16,
}

/// The head of a line.
fn head_of(line: &Urc) -> LineHead
    ensures { IsLineHead result line.now }
{
    LineHead {
        length: line.line.as_slice().len(),
        dlci: line.dlci.number(),
        kind: kind_number(line.kind),
    }
}

/// Shows the head of the unsolicited line that waits first.
fn show(endpoint: &Endpoint, head: &mut LineHead) -> u8
    ensures ok { result ≡ OK → ShowsLine endpoint.now head.new }
    ensures nothing { (result ≡ NOTHING) ↔ (endpoint.now.machine.unannounced ≡ []) }
    ensures same { result ≡ NOTHING → head.new ≡ head.old }
    ensures others { result ≢ OK → result ≡ NOTHING }
{
    match endpoint.peek_unsolicited() {
        Some(line) => {
            *head = head_of(line);
            OK
        }
        None => NOTHING,
    }
}

/// Hands the unsolicited line that waits first out, if its text has room.
fn hand(endpoint: &mut Endpoint, head: &mut LineHead, text: &mut [u8]) -> u8
    ensures ok { result ≡ OK → HandsLine endpoint.old endpoint.new head.new text.old text.new }
    ensures no_room { result ≡ NO_ROOM → ShowsLine endpoint.old head.new }
    ensures wants { result ≡ NO_ROOM → length text.old < head.new.length }
    ensures nothing { (result ≡ NOTHING) ↔ (endpoint.old.machine.unannounced ≡ []) }
    ensures stays { result ≢ OK → endpoint.new ≡ endpoint.old }
    ensures same { result ≢ OK → text.new ≡ text.old }
    ensures head { result ≡ NOTHING → head.new ≡ head.old }
    ensures others { result ≢ OK → result ≢ NO_ROOM → result ≡ NOTHING }
{
    let shown = show(endpoint, head);
    if shown != OK {
        return shown;
    }
    if head.length > text.len() {
        return NO_ROOM;
    }
    let Some(line) = endpoint.poll_unsolicited() else {
        return NOTHING;
    };
    put(line.line.as_slice(), text, 0);
    OK
}

/// Shows the head of the first unsolicited line that waits. The line stays.
#[unsafe(no_mangle)]
pub extern "C" fn cimbaloty_peek_line(alloc: Global, c: &mut Cimbaloty, head: &mut LineHead) -> u8
    ensures ok { result ≡ OK → Holds c.old (λ e. ShowsLine e head.new) }
    ensures nothing { (result ≡ NOTHING) ↔ Holds c.old (λ e. e.machine.unannounced ≡ []) }
    ensures no_driver { (result ≡ NO_DRIVER) ↔ (endpoint_of c.old ≡ None) }
    ensures stays { endpoint_of c.new ≡ endpoint_of c.old }
    ensures same { result ≢ OK → head.new ≡ head.old }
    ensures others { result ≢ OK → result ≢ NOTHING → result ≡ NO_DRIVER }
{
    let Some(endpoint) = c.take(alloc) else {
        return NO_DRIVER;
    };
    let shown = show(&endpoint, head);
    *c = Cimbaloty::of(endpoint);
    shown
}

/// Hands out the first unsolicited line that waits, head and text, if its text has room. It then waits no more.
#[unsafe(no_mangle)]
pub extern "C" fn cimbaloty_poll_line_at(
    alloc: Global,
    c: &mut Cimbaloty,
    head: &mut LineHead,
    text: &mut [u8],
) -> u8
    ensures ok { result ≡ OK → Goes c.old c.new (λ e f. HandsLine e f head.new text.old text.new) }
    ensures no_room { result ≡ NO_ROOM → Holds c.old (λ e. ShowsLine e head.new) }
    ensures wants { result ≡ NO_ROOM → length text.old < head.new.length }
    ensures nothing { (result ≡ NOTHING) ↔ Holds c.old (λ e. e.machine.unannounced ≡ []) }
    ensures no_driver { (result ≡ NO_DRIVER) ↔ (endpoint_of c.old ≡ None) }
    ensures stays { result ≢ OK → endpoint_of c.new ≡ endpoint_of c.old }
    ensures same { result ≢ OK → text.new ≡ text.old }
    ensures head { (result ≡ NOTHING) ⊎ (result ≡ NO_DRIVER) → head.new ≡ head.old }
    ensures others { result ≢ OK → result ≢ NO_ROOM → result ≢ NOTHING → result ≡ NO_DRIVER }
{
    let Some(mut endpoint) = c.take(alloc) else {
        return NO_DRIVER;
    };
    let handed = hand(&mut endpoint, head, text);
    *c = Cimbaloty::of(endpoint);
    handed
}
