//! Outcomes of requests.
ghost use Rattle.std.specs.Prelude.{◌≡◌, ◌≢◌, ◌↔◌, ◌⊎◌, ◌≤◌, ◌<◌, ◌-◌, ◌+◌, ◌^◌, ◌++◌, [], min, length, take, drop, None, Some};
ghost use Rattle.at_text.specs.AnswerParts.{line_of};
ghost use Rattle.modem_c.specs.Calls.{Goes, Holds, endpoint_of};
ghost use Rattle.modem_c.specs.Texts.{HandsOutcome, IsOutcomeHead, ShowsOutcome, line_text, lines_of, lines_text, text_of};

use crate::driver::Cimbaloty;
use crate::numbers::{NO_DRIVER, NO_ROOM, NOTHING, OK};
use crate::places::put;
use at_text::AnswerLines;
use modem_driver::{Answer, Endpoint, Outcome};
use std::alloc::Global;

/// An outcome but for its text.
#[repr(C)]
#[derive(Clone, Copy)]
pub struct OutcomeHead {
    pub number: u64,
    pub length: usize,
    pub lines: usize,
    pub answer: u8,
}

/// How many octets the lines have, each with an LF behind it.
fn octets_of(lines: &AnswerLines) -> usize
    ensures { result ≡ min (length (lines_text lines.now)) (2 ^ 64 - 1) }
{
    let mut sum: usize = 0;
    for i in 0..lines.len() {
        sum = sum.saturating_add(lines.line(i).len()).saturating_add(1);
    }
    sum
}

/// Copies a line and an LF to a place of the room, and says where they end. The condition is that they
/// have room there.
fn put_line(line: &[u8], room: &mut [u8], place: usize) -> usize
    requires { place + length (line_text (line_of line.now)) ≤ length room.old }
    ensures place { result ≡ place + length (line_text (line_of line.now)) }
    ensures room { room.new ≡ take place room.old ++ (line_text (line_of line.now) ++ drop result room.old) }
{
    let behind = put(line, room, place);
    put(b"\n", room, behind)
}

/// Copies the lines to the front of the room, each with an LF behind it. The condition is that they
/// have room.
fn put_lines(lines: &AnswerLines, room: &mut [u8])
    requires { length (lines_text lines.now) ≤ length room.old }
    ensures { room.new ≡ lines_text lines.now ++ drop (length (lines_text lines.now)) room.old }
{
    let mut place = 0;
    for i in 0..lines.len() {
        place = put_line(lines.line(i), room, place);
    }
}

/// How many lines an answer has, and how many octets, each line with an LF behind it.
fn size_of(answer: &Answer) -> (usize, usize)
    ensures lines { result.0 ≡ length (lines_of answer.now) }
    ensures octets { result.1 ≡ min (length (text_of answer.now)) (2 ^ 64 - 1) }
{
    match answer {
        Answer::Done(lines) => (lines.len(), octets_of(lines)),
        _ => (0, 0),
    }
}

/// Copies the lines of an answer to the front of the room, each with an LF behind it. The condition is that they have
/// room.
fn put_answer(answer: &Answer, room: &mut [u8])
    requires { length (text_of answer.now) ≤ length room.old }
    ensures { room.new ≡ text_of answer.now ++ drop (length (text_of answer.now)) room.old }
{
    if let Answer::Done(lines) = answer {
        put_lines(lines, room);
    }
}

/// The head of an outcome.
fn head_of(outcome: &Outcome) -> OutcomeHead
    ensures { IsOutcomeHead result outcome.now }
{
    let (lines, length) = size_of(&outcome.answer);
    OutcomeHead {
        number: outcome.number,
        length,
        lines,
        answer: outcome.answer.number(),
    }
}

/// Shows the head of the outcome that waits first.
fn show(endpoint: &Endpoint, head: &mut OutcomeHead) -> u8
    ensures ok { result ≡ OK → ShowsOutcome endpoint.now head.new }
    ensures nothing { (result ≡ NOTHING) ↔ (endpoint.now.machine.unplaced ≡ []) }
    ensures same { result ≡ NOTHING → head.new ≡ head.old }
    ensures others { result ≢ OK → result ≡ NOTHING }
{
    match endpoint.peek_outcome() {
        Some(outcome) => {
            *head = head_of(outcome);
            OK
        }
        None => NOTHING,
    }
}

/// Hands the outcome that waits first out, if its text has room.
fn hand(endpoint: &mut Endpoint, head: &mut OutcomeHead, text: &mut [u8]) -> u8
    ensures ok { result ≡ OK → HandsOutcome endpoint.old endpoint.new head.new text.old text.new }
    ensures no_room { result ≡ NO_ROOM → ShowsOutcome endpoint.old head.new }
    ensures wants { result ≡ NO_ROOM → length text.old < head.new.length }
    ensures nothing { (result ≡ NOTHING) ↔ (endpoint.old.machine.unplaced ≡ []) }
    ensures stays { result ≢ OK → endpoint.new ≡ endpoint.old }
    ensures same { result ≢ OK → text.new ≡ text.old }
    ensures head { result ≡ NOTHING → head.new ≡ head.old }
    ensures others { result ≢ OK → result ≢ NO_ROOM → result ≡ NOTHING }
{
    let shown = show(endpoint, head);
    if shown != OK {
        return shown;
    }
    if head.length > text.len() {
        return NO_ROOM;
    }
    let Some(outcome) = endpoint.poll_outcome() else {
        return NOTHING;
    };
    put_answer(&outcome.answer, text);
    OK
}

/// Shows the head of the first outcome that waits. The outcome stays.
#[unsafe(no_mangle)]
pub extern "C" fn cimbaloty_peek_outcome(
    alloc: Global,
    c: &mut Cimbaloty,
    head: &mut OutcomeHead,
) -> u8
    ensures ok { result ≡ OK → Holds c.old (λ e. ShowsOutcome e head.new) }
    ensures nothing { (result ≡ NOTHING) ↔ Holds c.old (λ e. e.machine.unplaced ≡ []) }
    ensures no_driver { (result ≡ NO_DRIVER) ↔ (endpoint_of c.old ≡ None) }
    ensures stays { endpoint_of c.new ≡ endpoint_of c.old }
    ensures same { result ≢ OK → head.new ≡ head.old }
    ensures others { result ≢ OK → result ≢ NOTHING → result ≡ NO_DRIVER }
{
    let Some(endpoint) = c.take(alloc) else {
        return NO_DRIVER;
    };
    let shown = show(&endpoint, head);
    *c = Cimbaloty::of(endpoint);
    shown
}

/// Hands out the first outcome that waits, head and text, if its text has room. It then waits no more.
#[unsafe(no_mangle)]
pub extern "C" fn cimbaloty_poll_outcome_at(
    alloc: Global,
    c: &mut Cimbaloty,
    head: &mut OutcomeHead,
    text: &mut [u8],
) -> u8
    ensures ok { result ≡ OK → Goes c.old c.new (λ e f. HandsOutcome e f head.new text.old text.new) }
    ensures no_room { result ≡ NO_ROOM → Holds c.old (λ e. ShowsOutcome e head.new) }
    ensures wants { result ≡ NO_ROOM → length text.old < head.new.length }
    ensures nothing { (result ≡ NOTHING) ↔ Holds c.old (λ e. e.machine.unplaced ≡ []) }
    ensures no_driver { (result ≡ NO_DRIVER) ↔ (endpoint_of c.old ≡ None) }
    ensures stays { result ≢ OK → endpoint_of c.new ≡ endpoint_of c.old }
    ensures same { result ≢ OK → text.new ≡ text.old }
    ensures head { (result ≡ NOTHING) ⊎ (result ≡ NO_DRIVER) → head.new ≡ head.old }
    ensures others { result ≢ OK → result ≢ NO_ROOM → result ≢ NOTHING → result ≡ NO_DRIVER }
{
    let Some(mut endpoint) = c.take(alloc) else {
        return NO_DRIVER;
    };
    let handed = hand(&mut endpoint, head, text);
    *c = Cimbaloty::of(endpoint);
    handed
}
