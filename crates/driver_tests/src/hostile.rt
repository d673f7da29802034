//! Damaged octets: what is read of them, and what it tells.
use crate::made::{command, made, one};
use at_cmds::{Command, Reply};
use at_text::AnswerLines;
use modem_desk::{Answer, Ask, Request};
use modem_driver::{Act, Event, Octets, replay};
use mux_frame::laws::read_plain;
use mux_frame::{Dlci, write_frame};
use std::alloc::Global;
use std::ops::Range;
use std::process::Abort;

// What comes while 0 and 1 are opened and AT+CSQ is answered, behind the request of each number: two UA frames, and the frames of
// the answer.
const CAME: [(u64, &str); 3] = [
    (1, "f9037301d7f9"),
    (2, "f907730115f9"),
    (
        3,
        "f905ef1f0d0a2b4353513a2031382c39390d0aa0f9f905ef0d0d0a4f4b0d0a5ff9",
    ),
];

// How many octets that is.
const COUNT: usize = 45;

// The N1 of each frame.
const N1: u16 = 31;

// What becomes of an octet on the line.
#[derive(Clone, Copy)]
enum Damage {
    Flipped(u8),
    LeftOut,
    Doubled,
}

impl Damage {
    fn push(self, rt: &impl Abort, octet: u8, octets: &mut Vec<u8>) {
        match self {
            Damage::Flipped(bits) => made(rt, octets.push(octet ^ bits)),
            Damage::LeftOut => {}
            Damage::Doubled => made(rt, octets.extend_from_slice(&[octet, octet])),
        }
    }
}

// What the request of this number asks.
fn ask(rt: &impl Abort, alloc: Global, number: u64) -> Ask {
    match number {
        1 => Ask::OpenChannel(Dlci::CONTROL),
        2 => Ask::OpenChannel(one()),
        _ => command(rt, alloc, b"AT+CSQ"),
    }
}

// Octets that come, with the damage done to the one at this place of the run.
fn damaged(
    rt: &impl Abort,
    alloc: Global,
    octets: &[u8],
    places: &mut Range<usize>,
    place: usize,
    damage: Damage,
) -> Vec<u8> {
    let mut line = Vec::new(alloc);
    for octet in octets {
        if places.next() == Some(place) {
            damage.push(rt, *octet, &mut line);
        } else {
            made(rt, line.push(*octet));
        }
    }
    line
}

// The request of this number, and octets behind it.
fn push_events(
    rt: &impl Abort,
    alloc: Global,
    events: &mut Vec<Event>,
    number: u64,
    line: Vec<u8>,
) {
    let request = Request {
        caller: 0,
        number,
        ask: ask(rt, alloc, number),
    };
    made(rt, events.push(Event::Ask(request)));
    made(rt, events.push(Event::Octets(Octets::from_vec(line))));
}

// The requests of the run and what comes behind each, with the damage done to the octet at this place.
fn events(rt: &impl Abort, alloc: Global, place: usize, damage: Damage) -> Vec<Event> {
    let mut events = Vec::new(alloc);
    let mut places = 0..COUNT;
    for (number, hex) in &CAME {
        let octets = made(rt, hex::decode(alloc, hex));
        let line = damaged(rt, alloc, &octets, &mut places, place, damage);
        push_events(rt, alloc, &mut events, *number, line);
    }
    events
}

// All octets that come.
fn octets_of(rt: &impl Abort, alloc: Global, events: &[Event]) -> Vec<u8> {
    let mut octets = Vec::new(alloc);
    for event in events {
        if let Event::Octets(more) = event {
            made(rt, octets.extend_from_slice(more.as_slice()));
        }
    }
    octets
}

// The frames in these octets by the plain reader, as they are spelled.
fn frames_in(rt: &impl Abort, alloc: Global, octets: &[u8]) -> Vec<u8> {
    let (frames, _) = made(rt, read_plain(alloc, N1, octets));
    let mut spelled = Vec::new(alloc);
    for frame in &frames {
        made(rt, write_frame(frame.view(), N1, &mut spelled));
    }
    spelled
}

// The frames that were got, as they are spelled.
fn frames_got(rt: &impl Abort, alloc: Global, acts: &[Act]) -> Vec<u8> {
    let mut spelled = Vec::new(alloc);
    for act in acts {
        if let Act::Got(frame) = act {
            made(rt, write_frame(frame.view(), N1, &mut spelled));
        }
    }
    spelled
}

// Whether no request has two outcomes.
fn told_once(rt: &impl Abort, alloc: Global, acts: &[Act]) -> bool {
    let mut told = Vec::new(alloc);
    for act in acts {
        if let Act::Told(outcome) = act {
            if told.contains(&outcome.number) {
                return false;
            }
            made(rt, told.push(outcome.number));
        }
    }
    true
}

// The frames that were got are those of the plain reader, and no request has two outcomes.
fn expect_sound(rt: &impl Abort, alloc: Global, events: &[Event], acts: &[Act], place: usize) {
    let octets = octets_of(rt, alloc, events);
    let got = frames_got(rt, alloc, acts);
    assert!(rt; got == frames_in(rt, alloc, &octets), "{place}");
    assert!(rt; told_once(rt, alloc, acts), "{place}");
}

// So it is where this damage is done to the octet at this place.
fn expect_sound_at(rt: &impl Abort, alloc: Global, place: usize, damage: Damage) {
    let events = events(rt, alloc, place, damage);
    let acts = made(rt, replay(alloc, N1, &events));
    expect_sound(rt, alloc, &events, &acts, place);
}

#[test]
fn damaged_octets_tell_no_request_twice(rt: HostRuntime) {
    let alloc = rt.alloc();
    for place in 0..COUNT {
        for bit in 0..u8::BITS {
            expect_sound_at(&rt, alloc, place, Damage::Flipped(1 << bit));
        }
        expect_sound_at(&rt, alloc, place, Damage::LeftOut);
        expect_sound_at(&rt, alloc, place, Damage::Doubled);
    }
}

fn is_signal(alloc: Global, lines: &AnswerLines) -> bool {
    let reply = Reply::read(alloc, &Command::Signal, lines);
    matches!(reply, Ok(Reply::Signal { rssi: 18, ber: 99 }))
}

// How many outcomes of Done there are. Each is that of request 3, and has this signal.
fn count_replies(rt: &impl Abort, alloc: Global, acts: &[Act]) -> u32 {
    let mut replies = 0u32;
    for act in acts {
        if let Act::Told(outcome) = act
            && let Answer::Done(lines) = &outcome.answer
        {
            assert!(rt; outcome.number == 3 && is_signal(alloc, lines));
            replies = replies.saturating_add(1);
        }
    }
    replies
}

#[test]
fn an_answer_is_read_as_the_typed_reply(rt: HostRuntime) {
    let alloc = rt.alloc();
    let events = events(&rt, alloc, COUNT, Damage::LeftOut);
    let acts = made(&rt, replay(alloc, N1, &events));
    assert!(rt; count_replies(&rt, alloc, &acts) == 1);
}
