//! A line between threads.
ghost use Rattle.std.specs.Prelude.{◌≡◌, ◌≤◌, ◌++◌, [], length, vec_capacity, IfOk};

use crate::made::made;
use serial_line::*;
use std::alloc::{AllocError, Global};
use std::process::Abort;
use std::sync::Wait;
use std::test::*;
use std::thread;
use std::thread::Threads;

// The octets 0 to 250, over and over.
pub fn long_text(alloc: Global, count: u32) -> Result<Vec<u8>, AllocError> {
    (0..count).map(|place| (place % 251) as u8).collect(alloc)
}

// So many octets may be under way.
fn has_room(rt: &impl Abort, alloc: Global, text: &[u8], room: usize) {
    let Ok((mut near, mut far)) = ThreadLine::pair(alloc, room) else {
        panic!(rt; "no memory");
    };
    assert!(rt; near.try_write(text) == Ok(room));
    assert!(rt; near.under_way(&mut far) == room);
    assert!(rt; far.under_way(&mut near) == 0);
}

#[test]
fn a_line_between_threads_has_room_for_1_to_65536(rt: HostRuntime) {
    for room in [0, 65537] {
        assert!(rt; matches!(ThreadLine::pair(rt.alloc(), room), Err(LineError::BadRoom)));
    }
    let text = made(&rt, long_text(rt.alloc(), 65537));
    for room in [1, 65536] {
        has_room(&rt, rt.alloc(), &text, room);
    }
}

// Sends the whole text, waiting for room.
fn send<R: Wait>(rt: &R, mut line: ThreadLine, text: &[u8]) -> ThreadLine
    ensures same { (result.incoming ≡ line.incoming) × (result.outgoing ≡ line.outgoing) }
    ensures sent { result.sent ≡ line.sent ++ text.now }
{
    let mut rest = text;
    for _ in rt.forever() {
        if rest.is_empty() {
            break;
        }
        let count = line.try_write(rest).unwrap();
        rest = &rest[count..];
        thread::yield_now();
    }
    line
}

// Waits until the text is full.
fn receive<R: Wait>(
    rt: &R,
    mut line: ThreadLine,
    mut text: Vec<u8>,
    total: usize,
) -> (ThreadLine, Vec<u8>)
    requires { (text.items ≡ []) × (total ≤ vec_capacity text) }
    ensures same { (result.0.incoming ≡ line.incoming) × (result.0.outgoing ≡ line.outgoing) }
    ensures came { result.0.received ≡ line.received ++ result.1.items }
    ensures total { length result.1.items ≡ total }
{
    let mut buffer = [0; 40];
    for _ in rt.forever() {
        let left = (total - text.len()).min(buffer.len());
        if left == 0 {
            break;
        }
        let count = line.try_read(&mut buffer[..left]).unwrap();
        text.extend_from_slice(&buffer[..count]).unwrap();
        thread::yield_now();
    }
    (line, text)
}

// Sends the text from one thread to another.
fn across<R: Threads + Wait + Sync>(
    rt: &R,
    alloc: Global,
    text: &[u8],
    room: usize,
) -> Result<Vec<u8>, LineError>
    ensures { IfOk result (λ came. came.items ≡ text.now) }
{
    let (near, far) = ThreadLine::pair(alloc, room)?;
    let empty = Vec::with_capacity(alloc, text.len())?;
    let (mut near, (mut far, came)) = thread::join(
        rt,
        move || send(rt, near, text),
        move || receive(rt, far, empty, text.len()),
    );
    near.under_way(&mut far);
    Ok(came)
}

#[test]
fn octets_between_threads_come_in_order(rt: HostRuntime) {
    let text = made(&rt, long_text(rt.alloc(), 100_000));
    let came = made(&rt, across(&rt, rt.alloc(), &text, 64));
    assert!(rt; came.as_slice() == text.as_slice());
}
