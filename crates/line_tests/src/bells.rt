//! Bells.
use crate::made::made;
use bell::Bell;
use std::test::*;
use std::thread;
use std::time::Duration;

// Longer than a test may last: a wait that isn't rung for fails it.
fn long() -> Duration {
    Duration::from_secs(3600)
}

#[test]
fn a_ring_ends_the_next_wait_and_an_end_is_seen_by_all_shares(rt: HostRuntime) {
    let bell = made(&rt, Bell::new(rt.alloc()));
    let other = made(&rt, bell.share());
    other.ring();
    bell.wait(&rt, long());
    bell.wait(&rt, Duration::from_millis(1));
    assert!(rt; !bell.is_over() && !other.is_over());
    other.end();
    bell.wait(&rt, long());
    assert!(rt; bell.is_over() && other.is_over());
}

#[test]
fn a_ring_wakes_the_thread_that_waits(rt: HostRuntime) {
    let bell = made(&rt, Bell::new(rt.alloc()));
    let other = made(&rt, bell.share());
    let there = &other;
    let here = &bell;
    thread::join(
        &rt,
        || here.wait(&rt, long()),
        || {
            thread::sleep(&rt, Duration::from_millis(20));
            there.ring()
        },
    );
}
