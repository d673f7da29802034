//! What callers may ask and are told, and what a settlement finds.
ghost use Rattle.std.specs.Prelude.{◌≡◌, map};
ghost use Rattle.modem_desk.specs.Ends.{place_of, subscription_of, IsWhole, AreSubscribed};

use at_text::UrcKind;
use modem_desk::*;
use mux_frame::Dlci;
use std::alloc::Global;
use std::process::Abort;
use std::sync::Wait;
use std::test::Fail;

// So many Stops of a caller, numbered from 1.
fn submit_times<R: Wait + Abort>(rt: &R, caller: &mut Caller, count: u64)
    ensures { caller.new.place ≡ caller.old.place }
{
    for number in 1..=count {
        assert!(rt; matches!(caller.submit(rt, Ask::Stop), Ok(n) if n == number));
    }
}

// The same of the caller at this place.
pub fn submit_stops<R: Wait + Abort>(rt: &R, callers: &mut Vec<Caller>, place: usize, count: u64)
    ensures { map place_of callers.new.items ≡ map place_of callers.old.items }
{
    assert!(rt; place < callers.len());
    let caller = &mut callers[place];
    submit_times(rt, caller, count);
}

// An ask of the caller at this place.
fn submit_one<R: Wait + Abort>(
    rt: &R,
    callers: &mut Vec<Caller>,
    place: usize,
    ask: Ask,
) -> Result<u64, (SubmitError, Ask)> {
    assert!(rt; place < callers.len());
    let caller = &mut callers[place];
    caller.submit(rt, ask)
}

// The outcome that the caller at this place takes.
pub fn taken_by<R: Abort>(rt: &R, callers: &mut Vec<Caller>, place: usize) -> Option<Outcome>
    ensures { map place_of callers.new.items ≡ map place_of callers.old.items }
{
    assert!(rt; place < callers.len());
    let caller = &mut callers[place];
    caller.take()
}

// The driver takes requests of these callers with these numbers.
pub fn take_requests<R: Wait + Abort>(rt: &R, driver: &mut DriverEnd, wanted: &[(u8, u64)])
    ensures { driver.new.desk ≡ driver.old.desk }
{
    for (caller, number) in wanted {
        let request = driver.next(rt).expect(rt, "a request");
        assert!(rt; request.caller == *caller && request.number == *number);
    }
}

// The driver tells a caller that its request was answered by Stopped.
pub fn tell_stopped<R: Abort>(rt: &R, driver: &mut DriverEnd, caller: u8, number: u64)
    ensures { driver.new.desk ≡ driver.old.desk }
{
    assert!(rt; caller < driver.callers());
    let told = driver.tell(Outcome {
        caller,
        number,
        answer: Answer::Stopped,
    });
    assert!(rt; told.is_ok());
}

// Settles, by a second call where memory held up the first.
fn settle_by_two<R: Wait + Abort>(
    rt: &R,
    alloc: Global,
    driver: DriverEnd,
    callers: Vec<Caller>,
    listeners: Vec<Listener>,
) -> Settled
    requires callers { IsWhole driver.desk (map place_of callers.items) }
    requires listeners { AreSubscribed driver.desk (map subscription_of listeners.items) }
{
    let refused = match settle(rt, alloc, driver, callers, listeners) {
        Ok(settled) => return settled,
        Err(refused) => refused,
    };
    let SettleRefused {
        why,
        driver,
        callers,
        listeners,
    } = refused;
    assert!(rt; why == DeskError::NoMemory);
    let Ok(settled) = settle(rt, alloc, driver, callers, listeners) else {
        panic!(rt; "memory was refused twice");
    };
    settled
}

// A caller with 16 outcomes to come is refused, whatever there is room for.
fn is_too_many<R: Wait + Abort>(rt: &R, callers: &mut Vec<Caller>) {
    let more = submit_one(rt, callers, 0, Ask::Stop);
    assert!(rt; matches!(more, Err((SubmitError::TooMany, Ask::Stop))));
}

// Where the queue is full a caller is refused, and its ask comes back.
fn comes_back<R: Wait + Abort>(rt: &R, callers: &mut Vec<Caller>, dlci: Dlci) {
    let more = submit_one(rt, callers, 4, Ask::CloseChannel(dlci));
    let Err((why, Ask::CloseChannel(back))) = more else {
        panic!(rt; "there is room");
    };
    assert!(rt; why == SubmitError::Full && back.number() == 7);
}

#[test]
fn a_caller_has_16_outcomes_to_take_and_the_queue_64_places(rt: HostRuntime) {
    let Ok((mut driver, mut callers, _)) = Desk::open(rt.alloc(), 5, &[]) else {
        panic!(rt; "no memory");
    };
    for place in 0..4 {
        submit_stops(&rt, &mut callers, place, 16);
    }
    let dlci = Dlci::new(7).expect(&rt, "a connection");
    is_too_many(&rt, &mut callers);
    comes_back(&rt, &mut callers, dlci);
    assert!(rt; driver.next(&rt).is_some());
    let more = submit_one(&rt, &mut callers, 4, Ask::CloseChannel(dlci));
    assert!(rt; matches!(more, Ok(1)));
}

#[test]
fn the_last_number_is_the_last(rt: HostRuntime) -> Result<(), Fail> {
    let (_, mut callers, _) = Desk::open_from(rt.alloc(), 1, &[], u64::MAX)?;
    let last = submit_one(&rt, &mut callers, 0, Ask::Stop);
    assert!(rt; matches!(last, Ok(u64::MAX)));
    let more = submit_one(&rt, &mut callers, 0, Ask::Stop);
    assert!(rt; matches!(more, Err((SubmitError::Exhausted, Ask::Stop))));
    Ok(())
}

fn is_bad_count(alloc: Global, callers: u8, kinds: &[UrcKind], first: u64) -> bool {
    matches!(
        Desk::open_from(alloc, callers, kinds, first),
        Err(DeskError::BadCount)
    )
}

#[test]
fn a_desk_of_no_caller_of_nine_of_a_kind_twice_or_from_0_is_refused(rt: HostRuntime) {
    let alloc = rt.alloc();
    assert!(rt; is_bad_count(alloc, 0, &[], 1));
    assert!(rt; is_bad_count(alloc, 9, &[], 1));
    assert!(rt; is_bad_count(alloc, 1, &[UrcKind::Ring, UrcKind::Ring], 1));
    assert!(rt; is_bad_count(alloc, 1, &[], 0));
}

#[test]
fn what_was_taken_told_and_left_is_counted(rt: HostRuntime) -> Result<(), Fail> {
    let alloc = rt.alloc();
    let (mut driver, mut callers, listeners) = Desk::open(alloc, 2, &[])?;
    submit_stops(&rt, &mut callers, 0, 3);
    submit_stops(&rt, &mut callers, 1, 3);
    take_requests(&rt, &mut driver, &[(0, 1), (0, 2), (0, 3), (1, 1)]);
    tell_stopped(&rt, &mut driver, 0, 1);
    tell_stopped(&rt, &mut driver, 0, 2);
    let taken = taken_by(&rt, &mut callers, 0).expect(&rt, "an outcome");
    assert!(rt; taken.caller == 0 && taken.number == 1);
    assert!(rt; taken_by(&rt, &mut callers, 1).is_none());
    let Settled {
        left,
        untaken,
        unheard,
    } = settle_by_two(&rt, alloc, driver, callers, listeners);
    assert!(rt; left.len() == 2 && untaken.len() == 2 && unheard.is_empty());
    let rest = [
        (left[0].caller, left[0].number),
        (left[1].caller, left[1].number),
    ];
    assert!(rt; rest == [(1, 2), (1, 3)]);
    assert!(rt; untaken[0].len() == 1 && untaken[1].is_empty());
    assert!(rt; untaken[0][0].number == 2);
    Ok(())
}

// With ample memory the first call of `settle` is enough. With any one allocation refused a desk isn't opened, or is settled by the second.
#[test]
fn what_memory_held_up_is_settled_by_a_second_call(rt: HostRuntime) -> Result<(), Fail> {
    let alloc = rt.alloc();
    let Ok((mut driver, mut callers, listeners)) = Desk::open(alloc, 1, &[UrcKind::Ring]) else {
        return Ok(());
    };
    submit_stops(&rt, &mut callers, 0, 3);
    take_requests(&rt, &mut driver, &[(0, 1)]);
    tell_stopped(&rt, &mut driver, 0, 1);
    let Settled {
        left,
        untaken,
        unheard,
    } = settle_by_two(&rt, alloc, driver, callers, listeners);
    assert!(rt; left.len() == 2 && untaken.len() == 1 && unheard.len() == 1);
    assert!(rt; left[0].number == 2 && left[1].number == 3);
    assert!(rt; untaken[0].len() == 1 && unheard[0].is_empty());
    Ok(())
}
