//! A session, a simulated modem and a caller as three futures under one executor, in one thread. Of a session that is polled only
//! the end is known: who wants to settle its desk polls it by `advance`, as `driving` does.
use crate::Stop;
use crate::session::begin;
use crate::typed::signal_ask;
use futures::Future;
use futures::executor::block_on;
use futures::future::join3;
use futures::task::{Context, Poll};
use modem_desk::{Answer, Ask, Caller, Desk, DriverEnd};
use modem_driver::{Ended, Session};
use modem_sim::Sim;
use mux_frame::Dlci;
use results::beside;
use serial_line::SerialLine;
use std::alloc::{AllocGlobal, Global};
use std::random::RandomSource;
use std::sync::Wait;

/// A caller who asks one thing after the other, the last of `asks` first.
#[derive(Drop)]
pub struct Asking<R: Wait + Drop> {
    rt: R,
    caller: Caller,
    asks: Vec<Ask>,
    waits: bool,
    answer: Option<Answer>,
}

impl<R: Wait + Drop> Asking<R> {
    /// Asks the next thing, once the one before was answered. The answer to a command is kept. Whether there is nothing left to
    /// wait for: all is answered, or the session is gone.
    fn has_ended(&mut self) -> bool {
        if self.waits {
            let Some(outcome) = self.caller.take() else {
                return self.caller.is_alone();
            };
            if let Answer::Done(lines) = outcome.answer {
                self.answer = Some(Answer::Done(lines));
            }
        }
        let Some(ask) = self.asks.pop() else {
            return true;
        };
        self.waits = true;
        self.caller.submit(&self.rt, ask).is_err()
    }
}

/// It gives the answer to the last command.
impl<R: Wait + Drop> Future for Asking<R> {
    type Output = Option<Answer>;

    fn poll(&mut self, cx: &mut Context<'_>) -> Poll<Option<Answer>> {
        if self.has_ended() {
            return Poll::Ready(self.answer.take());
        }
        cx.yield_now()
    }
}

/// Opens connections 0 and 1, asks for the signal on 1, and ends the multiplexer: the last first.
fn asks(alloc: Global) -> Result<Vec<Ask>, Stop> {
    let signal = signal_ask(alloc)?;
    let asks = [
        Ask::Stop,
        signal,
        Ask::OpenChannel(Dlci::new(1).unwrap()),
        Ask::OpenChannel(Dlci::CONTROL),
    ];
    Ok(Vec::from_array(alloc, asks)?)
}

/// Polls all three until each has ended.
fn poll_all<L: SerialLine + Drop, R>(
    rt: &R,
    session: Session<L, R>,
    modem: Sim<L>,
    asking: Asking<R>,
) -> Result<Answer, Stop>
where
    R: Wait + RandomSource + AllocGlobal + Drop,
{
    match block_on(rt, join3(session, modem, asking)) {
        Ok((Ok(Ended::Stopped), Ok(_), Some(answer))) => Ok(answer),
        Ok(_) => Err(Stop::Unexpected),
        Err(_) => Err(Stop::NoMemory),
    }
}

/// A desk of one caller.
fn ends(alloc: Global) -> Result<(DriverEnd, Caller), Stop> {
    let Ok((driver, mut callers, _)) = Desk::open(alloc, 1, &[]) else {
        return Err(Stop::NoMemory);
    };
    let caller = callers.pop().unwrap();
    Ok((driver, caller))
}

/// The driver's end of a desk, and its caller who asks for the signal on connection 1.
fn make_asking<R: Wait + Drop>(rt: R, alloc: Global) -> Result<(DriverEnd, Asking<R>), Stop> {
    let asks = asks(alloc)?;
    let (driver, caller) = ends(alloc)?;
    let asking = Asking {
        rt,
        caller,
        asks,
        waits: false,
        answer: None,
    };
    Ok((driver, asking))
}

/// Asks for the signal on connection 1.
pub fn run<R>(rt: &R, alloc: Global) -> Result<Answer, Stop>
where
    R: Wait + RandomSource + AllocGlobal + Copy + Drop,
{
    let (driver, asking) = make_asking(*rt, alloc)?;
    let ((session, modem), asking) = beside(begin(*rt, alloc, driver), asking)?;
    poll_all(rt, session, modem, asking)
}
