//! How long the commands of connections have waited, counted in ticks.
ghost use Rattle.std.specs.Prelude.{◌≡◌, ◌<◌};
ghost use Rattle.modem_driver.specs.WaitingTicks.{delay_after, is_same, ticks_kept, ticks_shown, CountsTick};

use crate::machine::Machine;
use modem_core::{Asker, Hand, first_asker};
use mux_frame::Dlci;

/// The asker of the command that a tick found first in hand on a connection, and how many ticks in a row did. The count
/// stops at `u64::MAX`.
#[derive(Clone, Copy)]
pub(crate) struct Delay {
    pub asker: Asker,
    pub ticks: u64,
}

/// What the last tick found on each of the connections 0 to 61.
pub(crate) type Delays = [Option<Delay>; Dlci::COUNT];

/// Whether these are the same one.
fn is_same(who: Asker, other: Asker) -> bool
    ensures { result ≡ is_same who other }
{
    who.caller == other.caller && who.number == other.number
}

/// How many ticks are kept for this one.
fn ticks_kept(delay: Option<Delay>, who: Asker) -> u64
    ensures { result ≡ ticks_kept delay who }
{
    match delay {
        Some(delay) if is_same(who, delay.asker) => delay.ticks,
        _ => 0,
    }
}

/// What is kept of a connection after a tick that found this one's command its first, if there was one.
fn delay_after(delay: Option<Delay>, first: Option<Asker>) -> Option<Delay>
    ensures { result ≡ delay_after delay first }
{
    let asker = first?;
    Some(Delay {
        asker,
        ticks: ticks_kept(delay, asker).saturating_add(1),
    })
}

/// What is kept after a tick that found these in hand.
fn counted(delays: Delays, hand: &Hand) -> Delays
    ensures { CountsTick delays result hand.now }
{
    let mut counted = delays;
    for number in 0..Dlci::COUNT as u8 {
        let place = usize::from(number);
        let dlci = Dlci { number };
        let first = first_asker(hand.from_first(dlci), dlci);
        counted[place] = delay_after(delays[place], first);
    }
    counted
}

/// How many ticks are kept for the first command of these in hand on a connection, if there is one.
fn ticks_shown(delays: &Delays, hand: &Hand, dlci: Dlci) -> Option<u64>
    ensures { result ≡ ticks_shown delays.now hand.now dlci.number }
{
    let who = first_asker(hand.from_first(dlci), dlci)?;
    let delay = delays[usize::from(dlci.number())];
    Some(ticks_kept(delay, who))
}

impl Machine {
    /// What is kept of the connections after a tick.
    pub(crate) fn delays_after_tick(&self) -> Delays
        ensures { CountsTick self.now.delays result self.now.core.hand }
    {
        counted(self.delays, self.core.hand())
    }

    /// How many ticks the first command in hand on a connection has waited, if there is one.
    pub(crate) fn waiting_ticks(&self, dlci: Dlci) -> Option<u64>
        ensures { result ≡ ticks_shown self.now.delays self.now.core.hand dlci.number }
    {
        ticks_shown(&self.delays, self.core.hand(), dlci)
    }
}
