//! Whose turn it is among the connections whose commands wait. Each has its turn before another has a second one.
ghost use Rattle.std.specs.Prelude.{◌≡◌, ◌<◌, ◌≤◌, ℕ, true, false, IfSome, MatchOption, None};
ghost use Rattle.ctl_drive.specs.Turns.{IsNext, NoneWants, wants};

use crate::channels::ChannelState;
use crate::queues::Queues;
use crate::users::Users;
use mux_frame::Dlci;

/// What a connection wants whose commands wait, or that is to carry data.
#[derive(Clone, Copy)]
pub enum Want {
    /// To be opened.
    Opening,
    /// That its next command is submitted.
    Submission,
}

/// How many connections there are.
const COUNT: u8 = 62;

/// Whether a connection wants this.
fn wants(want: Want, queues: &Queues, users: &Users, dlci: Dlci) -> bool
    ensures { result ≡ wants want queues.now users.now dlci.number }
{
    let state = users.channels.state(dlci);
    if matches!(want, Want::Opening) && state == ChannelState::Wanted {
        return true;
    }
    if queues.has_none(dlci) {
        return false;
    }
    match (want, state) {
        (Want::Opening, ChannelState::Untold | ChannelState::Shut) => true,
        (Want::Submission, ChannelState::Open | ChannelState::Refused) => !users.is_busy(dlci),
        _ => false,
    }
}

/// The first connection of these numbers that wants this.
fn find_in(want: Want, queues: &Queues, users: &Users, from: u8, to: u8) -> Option<Dlci>
    requires { to ≤ 62 }
    ensures { MatchOption result ((e : ℕ) → from ≤ e → e < to → wants want queues.now users.now e ≡ false)
        (λ d. (wants want queues.now users.now d.number ≡ true) × ((from ≤ d.number) × (d.number < to))
        × ((e : ℕ) → from ≤ e → e < d.number → wants want queues.now users.now e ≡ false)) }
{
    for number in from..to {
        match Dlci::new(number) {
            Some(dlci) if wants(want, queues, users, dlci) => return Some(dlci),
            _ => {}
        }
    }
    None
}

/// The next connection that wants this, going round from behind `last`.
pub fn find_next(want: Want, queues: &Queues, users: &Users, last: Dlci) -> Option<Dlci>
    ensures next { IfSome result (λ d. IsNext want queues.now users.now last.number d.number) }
    ensures none { result ≡ None → NoneWants want queues.now users.now }
{
    let behind = last.number() + 1;
    match find_in(want, queues, users, behind, COUNT) {
        Some(dlci) => Some(dlci),
        None => find_in(want, queues, users, 0, behind),
    }
}
