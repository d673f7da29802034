//! What passes between a client and what answers it, part by part, and who is told of it.
ghost use Rattle.std.specs.Prelude.{◌≡◌, ◌<◌, ◌++◌, [], false, true, length, IfErr, IfOk, option_map};
ghost use Rattle.ctl_sim.specs.Entry.{octets_of};
ghost use Rattle.ctl_sim.specs.EndlessClients.{PassesToEndless};
ghost use Rattle.ctl_sim.specs.Leaving.{IsOfModemBy};
ghost use Rattle.ctl_sim.specs.Standing.{setting_by};
ghost use Rattle.ctl_sim.specs.Watching.{PassesOn, SeesPart};
ghost use Rattle.modem_sim.specs.declared.state.ModemState.{ModemState};

use crate::fault::ServeFault;
use crate::server::{Answering, Setup};
use crate::watching::Watcher;
use mux_capture::Direction;
use mux_frame::N1;

/// Tells of octets that passed, of what was said to them, and of the multiplexer if they entered it.
pub(crate) fn tell<V: Watcher>(watcher: &mut V, part: &[u8], said: &[u8], entered: Option<N1>)
    ensures { SeesPart V.sees V.begins watcher.old watcher.new part.now said.now (option_map octets_of entered) }
{
    watcher.see(Direction::ToModem, part);
    watcher.see(Direction::FromModem, said);
    if let Some(n1) = entered {
        watcher.begin(n1);
    }
}

/// Takes octets, to the end of a line that enters the multiplexer at most, and tells of what is decided by then. Gives those behind that
/// line, and whether there is one. `pending` are the octets of which nobody was told yet.
fn pass_part<M: Answering, V: Watcher>(
    setup: &Setup,
    now: M,
    watcher: &mut V,
    octets: &[u8],
    pending: &mut Vec<u8>,
    out: &mut Vec<u8>,
) -> Result<(M, Vec<u8>, bool), ServeFault>
    requires { pending.old.items ≡ M.undecided now ++ octets.now }
    ensures all { IfOk result (λ r. r.2 ≡ false → r.1.items ≡ []) }
    ensures fewer { IfOk result (λ r. r.2 ≡ true → M.weight r.0 (length r.1.items) < M.weight now (length octets.now)) }
    ensures pending { IfOk result (λ r. pending.new.items ≡ M.undecided r.0 ++ r.1.items) }
    ensures passes { IfOk result (λ r. (m : ModemState)
        → PassesOn M.holds M.undecided V.sees V.begins (setting_by setup.now m) now r.0 watcher.old watcher.new octets.now r.1.items out.old.items out.new.items) }
    ensures fault { IfErr result (IsOfModemBy ((m : ModemState)
        → PassesToEndless M.holds M.undecided V.sees V.begins M.endless (setting_by setup.now m) now watcher.old octets.now)) }
{
    let mut said = Vec::new(setup.alloc);
    let (next, behind, entered) = now.take_part(setup, octets, &mut said)?;
    let decided = pending.len() - behind.len() - next.undecided_len();
    let (part, kept) = pending.split_at(decided);
    tell(watcher, part, said.as_slice(), entered);
    *pending = Vec::from_slice(setup.alloc, kept)?;
    out.extend_from_slice(said.as_slice())?;
    Ok((next, behind, entered.is_some()))
}

/// Takes all of these octets, and writes what is said to them behind other octets. `pending` are the octets before them of which nobody
/// was told yet.
pub(crate) fn pass<M: Answering, V: Watcher>(
    setup: &Setup,
    first: M,
    watcher: &mut V,
    octets: &[u8],
    pending: &mut Vec<u8>,
    out: &mut Vec<u8>,
) -> Result<M, ServeFault>
    requires { pending.old.items ≡ M.undecided first }
    ensures pending { IfOk result (λ new. pending.new.items ≡ M.undecided new) }
    ensures passes { IfOk result (λ new. (m : ModemState)
        → PassesOn M.holds M.undecided V.sees V.begins (setting_by setup.now m) first new watcher.old watcher.new octets.now [] out.old.items out.new.items) }
    ensures fault { IfErr result (IsOfModemBy ((m : ModemState)
        → PassesToEndless M.holds M.undecided V.sees V.begins M.endless (setting_by setup.now m) first watcher.old octets.now)) }
{
    let mut now = first;
    let mut rest = Vec::from_slice(setup.alloc, octets)?;
    pending.extend_from_slice(octets)?;
    loop {
        let (next, behind, entered) = pass_part(
            setup,
            now,
            watcher,
            rest.as_slice(),
            pending,
            out,
        )?;
        if !entered {
            return Ok(next);
        }
        now = next;
        rest = behind;
    }
}
