//! A replay at a modem with codes of its own.
ghost use Rattle.std.specs.Prelude.{◌≡◌, ◌≢◌, ◌↔◌, ◌<◌, map, IfOk, IsErrOf, Err};
ghost use Rattle.mux_frame.specs.Spelling.{IsBadN1};
ghost use Rattle.modem_history.specs.Acts.{act_of};
ghost use Rattle.modem_history.specs.Wholes.{UsesOnce};
ghost use Rattle.modem_core.specs.DialectReplays.{ReplaysBy, every_kind};
ghost use Rattle.modem_core.specs.Replays.{requests};
ghost use Rattle.modem_core.specs.declared.error.CoreError.TheVariants as CoreError;

use crate::driver::Core;
use crate::error::CoreError;
use crate::event::Event;
use crate::replaying::{Running, handle};
use at_text::{Dialect, UrcKind};
use modem_history::Act;
use mux_frame::{Deframer, FrameError};
use std::alloc::{AllocError, Global};

/// How many kinds of its own a dialect has at most.
const OWN_KINDS: u8 = 64;

/// The kinds of the standards, Other, and those of one's own.
fn every_kind(alloc: Global) -> Result<Vec<UrcKind>, AllocError>
    ensures { IfOk result (λ kinds. kinds.items ≡ every_kind) }
{
    let mut kinds = UrcKind::STANDARD.to_vec(alloc)?;
    for number in 0..OWN_KINDS {
        kinds.push(UrcKind::Own(number))?;
    }
    Ok(kinds)
}

/// As `replay`, at a modem whose codes are those of this dialect. Every kind of its own is listened to
/// as well.
pub fn replay_with_dialect(
    alloc: Global,
    n1: u16,
    dialect: &Dialect,
    events: &[Event],
) -> Result<Vec<Act>, CoreError>
    ensures bad_n1 { IsErrOf result CoreError.BadN1 ↔ IsBadN1 n1 }
    ensures others { result ≢ Err CoreError.NoRoom }
    ensures ok { IfOk result (λ acts.
        UsesOnce (requests events.now) → ReplaysBy dialect.now n1 events.now (map act_of acts.items)) }
{
    let mut deframer = match Deframer::new(alloc, n1) {
        Ok(deframer) => deframer,
        Err(FrameError::BadN1) => return Err(CoreError::BadN1),
        Err(_) => return Err(CoreError::NoMemory),
    };
    let kinds = every_kind(alloc)?;
    let mut running = Running {
        alloc,
        core: Core::with_dialect(alloc, n1, dialect, kinds.as_slice())?,
        acts: Vec::new(alloc),
    };
    for event in events {
        handle(&mut deframer, &mut running, event)?;
    }
    Ok(running.acts)
}
