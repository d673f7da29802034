//! Plays a list of events.
ghost use Rattle.std.specs.Prelude.{◌≡◌, ◌≢◌, ◌↔◌, ◌<◌, ◌≤◌, ◌++◌, [], ◌∷◌, map, length, None, OnOk, IfOk, IsErrOf, Err};
ghost use Rattle.mux_frame.specs.Frames.{frame_of};
ghost use Rattle.mux_frame.specs.Spelling.{most_info, IsBadN1};
ghost use Rattle.modem_history.specs.Acts.{act_of, Took, Got, Tick, Lost};
ghost use Rattle.modem_history.specs.Wholes.{UsesOnce};
ghost use Rattle.modem_core.specs.Cores.{Core as Kept};
ghost use Rattle.modem_core.specs.Running.{SendsAll, Steps, HandlesEvent, Hears, CoreIsIdle, running_of};
ghost use Rattle.modem_core.specs.Replays.{Replays, requests};
ghost use Rattle.modem_core.specs.declared.error.CoreError.TheVariants as CoreError;

use crate::driver::Core;
use crate::error::CoreError;
use crate::event::Event;
use at_text::UrcKind;
use modem_desk::Request;
use modem_history::Act;
use mux_frame::{Deframer, FrameError, FrameView};
use std::alloc::{AllocError, Global};

/// Everything goes out that may.
fn send_all(alloc: Global, core: &mut Core, acts: &mut Vec<Act>) -> Result<(), AllocError>
    ensures sends { OnOk result (SendsAll core.old core.new (map act_of acts.old.items)
        (map act_of acts.new.items)) }
    ensures idle { OnOk result (CoreIsIdle core.new) }
    ensures n1 { OnOk result (core.new.station.n1 ≡ core.old.station.n1) }
{
    while let Some(outgoing) = core.outgoing() {
        if outgoing.fresh {
            acts.push(Act::Sent(outgoing.frame.to_buf(alloc)?))?;
        }
    }
    Ok(())
}

/// A replay under way: the driver, and all acts so far.
#[derive(Drop)]
pub(crate) struct Running {
    pub(crate) alloc: Global,
    pub(crate) core: Core,
    pub(crate) acts: Vec<Act>,
}

impl Running {
    /// The acts of a call, and then everything goes out that may.
    fn go_on(&mut self, mut acts: Vec<Act>) -> Result<(), AllocError>
        ensures sends { OnOk result (SendsAll self.old.core self.new.core
            (map act_of self.old.acts.items ++ map act_of acts.items) (map act_of self.new.acts.items)) }
        ensures idle { OnOk result (CoreIsIdle self.new.core) }
        ensures n1 { OnOk result (self.new.core.station.n1 ≡ self.old.core.station.n1) }
    {
        self.acts.append(&mut acts)?;
        send_all(self.alloc, &mut self.core, &mut self.acts)
    }

    /// A request comes.
    #[tactic(auto, using(crate::proofs::replays::Pieces::steps))]
    fn took(&mut self, request: Request) -> Result<(), CoreError>
        ensures steps { OnOk result (Steps (Took request) (running_of self.old) (running_of self.new)) }
        ensures idle { OnOk result (CoreIsIdle self.new.core) }
        ensures n1 { OnOk result (self.new.core.station.n1 ≡ self.old.core.station.n1) }
        ensures no_room { result ≢ Err CoreError.NoRoom }
        ensures n1_good { result ≢ Err CoreError.BadN1 }
    {
        match self.core.took(request) {
            Ok(acts) => Ok(self.go_on(acts)?),
            Err((error, _)) => Err(error),
        }
    }

    /// A frame comes.
    #[tactic(auto, using(crate::proofs::replays::Pieces::steps))]
    fn got(&mut self, frame: FrameView<'_>) -> Result<(), CoreError>
        requires idle { CoreIsIdle self.old.core }
        requires short { length frame.info.now ≤ most_info self.old.core.station.n1 frame.kind }
        ensures steps { OnOk result (Steps (Got (frame_of frame.entry)) (running_of self.old)
            (running_of self.new)) }
        ensures idle { OnOk result (CoreIsIdle self.new.core) }
        ensures n1 { OnOk result (self.new.core.station.n1 ≡ self.old.core.station.n1) }
        ensures no_room { result ≢ Err CoreError.NoRoom }
        ensures n1_good { result ≢ Err CoreError.BadN1 }
    {
        let acts = self.core.got(frame)?;
        self.go_on(acts)?;
        Ok(())
    }

    /// A tick comes.
    #[tactic(auto, using(crate::proofs::replays::Pieces::steps))]
    fn tick(&mut self) -> Result<(), CoreError>
        ensures steps { OnOk result (Steps Tick (running_of self.old) (running_of self.new)) }
        ensures idle { OnOk result (CoreIsIdle self.new.core) }
        ensures n1 { OnOk result (self.new.core.station.n1 ≡ self.old.core.station.n1) }
        ensures no_room { result ≢ Err CoreError.NoRoom }
        ensures n1_good { result ≢ Err CoreError.BadN1 }
    {
        let acts = self.core.tick()?;
        self.go_on(acts)?;
        Ok(())
    }

    /// The line is lost.
    #[tactic(auto, using(crate::proofs::replays::Pieces::steps))]
    fn lost(&mut self) -> Result<(), CoreError>
        ensures steps { OnOk result (Steps Lost (running_of self.old) (running_of self.new)) }
        ensures idle { OnOk result (CoreIsIdle self.new.core) }
        ensures n1 { OnOk result (self.new.core.station.n1 ≡ self.old.core.station.n1) }
        ensures no_room { result ≢ Err CoreError.NoRoom }
        ensures n1_good { result ≢ Err CoreError.BadN1 }
    {
        let acts = self.core.lost()?;
        self.go_on(acts)?;
        Ok(())
    }
}

/// The frames at hand come, one after the other.
fn handle_frames(deframer: &mut Deframer, running: &mut Running) -> Result<(), CoreError>
    requires n1 { running.old.core.station.n1 ≡ deframer.old.n1 }
    requires idle { CoreIsIdle running.old.core }
    ensures all { OnOk result (deframer.new.next ≡ None) }
    ensures come { OnOk result (Hears [] deframer.old deframer.new (running_of running.old)
        (running_of running.new)) }
    ensures idle { OnOk result (CoreIsIdle running.new.core) }
    ensures n1 { OnOk result (running.new.core.station.n1 ≡ deframer.new.n1) }
    ensures no_room { result ≢ Err CoreError.NoRoom }
    ensures n1_good { result ≢ Err CoreError.BadN1 }
{
    while let Some(frame) = deframer.peek() {
        running.got(frame)?;
        deframer.advance();
    }
    Ok(())
}

/// Octets come, as much at a time as there is room for.
fn hear(deframer: &mut Deframer, running: &mut Running, octets: &[u8]) -> Result<(), CoreError>
    requires n1 { running.old.core.station.n1 ≡ deframer.old.n1 }
    requires idle { CoreIsIdle running.old.core }
    requires none { deframer.old.next ≡ None }
    ensures all { OnOk result (deframer.new.next ≡ None) }
    ensures come { OnOk result (Hears octets.now deframer.old deframer.new (running_of running.old)
        (running_of running.new)) }
    ensures idle { OnOk result (CoreIsIdle running.new.core) }
    ensures n1 { OnOk result (running.new.core.station.n1 ≡ deframer.new.n1) }
    ensures no_room { result ≢ Err CoreError.NoRoom }
    ensures n1_good { result ≢ Err CoreError.BadN1 }
{
    let mut left = octets;
    while !left.is_empty() {
        let count = deframer.feed(left);
        (_, left) = left.split_at(count);
        handle_frames(deframer, running)?;
    }
    Ok(())
}

/// Handles one event.
pub(crate) fn handle(
    deframer: &mut Deframer,
    running: &mut Running,
    event: &Event,
) -> Result<(), CoreError>
    requires n1 { running.old.core.station.n1 ≡ deframer.old.n1 }
    requires idle { CoreIsIdle running.old.core }
    requires none { deframer.old.next ≡ None }
    ensures all { OnOk result (deframer.new.next ≡ None) }
    ensures come { OnOk result (HandlesEvent event.now deframer.old deframer.new (running_of running.old)
        (running_of running.new)) }
    ensures idle { OnOk result (CoreIsIdle running.new.core) }
    ensures n1 { OnOk result (running.new.core.station.n1 ≡ deframer.new.n1) }
    ensures no_room { result ≢ Err CoreError.NoRoom }
    ensures n1_good { result ≢ Err CoreError.BadN1 }
{
    match event {
        Event::Ask(request) => running.took(request.copy()?),
        Event::Octets(octets) => hear(deframer, running, octets.as_slice()),
        Event::Tick => running.tick(),
        Event::Lost => running.lost(),
    }
}

/// Plays events through a core, each in its turn, and gives all acts in order: requests taken, frames got and sent, lines
/// heard, outcomes told. One deframer reads them all: a frame that begins in one event may end in a later one. After each
/// request, frame, tick and loss everything goes out that may. The acts are promised where no caller uses a number twice.
/// Refusals: 2 BadN1 where N1 isn't 31 to 32767 (27.010, 5.7.2), 1 NoMemory. NoRoom doesn't come.
pub fn replay(alloc: Global, n1: u16, events: &[Event]) -> Result<Vec<Act>, CoreError>
    ensures bad_n1 { IsErrOf result CoreError.BadN1 ↔ IsBadN1 n1 }
    ensures others { result ≢ Err CoreError.NoRoom }
    ensures ok { IfOk result (λ acts.
        UsesOnce (requests events.now) → Replays n1 events.now (map act_of acts.items)) }
{
    let mut deframer = match Deframer::new(alloc, n1) {
        Ok(deframer) => deframer,
        Err(FrameError::BadN1) => return Err(CoreError::BadN1),
        Err(_) => return Err(CoreError::NoMemory),
    };
    let mut running = Running {
        alloc,
        core: Core::new(alloc, n1, &UrcKind::STANDARD)?,
        acts: Vec::new(alloc),
    };
    for event in events {
        handle(&mut deframer, &mut running, event)?;
    }
    Ok(running.acts)
}
