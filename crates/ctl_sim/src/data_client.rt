//! A modem for a client whose octets are handed in and out, with files beside connections. It is the modem without files; in the
//! multiplexer a line with files stands between it and its client.
ghost use Rattle.std.specs.Prelude.{◌≡◌, IfErr, IfOk, true};
ghost use Rattle.ctl_sim.specs.DataEnds.{SaysEndings};
ghost use Rattle.ctl_sim.specs.Leaving.{IsOfModem};

use crate::data_line::{ModemLine, Unsent};
use crate::fault::ServeFault;
use crate::parts::tell;
use crate::server::{Answering, FLAG, Mode, Setup};
use crate::serving::at_lines;
use crate::watching::Watcher;
use modem_sim::Modem;
use mux_capture::{Found, first_frame};
use mux_frame::N1;
use std::alloc::AllocError;
use std::io::Write;
use std::mem;
use std::rt::Clock;

/// How many octets the modem takes at once.
const PIECE: usize = 512;

/// What goes out: octets to the client, and what is to be said of files.
#[derive(Drop)]
pub(crate) struct Going {
    pub(crate) out: Vec<u8>,
    pub(crate) unsent: Vec<Unsent>,
}

/// A modem for a client.
#[derive(Drop)]
pub(crate) struct Client<L: ModemLine> {
    /// None once the modem has failed.
    modem: Option<Mode>,
    /// At plain lines that of the last multiplexer, where what came for files is still written.
    line: L,
    /// In the multiplexer its N1.
    n1: Option<N1>,
    /// The octets that can become a frame.
    kept: Vec<u8>,
    /// The octets that nobody was told of yet.
    pending: Vec<u8>,
    pub(crate) going: Going,
}

/// What octets that can become a frame came to.
#[derive(Drop)]
enum Cut {
    /// There is no frame yet: these can become one.
    Kept(Vec<u8>),
    /// The first frame, and what stands behind it.
    Frame(Vec<u8>, Vec<u8>),
}

/// What octets that can become a frame, and others behind them, come to.
fn cut_frame(setup: &Setup, n1: N1, kept: Vec<u8>, octets: &[u8]) -> Result<Cut, AllocError> {
    let mut text = kept;
    text.extend_from_slice(octets)?;
    match first_frame(setup.alloc, n1.octets, text.as_slice(), 0)? {
        Found::None { rest, .. } => Ok(Cut::Kept(Vec::from_slice(setup.alloc, rest)?)),
        Found::Frame { frame, behind, .. } => {
            let frame = Vec::from_slice(setup.alloc, frame)?;
            let behind = Vec::from_slice(setup.alloc, behind)?;
            Ok(Cut::Frame(frame, behind))
        }
    }
}

/// Has the modem take octets, to the end of a line that enters the multiplexer at most, and writes what it says behind other octets.
/// Gives the octets behind that line, and the N1.
fn answer(
    setup: &Setup,
    modem: &mut Option<Mode>,
    octets: &[u8],
    out: &mut Vec<u8>,
) -> Result<(Vec<u8>, Option<N1>), ServeFault>
    ensures fault { IfErr result IsOfModem }
{
    let Some(now) = modem.take() else {
        return Err(ServeFault::NoMemory);
    };
    let (next, behind, entered) = now.take_part(setup, octets, out)?;
    *modem = Some(next);
    Ok((behind, entered))
}

/// Has the modem take what the line with files gives it, once, and writes what it says behind other octets. Says whether the line gave
/// some.
fn hear_line<L: ModemLine>(
    setup: &Setup,
    modem: &mut Option<Mode>,
    line: &mut L,
    said: &mut Vec<u8>,
) -> Result<bool, ServeFault>
    ensures named { L.named line.new ≡ L.named line.old }
    ensures fault { IfErr result IsOfModem }
{
    let mut piece = [0u8; PIECE];
    match line.hear(&mut piece) {
        Ok(0) => Ok(false),
        Ok(count) => {
            // Frames alone come here, and none enters a multiplexer.
            answer(setup, modem, &piece[..count], said)?;
            Ok(true)
        }
        Err(_) => Err(ServeFault::NoMemory),
    }
}

/// Has the line with files take what the modem said, once, and says whether it took some.
fn say_to_line<L: ModemLine>(
    setup: &Setup,
    line: &mut L,
    said: &mut Vec<u8>,
) -> Result<bool, ServeFault>
    ensures named { L.named line.new ≡ L.named line.old }
    ensures fault { IfErr result IsOfModem }
{
    match line.say(said.as_slice()) {
        Ok(0) => Ok(false),
        Ok(count) => {
            *said = Vec::from_slice(setup.alloc, &said[count..])?;
            Ok(true)
        }
        Err(_) => Err(ServeFault::NoMemory),
    }
}

/// Has modem and line with files take what the other gives, until neither gives any more.
fn exchange<L: ModemLine>(
    setup: &Setup,
    modem: &mut Option<Mode>,
    line: &mut L,
) -> Result<(), ServeFault>
    ensures named { L.named line.new ≡ L.named line.old }
    ensures fault { IfErr result IsOfModem }
{
    let mut said = Vec::new(setup.alloc);
    for _ in 0..u64::MAX {
        let heard = hear_line(setup, modem, line, &mut said)?;
        let went = say_to_line(setup, line, &mut said)?;
        if !heard && !went && line.is_read() {
            return if said.is_empty() {
                Ok(())
            } else {
                Err(ServeFault::NoMemory)
            };
        }
    }
    Err(ServeFault::EndlessModem)
}

/// Hands a frame to the modem by the line with files, and writes what goes to the client behind other octets.
fn pass_frame<L: ModemLine>(
    setup: &Setup,
    modem: &mut Option<Mode>,
    line: &mut L,
    frame: &[u8],
    out: &mut Vec<u8>,
) -> Result<(), ServeFault>
    ensures named { L.named line.new ≡ L.named line.old }
    ensures fault { IfErr result IsOfModem }
{
    line.put(frame)?;
    exchange(setup, modem, line)?;
    line.take(out)?;
    Ok(())
}

impl<L: ModemLine> Client<L> {
    /// At plain lines, with these files beside the line of no multiplexer yet.
    pub(crate) fn new(setup: &Setup, modem: Modem, line: L) -> Client<L>
        ensures { result.line ≡ line }
    {
        Client {
            modem: Some(at_lines(setup, modem)),
            line,
            n1: None,
            kept: Vec::new(setup.alloc),
            pending: Vec::new(setup.alloc),
            going: Going {
                out: Vec::new(setup.alloc),
                unsent: Vec::new(setup.alloc),
            },
        }
    }

    /// The multiplexer begins, with this N1.
    fn enter(&mut self, setup: &Setup, n1: N1) -> Result<(), ServeFault>
        ensures named { L.named self.new.line ≡ L.named self.old.line }
        ensures fault { IfErr result IsOfModem }
    {
        self.line
            .begin_again(setup.alloc, n1, &mut self.going.unsent)?;
        self.n1 = Some(n1);
        self.kept.clear();
        Ok(())
    }

    /// Takes octets at plain lines, to the end of a line that enters the multiplexer at most. Gives those behind it, and the N1.
    fn take_lines(
        &mut self,
        setup: &Setup,
        octets: &[u8],
    ) -> Result<(Vec<u8>, Option<N1>), ServeFault>
        ensures named { L.named self.new.line ≡ L.named self.old.line }
        ensures fault { IfErr result IsOfModem }
    {
        let (behind, entered) = answer(setup, &mut self.modem, octets, &mut self.going.out)?;
        if let Some(n1) = entered {
            self.enter(setup, n1)?;
        }
        Ok((behind, entered))
    }

    /// Takes octets in the multiplexer, to the end of the first frame at most, and gives those behind it. The frame's closing flag can be
    /// the next one's first (27.010, 5.2.6.1), or plain lines begin.
    fn take_frame(&mut self, setup: &Setup, n1: N1, octets: &[u8]) -> Result<Vec<u8>, ServeFault>
        ensures named { L.named self.new.line ≡ L.named self.old.line }
        ensures fault { IfErr result IsOfModem }
    {
        let kept = mem::replace(&mut self.kept, Vec::new(setup.alloc));
        match cut_frame(setup, n1, kept, octets)? {
            Cut::Kept(kept) => {
                self.kept = kept;
                Ok(Vec::new(setup.alloc))
            }
            Cut::Frame(frame, behind) => {
                let out = &mut self.going.out;
                pass_frame(
                    setup,
                    &mut self.modem,
                    &mut self.line,
                    frame.as_slice(),
                    out,
                )?;
                if matches!(self.modem, Some(Mode::Lines(_))) {
                    self.n1 = None;
                } else {
                    self.kept.push(FLAG)?;
                }
                Ok(behind)
            }
        }
    }

    /// Takes octets from the front, and gives those that are to be taken next: those behind, or behind a frame that was whole only now.
    /// Gives the N1 where a line enters the multiplexer.
    fn step(&mut self, setup: &Setup, octets: &[u8]) -> Result<(Vec<u8>, Option<N1>), ServeFault>
        ensures named { L.named self.new.line ≡ L.named self.old.line }
        ensures fault { IfErr result IsOfModem }
    {
        match self.n1 {
            None => self.take_lines(setup, octets),
            Some(n1) => Ok((self.take_frame(setup, n1, octets)?, None)),
        }
    }

    /// Takes octets as `step` does, and tells of those of which it is decided by then what they are, and of what is said to them.
    fn take_part<V: Watcher>(
        &mut self,
        setup: &Setup,
        watcher: &mut V,
        octets: &[u8],
    ) -> Result<Vec<u8>, ServeFault>
        ensures named { L.named self.new.line ≡ L.named self.old.line }
        ensures fault { IfErr result IsOfModem }
    {
        let before = self.going.out.len();
        let (behind, entered) = self.step(setup, octets)?;
        let undecided = self
            .kept
            .len()
            .saturating_sub(1)
            .saturating_add(behind.len());
        let decided = self.pending.len().saturating_sub(undecided);
        let (part, pending) = self.pending.split_at(decided);
        let (_, said) = self.going.out.split_at(before.min(self.going.out.len()));
        tell(watcher, part, said, entered);
        self.pending = Vec::from_slice(setup.alloc, pending)?;
        Ok(behind)
    }

    /// Takes octets that came.
    pub(crate) fn take<V: Watcher>(
        &mut self,
        setup: &Setup,
        watcher: &mut V,
        octets: &[u8],
    ) -> Result<(), ServeFault>
        ensures named { L.named self.new.line ≡ L.named self.old.line }
        ensures fault { IfErr result IsOfModem }
    {
        self.pending.extend_from_slice(octets)?;
        let mut rest = Vec::from_slice(setup.alloc, octets)?;
        for _ in 0..u64::MAX {
            if rest.is_empty() {
                return Ok(());
            }
            rest = self.take_part(setup, watcher, rest.as_slice())?;
        }
        Err(ServeFault::EndlessModem)
    }

    /// Moves octets between connections and files, while the client is silent, and tells of what goes out.
    pub(crate) fn move_on<V: Watcher>(&mut self, watcher: &mut V) -> Result<(), ServeFault>
        ensures named { L.named self.new.line ≡ L.named self.old.line }
        ensures fault { IfErr result IsOfModem }
    {
        self.line.move_all();
        if self.n1.is_some() {
            let before = self.going.out.len();
            self.line.take(&mut self.going.out)?;
            let (_, said) = self.going.out.split_at(before.min(self.going.out.len()));
            tell(watcher, &[], said, None);
        }
        Ok(())
    }

    /// Tells of the octets of which nobody was told yet: no more come.
    pub(crate) fn tell_rest<V: Watcher>(&self, watcher: &mut V) {
        tell(watcher, self.pending.as_slice(), &[], None);
    }

    /// Has what came written to the files, for ten seconds at most, and says what came of each. What goes to the client then is handed
    /// out, and it is told of. Says whether all is written.
    pub(crate) fn finish<K: Clock, V: Watcher, E: Write>(
        &mut self,
        clock: &K,
        watcher: &mut V,
        faults: &mut E,
    ) -> Result<bool, AllocError>
        ensures named { L.named self.new.line ≡ L.named self.old.line }
        ensures ends { IfOk result (λ written. written ≡ true → L.ends self.new.line (E.contents faults.old) (E.contents faults.new)) }
        ensures said { SaysEndings (E.contents faults.old) (E.contents faults.new) }
    {
        let is_written = self.line.finish(clock, &mut self.going.out, faults)?;
        if self.n1.is_none() {
            self.going.out.clear();
        }
        tell(watcher, &[], self.going.out.as_slice(), None);
        Ok(is_written)
    }
}
