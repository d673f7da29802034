//! What a simulated modem keeps of a connection.
ghost use Rattle.std.specs.Prelude.{◌≡◌, ◌≤◌, ◌++◌, ℕ, List, [], length, map, take, drop, min, true, false, OnOk, OnErr, IfOk, IsErrOf};
ghost use Rattle.std.specs.List.{list_any};
ghost use Rattle.at_text.specs.Lines.{is_line_end, lines, kept_run};
ghost use Rattle.modem_sim.specs.Boxes.{fresh_box, box_taken, box_heard, box_announced, box_holding, is_released, queue_of, released};
ghost use Rattle.modem_sim.specs.Outboxes.{any_call};
ghost use Rattle.modem_sim.specs.Pieces.{pieces_octets, replies};
ghost use Rattle.modem_sim.specs.Laws.{after_lines};

use crate::error::SimError;
use crate::modem::Modem;
use crate::replying::{push_framed, reply_to};
use at_text::LineReader;
use mux_frame::Dlci;
use std::alloc::{AllocError, Global};
use std::marker::Model;

/// The connection on which a command is waited for, and whether one has come there.
#[derive(Clone, Copy)]
pub(crate) struct Wanted {
    pub(crate) dlci: Dlci,
    pub(crate) over: bool,
}

/// What is kept of a connection.
#[derive(Drop)]
pub(crate) struct Channel {
    reader: LineReader,
    /// What was said and not handed to the station yet.
    unsent: Vec<u8>,
    /// What a hold holds back; once the hold is over it is moved behind the rest.
    held: Vec<u8>,
    hold: Option<Wanted>,
    /// Whether it is in a call.
    through: bool,
}

impl Model for Channel {
    ghost use Rattle.std.specs.Prelude.{◌≡◌, option_map};
    ghost use Rattle.at_text.specs.Lines.{kept_run};
    ghost use Rattle.modem_sim.specs.Boxes.{Box, waited_of};

    ghost Value = { Box };

    ghost view = { λ c. record {
      run = c.reader;
      unsent = c.unsent.items;
      held = c.held.items;
      hold = option_map waited_of c.hold;
      through = c.through;
    } };

    ghost invariant = { λ c. kept_run c.reader ≡ c.reader };
}

/// What a frame brings to its connection: what is said to its lines stands behind what was said before.
#[derive(Drop)]
pub(crate) struct Answered {
    pub(crate) reader: LineReader,
    pub(crate) said: Vec<u8>,
    /// How many lines ended.
    pub(crate) ended: usize,
    /// Whether one of them put a call through.
    pub(crate) calls: bool,
}

impl Channel {
    pub(crate) fn new(alloc: Global) -> Channel
        ensures { result ≡ fresh_box }
    {
        Channel {
            reader: LineReader::new(),
            unsent: Vec::new(alloc),
            held: Vec::new(alloc),
            hold: None,
            through: false,
        }
    }

    /// All starts afresh.
    pub(crate) fn start(&mut self)
        ensures { self.new ≡ fresh_box }
    {
        self.reader.reset();
        self.unsent.clear();
        self.held.clear();
        self.hold = None;
        self.through = false;
    }

    /// The replies to the lines that end in these octets, behind what was said before, and how many lines those are. The
    /// modem has to be a copy: after an error nothing is said of it.
    pub(crate) fn answered(
        &self,
        modem: &mut Modem,
        echo: bool,
        octets: &[u8],
    ) -> Result<Answered, SimError>
        ensures run { kept_run self.now.run ≡ self.now.run }
        ensures kept { IfOk result (λ a. a.reader ≡ kept_run (self.now.run ++ octets.now)) }
        ensures said { IfOk result
            (λ a. a.said.items
            ≡ queue_of self.now
            ++ pieces_octets (replies echo modem.old (lines (self.now.run ++ octets.now)))) }
        ensures ended { IfOk result (λ a. a.ended ≡ length (lines (self.now.run ++ octets.now))) }
        ensures calls { IfOk result (λ a. a.calls ≡ any_call modem.old (lines (self.now.run ++ octets.now))) }
        ensures state { OnOk result (modem.new ≡ after_lines modem.old (lines (self.now.run ++ octets.now))) }
        ensures no_memory { OnErr result (IsErrOf result SimError.NoMemory) }
    {
        let mut reader = self.reader.copy();
        let mut said = match self.hold {
            Some(_) => self.held.clone()?,
            None => self.unsent.clone()?,
        };
        let mut calls = false;
        let ended = reply_to(modem, &mut reader, echo, octets, &mut said, &mut calls)?;
        Ok(Answered {
            reader,
            said,
            ended,
            calls,
        })
    }

    /// Keeps what a frame brought.
    pub(crate) fn take(&mut self, answered: Answered)
        requires { kept_run answered.reader ≡ answered.reader }
        ensures { (octets : List ℕ) → answered.said.items ≡ queue_of self.old ++ octets
            → self.new ≡ box_taken (record { run = answered.reader; said = octets; calls = answered.calls }) self.old }
    {
        let Answered {
            reader,
            said,
            calls,
            ..
        } = answered;
        self.reader = reader;
        self.through = self.through || calls;
        match self.hold {
            Some(_) => self.held = said,
            None => self.unsent = said,
        }
    }

    /// Keeps octets that end no line, to which nothing is said.
    #[tactic(auto, using(crate::proofs::connections::OctetReplies::kept_again))]
    pub(crate) fn keep(&mut self, octets: &[u8])
        requires { list_any is_line_end octets.now ≡ false }
        ensures run { kept_run self.old.run ≡ self.old.run }
        ensures none { lines (self.old.run ++ octets.now) ≡ [] }
        ensures kept { self.new ≡ record self.old { run = kept_run (self.old.run ++ octets.now) } }
    {
        self.reader.keep(octets);
    }

    /// Whether it is in a call.
    pub(crate) fn is_in_call(&self) -> bool
        ensures { result ≡ self.now.through }
    {
        self.through
    }

    /// Whether a hold is over, and what it held back isn't moved yet.
    fn is_released(&self) -> bool
        ensures { result ≡ is_released self.now.hold }
    {
        match self.hold {
            Some(wanted) => wanted.over,
            None => false,
        }
    }

    /// What is to be sent, with what a hold held back that is over.
    fn all_unsent(&self) -> Result<Vec<u8>, AllocError>
        ensures { IfOk result (λ octets. octets.items ≡ (released self.now).unsent) }
    {
        let mut unsent = self.unsent.clone()?;
        if self.is_released() {
            unsent.extend_from_slice(&self.held)?;
        }
        Ok(unsent)
    }

    /// Keeps this as what is to be sent, behind which nothing is held back by a hold that is over.
    fn put_unsent(&mut self, unsent: Vec<u8>)
        ensures { self.new ≡ record (released self.old) { unsent = unsent.items } }
    {
        if self.is_released() {
            self.held.clear();
            self.hold = None;
        }
        self.unsent = unsent;
    }

    /// Moves what a hold held back behind the rest, where the hold is over, and says whether it was.
    pub(crate) fn release(&mut self) -> Result<bool, AllocError>
        ensures moved { IfOk result (λ moved. moved ≡ is_released self.old.hold) }
        ensures same { IfOk result (λ moved. moved ≡ false → self.new ≡ self.old) }
        ensures ok { OnOk result (self.new ≡ released self.old) }
        ensures err { OnErr result (self.new ≡ self.old) }
        ensures over { OnErr result (is_released self.old.hold ≡ true) }
    {
        if !self.is_released() {
            return Ok(false);
        }
        let unsent = self.all_unsent()?;
        self.put_unsent(unsent);
        Ok(true)
    }

    /// Says a line that no command asked for.
    pub(crate) fn announce(&mut self, line: &[u8]) -> Result<(), AllocError>
        ensures ok { OnOk result (self.new ≡ box_announced line.now self.old) }
        ensures err { OnErr result (self.new ≡ self.old) }
    {
        let mut unsent = self.all_unsent()?;
        push_framed(line, &mut unsent)?;
        self.put_unsent(unsent);
        Ok(())
    }

    /// Holds answers back from now on until a command has come on a connection.
    pub(crate) fn hold_for(&mut self, dlci: Dlci) -> Result<(), AllocError>
        ensures ok { OnOk result (self.new ≡ box_holding dlci.number self.old) }
        ensures err { OnErr result (self.new ≡ self.old) }
    {
        let unsent = self.all_unsent()?;
        self.put_unsent(unsent);
        self.hold = Some(Wanted { dlci, over: false });
        Ok(())
    }

    /// The first octets that the station wasn't handed yet, at most so many.
    pub(crate) fn next_octets(&self, most: usize) -> &[u8]
        ensures { result.now ≡ take (min most (length self.now.unsent)) self.now.unsent }
    {
        &self.unsent[..most.min(self.unsent.len())]
    }

    /// Notes that so many of them were handed to the station.
    pub(crate) fn handed(&mut self, count: usize)
        requires { count ≤ length self.old.unsent }
        ensures { self.new ≡ record self.old { unsent = drop count self.old.unsent } }
    {
        let rest = self.unsent.len() - count;
        self.unsent.rotate_left(count);
        self.unsent.truncate(rest);
    }

    /// So many lines ended on a connection: where a command was waited for there, one has come.
    fn hear(&mut self, dlci: Dlci, ended: usize)
        ensures { self.new ≡ box_heard dlci.number ended self.old }
    {
        if let Some(wanted) = &mut self.hold {
            wanted.over = wanted.over || (dlci.number() == wanted.dlci.number() && ended > 0);
        }
    }
}

/// Tells every connection that so many lines ended on this one. Every connection hears of each command, so that no
/// count can overflow.
pub(crate) fn hear_all(channels: &mut Vec<Channel>, dlci: Dlci, ended: usize)
    ensures { channels.new.items ≡ map (box_heard dlci.number ended) channels.old.items }
{
    for channel in channels.iter_mut() {
        channel.hear(dlci, ended);
    }
}
