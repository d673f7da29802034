//! A simulated modem's end of the line, without the line.
ghost use Rattle.std.specs.Prelude.{◌≡◌, ◌↔◌, ◌⊎◌, ◌<◌, ◌≤◌, ◌==◌, ◌&&◌, ◌||◌, ◌++◌, ℕ, List, [], length, replicate, slice_set, true, false, is_none, if◌then◌else◌, IfOk, OnOk, OnErr, IsErrOf};
ghost use Rattle.std.specs.List.{list_any};
ghost use Rattle.mux_frame.specs.Frames.{frame_of};
ghost use Rattle.mux_frame.specs.Spelling.{most_info, IsBadN1};
ghost use Rattle.mux_station.specs.States.{is_opened};
ghost use Rattle.mux_station.specs.Stations.{channel_at, new_station, seen_in, setting_of};
ghost use Rattle.mux_station.specs.Sending.{got_refused};
ghost use Rattle.mux_station.specs.Fitting.{StationFits as FitsThere};
ghost use Rattle.mux_station.specs.Written.{is_data_frame, is_on};
ghost use Rattle.at_text.specs.Lines.{is_line_end, kept_run, lines};
ghost use Rattle.modem_sim.specs.Acts.{Act, end_of};
ghost use Rattle.modem_sim.specs.Boxes.{fresh_box, queue_of, box_turned};
ghost use Rattle.modem_sim.specs.Cores.{Fits, EndGoesOn, box_at, closes_all, kept_in, nothing_wired, opens_in, octets_in};

use crate::channel::{Answered, Channel, hear_all};
use crate::error::SimError;
use crate::modem::Modem;
use crate::script::{Script, Step};
use at_text::run_len;
use mux_frame::{Dlci, FrameView, Kind};
use mux_station::{ChannelState, Noted, Role, Station, StationError};
use std::alloc::{AllocError, Global};
use std::marker::Model;

/// A station, its modem, what is kept of each connection, and the script.
#[derive(Drop)]
pub(crate) struct SimCore {
    pub(crate) station: Station,
    pub(crate) modem: Modem,
    pub(crate) echo: bool,
    pub(crate) channels: Vec<Channel>,
    /// How many command lines came.
    pub(crate) come: u64,
    pub(crate) steps: Vec<Step>,
    /// The next step.
    pub(crate) next: usize,
    /// Whether a CLD was asked for or came.
    pub(crate) closed: bool,
}

impl Model for SimCore {
    ghost use Rattle.std.specs.Prelude.{◌≡◌, ◌≤◌, length, drop};
    ghost use Rattle.mux_station.specs.declared.role.Role.{Role};
    ghost use Rattle.mux_station.specs.declared.role.Role.TheVariants.{Responder};
    ghost use Rattle.modem_sim.specs.Cores.{Core};

    ghost Value = { Core };

    ghost view = { λ c. record {
      station = c.station;
      modem = c.modem;
      echo = c.echo;
      boxes = c.channels.items;
      come = c.come;
      steps = drop c.next c.steps.items;
      closed = c.closed;
    } };

    ghost invariant = { λ c. (length c.channels.items ≡ 62) × (c.next ≤ length c.steps.items) };
}

/// What an end takes memory for as it is made.
#[derive(Drop)]
pub(crate) struct Parts {
    pub(crate) station: Station,
    pub(crate) channels: Vec<Channel>,
}

/// Whether a connection is open.
pub(crate) fn is_open(station: &Station, dlci: Dlci) -> bool
    ensures { result ≡ is_opened (channel_at station.now dlci.number).state }
{
    match station.state(dlci) {
        ChannelState::Opened => true,
        ChannelState::Shut
        | ChannelState::Opening
        | ChannelState::Closing
        | ChannelState::Stopping => false,
    }
}

fn shut_channels(alloc: Global) -> Result<Vec<Channel>, AllocError>
    ensures { IfOk result (λ cs. cs.items ≡ replicate 62 fresh_box) }
{
    let mut channels = Vec::with_capacity(alloc, Dlci::COUNT)?;
    for _ in 0..Dlci::COUNT {
        channels.push(Channel::new(alloc))?;
    }
    Ok(channels)
}

impl Parts {
    /// Refusals: 2 BadN1 where N1 isn't 31 to 32767, checked first; 1 NoMemory.
    pub(crate) fn new(alloc: Global, n1: u16) -> Result<Parts, SimError>
        ensures station { IfOk result (λ p. p.station ≡ new_station Role.Responder n1) }
        ensures past { IfOk result (λ p. FitsThere p.station []) }
        ensures boxes { IfOk result (λ p. p.channels.items ≡ replicate 62 fresh_box) }
        ensures bad_n1 { IsErrOf result SimError.BadN1 ↔ IsBadN1 n1 }
        ensures others { OnErr result (IsErrOf result SimError.BadN1 ⊎ IsErrOf result SimError.NoMemory) }
    {
        let station = match Station::new(alloc, Role::Responder, n1) {
            Ok(station) => station,
            Err(StationError::BadN1) => return Err(SimError::BadN1),
            Err(_) => return Err(SimError::NoMemory),
        };
        let channels = shut_channels(alloc)?;
        Ok(Parts { station, channels })
    }
}

impl SimCore {
    /// An end to which nothing has happened yet.
    #[tactic(auto, using(crate::proofs::ends::EndAfterFrame::fits_nothing))]
    pub(crate) fn start(parts: Parts, modem: Modem, script: Script) -> SimCore
        requires boxes { parts.channels.items ≡ replicate 62 fresh_box }
        requires station { parts.station ≡ new_station Role.Responder parts.station.n1 }
        requires past { FitsThere parts.station [] }
        ensures { Fits (end_of parts.station.n1 modem script) nothing_wired result [] }
    {
        let Parts { station, channels } = parts;
        let Script { echo, steps } = script;
        SimCore {
            station,
            modem,
            echo,
            channels,
            come: 0,
            steps: steps.into_vec(),
            next: 0,
            closed: false,
        }
    }

    /// The modem.
    pub(crate) fn into_modem(self) -> Modem
        ensures { result ≡ self.modem }
    {
        let SimCore { modem, .. } = self;
        modem
    }

    /// Whether a CLD was asked for or came.
    pub(crate) fn closed(&self) -> bool
        ensures { result ≡ self.now.closed }
    {
        self.closed
    }

    /// How many control frames wait.
    pub(crate) fn queue_len(&self) -> usize
        ensures { result ≡ length self.now.station.queue }
    {
        self.station.queue_len()
    }

    /// Whether a connection is open.
    pub(crate) fn is_open(&self, dlci: Dlci) -> bool
        ensures { result ≡ is_opened (channel_at self.now.station dlci.number).state }
    {
        is_open(&self.station, dlci)
    }

    /// Whether a frame opens its connection: a SABM on 0, or while 0 is open.
    fn opens(&self, frame: FrameView<'_>) -> bool
        ensures { result ≡ opens_in self.now (frame_of frame.entry) }
    {
        match frame.kind {
            Kind::Sabm => frame.dlci.number() == 0 || self.is_open(Dlci::CONTROL),
            _ => false,
        }
    }

    /// The octets that a frame brings to an open connection.
    fn octets_in<'a>(&self, frame: FrameView<'a>) -> &'a [u8]
        ensures { result.now ≡ octets_in self.now (frame_of frame.entry) }
    {
        match frame.kind {
            Kind::Uih if frame.dlci.number() != 0 && self.is_open(frame.dlci) => frame.info,
            _ => &[],
        }
    }

    /// Takes a frame that came: executes the lines that end in it, and says the replies. False where the frames that it
    /// calls for find no room; that changes nothing, as want of memory does. Memory is taken only where the octets of a line end come. The
    /// condition is that of `Station::got`.
    pub(crate) fn got(&mut self, frame: FrameView<'_>) -> Result<bool, SimError>
        requires { length frame.info.now ≤ most_info self.old.station.n1 frame.kind }
        ensures took { IfOk result
            (λ took. took ≡ true → EndGoesOn self.old self.new (frame_of frame.entry)) }
        ensures room { IfOk result
            (λ took. took
            ≡ is_none
            (got_refused (setting_of self.old.station) (seen_in self.old.station)
            (frame_of frame.entry))) }
        ensures left { IfOk result (λ took. took ≡ false → self.new ≡ self.old) }
        ensures err { OnErr result (self.new ≡ self.old) }
        ensures no_memory { OnErr result (IsErrOf result SimError.NoMemory) }
        ensures ends { OnErr result (list_any is_line_end (octets_in self.old (frame_of frame.entry)) ≡ true) }
        ensures steps { OnOk result (self.new.steps ≡ self.old.steps) }
        ensures n1 { self.new.station.n1 ≡ self.old.station.n1 }
    {
        let opens = self.opens(frame);
        let octets = self.octets_in(frame);
        if run_len(octets) == octets.len() {
            return Ok(self.got_no_line(frame, opens, octets));
        }
        let running = self.is_open(Dlci::CONTROL);
        let mut modem = self.modem.copy()?;
        let channel = &self.channels[usize::from(frame.dlci.number())];
        let answered = channel.answered(&mut modem, self.echo, octets)?;
        let Ok(noted) = self.station.got(frame) else {
            return Ok(false);
        };
        let closes = closes_down(running, frame, noted);
        self.keep(frame.dlci, opens, modem, answered, closes);
        Ok(true)
    }

    /// Takes a frame that ends no line, and brings these octets to an open connection. It copies nothing.
    fn got_no_line(&mut self, frame: FrameView<'_>, opens: bool, octets: &[u8]) -> bool
        requires bound { length frame.info.now ≤ most_info self.old.station.n1 frame.kind }
        requires opens { opens ≡ opens_in self.old (frame_of frame) }
        requires octets { octets.now ≡ octets_in self.old (frame_of frame) }
        requires none { list_any is_line_end octets.now ≡ false }
        ensures took { result ≡ true → EndGoesOn self.old self.new (frame_of frame.entry) }
        ensures room { result
            ≡ is_none
            (got_refused (setting_of self.old.station) (seen_in self.old.station)
            (frame_of frame.entry)) }
        ensures left { result ≡ false → self.new ≡ self.old }
        ensures steps { self.new.steps ≡ self.old.steps }
        ensures n1 { self.new.station.n1 ≡ self.old.station.n1 }
    {
        let running = self.is_open(Dlci::CONTROL);
        let Ok(noted) = self.station.got(frame) else {
            return false;
        };
        let closes = closes_down(running, frame, noted);
        self.keep_octets(frame.dlci, opens, octets, closes);
        true
    }

    /// Keeps octets that end no line, which a frame brought to its connection. That starts afresh where the frame opens it.
    fn keep_octets(&mut self, dlci: Dlci, opens: bool, octets: &[u8], closes: bool)
        requires { list_any is_line_end octets.now ≡ false }
        ensures run { kept_run (box_at self.old dlci.number).run ≡ (box_at self.old dlci.number).run }
        ensures none { lines ((box_at self.old dlci.number).run ++ octets.now) ≡ [] }
        ensures kept { self.new ≡ record self.old {
          boxes = slice_set self.old.boxes dlci.number
              (if opens then fresh_box
              else record (box_at self.old dlci.number) { run = kept_run ((box_at self.old dlci.number).run ++ octets.now) });
          closed = self.old.closed || closes;
        } }
        ensures steps { self.new.steps ≡ self.old.steps }
        ensures n1 { self.new.station.n1 ≡ self.old.station.n1 }
    {
        let here = &mut self.channels[usize::from(dlci.number())];
        here.keep(octets);
        if opens {
            here.start();
        }
        self.closed = self.closed || closes;
    }

    /// Keeps what a frame brought to its connection, which starts afresh where the frame opens it.
    fn keep(&mut self, dlci: Dlci, opens: bool, modem: Modem, answered: Answered, closes: bool)
        requires { kept_run answered.reader ≡ answered.reader }
        ensures kept { (octets : List ℕ)
            → answered.said.items ≡ queue_of (box_at self.old dlci.number) ++ octets
            → self.new
            ≡ kept_in self.old dlci.number modem
            (box_turned opens true (record { run = answered.reader; said = octets; calls = answered.calls })
            (box_at self.old dlci.number)) answered.ended closes }
        ensures steps { self.new.steps ≡ self.old.steps }
        ensures n1 { self.new.station.n1 ≡ self.old.station.n1 }
    {
        let ended = answered.ended;
        self.modem = modem;
        let channel = &mut self.channels[usize::from(dlci.number())];
        if opens {
            channel.start();
        } else {
            channel.take(answered);
        }
        hear_all(&mut self.channels, dlci, ended);
        self.come = self.come.saturating_add(ended as u64);
        self.closed = self.closed || closes;
    }
}

/// Whether a frame is a CLD that came while 0 was open, by what was noted of it.
fn closes_down(running: bool, frame: FrameView<'_>, noted: Noted) -> bool
    ensures { result ≡ (running && (is_on Kind.Uih 0 (frame_of frame.entry) && closes_all noted)) }
{
    running
        && matches!(frame.kind, Kind::Uih)
        && frame.dlci.number() == 0
        && matches!(noted, Noted::AllClosed)
}
