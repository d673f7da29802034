//! One end of the line.
ghost use Rattle.std.specs.Prelude.{◌≡◌, ◌↔◌, ◌⊎◌, ◌<◌, [], List, IfOk, OnErr, IsErrOf};
ghost use Rattle.mux_frame.specs.Spelling.{IsBadN1};
ghost use Rattle.mux_station.specs.Acts.{Act as Happened};
ghost use Rattle.mux_station.specs.States.{state_of};
ghost use Rattle.mux_station.specs.Stopping.{is_stopped};
ghost use Rattle.mux_station.specs.Stages.{as_shown};
ghost use Rattle.mux_station.specs.Stations.{new_station, channel_at, stopped_in, all_stopped_in};
ghost use Rattle.mux_station.specs.Fitting.{StationFits};

use crate::channels::Channels;
use crate::control_queue::ControlQueue;
use crate::error::StationError;
use crate::repeats::Repeats;
use crate::role::{ChannelState, Role};
use mux_frame::{Dlci, N1, ProbeData};
use std::alloc::Global;
use std::marker::Model;

/// The room of the control queue beside N1, in octets of frames as written.
const QUEUE: usize = 4096;

/// A probe that waits.
#[derive(Drop)]
pub(crate) struct WaitingProbe {
    pub octets: ProbeData,
    pub ticks: Repeats,
}

/// One end of the basic option: its connections, its control queue and its send rings.
#[derive(Drop)]
pub struct Station {
    pub(crate) role: Role,
    pub(crate) n1: N1,
    pub(crate) channels: Channels,
    pub(crate) all_stopped: bool,
    pub(crate) probe: Option<WaitingProbe>,
    pub(crate) control: ControlQueue,
    /// The connection that last sent data.
    pub(crate) last: u8,
}

impl Model for Station {
    ghost use Rattle.std.specs.Prelude.{option_map};
    ghost use Rattle.mux_station.specs.Stations.{Station};
    ghost use Rattle.mux_station.specs.Keeping.{waiting_of, IsKept};

    ghost Value = { Station };

    ghost view = { λ s. record {
      role = s.role;
      n1 = s.n1.octets;
      channels = s.channels;
      all_stopped = s.all_stopped;
      probe = option_map waiting_of s.probe;
      queue = s.control.frames;
      last = s.last;
    } };

    ghost invariant = { λ s. IsKept s.n1.octets s.channels s.control s.last };
}

impl Station {
    /// A station whose connections are all Shut. N1 is the most octets of information that a frame
    /// may have. Refused with 8 BadN1 where it isn't 31 to 32767, checked first, and with 5
    /// NoMemory.
    pub fn new(alloc: Global, role: Role, n1: u16) -> Result<Station, StationError>
        ensures ok { IfOk result (λ s. s ≡ new_station role n1) }
        ensures past { IfOk result (λ s. StationFits s []) }
        ensures bad_n1 { IsErrOf result StationError.BadN1 ↔ IsBadN1 n1 }
        ensures others { OnErr result
            (IsErrOf result StationError.BadN1 ⊎ IsErrOf result StationError.NoMemory) }
    {
        let Some(n1) = N1::new(n1) else {
            return Err(StationError::BadN1);
        };
        let channels = Channels::new(alloc)?;
        let control = ControlQueue::new(alloc, QUEUE + usize::from(n1.octets))?;
        Ok(Station {
            role,
            n1,
            channels,
            all_stopped: false,
            probe: None,
            control,
            last: 0,
        })
    }

    /// Which end of the line this is.
    pub fn role(&self) -> Role
        ensures { result ≡ self.now.role }
    {
        self.role
    }

    /// N1: the most octets of information that a frame may have.
    pub fn n1(&self) -> u16
        ensures { result ≡ self.now.n1 }
    {
        self.n1.octets
    }

    /// The state of a connection.
    pub fn state(&self, dlci: Dlci) -> ChannelState
        ensures value { result ≡ as_shown (channel_at self.now dlci.number).state }
        ensures past { (past : List Happened) → StationFits self.now past
            → result ≡ as_shown (state_of self.now.role dlci.number past) }
    {
        self.channels.at(dlci).stage().shown()
    }

    /// Whether the other end has stopped a connection, by its own MSC or by FCoff for all.
    #[tactic(auto, using(crate::proofs::states::StationPasts::stopped_fits))]
    pub fn stopped(&self, dlci: Dlci) -> bool
        ensures value { result ≡ stopped_in self.now dlci.number }
        ensures past { (past : List Happened) → StationFits self.now past
            → result ≡ is_stopped self.now.role dlci.number past }
    {
        self.is_held_up(dlci)
    }

    /// Whether FCoff for all is in force.
    pub(crate) fn is_all_held_up(&self) -> bool
        ensures { result ≡ all_stopped_in self.now }
    {
        self.channels.at(Dlci::CONTROL).stage().is_opened() && self.all_stopped
    }

    pub(crate) fn is_held_up(&self, dlci: Dlci) -> bool
        ensures { result ≡ stopped_in self.now dlci.number }
    {
        if dlci.number() == 0 {
            return false;
        }
        let own = self.channels.at(dlci);
        let stops = own.stage().is_opened() && own.is_stopped();
        stops || self.is_all_held_up()
    }
}
