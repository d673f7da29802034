//! Registration on the network.
ghost use Rattle.std.specs.Prelude.{◌≡◌};

use crate::cells::registration_in;
use std::fmt;

/// Whether the modem is registered on a network, and where (27.007, 7.2).
#[derive(Clone, Copy, Debug)]
pub struct Registration {
    /// The registration status as its number; `status` names it.
    pub stat: u8,
    /// The location area code, up to 32 bits, where it was given.
    pub lac: Option<u32>,
    /// The cell, up to 32 bits, where it was given.
    pub ci: Option<u32>,
    /// The access technology as its number (0 GSM, 2 UTRAN, 7 E-UTRAN and others), where it was given.
    pub act: Option<u8>,
}

/// The meaning of a registration status (27.007, 7.2).
#[derive(Clone, Copy, Debug)]
pub enum RegistrationStatus {
    /// 0: not registered, and not searching for an operator.
    NotRegistered,
    /// 1: registered, in the home network.
    Home,
    /// 2: not registered, but searching for an operator.
    Searching,
    /// 3: registration denied.
    Denied,
    /// 4: unknown.
    Unknown,
    /// 5: registered, roaming.
    Roaming,
    /// Any other number.
    Other(u8),
}

impl Registration {
    ghost use Rattle.at_cmds.specs.Registrations.{reported_of};
    ghost use Rattle.at_cmds.specs.Statuses.{status_of};

    /// Reads the unsolicited form, `+CREG:` and a status, optionally followed by lac and ci and then optionally by AcT.
    #[tactic(auto, unfolding(crate::specs::Registrations::reported_of))]
    pub fn read(line: &[u8]) -> Option<Registration>
        ensures { result ≡ reported_of line.now }
    {
        registration_in(line.strip_prefix(b"+CREG:")?)
    }

    /// What its status means.
    pub fn status(&self) -> RegistrationStatus
        ensures { result ≡ status_of self.now.stat }
    {
        match self.stat {
            0 => RegistrationStatus::NotRegistered,
            1 => RegistrationStatus::Home,
            2 => RegistrationStatus::Searching,
            3 => RegistrationStatus::Denied,
            4 => RegistrationStatus::Unknown,
            5 => RegistrationStatus::Roaming,
            other => RegistrationStatus::Other(other),
        }
    }
}

impl fmt::Display for RegistrationStatus {
    ghost use Rattle.std.specs.Prelude.{Some};
    ghost use Rattle.at_cmds.specs.Statuses.{status_name};

    ghost output = { λ status. Some (status_name status) };

    fn fmt<W: fmt::Write>(&self, f: &mut fmt::Formatter<W>) -> fmt::Result {
        match self {
            RegistrationStatus::NotRegistered => write!(f, "not registered"),
            RegistrationStatus::Home => write!(f, "registered at home"),
            RegistrationStatus::Searching => write!(f, "searching"),
            RegistrationStatus::Denied => write!(f, "denied"),
            RegistrationStatus::Unknown => write!(f, "unknown"),
            RegistrationStatus::Roaming => write!(f, "registered roaming"),
            RegistrationStatus::Other(stat) => write!(f, "status {stat}"),
        }
    }
}
