//! Why a capture isn't shown to its end.
ghost use Rattle.std.specs.Prelude.{◌≡◌};
ghost use Rattle.show_texts.specs.Captures.{fault_status, fault_words};
ghost use Rattle.show_texts.specs.declared.fault.ShowFault.TheVariants.{NoMemory};

use std::alloc::{AllocError, AllocFailed};

/// Why a capture isn't shown to its end.
#[derive(Clone, Copy, Debug)]
pub enum ShowFault {
    /// Memory was refused.
    NoMemory,
    /// The reader failed.
    Input,
    /// The reader's end stands within a packet.
    CutShort,
    /// A packet is of another form.
    BadPacket,
    /// The reader gave no end: 2^64 - 1 packets came, or as many reads in a row were interrupted.
    Endless,
    /// The writer failed.
    Output,
    /// The reader's octets don't begin with a header of a capture.
    NoCapture,
}

impl ShowFault {
    /// What is said of it.
    pub fn words(self) -> &'static str
        ensures { result.now ≡ fault_words self }
    {
        match self {
            ShowFault::NoMemory => "fault: no memory",
            ShowFault::Input => "fault: input",
            ShowFault::CutShort => "fault: the capture is cut short",
            ShowFault::BadPacket => "fault: a packet of the capture can't be read",
            ShowFault::Endless => "fault: gave up: the capture has no end",
            ShowFault::Output => "fault: output",
            ShowFault::NoCapture => {
                "error: the file is no capture of frames of 27.010 (pcap, link type 236)"
            }
        }
    }

    /// The exit status: 2 where the file is no capture, else 1.
    pub fn status(self) -> u8
        ensures { result ≡ fault_status self }
    {
        match self {
            ShowFault::NoCapture => 2,
            _ => 1,
        }
    }
}

impl From<AllocError> for ShowFault {
    ghost from_gives = { λ _ e. e ≡ NoMemory };

    fn from(_refused: AllocError) -> ShowFault {
        ShowFault::NoMemory
    }
}

impl<T: Drop> From<AllocFailed<T>> for ShowFault {
    ghost from_gives = { λ _ e. e ≡ NoMemory };

    fn from(_refused: AllocFailed<T>) -> ShowFault {
        ShowFault::NoMemory
    }
}
