//! The frames that this end writes (27.010, 5.2.1 and 5.4.6).
ghost use Rattle.std.specs.Prelude.{◌≡◌, ◌≤◌, ◌<◌, [], length};
ghost use Rattle.mux_frame.specs.Frames.{frame_of};
ghost use Rattle.mux_frame.specs.Spelling.{most_info};
ghost use Rattle.mux_station.specs.Written.{written, written_length};
ghost use Rattle.mux_station.specs.Tables.{message_frame, msc_frame};
ghost use Rattle.mux_station.specs.ControlFrames.{control_frame};

use crate::control_frame::ControlFrame;
use crate::role::Role;
use arrayvec::ArrayVec;
use mux_frame::{Dlci, FrameView, Kind};

/// Type octets of commands (27.010, 5.4.6.3).
pub const TEST: u8 = 0x23;

pub const FCOFF: u8 = 0x63;

pub const FCON: u8 = 0xA3;

pub const CLD: u8 = 0xC3;

pub const MSC: u8 = 0xE3;

pub const NSC: u8 = 0x13;

/// Type octets of responses.
pub const TEST_RESPONSE: u8 = 0x21;

pub const CLD_RESPONSE: u8 = 0xC1;

pub const MSC_RESPONSE: u8 = 0xE1;

pub const NSC_RESPONSE: u8 = 0x11;

/// Signals of an MSC (27.010, 5.4.6.3.7): DV, RTR, RTC and EA, and the same with FC.
pub const READY: u8 = 0x8D;

pub const HELD_UP: u8 = 0x8F;

impl ControlFrame {
    /// A frame with C/R and P/F as this end writes them.
    fn written(role: Role, kind: Kind, dlci: Dlci, info: ArrayVec<u8, 129>) -> ControlFrame
        requires { length info.items ≤ most_info 129 kind }
        ensures { control_frame result ≡ written role kind dlci.number info.items }
    {
        let answers = matches!(kind, Kind::Ua | Kind::Dm);
        ControlFrame {
            dlci,
            kind,
            cr: matches!(role, Role::Initiator) != answers,
            pf: !matches!(kind, Kind::Uih),
            info,
        }
    }

    /// A frame with no information.
    pub fn bare(role: Role, kind: Kind, dlci: Dlci) -> ControlFrame
        ensures { control_frame result ≡ written role kind dlci.number [] }
    {
        ControlFrame::written(role, kind, dlci, ArrayVec::new())
    }

    /// A control message of this type and value.
    pub fn message(role: Role, octet: u8, value: &[u8]) -> ControlFrame
        requires { length value.now ≤ 127 }
        ensures { control_frame result ≡ message_frame role octet value.now }
    {
        let mut info = ArrayVec::new();
        info.push(octet);
        info.push(2 * value.len() as u8 + 1);
        info.try_extend_from_slice(value).unwrap();
        ControlFrame::written(role, Kind::Uih, Dlci::CONTROL, info)
    }

    /// A modem status command for a connection, with these signals.
    pub fn msc(role: Role, dlci: Dlci, signals: u8) -> ControlFrame
        ensures { control_frame result ≡ msc_frame role dlci.number signals }
    {
        ControlFrame::message(role, MSC, &[4 * dlci.number() + 3, signals])
    }

    /// How many octets it is as written, both flags counted.
    pub fn written_len(&self) -> usize
        ensures octets { result ≡ written_length (control_frame self.now) }
        ensures few { result ≤ 136 }
    {
        let length = self.info.len();
        if length <= 127 {
            length + 6
        } else {
            length + 7
        }
    }

    /// The frame, lent.
    pub fn view(&self) -> FrameView<'_>
        ensures { frame_of result ≡ control_frame self.now }
    {
        FrameView {
            dlci: self.dlci,
            kind: self.kind,
            cr: self.cr,
            pf: self.pf,
            info: self.info.as_slice(),
        }
    }
}
