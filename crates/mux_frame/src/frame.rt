//! Frames (27.010, 5.2.1).
ghost use Rattle.std.specs.Prelude.{◌≡◌, ◌<◌, ◌≤◌, IfOk};
ghost use Rattle.mux_frame.specs.Frames.{frame_of, kept_frame};
ghost use Rattle.mux_frame.specs.Spelling.{control_of_kind, most_info};

use crate::dlci::Dlci;
use crate::info::Info;
use std::alloc::{AllocError, Global};

/// The kinds of frame that are used (27.010, 5.3): the commands SABM and DISC, the responses UA and
/// DM, and UIH, which carries information.
#[derive(Clone, Copy, Debug)]
pub enum Kind {
    Sabm,
    Ua,
    Dm,
    Disc,
    Uih,
}

impl Kind {
    /// Its control octet, with P/F not set (27.010, 5.2.1.3).
    pub(crate) fn control(self) -> u8
        ensures value { result ≡ control_of_kind self }
        ensures room { result < 240 }
    {
        match self {
            Kind::Sabm => 0x2F,
            Kind::Ua => 0x63,
            Kind::Dm => 0x0F,
            Kind::Disc => 0x43,
            Kind::Uih => 0xEF,
        }
    }

    /// The most octets of information that a frame of this kind may have: N1 in UIH, else none.
    pub fn most_info(self, n1: u16) -> u16
        ensures value { result ≡ most_info n1 self }
        ensures within { result ≤ n1 }
    {
        match self {
            Kind::Uih => n1,
            _ => 0,
        }
    }
}

/// A frame whose information is lent, as a deframer gives it and `write_frame` takes it.
#[derive(Clone, Copy)]
pub struct FrameView<'a> {
    /// The connection, by the address octet (27.010, 5.2.1.2).
    pub dlci: Dlci,
    /// The kind, by the control octet (27.010, 5.2.1.3).
    pub kind: Kind,
    /// The C/R bit of the address octet.
    pub cr: bool,
    /// The P/F bit of the control octet.
    pub pf: bool,
    /// The information: at most N1 octets in UIH, none in the other kinds (27.010, 5.2.1.4).
    pub info: &'a [u8],
}

/// A frame that owns its information.
#[derive(Drop)]
pub struct FrameBuf {
    /// The connection, by the address octet (27.010, 5.2.1.2).
    pub dlci: Dlci,
    /// The kind, by the control octet (27.010, 5.2.1.3).
    pub kind: Kind,
    /// The C/R bit of the address octet.
    pub cr: bool,
    /// The P/F bit of the control octet.
    pub pf: bool,
    /// The information: at most N1 octets in UIH, none in the other kinds (27.010, 5.2.1.4).
    pub info: Info,
}

impl FrameBuf {
    /// The frame, lent.
    pub fn view(&self) -> FrameView<'_>
        ensures { frame_of result ≡ kept_frame self.now }
    {
        FrameView {
            dlci: self.dlci,
            kind: self.kind,
            cr: self.cr,
            pf: self.pf,
            info: self.info.as_slice(),
        }
    }
}

impl FrameView<'_> {
    /// The frame with its information copied.
    pub fn to_buf(&self, alloc: Global) -> Result<FrameBuf, AllocError>
        ensures { IfOk result (λ frame. kept_frame frame ≡ frame_of self.now) }
    {
        let octets = self.info.to_vec(alloc)?;
        Ok(FrameBuf {
            dlci: self.dlci,
            kind: self.kind,
            cr: self.cr,
            pf: self.pf,
            info: Info::from_vec(octets),
        })
    }
}
