//! Control frames of the initiator, kept (27.010, 5.2.1 and 5.4.6).
ghost use Rattle.std.specs.Prelude.{◌≡◌, ◌≤◌, [], length, IfOk};
ghost use Rattle.mux_frame.specs.Frames.{kept_frame};
ghost use Rattle.mux_station.specs.declared.role.Role.TheVariants.{Initiator};
ghost use Rattle.mux_station.specs.ControlFrames.{control_frame};
ghost use Rattle.mux_station.specs.Written.{written};
ghost use Rattle.mux_station.specs.Tables.{message_frame};

use mux_frame::{Dlci, FrameBuf, Info, Kind};
use mux_station::{ControlFrame, Role};
use std::alloc::{AllocError, Global};

/// The frame, with its information in a vector.
fn keep(frame: &ControlFrame, info: Vec<u8>) -> FrameBuf
    requires { frame.now.info.items ≡ info.items }
    ensures { kept_frame result ≡ control_frame frame.now }
{
    FrameBuf {
        dlci: frame.dlci,
        kind: frame.kind,
        cr: frame.cr,
        pf: frame.pf,
        info: Info::from_vec(info),
    }
}

/// A frame with no information.
pub(crate) fn bare(alloc: Global, kind: Kind, dlci: Dlci) -> FrameBuf
    ensures { kept_frame result ≡ written Initiator kind dlci.number [] }
{
    let frame = ControlFrame::bare(Role::Initiator, kind, dlci);
    keep(&frame, Vec::new(alloc))
}

/// A control message of this type and value.
pub(crate) fn message(alloc: Global, octet: u8, value: &[u8]) -> Result<FrameBuf, AllocError>
    requires { length value.now ≤ 127 }
    ensures { IfOk result (λ f. kept_frame f ≡ message_frame Initiator octet value.now) }
{
    let frame = ControlFrame::message(Role::Initiator, octet, value);
    let mut info = Vec::with_capacity(alloc, frame.info.len())?;
    info.extend_from_slice(frame.info.as_slice())?;
    Ok(keep(&frame, info))
}
