//! Control frames.
ghost use Rattle.std.specs.Prelude.{◌≤◌, length};
ghost use Rattle.mux_frame.specs.Spelling.{most_info};

use arrayvec::ArrayVec;
use mux_frame::{Dlci, Kind};

/// A control frame, with its information in place: in a UIH, a message of a type, a length field and
/// at most 127 octets of value; in the other kinds none.
#[derive(Drop)]
pub struct ControlFrame {
    pub dlci: Dlci,
    pub kind: Kind,
    pub cr: bool,
    pub pf: bool,
    pub info: ArrayVec<u8, 129>,
    pub ghost plain: { length info.items ≤ most_info 129 kind },
}
