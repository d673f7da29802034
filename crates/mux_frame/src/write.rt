//! Writes frames (27.010, 5.2.1).
ghost use Rattle.std.specs.Prelude.{◌≡◌, ◌≢◌, ◌↔◌, ◌+◌, ◌<◌, ◌≤◌, ◌++◌, ℕ, List, length, vec_capacity, OnOk, OnErr, IsErrOf};
ghost use Rattle.mux_frame.specs.Frames.{Frame, frame_of};
ghost use Rattle.mux_frame.specs.Spelling.{HasNoSpelling, Spells, address_of, body_of, control_of, header, indicator_of, spelled};

use crate::check::check_octet;
use crate::error::FrameError;
use crate::frame::FrameView;
use arrayvec::ArrayVec;

/// The flag, which stands before and after each frame (27.010, 5.2.1.1).
pub(crate) const FLAG: u8 = 0xF9;

/// The greatest length that a length indicator can tell (27.010, 5.2.1.5).
const LONGEST: usize = 32767;

fn address_octet(frame: &FrameView<'_>) -> u8
    ensures { result ≡ address_of (frame_of frame.now) }
{
    let cr = if frame.cr { 2 } else { 0 };
    1 + cr + 4 * frame.dlci.number()
}

fn control_octet(frame: &FrameView<'_>) -> u8
    ensures { result ≡ control_of (frame_of frame.now) }
{
    let pf = if frame.pf { 0x10 } else { 0 };
    frame.kind.control() + pf
}

/// What the check octet covers: address, control and length octets.
fn header_octets(frame: &FrameView<'_>) -> ArrayVec<u8, 4>
    requires { length frame.now.info.now < 32768 }
    ensures { result.items ≡
        header (frame_of frame.now) (indicator_of (length frame.now.info.now)) }
{
    let length = frame.info.len();
    let mut octets = ArrayVec::new();
    octets.push(address_octet(frame));
    octets.push(control_octet(frame));
    if length < 128 {
        octets.push(1 + 2 * length as u8);
    } else {
        octets.push(2 * (length % 128) as u8);
        octets.push((length / 128) as u8);
    }
    octets
}

/// Appends the frame between two flags, its length in the shortest form. Refused with 1 TooLong where
/// the information is longer than N1 or than 32767, or where a kind other than UIH has any. Refused
/// with 2 NoMemory only where `out` lacks room for the information and seven octets more. A refusal
/// leaves `out` as it was.
pub fn write_frame(frame: FrameView<'_>, n1: u16, out: &mut Vec<u8>) -> Result<(), FrameError>
    ensures written { OnOk result
        (out.new.items ≡ out.old.items ++ spelled (frame_of frame.entry)) }
    ensures spells { OnOk result
        (Spells n1 (body_of (frame_of frame.entry)) (frame_of frame.entry)) }
    ensures too_long { IsErrOf result FrameError.TooLong ↔ HasNoSpelling n1 (frame_of frame.entry) }
    ensures others { result ≢ Err FrameError.BadN1 }
    ensures err { OnErr result (out.new.items ≡ out.old.items) }
    ensures no_memory { result ≡ Err FrameError.NoMemory →
        vec_capacity out.old < length out.old.items + (length frame.entry.info.now + 7) }
    ensures capacity { vec_capacity out.old ≤ vec_capacity out.new }
{
    let length = frame.info.len();
    if length > usize::from(frame.kind.most_info(n1)).min(LONGEST) {
        return Err(FrameError::TooLong);
    }
    let header = header_octets(&frame);
    out.reserve(length + 7)?;
    out.push_reserved(FLAG);
    out.extend_from_slice(&header).unwrap();
    out.extend_from_slice(frame.info).unwrap();
    out.push_reserved(check_octet(&header));
    out.push_reserved(FLAG);
    Ok(())
}
