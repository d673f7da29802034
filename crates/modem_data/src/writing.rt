//! Writes frames of data to the room of a caller (27.010, 5.2.1). (mux_frame writes frames behind the octets of a vector.)
ghost use Rattle.std.specs.Prelude.{◌≡◌, ◌+◌, ◌<◌, ◌≤◌, ◌++◌, [], ◌∷◌, length, take, drop, false};
ghost use Rattle.mux_frame.specs.CheckOctet.{check_octet_of};
ghost use Rattle.mux_frame.specs.Frames.{frame_of};
ghost use Rattle.mux_frame.specs.Spelling.{address_of, flag, spelled};
ghost use Rattle.mux_frame.specs.declared.frame.Kind.TheVariants.{Uih};

use mux_frame::{FrameView, check_octet};

const FLAG: u8 = 0xF9;

/// Writes a frame of which these are the octets before the information: flag, address, control and length.
fn put_behind(head: &[u8], info: &[u8], room: &mut [u8]) -> usize
    requires some { 1 ≤ length head.now }
    requires room { length head.now + (length info.now + 2) ≤ length room.old }
    ensures count { result ≡ length head.now + (length info.now + 2) }
    ensures put { take result room.new ≡ head.now ++ (info.now ++ check_octet_of (drop 1 head.now) ∷ flag ∷ []) }
    ensures behind { drop result room.new ≡ drop result room.old }
{
    let check = check_octet(&head[1..]);
    let (front, rest) = room.split_at_mut(head.len());
    front.copy_from_slice(head);
    let (middle, rest) = rest.split_at_mut(info.len());
    middle.copy_from_slice(info);
    rest[0] = check;
    rest[1] = FLAG;
    head.len() + (info.len() + 2)
}

/// The address octet (27.010, 5.2.1.2).
fn address_octet(frame: FrameView<'_>) -> u8
    ensures { result ≡ address_of (frame_of frame.entry) }
{
    let cr = if frame.cr { 2 } else { 0 };
    1 + cr + 4 * frame.dlci.number()
}

/// Writes a frame of data to the front of the room, and says how many octets it has. Requires that there is room.
pub(crate) fn write_data(frame: FrameView<'_>, room: &mut [u8]) -> usize
    requires kind { frame.kind ≡ Uih }
    requires pf { frame.pf ≡ false }
    requires short { length frame.info.now ≤ 32767 }
    requires room { length frame.info.now + 7 ≤ length room.old }
    ensures written { take result room.new ≡ spelled (frame_of frame.entry) }
    ensures some { 0 < result }
    ensures few { result ≤ length room.old }
    ensures behind { drop result room.new ≡ drop result room.old }
{
    let length = frame.info.len();
    let address = address_octet(frame);
    if length < 128 {
        let head = [FLAG, address, 0xEF, 1 + 2 * length as u8];
        return put_behind(&head, frame.info, room);
    }
    let head = [
        FLAG,
        address,
        0xEF,
        2 * (length % 128) as u8,
        (length / 128) as u8,
    ];
    put_behind(&head, frame.info, room)
}
