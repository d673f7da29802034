//! Control frames in the octets that spell them (27.010, 5.2.1).
ghost use Rattle.std.specs.Prelude.{◌≡◌, ◌+◌, ◌<◌, ◌≤◌, ◌^◌, take, drop, length, slice_index, IfSome, IfNone};
ghost use Rattle.mux_station.specs.ControlFrames.{control_frame};
ghost use Rattle.mux_station.specs.ControlOctets.{AreSpelled, BeginsAt, HasFront, front_frame, front_len, info_len, lead_len};

use crate::control_frame::ControlFrame;
use arrayvec::ArrayVec;
use circular_buffer::HeapCircularBuffer;
use mux_frame::{Dlci, Kind, kind_of};

/// How many octets of a frame stand before its information, and how many octets that has.
#[derive(Clone, Copy)]
struct Extent {
    lead: usize,
    info: usize,
}

fn octet_at(octets: &HeapCircularBuffer<u8>, place: usize) -> u8
    requires { place < length octets.now.items }
    ensures { result ≡ slice_index octets.now.items place }
{
    match octets.get(place) {
        Some(octet) => *octet,
        None => 0,
    }
}

/// The octets from a place on, so many.
fn octets_from(octets: &HeapCircularBuffer<u8>, place: usize, count: usize) -> ArrayVec<u8, 129>
    requires there { place + count ≤ length octets.now.items }
    requires short { count ≤ 129 }
    ensures { result.items ≡ take count (drop place octets.now.items) }
{
    // Looked at so that the proof knows that places fit.
    let _ = octets.len();
    let mut taken = ArrayVec::new();
    for index in 0..count {
        taken.push(octet_at(octets, place + index));
    }
    taken
}

/// The extent of the frame that begins at a place.
fn extent_at(octets: &HeapCircularBuffer<u8>, place: usize) -> Extent
    requires { HasFront (drop place octets.now.items) }
    ensures lead { result.lead ≡ lead_len (drop place octets.now.items) }
    ensures info { result.info ≡ info_len (drop place octets.now.items) }
    ensures within { place + (result.lead + result.info + 2) ≤ length octets.now.items }
    ensures some { 4 ≤ result.lead }
    ensures bounded { length octets.now.items < 2 ^ 63 }
{
    // Looked at so that the proof knows that places fit.
    let _ = octets.len();
    let first = octet_at(octets, place + 3);
    let low = usize::from(first / 2);
    if first % 2 == 1 {
        return Extent { lead: 4, info: low };
    }
    let second = octet_at(octets, place + 4);
    Extent {
        lead: 5,
        info: low + 128 * usize::from(second),
    }
}

/// The frame that begins at a place.
pub(crate) fn frame_at(octets: &HeapCircularBuffer<u8>, place: usize) -> ControlFrame
    requires { HasFront (drop place octets.now.items) }
    ensures { control_frame result ≡ front_frame (drop place octets.now.items) }
{
    let extent = extent_at(octets, place);
    let address = octet_at(octets, place + 1);
    let control = octet_at(octets, place + 2);
    let info = octets_from(octets, place + extent.lead, extent.info);
    ControlFrame {
        dlci: Dlci {
            number: address / 4,
        },
        kind: kind_of(control).unwrap_or(Kind::Uih),
        cr: address / 2 % 2 == 1,
        pf: control / 16 % 2 == 1,
        info,
    }
}

/// Where the frame of this index begins, of the `count` frames that the octets spell. `None` past the last.
pub(crate) fn place_of(octets: &HeapCircularBuffer<u8>, count: usize, index: usize) -> Option<usize>
    requires { AreSpelled octets.now.items count }
    ensures none { IfNone result (count ≤ index) }
    ensures place { IfSome result (λ place. BeginsAt octets.now.items count index place) }
{
    if index >= count {
        return None;
    }
    let mut place = 0;
    for _ in 0..index {
        let extent = extent_at(octets, place);
        place += extent.lead + extent.info + 2;
    }
    Some(place)
}
