//! Reads a capture.
ghost use Rattle.std.specs.Prelude.{◌≡◌, ℕ, ◌+◌, ◌<◌, ◌^◌, ◌∷◌, ◌++◌, List, length, IfSome, IsSome};
ghost use Rattle.std.specs.Option.{IsSomeAnd};
ghost use Rattle.mux_capture.specs.declared.packet.Direction.{Direction};
ghost use Rattle.mux_capture.specs.declared.packet.Stamp.{Stamp};
ghost use Rattle.mux_capture.specs.declared.packet.Kind.{Kind};
ghost use Rattle.mux_capture.specs.Pcap.{direction_octet, file_header, head_of, little_endian};
ghost use Rattle.mux_capture.specs.Reading.{IsHeaded, IsStamp, StartsWith, headed};

use crate::packet::{Direction, Kind, Stamp};

/// A packet, and what follows it.
#[derive(Clone, Copy)]
pub struct Packet<'a> {
    /// Whether it has a frame.
    pub kind: Kind,
    /// When the octets passed.
    pub stamp: Stamp,
    /// Which end sent them.
    pub direction: Direction,
    /// The octets; those of a frame from flag to flag.
    pub octets: &'a [u8],
    /// The octets behind the packet.
    pub rest: &'a [u8],
}

/// The number in four octets at the front, the lowest first, and what follows.
fn number(octets: &[u8]) -> Option<(u32, &[u8])>
    ensures some { IfSome result (λ r. octets.now ≡ little_endian 4 r.0 ++ r.1.now) }
    ensures all { (n : ℕ) (more : List ℕ) → n < 2 ^ 32 → octets.now ≡ little_endian 4 n ++ more
        → IsSomeAnd result (λ r. (r.0 ≡ n) × (r.1.now ≡ more)) }
{
    match octets {
        [a, b, c, d, rest @ ..] => Some((u32::from_le_bytes([*a, *b, *c, *d]), rest)),
        _ => None,
    }
}

/// The head of a packet: when it passed, how many of its octets are kept, which are all, and what follows.
fn head(octets: &[u8]) -> Option<(Stamp, u32, &[u8])>
    ensures some { IfSome result (λ r. octets.now ≡ headed r.0 r.1 r.2.now) }
    ensures all { (stamp : Stamp) (kept : ℕ) (more : List ℕ) → IsStamp stamp → kept < 2 ^ 32 → octets.now ≡ headed stamp kept more
        → IsSomeAnd result (λ r. (r.0 ≡ stamp) × ((r.1 ≡ kept) × (r.2.now ≡ more))) }
{
    let (seconds, left) = number(octets)?;
    let (micros, left) = number(left)?;
    let (kept, left) = number(left)?;
    let (had, left) = number(left)?;
    if kept == had {
        Some((Stamp { seconds, micros }, kept, left))
    } else {
        None
    }
}

/// Which end sent a frame, by the octet that says it.
fn direction_of(octet: u8) -> Option<Direction>
    ensures some { IfSome result (λ d. octet ≡ direction_octet d) }
    ensures all { (d : Direction) → octet ≡ direction_octet d → result ≡ Some d }
{
    match octet {
        0 => Some(Direction::ToModem),
        1 => Some(Direction::FromModem),
        _ => None,
    }
}

/// What stands in front of the octets of a packet: whether it has a frame, which end sent it, how long that is, and what follows.
fn mark(octets: &[u8]) -> Option<(Kind, Direction, usize, &[u8])>
    ensures some { IfSome result (λ r. (octets.now ≡ head_of r.0 r.1 ++ r.3.now) × (r.2 ≡ length (head_of r.0 r.1))) }
    ensures all { (kind : Kind) (d : Direction) (more : List ℕ) → octets.now ≡ head_of kind d ++ more
        → IsSomeAnd result (λ r. (r.0 ≡ kind) × ((r.1 ≡ d) × (r.3.now ≡ more))) }
{
    match octets {
        [0, way, rest @ ..] => Some((Kind::Frame, direction_of(*way)?, 2, rest)),
        [1, 1, way, rest @ ..] => Some((Kind::Damage, direction_of(*way)?, 3, rest)),
        _ => None,
    }
}

/// Reads the packet at the front of octets: one whose octets are all kept, with the head of a frame or of octets that are none.
/// `None` where there is none.
pub fn read_packet(octets: &[u8]) -> Option<Packet<'_>>
    ensures some { IfSome result (λ p. StartsWith octets.now p.kind p.stamp p.direction p.octets.now p.rest.now) }
    ensures all { (kind : Kind) (stamp : Stamp) (direction : Direction) (held more : List ℕ) → IsStamp stamp
        → length held + 3 < 2 ^ 32 → StartsWith octets.now kind stamp direction held more → IsSome result }
{
    let (stamp, kept, left) = head(octets)?;
    let (kind, direction, before, left) = mark(left)?;
    let size = usize::try_from(kept).ok()?;
    if size < before || left.len() < size - before {
        return None;
    }
    let (octets, rest) = left.split_at(size - before);
    Some(Packet {
        kind,
        stamp,
        direction,
        octets,
        rest,
    })
}

/// What follows the header of a file, where it is one of this format: times in microseconds, the lowest octet first, and the link type
/// of 27.010.
pub fn read_header(octets: &[u8]) -> Option<&[u8]>
    ensures some { IfSome result (λ rest. IsHeaded octets.now rest.now) }
    ensures all { (more : List ℕ) → octets.now ≡ file_header ++ more → IsSomeAnd result (λ rest. rest.now ≡ more) }
{
    match octets {
        [
            0xD4,
            0xC3,
            0xB2,
            0xA1,
            _,
            _,
            _,
            _,
            _,
            _,
            _,
            _,
            _,
            _,
            _,
            _,
            _,
            _,
            _,
            _,
            236,
            0,
            0,
            0,
            rest @ ..,
        ] => Some(rest),
        _ => None,
    }
}
