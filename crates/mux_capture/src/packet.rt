//! The octets of a capture.
ghost use Rattle.std.specs.Prelude.{◌≡◌, ◌+◌, ◌<◌, ◌≤◌, ◌++◌, length, vec_len, vec_capacity, OnOk, OnErr};
ghost use Rattle.std.specs.Duration.{as_nanos};
ghost use Rattle.mux_capture.specs.Pcap.{direction_octet, file_header, head_of, little_endian, packet, packet_of, stamp_of};
ghost use Rattle.mux_capture.specs.declared.packet.Kind.TheVariants.{Damage, Frame};

use std::alloc::AllocError;
use std::rt::Clock;
use std::time::Duration;

/// Which end sent octets.
#[derive(Clone, Copy)]
pub enum Direction {
    /// The driver, to the modem.
    ToModem,
    /// The modem, to the driver.
    FromModem,
}

/// What a packet has.
#[derive(Clone, Copy)]
pub enum Kind {
    /// A frame, from flag to flag.
    Frame,
    /// Octets that are no frame.
    Damage,
}

/// When octets passed.
#[derive(Clone, Copy)]
pub struct Stamp {
    /// Seconds since 1970 began, or since the capture did.
    pub seconds: u32,
    /// Millionths of a second beyond them, below 1,000,000.
    pub micros: u32,
}

impl Stamp {
    /// The stamp of a time: after 2^32 seconds it stays at the last second that a stamp has.
    pub fn of(time: Duration) -> Stamp
        ensures { result ≡ stamp_of (as_nanos time) }
    {
        Stamp {
            seconds: u32::try_from(time.as_secs()).unwrap_or(u32::MAX),
            micros: time.subsec_micros(),
        }
    }

    /// The time since 1970 began, as this clock says; 0 where it fails.
    pub fn now<K: Clock>(clock: &K) -> Stamp
        ensures { result.micros < 1000000 }
    {
        match clock.since_1970() {
            Ok(time) => Stamp::of(time),
            Err(_) => Stamp::of(Duration::ZERO),
        }
    }
}

/// The octets of a file's header.
const HEADER: [u8; 24] = [
    0xD4, 0xC3, 0xB2, 0xA1, 2, 0, 4, 0, 0, 0, 0, 0, 0, 0, 0, 0, 0xFF, 0xFF, 0, 0, 236, 0, 0, 0,
];

/// Writes the header of a file behind other octets. Want of memory leaves those as they were.
pub fn push_header(out: &mut Vec<u8>) -> Result<(), AllocError>
    ensures ok { OnOk result (out.new.items ≡ out.old.items ++ file_header) }
    ensures err { OnErr result (out.new.items ≡ out.old.items) }
{
    out.extend_from_slice(&HEADER)?;
    Ok(())
}

/// Writes octets behind others. There is room.
fn put(octets: &[u8], out: &mut Vec<u8>)
    requires { vec_len out.old + length octets.now ≤ vec_capacity out.old }
    ensures items { out.new.items ≡ out.old.items ++ octets.now }
    ensures length { vec_len out.new ≡ vec_len out.old + length octets.now }
    ensures room { vec_capacity out.old ≤ vec_capacity out.new }
{
    out.extend_from_slice(octets).unwrap();
}

/// The octet that says which end sent it.
fn octet_of(direction: Direction) -> u8
    ensures { result ≡ direction_octet direction }
{
    match direction {
        Direction::ToModem => 0,
        Direction::FromModem => 1,
    }
}

/// Writes a packet of a head and of octets behind others.
fn push_behind(
    stamp: Stamp,
    head: &[u8],
    octets: &[u8],
    out: &mut Vec<u8>,
) -> Result<(), AllocError>
    requires { length head.now + length octets.now ≤ 65535 }
    ensures ok { OnOk result (out.new.items ≡ out.old.items ++ packet_of stamp (head.now ++ octets.now)) }
    ensures err { OnErr result (out.new.items ≡ out.old.items) }
{
    let kept = (head.len() + octets.len()) as u32;
    out.reserve(head.len() + octets.len() + 16)?;
    put(&stamp.seconds.to_le_bytes(), out);
    put(&stamp.micros.to_le_bytes(), out);
    put(&kept.to_le_bytes(), out);
    put(&kept.to_le_bytes(), out);
    put(head, out);
    put(octets, out);
    Ok(())
}

/// Writes the packet of a frame behind other octets: the frame's octets from flag to flag, at most 65533 (a frame of 27.010 has at
/// most 32774). Want of memory leaves the octets before as they were.
pub fn push_packet(
    stamp: Stamp,
    direction: Direction,
    frame: &[u8],
    out: &mut Vec<u8>,
) -> Result<(), AllocError>
    requires { length frame.now ≤ 65533 }
    ensures ok { OnOk result (out.new.items ≡ out.old.items ++ packet Frame stamp direction frame.now) }
    ensures err { OnErr result (out.new.items ≡ out.old.items) }
{
    push_behind(stamp, &[0, octet_of(direction)], frame, out)
}

/// The same of octets that are no frame, at most 65532.
pub fn push_damage(
    stamp: Stamp,
    direction: Direction,
    octets: &[u8],
    out: &mut Vec<u8>,
) -> Result<(), AllocError>
    requires { length octets.now ≤ 65532 }
    ensures ok { OnOk result (out.new.items ≡ out.old.items ++ packet Damage stamp direction octets.now) }
    ensures err { OnErr result (out.new.items ≡ out.old.items) }
{
    push_behind(stamp, &[1, 1, octet_of(direction)], octets, out)
}
