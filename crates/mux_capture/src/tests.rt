//! The octets of a capture, as text2pcap of Wireshark 4.0.17 writes them.
use crate::{Direction, Stamp, push_header, push_packet};
use std::test::Fail;

/// A UA on 0, on its way to the driver.
const FRAME: [u8; 6] = [0xF9, 0x03, 0x73, 0x01, 0xD7, 0xF9];

/// By `text2pcap -F pcap -l 236`, behind the header, whose most octets of a packet are another program's own.
const PACKET: [u8; 24] = [
    0x3F, 0x5B, 0x08, 0x6B, 0x01, 0, 0, 0, 8, 0, 0, 0, 8, 0, 0, 0, 0x00, 0x01, 0xF9, 0x03, 0x73,
    0x01, 0xD7, 0xF9,
];

#[test]
fn header_begins_as_others_do(rt: HostRuntime) -> Result<(), Fail> {
    let mut out = Vec::new(rt.alloc());
    push_header(&mut out)?;
    let magic: [u8; 8] = [0xD4, 0xC3, 0xB2, 0xA1, 2, 0, 4, 0];
    let link: [u8; 4] = [236, 0, 0, 0];
    assert_eq!(rt; out.len(), 24);
    assert_eq!(rt; &out[..8], magic.as_slice());
    assert_eq!(rt; &out[20..24], link.as_slice());
    Ok(())
}

#[test]
fn packet_is_that_of_text2pcap(rt: HostRuntime) -> Result<(), Fail> {
    let mut out = Vec::new(rt.alloc());
    let stamp = Stamp {
        seconds: 1_795_709_759,
        micros: 1,
    };
    push_packet(stamp, Direction::FromModem, &FRAME, &mut out)?;
    assert_eq!(rt; out.as_slice(), PACKET.as_slice());
    Ok(())
}
