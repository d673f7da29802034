//! Tests that counting succeeds where there is memory.

use crate::counts::Counts;
use crate::mux_frame_c_count;
use std::test::Fail;

#[test]
fn frames_are_counted(rt: HostRuntime) {
    let octets = [
        0xF9, 0x03, 0x73, 0x01, 0xD7, 0xF9, 0x05, 0xEF, 0x05, 0xF9, 0xF9, 0x51, 0xF9,
    ];
    let mut counts = Counts {
        frames: 0,
        information: 0,
    };
    let status = mux_frame_c_count(rt.alloc(), 31, &octets, &mut counts);
    assert!(&rt; status == 0);
    assert!(&rt; counts.frames == 2);
    assert!(&rt; counts.information == 2);
}

#[test]
fn in_no_octets_there_are_no_frames(rt: HostRuntime) {
    for n1 in [31, 32767] {
        let mut counts = Counts {
            frames: 7,
            information: 7,
        };
        let status = mux_frame_c_count(rt.alloc(), n1, &[], &mut counts);
        assert!(&rt; status == 0);
        assert!(&rt; counts.frames == 0);
        assert!(&rt; counts.information == 0);
    }
}

// A UA of 0 1,365 times, and two flags: 8192 octets, which are two pieces.
#[test]
fn frames_in_8192_octets(rt: HostRuntime) -> Result<(), Fail> {
    let mut octets = Vec::with_capacity(rt.alloc(), 8192)?;
    for _ in 0..1365 {
        octets.extend_from_slice(&[0xF9, 0x03, 0x73, 0x01, 0xD7, 0xF9])?;
    }
    octets.extend_from_slice(&[0xF9, 0xF9])?;
    let mut counts = Counts {
        frames: 0,
        information: 0,
    };
    let status = mux_frame_c_count(rt.alloc(), 31, octets.as_slice(), &mut counts);
    assert!(&rt; octets.len() == 8192 && status == 0);
    assert!(&rt; counts.frames == 1365 && counts.information == 0);
    Ok(())
}
