//! Of typed commands.
use at_cmds::*;
use marks_tests::{begin, end};
use std::test::Fail;

#[test]
fn calls_that_take_no_memory(rt: HostRuntime) -> Result<(), Fail> {
    let line = b"+CREG: 5,\"00A1\",\"01FF\",7".to_vec(rt.alloc())?;
    begin(&rt, "Registration::read");
    assert!(&rt; Registration::read(line.as_slice()).is_some());
    assert!(&rt; Registration::read(b"+CREG: 0,1,").is_none());
    end(&rt);
    begin(&rt, "cme_text");
    for number in 0..=200 {
        let text = cme_text(number);
        assert!(&rt; number != 11 || text == Some("SIM PIN required"));
    }
    end(&rt);
    Ok(())
}
