//! Of texts.
use at_text::*;
use marks_tests::{begin, end};
use std::alloc::Global;
use std::io::Print;
use std::process::Abort;
use std::test::Fail;

// How many lines these octets end.
fn push_all(reader: &mut LineReader, octets: &[u8]) -> usize {
    let mut lines = 0usize;
    for octet in octets {
        if reader.push(*octet).is_some() {
            lines = lines.saturating_add(1);
        }
    }
    lines
}

// The calls of a reader.
fn readers<R: Abort + Print>(rt: &R, long: &[u8]) {
    begin(
        rt,
        "LineReader::new, LineReader::push, LineReader::reset, LineReader::copy",
    );
    let mut reader = LineReader::new();
    assert!(rt; push_all(&mut reader, long) == 0);
    let mut copy = reader.copy();
    reader.reset();
    assert!(rt; push_all(&mut reader, b"\rOK\r\nRING\r\n") == 2);
    assert!(rt; push_all(&mut copy, b"\n") == 1);
    end(rt);
}

// The calls of a line that is read by runs of octets.
fn runs<R: Abort + Print>(rt: &R, long: &[u8]) {
    begin(
        rt,
        "run_len, LineRun::new, LineRun::keep, LineRun::mark, LineRun::end, LineRun::go_back, LineRun::reset, LineRun::skips",
    );
    let run = &long[..run_len(long)];
    let mut line = LineRun::new();
    assert!(rt; line.skips(b"\r"));
    line.keep(run);
    let mark = line.mark();
    assert!(rt; line.end(run).is_some());
    line.go_back(mark);
    assert!(rt; !line.skips(b"\r"));
    line.reset();
    assert!(rt; line.skips(b"\r"));
    end(rt);
}

// What lines are read as.
fn lines<R: Abort + Print>(rt: &R, long: &[u8]) {
    begin(rt, "final_of, unsolicited_of");
    assert!(rt; final_of(b"+CME ERROR: 11") == Some(Final::Cme(Some(11))));
    assert!(rt; final_of(long) == None);
    assert!(rt; unsolicited_of(b"+CREG: 1,\"00A1\",\"1\"") == Some(UrcKind::Creg));
    assert!(rt; unsolicited_of(long) == None);
    end(rt);
}

// The calls of a window.
fn windows<R: Abort + Print>(rt: &R, alloc: Global, line: &CommandLine) {
    begin(
        rt,
        "Window::new, Window::begin, Window::mark, Window::go_back, Window::drop_command, Window::idle, CommandLine::text",
    );
    let mut window = Window::new(alloc);
    window.begin(line);
    let mark = window.mark();
    window.go_back(mark);
    assert!(rt; !window.idle());
    window.drop_command();
    assert!(rt; window.idle());
    assert!(rt; line.text() == b"AT+CSQ".as_slice());
    end(rt);
}

// The same of an answer whose command the caller lends.
fn answers<R: Abort + Print>(rt: &R, alloc: Global) {
    begin(
        rt,
        "UnderWay::new, UnderWay::begin, UnderWay::mark, UnderWay::go_back, UnderWay::drop_command, UnderWay::idle",
    );
    let mut under_way = UnderWay::new(alloc);
    under_way.begin();
    let mark = under_way.mark();
    under_way.go_back(mark);
    assert!(rt; !under_way.idle());
    under_way.drop_command();
    assert!(rt; under_way.idle());
    end(rt);
}

#[test]
fn calls_that_take_no_memory(rt: HostRuntime) -> Result<(), Fail> {
    let alloc = rt.alloc();
    let long = vec![in alloc; b'x'; 1000]?;
    let line = CommandLine::new(alloc, b"AT+CSQ")?;
    readers(&rt, long.as_slice());
    runs(&rt, long.as_slice());
    lines(&rt, long.as_slice());
    windows(&rt, alloc, &line);
    answers(&rt, alloc);
    Ok(())
}
