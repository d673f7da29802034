//! A text for a prompt on connection 2 of a line: an SMS (27.005, 3.5.1).
use crate::lines::{SABM_2, dlci, expect_read, made};
use modem_data::{Begin, Relay, Until};
use modem_data_line::DataLine;
use mux_frame::Dlci;
use serial_line::{Cut, CutLine, SerialLine};
use std::alloc::Global;
use std::process::Abort;
use std::test::*;

const UA_2: &[u8] = b"\xF9\x0B\x73\x01\x92\xF9";

/// The driver's command, `AT+CMGS="123"` and CR.
const COMMAND_2: &[u8] = b"\xF9\x0B\xEF\x1DAT+CMGS=\"123\"\r\xA5\xF9";

/// The text, and the octet that ends it.
const TEXT: &[u8] = b"Hi\x1A";

/// The modem's UA; then CR LF `>` and, in a frame of its own, the blank; and behind the text the answer.
const PROMPTS: &[u8] =
    b"\xF9\x0B\x73\x01\x92\xF9\xF9\x09\xEF\x07\r\n>\x35\xF9\xF9\x09\xEF\x03 \x32\xF9\xF9\x09\xEF\x25\r\n+CMGS: 5\r\n\r\nOK\r\n\xEE\xF9";

/// The same with a final code in place of the prompt.
const REFUSES: &[u8] = b"\xF9\x0B\x73\x01\x92\xF9\xF9\x09\xEF\x27\r\n+CMS ERROR: 304\r\n\x0D\xF9";

/// What the driver reads of the two: the line end before the prompt, the answer, and the refusal.
const LINE_END: &[u8] = b"\xF9\x09\xEF\x05\r\n\xD6\xF9";

const ANSWER: &[u8] = b"\xF9\x09\xEF\x25\r\n+CMGS: 5\r\n\r\nOK\r\n\xEE\xF9";

const REFUSAL: &[u8] = b"\xF9\x09\xEF\x27\r\n+CMS ERROR: 304\r\n\x0D\xF9";

/// What leaves: the driver's frames, and behind the prompt the text.
const SENT: &[u8] =
    b"\xF9\x0B\x3F\x01\x59\xF9\xF9\x0B\xEF\x1DAT+CMGS=\"123\"\r\xA5\xF9\xF9\x0B\xEF\x07Hi\x1A\x54\xF9";

const SENT_NONE: &[u8] = b"\xF9\x0B\x3F\x01\x59\xF9\xF9\x0B\xEF\x1DAT+CMGS=\"123\"\r\xA5\xF9";

/// A line that gives these octets, so many at a time, on which connection 2 waits for a prompt.
fn line(
    rt: &impl Abort,
    alloc: Global,
    data: Dlci,
    says: &[u8],
    cuts: &[Cut],
) -> DataLine<CutLine> {
    let line = made(rt, CutLine::new(alloc, says, cuts, &[], 4096));
    let relay = made(rt, Relay::new(alloc, 31, &[data]));
    let mut line = made(rt, DataLine::new(alloc, line, relay));
    assert!(rt; line.begin(data, Begin::ByPrompt, Until::Close).is_ok());
    line
}

/// The driver opens connection 2 and sends its command. The text is given before it, and waits.
fn ask(rt: &impl Abort, line: &mut DataLine<CutLine>, data: Dlci) {
    assert!(rt; line.try_write(SABM_2) == Ok(SABM_2.len()));
    expect_read(rt, line, UA_2);
    assert!(rt; line.give(data, TEXT) == Ok(TEXT.len()));
    assert!(rt; line.try_write(COMMAND_2) == Ok(COMMAND_2.len()));
    assert!(rt; !line.flush());
}

/// The lane is ended, and nothing was data.
fn end(rt: &impl Abort, line: &mut DataLine<CutLine>, data: Dlci) {
    assert!(rt; line.lines(data).is_ok());
    let mut room = [0; 8];
    let Ok(read) = line.read(data, &mut room) else {
        panic!(rt; "not a data connection");
    };
    assert!(rt; read.count == 0 && read.is_over);
    assert!(rt; !line.flush());
}

#[test]
fn a_text_leaves_behind_its_prompt(rt: HostRuntime) {
    let data = dlci(&rt, 2);
    let cuts = [Cut::Upto(6), Cut::Upto(9), Cut::Upto(7)];
    let mut line = line(&rt, rt.alloc(), data, PROMPTS, &cuts);
    ask(&rt, &mut line, data);
    expect_read(&rt, &mut line, LINE_END);
    assert!(rt; !line.flush());
    expect_read(&rt, &mut line, b"");
    assert!(rt; line.is_behind_lines(data) && line.flush() && !line.flush());
    expect_read(&rt, &mut line, ANSWER);
    end(&rt, &mut line, data);
    let (line, relay) = line.into_parts();
    drop(relay);
    assert!(rt; line.sent() == SENT);
}

#[test]
fn no_text_leaves_where_a_final_code_comes(rt: HostRuntime) {
    let data = dlci(&rt, 2);
    let cuts = [Cut::Upto(6)];
    let mut line = line(&rt, rt.alloc(), data, REFUSES, &cuts);
    ask(&rt, &mut line, data);
    expect_read(&rt, &mut line, REFUSAL);
    end(&rt, &mut line, data);
    let (line, relay) = line.into_parts();
    drop(relay);
    assert!(rt; line.sent() == SENT_NONE);
}
