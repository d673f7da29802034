//! Dialects: rules that are taken, and what lines are by them.
use crate::made::{made, window_of};
use at_text::*;
use std::alloc::Global;
use std::process::Abort;
use std::test::*;

fn adds_final(rt: &impl Abort, dialect: &mut Dialect, form: Form, text: &[u8]) {
    assert!(rt; dialect.add_final(form, text).is_ok());
}

fn adds_unsolicited(rt: &impl Abort, dialect: &mut Dialect, form: Form, text: &[u8], name: &[u8]) {
    assert!(rt; dialect.add_unsolicited(form, text, name).is_ok());
}

// Four rules are taken.
fn takes_four(rt: &impl Abort, dialect: &mut Dialect) {
    adds_final(rt, dialect, Form::Line, b"SEND FAIL");
    adds_unsolicited(rt, dialect, Form::Prefix, b"+QIURC:", b"QIURC");
    adds_unsolicited(rt, dialect, Form::Line, b"RDY", b"READY");
    adds_final(rt, dialect, Form::Prefix, b"O");
}

const REFUSED: [(Form, &[u8], DialectError); 3] = [
    (Form::Prefix, b"R", DialectError::Ambiguous),
    (Form::Prefix, b"A", DialectError::Command),
    (Form::Line, b"", DialectError::NoText),
];

// Four are refused.
fn refuses_four(rt: &impl Abort, dialect: &mut Dialect) {
    for (form, text, why) in REFUSED {
        assert!(rt; dialect.add_final(form, text) == Err(why));
    }
    let named = dialect.add_unsolicited(Form::Line, b"A B", b"A B");
    assert!(rt; named == Err(DialectError::BadName));
}

// What lines are by the rules that were taken.
fn reads(rt: &impl Abort, dialect: &Dialect) {
    assert!(rt; dialect.count() == 4);
    assert!(rt; dialect.final_of(b"SEND FAIL") == Some(Final::Named(0)));
    assert!(rt; dialect.final_of(b"OK") == Some(Final::Good));
    assert!(rt; dialect.unsolicited_of(b"RDY") == Some(UrcKind::Own(1)));
    assert!(rt; dialect.name_of(UrcKind::Own(1)) == Some(b"READY".as_slice()));
}

#[test]
fn rules_are_taken_or_refused_by_name(rt: HostRuntime) {
    let mut dialect = Dialect::standard(rt.alloc());
    takes_four(&rt, &mut dialect);
    refuses_four(&rt, &mut dialect);
    reads(&rt, &dialect);
}

/// What a line is.
fn sees(rt: &impl Abort, window: &mut Window, dialect: &Dialect, line: &[u8], seen: &Seen) {
    let came = made(rt, window.see_by(dialect, line));
    assert!(rt; came == *seen);
}

/// The command ends, and leaves none.
fn ends(rt: &impl Abort, window: &mut Window, dialect: &Dialect, line: &[u8]) {
    let came = made(rt, window.see_by(dialect, line));
    assert!(rt; matches!(came, Seen::Done(_)) && window.idle());
}

/// Whether an answer is whole with these two lines.
fn is_done_with(seen: &Seen, first: &[u8], last: &[u8]) -> bool {
    let Seen::Done(lines) = seen else {
        return false;
    };
    lines.len() == 2 && lines.line(0) == first && lines.line(1) == last
}

/// The command ends with these two lines, of which one came before, and leaves none.
fn ends_with(rt: &impl Abort, window: &mut Window, dialect: &Dialect, first: &[u8], last: &[u8]) {
    let came = made(rt, window.see_by(dialect, last));
    assert!(rt; is_done_with(&came, first, last) && window.idle());
}

const REPORT: Seen = Seen::Unsolicited(UrcKind::Own(0));

#[test]
fn a_window_sees_by_its_dialect(rt: HostRuntime) {
    let dialling = made(&rt, Dialect::dialling(rt.alloc()));
    let mut window = window_of(&rt, rt.alloc(), b"ATD*99#");
    sees(&rt, &mut window, &dialling, b"+CEREG: 3,,,,0,11", &REPORT);
    sees(&rt, &mut window, &dialling, b"+CEREG: 0,1", &Seen::Kept);
    ends(&rt, &mut window, &dialling, b"NO CARRIER");
}

#[test]
fn a_common_code_ends_a_command_with_its_lines(rt: HostRuntime) {
    let common = made(&rt, Dialect::common(rt.alloc()));
    let mut window = window_of(&rt, rt.alloc(), b"AT+CMGL=4");
    let line = b"+CMGL: 1,1,,23";
    sees(&rt, &mut window, &common, line, &Seen::Kept);
    sees(&rt, &mut window, &common, b"+CEREG: 2", &REPORT);
    ends_with(&rt, &mut window, &common, line, b"+CMS ERROR: 500");
}

#[test]
fn a_query_of_the_registration_is_answered(rt: HostRuntime) {
    let common = made(&rt, Dialect::common(rt.alloc()));
    let mut window = window_of(&rt, rt.alloc(), b"AT+CEREG?");
    let line = b"+CEREG: 0,1";
    sees(&rt, &mut window, &common, b"+CEREG: 2", &REPORT);
    sees(&rt, &mut window, &common, line, &Seen::Kept);
    ends_with(&rt, &mut window, &common, line, b"OK");
}

/// Of a vendor.
fn vendor(rt: &impl Abort, alloc: Global) -> Dialect {
    let mut vendor = Dialect::standard(alloc);
    adds_final(rt, &mut vendor, Form::Line, b"SEND FAIL");
    adds_unsolicited(rt, &mut vendor, Form::Prefix, b"+QIURC:", b"QIURC");
    vendor
}

#[test]
fn two_rules_of_a_vendor(rt: HostRuntime) {
    let vendor = vendor(&rt, rt.alloc());
    let mut window = window_of(&rt, rt.alloc(), b"AT+QISEND=0");
    let (code, spaced) = (b"SEND FAIL", b"SEND FAIL ");
    sees(&rt, &mut window, &vendor, b"+QIURC: \"recv\",0", &REPORT);
    sees(&rt, &mut window, &vendor, spaced, &Seen::Kept);
    ends_with(&rt, &mut window, &vendor, spaced, code);
    sees(&rt, &mut window, &vendor, code, &Seen::Other);
}
