//! A dialect of one's own: three rules, a command that one of them ends, and a line of a kind of its own.
use crate::Stop;
use crate::holding::with;
use crate::own_codes::ask_both;
use at_text::{Dialect, DialectError, Form};
use modem_driver::{Answer, Endpoint, Urc};
use modem_sim::Sim;
use serial_line::CutLine;
use std::alloc::Global;
use std::io::Print;
use std::str;

/// `SEND FAIL` ends an answer; `RDY`, and what begins with `+QIURC:`, are unsolicited.
pub fn dialect(alloc: Global) -> Result<Dialect, DialectError> {
    let mut dialect = Dialect::standard(alloc);
    dialect.add_final(Form::Line, b"SEND FAIL")?;
    dialect.add_unsolicited(Form::Line, b"RDY", b"READY")?;
    dialect.add_unsolicited(Form::Prefix, b"+QIURC:", b"QIURC")?;
    Ok(dialect)
}

/// Prints the lines of an answer, and a line that came beside it, with the name of its kind.
fn print_both<R: Print>(rt: &R, dialect: &Dialect, answer: &Answer, line: &Urc) {
    if let Answer::Done(lines) = answer {
        for line in lines {
            let _ = rt.println(format_args!("{:?}", str::from_utf8(line)));
        }
    }
    if let Some(name) = dialect.name_of(line.kind) {
        let (name, text) = (str::from_utf8(name), str::from_utf8(line.line.as_slice()));
        let _ = rt.println(format_args!("{name:?}: {text:?}"));
    }
}

/// Asks, and prints what came.
fn print_asked<R: Print>(
    rt: &R,
    alloc: Global,
    dialect: &Dialect,
    driver: &mut Endpoint,
    modem: &mut Sim<CutLine>,
) -> Result<(), Stop> {
    let outcome = ask_both(alloc, driver, modem)?;
    let Some(line) = driver.poll_unsolicited() else {
        return Err(Stop::Unexpected);
    };
    print_both(rt, dialect, &outcome.answer, &line);
    Ok(())
}

/// The driver listens to the kind of the name QIURC. `with` lends it.
fn drive<R: Print>(
    rt: &R,
    alloc: Global,
    dialect: &Dialect,
    modem: &mut Sim<CutLine>,
) -> Result<(), Stop> {
    let Some(kind) = dialect.kind_named(b"QIURC") else {
        return Err(Stop::Unexpected);
    };
    let driver = Endpoint::with_dialect(alloc, 31, dialect, &[kind], 1);
    with(
        driver,
        |driver| print_asked(rt, alloc, dialect, driver, modem),
    )
}

/// Runs a driver that knows the dialect, at this modem.
pub fn run<R: Print>(rt: &R, alloc: Global, modem: &mut Sim<CutLine>) -> Result<(), Stop> {
    let dialect = dialect(alloc)?;
    drive(rt, alloc, &dialect, modem)
}
