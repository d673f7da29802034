//! What players print.
use crate::lines::Host;
use ctl_run::{Stop, push_act};
use futures::Future;
use futures::executor::block_on;
use futures::future::poll_immediate;
use modem_driver::Act;
use results::spent;
use serial_line::CutLine;
use std::fmt::{Debug, Display};

/// Prints a value by its name.
pub fn show<R: Host, T: Debug>(rt: &R, value: &T) {
    let _ = rt.println(format_args!("{value:?}"));
}

/// Prints the text of a value.
pub fn say<R: Host, T: Display>(rt: &R, value: &T) {
    let _ = rt.println(format_args!("{value}"));
}

/// Prints what came of a call: a value, or why there is none.
pub fn print_came<R: Host, T: Debug + Drop, E: Display + Drop>(rt: &R, came: Result<T, E>) {
    match came {
        Ok(value) => show(rt, &value),
        Err(why) => say(rt, &why),
    }
}

/// Prints why a call was refused, where it was.
pub fn print_refused<R: Host, T: Drop, E: Display + Drop>(rt: &R, came: Result<T, E>) {
    if let Err(why) = came {
        say(rt, &why);
    }
}

/// Prints so many of something.
pub fn print_count<R: Host>(rt: &R, count: usize, what: &str) {
    let _ = rt.println(format_args!("{count} {what}"));
}

/// Polls once, and prints what that gives.
pub fn poll<R, T, E, F>(rt: &R, future: F) -> Result<(), Stop>
where
    R: Host,
    T: Debug + Drop,
    E: Display + Drop,
    F: Future<Output = Result<T, E>> + Drop,
    requires { F.can_poll future }
{
    match block_on(rt, poll_immediate(future)) {
        Ok(Some(came)) => print_came(rt, came),
        Ok(None) => {
            let _ = rt.println("pending");
        }
        Err(_) => return Err(Stop::NoMemory),
    }
    Ok(())
}

/// Polls until one gives something, and prints that.
pub fn wait<R, T, E, F>(rt: &R, future: F) -> Result<(), Stop>
where
    R: Host,
    T: Debug + Drop,
    E: Display + Drop,
    F: Future<Output = Result<T, E>>,
    requires { F.can_poll future }
{
    match block_on(rt, future) {
        Ok(came) => print_came(rt, came),
        Err(_) => return Err(Stop::NoMemory),
    }
    Ok(())
}

/// Prints an act as `modemctl replay` does.
pub fn print_act<R: Host>(rt: &R, act: Act) -> Result<(), Stop> {
    let mut text = String::new(rt.alloc());
    spent(push_act(rt.alloc(), &act, &mut text), act)?;
    let _ = rt.print(text.as_str());
    Ok(())
}

/// Prints octets as pairs of hexadecimal digits, or `-` where there is none.
pub fn print_octets<R: Host>(rt: &R, octets: &[u8]) -> Result<(), Stop> {
    if octets.is_empty() {
        let _ = rt.println("-");
        return Ok(());
    }
    let text = hex::encode(rt.alloc(), octets)?;
    let _ = rt.println(text.as_str());
    Ok(())
}

/// Prints the octets that this line was given beyond those that were printed.
pub fn print_sent<R: Host>(rt: &R, line: &CutLine, printed: &mut usize) -> Result<(), Stop> {
    let sent = line.sent();
    if let Some(more) = sent.get(*printed..) {
        print_octets(rt, more)?;
    }
    *printed = sent.len();
    Ok(())
}

/// A mark, by which a program that counts or refuses memory knows where the calls of this name begin, or `<` where they end.
pub fn mark<R: Host>(rt: &R, marks: bool, text: &str) {
    if marks {
        let _ = rt.println(text);
    }
}
