//! What is said of a file that can't be used.
ghost use Rattle.std.specs.Prelude.{◌≡◌, ◌<◌, ◌≤◌, ◌⊎◌, ◌++◌, IfOk, OnOk, Some};
ghost use Rattle.std.specs.List.{flat_map};
ghost use Rattle.std.specs.String.{string_bytes};
ghost use Rattle.ctl_run.specs.Statuses.{stop_line};
ghost use Rattle.ctl_run.specs.declared.stop.Stop.TheVariants as Stop;
ghost use Rattle.ctl_text.specs.Writing.{IsBegun};
ghost use Rattle.modemctl.specs.Files.{IsFileLine, IsNoText, SaysUnread, SaysWhy, cant_words, file_line, quoted, quoted_octet, text_status};

use crate::words::text_files::TextFault;
use ctl_run::{Stop, give_up, give_up_explained};
use ctl_text::{push_line, write_octets};
use std::alloc::{AllocError, Global};
use std::io::{ErrorKind, Write};

/// Why a file that the words name can't be used.
#[derive(Clone, Copy)]
pub enum FileFault {
    /// It can't be opened.
    Closed(ErrorKind),
    /// It can't be made.
    Unmade(ErrorKind),
    /// It can't be read.
    Unread,
}

/// An octet of a path in quotes.
fn push_octet(alloc: Global, octet: u8, text: &mut String) -> Result<(), AllocError>
    ensures { OnOk result (string_bytes text.new ≡ string_bytes text.old ++ quoted_octet octet) }
{
    if octet == b'"' || octet == b'\\' {
        text.push_str("\\")?;
        return push_line(alloc, &[octet], text);
    }
    push_line(alloc, &[octet], text)
}

/// The octets of a path in quotes.
fn push_octets(alloc: Global, octets: &[u8], text: &mut String) -> Result<(), AllocError>
    ensures { OnOk result (string_bytes text.new ≡ string_bytes text.old ++ flat_map quoted_octet octets.now) }
{
    for octet in octets {
        push_octet(alloc, *octet, text)?;
    }
    Ok(())
}

/// A path in quotes: `\` stands before a quote and a `\`, and octets outside 20 to 7E hex are `\x` and two digits.
fn push_quoted(alloc: Global, path: &str, text: &mut String) -> Result<(), AllocError>
    ensures { OnOk result (string_bytes text.new ≡ string_bytes text.old ++ quoted path.now) }
{
    text.push_str("\"")?;
    push_octets(alloc, path.as_bytes(), text)?;
    text.push_str("\"")?;
    Ok(())
}

/// Why a file can't be opened or made, in the system's words.
fn cause_of(alloc: Global, fault: FileFault) -> Result<String, AllocError> {
    match fault {
        FileFault::Closed(kind) | FileFault::Unmade(kind) => format!(in alloc; "{kind}"),
        FileFault::Unread => Ok(String::new(alloc)),
    }
}

/// What can't be done with a file.
fn cant(fault: FileFault) -> &'static str
    ensures { result.now ≡ cant_words fault }
{
    match fault {
        FileFault::Closed(_) => " can't be opened: ",
        FileFault::Unmade(_) => " can't be made: ",
        FileFault::Unread => " can't be read",
    }
}

/// The line that says, behind this text, why the file of this path, which is there for this, can't be used, with these words for why.
fn line_with(
    alloc: Global,
    first: &str,
    what: &str,
    path: &str,
    fault: FileFault,
    cause: &str,
) -> Result<String, AllocError>
    ensures { IfOk result (λ line. string_bytes line ≡ file_line first.now what.now path.now fault cause.now) }
{
    let mut line = String::new(alloc);
    line.push_str(first)?;
    line.push_str("the ")?;
    line.push_str(what)?;
    line.push_str(" ")?;
    push_quoted(alloc, path, &mut line)?;
    line.push_str(cant(fault))?;
    line.push_str(cause)?;
    line.push_str("\n")?;
    Ok(line)
}

/// The same, with the system's words.
#[tactic(auto, using(crate::proofs::FileFaults::is_file_line))]
fn line_about(
    alloc: Global,
    first: &str,
    what: &str,
    path: &str,
    fault: FileFault,
) -> Result<String, AllocError>
    ensures { IfOk result (λ line. IsFileLine first.now what.now path.now fault (string_bytes line)) }
{
    let cause = cause_of(alloc, fault)?;
    let line = line_with(alloc, first, what, path, fault, cause.as_str())?;
    Ok(line)
}

/// Says behind this text why the file of this path, which is there for this, can't be used, and gives the status.
pub fn refuse_file<E: Write>(
    alloc: Global,
    faults: &mut E,
    first: &str,
    what: &str,
    path: &str,
    fault: FileFault,
) -> u8
    ensures status { result ≡ 1 }
    ensures said { SaysWhy first.now what.now path.now fault (E.contents faults.old) (E.contents faults.new) }
{
    match line_about(alloc, first, what, path, fault) {
        Ok(line) => {
            let _ = write_octets(faults, line.as_bytes());
            1
        }
        Err(_) => give_up(faults, Stop::NoMemory),
    }
}

/// Says that a file can't be read, on a second line where that is to be explained which and why, and gives the status.
#[tactic(auto, using(crate::proofs::FileFaults::unread_plainly, crate::proofs::FileFaults::unread_explained))]
fn refuse_unread<E: Write>(
    alloc: Global,
    faults: &mut E,
    what: &str,
    path: &str,
    fault: FileFault,
    explained: bool,
) -> u8
    ensures status { result ≡ 1 }
    ensures said { SaysUnread explained what.now path.now fault (E.contents faults.old) (E.contents faults.new)
        ⊎ IsBegun (E.contents faults.old) (E.contents faults.new) (stop_line Stop.NoMemory) }
{
    if explained {
        refuse_file(alloc, faults, "fault: input\n", what, path, fault)
    } else {
        give_up(faults, Stop::Input)
    }
}

/// Says why the file of this path, which is there for this, gives nothing, with the reason where that is to be explained, and gives the
/// status.
#[tactic(auto, using(crate::proofs::FileFaults::no_text, crate::proofs::FileFaults::stop_said, crate::proofs::Stops::stops_badly))]
pub fn refuse_text<E: Write>(
    alloc: Global,
    faults: &mut E,
    what: &str,
    path: &str,
    fault: TextFault,
    explained: bool,
) -> u8
    ensures status { result ≡ text_status fault }
    ensures bad { (0 < result) × (result ≤ 2) }
    ensures said { IsNoText explained what.now (Some path.now) (E.contents faults.old) (E.contents faults.new) result }
{
    match fault {
        TextFault::Closed(kind) => {
            let fault = FileFault::Closed(kind);
            refuse_unread(alloc, faults, what, path, fault, explained)
        }
        TextFault::Stopped(Stop::Input) => {
            refuse_unread(alloc, faults, what, path, FileFault::Unread, explained)
        }
        TextFault::Stopped(stop) => give_up_explained(faults, stop, explained),
    }
}
