//! Outcomes and lines that were heard, as text.
ghost use Rattle.std.specs.Prelude.{◌≡◌, ◌++◌, OnOk};
ghost use Rattle.std.specs.List.{flat_map};
ghost use Rattle.std.specs.String.{string_bytes};
ghost use Rattle.ctl_text.specs.Texts.{answer_line_text, answer_text, heard_text, heard_text_by, line_text, told_text, urc_text};

use at_text::{AnswerLines, Dialect, UrcKind};
use modem_desk::{Answer, Urc};
use std::alloc::{AllocError, Global};
use std::fmt::Write;

/// Appends octets as text, those outside 20 to 7E hex as `\x` and two digits.
pub fn push_line(alloc: Global, line: &[u8], text: &mut String) -> Result<(), AllocError>
    ensures { OnOk result (string_bytes text.new ≡ string_bytes text.old ++ line_text line.now) }
{
    for octet in line {
        let octet = *octet;
        if (0x20..=0x7E).contains(&octet) {
            text.push(char::from(octet))?;
        } else {
            text.push_str("\\x")?;
            text.push_str(hex::encode(alloc, &[octet])?.as_str())?;
        }
    }
    Ok(())
}

/// Appends the lines of an answer, each behind `| `.
pub fn push_lines(alloc: Global, lines: &AnswerLines, text: &mut String) -> Result<(), AllocError>
    ensures { OnOk result
        (string_bytes text.new ≡ string_bytes text.old ++ flat_map answer_line_text lines.now) }
{
    for i in 0..lines.len() {
        text.push_str("| ")?;
        push_line(alloc, lines.line(i), text)?;
        text.push_str("\n")?;
    }
    Ok(())
}

/// The word for an answer.
pub fn answer_word(answer: &Answer) -> &'static str
    ensures { result.now ≡ answer_text answer.now }
{
    match answer {
        Answer::Done(_) => "done",
        Answer::Opened => "opened",
        Answer::Shut => "shut",
        Answer::ProbeBack => "probeback",
        Answer::Stopped => "stopped",
        Answer::NotOpen => "notopen",
        Answer::AlreadyOpen => "alreadyopen",
        Answer::Refused => "refused",
        Answer::NoAnswer => "noanswer",
        Answer::Closed => "closed",
        Answer::ControlChannel => "controlchannel",
        Answer::LineLost => "linelost",
        Answer::Busy => "busy",
    }
}

fn urc_word(kind: UrcKind) -> &'static str
    ensures { result.now ≡ urc_text kind }
{
    match kind {
        UrcKind::Ring => "RING",
        UrcKind::Cring => "CRING",
        UrcKind::Creg => "CREG",
        UrcKind::Cgreg => "CGREG",
        UrcKind::Cgev => "CGEV",
        UrcKind::Ciev => "CIEV",
        UrcKind::Other => "OTHER",
        UrcKind::Own(_) => "OWN",
    }
}

/// Appends what the line at this place of a caller or a connection was told: `WHOSE PLACE ANSWER`, and the lines of the
/// answer.
pub fn push_told(
    alloc: Global,
    whose: u8,
    place: u64,
    answer: &Answer,
    text: &mut String,
) -> Result<(), AllocError>
    ensures { OnOk result (string_bytes text.new ≡ string_bytes text.old ++ told_text whose place answer.now) }
{
    let word = answer_word(answer);
    writeln!(text, "{whose} {place} {word}")?;
    match answer {
        Answer::Done(lines) => push_lines(alloc, lines, text),
        _ => Ok(()),
    }
}

/// Appends a line that was heard: `heard KIND D TEXT`.
pub fn push_heard(alloc: Global, urc: &Urc, text: &mut String) -> Result<(), AllocError>
    ensures { OnOk result (string_bytes text.new ≡ string_bytes text.old ++ heard_text urc.now) }
{
    let kind = urc_word(urc.kind);
    let dlci = urc.dlci.number();
    write!(text, "heard {kind} {dlci} ")?;
    push_line(alloc, urc.line.as_slice(), text)?;
    text.push_str("\n")
}

/// As `push_heard`, at a modem with the codes of this dialect: a kind of its own is named as its rule names it.
pub fn push_heard_by(
    alloc: Global,
    dialect: &Dialect,
    urc: &Urc,
    text: &mut String,
) -> Result<(), AllocError>
    ensures { OnOk result
        (string_bytes text.new ≡ string_bytes text.old ++ heard_text_by dialect.now urc.now) }
{
    let Some(name) = dialect.name_of(urc.kind) else {
        return push_heard(alloc, urc, text);
    };
    let dlci = urc.dlci.number();
    text.push_str("heard ")?;
    push_line(alloc, name, text)?;
    write!(text, " {dlci} ")?;
    push_line(alloc, urc.line.as_slice(), text)?;
    text.push_str("\n")
}
