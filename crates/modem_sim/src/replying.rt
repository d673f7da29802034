//! Command lines that come on a connection, and the replies to them.
ghost use Rattle.std.specs.Prelude.{◌≡◌, ◌≤◌, ◌++◌, ◌∷◌, ◌||◌, [], length, OnOk, OnErr, IfOk, IsErrOf};
ghost use Rattle.at_text.specs.Lines.{lines, kept_run};
ghost use Rattle.modem_sim.specs.LineSteps.{any_through, step};
ghost use Rattle.modem_sim.specs.Outboxes.{any_call};
ghost use Rattle.modem_sim.specs.Laws.{after_lines};
ghost use Rattle.modem_sim.specs.Pieces.{framed, echoed, answers, pieces_octets, reply, replies};

use crate::announcing::any_through;
use crate::error::SimError;
use crate::modem::Modem;
use at_text::{AnswerLine, LineReader};
use std::alloc::AllocError;

/// A line as a modem writes it: CR LF, text, CR LF (V.250, 5.7.1).
pub(crate) fn push_framed(text: &[u8], out: &mut Vec<u8>) -> Result<(), AllocError>
    ensures { OnOk result (out.new.items ≡ out.old.items ++ framed text.now) }
{
    out.extend_from_slice(b"\r\n")?;
    out.extend_from_slice(text)?;
    out.extend_from_slice(b"\r\n")?;
    Ok(())
}

/// A command line repeated, where that is on (V.250, 5.2.3).
fn push_echo(echo: bool, line: &[u8], out: &mut Vec<u8>) -> Result<(), AllocError>
    ensures { OnOk result (out.new.items ≡ out.old.items ++ pieces_octets (echoed echo line.now)) }
{
    if echo {
        out.extend_from_slice(line)?;
        out.push(b'\r')?;
    }
    Ok(())
}

fn push_answer(answer: &[AnswerLine], out: &mut Vec<u8>) -> Result<(), AllocError>
    ensures { OnOk result (out.new.items ≡ out.old.items ++ pieces_octets (answers answer.now)) }
{
    for line in answer {
        push_framed(line.text.as_slice(), out)?;
    }
    Ok(())
}

/// Carries out a command line, given without its CR, and appends the reply: the line repeated, as `Modem::repeats` says
/// of it, and then the answer (V.250, 5.2.3, 5.7.1). Refused with 1 NoMemory. Nothing is said of
/// `modem` and `out` then: to go on after a refusal, pass copies. Says whether the line put a call through.
pub fn reply(
    modem: &mut Modem,
    echo: bool,
    line: &[u8],
    out: &mut Vec<u8>,
) -> Result<bool, SimError>
    ensures reply { OnOk result
        (out.new.items ≡ out.old.items ++ pieces_octets (reply echo modem.old line.now)) }
    ensures state { OnOk result (modem.new ≡ (step modem.old line.now).state) }
    ensures calls { IfOk result (λ calls. calls ≡ any_through (step modem.old line.now).answer) }
    ensures no_memory { OnErr result (IsErrOf result SimError.NoMemory) }
{
    push_echo(modem.repeats(echo, line), line, out)?;
    let answer = modem.execute(line)?;
    push_answer(&answer, out)?;
    Ok(any_through(&answer))
}

/// Reads an octet, and writes the reply to the line that it ends, if it ends one; says how many lines it ends. Notes where that puts a
/// call through.
fn reply_to_octet(
    modem: &mut Modem,
    reader: &mut LineReader,
    echo: bool,
    octet: u8,
    out: &mut Vec<u8>,
    calls: &mut bool,
) -> Result<usize, SimError>
    ensures count { IfOk result (λ n. n ≡ length (lines (reader.old ++ octet ∷ []))) }
    ensures one { IfOk result (λ n. n ≤ 1) }
    ensures replies { OnOk result
        (out.new.items
        ≡ out.old.items ++ pieces_octets (replies echo modem.old (lines (reader.old ++ octet ∷ [])))) }
    ensures state { OnOk result (modem.new ≡ after_lines modem.old (lines (reader.old ++ octet ∷ []))) }
    ensures calls { OnOk result (calls.new ≡ (calls.old || any_call modem.old (lines (reader.old ++ octet ∷ [])))) }
    ensures kept { OnOk result (reader.new ≡ kept_run (reader.old ++ octet ∷ [])) }
    ensures no_memory { OnErr result (IsErrOf result SimError.NoMemory) }
{
    let Some(line) = reader.push(octet) else {
        return Ok(0);
    };
    *calls |= reply(modem, echo, line.text, out)?;
    Ok(1)
}

/// Reads octets that come on a connection, and writes the replies to the lines that end in them behind other octets; says
/// how many lines those are. Notes where one of them puts a call through. After an error nothing is said of modem, reader and octets: they
/// are to be copies.
pub(crate) fn reply_to(
    modem: &mut Modem,
    reader: &mut LineReader,
    echo: bool,
    octets: &[u8],
    out: &mut Vec<u8>,
    calls: &mut bool,
) -> Result<usize, SimError>
    requires { kept_run reader.old ≡ reader.old }
    ensures count { IfOk result (λ n. n ≡ length (lines (reader.old ++ octets.now))) }
    ensures replies { OnOk result
        (out.new.items
        ≡ out.old.items ++ pieces_octets (replies echo modem.old (lines (reader.old ++ octets.now)))) }
    ensures state { OnOk result (modem.new ≡ after_lines modem.old (lines (reader.old ++ octets.now))) }
    ensures calls { OnOk result (calls.new ≡ (calls.old || any_call modem.old (lines (reader.old ++ octets.now)))) }
    ensures kept { OnOk result (reader.new ≡ kept_run (reader.old ++ octets.now)) }
    ensures no_memory { OnErr result (IsErrOf result SimError.NoMemory) }
{
    let mut count = 0;
    for octet in octets {
        count += reply_to_octet(modem, reader, echo, *octet, out, calls)?;
    }
    Ok(count)
}
