//! Lines of answers.
ghost use Rattle.std.specs.Prelude.{◌≡◌, [], ◌∷◌, ◌++◌, map, IfOk, OnOk};
ghost use Rattle.modem_sim.specs.Steps.{told_texts, error_text, line_of, good_answer, is_registered};
ghost use Rattle.modem_sim.specs.StateTexts.{pin_text, cell_text, reg_text, signal_text, oper_text, context_text, attached_text};

use crate::contexts::PdpContext;
use crate::state::{Lock, ModemState};
use at_cmds::forms::push_quoted;
use at_cmds::{Command, OperChoice, cme_text};
use at_text::{AnswerLine, Text};
use std::alloc::{AllocError, Global};

/// An answer of one line.
pub(crate) fn answer_of(alloc: Global, text: &[u8]) -> Result<Vec<AnswerLine>, AllocError>
    ensures { IfOk result (λ answer. answer.items ≡ line_of text.now ∷ []) }
{
    let mut answer = Vec::new(alloc);
    push_line(&mut answer, Vec::from_slice(alloc, text)?)?;
    Ok(answer)
}

/// The text of an error.
pub(crate) fn error_text(alloc: Global, mode: u8, number: u32) -> Result<Vec<u8>, AllocError>
    ensures { IfOk result (λ text. text.items ≡ error_text mode number) }
{
    match mode {
        0 => Vec::from_slice(alloc, b"ERROR"),
        1 => Ok(format!(in alloc; "+CME ERROR: {number}")?.into_bytes()),
        _ => {
            let words = cme_text(number).unwrap_or("");
            Ok(format!(in alloc; "+CME ERROR: {words}")?.into_bytes())
        }
    }
}

/// The answer to a command that is refused with this error.
pub(crate) fn error_answer(
    alloc: Global,
    mode: u8,
    number: u32,
) -> Result<Vec<AnswerLine>, AllocError>
    ensures { IfOk result (λ answer. answer.items ≡ line_of (error_text mode number) ∷ []) }
{
    let mut answer = Vec::new(alloc);
    push_line(&mut answer, error_text(alloc, mode, number)?)?;
    Ok(answer)
}

/// The answer to a command that is carried out.
pub(crate) fn told(
    alloc: Global,
    state: &ModemState,
    command: &Command,
) -> Result<Vec<AnswerLine>, AllocError>
    ensures { IfOk result (λ answer. answer.items ≡ good_answer (told_texts state.now command.now)) }
{
    let mut answer = Vec::new(alloc);
    push_told(alloc, state, command, &mut answer)?;
    push_line(&mut answer, Vec::from_slice(alloc, b"OK")?)?;
    Ok(answer)
}

/// Writes what a command that is carried out is told before OK behind other lines.
pub(crate) fn push_told(
    alloc: Global,
    state: &ModemState,
    command: &Command,
    answer: &mut Vec<AnswerLine>,
) -> Result<(), AllocError>
    ensures { OnOk result
        (answer.new.items ≡ answer.old.items ++ map line_of (told_texts state.now command.now)) }
{
    match command {
        Command::PinQuery => push_line(answer, pin_line(alloc, &state.lock)?),
        Command::RegQuery => push_line(
            answer,
            reg_line(alloc, state.reports, state.is_registered())?,
        ),
        Command::Signal => push_line(answer, signal_line(alloc, state.rssi, state.ber)?),
        Command::OperQuery => push_line(answer, oper_line(alloc, &state.oper)?),
        Command::ContextQuery => push_contexts(alloc, state.contexts.as_slice(), answer),
        Command::AttachQuery => push_line(answer, attached_line(alloc, state.attached)?),
        _ => Ok(()),
    }
}

/// Writes a line behind others.
pub(crate) fn push_line(answer: &mut Vec<AnswerLine>, text: Vec<u8>) -> Result<(), AllocError>
    ensures { OnOk result (answer.new.items ≡ answer.old.items ++ line_of text.items ∷ []) }
{
    answer.push(AnswerLine {
        text: Text::from(text),
    })?;
    Ok(())
}

fn pin_line(alloc: Global, lock: &Lock) -> Result<Vec<u8>, AllocError>
    ensures { IfOk result (λ text. text.items ≡ pin_text lock.now) }
{
    let text = match lock {
        Lock::Ready => "+CPIN: READY",
        Lock::NeedPin { .. } => "+CPIN: SIM PIN",
        Lock::NeedPuk => "+CPIN: SIM PUK",
    };
    Vec::from_slice(alloc, text.as_bytes())
}

#[tactic(auto, using(crate::proofs::modem_steps::AnswerLines::registered_text))]
fn reg_line(alloc: Global, reports: u8, registered: bool) -> Result<Vec<u8>, AllocError>
    ensures { IfOk result (λ text. text.items ≡ reg_text reports registered) }
{
    if !registered {
        return Ok(format!(in alloc; "+CREG: {reports},0")?.into_bytes());
    }
    let cell = cell_text(reports);
    Ok(format!(in alloc; "+CREG: {reports},1{cell}")?.into_bytes())
}

/// Where the modem is registered, as reports tell it that have the cell.
fn cell_text(reports: u8) -> &'static str
    ensures { result.now ≡ cell_text reports }
{
    if reports == 2 {
        ",\"00A1\",\"01B2C3D4\",7"
    } else {
        ""
    }
}

fn signal_line(alloc: Global, rssi: u8, ber: u8) -> Result<Vec<u8>, AllocError>
    ensures { IfOk result (λ text. text.items ≡ signal_text rssi ber) }
{
    Ok(format!(in alloc; "+CSQ: {rssi},{ber}")?.into_bytes())
}

fn oper_line(alloc: Global, oper: &OperChoice) -> Result<Vec<u8>, AllocError>
    ensures { IfOk result (λ text. text.items ≡ oper_text oper.now) }
{
    match oper {
        OperChoice::Automatic => Vec::from_slice(alloc, b"+COPS: 0,2,\"00101\",7"),
        OperChoice::Manual(oper) => {
            let mut text = Vec::from_slice(alloc, b"+COPS: 1,2,")?;
            push_quoted(&mut text, oper.as_slice())?;
            text.extend_from_slice(b",7")?;
            Ok(text)
        }
        OperChoice::Deregister => Vec::from_slice(alloc, b"+COPS: 2"),
    }
}

#[tactic(auto, using(crate::proofs::modem_steps::AnswerLines::more_contexts))]
fn push_contexts(
    alloc: Global,
    contexts: &[PdpContext],
    answer: &mut Vec<AnswerLine>,
) -> Result<(), AllocError>
    ensures { OnOk result
        (answer.new.items ≡ answer.old.items ++ map line_of (map context_text contexts.now)) }
{
    for context in contexts {
        push_line(answer, context_line(alloc, context)?)?;
    }
    Ok(())
}

pub(crate) fn context_line(alloc: Global, context: &PdpContext) -> Result<Vec<u8>, AllocError>
    ensures { IfOk result (λ text. text.items ≡ context_text context.now) }
{
    let cid = context.cid;
    let mut text = format!(in alloc; "+CGDCONT: {cid},")?.into_bytes();
    push_quoted(&mut text, context.pdp.name().as_bytes())?;
    text.push(b',')?;
    push_quoted(&mut text, context.apn.as_slice())?;
    Ok(text)
}

fn attached_line(alloc: Global, attached: bool) -> Result<Vec<u8>, AllocError>
    ensures { IfOk result (λ text. text.items ≡ attached_text attached) }
{
    let text = if attached { "+CGATT: 1" } else { "+CGATT: 0" };
    Vec::from_slice(alloc, text.as_bytes())
}
