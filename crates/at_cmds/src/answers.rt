//! Reads the lines of answers.
ghost use Rattle.std.specs.Prelude.{◌≡◌, ◌≤◌, true, Some, IfOk, OnErr, length, drop, option_map, codes};
ghost use Rattle.std.specs.List.{filter_map, position_from};
ghost use Rattle.at_text.specs.Finals.{final_of};
ghost use Rattle.at_text.specs.Octets.{skip_blanks};
ghost use Rattle.at_cmds.specs.Cme.{cme_number};
ghost use Rattle.at_cmds.specs.declared.reply.Reply.TheVariants.{Pin};
ghost use Rattle.at_cmds.specs.Params.{parameters};
ghost use Rattle.at_cmds.specs.Replies.{Answers, cme_fault, fault_of, fault_by, first_named, read_line, pin_of, reg_of, signal_of, oper_of, oper_reply_of, named_of, oper_act_of, attached_of, named_parts, context_of, contexts_of, context_in, context_parts, is_malformed_context, takes_memory};

use crate::cells::registration_in;
use crate::cme::cme_number;
use crate::error::ReplyFault;
use crate::params::first_param;
use crate::reply::{Context, Contexts, NamedOper, PinState, Reply};
use crate::texts::Quoted;
use crate::values::{number_of, quoted_of};
use at_text::octets::skip_blanks;
use at_text::{AnswerLines, Final, Text, final_of};
use std::alloc::{AllocError, Global};

/// How a CME code begins.
const CME: &[u8] = b"+CME ERROR:";

/// How a line with a context begins.
const CONTEXT: &[u8] = b"+CGDCONT:";

/// Why the last line leaves no reply, if it leaves none.
#[tactic(auto, unfolding(crate::specs::Replies::fault_of))]
pub(crate) fn fault_in(lines: &AnswerLines) -> Option<ReplyFault>
    ensures { result ≡ fault_of lines.now }
{
    match lines.last() {
        Some(line) => fault_by(line),
        None => Some(ReplyFault::Missing),
    }
}

#[tactic(auto, using(crate::proofs::AnswerLines::cme_long))]
fn fault_by(text: &[u8]) -> Option<ReplyFault>
    ensures { result ≡ fault_by (final_of text.now) text.now }
{
    match final_of(text) {
        Some(Final::Good) => None,
        Some(Final::Error) => Some(ReplyFault::PlainError),
        Some(Final::Cme(Some(number))) => Some(ReplyFault::Cme(number)),
        Some(Final::Cme(None)) => Some(words_fault(text)),
        Some(Final::Named(_)) | None => Some(ReplyFault::Missing),
    }
}

/// A CME code without a number: that of its text, where it is known.
fn words_fault(code: &[u8]) -> ReplyFault
    requires { 11 ≤ length code.now }
    ensures { result ≡ cme_fault (cme_number (skip_blanks (drop 11 code.now))) }
{
    match cme_number(skip_blanks(&code[CME.len()..])) {
        Some(number) => ReplyFault::Cme(number),
        None => ReplyFault::PlainError,
    }
}

/// The first line that begins with a name: its index, and what follows the name.
#[tactic(auto, using(crate::proofs::AnswerLines::named_here, crate::proofs::AnswerLines::named_passed), unfolding(crate::specs::Replies::first_named))]
fn first_named<'a>(lines: &'a AnswerLines, name: &[u8]) -> Option<(usize, &'a [u8])>
    ensures { option_map (λ line. (line.0, line.1.now)) result ≡ first_named name.now lines.now }
{
    for i in 0..lines.len() {
        let text = lines.line(i);
        if text.starts_with(name) {
            return Some((i, &text[name.len()..]));
        }
    }
    None
}

pub(crate) fn pin_reply(alloc: Global, lines: &AnswerLines) -> Result<Reply, ReplyFault>
    ensures { Answers result
        (read_line (λ text. Some (Pin (pin_of text))) (first_named (codes "+CPIN:") lines.now)) }
{
    let Some((_, text)) = first_named(lines, b"+CPIN:") else {
        return Err(ReplyFault::Missing);
    };
    let text = skip_blanks(text);
    let state = if text == b"READY".as_slice() {
        PinState::Ready
    } else if text == b"SIM PIN".as_slice() {
        PinState::SimPin
    } else if text == b"SIM PUK".as_slice() {
        PinState::SimPuk
    } else {
        PinState::Other(Text::from(Vec::from_slice(alloc, text)?))
    };
    Ok(Reply::Pin(state))
}

pub(crate) fn reg_reply(lines: &AnswerLines) -> Result<Reply, ReplyFault>
    ensures { Answers result
        (read_line (λ text. reg_of (parameters text)) (first_named (codes "+CREG:") lines.now)) }
{
    let Some((index, text)) = first_named(lines, b"+CREG:") else {
        return Err(ReplyFault::Missing);
    };
    reg_in(text).ok_or(ReplyFault::Malformed(index))
}

#[tactic(auto, unfolding(crate::specs::Replies::reg_of, crate::specs::Registrations::registration_of))]
fn reg_in(text: &[u8]) -> Option<Reply>
    ensures { result ≡ reg_of (parameters text.now) }
{
    let (n, rest) = first_param(text);
    let n = number_of(n)?;
    let registration = registration_in(rest?)?;
    Some(Reply::Reg { n, registration })
}

pub(crate) fn signal_reply(lines: &AnswerLines) -> Result<Reply, ReplyFault>
    ensures { Answers result
        (read_line (λ text. signal_of (parameters text)) (first_named (codes "+CSQ:") lines.now)) }
{
    let Some((index, text)) = first_named(lines, b"+CSQ:") else {
        return Err(ReplyFault::Missing);
    };
    signal_in(text).ok_or(ReplyFault::Malformed(index))
}

#[tactic(auto, unfolding(crate::specs::Replies::signal_of))]
fn signal_in(text: &[u8]) -> Option<Reply>
    ensures { result ≡ signal_of (parameters text.now) }
{
    let (rssi, rest) = first_param(text);
    let (ber, _) = first_param(rest?);
    Some(Reply::Signal {
        rssi: number_of(rssi)?,
        ber: number_of(ber)?,
    })
}

pub(crate) fn attach_reply(lines: &AnswerLines) -> Result<Reply, ReplyFault>
    ensures { Answers result (read_line attached_of (first_named (codes "+CGATT:") lines.now)) }
{
    let Some((index, text)) = first_named(lines, b"+CGATT:") else {
        return Err(ReplyFault::Missing);
    };
    match skip_blanks(text) {
        b"0" => Ok(Reply::Attached(false)),
        b"1" => Ok(Reply::Attached(true)),
        _ => Err(ReplyFault::Malformed(index)),
    }
}

pub(crate) fn oper_reply(alloc: Global, lines: &AnswerLines) -> Result<Reply, ReplyFault>
    ensures { Answers result (read_line oper_reply_of (first_named (codes "+COPS:") lines.now)) }
{
    let Some((index, text)) = first_named(lines, b"+COPS:") else {
        return Err(ReplyFault::Missing);
    };
    let Some((mode, named)) = oper_in(text) else {
        return Err(ReplyFault::Malformed(index));
    };
    let Some((format, oper, act)) = named else {
        return Ok(Reply::Oper { mode, named: None });
    };
    let oper = Quoted::from(Vec::from_slice(alloc, oper)?);
    let named = Some(NamedOper { format, oper, act });
    Ok(Reply::Oper { mode, named })
}

/// The contexts of all lines that begin with their name, or the fault of the first such line that
/// isn't of their form.
#[tactic(auto, unfolding(crate::specs::Replies::contexts_of))]
pub(crate) fn contexts_reply(alloc: Global, lines: &AnswerLines) -> Result<Reply, ReplyFault>
    ensures { Answers result (contexts_of lines.now) }
{
    if let Some(index) = first_malformed(lines) {
        return Err(ReplyFault::Malformed(index));
    }
    let contexts = contexts_in(alloc, lines)?;
    Ok(Reply::Contexts(Contexts::from(contexts)))
}

/// The index of the first line that begins with the contexts' name, and isn't of their form.
#[tactic(auto, using(crate::proofs::AnswerLines::malformed_here, crate::proofs::AnswerLines::malformed_passed))]
fn first_malformed(lines: &AnswerLines) -> Option<usize>
    ensures { result ≡ position_from is_malformed_context 0 lines.now }
{
    for i in 0..lines.len() {
        if is_malformed_context(lines.line(i)) {
            return Some(i);
        }
    }
    None
}

fn is_malformed_context(text: &[u8]) -> bool
    ensures { result ≡ is_malformed_context (record { text = text.now }) }
{
    text.starts_with(CONTEXT) && context_in(&text[CONTEXT.len()..]).is_none()
}

/// The contexts of the lines that have one. It takes memory only where there is a context.
#[tactic(auto, using(crate::proofs::AnswerLines::more_none, crate::proofs::AnswerLines::more_some, crate::proofs::AnswerLines::one_left))]
fn contexts_in(alloc: Global, lines: &AnswerLines) -> Result<Vec<Context>, AllocError>
    ensures ok { IfOk result (λ contexts. contexts.items ≡ filter_map context_in lines.now) }
    ensures err { OnErr result (takes_memory (Reply.Contexts (filter_map context_in lines.now)) ≡ true) }
{
    let mut contexts = Vec::new(alloc);
    for i in 0..lines.len() {
        if let Some(parts) = context_in_line(lines.line(i)) {
            contexts.push(context_of(alloc, parts)?)?;
        }
    }
    Ok(contexts)
}

/// The parts of the context that a line tells, if it begins with their name.
fn context_in_line(text: &[u8]) -> Option<ContextParts<'_>>
    ensures { option_map (λ x. context_parts x.0 x.1.now x.2.now) result
        ≡ context_in (record { text = text.now }) }
{
    if !text.starts_with(CONTEXT) {
        return None;
    }
    context_in(&text[CONTEXT.len()..])
}

/// A context's number, the kind of its addresses and its access point's name.
type ContextParts<'a> = (u8, &'a [u8], &'a [u8]);

fn context_of(alloc: Global, parts: ContextParts<'_>) -> Result<Context, AllocError>
    ensures { IfOk result
        (λ context. context ≡ context_parts parts.entry.0 parts.entry.1.now parts.entry.2.now) }
{
    let (cid, pdp, apn) = parts;
    Ok(Context {
        cid,
        pdp: Quoted::from(Vec::from_slice(alloc, pdp)?),
        apn: Quoted::from(Vec::from_slice(alloc, apn)?),
    })
}

#[tactic(auto, unfolding(crate::specs::Replies::context_of))]
fn context_in(text: &[u8]) -> Option<ContextParts<'_>>
    ensures { option_map (λ x. context_parts x.0 x.1.now x.2.now) result ≡ context_of (parameters text.now) }
{
    let (cid, rest) = first_param(text);
    let (pdp, rest) = first_param(rest?);
    let (apn, _) = first_param(rest?);
    let cid = number_of(cid)?;
    let pdp = quoted_of(pdp)?;
    let apn = quoted_of(apn)?;
    Some((cid, pdp, apn))
}

/// A mode and optionally an operator: its format, its name and its access technology.
type OperParts<'a> = (u8, Option<NamedParts<'a>>);

type NamedParts<'a> = (u8, &'a [u8], Option<u8>);

#[tactic(auto, unfolding(crate::specs::Replies::oper_of))]
fn oper_in(text: &[u8]) -> Option<OperParts<'_>>
    ensures { option_map (λ x. (x.0, option_map (λ named. named_parts named.0 named.1.now named.2) x.1))
        result ≡ oper_of (parameters text.now) }
{
    let (mode, rest) = first_param(text);
    let mode = number_of(mode)?;
    let Some(rest) = rest else {
        return Some((mode, None));
    };
    Some((mode, Some(named_in(rest)?)))
}

fn named_in(text: &[u8]) -> Option<NamedParts<'_>>
    ensures { option_map (λ named. Some (named_parts named.0 named.1.now named.2)) result
        ≡ named_of (parameters text.now) }
{
    let (format, rest) = first_param(text);
    let (oper, rest) = first_param(rest?);
    let format = number_of(format)?;
    let oper = quoted_of(oper)?;
    let Some(rest) = rest else {
        return Some((format, oper, None));
    };
    let act = number_of(first_param(rest).0)?;
    Some((format, oper, Some(act)))
}
