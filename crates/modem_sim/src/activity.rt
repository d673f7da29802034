//! Lines about packet contexts of a modem with words.
ghost use Rattle.std.specs.Prelude.{◌≡◌, ◌++◌, codes, filter, map, IfOk, OnOk};
ghost use Rattle.std.specs.Fmt.{decimal};
ghost use Rattle.std.specs.List.{flat_map};
ghost use Rattle.modem_sim.specs.Contexts.{names};
ghost use Rattle.modem_sim.specs.SettingTexts.{activity_text, address_text, addresses, ipv4_text, ipv6_text, next_number, numbers_text};
ghost use Rattle.modem_sim.specs.Steps.{line_of};
ghost use Rattle.modem_sim.specs.StateTexts.{whole_context_text};

use crate::answers::{context_line, push_line};
use crate::contexts::{ActiveContexts, PdpContext};
use at_cmds::Pdp;
use at_cmds::forms::push_quoted;
use at_text::AnswerLine;
use std::alloc::{AllocError, Global};

/// A context with the parameters that stand behind its access point (27.007, 10.1.1).
fn whole_context_line(alloc: Global, context: &PdpContext) -> Result<Vec<u8>, AllocError>
    ensures { IfOk result (λ text. text.items ≡ whole_context_text context.now) }
{
    let mut text = context_line(alloc, context)?;
    text.extend_from_slice(b",\"\",0,0")?;
    Ok(text)
}

/// Writes all contexts behind other lines.
pub(crate) fn push_whole_contexts(
    alloc: Global,
    contexts: &[PdpContext],
    answer: &mut Vec<AnswerLine>,
) -> Result<(), AllocError>
    ensures { OnOk result
        (answer.new.items ≡ answer.old.items ++ map line_of (map whole_context_text contexts.now)) }
{
    for context in contexts {
        push_line(answer, whole_context_line(alloc, context)?)?;
    }
    Ok(())
}

/// Whether a context is active (27.007, 10.1.10).
fn activity_line(
    alloc: Global,
    active: &ActiveContexts,
    context: &PdpContext,
) -> Result<Vec<u8>, AllocError>
    ensures { IfOk result (λ text. text.items ≡ activity_text active.now context.now) }
{
    let cid = context.cid;
    if active.has(cid) {
        Ok(format!(in alloc; "+CGACT: {cid},1")?.into_bytes())
    } else {
        Ok(format!(in alloc; "+CGACT: {cid},0")?.into_bytes())
    }
}

/// Writes which contexts are active behind other lines.
pub(crate) fn push_activity(
    alloc: Global,
    active: &ActiveContexts,
    contexts: &[PdpContext],
    answer: &mut Vec<AnswerLine>,
) -> Result<(), AllocError>
    ensures { OnOk result
        (answer.new.items ≡ answer.old.items ++ map line_of (map (activity_text active.now) contexts.now)) }
{
    for context in contexts {
        push_line(answer, activity_line(alloc, active, context)?)?;
    }
    Ok(())
}

/// Writes the address of this number in 192.0.2.0/24 behind other octets.
fn push_ipv4(alloc: Global, cid: u8, text: &mut Vec<u8>) -> Result<(), AllocError>
    ensures { OnOk result (text.new.items ≡ text.old.items ++ codes "," ++ ipv4_text cid) }
{
    text.push(b',')?;
    let address = format!(in alloc; "192.0.2.{cid}")?.into_bytes();
    push_quoted(text, address.as_slice())
}

/// Writes the address of this number in 2001:db8::/32 behind other octets.
fn push_ipv6(alloc: Global, cid: u8, text: &mut Vec<u8>) -> Result<(), AllocError>
    ensures { OnOk result (text.new.items ≡ text.old.items ++ codes "," ++ ipv6_text cid) }
{
    text.push(b',')?;
    let address = format!(in alloc; "32.1.13.184.0.0.0.0.0.0.0.0.0.0.0.{cid}")?.into_bytes();
    push_quoted(text, address.as_slice())
}

/// Writes the addresses of an active context behind other octets.
fn push_addresses(alloc: Global, pdp: Pdp, cid: u8, text: &mut Vec<u8>) -> Result<(), AllocError>
    ensures { OnOk result (text.new.items ≡ text.old.items ++ addresses pdp cid) }
{
    match pdp {
        Pdp::Ip => push_ipv4(alloc, cid, text),
        Pdp::Ipv6 => push_ipv6(alloc, cid, text),
        Pdp::Ipv4v6 => {
            push_ipv4(alloc, cid, text)?;
            push_ipv6(alloc, cid, text)
        }
    }
}

/// A context with its addresses (27.007, 10.1.14).
fn address_line(
    alloc: Global,
    active: &ActiveContexts,
    context: &PdpContext,
) -> Result<Vec<u8>, AllocError>
    ensures { IfOk result (λ text. text.items ≡ address_text active.now context.now) }
{
    let cid = context.cid;
    let mut text = format!(in alloc; "+CGPADDR: {cid}")?.into_bytes();
    if active.has(cid) {
        push_addresses(alloc, context.pdp, cid, &mut text)?;
    }
    Ok(text)
}

/// Writes the numbers of contexts behind other octets, a comma before each.
fn push_next_numbers(
    alloc: Global,
    contexts: &[PdpContext],
    text: &mut Vec<u8>,
) -> Result<(), AllocError>
    ensures { OnOk result (text.new.items ≡ text.old.items ++ flat_map next_number contexts.now) }
{
    for context in contexts {
        let cid = context.cid;
        let number = format!(in alloc; ",{cid}")?.into_bytes();
        text.extend_from_slice(number.as_slice())?;
    }
    Ok(())
}

/// The numbers of the contexts that are defined (27.007, 10.1.14).
pub(crate) fn numbers_line(alloc: Global, contexts: &[PdpContext]) -> Result<Vec<u8>, AllocError>
    ensures { IfOk result (λ text. text.items ≡ numbers_text contexts.now) }
{
    let [first, more @ ..] = contexts else {
        return Vec::from_slice(alloc, b"+CGPADDR: ()").map_err(|_| AllocError);
    };
    let cid = first.cid;
    let mut text = format!(in alloc; "+CGPADDR: ({cid}")?.into_bytes();
    push_next_numbers(alloc, more, &mut text)?;
    text.push(b')')?;
    Ok(text)
}

/// Writes the contexts that are named, with their addresses, behind other lines.
pub(crate) fn push_contexts_named(
    alloc: Global,
    which: Option<u8>,
    active: &ActiveContexts,
    contexts: &[PdpContext],
    answer: &mut Vec<AnswerLine>,
) -> Result<(), AllocError>
    ensures { OnOk result
        (answer.new.items
        ≡ answer.old.items ++ map line_of (map (address_text active.now) (filter (names which) contexts.now))) }
{
    for context in contexts {
        if context.is_named(which) {
            push_line(answer, address_line(alloc, active, context)?)?;
        }
    }
    Ok(())
}
