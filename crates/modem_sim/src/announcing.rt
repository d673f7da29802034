//! Reports of a registration, behind an answer or behind the next one.
ghost use Rattle.std.specs.Prelude.{◌≡◌, ◌++◌, map, OnOk};
ghost use Rattle.std.specs.List.{list_any};
ghost use Rattle.modem_sim.specs.Steps.{line_of, status_text};
ghost use Rattle.modem_sim.specs.LineSteps.{all_reports, announced, any_through, report_texts, reports_held, reports_now};

use crate::answers::push_line;
use crate::state::ModemState;
use crate::wording::status_text;
use at_text::AnswerLine;
use modem_data::is_connect;
use std::alloc::{AllocError, Global};

/// Whether behind one of these lines on its connection data follows.
pub(crate) fn any_through(lines: &[AnswerLine]) -> bool
    ensures { result ≡ any_through lines.now }
{
    for line in lines {
        if is_connect(line.text.as_slice()) {
            return true;
        }
    }
    false
}

/// Writes a report of a registration behind other lines, where reports are on.
fn push_report(
    alloc: Global,
    name: &str,
    reports: u8,
    registered: bool,
    answer: &mut Vec<AnswerLine>,
) -> Result<(), AllocError>
    ensures { OnOk result
        (answer.new.items ≡ answer.old.items ++ map line_of (report_texts name.now reports registered)) }
{
    if reports == 0 {
        return Ok(());
    }
    let mut text = Vec::from_slice(alloc, name.as_bytes())?;
    text.extend_from_slice(status_text(reports, registered).as_bytes())?;
    push_line(answer, text)
}

/// Writes all reports that are on.
fn push_reports(
    alloc: Global,
    state: &ModemState,
    registered: bool,
    answer: &mut Vec<AnswerLine>,
) -> Result<(), AllocError>
    ensures { OnOk result
        (answer.new.items ≡ answer.old.items ++ map line_of (all_reports state.now registered)) }
{
    push_report(alloc, "+CREG: ", state.reports, registered, answer)?;
    if let Some(words) = state.words {
        push_report(alloc, "+CGREG: ", words.packet_reports, registered, answer)?;
        push_report(alloc, "+CEREG: ", words.evolved_reports, registered, answer)?;
    }
    Ok(())
}

/// Writes what announces a change of registration, if there was one.
fn push_announced(
    alloc: Global,
    before: &ModemState,
    state: &ModemState,
    answer: &mut Vec<AnswerLine>,
) -> Result<(), AllocError>
    ensures { OnOk result
        (answer.new.items ≡ answer.old.items ++ map line_of (announced before.now state.now)) }
{
    match (before.is_registered(), state.is_registered()) {
        (true, false) => push_reports(alloc, state, false, answer),
        (false, true) => push_reports(alloc, state, true, answer),
        (true, true) | (false, false) => Ok(()),
    }
}

/// Says what announces a change of registration behind the answer. Where a call was put through, it is held, and due behind the next.
pub(crate) fn report(
    alloc: Global,
    before: &ModemState,
    is_through: bool,
    state: &mut ModemState,
    answer: &mut Vec<AnswerLine>,
) -> Result<(), AllocError>
    ensures state { OnOk result (state.new ≡ record state.old {
      late = reports_held is_through (announced before.now state.old) ++ state.old.late;
    }) }
    ensures answer { OnOk result
        (answer.new.items ≡ answer.old.items ++ reports_now is_through (announced before.now state.old)) }
{
    if !is_through {
        return push_announced(alloc, before, state, answer);
    }
    let mut reports = Vec::new(alloc);
    push_announced(alloc, before, state, &mut reports)?;
    state.late = state.late.behind(&reports)?;
    Ok(())
}
