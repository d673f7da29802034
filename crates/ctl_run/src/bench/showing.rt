//! What the callers of a bench were told, as text.
ghost use Rattle.std.specs.Prelude.{◌≡◌, ◌++◌, ◌≤◌, IfOk, OnOk, length, map, vec_items};
ghost use Rattle.std.specs.String.{string_bytes};
ghost use Rattle.ctl_run.specs.Shown.{outcomes_text, told_from};

use ctl_text::push_told;
use modem_desk::Outcome;
use std::alloc::{AllocError, Global};

/// What a caller was told, line by line.
fn push_caller(
    alloc: Global,
    caller: u8,
    outcomes: &[Outcome],
    text: &mut String,
) -> Result<(), AllocError>
    ensures { OnOk result (string_bytes text.new ≡ string_bytes text.old ++ told_from caller 1 outcomes.now) }
{
    let mut place = 0;
    for outcome in outcomes {
        place += 1;
        push_told(alloc, caller, place, &outcome.answer, text)?;
    }
    Ok(())
}

/// What each caller was told.
pub fn outcomes_text(alloc: Global, all: &[Vec<Outcome>]) -> Result<String, AllocError>
    requires { length all.now ≤ 8 }
    ensures { IfOk result (λ text. string_bytes text ≡ outcomes_text (map vec_items all.now)) }
{
    let mut text = String::new(alloc);
    let mut caller = 0;
    for outcomes in all {
        push_caller(alloc, caller, outcomes.as_slice(), &mut text)?;
        caller += 1;
    }
    Ok(text)
}
