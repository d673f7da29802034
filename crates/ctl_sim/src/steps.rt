//! Copies of what a modem does of its own accord.
ghost use Rattle.std.specs.Prelude.{◌≡◌, IfOk};

use modem_sim::{Step, StepAct, Steps};
use std::alloc::{AllocError, Global};

fn copied_act(act: &StepAct) -> Result<StepAct, AllocError>
    ensures { IfOk result (λ copy. copy ≡ act.now) }
{
    match act {
        StepAct::Announce(dlci, line) => Ok(StepAct::Announce(*dlci, line.copy()?)),
        StepAct::Flow(dlci, go) => Ok(StepAct::Flow(*dlci, *go)),
        StepAct::Hold(dlci, wanted) => Ok(StepAct::Hold(*dlci, *wanted)),
        StepAct::Disconnect(dlci) => Ok(StepAct::Disconnect(*dlci)),
        StepAct::CloseDown => Ok(StepAct::CloseDown),
    }
}

fn copied_step(step: &Step) -> Result<Step, AllocError>
    ensures { IfOk result (λ copy. copy ≡ step.now) }
{
    Ok(Step {
        after: step.after,
        act: copied_act(&step.act)?,
    })
}

/// The same steps.
pub(crate) fn copied(alloc: Global, steps: &Steps) -> Result<Steps, AllocError>
    ensures { IfOk result (λ copies. copies ≡ steps.now) }
{
    let mut copies = Vec::new(alloc);
    for step in steps.as_slice() {
        copies.push(copied_step(step)?)?;
    }
    Ok(Steps::from(copies))
}
