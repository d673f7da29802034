//! What a simulated modem does of its own accord.
use at_text::Text;
use mux_frame::Dlci;
use std::marker::Model;

/// What a simulated modem does beside answering commands.
#[derive(Drop)]
pub struct Script {
    /// Whether each command is repeated, before it is answered.
    pub echo: bool,
    /// What it does of its own accord.
    pub steps: Steps,
}

/// A step of a script. It is due once `after` command lines have come, on all connections together. Steps are done in their
/// order, each once it is due, the connections that it names are open and the station has room. CloseDown waits for connection
/// 0 to be open. An Announce waits while its connection is in a call, whose data it would be: until that is opened anew.
///
/// Some steps are passed over: an Announce, Hold or Disconnect that names connection 0, and an Announce of a line that has no
/// octet, more than 512, or a CR or LF.
#[derive(Drop)]
pub struct Step {
    /// How many command lines have to have come.
    pub after: u64,
    /// What is done then.
    pub act: StepAct,
}

/// What a step does.
#[derive(Drop)]
pub enum StepAct {
    /// Writes a line of its own to a connection (27.007, 9).
    Announce(Dlci, Text),
    /// Lets data come on a connection (true) or not: an MSC, for connection 0 an FCon or FCoff (27.010, 5.4.6.3).
    Flow(Dlci, bool),
    /// Holds back the answers on the first connection until the next command has come on the second; unsolicited lines
    /// pass. A close of the first one, or its opening anew, ends the hold and drops what was held back. A later hold
    /// takes the place of an earlier one.
    Hold(Dlci, Dlci),
    /// Closes a connection (27.010, 5.4.2).
    Disconnect(Dlci),
    /// Closes the multiplexer down (27.010, 5.4.6.3.3).
    CloseDown,
}

/// Steps in their order, which contracts see as a list.
#[derive(Drop)]
pub struct Steps {
    steps: Vec<Step>,
}

impl Model for Steps {
    ghost use Rattle.std.specs.Prelude.{List};
    ghost use Rattle.modem_sim.specs.declared.script.Step.{Step};

    ghost Value = { List Step };

    ghost view = { λ s. s.steps.items };
}

impl Steps {
    ghost use Rattle.std.specs.Prelude.{◌≡◌};

    /// The steps.
    pub fn as_slice(&self) -> &[Step]
        ensures { result.now ≡ self.now }
    {
        self.steps.as_slice()
    }

    /// The steps, in the memory that they had.
    pub fn into_vec(self) -> Vec<Step>
        ensures { result.items ≡ self }
    {
        let Steps { steps } = self;
        steps
    }
}

impl From<Vec<Step>> for Steps {
    ghost use Rattle.std.specs.Prelude.{◌≡◌};

    ghost from_gives = { λ steps made. made ≡ steps.items };

    fn from(steps: Vec<Step>) -> Steps {
        Steps { steps }
    }
}
