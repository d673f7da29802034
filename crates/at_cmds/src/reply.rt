//! Replies to commands.
use crate::answers::{
    attach_reply, contexts_reply, fault_in, oper_reply, pin_reply, reg_reply, signal_reply,
};
use crate::command::Command;
use crate::error::ReplyFault;
use crate::registration::Registration;
use crate::texts::Quoted;
use at_text::{AnswerLines, Text};
use std::alloc::Global;
use std::marker::Model;

/// What a modem answered to a command.
#[derive(Drop, Debug)]
pub enum Reply {
    /// To a command that queries nothing: it was done.
    Accepted,
    /// To PinQuery: which PIN is wanted (27.007, 8.3).
    Pin(PinState),
    /// To RegQuery: how changes are reported, 0 to 2, and the registration (27.007, 7.2).
    Reg {
        n: u8,
        registration: Registration,
    },
    /// To Signal (27.007, 8.5).
    Signal {
        /// The strength: 0 is -113 dBm or less, 1 is -111 dBm, 2 to 30 are -109 to -53 dBm in steps of 2, 31 is -51 dBm or more, 99 isn't known.
        rssi: u8,
        /// The bit error rate: 0 to 7 as RXQUAL of 3GPP TS 45.008, 8.2.4, 99 isn't known.
        ber: u8,
    },
    /// To OperQuery (27.007, 7.3).
    Oper {
        /// 0 the modem chose, 1 by hand, 2 deregistered, 3 only the format is set, 4 by hand or else the modem chose.
        mode: u8,
        /// The operator, if the modem is on its network.
        named: Option<NamedOper>,
    },
    /// To ContextQuery: the contexts that are defined (27.007, 10.1.1).
    Contexts(Contexts),
    /// To AttachQuery: whether the modem is attached to the packet service (27.007, 10.1.9).
    Attached(bool),
}

/// Which PIN is wanted (27.007, 8.3).
#[derive(Drop, Debug)]
pub enum PinState {
    /// `READY`: none.
    Ready,
    /// `SIM PIN`: the PIN.
    SimPin,
    /// `SIM PUK`: the PUK.
    SimPuk,
    /// Another text, which may be empty.
    Other(Text),
}

/// An operator as a reply names it (27.007, 7.3).
#[derive(Drop, Debug)]
pub struct NamedOper {
    /// 0 the long name, 1 the short name, 2 the number.
    pub format: u8,
    /// The name or number, as it stands between the quotes.
    pub oper: Quoted,
    /// The access technology as its number (0 GSM, 2 UTRAN, 7 E-UTRAN and others), where it was given.
    pub act: Option<u8>,
}

/// A context as a reply tells it (27.007, 10.1.1).
#[derive(Drop, Debug, PartialEq, Eq)]
pub struct Context {
    /// Its number.
    pub cid: u8,
    /// The kind of its addresses, as it stands between the quotes.
    pub pdp: Quoted,
    /// Its access point's name, as it stands between the quotes.
    pub apn: Quoted,
}

/// Contexts in the order of their lines, which contracts see as a list.
#[derive(Drop, Debug)]
pub struct Contexts {
    contexts: Vec<Context>,
}

impl Model for Contexts {
    ghost use Rattle.std.specs.Prelude.{List};
    ghost use Rattle.at_cmds.specs.declared.reply.Context.{Context};

    ghost Value = { List Context };

    ghost view = { λ c. c.contexts.items };
}

impl Contexts {
    ghost use Rattle.std.specs.Prelude.{◌≡◌};

    /// The contexts.
    pub fn as_slice(&self) -> &[Context]
        ensures { result.now ≡ self.now }
    {
        self.contexts.as_slice()
    }

    /// The contexts, in the memory that they had.
    pub fn into_vec(self) -> Vec<Context>
        ensures { result.items ≡ self }
    {
        let Contexts { contexts } = self;
        contexts
    }
}

impl From<Vec<Context>> for Contexts {
    ghost use Rattle.std.specs.Prelude.{◌≡◌};

    ghost from_gives = { λ contexts made. made ≡ contexts.items };

    fn from(contexts: Vec<Context>) -> Contexts {
        Contexts { contexts }
    }
}

impl PartialEq for Contexts {
    ghost use Rattle.std.specs.Prelude.{nat_eq};
    ghost use Rattle.std.specs.Ordering.{on, eq_of_both};
    ghost use Rattle.std.specs.Str.{bytes_eq};
    ghost use Rattle.std.specs.Cmp.Lexicographic.{pointwise};
    ghost use Rattle.at_cmds.specs.declared.reply.Context.{Context};
    ghost use Rattle.std.proofs.Common.{rules};
    ghost use Rattle.std.specs.Cmp.Rules.{comparing};

    ghost eq = { pointwise (eq_of_both (on (λ (c : Context). c.cid) nat_eq)
        (eq_of_both (on (λ (c : Context). c.pdp) bytes_eq) (on (λ (c : Context). c.apn) bytes_eq))) };

    ghost laws = { Prim.search (comparing, rules) };

    fn eq(&self, other: &Contexts) -> bool {
        self.contexts == other.contexts
    }
}

impl Eq for Contexts {
    ghost use Rattle.std.proofs.Common.{rules};
    ghost use Rattle.std.specs.Cmp.Rules.{comparing};

    ghost laws = { Prim.search (comparing, rules) };
}

impl Reply {
    ghost use Rattle.at_cmds.specs.Replies.{Answers, reply_of};

    /// The reply in the lines of an answer, the final code among them.
    ///
    /// The last line is looked at first. Where it is an error, the fault is 1 Cme or 2 PlainError. Where it is no final code
    /// of the standard, the fault is 3 Missing, also where a dialect's own code ended the answer. With `OK` a command that
    /// queries nothing is Accepted.
    ///
    /// For a query the first line that begins with the command's name and a colon is read; for ContextQuery every such line.
    /// Other lines are passed over. Without such a line the fault is 3 Missing; for ContextQuery the list is empty. A line
    /// that hasn't the form of the reply is 4 Malformed with its index.
    ///
    /// A line is divided at the commas outside quotes. A parameter is left out only where nothing stands between two commas,
    /// not even blanks. What follows the last parameter that the form knows is passed over. 5 NoMemory comes last, and only
    /// where the reply has a text or a list of its own.
    pub fn read(alloc: Global, command: &Command, lines: &AnswerLines) -> Result<Reply, ReplyFault>
        ensures { Answers result (reply_of command.now lines.now) }
    {
        if let Some(fault) = fault_in(lines) {
            return Err(fault);
        }
        match command {
            Command::PinQuery => pin_reply(alloc, lines),
            Command::RegQuery => reg_reply(lines),
            Command::Signal => signal_reply(lines),
            Command::OperQuery => oper_reply(alloc, lines),
            Command::AttachQuery => attach_reply(lines),
            Command::ContextQuery => contexts_reply(alloc, lines),
            _ => Ok(Reply::Accepted),
        }
    }
}
