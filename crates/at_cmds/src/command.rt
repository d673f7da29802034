//! Commands and their texts.
ghost use Rattle.std.specs.Prelude.{◌≡◌};
ghost use Rattle.at_cmds.specs.Values.{fixed_in};

use crate::error::CmdError;
use crate::reading::set_command;
use crate::texts::{Apn, OperNumber, Pin};
use crate::writing::{context_line, fixed_line, mode_line, oper_line, pin_line};
use at_text::CommandLine;
use std::alloc::Global;
use std::fmt;

/// A command to a modem. It may hold any values; `line` says whether they can be written.
#[derive(Drop, Debug)]
pub enum Command {
    /// `AT+CPIN?`: whether a PIN is wanted (27.007, 8.3).
    PinQuery,
    /// `AT+CPIN="<pin>"`: the PIN, 4 to 8 digits (27.007, 8.3).
    PinEnter(Pin),
    /// `AT+CREG=<n>`: how changes of registration are reported: 0 not, 1 the status, 2 with the cell (27.007, 7.2).
    RegReport(u8),
    /// `AT+CREG?`: the registration (27.007, 7.2).
    RegQuery,
    /// `AT+CSQ`: strength and errors of the signal (27.007, 8.5).
    Signal,
    /// `AT+COPS?`: the operator (27.007, 7.3).
    OperQuery,
    /// `AT+COPS=..`: the choice of an operator (27.007, 7.3).
    OperChoose(OperChoice),
    /// `AT+CGDCONT=<cid>,"<pdp>","<apn>"`: defines a context (27.007, 10.1.1).
    ContextSet {
        /// The context's number, 1 to 15.
        cid: u8,
        pdp: Pdp,
        apn: Apn,
    },
    /// `AT+CGDCONT?`: the contexts (27.007, 10.1.1).
    ContextQuery,
    /// `AT+CGATT=1` attaches to the packet service, `AT+CGATT=0` detaches from it (27.007, 10.1.9).
    AttachSet(bool),
    /// `AT+CGATT?`: whether the modem is attached (27.007, 10.1.9).
    AttachQuery,
    /// `AT+CMEE=<n>`: how errors are told: 0 by ERROR, 1 by a number, 2 by words (27.007, 9.1).
    ErrorMode(u8),
    /// `AT+CMUX=0`: enters the multiplexer, basic option (27.007, 5.7).
    Multiplex,
}

/// The choice of an operator (27.007, 7.3).
#[derive(Drop, Debug)]
pub enum OperChoice {
    /// `AT+COPS=0`: the modem chooses.
    Automatic,
    /// `AT+COPS=2`: no operator, the modem leaves the network.
    Deregister,
    /// `AT+COPS=1,2,"<oper>"`: this operator, by its number of 5 or 6 digits.
    Manual(OperNumber),
}

/// The kind of addresses of a context (27.007, 10.1.1).
#[derive(Clone, Copy, Debug)]
pub enum Pdp {
    /// `IP`: IPv4.
    Ip,
    /// `IPV6`: IPv6.
    Ipv6,
    /// `IPV4V6`: both.
    Ipv4v6,
}

impl Pdp {
    ghost use Rattle.at_cmds.specs.Commands.{pdp_text};

    /// Its name in commands and replies.
    pub fn name(self) -> &'static str
        ensures { result.now ≡ pdp_text self }
    {
        match self {
            Pdp::Ip => "IP",
            Pdp::Ipv6 => "IPV6",
            Pdp::Ipv4v6 => "IPV4V6",
        }
    }
}

impl fmt::Display for Pdp {
    ghost use Rattle.std.specs.Prelude.{Some};
    ghost use Rattle.at_cmds.specs.Commands.{pdp_text};

    ghost output = { λ pdp. Some (pdp_text pdp) };

    fn fmt<W: fmt::Write>(&self, f: &mut fmt::Formatter<W>) -> fmt::Result {
        f.write_str(self.name())
    }
}

impl Command {
    ghost use Rattle.at_cmds.specs.Commands.{fixed_text, Writes, IsTextOf, Reads};
    ghost use Rattle.at_cmds.specs.Forms.{is_same};
    ghost use Rattle.at_cmds.specs.Values.{Gives, command_of};

    /// The text of a command whose text is fixed, and nothing of another.
    fn fixed_text(&self) -> &'static str
        ensures { result.now ≡ fixed_text self.now }
    {
        match self {
            Command::PinQuery => "AT+CPIN?",
            Command::RegQuery => "AT+CREG?",
            Command::Signal => "AT+CSQ",
            Command::OperQuery => "AT+COPS?",
            Command::OperChoose(OperChoice::Automatic) => "AT+COPS=0",
            Command::OperChoose(OperChoice::Deregister) => "AT+COPS=2",
            Command::ContextQuery => "AT+CGDCONT?",
            Command::AttachSet(true) => "AT+CGATT=1",
            Command::AttachSet(false) => "AT+CGATT=0",
            Command::AttachQuery => "AT+CGATT?",
            Command::Multiplex => "AT+CMUX=0",
            _ => "",
        }
    }

    /// Whether this is its fixed text, with letters in either case.
    fn has_fixed_text(&self, text: &[u8]) -> bool
        ensures { result ≡ is_same text.now (fixed_text self.now) }
    {
        text.eq_ignore_ascii_case(self.fixed_text().as_bytes())
    }

    /// The command whose text this is; `None` where no command has this text. The letters of `AT` and of the name may be in
    /// either case. What follows the name has to be the same octet by octet. Refused only with 4 NoMemory, and only for a
    /// command that holds a text: PinEnter, ContextSet, or OperChoose with an operator's number.
    #[tactic(auto, using(crate::proofs::command_texts::ReadCommands::reads, crate::proofs::command_texts::ReadCommands::gives_set))]
    pub fn read(alloc: Global, text: &[u8]) -> Result<Option<Command>, CmdError>
        ensures reads { Reads (IsTextOf text.now) result }
        ensures gives { Gives result (command_of text.now) }
    {
        if let Some(command) = fixed_command(text) {
            return Ok(Some(command));
        }
        set_command(alloc, text)
    }

    /// The command line of this command. Refused, in this order, with 1 BadPin, 2 BadApn, 3 BadNumber or 4 NoMemory.
    pub fn line(&self, alloc: Global) -> Result<CommandLine, CmdError>
        ensures { Writes self.now result }
    {
        match self {
            Command::PinEnter(pin) => pin_line(alloc, pin.as_slice()),
            Command::RegReport(n) => mode_line(alloc, b"AT+CREG=", *n),
            Command::OperChoose(OperChoice::Manual(oper)) => oper_line(alloc, oper.as_slice()),
            Command::ContextSet { cid, pdp, apn } => context_line(
                alloc,
                *cid,
                *pdp,
                apn.as_slice(),
            ),
            Command::ErrorMode(n) => mode_line(alloc, b"AT+CMEE=", *n),
            _ => fixed_line(alloc, self.fixed_text().as_bytes()),
        }
    }
}

/// The command among those whose text is fixed that a text is, its letters in either case.
fn fixed_command(text: &[u8]) -> Option<Command>
    ensures { result ≡ fixed_in text.now }
{
    let commands = [
        Command::PinQuery,
        Command::RegQuery,
        Command::Signal,
        Command::OperQuery,
        Command::OperChoose(OperChoice::Automatic),
        Command::OperChoose(OperChoice::Deregister),
        Command::ContextQuery,
        Command::AttachSet(true),
        Command::AttachSet(false),
        Command::AttachQuery,
        Command::Multiplex,
    ];
    for command in commands {
        if command.has_fixed_text(text) {
            return Some(command);
        }
    }
    None
}
