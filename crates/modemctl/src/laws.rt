//! One modem: what a driver and a simulated modem at the two ends of one line come to.
ghost use Rattle.std.specs.Prelude.{List};
ghost use Rattle.modem_history.specs.Calls.{Setting};
ghost use Rattle.modem_sim.specs.Acts.{End};
ghost use Rattle.one_modem.specs.OneModem.{EndAct, ReadsCommands, TellsModem};
ghost use Rattle.one_modem.specs.OneModemRows.{RightAnswer, RightLine, WrongAnswers, WrongLines};

use one_modem::laws;

/// A law of every list of what happened at the two ends of one line. The premise (`IsOneModem`): the driver is the initiator (27.010, 5.1)
/// and sees lines by the standard's codes. Its part of the list keeps the laws of a driver's history, and no caller uses a number twice.
/// The modem's part keeps the laws of a simulated modem's history, and each line that it announces is unsolicited (27.007, 9). At every
/// point the frames that came at each end are the first that the other sent. Each connection is asked for at most once.
///
/// The lines that the modem reads, over all connections, are commands that the driver was given, each on its connection, in the
/// order in which they were wholly sent (`ReadsCommands`). Each command told Done is among them, at its place, and is told what the
/// modem's step gives there, run over all lines before it (`TellsModem`).
pub fn one_modem()
    ensures reads { (s : Setting) (e : End) (line : List EndAct) → ReadsCommands s e line }
    ensures told { (s : Setting) (e : End) (line : List EndAct) → TellsModem s e line }
{
    laws::one_modem();
}

/// Worked lines, computed by the definitions: two commands and a line of the modem's own between them meet the premise, and the second
/// is answered by the modem that the first changed. Another answer, another place and another connection are refused, and so is a
/// line on which a frame comes before it was sent, or is passed over.
pub fn worked_lines()
    ensures right { RightLine }
    ensures answer { RightAnswer }
    ensures wrong { WrongAnswers }
    ensures lines { WrongLines }
{
    laws::worked_lines();
}
