//! Laws of a driver with a simulated modem at the other end of its line, as contracts of functions that do nothing.
ghost use Rattle.std.specs.Prelude.{List};
ghost use Rattle.modem_history.specs.Calls.{Setting};
ghost use Rattle.modem_sim.specs.Acts.{End};
ghost use Rattle.one_modem.specs.OneModem.{EndAct, ReadsCommands, TellsModem};
ghost use Rattle.one_modem.specs.OneModemRows.{RightAnswer, RightLine, WrongAnswers, WrongLines};

/// The lines that the modem reads, over all connections, are commands that the driver was given, each on its connection, in
/// the order in which they were wholly sent. Each command told Done is among them, at its place, and is told what the
/// modem's step gives there, run over all lines before it.
///
/// It speaks of a modem that takes the standard's commands alone (`Modem::new`). One with words, as `modemctl sim` runs it, answers
/// nothing to a line without `AT`, and repeats commands if told to. Nothing proves that each of its answers ends with its one final code.
#[tactic(auto, using(crate::proofs::law_proofs::OneModem::reads_commands, crate::proofs::law_proofs::OneModem::tells_modem))]
pub fn one_modem()
    ensures reads { (s : Setting) (e : End) (line : List EndAct) → ReadsCommands s e line }
    ensures told { (s : Setting) (e : End) (line : List EndAct) → TellsModem s e line }
{}

/// Worked lines, computed by the definitions: two commands and a line of the modem's own between them keep what is asked of
/// one modem, and the second is answered by the modem that the first changed. Another answer, another place and another
/// connection are refused, and so is a line on which a frame comes before it was sent, or is passed over.
#[tactic(auto, using(crate::proofs::rows::OneModemRowFacts::right_line, crate::proofs::rows::OneModemRowFacts::right_answer, crate::proofs::rows::OneModemRowFacts::wrong_answers, crate::proofs::rows::OneModemRowFacts::wrong_lines))]
pub fn worked_lines()
    ensures right { RightLine }
    ensures answer { RightAnswer }
    ensures wrong { WrongAnswers }
    ensures lines { WrongLines }
{}
