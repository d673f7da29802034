//! Laws of the definitions, as contracts of functions that do nothing.
ghost use Rattle.std.specs.Prelude.{ℕ, List, Option, Result};
ghost use Rattle.at_cmds.specs.declared.command.Command.{Command};
ghost use Rattle.at_cmds.specs.declared.error.CmdError.{CmdError};
ghost use Rattle.at_cmds.specs.Laws.{WrittenIsRead, ReadIsWritten, IsOfOne};

/// `Command::read` and `Command::line` undo each other, and no text is that of two commands.
#[tactic(auto, using(crate::proofs::command_texts::ReadAndWritten::written_is_read, crate::proofs::command_texts::ReadAndWritten::read_is_written))]
pub fn reading_and_writing()
    ensures read_again { (c : Command) (line : List ℕ) (read : Result (Option Command) CmdError)
        → WrittenIsRead c line read }
    ensures written_again { (c : Command) (text : List ℕ) (line : Result (List ℕ) CmdError)
        → ReadIsWritten c text line }
    ensures one { (text : List ℕ) (c d : Command) → IsOfOne text c d }
{}
