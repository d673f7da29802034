//! What is printed of a line at its end.
ghost use Rattle.std.specs.Prelude.{◌≡◌, ◌<◌, ◌++◌, not, [], length, if◌then◌else◌, IfOk, OnOk};
ghost use Rattle.std.specs.List.{flat_map, list_any};
ghost use Rattle.std.specs.String.{string_bytes};
ghost use Rattle.show_texts.specs.Telling.{AreClosed, Closes, asked_text, connection_by, tally_at, unanswered_line, unfinished_text};

use crate::complaint::{complain_if, either};
use crate::tally::Tally;
use crate::teller::Teller;
use crate::words::push_head;
use modem_show::{Ask, Rule, Talks};
use mux_capture::{Direction, Stamp};
use mux_frame::Dlci;
use std::alloc::{AllocError, Global};
use std::fmt::Write;

/// The frames of an end that asked and were never answered, each as a complaint.
fn push_unanswered(
    alloc: Global,
    asks: &[Ask],
    direction: Direction,
    text: &mut String,
) -> Result<(), AllocError>
    ensures { OnOk result (string_bytes text.new ≡ string_bytes text.old ++ flat_map (unanswered_line direction) asks.now) }
{
    for ask in asks {
        let broken = !ask.is_excused();
        complain_if(
            alloc,
            broken,
            ask.stamp(),
            direction,
            Rule::Unanswered,
            ask.frame(),
            text,
        )?;
    }
    Ok(())
}

/// Whether there is such a frame.
pub(crate) fn some_unanswered(asks: &[Ask]) -> bool
    ensures { result ≡ list_any (λ a. not a.is_excused) asks.now }
{
    asks.iter().any(|ask| !ask.is_excused())
}

/// When a command passed.
fn push_asked(asked: Option<Stamp>, text: &mut String) -> Result<(), AllocError>
    ensures { OnOk result (string_bytes text.new ≡ string_bytes text.old ++ asked_text asked) }
{
    match asked {
        Some(stamp) => push_head(stamp, Direction::ToModem, text),
        None => Ok(()),
    }
}

/// That the last command of a connection has no answer.
fn push_unfinished(dlci: Dlci, asked: Option<Stamp>, text: &mut String) -> Result<(), AllocError>
    ensures { OnOk result (string_bytes text.new ≡ string_bytes text.old ++ unfinished_text dlci.number asked) }
{
    let dlci = dlci.number();
    let words = Rule::Unfinished.words();
    push_asked(asked, text)?;
    writeln!(text, "! {dlci} {words}")
}

/// The same, where it has none.
fn push_unfinished_if(
    unfinished: bool,
    dlci: Dlci,
    asked: Option<Stamp>,
    text: &mut String,
) -> Result<(), AllocError>
    ensures { OnOk result (string_bytes text.new
        ≡ string_bytes text.old ++ (if unfinished then unfinished_text dlci.number asked else [])) }
{
    if !unfinished {
        return Ok(());
    }
    push_unfinished(dlci, asked, text)
}

/// What is printed of a connection.
fn push_connection(
    unfinished: bool,
    dlci: Dlci,
    tally: Tally,
    text: &mut String,
) -> Result<(), AllocError>
    ensures { OnOk result
        (string_bytes text.new ≡ string_bytes text.old ++ connection_by unfinished dlci.number tally) }
{
    push_unfinished_if(unfinished, dlci, tally.asked, text)?;
    tally.push_total(dlci, text)
}

#[tactic(auto, using(crate::proofs::FramesTold::tally_read))]
/// What is counted of a connection.
fn tally_at(tallies: &[Tally], number: u8) -> Tally
    requires all { length tallies.now ≡ 62 }
    requires known { number < 62 }
    ensures { result ≡ tally_at tallies.now number }
{
    tallies[usize::from(number)]
}

#[tactic(auto, using(crate::proofs::LineEnds::none_closed))]
/// What is printed of each connection, and whether the last command of one has no answer.
fn push_connections(talks: &Talks, tallies: &[Tally], text: &mut String) -> Result<bool, AllocError>
    requires { length tallies.now ≡ 62 }
    ensures { IfOk result (λ some. AreClosed talks.now tallies.now (string_bytes text.old) (string_bytes text.new) some 62) }
{
    let mut some = false;
    for number in 0u8..62 {
        let dlci = Dlci { number };
        let unfinished = talks.is_under_way(dlci);
        push_connection(unfinished, dlci, tally_at(tallies, number), text)?;
        some = either(some, unfinished);
    }
    Ok(some)
}

impl Teller {
    /// Writes what is to be said at the end of the line: the frames that were never answered, the commands without an answer, and what
    /// was counted of each connection. Where memory is refused nothing is promised.
    pub fn close(&mut self) -> Result<(), AllocError>
        ensures { OnOk result (Closes self.old self.new) }
    {
        let to_modem = some_unanswered(self.watcher.asks(Direction::ToModem));
        let from_modem = some_unanswered(self.watcher.asks(Direction::FromModem));
        push_unanswered(
            self.alloc,
            self.watcher.asks(Direction::ToModem),
            Direction::ToModem,
            &mut self.text,
        )?;
        push_unanswered(
            self.alloc,
            self.watcher.asks(Direction::FromModem),
            Direction::FromModem,
            &mut self.text,
        )?;
        let unfinished = push_connections(&self.talks, &self.tallies, &mut self.text)?;
        let wrong = either(to_modem, either(from_modem, unfinished));
        self.wrong = either(self.wrong, wrong);
        Ok(())
    }
}
