//! The commands that were read and not yet submitted: a queue for each connection.
ghost use Rattle.std.specs.Prelude.{◌≡◌, ◌++◌, ◌==◌, [], ℕ, true, length, nat_le, replicate, MatchOption, OnOk};
ghost use Rattle.std.specs.List.{list_any};
ghost use Rattle.modem_desk.specs.declared.request.Ask.TheVariants as ask;
ghost use Rattle.ctl_drive.specs.Asking.{text_on, waits_at};

use at_text::CommandLine;
use mux_frame::Dlci;
use std::alloc::{AllocError, Global};
use std::array;
use std::collections::VecDeque;
use std::marker::Model;

/// How many commands of a connection are kept: while so many wait, no line is read.
const KEPT: usize = 1024;

/// The commands of each connection, in order. Contracts see their texts.
#[derive(Drop)]
pub struct Queues {
    lines: [VecDeque<CommandLine>; Dlci::COUNT],
}

impl Model for Queues {
    ghost use Rattle.std.specs.Prelude.{ℕ, List, map};
    ghost use Rattle.std.specs.VecDeque.{deque_items};

    ghost Value = { List (List (List ℕ)) };

    ghost view = { λ q. map deque_items q.lines };
}

impl Queues {
    /// None waits.
    pub fn new(alloc: Global) -> Queues
        ensures { result ≡ replicate 62 [] }
    {
        Queues {
            lines: array::from_fn(|_| VecDeque::new(alloc)),
        }
    }

    /// Whether none of this connection waits.
    pub fn has_none(&self, dlci: Dlci) -> bool
        ensures { result ≡ (length (waits_at self.now dlci.number) == 0) }
    {
        self.lines[usize::from(dlci.number())].is_empty()
    }

    /// Whether none waits.
    pub fn is_empty(&self) -> bool
        ensures { result ≡ true → (d : ℕ) → waits_at self.now d ≡ [] }
    {
        self.lines.iter().all(|lines| lines.is_empty())
    }

    /// Whether 1024 commands of one connection wait, or more. Then no line is read.
    pub fn is_full(&self) -> bool
        ensures { result ≡ list_any (λ texts. nat_le 1024 (length texts)) self.now }
    {
        self.lines.iter().any(|lines| lines.len() >= KEPT)
    }

    /// Puts a command behind those of its connection.
    pub fn push(&mut self, dlci: Dlci, line: CommandLine) -> Result<(), AllocError>
        ensures { OnOk result ((d : ℕ) → waits_at self.new d ≡ waits_at self.old d ++ text_on d (ask.Command dlci line)) }
    {
        self.lines[usize::from(dlci.number())].push_back(line)?;
        Ok(())
    }

    /// Takes the first command of a connection, if one waits.
    pub fn take(&mut self, dlci: Dlci) -> Option<CommandLine>
        ensures { MatchOption result (length (waits_at self.old dlci.number) ≡ 0)
            (λ line. (d : ℕ) → waits_at self.old d ≡ text_on d (ask.Command dlci line) ++ waits_at self.new d) }
    {
        self.lines[usize::from(dlci.number())].pop_front()
    }
}
