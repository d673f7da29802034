//! What is kept of one connection.
ghost use Rattle.std.specs.Prelude.{◌≡◌};
ghost use Rattle.modem_core.specs.Lanes.{awaits_echo, new_lane};

use at_text::{LineRun, UnderWay};
use std::alloc::Global;
use std::marker::Model;

/// The unfinished line of a connection, the answer of the command under way, and whether the other end is held from
/// sending on it. The command's text stands in the hand: it is the first on the connection there.
#[derive(Drop)]
pub(crate) struct Lane {
    pub(crate) line: LineRun,
    pub(crate) under_way: UnderWay,
    pub(crate) held: bool,
}

impl Model for Lane {
    ghost use Rattle.at_text.specs.Runs.{kept_in};
    ghost use Rattle.modem_core.specs.Lanes.{Lane};

    ghost Value = { Lane };

    ghost view = { λ l. record { kept = kept_in l.line; under_way = l.under_way; held = l.held } };
}

impl Lane {
    /// Nothing has come, and no command is under way.
    pub(crate) fn new(alloc: Global) -> Lane
        ensures { result ≡ new_lane }
    {
        Lane {
            line: LineRun::new(),
            under_way: UnderWay::new(alloc),
            held: false,
        }
    }

    /// Everything starts afresh.
    pub(crate) fn start(&mut self)
        ensures { self.new ≡ new_lane }
    {
        self.line.reset();
        self.under_way.drop_command();
        self.held = false;
    }

    /// Whether the next line may be the echo of the command under way.
    pub(crate) fn awaits_echo(&self) -> bool
        ensures { result ≡ awaits_echo self.now.under_way }
    {
        self.under_way.mark().fresh
    }
}
