//! Which connections are open, and since when their commands wait.
ghost use Rattle.std.specs.Prelude.{◌≡◌, ◌<◌, replicate, set};
ghost use Rattle.ctl_drive.specs.Channels.{closed_by, opened_by, shut_of, state_at, submitted_by, wanted_states};
ghost use Rattle.ctl_drive.specs.declared.channels.ChannelState.TheVariants as state;

use modem_desk::Answer;
use mux_frame::Dlci;
use std::marker::Model;
use std::rt::Clock;
use std::time::{Duration, Instant};

/// What is known of a connection.
#[derive(Clone, Copy, PartialEq, Eq)]
pub enum ChannelState {
    /// No opening of it was told anything yet.
    Untold,
    /// No opening of it was told anything yet, and it is to be opened even where no command waits for it.
    Wanted,
    /// It isn't open.
    Shut,
    /// It isn't open, and an opening for its next command was refused.
    Refused,
    /// It was opened.
    Open,
}

impl ChannelState {
    /// The state of a connection in this one that isn't open any more.
    fn shut(self) -> ChannelState
        ensures { result ≡ shut_of self }
    {
        match self {
            ChannelState::Open => ChannelState::Shut,
            state => state,
        }
    }

    /// The state of a connection whose opening was told this.
    fn opened(answer: &Answer) -> ChannelState
        ensures { result ≡ opened_by answer.now }
    {
        match answer {
            Answer::Opened | Answer::AlreadyOpen => ChannelState::Open,
            _ => ChannelState::Refused,
        }
    }

    /// The state of a connection in this one on which a command was submitted.
    fn submitted(self) -> ChannelState
        ensures { result ≡ submitted_by self }
    {
        match self {
            ChannelState::Refused => ChannelState::Shut,
            state => state,
        }
    }

    /// The state of a connection in this one of which a command was told this.
    fn told(self, answer: &Answer) -> ChannelState
        ensures { result ≡ closed_by answer.now self }
    {
        match answer {
            Answer::NotOpen | Answer::Closed => self.shut(),
            _ => self,
        }
    }
}

/// How the commands of a connection wait: how many are under way on it, and when the first of them began to wait.
#[derive(Clone, Copy)]
struct Waiting {
    count: u32,
    since: Option<Instant>,
}

/// All connections: what is known of each, and how its commands wait. Contracts see what is known of each.
#[derive(Drop)]
pub struct Channels {
    states: [ChannelState; Dlci::COUNT],
    waiting: [Waiting; Dlci::COUNT],
    quiet_for: Duration,
}

impl Model for Channels {
    ghost use Rattle.std.specs.Prelude.{List};
    ghost use Rattle.ctl_drive.specs.declared.channels.ChannelState.{ChannelState};

    ghost Value = { List ChannelState };

    ghost view = { λ c. c.states };
}

impl Channels {
    /// Connections of which none is open, and none wanted.
    fn new_untold(quiet_for: Duration) -> Channels
        ensures { result ≡ replicate 62 state.Untold }
    {
        let none = Waiting {
            count: 0,
            since: None,
        };
        Channels {
            states: [ChannelState::Untold; Dlci::COUNT],
            waiting: [none; Dlci::COUNT],
            quiet_for,
        }
    }

    /// Connections of which none is open. These are wanted.
    #[tactic(auto, using(crate::proofs::WantedStates::wants_next, crate::proofs::WantedStates::wants_all))]
    pub fn new(quiet_for: Duration, wanted: &[Dlci]) -> Channels
        ensures { result ≡ wanted_states wanted.now (replicate 62 state.Untold) }
    {
        let mut channels = Channels::new_untold(quiet_for);
        let mut place = 0;
        while place < wanted.len() {
            channels.set(wanted[place], ChannelState::Wanted);
            place += 1;
        }
        channels
    }

    /// What is known of a connection.
    pub fn state(&self, dlci: Dlci) -> ChannelState
        ensures { result ≡ state_at self.now dlci.number }
    {
        self.states[usize::from(dlci.number())]
    }

    /// Puts a connection into this state.
    fn set(&mut self, dlci: Dlci, state: ChannelState)
        ensures { self.new ≡ set self.old dlci.number state }
    {
        self.states[usize::from(dlci.number())] = state;
    }

    /// Notes that a connection isn't open any more.
    pub fn shut(&mut self, dlci: Dlci)
        ensures { self.new ≡ set self.old dlci.number (shut_of (state_at self.old dlci.number)) }
    {
        let state = self.state(dlci).shut();
        self.set(dlci, state);
    }

    /// Notes what an opening of a connection was told.
    pub fn note_opening(&mut self, dlci: Dlci, answer: &Answer)
        ensures { self.new ≡ set self.old dlci.number (opened_by answer.now) }
    {
        self.set(dlci, ChannelState::opened(answer));
    }

    /// Notes that a command on a connection began to wait.
    fn note_asked<K: Clock>(&mut self, clock: &K, dlci: Dlci)
        ensures { self.new ≡ self.old }
    {
        let waiting = &mut self.waiting[usize::from(dlci.number())];
        if waiting.count == 0 {
            waiting.since = Instant::now(clock).ok();
        }
        waiting.count = waiting.count.saturating_add(1);
    }

    /// Notes that a command was submitted on a connection.
    pub fn note_submitted<K: Clock>(&mut self, clock: &K, dlci: Dlci)
        ensures { self.new ≡ set self.old dlci.number (submitted_by (state_at self.old dlci.number)) }
    {
        self.note_asked(clock, dlci);
        let state = self.state(dlci).submitted();
        self.set(dlci, state);
    }

    /// Notes that a command on a connection waits no more.
    fn note_answered<K: Clock>(&mut self, clock: &K, dlci: Dlci)
        ensures { self.new ≡ self.old }
    {
        let waiting = &mut self.waiting[usize::from(dlci.number())];
        waiting.count = waiting.count.saturating_sub(1);
        waiting.since = match waiting.count {
            0 => None,
            _ => Instant::now(clock).ok(),
        };
    }

    /// Notes what a command on a connection was told.
    pub fn note_told<K: Clock>(&mut self, clock: &K, dlci: Dlci, answer: &Answer)
        ensures { self.new ≡ set self.old dlci.number (closed_by answer.now (state_at self.old dlci.number)) }
    {
        self.note_answered(clock, dlci);
        let state = self.state(dlci).told(answer);
        self.set(dlci, state);
    }

    /// How long the commands of a connection may go on to wait, if one waits on an open connection.
    fn left<K: Clock>(&self, clock: &K, number: usize) -> Option<Duration>
        requires { number < 62 }
    {
        if self.states[number] != ChannelState::Open {
            return None;
        }
        let waited = self.waiting[number].since?.elapsed(clock).ok()?;
        Some(self.quiet_for.saturating_sub(waited))
    }

    /// A connection whose commands have waited too long, if there is one.
    pub fn find_quiet<K: Clock>(&self, clock: &K) -> Option<Dlci> {
        for number in 0..Dlci::COUNT {
            if self.left(clock, number).is_some_and(|left| left.is_zero()) {
                return Dlci::new(u8::try_from(number).ok()?);
            }
        }
        None
    }

    /// The least time until a connection has waited too long, at most `most`.
    pub fn time_left<K: Clock>(&self, clock: &K, most: Duration) -> Duration {
        let mut least = most;
        for number in 0..Dlci::COUNT {
            if let Some(left) = self.left(clock, number) {
                least = least.min(left);
            }
        }
        least
    }
}
