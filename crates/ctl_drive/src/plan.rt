//! What is asked of the desk next: the lines of the input as commands, and what they need.
ghost use Rattle.std.specs.Prelude.{◌≡◌, ◌≢◌, ◌⊎◌, ◌+◌, ◌<◌, ◌≤◌, ℕ, List, Option, Some, None, true, false, is_some, length, IfOk, IfSome, OnErr, OnOk};
ghost use Rattle.modem_desk.specs.declared.request.Request.{Request};
ghost use Rattle.ctl_drive.specs.Asking.{AsksOn, IsThrough, ReadsLine, StopsOn};
ghost use Rattle.ctl_drive.specs.Ending.{IsToldFault};
ghost use Rattle.ctl_drive.specs.Plans.{after_asking, is_unclosed};
ghost use Rattle.ctl_drive.specs.Showing.{GoOn};
ghost use Rattle.ctl_drive.specs.Turns.{MayRest, NoneWants, one_if, steps_of};
ghost use Rattle.ctl_drive.specs.declared.fault.DriveFault.TheVariants as fault;
ghost use Rattle.ctl_drive.specs.declared.turns.Want.TheVariants.{Opening, Submission};
ghost use Rattle.ctl_drive.specs.declared.users.Control.TheVariants as control;

use crate::fault::{DriveFault, GiveUp};
use crate::input::Lines;
use crate::queues::Queues;
use crate::saying::name_bad;
use crate::turns::{Want, find_next};
use crate::users::{Control, Users};
use ctl_text::{Refusal, command_of};
use modem_desk::Answer;
use mux_frame::Dlci;
use std::alloc::Global;
use std::io::{Read, Write};
use std::marker::Model;
use std::rt::Clock;
use std::sync::Wait;

/// How many steps are made before the session is polled.
const STEPS: u32 = 16;

/// How far a drive has come.
#[derive(Clone, Copy)]
enum Phase {
    /// Connection 0 isn't open yet.
    Opening,
    /// Lines are submitted.
    Going,
    /// All were told, and the multiplexer is to end.
    Stopping,
}

/// What is to be asked: the commands that wait, by connection, and the rest of the input. `opened` is the connection for which an opening
/// was asked last, and `submitted` that of which a command was submitted last.
#[derive(Drop)]
pub struct Plan<I: Read> {
    input: Lines<I>,
    queues: Queues,
    opened: Dlci,
    submitted: Dlci,
    phase: Phase,
    number: u64,
    bad: bool,
}

impl<I: Read> Model for Plan<I> {
    ghost use Rattle.ctl_drive.specs.Asking.{PlanView};
    ghost use Rattle.ctl_drive.specs.Plans.{is_stopping};

    ghost Value = { PlanView };

    ghost view = { λ p. record {
      input = p.input;
      count = p.number;
      was_bad = p.bad;
      waiting = p.queues;
      stopping = is_stopping p.phase;
    } };
}

impl<I: Read> Plan<I> {
    ghost use Rattle.std.specs.Prelude.{◌≡◌, [], false, replicate, true};

    /// To open connection 0, and then what this input says.
    pub fn new(alloc: Global, input: Lines<I>) -> Plan<I>
        ensures { result ≡ record { input = input; count = 0; was_bad = false; waiting = replicate 62 []; stopping = false } }
    {
        Plan {
            input,
            queues: Queues::new(alloc),
            opened: Dlci::CONTROL,
            submitted: Dlci::CONTROL,
            phase: Phase::Opening,
            number: 0,
            bad: false,
        }
    }

    /// Whether a line of the input was bad.
    pub fn was_bad(&self) -> bool
        ensures { result ≡ self.now.was_bad }
    {
        self.bad
    }

    /// Whether the multiplexer is to end.
    pub fn is_stopping(&self) -> bool
        ensures { result ≡ self.now.stopping }
    {
        self.phase == Phase::Stopping
    }

    /// Whether the reader of the input failed.
    pub fn has_failed(&self) -> bool
        ensures { result ≡ self.now.input.failed }
    {
        self.input.has_failed()
    }

    /// What a line of the input says. One that is bad is named, and passed over. Refused with NoMemory, and with GaveUp where 2^64 - 1
    /// lines came before.
    fn read_line<E: Write>(
        &mut self,
        alloc: Global,
        line: &[u8],
        faults: &mut E,
    ) -> Result<(), DriveFault>
        ensures reads { OnOk result (ReadsLine self.old self.new line.now (E.contents faults.old) (E.contents faults.new)) }
        ensures silent { OnErr result (faults.new ≡ faults.old) }
    {
        let Some(number) = self.number.checked_add(1) else {
            return Err(DriveFault::GaveUp(GiveUp::Lines));
        };
        self.number = number;
        if line.is_empty() {
            return Ok(());
        }
        match command_of(alloc, line) {
            Ok((dlci, line)) => self.queues.push(dlci, line)?,
            Err(Refusal::Bad(fault)) => {
                self.bad = true;
                name_bad(faults, number, fault);
            }
            Err(Refusal::NoMemory) => return Err(DriveFault::NoMemory),
        }
        Ok(())
    }

    /// Reads the next line of the input, if one is there and not too many wait, and says whether it read one.
    fn read_on<E: Write>(&mut self, alloc: Global, faults: &mut E) -> Result<bool, DriveFault>
        ensures asks { OnOk result ((submitted : List Request)
            → AsksOn self.old self.new submitted submitted (E.contents faults.old) (E.contents faults.new)) }
        ensures count { IfOk result (λ read. self.new.count ≡ self.old.count + one_if read) }
        ensures silent { OnErr result (faults.new ≡ faults.old) }
    {
        if self.phase != Phase::Going || self.queues.is_full() {
            return Ok(false);
        }
        match self.input.next()? {
            Some(line) => {
                self.read_line(alloc, line.as_slice(), faults)?;
                Ok(true)
            }
            None => Ok(false),
        }
    }

    /// What is to be asked beside commands now, if anything is.
    fn control<K: Clock>(&self, clock: &K, users: &Users) -> Option<Control>
        ensures through { IfSome result (λ c. c ≡ control.Stop → IsThrough self.now) }
        ensures idle { IfSome result (λ c. c ≡ control.Stop → users.now.under_way.items ≡ []) }
        ensures none { result ≡ None → (self.now.stopping ≡ true) ⊎ NoneWants Opening self.now.waiting users.now }
    {
        match self.phase {
            Phase::Opening => return Some(Control::Open(Dlci::CONTROL)),
            Phase::Stopping => return None,
            Phase::Going => {}
        }
        if let Some(dlci) = users.channels.find_quiet(clock) {
            return Some(Control::Close(dlci));
        }
        if let Some(dlci) = find_next(Want::Opening, &self.queues, users, self.opened) {
            return Some(Control::Open(dlci));
        }
        if self.input.has_ended() && self.queues.is_empty() && users.under_way.is_empty() {
            return Some(Control::Stop);
        }
        None
    }

    /// It was asked.
    fn note_asked(&mut self, control: Control)
        ensures { self.new ≡ after_asking control self.old }
    {
        match control {
            Control::Open(dlci) => self.opened = dlci,
            Control::Close(_) => {}
            Control::Stop => self.phase = Phase::Stopping,
        }
    }

    /// Asks what is to be asked beside commands, where nothing such is under way, and says whether it asked. Refused with GaveUp.
    #[tactic(auto, using(crate::proofs::Lines::stays))]
    fn ask_on<R: Wait + Clock>(&mut self, rt: &R, users: &mut Users) -> Result<bool, DriveFault>
        ensures goes { OnOk result ((out : Option (List ℕ)) → GoOn out out users.old users.new) }
        ensures asks { OnOk result ((said : Option (List ℕ))
            → AsksOn self.old self.new users.old.caller.submitted users.new.caller.submitted said said) }
        ensures openings { OnOk result ((self.new.stopping ≡ true) ⊎ ((is_some users.new.asked ≡ true)
            ⊎ NoneWants Opening self.new.waiting users.new)) }
        ensures count { IfOk result (λ asked. steps_of self.new users.new ≡ steps_of self.old users.old + one_if asked) }
    {
        let Some(control) = self.control(rt, users) else {
            return Ok(false);
        };
        if !users.ask(rt, control)? {
            return Ok(false);
        }
        self.note_asked(control);
        Ok(true)
    }

    /// Submits the next command, if one may be, and says whether it did. Refused with NoMemory and GaveUp.
    #[tactic(auto, using(crate::proofs::Lines::stays))]
    fn submit_on<R: Wait + Clock>(&mut self, rt: &R, users: &mut Users) -> Result<bool, DriveFault>
        ensures goes { OnOk result ((out : Option (List ℕ)) → GoOn out out users.old users.new) }
        ensures asks { OnOk result ((said : Option (List ℕ))
            → AsksOn self.old self.new users.old.caller.submitted users.new.caller.submitted said said) }
        ensures same { IfOk result (λ done. done ≡ false → (self.new ≡ self.old) × (users.new ≡ users.old)) }
        ensures lines { IfOk result (λ done. done ≡ false → (15 ≤ length users.new.under_way.items)
            ⊎ NoneWants Submission self.new.waiting users.new) }
        ensures count { IfOk result (λ done. steps_of self.new users.new ≡ steps_of self.old users.old + one_if done) }
    {
        if users.is_full() {
            return Ok(false);
        }
        let Some(dlci) = find_next(Want::Submission, &self.queues, users, self.submitted) else {
            return Ok(false);
        };
        let Some(line) = self.queues.take(dlci) else {
            return Ok(false);
        };
        users.submit(rt, dlci, line)?;
        self.submitted = dlci;
        Ok(true)
    }

    /// Asks what is to be asked now, and says whether it asked or read anything.
    #[tactic(auto, using(crate::proofs::Lines::stays, crate::proofs::Lines::goes_then, crate::proofs::Asks::asks_none))]
    pub fn go_on<R: Wait + Clock, E: Write>(
        &mut self,
        rt: &R,
        alloc: Global,
        users: &mut Users,
        faults: &mut E,
    ) -> Result<bool, DriveFault>
        ensures goes { OnOk result ((out : Option (List ℕ)) → GoOn out out users.old users.new) }
        ensures asks { OnOk result (AsksOn self.old self.new users.old.caller.submitted users.new.caller.submitted
            (E.contents faults.old) (E.contents faults.new)) }
        ensures stops { OnErr result (StopsOn self.old users.old.caller.submitted (E.contents faults.old) (E.contents faults.new)) }
        ensures rests { IfOk result (λ any. any ≡ false → MayRest self.new users.new) }
        ensures moves { IfOk result (λ any. any ≡ true → steps_of self.old users.old < steps_of self.new users.new) }
    {
        for step in 0..STEPS {
            let read = self.read_on(alloc, faults)?;
            let asked = self.ask_on(rt, users)?;
            let submitted = self.submit_on(rt, users)?;
            if !read && !asked && !submitted {
                return Ok(step > 0);
            }
        }
        Ok(true)
    }

    /// What an opening was told: the fault by which the drive ends, if it does.
    fn judge_opening(&mut self, dlci: Dlci, answer: &Answer) -> Option<DriveFault>
        ensures same { self.new ≡ self.old }
        ensures why { IsToldFault result }
        ensures heard { result ≢ Some fault.Silent }
    {
        match answer {
            Answer::Opened | Answer::AlreadyOpen => {
                if self.phase == Phase::Opening {
                    self.phase = Phase::Going;
                }
                None
            }
            Answer::LineLost => None,
            _ if dlci.number() == 0 => Some(DriveFault::NotOpened),
            Answer::NotOpen => Some(DriveFault::Closed),
            _ => None,
        }
    }

    /// What was asked beside commands was told this: the fault by which the drive ends, if it does.
    pub fn judge(&mut self, control: Control, answer: &Answer) -> Option<DriveFault>
        ensures same { self.new ≡ self.old }
        ensures why { IsToldFault result }
        ensures silent { is_unclosed control answer.now ≡ true → result ≡ Some fault.Silent }
        ensures heard { is_unclosed control answer.now ≡ false → result ≢ Some fault.Silent }
    {
        match control {
            Control::Open(dlci) => self.judge_opening(dlci, answer),
            Control::Close(_) if matches!(answer, Answer::NoAnswer) => Some(DriveFault::Silent),
            Control::Stop if matches!(answer, Answer::NotOpen) => Some(DriveFault::Closed),
            Control::Stop | Control::Close(_) => None,
        }
    }
}
