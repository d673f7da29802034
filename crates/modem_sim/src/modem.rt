//! The modem.
ghost use Rattle.std.specs.Prelude.{◌≡◌, IfOk, OnOk, OnErr, IsErrOf};
ghost use Rattle.modem_sim.specs.LineSteps.{line_through, repeats, with_late, worded_step};

use crate::announcing::any_through;
use crate::answers::{answer_of, error_answer, told};
use crate::contexts::{ActiveContexts, PdpContexts};
use crate::error::SimError;
use crate::own_answers::{OwnAnswers, OwnLines};
use crate::state::{Lock, ModemState, PUK_TRIES, Words};
use crate::wording::{Effect, TOO_LONG, worded};
use crate::words::Charset;
use at_cmds::{Command, OperChoice, Pin, begins_with_at};
use at_text::AnswerLine;
use std::alloc::{AllocError, Global};
use std::marker::Model;

/// How often a PIN may be tried.
const TRIES: u8 = 3;

/// How a modem starts.
#[derive(Drop)]
pub struct ModemStart {
    /// The PIN that its SIM wants, if it wants one.
    pub pin: Option<Pin>,
    /// The strength of its signal, as `+CSQ:` tells it (27.007, 8.5).
    pub rssi: u8,
    /// The bit error rate of its signal.
    pub ber: u8,
}

impl Default for ModemStart {
    ghost use Rattle.std.specs.Prelude.{◌≡◌, None};

    /// No PIN, a signal of strength 18, and an error rate that isn't known.
    fn default() -> ModemStart
        ensures { result ≡ record { pin = None; rssi = 18; ber = 99 } }
    {
        ModemStart {
            pin: None,
            rssi: 18,
            ber: 99,
        }
    }
}

/// What a line does to a modem with words by its tables: its state afterwards, and the answer, behind which come the lines of its own
/// that waited for the line.
fn looked_up(
    alloc: Global,
    before: &ModemState,
    line: &[u8],
) -> Result<(ModemState, Vec<AnswerLine>), SimError>
    ensures state { IfOk result (λ r. r.0 ≡ (with_late (line_through before.now line.now) (worded_step before.now line.now)).state) }
    ensures answer { IfOk result (λ r. r.1.items ≡ (with_late (line_through before.now line.now) (worded_step before.now line.now)).answer) }
    ensures no_memory { OnErr result (IsErrOf result SimError.NoMemory) }
{
    let Effect {
        state,
        mut answer,
        is_through,
    } = worded(alloc, before, line)?;
    let late = state.late.say(is_through, &mut answer)?;
    Ok((ModemState { late, ..state }, answer))
}

/// A modem, which contracts see as its state.
#[derive(Drop)]
pub struct Modem {
    alloc: Global,
    state: ModemState,
}

impl Model for Modem {
    ghost use Rattle.modem_sim.specs.declared.state.ModemState.{ModemState};

    ghost Value = { ModemState };

    ghost view = { λ m. m.state };
}

impl Modem {
    ghost use Rattle.modem_sim.specs.Steps.{obeyed, standard_step, started, started_with_words};
    ghost use Rattle.modem_sim.specs.LineSteps.{echoes, own_answer, own_step, own_said, step};

    /// A modem that was just started. It takes no memory.
    pub fn new(alloc: Global, start: ModemStart) -> Modem
        ensures { result ≡ started start }
    {
        let ModemStart { pin, rssi, ber } = start;
        let lock = match pin {
            Some(pin) => Lock::NeedPin { pin, tries: TRIES },
            None => Lock::Ready,
        };
        let state = ModemState {
            lock,
            reports: 0,
            errors: 0,
            oper: OperChoice::Automatic,
            contexts: PdpContexts::new(alloc),
            attached: false,
            rssi,
            ber,
            active: ActiveContexts::new(alloc),
            words: None,
            own: OwnAnswers::new(alloc),
            late: OwnLines::new(alloc),
        };
        Modem { alloc, state }
    }

    /// A modem with words that was just started. It takes more than the commands of a modem without words: those that clients
    /// send as they begin, several in a line, with blanks, and behind whatever stands before `AT` (V.250, 5.2.1). It announces
    /// changes of registration where reports are on (27.007, 7.2). It activates packet contexts (27.007, 10.1.10), and answers
    /// packet calls over them (27.007, 10.1.12, 10.2.1.1). After three wrong PINs it takes a PUK (27.007, 8.3). `echo` says
    /// whether it repeats commands until an `ATE` says otherwise. It takes no memory.
    pub fn with_words(alloc: Global, start: ModemStart, echo: bool) -> Modem
        ensures { result ≡ started_with_words start echo }
    {
        let has_pin = start.pin.is_some();
        let mut modem = Modem::new(alloc, start);
        modem.state.words = Some(Words {
            echo,
            first_echo: echo,
            functionality: 1,
            packet_reports: 0,
            evolved_reports: 0,
            oper_format: 2,
            charset: Charset::Ira,
            has_pin,
            puk_tries: PUK_TRIES,
        });
        modem
    }

    /// Gives the modem these answers of its own, in place of those it had. Only a modem with words uses them. To a command
    /// line it says the first of them that takes the line, and does nothing else. It looks into its tables for a line that
    /// none takes. A line of 512 octets or more is refused all the same. Lines of an answer can wait for more command lines.
    /// They are said behind the answer to the last of these, on the connection of that one, but behind no `CONNECT`: then behind the
    /// next answer.
    pub fn answer_by(&mut self, own: OwnAnswers)
        ensures { self.new ≡ record self.old { own = own } }
    {
        self.state.own = own;
    }

    /// Whether it repeats commands (V.250, 6.2.4): with `always`, or where a modem with words was told to.
    pub fn echoes(&self, always: bool) -> bool
        ensures { result ≡ echoes always self.now }
    {
        if always {
            return true;
        }
        match self.state.words {
            Some(words) => words.echo,
            None => false,
        }
    }

    /// Whether it repeats a line: as `echoes` says, but where a modem with words was told to, only a line that begins with `AT`, as at
    /// plain lines. So no `CONNECT` that comes is repeated, behind which data would be looked for.
    pub fn repeats(&self, always: bool, line: &[u8]) -> bool
        ensures { result ≡ repeats always self.now line.now }
    {
        always || (self.echoes(false) && begins_with_at(line))
    }

    /// A copy of the modem.
    pub fn copy(&self) -> Result<Modem, AllocError>
        ensures { IfOk result (λ copy. copy ≡ self.now) }
    {
        let state = self.state.copy()?;
        Ok(Modem {
            alloc: self.alloc,
            state,
        })
    }

    /// Carries out a command line, given without its CR, and answers it in lines, the last a final code, or the `CONNECT` of a
    /// packet call, behind which it takes command lines as before: it has no data of its own. A modem with words announces a change
    /// of registration behind that. To a line without `AT` it answers nothing. Where an answer of its own takes the line, it says
    /// that one and does nothing else. Last it says the lines of its earlier answers that waited for this line. Behind a `CONNECT` it
    /// says nothing, since that would be data: reports and lines that are due then come behind the next answer, whichever connection
    /// that goes to. Refused with 1 NoMemory, which leaves the modem as it was.
    #[tactic(auto, using(crate::proofs::modem_steps::StandardModems::step_standard, crate::proofs::modem_steps::StandardModems::step_with_words))]
    pub fn execute(&mut self, line: &[u8]) -> Result<Vec<AnswerLine>, SimError>
        ensures answer { IfOk result (λ answer. answer.items ≡ (step self.old line.now).answer) }
        ensures state { OnOk result (self.new ≡ (step self.old line.now).state) }
        ensures err { OnErr result (self.new ≡ self.old) }
        ensures no_memory { OnErr result (IsErrOf result SimError.NoMemory) }
    {
        match self.state.words {
            Some(_) => self.execute_worded(line),
            None => self.execute_standard(line),
        }
    }

    /// What it says of its own to a line, if that isn't too long.
    fn own_answer(&self, line: &[u8]) -> Result<Option<OwnLines>, AllocError>
        ensures { IfOk result (λ found. found ≡ own_answer self.now line.now) }
    {
        if line.len() >= TOO_LONG {
            return Ok(None);
        }
        self.state.own.lines_for(line)
    }

    /// Says these lines of its own, and what is said of the lines that wait.
    fn say_own(&mut self, lines: OwnLines) -> Result<Vec<AnswerLine>, AllocError>
        ensures answer { IfOk result (λ answer. answer.items ≡ (own_said lines self.old).answer) }
        ensures state { OnOk result (self.new ≡ (own_said lines self.old).state) }
        ensures err { OnErr result (self.new ≡ self.old) }
    {
        let mut answer = Vec::new(self.alloc);
        lines.push_now(&mut answer)?;
        let is_through = any_through(&answer);
        let left = self.state.late.say(is_through, &mut answer)?;
        self.state.late = left.joined(&lines.later()?)?;
        Ok(answer)
    }

    /// The same for a modem with words.
    #[tactic(auto, using(crate::proofs::modem_steps::StandardModems::own_step_some, crate::proofs::modem_steps::StandardModems::own_step_none))]
    fn execute_worded(&mut self, line: &[u8]) -> Result<Vec<AnswerLine>, SimError>
        ensures answer { IfOk result (λ answer. answer.items ≡ (own_step (own_answer self.old line.now) self.old line.now).answer) }
        ensures state { OnOk result (self.new ≡ (own_step (own_answer self.old line.now) self.old line.now).state) }
        ensures err { OnErr result (self.new ≡ self.old) }
        ensures no_memory { OnErr result (IsErrOf result SimError.NoMemory) }
    {
        if let Some(lines) = self.own_answer(line)? {
            return Ok(self.say_own(lines)?);
        }
        let (state, answer) = looked_up(self.alloc, &self.state, line)?;
        self.state = state;
        Ok(answer)
    }

    /// The same for a modem without words.
    fn execute_standard(&mut self, line: &[u8]) -> Result<Vec<AnswerLine>, SimError>
        ensures answer { IfOk result (λ answer. answer.items ≡ (standard_step self.old line.now).answer) }
        ensures state { OnOk result (self.new ≡ (standard_step self.old line.now).state) }
        ensures err { OnErr result (self.new ≡ self.old) }
        ensures no_memory { OnErr result (IsErrOf result SimError.NoMemory) }
    {
        if line.eq_ignore_ascii_case(b"AT") {
            return Ok(answer_of(self.alloc, b"OK")?);
        }
        let Ok(command) = Command::read(self.alloc, line) else {
            return Err(SimError::NoMemory);
        };
        let Some(command) = command else {
            return Ok(answer_of(self.alloc, b"ERROR")?);
        };
        Ok(self.obey(command)?)
    }

    /// Refuses a command, or carries it out.
    fn obey(&mut self, command: Command) -> Result<Vec<AnswerLine>, AllocError>
        ensures answer { IfOk result (λ answer. answer.items ≡ (obeyed self.old command).answer) }
        ensures state { OnOk result (self.new ≡ (obeyed self.old command).state) }
        ensures err { OnErr result (self.new ≡ self.old) }
    {
        if let Some(number) = self.state.refusal_of(&command) {
            let answer = error_answer(self.alloc, self.state.errors, number)?;
            self.state.refuse(&command);
            return Ok(answer);
        }
        let answer = told(self.alloc, &self.state, &command)?;
        self.state.carry_out(command)?;
        Ok(answer)
    }
}
