//! What a modem keeps, and how commands change it.
ghost use Rattle.std.specs.Prelude.{◌≡◌, true, IfOk, OnOk, OnErr};

use crate::contexts::{ActiveContexts, PdpContext, PdpContexts};
use crate::own_answers::{OwnAnswers, OwnLines};
use crate::words::{Charset, Domain, Form, Word};
use at_cmds::{Command, OperChoice, Pin};
use std::alloc::AllocError;

/// Operation not allowed (27.007, 9.2.1), as the other errors.
const NOT_ALLOWED: u32 = 3;

const PIN_REQUIRED: u32 = 11;

const PUK_REQUIRED: u32 = 12;

const SIM_FAILURE: u32 = 13;

const INCORRECT_PASSWORD: u32 = 16;

const NO_NETWORK_SERVICE: u32 = 30;

/// How often a PUK may be tried.
pub(crate) const PUK_TRIES: u8 = 10;

/// What keeps the SIM from being used (27.007, 8.3).
#[derive(Drop)]
pub(crate) enum Lock {
    /// Nothing.
    Ready,
    /// It wants this PIN, and takes so many tries. The PIN is forgotten once it is right: no other state looks at it.
    NeedPin { pin: Pin, tries: u8 },
    /// It wants its PUK.
    NeedPuk,
}

/// What a modem with words keeps beside the rest.
#[derive(Clone, Copy)]
pub(crate) struct Words {
    /// Whether commands are repeated (V.250, 6.2.4), now and at the start.
    pub(crate) echo: bool,
    pub(crate) first_echo: bool,
    /// 0 least, 1 full, 4 without radio (27.007, 8.2).
    pub(crate) functionality: u8,
    /// How changes of registration are reported, 0 to 2 (27.007, 10.1.20, 10.1.22).
    pub(crate) packet_reports: u8,
    pub(crate) evolved_reports: u8,
    /// How the operator is named: 0 by its name, 1 by its short name, 2 by its number (27.007, 7.3).
    pub(crate) oper_format: u8,
    /// The characters of texts (27.007, 5.5).
    pub(crate) charset: Charset,
    /// Whether the SIM has a PIN (27.007, 7.4).
    pub(crate) has_pin: bool,
    /// How often its PUK may still be tried (27.007, 8.3).
    pub(crate) puk_tries: u8,
}

/// What a modem keeps.
#[derive(Drop)]
pub(crate) struct ModemState {
    pub(crate) lock: Lock,
    /// How changes of registration are reported, 0 to 2 (27.007, 7.2).
    pub(crate) reports: u8,
    /// How errors are told, 0 to 2 (27.007, 9.1).
    pub(crate) errors: u8,
    pub(crate) oper: OperChoice,
    pub(crate) contexts: PdpContexts,
    /// To the packet service (27.007, 10.1.9).
    pub(crate) attached: bool,
    /// Strength and errors of the signal (27.007, 8.5).
    pub(crate) rssi: u8,
    pub(crate) ber: u8,
    /// The contexts that are active, of a modem with words (27.007, 10.1.10).
    pub(crate) active: ActiveContexts,
    /// What the second table needs, where there is one.
    pub(crate) words: Option<Words>,
    /// What a modem with words answers before it looks into its tables.
    pub(crate) own: OwnAnswers,
    /// What it has still to say of such answers: those without more lines to come at the next line.
    pub(crate) late: OwnLines,
}

impl Lock {
    ghost use Rattle.modem_sim.specs.Steps.{lock_error, pin_error, puk_error, unlock_error, after_wrong_pin};

    /// The error before the SIM is ready.
    fn error(&self) -> Option<u32>
        ensures { result ≡ lock_error self.now }
    {
        match self {
            Lock::Ready => None,
            Lock::NeedPin { .. } => Some(PIN_REQUIRED),
            Lock::NeedPuk => Some(PUK_REQUIRED),
        }
    }

    /// The error that a PIN is refused with.
    fn pin_error(&self, entered: &Pin) -> Option<u32>
        ensures { result ≡ pin_error self.now entered.now }
    {
        match self {
            Lock::Ready => Some(NOT_ALLOWED),
            Lock::NeedPin { pin, .. } if pin == entered => None,
            Lock::NeedPin { .. } => Some(INCORRECT_PASSWORD),
            Lock::NeedPuk => Some(PUK_REQUIRED),
        }
    }

    /// The error that a PUK is refused with, of which so many may be tried.
    fn puk_error(&self, tries: u8, is_right: bool) -> Option<u32>
        ensures { result ≡ unlock_error self.now tries is_right }
    {
        match self {
            Lock::Ready => Some(NOT_ALLOWED),
            Lock::NeedPin { .. } => Some(PIN_REQUIRED),
            Lock::NeedPuk if tries == 0 => Some(SIM_FAILURE),
            Lock::NeedPuk if is_right => None,
            Lock::NeedPuk => Some(INCORRECT_PASSWORD),
        }
    }

    /// A copy.
    fn copy(&self) -> Result<Lock, AllocError>
        ensures { IfOk result (λ copy. copy ≡ self.now) }
    {
        match self {
            Lock::Ready => Ok(Lock::Ready),
            Lock::NeedPin { pin, tries } => Ok(Lock::NeedPin {
                pin: pin.copy()?,
                tries: *tries,
            }),
            Lock::NeedPuk => Ok(Lock::NeedPuk),
        }
    }

    /// Takes a try off.
    fn miss(&mut self)
        ensures { self.new ≡ after_wrong_pin self.old }
    {
        if let Lock::NeedPin { tries, .. } = self {
            if *tries > 1 {
                *tries -= 1;
            } else {
                *self = Lock::NeedPuk;
            }
        }
    }
}

impl ModemState {
    ghost use Rattle.modem_sim.specs.Steps.{is_registered, refusal_of, after_refusal, after_command};

    /// A copy of the state.
    pub(crate) fn copy(&self) -> Result<ModemState, AllocError>
        ensures { IfOk result (λ copy. copy ≡ self.now) }
    {
        Ok(ModemState {
            lock: self.lock.copy()?,
            reports: self.reports,
            errors: self.errors,
            oper: oper_copy(&self.oper)?,
            contexts: self.contexts.copy()?,
            attached: self.attached,
            rssi: self.rssi,
            ber: self.ber,
            active: self.active.copy()?,
            words: self.words,
            own: self.own.copy()?,
            late: self.late.copy()?,
        })
    }

    /// Whether the modem is on a network.
    pub(crate) fn is_registered(&self) -> bool
        ensures { result ≡ is_registered self.now.lock self.now.oper }
    {
        matches!(self.lock, Lock::Ready) && !matches!(self.oper, OperChoice::Deregister)
    }

    /// The error that a command is refused with, where it is.
    pub(crate) fn refusal_of(&self, command: &Command) -> Option<u32>
        ensures { result ≡ refusal_of self.now command.now }
    {
        match command {
            Command::PinEnter(pin) => self.lock.pin_error(pin),
            Command::OperQuery
            | Command::OperChoose(_)
            | Command::ContextSet { .. }
            | Command::ContextQuery
            | Command::AttachSet(false)
            | Command::AttachQuery => self.lock.error(),
            Command::AttachSet(true) => self.attach_error(),
            Command::Multiplex => Some(NOT_ALLOWED),
            _ => None,
        }
    }

    /// The error that attaching is refused with.
    fn attach_error(&self) -> Option<u32>
        ensures { result ≡ refusal_of self.now (Command.AttachSet true) }
    {
        if let Some(number) = self.lock.error() {
            return Some(number);
        }
        if self.is_registered() {
            return None;
        }
        Some(NO_NETWORK_SERVICE)
    }

    /// Refuses a command.
    pub(crate) fn refuse(&mut self, command: &Command)
        ensures { self.new ≡ after_refusal self.old command.now }
    {
        if let Command::PinEnter(_) = command {
            self.lock.miss();
        }
    }

    /// Carries a command out. Want of memory changes nothing.
    pub(crate) fn carry_out(&mut self, command: Command) -> Result<(), AllocError>
        ensures ok { OnOk result (self.new ≡ after_command self.old command) }
        ensures err { OnErr result (self.new ≡ self.old) }
    {
        match command {
            Command::PinEnter(_pin) => self.lock = Lock::Ready,
            Command::RegReport(n) => self.reports = n,
            Command::OperChoose(choice) => self.choose(choice),
            Command::ContextSet { cid, pdp, apn } => {
                self.contexts.set(PdpContext { cid, pdp, apn })?;
            }
            Command::AttachSet(on) => self.attached = on,
            Command::ErrorMode(n) => self.errors = n,
            _ => {}
        }
        Ok(())
    }

    /// Chooses an operator; without one the modem isn't attached.
    fn choose(&mut self, choice: OperChoice)
        ensures { self.new ≡ after_command self.old (Command.OperChoose choice) }
    {
        if let OperChoice::Deregister = choice {
            self.attached = false;
        }
        self.oper = choice;
    }
}

impl ModemState {
    ghost use Rattle.modem_sim.specs.Steps.{activated, after_word_refusal, context_error, dialled, lock_error, settled, switched, word_after, word_refusal};
    ghost use Rattle.modem_sim.specs.LineSteps.{radio_error, refusal_as};
    ghost use Rattle.modem_sim.specs.Contexts.{is_defined};

    /// The error that choosing an operator is refused with, where it is.
    fn choose_error(&self, words: Words) -> Option<u32>
        ensures { result ≡ radio_error words.functionality (lock_error self.now.lock) }
    {
        if let Some(number) = self.lock.error() {
            return Some(number);
        }
        if words.functionality == 1 {
            return None;
        }
        Some(NO_NETWORK_SERVICE)
    }

    /// The error that a command of the first table is refused with, where it is: with words an operator is chosen only with all
    /// functions on.
    pub(crate) fn refusal_as(&self, command: &Command) -> Option<u32>
        ensures { result ≡ refusal_as self.now.words self.now command.now }
    {
        match (self.words, command) {
            (Some(words), Command::OperChoose(OperChoice::Automatic | OperChoice::Manual(_))) => {
                self.choose_error(words)
            }
            _ => self.refusal_of(command),
        }
    }

    /// The error that a command for contexts is refused with, where it is.
    fn context_error(&self, which: Option<u8>) -> Option<u32>
        ensures { result ≡ context_error (lock_error self.now.lock) (is_defined which self.now.contexts) }
    {
        if let Some(number) = self.lock.error() {
            return Some(number);
        }
        if self.contexts.is_defined(which) {
            return None;
        }
        Some(NOT_ALLOWED)
    }

    /// The error that activating contexts is refused with, where it is.
    fn activate_error(&self, words: Words, which: Option<u8>) -> Option<u32>
        ensures { result ≡ word_refusal words self.now (Word.Activate true which) }
    {
        match self.context_error(which) {
            None if !self.is_registered() => Some(NO_NETWORK_SERVICE),
            error => error,
        }
    }

    /// The error that a command of the second table is refused with, where it is.
    pub(crate) fn word_refusal(&self, words: Words, word: Word) -> Option<u32>
        ensures { result ≡ word_refusal words self.now word }
    {
        match word {
            Word::Subscriber | Word::ActivityQuery | Word::Dial(_) | Word::Forms(Form::Operators) =>
                self.lock.error(),
            Word::Activate(true, which) => self.activate_error(words, which),
            Word::Activate(false, which) | Word::Addresses(which) => self.context_error(which),
            Word::Unlock(is_right) => self.lock.puk_error(words.puk_tries, is_right),
            _ => None,
        }
    }

    /// What a packet call over the context of this number is answered.
    pub(crate) fn dialled(&self, cid: u8) -> &'static str
        ensures { result.now ≡ dialled cid self.now }
    {
        if self.active.has(cid) {
            "CONNECT"
        } else {
            "NO CARRIER"
        }
    }

    /// Refuses a command of the second table.
    pub(crate) fn refuse_word(&mut self, words: Words, word: Word)
        ensures { self.new ≡ after_word_refusal words self.old word }
    {
        if let (Word::Unlock(_), Lock::NeedPuk) = (word, &self.lock) {
            self.words = Some(Words {
                puk_tries: words.puk_tries.saturating_sub(1),
                ..words
            });
        }
    }

    /// Carries a command of the second table out. After an error nothing is said of what was done.
    pub(crate) fn carry_out_word(&mut self, words: Words, word: Word) -> Result<(), AllocError>
        ensures { OnOk result (self.new ≡ word_after words self.old word) }
    {
        match word {
            Word::Reset => self.reset(words),
            Word::Echo(on) => self.words = Some(Words { echo: on, ..words }),
            Word::Functionality(n) => self.switch(words, n),
            Word::Report(domain, n) => self.words = Some(words.with_reports(domain, n)),
            Word::OperFormat(n) => self.words = Some(Words {
                oper_format: n,
                ..words
            }),
            Word::Activate(on, which) => self.activate(on, which)?,
            Word::SetCharset(charset) => self.words = Some(Words { charset, ..words }),
            Word::Unlock(_) => {
                self.lock = Lock::Ready;
                self.words = Some(Words {
                    puk_tries: PUK_TRIES,
                    ..words
                });
            }
            _ => {}
        }
        Ok(())
    }

    /// Sets the settings as at the start.
    fn reset(&mut self, words: Words)
        ensures { self.new ≡ word_after words self.old Word.Reset }
    {
        self.reports = 0;
        self.errors = 0;
        self.words = Some(Words {
            echo: words.first_echo,
            packet_reports: 0,
            evolved_reports: 0,
            oper_format: 2,
            charset: Charset::Ira,
            ..words
        });
    }

    /// Activates contexts, for which it attaches, or deactivates them. Want of memory changes nothing.
    fn activate(&mut self, on: bool, which: Option<u8>) -> Result<(), AllocError>
        ensures ok { OnOk result (self.new ≡ activated on which self.old) }
        ensures err { OnErr result (self.new ≡ self.old) }
    {
        self.active = self.active.after(on, which, self.contexts.as_slice())?;
        self.attached = self.attached || on;
        Ok(())
    }

    /// Contexts are active while the modem is attached.
    pub(crate) fn settle(&mut self)
        ensures { self.new ≡ settled self.old }
    {
        if !self.attached {
            self.active.clear();
        }
    }

    /// Switches functions.
    fn switch(&mut self, words: Words, functionality: u8)
        ensures { self.new ≡ switched functionality words self.old }
    {
        self.words = Some(Words {
            functionality,
            ..words
        });
        if functionality == 1 {
            self.choose(OperChoice::Automatic);
        } else {
            self.choose(OperChoice::Deregister);
            self.active.clear();
        }
    }
}

impl Words {
    ghost use Rattle.modem_sim.specs.Steps.{reports_of, with_reports};

    /// How changes of a registration are reported.
    pub(crate) fn reports_of(self, domain: Domain) -> u8
        ensures { result ≡ reports_of self domain }
    {
        match domain {
            Domain::Packet => self.packet_reports,
            Domain::Evolved => self.evolved_reports,
        }
    }

    fn with_reports(self, domain: Domain, reports: u8) -> Words
        ensures { result ≡ with_reports self domain reports }
    {
        match domain {
            Domain::Packet => Words {
                packet_reports: reports,
                ..self
            },
            Domain::Evolved => Words {
                evolved_reports: reports,
                ..self
            },
        }
    }
}

/// A copy of the choice.
fn oper_copy(oper: &OperChoice) -> Result<OperChoice, AllocError>
    ensures { IfOk result (λ copy. copy ≡ oper.now) }
{
    match oper {
        OperChoice::Automatic => Ok(OperChoice::Automatic),
        OperChoice::Deregister => Ok(OperChoice::Deregister),
        OperChoice::Manual(number) => Ok(OperChoice::Manual(number.copy()?)),
    }
}
