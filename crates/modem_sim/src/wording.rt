//! What a line does to a modem with words.
ghost use Rattle.std.specs.Prelude.{◌≡◌, ◌∷◌, ◌++◌, [], codes, false, fold, map, None, Some, IfOk, OnOk, OnErr, IsErrOf, option_map};
ghost use Rattle.std.specs.Fmt.{decimal};
ghost use Rattle.at_cmds.specs.Forms.{in_quotes};
ghost use Rattle.at_cmds.specs.Values.{command_of};
ghost use Rattle.modem_sim.specs.SettingTexts.{context_forms, lock_text, named_oper_text, oper_name};
ghost use Rattle.modem_sim.specs.Steps.{domain_name, line_of, registration_text, setting_told, status_text, told_as, word_code, word_refusal, word_told};
ghost use Rattle.modem_sim.specs.LineSteps.{line_commands, line_through, nothing_ran, ran_command, ran_next, ran_other, ran_word, refusal_as, through_by, worded_by, worded_step};

use crate::activity::{numbers_line, push_activity, push_contexts_named, push_whole_contexts};
use crate::announcing::report;
use crate::answers::{error_text, push_line, push_told};
use crate::error::SimError;
use crate::state::{ModemState, Words};
use crate::values::{errors_line, push_forms};
use crate::words::{Charset, Domain, Word, word_of};
use at_cmds::forms::push_quoted;
use at_cmds::{Command, OperChoice, commands_in};
use at_text::{AnswerLine, Text};
use modem_data::is_connect;
use std::alloc::{AllocError, Global};
use std::marker::Model;

/// What commands of one line came to.
#[derive(Drop)]
struct Run {
    state: ModemState,
    told: Vec<AnswerLine>,
    ended: Option<Text>,
}

impl Model for Run {
    ghost use Rattle.modem_sim.specs.LineSteps.{Ran};

    ghost Value = { Ran };

    ghost view = { λ r. record { state = r.state; told = r.told.items; ended = r.ended } };
}

/// The command of the first table that a text is, if it is one.
fn command_of(alloc: Global, text: &[u8]) -> Result<Option<Command>, SimError>
    ensures read { IfOk result (λ command. command ≡ command_of text.now) }
    ensures no_memory { OnErr result (IsErrOf result SimError.NoMemory) }
{
    match Command::read(alloc, text) {
        Ok(command) => Ok(command),
        Err(_) => Err(SimError::NoMemory),
    }
}

/// The commands of a line, if it has an `AT`.
#[tactic(auto, unfolding(crate::specs::LineSteps::line_commands))]
fn line_commands(alloc: Global, line: &[u8]) -> Result<Option<Vec<Text>>, SimError>
    ensures read { IfOk result (λ read. option_map (λ commands. commands.items) read ≡ line_commands line.now) }
    ensures no_memory { OnErr result (IsErrOf result SimError.NoMemory) }
{
    if command_of(alloc, line)?.is_none() {
        return Ok(commands_in(alloc, line)?);
    }
    let mut commands = Vec::new(alloc);
    commands.push(Text::from(Vec::from_slice(alloc, line)?))?;
    Ok(Some(commands))
}

/// The operator's name in this form.
fn oper_name(alloc: Global, format: u8, number: &[u8]) -> Result<Vec<u8>, AllocError>
    ensures { IfOk result (λ name. name.items ≡ oper_name format number.now) }
{
    let mut name = Vec::new(alloc);
    match format {
        0 => name.extend_from_slice(b"Network ")?,
        1 => name.extend_from_slice(b"N")?,
        _ => {}
    }
    name.extend_from_slice(number)?;
    Ok(name)
}

/// How an operator was chosen, and its name.
fn named_line(alloc: Global, head: &str, format: u8, name: &[u8]) -> Result<Vec<u8>, AllocError>
    ensures { IfOk result
        (λ text. text.items ≡ head.now ++ decimal format ++ codes "," ++ in_quotes name.now ++ codes ",7") }
{
    let mut text = format!(in alloc; "{head}{format},")?.into_bytes();
    push_quoted(&mut text, name)?;
    text.extend_from_slice(b",7")?;
    Ok(text)
}

/// The operator: how it was chosen, and its name.
fn named_oper(alloc: Global, format: u8, oper: &OperChoice) -> Result<Vec<u8>, AllocError>
    ensures { IfOk result (λ text. text.items ≡ named_oper_text format oper.now) }
{
    match oper {
        OperChoice::Automatic => {
            let name = oper_name(alloc, format, b"00101")?;
            named_line(alloc, "+COPS: 0,", format, name.as_slice())
        }
        OperChoice::Manual(number) => {
            let name = oper_name(alloc, format, number.as_slice())?;
            named_line(alloc, "+COPS: 1,", format, name.as_slice())
        }
        OperChoice::Deregister => Vec::from_slice(alloc, b"+COPS: 2"),
    }
}

/// The status of a registration, with the cell where reports have it.
pub(crate) fn status_text(reports: u8, registered: bool) -> &'static str
    ensures { result.now ≡ status_text reports registered }
{
    match (registered, reports) {
        (false, _) => "0",
        (true, 2) => "1,\"00A1\",\"01B2C3D4\",7",
        (true, _) => "1",
    }
}

impl Domain {
    ghost use Rattle.modem_sim.specs.Steps.{domain_name};

    /// How its lines begin.
    fn name(self) -> &'static str
        ensures { result.now ≡ domain_name self }
    {
        match self {
            Domain::Packet => "+CGREG: ",
            Domain::Evolved => "+CEREG: ",
        }
    }
}

/// `+CFUN?` (27.007, 8.2).
fn functionality_line(alloc: Global, functionality: u8) -> Result<Vec<u8>, AllocError>
    ensures { IfOk result (λ text. text.items ≡ codes "+CFUN: " ++ decimal functionality) }
{
    Ok(format!(in alloc; "+CFUN: {functionality}")?.into_bytes())
}

/// What values reports of a registration take.
fn forms_line(alloc: Global, domain: Domain) -> Result<Vec<u8>, AllocError>
    ensures { IfOk result (λ text. text.items ≡ domain_name domain ++ codes "(0-2)") }
{
    let mut text = Vec::from_slice(alloc, domain.name().as_bytes())?;
    text.extend_from_slice(b"(0-2)")?;
    Ok(text)
}

/// How changes of a registration are reported, and its status.
fn registration_line(
    alloc: Global,
    domain: Domain,
    reports: u8,
    registered: bool,
) -> Result<Vec<u8>, AllocError>
    ensures { IfOk result
        (λ text. text.items ≡ registration_text domain reports registered) }
{
    let status = status_text(reports, registered);
    match domain {
        Domain::Packet => Ok(format!(in alloc; "+CGREG: {reports},{status}")?.into_bytes()),
        Domain::Evolved => Ok(format!(in alloc; "+CEREG: {reports},{status}")?.into_bytes()),
    }
}

/// A fixed line behind others.
pub(crate) fn push_text(
    alloc: Global,
    text: &str,
    answer: &mut Vec<AnswerLine>,
) -> Result<(), AllocError>
    ensures { OnOk result (answer.new.items ≡ answer.old.items ++ line_of text.now ∷ []) }
{
    push_line(answer, Vec::from_slice(alloc, text.as_bytes())?)
}

impl Charset {
    ghost use Rattle.modem_sim.specs.SettingTexts.{charset_text};

    /// How it is told (27.007, 5.5).
    fn line(self) -> &'static str
        ensures { result.now ≡ charset_text self }
    {
        match self {
            Charset::Gsm => "+CSCS: \"GSM\"",
            Charset::Ira => "+CSCS: \"IRA\"",
        }
    }
}

/// Whether the SIM has a PIN (27.007, 7.4).
fn lock_line(has_pin: bool) -> &'static str
    ensures { result.now ≡ lock_text has_pin }
{
    if has_pin { "+CLCK: 1" } else { "+CLCK: 0" }
}

/// Writes the kinds of contexts that there are behind other lines (27.007, 10.1.1).
fn push_context_forms(alloc: Global, answer: &mut Vec<AnswerLine>) -> Result<(), AllocError>
    ensures { OnOk result (answer.new.items ≡ answer.old.items ++ map line_of context_forms) }
{
    push_text(alloc, "+CGDCONT: (1-15),\"IP\",,,(0),(0)", answer)?;
    push_text(alloc, "+CGDCONT: (1-15),\"IPV6\",,,(0),(0)", answer)?;
    push_text(alloc, "+CGDCONT: (1-15),\"IPV4V6\",,,(0),(0)", answer)?;
    Ok(())
}

/// Writes what a command for settings, contexts or locks is told before OK behind other lines; nothing for any other.
fn push_setting_told(
    alloc: Global,
    words: Words,
    state: &ModemState,
    word: Word,
    answer: &mut Vec<AnswerLine>,
) -> Result<(), AllocError>
    ensures { OnOk result
        (answer.new.items ≡ answer.old.items ++ map line_of (setting_told words state.now word)) }
{
    match word {
        Word::ContextForms => push_context_forms(alloc, answer),
        Word::ActivityForms => push_text(alloc, "+CGACT: (0,1)", answer),
        Word::ActivityQuery => push_activity(
            alloc,
            &state.active,
            state.contexts.as_slice(),
            answer,
        ),
        Word::Addresses(which) => push_contexts_named(
            alloc,
            which,
            &state.active,
            state.contexts.as_slice(),
            answer,
        ),
        Word::AddressForms => push_line(answer, numbers_line(alloc, state.contexts.as_slice())?),
        Word::CharsetForms => push_text(alloc, "+CSCS: (\"GSM\",\"IRA\")", answer),
        Word::CharsetQuery => push_text(alloc, words.charset.line(), answer),
        Word::LockForms => push_text(alloc, "+CLCK: (\"SC\")", answer),
        Word::LockQuery => push_text(alloc, lock_line(words.has_pin), answer),
        Word::Forms(form) => push_forms(alloc, state.is_registered(), form, answer),
        Word::ErrorsQuery => push_line(answer, errors_line(alloc, state.errors)?),
        Word::MultiplexerQuery => push_text(alloc, "+CMUX: 0,0", answer),
        _ => Ok(()),
    }
}

/// Writes what a command of the second table is told before OK behind other lines.
fn push_word_told(
    alloc: Global,
    words: Words,
    state: &ModemState,
    word: Word,
    answer: &mut Vec<AnswerLine>,
) -> Result<(), AllocError>
    ensures { OnOk result
        (answer.new.items ≡ answer.old.items ++ map line_of (word_told words state.now word)) }
{
    match word {
        Word::Identity => push_text(alloc, "Cimbaloty simulated modem", answer),
        Word::Manufacturer => push_text(alloc, "Cimbaloty", answer),
        Word::Product => push_text(alloc, "Simulated modem", answer),
        Word::Revision => push_text(alloc, "1", answer),
        Word::Serial => push_text(alloc, "490154203237518", answer),
        Word::Subscriber => push_text(alloc, "001010123456789", answer),
        Word::Capabilities => push_text(alloc, "+GCAP: +CGSM", answer),
        Word::FunctionalityForms => push_text(alloc, "+CFUN: (0,1,4),(0)", answer),
        Word::RegForms => push_text(alloc, "+CREG: (0-2)", answer),
        Word::FunctionalityQuery => push_line(
            answer,
            functionality_line(alloc, words.functionality)?,
        ),
        Word::ReportForms(domain) => push_line(answer, forms_line(alloc, domain)?),
        Word::ReportQuery(domain) => push_line(
            answer,
            registration_line(
                alloc,
                domain,
                words.reports_of(domain),
                state.is_registered(),
            )?,
        ),
        _ => push_setting_told(alloc, words, state, word, answer),
    }
}

/// The result code with which a command of the second table ends its line, where it does.
fn word_code(alloc: Global, state: &ModemState, word: Word) -> Result<Option<Text>, AllocError>
    ensures { IfOk result (λ code. code ≡ word_code state.now word) }
{
    let Word::Dial(cid) = word else {
        return Ok(None);
    };
    let code = Vec::from_slice(alloc, state.dialled(cid).as_bytes())?;
    Ok(Some(Text::from(code)))
}

/// Writes what a command of the first table is told before OK behind other lines.
fn push_told_as(
    alloc: Global,
    state: &ModemState,
    command: &Command,
    answer: &mut Vec<AnswerLine>,
) -> Result<(), AllocError>
    ensures { OnOk result
        (answer.new.items ≡ answer.old.items ++ map line_of (told_as state.now.words state.now command.now)) }
{
    match (state.words, command) {
        (Some(words), Command::OperQuery) => push_line(
            answer,
            named_oper(alloc, words.oper_format, &state.oper)?,
        ),
        (Some(_words), Command::ContextQuery) => {
            push_whole_contexts(alloc, state.contexts.as_slice(), answer)
        }
        _ => push_told(alloc, state, command, answer),
    }
}

impl Run {
    /// Does a command of the first table. After an error nothing is said of what was done.
    fn obey(&mut self, alloc: Global, command: Command) -> Result<(), AllocError>
        requires { self.old.ended ≡ None }
        ensures { OnOk result
            (self.new ≡ ran_command (refusal_as self.old.state.words self.old.state command) self.old command) }
    {
        if let Some(number) = self.state.refusal_as(&command) {
            let error = error_text(alloc, self.state.errors, number)?;
            self.ended = Some(Text::from(error));
            self.state.refuse(&command);
            return Ok(());
        }
        push_told_as(alloc, &self.state, &command, &mut self.told)?;
        self.state.carry_out(command)?;
        self.state.settle();
        Ok(())
    }

    /// Does a command of the second table.
    fn obey_word(&mut self, alloc: Global, words: Words, word: Word) -> Result<(), AllocError>
        requires { self.old.ended ≡ None }
        ensures { OnOk result
            (self.new ≡ ran_word (word_refusal words self.old.state word) words self.old word) }
    {
        if let Some(number) = self.state.word_refusal(words, word) {
            let error = error_text(alloc, self.state.errors, number)?;
            self.ended = Some(Text::from(error));
            self.state.refuse_word(words, word);
            return Ok(());
        }
        push_word_told(alloc, words, &self.state, word, &mut self.told)?;
        self.ended = word_code(alloc, &self.state, word)?;
        self.state.carry_out_word(words, word)
    }

    /// Does a command that isn't of the first table.
    fn do_other(&mut self, alloc: Global, word: Option<Word>) -> Result<(), AllocError>
        requires { self.old.ended ≡ None }
        ensures { OnOk result (self.new ≡ ran_other self.old.state.words self.old word) }
    {
        match (self.state.words, word) {
            (Some(words), Some(word)) => self.obey_word(alloc, words, word),
            _ => {
                self.ended = Some(Text::from(Vec::from_slice(alloc, b"ERROR")?));
                Ok(())
            }
        }
    }

    /// Does the next command of the line, unless one before it ended the line.
    fn go_on(&mut self, alloc: Global, text: &[u8]) -> Result<(), SimError>
        ensures done { OnOk result (self.new ≡ ran_next self.old text.now) }
        ensures no_memory { OnErr result (IsErrOf result SimError.NoMemory) }
    {
        if self.ended.is_some() {
            return Ok(());
        }
        match command_of(alloc, text)? {
            Some(command) => self.obey(alloc, command)?,
            None => self.do_other(alloc, word_of(alloc, text)?)?,
        }
        Ok(())
    }
}

impl Run {
    ghost use Rattle.modem_sim.specs.LineSteps.{final_text, is_through};

    /// Whether the line put a call through.
    fn is_through(&self) -> bool
        ensures { result ≡ is_through self.now.ended }
    {
        match &self.ended {
            Some(code) => is_connect(code.as_slice()),
            None => false,
        }
    }

    /// The state, and the lines with the result code behind them.
    fn finish(self, alloc: Global) -> Result<(ModemState, Vec<AnswerLine>), AllocError>
        ensures state { IfOk result (λ r. r.0 ≡ self.state) }
        ensures lines { IfOk result (λ r. r.1.items ≡ self.told ++ line_of (final_text self.ended) ∷ []) }
    {
        let Run { state, told, ended } = self;
        let mut answer = told;
        match ended {
            Some(code) => push_line(&mut answer, code.into_vec())?,
            None => push_text(alloc, "OK", &mut answer)?,
        }
        Ok((state, answer))
    }
}

/// What commands come to.
fn run_all(alloc: Global, state: ModemState, commands: &[Text]) -> Result<Run, SimError>
    ensures done { IfOk result (λ run. run ≡ fold ran_next (nothing_ran state) commands.now) }
    ensures no_memory { OnErr result (IsErrOf result SimError.NoMemory) }
{
    let mut run = Run {
        state,
        told: Vec::new(alloc),
        ended: None,
    };
    for command in commands {
        run.go_on(alloc, command.as_slice())?;
    }
    Ok(run)
}

/// So many octets are kept of a line; one that is as long is taken for longer.
pub(crate) const TOO_LONG: usize = 512;

/// What a line comes to.
#[derive(Drop)]
pub(crate) struct Effect {
    /// The state afterwards.
    pub(crate) state: ModemState,
    pub(crate) answer: Vec<AnswerLine>,
    /// Whether it put a call through.
    pub(crate) is_through: bool,
}

/// What is done of a line that has no commands, or of which nothing is done.
fn undone(state: ModemState, answer: Vec<AnswerLine>) -> Effect
    ensures state { result.state ≡ state }
    ensures answer { result.answer ≡ answer }
    ensures is_through { result.is_through ≡ false }
{
    Effect {
        state,
        answer,
        is_through: false,
    }
}

/// What the commands of a line come to, the reports that they make included.
fn answered(alloc: Global, before: &ModemState, commands: &[Text]) -> Result<Effect, SimError>
    ensures state { IfOk result (λ r. r.state ≡ (worded_by before.now (Some commands.now)).state) }
    ensures answer { IfOk result (λ r. r.answer.items ≡ (worded_by before.now (Some commands.now)).answer) }
    ensures through { IfOk result (λ r. r.is_through ≡ through_by before.now (Some commands.now)) }
    ensures no_memory { OnErr result (IsErrOf result SimError.NoMemory) }
{
    let run = run_all(alloc, before.copy()?, commands)?;
    let is_through = run.is_through();
    let (mut state, mut answer) = run.finish(alloc)?;
    report(alloc, before, is_through, &mut state, &mut answer)?;
    Ok(Effect {
        state,
        answer,
        is_through,
    })
}

/// What a line does to a modem with words: its state afterwards, the answer, and whether it put a call through.
pub(crate) fn worded(alloc: Global, before: &ModemState, line: &[u8]) -> Result<Effect, SimError>
    ensures state { IfOk result (λ r. r.state ≡ (worded_step before.now line.now).state) }
    ensures answer { IfOk result (λ r. r.answer.items ≡ (worded_step before.now line.now).answer) }
    ensures through { IfOk result (λ r. r.is_through ≡ line_through before.now line.now) }
    ensures no_memory { OnErr result (IsErrOf result SimError.NoMemory) }
{
    let Some(commands) = line_commands(alloc, line)? else {
        return Ok(undone(before.copy()?, Vec::new(alloc)));
    };
    if line.len() >= TOO_LONG {
        let mut answer = Vec::new(alloc);
        push_text(alloc, "ERROR", &mut answer)?;
        return Ok(undone(before.copy()?, answer));
    }
    answered(alloc, before, &commands)
}
