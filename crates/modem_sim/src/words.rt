//! The second table: commands that a modem with words takes beside those of the first.
ghost use Rattle.std.specs.Prelude.{◌≡◌, IfOk};
ghost use Rattle.std.specs.Str.{bytes_eq};
ghost use Rattle.modem_sim.specs.Words.{basic_word, cid_behind, cid_called, context_word, dial_word, form_word, identity_word, numbered_word, phone_word, report_word, setting_word, unlock_word, word_of};

use at_cmds::forms::{cid_in, is_pin};
use at_text::octets::all_digits;
use std::alloc::{AllocError, Global};

/// The PUK of the SIM.
const PUK: &[u8] = b"12345678";

/// What a report of registration is about.
#[derive(Clone, Copy)]
pub(crate) enum Domain {
    /// The packet service (27.007, 10.1.20).
    Packet,
    /// E-UTRAN (27.007, 10.1.22).
    Evolved,
}

/// The characters of texts between quotes (27.007, 5.5). The modem's texts are the same in both.
#[derive(Clone, Copy)]
pub(crate) enum Charset {
    Gsm,
    Ira,
}

/// Of which command the values are asked (27.007, 4.1).
#[derive(Clone, Copy)]
pub(crate) enum Form {
    /// One that names none.
    Unnamed,
    /// `AT+COPS` (27.007, 7.3).
    Operators,
    /// `AT+CSQ` (27.007, 8.5).
    Strength,
    /// `AT+CMEE` (27.007, 9.1).
    Errors,
    /// `AT+CGATT` (27.007, 10.1.9).
    Attachment,
    /// `AT+CMUX` (27.007, 5.7).
    Multiplexer,
    /// `AT+CGDATA` (27.007, 10.1.12).
    DataState,
}

/// A command of the second table.
#[derive(Clone, Copy)]
pub(crate) enum Word {
    /// `ATZ` and `AT&F`: the settings as at the start (V.250, 6.1.1, 6.1.2).
    Reset,
    /// `ATE0`, `ATE1`: whether commands are repeated (V.250, 6.2.4).
    Echo(bool),
    /// `ATV1`, `ATQ0`: answers in words, and none held back, which is how it is (V.250, 6.2.5, 6.2.6).
    Usual,
    /// `ATI` (V.250, 6.1.3).
    Identity,
    /// `AT+CGMI` (27.007, 5.1).
    Manufacturer,
    /// `AT+CGMM` (27.007, 5.2).
    Product,
    /// `AT+CGMR` (27.007, 5.3).
    Revision,
    /// `AT+CGSN` (27.007, 5.4).
    Serial,
    /// `AT+CIMI` (27.007, 5.6).
    Subscriber,
    /// `AT+GCAP` (V.250, 6.1.9).
    Capabilities,
    /// `AT+CFUN=`: 0 least, 1 full, 4 without radio (27.007, 8.2).
    Functionality(u8),
    /// `AT+CFUN?`.
    FunctionalityQuery,
    /// `AT+CFUN=?`.
    FunctionalityForms,
    /// `AT+CREG=?` (27.007, 7.2).
    RegForms,
    /// `AT+CGREG=`, `AT+CEREG=`: how changes are reported, 0 to 2.
    Report(Domain, u8),
    /// `AT+CGREG?`, `AT+CEREG?`.
    ReportQuery(Domain),
    /// `AT+CGREG=?`, `AT+CEREG=?`.
    ReportForms(Domain),
    /// `AT+COPS=3,`: 0 by its name, 1 by its short name, 2 by its number (27.007, 7.3).
    OperFormat(u8),
    /// `AT+CGDCONT=?` (27.007, 10.1.1).
    ContextForms,
    /// `AT+CGACT=`: whether contexts become active or inactive, and the number of the one, or all (27.007, 10.1.10).
    Activate(bool, Option<u8>),
    /// `AT+CGACT?`.
    ActivityQuery,
    /// `AT+CGACT=?`.
    ActivityForms,
    /// `AT+CGPADDR`: the addresses of the one context, or of all (27.007, 10.1.14).
    Addresses(Option<u8>),
    /// `AT+CGPADDR=?`.
    AddressForms,
    /// `ATD*99#`, `AT+CGDATA`: a packet call over the context of this number (27.007, 10.1.12, 10.2.1.1).
    Dial(u8),
    /// `AT+CSCS=` (27.007, 5.5).
    SetCharset(Charset),
    /// `AT+CSCS?`.
    CharsetQuery,
    /// `AT+CSCS=?`.
    CharsetForms,
    /// `AT+CLCK=?` (27.007, 7.4).
    LockForms,
    /// `AT+CLCK="SC",2`: whether the SIM has a PIN.
    LockQuery,
    /// `AT+CPIN=` with a PUK and a new PIN: whether the PUK is that of the SIM (27.007, 8.3). No state looks at the new PIN.
    Unlock(bool),
    /// `=?` behind a command of which the values aren't told otherwise.
    Forms(Form),
    /// `AT+CMEE?` (27.007, 9.1).
    ErrorsQuery,
    /// `AT+CMUX?` (27.007, 5.7).
    MultiplexerQuery,
}

/// Whether a text is this one.
fn is(text: &[u8], name: &[u8]) -> bool
    ensures { result ≡ bytes_eq text.now name.now }
{
    text == name
}

/// A command of one sign, or of an ampersand and one; letters in lower case.
fn basic_word(text: &[u8]) -> Option<Word>
    ensures { result ≡ basic_word text.now }
{
    if is(text, b"atz") || is(text, b"atz0") {
        return Some(Word::Reset);
    }
    if is(text, b"at&f") || is(text, b"at&f0") {
        return Some(Word::Reset);
    }
    if is(text, b"ate") || is(text, b"ate0") {
        return Some(Word::Echo(false));
    }
    if is(text, b"ate1") {
        return Some(Word::Echo(true));
    }
    if is(text, b"atv1") {
        return Some(Word::Usual);
    }
    if is(text, b"atq") || is(text, b"atq0") {
        return Some(Word::Usual);
    }
    if is(text, b"ati") || is(text, b"ati0") {
        return Some(Word::Identity);
    }
    None
}

/// A command that asks what the modem is.
fn identity_word(text: &[u8]) -> Option<Word>
    ensures { result ≡ identity_word text.now }
{
    if is(text, b"at+cgmi") {
        return Some(Word::Manufacturer);
    }
    if is(text, b"at+cgmm") {
        return Some(Word::Product);
    }
    if is(text, b"at+cgmr") {
        return Some(Word::Revision);
    }
    if is(text, b"at+cgsn") {
        return Some(Word::Serial);
    }
    if is(text, b"at+cimi") {
        return Some(Word::Subscriber);
    }
    if is(text, b"at+gcap") {
        return Some(Word::Capabilities);
    }
    None
}

/// A command for the modem's functions, or for the form of the operator's name.
fn phone_word(text: &[u8]) -> Option<Word>
    ensures { result ≡ phone_word text.now }
{
    if is(text, b"at+cfun?") {
        return Some(Word::FunctionalityQuery);
    }
    if is(text, b"at+cfun=?") {
        return Some(Word::FunctionalityForms);
    }
    if is(text, b"at+cfun=0") || is(text, b"at+cfun=0,0") {
        return Some(Word::Functionality(0));
    }
    if is(text, b"at+cfun=1") || is(text, b"at+cfun=1,0") {
        return Some(Word::Functionality(1));
    }
    if is(text, b"at+cfun=4") || is(text, b"at+cfun=4,0") {
        return Some(Word::Functionality(4));
    }
    if is(text, b"at+cops=3,0") {
        return Some(Word::OperFormat(0));
    }
    if is(text, b"at+cops=3,1") {
        return Some(Word::OperFormat(1));
    }
    if is(text, b"at+cops=3,2") {
        return Some(Word::OperFormat(2));
    }
    None
}

/// A command for reports of registration.
fn report_word(text: &[u8]) -> Option<Word>
    ensures { result ≡ report_word text.now }
{
    if is(text, b"at+creg=?") {
        return Some(Word::RegForms);
    }
    if is(text, b"at+cgreg=?") {
        return Some(Word::ReportForms(Domain::Packet));
    }
    if is(text, b"at+cgreg?") {
        return Some(Word::ReportQuery(Domain::Packet));
    }
    if is(text, b"at+cgreg=0") {
        return Some(Word::Report(Domain::Packet, 0));
    }
    if is(text, b"at+cgreg=1") {
        return Some(Word::Report(Domain::Packet, 1));
    }
    if is(text, b"at+cgreg=2") {
        return Some(Word::Report(Domain::Packet, 2));
    }
    if is(text, b"at+cereg=?") {
        return Some(Word::ReportForms(Domain::Evolved));
    }
    if is(text, b"at+cereg?") {
        return Some(Word::ReportQuery(Domain::Evolved));
    }
    if is(text, b"at+cereg=0") {
        return Some(Word::Report(Domain::Evolved, 0));
    }
    if is(text, b"at+cereg=1") {
        return Some(Word::Report(Domain::Evolved, 1));
    }
    if is(text, b"at+cereg=2") {
        return Some(Word::Report(Domain::Evolved, 2));
    }
    None
}

/// The number of a context behind this beginning.
fn cid_behind(text: &[u8], start: &[u8]) -> Option<u8>
    ensures { result ≡ cid_behind start.now text.now }
{
    cid_in(text.strip_prefix(start)?)
}

/// A command for one packet context, by its number.
fn numbered_word(text: &[u8]) -> Option<Word>
    ensures { result ≡ numbered_word text.now }
{
    if let Some(cid) = cid_behind(text, b"at+cgact=0,") {
        return Some(Word::Activate(false, Some(cid)));
    }
    if let Some(cid) = cid_behind(text, b"at+cgact=1,") {
        return Some(Word::Activate(true, Some(cid)));
    }
    if let Some(cid) = cid_behind(text, b"at+cgpaddr=") {
        return Some(Word::Addresses(Some(cid)));
    }
    None
}

/// A command for packet contexts.
fn context_word(text: &[u8]) -> Option<Word>
    ensures { result ≡ context_word text.now }
{
    if is(text, b"at+cgdcont=?") {
        return Some(Word::ContextForms);
    }
    if is(text, b"at+cgact=?") {
        return Some(Word::ActivityForms);
    }
    if is(text, b"at+cgact?") {
        return Some(Word::ActivityQuery);
    }
    if is(text, b"at+cgact=0") {
        return Some(Word::Activate(false, None));
    }
    if is(text, b"at+cgact=1") {
        return Some(Word::Activate(true, None));
    }
    if is(text, b"at+cgpaddr") || is(text, b"at+cgpaddr=") {
        return Some(Word::Addresses(None));
    }
    if is(text, b"at+cgpaddr=?") {
        return Some(Word::AddressForms);
    }
    numbered_word(text)
}

/// The number of the context that `ATD*99***N#` calls.
fn cid_called(text: &[u8]) -> Option<u8>
    ensures { result ≡ cid_called text.now }
{
    let value = text.strip_prefix(b"atd*99***")?;
    cid_in(value.strip_suffix(b"#")?)
}

/// A command that begins a packet call.
fn dial_word(text: &[u8]) -> Option<Word>
    ensures { result ≡ dial_word text.now }
{
    if is(text, b"atd*99#") {
        return Some(Word::Dial(1));
    }
    if is(text, b"at+cgdata") || is(text, b"at+cgdata=\"ppp\"") {
        return Some(Word::Dial(1));
    }
    if let Some(cid) = cid_called(text) {
        return Some(Word::Dial(cid));
    }
    Some(Word::Dial(cid_behind(text, b"at+cgdata=\"ppp\",")?))
}

/// A command for the characters of texts, or for what the SIM's PIN locks.
fn setting_word(text: &[u8]) -> Option<Word>
    ensures { result ≡ setting_word text.now }
{
    if is(text, b"at+cscs=?") {
        return Some(Word::CharsetForms);
    }
    if is(text, b"at+cscs?") {
        return Some(Word::CharsetQuery);
    }
    if is(text, b"at+cscs=\"gsm\"") {
        return Some(Word::SetCharset(Charset::Gsm));
    }
    if is(text, b"at+cscs=\"ira\"") {
        return Some(Word::SetCharset(Charset::Ira));
    }
    if is(text, b"at+clck=?") {
        return Some(Word::LockForms);
    }
    if is(text, b"at+clck=\"sc\",2") {
        return Some(Word::LockQuery);
    }
    None
}

/// A command that asks what values another takes, how errors are told, or for the multiplexer's mode.
fn form_word(text: &[u8]) -> Option<Word>
    ensures { result ≡ form_word text.now }
{
    if is(text, b"at+cgmi=?") || is(text, b"at+cgmm=?") {
        return Some(Word::Forms(Form::Unnamed));
    }
    if is(text, b"at+cgmr=?") || is(text, b"at+cgsn=?") {
        return Some(Word::Forms(Form::Unnamed));
    }
    if is(text, b"at+cimi=?") || is(text, b"at+gcap=?") {
        return Some(Word::Forms(Form::Unnamed));
    }
    if is(text, b"at+cpin=?") {
        return Some(Word::Forms(Form::Unnamed));
    }
    if is(text, b"at+cops=?") {
        return Some(Word::Forms(Form::Operators));
    }
    if is(text, b"at+csq=?") {
        return Some(Word::Forms(Form::Strength));
    }
    if is(text, b"at+cmee=?") {
        return Some(Word::Forms(Form::Errors));
    }
    if is(text, b"at+cgatt=?") {
        return Some(Word::Forms(Form::Attachment));
    }
    if is(text, b"at+cgdata=?") {
        return Some(Word::Forms(Form::DataState));
    }
    if is(text, b"at+cmux=?") {
        return Some(Word::Forms(Form::Multiplexer));
    }
    if is(text, b"at+cmee?") {
        return Some(Word::ErrorsQuery);
    }
    if is(text, b"at+cmux?") {
        return Some(Word::MultiplexerQuery);
    }
    None
}

/// A PUK of eight digits and a new PIN of 4 to 8, each between quotes.
fn unlock_word(text: &[u8]) -> Option<Word>
    ensures { result ≡ unlock_word text.now }
{
    let value = text.strip_prefix(b"at+cpin=\"")?;
    if value.len() < 8 {
        return None;
    }
    let (puk, rest) = value.split_at(8);
    let pin = rest.strip_prefix(b"\",\"")?.strip_suffix(b"\"")?;
    if !all_digits(puk) || !is_pin(pin) {
        return None;
    }
    Some(Word::Unlock(is(puk, PUK)))
}

/// The command of the second table that a text is, its letters in either case.
#[tactic(auto, unfolding(crate::specs::Words::word_of))]
pub(crate) fn word_of(alloc: Global, text: &[u8]) -> Result<Option<Word>, AllocError>
    ensures { IfOk result (λ word. word ≡ word_of text.now) }
{
    let text = text.to_ascii_lowercase(alloc)?;
    let text = text.as_slice();
    if let Some(word) = basic_word(text) {
        return Ok(Some(word));
    }
    if let Some(word) = identity_word(text) {
        return Ok(Some(word));
    }
    if let Some(word) = phone_word(text) {
        return Ok(Some(word));
    }
    if let Some(word) = report_word(text) {
        return Ok(Some(word));
    }
    if let Some(word) = context_word(text) {
        return Ok(Some(word));
    }
    if let Some(word) = dial_word(text) {
        return Ok(Some(word));
    }
    if let Some(word) = setting_word(text) {
        return Ok(Some(word));
    }
    if let Some(word) = form_word(text) {
        return Ok(Some(word));
    }
    Ok(unlock_word(text))
}
