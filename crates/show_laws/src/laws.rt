//! Laws of what is judged of a lawful line, as contracts of functions that do nothing.
ghost use Rattle.std.specs.Prelude.{ℕ, List};
ghost use Rattle.modem_history.specs.Calls.{Setting};
ghost use Rattle.show_laws.specs.InTime.{AsksInTime};
ghost use Rattle.show_laws.specs.Lines.{LineAct};
ghost use Rattle.show_laws.specs.LineRows.{AreRight};
ghost use Rattle.show_laws.specs.Talks.{FinishesTalk, TalksInTurn};
ghost use Rattle.modem_sim.specs.Acts.{End};
ghost use Rattle.one_modem.specs.OneModem.{EndAct};
ghost use Rattle.show_laws.specs.Simulated.{FinishesWithModem, Simulates, SoundToModem, TalksToModem};
ghost use Rattle.show_laws.specs.Laws.{AllSound, AnswersAll, AnswersAsks, AnswersWhileOpen, CarriesText, FitsN1, HeedsStops, NeverStopped, SendWhileOpen};

/// No frame between a driver that keeps its laws and a modem that keeps the responder's tables is judged an answer that nothing waits
/// for.
#[tactic(auto, using(crate::proofs::asks::NoneUnasked::answers_asks))]
pub fn answers()
    ensures { (s : Setting) (n1 : ℕ) (line : List LineAct) → AnswersAsks s n1 line }
{}

/// No frame of such a line is judged to have more information than N1 allows, where neither end has a greater N1 and no probe has more
/// than 16 octets.
#[tactic(auto, using(crate::proofs::sizes::NoneTooLong::fits_n1))]
pub fn sizes()
    ensures { (s : Setting) (n1 : ℕ) (line : List LineAct) → FitsN1 s n1 line }
{}

/// No data of such a line is judged a control message, where the driver is given command lines, and the modem's user offers printable
/// octets, CR and LF alone.
#[tactic(auto, using(crate::proofs::texts::NoneAstray::carries_text))]
pub fn texts()
    ensures { (s : Setting) (n1 : ℕ) (line : List LineAct) → CarriesText s n1 line }
{}

/// No data is judged to be on a connection that isn't open, where the driver asks for each connection once at most.
#[tactic(auto, using(crate::proofs::openings::BothOpen::send_while_open))]
pub fn openings()
    ensures { (s : Setting) (n1 : ℕ) (line : List LineAct) → SendWhileOpen s n1 line }
{}

/// No data is judged to be on a stopped connection, where neither end stops any.
#[tactic(auto, using(crate::proofs::stops::NoneStopped::never_stopped))]
pub fn stops()
    ensures { (s : Setting) (n1 : ℕ) (line : List LineAct) → NeverStopped s n1 line }
{}

/// No data is judged to be on a connection that is stopped, whichever end stops it, where the driver asks for each connection once at most.
#[tactic(auto, using(crate::proofs::stops::NoneUnstopped::heeds_stops))]
pub fn stops_heeded()
    ensures { (s : Setting) (n1 : ℕ) (line : List LineAct) → HeedsStops s n1 line }
{}

/// Nothing is judged wrong with any frame of a line on which all this holds.
#[tactic(auto, using(crate::proofs::sound::AllFrames::all_sound))]
pub fn frames()
    ensures { (s : Setting) (n1 : ℕ) (line : List LineAct) → AllSound s n1 line }
{}

/// Where nothing is under way on a lawful line no ask is judged unanswered, where each control command came while 0 was open at the end to
/// which it came, or once that end had closed down, and the modem sent none behind a CLD or the response to one. The driver asks for each
/// connection once at most.
#[tactic(auto, using(crate::proofs::answered::NoneWaits::answers_all))]
pub fn answered()
    ensures { (s : Setting) (n1 : ℕ) (line : List LineAct) → AnswersAll s n1 line }
{}

/// So it is, however often a connection is asked for, where each control command came while 0 was open at the end to which it came.
#[tactic(auto, using(crate::proofs::while_open::NoneWaits::answers_while_open))]
pub fn answered_while_open()
    ensures { (s : Setting) (n1 : ℕ) (line : List LineAct) → AnswersWhileOpen s n1 line }
{}

/// So it is where each connection is asked for once, the modem opens none, and does at once what each act calls for, 0 is closed by CLD alone,
/// no stop is given up, and the line isn't lost.
#[tactic(auto, using(crate::proofs::intime::InTime::asks_in_time))]
pub fn in_time()
    ensures { (s : Setting) (n1 : ℕ) (line : List LineAct) → AsksInTime s n1 line }
{}

/// Of what is told of a line no command overlaps another one, and no final code answers nothing, where the modem answers commands alone.
#[tactic(auto, using(crate::proofs::talks::InTurn::talks_in_turn))]
pub fn talks()
    ensures { (s : Setting) (n1 : ℕ) (line : List LineAct) → TalksInTurn s n1 line }
{}

/// There no command is left without an answer, where each that came has its final code.
#[tactic(auto, using(crate::proofs::talks::InTurn::finishes_talk))]
pub fn talks_end()
    ensures { (s : Setting) (n1 : ℕ) (line : List LineAct) → FinishesTalk s n1 line }
{}

/// A line of a driver and a simulated modem is such a line: each connection is asked for once, the modem opens none, and answers commands
/// alone.
#[tactic(auto, using(crate::proofs::simulated::SimulatedLines::simulates))]
pub fn simulated()
    ensures { (s : Setting) (e : End) (line : List EndAct) → Simulates s e line }
{}

/// Nothing is judged wrong with any frame of it, where what is offered is text, and probes are short.
#[tactic(auto, using(crate::proofs::simulated::SimulatedLines::sound_to_modem))]
pub fn simulated_frames()
    ensures { (s : Setting) (e : End) (line : List EndAct) → SoundToModem s e line }
{}

/// Of what is told of it no command overlaps another one, and no final code answers nothing.
#[tactic(auto, using(crate::proofs::simulated::SimulatedLines::talks_to_modem))]
pub fn simulated_talks()
    ensures { (s : Setting) (e : End) (line : List EndAct) → TalksToModem s e line }
{}

/// There no command on an open connection is left without an answer, where all that was sent has come, and all that is said has gone out.
#[tactic(auto, using(crate::proofs::simulated::SimulatedLines::finishes_with_modem))]
pub fn simulated_talks_end()
    ensures { (s : Setting) (e : End) (line : List EndAct) → FinishesWithModem s e line }
{}

/// Worked lines that are lawful, on which no frame is judged wrong and nothing is left unanswered: a command and a stop, and a stop while a
/// connection is being opened, which meet all that these laws ask, and two openings that cross.
#[tactic(auto, using(crate::proofs::rows::LineRowFacts::are_right))]
pub fn worked_lines()
    ensures { AreRight }
{}
