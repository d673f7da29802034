//! Laws of the modem's step and of a simulated modem's histories, as contracts of functions that do nothing.
ghost use Rattle.std.specs.Prelude.{◌≡◌, ℕ, true, List, None, Ok, Some};
ghost use Rattle.at_cmds.specs.Commands.{IsTextOf, Reads};
ghost use Rattle.modem_sim.specs.declared.contexts.PdpContext.{PdpContext};
ghost use Rattle.modem_sim.specs.declared.modem.ModemStart.{ModemStart};
ghost use Rattle.at_cmds.specs.Values.{command_of};
ghost use Rattle.modem_sim.specs.Laws.{IsStart, AnswersWellAlways, SetsOne, AreInOrder, reached};
ghost use Rattle.modem_sim.specs.SettingLaws.{KeepsAttached, KeepsContext, KeepsErrors, KeepsOper, KeepsReports};
ghost use Rattle.modem_sim.specs.PinLaws.{FollowsNetworkAlways, IsReadyAlways, KeepsPin};
ghost use Rattle.modem_sim.specs.Rows.{PinEntered, ThreeWrongPins, ErrorInWords, NetworkLeft};
ghost use Rattle.modem_sim.specs.WordLaws.{AnswersAsStandard, AnswersCalls, EndsAtCalls, HoldsBehindCalls, KeepsActive};
ghost use Rattle.modem_sim.specs.WordRows.{BareLines, CallsAnswered, CallsEndLines, CallsMisspelt, CallsRefused, ChangeAnnounced, ClientAsks, ClientBegins, ContextsActivated, ContextsRefused, DialledLine, DividedLine, EchoOff, OperatorNamed, OwnAnswered, OwnLater, PinAnnounced, PinLocks, PukEntered, QuotedLine, RadioOff, RepeatsCommands, ReportsAreHeld, TenWrongPuks, ValuesAsked};
ghost use Rattle.modem_sim.specs.Acts.{Act, End};
ghost use Rattle.modem_sim.specs.Histories.{SimLawful, LeavesInPieces, SaysReplies, DoesInOrder};
ghost use Rattle.modem_sim.specs.Replied.{AnswersInLines, SendsReplies};
ghost use Rattle.modem_sim.specs.Sims.{IsOver, SimMachine, SimMachineFits, Simulates, is_ended};
ghost use Rattle.modem_sim.specs.TurnRows.{CallsNothing, EndRows, MovedRows, RightIdle, WantRows, WrongCalls, WrongCounts, WrongFailures, WrongGivings, WrongIdle, WrongTurns};
ghost use Rattle.modem_sim.specs.CallRows.{CallsKeepQuiet};
ghost use Rattle.modem_sim.specs.HistoryRows.{GoodRows, WrongAnswers, WrongSteps, WrongOtherwise};

/// The step reads a line as the one command whose text it is, and as no command where it is the text of none.
#[tactic(auto, using(at_cmds::proofs::command_texts::ReadCommands::command_reads))]
pub fn commands()
    ensures { (line : List ℕ) → Reads (IsTextOf line) (Ok (command_of line)) }
{}

/// Whatever lines a modem was given, it answers the next one well: with one final code, at the end; with no line that
/// reads as unsolicited; and, to a command, with lines that are read back as the reply that its state says.
pub fn answers()
    ensures { (start : ModemStart) → IsStart start → AnswersWellAlways start }
{}

/// A context that is set is found by its number, and the others are as before. A modem's contexts stand in rising order
/// of their numbers, each number once.
#[tactic(auto, using(crate::proofs::law_proofs::ContextOrder::sets_one, crate::proofs::law_proofs::ContextOrder::reached_in_order))]
pub fn contexts()
    ensures sets { (new : PdpContext) (contexts : List PdpContext) (n : ℕ) → SetsOne new contexts n }
    ensures rise { (start : ModemStart) (lines : List (List ℕ)) → AreInOrder (reached start lines).contexts }
{}

/// A modem tells later what it was told and accepted, after any lines that don't set the same: reports of registration,
/// how errors are told, attachment, a context by its number, the operator. This holds whatever lines came before.
pub fn settings()
    ensures reports { (start : ModemStart) → IsStart start → KeepsReports start }
    ensures errors { (start : ModemStart) → IsStart start → KeepsErrors start }
    ensures attached { (start : ModemStart) → IsStart start → KeepsAttached start }
    ensures contexts { (start : ModemStart) → IsStart start → KeepsContext start }
    ensures oper { (start : ModemStart) → IsStart start → KeepsOper start }
{}

/// Three wrong PINs lock a modem, whatever comes then. Before that the right PIN makes it ready, and nothing else does. Until
/// it is ready its network, contexts and attachment don't change. It is registered just where it is ready and not deregistered.
/// It may attach just there, and is attached nowhere else.
pub fn pins()
    ensures pin { (start : ModemStart) (pin : List ℕ) → IsStart start → start.pin ≡ Some pin
        → KeepsPin start pin }
    ensures ready { (start : ModemStart) → IsStart start → start.pin ≡ None → IsReadyAlways start }
    ensures network { (start : ModemStart) → IsStart start → FollowsNetworkAlways start }
{}

/// Worked examples, computed by the step.
#[tactic(auto, using(crate::proofs::rows::AnswerRowFacts::pin_entered, crate::proofs::rows::AnswerRowFacts::three_wrong_pins, crate::proofs::rows::AnswerRowFacts::error_in_words, crate::proofs::rows::AnswerRowFacts::network_left))]
pub fn worked_examples()
    ensures pin_entered { PinEntered }
    ensures three_wrong_pins { ThreeWrongPins }
    ensures error_in_words { ErrorInWords }
    ensures network_left { NetworkLeft }
{}

/// A modem with words answers a command of the first table, but for `AT+CGDCONT?`, as a modem without words does. Behind the
/// answer it announces a change of registration. This holds while it tells the operator by its number, all its functions are
/// on, and no line of an earlier answer waits. It holds for a line of fewer than 512 octets that no answer of its own takes.
#[tactic(auto, using(crate::proofs::law_proofs::WordedModems::answers_as_standard))]
pub fn words()
    ensures { AnswersAsStandard }
{}

/// A modem with words whose SIM is ready answers a packet call by one result code: CONNECT where the context is active, else NO CARRIER. The
/// call leaves it as it was. Nothing is done of what stands behind a call in its line, and nothing is said behind its CONNECT. After all lines each context that is active is defined,
/// and the modem is attached while one is.
#[tactic(auto, using(crate::proofs::law_proofs::CalledModems::answers_calls, crate::proofs::law_proofs::CalledModems::ends_at_calls, crate::proofs::law_proofs::CalledModems::holds_behind_calls, crate::proofs::law_proofs::ActiveModems::keeps_active))]
pub fn calls()
    ensures answers { AnswersCalls }
    ensures ends { EndsAtCalls }
    ensures held { HoldsBehindCalls }
    ensures active { KeepsActive }
{}

/// Worked examples of a modem with words: how lines are divided into commands, what clients send as they begin, changes that are
/// announced, the operator in other forms, and commands repeated.
#[tactic(auto, using(crate::proofs::rows::WordRowFacts::divided_line, crate::proofs::rows::WordRowFacts::quoted_line, crate::proofs::rows::WordRowFacts::bare_lines, crate::proofs::rows::WordRowFacts::client_begins, crate::proofs::rows::WordRowFacts::change_announced, crate::proofs::rows::WordRowFacts::pin_announced, crate::proofs::rows::WordRowFacts::operator_named, crate::proofs::rows::WordRowFacts::echo_off, crate::proofs::rows::WordRowFacts::repeats_commands))]
pub fn worked_words()
    ensures divided { DividedLine }
    ensures quoted { QuotedLine }
    ensures bare { BareLines }
    ensures begins { ClientBegins }
    ensures announced { ChangeAnnounced }
    ensures pin { PinAnnounced }
    ensures oper { OperatorNamed }
    ensures echo { EchoOff }
    ensures repeated { RepeatsCommands }
{}

/// Worked examples of packet calls to a modem with words: how a line with a call is divided, contexts that are active and others, forms that
/// are none, what stands behind a call in its line, reports that are held behind a CONNECT, lines that
/// a script doesn't announce then, and a SIM that isn't ready.
#[tactic(auto, using(crate::proofs::rows::WordRowFacts::dialled_line, crate::proofs::rows::WordRowFacts::calls_answered, crate::proofs::rows::WordRowFacts::calls_misspelt, crate::proofs::rows::WordRowFacts::calls_end_lines, crate::proofs::rows::WordRowFacts::reports_are_held, crate::proofs::rows::CallRowFacts::calls_keep_quiet, crate::proofs::rows::WordRowFacts::calls_refused))]
pub fn worked_calls()
    ensures divided { DialledLine }
    ensures answered { CallsAnswered }
    ensures misspelt { CallsMisspelt }
    ensures ends { CallsEndLines }
    ensures held { ReportsAreHeld }
    ensures quiet { CallsKeepQuiet }
    ensures refused { CallsRefused }
{}

/// Worked examples of a modem with words: packet contexts that become active and inactive, PUKs, what clients ask, the radio switched
/// off, the values that commands take, and answers of one's own.
#[tactic(auto, using(crate::proofs::rows::WordRowFacts::contexts_activated, crate::proofs::rows::WordRowFacts::contexts_refused, crate::proofs::rows::WordRowFacts::puk_entered, crate::proofs::rows::WordRowFacts::ten_wrong_puks, crate::proofs::rows::WordRowFacts::client_asks, crate::proofs::rows::WordRowFacts::pin_locks, crate::proofs::rows::WordRowFacts::radio_off, crate::proofs::rows::WordRowFacts::values_asked, crate::proofs::rows::WordRowFacts::own_answered, crate::proofs::rows::WordRowFacts::own_later))]
pub fn worked_settings()
    ensures activated { ContextsActivated }
    ensures refused { ContextsRefused }
    ensures puk { PukEntered }
    ensures blocked { TenWrongPuks }
    ensures asks { ClientAsks }
    ensures locks { PinLocks }
    ensures radio { RadioOff }
    ensures values { ValuesAsked }
    ensures own { OwnAnswered }
    ensures later { OwnLater }
{}

/// The octets that left a simulated modem on a connection since it opened are the beginning of what is said there, piece by
/// piece. Leave out the lines that no command asked for: then what is said and held back there are the replies to the lines
/// that came on it since it opened. Each reply is from the one modem after all lines before it. The steps of a script are done
/// in their order, each once.
#[tactic(auto, using(crate::proofs::law_proofs::Histories::leaves_in_pieces, crate::proofs::law_proofs::Histories::keeps_order, crate::proofs::connections::Outboxes::says_replies))]
pub fn histories()
    ensures leaves { (e : End) (past : List Act) → SimLawful e past → LeavesInPieces e past }
    ensures replies { (e : End) (past : List Act) → SaysReplies e past }
    ensures steps { (e : End) (past : List Act) → SimLawful e past → DoesInOrder e past }
{}

/// Each line of an answer is one line as the other end reads it, and no command line. Where a connection is asked for
/// once, and only unsolicited lines are announced: of what left on it, the lines that aren't unsolicited are the first
/// of the replies to the lines that came on it, each from the one modem after all lines before it.
#[tactic(auto, using(crate::proofs::replies::AnswerTexts::answers_in_lines, crate::proofs::replies::ReplyOrder::sends_replies))]
pub fn replies()
    ensures lines { (start : ModemStart) → IsStart start → AnswersInLines start }
    ensures sent { (e : End) (past : List Act) → SendsReplies e past }
{}

/// Worked histories, computed by the definitions: those of a right simulated modem are kept, and those that a wrong one
/// would make are refused.
#[tactic(auto, using(crate::proofs::rows::HistoryRowFacts::good_rows, crate::proofs::rows::RefusedRowFacts::wrong_answers, crate::proofs::rows::RefusedRowFacts::wrong_steps, crate::proofs::rows::RefusedRowFacts::wrong_otherwise))]
pub fn worked_histories()
    ensures good { GoodRows }
    ensures answers { WrongAnswers }
    ensures steps { WrongSteps }
    ensures otherwise { WrongOtherwise }
{}

/// Worked turns of right and wrong simulated modems: what Idle and Moved say, when the line has failed, which end is
/// kept, where memory is wanted, and what a poll doesn't give.
#[tactic(auto, using(crate::proofs::rows::TurnRowFacts::right_idle, crate::proofs::rows::TurnRowFacts::wrong_idle, crate::proofs::rows::TurnRowFacts::moved_rows, crate::proofs::rows::TurnRowFacts::wrong_failures, crate::proofs::rows::TurnRowFacts::end_rows, crate::proofs::rows::TurnRowFacts::want_rows, crate::proofs::rows::TurnRowFacts::wrong_givings))]
pub fn worked_turns()
    ensures right { RightIdle }
    ensures wrong { WrongIdle }
    ensures moved { MovedRows }
    ensures failures { WrongFailures }
    ensures ends { EndRows }
    ensures wants { WantRows }
    ensures givings { WrongGivings }
{}

/// What is no turn: one that doesn't call its line though octets wait for it or all that came was fed; one that says Moved and changed
/// nothing, or Idle against the line's counts; one that offers no octets, or reads without room; one that leaves undone a step that is due,
/// a frame at hand, an answer, or a frame that is to go out.
#[tactic(auto, using(crate::proofs::rows::WrongTurnFacts::calls_nothing, crate::proofs::rows::WrongTurnFacts::wrong_counts, crate::proofs::rows::WrongTurnFacts::wrong_calls, crate::proofs::rows::WrongTurnFacts::wrong_turns))]
pub fn refused_turns()
    ensures silent { CallsNothing }
    ensures counts { WrongCounts }
    ensures calls { WrongCalls }
    ensures turns { WrongTurns }
{}

/// Each past that a simulated modem fits keeps the laws of its histories, and nothing is owed in it. The frames that came are those
/// that its octets are read as. The octets that went spell the frames that it sent. Its modem is the one that was handed in, after all
/// lines that came. Where it is ended, it has closed down, and all is written.
#[tactic(auto, using(crate::proofs::sims::SimPasts::simulates, crate::proofs::sims::SimPasts::is_over))]
pub fn simulators()
    ensures histories { (e : End) (came went : List ℕ) (k : SimMachine) (past : List Act)
        → SimMachineFits e came went k past → Simulates e came went k past }
    ensures ends { (e : End) (came went : List ℕ) (k : SimMachine) (past : List Act) → is_ended k ≡ true
        → SimMachineFits e came went k past → IsOver went past }
{}
