//! Laws of every history.
ghost use Rattle.std.specs.Prelude.{ℕ, List};
ghost use Rattle.mux_station.specs.Acts.{Act as WireAct};
ghost use Rattle.mux_station.specs.declared.role.Role.{Role};
ghost use Rattle.modem_history.specs.Acts.{Act};
ghost use Rattle.modem_history.specs.Calls.{Setting};
ghost use Rattle.modem_history.specs.Lawful.{Lawful};
ghost use Rattle.modem_history.specs.BadRows.{NotItsOwn, refused_rows, incomplete_rows, unquiet_rows};
ghost use Rattle.modem_history.specs.GoodRows.{good_rows};
ghost use Rattle.modem_history.specs.Sessions.{Beginning, SessionView};
ghost use Rattle.modem_history.specs.SessionLaws.{BeginsFitting, CallsKeepHistory, CallsRunOn, FitsSays};
ghost use Rattle.modem_history.specs.SessionRows.{Each, HasNone, IsRight, IsWrong, IsWrongTurn};
ghost use Rattle.modem_history.specs.GoodTurns.{AreRightTurns};
ghost use Rattle.modem_history.specs.BadWaits.{wrong_turns};
ghost use Rattle.modem_history.specs.BadExchanges.{IsWrongExchange, wrong_exchanges};
ghost use Rattle.modem_history.specs.EveryTurnRows.{SeemsATurn, SkipsAStep, TakeTheirSteps, skipping_turns};
ghost use Rattle.modem_history.specs.BacklogRows.{CountsByConnection, IsHeldOrFull, IsHeldRight, IsHeldWrong, IsNeither, MayHoldAndFree, held_or_full, neither_held_nor_full, rightly_held, wrongly_held};
ghost use Rattle.modem_history.specs.FaultRows.{AreRightFaults, IsRightTick, IsWrongFault, IsWrongTick, right_ticks, wrong_faults, wrong_ticks};
ghost use Rattle.modem_history.specs.EntryRows.{IsRightEntry, IsWrongEntry, right_entries, wrong_entries};
ghost use Rattle.modem_history.specs.FinishRows.{IsRightEnd, IsWrongEnd, right_ends, wrong_ends};
ghost use Rattle.modem_history.specs.GoodSessions.{right_sessions};
ghost use Rattle.modem_history.specs.BadSessions.{told_and_kept, wrong_sessions};
ghost use Rattle.modem_history.specs.RuleLaws.{LawfulIsMade, MadeKeepsLaws};
ghost use Rattle.modem_history.specs.RuleRows.{IsMade, IsUnmade, unmade_rows};
ghost use Rattle.modem_history.specs.Rows.{AllAre, IsGood, IsIncomplete, IsRefused, IsUnquiet};
ghost use Rattle.modem_history.specs.ConnectionRows.{CommandsAmongLines, InformationByOpenings, LinesInOrder, PlacedAgain, PlacedByOpenings};
ghost use Rattle.modem_history.specs.Connections.{HasAllLines, NeedsNoCalls, PlacesAll, PlacesEach};
ghost use Rattle.modem_history.specs.HearingRows.{RingsOnce};
ghost use Rattle.modem_history.specs.Placements.{AreAllMarksPlaced, AreMarksPlaced, AreReadAsSent, HaveMarksAllLines, ReadsAccepted};
ghost use Rattle.modem_history.specs.Hearing.{HearsAll, HearsInOrder};
ghost use Rattle.modem_history.specs.TwoEnds.{ReadsInOrder};
ghost use Rattle.modem_history.specs.Wholes.{AnswersOnce, BeginsInTurn, CallGoesOn, IsBeginning, LeavesOnce, NoneAfterLoss, StaysInStep, TellsAnswers, TellsOwn};

/// What stands in a lawful history is a prefix of all that it called for. A call that does just what its first act calls
/// for keeps a history lawful and complete. The octets that left a connection since it opened are a prefix of the command
/// lines accepted on it since then. Nothing is sent once the line is lost. The commands that began since it opened are
/// the accepted ones that are wholly sent, each begun where no window is open. Each outcome answers a request that was
/// taken before it. Where no caller uses a number twice no request has two. Each answer that was told is that of the
/// window of the last command, at the line that ended it.
#[tactic(auto, using(crate::proofs::law_proofs::WholeHistories::beginning, crate::proofs::law_proofs::WholeHistories::call_goes_on, crate::proofs::commands::SentPrefixes::leaves_once, crate::proofs::connections::SendingAfterLoss::none_after_loss, crate::proofs::commands::BegunCommands::begins_in_turn, crate::proofs::outcomes::WholeCounts::answers_once, crate::proofs::outcomes::WindowAnswers::tells_answers))]
pub fn histories()
    ensures beginning { (s : Setting) (past : List Act) → Lawful s past → IsBeginning s past }
    ensures leaves { (s : Setting) (past : List Act) → Lawful s past → LeavesOnce s past }
    ensures loss { (s : Setting) (past : List Act) → NoneAfterLoss s past }
    ensures begins { (s : Setting) (past : List Act) → Lawful s past → BeginsInTurn s past }
    ensures answers { (s : Setting) (past : List Act) → Lawful s past → AnswersOnce past }
    ensures tells { (s : Setting) (past : List Act) → Lawful s past → TellsAnswers s past }
    ensures call { (s : Setting) (past : List Act) (a : Act) → CallGoesOn s past a }
{}

/// A history of whole calls comes about by three rules: nothing; a call, with all that it calls for; what goes out next. What
/// the rules make is lawful and complete, each of its calls is complete, no request is taken where 128 are in hand, and each
/// data frame is sent in turn. Where N1 is at least 1, the rules make every history of which this is so.
#[tactic(auto, using(crate::proofs::rules::MadeLaws::made_keeps_laws, crate::proofs::rules::LawfulHistories::lawful_is_made))]
pub fn three_rules()
    ensures keeps { (s : Setting) (past : List Act) → MadeKeepsLaws s past }
    ensures made { (s : Setting) (past : List Act) → LawfulIsMade s past }
{}

/// Where an initiator's calls are complete and no caller uses a number twice, its commands are in step: of those
/// accepted on an open connection the first have their answers, and the others are in hand. So each answer that was
/// told is that of the request's own command.
#[tactic(auto, using(crate::proofs::requests::StepsOfHistory::stays_in_step, crate::proofs::outcomes::OwnAnswers::tells_own))]
pub fn commands()
    ensures steps { (s : Setting) (past : List Act) → Lawful s past → StaysInStep s past }
    ensures own { (s : Setting) (past : List Act) → Lawful s past → TellsOwn s past }
{}

/// In every lawful history, what was heard on a connection is a prefix of the lines to be heard on it, over all its
/// openings in turn. These are the lines placed on it that are of a listened kind, in no answer and no echo, each once
/// and in order. The rest is owed. Where nothing is owed, all of it was heard.
#[tactic(auto, using(crate::proofs::lines::HeardLines::hears_in_order, crate::proofs::lines::HeardLines::hears_all))]
pub fn hearings()
    ensures order { (s : Setting) (past : List Act) → Lawful s past → HearsInOrder s past }
    ensures all { (s : Setting) (past : List Act) → Lawful s past → HearsAll s past }
{}

/// At either end of the line the lines of all connections stand in the order in which they end. Those of one connection
/// are the lines of its information, over all its openings in turn. What is placed on it in an opening are the lines that
/// came in it and the commands that are wholly sent. The calls of a station's user change nothing of it. A history's own
/// places are these, read off its frames and the commands that it accepted in each opening. Over all openings they have
/// all lines.
#[tactic(auto, using(crate::proofs::lines::LinePlaces::has_all_lines, crate::proofs::commands::CommandPlaces::places_all, crate::proofs::lines::PlacingOverOpenings::places_each, crate::proofs::connections::PastsWithoutCalls::needs_no_calls, crate::proofs::lines::MarkPlaces::are_marks_placed, crate::proofs::lines::PlacingOverOpenings::are_all_marks_placed, crate::proofs::lines::MarkPlaces::have_marks_all_lines))]
pub fn connections()
    ensures lines { (r : Role) (past : List WireAct) → HasAllLines r past }
    ensures places { (r : Role) (past : List WireAct) → PlacesAll r past }
    ensures each { (r : Role) (past : List WireAct) → PlacesEach r past }
    ensures calls { (r : Role) (past : List WireAct) → NeedsNoCalls r past }
    ensures marks { (s : Setting) (past : List Act) → Lawful s past → AreMarksPlaced s past }
    ensures openings { (s : Setting) (past : List Act) → Lawful s past → AreAllMarksPlaced s past }
    ensures all { (s : Setting) (past : List Act) → HaveMarksAllLines s past }
{}

/// Of command lines that go out, the other end reads just those that are wholly sent, wherever they are cut. This holds
/// of the commands that were accepted on a connection since it opened.
#[tactic(auto, using(crate::proofs::commands::ReadCommands::are_read_as_sent, crate::proofs::commands::ReadCommands::reads_accepted))]
pub fn readings()
    ensures texts { (commands : List (List ℕ)) (out : List ℕ) → AreReadAsSent commands out }
    ensures commands { (s : Setting) (past : List Act) → Lawful s past → ReadsAccepted s past }
{}

/// Let the frames that a responder got be the first of those that an initiator sent. Let the initiator have asked for
/// each connection at most once. Then the lines that the responder reads, over all connections, are commands that the
/// initiator was given, each on its connection, in the order in which they were wholly sent.
#[tactic(auto, using(crate::proofs::commands::SentCommands::reads_in_order))]
pub fn two_ends()
    ensures order { (s : Setting) (past : List Act) (responder : List WireAct)
        → ReadsInOrder s past responder }
{}

/// Worked histories, computed by the definitions. Those of a right driver are accepted. Those of a wrong one are refused,
/// lack something, or leave a command waiting that could leave. Of two commands with the same text the answer of the
/// first is not the second's own.
#[tactic(auto, using(crate::proofs::rows::GoodRowFacts::all_good, crate::proofs::rows::BadRowFacts::all_refused, crate::proofs::rows::BadRowFacts::all_incomplete, crate::proofs::rows::BadRowFacts::all_unquiet, crate::proofs::rows::BadRowFacts::not_its_own))]
pub fn worked_examples()
    ensures good { AllAre IsGood good_rows }
    ensures refused { AllAre IsRefused refused_rows }
    ensures incomplete { AllAre IsIncomplete incomplete_rows }
    ensures unquiet { AllAre IsUnquiet unquiet_rows }
    ensures own { NotItsOwn }
{}

/// The rules make the worked histories of a right driver. They make none of those of a wrong one or that lack something,
/// and none in which a call is broken into, data is sent out of turn or short, or a request is taken past the bound.
#[tactic(auto, using(crate::proofs::rows::RuleRowFacts::all_made, crate::proofs::rows::RuleRowFacts::none_refused, crate::proofs::rows::RuleRowFacts::none_incomplete, crate::proofs::rows::RuleRowFacts::all_unmade))]
pub fn worked_rules()
    ensures made { AllAre IsMade good_rows }
    ensures refused { AllAre IsUnmade refused_rows }
    ensures incomplete { AllAre IsUnmade incomplete_rows }
    ensures unmade { AllAre IsUnmade unmade_rows }
{}

/// Worked examples of lines and commands on two connections, and of what is heard over two openings, computed by the
/// definitions.
#[tactic(auto, using(crate::proofs::rows::ConnectionRowFacts::lines_in_order, crate::proofs::rows::ConnectionRowFacts::information_by_openings, crate::proofs::rows::ConnectionRowFacts::commands_among_lines, crate::proofs::rows::ConnectionRowFacts::placed_again, crate::proofs::rows::ConnectionRowFacts::placed_by_openings, crate::proofs::rows::ConnectionRowFacts::rings_once))]
pub fn worked_connections()
    ensures lines { LinesInOrder }
    ensures information { InformationByOpenings }
    ensures commands { CommandsAmongLines }
    ensures again { PlacedAgain }
    ensures openings { PlacedByOpenings }
    ensures heard { RingsOnce }
{}

/// A new session fits the empty history. Of every session and each history that it fits: the frames got are the first
/// that are read in the octets received since it began; the octets sent are the first of the spellings of the frames
/// sent, in order; those frames that are wholly among them were given on; the requests in hand are those taken and not
/// told; and no caller is told an outcome twice. Two calls in a row are as one call, and a session that had a history
/// has one after a call.
#[tactic(auto, using(crate::proofs::law_proofs::SessionLaws::begins_fitting, crate::proofs::law_proofs::SessionLaws::fits_says, crate::proofs::law_proofs::SessionLaws::calls_run_on, crate::proofs::law_proofs::SessionLaws::calls_keep_history))]
pub fn sessions()
    ensures begins { (b : Beginning) → BeginsFitting b }
    ensures says { (b : Beginning) (v : SessionView) (past : List Act) → FitsSays b v past }
    ensures runs { CallsRunOn }
    ensures keeps { (b : Beginning) → CallsKeepHistory b }
{}

/// Worked sessions, turns, faults, ticks, entries and ends, computed by the definitions: those of a right driver, and
/// those that don't fit what happened, don't mean what they say, don't go with what line and desk answered, or leave
/// out a step. Steps left out are: nothing offered to the line, no room to read into, no request asked for, no look at
/// a backlog, half a frame, an outcome that isn't offered.
#[tactic(auto, using(crate::proofs::rows::SessionRowFacts::all_right, crate::proofs::rows::SessionRowFacts::all_wrong, crate::proofs::law_proofs::SessionLaws::kept_has_none, crate::proofs::rows::GoodTurnFacts::are_right, crate::proofs::rows::BadTurnFacts::all_wrong_turns, crate::proofs::rows::BadExchangeFacts::all_wrong_exchanges, crate::proofs::rows::EveryTurnRowFacts::take_their_steps, crate::proofs::rows::EveryTurnRowFacts::all_seem, crate::proofs::rows::EveryTurnRowFacts::all_skip, crate::proofs::rows::EntryRowFacts::all_right_entries, crate::proofs::rows::EntryRowFacts::all_wrong_entries, crate::proofs::rows::EntryRowFacts::all_right_ends, crate::proofs::rows::EntryRowFacts::all_wrong_ends, crate::proofs::rows::FaultRowFacts::are_right_faults, crate::proofs::rows::FaultRowFacts::all_wrong_faults, crate::proofs::rows::FaultRowFacts::all_right_ticks, crate::proofs::rows::FaultRowFacts::all_wrong_ticks))]
pub fn session_examples()
    ensures fit { Each IsRight right_sessions }
    ensures unfit { Each IsWrong wrong_sessions }
    ensures none { HasNone told_and_kept }
    ensures turns { AreRightTurns }
    ensures wrong_turns { Each IsWrongTurn wrong_turns }
    ensures wrong_exchanges { Each IsWrongExchange wrong_exchanges }
    ensures steps { TakeTheirSteps }
    ensures seeming { Each SeemsATurn skipping_turns }
    ensures skipped { Each SkipsAStep skipping_turns }
    ensures faults { AreRightFaults }
    ensures wrong_faults { Each IsWrongFault wrong_faults }
    ensures ticks { Each IsRightTick right_ticks }
    ensures wrong_ticks { Each IsWrongTick wrong_ticks }
    ensures entries { Each IsRightEntry right_entries }
    ensures wrong_entries { Each IsWrongEntry wrong_entries }
    ensures ends { Each IsRightEnd right_ends }
    ensures wrong_ends { Each IsWrongEnd wrong_ends }
{}

/// Worked backlogs of two connections: how many lines wait on each, which connections have to be held by them and which
/// mustn't be, where a turn may hold one or free it, and by how many octets in the control queue an MSC has no place.
#[tactic(auto, using(crate::proofs::rows::BacklogRowFacts::counts_by_connection, crate::proofs::rows::BacklogRowFacts::all_rightly_held, crate::proofs::rows::BacklogRowFacts::all_wrongly_held, crate::proofs::rows::BacklogRowFacts::all_held_or_full, crate::proofs::rows::BacklogRowFacts::all_neither, crate::proofs::rows::BacklogRowFacts::may_hold_and_free))]
pub fn worked_backlogs()
    ensures counts { CountsByConnection }
    ensures held { Each IsHeldRight rightly_held }
    ensures wrong { Each IsHeldWrong wrongly_held }
    ensures full { Each IsHeldOrFull held_or_full }
    ensures neither { Each IsNeither neither_held_nor_full }
    ensures acts { MayHoldAndFree }
{}
