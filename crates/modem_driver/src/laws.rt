//! The headline, ends of a session, and the calls of an endpoint.
ghost use Rattle.std.specs.Prelude.{◌≡◌, ℕ, true, false, List, []};
ghost use Rattle.std.specs.List.{list_all, list_any};
ghost use Rattle.modem_driver.specs.EndpointLaws.{OneHistory, TellsAll};
ghost use Rattle.modem_driver.specs.OneSession.{LivedGrows, OneSession};
ghost use Rattle.modem_driver.specs.GrownRows.{CountsBehind, CountsNotBefore};
ghost use Rattle.modem_driver.specs.EndingRows.{ends_in, going_rows, stopped_rows, AreNoEndings, IsNoGoing, IsRightEnding, StaysEnded};
ghost use Rattle.modem_driver.specs.DeskHeadline.{DeskRun, IsDeskHeadline};
ghost use Rattle.modem_driver.specs.Headline.{SendsFull};
ghost use Rattle.modem_driver.specs.HeadlineRows.{AreRight, AreWrong, IsOtherOrder, right_places, wrong_places};
ghost use Rattle.modem_history.specs.Acts.{Act};
ghost use Rattle.modem_history.specs.Sessions.{Beginning, LineView, SessionView};
ghost use Rattle.modem_driver.specs.PollRows.{AreNoPolls, IsLostSession};
ghost use Rattle.modem_driver.specs.LivePollRows.{AreNoLivePolls, AsksPerTurn, IsNewSession, NoTickInAPoll, NoTickIsAPoll, ReadsTheLine};
ghost use Rattle.modem_driver.specs.TurningAway.{TurnsOn};
ghost use Rattle.modem_driver.specs.PollLaws.{RunsInHistories, LostFails, NoLossIsKeptBack, NoLossIsStopped, CallsTheLine, LostGivesFailed};

/// The headline, of every desk that had one session or several in turn, whether or not their lines failed, and was settled
/// with the driver's end as the last one left it and with all its callers. In each session, at every moment the octets that
/// left on a connection since it opened are a prefix of its callers' command lines taken since then: each line once, each
/// caller's in its submitted order, none after a close. Each answered command has just its solicited lines up to its final
/// code. Over all sessions each subscribed unsolicited line was announced once, and every caller holds each of its outcomes
/// once, those of requests turned away between two sessions included. In every history of a session all data frames of a
/// command but the last have N1 octets of information. The definitions refuse a request with two places or with none, and
/// commands that left in another order.
#[tactic(auto, using(crate::proofs::law_proofs::DeskHeadlines::desk_headline, crate::proofs::law_proofs::Headlines::sends_full, crate::proofs::rows::HeadlineRowFacts::all_right_places, crate::proofs::rows::HeadlineRowFacts::all_wrong_places, crate::proofs::rows::HeadlineRowFacts::other_order))]
pub fn headlines()
    ensures headline { (run : DeskRun) → IsDeskHeadline run }
    ensures full { (b : Beginning) (v : SessionView) (past : List Act) → SendsFull b v past }
    ensures right { AreRight right_places }
    ensures wrong { AreWrong wrong_places }
    ensures order { IsOtherOrder }
{}

/// Passes of a desk without a line, one after the other, lose nothing and invent nothing. Of each caller, what was told
/// and what still waits are the outcomes that waited, and then a LineLost for each of its requests. Of each listener,
/// what was announced and what still waits are the lines that waited.
#[tactic(auto, using(crate::proofs::sessions::polls::OfflinePasses::turns_on))]
pub fn turning_away()
    ensures passes { TurnsOn }
{}

/// Worked ends of a session, computed by the definitions. A Stop that is answered or given up has ended. A loss of the
/// line ends no Stop in this sense. Nor does giving up a probe. The session has ended where all frames sent are written
/// and all outcomes told, and stays so; where an octet or an outcome waits it hasn't. A session whose Stop has ended
/// doesn't go on as if none had.
#[tactic(auto, using(crate::proofs::rows::EndingRowFacts::all_stopped, crate::proofs::rows::EndingRowFacts::none_stopped, crate::proofs::rows::EndingRowFacts::right_ending, crate::proofs::rows::EndingRowFacts::stays_ended, crate::proofs::rows::EndingRowFacts::no_endings, crate::proofs::rows::EndingRowFacts::no_going))]
pub fn endings()
    ensures stopped { list_all ends_in stopped_rows ≡ true }
    ensures going { list_any ends_in going_rows ≡ false }
    ensures right { IsRightEnding }
    ensures stays { StaysEnded }
    ensures wrong { AreNoEndings }
    ensures going_on { IsNoGoing }
{}

/// The turns of a poll, over a line that is its own view. Whatever history the session had, each state on the way fits that
/// history and what came since, and each turn is one in it. So a lost line gives Failed alone: no loss is kept back or given as
/// Stopped. Where octets wait, or all that came were fed, a poll calls the line, and a tick is no poll. No poll adds a tick to a
/// history, and the desk is asked in vain at most 64 times. Six wrong bodies are refused as a poll of a new session: no turn, a
/// tick, a loss kept back or given as Stopped, 65 turns, and a turn behind one that found nothing to do.
#[tactic(auto, using(crate::proofs::sessions::polls::PollLaws::runs_in_histories, crate::proofs::sessions::polls::PollLaws::lost_fails, crate::proofs::sessions::polls::PollLaws::no_loss_is_kept_back, crate::proofs::sessions::polls::PollLaws::no_loss_is_stopped, crate::proofs::sessions::polls::PollLaws::calls_the_line, crate::proofs::sessions::polls::PollLaws::lost_gives_failed, crate::proofs::rows::PollRowFacts::is_lost_session, crate::proofs::rows::PollRowFacts::no_polls, crate::proofs::rows::LivePollRowFacts::reads_the_line, crate::proofs::rows::LivePollRowFacts::no_tick_is_a_poll, crate::proofs::rows::LivePollRowFacts::no_tick_in_a_poll, crate::proofs::rows::LivePollRowFacts::asks_per_turn, crate::proofs::rows::LivePollRowFacts::is_new_session, crate::proofs::rows::LivePollRowFacts::no_live_polls))]
pub fn polls()
    ensures histories { RunsInHistories (λ (l : LineView). l) }
    ensures lost { LostFails (λ (l : LineView). l) }
    ensures kept_back { NoLossIsKeptBack (λ (l : LineView). l) }
    ensures stopped { NoLossIsStopped (λ (l : LineView). l) }
    ensures called { CallsTheLine (λ (l : LineView). l) }
    ensures gives { LostGivesFailed (λ (l : LineView). l) }
    ensures lost_session { IsLostSession }
    ensures no_polls { AreNoPolls }
    ensures read { ReadsTheLine (λ (l : LineView). l) }
    ensures no_tick { NoTickIsAPoll (λ (l : LineView). l) }
    ensures no_tick_more { NoTickInAPoll (λ (l : LineView). l) }
    ensures asked { AsksPerTurn (λ (l : LineView). l) }
    ensures new_session { IsNewSession }
    ensures no_live_polls { AreNoLivePolls }
{}

/// Runs of an endpoint's calls, by the calls' clauses. The line gave and took just the octets of the calls. The desk's end took just
/// their requests, and told and announced just what they gave. A history that fits before the calls goes on to one that fits after them.
/// So from the beginning on one history tells all. It is lawful and of whole calls. Its frames got are just those read in the octets
/// taken in. The octets given, and then those that wait, are the frames that it gives on. The outcomes given, and then those that wait,
/// are its outcomes; likewise the lines of each kind: each once, in its order.
#[tactic(auto, using(crate::proofs::endpoints::Law::one_history, crate::proofs::endpoints::Law::tells_all))]
pub fn endpoints()
    ensures history { OneHistory }
    ensures all { TellsAll }
{}

/// Runs of a session's calls, by the calls' clauses. A session that has just begun has one history, whatever turns, polls and ticks
/// follow. Each of these calls adds its own acts to it: what a turn says of its octets, requests and outcomes stands at its place. At
/// each of them the session fits the history so far.
#[tactic(auto, using(crate::proofs::law_proofs::OneSessions::one_session, crate::proofs::law_proofs::GrownHistories::lived_grows, crate::proofs::rows::GrownRowFacts::counts_behind, crate::proofs::rows::GrownRowFacts::counts_not_before))]
pub fn sessions()
    ensures one { OneSession (λ (l : LineView). l) }
    ensures grows { LivedGrows }
    ensures behind { CountsBehind }
    ensures not_before { CountsNotBefore }
{}
