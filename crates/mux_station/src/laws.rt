//! Laws of every history.
ghost use Rattle.std.specs.Prelude.{ℕ, List};
ghost use Rattle.mux_frame.specs.Frames.{Frame};
ghost use Rattle.mux_station.specs.declared.role.Role.{Role};
ghost use Rattle.mux_station.specs.Tables.{HasRoomBySum};
ghost use Rattle.mux_station.specs.Acts.{Act, Call};
ghost use Rattle.mux_station.specs.Stations.{Station};
ghost use Rattle.mux_station.specs.Traces.{LeavesNoTrace};
ghost use Rattle.mux_station.specs.Fitting.{SeesThePast, SeesTheFrame};
ghost use Rattle.mux_station.specs.GivenUp.{SeesTheTick};
ghost use Rattle.mux_station.specs.Senders.{SeesTheTurn};
ghost use Rattle.mux_station.specs.Giving.{GivesOn};
ghost use Rattle.mux_station.specs.Noting.{NotedTruly};
ghost use Rattle.mux_station.specs.OpeningRule.{IsOpenByPlaces, OpenedIsOpen};
ghost use Rattle.mux_station.specs.Sending.{StationSetting, StationLawful, AnswersKeep, NoFrameAfterLoss, GivesBeginning};

/// A connection is open exactly where the rule of openings has it open; and it is open exactly where some act
/// opened it and no later act ended it.
#[tactic(auto, using(crate::proofs::states::OpenedStates::opened_is_open, crate::proofs::states::OpenByPlaces::is_open_by_places))]
pub fn openings()
    ensures table { (r : Role) (past : List Act) → OpenedIsOpen r past }
    ensures places { (r : Role) (d : ℕ) (past : List Act) → IsOpenByPlaces r d past }
{}

/// An act that is followed by all that it calls for keeps a past lawful and complete. Nothing is sent once the line is lost. What left a
/// connection since it opened is a prefix of what was offered on it.
#[tactic(auto, using(crate::proofs::law_proofs::OwedFrames::answers_keep, crate::proofs::law_proofs::OwedFrames::none_after_loss, crate::proofs::law_proofs::OwedFrames::gives_beginning))]
pub fn sendings()
    ensures answers { (s : StationSetting) (past : List Act) (a : Act) → AnswersKeep s past a }
    ensures loss { (s : StationSetting) (past : List Act) → NoFrameAfterLoss s past }
    ensures data { (s : StationSetting) (d : ℕ) (past : List Act) → StationLawful s past
        → GivesBeginning s d past }
{}

/// A station refuses a call or a frame exactly where each past that it fits refuses it. The frames that a frame calls
/// for have room where the sum of their octets has.
#[tactic(auto, using(crate::proofs::user_calls::ProbeStopFlowOffer::sees_the_past, crate::proofs::received::AnsweredFrames::sees_the_frame, crate::proofs::queues::QueueRoom::room_sum))]
pub fn refusals()
    ensures calls { (v : Station) (past : List Act) (c : Call) → SeesThePast v past c }
    ensures frames { (v : Station) (past : List Act) (f : Frame) → SeesTheFrame v past f }
    ensures room { (n1 queued : ℕ) (f : Frame) (fs : List Frame) → HasRoomBySum n1 queued f fs }
{}

/// What is noted of a frame is what happened: that its connection opened, that it is data of an open connection, or
/// that all connections closed.
pub fn notings()
    ensures { (v : Station) (past : List Act) (f : Frame) → NotedTruly v past f }
{}

/// The user's calls change a past only by the frames that they ask for: without the calls it has the same states,
/// openings and stops, the same control queue, and the same frames given on.
pub fn calls()
    ensures { (r : Role) (d : ℕ) (past : List Act) → LeavesNoTrace r d past }
{}

/// What a station gives up at a tick, and whose data it sends next, follows from any past that it fits.
#[tactic(auto, using(crate::proofs::ticks::GivenUpOfPasts::sees_the_tick, crate::proofs::turns::TurnsOfPasts::sees_the_turn))]
pub fn turns()
    ensures ticks { (v : Station) (past : List Act) → SeesTheTick v past }
    ensures sender { (v : Station) (past : List Act) → SeesTheTurn v past }
{}

/// What is next at a station may go out by each past that it fits. After `give` it fits that past, followed by what it
/// gave on, and a lawful and complete past stays so. The law takes a station because a station's numbers are in their
/// ranges.
#[tactic(auto, using(crate::proofs::turns::NextData::gives_on))]
pub fn givings(station: &crate::Station)
    ensures { GivesOn station.now }
{
    let _n1 = station.n1;
}
