//! Laws of replays, and of open windows.
ghost use Rattle.std.specs.Prelude.{◌≡◌, ◌<◌, ◌==◌, ℕ, List, [], false};
ghost use Rattle.modem_core.specs.Cores.{Core};
ghost use Rattle.modem_core.specs.Handing.{WindowFits};
ghost use Rattle.modem_core.specs.Replays.{AreFull, Brought, Replays};
ghost use Rattle.modem_core.specs.ReplayRows.{NoReplay, NoReplayOfAny, WantsRoom, busy_again, busy_at_first, frame_invented, full_frames, full_queue, half_frames, lost_by_itself, one_request, request_dropped, test_comes, two_requests, while_opening};
ghost use Rattle.modem_core.specs.Room.{EachBeginsEmpty, FindsRoom, FitsEmpty, NeverWantsRoom};
ghost use Rattle.modem_core.specs.declared.event.Event.{Event};
ghost use Rattle.modem_history.specs.Acts.{Act};

/// The requests taken, frames got, ticks and losses of a replay are those that its events bring, in their order, and no
/// others. So no replay loses the line by itself, gets a frame of which no octet came, or drops a request. All data
/// frames of a command but the last have N1 octets of information: at N1 31 a command of 41 octets leaves in frames of
/// 31 and 10, not of 20 and 21. No control frame waits when a call begins, so what it calls for fits: no request is
/// told Busy and no frame is refused for want of room, and a tick leaves no connection out.
#[tactic(auto, using(crate::proofs::replays::FirstActs::brought, crate::proofs::replays::FirstActs::no_loss, crate::proofs::replays::FirstActs::no_invention, crate::proofs::replays::FirstActs::no_request_dropped, crate::proofs::replays::FullFrames::full, crate::proofs::replays::FullFrames::no_halves, crate::proofs::replays::EmptyQueues::begin_empty, crate::proofs::replays::EmptyQueues::fits_empty, crate::proofs::replays::RoomInReplays::never_wants_room, crate::proofs::replays::RoomInReplays::busy_wanted, crate::proofs::replays::RoomInReplays::busy_under_way, crate::proofs::replays::RoomInReplays::place_wanted))]
pub fn replays()
    ensures brought { (n1 : ℕ) (events : List Event) (acts : List Act)
        → Replays n1 events acts → Brought n1 events acts }
    ensures no_loss { NoReplay two_requests lost_by_itself }
    ensures no_invention { NoReplay one_request frame_invented }
    ensures none_dropped { NoReplay two_requests request_dropped }
    ensures full { (n1 : ℕ) (events : List Event) (acts : List Act)
        → Replays n1 events acts → AreFull n1 acts }
    ensures filled { AreFull 31 full_frames }
    ensures no_halves { NoReplayOfAny half_frames }
    ensures room { (n1 : ℕ) (events : List Event) (acts : List Act) → EachBeginsEmpty n1 events acts }
    ensures fits { (n1 : ℕ) → FitsEmpty n1 }
    ensures never { (n1 : ℕ) (events : List Event) (acts : List Act) → NeverWantsRoom n1 events acts }
    ensures busy { WantsRoom [] busy_at_first }
    ensures busy_again { FindsRoom 31 while_opening busy_again }
    ensures place { WantsRoom full_queue test_comes }
{}

/// A core keeps no command's text in its lanes. With the text of the first command in hand on an open connection, what is kept of the
/// answer there is the window that the past says: the command, its lines so far, and whether the echo may still come.
#[tactic(auto, using(crate::proofs::frames::OpenCommands::windows_fit))]
pub fn open_windows()
    ensures { (v : Core) (d : ℕ) → d < 62 → (d == 0) ≡ false → WindowFits v d }
{}
