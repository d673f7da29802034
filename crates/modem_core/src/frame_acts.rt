//! The acts of a frame of data.
ghost use Rattle.std.specs.Prelude.{◌≡◌, ◌≤◌, ◌∷◌, [], length, map, take, IfOk, IfSome};
ghost use Rattle.mux_frame.specs.Frames.{frame_of};
ghost use Rattle.modem_history.specs.Acts.{Got, act_of};
ghost use Rattle.modem_core.specs.Settling.{with_told};

use crate::settling::Answered;
use modem_desk::Urc;
use modem_history::Act;
use modem_queues::LineRoom;
use mux_frame::FrameView;
use std::alloc::{AllocError, Global};
use std::marker::Model;

/// How many acts a frame has mostly, at most: that it came, a line and an answer.
const FEW: usize = 3;

/// That the frame came, and the lines that are heard by it. There is always room for one act more: the answer that it brings.
#[derive(Drop)]
pub(crate) struct FrameActs {
    acts: Vec<Act>,
}

impl Model for FrameActs {
    ghost use Rattle.std.specs.Prelude.{List, ◌<◌};
    ghost use Rattle.std.specs.Vec.{vec_capacity, vec_len};
    ghost use Rattle.modem_history.specs.declared.act.Act.{Act};

    ghost Value = { List Act };

    ghost view = { λ a. a.acts.items };

    ghost invariant = { λ a. vec_len a.acts < vec_capacity a.acts };
}

impl LineRoom for FrameActs {
    ghost heard = { λ a. map act_of a };

    fn hear(&mut self, line: Urc) -> Result<(), AllocError> {
        self.acts.reserve(2)?;
        self.acts.push(Act::Heard(line)).unwrap();
        Ok(())
    }

    fn len(&self) -> usize {
        self.acts.len()
    }

    fn truncate(&mut self, count: usize) {
        self.acts.truncate(count);
    }
}

impl FrameActs {
    /// The frame came.
    pub(crate) fn new(alloc: Global, frame: FrameView<'_>) -> Result<FrameActs, AllocError>
        ensures { IfOk result (λ a. map act_of a ≡ Got (frame_of frame.entry) ∷ []) }
    {
        let mut acts = Vec::with_capacity(alloc, FEW)?;
        acts.push(Act::Got(frame.to_buf(alloc)?)).unwrap();
        Ok(FrameActs { acts })
    }

    /// All acts, with the answer that the frame brought, if it brought one. It takes no memory.
    pub(crate) fn into_vec(self, answered: Option<Answered>) -> Vec<Act>
        requires { IfSome answered (λ a. a.place ≤ length self) }
        ensures { map act_of result.items ≡ with_told answered (map act_of self) }
    {
        let FrameActs { mut acts } = self;
        if let Some(answered) = answered {
            acts.insert(answered.place, Act::Told(answered.outcome))
                .unwrap();
        }
        acts
    }
}
