//! The rule that the request queue keeps whatever the threads do, and what each step on the queue tells.
ghost use Rattle.std.specs.Prelude.{◌≡◌};

use crate::request::Request;
use crossbeam_queue::protocol::{Join, Lesson, Outcome, Protocol, Split};
use std::collections::LinkedList;

// What a caller that has left had submitted. Contracts alone have values of it.
pub struct Known {
    pub number: u8,
    pub submitted: LinkedList<Request>,
}

// What the holder of a pass knows: the driver what it took, a caller what it submitted, how many outcomes it got, and how many it had
// got before each of its requests. Contracts alone have values of it.
pub struct View {
    pub drives: bool,
    pub submits: bool,
    pub number: u8,
    pub submitted: LinkedList<Request>,
    pub got: u64,
    pub got_before: LinkedList<u64>,
    pub given: u8,
    pub taken: LinkedList<Request>,
    pub known: LinkedList<Known>,
    pub counted: bool,
    pub waiting: LinkedList<Request>,
}

/// The rule: a caller's requests that the driver took, and then those queued, are those that it submitted.
pub struct InOrder;

impl Protocol<Request, View> for InOrder {
    ghost use Rattle.std.specs.Prelude.{[]};
    ghost use Rattle.modem_desk.specs.Rule.{driver, RuleKept};

    ghost holds = { RuleKept };

    ghost first = { driver 0 [] [] };
}

/// One more caller gets a pass, and the next number.
pub struct AddsCaller;

impl Split<View> for AddsCaller {
    ghost use Rattle.std.specs.Prelude.{[], ◌+◌};
    ghost use Rattle.modem_desk.specs.Rule.{driver, caller};

    ghost left = { λ v. driver (v.given + 1) v.taken v.known };

    ghost right = { λ v. caller v.given [] 0 [] };
}

/// A caller's pass comes back, and the driver knows what that caller submitted.
pub struct Leaves;

impl Join<View> for Leaves {
    ghost use Rattle.std.specs.Prelude.{[], ◌++◌, ◌∷◌};
    ghost use Rattle.modem_desk.specs.Rule.{driver, known, returned_view};

    ghost both = { λ v w. driver v.given v.taken (v.known ++ known w.number w.submitted ∷ []) };

    ghost spent = { returned_view };
}

/// A caller got one outcome more. The other pass knows nothing.
pub struct Gets;

impl Split<View> for Gets {
    ghost use Rattle.std.specs.Prelude.{◌+◌};
    ghost use Rattle.modem_desk.specs.Rule.{caller, returned_view};

    ghost left = { λ v. caller v.number v.submitted (v.got + 1) v.got_before };

    ghost right = { λ v. returned_view };
}

/// A caller's list grows by the request, before which it had got so many outcomes.
pub struct Submits;

impl Outcome<Request, View> for Submits {
    ghost use Rattle.std.specs.Prelude.{◌≡◌, [], ◌++◌, ◌∷◌};
    ghost use Rattle.modem_desk.specs.Rule.{caller};

    ghost then = { λ v x w. w ≡ caller v.number (v.submitted ++ x ∷ []) v.got (v.got_before ++ v.got ∷ []) };
}

impl Lesson<Request, View> for Submits {
    ghost use Rattle.std.specs.Prelude.{⊤};

    ghost fact = { λ v items. ⊤ };
}

/// The driver's list grows by the request, whose caller has a number at the desk. The requests of each caller on the list are
/// numbered one after the other.
pub struct Takes;

impl Outcome<Request, View> for Takes {
    ghost use Rattle.std.specs.Prelude.{◌≡◌, [], ◌++◌, ◌∷◌, ◌<◌};
    ghost use Rattle.modem_desk.specs.Rule.{driver, AreNumbered};

    ghost then = { λ v x w. (w ≡ driver v.given (v.taken ++ x ∷ []) v.known) × (x.caller < v.given)
        × AreNumbered (v.taken ++ x ∷ []) };
}

impl Lesson<Request, View> for Takes {
    ghost use Rattle.std.specs.Prelude.{⊤};

    ghost fact = { λ v items. ⊤ };
}

/// The same once every caller has left. The driver then knows what waits, and at the end that nothing does.
pub struct Drains;

impl Outcome<Request, View> for Drains {
    ghost use Rattle.modem_desk.specs.Rule.{DrainsOne};

    ghost then = { DrainsOne };
}

impl Lesson<Request, View> for Drains {
    ghost use Rattle.modem_desk.specs.Rule.{IsDrained};

    ghost fact = { IsDrained };
}
