//! A listener's end of the desk.
ghost use Rattle.std.specs.Prelude.{◌≡◌, ◌<◌, ◌++◌, ◌∷◌, [], length, IsSome, MatchOption};
ghost use mathlib.Core.List.{IsPrefix};

use crate::caller::ring;
use crate::request::Urc;
use at_text::UrcKind;
use bell::Bell;
use rtrb::Consumer;
use std::marker::Model;

// How many lines may wait in a listener's ring.
pub(crate) const LINES: usize = 256;

/// Takes the unsolicited lines of one kind.
///
/// Contracts see its subscription at the desk, the lines that it took, and those that it has seen waiting.
#[derive(Drop)]
pub struct Listener {
    lines: Consumer<Urc>,
    kind: UrcKind,
    place: usize,
    bell: Option<Bell>,
}

impl Model for Listener {
    ghost use Rattle.std.specs.Prelude.{◌≡◌};
    ghost use Rattle.rtrb.specs.Ring.{received, known_items, consumer_capacity};
    ghost use Rattle.modem_desk.specs.Ends.{ListenerView};
    ghost use Rattle.ring_id.specs.Rings.{ring_of_consumer};

    ghost Value = { ListenerView };

    ghost view = { λ l. record {
      subscription = record {
        place = l.place;
        kind = l.kind;
        ring = ring_of_consumer l.lines;
      };
      heard = received l.lines;
      seen = known_items l.lines;
    } };

    ghost invariant = { λ l. consumer_capacity l.lines ≡ 256 };
}

impl Listener {
    ghost use Rattle.rtrb.specs.Ring.{received, known_items, consumer_capacity};
    ghost use Rattle.ring_id.specs.Rings.{ring_of_consumer};

    pub(crate) fn new(
        lines: Consumer<Urc>,
        kind: UrcKind,
        place: usize,
        bell: Option<Bell>,
    ) -> Listener
        requires { (received lines ≡ []) × (known_items lines ≡ []) × (consumer_capacity lines ≡ 256) }
        ensures { result ≡ record {
          subscription = record {
            place = place;
            kind = kind;
            ring = ring_of_consumer lines;
          };
          heard = [];
          seen = [];
        } }
    {
        Listener {
            lines,
            kind,
            place,
            bell,
        }
    }

    pub(crate) fn into_parts(self) -> (Consumer<Urc>, usize)
        ensures ring { (ring_of_consumer result.0 ≡ self.subscription.ring) × (received result.0 ≡ self.heard)
            × (consumer_capacity result.0 ≡ 256) }
        ensures place { result.1 ≡ self.subscription.place }
    {
        let Listener {
            lines,
            kind: _,
            place,
            bell: _,
        } = self;
        (lines, place)
    }

    /// The kind of line that it hears.
    pub fn kind(&self) -> UrcKind
        ensures { result ≡ self.now.subscription.kind }
    {
        self.kind
    }

    /// Takes the oldest line that waits for this listener. `None` means that it has seen none waiting. Rings the listener's
    /// bell, if it has one, since there is room for one more line.
    pub fn take(&mut self) -> Option<Urc>
        ensures subscription { self.new.subscription ≡ self.old.subscription }
        ensures heard { MatchOption result (self.new.heard ≡ self.old.heard) (λ line.
            self.new.heard ≡ self.old.heard ++ line ∷ []) }
        ensures seen { MatchOption result (self.new.seen ≡ []) (λ line. IsPrefix self.old.seen (line
            ∷ self.new.seen)) }
        ensures finds { 0 < length self.old.seen → IsSome result }
    {
        let line = self.lines.pop().ok()?;
        ring(&self.bell);
        Some(line)
    }
}
