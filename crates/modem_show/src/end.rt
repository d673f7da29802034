//! One end of the line, as a capture shows it.
ghost use Rattle.std.specs.Prelude.{◌≡◌, [], ◌∷◌, List, length, replicate, IfOk};
ghost use Rattle.mux_frame.specs.Frames.{frame_of};
ghost use Rattle.mux_station.specs.Acts.{Act};
ghost use Rattle.modem_show.specs.Ways.{act_of};
ghost use Rattle.modem_show.specs.Ends.{EndFits, PlacesAfter, shut_place, is_open_at, is_stopped_at};

use crate::deed::Deed;
use crate::place::{Place, stop_in};
use mux_frame::{Dlci, FrameView};
use mux_station::Role;
use std::alloc::{AllocError, Global};
use std::marker::Model;

/// What is kept of each connection at one end.
#[derive(Drop)]
pub(crate) struct End {
    role: Role,
    places: Vec<Place>,
}

impl Model for End {
    ghost use Rattle.std.specs.Prelude.{◌≡◌, length};
    ghost use Rattle.modem_show.specs.Ends.{End};

    ghost Value = { End };

    ghost view = { λ e. record { role = e.role; places = e.places.items } };

    ghost invariant = { λ e. length e.places.items ≡ 62 };
}

/// All connections, of which nothing came.
fn shut_places(alloc: Global) -> Result<Vec<Place>, AllocError>
    ensures { IfOk result (λ ps. ps.items ≡ replicate 62 shut_place) }
{
    let mut places = Vec::with_capacity(alloc, Dlci::COUNT)?;
    for _ in 0..Dlci::COUNT {
        places.push(Place::SHUT)?;
    }
    Ok(places)
}

/// An act changes what is kept of each connection.
fn act_on_each(places: &mut Vec<Place>, role: Role, zero: bool, frame: FrameView<'_>, deed: Deed)
    requires { length places.old.items ≡ 62 }
    ensures length { length places.new.items ≡ 62 }
    ensures each { PlacesAfter role zero (act_of deed (frame_of frame.entry)) places.old.items places.new.items }
{
    for dlci in 0u8..62 {
        let place = places[usize::from(dlci)];
        places[usize::from(dlci)] = place.after(role, zero, dlci, frame, deed);
    }
}

impl End {
    /// An end of which nothing came.
    pub fn new(alloc: Global, role: Role) -> Result<End, AllocError>
        ensures role { IfOk result (λ e. e.role ≡ role) }
        ensures past { IfOk result (λ e. EndFits e []) }
    {
        let places = shut_places(alloc)?;
        Ok(End { role, places })
    }

    /// The end gets or sends a frame.
    pub fn act(&mut self, frame: FrameView<'_>, deed: Deed)
        ensures role { self.new.role ≡ self.old.role }
        ensures past { (past : List Act) → EndFits self.old past
            → EndFits self.new (act_of deed (frame_of frame.entry) ∷ past) }
    {
        let zero = self.places[0].is_open;
        act_on_each(&mut self.places, self.role, zero, frame, deed);
    }

    /// Whether a connection is open at this end.
    pub fn is_open(&self, dlci: Dlci) -> bool
        ensures { result ≡ is_open_at self.now dlci.number }
    {
        self.places[usize::from(dlci.number())].is_open
    }

    /// Whether this end may not send data on a connection.
    pub fn is_stopped(&self, dlci: Dlci) -> bool
        ensures { result ≡ is_stopped_at self.now dlci.number }
    {
        let own = self.places[usize::from(dlci.number())];
        let all = self.places[0];
        stop_in(dlci.number(), own, all)
    }
}
