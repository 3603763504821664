//! Seats, the knowledge of threads.

use crate::view::View;
use std::marker::Model;

/// The knowledge of one thread, with which it makes steps on the words: which words they are, its number there, and what it knows. It takes
/// no memory.
pub struct Seat {
    pub(crate) place: atomic_table::Seat<(), View>,
}

impl Drop for Seat {
    fn drop(self) {
        let Seat { place: _ } = self;
    }
}

impl Model for Seat {
    ghost use Rattle.std.specs.Prelude.{◌≡◌, []};
    ghost use Rattle.node_seats.specs.Sights.{SeatView};

    ghost Value = { SeatView };

    ghost view = { λ s. record { table = s.place.table_id; id = s.place.id; view = s.place.me.0 } };

    ghost invariant = { λ s. s.place.me.1 ≡ [] };
}
