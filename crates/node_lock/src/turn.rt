//! What a thread has to keep as long as it has the value of a lock.

use atomic_table::Seat;
use std::marker::Model;

/// The duty to give a value back to its lock. It takes no memory, and has no `Drop`, so that it can't be forgotten. Contracts see which
/// lock it is.
pub struct Turn<T> {
    pub(crate) seat: Seat<Option<T>, ()>,
}

impl<T> Model for Turn<T> {
    ghost use Rattle.std.specs.Prelude.{◌≡◌, [], ◌∷◌, None};
    ghost use Rattle.atomic_table.specs.Seated.{TableId, table_id_coded};

    ghost Value = { TableId };

    ghost coded = { table_id_coded };

    ghost view = { λ t. t.seat.table_id };

    ghost invariant = { λ t. t.seat.me.1 ≡ (0, None) ∷ [] };
}
