//! The words: the three shared counts of a node.

ghost use Rattle.std.specs.Prelude.{◌≡◌, ◌+◌, ◌≤◌, ◌<◌, ◌^◌, ◌++◌, ◌∷◌, [], true, false, length, IfOk};
ghost use Rattle.spec_model.specs.Histories.{History};
ghost use Rattle.node_seats.specs.Views.{events, HasOwn, first_view, newcomer, informed};
ghost use Rattle.node_seats.specs.Plays.{Looks, Reads, ReadsDown, Accepts, Settles, with_down};
ghost use Rattle.node_seats.specs.Sights.{SeatView};

use crate::plays::{
    Accepted, Call, DownRead, Downed, Informs, Judge, Looked, Numbers, Read, Settled,
};
use crate::rule::{Kept, Law};
use crate::seat::Seat;
use crate::view::View;
use atomic_table::Table;
use std::alloc::{AllocError, Global};
use std::marker::Model;

// The places of the three words: the number of accepted events, the number of settled ones, and 1 if the node is down (otherwise 0).
const ACCEPTED: usize = 0;

const SYNCED: usize = 1;

const DOWN: usize = 2;

/// Three atomic numbers: how many events were accepted since a node began, how many of these are settled, and whether the node is down.
/// Each seat knows prefixes of the two lists of events; the lists themselves are in no memory.
pub struct Words<K, L: Law<K>> {
    table: Table<(), View, K, Kept<L>, Global>,
}

impl<K: Drop, L: Law<K>> Drop for Words<K, L> {
    fn drop(self) {
        let Words { table: _ } = self;
    }
}

impl<K, L: Law<K>> Model for Words<K, L> {
    ghost use Rattle.std.specs.Prelude.{◌≡◌};
    ghost use Rattle.node_seats.specs.Sights.{WordsView};

    ghost Value = { WordsView K };

    ghost view = { λ w. record { table = w.table.shared.table_id; key = w.table.shared.key } };

    ghost invariant = { λ w. w.table.shared.table_id.words ≡ 3 };
}

impl<K, L: Law<K>> Words<K, L> {
    /// The words, all 0, and their first seat, which alone may take the node down. On `AllocError` an allocation failed.
    pub fn new(alloc: Global, about: &K) -> Result<(Words<K, L>, Seat), AllocError>
        requires legal { L.legal about.now [] }
        ensures key { IfOk result (λ made. made.0.key ≡ about.now) }
        ensures place { IfOk result (λ made. made.1.table ≡ made.0.table) }
        ensures view { IfOk result (λ made. made.1.view ≡ first_view) }
    {
        let (table, place) = Table::of_words(alloc, &[0, 0, 0], about)?;
        Ok((Words { table }, Seat { place }))
    }

    /// A new seat, which has seen what this one has and has brought no event.
    pub fn split(&self, seat: &mut Seat) -> Seat
        requires of { seat.old.table ≡ self.now.table }
        requires live { seat.old.view.live ≡ true }
        ensures same { seat.new ≡ seat.old }
        ensures of { result.table ≡ self.now.table }
        ensures view { result.view ≡ record (newcomer seat.old.view) { numbered = true; number = result.view.number } }
        ensures own { HasOwn result.view }
    {
        let mut place = self.table.shared.split_seat::<Informs>(&mut seat.place);
        self.table.shared.load::<Numbers>(&mut place, ACCEPTED);
        Seat { place }
    }

    /// Shares the knowledge of one seat with another, which takes it in at its next look.
    pub fn inform(&self, from: &mut Seat, to: &mut Seat)
        requires from { (from.old.table ≡ self.now.table) × (from.old.view.live ≡ true) }
        requires to { (to.old.table ≡ self.now.table) × (to.old.view.live ≡ true) }
        ensures same { from.new ≡ from.old }
        ensures heard { to.new ≡ record to.old { view = informed to.old.view from.old.view } }
    {
        let place = self.table.shared.split_seat::<Informs>(&mut from.place);
        self.table.shared.join_seat::<Informs>(&mut to.place, place);
    }

    /// Reads the number of accepted events. The seat has then seen all of them.
    pub fn look<J: Judge>(&self, seat: &mut Seat) -> u64
        requires of { seat.old.table ≡ self.now.table }
        requires live { seat.old.view.live ≡ true }
        requires judge { (list : History) → L.legal self.now.key list → J.judged list }
        ensures of { (seat.new.table ≡ seat.old.table) × (seat.new.id ≡ seat.old.id) }
        ensures looks { Looks J.judged seat.old.view result seat.new.view }
    {
        self.table
            .shared
            .load::<Looked<J>>(&mut seat.place, ACCEPTED)
    }

    /// Reads the number of settled events. The seat then knows which ones these are, and has seen them.
    pub fn read<J: Judge>(&self, seat: &mut Seat) -> u64
        requires of { seat.old.table ≡ self.now.table }
        requires live { seat.old.view.live ≡ true }
        requires judge { (list : History) → L.legal self.now.key list → J.judged list }
        ensures of { (seat.new.table ≡ seat.old.table) × (seat.new.id ≡ seat.old.id) }
        ensures reads { Reads J.judged seat.old.view result seat.new.view }
    {
        self.table.shared.load::<Read<J>>(&mut seat.place, SYNCED)
    }

    /// Reads whether the node is down, which the seat then knows. As long as the seat has the right to take the node down, it is up.
    pub fn read_down(&self, seat: &mut Seat) -> bool
        requires of { seat.old.table ≡ self.now.table }
        requires live { seat.old.view.live ≡ true }
        ensures down { seat.new ≡ record seat.old { view = record seat.old.view { down = result } } }
        ensures stays { seat.old.view.down ≡ true → result ≡ true }
        ensures right { seat.old.view.may_fail ≡ true → result ≡ false }
    {
        self.table.shared.load::<DownRead>(&mut seat.place, DOWN) == 1
    }

    /// Takes the node down, and uses up the seat's right to do so.
    pub fn raise_down(&self, seat: &mut Seat)
        requires of { seat.old.table ≡ self.now.table }
        requires live { seat.old.view.live ≡ true }
        requires right { seat.old.view.may_fail ≡ true }
        ensures down { seat.new ≡ record seat.old { view = with_down seat.old.view } }
    {
        self.table.shared.store::<Downed>(&mut seat.place, DOWN, 1);
    }

    /// If the number of accepted events is still `from`, accepts one more, the event of the call, and returns `from`. Otherwise returns the
    /// number of accepted events, all of which the seat has then seen.
    pub fn accept<C: Call>(&self, seat: &mut Seat, from: u64) -> u64
        requires of { seat.old.table ≡ self.now.table }
        requires live { (seat.old.view.live ≡ true) × (seat.old.view.numbered ≡ true) }
        requires seen { from ≤ length seat.old.view.seen }
        requires room { from + 1 < 2 ^ 64 }
        requires legal { length seat.old.view.seen ≡ from → L.legal self.now.key (events seat.old.view.seen ++ C.event ∷ []) }
        ensures of { (seat.new.table ≡ seat.old.table) × (seat.new.id ≡ seat.old.id) }
        ensures accepts { Accepts from C.event seat.old.view result seat.new.view }
    {
        self.table
            .shared
            .compare_exchange::<Accepted<C>>(&mut seat.place, ACCEPTED, from, from + 1)
    }

    /// If the number of settled events is still `from`, settles the next ones up to `to`, and returns `from`. Otherwise returns the number
    /// of settled events; the seat then knows which ones these are.
    pub fn settle(&self, seat: &mut Seat, from: u64, to: u64) -> u64
        requires of { seat.old.table ≡ self.now.table }
        requires live { seat.old.view.live ≡ true }
        requires durable { from ≤ length seat.old.view.durable }
        requires rising { from ≤ to }
        requires seen { to ≤ length seat.old.view.seen }
        ensures of { (seat.new.table ≡ seat.old.table) × (seat.new.id ≡ seat.old.id) }
        ensures settles { Settles from to seat.old.view result seat.new.view }
    {
        self.table
            .shared
            .compare_exchange::<Settled>(&mut seat.place, SYNCED, from, to)
    }
}
