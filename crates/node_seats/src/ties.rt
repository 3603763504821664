//! How a seat comes to know what another seat knows, and how an event gets accepted or settled while other threads do the same.

ghost use Rattle.std.specs.Prelude.{◌≡◌, ◌≤◌, ◌<◌, ◌+◌, ◌^◌, ◌||◌, ◌++◌, ◌∷◌, [], true, length, take};
ghost use Rattle.spec_model.specs.Histories.{History};
ghost use Rattle.wire.specs.Lists.{Begins};
ghost use Rattle.node_seats.specs.Views.{events, mark, HasOwn, IsSame};

use crate::plays::{Anything, Call, Judge};
use crate::rule::Law;
use crate::seat::Seat;
use crate::words::Words;
use std::sync::Wait;

impl<K, L: Law<K>> Words<K, L> {
    /// Looks until the seat has seen exactly the `count` events that another seat has seen.
    pub fn catch_up<J: Judge, R: Wait>(&self, rt: &R, seat: &mut Seat, other: &mut Seat, count: u64)
        requires seat { (seat.old.table ≡ self.now.table) × (seat.old.view.live ≡ true) }
        requires other { (other.old.table ≡ self.now.table) × (other.old.view.live ≡ true) }
        requires count { length other.old.view.seen ≡ count }
        requires judge { (list : History) → L.legal self.now.key list → J.judged list }
        ensures other { other.new ≡ other.old }
        ensures same { IsSame seat.old seat.new }
        ensures down { seat.new.view.down ≡ (seat.old.view.down || other.old.view.down) }
        ensures durable { seat.new.view.durable ≡ seat.old.view.durable }
        ensures seen { seat.new.view.seen ≡ other.old.view.seen }
        ensures more { Begins seat.old.view.seen seat.new.view.seen }
        ensures own { seat.old.view.numbered ≡ true → HasOwn seat.new.view }
        ensures judged { J.judged (events seat.new.view.seen) }
    {
        for _ in rt.forever() {
            self.inform(other, seat);
            if self.look::<J>(seat) == count {
                return;
            }
        }
        unreachable!()
    }

    /// Reads until the seat knows as settled exactly the `count` events that another seat knows as settled.
    pub fn catch_up_durable<J: Judge, R: Wait>(
        &self,
        rt: &R,
        seat: &mut Seat,
        other: &mut Seat,
        count: u64,
    )
        requires seat { (seat.old.table ≡ self.now.table) × (seat.old.view.live ≡ true) }
        requires other { (other.old.table ≡ self.now.table) × (other.old.view.live ≡ true) }
        requires count { length other.old.view.durable ≡ count }
        requires judge { (list : History) → L.legal self.now.key list → J.judged list }
        ensures other { other.new ≡ other.old }
        ensures same { IsSame seat.old seat.new }
        ensures down { seat.new.view.down ≡ (seat.old.view.down || other.old.view.down) }
        ensures durable { seat.new.view.durable ≡ other.old.view.durable }
        ensures more { Begins seat.old.view.durable seat.new.view.durable }
        ensures durable_seen { Begins seat.new.view.durable seat.new.view.seen }
        ensures seen { Begins seat.old.view.seen seat.new.view.seen }
        ensures stays { count ≤ length seat.old.view.seen → seat.new.view.seen ≡ seat.old.view.seen }
        ensures own { seat.old.view.numbered ≡ true → HasOwn seat.new.view }
        ensures judged { J.judged (events seat.new.view.durable) }
    {
        for _ in rt.forever() {
            self.inform(other, seat);
            if self.read::<J>(seat) == count {
                return;
            }
        }
        unreachable!()
    }

    /// Reads until the seat knows all settled events, which are `count`. Those that another seat knows as settled are then among them.
    pub fn cover<R: Wait>(&self, rt: &R, seat: &mut Seat, other: &mut Seat, count: u64)
        requires seat { (seat.old.table ≡ self.now.table) × (seat.old.view.live ≡ true) }
        requires other { (other.old.table ≡ self.now.table) × (other.old.view.live ≡ true) }
        requires count { length seat.old.view.durable ≡ count }
        requires seen { count ≤ length seat.old.view.seen }
        ensures other { other.new ≡ other.old }
        ensures same { IsSame seat.old seat.new }
        ensures down { seat.new.view.down ≡ (seat.old.view.down || other.old.view.down) }
        ensures durable { seat.new.view.durable ≡ seat.old.view.durable }
        ensures seen { seat.new.view.seen ≡ seat.old.view.seen }
        ensures covers { Begins other.old.view.durable seat.new.view.durable }
    {
        for _ in rt.forever() {
            self.inform(other, seat);
            if self.read::<Anything>(seat) == count {
                return;
            }
        }
        unreachable!()
    }

    /// Tries to accept the event until that succeeds; the event then comes right after all that the seat has seen.
    pub fn raise<C: Call, R: Wait>(&self, rt: &R, seat: &mut Seat, from: u64)
        requires of { seat.old.table ≡ self.now.table }
        requires live { (seat.old.view.live ≡ true) × (seat.old.view.numbered ≡ true) }
        requires seen { length seat.old.view.seen ≡ from }
        requires room { from + 1 < 2 ^ 64 }
        requires legal { L.legal self.now.key (events seat.old.view.seen ++ C.event ∷ []) }
        ensures same { (seat.new.table ≡ seat.old.table) × (seat.new.id ≡ seat.old.id) × (seat.new.view.live ≡ true) × (seat.new.view.numbered ≡ true) × (seat.new.view.number ≡ seat.old.view.number) × (seat.new.view.may_fail ≡ seat.old.view.may_fail) }
        ensures down { seat.new.view.down ≡ seat.old.view.down }
        ensures durable { seat.new.view.durable ≡ seat.old.view.durable }
        ensures seen { seat.new.view.seen ≡ seat.old.view.seen ++ mark seat.old.view.number C.event ∷ [] }
        ensures mine { seat.new.view.mine ≡ seat.old.view.mine ++ C.event ∷ [] }
    {
        for _ in rt.forever() {
            if self.accept::<C>(seat, from) == from {
                return;
            }
        }
        unreachable!()
    }

    /// Tries until the first `to` events that the seat has seen are settled. It starts from `from`, the number that the seat knows as
    /// settled.
    pub fn raise_durable<R: Wait>(&self, rt: &R, seat: &mut Seat, from: u64, to: u64)
        requires of { seat.old.table ≡ self.now.table }
        requires live { seat.old.view.live ≡ true }
        requires durable { length seat.old.view.durable ≡ from }
        requires rising { from ≤ to }
        requires seen { to ≤ length seat.old.view.seen }
        ensures same { IsSame seat.old seat.new }
        ensures down { seat.new.view.down ≡ seat.old.view.down }
        ensures seen { seat.new.view.seen ≡ seat.old.view.seen }
        ensures durable { seat.new.view.durable ≡ take to seat.old.view.seen }
    {
        for _ in rt.forever() {
            if self.settle(seat, from, to) == from {
                return;
            }
        }
        unreachable!()
    }

    /// Makes a look with each of two seats. Then the second seat has seen all that the first one has. Returns how many events the second
    /// has seen.
    pub fn meet<J: Judge>(&self, first: &mut Seat, second: &mut Seat) -> u64
        requires first { (first.old.table ≡ self.now.table) × (first.old.view.live ≡ true) }
        requires second { (second.old.table ≡ self.now.table) × (second.old.view.live ≡ true) }
        requires judge { (list : History) → L.legal self.now.key list → J.judged list }
        ensures first { IsSame first.old first.new × Begins first.old.view.seen first.new.view.seen × (first.new.view.durable ≡ first.old.view.durable) }
        ensures second { IsSame second.old second.new × Begins second.old.view.seen second.new.view.seen × (second.new.view.durable ≡ second.old.view.durable) }
        ensures meets { Begins first.new.view.seen second.new.view.seen }
        ensures down { (first.new.view.down ≡ first.old.view.down) × (second.new.view.down ≡ (second.old.view.down || first.old.view.down)) }
        ensures count { result ≡ length second.new.view.seen }
        ensures own_first { first.old.view.numbered ≡ true → HasOwn first.new.view }
        ensures own_second { second.old.view.numbered ≡ true → HasOwn second.new.view }
        ensures judged_first { J.judged (events first.new.view.seen) }
        ensures judged_second { J.judged (events second.new.view.seen) }
    {
        self.look::<J>(first);
        self.inform(first, second);
        self.look::<J>(second)
    }
}
