//! What a shared node hands over to be written to the disk, and how it learns that this is durable.

ghost use Rattle.std.specs.Prelude.{◌≡◌, ◌≤◌, ◌||◌, true, false, is_some};
ghost use Rattle.wire.specs.Lists.{Begins};
ghost use Rattle.spec_machine.specs.After.{IsLegalAfter};
ghost use Rattle.spec_model.specs.States.{State};
ghost use Rattle.validator.specs.Setting.{node_of};
ghost use Rattle.node_seats.specs.Views.{events, IsSame, informed};
ghost use Rattle.node_seats.specs.Plays.{with_down};
ghost use Rattle.node_shared.specs.Calls.{Looked, Learned, Stays, Takes, TakesAll, SettlesTaken, CountsAs};
ghost use Rattle.node_shared.specs.Home.{IsBase, IsOf, IsAtHome, IsFlushOf, IsTied, IsCheckpointAfter, taken_by, group_of};

use crate::flush_seat::FlushSeat;
use crate::home::Locked;
use crate::node::Node;
use book::Book;
use journal::{Group, Snapshot, Synced};
use node_seats::{Anything, Seat};
use sigface::Sign;
use std::alloc::AllocError;
use std::marker::Brand;
use std::sync::Wait;

impl<'a, S: Sign> Node<'a, S> {
    /// Takes a group: the longest prefix that fits a group of the accepted events that aren't settled. All that the seat had seen is among
    /// the accepted events. None where all of them are settled. On `AllocError` an allocation failed, and nothing was taken.
    pub fn take<R: Wait>(
        &self,
        rt: &R,
        flush: &mut FlushSeat,
        seat: &mut Seat,
    ) -> Result<Option<Group>, AllocError>
        requires flush { IsFlushOf self.now flush.old }
        requires rests { flush.old.taken ≡ flush.old.settled }
        requires idle { flush.old.rewriting ≡ false }
        requires of { IsOf self.now seat.old }
        ensures flush { IsFlushOf self.now flush.new }
        ensures flush_same { IsSame flush.old.seat flush.new.seat }
        ensures flush_durable { flush.new.seat.view.durable ≡ flush.old.seat.view.durable }
        ensures flush_settled { flush.new.settled ≡ flush.old.settled }
        ensures flush_idle { flush.new.rewriting ≡ false }
        ensures looked { Looked S.scheme self.now seat.old seat.new }
        ensures seen { Begins seat.new.view.seen flush.new.seat.view.seen }
        ensures legal { (base : State) → IsBase S.scheme self.now base → IsLegalAfter (node_of S.scheme self.now.setting) base (events flush.new.seat.view.seen) }
        ensures takes { Takes flush.old flush.new result }
    {
        self.meet(seat, &mut flush.seat);
        for _ in rt.forever() {
            let (turn, mut home) = self.lock.acquire(rt);
            let locked = &mut *home;
            if self.tie(rt, locked, flush) {
                let found = self.take_tied(locked, flush);
                self.lock.release(turn, home);
                return found;
            }
            self.lock.release(turn, home);
        }
        unreachable!()
    }

    /// Takes all accepted events, which include all that the seat had seen, for a checkpoint of the state after them. Threads may submit
    /// events meanwhile, but until the checkpoint is settled no group can be taken. On `AllocError` an allocation failed, and nothing was
    /// taken.
    pub fn take_all<R: Wait>(
        &self,
        rt: &R,
        flush: &mut FlushSeat,
        seat: &mut Seat,
    ) -> Result<Snapshot, AllocError>
        requires flush { IsFlushOf self.now flush.old }
        requires rests { flush.old.taken ≡ flush.old.settled }
        requires idle { flush.old.rewriting ≡ false }
        requires of { IsOf self.now seat.old }
        ensures flush { IsFlushOf self.now flush.new }
        ensures flush_same { IsSame flush.old.seat flush.new.seat }
        ensures flush_durable { flush.new.seat.view.durable ≡ flush.old.seat.view.durable }
        ensures flush_settled { flush.new.settled ≡ flush.old.settled }
        ensures looked { Looked S.scheme self.now seat.old seat.new }
        ensures seen { Begins seat.new.view.seen flush.new.seat.view.seen }
        ensures legal { (base : State) → IsBase S.scheme self.now base → IsLegalAfter (node_of S.scheme self.now.setting) base (events flush.new.seat.view.seen) }
        ensures takes { TakesAll S.scheme self.now flush.old flush.new result }
    {
        self.meet(seat, &mut flush.seat);
        for _ in rt.forever() {
            let (turn, mut home) = self.lock.acquire(rt);
            let locked = &mut *home;
            if self.tie(rt, locked, flush) {
                let snapshot = self.take_all_tied(locked, flush);
                self.lock.release(turn, home);
                return snapshot;
            }
            self.lock.release(turn, home);
        }
        unreachable!()
    }

    /// Notes that what was taken is durable: the group, or the checkpoint in flight. All taken events are then settled.
    pub fn settle<R: Wait>(&self, rt: &R, flush: &mut FlushSeat, synced: Synced)
        requires flush { IsFlushOf self.now flush.old }
        requires group { flush.old.rewriting ≡ false → synced ≡ group_of flush.old }
        requires checkpoint { flush.old.rewriting ≡ true → IsCheckpointAfter S.scheme self.now (taken_by flush.old) synced }
        ensures settles { SettlesTaken self.now flush.old flush.new }
    {
        for _ in rt.forever() {
            let (turn, mut home) = self.lock.acquire(rt);
            let locked = &mut *home;
            if self.tie(rt, locked, flush) {
                self.settle_tied(rt, locked, flush, synced);
                self.lock.release(turn, home);
                return;
            }
            self.lock.release(turn, home);
        }
        unreachable!()
    }

    /// After this call the seat knows as settled exactly the events that the flush seat knows as settled.
    pub fn report_settled<R: Wait>(&self, rt: &R, flush: &mut FlushSeat, seat: &mut Seat)
        requires flush { IsFlushOf self.now flush.old }
        requires of { IsOf self.now seat.old }
        ensures flush { flush.new ≡ flush.old }
        ensures learned { Learned S.scheme self.now seat.old seat.new }
        ensures down { seat.new.view.down ≡ (seat.old.view.down || flush.old.seat.view.down) }
        ensures durable { seat.new.view.durable ≡ flush.old.seat.view.durable }
    {
        let count = flush.settled;
        self.words
            .catch_up_durable::<Brand, R>(rt, seat, &mut flush.seat, count);
    }

    /// After this call the flush seat knows as settled all events that the other seat knows as settled, and knows that the node is down if
    /// the other seat knows it. It has seen the same events as before and has the same counts, and the other seat is as before.
    pub fn cover<R: Wait>(&self, rt: &R, flush: &mut FlushSeat, seat: &mut Seat)
        requires flush { IsFlushOf self.now flush.old }
        requires of { IsOf self.now seat.old }
        ensures flush { IsFlushOf self.now flush.new }
        ensures stays { Stays flush.old.seat flush.new.seat }
        ensures counts { CountsAs flush.old flush.new }
        ensures down { flush.new.seat.view.down ≡ (flush.old.seat.view.down || seat.old.view.down) }
        ensures seat { seat.new ≡ seat.old }
        ensures covers { Begins seat.old.view.durable flush.new.seat.view.durable }
    {
        let count = flush.settled;
        self.words.cover(rt, &mut flush.seat, seat, count);
    }

    /// Takes the node down, because a device call failed or the journal is full; the seat then knows that. From now on the node accepts no
    /// event and gives out no output. The call never waits.
    pub fn fail(&self, flush: &mut FlushSeat, seat: &mut Seat)
        requires flush { IsFlushOf self.now flush.old }
        requires right { flush.old.seat.view.may_fail ≡ true }
        requires of { IsOf self.now seat.old }
        ensures flush { flush.new ≡ record flush.old { seat = record flush.old.seat { view = with_down flush.old.seat.view } } }
        ensures seat { seat.new ≡ record seat.old { view = informed seat.old.view flush.new.seat.view } }
    {
        self.words.raise_down(&mut flush.seat);
        self.words.inform(&mut flush.seat, seat);
    }

    // After this call the flush seat knows what the book's own seat does. The result is whether the flush seat counts as many taken and
    // settled events as the book. If it doesn't, it never will, since only calls with the flush seat change the book's counts.
    fn tie<R: Wait>(&self, rt: &R, locked: &mut Locked<'a, S>, flush: &mut FlushSeat) -> bool
        requires home { IsAtHome S.scheme self.now locked.old.seat locked.old.book }
        requires of { IsOf self.now flush.old.seat }
        requires rising { flush.old.settled ≤ flush.old.taken }
        ensures locked { locked.new ≡ locked.old }
        ensures of { IsOf self.now flush.new.seat }
        ensures same { IsSame flush.old.seat flush.new.seat }
        ensures down { flush.new.seat.view.down ≡ (flush.old.seat.view.down || locked.old.seat.view.down) }
        ensures counts { CountsAs flush.old flush.new }
        ensures durable { Begins flush.old.seat.view.durable flush.new.seat.view.durable }
        ensures seen { Begins flush.old.seat.view.seen flush.new.seat.view.seen }
        ensures legal { (base : State) → IsBase S.scheme self.now base → IsLegalAfter (node_of S.scheme self.now.setting) base (events flush.new.seat.view.seen) }
        ensures tied { result ≡ true → IsTied self.now locked.old.seat locked.old.book flush.new }
    {
        self.know_all(rt, locked, &mut flush.seat);
        self.see_all(rt, locked, &mut flush.seat);
        counts_as(&locked.book, flush)
    }

    fn take_tied(
        &self,
        locked: &mut Locked<'a, S>,
        flush: &mut FlushSeat,
    ) -> Result<Option<Group>, AllocError>
        requires home { IsAtHome S.scheme self.now locked.old.seat locked.old.book }
        requires tied { IsTied self.now locked.old.seat locked.old.book flush.old }
        requires rests { flush.old.taken ≡ flush.old.settled }
        requires idle { flush.old.rewriting ≡ false }
        ensures home { IsAtHome S.scheme self.now locked.new.seat locked.new.book }
        ensures tied { IsTied self.now locked.new.seat locked.new.book flush.new }
        ensures flush { IsFlushOf self.now flush.new }
        ensures same { (flush.new.seat ≡ flush.old.seat) × (flush.new.settled ≡ flush.old.settled) }
        ensures idle { flush.new.rewriting ≡ false }
        ensures takes { Takes flush.old flush.new result }
    {
        let Some(group) = locked.book.take()? else {
            return Ok(None);
        };
        flush.taken = locked.book.taken();
        Ok(Some(group))
    }

    fn take_all_tied(
        &self,
        locked: &mut Locked<'a, S>,
        flush: &mut FlushSeat,
    ) -> Result<Snapshot, AllocError>
        requires home { IsAtHome S.scheme self.now locked.old.seat locked.old.book }
        requires tied { IsTied self.now locked.old.seat locked.old.book flush.old }
        requires rests { flush.old.taken ≡ flush.old.settled }
        requires idle { flush.old.rewriting ≡ false }
        ensures home { IsAtHome S.scheme self.now locked.new.seat locked.new.book }
        ensures tied { IsTied self.now locked.new.seat locked.new.book flush.new }
        ensures flush { IsFlushOf self.now flush.new }
        ensures same { (flush.new.seat ≡ flush.old.seat) × (flush.new.settled ≡ flush.old.settled) }
        ensures takes { TakesAll S.scheme self.now flush.old flush.new result }
    {
        let snapshot = locked.book.take_all()?;
        flush.taken = locked.book.taken();
        flush.rewriting = true;
        Ok(snapshot)
    }

    fn settle_tied<R: Wait>(
        &self,
        rt: &R,
        locked: &mut Locked<'a, S>,
        flush: &mut FlushSeat,
        synced: Synced,
    )
        requires home { IsAtHome S.scheme self.now locked.old.seat locked.old.book }
        requires tied { IsTied self.now locked.old.seat locked.old.book flush.old }
        requires group { flush.old.rewriting ≡ false → synced ≡ group_of flush.old }
        requires checkpoint { flush.old.rewriting ≡ true → IsCheckpointAfter S.scheme self.now (taken_by flush.old) synced }
        ensures home { IsAtHome S.scheme self.now locked.new.seat locked.new.book }
        ensures tied { IsTied self.now locked.new.seat locked.new.book flush.new }
        ensures settles { SettlesTaken self.now flush.old flush.new }
    {
        locked.book.settle(synced);
        self.words
            .raise_durable(rt, &mut flush.seat, flush.settled, flush.taken);
        self.words
            .catch_up_durable::<Anything, R>(rt, &mut locked.seat, &mut flush.seat, flush.taken);
        flush.settled = flush.taken;
        flush.rewriting = false;
    }
}

// Whether a flush seat has the same counts as a book, and is right about whether a rewriting is in flight.
fn counts_as<S: Sign>(book: &Book<'_, S>, flush: &FlushSeat) -> bool
    ensures { result ≡ true → (book.now.settled ≡ flush.now.settled) × (book.now.taken ≡ flush.now.taken) × (is_some book.now.rewriting ≡ flush.now.rewriting) }
{
    if book.settled() != flush.settled {
        return false;
    }
    if book.taken() != flush.taken {
        return false;
    }
    book.is_rewriting() == flush.rewriting
}
