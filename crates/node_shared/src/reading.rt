//! What a shared node can be asked, and how its outputs are taken out.

ghost use Rattle.std.specs.Prelude.{◌≡◌, ◌⊎◌, ◌↔◌, ◌-◌, ◌<◌, ◌++◌, ◌||◌, None, drop, length, is_some, if◌then◌else◌, IsNone, IsTrue, IsErrOf, IfOk, IfErr, IfSome};
ghost use Rattle.std.specs.VecDeque.{deque_len, deque_capacity};
ghost use Rattle.book.specs.Book.{releasable, releasable_within};
ghost use Rattle.header.specs.Checks.{fault_of, accepts_all};
ghost use Rattle.wire.specs.Lists.{Begins};
ghost use Rattle.spec_machine.specs.Machine.{is_ready, proposed, round_in};
ghost use Rattle.spec_model.specs.States.{State};
ghost use Rattle.validator.specs.Setting.{node_of};
ghost use Rattle.node_shared.specs.Answers.{Gives, GivesAll};
ghost use Rattle.node_shared.specs.Calls.{Looked, Learned, Stays};
ghost use Rattle.node_shared.specs.Home.{IsBase, IsOf, IsAtHome, seen_in, durable_in};

use crate::home::Locked;
use crate::node::Node;
use book::Refusal;
use header::Checked;
use node_seats::Seat;
use sigface::Sign;
use std::alloc::AllocError;
use std::collections::VecDeque;
use std::marker::Brand;
use std::sync::Wait;
use wire::{Author, Digest, Header, Output, Round};

impl<'a, S: Sign> Node<'a, S> {
    /// How many events were accepted since the node was made; the seat has then seen them. The call never waits and allocates no memory.
    pub fn accepted(&self, seat: &mut Seat) -> u64
        requires of { IsOf self.now seat.old }
        ensures looked { Looked S.scheme self.now seat.old seat.new }
        ensures down { seat.new.view.down ≡ seat.old.view.down }
        ensures count { result ≡ length seat.new.view.seen }
    {
        self.words.look::<Brand>(seat)
    }

    /// How many events are settled; the seat then knows them as settled. The call never waits and allocates no memory.
    pub fn synced(&self, seat: &mut Seat) -> u64
        requires of { IsOf self.now seat.old }
        ensures learned { Learned S.scheme self.now seat.old seat.new }
        ensures down { seat.new.view.down ≡ seat.old.view.down }
        ensures count { result ≡ length seat.new.view.durable }
    {
        self.words.read::<Brand>(seat)
    }

    /// Whether the node is down, as far as the seat knows after this call. Where the result is false, the node may be down all the same. The
    /// seat may also learn which events are settled. The call never waits and allocates no memory.
    pub fn is_down(&self, seat: &mut Seat) -> bool
        requires of { IsOf self.now seat.old }
        ensures learned { Learned S.scheme self.now seat.old seat.new }
        ensures down { result ≡ seat.new.view.down }
    {
        let _ = self.synced(seat);
        self.words.read_down(seat)
    }

    /// Looks at the words with both seats. Afterwards the second seat has seen all that the first has seen, and knows that the node is down
    /// if the first knows it. Gives the number of events that the second seat has seen. The call never waits and allocates no memory.
    pub fn meet(&self, first: &mut Seat, second: &mut Seat) -> u64
        requires first { IsOf self.now first.old }
        requires second { IsOf self.now second.old }
        ensures first { Looked S.scheme self.now first.old first.new }
        ensures second { Looked S.scheme self.now second.old second.new }
        ensures meets { Begins first.new.view.seen second.new.view.seen }
        ensures down { (first.new.view.down ≡ first.old.view.down) × (second.new.view.down ≡ (second.old.view.down || first.old.view.down)) }
        ensures count { result ≡ length second.new.view.seen }
    {
        self.words.meet::<Brand>(first, second)
    }

    // After this call the seat has seen exactly the accepted events.
    pub(crate) fn see_all<R: Wait>(&self, rt: &R, locked: &mut Locked<'a, S>, seat: &mut Seat)
        requires home { IsAtHome S.scheme self.now locked.old.seat locked.old.book }
        requires of { IsOf self.now seat.old }
        ensures locked { locked.new ≡ locked.old }
        ensures looked { Looked S.scheme self.now seat.old seat.new }
        ensures down { seat.new.view.down ≡ (seat.old.view.down || locked.old.seat.view.down) }
        ensures seen { seat.new.view.seen ≡ locked.old.seat.view.seen }
    {
        let count = locked.book.accepted();
        self.words
            .catch_up::<Brand, R>(rt, seat, &mut locked.seat, count);
    }

    // After this call the seat knows exactly the settled events as settled.
    pub(crate) fn know_all<R: Wait>(&self, rt: &R, locked: &mut Locked<'a, S>, seat: &mut Seat)
        requires home { IsAtHome S.scheme self.now locked.old.seat locked.old.book }
        requires of { IsOf self.now seat.old }
        ensures locked { locked.new ≡ locked.old }
        ensures learned { Learned S.scheme self.now seat.old seat.new }
        ensures down { seat.new.view.down ≡ (seat.old.view.down || locked.old.seat.view.down) }
        ensures durable { seat.new.view.durable ≡ locked.old.seat.view.durable }
    {
        let count = locked.book.settled();
        self.words
            .catch_up_durable::<Brand, R>(rt, seat, &mut locked.seat, count);
    }

    // After this call the seat knows whether the node is down, and the book is down exactly if the seat knows that the node is.
    pub(crate) fn know_down(&self, locked: &mut Locked<'a, S>, seat: &mut Seat)
        requires home { IsAtHome S.scheme self.now locked.old.seat locked.old.book }
        requires of { IsOf self.now seat.old }
        ensures home { IsAtHome S.scheme self.now locked.new.seat locked.new.book }
        ensures book { locked.new.book ≡ record locked.old.book { down = seat.new.view.down } }
        ensures stays_locked { Stays locked.old.seat locked.new.seat }
        ensures stays { Stays seat.old seat.new }
    {
        self.words.inform(&mut locked.seat, seat);
        if self.words.read_down(seat) {
            self.words.inform(seat, &mut locked.seat);
            locked.book.fail();
        }
    }

    /// Takes out the next output that may leave, if there is one. An event put it out, and it may be given out after the settled events,
    /// all of which the seat then knows as settled. None where the node is down, which the seat then knows.
    pub fn collect<R: Wait>(&self, rt: &R, seat: &mut Seat) -> Option<Output>
        requires of { IsOf self.now seat.old }
        ensures learned { Learned S.scheme self.now seat.old seat.new }
        ensures down { IsTrue seat.new.view.down → IsNone result }
        ensures gives { IfSome result (λ output. Gives S.scheme self.now seat.new output) }
    {
        let (turn, mut home) = self.lock.acquire(rt);
        let locked = &mut *home;
        let output = self.give(rt, locked, seat);
        self.lock.release(turn, home);
        output
    }

    /// Moves the outputs that may leave to the end of `outputs`, oldest first, as many as that has room for, in one hold of the lock.
    /// Events put them out, and they may be given out after the settled events, all of which the seat then knows as settled. Moves nothing
    /// where the node is down, which the seat then knows. The call allocates no memory.
    pub fn collect_into<R: Wait>(&self, rt: &R, seat: &mut Seat, outputs: &mut VecDeque<Output>)
        requires of { IsOf self.now seat.old }
        ensures learned { Learned S.scheme self.now seat.old seat.new }
        ensures down { IsTrue seat.new.view.down → outputs.new.items ≡ outputs.old.items }
        ensures capacity { deque_capacity outputs.new ≡ deque_capacity outputs.old }
        ensures gives { GivesAll S.scheme self.now seat.new outputs.old.items outputs.new.items }
    {
        let (turn, mut home) = self.lock.acquire(rt);
        let locked = &mut *home;
        self.give_into(rt, locked, seat, outputs);
        self.lock.release(turn, home);
    }

    // Takes out the next output that may be given out. The caller holds the lock.
    fn give<R: Wait>(&self, rt: &R, locked: &mut Locked<'a, S>, seat: &mut Seat) -> Option<Output>
        requires home { IsAtHome S.scheme self.now locked.old.seat locked.old.book }
        requires of { IsOf self.now seat.old }
        ensures home { IsAtHome S.scheme self.now locked.new.seat locked.new.book }
        ensures learned { Learned S.scheme self.now seat.old seat.new }
        ensures down { IsTrue seat.new.view.down → IsNone result }
        ensures gives { IfSome result (λ output. Gives S.scheme self.now seat.new output) }
        // This is the next output of the book, and leaves it. If the node is down there is none.
        ensures next { result ≡ releasable (record locked.old.book { down = seat.new.view.down }) }
        ensures queue { locked.new.book.queue ≡ (if is_some result then drop 1 locked.old.book.queue else locked.old.book.queue) }
    {
        self.know_all(rt, locked, seat);
        self.know_down(locked, seat);
        locked.book.release()
    }

    // Moves the outputs that may be given out to the end of `outputs`, as many as that has room for. The caller holds the lock.
    fn give_into<R: Wait>(
        &self,
        rt: &R,
        locked: &mut Locked<'a, S>,
        seat: &mut Seat,
        outputs: &mut VecDeque<Output>,
    )
        requires home { IsAtHome S.scheme self.now locked.old.seat locked.old.book }
        requires of { IsOf self.now seat.old }
        ensures home { IsAtHome S.scheme self.now locked.new.seat locked.new.book }
        ensures learned { Learned S.scheme self.now seat.old seat.new }
        ensures down { IsTrue seat.new.view.down → outputs.new.items ≡ outputs.old.items }
        ensures capacity { deque_capacity outputs.new ≡ deque_capacity outputs.old }
        ensures gives { GivesAll S.scheme self.now seat.new outputs.old.items outputs.new.items }
        // These are the next outputs of the book, and leave it. If the node is down there is none.
        ensures next { let room = deque_capacity outputs.old - deque_len outputs.old in
            outputs.new.items ≡ outputs.old.items ++ releasable_within room (record locked.old.book { down = seat.new.view.down }) }
        ensures queue { let room = deque_capacity outputs.old - deque_len outputs.old in
            locked.new.book.queue ≡ drop (length (releasable_within room (record locked.old.book { down = seat.new.view.down }))) locked.old.book.queue }
        // If the deque isn't full afterwards, no output is left in the book that may leave.
        ensures all { deque_len outputs.new < deque_capacity outputs.new → releasable locked.new.book ≡ None }
    {
        self.know_all(rt, locked, seat);
        self.know_down(locked, seat);
        locked.book.release_into(outputs);
    }

    /// The order after the settled events, from this place on: the digests of the ordered certificates. The seat then knows these events as
    /// settled. The list is empty where the place is past the order's end.
    ///
    /// # Errors
    /// `Down` where the node is down, which the seat then knows; `Memory` where an allocation failed.
    pub fn order<R: Wait>(&self, rt: &R, seat: &mut Seat, from: u64) -> Result<Vec<Digest>, Refusal>
        requires of { IsOf self.now seat.old }
        ensures learned { Learned S.scheme self.now seat.old seat.new }
        ensures down { IsErrOf result Refusal.Down ↔ IsTrue seat.new.view.down }
        ensures order { let node = node_of S.scheme self.now.setting in IfOk result (λ digests. (base : State) → IsBase S.scheme self.now base
            → digests.items ≡ drop from (durable_in node base seat.new).order) }
        ensures errors { IfErr result (λ refusal. (refusal ≡ Refusal.Down) ⊎ (refusal ≡ Refusal.Memory)) }
    {
        let (turn, mut home) = self.lock.acquire(rt);
        let locked = &mut *home;
        self.know_all(rt, locked, seat);
        self.know_down(locked, seat);
        let order = locked.book.order(from);
        self.lock.release(turn, home);
        order
    }

    /// The digest of the header that the node voted for in a slot, after all accepted events. The seat has then seen these. None where the
    /// node has not voted in the slot, or its round is low.
    pub fn peek_voted<R: Wait>(
        &self,
        rt: &R,
        seat: &mut Seat,
        author: Author,
        round: Round,
    ) -> Option<Digest>
        requires of { IsOf self.now seat.old }
        ensures looked { Looked S.scheme self.now seat.old seat.new }
        ensures voted { (base : State) → IsBase S.scheme self.now base → result ≡ (seen_in (node_of S.scheme self.now.setting) base seat.new).votes round author.0 }
    {
        let (turn, mut home) = self.lock.acquire(rt);
        let locked = &mut *home;
        self.see_all(rt, locked, seat);
        let voted = locked.book.validator().voted(author, round);
        self.lock.release(turn, home);
        voted
    }

    /// The validator's round after all accepted events. The seat has then seen these.
    pub fn round_now<R: Wait>(&self, rt: &R, seat: &mut Seat) -> u64
        requires of { IsOf self.now seat.old }
        ensures looked { Looked S.scheme self.now seat.old seat.new }
        ensures round { let node = node_of S.scheme self.now.setting in (base : State) → IsBase S.scheme self.now base → result ≡ round_in node (seen_in node base seat.new) }
    {
        let (turn, mut home) = self.lock.acquire(rt);
        let locked = &mut *home;
        self.see_all(rt, locked, seat);
        let round = locked.book.round_now();
        self.lock.release(turn, home);
        round
    }

    /// Whether an event that passed the checks is ready after all accepted events: its answer isn't that a parent is missing. The seat has
    /// then seen the accepted events.
    pub fn ready<R: Wait>(&self, rt: &R, seat: &mut Seat, event: &Checked) -> bool
        requires of { IsOf self.now seat.old }
        requires passed { fault_of self.now.setting.charter accepts_all event.now ≡ None }
        ensures looked { Looked S.scheme self.now seat.old seat.new }
        ensures ready { let node = node_of S.scheme self.now.setting in (base : State) → IsBase S.scheme self.now base → result ≡ is_ready node (seen_in node base seat.new) event.now }
    {
        let (turn, mut home) = self.lock.acquire(rt);
        let locked = &mut *home;
        self.see_all(rt, locked, seat);
        let ready = locked.book.validator().ready(event);
        self.lock.release(turn, home);
        ready
    }

    /// The header that the validator proposes after all accepted events, or None where it proposes none. The seat has then seen these
    /// events. On `AllocError` an allocation failed.
    pub fn propose<R: Wait>(&self, rt: &R, seat: &mut Seat) -> Result<Option<Header>, AllocError>
        requires of { IsOf self.now seat.old }
        ensures looked { Looked S.scheme self.now seat.old seat.new }
        ensures header { let node = node_of S.scheme self.now.setting in IfOk result (λ found. (base : State) → IsBase S.scheme self.now base
            → found ≡ proposed node (seen_in node base seat.new)) }
    {
        let (turn, mut home) = self.lock.acquire(rt);
        let locked = &mut *home;
        self.see_all(rt, locked, seat);
        let header = locked.book.validator().propose();
        self.lock.release(turn, home);
        header
    }
}
