//! How a shared node accepts events.

ghost use Rattle.std.specs.Prelude.{◌≡◌, ◌↔◌, None, IsTrue, IsErrOf};
ghost use Rattle.header.specs.Checks.{fault_of, accepts_all};
ghost use Rattle.node_shared.specs.Home.{IsOf, IsAtHome};
ghost use Rattle.node_shared.specs.Answers.{Submits};
ghost use Rattle.node_shared.specs.Calls.{Brought};

use crate::home::Locked;
use crate::node::Node;
use book::{Receipt, Refusal};
use header::Checked;
use node_seats::{Anything, Call, Seat};
use sigface::Sign;
use std::marker::Brand;
use std::sync::Wait;

impl<'a, S: Sign> Node<'a, S> {
    /// Submits an event that passed the checks; it is answered after all accepted events. The seat has then seen all of these. A new event
    /// becomes one that this seat brought. The error is Down exactly if the seat then knows that the node is down.
    pub fn submit<R: Wait>(
        &self,
        rt: &R,
        seat: &mut Seat,
        event: Checked,
    ) -> Result<Receipt, Refusal>
        requires of { IsOf self.now seat.old }
        requires passed { fault_of self.now.setting.charter accepts_all event ≡ None }
        ensures brought { Brought S.scheme self.now seat.old seat.new }
        ensures submits { Submits S.scheme self.now event seat.old.view seat.new.view result }
        ensures down { IsErrOf result Refusal.Down ↔ IsTrue seat.new.view.down }
    {
        let (turn, mut home) = self.lock.acquire(rt);
        let locked = &mut *home;
        let answer = self.accept::<Brand, R>(rt, locked, seat, event);
        self.lock.release(turn, home);
        answer
    }

    // Accepts or refuses an event. The caller holds the lock.
    fn accept<C: Call, R: Wait>(
        &self,
        rt: &R,
        locked: &mut Locked<'a, S>,
        seat: &mut Seat,
        event: Checked,
    ) -> Result<Receipt, Refusal>
        requires home { IsAtHome S.scheme self.now locked.old.seat locked.old.book }
        requires of { IsOf self.now seat.old }
        requires passed { fault_of self.now.setting.charter accepts_all event ≡ None }
        requires call { C.event ≡ event }
        ensures home { IsAtHome S.scheme self.now locked.new.seat locked.new.book }
        ensures brought { Brought S.scheme self.now seat.old seat.new }
        ensures submits { Submits S.scheme self.now event seat.old.view seat.new.view result }
        ensures down { IsErrOf result Refusal.Down ↔ IsTrue seat.new.view.down }
    {
        self.see_all(rt, locked, seat);
        self.know_down(locked, seat);
        let count = locked.book.accepted();
        let receipt = match locked.book.accept(event) {
            Ok(receipt) => receipt,
            Err(refusal) => return Err(refusal),
        };
        if receipt.new {
            self.words.raise::<C, R>(rt, seat, count);
            self.words
                .catch_up::<Anything, R>(rt, &mut locked.seat, seat, receipt.ticket);
        }
        Ok(receipt)
    }
}
