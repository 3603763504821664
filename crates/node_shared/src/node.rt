//! The node that threads share.

ghost use Rattle.std.specs.Prelude.{◌≡◌, true, false, IsOk, IfOk};
ghost use Rattle.validator.specs.Setting.{node_of};
ghost use Rattle.validator.specs.Standing.{StandSomewhere};
ghost use Rattle.node_shared.specs.Calls.{HasNothing, IsBeside};
ghost use Rattle.node_shared.specs.Home.{IsOf, IsFlushOf};

use crate::flush_seat::FlushSeat;
use crate::home::{AtHome, Counts, Locked};
use book::Book;
use node_lock::Lock;
use node_seats::{Seat, Words};
use sigface::Sign;
use std::alloc::{AllocError, Global};
use std::marker::Model;
use validator::Validator;

/// A node that threads share: a book under a lock, and the words, which are three atomic integers. They say how many events were accepted,
/// how many are settled, and whether the node is down.
pub struct Node<'a, S: Sign> {
    pub(crate) words: Counts<'a, S>,
    pub(crate) lock: Lock<Box<Locked<'a, S>>, Counts<'a, S>, AtHome>,
}

impl<'a, S: Sign> Drop for Node<'a, S> {
    fn drop(self) {
        let Node { words: _, lock: _ } = self;
    }
}

impl<'a, S: Sign> Model for Node<'a, S> {
    ghost use Rattle.std.specs.Prelude.{◌≡◌};
    ghost use Rattle.std.specs.Coded.{codes};
    ghost use Rattle.votebook.specs.contracts.book.VoteBook as votes;
    ghost use Rattle.validator.specs.Setting.{node_of};
    ghost use Rattle.validator.specs.Standing.{StandSomewhere};
    ghost use Rattle.node_shared.specs.Home.{NodeView};

    ghost Value = { NodeView S };

    ghost coded = { Prim.hlevel (codes, S.code, votes.the_row.coded) };

    ghost view = { λ n. record { table = n.words.table; setting = n.words.key.setting; begun = n.words.key.tables } };

    ghost invariant = { λ n. (n.lock.key ≡ n.words) × StandSomewhere (node_of S.scheme n.words.key.setting) n.words.key.tables };
}

impl<'a, S: Sign> Node<'a, S> {
    /// Makes a node over this validator, with one seat for calls and the flusher's seat. Contracts keep the tables that the validator has
    /// at this call, and so know the state at which the node begins. On `AllocError` an allocation failed.
    pub fn new(
        alloc: Global,
        validator: Validator<'a, S>,
    ) -> Result<(Node<'a, S>, Seat, FlushSeat), AllocError>
        ensures setting { IfOk result (λ made. made.0.setting ≡ validator.entry.setting) }
        ensures begun { IfOk result (λ made. made.0.begun ≡ validator.entry.tables) }
        ensures seat { IfOk result (λ made. IsOf made.0 made.1) }
        ensures nothing { IfOk result (λ made. HasNothing made.1) }
        ensures flush_seat { IfOk result (λ made. IsFlushOf made.0 made.2) }
        ensures flush_nothing { IfOk result (λ made. HasNothing made.2.seat × (made.2.taken ≡ 0)) }
        ensures flush_idle { IfOk result (λ made. made.2.rewriting ≡ false) }
        // Only the flush seat may take the node down.
        ensures right { IfOk result (λ made. (made.2.seat.view.may_fail ≡ true) × (made.1.view.may_fail ≡ false)) }
    {
        validator.limits_hold();
        // The first seat that is made becomes the flush seat, since it alone may take the node down.
        let (words, mut flush) = Words::new(alloc, &validator)?;
        let own = words.split(&mut flush);
        let seat = words.split(&mut flush);
        let book = Book::new(alloc, validator);
        let locked = Box::new(alloc, Locked { book, seat: own })?;
        let lock = Lock::new(alloc, locked, &words)?;
        let flush_seat = FlushSeat {
            seat: flush,
            settled: 0,
            taken: 0,
            rewriting: false,
        };
        Ok((Node { words, lock }, seat, flush_seat))
    }

    /// What holds of every node: there is a sound state that its validator held when the node was made. The call does nothing.
    pub fn limits_hold(&self)
        ensures { StandSomewhere (node_of S.scheme self.now.setting) self.now.begun }
    {
        let _ = &self.words;
    }

    /// Makes one more seat. It has seen what this seat has, has brought no event, and can't take the node down. The call allocates no
    /// memory.
    pub fn split(&self, seat: &mut Seat) -> Result<Seat, AllocError>
        requires of { IsOf self.now seat.old }
        ensures ok { IsOk result }
        ensures same { seat.new ≡ seat.old }
        ensures other { IfOk result (λ other. IsBeside self.now seat.old other) }
    {
        Ok(self.words.split(seat))
    }
}
