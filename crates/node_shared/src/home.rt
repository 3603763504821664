//! What a shared node keeps under its lock, and the rules of its lock and its words.

use book::Book;
use node_lock::Fits;
use node_seats::{Law, Seat, Words};
use sigface::Sign;
use validator::Validator;

/// The rule of a node's words: the events that they count are legal after each state that the validator held when the node was made.
pub(crate) struct Legal;

impl<'a, S: Sign> Law<Validator<'a, S>> for Legal {
    ghost use Rattle.spec_machine.specs.After.{IsLegalAfter};
    ghost use Rattle.spec_model.specs.States.{State};
    ghost use Rattle.validator.specs.Setting.{node_of};
    ghost use Rattle.validator.specs.Standing.{AreAtSound};

    ghost legal = { λ validator events. (base : State) → AreAtSound (node_of S.scheme validator.setting) validator.tables base → IsLegalAfter (node_of S.scheme validator.setting) base events };
}

pub(crate) type Counts<'a, S> = Words<Validator<'a, S>, Legal>;

/// The book, with its own seat at the node. It is large, so the lock keeps it in a box, and only the box is moved.
#[derive(Drop)]
pub(crate) struct Locked<'a, S: Sign> {
    pub(crate) book: Book<'a, S>,
    pub(crate) seat: Seat,
}

/// The rule of a node's lock: the book under it is at home in the node.
pub(crate) struct AtHome;

impl<'a, S: Sign> Fits<Box<Locked<'a, S>>, Counts<'a, S>> for AtHome {
    ghost use Rattle.validator.specs.Setting.{node_of};
    ghost use Rattle.node_shared.specs.Home.{IsAtHome};

    ghost fits = { λ words locked. IsAtHome S.scheme (record { table = words.table; setting = words.key.setting; begun = words.key.tables }) locked.value.seat locked.value.book };
}
