//! Small functions that return a validator's order, its floor and round, and its votes. The calls in them have long contracts, and each
//! statement beside such a call makes its function more expensive to prove.

use sigface::HashSign;
use validator::Validator;
use wire::{Author, Digest, Round};

/// The order, the floor and the round of a validator.
#[derive(Clone, Copy)]
pub struct Seen<'v> {
    pub order: &'v [Digest],
    pub floor: u64,
    pub round: u64,
}

/// The order, the floor and the round that a validator has now.
pub fn seen_of<'v>(validator: &'v Validator<'_, HashSign>) -> Seen<'v> {
    Seen {
        order: validator.order(),
        floor: validator.floor().number(),
        round: validator.round(),
    }
}

/// The header that a validator voted for in a round and for an author.
pub fn voted_by(validator: &Validator<'_, HashSign>, round: u64, author: u16) -> Option<Digest> {
    let round = Round::new(round).unwrap_or(Round::genesis());
    validator.voted(Author(author), round)
}
