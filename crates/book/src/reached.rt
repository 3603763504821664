//! How long the order is after each number of accepted records.

ghost use Rattle.std.specs.Prelude.{◌≡◌, ◌≢◌, ◌<◌, ◌≤◌, ◌++◌, ◌∷◌, [], All, ℕ};
ghost use Rattle.std.specs.VecDeque.{deque_len, deque_capacity};
ghost use Rattle.book.specs.Queue.{length_at};

use std::collections::VecDeque;

/// The order has this length after as many records as this ticket says, up to the ticket of the next entry.
#[derive(Clone, Copy, PartialEq, Eq)]
pub struct Reached {
    pub ticket: u64,
    pub length: u64,
}

/// Adds an entry at the end, which has room for it, if the length of the order has changed: from this ticket on it is `length`.
pub(crate) fn note_order(reached: &mut VecDeque<Reached>, ticket: u64, before: usize, length: usize)
    requires room { deque_len reached.old < deque_capacity reached.old }
    ensures same { length ≡ before → reached.new.items ≡ reached.old.items }
    ensures other { length ≢ before → reached.new.items ≡ reached.old.items ++ record { ticket = ticket; length = length } ∷ [] }
{
    if length != before {
        reached.push_back_reserved(Reached {
            ticket,
            length: length as u64,
        });
    }
}

/// Removes the entries whose tickets are at most `count`, and gives the length of the order after `count` records. `first` is the length
/// before the first entry.
pub(crate) fn leave_to(reached: &mut VecDeque<Reached>, count: u64, first: u64) -> u64
    ensures length { result ≡ length_at count first reached.old.items }
    ensures later { (later : ℕ) → count ≤ later → length_at later result reached.new.items ≡ length_at later first reached.old.items }
    ensures tickets { (limit : ℕ) → All (λ r. r.ticket ≤ limit) reached.old.items → All (λ r. r.ticket ≤ limit) reached.new.items }
{
    let mut length = first;
    while let Some(next) = reached.front().copied()
        && next.ticket <= count
    {
        length = next.length;
        reached.pop_front();
    }
    length
}
