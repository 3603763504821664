//! A lock for many threads. A contract ties the value in it to the key with which the lock was made.
#![tactic(auto)]

mod guard;
mod rule;
mod turn;

pub use guard::Lock;
pub use rule::Fits;
pub use turn::Turn;
