//! Certificates that wait for their parents, each once, in the order in which they came.
#![tactic(auto)]

mod refusal;
mod waiter;
mod waiters;

pub use refusal::WaitRefusal;
pub use waiter::{MAX_WAITING, Waiter, limits_in_numbers};
pub use waiters::Waiters;
