//! The store of the batches that a validator holds, in the order of acceptance: each with the members who acknowledged it, and whether an
//! own header named it.
#![tactic(auto)]

mod answers;
mod held;
mod laws;
mod refusal;
mod store;
mod table;

pub use answers::{Acked, Put};
pub use held::Held;
pub use laws::{acknowledgements_add_up, nobody_acknowledged};
pub use refusal::StoreRefusal;
pub use store::BatchStore;
