//! Histories of events that a validator takes. After some of the events a further validator is loaded from the records of its checkpoint,
//! and has to answer the next events as the first validator does.

mod answers;
mod counts;
mod history;
mod labelled;
mod loaded;
mod setup;

pub use counts::Counts;
pub use history::History;
pub use setup::Setup;
