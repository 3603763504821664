//! The commands of `narwhal-journal`, which report on a journal. Its two files are read and never written.
#![tactic(auto)]

mod drawing;
mod ending;
mod files;
mod kept_rows;
mod listing;
mod reporting;
mod request;
mod running;

pub use running::run;
