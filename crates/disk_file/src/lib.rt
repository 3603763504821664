//! A disk over one file of the operating system.
#![tactic(auto)]

mod disk;
mod error;
mod opening;
mod story;
mod tape;

pub use disk::FileDisk;
pub use error::OpenError;
