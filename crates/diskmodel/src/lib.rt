//! The model of a disk: a list of bytes, and which bytes a stop of the machine may leave of it.
#![tactic(auto)]

mod call;
mod countdowns;
mod disk;
mod gated;
mod history;
mod memory;
mod refusals;
mod switch;
mod tally;

pub use call::{Call, CallKind, KeptBytes};
pub use disk::{Disk, DiskFault, StopDisk};
pub use gated::{Gate, GatedDisk};
pub use memory::MemDisk;
pub use switch::{MAX_SWITCHED, Switch, Told, TooManyTold};
