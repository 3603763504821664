//! Which certificates the committed leaders order.
#![tactic(auto)]

mod digests;
mod facts;
mod lengthening;
mod orders;
mod segments;
mod sets;
mod walks;

pub use facts::{each_follows, made_stays};
pub use lengthening::{Lengthening, mark};
pub use segments::{segment, segment_counted};
