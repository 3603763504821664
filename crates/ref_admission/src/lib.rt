//! A reference implementation, plain and slow, of what a node answers, puts out, proposes and keeps. It stands on `ref_order`.
#![tactic(auto)]

pub mod admitting;
pub mod arrival;
pub mod giving;
pub mod keeping;
pub mod outputs;
mod parts;
pub mod proposing;
pub mod runs;
