//! Signatures as the other crates see them; an insecure signer and verifier for tests; and the seed of a node's hash tables, which is made
//! from a signature.
#![tactic(auto)]

mod pair;
mod seed;
mod signature;

pub use pair::{HashSign, HashVerify, pair_is_tied};
pub use seed::TableSeed;
pub use signature::{Sign, Verify};
