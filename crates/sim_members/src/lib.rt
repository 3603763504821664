//! The members of a committee of four that examples and tests run in one process. They sign with the insecure signer of the tests.
#![tactic(auto)]

mod settings;

pub use settings::{MEMBERS, Settings};
