//! The votes on one header of a validator's own, collected until they weigh a quorum and make its certificate.
#![tactic(auto)]

mod added;
mod assembly;
mod certificate;
mod laws;

pub use added::Added;
pub use assembly::Assembly;
pub use laws::{voters_have_places, votes_rise, votes_weigh};
