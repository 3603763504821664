//! What the members of one committee agree on, whatever messages each of them got and when. Each law is the contract of an empty function.
#![tactic(auto)]

mod members;

ghost use Rattle.spec_accord.specs.Accord.{OrdersAgree};

pub use members::{headers_agree, headers_agree_ever, members_agree};

/// Take two legal histories of nodes of one committee. If their certificates of one author and round have the same header, and their coins
/// are equal as far as both have them, then one of their orders is a prefix of the other.
pub fn orders_agree()
    ensures { OrdersAgree }
{}
