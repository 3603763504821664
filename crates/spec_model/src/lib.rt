//! The definitions of histories, of the order, of admission, and of what may be given out. None of it runs. Programs that compute these
//! definitions, and laws about them, are in crates that stand on this one; the types of messages are in crates that this one stands on.
#![tactic(auto)]
