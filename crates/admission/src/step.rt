//! The result for an event that isn't refused.

use wire::Output;

/// The result for an event that isn't refused, with the outputs that are put out for it, in their order.
#[derive(Debug, Drop)]
pub enum Step {
    /// The event is new: it is accepted now.
    New(Vec<Output>),
    /// The event is known: it was accepted before, and changes nothing.
    Known(Vec<Output>),
}
