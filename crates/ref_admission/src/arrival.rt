//! A history, and an event that comes after it.

ghost use Rattle.std.specs.Prelude.{◌≡◌, ◌++◌, ◌∷◌, []};

use header::Event;

/// A history, and an event that comes after it.
#[derive(Clone, Copy)]
pub struct Arrival<'a> {
    /// The history before the event.
    pub history: &'a [Event],
    /// The event that comes.
    pub event: &'a Event,
    /// The history with the event at its end.
    pub events: &'a [Event],
    ghost joined: { events.now ≡ history.now ++ event.now ∷ [] },
}
