//! A desk: the state of a script's node between two commands.

ghost use Rattle.std.specs.Prelude.{◌≤◌, vec_len};

use header::Event;
use ref_machine::Tables;
use std::marker::Model;
use wire::Output;

/// An output that waits until as many events of its run are settled as the ticket says.
#[derive(Drop)]
pub struct Waiting {
    pub ticket: usize,
    pub output: Output,
}

impl Model for Waiting {
    ghost use Rattle.spec_world.specs.World as world;

    ghost Value = { world.Waiting };

    ghost view = { λ w. record { ticket = w.ticket; output = w.output } };
}

/// The state of a script's node between two commands.
#[derive(Drop)]
pub struct Desk {
    /// The tables of the state with which this run began.
    pub base: Tables,
    /// The events that the run accepted.
    pub accepted: Vec<Event>,
    /// How many of the accepted events, from the first on, are settled.
    pub settled: usize,
    /// The outputs that wait, oldest first.
    pub waiting: Vec<Waiting>,
    ghost within: { settled ≤ vec_len accepted },
}
