//! The kinds of step on the words, and what the seat that makes the step knows afterwards.

use crate::view::View;
use atomic_table::{Join, Play, Split};
use std::marker::{Brand, PhantomData};

/// The event that a step accepts. The proof of each call of `Words::accept` chooses it.
pub trait Call {
    ghost use Rattle.spec_model.specs.Words.{Event};

    ghost event: { Event };
}

/// A property of legal lists of events. The proof of each call that looks or reads chooses it, and learns that what the seat sees has it.
pub trait Judge {
    ghost use Rattle.spec_model.specs.Histories.{History};

    ghost judged: { History → Type 0 };
}

/// The step by which a seat learns its number.
pub struct Numbers;

impl Play<(), View> for Numbers {
    ghost use Rattle.std.specs.Prelude.{◌≡◌, true};
    ghost use Rattle.node_seats.specs.Views.{HasOwn};

    ghost then = { λ step before found later. (later ≡ (record before.0 { numbered = true; number = later.0.number }, before.1)) × HasOwn later.0 };
}

/// The step by which a seat sees all accepted events.
pub struct Looked<J> {
    judge: PhantomData<J>,
}

impl<J: Judge> Play<(), View> for Looked<J> {
    ghost use Rattle.std.specs.Prelude.{◌≡◌};
    ghost use Rattle.node_seats.specs.Plays.{Looks};

    ghost then = { λ step before found later. Looks J.judged before.0 found later.0 × (later.1 ≡ before.1) };
}

/// The step by which a seat learns which events are settled.
pub struct Read<J> {
    judge: PhantomData<J>,
}

impl<J: Judge> Play<(), View> for Read<J> {
    ghost use Rattle.std.specs.Prelude.{◌≡◌};
    ghost use Rattle.node_seats.specs.Plays.{Reads};

    ghost then = { λ step before found later. Reads J.judged before.0 found later.0 × (later.1 ≡ before.1) };
}

/// The step by which a seat learns whether the node is down.
pub struct DownRead;

impl Play<(), View> for DownRead {
    ghost use Rattle.std.specs.Prelude.{◌≡◌};
    ghost use Rattle.node_seats.specs.Plays.{ReadsDown};

    ghost then = { λ step before found later. ReadsDown before.0 found later.0 × (later.1 ≡ before.1) };
}

/// The step that takes the node down.
pub struct Downed;

impl Play<(), View> for Downed {
    ghost use Rattle.std.specs.Prelude.{◌≡◌};
    ghost use Rattle.node_seats.specs.Plays.{with_down};

    ghost then = { λ step before found later. later ≡ (with_down before.0, before.1) };
}

/// The step that accepts an event, unless another event was accepted that the seat hasn't seen.
pub struct Accepted<C> {
    call: PhantomData<C>,
}

impl<C: Call> Play<(), View> for Accepted<C> {
    ghost use Rattle.std.specs.Prelude.{◌≡◌};
    ghost use Rattle.node_seats.specs.Plays.{Accepts};

    ghost then = { λ step before found later. Accepts step.first C.event before.0 found later.0 × (later.1 ≡ before.1) };
}

/// The step that settles events.
pub struct Settled;

impl Play<(), View> for Settled {
    ghost use Rattle.std.specs.Prelude.{◌≡◌};
    ghost use Rattle.node_seats.specs.Plays.{Settles};

    ghost then = { λ step before found later. Settles step.first step.second before.0 found later.0 × (later.1 ≡ before.1) };
}

/// How one seat shares its knowledge with another: a new seat is split off from the first, and then merged into the other.
pub struct Informs;

impl Split<View> for Informs {
    ghost use Rattle.node_seats.specs.Views.{newcomer};

    ghost left = { λ view. view };

    ghost right = { newcomer };
}

impl Join<View> for Informs {
    ghost use Rattle.node_seats.specs.Views.{informed, spent as nothing};

    ghost both = { informed };

    ghost spent = { nothing };
}

impl Call for Brand {
    ghost use Rattle.node_seats.specs.Views.{no_event};

    ghost event = { no_event };
}

impl Judge for Brand {
    ghost judged = { λ events. Unit {0} };
}

/// The property that every list of events has, for calls that need none.
pub struct Anything;

impl Judge for Anything {
    ghost judged = { λ events. Unit {0} };
}
