//! The reading thread, which reads frames and handles what they bring.

ghost use Rattle.std.specs.Prelude.{◌≡◌, true, Some};
ghost use Rattle.node_io.specs.Endings.{after_input};
ghost use Rattle.node_io.specs.declared.input.End.{End};

use crate::intake::Intake;
use node_io::{Faults, Input};
use sigface::Sign;
use std::io::{BufWriter, Read, Write};
use std::sync::Wait;

/// The work of the reading thread: handles what the frames bring, until they end. The line for a refusal is written before more is read.
/// Gives how the frames ended, and whether an allocation failed outside the handling of an event.
pub(crate) fn read_all<S: Sign, I: Read + Drop, E: Write + Drop, R: Wait>(
    rt: &R,
    input: &mut Input<I>,
    intake: &mut Intake<'_, '_, S>,
    errors: &mut BufWriter<E>,
) -> Faults
    ensures reports { (end : End) × (input.new.end ≡ Some end) × (result ≡ after_input end intake.new.was_refused_memory) }
    ensures mark { intake.old.was_refused_memory ≡ true → intake.new.was_refused_memory ≡ true }
{
    intake.follow(rt, errors);
    for _ in rt.forever() {
        let _ = errors.flush();
        match input.next() {
            Ok(bodies) => take_all(rt, intake, &bodies, errors),
            Err(end) => return Faults::of_input(end, intake.was_refused_memory()),
        }
    }
    unreachable!()
}

fn take_all<S: Sign, E: Write, R: Wait>(
    rt: &R,
    intake: &mut Intake<'_, '_, S>,
    bodies: &[Vec<u8>],
    errors: &mut E,
)
    ensures mark { intake.old.was_refused_memory ≡ true → intake.new.was_refused_memory ≡ true }
{
    for body in bodies {
        intake.take(rt, body, errors);
    }
}
