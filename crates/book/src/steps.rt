//! Laws: what a book does is a step of the world, the model of a node over all its runs. Each function does nothing: its contract is the
//! law.

ghost use Rattle.book.specs.Steps.{AcceptIsAStep, TakeIsAStep, SettleIsAStep, ReleaseIsAStep, ReleasesAreSteps, FlushIsSteps, FailIsAStep, TakeAllIsAStep, CheckpointIsSteps};

use sigface::Sign;

/// When a book accepts an event, new or known, the book's world accepts it.
pub fn accept_is_a_step<S: Sign>()
    ensures { AcceptIsAStep S }
{}

/// When a book takes a group, the book's world takes it. It is then the last group in flight, even if an earlier one isn't settled yet.
pub fn take_is_a_step<S: Sign>()
    ensures { TakeIsAStep S }
{}

/// When a book settles a group or a rewriting that is durable and the first in flight, the book's world settles it.
pub fn settle_is_a_step<S: Sign>()
    ensures { SettleIsAStep S }
{}

/// When a book releases an output, it goes out in the book's world.
pub fn release_is_a_step<S: Sign>()
    ensures { ReleaseIsAStep S }
{}

/// When a book releases the outputs that may leave together, each of them goes out in the book's world, one after the other.
pub fn releases_are_steps<S: Sign>()
    ensures { ReleasesAreSteps S }
{}

/// When `OwnBook::flush` settles a group and no other group is in flight, the book's world takes that group, makes its four device calls
/// and settles it.
pub fn flush_is_steps<S: Sign>()
    ensures { FlushIsSteps S }
{}

/// When `OwnBook::flush` takes the book down, the book's world takes the group, which stays in flight.
pub fn fail_is_a_step<S: Sign>()
    ensures { FailIsAStep S }
{}

/// When a book takes all accepted records for a checkpoint, the book's world does so too. This holds also if the book goes down before the
/// rewriting is settled.
pub fn take_all_is_a_step<S: Sign>()
    ensures { TakeAllIsAStep S }
{}

/// When `OwnBook::checkpoint` settles all accepted records and no group is in flight, the book's world takes them all, makes the eight
/// device calls of a rewriting and settles it.
pub fn checkpoint_is_steps<S: Sign>()
    ensures { CheckpointIsSteps S }
{
    spec_world::snapshots_are_checkpoints();
}
