//! Measured work of a validator that takes events.

use crate::ending::Ending;
use crate::events::{Events, Front, digest_in};
use crate::fold::Fold;
use crate::task::{Step, Task};
use committee::Committee;
use sigface::HashSign;
use validator::{Config, Validator};
use wire::Message;

/// After this many rounds without a coin a new validator takes the place of the old one. A certificate costs more the longer the last
/// commit lies back, and a real node has few rounds since then.
const FEW: u64 = 8;

/// Gives a validator the events that are measured, and those that come between them. The preparation alone checks the measured events.
pub fn take_all(
    task: Task,
    config: &Config<HashSign>,
    step: Step,
    fold: &mut Fold,
) -> Result<(), Ending> {
    let mut left = pieces_of(task, config.committee(), step)?;
    for _ in 0..u64::MAX {
        if left == 0 {
            break;
        }
        left = take_some(task, config, step, left, fold)?;
    }
    Ok(())
}

// Gives events to a new validator until this many measured events are done, or a newer validator has to be made. Returns how many
// measured events are left.
fn take_some(
    task: Task,
    config: &Config<HashSign>,
    step: Step,
    mut left: u64,
    fold: &mut Fold,
) -> Result<u64, Ending> {
    let mut validator = Validator::new(task.alloc, config)?;
    let mut events = events_of(task, config.committee(), step)?;
    for _ in 0..u64::MAX {
        if left == 0 || step.is_over(&events) {
            break;
        }
        if take_next(task, &mut validator, &mut events, step, fold)? {
            left -= 1;
        }
    }
    Ok(left)
}

// Gives the validator the next event. Returns whether it is one that is measured.
fn take_next(
    task: Task,
    validator: &mut Validator<'_, HashSign>,
    events: &mut Events,
    step: Step,
    fold: &mut Fold,
) -> Result<bool, Ending> {
    let event = events.tested(validator.committee())?;
    let is_piece = step.counts(event.message());
    // Work of a book adds no digests to its checksum, and this one has to be comparable with it.
    if !matches!(step, Step::Event) {
        fold.add_bytes(&digest_in(&event).0);
    }
    if task.is_work || !is_piece {
        fold.add_step(&validator.step(event)?);
    }
    Ok(is_piece)
}

/// Gives a validator the same vote over and over, on an own header that has its certificate already. The preparation alone checks the vote.
pub fn repeat_vote(task: Task, config: &Config<HashSign>, fold: &mut Fold) -> Result<(), Ending> {
    let mut validator = Validator::new(task.alloc, config)?;
    let mut events = events_of(task, config.committee(), Step::Vote)?;
    let first = Task {
        is_work: true,
        ..task
    };
    for _ in 0..events.front_len {
        take_next(first, &mut validator, &mut events, Step::Vote, fold)?;
    }
    vote_late(task, &mut validator, &events, fold)
}

// Gives the validator the last member's vote on the own header, which has its certificate by then, `count` times.
fn vote_late(
    task: Task,
    validator: &mut Validator<'_, HashSign>,
    events: &Events,
    fold: &mut Fold,
) -> Result<(), Ending> {
    for _ in 0..task.count {
        let event = events.late_vote(validator.committee())?;
        fold.add_bytes(&digest_in(&event).0);
        if task.is_work {
            fold.add_step(&validator.step(event)?);
        }
    }
    Ok(())
}

/// The source of events for a kind of work of a validator.
pub fn events_of(task: Task, committee: &Committee, step: Step) -> Result<Events, Ending> {
    let (front, has_coins) = match step {
        Step::Header | Step::Event => (Front::Headers, true),
        Step::Vote => (Front::Votes, false),
        Step::Certificate => (Front::Nothing, false),
        Step::Batch => (Front::Batches(task.size), false),
        Step::Round => (Front::Nothing, true),
        Step::All => (Front::All, true),
    };
    Events::new(task.alloc, committee, front, has_coins)
}

// How many measured events a task has: those of its kind, or all events of `count` rounds.
fn pieces_of(task: Task, committee: &Committee, step: Step) -> Result<u64, Ending> {
    match step {
        Step::Round | Step::All => Ok(events_of(task, committee, step)?.in_rounds(task.count)),
        _ => Ok(task.count),
    }
}

impl Step {
    // Whether a benchmark of this kind counts and times a message of this kind.
    fn counts(self, message: &Message) -> bool {
        match (self, message) {
            (Step::Header, Message::Header(_)) => true,
            (Step::Vote, Message::Vote(_)) => true,
            (Step::Certificate, Message::Certificate(_)) => true,
            (Step::Batch | Step::Round | Step::All | Step::Event, _) => true,
            _ => false,
        }
    }

    // Whether a new validator has to take the place of the current one.
    fn is_over(self, events: &Events) -> bool {
        matches!(self, Step::Vote | Step::Certificate) && events.are_over(FEW)
    }
}
