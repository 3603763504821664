//! Measured work of a validator for which many rounds pass without a commit.

use crate::ending::Ending;
use crate::events::{Events, Front, digest_in};
use crate::fold::Fold;
use crate::rounds::Rounds;
use crate::task::Task;
use header::recheck;
use sigface::HashSign;
use sim_script::OWN;
use validator::{Config, Validator};
use wire::{Author, Coin, Digest, Message, Wave};

/// Two coins in a committee of four. The first chooses the node's own member as leader, which has no certificate here, so it commits
/// nothing. The second chooses another member.
const ABSENT: u64 = 0;

const PRESENT: u64 = 1;

/// Gives certificates to a validator after `size` rounds without a coin. The preparation alone only checks these certificates.
pub fn take_after(task: Task, config: &Config<HashSign>, fold: &mut Fold) -> Result<(), Ending> {
    let mut validator = Validator::new(task.alloc, config)?;
    let mut events = Events::new(task.alloc, config.committee(), Front::Nothing, false)?;
    let first = task.size.saturating_mul(u64::from(task.members));
    take_some(&mut validator, &mut events, first, true, fold)?;
    take_some(&mut validator, &mut events, task.count, task.is_work, fold)
}

fn take_some(
    validator: &mut Validator<'_, HashSign>,
    events: &mut Events,
    count: u64,
    is_work: bool,
    fold: &mut Fold,
) -> Result<(), Ending> {
    for _ in 0..count {
        let event = events.tested(validator.committee())?;
        fold.add_bytes(&digest_in(&event).0);
        if is_work {
            fold.add_step(&validator.step(event)?);
        }
    }
    Ok(())
}

/// Gives a coin to a validator after `size` rounds in which nothing was committed, since each wave's leader was absent. This coin commits.
/// Each coin gets a new validator. The preparation alone leaves the coin out.
pub fn commit_late(task: Task, config: &Config<HashSign>, fold: &mut Fold) -> Result<(), Ending> {
    for _ in 0..task.count {
        commit_once(task, config, fold)?;
    }
    Ok(())
}

fn commit_once(task: Task, config: &Config<HashSign>, fold: &mut Fold) -> Result<(), Ending> {
    let mut validator = Validator::new(task.alloc, config)?;
    let mut rounds = Rounds::new(task.alloc, config.committee(), false)?;
    let mut last = None;
    for _ in 0..task.size {
        take_round(&mut validator, &mut rounds, fold)?;
        if let Some(coin) = rounds.coin()? {
            if let Some(wave) = last {
                take_coin(&mut validator, wave, ABSENT, fold)?;
            }
            last = Some(coin.wave);
        }
    }
    match last {
        Some(wave) if task.is_work => take_coin(&mut validator, wave, PRESENT, fold),
        _ => Ok(()),
    }
}

// Gives a validator the certificates of a round, except the one of its own member.
fn take_round(
    validator: &mut Validator<'_, HashSign>,
    rounds: &mut Rounds,
    fold: &mut Fold,
) -> Result<(), Ending> {
    for member in 1..rounds.members {
        let author = Author(member);
        let message = Message::Certificate(rounds.certificate(author)?);
        let digest = take(validator, author, message, fold)?;
        rounds.note(author, digest)?;
    }
    rounds.end();
    Ok(())
}

fn take_coin(
    validator: &mut Validator<'_, HashSign>,
    wave: Wave,
    value: u64,
    fold: &mut Fold,
) -> Result<(), Ending> {
    take(validator, OWN, Message::Coin(Coin { wave, value }), fold)?;
    Ok(())
}

// Gives a validator a message, and returns the event's digest.
fn take(
    validator: &mut Validator<'_, HashSign>,
    sender: Author,
    message: Message,
    fold: &mut Fold,
) -> Result<Digest, Ending> {
    let event = recheck(validator.committee(), sender, message)?;
    let digest = digest_in(&event);
    fold.add_bytes(&digest.0);
    fold.add_step(&validator.step(event)?);
    Ok(digest)
}
