//! Measured work on checkpoints: writing one, and loading its records.

use crate::ending::Ending;
use crate::fold::Fold;
use crate::stepping::events_of;
use crate::storing::empty_disk;
use crate::task::{Step, Task};
use opening::reopen_pair;
use sigface::HashSign;
use validator::{Config, Validator};

/// Writes a checkpoint of a validator that holds `size` batches to a journal on two disks. The preparation alone makes the validator and
/// an empty journal.
pub fn write_checkpoint(
    task: Task,
    config: &Config<HashSign>,
    fold: &mut Fold,
) -> Result<(), Ending> {
    let (first, second) = (empty_disk(task.alloc)?, empty_disk(task.alloc)?);
    let (mut validator, mut journal) = reopen_pair(task.alloc, config, first, second)?;
    hold_batches(task, &mut validator)?;
    if task.is_work {
        fold.add(journal.rewrite(validator.snapshot()?)?.records());
        let (_, written) = journal.into_disks();
        fold.add_bytes(written.bytes());
    }
    Ok(())
}

/// Loads a validator from the records of a checkpoint that has `size` batches. The preparation alone makes the records.
pub fn load_checkpoint(
    task: Task,
    config: &Config<HashSign>,
    fold: &mut Fold,
) -> Result<(), Ending> {
    let records = records_of(task, config)?;
    for record in &records {
        fold.add_bytes(record);
    }
    if task.is_work {
        let loaded = Validator::load(task.alloc, config, records)?;
        // The loaded validator has the first batch already.
        let event = events_of(task, config.committee(), Step::Batch)?.tested(config.committee())?;
        fold.add(u64::from(loaded.is_new(&event)));
    }
    Ok(())
}

fn records_of(task: Task, config: &Config<HashSign>) -> Result<Vec<Vec<u8>>, Ending> {
    let mut validator = Validator::new(task.alloc, config)?;
    hold_batches(task, &mut validator)?;
    Ok(validator.kept_records()?)
}

// Gives a validator this many batches of another member.
fn hold_batches(task: Task, validator: &mut Validator<'_, HashSign>) -> Result<(), Ending> {
    let mut events = events_of(task, validator.committee(), Step::Batch)?;
    for _ in 0..task.count {
        let event = events.tested(validator.committee())?;
        validator.step(event)?;
    }
    Ok(())
}
