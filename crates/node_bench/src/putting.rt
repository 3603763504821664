//! Measured work on a store of batches.

use crate::ending::Ending;
use crate::fold::Fold;
use crate::messages::{PEER, small_batch};
use crate::task::Task;
use batchstore::{BatchStore, Put, StoreRefusal};
use sigface::{HashSign, TableSeed};
use std::alloc::Global;
use validator::Config;
use wire::Batch;

/// After a store has grown by a tenth of its size, a new one of that size takes its place, so that the size stays nearly the same.
const PART: u64 = 10;

/// Puts batches into a store that holds `size` batches, or up to a tenth more. The preparation alone fills stores to that size, and makes
/// the batches that would be put.
pub fn put_batches(task: Task, config: &Config<HashSign>, fold: &mut Fold) -> Result<(), Ending> {
    let mut left = task.count;
    let most = (task.size / PART).max(1);
    for _ in 0..u64::MAX {
        if left == 0 {
            break;
        }
        let count = left.min(most);
        put_some(task, config, count, fold)?;
        left -= count;
    }
    Ok(())
}

// Makes a new store, fills it with as many batches as the size says, and then puts this many more, which is what is measured.
fn put_some(
    task: Task,
    config: &Config<HashSign>,
    count: u64,
    fold: &mut Fold,
) -> Result<(), Ending> {
    config.limits_hold();
    let seed = TableSeed::of(config.signer());
    let mut store = BatchStore::new(task.alloc, config.committee(), config.own(), seed);
    put_all(&mut store, made(task.alloc, 0, task.size)?)?;
    let more = made(task.alloc, task.size, count)?;
    for batch in &more {
        fold.add_bytes(batch.body());
    }
    if task.is_work {
        put_all(&mut store, more)?;
    }
    Ok(())
}

// Makes `count` small batches, whose numbers begin with `first`.
fn made(alloc: Global, first: u64, count: u64) -> Result<Vec<Batch>, Ending> {
    let mut batches = Vec::new(alloc);
    for number in 0..count {
        batches.push(small_batch(alloc, PEER, first.saturating_add(number))?)?;
    }
    Ok(batches)
}

fn put_all(store: &mut BatchStore<'_>, batches: Vec<Batch>) -> Result<(), Ending> {
    for batch in batches {
        match store.put(batch) {
            Ok(Put::New) => (),
            Err(StoreRefusal::Memory) => return Err(Ending::Memory),
            _ => return Err(Ending::Refused),
        }
    }
    Ok(())
}
