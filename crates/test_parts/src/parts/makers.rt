//! Tests of the maker of batches.

use crate::parts::words::{Reported, author_of, list, show};
use batchmaker::BatchMaker;
use std::alloc::Global;
use wire::Batch;

/// A maker of batches for the author and the worker with these numbers.
pub fn make(alloc: Global, author: u64, worker: u64, maker: &mut Option<BatchMaker>) -> Reported {
    *maker = Some(BatchMaker::new(alloc, author_of(author), author_of(worker).0)?);
    Ok(())
}

/// Pushes a transaction to the maker. Shows the batch that the maker returns, if it does, or why it refuses the transaction.
pub fn push(maker: &mut Option<BatchMaker>, transaction: &[u8], answer: &mut String) -> Reported {
    match maker {
        Some(maker) => match maker.push(transaction) {
            Ok(given) => report(given, answer),
            Err(error) => writeln!(answer, "{error}"),
        },
        None => answer.push_str("no maker\n"),
    }
}

/// Seals the maker's open batch, and shows it.
pub fn seal(maker: &mut Option<BatchMaker>, answer: &mut String) -> Reported {
    match maker {
        Some(maker) => report(maker.seal()?, answer),
        None => answer.push_str("no maker\n"),
    }
}

fn report(given: Option<Batch>, answer: &mut String) -> Reported {
    let Some(batch) = given else {
        return answer.push_str("none\n");
    };
    let (author, worker, len) = (batch.author().0, batch.worker(), batch.len());
    list("batch", &[author as u64, worker as u64, len as u64], answer)?;
    show(batch.body(), answer)
}
