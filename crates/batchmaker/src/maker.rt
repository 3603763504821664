//! The batch maker of one worker: it gathers transactions into batches.

ghost use Rattle.std.specs.Prelude.{◌≡◌, ◌≢◌, ◌<◌, ◌++◌, [], ◌∷◌, length, IsTrue, IsNone, ◌↔◌, IfOk, IfSome, OnOk, OnErr, IsErrOf};
ghost use Rattle.wire.specs.declared.limits.TheConstants.{MAX_TRANSACTION_BYTES};
ghost use Rattle.wire.specs.Batches.{has_room};
ghost use Rattle.batchmaker.specs.Giving.{given};

use crate::error::MakeError;
use std::alloc::{AllocError, Global};
use std::marker::Model;
use std::mem;
use wire::{Author, Batch, MAX_TRANSACTION_BYTES, OpenBatch};

/// The open batch of an author's worker. Contracts see its author, its worker and its transactions in their order.
#[derive(Debug)]
pub struct BatchMaker {
    alloc: Global,
    author: Author,
    worker: u16,
    batch: OpenBatch,
}

impl Drop for BatchMaker {
    fn drop(self) {
        let BatchMaker {
            alloc: _,
            author: _,
            worker: _,
            batch: _,
        } = self;
    }
}

impl Model for BatchMaker {
    ghost use Rattle.std.specs.Prelude.{◌≡◌};
    ghost use Rattle.wire.specs.Batches.{BatchView};

    ghost Value = { BatchView };

    ghost view = { λ m. m.batch };

    ghost invariant = { λ m. (m.batch.author ≡ m.author) × (m.batch.worker ≡ m.worker) };
}

impl BatchMaker {
    /// A maker whose open batch has no transaction. On `AllocError` an allocation failed.
    pub fn new(alloc: Global, author: Author, worker: u16) -> Result<BatchMaker, AllocError>
        ensures { IfOk result (λ maker. maker ≡ record { author = author; worker = worker; transactions = [] }) }
    {
        Ok(BatchMaker {
            alloc,
            author,
            worker,
            batch: OpenBatch::new(alloc, author, worker)?,
        })
    }

    /// Adds a transaction to the open batch. If that has no room for it, the batch is closed and returned, and the transaction begins the
    /// next one. `TooBig` if the transaction has more than `MAX_TRANSACTION_BYTES`.
    pub fn push(&mut self, transaction: &[u8]) -> Result<Option<Batch>, MakeError>
        ensures too_big { IsErrOf result MakeError.TooBig ↔ (MAX_TRANSACTION_BYTES < length transaction.now) }
        ensures kept { IfOk result (λ full. IsNone full ↔ IsTrue (has_room self.old.transactions (length transaction.now))) }
        ensures whole { IfOk result (λ full. IfSome full (λ batch. batch ≡ self.old)) }
        ensures some { IfOk result (λ full. IfSome full (λ batch. batch.transactions ≢ [])) }
        ensures each_once { IfOk result (λ full. given full ++ self.new.transactions ≡ self.old.transactions ++ transaction.now ∷ []) }
        ensures author { self.new.author ≡ self.old.author }
        ensures worker { self.new.worker ≡ self.old.worker }
        ensures err { OnErr result (self.new ≡ self.old) }
    {
        if transaction.len() > MAX_TRANSACTION_BYTES {
            return Err(MakeError::TooBig);
        }
        if self.batch.has_room(transaction.len()) {
            self.batch.push(transaction)?;
            return Ok(None);
        }
        let mut next = OpenBatch::new(self.alloc, self.author, self.worker)?;
        next.push(transaction)?;
        Ok(Some(self.exchange(next)?))
    }

    /// Closes the open batch and returns it; None if it has no transaction. On `AllocError` an allocation failed.
    pub fn seal(&mut self) -> Result<Option<Batch>, AllocError>
        ensures none { IfOk result (λ sealed. IsNone sealed ↔ (self.old.transactions ≡ [])) }
        ensures whole { IfOk result (λ sealed. IfSome sealed (λ batch. batch ≡ self.old)) }
        ensures new { OnOk result (self.new ≡ record self.old { transactions = [] }) }
        ensures memory { OnErr result (self.old.transactions ≢ []) }
        ensures err { OnErr result (self.new ≡ self.old) }
    {
        if self.batch.is_empty() {
            return Ok(None);
        }
        let next = OpenBatch::new(self.alloc, self.author, self.worker)?;
        Ok(Some(self.exchange(next)?))
    }

    // Closes the open batch and returns it; goes on with this batch of the same author and worker.
    fn exchange(&mut self, next: OpenBatch) -> Result<Batch, AllocError>
        requires author { next.author ≡ self.old.author }
        requires worker { next.worker ≡ self.old.worker }
        ensures batch { IfOk result (λ batch. batch ≡ self.old) }
        ensures new { OnOk result (self.new ≡ next) }
        ensures err { OnErr result (self.new ≡ self.old) }
    {
        let gathered = mem::replace(&mut self.batch, next);
        match gathered.close() {
            Ok(batch) => Ok(batch),
            Err(failed) => {
                self.batch = failed.value;
                Err(AllocError)
            }
        }
    }
}
