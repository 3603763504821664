//! The batch makers of a node, one for each of its workers.

ghost use Rattle.std.specs.Prelude.{◌≡◌, ◌≢◌, ◌≤◌, ◌<◌, ◌↔◌, [], Some, IfOk, IfErr, IsErr, IsErrOf, OnErr, length, slice_get};
ghost use Rattle.wire.specs.Batches.{BatchView};
ghost use Rattle.wire.specs.declared.limits.TheConstants.{MAX_TRANSACTION_BYTES};
ghost use Rattle.node_io.specs.Makers.{fresh_makers, IsPushed, IsSealed};

use batchmaker::{BatchMaker, MakeError};
use committee::Committee;
use header::CheckError;
use std::alloc::{AllocError, Global};
use std::marker::Model;
use wire::{Author, Batch};

/// A batch maker for each worker of the node. Contracts see the transactions that each has gathered, in the order of the workers.
pub struct Makers {
    makers: Vec<BatchMaker>,
}

impl Drop for Makers {
    fn drop(self) {
        let Makers { makers: _ } = self;
    }
}

impl Model for Makers {
    ghost use Rattle.std.specs.Prelude.{List};
    ghost use Rattle.wire.specs.Batches.{BatchView};

    ghost Value = { List BatchView };

    ghost view = { λ m. m.makers.items };
}

impl Makers {
    /// A maker for each worker of a member; none has a transaction yet. On `AllocError` an allocation failed.
    pub fn new(alloc: Global, committee: &Committee, own: Author) -> Result<Makers, AllocError>
        ensures { IfOk result (λ makers. makers ≡ fresh_makers own committee.now.workers) }
    {
        let mut makers = Vec::new(alloc);
        for worker in 0..committee.workers() {
            makers.push(BatchMaker::new(alloc, own, worker)?)?;
        }
        Ok(Makers { makers })
    }

    /// Tests that the committee has a worker with this number; `UnknownWorker` if it hasn't.
    pub fn test(&self, worker: u16) -> Result<(), CheckError>
        ensures err { IfErr result (λ error. error ≡ CheckError.UnknownWorker) }
        ensures known { IsErr result ↔ (length self.now ≤ worker) }
    {
        if (worker as usize) < self.makers.len() {
            Ok(())
        } else {
            Err(CheckError::UnknownWorker)
        }
    }

    /// Adds a transaction to the open batch of this worker, which exists. If the batch has no room for it, that batch is closed and
    /// returned, and the transaction begins the next one. `TooBig` if the transaction has more than `MAX_TRANSACTION_BYTES`.
    pub fn push(&mut self, worker: u16, transaction: &[u8]) -> Result<Option<Batch>, MakeError>
        requires { worker < length self.old }
        ensures ok { IfOk result (λ full. IsPushed worker transaction.now full self.old self.new) }
        ensures too_big { IsErrOf result MakeError.TooBig ↔ (MAX_TRANSACTION_BYTES < length transaction.now) }
        ensures err { OnErr result (self.new ≡ self.old) }
    {
        self.makers[worker as usize].push(transaction)
    }

    /// Closes the open batch of this worker, which exists, and returns it; None if it has no transaction. On `AllocError` an allocation
    /// failed.
    pub fn seal(&mut self, worker: u16) -> Result<Option<Batch>, AllocError>
        requires { worker < length self.old }
        ensures ok { IfOk result (λ sealed. IsSealed worker sealed self.old self.new) }
        ensures memory { OnErr result ((maker : BatchView) → slice_get self.old worker ≡ Some maker → maker.transactions ≢ []) }
        ensures err { OnErr result (self.new ≡ self.old) }
    {
        self.makers[worker as usize].seal()
    }
}
