//! How the tables answer batches and acknowledgements.

ghost use Rattle.std.specs.Prelude.{◌≡◌, true, false};
ghost use Rattle.wire.specs.declared.message.Message.TheVariants as message;
ghost use Rattle.spec_model.specs.Words.{BatchView};
ghost use Rattle.batchstore.specs.Stock.{digest_of};
ghost use Rattle.admission.specs.Answers.{is_new_step};
ghost use Rattle.admission.specs.Standing.{IsNew, MeetSome, Answers, Refuses, GoOn, always};

use crate::batches::{is_new_ack, is_new_batch, take_ack, take_batch};
use crate::step::Step;
use crate::tables::Tables;
use crate::tables::facts::others_stay;
use header::Refusal;
use std::alloc::Global;
use wire::{Batch, BatchAck, Digest};

impl<'a> Tables<'a> {
    /// Takes a batch with this digest.
    ///
    /// # Errors
    /// The refusal of admission, or `Memory` where an allocation failed. Neither changes anything.
    pub fn take_batch(
        &mut self,
        alloc: Global,
        digest: &Digest,
        batch: Batch,
    ) -> Result<Step, Refusal>
        requires meets { MeetSome self.old (message.Batch batch) }
        requires digested { digest.now ≡ digest_of batch }
        ensures answer { Answers always self.old (message.Batch batch) result }
        ensures refused { Refuses always self.old (message.Batch batch) result }
        ensures at { is_new_step result ≡ true → GoOn always self.old self.new (message.Batch batch) }
        ensures same { is_new_step result ≡ false → self.new ≡ self.old }
        ensures seed { self.new.batches.seed ≡ self.old.batches.seed }
    {
        others_stay();
        take_batch(alloc, self.own, &mut self.batches, digest, batch)
    }

    /// Whether a batch with this digest would be new. The call allocates no memory.
    pub fn is_batch_new(&self, digest: &Digest) -> bool
        ensures { (batch : BatchView) → digest.now ≡ digest_of batch → IsNew always self.now (message.Batch batch) result }
    {
        is_new_batch(&self.batches, digest)
    }

    /// Takes a member's acknowledgement of a batch.
    ///
    /// # Errors
    /// The refusal of admission, or `Memory` where an allocation failed. Neither changes anything.
    pub fn take_ack(&mut self, alloc: Global, ack: &BatchAck) -> Result<Step, Refusal>
        requires meets { MeetSome self.old (message.BatchAck ack.now) }
        ensures answer { Answers always self.old (message.BatchAck ack.now) result }
        ensures refused { Refuses always self.old (message.BatchAck ack.now) result }
        ensures at { is_new_step result ≡ true → GoOn always self.old self.new (message.BatchAck ack.now) }
        ensures same { is_new_step result ≡ false → self.new ≡ self.old }
        ensures seed { self.new.batches.seed ≡ self.old.batches.seed }
    {
        others_stay();
        take_ack(alloc, &mut self.batches, ack)
    }

    /// Whether an acknowledgement would be new. The call allocates no memory.
    pub fn is_ack_new(&self, ack: &BatchAck) -> bool
        ensures { IsNew always self.now (message.BatchAck ack.now) result }
    {
        is_new_ack(&self.batches, ack)
    }
}
