//! How a store of batches answers batches, acknowledgements and own headers.

ghost use Rattle.std.specs.Prelude.{◌≡◌, ◌<◌, true, false, length, None, Ok, IfOk};
ghost use Rattle.std.specs.List.{list_all};
ghost use Rattle.spec_model.specs.Admitting.{batch_outputs as outputs_of};
ghost use Rattle.spec_model.specs.Nodes.{Node};
ghost use Rattle.spec_model.specs.Words.{BatchView};
ghost use Rattle.header.specs.declared.admission.Admission.TheVariants.{New, Known};
ghost use Rattle.wire.specs.declared.message.Message.TheVariants as message;
ghost use Rattle.batchstore.specs.Stock.{digest_of};
ghost use Rattle.batchstore.specs.Answer.{answer as store_answer, with_batch, with_names};
ghost use Rattle.admission.specs.Answers.{IsAnswer, RefusesAs, is_new_step};
ghost use Rattle.admission.specs.Batches.{as_refusal, AnswersFrom, RefusesFrom, IsNewFrom, GoesOn, GoesOnWithOwn, may_name_by};

use crate::step::Step;
use batchstore::{Acked, BatchStore, StoreRefusal};
use header::Refusal;
use std::alloc::{AllocError, Global};
use wire::{Author, Batch, BatchAck, BatchReference, Digest, Header, Output};

// The outputs for a batch with this digest: an own batch goes to all members; for another member's, the acknowledgement goes to its author.
fn batch_outputs(
    alloc: Global,
    own: Author,
    digest: &Digest,
    batch: &Batch,
) -> Result<Vec<Output>, AllocError>
    requires { digest.now ≡ digest_of batch.now }
    ensures { IfOk result (λ outputs. (node : Node) → node.own ≡ own → outputs_of node batch.now ≡ outputs.items) }
{
    let output = if batch.author() == own {
        Output::Batch(batch.share()?)
    } else {
        Output::Ack {
            to: batch.author(),
            ack: BatchAck {
                author: own,
                batch: *digest,
            },
        }
    };
    let mut outputs = Vec::new(alloc);
    outputs.push(output)?;
    Ok(outputs)
}

// The result for a batch that is held already: Known, with the outputs for the held batch.
fn known_batch(alloc: Global, own: Author, digest: &Digest, held: &Batch) -> Result<Step, Refusal>
    requires { digest.now ≡ digest_of held.now }
    ensures answer { (node : Node) → node.own ≡ own → IsAnswer (Known (outputs_of node held.now)) result }
    ensures known { is_new_step result ≡ false }
{
    match batch_outputs(alloc, own, digest, held) {
        Ok(outputs) => Ok(Step::Known(outputs)),
        Err(_) => Err(Refusal::Memory),
    }
}

// Adds a new batch with this digest to the store. The result is New, with the outputs for the batch.
fn new_batch(
    alloc: Global,
    own: Author,
    batches: &mut BatchStore,
    digest: &Digest,
    batch: Batch,
) -> Result<Step, Refusal>
    requires digested { digest.now ≡ digest_of batch }
    requires fresh { store_answer batches.old batch ≡ Ok None }
    ensures answer { (node : Node) → node.own ≡ own → IsAnswer (New (outputs_of node batch)) result }
    ensures new { is_new_step result ≡ true → batches.new ≡ with_batch batches.old batch }
    ensures same { is_new_step result ≡ false → batches.new ≡ batches.old }
{
    let outputs = match batch_outputs(alloc, own, digest, &batch) {
        Ok(outputs) => outputs,
        Err(_) => return Err(Refusal::Memory),
    };
    match batches.hold(*digest, batch) {
        Ok(_) => Ok(Step::New(outputs)),
        Err(_) => Err(Refusal::Memory),
    }
}

/// Takes a batch with this digest into the store of the member with this number. A known batch gives the same outputs as a new one.
///
/// # Errors
/// `DigestClash` where another batch is held under this digest; `StoreFull` where the batch is new and as many are held as the committee
/// allows; `Memory` where an allocation failed. None changes anything.
pub fn take_batch(
    alloc: Global,
    own: Author,
    batches: &mut BatchStore,
    digest: &Digest,
    batch: Batch,
) -> Result<Step, Refusal>
    requires digested { digest.now ≡ digest_of batch }
    requires own { own.0 ≡ batches.old.own }
    ensures answer { AnswersFrom batches.old (message.Batch batch) result }
    ensures refused { RefusesFrom batches.old (message.Batch batch) result }
    ensures new { is_new_step result ≡ true → GoesOn batches.old batches.new (message.Batch batch) }
    ensures same { is_new_step result ≡ false → batches.new ≡ batches.old }
    ensures seed { batches.new.seed ≡ batches.old.seed }
{
    match batches.answer(digest, &batch) {
        Ok(Some(held)) => known_batch(alloc, own, digest, held),
        Ok(None) => new_batch(alloc, own, batches, digest, batch),
        Err(refusal) => Err(refusal_of(refusal)),
    }
}

/// Whether a batch with this digest would be new: none is held under the digest, and there is room. The call allocates no memory.
pub fn is_new_batch(batches: &BatchStore, digest: &Digest) -> bool
    ensures { (batch : BatchView) → digest.now ≡ digest_of batch → IsNewFrom batches.now (message.Batch batch) result }
{
    match batches.get(digest) {
        Some(_) => false,
        None => !batches.is_full(),
    }
}

/// Takes a member's acknowledgement of a batch into the store.
///
/// # Errors
/// `NotOurs` where no own batch with the digest is held; `Memory` where an allocation failed. Neither changes anything.
pub fn take_ack(alloc: Global, batches: &mut BatchStore, ack: &BatchAck) -> Result<Step, Refusal>
    requires { ack.now.author.0 < length batches.old.charter.keys }
    ensures answer { AnswersFrom batches.old (message.BatchAck ack.now) result }
    ensures refused { RefusesFrom batches.old (message.BatchAck ack.now) result }
    ensures new { is_new_step result ≡ true → GoesOn batches.old batches.new (message.BatchAck ack.now) }
    ensures same { is_new_step result ≡ false → batches.new ≡ batches.old }
    ensures seed { batches.new.seed ≡ batches.old.seed }
{
    match batches.ack(ack.author, &ack.batch) {
        Ok(Acked::New) => Ok(Step::New(Vec::new(alloc))),
        Ok(Acked::Known) => Ok(Step::Known(Vec::new(alloc))),
        Err(refusal) => Err(refusal_of(refusal)),
    }
}

/// Whether an acknowledgement would be new: an own batch with its digest is held, and its sender isn't counted yet as a holder of the
/// batch. The call allocates no memory.
pub fn is_new_ack(batches: &BatchStore, ack: &BatchAck) -> bool
    ensures { IsNewFrom batches.now (message.BatchAck ack.now) result }
{
    batches.acked(ack.author, &ack.batch) == Some(false)
}

// The refusal by which admission reports a refusal of the store.
fn refusal_of(refusal: StoreRefusal) -> Refusal
    ensures { result ≡ as_refusal refusal }
{
    match refusal {
        StoreRefusal::Memory => Refusal::Memory,
        StoreRefusal::DigestClash => Refusal::DigestClash,
        StoreRefusal::Full => Refusal::StoreFull,
        StoreRefusal::NotOurs => Refusal::NotOurs,
    }
}

// Whether a header of this author may name a batch: the batch is held with the named worker, and for an own header it is also available.
fn may_name(batches: &BatchStore, own: Author, author: Author, named: &BatchReference) -> bool
    requires { own.0 ≡ batches.now.own }
    ensures { result ≡ may_name_by batches.now author named.now }
{
    batches.holds(&named.digest, named.worker)
        && (author != own || batches.available(&named.digest))
}

// Whether a header of this author may name each of these batches.
fn may_name_each(
    batches: &BatchStore,
    own: Author,
    author: Author,
    named: &[BatchReference],
) -> bool
    requires { own.0 ≡ batches.now.own }
    ensures { result ≡ list_all (may_name_by batches.now author) named.now }
{
    named
        .iter()
        .all(|named| may_name(batches, own, author, named))
}

/// Whether a header may name all its batches: each is held with the named worker, and for an own header each is also available.
pub fn may_name_all(batches: &BatchStore, own: Author, header: &Header) -> bool
    requires { own.0 ≡ batches.now.own }
    ensures { result ≡ list_all (may_name_by batches.now header.now.body.author) header.now.body.batches }
{
    let named = header.body.batches.as_slice();
    may_name_each(batches, own, header.body.author, named)
}

/// Marks the own batches that a header names. After a new own header, the store then agrees with the node's state. The call allocates no
/// memory.
pub fn name_all(batches: &mut BatchStore, header: &Header)
    ensures named { batches.new ≡ with_names batches.old header.now.body.batches }
    ensures goes_on { GoesOnWithOwn batches.old batches.new header.now }
{
    batches.name(header.body.batches.as_slice());
}
