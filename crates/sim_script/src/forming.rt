//! Makes headers and batches from the words of a script.

ghost use Rattle.std.specs.Prelude.{◌≤◌, length, vec_len};

use crate::command::{Form, Pack};
use crate::error::FormError;
use crate::labels::Labels;
use crate::signing::signer;
use crate::words::hex_bytes;
use header::make;
use std::alloc::{AllocError, Global};
use wire::{
    Author, Batch, BatchReference, MAX_TRANSACTION_BYTES, OpenBatch, ParentReference, Round,
};

/// Makes the header that a script describes, with its batches sorted by digest, and gives it its label. A bad word or label is reported
/// before the first fault that decoding the header's bytes would find. In both cases nothing is defined.
pub fn define_header(alloc: Global, labels: &mut Labels, form: &Form<'_>) -> Result<(), FormError> {
    if labels.is_taken(form.label) {
        return Err(FormError::BadCommand);
    }
    let certificates = certificates_of(alloc, labels, form.parents)?;
    let named = batches_of(alloc, labels, form.batches)?;
    let round = Round::new(form.round)?;
    let signer = signer(form.author);
    let header = make(alloc, &signer, form.author, round, &named, &certificates)?;
    labels.define_header(form.label, header)?;
    Ok(())
}

// The references to the certificates whose labels stand in a list.
fn certificates_of(
    alloc: Global,
    labels: &Labels,
    text: &str,
) -> Result<Vec<ParentReference>, FormError> {
    let mut certificates = Vec::new(alloc);
    if text == "-" {
        return Ok(certificates);
    }
    for name in text.split(',') {
        let Some(certificate) = labels.parent(name) else {
            return Err(FormError::BadCommand);
        };
        certificates.push(certificate)?;
    }
    Ok(certificates)
}

// The references to the batches whose labels stand in a list, sorted by digest.
fn batches_of(
    alloc: Global,
    labels: &Labels,
    text: &str,
) -> Result<Vec<BatchReference>, FormError> {
    let mut batches = Vec::new(alloc);
    if text == "-" {
        return Ok(batches);
    }
    for name in text.split(',') {
        let Some(batch) = reference_to(labels, name) else {
            return Err(FormError::BadCommand);
        };
        batches.push(batch)?;
    }
    batches.sort_by_key(|batch| batch.digest)?;
    Ok(batches)
}

fn reference_to(labels: &Labels, name: &str) -> Option<BatchReference> {
    match &labels.batch(name)?.batch {
        Some((batch, digest)) => Some(BatchReference {
            digest: *digest,
            worker: batch.worker(),
        }),
        None => None,
    }
}

/// Makes a batch and gives it its label. If its transactions exceed a limit, only the label is defined.
pub fn define_batch(alloc: Global, labels: &mut Labels, pack: &Pack<'_>) -> Result<(), FormError> {
    if labels.is_taken(pack.label) {
        return Err(FormError::BadCommand);
    }
    let transactions = transactions_of(alloc, pack.transactions)?;
    let batch = gather(alloc, pack.author, pack.worker, &transactions)?;
    labels.define_batch(pack.label, batch)?;
    Ok(())
}

fn transactions_of(alloc: Global, text: &str) -> Result<Vec<Vec<u8>>, FormError> {
    let mut transactions = Vec::new(alloc);
    for word in text.split(' ') {
        let Some(transaction) = hex_bytes(alloc, word)? else {
            return Err(FormError::BadCommand);
        };
        transactions.push(transaction)?;
    }
    Ok(transactions)
}

// The batch of these transactions. None if one of them is too long, or all together are.
fn gather(
    alloc: Global,
    author: Author,
    worker: u16,
    transactions: &[Vec<u8>],
) -> Result<Option<Batch>, AllocError> {
    let mut batch = OpenBatch::new(alloc, author, worker)?;
    for transaction in transactions {
        if transaction.len() > MAX_TRANSACTION_BYTES || !batch.has_room(transaction.len()) {
            return Ok(None);
        }
        batch.push(transaction)?;
    }
    Ok(Some(batch.close()?))
}
