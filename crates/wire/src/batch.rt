//! Batches of transactions.

ghost use Rattle.std.specs.Prelude.{◌≡◌, ◌+◌, ◌≤◌, ◌++◌, [], ◌∷◌, length, IsTrue, ◌↔◌, MatchResult, IfOk, OnOk, OnErr, vec_len, vec_capacity};
ghost use Rattle.wire.specs.declared.limits.TheConstants.{MAX_TRANSACTION_BYTES};
ghost use Rattle.wire.specs.Batches.{batch_body, body_len, contents_of, has_room, IsBatch};

use crate::keys::Author;
use crate::limits::MAX_BATCH_BYTES;
use crate::numbers::{four_bytes, two_bytes};
use crate::shared_bytes::SharedBytes;
use std::alloc::{AllocError, AllocFailed, Global};
use std::marker::Model;

/// How many bytes of a batch's body come before its transactions: those of author, worker and number of transactions.
const HEAD_BYTES: usize = 8;

/// Where in a batch's body the number of transactions begins, in bytes.
const COUNT_PLACE: usize = 4;

/// How many bytes the length of a transaction takes.
const LENGTH_BYTES: usize = 4;

/// A closed body gives unused memory back if that is more than one eighth of what it has allocated.
const SPARE_PART: usize = 8;

/// Transactions that an author's worker gathered, in their order. Each has at most `MAX_TRANSACTION_BYTES`. The body, which is what is
/// sent, stored and digested, has at most `MAX_BATCH_BYTES`.
#[derive(Debug)]
pub struct Batch {
    author: Author,
    worker: u16,
    count: u32,
    body: SharedBytes,
}

impl Drop for Batch {
    fn drop(self) {
        let Batch {
            author: _,
            worker: _,
            count: _,
            body: _,
        } = self;
    }
}

impl Model for Batch {
    ghost use Rattle.std.specs.Prelude.{◌≡◌};
    ghost use Rattle.wire.specs.Batches.{BatchView, IsBatch, batch_body, contents_of};

    ghost Value = { BatchView };

    ghost view = { λ b. contents_of b.author b.worker b.count b.body };

    ghost invariant = { λ b. IsBatch (contents_of b.author b.worker b.count b.body) × (b.body ≡ batch_body (contents_of b.author b.worker b.count b.body)) };
}

impl Batch {
    /// The batch with this body, which has this author, this worker and `count` transactions. The body is copied once, into a block of its
    /// exact length. On `AllocError` an allocation failed.
    pub fn from_body(
        alloc: Global,
        author: Author,
        worker: u16,
        count: u32,
        body: &[u8],
    ) -> Result<Batch, AllocError>
        requires fits { IsBatch (contents_of author worker count body.now) }
        requires encoded { body.now ≡ batch_body (contents_of author worker count body.now) }
        ensures { IfOk result (λ batch. batch ≡ contents_of author worker count body.now) }
    {
        let body = Vec::from_slice(alloc, body)?;
        Ok(Batch {
            author,
            worker,
            count,
            body: SharedBytes::from_vec(body)?,
        })
    }

    /// The author of the batch.
    pub fn author(&self) -> Author
        ensures { result ≡ self.now.author }
    {
        self.author
    }

    /// The number of the worker that gathered the batch.
    pub fn worker(&self) -> u16
        ensures { result ≡ self.now.worker }
    {
        self.worker
    }

    /// How many transactions the batch has, at most `MAX_TRANSACTIONS`.
    pub fn len(&self) -> u32
        ensures { result ≡ length self.now.transactions }
    {
        self.count
    }

    /// A second owner of the same batch. The body isn't copied. On `AllocError` an allocation failed.
    pub fn share(&self) -> Result<Batch, AllocError>
        ensures { IfOk result (λ batch. batch ≡ self.now) }
    {
        Ok(Batch {
            author: self.author,
            worker: self.worker,
            count: self.count,
            body: self.body.share()?,
        })
    }

    /// The batch's body, as it is sent and digested: author, worker, the number of transactions, the transactions.
    pub fn body(&self) -> &[u8]
        ensures value { result.now ≡ batch_body self.now }
        ensures len { length result.now ≡ body_len self.now.transactions }
        ensures limit { length result.now ≤ MAX_BATCH_BYTES }
        ensures fits { IsBatch self.now }
    {
        self.body.as_slice()
    }
}

/// A batch to which transactions can still be added.
#[derive(Debug, Drop)]
pub struct OpenBatch {
    author: Author,
    worker: u16,
    count: u32,
    // The body so far. The number of transactions is written into it when the batch is closed.
    body: Vec<u8>,
}

impl Model for OpenBatch {
    ghost use Rattle.wire.specs.Batches.{BatchView, IsOpen, contents_of};

    ghost Value = { BatchView };

    ghost view = { λ b. contents_of b.author b.worker b.count b.body.items };

    ghost invariant = { λ b. IsOpen b.author b.worker b.count b.body.items };
}

impl OpenBatch {
    /// A batch without transactions. On `AllocError` an allocation failed.
    pub fn new(alloc: Global, author: Author, worker: u16) -> Result<OpenBatch, AllocError>
        ensures { IfOk result (λ batch. batch ≡ record { author = author; worker = worker; transactions = [] }) }
    {
        OpenBatch::with_room(alloc, author, worker, 0)
    }

    /// A batch without transactions that has memory for this many bytes of transactions with their lengths, but never for more than a body
    /// may have.
    pub fn with_room(
        alloc: Global,
        author: Author,
        worker: u16,
        room: usize,
    ) -> Result<OpenBatch, AllocError>
        ensures { IfOk result (λ batch. batch ≡ record { author = author; worker = worker; transactions = [] }) }
    {
        let room = room.min(MAX_BATCH_BYTES - HEAD_BYTES);
        let mut body = Vec::with_capacity(alloc, HEAD_BYTES + room)?;
        body.extend_from_slice(&two_bytes(author.0))?;
        body.extend_from_slice(&two_bytes(worker))?;
        body.extend_from_slice(&four_bytes(0))?;
        Ok(OpenBatch {
            author,
            worker,
            count: 0,
            body,
        })
    }

    /// Whether the batch has no transaction.
    pub fn is_empty(&self) -> bool
        ensures { IsTrue result ↔ (self.now.transactions ≡ []) }
    {
        self.count == 0
    }

    /// Whether the body has room for one more transaction of this many bytes.
    pub fn has_room(&self, len: usize) -> bool
        ensures { result ≡ has_room self.now.transactions len }
    {
        let room = MAX_BATCH_BYTES - self.body.len();
        len <= room && room - len >= LENGTH_BYTES
    }

    /// Adds a transaction of at most `MAX_TRANSACTION_BYTES` at the end, if `has_room` allows it. On `AllocError` an allocation failed.
    pub fn push(&mut self, transaction: &[u8]) -> Result<(), AllocError>
        requires short { length transaction.now ≤ MAX_TRANSACTION_BYTES }
        requires room { IsTrue (has_room self.old.transactions (length transaction.now)) }
        ensures ok { OnOk result (self.new ≡ record self.old { transactions = self.old.transactions ++ transaction.now ∷ [] }) }
        ensures err { OnErr result (self.new ≡ self.old) }
    {
        self.body.reserve(LENGTH_BYTES + transaction.len())?;
        let len = four_bytes(transaction.len() as u32);
        put_transaction(&mut self.body, &len, transaction);
        self.count += 1;
        Ok(())
    }

    /// Closes the batch. If an allocation fails the open batch is handed back as it was.
    pub fn close(self) -> Result<Batch, AllocFailed<OpenBatch>>
        ensures { MatchResult result (λ batch. batch ≡ self) (λ failed. failed.value ≡ self) }
    {
        let OpenBatch {
            author,
            worker,
            count,
            mut body,
        } = self;
        body[COUNT_PLACE..HEAD_BYTES].copy_from_slice(&four_bytes(count));
        release_spare_room(&mut body);
        match SharedBytes::from_vec(body) {
            Ok(body) => Ok(Batch {
                author,
                worker,
                count,
                body,
            }),
            Err(failed) => Err(AllocFailed {
                value: OpenBatch {
                    author,
                    worker,
                    count,
                    body: failed.value,
                },
            }),
        }
    }
}

// Gives back the memory that a body doesn't use, if that is more than an eighth of all it has: a batch is kept for long. If no smaller
// block can be allocated the body keeps its own, so nothing can fail here.
fn release_spare_room(body: &mut Vec<u8>)
    ensures items { body.new.items ≡ body.old.items }
    ensures capacity { vec_capacity body.new ≤ vec_capacity body.old }
{
    let spare = body.capacity() - body.len();
    if spare > body.capacity() / SPARE_PART {
        body.shrink_to_fit();
    }
}

// Adds a transaction, after its length, to a body that has room for both.
fn put_transaction(body: &mut Vec<u8>, len: &[u8; 4], transaction: &[u8])
    requires room { vec_len body.old + 4 + length transaction.now ≤ vec_capacity body.old }
    ensures { body.new.items ≡ body.old.items ++ (len.now ++ transaction.now) }
{
    body.extend_from_slice(len).unwrap();
    body.extend_from_slice(transaction).unwrap();
}
