//! The digests of batches, headers and certificates. Computing them allocates no memory.

ghost use Rattle.std.specs.Prelude.{◌≡◌, ◌++◌, ◌∷◌, [], List, ℕ, ◌≤◌, length};
ghost use Rattle.std.specs.Int.{w16, w64, to_be_bytes};
ghost use Rattle.sha2.specs.Sha256.{sha256};
ghost use Rattle.sha2.specs.Hashers.{Holds256};
ghost use Rattle.wire.specs.declared.limits.TheConstants.{MAX_BATCHES, MAX_PARENTS};
ghost use Rattle.std.specs.List.{flat_map};
ghost use Rattle.wire.specs.Encoding.{batch_reference_bytes, parent_reference_bytes, parents_bytes, body_bytes};
ghost use Rattle.wire.specs.Digests.{batch_digest_of, header_digest_of, certificate_digest_of, genesis_digest_of};

use crate::batch::Batch;
use crate::header::HeaderBody;
use crate::keys::{Author, Digest};
use crate::numbers::{eight_bytes, two_bytes};
use crate::references::{BatchReference, ParentReference};
use crate::round::Round;
use sha2::{Digest as Hasher, Sha256};

/// The letter B, which is digested before a batch's body.
const BATCH_LETTER: u8 = 0x42;

/// The letter H, which is digested before a header's body.
const HEADER_LETTER: u8 = 0x48;

/// The letter C, which is digested before the parts of a certificate.
const CERTIFICATE_LETTER: u8 = 0x43;

// The bytes of a reference to a batch, in one array: a call of the hasher costs as much as hashing a few more bytes.
fn batch_bytes(batch: &BatchReference) -> [u8; 34]
    ensures { result ≡ batch_reference_bytes batch.now }
{
    let mut bytes = [0; 34];
    bytes[32..].copy_from_slice(&two_bytes(batch.worker));
    bytes[..32].copy_from_slice(&batch.digest.0);
    bytes
}

// Hashes the references to batches, but not how many they are.
fn feed_batches(hasher: &mut Sha256, batches: &[BatchReference])
    ensures { (m : List ℕ) → Holds256 hasher.old m → Holds256 hasher.new (m ++ flat_map batch_reference_bytes batches.now) }
{
    for batch in batches {
        hasher.update(batch_bytes(batch));
    }
}

fn parent_bytes(parent: &ParentReference) -> [u8; 34]
    ensures { result ≡ parent_reference_bytes parent.now }
{
    let mut bytes = [0; 34];
    bytes[..2].copy_from_slice(&two_bytes(parent.author.0));
    bytes[2..].copy_from_slice(&parent.certificate.0);
    bytes
}

fn feed_parents(hasher: &mut Sha256, parents: &[ParentReference])
    requires { length parents.now ≤ MAX_PARENTS }
    ensures { (m : List ℕ) → Holds256 hasher.old m → Holds256 hasher.new (m ++ parents_bytes parents.now) }
{
    hasher.update(two_bytes(parents.len() as u16));
    for parent in parents {
        hasher.update(parent_bytes(parent));
    }
}

fn slot_bytes(author: Author, round: Round) -> [u8; 11]
    ensures { result ≡ 72 ∷ to_be_bytes w16 author.0 ++ to_be_bytes w64 round }
{
    let mut bytes = [HEADER_LETTER; 11];
    bytes[1..3].copy_from_slice(&two_bytes(author.0));
    bytes[3..].copy_from_slice(&eight_bytes(round.number()));
    bytes
}

// The bytes that are hashed of a header before its references to batches: the letter, author, round, and how many references there are.
fn head_bytes(author: Author, round: Round, batches: u16) -> [u8; 13]
    ensures { result ≡ (72 ∷ to_be_bytes w16 author.0 ++ to_be_bytes w64 round) ++ to_be_bytes w16 batches }
{
    let mut bytes = [0; 13];
    bytes[..11].copy_from_slice(&slot_bytes(author, round));
    bytes[11..].copy_from_slice(&two_bytes(batches));
    bytes
}

fn body_digest(
    author: Author,
    round: Round,
    batches: &[BatchReference],
    parents: &[ParentReference],
) -> Digest
    requires few_batches { length batches.now ≤ MAX_BATCHES }
    requires few_parents { length parents.now ≤ MAX_PARENTS }
    ensures { result.0 ≡ sha256 (72 ∷ body_bytes author.0 round batches.now parents.now) }
{
    let mut hasher = Sha256::new();
    hasher.update(head_bytes(author, round, batches.len() as u16));
    feed_batches(&mut hasher, batches);
    feed_parents(&mut hasher, parents);
    Digest(hasher.finalize())
}

/// The digest of a batch. The author and the worker are part of what is digested.
pub fn batch_digest(batch: &Batch) -> Digest
    ensures { result.0 ≡ batch_digest_of batch.now }
{
    let mut hasher = Sha256::new();
    hasher.update([BATCH_LETTER]);
    hasher.update(batch.body());
    Digest(hasher.finalize())
}

/// The digest of a header, without its signature.
pub fn header_digest(header: &HeaderBody) -> Digest
    ensures { result.0 ≡ header_digest_of header.now }
{
    body_digest(
        header.author,
        header.round,
        header.batches.as_slice(),
        header.parents.as_slice(),
    )
}

fn place_bytes(round: Round, author: Author) -> [u8; 10]
    ensures { result ≡ to_be_bytes w64 round ++ to_be_bytes w16 author.0 }
{
    let mut bytes = [0; 10];
    bytes[..8].copy_from_slice(&eight_bytes(round.number()));
    bytes[8..].copy_from_slice(&two_bytes(author.0));
    bytes
}

fn lettered_bytes(header: &Digest) -> [u8; 33]
    ensures { result ≡ 67 ∷ header.now.0 }
{
    let mut bytes = [CERTIFICATE_LETTER; 33];
    bytes[1..].copy_from_slice(&header.0);
    bytes
}

fn certificate_bytes(header: &Digest, round: Round, author: Author) -> [u8; 43]
    ensures { result ≡ (67 ∷ header.now.0) ++ to_be_bytes w64 round ++ to_be_bytes w16 author.0 }
{
    let mut bytes = [0; 43];
    bytes[33..].copy_from_slice(&place_bytes(round, author));
    bytes[..33].copy_from_slice(&lettered_bytes(header));
    bytes
}

/// The digest of the certificate of a header with this digest, round and author. It doesn't depend on the votes.
pub fn certificate_digest(header: &Digest, round: Round, author: Author) -> Digest
    ensures { result.0 ≡ certificate_digest_of header.now.0 round author.0 }
{
    Digest(Sha256::digest(certificate_bytes(header, round, author)))
}

/// The digest of an author's genesis certificate: round 0, no batches, no parents, no votes.
pub fn genesis_digest(author: Author) -> Digest
    ensures { result.0 ≡ genesis_digest_of author.0 }
{
    let header = body_digest(author, Round::genesis(), &[], &[]);
    certificate_digest(&header, Round::genesis(), author)
}
