//! The messages of the test cases, and the outputs of a node for them.

ghost use Rattle.std.specs.Prelude.{◌≡◌, ◌≤◌, None, IfOk, IfSome, length};
ghost use Rattle.header.specs.Checks.{fault_of, accepts_all};

use crate::committees::OWN;
use crate::store::words::{put, put_count};
use committee::Committee;
use header::{CheckError, Checked, check, recheck};
use sigface::HashVerify;
use std::alloc::{AllocError, Global};
use wire::{
    Author, Batch, BatchReference, BatchReferences, Digest, Header, HeaderBody,
    MAX_TRANSACTION_BYTES, Message, OpenBatch, Output, ParentReference, ParentReferences, Round,
    Signature, Vote, WireError, genesis_digest,
};
use wire_read::decode;

/// The digest of something that no node has.
pub const FOREIGN: Digest = Digest([7; 32]);

/// The length of a batch's record without its one transaction: the kind, the sender, the tag, the body's eight bytes and the transaction's
/// length field.
const AROUND: usize = 16;

/// The length of the shortest record of a batch: its transaction is nothing but a number of eight bytes.
pub const SHORTEST: usize = AROUND + 8;

/// What a header of the test cases names as its parents and batches.
#[derive(Clone, Copy)]
pub enum Named {
    /// The genesis certificates of the members that are its parents' authors.
    Genesis,
    /// The genesis certificates, and a batch that no node has.
    Batch,
    /// Certificates that no node has.
    Foreign,
}

/// The body of a header with certificates of these members as parents, of as many of them as a header may have.
pub fn body(
    alloc: Global,
    named: Named,
    author: Author,
    round: Round,
    members: &[u8],
) -> Result<HeaderBody, AllocError> {
    let mut batches = BatchReferences::new(alloc);
    if matches!(named, Named::Batch) && batches.is_empty() && batches.may_follow(&FOREIGN) {
        let (digest, worker) = (FOREIGN, 0);
        batches.push(BatchReference { digest, worker })?;
    }
    let parents = parents(alloc, named, members)?;
    Ok(HeaderBody {
        author,
        round,
        batches,
        parents,
    })
}

fn parents(alloc: Global, named: Named, members: &[u8]) -> Result<ParentReferences, AllocError> {
    let mut parents = ParentReferences::new(alloc);
    for member in members {
        let author = Author(u16::from(*member));
        let certificate = match named {
            Named::Foreign => FOREIGN,
            _ => genesis_digest(author),
        };
        if parents.len() < 31 && parents.may_follow(author) {
            parents.push(ParentReference {
                author,
                certificate,
            })?;
        }
    }
    Ok(parents)
}

/// The message of a header, with a signature of zeros.
pub fn header(body: HeaderBody) -> Message {
    let signature = Signature([0; 64]);
    Message::Header(Header { body, signature })
}

/// A member's vote on an author's header of a round, a header that no node has; the signature is all zeros.
pub fn vote(voter: Author, author: Author, round: Round) -> Message {
    let signature = Signature([0; 64]);
    Message::Vote(Vote {
        header: FOREIGN,
        round,
        author,
        voter,
        signature,
    })
}

/// A member's batch with one transaction, which begins with this number; its record has this length. None if the record would be too short
/// or too long.
pub fn batch(
    alloc: Global,
    author: Author,
    number: u64,
    len: usize,
) -> Result<Option<Batch>, AllocError> {
    if len < SHORTEST || len > MAX_TRANSACTION_BYTES {
        return Ok(None);
    }
    let transaction = transaction(alloc, number, len - AROUND)?;
    let mut batch = OpenBatch::new(alloc, author, 0)?;
    if !batch.has_room(transaction.len()) {
        return Ok(None);
    }
    batch.push(&transaction)?;
    Ok(Some(batch.close()?))
}

/// A transaction of this length, which begins with a number.
fn transaction(alloc: Global, number: u64, len: usize) -> Result<Vec<u8>, AllocError>
    requires { 8 ≤ len }
    ensures { IfOk result (λ bytes. length bytes.items ≡ len) }
{
    let mut bytes = vec![in alloc; 0; len]?;
    bytes[..8].copy_from_slice(&number.to_be_bytes());
    Ok(bytes)
}

/// The message in these bytes, if they are one.
pub fn message_in(alloc: Global, bytes: &[u8]) -> Result<Option<Message>, AllocError> {
    match decode(alloc, bytes) {
        Ok(message) => Ok(Some(message)),
        Err(WireError::Memory) => Err(AllocError),
        Err(_) => Ok(None),
    }
}

/// The message as an event from its sender, if it passes the checks; its signature isn't tested.
pub fn event(committee: &Committee, sender: Author, message: Message) -> Option<Checked>
    ensures { IfSome result (λ event. fault_of committee.now accepts_all event ≡ None) }
{
    recheck(committee, sender, message).ok()
}

/// Adds an output: an acknowledgement, an own header, or a vote of member 0. For a vote it adds whether the vote passes the checks, and
/// whether it passes them with another signature.
pub fn report_output(committee: &Committee, answer: &mut String, output: &Output) {
    match output {
        Output::Vote(vote) => report_vote(committee, answer, vote),
        Output::Ack { to, .. } => {
            put_count(answer, "acknowledgement for ", u64::from(to.0), "\n");
        }
        Output::Header(header) => {
            put_count(answer, "header of round ", header.body.round.number(), "\n");
        }
        _ => put(answer, "another output\n"),
    }
}

fn report_vote(committee: &Committee, answer: &mut String, vote: &Vote) {
    let (round, author) = (vote.round.number(), vote.author.0);
    let mut changed = *vote;
    changed.signature.0[63] ^= 1;
    let (own, other) = (refusal(committee, *vote), refusal(committee, changed));
    let _ = writeln!(
        answer,
        "vote for {author} in {round}: {own:?}, changed {other:?}"
    );
}

/// Why the checks refuse a vote of member 0; None if it passes.
fn refusal(committee: &Committee, vote: Vote) -> Option<CheckError> {
    check(committee, &HashVerify, OWN, Message::Vote(vote)).err()
}
