//! Which header a node proposes.

ghost use Rattle.std.specs.Prelude.{◌≡◌, ◌≤◌, ◌&&◌, not, IfOk, IfSome, IsTrue, is_some, length, map, option_map, take};
ghost use Rattle.std.specs.List.{list_any};
ghost use Rattle.spec_model.specs.Holdings as holdings;
ghost use Rattle.wire.specs.declared.limits.TheConstants.{MAX_PARENTS};
ghost use Rattle.spec_model.specs.Nodes.{node_view};
ghost use Rattle.spec_model.specs.Proposing as proposing;
ghost use Rattle.spec_model.specs.Slots.{same_digest, slots_of, round_of};
ghost use Rattle.spec_model.specs.States.{is_available};
ghost use Rattle.wire.specs.References as references;
ghost use Rattle.wire.specs.References.{digest_before, batches_rise};

use crate::parts::first_of;
use header::{Event, Node};
use ref_order::certificates::round;
use ref_order::held::{Held, is_available};
use ref_order::past::Past;
use ref_order::slots::{digest_of, slot};
use sigface::Sign;
use std::alloc::{AllocError, Global};
use wire::{
    Batch, BatchReference, BatchReferences, Certificate, Digest, Header, HeaderBody, MAX_BATCHES,
    Message, ParentReference, ParentReferences, Round, batch_digest, header_digest,
};

/// The digest of a batch.
fn digest_of_batch(batch: &Batch) -> Digest
    ensures { result ≡ holdings.batch_digest batch.now }
{
    batch_digest(batch)
}

/// Whether an own batch is available to other members, and no own header has named it yet.
fn is_waiting<S: Sign, H: Held>(node: &Node<S>, held: &H, digest: &Digest) -> bool
    ensures { result ≡ is_available (node_view S.scheme node.now) (H.state held.now) digest.now && not ((H.state held.now).named digest.now) }
{
    is_available(node, held, digest) && !held.was_named(digest)
}

/// Whether an own batch may be named in a header.
fn is_nameable<S: Sign, H: Held>(node: &Node<S>, held: &H, batch: &Batch) -> bool
    ensures { result ≡ proposing.is_nameable (node_view S.scheme node.now) (H.state held.now) batch.now }
{
    node.is_own(batch.author()) && is_waiting(node, held, &digest_of_batch(batch))
}

/// The reference by which a header names this batch; None if no header may name it.
pub fn to_name<S: Sign, H: Held>(node: &Node<S>, held: &H, batch: &Batch) -> Option<BatchReference>
    ensures { result ≡ proposing.to_name (node_view S.scheme node.now) (H.state held.now) batch.now }
{
    if !is_nameable(node, held, batch) {
        return None;
    }
    Some(BatchReference {
        digest: digest_of_batch(batch),
        worker: batch.worker(),
    })
}

/// Whether one digest is below another.
fn is_before(one: &Digest, other: &Digest) -> bool
    ensures { result ≡ digest_before one.now other.now }
{
    one.cmp(other).is_lt()
}

/// A list of batches that is sorted by digest, with one more at its place; a batch that is there already isn't added.
pub fn placed(
    alloc: Global,
    batches: &[BatchReference],
    batch: BatchReference,
) -> Result<Vec<BatchReference>, AllocError>
    ensures { IfOk result (λ found. found.items ≡ references.placed batches.now batch) }
{
    let mut found = Vec::new(alloc);
    match batches.split_first() {
        None => found.push(batch)?,
        Some((first, rest)) => {
            if is_before(&batch.digest, &first.digest) {
                found.push(batch)?;
                found.extend_from_slice(batches)?;
            } else if first.digest == batch.digest {
                found.extend_from_slice(batches)?;
            } else {
                found.push(*first)?;
                found.append(&mut placed(alloc, rest, batch)?)?;
            }
        }
    }
    Ok(found)
}

/// The references of all batches that may be named, sorted by digest.
pub fn nameable<S: Sign, H: Held>(
    alloc: Global,
    node: &Node<S>,
    held: &H,
) -> Result<Vec<BatchReference>, AllocError>
    ensures value { IfOk result (λ found. found.items ≡ proposing.nameable (node_view S.scheme node.now) (H.state held.now)) }
    ensures order { IfOk result (λ found. IsTrue (batches_rise found.items)) }
{
    let mut found = Vec::new(alloc);
    let batches = held.batches(alloc)?;
    for batch in &batches {
        if let Some(named) = to_name(node, held, batch) {
            found = placed(alloc, &found, named)?;
        }
    }
    Ok(found)
}

/// References that are sorted by digest, as the list that a header has.
fn named(alloc: Global, batches: &[BatchReference]) -> Result<BatchReferences, AllocError>
    requires few { length batches.now ≤ MAX_BATCHES }
    requires order { IsTrue (batches_rise batches.now) }
    ensures { IfOk result (λ found. found ≡ batches.now) }
{
    let mut found = BatchReferences::new(alloc);
    for batch in batches {
        found.push(*batch)?;
    }
    Ok(found)
}

/// The batches that the node's next header names: the first ones, by digest, that may be named.
fn named_batches<S: Sign, H: Held>(
    alloc: Global,
    node: &Node<S>,
    held: &H,
) -> Result<BatchReferences, AllocError>
    ensures { IfOk result (λ found. found ≡ take MAX_BATCHES (proposing.nameable (node_view S.scheme node.now) (H.state held.now))) }
{
    let nameable = nameable(alloc, node, held)?;
    named(alloc, first_of(&nameable, MAX_BATCHES))
}

/// The reference by which a header names this certificate as a parent.
fn as_parent(certificate: &Certificate) -> ParentReference
    ensures { result ≡ proposing.as_parent certificate.now }
{
    ParentReference {
        author: certificate.header.author,
        certificate: digest_of(&certificate.header),
    }
}

/// The reference by which a header names the certificate of this round and author; None if there is none.
fn parent_at(certificates: &[Certificate], round: u64, author: u16) -> Option<ParentReference>
    ensures value { result ≡ option_map proposing.as_parent (slots_of certificates.now round author) }
    ensures author { IfSome result (λ parent. parent.author.0 ≡ author) }
{
    match slot(certificates, round, author) {
        None => None,
        Some(certificate) => Some(as_parent(certificate)),
    }
}

/// The references by which a header names all certificates of a round as parents.
fn parents_of(
    alloc: Global,
    size: u16,
    certificates: &[Certificate],
    round: u64,
) -> Result<ParentReferences, AllocError>
    requires { size ≤ MAX_PARENTS }
    ensures { IfOk result (λ found. found ≡ map proposing.as_parent (round_of size (slots_of certificates.now) round)) }
{
    let mut found = ParentReferences::new(alloc);
    for author in 0..size {
        if let Some(parent) = parent_at(certificates, round, author) {
            found.push(parent)?;
        }
    }
    Ok(found)
}

/// The digest of a header.
fn digest_of_header(header: &HeaderBody) -> Digest
    ensures { result ≡ Rattle.spec_model.specs.Slots.header_digest header.now }
{
    header_digest(header)
}

/// The body of the header that the node proposes for this round.
pub fn proposal_of<S: Sign, H: Held>(
    alloc: Global,
    node: &Node<S>,
    held: &H,
    round: Round,
) -> Result<HeaderBody, AllocError>
    ensures { IfOk result (λ body. body ≡ proposing.proposal_of (node_view S.scheme node.now) (H.state held.now) round) }
{
    let batches = named_batches(alloc, node, held)?;
    let certificates = held.certificates(alloc)?;
    let below = round.number().saturating_sub(1);
    let parents = parents_of(alloc, node.size(), &certificates, below)?;
    Ok(HeaderBody {
        author: node.own,
        round,
        batches,
        parents,
    })
}

/// A header with the node's signature.
fn signed<S: Sign>(node: &Node<S>, body: HeaderBody) -> Header
    ensures { result ≡ proposing.signed (node_view S.scheme node.now) body }
{
    let signature = node.signer.sign(&digest_of_header(&body));
    Header { body, signature }
}

/// Whether the node has an own header of this round.
fn has_header<H: Held>(held: &H, round: u64) -> bool
    ensures { result ≡ is_some ((H.state held.now).own_headers round) }
{
    held.own_header(round).is_some()
}

/// The header that the node proposes for this round; None if it already has an own header of it.
///
/// # Errors
/// An allocation failed.
pub fn propose_of<S: Sign, H: Held>(
    alloc: Global,
    node: &Node<S>,
    held: &H,
    round: u64,
) -> Result<Option<Header>, AllocError>
    ensures { IfOk result (λ found. found ≡ proposing.propose_of (node_view S.scheme node.now) (H.state held.now) round) }
{
    if has_header(held, round) {
        return Ok(None);
    }
    match Round::new(round) {
        Err(_) => Ok(None),
        Ok(round) => {
            let body = proposal_of(alloc, node, held, round)?;
            Ok(Some(signed(node, body)))
        }
    }
}

/// The header that the node proposes after a history.
///
/// # Errors
/// An allocation failed.
pub fn propose<S: Sign>(
    alloc: Global,
    node: &Node<S>,
    history: &[Event],
) -> Result<Option<Header>, AllocError>
    ensures { IfOk result (λ found. found ≡ proposing.propose (node_view S.scheme node.now) history.now) }
{
    let round = round(alloc, node, history)?;
    propose_of(alloc, node, &Past { node, history }, round)
}
