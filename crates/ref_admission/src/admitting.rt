//! Admission: the answer of a node to an event, by what the node has.

ghost use Rattle.std.specs.Prelude.{◌≡◌, IfOk};
ghost use Rattle.std.specs.Str.{bytes_eq};
ghost use Rattle.std.specs.List.{list_all};
ghost use Rattle.spec_model.specs.Admitting as admitting;
ghost use Rattle.spec_model.specs.Nodes.{node_view};
ghost use Rattle.wire.specs.Batches.{batch_body};

use crate::outputs::{batch_outputs, header_outputs, push_order};
use header::{Admission, Event, Node, Outputs, Refusal};
use ref_order::held::{Held, completed_at, floor_in, has_own_batch, is_available, is_full_in};
use ref_order::holdings::{all_held, is_low};
use ref_order::slots::{digest_of, slot};
use sigface::Sign;
use std::alloc::{AllocError, Global};
use wire::{
    Author, Batch, BatchAck, BatchReference, Certificate, Coin, Digest, Header, HeaderBody,
    Message, Output, Vote, batch_digest, header_digest,
};

/// Whether two batches have the same body.
fn same_body(one: &Batch, other: &Batch) -> bool
    ensures { result ≡ bytes_eq (batch_body one.now) (batch_body other.now) }
{
    one.body() == other.body()
}

/// The answer to a batch if a batch with the same digest is held already.
fn held_batch_answer<S: Sign>(
    alloc: Global,
    node: &Node<S>,
    held: &Batch,
    batch: &Batch,
) -> Result<Admission, AllocError>
    ensures { IfOk result (λ answer. answer ≡ admitting.held_batch_answer (node_view S.scheme node.now) held.now batch.now) }
{
    if same_body(held, batch) {
        return Ok(Admission::Known(batch_outputs(alloc, node, held)?));
    }
    Ok(Admission::Refused(Refusal::DigestClash))
}

/// The answer to a batch.
pub fn batch_answer<S: Sign, H: Held>(
    alloc: Global,
    node: &Node<S>,
    now: &H,
    batch: &Batch,
) -> Result<Admission, AllocError>
    ensures { IfOk result (λ answer. answer ≡ admitting.batch_answer (node_view S.scheme node.now) (H.state now.now) batch.now) }
{
    if let Some(held) = now.batch(&batch_digest(batch)) {
        return held_batch_answer(alloc, node, held, batch);
    }
    if now.batches(alloc)?.len() >= node.committee.batches() as usize {
        return Ok(Admission::Refused(Refusal::StoreFull));
    }
    Ok(Admission::New(batch_outputs(alloc, node, batch)?))
}

/// The answer to an acknowledgement.
pub fn ack_answer<S: Sign, H: Held>(
    alloc: Global,
    node: &Node<S>,
    now: &H,
    ack: &BatchAck,
) -> Admission
    ensures { result ≡ admitting.ack_answer (node_view S.scheme node.now) (H.state now.now) ack.now }
{
    if !has_own_batch(node, now, &ack.batch) {
        return Admission::Refused(Refusal::NotOurs);
    }
    if node.is_own(ack.author) || now.has_acked(&ack.batch, ack.author.0) {
        return Admission::Known(Outputs::new(alloc));
    }
    Admission::New(Outputs::new(alloc))
}

/// Whether a header may name this batch: it is held with that worker, and if the header is an own one, it is available to others.
pub fn may_name<S: Sign, H: Held>(
    node: &Node<S>,
    now: &H,
    header: &Header,
    named: &BatchReference,
) -> bool
    ensures { result ≡ admitting.may_name (node_view S.scheme node.now) (H.state now.now) header.now named.now }
{
    match now.batch(&named.digest) {
        Some(batch) if batch.worker() == named.worker => {
            !node.is_own(header.body.author) || is_available(node, now, &named.digest)
        }
        _ => false,
    }
}

fn may_name_all<S: Sign, H: Held>(
    node: &Node<S>,
    now: &H,
    header: &Header,
    named: &[BatchReference],
) -> bool
    ensures { result ≡ list_all (admitting.may_name (node_view S.scheme node.now) (H.state now.now) header.now) named.now }
{
    named.iter().all(|named| may_name(node, now, header, named))
}

/// The answer to an own header if the node already has an own header of its round.
fn held_header_answer<S: Sign>(
    alloc: Global,
    node: &Node<S>,
    held: &Header,
    header: &Header,
) -> Result<Admission, AllocError>
    ensures { IfOk result (λ answer. answer ≡ admitting.held_header_answer (node_view S.scheme node.now) held.now header.now) }
{
    if header_digest(&held.body) == header_digest(&header.body) {
        return Ok(Admission::Known(header_outputs(alloc, node, held)?));
    }
    Ok(Admission::Refused(Refusal::AlreadyProposed))
}

/// The answer to another member's header if the node has already voted for this digest in the header's round and author.
fn voted_answer<S: Sign>(
    alloc: Global,
    node: &Node<S>,
    voted: &Digest,
    header: &Header,
) -> Result<Admission, AllocError>
    ensures { IfOk result (λ answer. answer ≡ admitting.voted_answer (node_view S.scheme node.now) voted.now header.now) }
{
    if *voted == header_digest(&header.body) {
        return Ok(Admission::Known(header_outputs(alloc, node, header)?));
    }
    Ok(Admission::Refused(Refusal::Equivocation))
}

/// The answer to a header if the node has an own header or a vote for its round and author already; None if it has neither.
fn known_header_answer<S: Sign, H: Held>(
    alloc: Global,
    node: &Node<S>,
    now: &H,
    header: &Header,
) -> Result<Option<Admission>, AllocError>
    ensures { IfOk result (λ found. found ≡ admitting.known_header_answer (node_view S.scheme node.now) (H.state now.now) header.now) }
{
    let round = header.body.round.number();
    let author = header.body.author;
    if node.is_own(author) {
        return match now.own_header(round) {
            None => Ok(None),
            Some(held) => Ok(Some(held_header_answer(alloc, node, held, header)?)),
        };
    }
    match now.voted_digest(round, author.0) {
        None => Ok(None),
        Some(voted) => Ok(Some(voted_answer(alloc, node, &voted, header)?)),
    }
}

/// The answer to a header.
pub fn header_answer<S: Sign, H: Held>(
    alloc: Global,
    node: &Node<S>,
    now: &H,
    header: &Header,
) -> Result<Admission, AllocError>
    ensures { IfOk result (λ answer. answer ≡ admitting.header_answer (node_view S.scheme node.now) (H.state now.now) header.now) }
{
    let floor = floor_in(alloc, node, now)?;
    let body = &header.body;
    if is_low(floor, body.round.number()) {
        return Ok(Admission::Refused(Refusal::TooOld));
    }
    if let Some(answer) = known_header_answer(alloc, node, now, header)? {
        return Ok(answer);
    }
    if !all_held(&now.certificates(alloc)?, floor, body) {
        return Ok(Admission::Refused(Refusal::MissingParents));
    }
    if !may_name_all(node, now, header, body.batches.as_slice()) {
        return Ok(Admission::Refused(Refusal::MissingBatch));
    }
    Ok(Admission::New(header_outputs(alloc, node, header)?))
}

/// The outputs that have, in pieces, what the order has gained.
fn order_outputs<H: Held>(alloc: Global, now: &H, later: &H) -> Result<Outputs, AllocError>
    ensures { IfOk result (λ outputs. outputs ≡ admitting.order_outputs (H.state now.now) (H.state later.now)) }
{
    let mut outputs = Outputs::new(alloc);
    push_order(alloc, &mut outputs, now, later)?;
    Ok(outputs)
}

/// The outputs of a new vote on the own header of a round: the certificate if the vote completes it, and what that adds to the order.
fn vote_outputs<S: Sign, H: Held>(
    alloc: Global,
    node: &Node<S>,
    now: &H,
    later: &H,
    round: u64,
) -> Result<Outputs, AllocError>
    ensures { IfOk result (λ outputs. outputs ≡ admitting.vote_outputs (node_view S.scheme node.now) (H.state now.now) (H.state later.now) round) }
{
    let mut outputs = Outputs::new(alloc);
    if let Some(certificate) = completed_at(alloc, node, later, round)? {
        outputs.push(Output::Certificate(certificate))?;
    }
    push_order(alloc, &mut outputs, now, later)?;
    Ok(outputs)
}

/// The answer to a vote if the certificate of an own header of its round is held.
fn held_answer(alloc: Global, held: &Certificate, vote: &Vote) -> Result<Admission, AllocError>
    ensures { IfOk result (λ answer. answer ≡ admitting.held_answer held.now vote.now) }
{
    if header_digest(&held.header) != vote.header {
        return Ok(Admission::Refused(Refusal::CertConflict));
    }
    let mut outputs = Outputs::new(alloc);
    outputs.push(Output::Certificate(held.try_clone()?))?;
    Ok(Admission::Known(outputs))
}

/// The answer to a vote if there is an own header of its round.
fn own_header_answer<S: Sign, H: Held>(
    alloc: Global,
    node: &Node<S>,
    now: &H,
    later: &H,
    header: &Header,
    vote: &Vote,
) -> Result<Admission, AllocError>
    ensures { IfOk result (λ answer. answer ≡ admitting.own_header_answer (node_view S.scheme node.now) (H.state now.now) (H.state later.now) header.now vote.now) }
{
    if header_digest(&header.body) != vote.header {
        return Ok(Admission::Refused(Refusal::NotOurs));
    }
    let round = vote.round.number();
    let certificates = now.certificates(alloc)?;
    if let Some(held) = slot(&certificates, round, node.own.0) {
        return held_answer(alloc, held, vote);
    }
    if now.counted(round, vote.voter.0).is_some() {
        return Ok(Admission::Known(Outputs::new(alloc)));
    }
    Ok(Admission::New(vote_outputs(alloc, node, now, later, round)?))
}

/// The answer to a vote.
pub fn vote_answer<S: Sign, H: Held>(
    alloc: Global,
    node: &Node<S>,
    now: &H,
    later: &H,
    vote: &Vote,
) -> Result<Admission, AllocError>
    ensures { IfOk result (λ answer. answer ≡ admitting.vote_answer (node_view S.scheme node.now) (H.state now.now) (H.state later.now) vote.now) }
{
    if !node.is_own(vote.author) {
        return Ok(Admission::Refused(Refusal::NotOurs));
    }
    let round = vote.round.number();
    if is_low(floor_in(alloc, node, now)?, round) {
        return Ok(Admission::Refused(Refusal::TooOld));
    }
    match now.own_header(round) {
        None => Ok(Admission::Refused(Refusal::NotOurs)),
        Some(header) => own_header_answer(alloc, node, now, later, header, vote),
    }
}

/// Whether two headers are the same.
fn same_header(one: &HeaderBody, other: &HeaderBody) -> bool
    ensures { result ≡ admitting.same_header one.now other.now }
{
    (one.author == other.author && one.round == other.round)
        && (one.batches.as_slice() == other.batches.as_slice()
            && one.parents.as_slice() == other.parents.as_slice())
}

/// The answer to a certificate if one of its round and author is held already.
fn held_certificate_answer(
    alloc: Global,
    held: &Certificate,
    certificate: &Certificate,
) -> Admission
    ensures { result ≡ admitting.held_certificate_answer held.now certificate.now }
{
    if digest_of(&held.header) != digest_of(&certificate.header) {
        return Admission::Refused(Refusal::CertConflict);
    }
    if same_header(&held.header, &certificate.header) {
        return Admission::Known(Outputs::new(alloc));
    }
    Admission::Refused(Refusal::DigestClash)
}

/// The answer to a certificate.
pub fn certificate_answer<S: Sign, H: Held>(
    alloc: Global,
    node: &Node<S>,
    now: &H,
    later: &H,
    certificate: &Certificate,
) -> Result<Admission, AllocError>
    ensures { IfOk result (λ answer. answer ≡ admitting.certificate_answer (node_view S.scheme node.now) (H.state now.now) (H.state later.now) certificate.now) }
{
    let floor = floor_in(alloc, node, now)?;
    let header = &certificate.header;
    if is_low(floor, header.round.number()) {
        return Ok(Admission::Refused(Refusal::TooOld));
    }
    let certificates = now.certificates(alloc)?;
    if let Some(held) = slot(&certificates, header.round.number(), header.author.0) {
        return Ok(held_certificate_answer(alloc, held, certificate));
    }
    if !all_held(&certificates, floor, header) {
        return Ok(Admission::Refused(Refusal::MissingParents));
    }
    Ok(Admission::New(order_outputs(alloc, now, later)?))
}

/// The answer to a coin.
pub fn coin_answer<S: Sign, H: Held>(
    alloc: Global,
    node: &Node<S>,
    now: &H,
    later: &H,
    sender: Author,
    coin: &Coin,
) -> Result<Admission, AllocError>
    ensures { IfOk result (λ answer. answer ≡ admitting.coin_answer (node_view S.scheme node.now) (H.state now.now) (H.state later.now) sender coin.now) }
{
    if !node.is_own(sender) {
        return Ok(Admission::Refused(Refusal::NotOurs));
    }
    let coins = now.coins(alloc)?;
    let wave = coin.wave.number();
    if let Some(taken) = coins.get((wave - 1) as usize) {
        if *taken == coin.value {
            return Ok(Admission::Known(Outputs::new(alloc)));
        }
        return Ok(Admission::Refused(Refusal::CoinConflict));
    }
    if wave != coins.len() as u64 + 1 {
        return Ok(Admission::Refused(Refusal::CoinOutOfTurn));
    }
    if !is_full_in(alloc, node, now, 2 * wave + 1)? {
        return Ok(Admission::Refused(Refusal::CoinEarly));
    }
    Ok(Admission::New(order_outputs(alloc, now, later)?))
}

/// The answer to an event, given what the node has before the event and what it has with it.
///
/// # Errors
/// An allocation failed.
pub fn answer<S: Sign, H: Held>(
    alloc: Global,
    node: &Node<S>,
    now: &H,
    later: &H,
    event: &Event,
) -> Result<Admission, AllocError>
    ensures { IfOk result (λ answer. answer ≡ admitting.answer (node_view S.scheme node.now) (H.state now.now) (H.state later.now) event.now) }
{
    match &event.message {
        Message::Batch(batch) => batch_answer(alloc, node, now, batch),
        Message::BatchAck(ack) => Ok(ack_answer(alloc, node, now, ack)),
        Message::Header(header) => header_answer(alloc, node, now, header),
        Message::Vote(vote) => vote_answer(alloc, node, now, later, vote),
        Message::Certificate(certificate) => {
            certificate_answer(alloc, node, now, later, certificate)
        }
        Message::Coin(coin) => coin_answer(alloc, node, now, later, event.sender, coin),
    }
}
