//! Adds to each table what a new message brings.

ghost use Rattle.std.specs.Prelude.{◌≡◌, ℕ, ◌++◌, ◌||◌, IfOk, option_copied, option_map};
ghost use Rattle.std.specs.List.{list_any};
ghost use Rattle.std.specs.Option.{option_or, option_to_list};
ghost use Rattle.spec_machine.specs.Machine as machine;
ghost use Rattle.spec_machine.specs.Machine.{acknowledges, names, header_at, vote_at};
ghost use Rattle.spec_model.specs.Histories.{as_batch, as_coin};
ghost use Rattle.spec_model.specs.Nodes.{node_view};
ghost use Rattle.spec_model.specs.Slots.{header_digest, same_digest, slots_of};
ghost use Rattle.spec_model.specs.Words.{Digest};
ghost use Rattle.ref_machine.specs.Tables.{acked_in, counted_in, headers_in, named_in, state_of, votes_in};

use crate::newly::{certificate_of, ordered_with};
use crate::tables::{SlotVote, Tables};
use header::Node;
use ref_order::held::Held;
use ref_order::holdings::own_vote;
use sigface::Sign;
use std::alloc::{AllocError, Global};
use wire::{Batch, BatchAck, BatchReference, Certificate, Digest, Header, Message, Round, Vote};

/// The batches, with this message added if it is a batch.
fn with_batch(mut batches: Vec<Batch>, message: &Message) -> Result<Vec<Batch>, AllocError>
    ensures { IfOk result (λ found. found.items ≡ batches.items ++ option_to_list (as_batch message.now)) }
{
    if let Message::Batch(batch) = message {
        batches.push(batch.share()?)?;
    }
    Ok(batches)
}

/// The acknowledgements, with this message added if it is one.
fn with_ack(mut acks: Vec<BatchAck>, message: &Message) -> Result<Vec<BatchAck>, AllocError>
    ensures { IfOk result (λ found. (digest : Digest) (member : ℕ) → acked_in found.items digest member ≡ (acked_in acks.items digest member || acknowledges message.now digest member)) }
{
    if let Message::BatchAck(ack) = message {
        acks.push(*ack)?;
    }
    Ok(acks)
}

/// Adds the digests of some batches to a list of digests.
fn with_digests(
    mut named: Vec<Digest>,
    batches: &[BatchReference],
) -> Result<Vec<Digest>, AllocError>
    ensures { IfOk result (λ found. (digest : Digest) → named_in found.items digest ≡ (named_in named.items digest || list_any (λ reference. same_digest reference.digest digest) batches.now)) }
{
    for batch in batches {
        named.push(batch.digest)?;
    }
    Ok(named)
}

/// The digests of named batches, with those that this message names added if it is an own header.
fn with_named<S: Sign>(
    node: &Node<S>,
    named: Vec<Digest>,
    message: &Message,
) -> Result<Vec<Digest>, AllocError>
    ensures { IfOk result (λ found. (digest : Digest) → named_in found.items digest ≡ (named_in named.items digest || names (node_view S.scheme node.now) message.now digest)) }
{
    match message {
        Message::Header(header) if node.is_own(header.body.author) => {
            with_digests(named, header.body.batches.as_slice())
        }
        _ => Ok(named),
    }
}

/// The vote that the node gives for the header in a message; None if the message is no header.
fn slot_vote(message: &Message) -> Option<SlotVote>
    ensures { (round author : ℕ) → votes_in (option_to_list result) round author ≡ option_map (λ header. header_digest header.body) (header_at message.now round author) }
{
    match message {
        Message::Header(header) => Some(SlotVote {
            round: header.body.round,
            author: header.body.author,
            digest: wire::header_digest(&header.body),
        }),
        _ => None,
    }
}

/// The node's votes, with the one for this message added if it is a header.
fn with_vote(mut votes: Vec<SlotVote>, message: &Message) -> Result<Vec<SlotVote>, AllocError>
    ensures { IfOk result (λ found. (round author : ℕ) → votes_in found.items round author ≡ option_or (votes_in votes.items round author) (option_map (λ header. header_digest header.body) (header_at message.now round author))) }
{
    if let Some(vote) = slot_vote(message) {
        votes.push(vote)?;
    }
    Ok(votes)
}

/// The own header in a message; None if the message is no own header.
fn own_header<'a, S: Sign>(node: &Node<S>, message: &'a Message) -> Option<&'a Header>
    ensures { (round : ℕ) → headers_in (option_to_list (option_copied result)) round ≡ header_at message.now round node.now.own.0 }
{
    match message {
        Message::Header(header) if node.is_own(header.body.author) => Some(header),
        _ => None,
    }
}

/// The own headers, with this message added if it is one.
fn with_own_header<S: Sign>(
    node: &Node<S>,
    mut headers: Vec<Header>,
    message: &Message,
) -> Result<Vec<Header>, AllocError>
    ensures { IfOk result (λ found. (round : ℕ) → headers_in found.items round ≡ option_or (headers_in headers.items round) (header_at message.now round node.now.own.0)) }
{
    if let Some(header) = own_header(node, message) {
        headers.push(header.try_clone()?)?;
    }
    Ok(headers)
}

/// The vote that a message brings on an own header: the vote that it is, or the node's own vote if it is an own header.
fn new_vote<S: Sign>(node: &Node<S>, message: &Message) -> Option<Vote>
    ensures { (round voter : ℕ) → counted_in (option_to_list result) round voter ≡ vote_at (node_view S.scheme node.now) message.now round voter }
{
    match message {
        Message::Vote(vote) => Some(*vote),
        Message::Header(header) if node.is_own(header.body.author) => {
            Some(own_vote(node, &header.body))
        }
        _ => None,
    }
}

/// The votes that count on own headers, with the one that this message brings added.
fn with_counted<S: Sign>(
    node: &Node<S>,
    mut counted: Vec<Vote>,
    message: &Message,
) -> Result<Vec<Vote>, AllocError>
    ensures { IfOk result (λ found. (round voter : ℕ) → counted_in found.items round voter ≡ option_or (counted_in counted.items round voter) (vote_at (node_view S.scheme node.now) message.now round voter)) }
{
    if let Some(vote) = new_vote(node, message) {
        counted.push(vote)?;
    }
    Ok(counted)
}

/// The certificates, with one more added.
fn with_certificate(
    mut certificates: Vec<Certificate>,
    certificate: Option<&Certificate>,
) -> Result<Vec<Certificate>, AllocError>
    ensures { IfOk result (λ found. (round author : ℕ) → slots_of found.items round author ≡ machine.slots_with (slots_of certificates.items) (option_copied certificate.entry) round author) }
{
    if let Some(certificate) = certificate {
        certificates.push(certificate.try_clone()?)?;
    }
    Ok(certificates)
}

/// The greatest round of a certificate, once one more certificate was added.
fn highest_with(highest: Round, certificate: Option<&Certificate>) -> Round
    ensures { result ≡ machine.highest_with highest (option_copied certificate.entry) }
{
    match certificate {
        Some(certificate) if certificate.header.round.number() > highest.number() => {
            certificate.header.round
        }
        _ => highest,
    }
}

/// The values of the coins, with that of this message added if it is a coin.
fn with_coin(mut coins: Vec<u64>, message: &Message) -> Result<Vec<u64>, AllocError>
    ensures { IfOk result (λ found. found.items ≡ coins.items ++ option_to_list (as_coin message.now)) }
{
    if let Message::Coin(coin) = message {
        coins.push(coin.value)?;
    }
    Ok(coins)
}

/// The tables with all that a new message brings; nothing is dropped.
///
/// # Errors
/// An allocation failed.
pub fn grown<S: Sign>(
    alloc: Global,
    node: &Node<S>,
    tables: Tables,
    message: &Message,
) -> Result<Tables, AllocError>
    ensures { IfOk result (λ found. state_of found ≡ machine.grown (node_view S.scheme node.now) (state_of tables) message.now) }
{
    let certificate = certificate_of(alloc, node, &tables, message)?;
    let certificates = with_certificate(tables.certificates(alloc)?, certificate.as_ref())?;
    let coins = with_coin(tables.coins(alloc)?, message)?;
    let order = ordered_with(alloc, node, &tables, &certificates, &coins)?;
    Ok(Tables {
        batches: with_batch(tables.batches, message)?,
        acks: with_ack(tables.acks, message)?,
        named: with_named(node, tables.named, message)?,
        votes: with_vote(tables.votes, message)?,
        own_headers: with_own_header(node, tables.own_headers, message)?,
        counted: with_counted(node, tables.counted, message)?,
        certificates,
        highest: highest_with(tables.highest, certificate.as_ref()),
        coins,
        order,
    })
}
