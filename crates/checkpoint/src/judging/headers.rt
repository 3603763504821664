//! Whether the own headers of a checkpoint are sound, and the own headers with votes that are then restored.

ghost use Rattle.std.specs.Prelude.{◌≡◌, ◌+◌, ◌<◌, ◌^◌, [], length, map, All, nat_lt, false, IfOk, IfErr, OnOk};
ghost use Rattle.std.specs.List.{list_all};
ghost use Rattle.std.specs.Option.{option_map_or};
ghost use Rattle.sequencer.specs.Restored.{AreListed, listed};
ghost use Rattle.spec_checkpoint.specs.Faults as faults;
ghost use Rattle.spec_model.specs.Holdings as holdings;
ghost use Rattle.spec_model.specs.Nodes.{node_view};
ghost use Rattle.wire.specs.Encoding.{encoding};
ghost use Rattle.wire.specs.declared.message.Message.TheVariants as message;
ghost use Rattle.checkpoint.specs.Judging.{HasOwnVote, NoneFails, ReportsFirst, is_header_sound_at, is_completed_well_at, slots_at};
ghost use Rattle.checkpoint.specs.Kept.{header_of};

use crate::error::LoadError;
use crate::judging::held::{are_parents_held, entry_of};
use crate::judging::votes::is_low;
use crate::judging::weights::{is_one_needed, weight_of_voters};
use crate::reading::ReadHeader;
use admission::VotedHeader;
use header::{Node, recheck};
use sigface::Sign;
use std::alloc::{AllocError, Global};
use wire::{
    Certificate, Digest, Header, HeaderBody, Message, Vote, VoteEntries, VoteEntry,
    certificate_digest, encode, header_digest,
};

/// The own headers as they are restored, each with the node's own vote on it. The first one is in the record at place `first`.
///
/// # Errors
/// `Unsound` with the first record whose header isn't sound; `Memory` where an allocation failed.
pub fn sound_headers<S: Sign>(
    alloc: Global,
    node: &Node<S>,
    floor: u64,
    list: &[(Certificate, Digest)],
    first: u64,
    headers: Vec<ReadHeader>,
) -> Result<Vec<VotedHeader>, LoadError>
    requires few { first + length headers.items < 2 ^ 64 }
    requires listed { AreListed list.now }
    ensures ok { let seen = node_view S.scheme node.now in OnOk result (NoneFails first (map (is_header_sound_at seen floor (slots_at seen floor list.now)) headers.items)) }
    ensures voted { IfOk result (λ found. All (HasOwnVote (node_view S.scheme node.now)) found.items) }
    ensures same { IfOk result (λ found. map header_of found.items ≡ headers.items) }
    ensures err { let seen = node_view S.scheme node.now in IfErr result (ReportsFirst first (map (is_header_sound_at seen floor (slots_at seen floor list.now)) headers.items)) }
{
    let mut found = Vec::with_capacity(alloc, headers.len())?;
    let mut place = first;
    for read in headers {
        if !is_header_sound(alloc, node, floor, list, &read)? {
            return Err(LoadError::Unsound(place));
        }
        found.push(voted(alloc, node, read)?)?;
        place += 1;
    }
    Ok(found)
}

/// An own header with the votes on it, as it is restored. The node's own vote isn't in the record; the node signs it again.
fn voted<S: Sign>(
    alloc: Global,
    node: &Node<S>,
    read: ReadHeader,
) -> Result<VotedHeader, AllocError>
    ensures voted { IfOk result (HasOwnVote (node_view S.scheme node.now)) }
    ensures same { IfOk result (λ voted. header_of voted ≡ read) }
{
    let ReadHeader { header, votes } = read;
    let vote = own_vote(node, &header.body);
    Ok(VotedHeader {
        header,
        vote,
        votes: votes.as_slice().to_vec(alloc)?,
    })
}

/// The node's own vote on a header. Its signature is of the digest of the header's certificate.
fn own_vote<S: Sign>(node: &Node<S>, header: &HeaderBody) -> Vote
    ensures { result ≡ holdings.own_vote (node_view S.scheme node.now) header.now }
{
    let digest = header_digest(header);
    let certificate = certificate_digest(&digest, header.round, header.author);
    Vote {
        header: digest,
        round: header.round,
        author: header.author,
        voter: node.own,
        signature: node.signer.sign(&certificate),
    }
}

/// Whether an own header is sound: its round isn't low, it passes the checks as the node's, its parents are held, the voters on it are
/// members, and the votes on it weigh less than a quorum or its certificate is held.
fn is_header_sound<S: Sign>(
    alloc: Global,
    node: &Node<S>,
    floor: u64,
    list: &[(Certificate, Digest)],
    read: &ReadHeader,
) -> Result<bool, AllocError>
    requires { AreListed list.now }
    ensures { let seen = node_view S.scheme node.now in IfOk result (λ sound. sound ≡ is_header_sound_at seen floor (slots_at seen floor list.now) read.now) }
{
    let body = &read.header.body;
    if is_low(floor, body.round.number()) {
        return Ok(false);
    }
    if !passes(node, &read.header)? {
        return Ok(false);
    }
    if !are_parents_held(node, floor, list, body) {
        return Ok(false);
    }
    if !are_voters(node.size(), read.votes.as_slice()) {
        return Ok(false);
    }
    is_completed_well(alloc, node, floor, list, read)
}

/// Whether a header passes the checks with the node itself as the sender.
fn passes<S: Sign>(node: &Node<S>, header: &Header) -> Result<bool, AllocError>
    ensures { let seen = node_view S.scheme node.now in IfOk result (λ passes. passes ≡ faults.passes seen seen.own (message.Header header.now)) }
{
    match recheck(
        &node.committee,
        node.own,
        Message::Header(header.try_clone()?),
    ) {
        Ok(_) => Ok(true),
        Err(_) => Ok(false),
    }
}

/// Whether the voter of each of these votes is a member of the committee.
fn are_voters(size: u16, votes: &[VoteEntry]) -> bool
    ensures { result ≡ list_all (λ entry. nat_lt entry.voter.0 size) votes.now }
{
    votes.iter().all(|entry| entry.voter.0 < size)
}

/// Whether the votes on an own header are few enough, or rightly complete. They weigh less than a quorum; or the header's slot holds its
/// certificate, and there is a vote of another member without which they would weigh less than a quorum.
fn is_completed_well<S: Sign>(
    alloc: Global,
    node: &Node<S>,
    floor: u64,
    list: &[(Certificate, Digest)],
    read: &ReadHeader,
) -> Result<bool, AllocError>
    requires listed { AreListed list.now }
    requires above { 0 < read.now.header.body.round }
    ensures { let seen = node_view S.scheme node.now in IfOk result (λ well. well ≡ is_completed_well_at seen (slots_at seen floor list.now) read.now) }
{
    if weight_of_voters(node, read) < node.quorum() {
        return Ok(true);
    }
    if !has_certificate(alloc, node, list, &read.header.body)? {
        return Ok(false);
    }
    Ok(is_one_needed(node, read, read.votes.as_slice()))
}

/// Whether the slot of an own header holds the certificate of this header.
fn has_certificate<S: Sign>(
    alloc: Global,
    node: &Node<S>,
    list: &[(Certificate, Digest)],
    header: &HeaderBody,
) -> Result<bool, AllocError>
    requires { AreListed list.now }
    ensures { IfOk result (λ has. has ≡ option_map_or (λ certificate. faults.same_body certificate.header header.now) (listed list.now header.now.round node.now.own.0) false) }
{
    match entry_of(list, header.round.number(), node.own.0) {
        None => Ok(false),
        Some((certificate, _)) => same_body(alloc, &certificate.header, header),
    }
}

/// Whether two header bodies are equal: it compares the encodings of a certificate with each of them.
#[tactic(auto, using(crate::proofs::SameBodies::same_with_votes))]
fn same_body(alloc: Global, one: &HeaderBody, other: &HeaderBody) -> Result<bool, AllocError>
    ensures { IfOk result (λ same. same ≡ faults.same_body one.now other.now) }
{
    Ok(certificate_bytes(alloc, one)? == certificate_bytes(alloc, other)?)
}

/// The encoding of a certificate that has this header and no votes.
fn certificate_bytes(alloc: Global, header: &HeaderBody) -> Result<Vec<u8>, AllocError>
    ensures { IfOk result (λ bytes. bytes.items ≡ encoding (message.Certificate (record { header = header.now; votes = [] }))) }
{
    let header = header.try_clone()?;
    let votes = VoteEntries::new(alloc);
    encode(alloc, &Message::Certificate(Certificate { header, votes }))
}
