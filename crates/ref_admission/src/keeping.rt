//! What a node keeps of a history.

ghost use Rattle.std.specs.Prelude.{◌≡◌, IfOk, option_copied};
ghost use Rattle.spec_model.specs.Giving.{kept};
ghost use Rattle.spec_model.specs.Holdings as holdings;
ghost use Rattle.spec_model.specs.Nodes.{node_view};

use header::{Event, Node};
use ref_order::certificates::{certificates, floor, highest_of};
use ref_order::holdings::{counted_at, is_low, voted_digest, voted_header};
use ref_order::slots::slot;
use sigface::Sign;
use std::alloc::{AllocError, Global};
use wire::{Certificate, Digest, Header, Vote};

/// Whether a round is low after a history: it is 0, or at or below a floor above 0.
fn is_low_at<S: Sign>(
    alloc: Global,
    node: &Node<S>,
    history: &[Event],
    round: u64,
) -> Result<bool, AllocError>
    ensures { IfOk result (λ low. low ≡ holdings.is_low (holdings.floor (node_view S.scheme node.now) history.now) round) }
{
    Ok(is_low(floor(alloc, node, history)?, round))
}

/// The digest of the header of this round and author that the node voted for; None if the round is low.
pub fn kept_vote<S: Sign>(
    alloc: Global,
    node: &Node<S>,
    history: &[Event],
    round: u64,
    author: u16,
) -> Result<Option<Digest>, AllocError>
    ensures { IfOk result (λ found. found ≡ (kept (node_view S.scheme node.now) history.now).votes round author) }
{
    if is_low_at(alloc, node, history, round)? {
        return Ok(None);
    }
    Ok(voted_digest(history, round, author))
}

/// The own header of a round; None if the round is low.
pub fn kept_header<'a, S: Sign>(
    alloc: Global,
    node: &Node<S>,
    history: &'a [Event],
    round: u64,
) -> Result<Option<&'a Header>, AllocError>
    ensures { IfOk result (λ found. option_copied found ≡ (kept (node_view S.scheme node.now) history.now).own_headers round) }
{
    if is_low_at(alloc, node, history, round)? {
        return Ok(None);
    }
    Ok(voted_header(history, round, node.own.0))
}

/// The vote of a member that counts on the own header of this round; None if the round is low.
pub fn kept_counted<S: Sign>(
    alloc: Global,
    node: &Node<S>,
    history: &[Event],
    round: u64,
    voter: u16,
) -> Result<Option<Vote>, AllocError>
    ensures { IfOk result (λ found. found ≡ (kept (node_view S.scheme node.now) history.now).counted round voter) }
{
    if is_low_at(alloc, node, history, round)? {
        return Ok(None);
    }
    Ok(counted_at(node, history, round, voter))
}

/// The certificate of this round and author; None if the round is below the floor.
pub fn kept_slot<S: Sign>(
    alloc: Global,
    node: &Node<S>,
    history: &[Event],
    round: u64,
    author: u16,
) -> Result<Option<Certificate>, AllocError>
    ensures { IfOk result (λ found. found ≡ (kept (node_view S.scheme node.now) history.now).slots round author) }
{
    if round < floor(alloc, node, history)? {
        return Ok(None);
    }
    match slot(&certificates(alloc, node, history)?, round, author) {
        None => Ok(None),
        Some(certificate) => Ok(Some(certificate.try_clone()?)),
    }
}

/// The greatest round of any certificate so far.
pub fn kept_highest<S: Sign>(
    alloc: Global,
    node: &Node<S>,
    history: &[Event],
) -> Result<u64, AllocError>
    ensures { IfOk result (λ highest. highest ≡ (kept (node_view S.scheme node.now) history.now).highest) }
{
    let certificates = certificates(alloc, node, history)?;
    Ok(highest_of(&certificates))
}
