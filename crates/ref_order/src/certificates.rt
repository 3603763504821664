//! The certificates, the order, the floor and the round of a node, computed from its history.

ghost use Rattle.std.specs.Prelude.{◌≡◌, IfOk, filter_map, map};
ghost use Rattle.spec_model.specs.Histories.{headers};
ghost use Rattle.spec_model.specs.Holdings as holdings;
ghost use Rattle.committee.specs.Charter.{numbers};
ghost use Rattle.spec_model.specs.Nodes.{node_view};
ghost use Rattle.spec_model.specs.States as states;

use crate::histories::{coins, headers, received};
use crate::holdings::{counted_vote, is_full};
use crate::ledger::Ledger;
use crate::ordering::{floor_by, order_by};
use crate::votes::{Counted, certificate_by, votes_by};
use header::{Event, Node};
use sigface::Sign;
use std::alloc::{AllocError, Global};
use wire::{Author, Certificate, Digest, Header, HeaderBody, Vote, VoteEntries};

/// An own header in a node's history, to look up the votes on it that count.
struct OnHeader<'a, S: Sign> {
    node: &'a Node<S>,
    history: &'a [Event],
    header: &'a HeaderBody,
}

impl<'a, S: Sign> Clone for OnHeader<'a, S> {
    fn clone(&self) -> Result<Self, AllocError> {
        Ok(*self)
    }
}

impl<'a, S: Sign> Copy for OnHeader<'a, S> {}

impl<'a, S: Sign> Counted for OnHeader<'a, S> {
    ghost vote_of = { λ s. holdings.counted_vote (node_view S.scheme s.node.now) s.history.now s.header.now };

    fn vote(&self, voter: u16) -> Option<Vote> {
        counted_vote(self.node, self.history, self.header, voter)
    }
}

/// The votes on an own header that count, as a certificate has them, sorted by voter.
pub fn votes_on<S: Sign>(
    alloc: Global,
    node: &Node<S>,
    history: &[Event],
    header: &HeaderBody,
) -> Result<VoteEntries, AllocError>
    ensures { IfOk result (λ found. found ≡ holdings.votes_on (node_view S.scheme node.now) history.now header.now) }
{
    let counted = OnHeader {
        node,
        history,
        header,
    };
    votes_by(alloc, node, &counted)
}

/// The certificate of an own header; None if the votes on it weigh less than a quorum.
pub fn completed<S: Sign>(
    alloc: Global,
    node: &Node<S>,
    history: &[Event],
    header: &Header,
) -> Result<Option<Certificate>, AllocError>
    ensures { IfOk result (λ found. found ≡ holdings.completed (node_view S.scheme node.now) history.now header.now) }
{
    let counted = OnHeader {
        node,
        history,
        header: &header.body,
    };
    certificate_by(alloc, node, &counted, header)
}

/// The genesis certificate of an author.
fn genesis(alloc: Global, author: u16) -> Certificate
    ensures { result ≡ holdings.genesis author }
{
    Certificate::genesis(alloc, Author(author))
}

/// The genesis certificates of all members.
fn first(alloc: Global, size: u16) -> Result<Vec<Certificate>, AllocError>
    ensures { IfOk result (λ found. found.items ≡ map holdings.genesis (numbers size)) }
{
    let mut found = Vec::new(alloc);
    for author in 0..size {
        found.push(genesis(alloc, author))?;
    }
    Ok(found)
}

/// The certificates of own headers for which the votes in a history weigh a quorum.
fn own<S: Sign>(
    alloc: Global,
    node: &Node<S>,
    history: &[Event],
) -> Result<Vec<Certificate>, AllocError>
    ensures { IfOk result (λ found. found.items ≡ filter_map (holdings.completed (node_view S.scheme node.now) history.now) (headers history.now)) }
{
    let mut found = Vec::new(alloc);
    let headers = headers(alloc, history)?;
    for header in &headers {
        if let Some(certificate) = completed(alloc, node, history, header)? {
            found.push(certificate)?;
        }
    }
    Ok(found)
}

/// All certificates after a history: those of the genesis, those that came in, and those of own headers.
pub fn certificates<S: Sign>(
    alloc: Global,
    node: &Node<S>,
    history: &[Event],
) -> Result<Vec<Certificate>, AllocError>
    ensures { IfOk result (λ found. found.items ≡ holdings.certificates (node_view S.scheme node.now) history.now) }
{
    let mut found = first(alloc, node.size())?;
    found.append(&mut received(alloc, history)?)?;
    found.append(&mut own(alloc, node, history)?)?;
    Ok(found)
}

/// The order after a history: the digests of the ordered certificates.
pub fn order<S: Sign>(
    alloc: Global,
    node: &Node<S>,
    history: &[Event],
) -> Result<Vec<Digest>, AllocError>
    ensures { IfOk result (λ found. found.items ≡ holdings.order (node_view S.scheme node.now) history.now) }
{
    let certificates = certificates(alloc, node, history)?;
    let coins = coins(alloc, history)?;
    let ledger = Ledger {
        committee: &node.committee,
        certificates: &certificates,
        coins: &coins,
    };
    order_by(alloc, &ledger)
}

/// The floor (the garbage-collection round) after a history.
pub fn floor<S: Sign>(alloc: Global, node: &Node<S>, history: &[Event]) -> Result<u64, AllocError>
    ensures { IfOk result (λ floor. floor ≡ holdings.floor (node_view S.scheme node.now) history.now) }
{
    let certificates = certificates(alloc, node, history)?;
    let coins = coins(alloc, history)?;
    let ledger = Ledger {
        committee: &node.committee,
        certificates: &certificates,
        coins: &coins,
    };
    Ok(floor_by(&ledger))
}

/// The greatest round of these certificates; 0 if there is none.
pub fn highest_of(certificates: &[Certificate]) -> u64
    ensures { result ≡ states.highest_of certificates.now }
{
    let mut highest = 0;
    for certificate in certificates {
        highest = highest.max(certificate.header.round.number());
    }
    highest
}

/// The round of a node with these certificates: 1 plus the greatest round that has certificates by a quorum of authors.
pub fn round_by<S: Sign>(node: &Node<S>, certificates: &[Certificate]) -> u64
    ensures { result ≡ holdings.round_by (node_view S.scheme node.now) certificates.now }
{
    let mut greatest = 0;
    for certificate in certificates {
        let round = certificate.header.round.number();
        if is_full(node, certificates, round) {
            greatest = greatest.max(round);
        }
    }
    1 + greatest
}

/// The round of the node after a history.
pub fn round<S: Sign>(alloc: Global, node: &Node<S>, history: &[Event]) -> Result<u64, AllocError>
    ensures { IfOk result (λ round. round ≡ holdings.round (node_view S.scheme node.now) history.now) }
{
    let certificates = certificates(alloc, node, history)?;
    Ok(round_by(node, &certificates))
}
