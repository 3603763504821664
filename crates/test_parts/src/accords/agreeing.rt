//! Tests whether two nodes with their histories are of one committee, and whether the order of one is a prefix of the other's.

ghost use Rattle.std.specs.Prelude.{◌≡◌, ◌↔◌, IsTrue, IfOk, true};
ghost use Rattle.std.specs.Option.{option_map_or};
ghost use Rattle.spec_accord.specs.Accord.{Agree, AreOfOne, HaveOneHeader};
ghost use Rattle.spec_model.specs.Admitting.{same_header};
ghost use Rattle.spec_model.specs.Histories as histories;
ghost use Rattle.spec_model.specs.Holdings as holdings;
ghost use Rattle.spec_model.specs.Nodes.{node_view};
ghost use Rattle.spec_model.specs.Slots.{slots_of};
ghost use Rattle.test_parts.specs.Accords as accords;

use crate::accords::alike::{coins_agree, digests_agree, same_committee, same_header};
use header::Event;
use ref_order::certificates::{certificates, order};
use ref_order::histories::coins;
use ref_order::past::Past;
use ref_order::slots::slot;
use sigface::Sign;
use std::alloc::{AllocError, Global};
use wire::{Certificate, Digest, HeaderBody};

/// What two nodes with their histories have in common.
#[derive(Drop)]
pub struct Agreed {
    /// The nodes are of one committee, and neither their slots nor their coins contradict one another.
    pub premises: bool,
    /// One of the orders is a prefix of the other.
    pub agrees: bool,
    /// The order of the first node.
    pub one: Vec<Digest>,
    /// The order of the second node.
    pub other: Vec<Digest>,
}

/// Whether the slot of this round and author, if a certificate fills it, has this header.
fn has_header(certificates: &[Certificate], round: u64, author: u16, header: &HeaderBody) -> bool
    ensures { result ≡ option_map_or (λ c. same_header header.now c.header) (slots_of certificates.now round author) true }
{
    match slot(certificates, round, author) {
        None => true,
        Some(certificate) => same_header(header, &certificate.header),
    }
}

/// Whether a slot that is filled in both lists of certificates has the same header in both.
fn has_one_header(one: &[Certificate], other: &[Certificate], round: u64, author: u16) -> bool
    ensures { result ≡ accords.has_one_header (slots_of one.now) (slots_of other.now) round author }
{
    match slot(one, round, author) {
        None => true,
        Some(certificate) => has_header(other, round, author, &certificate.header),
    }
}

/// Whether the slot of this certificate, if it is filled in both lists of certificates, has the same header in both.
fn has_one_at(one: &[Certificate], other: &[Certificate], certificate: &Certificate) -> bool
    ensures { result ≡ accords.has_one_header (slots_of one.now) (slots_of other.now) certificate.now.header.round certificate.now.header.author.0 }
{
    let header = &certificate.header;
    has_one_header(one, other, header.round.number(), header.author.0)
}

/// Whether no slot has one header in the first list of certificates and another header in the second.
fn have_one_header(one: &[Certificate], other: &[Certificate]) -> bool
    ensures { result ≡ accords.have_one_header one.now other.now }
{
    one.iter()
        .all(|certificate| has_one_at(one, other, certificate))
}

/// Whether the slots of two nodes don't contradict one another.
fn slots_agree<S: Sign>(alloc: Global, one: &Past<S>, other: &Past<S>) -> Result<bool, AllocError>
    ensures { IfOk result (λ found. IsTrue found ↔ HaveOneHeader (holdings.slots (node_view S.scheme one.now.node.now) one.now.history.now) (holdings.slots (node_view S.scheme other.now.node.now) other.now.history.now)) }
{
    let first = certificates(alloc, one.node, one.history)?;
    let second = certificates(alloc, other.node, other.history)?;
    Ok(have_one_header(&first, &second))
}

/// Whether the coins of two nodes don't contradict one another.
fn waves_agree(alloc: Global, one: &[Event], other: &[Event]) -> Result<bool, AllocError>
    ensures { IfOk result (λ found. IsTrue found ↔ Agree (histories.coins one.now) (histories.coins other.now)) }
{
    let (first, second) = (coins(alloc, one)?, coins(alloc, other)?);
    Ok(coins_agree(&first, &second))
}

/// Whether two nodes are of one committee, and neither their slots nor their coins contradict one another.
fn are_of_one<S: Sign>(alloc: Global, one: &Past<S>, other: &Past<S>) -> Result<bool, AllocError>
    ensures { IfOk result (λ found. IsTrue found ↔ AreOfOne (node_view S.scheme one.now.node.now) (node_view S.scheme other.now.node.now) one.now.history.now other.now.history.now) }
{
    if !same_committee(&one.node.committee, &other.node.committee) {
        return Ok(false);
    }
    if !slots_agree(alloc, one, other)? {
        return Ok(false);
    }
    waves_agree(alloc, one.history, other.history)
}

/// What two nodes with their histories have in common.
///
/// # Errors
/// `AllocError` where an allocation failed.
pub fn agree<S: Sign>(alloc: Global, one: &Past<S>, other: &Past<S>) -> Result<Agreed, AllocError>
    ensures premises { IfOk result (λ found. IsTrue found.premises ↔ AreOfOne (node_view S.scheme one.now.node.now) (node_view S.scheme other.now.node.now) one.now.history.now other.now.history.now) }
    ensures agrees { IfOk result (λ found. IsTrue found.agrees ↔ Agree (holdings.order (node_view S.scheme one.now.node.now) one.now.history.now) (holdings.order (node_view S.scheme other.now.node.now) other.now.history.now)) }
    ensures one { IfOk result (λ found. found.one.items ≡ holdings.order (node_view S.scheme one.now.node.now) one.now.history.now) }
    ensures other { IfOk result (λ found. found.other.items ≡ holdings.order (node_view S.scheme other.now.node.now) other.now.history.now) }
{
    let premises = are_of_one(alloc, one, other)?;
    let first = order(alloc, one.node, one.history)?;
    let second = order(alloc, other.node, other.history)?;
    let agrees = digests_agree(&first, &second);
    Ok(Agreed {
        premises,
        agrees,
        one: first,
        other: second,
    })
}
