//! The floor and the certificates of the state that a checkpoint stands for.

ghost use Rattle.std.specs.Prelude.{◌≡◌, ◌<◌, ◌≤◌, ◌==◌, [], length, not, filter, map, IfOk, IfSome, if◌then◌else◌};
ghost use Rattle.committee.specs.Charter.{numbers};
ghost use Rattle.spec_checkpoint.specs.Meaning as meaning;
ghost use Rattle.spec_model.specs.Holdings as holdings;
ghost use Rattle.spec_model.specs.Nodes.{node_view, size_of};
ghost use Rattle.spec_model.specs.Ordering as ordering;
ghost use Rattle.spec_model.specs.Slots.{slots_of};
ghost use Rattle.ref_order.specs.Ledgers.{ledger_view};

use crate::kept::Checkpoint;
use header::Node;
use ref_order::ledger::Ledger;
use ref_order::ordering::is_directly_committed;
use sigface::Sign;
use std::alloc::{AllocError, Global};
use wire::{Author, Certificate};

/// The greatest wave whose leader has support. This is a loop: a checkpoint may have so many coins that a recursion over them would exhaust
/// the stack.
fn top_of(ledger: &Ledger) -> Option<u64>
    ensures value { result ≡ ordering.top (ledger_view ledger.now) }
    ensures within { IfSome result (λ wave. (0 < wave) × (wave ≤ length ledger.now.coins.now)) }
{
    let mut found = None;
    for below in 0..ledger.coins.len() as u64 {
        if is_directly_committed(ledger, below + 1) {
            found = Some(below + 1);
        }
    }
    found
}

/// The floor (the garbage-collection round) by a ledger's certificates and coins.
fn floor_of(ledger: &Ledger) -> u64
    ensures { result ≡ ordering.floor_by (ledger_view ledger.now) }
{
    match top_of(ledger) {
        None => 0,
        Some(wave) => (2 * wave - 1).saturating_sub(ledger.committee.depth()),
    }
}

/// The ledger of a checkpoint, which is all that the order depends on: its certificates and coins, with the committee.
fn ledger_of<'a, S: Sign>(node: &'a Node<S>, checkpoint: &'a Checkpoint) -> Ledger<'a>
    ensures { ledger_view result ≡ holdings.ledger_of (node_view S.scheme node.now) (meaning.listed checkpoint.now) checkpoint.now.coins }
{
    Ledger {
        committee: &node.committee,
        certificates: &checkpoint.certificates,
        coins: &checkpoint.coins,
    }
}

/// The greatest wave whose leader has support, by a checkpoint's certificates and coins.
pub fn listed_top<S: Sign>(node: &Node<S>, checkpoint: &Checkpoint) -> Option<u64>
    ensures { result ≡ ordering.top (holdings.ledger_of (node_view S.scheme node.now) (meaning.listed checkpoint.now) checkpoint.now.coins) }
{
    top_of(&ledger_of(node, checkpoint))
}

/// The floor by a checkpoint's certificates and coins.
pub fn listed_floor<S: Sign>(node: &Node<S>, checkpoint: &Checkpoint) -> u64
    ensures { result ≡ meaning.listed_floor (node_view S.scheme node.now) checkpoint.now }
{
    floor_of(&ledger_of(node, checkpoint))
}

/// The genesis certificate of an author.
fn genesis(alloc: Global, author: u16) -> Certificate
    ensures { result ≡ holdings.genesis author }
{
    Certificate::genesis(alloc, Author(author))
}

/// The genesis certificates of all members.
fn first(alloc: Global, size: u16) -> Result<Vec<Certificate>, AllocError>
    ensures { IfOk result (λ found. found.items ≡ map holdings.genesis (numbers size)) }
{
    let mut found = Vec::new(alloc);
    for author in 0..size {
        found.push(genesis(alloc, author))?;
    }
    Ok(found)
}

/// The genesis certificates if the floor is 0, and otherwise none.
fn first_held<S: Sign>(
    alloc: Global,
    node: &Node<S>,
    checkpoint: &Checkpoint,
) -> Result<Vec<Certificate>, AllocError>
    ensures { let seen = node_view S.scheme node.now in IfOk result (λ found. found.items ≡ (if meaning.listed_floor seen checkpoint.now == 0 then map holdings.genesis (numbers (size_of seen)) else [])) }
{
    if listed_floor(node, checkpoint) == 0 {
        return first(alloc, node.size());
    }
    Ok(Vec::new(alloc))
}

/// The certificates whose round is above 0, without the genesis certificates.
fn above_genesis(
    alloc: Global,
    certificates: &[Certificate],
) -> Result<Vec<Certificate>, AllocError>
    ensures { IfOk result (λ found. found.items ≡ filter (λ one. not (one.header.round == 0)) certificates.now) }
{
    let mut found = Vec::new(alloc);
    for certificate in certificates {
        if certificate.header.round.number() != 0 {
            found.push(certificate.try_clone()?)?;
        }
    }
    Ok(found)
}

/// The certificates of the state that a checkpoint stands for.
pub fn certificates_held<S: Sign>(
    alloc: Global,
    node: &Node<S>,
    checkpoint: &Checkpoint,
) -> Result<Vec<Certificate>, AllocError>
    ensures { let seen = node_view S.scheme node.now in IfOk result (λ found. slots_of found.items ≡ (meaning.state_in seen checkpoint.now).slots) }
{
    let mut found = first_held(alloc, node, checkpoint)?;
    found.append(&mut above_genesis(alloc, &checkpoint.certificates)?)?;
    Ok(found)
}
