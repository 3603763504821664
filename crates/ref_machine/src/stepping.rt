//! The answers of a node to events by its tables, its tables after an event, and the header that it proposes.

ghost use Rattle.std.specs.Prelude.{◌≡◌, IfOk};
ghost use Rattle.spec_machine.specs.Machine as machine;
ghost use Rattle.spec_model.specs.Nodes.{node_view};
ghost use Rattle.ref_machine.specs.Tables.{state_of};

use crate::collecting::collected;
use crate::growing::grown;
use crate::rounds::round_in;
use crate::tables::Tables;
use header::{Admission, Event, Node, Refusal};
use ref_admission::admitting::answer;
use ref_admission::proposing::propose_of;
use ref_order::certificates::certificates;
use sigface::Sign;
use std::alloc::{AllocError, Global};
use wire::{Header, Round};

/// The tables of a node that has taken no event: they have the genesis certificates.
///
/// # Errors
/// An allocation failed.
pub fn fresh<S: Sign>(alloc: Global, node: &Node<S>) -> Result<Tables, AllocError>
    ensures { IfOk result (λ tables. state_of tables ≡ machine.fresh (node_view S.scheme node.now)) }
{
    Ok(Tables {
        batches: Vec::new(alloc),
        acks: Vec::new(alloc),
        named: Vec::new(alloc),
        votes: Vec::new(alloc),
        own_headers: Vec::new(alloc),
        counted: Vec::new(alloc),
        certificates: certificates(alloc, node, &[])?,
        highest: Round::genesis(),
        coins: Vec::new(alloc),
        order: Vec::new(alloc),
    })
}

/// The tables after a new event: all that it brings is added, and then what is below the new floor is dropped.
///
/// # Errors
/// An allocation failed.
pub fn after<S: Sign>(
    alloc: Global,
    node: &Node<S>,
    tables: Tables,
    event: &Event,
) -> Result<Tables, AllocError>
    ensures { IfOk result (λ found. state_of found ≡ machine.after (node_view S.scheme node.now) (state_of tables) event.now) }
{
    collected(alloc, node, grown(alloc, node, tables, &event.message)?)
}

/// The answer of a node with these tables to an event.
///
/// # Errors
/// An allocation failed.
pub fn answered<S: Sign>(
    alloc: Global,
    node: &Node<S>,
    tables: &Tables,
    event: &Event,
) -> Result<Admission, AllocError>
    ensures { IfOk result (λ answer. answer ≡ machine.answered (node_view S.scheme node.now) (state_of tables.now) event.now) }
{
    let later = grown(alloc, node, tables.try_clone(alloc)?, &event.message)?;
    answer(alloc, node, tables, &later, event)
}

/// The header that the node proposes; None if its round already has an own header.
///
/// # Errors
/// An allocation failed.
pub fn proposed<S: Sign>(
    alloc: Global,
    node: &Node<S>,
    tables: &Tables,
) -> Result<Option<Header>, AllocError>
    ensures { IfOk result (λ found. found ≡ machine.proposed (node_view S.scheme node.now) (state_of tables.now)) }
{
    propose_of(alloc, node, tables, round_in(node, tables))
}

/// Whether an answer refuses an event because parents are missing.
fn is_missing_parents(answer: &Admission) -> bool
    ensures { result ≡ machine.is_missing_parents answer.now }
{
    matches!(answer, Admission::Refused(Refusal::MissingParents))
}

/// Whether an event can be answered without waiting: the answer isn't that parents are missing.
///
/// # Errors
/// An allocation failed.
pub fn is_ready<S: Sign>(
    alloc: Global,
    node: &Node<S>,
    tables: &Tables,
    event: &Event,
) -> Result<bool, AllocError>
    ensures { IfOk result (λ ready. ready ≡ machine.is_ready (node_view S.scheme node.now) (state_of tables.now) event.now) }
{
    Ok(!is_missing_parents(&answered(alloc, node, tables, event)?))
}
