//! What a node may give out after a history, except pieces of the order.

ghost use Rattle.std.specs.Prelude.{◌≡◌, IfOk, filter, flat_map, map};
ghost use Rattle.spec_model.specs.Admitting as admitting;
ghost use Rattle.spec_model.specs.Giving as giving;
ghost use Rattle.spec_model.specs.Histories as histories;
ghost use Rattle.spec_model.specs.Holdings as holdings;
ghost use Rattle.spec_model.specs.Nodes.{node_view};
ghost use Rattle.wire.specs.declared.output.Output.TheVariants as output;

use crate::outputs::{batch_outputs, header_outputs};
use header::{Event, Node, Outputs};
use ref_order::certificates::certificates;
use ref_order::histories::{batches, headers};
use ref_order::holdings::voted_digest;
use sigface::Sign;
use std::alloc::{AllocError, Global};
use wire::{Certificate, Output, header_digest};

/// Whether a certificate may be given out: it is of an own header, and the node has voted for that header.
pub fn is_given<S: Sign>(node: &Node<S>, history: &[Event], certificate: &Certificate) -> bool
    ensures { result ≡ giving.is_given (node_view S.scheme node.now) history.now certificate.now }
{
    if !node.is_own(certificate.header.author) {
        return false;
    }
    match voted_digest(history, certificate.header.round.number(), node.own.0) {
        None => false,
        Some(digest) => header_digest(&certificate.header) == digest,
    }
}

/// The outputs for all batches in a history.
fn of_batches<S: Sign>(
    alloc: Global,
    node: &Node<S>,
    history: &[Event],
) -> Result<Outputs, AllocError>
    ensures { IfOk result (λ found. found ≡ flat_map (admitting.batch_outputs (node_view S.scheme node.now)) (histories.batches history.now)) }
{
    let mut found = Outputs::new(alloc);
    let batches = batches(alloc, history)?;
    for batch in &batches {
        found.append(batch_outputs(alloc, node, batch)?)?;
    }
    Ok(found)
}

/// The outputs for all headers in a history.
fn of_headers<S: Sign>(
    alloc: Global,
    node: &Node<S>,
    history: &[Event],
) -> Result<Outputs, AllocError>
    ensures { IfOk result (λ found. found ≡ flat_map (admitting.header_outputs (node_view S.scheme node.now)) (histories.headers history.now)) }
{
    let mut found = Outputs::new(alloc);
    let headers = headers(alloc, history)?;
    for header in &headers {
        found.append(header_outputs(alloc, node, header)?)?;
    }
    Ok(found)
}

/// The certificates of own headers that the node has voted for.
fn own_certificates<S: Sign>(
    alloc: Global,
    node: &Node<S>,
    history: &[Event],
) -> Result<Outputs, AllocError>
    ensures { IfOk result (λ found. found ≡ map output.Certificate (filter (giving.is_given (node_view S.scheme node.now) history.now) (holdings.certificates (node_view S.scheme node.now) history.now))) }
{
    let mut found = Outputs::new(alloc);
    let certificates = certificates(alloc, node, history)?;
    for certificate in &certificates {
        if is_given(node, history, certificate) {
            found.push(Output::Certificate(certificate.try_clone()?))?;
        }
    }
    Ok(found)
}

/// All that may be given out except pieces of the order: the outputs for all batches and headers, and the own certificates.
pub fn given<S: Sign>(
    alloc: Global,
    node: &Node<S>,
    history: &[Event],
) -> Result<Outputs, AllocError>
    ensures { IfOk result (λ found. found ≡ giving.given (node_view S.scheme node.now) history.now) }
{
    let mut found = of_batches(alloc, node, history)?;
    found.append(of_headers(alloc, node, history)?)?;
    found.append(own_certificates(alloc, node, history)?)?;
    Ok(found)
}
