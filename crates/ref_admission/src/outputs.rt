//! The outputs that events make.

ghost use Rattle.std.specs.Prelude.{◌≡◌, ◌+◌, ◌<◌, ◌≤◌, ◌^◌, ◌++◌, ◌∷◌, [], IfOk, OnOk, drop, length, take};
ghost use Rattle.spec_model.specs.Admitting as admitting;
ghost use Rattle.spec_model.specs.Nodes.{node_view};

use header::{Node, Outputs};
use ref_order::held::Held;
use ref_order::holdings::own_vote;
use sigface::Sign;
use std::alloc::{AllocError, Global};
use wire::{Batch, BatchAck, Digest, Header, Output, batch_digest};

/// The output for a batch: an own batch for all members, or an acknowledgement for its author.
pub fn batch_outputs<S: Sign>(
    alloc: Global,
    node: &Node<S>,
    batch: &Batch,
) -> Result<Outputs, AllocError>
    ensures { IfOk result (λ outputs. outputs ≡ admitting.batch_outputs (node_view S.scheme node.now) batch.now) }
{
    let mut outputs = Outputs::new(alloc);
    if node.is_own(batch.author()) {
        outputs.push(Output::Batch(batch.share()?))?;
    } else {
        let ack = BatchAck {
            author: node.own,
            batch: batch_digest(batch),
        };
        let to = batch.author();
        outputs.push(Output::Ack { to, ack })?;
    }
    Ok(outputs)
}

/// The output for a header: an own header for all members, or the node's vote for its author.
pub fn header_outputs<S: Sign>(
    alloc: Global,
    node: &Node<S>,
    header: &Header,
) -> Result<Outputs, AllocError>
    ensures { IfOk result (λ outputs. outputs ≡ admitting.header_outputs (node_view S.scheme node.now) header.now) }
{
    let mut outputs = Outputs::new(alloc);
    if node.is_own(header.body.author) {
        outputs.push(Output::Header(header.try_clone()?))?;
    } else {
        outputs.push(Output::Vote(own_vote(node, &header.body)))?;
    }
    Ok(outputs)
}

/// The elements of the list `after` past the length of the list `before`.
fn following<'a>(before: &[Digest], after: &'a [Digest]) -> &'a [Digest]
    ensures value { result.now ≡ drop (length before.now) after.now }
    ensures small { length before.now + length result.now < 2 ^ 63 }
{
    if before.len() >= after.len() {
        return &[];
    }
    &after[before.len()..]
}

/// Adds outputs that have, in pieces, the digests by which an order has grown.
fn push_grown(
    alloc: Global,
    outputs: &mut Outputs,
    before: &[Digest],
    after: &[Digest],
) -> Result<(), AllocError>
    ensures { OnOk result (outputs.new ≡ outputs.old ++ admitting.pieces (length before.now) (drop (length before.now) after.now)) }
{
    outputs.push_order(alloc, before.len() as u64, following(before, after))
}

/// Adds outputs that have, in pieces, what the order has gained between two states of the node.
pub fn push_order<H: Held>(
    alloc: Global,
    outputs: &mut Outputs,
    now: &H,
    later: &H,
) -> Result<(), AllocError>
    ensures { OnOk result (outputs.new ≡ outputs.old ++ admitting.order_outputs (H.state now.now) (H.state later.now)) }
{
    let before = now.order(alloc)?;
    let after = later.order(alloc)?;
    push_grown(alloc, outputs, &before, &after)
}
