//! Outputs as messages, and whom they are for.

ghost use Rattle.std.specs.Prelude.{◌≡◌, ◌≢◌, ◌⊎◌, None, IfOk, IfSome, IsNone, OnErr};
ghost use Rattle.wire.specs.Outputs as wire;
ghost use Rattle.wire.specs.declared.output_bytes.TheConstants.{TO_ALL};
ghost use Rattle.cluster.specs.Outputs.{message_of};

use std::alloc::AllocError;
use wire::{Author, Message, Output};

/// A copy of the message in an output. None for a piece of the order, which is for the host only. A batch's body is shared, not copied. On
/// `AllocError` an allocation failed.
pub(crate) fn message_in(output: &Output) -> Result<Option<Message>, AllocError>
    ensures message { IfOk result (λ message. message ≡ message_of output.now) }
    ensures some { OnErr result (message_of output.now ≢ None) }
{
    let message = match output {
        Output::Batch(batch) => Message::Batch(batch.share()?),
        Output::Ack { to: _, ack } => Message::BatchAck(*ack),
        Output::Header(header) => Message::Header(header.try_clone()?),
        Output::Vote(vote) => Message::Vote(*vote),
        Output::Certificate(certificate) => Message::Certificate(certificate.try_clone()?),
        Output::Order {
            start: _,
            digests: _,
        } => return Ok(None),
    };
    Ok(Some(message))
}

/// A copy of a message. A batch's body is shared, not copied. On `AllocError` an allocation failed.
pub(crate) fn message_again(message: &Message) -> Result<Message, AllocError>
    ensures { IfOk result (λ again. again ≡ message.now) }
{
    Ok(match message {
        Message::Batch(batch) => Message::Batch(batch.share()?),
        Message::BatchAck(ack) => Message::BatchAck(*ack),
        Message::Header(header) => Message::Header(header.try_clone()?),
        Message::Vote(vote) => Message::Vote(*vote),
        Message::Certificate(certificate) => Message::Certificate(certificate.try_clone()?),
        Message::Coin(coin) => Message::Coin(*coin),
    })
}

/// The member that an output is for. None if the output is for all other members, or is a piece of the order, which carries no message.
pub(crate) fn receiver_of(output: &Output) -> Option<Author>
    ensures some { IfSome result (λ to. to.0 ≡ wire.receiver_of output.now) }
    ensures none { IsNone result → (wire.receiver_of output.now ≡ TO_ALL) ⊎ (message_of output.now ≡ None) }
{
    match output {
        Output::Ack { to, ack: _ } => Some(*to),
        Output::Vote(vote) => Some(vote.author),
        _ => None,
    }
}
