//! Encodes the outputs of a validator as bytes.

ghost use Rattle.std.specs.Prelude.{◌≡◌, ◌≤◌, ◌+◌, ◌*◌, ◌++◌, length, IfOk, OnOk};
ghost use Rattle.wire.specs.declared.limits.TheConstants.{MAX_FRAME_BYTES, MAX_ORDER_DIGESTS};
ghost use Rattle.wire.specs.Outputs.{receiver_of, digests_bytes, order_bytes, content_of, content_len, output_bytes, AreOrdered, IsOutput};

use crate::encoding::{
    ACK_BYTES, VOTE_BYTES, batch_length, certificate_length, header_length, put_ack, put_batch,
    put_certificate, put_digest, put_header, put_vote,
};
use crate::numbers::{eight_bytes, four_bytes, two_bytes};
use crate::output::{OrderDigests, Output};
use std::alloc::{AllocError, Global};

/// The receiver's number in outputs for all members. No member has this number.
pub const TO_ALL: u16 = 0xffff;

/// The receiver's number in outputs for the node's own host. No member has this number.
pub const HOST: u16 = 0xfffe;

/// The tag of a piece of the order.
pub const ORDER_TAG: u8 = 7;

/// The length of a receiver's number, in bytes.
const RECEIVER_BYTES: usize = 2;

/// The length of a piece of the order before its digests, in bytes: the tag, the place, and the number of digests.
const ORDER_FRONT_BYTES: usize = 13;

/// The length of a digest, in bytes.
const DIGEST_BYTES: usize = 32;

fn receiver(output: &Output) -> u16
    ensures { result ≡ receiver_of output.now }
{
    match output {
        Output::Batch(_) | Output::Header(_) | Output::Certificate(_) => TO_ALL,
        Output::Ack { to, ack: _ } => to.0,
        Output::Vote(vote) => vote.author.0,
        Output::Order {
            start: _,
            digests: _,
        } => HOST,
    }
}

fn put_digests(out: &mut Vec<u8>, digests: &OrderDigests) -> Result<(), AllocError>
    ensures bytes { OnOk result (out.new.items ≡ out.old.items ++ digests_bytes digests.now) }
    ensures len { OnOk result (length out.new.items ≡ length out.old.items + (4 + 32 * length digests.now)) }
    ensures fits { OnOk result (AreOrdered digests.now) }
{
    let list = digests.as_slice();
    out.extend_from_slice(&four_bytes(list.len() as u32))?;
    for digest in list {
        put_digest(out, digest)?;
    }
    Ok(())
}

fn put_order(out: &mut Vec<u8>, start: u64, digests: &OrderDigests) -> Result<(), AllocError>
    ensures bytes { OnOk result (out.new.items ≡ out.old.items ++ order_bytes start digests.now) }
    ensures len { OnOk result (length out.new.items ≡ length out.old.items + (13 + 32 * length digests.now)) }
    ensures fits { OnOk result (AreOrdered digests.now) }
{
    out.push(ORDER_TAG)?;
    out.extend_from_slice(&eight_bytes(start))?;
    put_digests(out, digests)
}

fn put_content(out: &mut Vec<u8>, output: &Output) -> Result<(), AllocError>
    ensures bytes { OnOk result (out.new.items ≡ out.old.items ++ content_of output.now) }
    ensures fits { OnOk result (IsOutput output.now) }
    ensures limit { OnOk result (length out.new.items ≤ length out.old.items + (13 + 32 * MAX_ORDER_DIGESTS)) }
{
    match output {
        Output::Batch(batch) => put_batch(out, batch),
        Output::Ack { to: _, ack } => put_ack(out, ack),
        Output::Header(header) => put_header(out, header),
        Output::Vote(vote) => put_vote(out, vote),
        Output::Certificate(certificate) => put_certificate(out, certificate),
        Output::Order { start, digests } => put_order(out, *start, digests),
    }
}

// The length of an output's content, in bytes.
fn content_length(output: &Output) -> usize
    ensures len { result ≡ content_len output.now }
    ensures limit { result ≤ 13 + 32 * MAX_ORDER_DIGESTS }
{
    match output {
        Output::Batch(batch) => batch_length(batch),
        Output::Ack { to: _, ack: _ } => ACK_BYTES,
        Output::Header(header) => header_length(header),
        Output::Vote(_) => VOTE_BYTES,
        Output::Certificate(certificate) => certificate_length(certificate),
        Output::Order { start: _, digests } => ORDER_FRONT_BYTES + DIGEST_BYTES * digests.len(),
    }
}

/// The bytes of an output: its receiver, in two bytes, and its content, which is a message or a piece of the order. On `AllocError` an
/// allocation failed.
pub fn encode_output(alloc: Global, output: &Output) -> Result<Vec<u8>, AllocError>
    ensures bytes { IfOk result (λ bytes. bytes.items ≡ output_bytes output.now) }
    ensures fits { IfOk result (λ _. IsOutput output.now) }
    // Each output fits a frame.
    ensures limit { IfOk result (λ bytes. length bytes.items ≤ MAX_FRAME_BYTES) }
{
    let mut out = Vec::with_capacity(alloc, RECEIVER_BYTES + content_length(output))?;
    out.extend_from_slice(&two_bytes(receiver(output)))?;
    put_content(&mut out, output)?;
    Ok(out)
}
