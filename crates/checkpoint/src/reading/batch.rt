//! Reading the record of a batch in a checkpoint.

ghost use Rattle.std.specs.Prelude.{◌≡◌, nat_lt};
ghost use Rattle.std.specs.Int.{w16};
ghost use Rattle.spec_checkpoint.specs.Reading.{mark_at, member_at, counted_at, kept_batch_at};
ghost use Rattle.spec_model.specs.Nodes.{node_view};
ghost use Rattle.wire.specs.Reading.{Gives};
ghost use Rattle.wire.specs.Rising.{follows};

use header::Node;
use sigface::Sign;
use std::alloc::Global;
use std::marker::Model;
use wire::{Batch, WireError};
use wire_read::{Reader, batch_of};

/// What the record of a batch decodes to.
#[derive(Drop)]
pub struct ReadBatch {
    /// Whether an own header names the batch.
    pub named: bool,
    /// The other members who acknowledged the batch, sorted by number. Whether these numbers are those of members isn't tested yet.
    pub members: Vec<u16>,
    /// The batch.
    pub batch: Batch,
}

impl Model for ReadBatch {
    ghost use Rattle.spec_checkpoint.specs.Data.{KeptBatch};

    ghost Value = { KeptBatch };

    ghost view = { λ read. record { named = read.named; members = read.members.items; batch = read.batch } };
}

/// Reads what the record of a batch says after its kind: whether an own header names the batch, who acknowledged it, and the batch.
#[tactic(auto, unfolding(spec_checkpoint::specs::Reading::kept_batch_at))]
pub fn read_batch_of<S: Sign>(
    alloc: Global,
    node: &Node<S>,
    reader: &mut Reader,
) -> Result<ReadBatch, WireError>
    ensures { Gives (λ x. (x, reader.new)) result (kept_batch_at (node_view S.scheme node.now) reader.old) }
{
    let named = mark_of(reader)?;
    let members = members_of(alloc, node, reader)?;
    let batch = batch_of(alloc, reader)?;
    Ok(ReadBatch {
        named,
        members,
        batch,
    })
}

/// Reads the byte that says whether an own header names a batch: 1 or 0.
#[tactic(auto, unfolding(spec_checkpoint::specs::Reading::mark_at))]
fn mark_of(reader: &mut Reader) -> Result<bool, WireError>
    ensures { Gives (λ x. (x, reader.new)) result (mark_at reader.old) }
{
    match reader.slice(1)? {
        [1] => Ok(true),
        [0] => Ok(false),
        _ => Err(WireError::NotCanonical),
    }
}

/// Reads the numbers of the other members who acknowledged a batch, after their count.
fn members_of<S: Sign>(
    alloc: Global,
    node: &Node<S>,
    reader: &mut Reader,
) -> Result<Vec<u16>, WireError>
    ensures { Gives (λ x. (x.items, reader.new)) result (counted_at w16 65535 (member_at (node_view S.scheme node.now)) reader.old) }
{
    let count = reader.count_u16(65535)?;
    let mut members = Vec::new(alloc);
    for _ in 0..count {
        let member = member_of(node, &members, reader)?;
        members.push(member)?;
    }
    Ok(members)
}

/// Reads the number of another member who acknowledged a batch. It has to be greater than the numbers before it.
#[tactic(auto, unfolding(spec_checkpoint::specs::Reading::member_at))]
fn member_of<S: Sign>(node: &Node<S>, before: &[u16], reader: &mut Reader) -> Result<u16, WireError>
    ensures { Gives (λ x. (x, reader.new)) result (member_at (node_view S.scheme node.now) before.now reader.old) }
{
    let member = reader.u16()?;
    if !member_may_follow(before, member) || member == node.own.0 {
        return Err(WireError::NotCanonical);
    }
    Ok(member)
}

/// Whether a number is greater than all of those before it.
fn member_may_follow(before: &[u16], member: u16) -> bool
    ensures { result ≡ follows (λ one. nat_lt one member) before.now }
{
    match before.last() {
        None => true,
        Some(last) => *last < member,
    }
}
