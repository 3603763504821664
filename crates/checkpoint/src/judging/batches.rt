//! Whether the batches of a checkpoint are sound, and the entries that a store then has for them.

ghost use Rattle.std.specs.Prelude.{◌≡◌, ℕ, ◌+◌, ◌<◌, ◌^◌, ◌==◌, ◌&&◌, [], List, length, All, not, nat_lt, is_some, IfOk, IfErr, IfSome, OnOk};
ghost use Rattle.std.specs.List.{list_all, list_any};
ghost use Rattle.std.specs.Map.{values_of};
ghost use Rattle.committee.specs.Sets.{has};
ghost use Rattle.committee.specs.declared.members.TheConstants.{MAX_MEMBERS};
ghost use Rattle.batchstore.specs.Kept.{IsUnderItsDigest};
ghost use Rattle.spec_checkpoint.specs.Data.{KeptBatch};
ghost use Rattle.spec_checkpoint.specs.Faults as faults;
ghost use Rattle.spec_model.specs.Holdings as holdings;
ghost use Rattle.spec_model.specs.Nodes.{node_view};
ghost use Rattle.spec_model.specs.Slots.{same_digest};
ghost use Rattle.wire.specs.declared.message.Message.TheVariants as message;
ghost use Rattle.checkpoint.specs.Judging.{AreHeldAs, IsHeldAs, NoneFails, ReportsFirst};

use crate::error::LoadError;
use crate::reading::ReadBatch;
use batchstore::Held;
use committee::MemberSet;
use header::{Node, recheck};
use sigface::Sign;
use std::alloc::{AllocError, Global};
use std::collections::BTreeSet;
use wire::{Author, Batch, Digest, Message};

/// The entries that a store has for these batches, each with the batch's digest. The first batch is in the record at place `first`.
///
/// # Errors
/// `Unsound` with the first record whose batch isn't sound; `Memory` where an allocation failed.
pub fn sound_batches<S: Sign>(
    alloc: Global,
    node: &Node<S>,
    first: u64,
    batches: Vec<ReadBatch>,
) -> Result<Vec<(Digest, Held)>, LoadError>
    requires { first + length batches.items < 2 ^ 64 }
    ensures ok { OnOk result (NoneFails first (faults.batch_tests (node_view S.scheme node.now) [] batches.items)) }
    ensures digested { IfOk result (λ found. All IsUnderItsDigest found.items) }
    ensures held { IfOk result (λ found. AreHeldAs batches.items (values_of found.items)) }
    ensures err { IfErr result (ReportsFirst first (faults.batch_tests (node_view S.scheme node.now) [] batches.items)) }
{
    let mut digests = BTreeSet::new(alloc);
    let mut found = Vec::with_capacity(alloc, batches.len())?;
    let mut place = first;
    for batch in batches {
        let Some(entry) = sound_batch(node, found.len(), batch)? else {
            return Err(LoadError::Unsound(place));
        };
        if !digests.insert(entry.0)? {
            return Err(LoadError::Unsound(place));
        }
        found.push(entry)?;
        place += 1;
    }
    Ok(found)
}

/// The entry that a store has for a batch, with the batch's digest; None where the batch isn't sound. `before` other batches stand before
/// it. Whether one of them has the same digest isn't tested here.
fn sound_batch<S: Sign>(
    node: &Node<S>,
    before: usize,
    batch: ReadBatch,
) -> Result<Option<(Digest, Held)>, AllocError>
    ensures sound { let seen = node_view S.scheme node.now in IfOk result (λ found. (others : List KeptBatch) → length others ≡ before
        → faults.is_batch_sound seen others batch ≡ (is_some found && not (list_any (λ other. same_digest (holdings.batch_digest other.batch) (holdings.batch_digest batch.batch)) others))) }
    ensures digested { IfOk result (λ found. IfSome found IsUnderItsDigest) }
    ensures held { IfOk result (λ found. IfSome found (λ entry. IsHeldAs batch entry.1)) }
{
    let ReadBatch {
        named,
        members,
        batch,
    } = batch;
    let Some(digest) = digest_of(node, &batch)? else {
        return Ok(None);
    };
    let author = batch.author();
    let is_plain = members.is_empty() && !named;
    if before >= node.committee.batches() as usize
        || !are_members(node.size(), &members)
        || !(node.is_own(author) || is_plain)
    {
        return Ok(None);
    }
    Ok(Some((digest, Held::new(batch, set_of(&members), named))))
}

/// The digest of a batch, if the batch passes the checks with its author as the sender.
fn digest_of<S: Sign>(node: &Node<S>, batch: &Batch) -> Result<Option<Digest>, AllocError>
    ensures passes { let seen = node_view S.scheme node.now in IfOk result (λ found. faults.passes seen batch.now.author (message.Batch batch.now) ≡ is_some found) }
    ensures digest { IfOk result (λ found. IfSome found (λ digest. digest ≡ holdings.batch_digest batch.now)) }
{
    match recheck(
        &node.committee,
        batch.author(),
        Message::Batch(batch.share()?),
    ) {
        Ok(checked) => match checked.batch_digest() {
            Some(digest) => Ok(Some(*digest)),
            None => unreachable!(),
        },
        Err(_) => Ok(None),
    }
}

/// Whether each of these numbers is that of a member of the committee.
fn are_members(size: u16, members: &[u16]) -> bool
    ensures { result ≡ list_all (λ member. nat_lt member size) members.now }
{
    members.iter().all(|member| *member < size)
}

/// The set of the members with these numbers.
fn set_of(members: &[u16]) -> MemberSet
    requires { All (λ member. member < MAX_MEMBERS) members.now }
    ensures { (member : ℕ) → has result member ≡ list_any (λ one. one == member) members.now }
{
    let mut set = MemberSet::none();
    for member in members {
        set.insert(Author(*member));
    }
    set
}
