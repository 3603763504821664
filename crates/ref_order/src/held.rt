//! What a node has, as the reference implementation looks it up: in a history, or in tables.

ghost use Rattle.std.specs.Prelude.{◌≡◌, ℕ, List, Option, ◌&&◌, nat_lt, length, IfOk, IfSome, option_copied};
ghost use Rattle.committee.specs.Charter.{weight};
ghost use Rattle.committee.specs.Sets.{has};
ghost use Rattle.spec_model.specs.Holdings as holdings;
ghost use Rattle.spec_model.specs.Nodes.{node_view};
ghost use Rattle.spec_model.specs.Slots.{slots_of};
ghost use Rattle.spec_model.specs.States as states;
ghost use Rattle.spec_model.specs.States.{State};
ghost use Rattle.spec_model.specs.Words.{Vote};

use crate::holdings::is_full;
use crate::ledger::Ledger;
use crate::ordering::floor_by;
use crate::votes::{Counted, certificate_by};
use committee::MemberSet;
use header::Node;
use sigface::Sign;
use std::alloc::{AllocError, Global};
use wire::{Author, Batch, Certificate, Digest, Header, Vote};

/// What a node has, as a history or as tables, so that code which looks something up there is written only once.
pub trait Held {
    /// The state of the node, by what it has.
    ghost state: { Self → State };

    /// The batch with this digest, if the node has it.
    fn batch(&self, digest: &Digest) -> Option<&Batch>
        ensures { option_copied result ≡ states.batch_in (state self.now) digest.now };

    /// The batches, in the order in which they were accepted.
    ///
    /// # Errors
    /// An allocation failed.
    fn batches(&self, alloc: Global) -> Result<Vec<Batch>, AllocError>
        ensures { IfOk result (λ found. found.items ≡ (state self.now).batches) };

    /// Whether a member has acknowledged the batch with this digest.
    fn has_acked(&self, digest: &Digest, member: u16) -> bool
        ensures { result ≡ (state self.now).acked digest.now member };

    /// Whether an own header has named the batch with this digest.
    fn was_named(&self, digest: &Digest) -> bool
        ensures { result ≡ (state self.now).named digest.now };

    /// The digest of the header of this round and author that the node voted for.
    fn voted_digest(&self, round: u64, author: u16) -> Option<Digest>
        ensures { result ≡ (state self.now).votes round author };

    /// The own header of this round, if there is one.
    fn own_header(&self, round: u64) -> Option<&Header>
        ensures { option_copied result ≡ (state self.now).own_headers round };

    /// The vote of a member on the own header of this round that counts.
    fn counted(&self, round: u64, voter: u16) -> Option<Vote>
        ensures value { result ≡ (state self.now).counted round voter }
        ensures voter { IfSome result (λ vote. vote.voter.0 ≡ voter) };

    /// The certificates. If there are several of one round and author, the first one counts.
    ///
    /// # Errors
    /// An allocation failed.
    fn certificates(&self, alloc: Global) -> Result<Vec<Certificate>, AllocError>
        ensures { IfOk result (λ found. slots_of found.items ≡ (state self.now).slots) };

    /// The greatest round of any certificate so far.
    ///
    /// # Errors
    /// An allocation failed.
    fn highest(&self, alloc: Global) -> Result<u64, AllocError>
        ensures { IfOk result (λ highest. highest ≡ (state self.now).highest) };

    /// The values of the coins, that of wave 1 first.
    ///
    /// # Errors
    /// An allocation failed.
    fn coins(&self, alloc: Global) -> Result<Vec<u64>, AllocError>
        ensures { IfOk result (λ found. found.items ≡ (state self.now).coins) };

    /// The order: the digests of the ordered certificates.
    ///
    /// # Errors
    /// An allocation failed.
    fn order(&self, alloc: Global) -> Result<Vec<Digest>, AllocError>
        ensures { IfOk result (λ found. found.items ≡ (state self.now).order) };
}

/// Whether the node has an own batch with this digest.
pub fn has_own_batch<S: Sign, H: Held>(node: &Node<S>, held: &H, digest: &Digest) -> bool
    ensures { result ≡ states.has_own_batch (node_view S.scheme node.now) (H.state held.now) digest.now }
{
    match held.batch(digest) {
        None => false,
        Some(batch) => node.is_own(batch.author()),
    }
}

/// The members who are known to hold an own batch: the node itself, and those who acknowledged it.
#[tactic(auto, using(crate::proofs::Sets::in_more, crate::proofs::Sets::out_more))]
fn holders<S: Sign, H: Held>(node: &Node<S>, held: &H, digest: &Digest) -> MemberSet
    ensures { (member : ℕ) → has result member ≡ (nat_lt member (length node.now.committee.keys) && states.holds (node_view S.scheme node.now) (H.state held.now) digest.now member) }
{
    let size = node.size();
    let mut found = MemberSet::none();
    for member in 0..size {
        if member == node.own.0 || held.has_acked(digest, member) {
            found.insert(Author(member));
        }
    }
    found
}

/// The weight of the members who are known to hold an own batch.
fn weight_of_holders<S: Sign, H: Held>(node: &Node<S>, held: &H, digest: &Digest) -> u64
    ensures { result ≡ weight node.now.committee (states.holds (node_view S.scheme node.now) (H.state held.now) digest.now) }
{
    node.committee.weight(&holders(node, held, digest))
}

/// Whether an own batch is available to other members: those who are known to hold it weigh a quorum.
pub fn is_available<S: Sign, H: Held>(node: &Node<S>, held: &H, digest: &Digest) -> bool
    ensures { result ≡ states.is_available (node_view S.scheme node.now) (H.state held.now) digest.now }
{
    has_own_batch(node, held, digest) && node.quorum() <= weight_of_holders(node, held, digest)
}

/// One round of what a node has, to look up the votes on its own header of that round.
struct OfRound<'a, H: Held> {
    held: &'a H,
    round: u64,
}

impl<'a, H: Held> Clone for OfRound<'a, H> {
    fn clone(&self) -> Result<Self, AllocError> {
        Ok(*self)
    }
}

impl<'a, H: Held> Copy for OfRound<'a, H> {}

impl<'a, H: Held> Counted for OfRound<'a, H> {
    ghost vote_of = { λ s. (H.state s.held.now).counted s.round };

    fn vote(&self, voter: u16) -> Option<Vote> {
        self.held.counted(self.round, voter)
    }
}

/// The certificate of the own header of this round; None if the votes on it weigh less than a quorum.
///
/// # Errors
/// An allocation failed.
pub fn completed_at<S: Sign, H: Held>(
    alloc: Global,
    node: &Node<S>,
    held: &H,
    round: u64,
) -> Result<Option<Certificate>, AllocError>
    ensures { IfOk result (λ found. found ≡ states.completed_at (node_view S.scheme node.now) (H.state held.now) round) }
{
    match held.own_header(round) {
        None => Ok(None),
        Some(header) => certificate_by(alloc, node, &OfRound { held, round }, header),
    }
}

/// The floor (the garbage-collection round).
///
/// # Errors
/// An allocation failed.
pub fn floor_in<S: Sign, H: Held>(
    alloc: Global,
    node: &Node<S>,
    held: &H,
) -> Result<u64, AllocError>
    ensures { IfOk result (λ floor. floor ≡ states.floor_in (node_view S.scheme node.now) (H.state held.now)) }
{
    let certificates = held.certificates(alloc)?;
    let coins = held.coins(alloc)?;
    let ledger = Ledger {
        committee: &node.committee,
        certificates: &certificates,
        coins: &coins,
    };
    Ok(floor_by(&ledger))
}

/// Whether the authors of the certificates of this round weigh a quorum.
///
/// # Errors
/// An allocation failed.
pub fn is_full_in<S: Sign, H: Held>(
    alloc: Global,
    node: &Node<S>,
    held: &H,
    round: u64,
) -> Result<bool, AllocError>
    ensures { IfOk result (λ full. full ≡ holdings.is_full (node_view S.scheme node.now) (H.state held.now).slots round) }
{
    let certificates = held.certificates(alloc)?;
    Ok(is_full(node, &certificates, round))
}
