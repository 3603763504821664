//! The certificate that a new message adds, and what that adds to the order.

ghost use Rattle.std.specs.Prelude.{◌≡◌, ◌++◌, IfOk, IfSome, option_copied};
ghost use Rattle.spec_machine.specs.Machine as machine;
ghost use Rattle.spec_model.specs.Holdings.{ledger_of};
ghost use Rattle.spec_model.specs.Nodes.{node_view};
ghost use Rattle.spec_model.specs.Ordering.{segments};
ghost use Rattle.spec_model.specs.Slots.{slots_of};
ghost use Rattle.spec_model.specs.States.{ledger_in};
ghost use Rattle.ref_order.specs.Ledgers.{ledger_view};
ghost use Rattle.ref_machine.specs.Tables.{completed_by, counted_and, state_of, vote_if};

use crate::copying::digests_again;
use crate::lookups::is_counted;
use crate::tables::Tables;
use header::Node;
use ref_order::held::Held;
use ref_order::ledger::Ledger;
use ref_order::newer::{last_wave, newer};
use ref_order::ordering::{leader, segment, top};
use ref_order::slots::digest_of;
use ref_order::votes::{Counted, certificate_by};
use sigface::Sign;
use std::alloc::{AllocError, Global};
use wire::{Certificate, Digest, Message, Vote};

/// What a node has, with one more vote, to look up the votes on its own header of that vote's round.
struct WithVote<'a, H: Held> {
    held: &'a H,
    vote: &'a Vote,
}

impl<'a, H: Held> Clone for WithVote<'a, H> {
    fn clone(&self) -> Result<Self, AllocError> {
        Ok(*self)
    }
}

impl<'a, H: Held> Copy for WithVote<'a, H> {}

/// The vote itself, if it is this member's vote on the node's own header of this round; None otherwise.
fn only_of(vote: &Vote, round: u64, voter: u16) -> Option<Vote>
    ensures value { result ≡ vote_if vote.now round voter }
    ensures voter { IfSome result (λ vote. vote.voter.0 ≡ voter) }
{
    if is_counted(vote, round, voter) {
        return Some(*vote);
    }
    None
}

impl<'a, H: Held> Counted for WithVote<'a, H> {
    ghost vote_of = { λ s. counted_and (H.state s.held.now) s.vote.now };

    fn vote(&self, voter: u16) -> Option<Vote> {
        let round = self.vote.round.number();
        match self.held.counted(round, voter) {
            None => only_of(self.vote, round, voter),
            Some(vote) => Some(vote),
        }
    }
}

/// The certificate of an own header that this vote completes; None if it completes none.
fn completed_with<S: Sign, H: Held>(
    alloc: Global,
    node: &Node<S>,
    held: &H,
    vote: &Vote,
) -> Result<Option<Certificate>, AllocError>
    ensures { IfOk result (λ found. found ≡ completed_by (node_view S.scheme node.now) (H.state held.now) vote.now) }
{
    match held.own_header(vote.round.number()) {
        None => Ok(None),
        Some(header) => certificate_by(alloc, node, &WithVote { held, vote }, header),
    }
}

/// The certificate that a new message adds: the one that it is, or the one that it completes because it is a vote; None if it adds none.
pub fn certificate_of<S: Sign, H: Held>(
    alloc: Global,
    node: &Node<S>,
    held: &H,
    message: &Message,
) -> Result<Option<Certificate>, AllocError>
    ensures { IfOk result (λ found. found ≡ machine.certificate_of (node_view S.scheme node.now) (H.state held.now) message.now) }
{
    match message {
        Message::Certificate(certificate) => Ok(Some(certificate.try_clone()?)),
        Message::Vote(vote) => completed_with(alloc, node, held, vote),
        _ => Ok(None),
    }
}

/// The last leader that is committed, if there is one.
fn last_leader<'a>(ledger: &Ledger<'a>) -> Option<&'a Certificate>
    ensures { option_copied result ≡ machine.last_leader (ledger_view ledger.now) }
{
    match top(ledger) {
        None => None,
        Some(wave) => leader(ledger, wave),
    }
}

/// The certificates that several leaders order, one leader after the other, given the committed leader before them.
fn segments_after<'a>(
    alloc: Global,
    ledger: &Ledger,
    before: Option<&'a Certificate>,
    leaders: &'a [Certificate],
) -> Result<Vec<Certificate>, AllocError>
    ensures { IfOk result (λ found. found.items ≡ segments (ledger_view ledger.now) (option_copied before.entry) leaders.now) }
{
    let mut found = Vec::new(alloc);
    let mut previous = before;
    for leader in leaders {
        let mut more = segment(alloc, ledger, previous, leader)?;
        found.append(&mut more)?;
        previous = Some(leader);
    }
    Ok(found)
}

/// The digests that the order gains between two ledgers: what the leaders order that are committed in the later one only.
fn newly_ordered(alloc: Global, before: &Ledger, later: &Ledger) -> Result<Vec<Digest>, AllocError>
    ensures { IfOk result (λ found. found.items ≡ machine.newly_ordered (ledger_view before.now) (ledger_view later.now)) }
{
    let leaders = newer(alloc, later, last_wave(before))?;
    let ordered = segments_after(alloc, later, last_leader(before), &leaders)?;
    ordered.iter().map(|c| digest_of(&c.header)).collect(alloc)
}

/// The order in the tables, with what these certificates and coins add to it.
pub fn ordered_with<S: Sign>(
    alloc: Global,
    node: &Node<S>,
    tables: &Tables,
    certificates: &[Certificate],
    coins: &[u64],
) -> Result<Vec<Digest>, AllocError>
    ensures { IfOk result (λ found. found.items ≡ tables.now.order.items ++ machine.newly_ordered (ledger_in (node_view S.scheme node.now) (state_of tables.now)) (ledger_of (node_view S.scheme node.now) (slots_of certificates.now) coins.now)) }
{
    let before = Ledger {
        committee: &node.committee,
        certificates: &tables.certificates,
        coins: &tables.coins,
    };
    let later = Ledger {
        committee: &node.committee,
        certificates,
        coins,
    };
    let mut order = digests_again(alloc, &tables.order)?;
    order.append(&mut newly_ordered(alloc, &before, &later)?)?;
    Ok(order)
}
