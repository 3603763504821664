//! Drops from the tables what a node doesn't keep.

ghost use Rattle.std.specs.Prelude.{◌≡◌, ℕ, IfOk, None, nat_lt, if◌then◌else◌};
ghost use Rattle.spec_model.specs.Giving as giving;
ghost use Rattle.spec_model.specs.Giving.{unless_low};
ghost use Rattle.spec_model.specs.Nodes.{node_view};
ghost use Rattle.spec_model.specs.Slots.{slots_of};
ghost use Rattle.ref_machine.specs.Tables.{counted_in, headers_in, state_of, votes_in};

use crate::tables::{SlotVote, Tables};
use header::Node;
use ref_order::held::floor_in;
use ref_order::holdings::is_low;
use sigface::Sign;
use std::alloc::{AllocError, Global};
use wire::{Certificate, Header, Vote};

/// Keeps the node's votes of rounds that aren't low.
fn keep_votes(votes: &mut Vec<SlotVote>, floor: u64)
    ensures { (round author : ℕ) → votes_in votes.new.items round author ≡ unless_low floor round (votes_in votes.old.items round author) }
{
    votes.retain(|vote| !is_low(floor, vote.round.number()));
}

/// Keeps the own headers of rounds that aren't low.
fn keep_own_headers(headers: &mut Vec<Header>, floor: u64)
    ensures { (round : ℕ) → headers_in headers.new.items round ≡ unless_low floor round (headers_in headers.old.items round) }
{
    headers.retain(|header| !is_low(floor, header.body.round.number()));
}

/// Keeps the votes on own headers of rounds that aren't low.
fn keep_counted(counted: &mut Vec<Vote>, floor: u64)
    ensures { (round voter : ℕ) → counted_in counted.new.items round voter ≡ unless_low floor round (counted_in counted.old.items round voter) }
{
    counted.retain(|vote| !is_low(floor, vote.round.number()));
}

/// Keeps the certificates of rounds from the floor on.
fn keep_certificates(certificates: &mut Vec<Certificate>, floor: u64)
    ensures { (round author : ℕ) → slots_of certificates.new.items round author ≡ (if nat_lt round floor then None else slots_of certificates.old.items round author) }
{
    certificates.retain(|certificate| certificate.header.round.number() >= floor);
}

/// The tables with what a node keeps: votes, own headers and the votes on them of rounds that aren't low, certificates of rounds from the
/// floor on, and all the rest.
///
/// # Errors
/// An allocation failed.
pub fn collected<S: Sign>(
    alloc: Global,
    node: &Node<S>,
    mut tables: Tables,
) -> Result<Tables, AllocError>
    ensures { IfOk result (λ found. state_of found ≡ giving.collected (node_view S.scheme node.now) (state_of tables)) }
{
    let floor = floor_in(alloc, node, &tables)?;
    keep_votes(&mut tables.votes, floor);
    keep_own_headers(&mut tables.own_headers, floor);
    keep_counted(&mut tables.counted, floor);
    keep_certificates(&mut tables.certificates, floor);
    Ok(tables)
}
