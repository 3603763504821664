//! What the histories of two nodes (a pair) have in common, and how many pairs there are of each kind.

use crate::accords::agreeing::{Agreed, agree};
use crate::accords::playing::Played;
use ref_order::certificates::certificates;
use ref_order::histories::coins;
use ref_order::ledger::Ledger;
use ref_order::newer::last_wave;
use ref_order::ordering::{committed, floor_by, is_directly_committed};
use ref_order::past::Past;
use ref_order::slots::slot;
use sha2::{Digest as Hash, Sha256};
use std::alloc::{AllocError, Global};
use test_cases::write_hex;
use wire::{Certificate, Digest};

/// The kinds of pairs, in the order in which they are counted.
const KINDS: [&str; 9] = [
    "pairs",
    "legal",
    "premises",
    "agree",
    "both floors above 0",
    "a wave skipped",
    "a wave committed directly and through a later leader",
    "unlike certificates at or below both floors",
    "orders of unlike length",
];

/// How many pairs there are of each kind.
#[derive(Clone, Copy)]
pub struct Counts {
    counts: [u64; 9],
}

/// What follows from a history: its certificates and coins, the leaders that they commit, and the floor.
#[derive(Drop)]
struct Decided {
    certificates: Vec<Certificate>,
    coins: Vec<u64>,
    leaders: Vec<Certificate>,
    floor: u64,
}

/// What the definitions call a ledger: the certificates and the coins of a history.
fn ledger<'a>(played: &'a Played, certificates: &'a [Certificate], coins: &'a [u64]) -> Ledger<'a> {
    Ledger {
        committee: &played.node.committee,
        certificates,
        coins,
    }
}

fn decide(alloc: Global, played: &Played) -> Result<Decided, AllocError> {
    let certificates = certificates(alloc, &played.node, &played.history)?;
    let coins = coins(alloc, &played.history)?;
    let leaders = committed(alloc, &ledger(played, &certificates, &coins))?;
    let floor = floor_by(&ledger(played, &certificates, &coins));
    Ok(Decided {
        certificates,
        coins,
        leaders,
        floor,
    })
}

/// A history that was played, and what follows from it.
#[derive(Clone, Copy)]
struct Side<'a> {
    played: &'a Played,
    decided: &'a Decided,
}

impl<'a> Side<'a> {
    fn ledger(&self) -> Ledger<'a> {
        ledger(self.played, &self.decided.certificates, &self.decided.coins)
    }

    /// Whether a wave was skipped: fewer leaders are committed than there are waves up to the last one whose leader has enough support.
    fn skips(&self) -> bool {
        (self.decided.leaders.len() as u64) < last_wave(&self.ledger())
    }

    /// Whether the leader of a wave is committed.
    fn commits(&self, wave: u64) -> bool {
        let first = wave.saturating_mul(2).saturating_sub(1);
        self.decided
            .leaders
            .iter()
            .any(|leader| leader.header.round.number() == first)
    }

    /// Whether some wave is directly committed (by the support for its own leader) by this history, and by the other one only through a
    /// later leader.
    fn is_before(&self, other: &Side) -> bool {
        let (here, there) = (self.ledger(), other.ledger());
        for wave in 1..here.coins.len() as u64 + 1 {
            if is_before_at(&here, &there, wave) && other.commits(wave) {
                return true;
            }
        }
        false
    }

    /// Whether this history has a certificate at or below a floor whose slot isn't filled in the other one.
    fn holds_more(&self, other: &Side, floor: u64) -> bool {
        self.decided.certificates.iter().any(|certificate| {
            let round = certificate.header.round.number();
            round <= floor && lacks(&other.decided.certificates, certificate)
        })
    }
}

/// Whether a wave is directly committed in one ledger, and not in the other.
fn is_before_at(here: &Ledger, there: &Ledger, wave: u64) -> bool {
    is_directly_committed(here, wave) && !is_directly_committed(there, wave)
}

/// Whether none of these certificates fills the slot of the given one.
fn lacks(certificates: &[Certificate], certificate: &Certificate) -> bool {
    let (round, author) = (
        certificate.header.round.number(),
        certificate.header.author.0,
    );
    slot(certificates, round, author).is_none()
}

/// For each kind of pairs whether these two histories are a pair of that kind.
fn kinds(one: Side, other: Side, agreed: &Agreed) -> [bool; 9] {
    let floor = one.decided.floor.min(other.decided.floor);
    let (first, second) = (agreed.one.len(), agreed.other.len());
    [
        true,
        one.played.legal && other.played.legal,
        agreed.premises,
        agreed.agrees,
        floor > 0,
        one.skips() || other.skips(),
        one.is_before(&other) || other.is_before(&one),
        one.holds_more(&other, floor) || other.holds_more(&one, floor),
        first.min(second) > 0 && first != second,
    ]
}

/// Adds the line that shows what two histories have in common.
fn line(one: Side, other: Side, agreed: &Agreed, answer: &mut String) -> Result<(), AllocError> {
    let (legal, also) = (yes(one.played.legal), yes(other.played.legal));
    let (premises, agrees) = (yes(agreed.premises), yes(agreed.agrees));
    write!(answer, "legal {legal} {also}, premises {premises}, ")?;
    let (first, second) = (agreed.one.len(), agreed.other.len());
    write!(answer, "orders {first} {second} of ")?;
    write_sum(&agreed.one, answer)?;
    answer.push_str(" ")?;
    write_sum(&agreed.other, answer)?;
    write!(answer, ", agree {agrees}, ")?;
    let (first, second) = (one.decided.floor, other.decided.floor);
    writeln!(answer, "floors {first} {second}")
}

/// Adds a checksum of an order: the first four bytes of the SHA-256 of its digests.
fn write_sum(order: &[Digest], answer: &mut String) -> Result<(), AllocError> {
    let mut hasher = Sha256::new();
    for digest in order {
        hasher.update(&digest.0);
    }
    let sum = hasher.finalize();
    write_hex(answer, &sum[..4])
}

fn yes(is_so: bool) -> &'static str {
    if is_so { "yes" } else { "no" }
}

impl Counts {
    /// The counts before the first pair: all are 0.
    pub fn none() -> Counts {
        Counts { counts: [0; 9] }
    }

    /// Counts a pair of histories, and adds the line of what both have in common.
    pub fn add(
        &mut self,
        alloc: Global,
        one: &Played,
        other: &Played,
        answer: &mut String,
    ) -> Result<(), AllocError> {
        let agreed = agree(alloc, &past(one), &past(other))?;
        let (first, second) = (decide(alloc, one)?, decide(alloc, other)?);
        let one = Side {
            played: one,
            decided: &first,
        };
        let other = Side {
            played: other,
            decided: &second,
        };
        self.count(&kinds(one, other, &agreed));
        line(one, other, &agreed, answer)
    }

    fn count(&mut self, kinds: &[bool; 9]) {
        for place in 0..9 {
            if kinds[place] {
                self.counts[place] = self.counts[place].saturating_add(1);
            }
        }
    }

    /// Adds how many pairs there are of each kind.
    pub fn report(&self, answer: &mut String) -> Result<(), AllocError> {
        for (kind, count) in KINDS.iter().zip(&self.counts) {
            writeln!(answer, "{kind}: {count}")?;
        }
        Ok(())
    }
}

fn past<'a>(played: &'a Played) -> Past<'a, sigface::HashSign> {
    Past {
        node: &played.node,
        history: &played.history,
    }
}
