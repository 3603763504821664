//! Which members support a leader, and whether they are enough to commit it.

ghost use Rattle.std.specs.Prelude.{◌≡◌, ℕ, ◌+◌, ◌-◌, ◌*◌, ◌%◌, ◌<◌, ◌≤◌, ◌==◌, ◌&&◌, ◌||◌, nat_le, length, List, Some, option_map, IfSome, IsNone};
ghost use Rattle.std.specs.List.{list_any};
ghost use Rattle.committee.specs.Charter.{weight, support_of};
ghost use Rattle.committee.specs.Sets.{has};
ghost use Rattle.spec_model.specs.Ordering.{has_support};
ghost use Rattle.spec_model.specs.Slots.{same_digest, is_named};
ghost use Rattle.spec_model.specs.Words.{Certificate};
ghost use Rattle.dag.specs.Graph.{size_in, slots_in, has_parent_in, reaches_in};
ghost use Rattle.tusk.specs.Chain.{ledger_in, slot_of, wave_of};
ghost use Rattle.wire.specs.declared.round.TheConstants.Round.{MAX};

use committee::MemberSet;
use dag::{Dag, Reads};
use wire::{Author, Certificate, Digest, ParentReference, Round};

// The first round of a wave; None if it is above the greatest round.
fn first_round(wave: u64) -> Option<Round>
    requires { 0 < wave }
    ensures some { IfSome result (λ round. round ≡ 2 * wave - 1) }
    ensures none { IsNone result → MAX < 2 * wave - 1 }
{
    if wave > Round::MAX {
        return None;
    }
    match Round::new(2 * wave - 1) {
        Ok(round) => Some(round),
        Err(_) => None,
    }
}

/// The leader that this coin chooses for a wave, as its round and author; None if there is no certificate of them.
pub(crate) fn chosen(dag: &Dag, wave: u64, coin: u64) -> Option<(Round, Author)>
    requires { 0 < wave }
    ensures value { result ≡ option_map slot_of (slots_in dag.now (2 * wave - 1) (coin % size_in dag.now)) }
    ensures round { IfSome result (λ leader. leader.0 ≡ 2 * wave - 1) }
{
    dag.limits_hold();
    let round = first_round(wave)?;
    let author = Author((coin % dag.committee().size() as u64) as u16);
    match dag.get(round, author) {
        Some(_) => Some((round, author)),
        None => None,
    }
}

/// The number of the last committed wave; 0 if there is none.
pub(crate) fn committed_to(last: Option<u64>) -> u64
    ensures { result ≡ wave_of last }
{
    last.unwrap_or(0)
}

// The round with this number.
fn round_of(number: u64) -> Round
    requires { number ≤ MAX }
    ensures { result ≡ number }
{
    match Round::new(number) {
        Ok(round) => round,
        Err(_) => unreachable!(),
    }
}

/// Given the authors of a round whose certificates a leader reaches, the authors of two rounds below whose certificates it reaches.
pub(crate) fn two_down(dag: &Dag, round: u64, authors: &MemberSet) -> MemberSet
    requires low { 2 ≤ round }
    requires limit { round ≤ MAX }
    ensures { (start author : ℕ) → round ≤ start → ((member : ℕ) → has authors.now member ≡ reaches_in dag.now start author round member)
        → (member : ℕ) → has result member ≡ reaches_in dag.now start author (round - 2) member }
{
    dag.limits_hold();
    let mut reads = Reads::new();
    let below = dag.parents_of(round_of(round), authors, &mut reads);
    dag.parents_of(round_of(round - 1), &below, &mut reads)
}

/// Whether these members weigh enough to support a leader.
pub(crate) fn is_enough(dag: &Dag, members: &MemberSet) -> bool
    ensures { result ≡ nat_le (support_of dag.now.charter) (weight dag.now.charter (has members.now)) }
{
    let committee = dag.committee();
    committee.support() <= committee.weight(members)
}

/// Whether a leader, which is in the DAG, has support.
pub(crate) fn is_supported(dag: &Dag, leader: (Round, Author)) -> bool
    ensures { (c : Certificate) (coins : List ℕ) → slots_in dag.now leader.0 leader.1.0 ≡ Some c → result ≡ has_support (ledger_in dag.now coins) c }
{
    dag.limits_hold();
    is_enough(dag, &dag.supporters(leader.0, leader.1))
}

// Whether one of these parents has this author and digest.
fn is_among(parents: &[ParentReference], author: Author, digest: &Digest) -> bool
    ensures { result ≡ list_any (λ parent. (parent.author.0 == author.0) && same_digest parent.certificate digest.now) parents.now }
{
    parents.iter().any(|parent| parent.author == author && parent.certificate == *digest)
}

// Whether a certificate names this leader, which is in the DAG, as a parent.
fn names(dag: &Dag, certificate: &Certificate, leader: (Round, Author)) -> bool
    ensures { (c : Certificate) → slots_in dag.now leader.0 leader.1.0 ≡ Some c → result ≡ list_any (is_named c) certificate.now.header.parents }
{
    dag.limits_hold();
    match dag.digest(leader.0, leader.1) {
        Some(digest) => is_among(certificate.header.parents.as_slice(), leader.1, digest),
        None => false,
    }
}

/// The members that support a leader, which is in the DAG. If this certificate of the next round names the leader, its author is one of
/// them.
pub(crate) fn supporters_with(
    dag: &Dag,
    leader: (Round, Author),
    certificate: &Certificate,
) -> MemberSet
    requires { certificate.now.header.author.0 < length dag.now.charter.keys }
    ensures { (c : Certificate) (member : ℕ) → slots_in dag.now leader.0 leader.1.0 ≡ Some c
        → has result member ≡ (has_parent_in dag.now (leader.0 + 1) member leader.0 leader.1.0 || ((member == certificate.now.header.author.0) && list_any (is_named c) certificate.now.header.parents)) }
{
    dag.limits_hold();
    let mut supporters = dag.supporters(leader.0, leader.1);
    if names(dag, certificate, leader) {
        supporters.insert(certificate.header.author);
    }
    supporters
}
