//! Which certificates are leaders, which leaders are committed, and the order that follows.

ghost use Rattle.std.specs.Prelude.{◌≡◌, ◌<◌, ◌≤◌, ℕ, ◌&&◌, nat_lt, IfOk, IfSome, None, length, option_copied};
ghost use Rattle.committee.specs.Charter.{weight};
ghost use Rattle.committee.specs.Sets.{has};
ghost use Rattle.spec_model.specs.Ordering.{size_in, leader, supports, has_support, is_directly_committed, top_to, top, chain, is_past, rounds_to, is_ordered_by, segment, segments, committed, order_by, floor_by};
ghost use Rattle.ref_order.specs.Ledgers.{ledger_view};

use crate::ledger::{Ledger, reaches_in, round_in, size_in};
use crate::newer::{newer, newer_at};
use crate::slots::{digest_of, is_parent, slot};
use committee::MemberSet;
use std::alloc::{AllocError, Global};
use wire::{Author, Certificate, Digest};

/// The leader of a wave: the certificate of the wave's first round whose author the coin chooses.
pub fn leader<'a>(ledger: &Ledger<'a>, wave: u64) -> Option<&'a Certificate>
    ensures { option_copied result ≡ leader (ledger_view ledger.now) wave }
{
    if wave == 0 {
        return None;
    }
    match ledger.coins.get((wave - 1) as usize) {
        None => None,
        Some(coin) => slot(
            ledger.certificates,
            2 * (wave - 1) + 1,
            (*coin % size_in(ledger) as u64) as u16,
        ),
    }
}

/// Whether a member supports a certificate: the member's certificate of the next round names it as a parent.
pub fn supports(ledger: &Ledger, certificate: &Certificate, member: u16) -> bool
    ensures { result ≡ supports (ledger_view ledger.now) certificate.now member }
{
    match slot(
        ledger.certificates,
        certificate.header.round.number() + 1,
        member,
    ) {
        None => false,
        Some(child) => is_parent(certificate, child),
    }
}

/// The members who support a certificate.
#[tactic(auto, using(crate::proofs::Sets::in_more, crate::proofs::Sets::out_more))]
fn supporters(ledger: &Ledger, certificate: &Certificate) -> MemberSet
    ensures { (member : ℕ) → has result member ≡ (nat_lt member (size_in (ledger_view ledger.now)) && supports (ledger_view ledger.now) certificate.now member) }
{
    let size = ledger.committee.size();
    let mut supporting = MemberSet::none();
    for member in 0..size {
        if supports(ledger, certificate, member) {
            supporting.insert(Author(member));
        }
    }
    supporting
}

/// The weight of the members who support a certificate.
fn weight_of_supporters(ledger: &Ledger, certificate: &Certificate) -> u64
    ensures { result ≡ weight (ledger_view ledger.now).charter (supports (ledger_view ledger.now) certificate.now) }
{
    ledger.committee.weight(&supporters(ledger, certificate))
}

/// Whether a certificate has support: the members who support it weigh enough.
pub fn has_support(ledger: &Ledger, certificate: &Certificate) -> bool
    ensures { result ≡ has_support (ledger_view ledger.now) certificate.now }
{
    ledger.committee.support() <= weight_of_supporters(ledger, certificate)
}

/// Whether a wave is directly committed: its leader has support.
pub fn is_directly_committed(ledger: &Ledger, wave: u64) -> bool
    ensures { result ≡ is_directly_committed (ledger_view ledger.now) wave }
{
    match leader(ledger, wave) {
        None => false,
        Some(leader) => has_support(ledger, leader),
    }
}

/// The greatest wave up to this one whose leader has support.
pub fn top_to(ledger: &Ledger, wave: u64) -> Option<u64>
    ensures value { result ≡ top_to (ledger_view ledger.now) wave }
    ensures within { IfSome result (λ top. (0 < top) × (top ≤ wave)) }
{
    if wave == 0 {
        return None;
    }
    if is_directly_committed(ledger, wave) {
        return Some(wave);
    }
    top_to(ledger, wave - 1)
}

/// The greatest wave whose leader has support.
pub fn top(ledger: &Ledger) -> Option<u64>
    ensures value { result ≡ top (ledger_view ledger.now) }
    ensures within { IfSome result (λ top. (0 < top) × (top ≤ length ledger.now.coins.now)) }
{
    top_to(ledger, ledger.coins.len() as u64)
}

/// All leaders that are committed when the leader of this wave is, oldest first.
pub fn chain(alloc: Global, ledger: &Ledger, wave: u64) -> Result<Vec<Certificate>, AllocError>
    ensures { IfOk result (λ found. found.items ≡ chain (ledger_view ledger.now) wave) }
{
    newer_at(alloc, ledger, 0, wave)
}

/// Whether the committed leader before reaches this certificate, so that it has ordered the certificate already.
fn is_past(
    alloc: Global,
    ledger: &Ledger,
    previous: Option<&Certificate>,
    certificate: &Certificate,
) -> Result<bool, AllocError>
    ensures { IfOk result (λ found. found ≡ is_past (ledger_view ledger.now) (option_copied previous.entry) certificate.now) }
{
    match previous {
        None => Ok(false),
        Some(leader) => reaches_in(alloc, ledger, leader, certificate),
    }
}

/// The certificates of the rounds from 1 to this one, sorted by round and then by author.
#[tactic(auto, using(crate::proofs::Ranges::round_more))]
pub fn rounds_to(alloc: Global, ledger: &Ledger, round: u64) -> Result<Vec<Certificate>, AllocError>
    ensures { IfOk result (λ found. found.items ≡ rounds_to (ledger_view ledger.now) round) }
{
    let mut found = Vec::new(alloc);
    for lower in 0..round {
        let mut more = round_in(alloc, ledger, lower + 1)?;
        found.append(&mut more)?;
    }
    Ok(found)
}

/// Whether a leader orders a certificate, given the committed leader before it.
fn is_ordered_by(
    alloc: Global,
    ledger: &Ledger,
    previous: Option<&Certificate>,
    leader: &Certificate,
    certificate: &Certificate,
) -> Result<bool, AllocError>
    ensures { IfOk result (λ found. found ≡ is_ordered_by (ledger_view ledger.now) (option_copied previous.entry) leader.now certificate.now) }
{
    if leader.header.round.number() > certificate.header.round.number() + ledger.committee.depth() {
        return Ok(false);
    }
    if !reaches_in(alloc, ledger, leader, certificate)? {
        return Ok(false);
    }
    Ok(!is_past(alloc, ledger, previous, certificate)?)
}

/// The certificates that a leader orders, given the committed leader before it.
pub fn segment(
    alloc: Global,
    ledger: &Ledger,
    previous: Option<&Certificate>,
    leader: &Certificate,
) -> Result<Vec<Certificate>, AllocError>
    ensures { IfOk result (λ found. found.items ≡ segment (ledger_view ledger.now) (option_copied previous.entry) leader.now) }
{
    let mut found = Vec::new(alloc);
    let all = rounds_to(alloc, ledger, leader.header.round.number())?;
    for certificate in &all {
        if is_ordered_by(alloc, ledger, previous, leader, certificate)? {
            found.push(certificate.try_clone()?)?;
        }
    }
    Ok(found)
}

/// The certificates that several leaders order, one leader after the other.
pub fn segments(
    alloc: Global,
    ledger: &Ledger,
    leaders: &[Certificate],
) -> Result<Vec<Certificate>, AllocError>
    ensures { IfOk result (λ found. found.items ≡ segments (ledger_view ledger.now) None leaders.now) }
{
    let mut found = Vec::new(alloc);
    let mut previous = None;
    for leader in leaders {
        let mut more = segment(alloc, ledger, previous, leader)?;
        found.append(&mut more)?;
        previous = Some(leader);
    }
    Ok(found)
}

/// All committed leaders, oldest first.
pub fn committed(alloc: Global, ledger: &Ledger) -> Result<Vec<Certificate>, AllocError>
    ensures { IfOk result (λ found. found.items ≡ committed (ledger_view ledger.now)) }
{
    newer(alloc, ledger, 0)
}

/// The order: the digests of the certificates that all committed leaders order.
pub fn order_by(alloc: Global, ledger: &Ledger) -> Result<Vec<Digest>, AllocError>
    ensures { IfOk result (λ found. found.items ≡ order_by (ledger_view ledger.now)) }
{
    let leaders = committed(alloc, ledger)?;
    let ordered = segments(alloc, ledger, &leaders)?;
    ordered.iter().map(|c| digest_of(&c.header)).collect(alloc)
}

/// The floor (the garbage-collection round): the round of the last committed leader minus the depth, or 0.
pub fn floor_by(ledger: &Ledger) -> u64
    ensures { result ≡ floor_by (ledger_view ledger.now) }
{
    match top(ledger) {
        None => 0,
        Some(wave) => (2 * wave - 1).saturating_sub(ledger.committee.depth()),
    }
}
