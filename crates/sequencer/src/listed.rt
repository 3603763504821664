//! Finds the last committed wave of a list of certificates, before a DAG has them.

ghost use Rattle.std.specs.Prelude.{◌≡◌, ℕ, ◌<◌, ◌≤◌, ◌*◌, ◌==◌, ◌&&◌, nat_lt, true, false, length, List, option_map, option_copied, IfSome};
ghost use Rattle.std.specs.List.{list_any};
ghost use Rattle.std.specs.List.Sorted.{IsPartitionPoint};
ghost use Rattle.committee.specs.Charter.{Charter};
ghost use Rattle.spec_model.specs.Ordering.{supports, has_support, is_directly_committed, top};
ghost use Rattle.spec_model.specs.Slots.{same_digest, certificate_digest, is_of_slot};
ghost use Rattle.sequencer.specs.Restored.{AreListed, listed};
ghost use Rattle.sequencer.specs.Listing.{comes_before, ledger_of};
ghost use Rattle.wire.specs.declared.round.TheConstants.Round.{MAX};

use committee::{Committee, MemberSet};
use tusk::Coins;
use wire::{Author, Certificate, Digest, ParentReference};

// Whether a certificate comes before the place of this round and author in a sorted list.
fn comes_before(one: &(Certificate, Digest), round: u64, author: u16) -> bool
    ensures { result ≡ comes_before round author one.now }
{
    let header = &one.0.header;
    header.round.number() < round || (header.round.number() == round && header.author.0 < author)
}

// How many certificates of a sorted list come before the place of this round and author.
fn place_of(list: &[(Certificate, Digest)], round: u64, author: u16) -> usize
    requires { AreListed list.now }
    ensures { IsPartitionPoint (λ one. comes_before round author one ≡ true) (λ one. comes_before round author one ≡ false) list.now result }
{
    list.partition_point(|one| comes_before(one, round, author))
}

// Whether a certificate is of this round and author.
fn is_of(one: &(Certificate, Digest), round: u64, author: u16) -> bool
    ensures { result ≡ is_of_slot round author one.now.0.header }
{
    let header = &one.0.header;
    header.round.number() == round && header.author.0 == author
}

// The certificate of this round and author in the list, with its digest. It is found by binary search.
fn entry_of(
    list: &[(Certificate, Digest)],
    round: u64,
    author: u16,
) -> Option<&(Certificate, Digest)>
    requires { AreListed list.now }
    ensures value { option_map (λ one. one.0) (option_copied result) ≡ listed list.now round author }
    ensures digested { IfSome result (λ one. one.now.1 ≡ certificate_digest one.now.0.header) }
{
    let entry = list.get(place_of(list, round, author))?;
    if is_of(entry, round, author) {
        return Some(entry);
    }
    None
}

// Whether one of these parents has this author and digest.
fn is_among(parents: &[ParentReference], author: Author, digest: &Digest) -> bool
    ensures { result ≡ list_any (λ parent. (parent.author.0 == author.0) && same_digest parent.certificate digest.now) parents.now }
{
    parents.iter().any(|parent| parent.author == author && parent.certificate == *digest)
}

// Whether a member supports a leader: its certificate of the next round names the leader as a parent.
fn supports(list: &[(Certificate, Digest)], leader: &(Certificate, Digest), member: u16) -> bool
    requires listed { AreListed list.now }
    requires digested { leader.now.1 ≡ certificate_digest leader.now.0.header }
    ensures { (committee : Charter) (coins : List ℕ) → result ≡ supports (ledger_of committee list.now coins) leader.now.0 member }
{
    let (certificate, digest) = leader;
    let header = &certificate.header;
    match entry_of(list, header.round.number() + 1, member) {
        Some((child, _)) => is_among(child.header.parents.as_slice(), header.author, digest),
        None => false,
    }
}

// Whether the members who support a leader weigh enough.
fn is_supported(
    committee: &Committee,
    list: &[(Certificate, Digest)],
    leader: &(Certificate, Digest),
) -> bool
    requires listed { AreListed list.now }
    requires digested { leader.now.1 ≡ certificate_digest leader.now.0.header }
    ensures { (coins : List ℕ) → result ≡ has_support (ledger_of committee.now list.now coins) leader.now.0 }
{
    let mut supporters = MemberSet::none();
    for member in 0..committee.size() {
        if supports(list, leader, member) {
            supporters.insert(Author(member));
        }
    }
    committee.support() <= committee.weight(&supporters)
}

// Whether a wave is directly committed: its leader has support.
fn is_committed(
    committee: &Committee,
    coins: &Coins,
    list: &[(Certificate, Digest)],
    wave: u64,
) -> bool
    requires listed { AreListed list.now }
    requires some { 0 < wave }
    requires limit { wave ≤ MAX }
    ensures { result ≡ is_directly_committed (ledger_of committee.now list.now coins.now) wave }
{
    let Some(coin) = coins.get(wave) else {
        return false;
    };
    let author = (coin % committee.size() as u64) as u16;
    match entry_of(list, 2 * wave - 1, author) {
        Some(leader) => is_supported(committee, list, leader),
        None => false,
    }
}

/// The greatest wave whose leader has support, by these certificates of rounds above 0 and these coins. The certificates are sorted by
/// round and then by author, each with its digest. Waves are tried from the last one whose leader can have support downwards. A try takes
/// time in proportion to the number of members, times the logarithm of the list's length.
pub fn listed_top(
    committee: &Committee,
    coins: &Coins,
    list: &[(Certificate, Digest)],
) -> Option<u64>
    requires { AreListed list.now }
    ensures { result ≡ top (ledger_of committee.now list.now coins.now) }
{
    committee.limits_hold();
    let (last, _) = list.last()?;
    let most = (coins.count() as u64).min(last.header.round.number() / 2);
    for past in 0..most {
        if is_committed(committee, coins, list, most - past) {
            return Some(most - past);
        }
    }
    None
}
