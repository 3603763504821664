//! Looking up certificates by slot in a sorted list, and whether the parents of headers are held.

ghost use Rattle.std.specs.Prelude.{◌≡◌, true, false, option_map, option_copied, IfSome};
ghost use Rattle.std.specs.List.{list_all};
ghost use Rattle.std.specs.List.Sorted.{IsPartitionPoint};
ghost use Rattle.std.specs.Option.{option_map_or};
ghost use Rattle.spec_model.specs.Holdings as holdings;
ghost use Rattle.spec_model.specs.Nodes.{node_view};
ghost use Rattle.spec_model.specs.Slots.{same_digest, certificate_digest, is_of_slot};
ghost use Rattle.sequencer.specs.Restored.{AreListed, listed};
ghost use Rattle.sequencer.specs.Listing.{comes_before};
ghost use Rattle.checkpoint.specs.Judging.{is_of_genesis, slots_at};

use header::Node;
use sigface::Sign;
use wire::{Author, Certificate, Digest, HeaderBody, ParentReference, genesis_digest};

/// The certificate of a slot in the list, with its digest, by binary search.
pub fn entry_of(
    list: &[(Certificate, Digest)],
    round: u64,
    author: u16,
) -> Option<&(Certificate, Digest)>
    requires { AreListed list.now }
    ensures value { option_map (λ one. one.0) (option_copied result) ≡ listed list.now round author }
    ensures digested { IfSome result (λ one. one.now.1 ≡ certificate_digest one.now.0.header) }
{
    let entry = list.get(place_of(list, round, author))?;
    if is_of(entry, round, author) {
        return Some(entry);
    }
    None
}

/// How many certificates of the list come before this slot.
fn place_of(list: &[(Certificate, Digest)], round: u64, author: u16) -> usize
    requires { AreListed list.now }
    ensures { IsPartitionPoint (λ one. comes_before round author one ≡ true) (λ one. comes_before round author one ≡ false) list.now result }
{
    list.partition_point(|one| comes_before(one, round, author))
}

/// Whether a certificate comes before this slot in the order of slots.
fn comes_before(one: &(Certificate, Digest), round: u64, author: u16) -> bool
    ensures { result ≡ comes_before round author one.now }
{
    let header = &one.0.header;
    header.round.number() < round || (header.round.number() == round && header.author.0 < author)
}

/// Whether a certificate is of this slot.
fn is_of(one: &(Certificate, Digest), round: u64, author: u16) -> bool
    ensures { result ≡ is_of_slot round author one.now.0.header }
{
    let header = &one.0.header;
    header.round.number() == round && header.author.0 == author
}

/// Whether all parents of a header are held. Parents at or below a floor above 0 count as held.
pub fn are_parents_held<S: Sign>(
    node: &Node<S>,
    floor: u64,
    list: &[(Certificate, Digest)],
    header: &HeaderBody,
) -> bool
    requires { AreListed list.now }
    ensures { let seen = node_view S.scheme node.now in result ≡ holdings.all_held (slots_at seen floor list.now) floor header.now }
{
    let round = header.round.number();
    are_all_held(node, floor, list, round, header.parents.as_slice())
}

/// Whether each of these parents of a header of this round is held. Parents at or below a floor above 0 count as held.
fn are_all_held<S: Sign>(
    node: &Node<S>,
    floor: u64,
    list: &[(Certificate, Digest)],
    round: u64,
    parents: &[ParentReference],
) -> bool
    requires { AreListed list.now }
    ensures { let seen = node_view S.scheme node.now in result ≡ list_all (holdings.is_held (slots_at seen floor list.now) floor round) parents.now }
{
    for parent in parents {
        if !is_held(node, floor, list, round, parent) {
            return false;
        }
    }
    true
}

/// Whether this parent of a header of this round is held.
fn is_held<S: Sign>(
    node: &Node<S>,
    floor: u64,
    list: &[(Certificate, Digest)],
    round: u64,
    parent: &ParentReference,
) -> bool
    requires { AreListed list.now }
    ensures { let seen = node_view S.scheme node.now in result ≡ holdings.is_held (slots_at seen floor list.now) floor round parent.now }
{
    let below = round.saturating_sub(1);
    is_in_slot(node, floor, list, below, parent) || (0 < floor && below <= floor)
}

/// Whether the slot of a parent, in this round, holds a certificate with the digest that the parent reference names.
fn is_in_slot<S: Sign>(
    node: &Node<S>,
    floor: u64,
    list: &[(Certificate, Digest)],
    round: u64,
    parent: &ParentReference,
) -> bool
    requires { AreListed list.now }
    ensures { let seen = node_view S.scheme node.now in result ≡ option_map_or (λ c. same_digest (certificate_digest c.header) parent.now.certificate) (slots_at seen floor list.now round parent.now.author.0) false }
{
    if round == 0 {
        return floor == 0 && is_genesis(node, parent);
    }
    match entry_of(list, round, parent.author.0) {
        Some((_, digest)) => *digest == parent.certificate,
        None => false,
    }
}

/// Whether a parent reference names the genesis certificate of a member.
fn is_genesis<S: Sign>(node: &Node<S>, parent: &ParentReference) -> bool
    ensures { let seen = node_view S.scheme node.now in result ≡ is_of_genesis seen parent.now }
{
    parent.author.0 < node.size() && genesis_digest(parent.author) == parent.certificate
}
