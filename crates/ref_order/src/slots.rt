//! Certificates by round and author, and the paths of parents between them.

ghost use Rattle.std.specs.Prelude.{◌≡◌, ◌+◌, IfOk, option_copied};
ghost use Rattle.std.specs.List.{list_any};
ghost use Rattle.spec_model.specs.Slots.{slots_of, is_of_slot, is_named, is_parent, round_of, has_path, reaches};

use std::alloc::{AllocError, Global};
use wire::{Certificate, Digest, HeaderBody, ParentReference, certificate_digest, header_digest};

/// Whether a header is of this round and by this author.
pub fn is_of_slot(round: u64, author: u16, header: &HeaderBody) -> bool
    ensures { result ≡ is_of_slot round author header.now }
{
    header.round.number() == round && header.author.0 == author
}

/// The digest of a header's certificate; it doesn't depend on the votes.
pub fn digest_of(header: &HeaderBody) -> Digest
    ensures { result ≡ Rattle.spec_model.specs.Slots.certificate_digest header.now }
{
    certificate_digest(&header_digest(header), header.round, header.author)
}

/// The first of these certificates that is of this round and author.
pub fn slot(certificates: &[Certificate], round: u64, author: u16) -> Option<&Certificate>
    ensures { option_copied result ≡ slots_of certificates.now round author }
{
    certificates
        .iter()
        .find(|c| is_of_slot(round, author, &c.header))
}

/// Whether a reference to a parent names this certificate.
pub fn is_named(certificate: &Certificate, parent: &ParentReference) -> bool
    ensures { result ≡ is_named certificate.now parent.now }
{
    parent.author == certificate.header.author
        && parent.certificate == digest_of(&certificate.header)
}

/// Whether one of these references to parents names this certificate.
fn is_named_in(certificate: &Certificate, parents: &[ParentReference]) -> bool
    ensures { result ≡ list_any (is_named certificate.now) parents.now }
{
    parents.iter().any(|p| is_named(certificate, p))
}

/// Whether one certificate is a parent of another: it is of the round below, and the other names it.
pub fn is_parent(parent: &Certificate, child: &Certificate) -> bool
    ensures { result ≡ is_parent parent.now child.now }
{
    parent.header.round.number() + 1 == child.header.round.number()
        && is_named_in(parent, child.header.parents.as_slice())
}

/// The certificates of a round, sorted by author.
#[tactic(auto, using(crate::proofs::Ranges::one_more, crate::proofs::Ranges::none_more))]
pub fn round_of(
    alloc: Global,
    size: u16,
    certificates: &[Certificate],
    round: u64,
) -> Result<Vec<Certificate>, AllocError>
    ensures { IfOk result (λ found. found.items ≡ round_of size (slots_of certificates.now) round) }
{
    let mut found = Vec::new(alloc);
    for author in 0..size {
        if let Some(certificate) = slot(certificates, round, author) {
            found.push(certificate.try_clone()?)?;
        }
    }
    Ok(found)
}

/// Whether a path of `steps` steps, each from a certificate to a parent, leads from one certificate to another.
pub fn has_path(
    alloc: Global,
    size: u16,
    certificates: &[Certificate],
    steps: u64,
    start: &Certificate,
    end: &Certificate,
) -> Result<bool, AllocError>
    ensures { IfOk result (λ found. found ≡ has_path size (slots_of certificates.now) steps start.now end.now) }
{
    if steps == 0 {
        return Ok(is_of_slot(
            start.header.round.number(),
            start.header.author.0,
            &end.header,
        ));
    }
    let children = round_of(alloc, size, certificates, end.header.round.number() + 1)?;
    for child in &children {
        if is_parent(end, child) && has_path(alloc, size, certificates, steps - 1, start, child)? {
            return Ok(true);
        }
    }
    Ok(false)
}

/// Whether a path of parents leads from one certificate to another.
pub fn reaches(
    alloc: Global,
    size: u16,
    certificates: &[Certificate],
    start: &Certificate,
    end: &Certificate,
) -> Result<bool, AllocError>
    ensures { IfOk result (λ found. found ≡ reaches size (slots_of certificates.now) start.now end.now) }
{
    let (first, last) = (start.header.round.number(), end.header.round.number());
    if last > first {
        return Ok(false);
    }
    has_path(alloc, size, certificates, first - last, start, end)
}
