//! The digests of a checkpoint's certificates, and whether the certificates are sound.

ghost use Rattle.std.specs.Prelude.{◌≡◌, ◌+◌, ◌<◌, ◌^◌, All, length, map, IfOk, OnOk, IfErr};
ghost use Rattle.spec_model.specs.Nodes.{node_view};
ghost use Rattle.spec_model.specs.Slots.{certificate_digest};
ghost use Rattle.sequencer.specs.Restored.{AreListed};
ghost use Rattle.checkpoint.specs.Judging.{NoneFails, ReportsFirst, is_certificate_sound_at, passes_itself, slots_at};
ghost use Rattle.checkpoint.specs.Kept.{certificate_of};

use crate::error::LoadError;
use crate::judging::held::are_parents_held;
use header::{Node, recheck};
use sigface::Sign;
use std::alloc::{AllocError, Global};
use wire::{Certificate, Digest, HeaderBody, Message, certificate_digest, header_digest};

/// The certificates of a checkpoint, each with its digest and the result of its checks.
#[derive(Drop)]
pub struct Rechecked {
    /// The certificates, each with its digest.
    pub list: Vec<(Certificate, Digest)>,
    /// For each certificate, in the same order, whether it passes the checks.
    pub passed: Vec<bool>,
}

/// Computes the digests of certificates and checks the certificates again. On `AllocError` an allocation failed.
pub fn recheck_all<S: Sign>(
    alloc: Global,
    node: &Node<S>,
    certificates: Vec<Certificate>,
) -> Result<Rechecked, AllocError>
    ensures list { IfOk result (λ made. map certificate_of made.list.items ≡ certificates.items) }
    ensures digested { IfOk result (λ made. All (λ one. one.1 ≡ certificate_digest one.0.header) made.list.items) }
    ensures passed { IfOk result (λ made. made.passed.items ≡ map (passes_itself (node_view S.scheme node.now)) certificates.items) }
{
    let mut list = Vec::with_capacity(alloc, certificates.len())?;
    let mut passed = Vec::with_capacity(alloc, certificates.len())?;
    for certificate in certificates {
        let (digest, passes) = recheck_one(node, &certificate)?;
        list.push((certificate, digest))?;
        passed.push(passes)?;
    }
    Ok(Rechecked { list, passed })
}

/// The digest of a certificate, and whether it passes the checks.
fn recheck_one<S: Sign>(
    node: &Node<S>,
    certificate: &Certificate,
) -> Result<(Digest, bool), AllocError>
    ensures digest { IfOk result (λ found. found.0 ≡ certificate_digest certificate.now.header) }
    ensures passes { IfOk result (λ found. found.1 ≡ passes_itself (node_view S.scheme node.now) certificate.now) }
{
    let message = Message::Certificate(certificate.try_clone()?);
    match recheck(&node.committee, node.own, message) {
        Ok(checked) => match checked.certificate_digest() {
            Some(digest) => Ok((*digest, true)),
            None => unreachable!(),
        },
        Err(_) => Ok((digest_of(&certificate.header), false)),
    }
}

/// The digest of a header's certificate.
fn digest_of(header: &HeaderBody) -> Digest
    ensures { result ≡ certificate_digest header.now }
{
    certificate_digest(&header_digest(header), header.round, header.author)
}

/// Tests the certificates. The first one is in the record at place `first`.
///
/// # Errors
/// `Unsound` with the first record whose certificate isn't sound.
pub fn test_certificates<S: Sign>(
    node: &Node<S>,
    floor: u64,
    first: u64,
    list: &[(Certificate, Digest)],
    passed: &[bool],
) -> Result<(), LoadError>
    requires few { first + length list.now < 2 ^ 64 }
    requires listed { AreListed list.now }
    requires passed { passed.now ≡ map (passes_itself (node_view S.scheme node.now)) (map certificate_of list.now) }
    ensures ok { let seen = node_view S.scheme node.now in OnOk result (NoneFails first (map (is_certificate_sound_at seen floor (slots_at seen floor list.now)) (map certificate_of list.now))) }
    ensures err { let seen = node_view S.scheme node.now in IfErr result (ReportsFirst first (map (is_certificate_sound_at seen floor (slots_at seen floor list.now)) (map certificate_of list.now))) }
{
    let mut place = first;
    for index in 0..list.len() {
        let (certificate, _) = &list[index];
        if !is_certificate_sound(node, floor, list, passed[index], certificate) {
            return Err(LoadError::Unsound(place));
        }
        place += 1;
    }
    Ok(())
}

/// Whether a certificate is sound: it passes the checks, which is given, its round isn't below the floor, and its parents are held.
fn is_certificate_sound<S: Sign>(
    node: &Node<S>,
    floor: u64,
    list: &[(Certificate, Digest)],
    passes: bool,
    certificate: &Certificate,
) -> bool
    requires listed { AreListed list.now }
    requires passes { passes ≡ passes_itself (node_view S.scheme node.now) certificate.now }
    ensures { let seen = node_view S.scheme node.now in result ≡ is_certificate_sound_at seen floor (slots_at seen floor list.now) certificate.now }
{
    let header = &certificate.header;
    floor <= header.round.number() && passes && are_parents_held(node, floor, list, header)
}
