//! Certificates that the words of a test case describe, without batches and votes.

ghost use Rattle.std.specs.Prelude.{◌≡◌};
ghost use Rattle.wire.specs.Digests.{header_digest_of, certificate_digest_of};

use crate::parts::words::{author_of, round_of};
use dag::Dag;
use std::alloc::{AllocError, Global};
use wire::{
    BatchReferences, Certificate, Digest, HeaderBody, MAX_PARENTS, ParentReference,
    ParentReferences, Round, VoteEntries, certificate_digest, header_digest,
};

// The parents, by these authors, of a header of the round after: for each author the digest of its certificate in the DAG, or all zeros if
// the DAG has none.
fn parents_of(
    alloc: Global,
    dag: &Dag,
    below: Round,
    authors: &[u64],
) -> Result<ParentReferences, AllocError> {
    let mut parents = ParentReferences::new(alloc);
    for author in authors {
        let author = author_of(*author);
        let certificate = match dag.digest(below, author) {
            Some(digest) => *digest,
            None => Digest([0; 32]),
        };
        if parents.len() < MAX_PARENTS && parents.may_follow(author) {
            parents.push(ParentReference {
                author,
                certificate,
            })?;
        }
    }
    Ok(parents)
}

/// The certificate of a round and an author, with the certificates of these authors in the round before as parents.
pub fn certificate_of(
    alloc: Global,
    dag: &Dag,
    round: u64,
    author: u64,
    parents: &[u64],
) -> Result<Certificate, AllocError> {
    let below = round_of(round.saturating_sub(1));
    let parents = parents_of(alloc, dag, below, parents)?;
    Ok(Certificate {
        header: HeaderBody {
            author: author_of(author),
            round: round_of(round),
            batches: BatchReferences::new(alloc),
            parents,
        },
        votes: VoteEntries::new(alloc),
    })
}

/// The digest of a certificate.
pub fn digest_of(certificate: &Certificate) -> Digest
    ensures { result.0 ≡ certificate_digest_of (header_digest_of certificate.now.header) certificate.now.header.round certificate.now.header.author.0 }
{
    let header = &certificate.header;
    certificate_digest(&header_digest(header), header.round, header.author)
}
