//! Headers, the votes on them, and their certificates.

ghost use Rattle.std.specs.Prelude.{◌≡◌, [], IfOk};
ghost use Rattle.wire.specs.Grammar.{IsHeaderBody, IsHeader, IsVote, IsCertificate};

use crate::keys::{Author, Digest, Signature};
use crate::references::{BatchReferences, ParentReferences};
use crate::round::Round;
use crate::votes::VoteEntries;
use std::alloc::{AllocError, Global};

/// What an author proposes in a round: batches to be ordered, and as parents certificates of the round before.
#[derive(Clone, Debug, Drop)]
pub struct HeaderBody {
    /// The member that proposes.
    pub author: Author,
    /// The header's round.
    pub round: Round,
    /// The batches to be ordered.
    pub batches: BatchReferences,
    /// The parents: certificates of the round before.
    pub parents: ParentReferences,
}

/// A proposal, with its author's signature of the header's digest.
#[derive(Clone, Debug, Drop)]
pub struct Header {
    /// The content of the header: its author, round, batches and parents.
    pub body: HeaderBody,
    /// The author's signature of the header digest.
    pub signature: Signature,
}

/// A member's vote for the header of an author and round. The voter signs the digest that the header's certificate will have.
#[derive(Clone, Copy, Debug, PartialEq, Eq)]
pub struct Vote {
    /// The header's digest.
    pub header: Digest,
    /// The header's round.
    pub round: Round,
    /// The header's author.
    pub author: Author,
    /// The member that votes.
    pub voter: Author,
    /// The voter's signature of the digest that the header's certificate will have.
    pub signature: Signature,
}

/// A header with the votes of a quorum, which make it part of the ledger. The certificate's digest doesn't depend on the votes.
#[derive(Clone, Debug, Drop)]
pub struct Certificate {
    /// The header, without its signature.
    pub header: HeaderBody,
    /// The votes on the header.
    pub votes: VoteEntries,
}

impl HeaderBody {
    /// A copy of the body. On `AllocError` an allocation failed.
    pub fn try_clone(&self) -> Result<HeaderBody, AllocError>
        ensures { IfOk result (λ body. body ≡ self.now) }
    {
        self.clone()
    }

    /// A law: what holds of every header body, such as that its round is in range. The call does nothing.
    pub fn limits_hold(&self)
        ensures { IsHeaderBody self.now }
    {
        self.author.limits_hold();
        self.round.number();
        self.batches.as_slice();
        self.parents.as_slice();
    }
}

impl Header {
    /// A copy of the header. On `AllocError` an allocation failed.
    pub fn try_clone(&self) -> Result<Header, AllocError>
        ensures { IfOk result (λ header. header ≡ self.now) }
    {
        self.clone()
    }

    /// A law: what holds of every header, such as that its signature has 64 bytes. The call does nothing.
    pub fn limits_hold(&self)
        ensures { IsHeader self.now }
    {
        self.body.limits_hold();
        self.signature.limits_hold();
    }
}

impl Vote {
    /// A law: what holds of every vote, such as that its signature has 64 bytes. The call does nothing.
    pub fn limits_hold(&self)
        ensures { IsVote self.now }
    {
        self.header.limits_hold();
        self.round.number();
        self.author.limits_hold();
        self.voter.limits_hold();
        self.signature.limits_hold();
    }
}

impl Certificate {
    /// A copy of the certificate. On `AllocError` an allocation failed.
    pub fn try_clone(&self) -> Result<Certificate, AllocError>
        ensures { IfOk result (λ certificate. certificate ≡ self.now) }
    {
        self.clone()
    }

    /// A law: what holds of every certificate, such as that its votes are sorted. The call does nothing.
    pub fn limits_hold(&self)
        ensures { IsCertificate self.now }
    {
        self.header.limits_hold();
        self.votes.as_slice();
    }

    /// The genesis certificate of an author: round 0, no batches, no parents, no votes.
    pub fn genesis(alloc: Global, author: Author) -> Certificate
        ensures author { result.header.author ≡ author }
        ensures round { result.header.round ≡ 0 }
        ensures batches { result.header.batches ≡ [] }
        ensures parents { result.header.parents ≡ [] }
        ensures votes { result.votes ≡ [] }
    {
        Certificate {
            header: HeaderBody {
                author,
                round: Round::genesis(),
                batches: BatchReferences::new(alloc),
                parents: ParentReferences::new(alloc),
            },
            votes: VoteEntries::new(alloc),
        }
    }
}
