//! Makes the headers and certificates of one round after the other; each round names all of the round before as its parents.

use crate::ending::Ending;
use committee::Committee;
use sigface::Sign;
use sim_script::{OWN, signer};
use std::alloc::Global;
use std::mem;
use wire::{
    Author, BatchReferences, Certificate, Coin, Digest, Header, HeaderBody, MAX_PARENTS, MAX_VOTES,
    ParentReference, ParentReferences, Round, Signature, Vote, VoteEntries, VoteEntry, Wave,
    WireError, certificate_digest, genesis_digest, header_digest,
};

/// A signature that nobody made, for messages whose signatures are not checked.
pub const UNSIGNED: Signature = Signature([0; 64]);

/// The round whose headers and certificates are being made. Their parents are all certificates that were made in the round before.
#[derive(Drop)]
pub struct Rounds {
    /// The allocator.
    pub alloc: Global,
    // Whether the messages get good signatures.
    is_signed: bool,
    /// How many members the committee has.
    pub members: u16,
    /// How many members vote on each header; those with the lowest numbers do.
    pub voters: u16,
    /// The number of the round that is being made.
    pub number: u64,
    parents: ParentReferences,
    made: ParentReferences,
}

impl Rounds {
    /// Round 1, whose parents are the genesis certificates.
    pub fn new(alloc: Global, committee: &Committee, is_signed: bool) -> Result<Rounds, Ending> {
        let members = committee.size();
        let mut rounds = Rounds {
            alloc,
            is_signed,
            members,
            voters: committee.quorum().min(u64::from(members)) as u16,
            number: 0,
            parents: ParentReferences::new(alloc),
            made: ParentReferences::new(alloc),
        };
        for member in 0..members {
            rounds.note(Author(member), genesis_digest(Author(member)))?;
        }
        rounds.end();
        Ok(rounds)
    }

    /// The coin of the wave that ended with the round before, if one ended there. The coin's value is the number of its wave.
    pub fn coin(&self) -> Result<Option<Coin>, WireError> {
        if self.number < 4 || self.number % 2 == 1 {
            return Ok(None);
        }
        let wave = Wave::new(self.number / 2 - 1)?;
        let value = wave.number();
        Ok(Some(Coin { wave, value }))
    }

    /// The round that is being made.
    pub fn round(&self) -> Result<Round, WireError> {
        Round::new(self.number)
    }

    // The header body of this author in the current round.
    fn body(&self, author: Author) -> Result<HeaderBody, Ending> {
        Ok(HeaderBody {
            author,
            round: self.round()?,
            batches: BatchReferences::new(self.alloc),
            parents: self.parents.clone()?,
        })
    }

    /// The header of this author in the current round.
    pub fn header(&self, author: Author) -> Result<Header, Ending> {
        let body = self.body(author)?;
        let signature = match self.is_signed {
            true => signer(author).sign(&header_digest(&body)),
            false => UNSIGNED,
        };
        Ok(Header { body, signature })
    }

    /// The digest of this author's header in the current round.
    pub fn digest(&self, author: Author) -> Result<Digest, Ending> {
        Ok(header_digest(&self.body(author)?))
    }

    /// A member's vote on the node's own header in the current round.
    pub fn vote(&self, voter: Author) -> Result<Vote, Ending> {
        let (header, round) = (self.digest(OWN)?, self.round()?);
        let signature = match self.is_signed {
            true => signer(voter).sign(&certificate_digest(&header, round, OWN)),
            false => UNSIGNED,
        };
        Ok(Vote {
            header,
            round,
            author: OWN,
            voter,
            signature,
        })
    }

    /// The coin of the wave with the same number as the current round. Its value is that number.
    pub fn coin_of_round(&self) -> Result<Coin, WireError> {
        let wave = Wave::new(self.number)?;
        let value = wave.number();
        Ok(Coin { wave, value })
    }

    // The votes of a quorum on the certificate with this digest. Without a digest their signatures are no good ones.
    fn votes(&self, certificate: Option<Digest>) -> Result<VoteEntries, Ending> {
        let mut votes = VoteEntries::new(self.alloc);
        for member in 0..self.voters {
            let voter = Author(member);
            if votes.len() == MAX_VOTES || !votes.may_follow(voter) {
                return Err(Ending::Refused);
            }
            let signature = match &certificate {
                Some(digest) => signer(voter).sign(digest),
                None => UNSIGNED,
            };
            votes.push(VoteEntry { voter, signature })?;
        }
        Ok(votes)
    }

    /// The certificate of this author in the current round.
    pub fn certificate(&self, author: Author) -> Result<Certificate, Ending> {
        let header = self.body(author)?;
        let digest = match self.is_signed {
            true => Some(certificate_digest(&header_digest(&header), header.round, author)),
            false => None,
        };
        let votes = self.votes(digest)?;
        Ok(Certificate { header, votes })
    }

    /// Makes a certificate of this author a parent of the next round. Authors have to come in ascending order.
    pub fn note(&mut self, author: Author, certificate: Digest) -> Result<(), Ending> {
        if self.made.len() == MAX_PARENTS || !self.made.may_follow(author) {
            return Err(Ending::Refused);
        }
        self.made.push(ParentReference {
            author,
            certificate,
        })?;
        Ok(())
    }

    /// Goes on to the next round, whose parents are the certificates that were noted.
    pub fn end(&mut self) {
        self.parents = mem::replace(&mut self.made, ParentReferences::new(self.alloc));
        self.raise();
    }

    /// Goes on to the next round, whose parents are the same as those of the current round.
    pub fn raise(&mut self) {
        self.number = self.number.saturating_add(1);
    }
}
