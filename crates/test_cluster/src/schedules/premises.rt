//! Whether the premises of the laws on a cluster hold in a schedule: no more members are dishonest than is tolerated; no vote and no header
//! of an honest member is forged; each wave's coin has one value; and no two different texts of headers and certificates have the same
//! digest.

use sigface::{HashVerify, Sign, Verify};
use sim_members::MEMBERS;
use sim_script::signer;
use std::alloc::Global;
use test_cases::Reported;
use wire::{
    Author, Certificate, Coin, Digest, Header, HeaderBody, Message, Output, Signature, Vote,
    certificate_digest, header_digest,
};

// The greatest number of dishonest members that is tolerated, where all members have equal stakes.
const TOLERATED: u16 = (MEMBERS - 1) / 3;

// A digest that an honest member has signed, in a header, a vote or a certificate that its node put out.
#[derive(Clone, Copy)]
struct Signed {
    signer: Author,
    digest: Digest,
}

// A header that a node was given, alone or in a certificate, with the digests of the two texts that are made of it: the header's own, and
// the one that the votes in its certificate sign.
#[derive(Drop)]
struct Text {
    body: HeaderBody,
    header: Digest,
    certificate: Digest,
}

impl Text {
    fn is_same(&self, other: &HeaderBody) -> bool {
        let body = &self.body;
        body.author == other.author
            && body.round == other.round
            && body.batches.as_slice() == other.batches.as_slice()
            && body.parents.as_slice() == other.parents.as_slice()
    }

    // Whether a digest of this header is also one of the other header's, which is a different header.
    fn clashes(&self, other: &Text) -> bool {
        self.header == other.header
            || self.certificate == other.certificate
            || self.header == other.certificate
            || self.certificate == other.header
    }
}

/// What nodes put out and were given so far in a schedule, and whether the premises hold of that.
#[derive(Drop)]
pub struct Premises {
    alloc: Global,
    // The number of honest members. They are the first members.
    honest: u16,
    signed: Vec<Signed>,
    coins: Vec<Coin>,
    texts: Vec<Text>,
    hold: bool,
}

impl Premises {
    /// The premises of a schedule with this many honest members, before its first move.
    pub fn new(alloc: Global, honest: u16) -> Premises {
        Premises {
            alloc,
            honest,
            signed: Vec::new(alloc),
            coins: Vec::new(alloc),
            texts: Vec::new(alloc),
            hold: MEMBERS.saturating_sub(honest) <= TOLERATED,
        }
    }

    /// Whether the premises hold of everything that nodes were given so far.
    pub fn hold(&self) -> bool {
        self.hold
    }

    /// Notes the digest that an honest member signed in an output of its node.
    pub fn note(&mut self, signer: Author, output: &Output) -> Reported {
        let digest = match output {
            Output::Header(header) => header_digest(&header.body),
            Output::Vote(vote) => voted(vote),
            Output::Certificate(certificate) => certified(&certificate.header),
            _ => return Ok(()),
        };
        self.signed.push(Signed { signer, digest })?;
        Ok(())
    }

    /// Tests the premises on a message that a node is given.
    pub fn test(&mut self, to: Author, message: &Message) -> Reported {
        match message {
            Message::Header(header) => self.test_header(to, header),
            Message::Vote(vote) => {
                self.test_vote(vote);
                Ok(())
            }
            Message::Certificate(certificate) => self.test_certificate(certificate),
            Message::Coin(coin) => self.test_coin(*coin),
            _ => Ok(()),
        }
    }

    /// Tests the premises on an output that a node is given.
    pub fn test_output(&mut self, to: Author, output: &Output) -> Reported {
        match output {
            Output::Header(header) => self.test_header(to, header),
            Output::Vote(vote) => {
                self.test_vote(vote);
                Ok(())
            }
            Output::Certificate(certificate) => self.test_certificate(certificate),
            _ => Ok(()),
        }
    }

    fn test_header(&mut self, to: Author, header: &Header) -> Reported {
        let author = header.body.author;
        if author != to {
            self.test_signed(author, header_digest(&header.body), &header.signature);
        }
        self.test_text(&header.body)
    }

    fn test_vote(&mut self, vote: &Vote) {
        self.test_signed(vote.voter, voted(vote), &vote.signature);
    }

    fn test_certificate(&mut self, certificate: &Certificate) -> Reported {
        let digest = certified(&certificate.header);
        for vote in certificate.votes.as_slice() {
            self.test_signed(vote.voter, digest, &vote.signature);
        }
        self.test_text(&certificate.header)
    }

    // Tests that a good signature of an honest member is over a digest that the member signed in one of its outputs; otherwise it is
    // forged, and the premises don't hold.
    fn test_signed(&mut self, signed_by: Author, digest: Digest, signature: &Signature) {
        if signed_by.0 < self.honest
            && HashVerify.verify(&signer(signed_by).key(), &digest, signature)
            && !self.has_signed(signed_by, digest)
        {
            self.hold = false;
        }
    }

    fn has_signed(&self, signed_by: Author, digest: Digest) -> bool {
        self.signed.iter().any(|signed| signed.signer == signed_by && signed.digest == digest)
    }

    fn test_coin(&mut self, coin: Coin) -> Reported {
        if self.coins.iter().any(|other| other.wave == coin.wave && other.value != coin.value) {
            self.hold = false;
        }
        self.coins.push(coin)?;
        Ok(())
    }

    fn test_text(&mut self, body: &HeaderBody) -> Reported {
        if self.texts.iter().any(|text| text.is_same(body)) {
            return Ok(());
        }
        let text = Text {
            body: body.try_clone()?,
            header: header_digest(body),
            certificate: certified(body),
        };
        if text.header == text.certificate || self.texts.iter().any(|other| other.clashes(&text)) {
            self.hold = false;
        }
        self.texts.push(text)?;
        Ok(())
    }
}

// The digest that a vote's signature is over.
fn voted(vote: &Vote) -> Digest {
    certificate_digest(&vote.header, vote.round, vote.author)
}

// The digest that the signatures of the votes in a certificate of this header are over.
fn certified(body: &HeaderBody) -> Digest {
    certificate_digest(&header_digest(body), body.round, body.author)
}
