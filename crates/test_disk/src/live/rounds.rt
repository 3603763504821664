//! The messages of the other members in round after round, as frames that a run of a node reads.

use crate::live::ending::Ending;
use crate::live::makers::first_parents;
use crate::store::{SHORTEST, batch};
use header::make;
use sim_script::{OWN, Proposed, certificate, signer};
use std::alloc::Global;
use std::mem;
use wire::{
    Author, Coin, Message, ParentReference, Round, Wave, certificate_digest, encode, header_digest,
};

/// The members who propose in each round.
const OTHERS: [Author; 3] = [Author(1), Author(2), Author(3)];

/// The members who vote on each header.
const VOTERS: &str = "0,1,2";

/// The member whose certificate is the leader of every wave, by the coins.
const ELECTED: u64 = 1;

/// The other members' rounds up to now, from which the frames of the next rounds are made.
#[derive(Drop)]
pub struct OtherRounds {
    alloc: Global,
    // The number of the last round.
    number: u64,
    // References to the certificates of the last round, as parents of the next one.
    made: Vec<ParentReference>,
    frames: Vec<u8>,
}

impl OtherRounds {
    /// The state before the first round, with the genesis certificates as parents.
    pub fn new(alloc: Global) -> Result<OtherRounds, Ending> {
        Ok(OtherRounds {
            alloc,
            number: 0,
            made: first_parents(alloc)?,
            frames: Vec::new(alloc),
        })
    }

    /// The frames of this many more rounds. Each round has a batch of member 1, the headers of the other members with the certificates of
    /// the round before as parents, the certificates of these headers, and the coin of the wave if the round is the wave's last.
    pub fn next(&mut self, count: u64) -> Result<Vec<u8>, Ending> {
        for _ in 0..count {
            self.number = self.number.saturating_add(1);
            self.put_batch()?;
            self.put_proposals()?;
            self.put_coin()?;
        }
        Ok(mem::replace(&mut self.frames, Vec::new(self.alloc)))
    }

    fn put_batch(&mut self) -> Result<(), Ending> {
        let [author, ..] = OTHERS;
        match batch(self.alloc, author, self.number, SHORTEST)? {
            Some(batch) => self.put(author, Message::Batch(batch)),
            None => Err(Ending::Unexpected),
        }
    }

    // Adds the frames of the round's headers, and after them those of their certificates.
    fn put_proposals(&mut self) -> Result<(), Ending> {
        let parents = mem::replace(&mut self.made, Vec::new(self.alloc));
        let mut proposals = Vec::new(self.alloc);
        for author in &OTHERS {
            let proposed = self.propose(*author, &parents)?;
            self.put(*author, Message::Header(proposed.header.try_clone()?))?;
            proposals.push(proposed)?;
        }
        for proposed in &proposals {
            self.certify(proposed)?;
        }
        Ok(())
    }

    fn propose(&self, author: Author, parents: &[ParentReference]) -> Result<Proposed, Ending> {
        let (signer, round) = (signer(author), Round::new(self.number)?);
        let header = make(self.alloc, &signer, author, round, &[], parents)?;
        let digest = header_digest(&header.body);
        let certificate = certificate_digest(&digest, round, author);
        Ok(Proposed {
            header,
            digest,
            certificate,
        })
    }

    fn certify(&mut self, proposed: &Proposed) -> Result<(), Ending> {
        let author = proposed.header.body.author;
        self.made.push(ParentReference {
            author,
            certificate: proposed.certificate,
        })?;
        let certificate = certificate(self.alloc, proposed, VOTERS)?;
        self.put(author, Message::Certificate(certificate))
    }

    fn put_coin(&mut self) -> Result<(), Ending> {
        if self.number < 3 || self.number % 2 == 0 {
            return Ok(());
        }
        let (wave, value) = (Wave::new(self.number / 2)?, ELECTED);
        self.put(OWN, Message::Coin(Coin { wave, value }))
    }

    // Adds the frame of a message with its sender.
    fn put(&mut self, sender: Author, message: Message) -> Result<(), Ending> {
        let bytes = encode(self.alloc, &message)?;
        let len = (bytes.len() + 2) as u32;
        self.frames.extend_from_slice(&len.to_be_bytes())?;
        self.frames.extend_from_slice(&sender.0.to_be_bytes())?;
        self.frames.extend_from_slice(&bytes)?;
        Ok(())
    }
}
