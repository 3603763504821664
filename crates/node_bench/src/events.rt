//! Makes the events of full rounds in their order, as input for the work that is measured.

ghost use Rattle.std.specs.Prelude.{◌≡◌, None, IfOk};
ghost use Rattle.header.specs.Checks.{fault_of, accepts_all};

use crate::ending::Ending;
use crate::messages::{PEER, batch};
use crate::rounds::{Rounds, UNSIGNED};
use committee::Committee;
use header::{Checked, recheck};
use sim_script::OWN;
use std::alloc::Global;
use wire::{Author, Digest, Message, Vote, certificate_digest};

/// The events of a round that come before the round's certificates.
#[derive(Clone, Copy)]
pub enum Front {
    Nothing,
    /// The headers of all other members.
    Headers,
    /// The node's own header, and as many votes as complete its certificate. That certificate is not an event of the round then.
    Votes,
    /// The own header, the headers of the others, and the votes that complete the own certificate. Headers of the next round name that
    /// certificate as a parent too.
    All,
    /// Only batches of another member, without end. Each batch's body has this many bytes.
    Batches(u64),
}

/// Takes the place of a digest for an event that has none, such as a coin.
const STAND_IN: Digest = Digest([7; 32]);

/// The state from which the events of one round after the other are made.
#[derive(Drop)]
pub struct Events {
    rounds: Rounds,
    front: Front,
    // Whether a coin comes at the end of each wave.
    has_coins: bool,
    /// How many events of a round come before its certificates.
    pub front_len: u16,
    // How many events a round has except the coin.
    len: u16,
    // How many events of the current round were already made.
    place: u16,
    // How many batches were already made.
    batches: u64,
    // The digest of the node's last own header, on which the others vote.
    header: Digest,
}

/// The digest that the checks of an event computed last, or a fixed stand-in if they computed none.
pub fn digest_in(event: &Checked) -> Digest {
    let digest = match event.message() {
        Message::Batch(_) => event.batch_digest(),
        Message::Header(_) => event.header_digest(),
        _ => event.certificate_digest(),
    };
    digest.copied().unwrap_or(STAND_IN)
}

impl Events {
    /// The events from round 1 on, none of them made yet.
    pub fn new(
        alloc: Global,
        committee: &Committee,
        front: Front,
        has_coins: bool,
    ) -> Result<Events, Ending> {
        let rounds = Rounds::new(alloc, committee, false)?;
        let (front_len, certificates) = match front {
            Front::Nothing | Front::Batches(_) => (0, rounds.members),
            Front::Headers => (rounds.members.saturating_sub(1), rounds.members),
            // The node's own vote is among those of the voters.
            Front::Votes => (rounds.voters, rounds.members.saturating_sub(1)),
            Front::All => (
                rounds
                    .members
                    .saturating_add(rounds.voters)
                    .saturating_sub(1),
                rounds.members.saturating_sub(1),
            ),
        };
        Ok(Events {
            rounds,
            front,
            has_coins,
            front_len,
            len: front_len.saturating_add(certificates),
            place: 0,
            batches: 0,
            header: STAND_IN,
        })
    }

    /// Whether all events of the current round were made, and it is the round with this number or a later one.
    pub fn are_over(&self, rounds: u64) -> bool {
        self.place >= self.len && self.rounds.number >= rounds
    }

    /// How many events this many rounds have, with the coins of the waves that end in them.
    pub fn in_rounds(&self, rounds: u64) -> u64 {
        // A wave ends with each odd round except the first; then its coin comes.
        let coins = (rounds.saturating_add(1) / 2).saturating_sub(1);
        rounds
            .saturating_mul(u64::from(self.len))
            .saturating_add(coins)
    }

    /// The next event, after it passed the checks without those of signatures.
    pub fn tested(&mut self, committee: &Committee) -> Result<Checked, Ending>
        ensures { IfOk result (λ event. fault_of committee.now accepts_all event ≡ None) }
    {
        let (sender, message) = self.next()?;
        let event = recheck(committee, sender, message)?;
        self.note(event.message(), digest_in(&event))?;
        Ok(event)
    }

    /// The last member's vote on the own header, after it passed the checks without those of signatures. It comes after the certificate of
    /// that header is complete.
    pub fn late_vote(&self, committee: &Committee) -> Result<Checked, Ending>
        ensures { IfOk result (λ event. fault_of committee.now accepts_all event ≡ None) }
    {
        let last = self.rounds.members.saturating_sub(1);
        let (sender, message) = self.vote(Author(last))?;
        Ok(recheck(committee, sender, message)?)
    }

    // The next message and its sender.
    fn next(&mut self) -> Result<(Author, Message), Ending> {
        if let Front::Batches(size) = self.front {
            return self.batch(size);
        }
        if self.place >= self.len {
            self.place = 0;
            self.rounds.end();
            if self.has_coins
                && let Some(coin) = self.rounds.coin()?
            {
                return Ok((OWN, Message::Coin(coin)));
            }
        }
        let place = self.place;
        self.place = place.saturating_add(1);
        match place.checked_sub(self.front_len) {
            None => self.front_event(place),
            Some(before) => self.certificate(before),
        }
    }

    fn batch(&mut self, size: u64) -> Result<(Author, Message), Ending> {
        let batch = batch(self.rounds.alloc, PEER, self.batches, size)?;
        self.batches = self.batches.saturating_add(1);
        Ok((PEER, Message::Batch(batch)))
    }

    // The certificate that comes after this many other certificates of the round.
    fn certificate(&self, before: u16) -> Result<(Author, Message), Ending> {
        let author = match self.front {
            Front::Votes | Front::All => Author(before.saturating_add(1)),
            _ => Author(before),
        };
        let certificate = self.rounds.certificate(author)?;
        Ok((author, Message::Certificate(certificate)))
    }

    // The event with this place among those that come before the round's certificates.
    fn front_event(&self, place: u16) -> Result<(Author, Message), Ending> {
        let sender = match (self.front, place) {
            (Front::Votes, 0) => OWN,
            (Front::Votes, _) => return self.vote(Author(place)),
            (Front::All, _) => match place.checked_sub(self.rounds.members) {
                None => Author(place),
                Some(before) => return self.vote(Author(before.saturating_add(1))),
            },
            _ => Author(place.saturating_add(1)),
        };
        Ok((sender, Message::Header(self.rounds.header(sender)?)))
    }

    fn vote(&self, voter: Author) -> Result<(Author, Message), Ending> {
        let vote = Vote {
            header: self.header,
            round: self.rounds.round()?,
            author: OWN,
            voter,
            signature: UNSIGNED,
        };
        Ok((voter, Message::Vote(vote)))
    }

    // Keeps the digest of an event if later events refer to it: a certificate is a parent in the next round, a header gets votes.
    fn note(&mut self, message: &Message, digest: Digest) -> Result<(), Ending> {
        match message {
            Message::Certificate(certificate) => self
                .rounds
                .note(certificate.header.author, digest),
            Message::Header(header) if header.body.author == OWN => {
                self.header = digest;
                self.note_own(digest)
            }
            _ => Ok(()),
        }
    }

    // Makes the own certificate, which the votes on this header complete, a parent of the next round, if the events are of that kind.
    fn note_own(&mut self, header: Digest) -> Result<(), Ending> {
        match self.front {
            Front::All => {
                let digest = certificate_digest(&header, self.rounds.round()?, OWN);
                self.rounds.note(OWN, digest)
            }
            _ => Ok(()),
        }
    }
}
