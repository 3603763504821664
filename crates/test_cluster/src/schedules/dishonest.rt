//! What dishonest members do: they make several headers for a round, vote for all headers, gather votes that honest members gave out, show
//! the certificates made of these votes to one node and not to another, and send headers, votes and certificates with bad signatures.

use super::headers::{Made, QUORUM, Showing, Which};
use super::nodes::LATER;
use super::schedule::{Answered, PACKER, Plan, Schedule};
use super::wishes::{Content, Part, Wish};
use crate::moves::UNSIGNED;
use header::make;
use sim_members::MEMBERS;
use sim_script::{Proposed, certificate, signer, vote};
use std::alloc::{AllocError, Global};
use test_cases::Reported;
use wire::{
    Author, BatchReference, Certificate, Digest, Header, Message, ParentReference, Round, Vote,
    batch_digest, genesis_digest,
};

/// A digest of all zeros, which isn't the digest of any text.
const NOTHING: Digest = Digest([0; 32]);

/// A header to show or to vote for is drawn from this many of the last headers.
const NEAR: u64 = 6;

/// A long delay, in rounds, before the certificate of a face is shown to a node.
const LONG: u64 = 6;

/// In the plan of a branch: the last round whose dishonest certificates reach the node apart later than the other nodes.
const LAST_APART: u64 = 6;

impl<'a> Schedule<'a> {
    /// When a node is given its own header at this place, each dishonest member perhaps makes a face for the header's round: one of its
    /// headers for the round.
    pub fn make_faces(&mut self, own: usize) -> Reported {
        for author in self.honest.count()..MEMBERS {
            self.make_face(Author(author), own)?;
        }
        Ok(())
    }

    fn make_face(&mut self, author: Author, own: usize) -> Reported {
        let drawn = self.draws.below(4);
        let Some(made) = self.headers.get(own) else {
            return Ok(());
        };
        let round = made.proposed.header.body.round;
        let number = round.number();
        let Some(face) = self.face_of(drawn, number, made.author()) else {
            return Ok(());
        };
        if self.headers.has_face(author, number, face) {
            return Ok(());
        }
        let parents = self.parents(number, face, made)?;
        if parents.len() < QUORUM {
            return Ok(());
        }
        self.form_face(author, round, face, &parents)
    }

    // Which face (0 or 1) a dishonest member makes for a round, given a number below 4 that was drawn; None if it makes none.
    fn face_of(&self, drawn: u64, round: u64, own: Author) -> Option<u64> {
        match self.plan {
            Plan::Drawn => (drawn < 2).then_some(drawn),
            Plan::Faces => match round % 4 {
                1 => Some(0),
                3 => Some(1),
                _ => Some(drawn % 2),
            },
            Plan::Branch => (drawn != 3).then_some(0),
            Plan::Split => Some(u64::from(own != self.apart)),
        }
    }

    // The parents of a face. In the plan of a split they are the parents of the node's own header; otherwise all certificates of the round
    // before that were put out. Face 1 leaves out a parent that leads to a leader. With fewer parents than a quorum no face is made.
    fn parents(
        &self,
        round: u64,
        face: u64,
        own: &Made,
    ) -> Result<Vec<ParentReference>, AllocError> {
        let mut parents = Vec::new(self.alloc);
        if let Plan::Split = self.plan {
            parents.extend_from_slice(own.proposed.header.body.parents.as_slice())?;
        } else {
            for author in 0..MEMBERS {
                if let Some(parent) = self.parent_of(Author(author), round, face) {
                    parents.push(parent)?;
                }
            }
        }
        if face == 1 {
            self.leave_one_out(&mut parents, round);
        }
        Ok(parents)
    }

    // A reference to a member's certificate of the round before, as a parent of a face of this round.
    fn parent_of(&self, author: Author, round: u64, face: u64) -> Option<ParentReference> {
        if round == 1 {
            let certificate = genesis_digest(author);
            return Some(ParentReference {
                author,
                certificate,
            });
        }
        let made = self
            .headers
            .certified(author, round.saturating_sub(1), face)?;
        Some(ParentReference {
            author,
            certificate: made.proposed.certificate,
        })
    }

    // Removes the first parent through which the leader is reached. If the parents are no more than a quorum this is done only in the plan
    // of two faces, and then no face is made for lack of parents.
    fn leave_one_out(&self, parents: &mut Vec<ParentReference>, round: u64) {
        if parents.len() <= QUORUM && !matches!(self.plan, Plan::Faces) {
            return;
        }
        let Some(leader) = self.leader_of(round / 2) else {
            return;
        };
        let found = parents
            .iter()
            .position(|parent| self.leads(parent, round, leader));
        if let Some(place) = found {
            if place < parents.len() {
                let _ = parents.remove(place);
            }
        }
    }

    // Whether this parent leads to the leader: in the second round of a wave, whether it is the leader's own certificate; in the third,
    // whether the parent names the leader's certificate as its own parent.
    fn leads(&self, parent: &ParentReference, round: u64, leader: Author) -> bool {
        if round % 2 == 0 {
            return parent.author == leader;
        }
        match self.made_of(&parent.certificate) {
            Some(made) => made.names(leader),
            None => false,
        }
    }

    // The header whose certificate has this digest.
    fn made_of(&self, certificate: &Digest) -> Option<&Made> {
        self.headers
            .get(self.headers.find_certificate(certificate)?)
    }

    fn form_face(
        &mut self,
        author: Author,
        round: Round,
        face: u64,
        parents: &Vec<ParentReference>,
    ) -> Reported {
        let named = match self.plan {
            Plan::Split => face as usize,
            _ => self.draws.below(64) as usize,
        };
        let showing = self.showing(round.number(), face);
        let header = self.new_face(author, round, self.named(named), parents.as_slice())?;
        let dishonest = self.first_dishonest();
        let batch = (named < self.batches.len()).then_some(named);
        let made = self.headers.form(header, dishonest, showing, batch)?;
        for node in 0..self.honest.count() {
            self.known
                .offer(Author(node), Wish::of(made, Part::Header))?;
        }
        Ok(())
    }

    fn new_face(
        &self,
        author: Author,
        round: Round,
        batch: Option<BatchReference>,
        parents: &[ParentReference],
    ) -> Result<Header, AllocError> {
        let made = match batch {
            Some(batch) => make(
                self.alloc,
                &signer(author),
                author,
                round,
                &[batch],
                parents,
            ),
            None => make(self.alloc, &signer(author), author, round, &[], parents),
        };
        match made {
            Ok(header) => Ok(header),
            Err(_) => Err(AllocError),
        }
    }

    // How many rounds late the certificate of a face of this round reaches the node apart, and how many the other nodes.
    fn showing(&mut self, round: u64, face: u64) -> Showing {
        let (apart, others) = match self.plan {
            Plan::Drawn => self.drawn_delays(face),
            Plan::Faces => match (face, round % 2) {
                (0, 0) => (1, LONG),
                (0, _) => (0, 1),
                (_, 0) => (LONG, 1),
                _ => (LONG, 0),
            },
            Plan::Branch => (
                (LAST_APART + 1).saturating_sub(round),
                u64::from(round < LAST_APART),
            ),
            Plan::Split => { if face == 0 { (0, LATER) } else { (LATER, 0) } }
        };
        Showing {
            face,
            apart,
            others,
        }
    }

    fn drawn_delays(&mut self, face: u64) -> (u64, u64) {
        let near = self.draws.below(2);
        let far = if self.draws.below(2) == 0 { LONG } else { 1 };
        if face == 0 { (near, far) } else { (far, near) }
    }

    /// Notes that votes enough for the certificate of a dishonest member's header are there: from now on each node is to be given the
    /// certificate, some nodes some rounds later.
    pub fn gather(&mut self, header: usize) -> Reported {
        self.headers.certify(header);
        let Some(made) = self.headers.get(header) else {
            return Ok(());
        };
        let (round, showing) = (made.round(), made.showing);
        for node in 0..self.honest.count() {
            let delay = if Author(node) == self.apart {
                showing.apart
            } else {
                showing.others
            };
            let at = round.saturating_add(delay);
            let wish = Wish {
                at,
                ..Wish::of(header, Part::Certificate)
            };
            self.known.offer(Author(node), wish)?;
        }
        Ok(())
    }

    // The reference to the batch with this number, 0 or 1, for a header; None for a greater number.
    fn named(&self, named: usize) -> Option<BatchReference> {
        let batch = self.batches.get(named)?;
        Some(BatchReference {
            digest: batch_digest(batch),
            worker: batch.worker(),
        })
    }

    /// The message with a content that comes from its author itself and not from a node's output, and the member that sends it.
    pub fn message_of(
        &self,
        content: Option<Content>,
    ) -> Result<Option<(Author, Message)>, AllocError> {
        let Some(Content { number, part }) = content else {
            return Ok(None);
        };
        match part {
            Part::Batch => self.batch_message(number),
            Part::Header => self.header_message(number),
            Part::Vote(voter) => Ok(
                self.vote_of(number, voter)
                    .map(|(_, vote)| (voter, Message::Vote(vote))),
            ),
            Part::Certificate => Ok(
                self.certificate_of(number)?.map(|certificate| (
                    self.first_dishonest(),
                    Message::Certificate(certificate),
                )),
            ),
        }
    }

    fn batch_message(&self, number: usize) -> Result<Option<(Author, Message)>, AllocError> {
        match self.batches.get(number) {
            Some(batch) => Ok(Some((PACKER, Message::Batch(batch.share()?)))),
            None => Ok(None),
        }
    }

    fn header_message(&self, header: usize) -> Result<Option<(Author, Message)>, AllocError> {
        match self.headers.get(header) {
            Some(made) => Ok(Some((
                made.author(),
                Message::Header(made.proposed.header.try_clone()?),
            ))),
            None => Ok(None),
        }
    }

    /// Gives a node one of the dishonest members' last headers.
    pub fn show(&mut self, node: Author) -> Result<Answered, AllocError> {
        let after = self.draws.below(NEAR);
        match self
            .headers
            .near_last(Which::From(self.first_dishonest()), after)
        {
            Some(header) => self.deliver("show", node, Wish::of(header, Part::Header)),
            None => self.go_on(node),
        }
    }

    /// Gives a node one of the two batches.
    pub fn batch(&mut self, node: Author) -> Result<Answered, AllocError> {
        let number = self.draws.below(2) as usize;
        self.deliver("batch", node, Wish::of(number, Part::Batch))
    }

    /// Gives the author of one of the honest members' last headers a dishonest member's vote for the header.
    pub fn vote(&mut self, node: Author) -> Result<Answered, AllocError> {
        let voter = self.draw_dishonest();
        let after = self.draws.below(NEAR);
        let found = self
            .headers
            .near_last(Which::Below(self.first_dishonest()), after);
        match found.and_then(|header| Some((header, self.author_of(header)?))) {
            Some((header, author)) => {
                self.deliver("vote", author, Wish::of(header, Part::Vote(voter)))
            }
            None => self.go_on(node),
        }
    }

    // The author of the header at this place, and a member's vote for the header.
    fn vote_of(&self, header: usize, voter: Author) -> Option<(Author, Vote)> {
        let made = self.headers.get(header)?;
        Some((made.author(), vote(&made.proposed, voter)))
    }

    /// Gives a node the certificate of one of the last headers that have a quorum of votes.
    pub fn gathered(&mut self, node: Author) -> Result<Answered, AllocError> {
        let after = self.draws.below(NEAR);
        match self.headers.near_last(Which::Gathered, after) {
            Some(header) => self.deliver("gathered", node, Wish::of(header, Part::Certificate)),
            None => self.go_on(node),
        }
    }

    fn certificate_of(&self, header: usize) -> Result<Option<Certificate>, AllocError> {
        match self.headers.get(header) {
            Some(made) => {
                let voters = self.voters_of(made)?;
                Ok(Some(certified(self.alloc, &made.proposed, &voters)?))
            }
            None => Ok(None),
        }
    }

    // The list of the members whose votes on a header are known, as text.
    fn voters_of(&self, made: &Made) -> Result<String, AllocError> {
        let mut voters = String::new(self.alloc);
        for member in 0..MEMBERS {
            if made.is_voter(member) {
                add_voter(&mut voters, member)?;
            }
        }
        Ok(voters)
    }

    /// Gives a node something with a bad signature: one of the last headers, an honest member's vote for the header, or its certificate.
    pub fn forged(&mut self, node: Author) -> Result<Answered, AllocError> {
        let kind = self.draws.below(3);
        let after = self.draws.below(NEAR);
        let Some(header) = self.headers.near_last(Which::Any, after) else {
            return self.go_on(node);
        };
        match self.forgery(kind, header)? {
            Some((sender, message)) => self.give("forged", node, sender, message, None),
            None => self.go_on(node),
        }
    }

    fn forgery(
        &mut self,
        kind: u64,
        header: usize,
    ) -> Result<Option<(Author, Message)>, AllocError> {
        match kind {
            0 => self.unsigned_header(header),
            1 => {
                let voter = self.draw_node();
                Ok(self.unsigned_vote(header, voter))
            }
            _ => self.unsigned_certificate(header),
        }
    }

    fn unsigned_header(&self, header: usize) -> Result<Option<(Author, Message)>, AllocError> {
        let Some(made) = self.headers.get(header) else {
            return Ok(None);
        };
        let mut header = made.proposed.header.try_clone()?;
        header.signature = UNSIGNED;
        Ok(Some((made.author(), Message::Header(header))))
    }

    fn unsigned_vote(&self, header: usize, voter: Author) -> Option<(Author, Message)> {
        let (_, mut vote) = self.vote_of(header, voter)?;
        vote.signature = UNSIGNED;
        Some((voter, Message::Vote(vote)))
    }

    // A certificate with votes whose signatures are over another digest than the one that such votes sign.
    fn unsigned_certificate(&self, header: usize) -> Result<Option<(Author, Message)>, AllocError> {
        let Some(made) = self.headers.get(header) else {
            return Ok(None);
        };
        let proposed = Proposed {
            header: made.proposed.header.try_clone()?,
            digest: made.proposed.digest,
            certificate: NOTHING,
        };
        let certificate = certified(self.alloc, &proposed, "0,1,2,3")?;
        Ok(Some((PACKER, Message::Certificate(certificate))))
    }
}

fn certified(alloc: Global, proposed: &Proposed, voters: &str) -> Result<Certificate, AllocError> {
    match certificate(alloc, proposed, voters) {
        Ok(certificate) => Ok(certificate),
        Err(_) => Err(AllocError),
    }
}

fn add_voter(voters: &mut String, member: u16) -> Result<(), AllocError> {
    if !voters.is_empty() {
        voters.push_str(",")?;
    }
    write!(voters, "{member}")
}
