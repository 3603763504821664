//! A node's history, made event by event from words.

ghost use Rattle.std.specs.Prelude.{◌<◌, ◌≤◌};

use crate::accords::legal::is_last_new;
use crate::accords::made::Made;
use crate::parts::parted;
use committee::{Committee, MAX_MEMBERS, MemberSet};
use header::{Event, Node, recheck};
use sigface::HashSign;
use sim_script::{FormError, Proposed, signer};
use std::alloc::{AllocError, Global};
use wire::{
    Author, Certificate, Coin, MAX_VOTES, Message, Signature, Vote, VoteEntries, VoteEntry, Wave,
};

/// A node with its history.
#[derive(Drop)]
pub struct Played {
    alloc: Global,
    /// The node.
    pub node: Node<HashSign>,
    /// The history of the node.
    pub history: Vec<Event>,
    /// Whether each event passed the checks and was new.
    pub legal: bool,
    waves: u64,
    votes: VoteEntries,
}

/// The signature of all votes. No signature is verified, since a history may be legal whatever its signatures are.
const SIGNATURE: Signature = Signature([0; 64]);

/// The history that these words describe; the first of them is the number of the node's member.
pub fn play_words(
    alloc: Global,
    committee: Committee,
    made: &Made,
    words: &str,
) -> Result<Played, FormError> {
    let (own, words) = parted(words, ' ');
    let own = Author(own.parse().unwrap_or(u16::MAX));
    let node = Node {
        own,
        committee,
        signer: signer(own),
    };
    let mut played = begun(alloc, node)?;
    for word in words.split_whitespace() {
        played.play(made, word)?;
    }
    Ok(played)
}

/// A node with an empty history, and the votes with which headers are certified: those of a quorum.
fn begun(alloc: Global, node: Node<HashSign>) -> Result<Played, AllocError> {
    let votes = votes_of(alloc, &voters_from(&node))?;
    Ok(Played {
        alloc,
        node,
        history: Vec::new(alloc),
        legal: true,
        waves: 0,
        votes,
    })
}

/// A quorum: as few members as it takes, counted from the node's own member on, and after the last member from member 0 on.
fn voters_from(node: &Node<HashSign>) -> MemberSet {
    let size = node.size();
    let mut voters = MemberSet::none();
    for place in 0..size {
        if node.committee.weight(&voters) < node.quorum() {
            voters.insert(Author(after(node.own.0, place, size)));
        }
    }
    voters
}

/// The member that comes `place` members after `own`; after the last member comes the first.
fn after(own: u16, place: u16, size: u16) -> u16
    requires { 0 < size }
    ensures { result < size }
{
    ((u64::from(own) + u64::from(place)) % u64::from(size)) as u16
}

/// The votes of these members, in ascending order.
fn votes_of(alloc: Global, voters: &MemberSet) -> Result<VoteEntries, AllocError> {
    let mut votes = VoteEntries::new(alloc);
    for member in 0..MAX_MEMBERS {
        let voter = Author(member);
        if voters.contains(voter) && votes.len() < MAX_VOTES && votes.may_follow(voter) {
            votes.push(VoteEntry {
                voter,
                signature: SIGNATURE,
            })?;
        }
    }
    Ok(votes)
}

/// The vote of a member on a header.
fn vote_on(proposed: &Proposed, voter: Author) -> Vote {
    Vote {
        header: proposed.digest,
        round: proposed.header.body.round,
        author: proposed.header.body.author,
        voter,
        signature: SIGNATURE,
    }
}

impl Played {
    /// Plays a word: a coin, an own header with its votes, or a certificate.
    fn play(&mut self, made: &Made, word: &str) -> Result<(), FormError> {
        if let Some(value) = word.strip_prefix("c") {
            return self.coin(value.parse().unwrap_or(0));
        }
        if let Some(label) = word.strip_prefix("m") {
            return self.make(header_of(made, label)?);
        }
        self.certify(header_of(made, word)?)
    }

    fn coin(&mut self, value: u64) -> Result<(), FormError> {
        self.waves = self.waves.saturating_add(1);
        let wave = Wave::new(self.waves)?;
        Ok(self.take(self.node.own, Message::Coin(Coin { wave, value }))?)
    }

    fn certify(&mut self, proposed: &Proposed) -> Result<(), FormError> {
        let certificate = Certificate {
            header: proposed.header.body.try_clone()?,
            votes: self.votes.clone()?,
        };
        Ok(self.take(self.node.own, Message::Certificate(certificate))?)
    }

    /// Takes an own header, and then votes on it until they are a quorum: the node's own vote and those of the members after it, in order.
    fn make(&mut self, proposed: &Proposed) -> Result<(), FormError> {
        let header = proposed.header.try_clone()?;
        self.take(self.node.own, Message::Header(header))?;
        let size = self.node.size();
        for place in 1..size {
            self.vote(proposed, Author(after(self.node.own.0, place, size)))?;
        }
        Ok(())
    }

    /// Takes the vote of a member, if the member is one of those whose votes are used.
    fn vote(&mut self, proposed: &Proposed, voter: Author) -> Result<(), AllocError> {
        if !is_among(&self.votes, voter) {
            return Ok(());
        }
        self.take(voter, Message::Vote(vote_on(proposed, voter)))
    }

    /// Takes a message, and notes whether it passes the checks (but for its signatures) and is new.
    fn take(&mut self, sender: Author, message: Message) -> Result<(), AllocError> {
        match recheck(&self.node.committee, sender, message) {
            Err(_) => {
                self.legal = false;
                Ok(())
            }
            Ok(checked) => self.add(checked.sender(), checked.into_message()),
        }
    }

    fn add(&mut self, sender: Author, message: Message) -> Result<(), AllocError> {
        self.history.push(Event { sender, message })?;
        self.legal = is_last_new(self.alloc, &self.node, &self.history)? && self.legal;
        Ok(())
    }
}

/// Whether a member has one of these votes.
fn is_among(votes: &VoteEntries, voter: Author) -> bool {
    votes.as_slice().iter().any(|vote| vote.voter == voter)
}

fn header_of<'a>(made: &'a Made, label: &str) -> Result<&'a Proposed, FormError> {
    match made.header(label) {
        None => Err(FormError::BadCommand),
        Some(proposed) => Ok(proposed),
    }
}
