//! A schedule of moves on a cluster, and how its next move is drawn and made.

ghost use Rattle.std.specs.Prelude.{◌<◌, ◌≤◌};

use super::draws::Draws;
use super::headers::Headers;
use super::premises::Premises;
use super::report::Report;
use super::wishes::{BATCHES, Content, Known, Part, Source, Wish};
use crate::disks::{Grip, GrippedDisk, disks_of, new_grips};
use cluster::{Applied, Cluster, ClusterError};
use sigface::{HashSign, HashVerify};
use sim_members::{MEMBERS, Settings};
use std::alloc::{AllocError, Global};
use test_cases::Reported;
use wire::{Author, Batch, Digest, MAX_TRANSACTION_BYTES, OpenBatch, Output, header_digest};

/// How many waves have a coin.
pub const WAVES: u64 = 8;

/// After this many moves it is drawn anew which node is deaf (kept from its deliveries).
const STRETCH: u64 = 32;

/// The author of the batches that nodes are given, a dishonest member.
pub const PACKER: Author = Author(MEMBERS - 1);

/// How many of the four members are honest, and have a node each: three (one dishonest member is tolerated), or two.
#[derive(Clone, Copy)]
pub enum Honest {
    Three,
    Two,
}

impl Honest {
    pub fn count(self) -> u16
        ensures some { 0 < result }
        ensures most { result ≤ 3 }
    {
        match self {
            Honest::Three => 3,
            Honest::Two => 2,
        }
    }
}

/// What the dishonest members aim at in a schedule.
#[derive(Clone, Copy)]
pub enum Plan {
    /// Nothing in particular: everything that they do is drawn.
    Drawn,
    /// They make two headers for a round, the faces 0 and 1, and show one face to the node apart and the other face to the other nodes.
    Faces,
    /// They make a branch of certificates that the node apart isn't shown for the first rounds.
    Branch,
    /// There is one dishonest member more than is tolerated, and they try to split the honest members: to make them commit different
    /// orders.
    Split,
}

impl Plan {
    fn of(honest: Honest, start: u64) -> Plan {
        match honest {
            Honest::Two => Plan::Split,
            Honest::Three => match start % 8 {
                0 => Plan::Drawn,
                1..=4 => Plan::Faces,
                _ => Plan::Branch,
            },
        }
    }

    // The value of a wave's coin under this plan, for a value that was drawn.
    fn value(self, start: u64, drawn: u64) -> u64 {
        let last = u64::from(MEMBERS - 1);
        match self {
            Plan::Faces => {
                if drawn < last && start % 2 == 0 {
                    drawn
                } else {
                    last
                }
            }
            Plan::Branch => drawn % 3,
            _ => drawn,
        }
    }
}

/// Which rare things happened in a schedule.
#[derive(Clone, Copy)]
pub struct Marks {
    /// At some time two nodes had orders of different lengths, neither of them empty.
    pub unlike: bool,
    /// A node committed a wave, skipped the next one, and committed a later one.
    pub skipped: bool,
    /// A dishonest member's certificate was committed as a leader.
    pub dishonest: bool,
    /// A node's floor (the lowest round that it keeps) rose by more than one round at once.
    pub risen: bool,
}

/// A move that was made: its kind, the node that moved, and the cluster's answer.
#[derive(Clone, Copy)]
pub struct Answered {
    pub kind: &'static str,
    pub node: Author,
    pub outcome: Result<Applied, ClusterError>,
}

/// The cluster of the honest members' nodes, and everything from which the next move is drawn.
#[derive(Drop)]
pub struct Schedule<'a> {
    pub alloc: Global,
    pub cluster: Cluster<'a, HashSign, GrippedDisk, HashVerify>,
    pub grips: Vec<Grip>,
    pub honest: Honest,
    pub start: u64,
    pub depth: u64,
    pub plan: Plan,
    pub draws: Draws,
    /// The node apart: the one to which the dishonest members show other headers, or show them later.
    pub apart: Author,
    /// The number of the deaf node, which is given nothing of what it is to be given; greater than all numbers if no node is deaf.
    pub deaf: u64,
    /// How many moves were made.
    moves: u64,
    pub coins: [u64; WAVES as usize],
    pub batches: Vec<Batch>,
    pub headers: Headers,
    pub known: Known,
    pub premises: Premises,
    /// How many of the deliveries were lost.
    pub lost: u64,
    pub marks: Marks,
}

impl<'a> Schedule<'a> {
    /// A schedule before its first move. `AllocError` if an allocation failed, or the nodes couldn't be opened.
    pub fn new(
        alloc: Global,
        settings: &'a Settings,
        honest: Honest,
        depth: u64,
        start: u64,
    ) -> Result<Schedule<'a>, AllocError> {
        let grips = new_grips(alloc, honest.count())?;
        let cluster = opened(alloc, settings, &grips)?;
        let plan = Plan::of(honest, start);
        let mut draws = Draws::from(start);
        let apart = Author(draws.below(u64::from(honest.count())) as u16);
        let mut coins = [0; WAVES as usize];
        for coin in coins.iter_mut() {
            *coin = plan.value(start, draws.below(8));
        }
        Ok(Schedule {
            alloc,
            cluster,
            grips,
            honest,
            start,
            depth,
            plan,
            draws,
            apart,
            deaf: u64::MAX,
            moves: 0,
            coins,
            batches: batches(alloc)?,
            headers: Headers::new(alloc),
            known: known(alloc, honest)?,
            premises: Premises::new(alloc, honest.count()),
            lost: 0,
            marks: Marks {
                unlike: false,
                skipped: false,
                dishonest: false,
                risen: false,
            },
        })
    }

    /// Makes the next move, and counts its answer in the report.
    pub fn advance(&mut self, report: &mut Report) -> Reported {
        let answered = self.step()?;
        report.count(&answered)?;
        let node = answered.node;
        let before = self.known.ordered(node);
        self.look(node)?;
        if before < self.order(node).len() {
            report.grow();
        }
        let kept = self.follow(node, before)?;
        if !kept || !self.agree() {
            report.go_wrong(self.start);
        }
        Ok(())
    }

    // Draws the next move, and makes it.
    fn step(&mut self) -> Result<Answered, AllocError> {
        if self.moves % STRETCH == 0 {
            self.deaf = self.draws.below(8);
        }
        self.moves = self.moves.saturating_add(1);
        let kind = self.draws.below(128);
        let node = self.draw_node();
        match kind {
            0..=85 => self.want(node),
            86..=87 => self.any(node),
            88..=97 => self.go_on(node),
            98 => self.show(node),
            99 => self.batch(node),
            100 => self.vote(node),
            101 => self.gathered(node),
            102 => self.forged(node),
            103..=125 => self.coin(node),
            126 => self.fault(node),
            _ => self.stop(node),
        }
    }

    /// Draws the number of a node.
    pub fn draw_node(&mut self) -> Author {
        Author(self.draws.below(u64::from(self.honest.count())) as u16)
    }

    /// The first of the dishonest members.
    pub fn first_dishonest(&self) -> Author {
        Author(self.honest.count())
    }

    /// Draws a dishonest member.
    pub fn draw_dishonest(&mut self) -> Author {
        let first = self.honest.count();
        Author(first + self.draws.below(u64::from(MEMBERS - first)) as u16)
    }

    // Looks at the outputs of a node that weren't looked at yet, and notes who is to be given them.
    fn look(&mut self, node: Author) -> Reported {
        let outputs = self.cluster.outputs(node).unwrap_or(0);
        for output in self.known.of(node).outputs..outputs {
            self.look_at(node, output)?;
        }
        self.known.note_outputs(node, outputs);
        Ok(())
    }

    fn look_at(&mut self, node: Author, output: u64) -> Reported {
        if let Some(given) = self.cluster.output(node, output) {
            self.premises.note(node, given)?;
        }
        let Some(content) = self.content_of(node, output) else {
            return Ok(());
        };
        let wish = Wish {
            content: Some(content),
            source: Source::Output { node, output },
            at: 0,
        };
        match content.part {
            Part::Vote(voter) => self.look_at_vote(wish, content.number, voter),
            Part::Certificate => {
                self.headers.certify(content.number);
                self.known.get(node, content)?;
                self.offer_to_others(node, wish)
            }
            _ => {
                self.offer_to_others(node, wish)?;
                self.offer_votes(node, content.number)
            }
        }
    }

    // Which part of which header an output is, if the output is a header, a vote or a certificate.
    pub fn content_of(&self, node: Author, output: u64) -> Option<Content> {
        let (digest, part) = self.part_of(node, output)?;
        let number = self.headers.find(&digest)?;
        Some(Content { number, part })
    }

    // The digest of the header that an output is of, and which part of it the output is: the header itself, its certificate or a vote on
    // it.
    fn part_of(&self, node: Author, output: u64) -> Option<(Digest, Part)> {
        match self.cluster.output(node, output)? {
            Output::Header(header) => Some((header_digest(&header.body), Part::Header)),
            Output::Certificate(certificate) => {
                Some((header_digest(&certificate.header), Part::Certificate))
            }
            Output::Vote(vote) => Some((vote.header, Part::Vote(vote.voter))),
            _ => None,
        }
    }

    // Notes a vote that was put out. If the header's author has a node, the node is to be given the vote; if the author is dishonest and
    // the votes on the header are a quorum, the certificate can be made.
    fn look_at_vote(&mut self, wish: Wish, header: usize, voter: Author) -> Reported {
        self.headers.add_vote(header, voter);
        match self.author_of(header) {
            Some(author) if author < self.first_dishonest() => self.known.offer(author, wish),
            Some(_) if self.is_gathered(header) => self.gather(header),
            _ => Ok(()),
        }
    }

    fn is_gathered(&self, header: usize) -> bool {
        match self.headers.get(header) {
            Some(made) => made.is_gathered(),
            None => false,
        }
    }

    // Notes that all other nodes are to be given a header or a certificate that a node put out.
    fn offer_to_others(&mut self, node: Author, wish: Wish) -> Reported {
        for other in 0..self.honest.count() {
            if Author(other) != node {
                self.known.offer(Author(other), wish)?;
            }
        }
        Ok(())
    }

    // Notes that a node is to be given the dishonest members' votes on its own header.
    fn offer_votes(&mut self, node: Author, header: usize) -> Reported {
        for voter in self.honest.count()..MEMBERS {
            self.known
                .offer(node, Wish::of(header, Part::Vote(Author(voter))))?;
        }
        Ok(())
    }

    /// The author of the header at this place.
    pub fn author_of(&self, header: usize) -> Option<Author> {
        Some(self.headers.get(header)?.author())
    }

    /// The order that a node gave out.
    pub fn order(&self, node: Author) -> &[Digest] {
        self.cluster.given_order(node).unwrap_or(&[])
    }

    // Looks at what was added to a node's order from place `before` on. Returns whether the order begins with what it was before.
    fn follow(&mut self, node: Author, before: usize) -> Result<bool, AllocError> {
        let committed = self.known.of(node).committed;
        for place in before..self.order(node).len() {
            if let Some(wave) = self.wave_led(node, place) {
                self.note_leader(node, wave);
            }
        }
        let floor = self.floor(committed);
        if floor.saturating_add(1) < self.floor(self.known.of(node).committed) {
            self.marks.risen = true;
        }
        let order = self.order(node).to_vec(self.alloc)?;
        let kept = self.known.follow(node, order);
        if self.is_unlike() {
            self.marks.unlike = true;
        }
        Ok(kept)
    }

    // The wave whose leader is the certificate at this place of a node's order, if the node hadn't committed that wave or a later one
    // before.
    fn wave_led(&self, node: Author, place: usize) -> Option<u64> {
        let made = self.headers.get(self.headers.find_certificate(self.order(node).get(place)?)?)?;
        let wave = made.round().saturating_add(1) / 2;
        if made.round() % 2 == 1
            && self.leader_of(wave) == Some(made.author())
            && self.known.of(node).committed < wave
        {
            return Some(wave);
        }
        None
    }

    fn note_leader(&mut self, node: Author, wave: u64) {
        let before = self.known.of(node).committed;
        if 0 < before && before.saturating_add(1) < wave {
            self.marks.skipped = true;
        }
        if let Some(leader) = self.leader_of(wave) {
            if leader >= self.first_dishonest() {
                self.marks.dishonest = true;
            }
        }
        self.known.commit(node, wave);
    }

    /// The author of the leader of a wave, if the wave has a coin.
    pub fn leader_of(&self, wave: u64) -> Option<Author> {
        let value = *self.coins.get(wave.checked_sub(1)? as usize)?;
        Some(Author((value % u64::from(MEMBERS)) as u16))
    }

    // The floor of a node (the lowest round that it keeps) if this is the greatest wave that it has committed.
    fn floor(&self, wave: u64) -> u64 {
        wave.saturating_mul(2)
            .saturating_sub(1)
            .saturating_sub(self.depth)
    }

    // Whether two nodes have orders of different lengths, neither of them empty.
    fn is_unlike(&self) -> bool {
        let nodes = self.honest.count();
        (0..nodes).any(|one| (0..one).any(|other| self.are_unlike(Author(one), Author(other))))
    }

    fn are_unlike(&self, one: Author, other: Author) -> bool {
        let (one, other) = (self.known.ordered(one), self.known.ordered(other));
        0 < one && 0 < other && one != other
    }

    // Whether of any two nodes' orders one is a prefix of the other.
    fn agree(&self) -> bool {
        let nodes = self.honest.count();
        (0..nodes).all(|one| (0..one).all(|other| self.begin_alike(Author(one), Author(other))))
    }

    fn begin_alike(&self, one: Author, other: Author) -> bool {
        self.order(one)
            .iter()
            .zip(self.order(other))
            .all(|(one, other)| one == other)
    }
}

fn opened<'a>(
    alloc: Global,
    settings: &'a Settings,
    grips: &[Grip],
) -> Result<Cluster<'a, HashSign, GrippedDisk, HashVerify>, AllocError> {
    let Some(configs) = settings.first(grips.len()) else {
        return Err(AllocError);
    };
    let disks = disks_of(alloc, grips, grips.len())?;
    if disks.len() != configs.len() {
        return Err(AllocError);
    }
    match Cluster::new(alloc, configs, disks, HashVerify) {
        Ok(cluster) => Ok(cluster),
        Err(_) => Err(AllocError),
    }
}

// What is noted of new nodes: each is to be given all batches.
fn known(alloc: Global, honest: Honest) -> Result<Known, AllocError> {
    let mut known = Known::new(alloc);
    for node in 0..honest.count() {
        for number in 0..BATCHES {
            known.offer(Author(node), Wish::of(number, Part::Batch))?;
        }
    }
    Ok(known)
}

// The batches that headers of dishonest members can name.
fn batches(alloc: Global) -> Result<Vec<Batch>, AllocError> {
    let mut batches = Vec::new(alloc);
    for transaction in [b"x", b"y"] {
        batches.push(batch(alloc, transaction)?)?;
    }
    Ok(batches)
}

// Makes a batch with one transaction.
fn batch(alloc: Global, transaction: &[u8]) -> Result<Batch, AllocError> {
    let mut batch = OpenBatch::new(alloc, PACKER, 0)?;
    if transaction.len() <= MAX_TRANSACTION_BYTES && batch.has_room(transaction.len()) {
        batch.push(transaction)?;
    }
    Ok(batch.close()?)
}
