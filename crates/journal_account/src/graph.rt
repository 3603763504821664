//! The certificates of a journal as a graph: which parents each names, and which leader ordered it.

use crate::flaw::Flaw;
use crate::kept::kept_in;
use crate::parts::events_of;
use crate::reading::after_records;
use crate::waves::{Named, Waves, certificate_of, waves_of};
use admission::{Kept, VotedHeader};
use committee::Committee;
use header::Checked;
use journal::Record;
use opening::event_of;
use sigface::Sign;
use std::alloc::{AllocError, Global};
use validator::Config;
use wire::{Author, Digest, HeaderBody, Message, Round, Vote, header_digest};

/// A certificate that the journal's node has held.
#[derive(Drop)]
pub struct Vertex {
    /// The certificate's digest, round and author.
    pub named: Named,
    /// The authors of the certificate's parents, which are certificates of the round before.
    pub parents: Vec<Author>,
    /// The wave whose leader put this certificate into the order; None if no leader did.
    pub wave: Option<u64>,
}

/// Whether the leader of a wave was committed.
#[derive(Clone, Copy, Debug, PartialEq, Eq)]
pub enum Fate {
    /// The wave's leader is committed, and is in the order.
    Committed,
    /// The wave's own leader isn't committed, but that of a later wave is.
    Skipped,
    /// Neither the wave's own leader nor that of a later wave is committed yet.
    Open,
}

/// The certificates of a journal, and what is known of its waves.
pub struct Graph {
    // The certificates, sorted by round and then by author.
    vertices: Vec<Vertex>,
    waves: Waves,
    // The last wave whose leader is committed; 0 if there is none.
    last_committed: u64,
    floor: u64,
    // The garbage-collection round of the checkpoint with which the journal begins; 0 if it has none.
    first: u64,
    members: u16,
}

impl Drop for Graph {
    fn drop(self) {
        let Graph {
            vertices: _,
            waves: _,
            last_committed: _,
            floor: _,
            first: _,
            members: _,
        } = self;
    }
}

impl Graph {
    /// Makes the graph of a journal with these records.
    ///
    /// # Errors
    /// Those of an opening of a node: `Damaged` with a place in bytes, `ConfigMismatch`, or `Memory` if an allocation failed.
    pub fn new<S: Sign>(
        alloc: Global,
        config: &Config<S>,
        records: &[Record],
    ) -> Result<Graph, Flaw> {
        let validator = after_records(alloc, config, records)?;
        let committee = config.committee();
        let waves = Waves::new(alloc, config, records)?;
        let ordered = waves_of(alloc, &waves, validator.order())?;
        let kept = kept_in(alloc, config, records)?;
        let events = events_of(records);
        let mut vertices = vertices_in(alloc, committee, config.own(), &kept, events)?;
        for (digest, wave) in validator.order().iter().zip(&ordered) {
            mark(&mut vertices, &waves, digest, *wave);
        }
        let last_committed = match ordered.last() {
            Some(Some(wave)) => *wave,
            _ => 0,
        };
        Ok(Graph {
            vertices,
            waves,
            last_committed,
            floor: validator.floor().number(),
            first: kept.floor.number(),
            members: committee.size(),
        })
    }

    /// How many members the committee has.
    pub fn members(&self) -> u16 {
        self.members
    }

    /// The garbage-collection round (the floor): the node no longer holds certificates of rounds below it.
    pub fn floor(&self) -> u64 {
        self.floor
    }

    /// The lowest round in the graph: that of the genesis certificates, or the floor of the checkpoint with which the journal begins.
    pub fn first_round(&self) -> u64 {
        self.first
    }

    /// The greatest round of a certificate; 0 if there is none.
    pub fn last_round(&self) -> u64 {
        match self.vertices.last() {
            Some(vertex) => vertex.named.round.number(),
            None => 0,
        }
    }

    /// The certificate of this round, which is above 0, and of this author.
    pub fn at(&self, round: u64, author: Author) -> Option<&Vertex> {
        match self.vertices.get(place_of(&self.vertices, round, author)) {
            Some(vertex) if is_at(&vertex.named, round, author) => Some(vertex),
            _ => None,
        }
    }

    /// The author whose certificate is the leader of a wave; None if the coin of the wave isn't known.
    pub fn leader_of(&self, wave: u64) -> Option<Author> {
        self.waves.leader_of(wave)
    }

    /// Whether the leader of a wave was committed. The first round of the wave must not be below the first round of the graph.
    pub fn fate_of(&self, wave: u64) -> Fate {
        if wave > self.last_committed {
            return Fate::Open;
        }
        let first = wave.saturating_mul(2).saturating_sub(1);
        let leader = self
            .leader_of(wave)
            .and_then(|author| self.at(first, author));
        match leader {
            Some(vertex) if vertex.wave == Some(wave) => Fate::Committed,
            _ => Fate::Skipped,
        }
    }
}

// An own header that has votes, but no certificate yet.
#[derive(Drop)]
struct Voted {
    header: Digest,
    vertex: Vertex,
    // The weight of the members that have voted on the header so far.
    weight: u64,
}

// The certificates that a journal holds, sorted by round and then by author: those of its checkpoint, those that came in as events, and
// those of own headers for which a quorum voted.
fn vertices_in(
    alloc: Global,
    committee: &Committee,
    own: Author,
    kept: &Kept,
    events: &[Record],
) -> Result<Vec<Vertex>, AllocError> {
    let mut vertices = Vec::new(alloc);
    for (certificate, _) in &kept.certificates {
        vertices.push(vertex_of(alloc, &certificate.header)?)?;
    }
    let mut voted = Vec::new(alloc);
    for one in &kept.headers {
        add_voted(alloc, committee, own, one, &mut voted)?;
    }
    for one in events {
        if let Some(event) = event_of(alloc, committee, one.bytes.as_slice())? {
            add(alloc, committee, own, &event, &mut vertices, &mut voted)?;
        }
    }
    vertices.sort_by_key(|vertex| (vertex.named.round, vertex.named.author))?;
    Ok(vertices)
}

// Adds an own header from a checkpoint. One whose certificate is complete is left out: the checkpoint has the certificate too.
fn add_voted(
    alloc: Global,
    committee: &Committee,
    own: Author,
    one: &VotedHeader,
    voted: &mut Vec<Voted>,
) -> Result<(), AllocError> {
    let mut weight = committee.stake(own).unwrap_or(0);
    for vote in &one.votes {
        weight = weight.saturating_add(committee.stake(vote.voter).unwrap_or(0));
    }
    if weight < committee.quorum() {
        voted.push(Voted {
            header: header_digest(&one.header.body),
            vertex: vertex_of(alloc, &one.header.body)?,
            weight,
        })?;
    }
    Ok(())
}

// Adds the certificates that an event brings: one that came in, or the one that a vote completes.
fn add(
    alloc: Global,
    committee: &Committee,
    own: Author,
    event: &Checked,
    vertices: &mut Vec<Vertex>,
    voted: &mut Vec<Voted>,
) -> Result<(), AllocError> {
    match event.message() {
        Message::Certificate(certificate) => {
            vertices.push(vertex_of(alloc, &certificate.header)?)?;
        }
        Message::Header(header) if header.body.author == own => {
            let weight = committee.stake(own).unwrap_or(0);
            voted.push(Voted {
                header: header_digest(&header.body),
                vertex: vertex_of(alloc, &header.body)?,
                weight,
            })?;
        }
        Message::Vote(vote) => {
            let stake = committee.stake(vote.voter).unwrap_or(0);
            if let Some(vertex) = completed(voted, vote, stake, committee.quorum()) {
                vertices.push(vertex)?;
            }
        }
        _ => (),
    }
    Ok(())
}

// The certificate of the own header that a vote completes to a quorum. The voter has this stake. None if it completes none.
fn completed(voted: &mut Vec<Voted>, vote: &Vote, stake: u64, quorum: u64) -> Option<Vertex> {
    let place = voted.iter().position(|one| one.header == vote.header)?;
    voted[place].weight = voted[place].weight.saturating_add(stake);
    if voted[place].weight >= quorum {
        let Voted { vertex, .. } = voted.remove(place);
        Some(vertex)
    } else {
        None
    }
}

// The certificate of a header, as a vertex of the graph.
fn vertex_of(alloc: Global, body: &HeaderBody) -> Result<Vertex, AllocError> {
    let mut parents = Vec::with_capacity(alloc, body.parents.len())?;
    for parent in body.parents.as_slice() {
        parents.push(parent.author)?;
    }
    Ok(Vertex {
        named: certificate_of(body),
        parents,
        wave: None,
    })
}

// The place of the certificate of this round and author in the list, or the place where it would be inserted.
fn place_of(vertices: &[Vertex], round: u64, author: Author) -> usize {
    vertices.partition_point(|vertex| {
        let here = vertex.named.round.number();
        here < round || (here == round && vertex.named.author < author)
    })
}

fn is_at(named: &Named, round: u64, author: Author) -> bool {
    named.round.number() == round && named.author == author
}

// Notes at the certificate with this digest which wave's leader orders it.
fn mark(vertices: &mut Vec<Vertex>, waves: &Waves, digest: &Digest, wave: Option<u64>) {
    let Some(named) = waves.find(digest) else {
        return;
    };
    let place = place_of(vertices, named.round.number(), named.author);
    if let Some(vertex) = vertices.get_mut(place) {
        vertex.wave = wave;
    }
}
