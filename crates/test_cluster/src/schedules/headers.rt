//! All headers that were made in a schedule, by their places in a list, with the members whose votes on them may be used, and whether their
//! certificates are out.

use sim_members::MEMBERS;
use sim_script::Proposed;
use std::alloc::{AllocError, Global};
use wire::{Author, Digest, Header, certificate_digest, header_digest};

/// How many members are a quorum.
pub const QUORUM: usize = 3;

/// How many parents a header has at most.
pub const PARENTS: usize = MEMBERS as usize;

/// How a dishonest member shows a header's certificate.
#[derive(Clone, Copy)]
pub struct Showing {
    /// Which face this header is: a dishonest member can make two headers for one round, its faces 0 and 1, and show them to different
    /// nodes. A header of an honest member is no face, and has `u64::MAX` here.
    pub face: u64,
    /// How many rounds late the header's certificate reaches the node apart, and how many the other nodes.
    pub apart: u64,
    pub others: u64,
}

impl Showing {
    /// What stands here for a header of an honest member: its certificate is never held back.
    pub fn honest() -> Showing {
        Showing {
            face: u64::MAX,
            apart: 0,
            others: 0,
        }
    }
}

/// A header, with the members whose votes on it may be used: a dishonest member's vote always, an honest member's only once it was given
/// out.
#[derive(Drop)]
pub struct Made {
    pub proposed: Proposed,
    pub showing: Showing,
    /// The number of the batch that the header names, if it names one.
    pub batch: Option<usize>,
    voters: [bool; MEMBERS as usize],
    // The places of the header's parents in the list of headers; None for genesis certificates.
    parents: [Option<usize>; PARENTS],
    // Whether the header's certificate was put out, or can be made of known votes.
    certified: bool,
}

impl Made {
    pub fn author(&self) -> Author {
        self.proposed.header.body.author
    }

    pub fn round(&self) -> u64 {
        self.proposed.header.body.round.number()
    }

    /// Whether a member's vote on the header may be used.
    pub fn is_voter(&self, member: u16) -> bool {
        self.voters.get(member as usize).copied().unwrap_or(false)
    }

    /// Whether the votes on the header that may be used are a quorum.
    pub fn is_gathered(&self) -> bool {
        self.voters.iter().filter(|vote| **vote).count() >= QUORUM
    }

    /// The place, in the list of headers, of the header's parent with this number.
    pub fn parent(&self, place: usize) -> Option<usize> {
        *self.parents.get(place)?
    }

    /// Whether the header names a certificate of this author as a parent.
    pub fn names(&self, author: Author) -> bool {
        let parents = self.proposed.header.body.parents.as_slice();
        parents.iter().any(|parent| parent.author == author)
    }

    // Whether the header is this member's header of this round.
    fn is_of(&self, author: Author, round: u64) -> bool {
        self.author() == author && self.round() == round
    }
}

/// Which headers are asked for in `near_last`.
#[derive(Clone, Copy)]
pub enum Which {
    Any,
    /// The headers of members below this one.
    Below(Author),
    /// The headers of this member and of those above it.
    From(Author),
    /// The headers on which a quorum of votes is known, so that a certificate can be made.
    Gathered,
}

/// All headers of a schedule, in the order in which they were made.
#[derive(Drop)]
pub struct Headers {
    list: Vec<Made>,
}

impl Headers {
    /// An empty list of headers.
    pub fn new(alloc: Global) -> Headers {
        Headers {
            list: Vec::new(alloc),
        }
    }

    /// The header at this place of the list, if there is one.
    pub fn get(&self, place: usize) -> Option<&Made> {
        self.list.get(place)
    }

    /// The place of the header with this digest.
    pub fn find(&self, digest: &Digest) -> Option<usize> {
        self.list
            .iter()
            .position(|made| made.proposed.digest == *digest)
    }

    /// The place of the header whose certificate has this digest.
    pub fn find_certificate(&self, digest: &Digest) -> Option<usize> {
        self.list
            .iter()
            .position(|made| made.proposed.certificate == *digest)
    }

    /// Adds a header to the list, unless it is in it already, and returns its place. The votes of `dishonest` and of the members after it
    /// may be used from the start.
    pub fn form(
        &mut self,
        header: Header,
        dishonest: Author,
        showing: Showing,
        batch: Option<usize>,
    ) -> Result<usize, AllocError> {
        let (digest, certificate) = digests_of(&header);
        if let Some(place) = self.find(&digest) {
            return Ok(place);
        }
        let place = self.list.len();
        let parents = self.places_of(&header);
        self.list.push(Made {
            proposed: Proposed {
                header,
                digest,
                certificate,
            },
            showing,
            batch,
            voters: voters_from(dishonest),
            parents,
            certified: false,
        })?;
        Ok(place)
    }

    // The places of the parents of a header.
    fn places_of(&self, header: &Header) -> [Option<usize>; PARENTS] {
        let mut places = [None; PARENTS];
        for (place, parent) in places.iter_mut().zip(header.body.parents.as_slice()) {
            *place = self.find_certificate(&parent.certificate);
        }
        places
    }

    /// Notes that a member gave out its vote on a header.
    pub fn add_vote(&mut self, place: usize, voter: Author) {
        if let Some(made) = self.list.get_mut(place) {
            if let Some(vote) = made.voters.get_mut(voter.0 as usize) {
                *vote = true;
            }
        }
    }

    /// Notes that the certificate of a header was put out, or can be gathered.
    pub fn certify(&mut self, place: usize) {
        if let Some(made) = self.list.get_mut(place) {
            made.certified = true;
        }
    }

    /// Whether a member made this face of a round.
    pub fn has_face(&self, author: Author, round: u64, face: u64) -> bool {
        self.list.iter().any(|made| made.is_of(author, round) && made.showing.face == face)
    }

    /// A member's header of this round whose certificate is out. If there are several such headers (the member equivocated) it is the last
    /// one that is this face, or else the first one.
    pub fn certified(&self, author: Author, round: u64, face: u64) -> Option<&Made> {
        let mut found = None;
        for made in self.list.iter() {
            if made.certified
                && made.is_of(author, round)
                && (found.is_none() || made.showing.face == face)
            {
                found = Some(made);
            }
        }
        found
    }

    /// Counts back over the headers of this kind: returns the place of the one with `after` headers of the kind after it, or of the first
    /// one if there are fewer. None if there is no such header.
    pub fn near_last(&self, which: Which, after: u64) -> Option<usize> {
        let mut found = None;
        let mut left = after;
        for (place, made) in self.list.iter().enumerate().rev() {
            if is_one(made, which) {
                found = Some(place);
                if left == 0 {
                    break;
                }
                left -= 1;
            }
        }
        found
    }
}

// The digests of a header and of its certificate.
fn digests_of(header: &Header) -> (Digest, Digest) {
    let digest = header_digest(&header.body);
    let certificate = certificate_digest(&digest, header.body.round, header.body.author);
    (digest, certificate)
}

// For each member whether it has this number or a greater one.
fn voters_from(first: Author) -> [bool; MEMBERS as usize] {
    [first.0 == 0, first.0 <= 1, first.0 <= 2, first.0 <= 3]
}

fn is_one(made: &Made, which: Which) -> bool {
    match which {
        Which::Any => true,
        Which::Below(member) => made.author() < member,
        Which::From(member) => made.author() >= member,
        Which::Gathered => made.is_gathered(),
    }
}
