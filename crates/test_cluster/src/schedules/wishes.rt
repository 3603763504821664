//! What a schedule notes of each node: above all what the node is to be given.

ghost use Rattle.std.specs.Prelude.{◌<◌};

use super::headers::{Made, PARENTS};
use std::alloc::Global;
use std::mem;
use test_cases::Reported;
use wire::{Author, Digest};

/// The greatest number of nodes of a cluster here.
const NODES: usize = 3;

/// How many batches there are that a node can be given.
pub const BATCHES: usize = 2;

/// How many votes of other members, with the author's own vote, make a certificate.
const VOTES: u64 = 2;

// Set in the marks of a header if a node has the header's certificate, or doesn't need it any more.
const HAS: u8 = 128;

/// Something that a node is to be given: what it is, if that is known; where it comes from; and from which round of the node on it may be
/// given.
#[derive(Clone, Copy)]
pub struct Wish {
    pub content: Option<Content>,
    pub source: Source,
    pub at: u64,
}

impl Wish {
    /// A wish for a part of the header at this place, or for the batch with this number, to be given by its author at once.
    pub fn of(number: usize, part: Part) -> Wish {
        Wish {
            content: Some(Content { number, part }),
            source: Source::Member,
            at: 0,
        }
    }
}

/// Where a node is given something from.
#[derive(Clone, Copy)]
pub enum Source {
    /// From its author, a dishonest member.
    Member,
    /// From a node, whose output with this number it is.
    Output { node: Author, output: u64 },
}

/// A part of the header at place `number` of the list of headers, or the batch with this number.
#[derive(Clone, Copy)]
pub struct Content {
    pub number: usize,
    pub part: Part,
}

/// What of a header it is: the header itself, its certificate or a vote on it. Or that it is a batch.
#[derive(Clone, Copy)]
pub enum Part {
    Batch,
    Header,
    Certificate,
    /// This member's vote on the header.
    Vote(Author),
}

impl Part {
    // The bit that stands for this part in the marks of a header; 0 for a batch.
    fn bit(self) -> u8 {
        match self {
            Part::Batch => 0,
            Part::Header => 1,
            Part::Certificate => 2,
            Part::Vote(Author(0)) => 4,
            Part::Vote(Author(1)) => 8,
            Part::Vote(Author(2)) => 16,
            Part::Vote(_) => 32,
        }
    }
}

/// The numbers that are noted of a node.
#[derive(Clone, Copy)]
pub struct Noted {
    /// How many events the node accepted since it last settled all events.
    pub pending: u64,
    pub down: bool,
    /// The wave of the next coin that the node is given.
    pub wave: u64,
    // The value of `wave` when the node last settled all events, to which a stop takes it back.
    settled_wave: u64,
    /// How many of the node's outputs the schedule has looked at.
    pub outputs: u64,
    /// The greatest wave that the node has committed; 0 if none.
    pub committed: u64,
    /// The place of the last header that the node was given as its own, and the header's round.
    pub own: Option<usize>,
    pub round: u64,
    // How many votes on that header the node accepted, since it was given the header or was last stopped.
    voted: u64,
}

/// Everything that is noted of a node: what it is to be given, what it accepted since it last settled all events, what it has.
#[derive(Drop)]
pub struct Wishes {
    wanted: Vec<Wish>,
    unsettled: Vec<Wish>,
    // For each header a set of bits: which of its parts were put on the list of what the node is to be given, and whether the node has its
    // certificate.
    headers: Vec<u8>,
    // For each batch whether the node has it.
    batches: [bool; BATCHES],
    // The order that the node had given out when it was last looked at.
    order: Vec<Digest>,
    noted: Noted,
}

impl Wishes {
    // What is noted of a new node: nothing.
    fn new(alloc: Global) -> Wishes {
        Wishes {
            wanted: Vec::new(alloc),
            unsettled: Vec::new(alloc),
            headers: Vec::new(alloc),
            batches: [false; BATCHES],
            order: Vec::new(alloc),
            noted: Noted {
                pending: 0,
                down: false,
                wave: 1,
                settled_wave: 1,
                outputs: 0,
                committed: 0,
                own: None,
                round: 0,
                voted: 0,
            },
        }
    }

    // Puts something on the list of what the node is to be given, unless it was on it before; a batch is put on it in any case.
    fn offer(&mut self, wish: Wish) -> Reported {
        let Some(content) = wish.content else {
            return Ok(());
        };
        if let Part::Batch = content.part {
            self.wanted.push(wish)?;
            return Ok(());
        }
        if self.mark(content.number, content.part.bit())? {
            self.wanted.push(wish)?;
        }
        Ok(())
    }

    // Sets a bit in the marks of a header. Returns whether the bit wasn't set before.
    fn mark(&mut self, header: usize, bit: u8) -> Result<bool, std::alloc::AllocError> {
        for _ in self.headers.len()..header.saturating_add(1) {
            self.headers.push(0)?;
        }
        let Some(marks) = self.headers.get_mut(header) else {
            return Ok(false);
        };
        let is_new = *marks & bit == 0;
        *marks |= bit;
        Ok(is_new)
    }

    // Clears a bit in the marks of a header.
    fn clear(&mut self, header: usize, bit: u8) {
        if let Some(marks) = self.headers.get_mut(header) {
            *marks &= !bit;
        }
    }

    // Notes that the node accepted something new.
    fn take(&mut self, wish: Option<Wish>) -> Reported {
        self.noted.pending = self.noted.pending.saturating_add(1);
        let Some(wish) = wish else {
            return Ok(());
        };
        self.unsettled.push(wish)?;
        if let Some(Part::Vote(_)) = wish.content.map(|content| content.part) {
            self.noted.voted = self.noted.voted.saturating_add(1);
        }
        Ok(())
    }

    // Notes that the node has this from now on, if it is a certificate or a batch.
    fn get(&mut self, content: Content) -> Reported {
        match content.part {
            Part::Certificate => {
                self.mark(content.number, HAS)?;
            }
            Part::Batch => self.set_batch(content.number, true),
            _ => {}
        }
        Ok(())
    }

    // Notes that a stop of the node lost this, if it is a certificate or a batch.
    fn lose(&mut self, content: Content) {
        match content.part {
            Part::Certificate => self.clear(content.number, HAS),
            Part::Batch => self.set_batch(content.number, false),
            _ => {}
        }
    }

    fn set_batch(&mut self, number: usize, there: bool) {
        if let Some(batch) = self.batches.get_mut(number) {
            *batch = there;
        }
    }

    // Whether the node has everything that a header names: its batch and the certificates of its parents.
    fn has_all(&self, made: &Made) -> bool {
        self.has_batch(made.batch) && (0..PARENTS).all(|place| self.has_parent(made, place))
    }

    fn has_batch(&self, batch: Option<usize>) -> bool {
        match batch {
            Some(number) => self.batches.get(number).copied().unwrap_or(false),
            None => true,
        }
    }

    fn has_parent(&self, made: &Made, place: usize) -> bool {
        match made.parent(place) {
            Some(header) => self.headers.get(header).copied().unwrap_or(0) & HAS != 0,
            None => true,
        }
    }

    // Whether this header is the node's own last one, and the node has too few votes on it.
    fn waits_for_votes(&self, header: usize) -> bool {
        self.noted.own == Some(header) && self.noted.voted < VOTES
    }

    // Removes and returns what stands at this place of the list of what the node is to be given.
    fn take_out(&mut self, place: usize) -> Option<Wish> {
        if place < self.wanted.len() {
            return Some(self.wanted.remove(place));
        }
        None
    }

    // Notes that the node settled everything that it had accepted.
    fn settle(&mut self) {
        self.noted.pending = 0;
        self.noted.settled_wave = self.noted.wave;
        self.unsettled.clear();
    }

    // Notes that the node was stopped and opened again: it is to be given anew, before all else, what it had accepted and not settled.
    fn reopen(&mut self) -> Reported {
        self.lose_all();
        self.unsettled.append(&mut self.wanted)?;
        mem::swap(&mut self.unsettled, &mut self.wanted);
        self.unsettled.clear();
        self.noted.pending = 0;
        self.noted.down = false;
        self.noted.wave = self.noted.settled_wave;
        self.noted.voted = 0;
        Ok(())
    }

    fn lose_all(&mut self) {
        for place in 0..self.unsettled.len() {
            if let Some(content) = self.unsettled.get(place).and_then(|wish| wish.content) {
                self.lose(content);
            }
        }
    }

    // Notes the node's order. Returns whether it begins with the order that was noted before.
    fn follow(&mut self, order: Vec<Digest>) -> bool {
        let kept = self.order.len() <= order.len()
            && self
                .order
                .iter()
                .zip(order.iter())
                .all(|(one, other)| one == other);
        self.order = order;
        kept
    }
}

/// What is noted of all nodes, by their numbers.
#[derive(Drop)]
pub struct Known {
    nodes: [Wishes; NODES],
}

impl Known {
    /// What is noted of new nodes: nothing.
    pub fn new(alloc: Global) -> Known {
        Known {
            nodes: [Wishes::new(alloc), Wishes::new(alloc), Wishes::new(alloc)],
        }
    }

    /// The numbers that are noted of a node.
    pub fn of(&self, node: Author) -> Noted {
        self.nodes[place(node)].noted
    }

    /// How many things a node is to be given.
    pub fn wants(&self, node: Author) -> usize {
        self.nodes[place(node)].wanted.len()
    }

    /// What stands at this place of the list of what a node is to be given.
    pub fn wanted(&self, node: Author, wanted: usize) -> Option<Wish> {
        self.nodes[place(node)].wanted.get(wanted).copied()
    }

    /// Notes that a node is to be given this, unless it was noted before.
    pub fn offer(&mut self, node: Author, wish: Wish) -> Reported {
        self.nodes[place(node)].offer(wish)
    }

    /// Notes that a node accepted something new.
    pub fn take(&mut self, node: Author, wish: Option<Wish>) -> Reported {
        self.nodes[place(node)].take(wish)
    }

    /// Notes that a node has this, if it is a certificate or a batch.
    pub fn get(&mut self, node: Author, content: Content) -> Reported {
        self.nodes[place(node)].get(content)
    }

    /// Whether a node has everything that a header names: its batch and the certificates of its parents.
    pub fn has_all(&self, node: Author, made: &Made) -> bool {
        self.nodes[place(node)].has_all(made)
    }

    /// Whether this header is a node's own last one, and the node has too few votes on it.
    pub fn waits_for_votes(&self, node: Author, header: usize) -> bool {
        self.nodes[place(node)].waits_for_votes(header)
    }

    /// Removes and returns what stands at this place of the list of what a node is to be given.
    pub fn take_out(&mut self, node: Author, wanted: usize) -> Option<Wish> {
        self.nodes[place(node)].take_out(wanted)
    }

    /// Puts this at the end of the list of what a node is to be given.
    pub fn put_back(&mut self, node: Author, wish: Wish) -> Reported {
        self.nodes[place(node)].wanted.push(wish)?;
        Ok(())
    }

    /// Notes that what a node refused may be put on its list again.
    pub fn forget(&mut self, node: Author, wish: Wish) {
        if let Some(content) = wish.content {
            self.nodes[place(node)].clear(content.number, content.part.bit());
        }
    }

    /// Notes that a node settled everything that it had accepted.
    pub fn settle(&mut self, node: Author) {
        self.nodes[place(node)].settle();
    }

    /// Notes that a node is down.
    pub fn fall(&mut self, node: Author) {
        self.nodes[place(node)].noted.down = true;
    }

    /// Notes that a node was stopped and opened again: it is to be given anew what it had accepted and not settled.
    pub fn reopen(&mut self, node: Author) -> Reported {
        self.nodes[place(node)].reopen()
    }

    /// Notes that a node was given the header at this place, of this round, as its own.
    pub fn hand_in(&mut self, node: Author, header: usize, round: u64) {
        let noted = &mut self.nodes[place(node)].noted;
        noted.own = Some(header);
        noted.round = round;
        noted.voted = 0;
    }

    /// Notes that a node accepted the coin of this wave.
    pub fn toss(&mut self, node: Author, wave: u64) {
        let noted = &mut self.nodes[place(node)].noted;
        noted.wave = noted.wave.max(wave.saturating_add(1));
    }

    /// Notes how many outputs of a node were looked at so far.
    pub fn note_outputs(&mut self, node: Author, outputs: u64) {
        self.nodes[place(node)].noted.outputs = outputs;
    }

    /// Notes that a node committed this wave.
    pub fn commit(&mut self, node: Author, wave: u64) {
        self.nodes[place(node)].noted.committed = wave;
    }

    /// How long a node's order was when it was last looked at.
    pub fn ordered(&self, node: Author) -> usize {
        self.nodes[place(node)].order.len()
    }

    /// Notes a node's order. Returns whether it begins with the order that was noted before.
    pub fn follow(&mut self, node: Author, order: Vec<Digest>) -> bool {
        self.nodes[place(node)].follow(order)
    }
}

// The place of a node's notes in the list.
fn place(node: Author) -> usize
    ensures { result < 3 }
{
    node.0 as usize % NODES
}
