//! The moves of a schedule that give nodes what they are to be given, and those of the nodes' hosts: flushes, stops and openings.

use super::headers::Showing;
use super::schedule::{Answered, Schedule, WAVES};
use super::wishes::{Content, Part, Source, Wish};
use crate::disks::Leaving;
use cluster::{Applied, ClusterError, Move};
use diskmodel::CallKind;
use std::alloc::AllocError;
use validator::Refusal;
use wire::{Author, Coin, Header, Message, Wave};

/// One in this many of the wanted deliveries is lost.
const LOST_ONE_OF: u64 = 64;

/// What a node is given next is drawn from the first things that it is ready for, at most this many.
const FIRST: usize = 6;

/// A number of rounds that is greater than that of any schedule.
pub const LATER: u64 = 1000;

/// Which calls of the disk fail in a flush: the call's kind, its number among the calls of the kind, and the name of the failure in the
/// report.
const CALLS: [(CallKind, u64, &str); 4] = [
    (CallKind::Write, 1, "fault write 1"),
    (CallKind::Sync, 1, "fault sync 1"),
    (CallKind::Write, 2, "fault write 2"),
    (CallKind::Sync, 2, "fault sync 2"),
];

/// What a stop may leave on the disk, each with its name in the report.
const LEAVINGS: [(Leaving, &str); 4] = [
    (Leaving::Read, "stop keep"),
    (Leaving::Synced, "stop lose"),
    (Leaving::Torn(0), "stop tear 00"),
    (Leaving::Torn(0x37), "stop tear 37"),
];

impl<'a> Schedule<'a> {
    // The node that comes `more` nodes after this one; after the last node the first one follows.
    fn after(&self, node: Author, more: u16) -> Author {
        Author(node.0.wrapping_add(more) % self.honest.count())
    }

    /// Takes the first node, from this one on, that is ready for anything that it is to be given, and gives it one of the first things that
    /// it is ready for.
    pub fn want(&mut self, node: Author) -> Result<Answered, AllocError> {
        let Some(to) = self.first_ready(node, 0) else {
            return self.go_on(node);
        };
        let ready = self.count_ready(to);
        match self.draws.place(ready) {
            Some(number) => self.give_ready(to, 0, number),
            None => self.go_on(node),
        }
    }

    // The first node, from this one on, that is ready for anything now or will be `more` rounds later.
    fn first_ready(&self, node: Author, more: u64) -> Option<Author> {
        for next in 0..self.honest.count() {
            let other = self.after(node, next);
            if self.ready_place(other, more, 0).is_some() {
                return Some(other);
            }
        }
        None
    }

    // How many things a node is ready for, but at most `FIRST`.
    fn count_ready(&self, node: Author) -> usize {
        let mut count = 0;
        for place in 0..self.known.wants(node) {
            if count < FIRST && self.is_ready(node, place, 0) {
                count += 1;
            }
        }
        count
    }

    // The place, in the list of what a node is to be given, of the thing for which the node is ready (now or `more` rounds later) and that
    // has `before` such things before it.
    fn ready_place(&self, node: Author, more: u64, before: usize) -> Option<usize> {
        if self.known.of(node).down || u64::from(node.0) == self.deaf {
            return None;
        }
        let mut left = before;
        for place in 0..self.known.wants(node) {
            if self.is_ready(node, place, more) {
                if left == 0 {
                    return Some(place);
                }
                left -= 1;
            }
        }
        None
    }

    // Whether a node, as far as the schedule knows, can accept the thing at this place of its list now, or `more` rounds later.
    fn is_ready(&self, node: Author, place: usize, more: u64) -> bool {
        let Some(wish) = self.known.wanted(node, place) else {
            return false;
        };
        match wish.content {
            Some(Content { number, part }) => match part {
                Part::Batch => true,
                Part::Vote(_) => self.known.waits_for_votes(node, number),
                _ => {
                    wish.at <= self.known.of(node).round.saturating_add(more)
                        && self.has_all(node, number)
                }
            },
            None => false,
        }
    }

    fn has_all(&self, node: Author, header: usize) -> bool {
        match self.headers.get(header) {
            Some(made) => self.known.has_all(node, made),
            None => false,
        }
    }

    // Gives a node the thing that it is ready for and that has `before` such things before it.
    fn give_ready(&mut self, to: Author, more: u64, before: usize) -> Result<Answered, AllocError> {
        let Some(place) = self.ready_place(to, more, before) else {
            return self.flush(to);
        };
        match self.known.take_out(to, place) {
            Some(wish) => self.give_wanted(to, wish),
            None => self.flush(to),
        }
    }

    fn give_wanted(&mut self, to: Author, wish: Wish) -> Result<Answered, AllocError> {
        if self.draws.below(LOST_ONE_OF) == 0 {
            let at = self.known.of(to).round.saturating_add(1);
            self.known.put_back(to, Wish { at, ..wish })?;
            self.lost = self.lost.saturating_add(1);
            return self.flush(to);
        }
        let answered = self.deliver("wanted", to, wish)?;
        if is_still_wanted(&answered) {
            self.known.put_back(to, wish)?;
        } else if !matches!(answered.outcome, Ok(Applied::Took { .. })) {
            self.known.forget(to, wish);
        }
        Ok(answered)
    }

    /// Delivers something to a node. If there is nothing to be delivered the node flushes.
    pub fn deliver(
        &mut self,
        kind: &'static str,
        to: Author,
        wish: Wish,
    ) -> Result<Answered, AllocError> {
        match wish.source {
            Source::Output { node, output } => {
                if let Some(given) = self.cluster.output(node, output) {
                    self.premises.test_output(to, given)?;
                }
                self.make(kind, to, Move::Deliver { node, output, to }, Some(wish))
            }
            Source::Member => match self.message_of(wish.content)? {
                Some((sender, message)) => self.give(kind, to, sender, message, Some(wish)),
                None => self.flush(to),
            },
        }
    }

    /// Gives a message to a node.
    pub fn give(
        &mut self,
        kind: &'static str,
        to: Author,
        sender: Author,
        message: Message,
        wish: Option<Wish>,
    ) -> Result<Answered, AllocError> {
        self.premises.test(to, &message)?;
        let step = Move::Give {
            to,
            sender,
            message,
        };
        self.make(kind, to, step, wish)
    }

    // Makes a move that gives something to a node, and notes what the node has from then on.
    fn make(
        &mut self,
        kind: &'static str,
        node: Author,
        step: Move,
        wish: Option<Wish>,
    ) -> Result<Answered, AllocError> {
        let outcome = self.cluster.apply(step);
        if let Ok(Applied::Took { new: true, .. }) = outcome {
            self.known.take(node, wish)?;
        }
        if is_there(&outcome) {
            if let Some(content) = wish.and_then(|wish| wish.content) {
                self.known.get(node, content)?;
            }
        }
        Ok(Answered {
            kind,
            node,
            outcome,
        })
    }

    /// Delivers any output of any node to a node.
    pub fn any(&mut self, to: Author) -> Result<Answered, AllocError> {
        let node = self.draw_node();
        let outputs = self.cluster.outputs(node).unwrap_or(0);
        if outputs == 0 {
            return self.go_on(to);
        }
        let output = self.draws.below(outputs);
        let wish = Wish {
            content: self.content_of(node, output),
            source: Source::Output { node, output },
            at: 0,
        };
        self.deliver("any", to, wish)
    }

    /// Makes a move that gets the schedule on. The first node, from this one on, that proposes a header is given its header. If none
    /// proposes, the first one that is down or has accepted events that aren't settled flushes. If there is none either, the first node
    /// that is ready for something is given that.
    pub fn go_on(&mut self, node: Author) -> Result<Answered, AllocError> {
        if let Some((other, header)) = self.first_proposing(node)? {
            return self.hand_in(other, header);
        }
        match self.first_unsettled(node) {
            Some(other) => self.flush(other),
            None => self.give_first(node),
        }
    }

    // Gives the first node that is ready for anything the first thing that it is ready for. If no node is ready, from now on no node is
    // deaf (kept from its deliveries), and a node may be given what it will be ready for only in a later round. If no node is to be given
    // anything, this node flushes.
    fn give_first(&mut self, node: Author) -> Result<Answered, AllocError> {
        if let Some(to) = self.first_ready(node, 0) {
            return self.give_ready(to, 0, 0);
        }
        self.deaf = u64::MAX;
        match self.first_later(node) {
            Some((to, more)) => self.give_ready(to, more, 0),
            None => self.flush(node),
        }
    }

    // The first node that is ready for anything in the fewest rounds from now (0, 1, or any number), and that number of rounds.
    fn first_later(&self, node: Author) -> Option<(Author, u64)> {
        for more in [0, 1, LATER] {
            if let Some(to) = self.first_ready(node, more) {
                return Some((to, more));
            }
        }
        None
    }

    fn first_unsettled(&self, node: Author) -> Option<Author> {
        for more in 0..self.honest.count() {
            let other = self.after(node, more);
            let noted = self.known.of(other);
            if noted.pending > 0 || noted.down {
                return Some(other);
            }
        }
        None
    }

    fn first_proposing(&self, node: Author) -> Result<Option<(Author, Header)>, AllocError> {
        for more in 0..self.honest.count() {
            let other = self.after(node, more);
            if self.known.of(other).down {
                continue;
            }
            if let Ok(Some(header)) = self.cluster.propose(other) {
                return Ok(Some((other, header)));
            }
        }
        Ok(None)
    }

    // Gives a node the header that it proposes, as its own; the dishonest members make their headers for the round.
    fn hand_in(&mut self, node: Author, header: Header) -> Result<Answered, AllocError> {
        let round = round_of(&header);
        let dishonest = self.first_dishonest();
        let showing = Showing::honest();
        let made = self.headers.form(header, dishonest, showing, None)?;
        self.known.hand_in(node, made, round);
        self.make_faces(made)?;
        self.deliver("own", node, Wish::of(made, Part::Header))
    }

    fn flush(&mut self, node: Author) -> Result<Answered, AllocError> {
        if self.known.of(node).down && self.draws.below(2) == 0 {
            return self.stop(node);
        }
        Ok(self.flush_as("flush", node))
    }

    fn flush_as(&mut self, kind: &'static str, node: Author) -> Answered {
        let outcome = self.cluster.apply(Move::Flush(node));
        match outcome {
            Ok(Applied::Settled(_)) => self.known.settle(node),
            _ => self.known.fall(node),
        }
        Answered {
            kind,
            node,
            outcome,
        }
    }

    /// A node flushes, and a call of its disk fails in that.
    pub fn fault(&mut self, node: Author) -> Result<Answered, AllocError> {
        let (call, count, kind) = CALLS[self.draws.below(4) as usize];
        let noted = self.known.of(node);
        if noted.pending == 0 || noted.down {
            return self.go_on(node);
        }
        self.report_to_fail(node, call, count)?;
        Ok(self.flush_as(kind, node))
    }

    fn report_to_fail(&self, node: Author, call: CallKind, count: u64) -> Result<(), AllocError> {
        match self.grips.get(node.0 as usize) {
            Some(grip) if grip.fail(call, count) => Ok(()),
            _ => Err(AllocError),
        }
    }

    /// A node's machine stops, and the node is opened again.
    pub fn stop(&mut self, node: Author) -> Result<Answered, AllocError> {
        let (leaving, kind) = LEAVINGS[self.draws.below(4) as usize];
        if let Some(grip) = self.grips.get(node.0 as usize) {
            grip.leave(leaving);
        }
        let outcome = self.cluster.apply(Move::Stop(node));
        self.known.reopen(node)?;
        Ok(Answered {
            kind,
            node,
            outcome,
        })
    }

    /// Gives a node the coin of its next wave.
    pub fn coin(&mut self, node: Author) -> Result<Answered, AllocError> {
        if self.draws.below(16) == 0 {
            let wave = 1 + self.draws.below(WAVES);
            return self.toss(node, wave);
        }
        match self.first_tossing(node) {
            Some(other) => {
                let wave = self.known.of(other).wave;
                self.toss(other, wave)
            }
            None => self.want(node),
        }
    }

    // The first node, from this one on, whose round is after the last round of the wave whose coin the node is given next.
    fn first_tossing(&self, node: Author) -> Option<Author> {
        for more in 0..self.honest.count() {
            let other = self.after(node, more);
            let noted = self.known.of(other);
            if noted.wave <= WAVES
                && noted.wave.saturating_mul(2).saturating_add(2) <= noted.round
            {
                return Some(other);
            }
        }
        None
    }

    fn toss(&mut self, node: Author, wave: u64) -> Result<Answered, AllocError> {
        let Some(coin) = self.coin_of(wave) else {
            return self.flush(node);
        };
        let answered = self.give("coin", node, node, Message::Coin(coin), None)?;
        if let Ok(Applied::Took { .. }) = answered.outcome {
            self.known.toss(node, wave);
        }
        Ok(answered)
    }

    fn coin_of(&self, wave: u64) -> Option<Coin> {
        let value = *self.coins.get(wave.checked_sub(1)? as usize)?;
        let wave = Wave::new(wave).ok()?;
        Some(Coin { wave, value })
    }
}

fn round_of(header: &Header) -> u64 {
    header.body.round.number()
}

// Whether a node is to be given a thing again after this answer: it lacks a parent of it, or is down.
fn is_still_wanted(answered: &Answered) -> bool {
    matches!(
        answered.outcome,
        Ok(Applied::Refused(Refusal::Down | Refusal::MissingParents))
    )
}

// Whether, by this answer, a node has what it was given, or doesn't need it any more.
fn is_there(outcome: &Result<Applied, ClusterError>) -> bool {
    matches!(
        outcome,
        Ok(Applied::Took { .. } | Applied::Refused(Refusal::TooOld))
    )
}
