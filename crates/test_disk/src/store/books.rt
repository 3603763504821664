//! Commands of a test case to a book of member 0.

use crate::memory::taken;
use crate::store::checkpoints::put_checkpoint;
use crate::store::disks::report_if;
use crate::store::headers::{Named, batch, body, event, header, report_output, vote};
use crate::store::rounds::{Putting, put_groups};
use crate::store::stores::Store;
use crate::store::words::{
    Reported, Word, bad, put, put_count, put_number, put_shown, reported_bad,
};
use book::{OwnBook, Receipt};
use committee::Committee;
use sigface::HashSign;
use std::alloc::{AllocError, Global};
use std::collections::VecDeque;
use validator::Refusal::{
    self, AlreadyProposed, CertConflict, CoinConflict, CoinEarly, CoinOutOfTurn, DigestClash, Down,
    Equivocation, Memory, MissingBatch, MissingParents, NotOurs, StoreFull, TooOld,
};
use validator::{Config, Step, Validator};
use wire::{Author, Message, Round};

/// The sender of the votes and the batches in the test cases.
const OTHER: Author = Author(1);

/// All reasons to refuse an event.
const REFUSALS: [Refusal; 14] = [
    Memory,
    Down,
    TooOld,
    MissingParents,
    MissingBatch,
    Equivocation,
    CertConflict,
    DigestClash,
    AlreadyProposed,
    NotOurs,
    CoinOutOfTurn,
    CoinEarly,
    CoinConflict,
    StoreFull,
];

/// A book that has accepted nothing.
pub fn own_book(
    alloc: Global,
    config: &Config<HashSign>,
) -> Result<OwnBook<'_, HashSign>, AllocError> {
    Ok(OwnBook::new(alloc, Validator::new(alloc, config)?))
}

impl Store<'_> {
    /// Carries out a command without a word: it writes groups of the book to the disk, or shows something of the book.
    pub fn obey_book(&mut self, name: &str, answer: &mut String) -> Reported {
        match name {
            "put" => return self.put(Putting::Written, answer),
            "flush" => return self.put(Putting::Settled, answer),
            "write_two" => return self.put(Putting::Two, answer),
            "checkpoint" => return self.checkpoint(0, answer),
            "checkpoint_failing" => return self.checkpoint(2, answer),
            "release" => self.release(answer),
            "down" => report_if(answer, self.book.is_down()),
            "fault" => self.book.fail(),
            "refusals" => report_refusals(answer),
            _ => bad(answer),
        }
        Ok(())
    }

    /// Gives the book member 1's vote on the header of an author and a round.
    pub fn take_vote(&mut self, author: u64, round: u64, answer: &mut String) -> Reported {
        match slot(author, round) {
            Some((author, round)) => self.accept(OTHER, vote(OTHER, author, round), answer),
            None => bad(answer),
        }
        Ok(())
    }

    /// Gives the header of an author and a round, with certificates of some members as parents, to the book, or to a validator without a
    /// book.
    pub fn take_header(&mut self, name: &str, words: &[Word], answer: &mut String) -> Reported {
        let [
            Word::Number(author),
            Word::Number(round),
            Word::Bytes(members),
        ] = words
        else {
            return reported_bad(answer);
        };
        let (Some(named), Some((author, round))) = (named_of(name), slot(*author, *round)) else {
            return reported_bad(answer);
        };
        let message = header(body(self.alloc, named, author, round, members)?);
        if name == "step" {
            return step(self.alloc, self.config, author, message, answer);
        }
        self.accept(author, message, answer);
        Ok(())
    }

    fn accept(&mut self, sender: Author, message: Message, answer: &mut String) {
        let Some(event) = event(self.book.committee(), sender, message) else {
            return bad(answer);
        };
        match self.book.accept(event) {
            Ok(receipt) => report_receipt(answer, receipt),
            Err(refusal) => report_refusal(answer, refusal),
        }
    }

    /// Gives the book this many different batches of member 1, each with a record of this length; shows the answer to the last batch.
    pub fn fill(&mut self, count: u64, len: usize, answer: &mut String) -> Reported {
        for number in 0..count {
            answer.clear();
            match batch(self.alloc, OTHER, number, len)? {
                Some(batch) => self.accept(OTHER, Message::Batch(batch), answer),
                None => bad(answer),
            }
        }
        Ok(())
    }

    fn put(&mut self, putting: Putting, answer: &mut String) -> Reported {
        let disk = taken(self.alloc, &mut self.disk)?;
        self.disk = put_groups(self.alloc, &mut self.book, disk, putting, answer);
        Ok(())
    }

    /// Makes a checkpoint, with the count-th write to the disk set to fail; 0 sets none. The opening makes the first write.
    fn checkpoint(&mut self, count: u64, answer: &mut String) -> Reported {
        put_checkpoint(self.alloc, self.config, &mut self.book, count, answer)
    }

    /// Moves as many outputs out at once as there is room for, and shows them.
    pub fn release_into(&mut self, room: usize, answer: &mut String) -> Reported {
        let mut outputs = VecDeque::with_capacity(self.alloc, room)?;
        self.book.release_into(&mut outputs);
        if outputs.is_empty() {
            put(answer, "none\n");
        }
        for output in outputs.iter() {
            report_output(self.book.committee(), answer, output);
        }
        Ok(())
    }

    fn release(&mut self, answer: &mut String) {
        match self.book.release() {
            Some(output) => report_output(self.book.committee(), answer, &output),
            None => put(answer, "none\n"),
        }
    }
}

/// What a header names, by the name of the command that gives the header.
fn named_of(name: &str) -> Option<Named> {
    match name {
        "header" | "step" => Some(Named::Genesis),
        "batch" => Some(Named::Batch),
        "foreign" => Some(Named::Foreign),
        _ => None,
    }
}

fn slot(author: u64, round: u64) -> Option<(Author, Round)> {
    let author = Author(u16::try_from(author).ok()?);
    Some((author, Round::new(round).ok()?))
}

/// Gives a message to a validator without a book.
fn step(
    alloc: Global,
    config: &Config<HashSign>,
    sender: Author,
    message: Message,
    answer: &mut String,
) -> Reported {
    let mut validator = Validator::new(alloc, config)?;
    let Some(event) = event(validator.committee(), sender, message) else {
        return reported_bad(answer);
    };
    put_count(answer, "from ", u64::from(event.sender().0), "");
    put_count(answer, " to ", u64::from(config.own().0), ": ");
    let is_new = validator.is_new(&event);
    let step = validator.step(event);
    report_step(config.committee(), is_new, step, answer);
    Ok(())
}

/// Adds a validator's answer to an event, and whether `is_new` said beforehand that the event is new.
fn report_step(
    committee: &Committee,
    is_new: bool,
    step: Result<Step, Refusal>,
    answer: &mut String,
) {
    match step {
        Ok(Step::New(outputs)) => {
            put_shown(answer, "New ", &is_new, "\n");
            for output in &outputs {
                report_output(committee, answer, output);
            }
        }
        Ok(Step::Known(_)) => {
            put_shown(answer, "Known ", &is_new, "\nknown\n");
        }
        Err(refusal) => {
            let _ = write!(answer, "Refused({refusal:?}) ");
            put_shown(answer, "", &is_new, "\n");
            report_refusal(answer, refusal);
        }
    }
}

fn report_receipt(answer: &mut String, receipt: Receipt) {
    put(answer, if receipt.new { "new" } else { "known" });
    put_number(answer, receipt.ticket);
    put(answer, "\n");
}

fn report_refusal(answer: &mut String, refusal: Refusal) {
    put_shown(answer, "", &refusal, "\n");
}

fn report_refusals(answer: &mut String) {
    for refusal in &REFUSALS {
        report_refusal(answer, *refusal);
    }
}
