//! Tests of messages and of what checks, counts and makes them.

use crate::parts::frames::{count_ways, feed};
use crate::parts::makers::{make, push, seal};
use crate::parts::members::{add_members, check_both, read_committee, show_key, sign, verify};
use crate::parts::messages::{beginnings, encoded_again, fill, message, order, written};
use crate::parts::numbers::{genesis, laws, vote, voted};
use crate::parts::stakes::{is_among, is_in_both, show_stake, show_total, weigh};
use crate::parts::waiters::{Waiting, next, offer, offer_header, offer_rounds, open, pass};
use crate::parts::words::{
    Names, Reported, author_of, bad, joined, numbers_of, parted, report, round_of, show,
};
use batchmaker::BatchMaker;
use committee::Committee;
use sha2::{Digest, Sha256};
use std::alloc::{AllocError, Global};
use votebook::VoteBook;
use wire::{OpenBatch, Round, Wave};
use wire_read::FrameReader;

/// What the commands of a test case work on: bytes with names, the committee that was read last, the reader, the vote book, the maker of
/// batches and the waiter.
#[derive(Drop)]
pub struct Tables {
    alloc: Global,
    names: Names,
    text: String,
    committee: Option<Committee>,
    reader: FrameReader,
    book: VoteBook,
    maker: Option<BatchMaker>,
    waiting: Option<Waiting>,
}

impl Tables {
    /// The state before the first test case: no bytes with names, and no committee.
    pub fn new(alloc: Global) -> Tables {
        Tables {
            alloc,
            names: Names::new(alloc),
            text: String::new(alloc),
            committee: None,
            reader: FrameReader::new(alloc),
            book: VoteBook::new(alloc),
            maker: None,
            waiting: None,
        }
    }

    /// Begins a test case. The bytes with names and the committee stay.
    pub fn begin(&mut self) {
        self.reader = FrameReader::new(self.alloc);
        self.book = VoteBook::new(self.alloc);
        self.maker = None;
        self.waiting = None;
    }

    /// Carries out a command: a name, numbers and, after a colon, words that stand for bytes. ` = ` gives bytes a name.
    pub fn obey(&mut self, command: &str, answer: &mut String) -> Reported {
        if let Some(text) = command.strip_prefix("line ") {
            return self.add_line(text);
        }
        if let Some((name, words)) = command.split_once(" = ") {
            return self.name(name, words, answer);
        }
        self.run(command, answer)
    }

    // Adds a line to the committee file; `\0` stands for the byte with this number.
    fn add_line(&mut self, line: &str) -> Reported {
        self.text.push_str(if line == "\\0" { "\0" } else { line })?;
        self.text.push_str("\n")
    }

    fn read(&mut self, answer: &mut String) -> Reported {
        self.committee = read_committee(self.alloc, &self.text, answer)?;
        self.text.clear();
        Ok(())
    }

    // Carries out a command with numbers. For some commands the numbers are a list of any length; the others are distinguished by how many
    // numbers they have, and then by their names.
    fn put(&mut self, name: &str, numbers: &[u64], bytes: &[u8], answer: &mut String) -> Reported {
        match name {
            "weigh" => weigh(&self.committee, numbers, answer),
            "batch" => batch(self.alloc, numbers, bytes, answer),
            "among" => among(numbers, answer),
            "sets" => sets(numbers, answer),
            _ => self.put_few(name, numbers, bytes, answer),
        }
    }

    fn put_few(
        &mut self,
        name: &str,
        numbers: &[u64],
        bytes: &[u8],
        answer: &mut String,
    ) -> Reported {
        match numbers {
            [] => self.put_none(name, bytes, answer),
            [number] => self.put_one(name, *number, bytes, answer),
            [first, second] => self.put_two(name, *first, *second, bytes, answer),
            [first, second, third] => self.put_three(name, *first, *second, *third, answer),
            _ => bad(answer),
        }
    }

    fn put_none(&mut self, name: &str, bytes: &[u8], answer: &mut String) -> Reported {
        match name {
            "read" => self.read(answer),
            "total" => show_total(&self.committee, answer),
            "feed" => feed(&mut self.reader, bytes, answer),
            "push" => push(&mut self.maker, bytes, answer),
            "seal" => seal(&mut self.maker, answer),
            "waiter" => open(self.alloc, &mut self.waiting, answer),
            "next" => next(&mut self.waiting, None, answer),
            _ => spell(self.alloc, name, bytes, answer),
        }
    }

    fn put_one(&mut self, name: &str, number: u64, bytes: &[u8], answer: &mut String) -> Reported {
        match name {
            "members" => add_members(&mut self.text, number),
            "key" => show_key(&self.committee, number, answer),
            "stake" => show_stake(&self.committee, number, answer),
            "check" => check_both(self.alloc, &self.committee, number, bytes, answer),
            "pass" => pass(
                self.alloc,
                &self.committee,
                &self.waiting,
                number,
                bytes,
                answer,
            ),
            "forget" => Ok(self.book.forget_to(round_of(number))),
            "header" => offer_header(self.alloc, &mut self.waiting, number, answer),
            "next" => next(&mut self.waiting, Some(number), answer),
            _ => reckon(self.alloc, name, number, bytes, answer),
        }
    }

    fn put_two(
        &mut self,
        name: &str,
        first: u64,
        second: u64,
        bytes: &[u8],
        answer: &mut String,
    ) -> Reported {
        match name {
            "vote" => vote(&mut self.book, first, second, bytes, answer),
            "voted" => voted(&self.book, first, second, answer),
            "maker" => make(self.alloc, first, second, &mut self.maker),
            "rounds" => offer_rounds(self.alloc, &mut self.waiting, first, second, answer),
            _ => bad(answer),
        }
    }

    fn put_three(
        &mut self,
        name: &str,
        round: u64,
        author: u64,
        voter: u64,
        answer: &mut String,
    ) -> Reported {
        match name {
            "offer" => offer(
                self.alloc,
                &mut self.waiting,
                (round, author),
                voter,
                answer,
            ),
            _ => bad(answer),
        }
    }

    fn run(&mut self, command: &str, answer: &mut String) -> Reported {
        let (front, words) = parted(command, ':');
        let (name, numbers) = parted(front, ' ');
        let numbers = numbers_of(self.alloc, numbers)?;
        let bytes = joined(self.alloc, &self.names, words)?;
        match (numbers, bytes) {
            (Some(numbers), Some(bytes)) => self.put(name, &numbers, &bytes, answer),
            _ => answer.push_str("bad word\n"),
        }
    }

    fn name(&mut self, name: &str, words: &str, answer: &mut String) -> Reported {
        let Some(bytes) = joined(self.alloc, &self.names, words)? else {
            return answer.push_str("bad word\n");
        };
        let name = String::from_str(self.alloc, name)?;
        self.names.insert(name, bytes)?;
        Ok(())
    }
}

// Carries out a command with bytes and no number.
fn spell(alloc: Global, name: &str, bytes: &[u8], answer: &mut String) -> Reported {
    match name {
        "decode" => report(encoded_again(alloc, bytes), answer),
        "beginnings" => beginnings(alloc, bytes, answer),
        "hash" => show(&Sha256::digest(bytes), answer),
        "laws" => laws(answer),
        _ => bad(answer),
    }
}

// Carries out a command with a number and bytes.
fn reckon(alloc: Global, name: &str, number: u64, bytes: &[u8], answer: &mut String) -> Reported {
    match name {
        "message" => message(alloc, number, bytes, answer),
        "order" => order(alloc, number, bytes, answer),
        "genesis" => genesis(alloc, number, answer),
        "ways" => count_ways(alloc, number, bytes, answer),
        "round" => report(Round::new(number).map(|round| round.number()), answer),
        "wave" => report(Wave::new(number).map(|wave| wave.number()), answer),
        "sign" => sign(number, bytes, answer),
        "verify" => verify(number, bytes, answer),
        _ => bad(answer),
    }
}

// Shows the batch of an author and a worker whose transactions have these lengths.
fn batch(alloc: Global, numbers: &[u64], bytes: &[u8], answer: &mut String) -> Reported {
    let [author, worker, lens @ ..] = numbers else {
        return bad(answer);
    };
    let open = OpenBatch::new(alloc, author_of(*author), author_of(*worker).0)?;
    let batch = fill(open, lens, bytes, answer)?;
    show(&written(alloc, &batch)?, answer)
}

fn among(numbers: &[u64], answer: &mut String) -> Reported {
    match numbers {
        [number, members @ ..] => is_among(*number, members, answer),
        [] => bad(answer),
    }
}

fn sets(numbers: &[u64], answer: &mut String) -> Reported {
    match numbers {
        [number, count, members @ ..] => is_in_both(*number, *count, members, answer),
        _ => bad(answer),
    }
}
