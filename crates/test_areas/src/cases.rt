//! The commands of a test case on a journal that has two areas, which means two disks.

use crate::disks::{Areas, Disks};
use crate::failures::Opening;
use crate::openings::{put_gates, reopened, reopened_store};
use crate::rewritings::{Checkpoint, Fault, Made, appended, begun, rewritten};
use crate::stops::Trial;
use crate::words::{
    Reported, Word, listed, parted, put, put_bytes, put_calls, put_count, reported_bad, words_of,
};
use diskmodel::MemDisk;
use journal::Store;
use std::alloc::{AllocError, Global};

/// The longest record of zeros that the command `add` makes, in bytes.
const MOST_BYTES: u64 = 8_388_608;

/// Answers show the bytes of an area up to this length, and of a longer area its length alone.
const MANY_BYTES: usize = 2_000;

/// The state that the commands of a test case work on, new in each test case.
#[derive(Drop)]
pub struct Cases {
    alloc: Global,
    /// The bytes of both areas of the journal.
    areas: Areas,
    /// The records that the next checkpoint will be made of.
    records: Vec<Vec<u8>>,
}

impl Cases {
    /// The state before the first test case of a file.
    pub fn new(alloc: Global) -> Cases {
        Cases {
            alloc,
            areas: Areas::none(alloc),
            records: Vec::new(alloc),
        }
    }

    /// Begins a new test case: forgets what the last one made.
    pub fn begin(&mut self) {
        self.areas = Areas::none(self.alloc);
        self.records = Vec::new(self.alloc);
    }

    /// Carries out a command, and adds the lines of its answer.
    pub fn obey(&mut self, command: &str, answer: &mut String) -> Reported {
        let (name, rest) = parted(command);
        let words = words_of(self.alloc, rest)?;
        self.obey_words(name, words.as_slice(), answer)
    }

    fn obey_words(&mut self, name: &str, words: &[Word], answer: &mut String) -> Reported {
        match (name, words) {
            ("areas", [Word::Bytes(first), Word::Bytes(second)]) => self.set(first, second),
            ("add", [Word::Number(count), Word::Number(len)]) => self.add(*count, *len),
            ("stops", [Word::Number(area)]) => self.report_stops(*area, answer),
            ("seconds", [Word::Number(area)]) => self.report_seconds(*area, answer),
            ("begin", [Word::Bytes(configuration)]) => self.start(configuration, answer),
            ("records", _) => self.take_records(words, answer),
            ("append", _) => self.append(words, answer),
            (_, []) => self.obey_alone(name, answer),
            _ => reported_bad(answer),
        }
    }

    /// Carries out a command that consists of its name alone.
    fn obey_alone(&mut self, name: &str, answer: &mut String) -> Reported {
        match name {
            "open" => self.open(answer),
            "loose" => self.open_loose(answer),
            "store" => self.open_both(answer),
            "one" => self.open_one(answer),
            "gates" => self.report_gates(answer),
            "tell" => self.report(answer),
            "rewrite" => self.rewrite(Made::Whole, answer),
            "draft" => self.rewrite(Made::Draft, answer),
            "alike" => self.compare(answer),
            "failures" => self.report_failures(answer),
            "openings" => Opening::new(self.alloc, &self.areas)?.report(answer),
            _ => reported_bad(answer),
        }
    }

    /// `areas FIRST SECOND` sets the bytes of both areas.
    fn set(&mut self, first: &[u8], second: &[u8]) -> Reported {
        self.areas = Areas {
            first: first.to_vec(self.alloc)?,
            second: second.to_vec(self.alloc)?,
        };
        Ok(())
    }

    /// `records RECORD ..` sets the records that the next checkpoint will be made of.
    fn take_records(&mut self, words: &[Word], answer: &mut String) -> Reported {
        match listed(self.alloc, words)? {
            Some(records) => {
                self.records = records;
                Ok(())
            }
            None => reported_bad(answer),
        }
    }

    /// `add COUNT LENGTH` adds `count` records of zeros, each with this length.
    fn add(&mut self, count: u64, len: u64) -> Reported {
        for _ in 0..count {
            let record = vec![in self.alloc; 0; len.min(MOST_BYTES) as usize]?;
            self.records.push(record)?;
        }
        Ok(())
    }

    /// `open` opens the journal on both areas. Afterwards the areas have the bytes that the opening left.
    fn open(&mut self, answer: &mut String) -> Reported {
        let disks = reopened(self.alloc, Disks::of(self.alloc, &self.areas)?, answer);
        self.keep(&disks, answer)
    }

    /// `loose` does what `open` does, on disks of which nothing was synced before the opening.
    fn open_loose(&mut self, answer: &mut String) -> Reported {
        let disks = reopened(self.alloc, Disks::loose(self.alloc, &self.areas)?, answer);
        self.keep(&disks, answer)
    }

    // Takes over the bytes of the disks, and reports if a crash might leave other bytes, because something isn't synced.
    fn keep(&mut self, disks: &Disks, answer: &mut String) -> Reported {
        self.areas = Areas::on(self.alloc, disks)?;
        put(
            answer,
            if disks.are_durable() {
                "\n"
            } else {
                ", not firm\n"
            },
        );
        Ok(())
    }

    /// `store` opens the journal on both areas by the function `open_store`, which also takes a journal on one disk.
    fn open_both(&mut self, answer: &mut String) -> Reported {
        let disks = Disks::of(self.alloc, &self.areas)?;
        let store = Store::Two(disks.first, disks.second);
        self.keep_store(reopened_store(self.alloc, store, answer), answer)
    }

    /// `one` opens the journal on the first area alone, as a journal that has one disk.
    fn open_one(&mut self, answer: &mut String) -> Reported {
        let disks = Disks::of(self.alloc, &self.areas)?;
        let store = Store::One(disks.first);
        self.keep_store(reopened_store(self.alloc, store, answer), answer)
    }

    fn keep_store(&mut self, store: Store<MemDisk>, answer: &mut String) -> Reported {
        put(answer, "\n");
        match store {
            Store::One(disk) => self.areas.first = disk.bytes().to_vec(self.alloc)?,
            Store::Two(first, second) => self.set(first.bytes(), second.bytes())?,
        }
        Ok(())
    }

    /// `gates` opens the journal, and shows how many records follow each gate: the commit byte before a group of records.
    fn report_gates(&self, answer: &mut String) -> Reported {
        let _ = put_gates(self.alloc, Disks::of(self.alloc, &self.areas)?, answer);
        put(answer, "\n");
        Ok(())
    }

    /// `report` shows the bytes of both areas.
    fn report(&self, answer: &mut String) -> Reported {
        put_area(answer, &self.areas.first);
        put_area(answer, &self.areas.second);
        Ok(())
    }

    /// `begin CONFIGURATION` appends the first group of a new journal, which has the configuration as its only record.
    fn start(&mut self, configuration: &[u8], answer: &mut String) -> Reported {
        let disks = Disks::of(self.alloc, &self.areas)?;
        let disks = begun(self.alloc, disks, configuration.to_vec(self.alloc)?, answer)?;
        self.keep(&disks, answer)
    }

    /// `append RECORD ..` appends a group of these records to the journal.
    fn append(&mut self, words: &[Word], answer: &mut String) -> Reported {
        let Some(records) = listed(self.alloc, words)? else {
            return reported_bad(answer);
        };
        let disks = Disks::of(self.alloc, &self.areas)?;
        let disks = appended(self.alloc, disks, records, answer)?;
        self.keep(&disks, answer)
    }

    /// `rewrite` and `draft` write a checkpoint into the spare area, made at once or record by record. They show the calls of both disks.
    fn rewrite(&mut self, made: Made, answer: &mut String) -> Reported {
        let mut text = String::new(self.alloc);
        let opened = reopened(self.alloc, Disks::of(self.alloc, &self.areas)?, &mut text);
        let disks = Disks::of(self.alloc, &self.areas)?;
        let disks = rewritten(
            self.alloc,
            disks,
            self.checkpoint(made),
            Fault::none(),
            answer,
        )?;
        self.keep(&disks, answer)?;
        put_calls_after(answer, &opened, &disks, false);
        put_calls_after(answer, &opened, &disks, true);
        Ok(())
    }

    /// `alike` shows whether `rewrite` and `draft` would leave the same bytes. It leaves both areas as they are.
    fn compare(&self, answer: &mut String) -> Reported {
        let whole = self.rewritten_by(Made::Whole)?;
        let draft = self.rewritten_by(Made::Draft)?;
        put(
            answer,
            if whole.are(&draft) {
                "alike\n"
            } else {
                "other bytes\n"
            },
        );
        Ok(())
    }

    fn rewritten_by(&self, made: Made) -> Result<Areas, AllocError> {
        let mut text = String::new(self.alloc);
        let disks = Disks::of(self.alloc, &self.areas)?;
        let checkpoint = self.checkpoint(made);
        let disks = rewritten(self.alloc, disks, checkpoint, Fault::none(), &mut text)?;
        Areas::on(self.alloc, &disks)
    }

    fn checkpoint(&self, made: Made) -> Checkpoint {
        Checkpoint {
            records: self.records.as_slice(),
            made,
        }
    }

    /// `stops AREA` crashes the machine after each device call of a rewriting into this area, and shows what openings find.
    fn report_stops(&self, area: u64, answer: &mut String) -> Reported {
        let checkpoint = self.checkpoint(Made::Whole);
        Trial::new(self.alloc, &self.areas, checkpoint, area == 1)?.report_stops(answer)
    }

    /// `seconds AREA` does what `stops` does, and crashes the machine also during the opening that follows the first crash.
    fn report_seconds(&self, area: u64, answer: &mut String) -> Reported {
        let checkpoint = self.checkpoint(Made::Whole);
        Trial::new(self.alloc, &self.areas, checkpoint, area == 1)?.report_seconds(answer)
    }

    /// `failures` lets each device call of a rewriting fail in turn, and shows what an opening then finds.
    fn report_failures(&self, answer: &mut String) -> Reported {
        let checkpoint = self.checkpoint(Made::Draft);
        Trial::new(self.alloc, &self.areas, checkpoint, false)?.report_failures(answer)
    }
}

// Adds the length of an area, and its bytes if there are at most `MANY_BYTES`.
fn put_area(answer: &mut String, bytes: &[u8]) {
    put_count(answer, "bytes ", bytes.len() as u64, "");
    if bytes.len() < MANY_BYTES {
        put_bytes(answer, bytes);
    }
    put(answer, "\n");
}

// Adds the calls that a disk has had since the opening of the journal.
fn put_calls_after(answer: &mut String, opened: &Disks, disks: &Disks, is_second: bool) {
    put(answer, if is_second { "area 1:" } else { "area 0:" });
    let before = opened.of_area(is_second).calls().len();
    match disks.of_area(is_second).calls().get(before..) {
        Some(calls) => put_calls(answer, calls),
        None => put(answer, " fewer than before"),
    }
    put(answer, "\n");
}
