//! A disk, a journal on the disk, and a book: what commands of a test case work on.

use crate::memory::disk_with;
use crate::store::books::own_book;
use crate::store::files::{beginnings, changes};
use crate::store::words::{Reported, Word, reported_bad};
use book::OwnBook;
use diskmodel::MemDisk;
use sigface::HashSign;
use std::alloc::{AllocError, Global};
use validator::Config;

/// A disk and a book, both new in each test case.
#[derive(Drop)]
pub struct Store<'a> {
    pub alloc: Global,
    pub config: &'a Config<HashSign>,
    pub disk: MemDisk,
    pub book: OwnBook<'a, HashSign>,
}

impl<'a> Store<'a> {
    /// The state before the first test case.
    pub fn new(alloc: Global, config: &'a Config<HashSign>) -> Result<Store<'a>, AllocError> {
        Ok(Store {
            alloc,
            config,
            disk: disk_with(alloc, &[])?,
            book: own_book(alloc, config)?,
        })
    }

    /// Begins a test case, with an empty disk and a book that has accepted nothing.
    pub fn begin(&mut self) -> Reported {
        self.disk = disk_with(self.alloc, &[])?;
        self.book = own_book(self.alloc, self.config)?;
        Ok(())
    }

    /// Carries out a command of the test case. The words of some commands are interpreted by the function that carries them out. The other
    /// commands are distinguished by the number and kinds of their words, and then by their names.
    pub fn obey(&mut self, name: &str, words: &[Word], answer: &mut String) -> Reported {
        match name {
            "append" => self.append(words, answer),
            "stops" => self.report_stops(words, answer),
            "cut" => self.cut(words, answer),
            "fail" => self.fail(words, answer),
            _ => self.obey_few(name, words, answer),
        }
    }

    fn obey_few(&mut self, name: &str, words: &[Word], answer: &mut String) -> Reported {
        match words {
            [] => self.obey_alone(name, answer),
            [Word::Bytes(bytes)] => self.obey_bytes(name, bytes, answer),
            [Word::Number(room)] if name == "release_into" => {
                self.release_into(*room as usize, answer)
            }
            _ => self.obey_more(name, words, answer),
        }
    }

    fn obey_more(&mut self, name: &str, words: &[Word], answer: &mut String) -> Reported {
        match words {
            [Word::Number(first), Word::Number(second)] => {
                self.obey_numbers(name, *first, *second, answer)
            }
            [Word::Number(first), Word::Bytes(bytes)] => {
                self.obey_number_bytes(name, *first, bytes, answer)
            }
            _ => self.take_header(name, words, answer),
        }
    }

    fn obey_bytes(&mut self, name: &str, bytes: &[u8], answer: &mut String) -> Reported {
        match name {
            "disk" => self.renew(bytes),
            "choose" => self.choose(bytes),
            "can" => self.report_can(bytes, answer),
            _ => reported_bad(answer),
        }
    }

    fn obey_numbers(
        &mut self,
        name: &str,
        first: u64,
        second: u64,
        answer: &mut String,
    ) -> Reported {
        match name {
            "read" => self.read(first, second, answer),
            "group" => self.append_alike(first, second as usize, answer),
            "beginnings" => beginnings(self.alloc, self.disk.bytes(), first, second, answer),
            "changes" => changes(self.alloc, self.disk.bytes(), first, second, answer),
            "fill" => self.fill(first, second as usize, answer),
            "vote" => self.take_vote(first, second, answer),
            _ => reported_bad(answer),
        }
    }

    fn obey_number_bytes(
        &mut self,
        name: &str,
        number: u64,
        bytes: &[u8],
        answer: &mut String,
    ) -> Reported {
        match name {
            "write" => self.write(number, bytes, answer),
            "written" => self.append_written(number, bytes, answer),
            _ => reported_bad(answer),
        }
    }
}
