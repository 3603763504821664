//! Commands of a test case to the disk in memory.

use crate::memory::disk_with;
use crate::store::journals::{report_errors, report_stands};
use crate::store::stores::Store;
use crate::store::words::{
    Reported, Word, bad, put, put_bytes, put_number, report_fault, reported_bad,
};
use diskmodel::{Call, Disk, MemDisk, StopDisk};

impl Store<'_> {
    /// Carries out a command without a word, on the disk, on the journal on the disk, or on the book.
    pub fn obey_alone(&mut self, name: &str, answer: &mut String) -> Reported {
        match name {
            "sync" => report_fault(answer, self.disk.sync()),
            "stop" => self.disk.stop(),
            "tell" => report_disk(&mut self.disk, answer),
            "calls" => report_calls(self.disk.calls(), answer),
            "open" => return self.attempt(None, answer),
            "stands" => report_stands(self.alloc, self.disk.bytes(), answer),
            "errors" => report_errors(answer),
            _ => return self.obey_book(name, answer),
        }
        Ok(())
    }

    /// `cut PLACE` cuts the disk to a length up to its own.
    pub fn cut(&mut self, words: &[Word], answer: &mut String) -> Reported {
        let [Word::Number(place)] = words else {
            return reported_bad(answer);
        };
        if *place <= self.disk.bytes().len() as u64 {
            report_fault(answer, self.disk.cut(*place));
        } else {
            bad(answer);
        }
        Ok(())
    }

    /// `fail CALL COUNT` lets the `COUNT`-th call of this kind from now on fail.
    pub fn fail(&mut self, words: &[Word], answer: &mut String) -> Reported {
        let [Word::Call(kind), Word::Number(count)] = words else {
            return reported_bad(answer);
        };
        self.disk.fail(*kind, *count)
    }

    /// Writes bytes at a place within the disk.
    pub fn write(&mut self, place: u64, bytes: &[u8], answer: &mut String) -> Reported {
        if place <= self.disk.bytes().len() as u64 {
            report_fault(answer, self.disk.write_at(place, bytes));
        } else {
            bad(answer);
        }
        Ok(())
    }

    /// Adds whether a stop of the machine may leave these bytes on the disk.
    pub fn report_can(&self, bytes: &[u8], answer: &mut String) -> Reported {
        report_if(answer, self.disk.can_leave(bytes));
        Ok(())
    }

    /// Replaces the disk by one with these bytes.
    pub fn renew(&mut self, bytes: &[u8]) -> Reported {
        self.disk = disk_with(self.alloc, bytes)?;
        Ok(())
    }

    /// Chooses what the next stop leaves.
    pub fn choose(&mut self, bytes: &[u8]) -> Reported {
        self.disk.choose(bytes.to_vec(self.alloc)?);
        Ok(())
    }

    /// Reads this many bytes from a place on, and adds them.
    pub fn read(&mut self, place: u64, count: u64, answer: &mut String) -> Reported {
        let len = self.disk.bytes().len() as u64;
        if place > len || count > len - place {
            return reported_bad(answer);
        }
        let mut buffer = vec![in self.alloc; 0; count as usize]?;
        report_fault(answer, self.disk.read_at(place, &mut buffer));
        put(answer, "read");
        put_bytes(answer, &buffer);
        put(answer, "\n");
        Ok(())
    }
}

/// Adds a line that says whether something holds.
pub fn report_if(answer: &mut String, holds: bool) {
    put(answer, if holds { "yes\n" } else { "no\n" });
}

/// Adds what is left of a file on a disk: the words that say that all of it is, or the bytes.
pub fn report_left(text: &mut String, disk: &MemDisk, file: &[u8]) {
    if disk.durable() != disk.bytes() {
        put(text, ", not firm");
    } else if disk.bytes() == file {
        put(text, ", as it was");
    } else {
        put(text, ", left");
        put_bytes(text, disk.bytes());
    }
}

/// Adds the length of the disk, the bytes that a read returns, those of the last sync, and the places that were written since that sync.
fn report_disk(disk: &mut MemDisk, answer: &mut String) {
    put(answer, "bytes");
    if let Ok(len) = disk.len() {
        put_number(answer, len);
    }
    put_bytes(answer, disk.bytes());
    put(answer, " firm");
    put_bytes(answer, disk.durable());
    put(answer, " written");
    for place in 0..=disk.bytes().len() as u64 {
        if disk.is_written(place) {
            put_number(answer, place);
        }
    }
    put(answer, "\n");
}

fn report_calls(calls: &[Call], answer: &mut String) {
    for call in calls {
        match call {
            Call::Wrote { place, bytes } => {
                put(answer, "wrote");
                put_number(answer, *place);
                put_bytes(answer, bytes.as_slice());
            }
            Call::Cut(len) => {
                put(answer, "cut");
                put_number(answer, *len);
            }
            Call::Synced => put(answer, "synced"),
            Call::Stopped(bytes) => {
                put(answer, "stopped");
                put_bytes(answer, bytes.as_slice());
            }
        }
        put(answer, "\n");
    }
}
