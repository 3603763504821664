//! The folder in which a test runs, and the file in it that is open as a disk.

use crate::live::disks::obey_disk;
use crate::live::journals::{records_of, report_opening};
use crate::live::words::{Reported, parted, put, put_hex, put_shown};
use disk_file::{FileDisk, OpenError};
use std::alloc::Global;
use std::fs::{self, File};
use std::rt::Files;

/// The folder in which the test runs, and the disk that is open over one of its files.
#[derive(Drop)]
pub struct Folder {
    alloc: Global,
    disk: Option<FileDisk>,
}

impl Folder {
    /// A folder in which no disk is open yet.
    pub fn new(alloc: Global) -> Folder {
        Folder { alloc, disk: None }
    }

    /// Carries out a command, and adds the lines of its answer.
    pub fn obey<R: Files<File = File> + AllocGlobal>(
        &mut self,
        rt: &R,
        name: &str,
        rest: &str,
        answer: &mut String,
    ) -> Reported {
        match name {
            "open" => self.open(rt, rest, answer),
            "front" => self.open_front(rt, rest, answer),
            "close" => self.disk = None,
            "journal" => return self.journal(rest, answer),
            "file" => report_file(rt, rest, answer),
            "again" => drop(opened(FileDisk::open(rt, self.alloc, rest), answer)),
            "folder" => {
                let _ = fs::create_dir(rt, rest);
            }
            "remove" => {
                let _ = fs::remove_file(rt, rest);
            }
            _ => return self.obey_open(name, rest, answer),
        }
        Ok(())
    }

    fn obey_open(&mut self, name: &str, rest: &str, answer: &mut String) -> Reported {
        match &mut self.disk {
            Some(disk) => obey_disk(self.alloc, disk, name, rest, answer),
            None => answer.push_str("no disk\n"),
        }
    }

    // Opens a file as a disk, in place of the one that is open.
    fn open<R: Files<File = File>>(&mut self, rt: &R, name: &str, answer: &mut String) {
        self.disk = None;
        self.disk = opened(FileDisk::open(rt, self.alloc, name), answer);
    }

    // Opens a file as a disk, in place of the one that is open, and lets the disk keep only this many bytes of the file in memory.
    fn open_front<R: Files<File = File>>(&mut self, rt: &R, rest: &str, answer: &mut String) {
        let (name, count) = parted(rest);
        let keep = count.parse().unwrap_or(0);
        self.disk = None;
        self.disk = opened(FileDisk::open_front(rt, self.alloc, name, keep), answer);
    }

    // Opens a journal on the open disk and appends these records as a group, if there are any. Then the journal is closed; the disk stays
    // open.
    fn journal(&mut self, rest: &str, answer: &mut String) -> Reported {
        let records = records_of(self.alloc, rest)?;
        if let Some(disk) = self.disk.take() {
            self.disk = Some(report_opening(self.alloc, disk, records, answer));
        }
        Ok(())
    }
}

// Adds the result of opening a file.
fn opened(outcome: Result<FileDisk, OpenError>, answer: &mut String) -> Option<FileDisk> {
    match outcome {
        Ok(disk) => {
            put(answer, "opened\n");
            Some(disk)
        }
        Err(error) => {
            put_shown(answer, "", &error, "\n");
            None
        }
    }
}

// Adds the bytes of a file, even if a disk has it open.
fn report_file<R: Files<File = File> + AllocGlobal>(rt: &R, name: &str, answer: &mut String) {
    match fs::read(rt, name) {
        Ok(bytes) => report_bytes(answer, &bytes),
        Err(_) => put(answer, "no file\n"),
    }
}

/// Adds a line of an `x` and these bytes as hexadecimal digits.
pub fn report_bytes(answer: &mut String, bytes: &[u8]) {
    put(answer, "x");
    put_hex(answer, bytes);
    put(answer, "\n");
}
