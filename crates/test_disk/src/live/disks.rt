//! The commands of a test case to the disk that is open, which is over a file.

use crate::live::folder::report_bytes;
use crate::live::words::{Reported, bad, joined, parted, put_count, report_fault};
use disk_file::FileDisk;
use diskmodel::{Disk, DiskFault};
use std::alloc::Global;

/// Carries out a command on the disk, and adds the lines of its answer.
pub fn obey_disk(
    alloc: Global,
    disk: &mut FileDisk,
    name: &str,
    rest: &str,
    answer: &mut String,
) -> Reported {
    let (first, second) = parted(rest);
    let place = first.parse().unwrap_or(0);
    match name {
        "len" => report_len(disk.len(), answer),
        "sync" => report_fault(answer, disk.sync()),
        "cut" => cut(disk, place, answer),
        "write" => return write(alloc, disk, place, second, answer),
        "read" => return read(alloc, disk, place, second, answer),
        _ => bad(answer),
    }
    Ok(())
}

fn report_len(outcome: Result<u64, DiskFault>, answer: &mut String) {
    match outcome {
        Ok(len) => put_count(answer, "", len, "\n"),
        Err(fault) => report_fault(answer, Err(fault)),
    }
}

fn cut(disk: &mut FileDisk, at: u64, answer: &mut String) {
    match disk.len() {
        Ok(len) if at <= len => report_fault(answer, disk.cut(at)),
        Ok(_) => bad(answer),
        Err(fault) => report_fault(answer, Err(fault)),
    }
}

fn write(
    alloc: Global,
    disk: &mut FileDisk,
    at: u64,
    digits: &str,
    answer: &mut String,
) -> Reported {
    if let Some(bytes) = joined(alloc, digits)? {
        write_at(disk, at, &bytes, answer);
    }
    Ok(())
}

fn write_at(disk: &mut FileDisk, at: u64, bytes: &[u8], answer: &mut String) {
    match disk.len() {
        Ok(len) if at <= len => report_fault(answer, disk.write_at(at, bytes)),
        Ok(_) => bad(answer),
        Err(fault) => report_fault(answer, Err(fault)),
    }
}

fn read(alloc: Global, disk: &mut FileDisk, at: u64, count: &str, answer: &mut String) -> Reported {
    let mut buffer = vec![in alloc; 0; count.parse().unwrap_or(0)]?;
    read_at(disk, at, &mut buffer, answer);
    Ok(())
}

fn read_at(disk: &mut FileDisk, at: u64, buffer: &mut [u8], answer: &mut String) {
    let count = buffer.len() as u64;
    match disk.len() {
        Ok(len) if at <= len && count <= len - at => match disk.read_at(at, buffer) {
            Ok(()) => report_bytes(answer, buffer),
            Err(fault) => report_fault(answer, Err(fault)),
        },
        Ok(_) => bad(answer),
        Err(fault) => report_fault(answer, Err(fault)),
    }
}
