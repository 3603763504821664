//! Opens a node on two areas of which one holds a journal of format version 1. The opening rewrites that journal as a checkpoint.

ghost use Rattle.std.specs.Prelude.{IsSome, IfOk};
ghost use Rattle.journal.specs.Journal.{spare_of};

use crate::areas::Areas;
use crate::disks::Disks;
use crate::nodes::Member;
use diskmodel::MemDisk;
use journal::{Failed, Journal, JournalError};
use opening::{reopen, reopen_pair};
use sigface::HashSign;
use std::alloc::{AllocError, Global};
use test_cases::{Reported, write_hex};
use validator::Validator;
use wire::{Author, Round};

/// Answers show the node's vote for the header of this member in this round.
const PEER: u16 = 1;

const ROUND: u64 = 1;

/// Of an area with more bytes than this, answers show a checksum instead of the bytes.
const MANY_BYTES: usize = 1_000;

/// The answer of an opening at which a device call (2) or an allocation (1) failed.
pub const DEVICE: &str = "2 Device";

const MEMORY: &str = "1 Memory";

/// The answer of an opening, and both disks as the opening left them.
#[derive(Drop)]
pub struct Opened {
    pub text: String,
    pub disks: Disks,
}

/// Opens a node on both disks. The answer shows the node that was found, or the reason for which none was.
pub fn reopened(alloc: Global, member: &Member, disks: Disks) -> Result<Opened, AllocError> {
    let mut text = String::new(alloc);
    let Disks { first, second } = disks;
    match reopen_pair(alloc, &member.config, first, second) {
        Ok((validator, journal)) => {
            report_found(&validator, journal.generation(), &mut text)?;
            let disks = disks_of(journal);
            Ok(Opened { text, disks })
        }
        Err(Failed { error, disk }) => {
            report_error(error, &mut text)?;
            let disks = Disks {
                first: disk.0,
                second: disk.1,
            };
            Ok(Opened { text, disks })
        }
    }
}

fn disks_of(journal: Journal<MemDisk>) -> Disks
    requires { IsSome (spare_of journal) }
{
    let (first, second) = journal.into_disks();
    Disks { first, second }
}

/// Adds the reason for which an opening failed.
fn report_error(error: JournalError, text: &mut String) -> Reported {
    match error {
        JournalError::Damaged(gate) => write!(text, "{error} {gate}"),
        _ => write!(text, "{error}"),
    }
}

/// Adds what an opening found: the journal's generation, the vote for the peer's header, the node's round, and the length of its order.
fn report_found(
    validator: &Validator<'_, HashSign>,
    generation: u64,
    text: &mut String,
) -> Reported {
    write!(text, "generation {generation}, vote ")?;
    report_vote(validator, text)?;
    let (round, ordered) = (validator.round(), validator.order().len());
    write!(text, ", round {round}, order {ordered}")
}

/// Whether the answer of an opening shows an opened node, and not a failure.
pub fn is_node(text: &str) -> bool {
    text.starts_with("generation ")
}

fn report_vote(validator: &Validator<'_, HashSign>, text: &mut String) -> Reported {
    let Ok(round) = Round::new(ROUND) else {
        return Err(AllocError);
    };
    match validator.voted(Author(PEER), round) {
        Some(digest) => write_hex(text, &digest.0),
        None => text.push_str("none"),
    }
}

/// Opens a node on both areas. Shows what it found, and the bytes of both areas afterwards.
pub fn report_opened(
    alloc: Global,
    member: &Member,
    areas: &Areas,
    answer: &mut String,
) -> Reported {
    let opened = opened_again(alloc, member, Disks::of(alloc, areas)?)?;
    writeln!(answer, "{}", opened.text)?;
    report_area("first", opened.disks.first.bytes(), answer)?;
    report_area("second", opened.disks.second.bytes(), answer)
}

/// Opens a node on both disks, and a second time if an allocation of the opening or of a disk failed. The second opening has to give the
/// result that the first would have given.
fn opened_again(alloc: Global, member: &Member, disks: Disks) -> Result<Opened, AllocError> {
    let first = reopened(alloc, member, disks)?;
    if first.text.as_str() != MEMORY && first.text.as_str() != DEVICE {
        return Ok(first);
    }
    reopened(alloc, member, first.disks)
}

/// Opens a node on one disk that has these bytes. Shows what it found, and the bytes of the disk afterwards.
pub fn report_opened_alone(
    alloc: Global,
    member: &Member,
    bytes: &[u8],
    answer: &mut String,
) -> Reported {
    let (text, disk) = opened_alone_again(alloc, member, bytes)?;
    writeln!(answer, "{text}")?;
    report_area("alone", disk.bytes(), answer)
}

/// Opens a node on one disk, and a second time if an allocation or a device call failed.
fn opened_alone_again(
    alloc: Global,
    member: &Member,
    bytes: &[u8],
) -> Result<(String, MemDisk), AllocError> {
    let disk = MemDisk::new(alloc, bytes.to_vec(alloc)?)?;
    let (text, disk) = reopened_alone(alloc, member, disk)?;
    if text.as_str() != MEMORY && text.as_str() != DEVICE {
        return Ok((text, disk));
    }
    reopened_alone(alloc, member, disk)
}

/// Opens a node on one disk. Returns the answer, and the disk as the opening left it.
fn reopened_alone(
    alloc: Global,
    member: &Member,
    disk: MemDisk,
) -> Result<(String, MemDisk), AllocError> {
    let mut text = String::new(alloc);
    match reopen(alloc, &member.config, disk) {
        Ok((validator, journal)) => {
            report_found(&validator, journal.generation(), &mut text)?;
            Ok((text, journal.into_disk()))
        }
        Err(Failed { error, disk }) => {
            report_error(error, &mut text)?;
            Ok((text, disk))
        }
    }
}

fn report_area(name: &str, bytes: &[u8], answer: &mut String) -> Reported {
    if bytes.len() > MANY_BYTES {
        return writeln!(answer, "{name} {}, sum {}", bytes.len(), sum(bytes));
    }
    write!(answer, "{name} {} : ", bytes.len())?;
    write_hex(answer, bytes)?;
    answer.push_str("\n")
}

/// The checksum of no bytes: the start value of the hash FNV-1a with 64 bits.
pub const NO_SUM: u64 = 14_695_981_039_346_656_037;

fn sum(bytes: &[u8]) -> u64 {
    sum_after(NO_SUM, bytes)
}

/// The checksum of some bytes with these further bytes added after them.
pub fn sum_after(before: u64, bytes: &[u8]) -> u64 {
    let mut sum = before;
    for byte in bytes {
        sum = (sum ^ u64::from(*byte)).wrapping_mul(1_099_511_628_211);
    }
    sum
}

/// Cuts one area to each length in turn and opens a node on both. Shows each length from which on the answer is another one.
pub fn report_lengths(
    alloc: Global,
    member: &Member,
    areas: &Areas,
    is_second: bool,
    answer: &mut String,
) -> Reported {
    let mut last = String::new(alloc);
    for length in 0..=areas.of_area(is_second).len() {
        let left = areas.cut(alloc, is_second, length)?;
        let found = reopened(alloc, member, Disks::of(alloc, &left)?)?;
        report_change(length, &found, &mut last, answer)?;
    }
    Ok(())
}

/// Shows the answer of an opening and the lengths that it left of both areas, if they differ from what was shown last.
fn report_change(
    length: usize,
    opened: &Opened,
    last: &mut String,
    answer: &mut String,
) -> Reported {
    let mut text = opened.text.clone()?;
    if is_node(text.as_str()) {
        let (first, second) = (&opened.disks.first, &opened.disks.second);
        write!(
            text,
            ", areas {} {}",
            first.bytes().len(),
            second.bytes().len()
        )?;
    }
    if text.as_str() != last.as_str() {
        writeln!(answer, "{length}: {text}")?;
        *last = text;
    }
    Ok(())
}
