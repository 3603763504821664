//! How a test writes the groups of a book to the disk.

ghost use Rattle.std.specs.Prelude.{◌≡◌, ◌∷◌, [], None};
ghost use Rattle.journal.specs.Journal.{spare_of, IsAlive};
ghost use Rattle.validator.specs.Setting.{node_of};
ghost use Rattle.book.specs.InFlight.{AreInFlight};

use crate::store::words::{bad, put, put_number, put_shown};
use book::OwnBook;
use diskmodel::{Disk, MemDisk};
use journal::{Group, Journal, Synced};
use sigface::{HashSign, Sign};
use std::alloc::Global;

/// What a test does with the groups of a book.
#[derive(Clone, Copy)]
pub enum Putting {
    /// It takes one group and writes it, and doesn't settle it.
    Written,
    /// It takes one group, writes and settles it.
    Settled,
    /// It takes two groups and writes both, and then settles one after the other.
    Two,
}

/// Opens the journal on a disk, and writes groups of the book. Returns the disk.
pub fn put_groups(
    alloc: Global,
    own: &mut OwnBook<'_, HashSign>,
    disk: MemDisk,
    putting: Putting,
    answer: &mut String,
) -> MemDisk {
    match Journal::open(alloc, disk) {
        Ok((mut journal, _)) => {
            match putting {
                Putting::Written => write(own, &mut journal, answer),
                Putting::Settled => flush(own, &mut journal, answer),
                Putting::Two => write_two(own, &mut journal, answer),
            }
            put(answer, "\n");
            journal.into_disk()
        }
        Err(failed) => {
            bad(answer);
            failed.disk
        }
    }
}

/// Takes a group and writes it. The group stays in flight.
fn write(own: &mut OwnBook<'_, HashSign>, journal: &mut Journal<MemDisk>, answer: &mut String)
    requires alive { IsAlive ⟦<MemDisk as Disk>⟧.device journal.old }
    requires alone { spare_of journal.old ≡ None }
    ensures alone { spare_of journal.new ≡ None }
{
    match own.take() {
        Ok(Some(group)) => {
            put(answer, "a group of");
            put_number(answer, group.records_count());
            match journal.append(group) {
                Ok(synced) => put_number(answer, synced.records()),
                Err(_) => bad(answer),
            }
        }
        Ok(None) => put(answer, "no group"),
        Err(_) => bad(answer),
    }
}

/// Takes a group of the book, writes and settles it.
fn flush(own: &mut OwnBook<'_, HashSign>, journal: &mut Journal<MemDisk>, answer: &mut String)
    requires alive { IsAlive ⟦<MemDisk as Disk>⟧.device journal.old }
    requires alone { spare_of journal.old ≡ None }
    ensures alone { spare_of journal.new ≡ None }
{
    match own.flush(journal) {
        Ok(0) => put(answer, "no group"),
        Ok(count) => {
            put(answer, "a group of");
            put_number(answer, count);
        }
        Err(error) => put_shown(answer, "", &error, ""),
    }
}

/// Takes a group and writes it, does the same with a second one, and then settles both in turn.
fn write_two(own: &mut OwnBook<'_, HashSign>, journal: &mut Journal<MemDisk>, answer: &mut String)
    requires alive { IsAlive ⟦<MemDisk as Disk>⟧.device journal.old }
    requires alone { spare_of journal.old ≡ None }
    ensures alone { spare_of journal.new ≡ None }
{
    if !own.is_settled() {
        return put(answer, "a group is on the way");
    }
    let Ok(Some(group)) = own.take() else {
        return put(answer, "no group");
    };
    put(answer, "groups of");
    put_number(answer, group.records_count());
    match journal.append(group) {
        Ok(synced) => write_second(own, journal, synced, answer),
        Err(_) => bad(answer),
    }
}

/// Takes a second group and writes it, and settles it after the first group.
fn write_second(
    own: &mut OwnBook<'_, HashSign>,
    journal: &mut Journal<MemDisk>,
    first: Synced,
    answer: &mut String,
)
    requires alive { IsAlive ⟦<MemDisk as Disk>⟧.device journal.old }
    requires alone { spare_of journal.old ≡ None }
    requires way { AreInFlight (node_of ⟦<HashSign as Sign>⟧.scheme own.old.validator.setting) own.old (first ∷ []) }
    ensures alone { spare_of journal.new ≡ None }
{
    let Ok(Some(group)) = own.take() else {
        put(answer, ", no second");
        return put_number(answer, first.records());
    };
    put_number(answer, group.records_count());
    match journal.append(group) {
        Ok(second) => settle_two(own, first, second),
        Err(_) => {
            bad(answer);
            put_number(answer, first.records());
        }
    }
}

/// Settles two groups, in the order in which they were taken.
fn settle_two(own: &mut OwnBook<'_, HashSign>, first: Synced, second: Synced)
    requires { AreInFlight (node_of ⟦<HashSign as Sign>⟧.scheme own.old.validator.setting) own.old (first ∷ second ∷ []) }
{
    own.settle(first);
    own.settle(second);
}
