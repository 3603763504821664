//! A journal: groups of records on one disk, or on two.

ghost use Rattle.std.specs.Prelude.{◌≡◌, ◌≢◌, ◌⊎◌, ◌↔◌, ◌+◌, ◌-◌, ◌^◌, ◌<◌, List, ℕ, ◌++◌, length, Ok, Err, IfOk, IfErr, OnOk, OnErr, IsErrOf, IsSome, IsTrue, Some, None, ◌∷◌, []};
ghost use Rattle.diskmodel.specs.Disk.{LeavesOnly, AtEachMoment, NoneNew, ReportsFault};
ghost use Rattle.journal.specs.declared.layout.TheConstants.{CLOSED, OPEN, MAX_JOURNAL_BYTES};
ghost use Rattle.journal.specs.Format.{FitsGroup, group_bytes, stands, file_with, ScansTo};
ghost use Rattle.journal.specs.Areas.{generation_of, reports, other_side, pair, stands_in, rewrite_calls};
ghost use Rattle.journal.specs.Snapshot.{bytes_for};
ghost use Rattle.journal.specs.Pairs.{HaveChangedPlaces, HaveKeptPlaces, StandsAsOrAfter, stands_as, spare_disk, side_in, generation_in, areas_of, areas_in, store_of, rewritten_disk, untouched_disk};
ghost use Rattle.journal.specs.Reader.{TakesAll};
ghost use Rattle.journal.specs.Opened.{on_side, off_side, spare_with};
ghost use Rattle.journal.specs.Spares.{by_area};
ghost use Rattle.journal.specs.Journal.{disk_of, spare_of, disk_after, ReportsFaultBack, append_calls, EndsClosed, IsAlive, MadeSome, stands_with, IsClosedUp, IsBeforeOrAfter, StandsAsOneOf, IsAsOneOf};
ghost use Rattle.journal.specs.Stores.{disks_of, faults_of_both, faults_in, ReportsFaultsBack, IsChosenOf, AreClosedUp, IsOpenedOn, OpensAtEachMoment};

use crate::areas::{Opened, open_areas};
use crate::durable::Durable;
use crate::error::{Failed, JournalError};
use crate::group::Group;
use crate::layout::{CLOSED, MAX_JOURNAL_BYTES, OPEN};
use crate::reader::Reader;
use crate::record::Record;
use crate::side::Side;
use crate::snapshot::Snapshot;
use crate::spare::Spare;
use crate::store::Store;
use crate::window::read_area;
use diskmodel::Disk;
use std::alloc::Global;
use std::marker::Model;

/// The length that a journal notes for itself once its disk has failed. A journal that can be appended to is never so short.
const DEAD: u64 = 0;

/// A journal: groups of records on one disk or on two. A group is there as a whole or not at all.
pub struct Journal<D: Disk> {
    disk: D,
    len: u64,
    // The spare disk of a journal on two disks, which isn't read and takes the next checkpoint.
    spare: Option<Spare<D>>,
}

impl<D: Disk + Drop> Drop for Journal<D> {
    fn drop(self) {
        let Journal {
            disk: _,
            len: _,
            spare: _,
        } = self;
    }
}

/// Proof that records are durable: those of an appended group, or those of a checkpoint without its head. Contracts see these records. It
/// has no `Drop`, so that it is used exactly once.
pub struct Synced {
    durable: Durable,
}

impl Model for Synced {
    ghost use Rattle.std.specs.Prelude.{List, ℕ};
    ghost use Rattle.journal.specs.Durable.{records_of_durable};

    ghost Value = { List (List ℕ) };

    ghost view = { λ synced. records_of_durable synced.durable };
}

impl Synced {
    /// How many records became durable. The call consumes the proof of it.
    pub fn records(self) -> u64
        ensures { result ≡ length self }
    {
        let Synced { durable } = self;
        match durable {
            Durable::Group(group) => {
                let records = group.records_count();
                group.discard();
                records
            }
            Durable::Snapshot(snapshot) => {
                let records = snapshot.records_count();
                snapshot.discard();
                records
            }
        }
    }
}

impl<D: Disk> Journal<D> {
    /// Opens a journal on one disk, and returns the records of its groups, oldest first. A failed call hands the disk back.
    pub fn open(
        alloc: Global,
        mut disk: D,
    ) -> Result<(Journal<D>, Vec<Record>), Failed<JournalError, D>>
        ensures alive { IfOk result (λ opened. IsAlive D.device opened.0) }
        ensures records { IfOk result (λ opened. stands (D.device.content disk) ≡ Ok opened.1.items) }
        ensures same { IfOk result (λ opened. stands (D.device.content (disk_of opened.0)) ≡ stands (D.device.content disk)) }
        ensures content { IfOk result (λ opened. IsClosedUp (D.device.content disk) (D.device.content (disk_of opened.0))) }

        // After an error the bytes are as before, unless the error is that the disk failed.
        ensures unchanged { IfErr result (λ failed. failed.error ≢ JournalError.Device → D.device.content failed.disk ≡ D.device.content disk) }

        // What a stop at any moment of the call leaves might have been left before the call, or is read as the same records. So damaged
        // bytes that are durable stay as they are.
        ensures any_moment { AtEachMoment D.device disk (disk_after (λ opened. disk_of opened.0) result) (StandsAsOneOf (D.device.outcome disk)) }

        ensures damaged { IfErr result (λ failed. (gate : ℕ) → failed.error ≡ JournalError.Damaged gate → stands (D.device.content disk) ≡ Err gate) }
        ensures never_full { IfErr result (λ failed. failed.error ≢ JournalError.Full) }
        ensures never_config { IfErr result (λ failed. failed.error ≢ JournalError.ConfigMismatch) }

        // The error is Device if and only if the disk has counted a failed call.
        ensures cause { ReportsFaultBack D.device (λ opened. disk_of opened.0) JournalError.Device disk result }

        ensures alone { IfOk result (λ opened. spare_of opened.0 ≡ None) }
    {
        let mut records = Vec::new(alloc);
        match repair(alloc, &mut disk, &mut records) {
            Ok(len) => Ok((Journal::on_one(disk, len), records)),
            Err(error) => Err(Failed { error, disk }),
        }
    }

    /// Opens the journal on two disks, given in the order of their areas, and gives the records of the area that is read. A failed call
    /// hands both disks back.
    pub fn open_pair(
        alloc: Global,
        mut first: D,
        mut second: D,
    ) -> Result<(Journal<D>, Vec<Record>), Failed<JournalError, (D, D)>>
        ensures alive { IfOk result (λ opened. IsAlive D.device opened.0) }
        ensures pair { IfOk result (λ opened. IsSome (spare_of opened.0)) }

        // The area of the greater generation is read. If neither area has a group, the first one is read, with generation 0.
        ensures chosen { IfOk result (λ opened. IsChosenOf D.device first second opened.0) }

        ensures records { IfOk result (λ opened. stands_in (pair (D.device.content first) (D.device.content second)) ≡ Ok opened.1.items) }
        ensures same { IfOk result (λ opened. stands_in (areas_of D.device opened.0) ≡ stands_in (pair (D.device.content first) (D.device.content second))) }

        // The area that isn't read keeps all its bytes if its first gate is open.
        ensures content { IfOk result (λ opened. AreClosedUp D.device first second opened.0) }

        // After an error the bytes are as before, unless the error is that a disk failed.
        ensures first_unchanged { IfErr result (λ failed. failed.error ≢ JournalError.Device → D.device.content failed.disk.0 ≡ D.device.content first) }
        ensures second_unchanged { IfErr result (λ failed. failed.error ≢ JournalError.Device → D.device.content failed.disk.1 ≡ D.device.content second) }

        // What a stop at any moment of the call leaves of each disk might have been left before the call, or has the same generation and is
        // read as the same records.
        ensures first_moment { AtEachMoment D.device first (disk_after (λ opened. disks_of opened.0) result).0 (IsAsOneOf (D.device.outcome first)) }
        ensures second_moment { AtEachMoment D.device second (disk_after (λ opened. disks_of opened.0) result).1 (IsAsOneOf (D.device.outcome second)) }

        ensures damaged { IfErr result (λ failed. (place : ℕ) → failed.error ≡ JournalError.Damaged place → stands_in (pair (D.device.content first) (D.device.content second)) ≡ Err place) }
        ensures never_full { IfErr result (λ failed. failed.error ≢ JournalError.Full) }
        ensures never_config { IfErr result (λ failed. failed.error ≢ JournalError.ConfigMismatch) }

        // The error is Device if and only if one of the two disks has counted a failed call.
        ensures cause { ReportsFaultsBack (faults_of_both D.device) (λ opened. disks_of opened.0) JournalError.Device (first, second) result }
    {
        let mut records = Vec::new(alloc);
        match open_areas(alloc, &mut first, &mut second, &mut records) {
            Ok(opened) => Ok((Journal::on_two(opened, first, second), records)),
            Err(error) => {
                let disk = (first, second);
                Err(Failed { error, disk })
            }
        }
    }

    /// Opens a journal on one disk or on two, and gives its records to a reader, group by group. A failed call hands the disks back.
    #[tactic(auto, unfolding(crate::specs::Areas::stands_in))]
    pub fn open_store<R: Reader>(
        alloc: Global,
        store: Store<D>,
        reader: &mut R,
    ) -> Result<Journal<D>, Failed<JournalError, Store<D>>>
        ensures alive { IfOk result (λ journal. IsAlive D.device journal) }
        ensures records { OnOk result (TakesAll (λ records. R.takes reader.old records reader.new) (stands_in (areas_in D.device store))) }
        ensures same { IfOk result (λ journal. stands_in (areas_of D.device journal) ≡ stands_in (areas_in D.device store)) }
        ensures content { IfOk result (λ journal. IsOpenedOn D.device store journal) }

        // After an error the bytes are as before, unless the error is that a disk failed.
        ensures unchanged { IfErr result (λ failed. failed.error ≢ JournalError.Device → areas_in D.device failed.disk ≡ areas_in D.device store) }

        // The call returns as many disks as it was given. What a stop at any moment leaves of each was possible before, or is read as the
        // same.
        ensures any_moment { OpensAtEachMoment D.device store (disk_after store_of result) }

        ensures damaged { IfErr result (λ failed. (place : ℕ) → failed.error ≡ JournalError.Damaged place → stands_in (areas_in D.device store) ≡ Err place) }
        ensures never_full { IfErr result (λ failed. failed.error ≢ JournalError.Full) }
        ensures never_config { IfErr result (λ failed. failed.error ≢ JournalError.ConfigMismatch) }

        // The error is Device if and only if one of the disks has counted a failed call.
        ensures cause { ReportsFaultsBack (faults_in D.device) store_of JournalError.Device store result }
    {
        match store {
            Store::One(mut disk) => match repair(alloc, &mut disk, reader) {
                Ok(len) => Ok(Journal::on_one(disk, len)),
                Err(error) => Err(Failed {
                    error,
                    disk: Store::One(disk),
                }),
            },
            Store::Two(mut first, mut second) => {
                match open_areas(alloc, &mut first, &mut second, reader) {
                    Ok(opened) => Ok(Journal::on_two(opened, first, second)),
                    Err(error) => Err(Failed {
                        error,
                        disk: Store::Two(first, second),
                    }),
                }
            }
        }
    }

    // A journal on one disk, whose file has this length.
    fn on_one(disk: D, len: u64) -> Journal<D>
        ensures disk { disk_of result ≡ disk }
        ensures len { result.len ≡ len }
        ensures spare { spare_of result ≡ None }
    {
        Journal {
            disk,
            len,
            spare: None,
        }
    }

    // A journal on two disks, after both were opened.
    fn on_two(opened: Opened, first: D, second: D) -> Journal<D>
        ensures disk { disk_of result ≡ on_side opened.side first second }
        ensures len { result.len ≡ opened.len }
        ensures spare { spare_of result ≡ Some (spare_with (off_side opened.side first second) opened.side opened.generation) }
    {
        let Opened {
            side,
            generation,
            len,
        } = opened;
        let (disk, other) = side.before_other(first, second);
        let spare = Some(Spare {
            disk: other,
            side,
            generation,
        });
        Journal { disk, len, spare }
    }

    /// Appends a group. `Ok`: it is durable. `Full`: nothing has changed. `Device`: nothing can be appended to this journal any more, and
    /// the disk has to be opened again. The call allocates no memory.
    pub fn append(&mut self, group: Group) -> Result<Synced, JournalError>
        requires alive { IsAlive D.device self.old }

        // The first group of a new journal on two disks has only the configuration.
        requires first { IsSome (spare_of self.old) → D.device.content (disk_of self.old) ≡ CLOSED ∷ [] → generation_of group ≡ Some 0 }

        ensures alive { OnOk result (IsAlive D.device self.new) }
        ensures records { OnOk result (stands (D.device.content (disk_of self.new)) ≡ stands_with (D.device.content (disk_of self.old)) group) }
        ensures content { OnOk result (D.device.content (disk_of self.new) ≡ file_with (D.device.content (disk_of self.old)) group) }
        ensures synced { IfOk result (λ synced. synced ≡ group) }

        // What a stop at any moment of the call leaves is read as the earlier records, with all of the group's records after them or with
        // none.
        ensures any_moment { AtEachMoment D.device (disk_of self.old) (disk_of self.new) (IsBeforeOrAfter (D.device.content (disk_of self.old)) group) }

        ensures errors { IfErr result (λ error. (error ≡ JournalError.Device) ⊎ (error ≡ JournalError.Full)) }

        // The error is Device if and only if the disk has counted a failed call.
        ensures cause { ReportsFault JournalError.Device (D.device.faults (disk_of self.old)) (D.device.faults (disk_of self.new)) result }

        // After `Device` nothing can be appended any more.
        ensures dead { IsErrOf result JournalError.Device → ¬ IsAlive D.device self.new }

        // The disk has made the four calls that append a group; after an error, only the first ones of these.
        ensures calls { OnOk result (D.device.calls (disk_of self.new) ≡ D.device.calls (disk_of self.old) ++ append_calls (length (D.device.content (disk_of self.old))) group) }
        ensures calls_err { OnErr result (MadeSome (append_calls (length (D.device.content (disk_of self.old))) group) (D.device.calls (disk_of self.old)) (D.device.calls (disk_of self.new))) }

        ensures full { IsErrOf result JournalError.Full ↔ (MAX_JOURNAL_BYTES < length (D.device.content (disk_of self.old)) + length (group_bytes group)) }
        ensures unchanged { IsErrOf result JournalError.Full → self.new ≡ self.old }

        // The spare disk, if there is one, is untouched.
        ensures spare { spare_of self.new ≡ spare_of self.old }
    {
        let added = group.written_len();
        if added > MAX_JOURNAL_BYTES.saturating_sub(self.len) {
            group.discard();
            return Err(JournalError::Full);
        }
        if let Err(error) = write_group(&mut self.disk, self.len, &group) {
            group.discard();
            self.len = DEAD;
            return Err(error);
        }
        self.len += added;
        Ok(Synced {
            durable: Durable::Group(group),
        })
    }

    /// Writes a checkpoint into the spare area; that area is read from then on. `Full`: nothing has changed. `Device`: nothing can be
    /// written any more, and both disks have to be opened again. The call allocates no memory.
    pub fn rewrite(&mut self, mut snapshot: Snapshot) -> Result<Synced, JournalError>
        requires alive { IsAlive D.device self.old }
        requires pair { IsSome (spare_of self.old) }

        // The area that is read has its first group: the journal isn't a new one.
        requires begun { reports (D.device.content (disk_of self.old)) ≡ Some (Some (generation_in self.old)) }

        ensures alive { OnOk result (IsAlive D.device self.new) }
        ensures swapped { OnOk result (HaveChangedPlaces self.old self.new) }
        ensures content { OnOk result (D.device.content (disk_of self.new) ≡ OPEN ∷ bytes_for (generation_in self.old + 1) snapshot) }
        ensures records { OnOk result (stands_in (areas_of D.device self.new) ≡ stands_as (other_side (side_in self.old)) (generation_in self.old + 1) snapshot) }
        ensures synced { IfOk result (λ synced. synced ≡ snapshot) }

        // A stop at any moment of the call may leave the spare area half written. The two areas together are then read as the earlier
        // records or as the checkpoint.
        ensures any_moment { AtEachMoment D.device (spare_disk self.old) (rewritten_disk result self.new) (StandsAsOrAfter D.device self.old snapshot) }

        // The disk that was read so far is untouched, whatever the result.
        ensures untouched { untouched_disk result self.new ≡ disk_of self.old }

        ensures errors { IfErr result (λ error. (error ≡ JournalError.Device) ⊎ (error ≡ JournalError.Full)) }

        // The error is Device if and only if the disk that is written has counted a failed call.
        ensures cause { ReportsFault JournalError.Device (D.device.faults (spare_disk self.old)) (D.device.faults (rewritten_disk result self.new)) result }

        // After `Device` nothing can be written any more.
        ensures dead { IsErrOf result JournalError.Device → ¬ IsAlive D.device self.new }

        // The written disk has made the eight calls of a rewriting; after an error, only the first ones of these.
        ensures calls { OnOk result (D.device.calls (disk_of self.new) ≡ D.device.calls (spare_disk self.old) ++ rewrite_calls (bytes_for (generation_in self.old + 1) snapshot)) }
        ensures calls_err { OnErr result (MadeSome (rewrite_calls (bytes_for (generation_in self.old + 1) snapshot)) (D.device.calls (spare_disk self.old)) (D.device.calls (spare_disk self.new))) }

        ensures full { IsErrOf result JournalError.Full ↔ ((MAX_JOURNAL_BYTES < 1 + length (bytes_for (generation_in self.old + 1) snapshot)) ⊎ (generation_in self.old ≡ 2 ^ 64 - 1)) }
        ensures unchanged { IsErrOf result JournalError.Full → self.new ≡ self.old }

        // The journal stays on two disks. After an error each of them has kept its place.
        ensures keeps { OnErr result (HaveKeptPlaces self.old self.new) }
    {
        let Some(spare) = &mut self.spare else {
            unreachable!()
        };
        let len = snapshot.written_len();
        if len >= MAX_JOURNAL_BYTES || spare.generation == u64::MAX {
            snapshot.discard();
            return Err(JournalError::Full);
        }
        if let Err(error) = spare.rewrite(&mut self.disk, &mut snapshot) {
            snapshot.discard();
            self.len = DEAD;
            return Err(error);
        }
        self.len = 1 + len;
        Ok(Synced {
            durable: Durable::Snapshot(snapshot),
        })
    }

    /// Whether the journal is on two disks.
    pub fn is_pair(&self) -> bool
        ensures { IsTrue result ↔ IsSome (spare_of self.now) }
    {
        self.spare.is_some()
    }

    /// The generation of the area that is read: how often a journal on two disks was rewritten. It is 0 for a journal on one disk.
    pub fn generation(&self) -> u64
        ensures { result ≡ generation_in self.now }
    {
        match &self.spare {
            Some(spare) => spare.generation,
            None => 0,
        }
    }

    /// The length of the area that is read, in bytes.
    pub fn len(&self) -> u64
        requires { IsAlive D.device self.now }
        ensures { result ≡ length (D.device.content (disk_of self.now)) }
    {
        self.len
    }

    /// Ends a journal on two disks, and returns both in the order of their areas.
    pub fn into_disks(self) -> (D, D)
        requires { IsSome (spare_of self) }
        ensures { result ≡ by_area (side_in self) (disk_of self) (spare_disk self) }
    {
        let Journal {
            disk,
            len: _,
            spare,
        } = self;
        match spare {
            Some(spare) => spare.into_disks(disk),
            None => unreachable!(),
        }
    }

    /// Ends a journal, and returns the disks on which it was opened.
    pub fn into_store(self) -> Store<D>
        ensures { result ≡ store_of self }
    {
        let Journal {
            disk,
            len: _,
            spare,
        } = self;
        match spare {
            None => Store::One(disk),
            Some(spare) => {
                let (first, second) = spare.into_disks(disk);
                Store::Two(first, second)
            }
        }
    }

    /// Ends a journal on one disk, and returns the disk.
    pub fn into_disk(self) -> D
        requires { spare_of self ≡ None }
        ensures { result ≡ disk_of self }
    {
        let Journal {
            disk,
            len: _,
            spare,
        } = self;
        match spare {
            None => disk,
            Some(_) => unreachable!(),
        }
    }
}

// Writes a group after the closed gate that ends a file of this length, and then opens that gate.
fn write_group<D: Disk>(disk: &mut D, len: u64, group: &Group) -> Result<(), JournalError>
    requires ends_closed { EndsClosed (D.device.content disk.old) }
    requires len { len ≡ length (D.device.content disk.old) }
    requires room { len + length (group_bytes group.now) < 2 ^ 64 }
    requires durable { LeavesOnly (D.device.content disk.old) (D.device.outcome disk.old) }

    ensures ends_closed { OnOk result (EndsClosed (D.device.content disk.new)) }
    ensures fits { FitsGroup group.now }
    ensures len { OnOk result (length (D.device.content disk.new) ≡ len + length (group_bytes group.now)) }
    ensures records { OnOk result (stands (D.device.content disk.new) ≡ stands_with (D.device.content disk.old) group.now) }
    ensures content { OnOk result (D.device.content disk.new ≡ file_with (D.device.content disk.old) group.now) }
    ensures durable { OnOk result (LeavesOnly (D.device.content disk.new) (D.device.outcome disk.new)) }
    ensures any_moment { AtEachMoment D.device disk.old disk.new (IsBeforeOrAfter (D.device.content disk.old) group.now) }
    ensures errors { IfErr result (λ error. error ≡ JournalError.Device) }
    ensures cause { ReportsFault JournalError.Device (D.device.faults disk.old) (D.device.faults disk.new) result }
    ensures calls { OnOk result (D.device.calls disk.new ≡ D.device.calls disk.old ++ append_calls len group.now) }
    ensures calls_err { OnErr result (MadeSome (append_calls len group.now) (D.device.calls disk.old) (D.device.calls disk.new)) }
{
    disk.write_at(len, group.bytes())?;
    // The group has to be durable before its gate is opened.
    disk.sync()?;
    disk.write_at(len - 1, &[OPEN])?;
    disk.sync()?;
    Ok(())
}

// Opens one disk: gives its records to a reader, leaves the file with a closed gate at its end, and returns the file's length.
fn repair<D: Disk, R: Reader>(
    alloc: Global,
    disk: &mut D,
    reader: &mut R,
) -> Result<u64, JournalError>
    ensures ends_closed { OnOk result (EndsClosed (D.device.content disk.new)) }
    ensures len { IfOk result (λ len. len ≡ length (D.device.content disk.new)) }
    ensures records { OnOk result (TakesAll (λ records. R.takes reader.old records reader.new) (stands (D.device.content disk.old))) }
    ensures same { OnOk result (stands (D.device.content disk.new) ≡ stands (D.device.content disk.old)) }
    ensures content { OnOk result (IsClosedUp (D.device.content disk.old) (D.device.content disk.new)) }
    ensures unchanged { IfErr result (λ error. error ≢ JournalError.Device → D.device.content disk.new ≡ D.device.content disk.old) }
    ensures durable { OnOk result (LeavesOnly (D.device.content disk.new) (D.device.outcome disk.new)) }
    ensures any_moment { AtEachMoment D.device disk.old disk.new (StandsAsOneOf (D.device.outcome disk.old)) }
    ensures damaged { (gate : ℕ) → IsErrOf result (JournalError.Damaged gate) → stands (D.device.content disk.old) ≡ Err gate }
    ensures cause { ReportsFault JournalError.Device (D.device.faults disk.old) (D.device.faults disk.new) result }
    ensures never_full { IfErr result (λ error. error ≢ JournalError.Full) }
    ensures never_config { IfErr result (λ error. error ≢ JournalError.ConfigMismatch) }
{
    // Each gate has to be durable before it is read.
    disk.sync()?;
    let (gate, len) = read_area(alloc, Side::First, disk, reader)?;
    close_end(disk, len, gate)?;
    Ok(gate + 1)
}

// Cuts a file after the closed gate at this place, and makes that durable. The file has this length before.
pub(crate) fn close_end<D: Disk>(disk: &mut D, len: u64, gate: u64) -> Result<(), JournalError>
    requires len { len ≡ length (D.device.content disk.old) }
    requires found { ScansTo (D.device.content disk.old) gate }
    requires durable { LeavesOnly (D.device.content disk.old) (D.device.outcome disk.old) }

    ensures ends_closed { OnOk result (EndsClosed (D.device.content disk.new)) }
    ensures len { OnOk result (length (D.device.content disk.new) ≡ gate + 1) }
    ensures content { OnOk result (IsClosedUp (D.device.content disk.old) (D.device.content disk.new)) }
    ensures records { OnOk result (stands (D.device.content disk.new) ≡ stands (D.device.content disk.old)) }
    ensures durable { OnOk result (LeavesOnly (D.device.content disk.new) (D.device.outcome disk.new)) }
    ensures any_moment { AtEachMoment D.device disk.old disk.new (λ left. stands left ≡ stands (D.device.content disk.old)) }
    ensures reports { OnOk result (reports (D.device.content disk.new) ≡ reports (D.device.content disk.old)) }
    ensures reporting { AtEachMoment D.device disk.old disk.new (λ left. reports left ≡ reports (D.device.content disk.old)) }
    ensures errors { IfErr result (λ error. error ≡ JournalError.Device) }
    ensures cause { ReportsFault JournalError.Device (D.device.faults disk.old) (D.device.faults disk.new) result }
{
    if len < 2 {
        disk.write_at(0, &[CLOSED])?;
        disk.sync()?;
    } else if len - 1 > gate {
        disk.cut(gate + 1)?;
        disk.sync()?;
    }
    Ok(())
}
