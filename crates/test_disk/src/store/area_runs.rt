//! Carries out a list of steps on a journal on two areas with the running code (not with a model).

ghost use Rattle.std.specs.Prelude.{◌≡◌, ◌≤◌, true, length, IsSome, Some, IfOk, IfSome};
ghost use Rattle.journal.specs.Areas.{generation_of};
ghost use Rattle.journal.specs.Journal.{disk_of, spare_of, IsAlive};

use crate::store::area_disks::Disks;
use crate::store::area_steps::Step;
use crate::store::areas::Listed;
use crate::store::headers::{event, message_in};
use crate::store::words::{Reported, parted, put, put_count, put_shown};
use book::EVENT_RECORD;
use checkpoint::{configuration_record, kept_records};
use diskmodel::{CallKind, Disk, KeptBytes, MemDisk, Switch};
use journal::{Group, Journal, Record, Snapshot, Version, shaped_version};
use sigface::HashSign;
use std::alloc::{AllocError, Global};
use std::collections::VecDeque;
use validator::{Config, Refusal, Step as Stepped, Validator};

/// The device calls of an append, each as its kind and its number among the calls of that kind.
const APPEND: [(CallKind, u64); 4] = [
    (CallKind::Write, 1),
    (CallKind::Sync, 1),
    (CallKind::Write, 2),
    (CallKind::Sync, 2),
];

/// The device calls of a rewriting of the spare area, in the same form.
const REWRITING: [(CallKind, u64); 8] = [
    (CallKind::Write, 1),
    (CallKind::Sync, 1),
    (CallKind::Cut, 1),
    (CallKind::Sync, 2),
    (CallKind::Write, 2),
    (CallKind::Sync, 3),
    (CallKind::Write, 3),
    (CallKind::Sync, 4),
];

/// The state of a list of steps that isn't on the disks: the validator, and what was accepted, taken and written.
#[derive(Drop)]
pub struct Run<'l, 'a> {
    alloc: Global,
    config: &'a Config<HashSign>,
    events: &'l [Listed],
    switch: Switch,
    validator: Validator<'a, HashSign>,
    /// The numbers of all events that were accepted, over all runs; and how many of these events are on the disk.
    history: Vec<usize>,
    written: usize,
    /// For each group in flight the number of its events; and how many of these groups are written.
    groups: VecDeque<usize>,
    groups_written: usize,
    /// How many events the checkpoint of each generation of the areas stands for.
    bases: Vec<usize>,
    /// The records of a checkpoint that was taken and isn't yet written.
    snapshot: Vec<Vec<u8>>,
}

impl<'l, 'a> Run<'l, 'a> {
    /// The state before the first opening.
    pub fn new(
        alloc: Global,
        config: &'a Config<HashSign>,
        events: &'l [Listed],
    ) -> Result<Run<'l, 'a>, AllocError> {
        Ok(Run {
            alloc,
            config,
            events,
            switch: Switch::new(alloc)?,
            validator: Validator::new(alloc, config)?,
            history: Vec::new(alloc),
            written: 0,
            groups: VecDeque::new(alloc),
            groups_written: 0,
            bases: vec![in alloc; 0]?,
            snapshot: Vec::new(alloc),
        })
    }

    /// Makes the steps, beginning with two empty areas, and adds the result of each step.
    pub fn play(&mut self, steps: &[Step], answer: &mut String) -> Reported {
        let mut disks = Disks::new(self.alloc, &self.switch)?;
        let mut place = 0usize;
        for _ in 0..steps.len() {
            let Some(step) = steps.get(place) else {
                break;
            };
            place = place.saturating_add(1);
            match step {
                Step::Open(kind, count) => {
                    self.report_call(*kind, *count);
                    let after = steps.get(place..).unwrap_or(&[]);
                    let (left, made) = self.open(disks, after, answer)?;
                    disks = left;
                    place = place.saturating_add(made);
                }
                Step::Stop(first, second) if disks.stop(self.alloc, *first, *second)? => {}
                _ => put_word(answer, "bad"),
            }
        }
        put_line(answer);
        Ok(())
    }

    /// Sets a device call to fail: the `count`-th one of its kind from now on; 0 sets none.
    fn report_call(&self, kind: CallKind, count: u64) {
        if count > 0 {
            let _ = self.switch.fail(kind, count);
        }
    }

    /// Sets one of these device calls to fail, by its place in the list counted from 1; 0 sets none.
    fn report_one(&self, calls: &[(CallKind, u64)], call: u64) {
        if call > 0
            && let Some((kind, count)) = calls.get((call - 1) as usize)
        {
            self.report_call(*kind, *count);
        }
    }

    // ---- openings

    /// Opens both areas, and makes the following steps until the machine stops. Returns how many of the steps it made.
    fn open(
        &mut self,
        disks: Disks,
        steps: &[Step],
        answer: &mut String,
    ) -> Result<(Disks, usize), AllocError> {
        let Disks { first, second } = disks;
        match Journal::open_pair(self.alloc, first, second) {
            Ok((mut journal, records)) => {
                let made = self.begin(&mut journal, &records, steps, answer);
                let (first, second) = journal.into_disks();
                Ok((Disks { first, second }, made?))
            }
            Err(failed) => {
                put_word(answer, "!");
                let (first, second) = failed.disk;
                Ok((Disks { first, second }, 0))
            }
        }
    }

    /// Begins a run with the records that an opening read. A journal without a record first gets its configuration.
    fn begin(
        &mut self,
        journal: &mut Journal<MemDisk>,
        records: &[Record],
        steps: &[Step],
        answer: &mut String,
    ) -> Result<usize, AllocError>
        requires alive { IsAlive ⟦<MemDisk as Disk>⟧.device journal.old }
        requires pair { IsSome (spare_of journal.old) }
        ensures pair { IsSome (spare_of journal.new) }
    {
        if !records.is_empty() {
            self.find(journal.generation(), records, answer)?;
            return self.go_on(journal, steps, answer);
        }
        let configuration = own_configuration(self.alloc, self.config)?;
        let first = Record {
            gate: 0,
            bytes: KeptBytes::from_vec(configuration.to_vec(self.alloc)?),
        };
        if !add_first(self.alloc, journal, configuration)? {
            put_word(answer, "!");
            return Ok(0);
        }
        self.find(0, &vec![in self.alloc; first]?, answer)?;
        self.go_on(journal, steps, answer)
    }

    /// Adds what an opening read: the generation, how many records precede the events, a checksum over those records, and the numbers of
    /// the events. Sets the state to the one after these events.
    fn find(&mut self, generation: u64, records: &[Record], answer: &mut String) -> Reported {
        let front = records
            .iter()
            .position(|record| record.bytes.as_slice().first() == Some(&EVENT_RECORD))
            .unwrap_or(records.len());
        put_line(answer);
        put_count(answer, "opened ", generation, "");
        put_count(answer, " ", front as u64, "");
        put_count(answer, " ", u64::from(sum_of(records, front)), "");
        let events = records.get(front..).unwrap_or(&[]);
        for record in events {
            put_event(answer, self.events, record);
        }
        put(answer, "\n");
        self.go_back(generation as usize, events.len())
    }

    /// Sets the state to the one after the checkpoint of this generation and this many events more.
    fn go_back(&mut self, generation: usize, events: usize) -> Reported {
        let base = self.bases.get(generation).copied().unwrap_or(0);
        self.bases.truncate(generation.saturating_add(1));
        self.history.truncate(base.saturating_add(events));
        self.written = self.history.len();
        self.groups.clear();
        self.groups_written = 0;
        self.validator = Validator::new(self.alloc, self.config)?;
        for place in 0..self.history.len() {
            self.replay(place)?;
        }
        Ok(())
    }

    fn replay(&mut self, place: usize) -> Reported {
        if let Some(number) = self.history.get(place).copied() {
            let _ = self.arrive(number)?;
        }
        Ok(())
    }

    // ---- steps

    /// Makes steps until the machine stops or a device call fails. Returns how many steps it made.
    fn go_on<D: Disk>(
        &mut self,
        journal: &mut Journal<D>,
        steps: &[Step],
        answer: &mut String,
    ) -> Result<usize, AllocError>
        requires alive { IsAlive D.device journal.old }
        requires pair { IsSome (spare_of journal.old) }
        ensures pair { IsSome (spare_of journal.new) }
    {
        let mut made = 0usize;
        for step in steps {
            if matches!(step, Step::Stop(..)) {
                break;
            }
            made = made.saturating_add(1);
            if !self.make(journal, *step, answer)? {
                break;
            }
        }
        Ok(made)
    }

    /// Makes a step. Returns whether the run goes on: whether no device call failed.
    fn make<D: Disk>(
        &mut self,
        journal: &mut Journal<D>,
        step: Step,
        answer: &mut String,
    ) -> Result<bool, AllocError>
        requires alive { IsAlive D.device journal.old }
        requires pair { IsSome (spare_of journal.old) }
        ensures alive { IfOk result (λ goes_on. goes_on ≡ true → IsAlive D.device journal.new) }
        ensures pair { IsSome (spare_of journal.new) }
    {
        match step {
            Step::Append(call) => return self.append(journal, call, answer),
            Step::Rewrite(call) => return self.rewrite(journal, call, answer),
            Step::TakeAll => self.take_all(journal.generation() as usize, answer)?,
            _ => self.make_alone(step, answer)?,
        }
        Ok(true)
    }

    /// Makes a step for which no journal is needed.
    fn make_alone(&mut self, step: Step, answer: &mut String) -> Reported {
        match step {
            Step::Accept(number) => return self.accept(number, answer),
            Step::Take(count) => self.groups.push_back(count)?,
            Step::Settle => {
                let _ = self.groups.pop_front();
                self.groups_written = self.groups_written.saturating_sub(1);
            }
            Step::SettleAll => {}
            _ => put_word(answer, "bad"),
        }
        Ok(())
    }

    /// Gives the validator the event with this number. Adds whether the event is new or known, or why it is refused.
    fn accept(&mut self, number: usize, answer: &mut String) -> Reported {
        match self.arrive(number)? {
            Some(Ok(Stepped::New(_))) => {
                self.history.push(number)?;
                put_word(answer, "n");
            }
            Some(Ok(Stepped::Known(_))) => put_word(answer, "k"),
            Some(Err(refusal)) => {
                let mut text = String::new(self.alloc);
                put_shown(&mut text, "", &refusal, "");
                put_word(answer, "-");
                put(answer, parted(text.as_str()).0);
            }
            None => put_word(answer, "bad"),
        }
        Ok(())
    }

    /// Gives the validator the event with this number, if there is such an event.
    fn arrive(&mut self, number: usize) -> Result<Option<Result<Stepped, Refusal>>, AllocError> {
        let Some(listed) = self.events.get(number) else {
            return Ok(None);
        };
        let Some(message) = message_in(self.alloc, &listed.message)? else {
            return Ok(None);
        };
        match event(self.validator.committee(), listed.sender, message) {
            Some(event) => Ok(Some(self.validator.step(event))),
            None => Ok(None),
        }
    }

    /// Takes all accepted events for a checkpoint of the next generation. Adds how many records the checkpoint has.
    fn take_all(&mut self, generation: usize, answer: &mut String) -> Reported {
        self.snapshot = kept_records(self.alloc, self.config.own(), self.validator.tables())?;
        self.bases.truncate(generation.saturating_add(1));
        self.bases.push(self.history.len())?;
        put_word(answer, "c");
        put_count(answer, "", self.snapshot.len() as u64, "");
        Ok(())
    }

    // ---- writing

    /// The records of the first group in flight that isn't written yet.
    fn group(&self) -> Result<Vec<Vec<u8>>, AllocError> {
        let count = self.groups.get(self.groups_written).copied().unwrap_or(0);
        let mut records = Vec::new(self.alloc);
        for number in self.history.iter().skip(self.written).take(count) {
            if let Some(listed) = self.events.get(*number) {
                records.push(listed.record.to_vec(self.alloc)?)?;
            }
        }
        Ok(records)
    }

    /// Appends the first group in flight that isn't written yet; one of the device calls may be set to fail. Returns whether none failed.
    fn append<D: Disk>(
        &mut self,
        journal: &mut Journal<D>,
        call: u64,
        answer: &mut String,
    ) -> Result<bool, AllocError>
        requires alive { IsAlive D.device journal.old }
        requires pair { IsSome (spare_of journal.old) }
        ensures alive { IfOk result (λ goes_on. goes_on ≡ true → IsAlive D.device journal.new) }
        ensures pair { IsSome (spare_of journal.new) }
    {
        if journal.len() < 2 {
            put_word(answer, "bad");
            return Ok(true);
        }
        let Some(group) = Group::new(self.alloc, self.group()?)? else {
            put_word(answer, "bad");
            return Ok(true);
        };
        let count = group.records_count() as usize;
        self.report_one(&APPEND, call);
        if !append_to(journal, group, answer) {
            return Ok(false);
        }
        self.written = self.written.saturating_add(count);
        self.groups_written = self.groups_written.saturating_add(1);
        Ok(true)
    }

    /// Rewrites the spare area to the checkpoint that was taken; one of the device calls may be set to fail. Returns whether none failed.
    fn rewrite<D: Disk>(
        &mut self,
        journal: &mut Journal<D>,
        call: u64,
        answer: &mut String,
    ) -> Result<bool, AllocError>
        requires alive { IsAlive D.device journal.old }
        requires pair { IsSome (spare_of journal.old) }
        ensures alive { IfOk result (λ goes_on. goes_on ≡ true → IsAlive D.device journal.new) }
        ensures pair { IsSome (spare_of journal.new) }
    {
        if journal.len() < 2 {
            put_word(answer, "bad");
            return Ok(true);
        }
        let Some(snapshot) = snapshot_of(self.alloc, &self.snapshot)? else {
            put_word(answer, "bad");
            return Ok(true);
        };
        self.report_one(&REWRITING, call);
        if !rewrite_to(journal, snapshot, answer) {
            return Ok(false);
        }
        self.written = self.bases.last().copied().unwrap_or(0);
        Ok(true)
    }
}

/// Appends a group. Adds how many records the group has, or that a device call failed; returns whether none failed.
fn append_to<D: Disk>(journal: &mut Journal<D>, group: Group, answer: &mut String) -> bool
    requires alive { IsAlive D.device journal.old }
    requires pair { IsSome (spare_of journal.old) }
    requires begun { 2 ≤ length (D.device.content (disk_of journal.old)) }
    ensures alive { result ≡ true → IsAlive D.device journal.new }
    ensures pair { IsSome (spare_of journal.new) }
{
    match journal.append(group) {
        Ok(synced) => {
            put_word(answer, "+");
            put_count(answer, "", synced.records(), "");
            true
        }
        Err(_) => {
            put_word(answer, "!");
            false
        }
    }
}

/// Rewrites the spare area. Adds the new generation, or that a device call failed; returns whether none failed.
#[tactic(auto, using(crate::proofs::Begun::begun))]
fn rewrite_to<D: Disk>(journal: &mut Journal<D>, snapshot: Snapshot, answer: &mut String) -> bool
    requires alive { IsAlive D.device journal.old }
    requires pair { IsSome (spare_of journal.old) }
    requires begun { 2 ≤ length (D.device.content (disk_of journal.old)) }
    ensures alive { result ≡ true → IsAlive D.device journal.new }
    ensures pair { IsSome (spare_of journal.new) }
{
    match journal.rewrite(snapshot) {
        Ok(synced) => {
            let _ = synced.records();
            put_word(answer, "g");
            put_count(answer, "", journal.generation(), "");
            true
        }
        Err(_) => {
            put_word(answer, "!");
            false
        }
    }
}

/// The checkpoint with these records, if they are the records of a checkpoint.
fn snapshot_of(alloc: Global, records: &[Vec<u8>]) -> Result<Option<Snapshot>, AllocError> {
    if !records.is_empty() && shaped_version(&records[0]).is_none() {
        return Ok(None);
    }
    Snapshot::new(alloc, records)
}

/// The bytes of the configuration's record in the node's journal.
pub fn own_configuration(alloc: Global, config: &Config<HashSign>) -> Result<Vec<u8>, AllocError> {
    configuration_record(alloc, Version::Second, config.committee(), config.own())
}

/// Appends a group that has only the configuration's record. Returns whether no device call failed.
pub fn add_first(
    alloc: Global,
    journal: &mut Journal<MemDisk>,
    configuration: Vec<u8>,
) -> Result<bool, AllocError>
    requires alive { IsAlive ⟦<MemDisk as Disk>⟧.device journal.old }
    requires pair { IsSome (spare_of journal.old) }
    ensures alive { IfOk result (λ goes_on. goes_on ≡ true → IsAlive ⟦<MemDisk as Disk>⟧.device journal.new) }
    ensures pair { IsSome (spare_of journal.new) }
{
    let Some(group) = first_group(alloc, configuration)? else {
        return Ok(false);
    };
    match journal.append(group) {
        Ok(synced) => Ok(synced.records() == 1),
        Err(_) => Ok(false),
    }
}

/// The group that has only the configuration's record, if these bytes are one.
#[tactic(auto, using(crate::proofs::Begun::alone))]
fn first_group(alloc: Global, configuration: Vec<u8>) -> Result<Option<Group>, AllocError>
    ensures { IfOk result (λ found. IfSome found (λ group. generation_of group ≡ Some 0)) }
{
    if shaped_version(&configuration).is_none() {
        return Ok(None);
    }
    let records = vec![in alloc; configuration]?;
    let Some(group) = Group::new(alloc, records)? else {
        return Ok(None);
    };
    Ok(Some(group))
}

// ---- the parts of answers

/// Adds a word to a line.
fn put_word(answer: &mut String, word: &str) {
    if !answer.as_str().is_empty() && !answer.as_str().ends_with("\n") {
        put(answer, " ");
    }
    put(answer, word);
}

/// Ends the line, if there is one.
fn put_line(answer: &mut String) {
    if !answer.as_str().is_empty() && !answer.as_str().ends_with("\n") {
        put(answer, "\n");
    }
}

/// Adds the number of the event in a record.
fn put_event(answer: &mut String, events: &[Listed], record: &Record) {
    let number = events.iter().position(|listed| listed.record.as_slice()
        == record.bytes.as_slice());
    match number {
        Some(number) => put_count(answer, " ", number as u64, ""),
        None => put(answer, " none"),
    }
}

/// A checksum over the bytes of the first `count` records, FNV-1a of 32 bits.
fn sum_of(records: &[Record], count: usize) -> u32 {
    let mut sum = 2_166_136_261;
    for record in records.iter().take(count) {
        sum = sum_with(sum, record.bytes.as_slice());
    }
    sum
}

fn sum_with(sum: u32, bytes: &[u8]) -> u32 {
    let mut sum = sum;
    for byte in bytes {
        sum = (sum ^ u32::from(*byte)).wrapping_mul(16_777_619);
    }
    sum
}
