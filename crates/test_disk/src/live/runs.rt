//! Runs of a node over disks in memory, with given input.

use crate::live::answers::{report_seen, report_sum};
use crate::live::ending::Ending;
use crate::live::file_runs::run_files;
use crate::live::journals::found_on;
use crate::live::left::{report_node, report_rewritten};
use crate::live::rounds::OtherRounds;
use crate::live::streams::{Lines, NoClock, Output, Seen, Step, Steps};
use crate::live::words::{Reported, bad, call_of, joined, put_count, put_len};
use diskmodel::{CallKind, MemDisk, Switch};
use journal::Store;
use node_io::Blocking;
use node_run::{CHECKPOINT_BYTES, Ran, run_over};
use std::alloc::{AllocError, Global};
use std::collections::VecDeque;
use std::fs::File;
use std::mem;
use std::rt::Files;
use std::sync::{Mutex, Wait};
use std::thread::Threads;

/// What the next run of a test case is given.
#[derive(Drop)]
pub struct Runs {
    alloc: Global,
    text: String,
    // The number of the node's own member; 0 if the test case gives none.
    own: Option<String>,
    disk: Vec<u8>,
    // The bytes of the second disk, if the journal is on two disks.
    second: Option<Vec<u8>>,
    // How many bytes the area that is read grows by before a checkpoint is made.
    every: u64,
    rounds: Option<OtherRounds>,
    failing: Option<(CallKind, u64)>,
    steps: VecDeque<Step>,
    blocks: u64,
    is_broken: bool,
}

impl Runs {
    /// The state of a new test case: an empty committee file, an empty disk, and a reader without bytes.
    pub fn new(alloc: Global) -> Runs {
        Runs {
            alloc,
            text: String::new(alloc),
            own: None,
            disk: Vec::new(alloc),
            second: None,
            every: CHECKPOINT_BYTES,
            rounds: None,
            failing: None,
            steps: VecDeque::new(alloc),
            blocks: 0,
            is_broken: false,
        }
    }

    /// Carries out a command, and adds the lines of its answer.
    pub fn obey<R: Files<File = File> + AllocGlobal + Threads + Wait + Sync>(
        &mut self,
        rt: &R,
        name: &str,
        words: &str,
        answer: &mut String,
    ) -> Reported {
        match name {
            "run" => self.run(rt, answer),
            "sum" => self.sum(rt, answer),
            "opened" => self.report_opened(rt, answer),
            "files" => run_files(rt, self.alloc, words, answer),
            _ => self.prepare(name, words, answer),
        }
    }

    fn prepare(&mut self, name: &str, words: &str, answer: &mut String) -> Reported {
        match name {
            "length" => self.report_lengths(answer),
            "areas" => return self.report_areas(answer),
            "rewritten" => report_rewritten(self.alloc, self.store()?, words, answer),
            "pair" => self.second = Some(Vec::new(self.alloc)),
            "every" => self.every = words.parse().unwrap_or(CHECKPOINT_BYTES),
            "rounds" => return Ending::write_to(self.add_rounds(words), answer),
            "text" => return self.put_line(words),
            "own" => return self.set_own(words),
            "fail" => self.fail(words, answer),
            "broken" => self.is_broken = true,
            "busy" => self.blocks = words.parse::<u64>().unwrap_or(0),
            _ => return self.put_step(name, words, answer),
        }
        Ok(())
    }

    fn put_step(&mut self, name: &str, words: &str, answer: &mut String) -> Reported {
        match (name, words.parse::<usize>()) {
            ("await", Ok(count)) => self.add(Step::Await(count)),
            ("block", _) => self.add(Step::Block),
            ("error", _) => self.add(Step::Fail),
            _ => self.put_bytes(name, words, answer),
        }
    }

    fn put_bytes(&mut self, name: &str, words: &str, answer: &mut String) -> Reported {
        let Some(bytes) = joined(self.alloc, words)? else {
            bad(answer);
            return Ok(());
        };
        match name {
            "disk" => self.disk = bytes,
            "give" => return self.add(Step::Give(bytes)),
            "repeat" => return self.add(Step::Repeat(bytes)),
            _ => bad(answer),
        }
        Ok(())
    }

    fn add(&mut self, step: Step) -> Reported {
        self.steps.push_back(step)?;
        Ok(())
    }

    fn set_own(&mut self, words: &str) -> Reported {
        self.own = Some(String::from_str(self.alloc, words)?);
        Ok(())
    }

    // Adds one more line to the text of the committee file.
    fn put_line(&mut self, words: &str) -> Reported {
        self.text.push_str(words)?;
        self.text.push_str("\n")
    }

    fn fail(&mut self, words: &str, answer: &mut String) {
        let (kind, count) = words.split_once(' ').unwrap_or((words, "1"));
        match call_of(kind) {
            Some(call) => self.failing = Some((call, count.parse::<u64>().unwrap_or(0))),
            None => bad(answer),
        }
    }

    // Adds the frames of this many more rounds of the other members to what the run reads.
    fn add_rounds(&mut self, words: &str) -> Result<(), Ending> {
        let mut rounds = match self.rounds.take() {
            Some(rounds) => rounds,
            None => OtherRounds::new(self.alloc)?,
        };
        self.add(Step::Give(rounds.next(words.parse().unwrap_or(0))?))?;
        self.rounds = Some(rounds);
        Ok(())
    }

    // Runs a node on the disks. Shows a line for each output, and how many events the journal holds then.
    fn run<R: Threads + Wait + Sync>(&mut self, rt: &R, answer: &mut String) -> Reported {
        let (status, seen) = self.carry_out(rt)?;
        report_seen(self.alloc, &seen, answer);
        put_count(answer, "status ", status as u64, ", ");
        self.report_events(answer)
    }

    // Runs a node on the disks, and shows a checksum over the outputs.
    fn sum<R: Threads + Wait + Sync>(&mut self, rt: &R, answer: &mut String) -> Reported {
        let (status, seen) = self.carry_out(rt)?;
        report_sum(self.alloc, &seen, answer);
        put_count(answer, "status ", status as u64, "\n");
        Ok(())
    }

    // Runs a node on the disks, and keeps the bytes that it leaves on them for the next run.
    fn carry_out<R: Threads + Wait + Sync>(&mut self, rt: &R) -> Result<(u8, Seen), AllocError> {
        let switch = Switch::new(self.alloc)?;
        let store = self.store_with(&switch)?;
        if let Some((kind, count)) = self.failing.take() {
            let _ = switch.fail(kind, count);
        }
        let steps = mem::replace(&mut self.steps, VecDeque::new(self.alloc));
        let seen = Mutex::new(Seen::new(self.alloc, self.blocks, self.is_broken));
        let (status, left) = self.run_steps(rt, store, steps, &seen);
        self.keep(left)?;
        Ok((status, seen.into_inner()))
    }

    // Runs a node. Returns the exit status, and the disks if the run gives them back.
    fn run_steps<R: Threads + Wait + Sync>(
        &self,
        rt: &R,
        store: Store<MemDisk>,
        steps: VecDeque<Step>,
        seen: &Mutex<Seen>,
    ) -> (u8, Option<Store<MemDisk>>) {
        let (alloc, member, every) = (self.alloc, self.member(), self.every);
        let reader = Blocking::new(&NoClock, Steps::new(rt, seen, steps));
        let writer = Blocking::new(&NoClock, Output { rt, seen });
        let mut lines = Lines { rt, seen };
        let Ran {
            ending,
            store,
            writer: _,
        } = run_over(rt, alloc, member, store, every, reader, writer, &mut lines);
        (ending.status(), store)
    }

    // The text of the committee file, and the number of the node's own member.
    fn member(&self) -> (&[u8], &str) {
        let own = match &self.own {
            Some(own) => own.as_str(),
            None => "0",
        };
        (self.text.as_bytes(), own)
    }

    // The one disk or the two disks of the run.
    fn store(&self) -> Result<Store<MemDisk>, AllocError> {
        self.store_with(&Switch::new(self.alloc)?)
    }

    // The same disks, with a switch that can set their calls to fail.
    fn store_with(&self, switch: &Switch) -> Result<Store<MemDisk>, AllocError> {
        let first = switched_disk(self.alloc, &self.disk, switch)?;
        match &self.second {
            Some(bytes) => Ok(Store::Two(first, switched_disk(self.alloc, bytes, switch)?)),
            None => Ok(Store::One(first)),
        }
    }

    // Keeps the bytes of the disks; no bytes if the disks are lost.
    fn keep(&mut self, left: Option<Store<MemDisk>>) -> Reported {
        self.disk.clear();
        match left {
            Some(Store::One(disk)) => self.disk = disk.bytes().to_vec(self.alloc)?,
            Some(Store::Two(first, second)) => {
                self.disk = first.bytes().to_vec(self.alloc)?;
                self.second = Some(second.bytes().to_vec(self.alloc)?);
            }
            None => (),
        }
        Ok(())
    }

    fn report_lengths(&self, answer: &mut String) {
        put_len(answer, &self.disk);
        if let Some(second) = &self.second {
            put_len(answer, second);
        }
    }

    // Adds how many events the journal holds.
    fn report_events(&self, answer: &mut String) -> Reported {
        match found_on(self.alloc, self.store()?) {
            Some(found) if !found.records.is_empty() => {
                let (count, _) = found.events();
                put_count(answer, "", count, " events\n");
                Ok(())
            }
            _ => answer.push_str("no events\n"),
        }
    }

    // Adds the length of the area that an opening reads, and that of the other area.
    fn report_areas(&self, answer: &mut String) -> Reported {
        let Some(found) = found_on(self.alloc, self.store()?) else {
            return answer.push_str("no journal\n");
        };
        let second = self.second.as_ref().map_or(0, |bytes| bytes.len());
        let all = (self.disk.len() as u64).saturating_add(second as u64);
        put_count(answer, "", found.len, " bytes are read, ");
        put_count(answer, "", all.saturating_sub(found.len), " are not\n");
        Ok(())
    }

    // Opens a node on the disks, and adds what the node shows.
    fn report_opened<R: Wait>(&self, rt: &R, answer: &mut String) -> Reported {
        Ending::write_to(report_node(rt, self.alloc, self.store()?, answer), answer)
    }
}

// A disk with these bytes, whose calls the switch can set to fail.
fn switched_disk(alloc: Global, bytes: &[u8], switch: &Switch) -> Result<MemDisk, AllocError> {
    MemDisk::with_switch(alloc, bytes.to_vec(alloc)?, switch)
}
