//! A history: a validator that is given events, and validators that are loaded from its checkpoint's records in between and given the same
//! events.

use crate::histories::answers::{answered, looked};
use crate::histories::counts::Counts;
use crate::histories::labelled::label_genesis;
use crate::histories::loaded::Loaded;
use crate::loading::{kept_records, loaded, report_error};
use sigface::HashSign;
use sim_script::{Command, FormError, Labels, define_batch, define_header, parse};
use std::alloc::{AllocError, Global};
use test_cases::Reported;
use validator::{Config, LoadError, Validator};

/// After how many events another validator is loaded.
const BETWEEN: u64 = 5;

/// The validator that is given all events, and those that were loaded from its checkpoint's records, the oldest first.
#[derive(Drop)]
pub struct History<'c> {
    alloc: Global,
    config: &'c Config<HashSign>,
    labels: Labels,
    validator: Validator<'c, HashSign>,
    loaded: Vec<Loaded<'c>>,
    counts: Counts,
    /// How many events the validator was given.
    events: u64,
    /// How many of the events were new.
    new: u64,
}

impl<'c> History<'c> {
    /// A history before its first event; `counts` are those of the histories before it.
    pub fn new(
        alloc: Global,
        config: &'c Config<HashSign>,
        counts: Counts,
    ) -> Result<History<'c>, FormError> {
        let mut labels = Labels::new(alloc);
        label_genesis(alloc, &mut labels, config.committee().size())?;
        Ok(History {
            alloc,
            config,
            labels,
            validator: Validator::new(alloc, config)?,
            loaded: Vec::new(alloc),
            counts,
            events: 0,
            new: 0,
        })
    }

    /// The counts of the validators that were loaded so far, in this history and before.
    pub fn counts(&self) -> Counts {
        self.counts
    }

    /// Carries out a command of the history, and adds the lines of its answer.
    pub fn obey(&mut self, command: &str, answer: &mut String) -> Result<(), FormError> {
        let (name, _) = command.split_once(' ').unwrap_or((command, ""));
        match name {
            "floor" | "round" | "order" | "propose" => Ok(self.look(name, answer)?),
            "flush" => Ok(writeln!(answer, "settled {}", self.new)?),
            "pack" | "form" => self.define(command),
            _ => self.take(command, answer),
        }
    }

    fn define(&mut self, command: &str) -> Result<(), FormError> {
        match parse(command.as_bytes()) {
            Some(Command::Pack(pack)) => define_batch(self.alloc, &mut self.labels, &pack),
            Some(Command::Form(form)) => define_header(self.alloc, &mut self.labels, &form),
            _ => Err(FormError::BadCommand),
        }
    }

    /// Shows something of the validator. Each loaded validator has to show the same.
    fn look(&self, name: &str, answer: &mut String) -> Reported {
        let reported = looked(self.alloc, &self.labels, &self.validator, name)?;
        answer.push_str(reported.as_str())?;
        for one in &self.loaded {
            one.look(&self.labels, name, reported.as_str(), answer)?;
        }
        Ok(())
    }

    /// Gives the event of a line to all validators. Before the first event, and then after each `BETWEEN` events, one more validator is
    /// loaded.
    fn take(&mut self, line: &str, answer: &mut String) -> Result<(), FormError> {
        if self.events % BETWEEN == 0 {
            self.load(answer)?;
        }
        let reported = answered(
            self.alloc,
            &self.labels,
            &mut self.validator,
            line,
            self.new,
        )?;
        answer.push_str(reported.lines.as_str())?;
        self.take_loaded(line, reported.lines.as_str(), answer)?;
        self.events = self.events.saturating_add(1);
        self.new = self.new.saturating_add(u64::from(reported.is_new));
        Ok(self.end_first(answer)?)
    }

    /// Gives the event of a line to the loaded validators. Their answers have to be this one.
    fn take_loaded(
        &mut self,
        line: &str,
        reported: &str,
        answer: &mut String,
    ) -> Result<(), FormError> {
        for one in &mut self.loaded {
            one.take(&self.labels, line, self.new, reported, answer)?;
        }
        self.counts.answer(self.loaded.len() as u64);
        Ok(())
    }

    /// Loads one more validator, from the checkpoint's records of the validator that is given all events.
    fn load(&mut self, answer: &mut String) -> Reported {
        match loaded(self.alloc, self.config, &kept_records(&self.validator)?) {
            Err(LoadError::Memory) => Err(AllocError),
            Err(error) => {
                report_error(error, answer)?;
                answer.push_str(" is what loading is answered\n")
            }
            Ok(validator) => {
                self.counts.load();
                let one = Loaded::new(self.alloc, validator, self.events);
                Ok(self.loaded.push(one)?)
            }
        }
    }

    /// Lets go of the oldest loaded validator, if it was given all its events; its checkpoint's records have to be those of the first
    /// validator.
    fn end_first(&mut self, answer: &mut String) -> Reported {
        match self.loaded.first() {
            Some(first) if first.is_done() => {}
            _ => return Ok(()),
        }
        let first = self.loaded.remove(0);
        self.counts.end();
        first.compare_records(&kept_records(&self.validator)?, answer)
    }

    /// Ends the history. The loaded validators that weren't given all their events have to have the same checkpoint's records as the first
    /// validator.
    pub fn end(&self, answer: &mut String) -> Reported {
        let records = kept_records(&self.validator)?;
        for one in &self.loaded {
            one.compare_records(&records, answer)?;
        }
        Ok(())
    }
}
