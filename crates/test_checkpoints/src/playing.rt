//! Gives events to a validator, which is fresh or was loaded from a list of records, and shows its answers.

ghost use Rattle.std.specs.Prelude.{◌≡◌, None};
ghost use Rattle.header.specs.Checks.{fault_of, accepts_all};

use crate::area::report_area;
use crate::loading::{kept_records, loaded, report_error};
use crate::nodes::Member;
use crate::reporting::{report_outputs, report_records};
use header::{Checked, check};
use sigface::{HashSign, HashVerify};
use sim_script::{Command, FormError, Labels, define_batch, define_header, message_of, parse};
use std::alloc::Global;
use validator::{LoadError, Refusal, Step, Validator};
use wire::{Author, Message};

/// What a test case plays: lines that form a header or a batch or are an event, and what is to be shown after them.
#[derive(Clone, Copy)]
pub struct Play<'p> {
    pub events: &'p [String],
    /// What is to be shown: `records` asks for the records of a checkpoint, `area` for an area that holds the checkpoint.
    pub looks: &'p str,
}

/// Gives the events to a fresh validator.
pub fn play_new(
    alloc: Global,
    member: &Member,
    play: Play<'_>,
    answer: &mut String,
) -> Result<(), FormError> {
    let validator = Validator::new(alloc, &member.config)?;
    play_on(alloc, validator, play, answer)
}

/// Gives the events to a validator that is loaded from a list.
pub fn play_loaded(
    alloc: Global,
    member: &Member,
    records: &[Vec<u8>],
    play: Play<'_>,
    answer: &mut String,
) -> Result<(), FormError> {
    match loaded(alloc, &member.config, records) {
        Err(LoadError::Memory) => Err(FormError::Memory),
        Err(error) => {
            report_error(error, answer)?;
            Ok(answer.push_str("\n")?)
        }
        Ok(validator) => play_on(alloc, validator, play, answer),
    }
}

fn play_on(
    alloc: Global,
    validator: Validator<'_, HashSign>,
    play: Play<'_>,
    answer: &mut String,
) -> Result<(), FormError> {
    let mut playing = Playing {
        alloc,
        validator,
        labels: Labels::new(alloc),
    };
    for line in play.events {
        playing.run(line.as_str(), answer)?;
    }
    playing.look(play.looks, answer)
}

/// A validator, and the labels that test cases give to headers and batches.
#[derive(Drop)]
struct Playing<'c> {
    alloc: Global,
    validator: Validator<'c, HashSign>,
    labels: Labels,
}

impl Playing<'_> {
    /// Carries out a line: it forms a header or a batch and gives it a label, or it is an event.
    fn run(&mut self, line: &str, answer: &mut String) -> Result<(), FormError> {
        match parse(line.as_bytes()) {
            Some(Command::Pack(pack)) => define_batch(self.alloc, &mut self.labels, &pack),
            Some(Command::Form(form)) => define_header(self.alloc, &mut self.labels, &form),
            Some(command) => {
                let (sender, message) = message_of(self.alloc, &self.labels, command)?;
                self.take(sender, message, answer)
            }
            None => Err(FormError::BadCommand),
        }
    }

    /// Gives an event to the validator if it passes the checks, and adds the answer.
    fn take(
        &mut self,
        sender: Author,
        message: Message,
        answer: &mut String,
    ) -> Result<(), FormError> {
        match check(self.validator.committee(), &HashVerify, sender, message) {
            Ok(checked) => self.step(checked, answer),
            Err(error) => Ok(writeln!(answer, "unchecked {error}")?),
        }
    }

    fn step(&mut self, event: Checked, answer: &mut String) -> Result<(), FormError>
        requires { fault_of self.old.validator.setting.charter accepts_all event ≡ None }
    {
        let step = self.validator.step(event);
        report_step(&step, answer)
    }

    /// Shows the records of a checkpoint, and an area that holds the checkpoint, if the test case asks for them.
    fn look(&self, looks: &str, answer: &mut String) -> Result<(), FormError> {
        if looks.contains("records") {
            report_records(&kept_records(&self.validator)?, answer)?;
        }
        if looks.contains("area") {
            report_area(self.alloc, &self.validator, answer)?;
        }
        Ok(())
    }
}

/// Adds the answer of a validator to an event, and the outputs that it put out.
fn report_step(step: &Result<Step, Refusal>, answer: &mut String) -> Result<(), FormError> {
    match step {
        Ok(Step::New(outputs)) => {
            answer.push_str("new\n")?;
            Ok(report_outputs(outputs, answer)?)
        }
        Ok(Step::Known(outputs)) => {
            answer.push_str("known\n")?;
            Ok(report_outputs(outputs, answer)?)
        }
        Err(Refusal::Memory) => Err(FormError::Memory),
        Err(refusal) => Ok(writeln!(answer, "refused {refusal}")?),
    }
}
