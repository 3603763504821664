//! How a validator's answers to the lines of a history are shown.

ghost use Rattle.std.specs.Prelude.{◌≡◌, None};
ghost use Rattle.header.specs.Checks.{fault_of, accepts_all};

use crate::histories::labelled::{report_order, report_outputs, report_proposal};
use header::{Checked, check};
use sigface::{HashSign, HashVerify};
use sim_script::{FormError, Labels, message_of, parse};
use std::alloc::{AllocError, Global};
use validator::{Refusal, Step, Validator};
use wire::{Author, Coin, Header, Message, Wave};

/// The lines that show the answer to an event, and whether the event was new.
#[derive(Drop)]
pub struct Answer {
    pub is_new: bool,
    pub lines: String,
}

/// Gives a validator the event of a line and returns its answer; `before` is how many events were new before.
pub fn answered(
    alloc: Global,
    labels: &Labels,
    validator: &mut Validator<'_, HashSign>,
    line: &str,
    before: u64,
) -> Result<Answer, FormError> {
    let (sender, message) = event_of(alloc, labels, line)?;
    match check(validator.committee(), &HashVerify, sender, message) {
        Ok(event) => {
            let step = stepped(validator, event);
            answer_of(alloc, labels, &step, before)
        }
        Err(error) => Ok(Answer {
            is_new: false,
            lines: format!(in alloc; "unchecked {error}\n")?,
        }),
    }
}

/// Steps the event on the validator. It is a function of its own, since the contract of this call is long.
fn stepped(validator: &mut Validator<'_, HashSign>, event: Checked) -> Result<Step, Refusal>
    requires { fault_of validator.old.setting.charter accepts_all event ≡ None }
{
    validator.step(event)
}

/// The sender and the message of a line: a command of scripts, or a coin that another member sends.
fn event_of(alloc: Global, labels: &Labels, line: &str) -> Result<(Author, Message), FormError> {
    if let Some(words) = line.strip_prefix("coin-from ") {
        return coin_of(alloc, words);
    }
    match parse(line.as_bytes()) {
        Some(command) => message_of(alloc, labels, command),
        None => Err(FormError::BadCommand),
    }
}

/// The coin in these words: its sender, its wave, and its value.
fn coin_of(alloc: Global, words: &str) -> Result<(Author, Message), FormError> {
    let words: Vec<&str> = words.split(' ').collect(alloc)?;
    let [sender, wave, value] = words.as_slice() else {
        return Err(FormError::BadCommand);
    };
    let Ok(sender) = sender.parse::<u16>() else {
        return Err(FormError::BadCommand);
    };
    let (Ok(wave), Ok(value)) = (wave.parse::<u64>(), value.parse::<u64>()) else {
        return Err(FormError::BadCommand);
    };
    let wave = Wave::new(wave)?;
    Ok((Author(sender), Message::Coin(Coin { wave, value })))
}

fn answer_of(
    alloc: Global,
    labels: &Labels,
    step: &Result<Step, Refusal>,
    before: u64,
) -> Result<Answer, FormError> {
    let mut lines = String::new(alloc);
    let mut is_new = false;
    match step {
        Ok(Step::New(outputs)) => {
            is_new = true;
            writeln!(lines, "new {}", before.saturating_add(1))?;
            report_outputs(labels, outputs, &mut lines)?;
        }
        Ok(Step::Known(outputs)) => {
            writeln!(lines, "known {before}")?;
            report_outputs(labels, outputs, &mut lines)?;
        }
        Err(Refusal::Memory) => return Err(FormError::Memory),
        Err(refusal) => writeln!(lines, "refused {refusal}")?,
    }
    Ok(Answer { is_new, lines })
}

/// The line that shows something of a validator, by this name: `floor`, `round`, `order`, or `propose`, which shows the header that it
/// proposes.
pub fn looked(
    alloc: Global,
    labels: &Labels,
    validator: &Validator<'_, HashSign>,
    name: &str,
) -> Result<String, AllocError> {
    let mut line = String::new(alloc);
    match name {
        "floor" => writeln!(line, "floor {}", floor(validator))?,
        "round" => writeln!(line, "round {}", round(validator))?,
        "order" => report_order(labels, validator.order(), &mut line)?,
        _ => report_proposal(labels, proposal(validator)?, &mut line)?,
    }
    Ok(line)
}

fn floor(validator: &Validator<'_, HashSign>) -> u64 {
    validator.floor().number()
}

fn round(validator: &Validator<'_, HashSign>) -> u64 {
    validator.round()
}

fn proposal(validator: &Validator<'_, HashSign>) -> Result<Option<Header>, AllocError> {
    validator.propose()
}
