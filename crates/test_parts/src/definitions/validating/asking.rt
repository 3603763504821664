//! What a validator is asked while the lines of a test case are played. A line that asks something is also the expected answer.

use crate::definitions::looking::{member, number};
use crate::definitions::showing::{add, header_label, line, order, outputs};
use crate::definitions::validating::seen::{seen_of, voted_by};
use crate::parts::{list, whether};
use header::Refusal;
use sigface::HashSign;
use sim_script::Labels;
use std::alloc::{AllocError, Global};
use validator::{Step, Validator};
use wire::Output;

/// The answer to the last event, and whether the validator said beforehand that it was ready for the event.
#[derive(Drop)]
pub struct Last {
    pub is_ready: bool,
    pub step: Result<Step, Refusal>,
}

/// The first word of each line that asks something, and the name of what differs if the answer is another line.
const ASKED: [(&str, &str); 8] = [
    ("answered", "the answer"),
    ("ready", "whether it was ready"),
    ("out", "what was put out"),
    ("floor", "the floor"),
    ("round", "the round"),
    ("order", "the order"),
    ("voted", "the vote"),
    ("proposes", "the proposal"),
];

/// The name of what a line of these words asks for; None if the line doesn't ask.
pub fn asked(words: &[&str]) -> Option<&'static str> {
    let name = words.first()?;
    for (word, what) in ASKED {
        if word == *name {
            return Some(what);
        }
    }
    None
}

impl Last {
    /// Shows what the lines `answered`, `ready` and `out` ask of the last event.
    pub fn report(
        &self,
        alloc: Global,
        labels: &Labels,
        name: &str,
        text: &mut String,
    ) -> Result<(), AllocError> {
        match name {
            "answered" => self.report_answer(text),
            "ready" => whether(name, self.is_ready, text),
            _ => self.report_outputs(alloc, labels, text),
        }
    }

    fn report_answer(&self, text: &mut String) -> Result<(), AllocError> {
        match &self.step {
            Ok(Step::New(_)) => line("answered new", text),
            Ok(Step::Known(_)) => line("answered known", text),
            Err(refusal) => writeln!(text, "answered refused {refusal}"),
        }
    }

    fn report_outputs(
        &self,
        alloc: Global,
        labels: &Labels,
        text: &mut String,
    ) -> Result<(), AllocError> {
        match &self.step {
            Ok(Step::New(list)) | Ok(Step::Known(list)) => report_each(alloc, labels, list, text),
            Err(_) => line("out none", text),
        }
    }
}

/// Outputs in one line, separated by semicolons.
fn report_each(
    alloc: Global,
    labels: &Labels,
    list: &[Output],
    text: &mut String,
) -> Result<(), AllocError> {
    if list.is_empty() {
        return line("out none", text);
    }
    let mut reported = String::new(alloc);
    outputs(labels, list, &mut reported)?;
    in_one_line(reported.as_str(), text)
}

/// Adds these lines as one, separated by semicolons.
fn in_one_line(lines: &str, text: &mut String) -> Result<(), AllocError> {
    let mut is_first = true;
    for one in lines.lines() {
        add(if is_first { "" } else { "; " }, one, text)?;
        is_first = false;
    }
    Ok(())
}

/// Shows the `floor`, the `round` or the `order` of a validator.
pub fn report_seen(
    labels: &Labels,
    validator: &Validator<'_, HashSign>,
    name: &str,
    text: &mut String,
) -> Result<(), AllocError> {
    let seen = seen_of(validator);
    match name {
        "floor" => list(name, &[seen.floor], text),
        "round" => list(name, &[seen.round], text),
        _ => {
            text.push_str("order")?;
            order(labels, seen.order, text)
        }
    }
}

/// Shows the vote of a validator for an author in a round.
pub fn report_vote(
    labels: &Labels,
    validator: &Validator<'_, HashSign>,
    round: &str,
    author: &str,
    text: &mut String,
) -> Result<(), AllocError> {
    let label = match voted_by(validator, number(round), member(author)) {
        None => "none",
        Some(digest) => header_label(labels, &digest),
    };
    writeln!(text, "voted {round} {author} {label}")
}
