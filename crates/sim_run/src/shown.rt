//! Writes the line of an answer.

use crate::answer::Answer;
use sim_script::Labels;
use std::alloc::AllocError;
use std::fmt::Write as _;
use wire::{Author, Certificate, Digest, Output, VoteEntry, batch_digest, header_digest};

/// Adds the line of an answer, if the answer has one.
pub fn add_line(lines: &mut String, labels: &Labels, answer: &Answer) -> Result<(), AllocError> {
    match answer {
        Answer::Nothing => Ok(()),
        Answer::New(ticket) => writeln!(lines, "new {ticket}"),
        Answer::Known(ticket) => writeln!(lines, "known {ticket}"),
        Answer::Unread(error) => writeln!(lines, "unread {error}"),
        Answer::Unchecked(error) => writeln!(lines, "unchecked {error}"),
        Answer::Refused(refusal) => writeln!(lines, "refused {refusal}"),
        Answer::Settled(count) => writeln!(lines, "settled {count}"),
        Answer::Generation(generation) => writeln!(lines, "generation {generation}"),
        Answer::Fault(error) => writeln!(lines, "fault {error}"),
        Answer::OutNone => lines.push_str("out none\n"),
        Answer::Out(output) => add_output(lines, labels, output),
        Answer::Order(digests) => add_order(lines, labels, digests),
        Answer::Round(round) => writeln!(lines, "round {round}"),
        Answer::Voted(Some(digest)) => {
            let label = header_label(labels, digest);
            writeln!(lines, "voted {label}")
        }
        Answer::Voted(None) => lines.push_str("voted none\n"),
        Answer::Count(count) => writeln!(lines, "{count}"),
        Answer::Reopened(count) => writeln!(lines, "reopened {count}"),
    }
}

fn add_output(lines: &mut String, labels: &Labels, output: &Output) -> Result<(), AllocError> {
    match output {
        Output::Batch(batch) => {
            let label = batch_label(labels, &batch_digest(batch));
            writeln!(lines, "out batch {label}")
        }
        Output::Ack { ack, .. } => {
            let label = batch_label(labels, &ack.batch);
            writeln!(lines, "out ack {label}")
        }
        Output::Header(header) => {
            let label = header_label(labels, &header_digest(&header.body));
            writeln!(lines, "out header {label}")
        }
        Output::Vote(vote) => {
            let label = header_label(labels, &vote.header);
            writeln!(lines, "out vote {label}")
        }
        Output::Certificate(certificate) => add_certificate(lines, labels, certificate),
        Output::Order { start, digests } => {
            write!(lines, "out order {start}")?;
            add_labels(lines, labels, digests.as_slice())
        }
    }
}

fn add_certificate(
    lines: &mut String,
    labels: &Labels,
    certificate: &Certificate,
) -> Result<(), AllocError> {
    let label = header_label(labels, &header_digest(&certificate.header));
    write!(lines, "out certificate {label}")?;
    add_voters(lines, certificate.votes.as_slice())
}

// Adds a space, the numbers of the voters separated by commas, and a newline.
fn add_voters(lines: &mut String, votes: &[VoteEntry]) -> Result<(), AllocError> {
    let mut mark = ' ';
    for vote in votes {
        let Author(voter) = vote.voter;
        write!(lines, "{mark}{voter}")?;
        mark = ',';
    }
    lines.push('\n')
}

fn add_order(lines: &mut String, labels: &Labels, digests: &[Digest]) -> Result<(), AllocError> {
    lines.push_str("order")?;
    if digests.is_empty() {
        lines.push_str(" none")?;
    }
    add_labels(lines, labels, digests)
}

// Adds the labels of these certificates, each after a space, and a newline.
fn add_labels(lines: &mut String, labels: &Labels, digests: &[Digest]) -> Result<(), AllocError> {
    for digest in digests {
        lines.push(' ')?;
        lines.push_str(certificate_label(labels, digest))?;
    }
    lines.push('\n')
}

// The label of a batch. A batch without a label would be shown as a dash, but whatever a script submits has one.
fn batch_label<'a>(labels: &'a Labels, digest: &Digest) -> &'a str {
    labels.batch_name(digest).unwrap_or("-")
}

fn header_label<'a>(labels: &'a Labels, digest: &Digest) -> &'a str {
    labels.header_name(digest).unwrap_or("-")
}

fn certificate_label<'a>(labels: &'a Labels, digest: &Digest) -> &'a str {
    labels.certificate_name(digest).unwrap_or("-")
}
