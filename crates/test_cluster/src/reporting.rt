//! Writes answers of the tests as text. If an allocation fails the text is cut short, and so differs from the expected text.

use cluster::{Applied, ClusterError};
use sim_script::Labels;
use std::fmt::Display;
use test_cases::put;
use wire::{Digest, Header, ParentReference, genesis_digest};

/// Adds the answer to a move of the cluster.
pub fn report_move(answer: &mut String, outcome: Result<Applied, ClusterError>) {
    match outcome {
        Ok(applied) => report_applied(answer, applied),
        Err(error) => report_error(answer, error),
    }
}

fn report_applied(answer: &mut String, applied: Applied) {
    match applied {
        Applied::Took { ticket, new } => {
            put_shown(answer, "took ", &ticket, "");
            put(answer, if new { " new\n" } else { " known\n" });
        }
        Applied::Refused(refusal) => put_shown(answer, "refused ", &refusal, "\n"),
        Applied::Unchecked(error) => put_shown(answer, "unchecked ", &error, "\n"),
        Applied::Settled(count) => put_shown(answer, "settled ", &count, "\n"),
        Applied::Fault(error) => put_shown(answer, "fault ", &error, "\n"),
        Applied::Reopened(events) => put_shown(answer, "reopened ", &events, "\n"),
    }
}

/// Adds the error of a move; if a node's journal could not be opened, also the reason for that.
pub fn report_error(answer: &mut String, error: ClusterError) {
    put_shown(answer, "error ", &error, "");
    if let ClusterError::Journal(cause) = error {
        put_shown(answer, " ", &cause, "");
    }
    put(answer, "\n");
}

/// Adds the round, the parents and the batches of the header that a node proposes.
pub fn report_proposal(
    answer: &mut String,
    labels: &Labels,
    proposal: Result<Option<Header>, ClusterError>,
) {
    match proposal {
        Ok(Some(header)) => report_header(answer, labels, &header),
        Ok(None) => put(answer, "no header\n"),
        Err(error) => report_error(answer, error),
    }
}

fn report_header(answer: &mut String, labels: &Labels, header: &Header) {
    put_shown(answer, "header ", &header.body.round.number(), "");
    for parent in header.body.parents.as_slice() {
        report_parent(answer, labels, parent);
    }
    for batch in header.body.batches.as_slice() {
        report_label(answer, labels.batch_name(&batch.digest));
    }
    put(answer, "\n");
}

fn report_parent(answer: &mut String, labels: &Labels, parent: &ParentReference) {
    if parent.certificate == genesis_digest(parent.author) {
        put_shown(answer, " g", &parent.author.0, "");
    } else {
        report_label(answer, labels.certificate_name(&parent.certificate));
    }
}

fn report_label(answer: &mut String, label: Option<&str>) {
    put(answer, " ");
    put(answer, label.unwrap_or("unlabelled"));
}

/// Adds the order that a node has given out: the label of each certificate.
pub fn report_order(answer: &mut String, labels: &Labels, order: Option<&[Digest]>) {
    put(answer, "order");
    match order {
        Some([]) => put(answer, " none"),
        Some(digests) => report_certificates(answer, labels, digests),
        None => put(answer, " of no member"),
    }
    put(answer, "\n");
}

fn report_certificates(answer: &mut String, labels: &Labels, digests: &[Digest]) {
    for digest in digests {
        report_label(answer, labels.certificate_name(digest));
    }
}

/// Adds how many outputs a node has put out.
pub fn report_outputs(answer: &mut String, outputs: Option<u64>) {
    match outputs {
        Some(count) => put_shown(answer, "outputs ", &count, "\n"),
        None => put(answer, "outputs of no member\n"),
    }
}

/// Adds a text, a value as it displays itself and another text to the answer.
pub fn put_shown<T: Display>(answer: &mut String, before: &str, shown: &T, after: &str) {
    let _ = write!(answer, "{before}{shown}{after}");
}
