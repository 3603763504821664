//! How outputs and headers are shown in the files of histories: by the labels of scripts in place of digests.

use sim_script::{Form, FormError, Labels, define_header};
use std::alloc::Global;
use test_cases::Reported;
use wire::{
    Author, BatchReference, Certificate, Digest, Header, Output, batch_digest, certificate_digest,
    genesis_digest, header_digest,
};

/// The number of members whose genesis certificates have labels in every script.
const LABELLED: u16 = 4;

/// Labels the genesis certificates of this many members.
pub fn label_genesis(alloc: Global, labels: &mut Labels, members: u16) -> Result<(), FormError> {
    for member in LABELLED..members {
        let name = format!(in alloc; "g{member}")?;
        define_header(alloc, labels, &genesis_form(name.as_str(), Author(member)))?;
    }
    Ok(())
}

fn genesis_form(label: &str, author: Author) -> Form<'_> {
    Form {
        label,
        author,
        round: 0,
        parents: "-",
        batches: "-",
    }
}

/// The label of the header whose certificate has this digest.
fn label_of<'a>(labels: &'a Labels, certificate: &Digest) -> &'a str {
    match labels.certificate_name(certificate) {
        Some(name) => name,
        None => genesis_label(certificate),
    }
}

fn genesis_label(certificate: &Digest) -> &'static str {
    for (member, name) in [(0, "g0"), (1, "g1"), (2, "g2"), (3, "g3")] {
        if genesis_digest(Author(member)) == *certificate {
            return name;
        }
    }
    "-"
}

/// Adds a line for each output.
pub fn report_outputs(labels: &Labels, outputs: &[Output], answer: &mut String) -> Reported {
    for output in outputs {
        answer.push_str("out ")?;
        report_output(labels, output, answer)?;
        answer.push_str("\n")?;
    }
    Ok(())
}

fn report_output(labels: &Labels, output: &Output, answer: &mut String) -> Reported {
    match output {
        Output::Batch(batch) => report_batch(labels, "batch", &batch_digest(batch), answer),
        Output::Ack { ack, .. } => report_batch(labels, "ack", &ack.batch, answer),
        Output::Header(header) => {
            report_header(labels, "header", &header_digest(&header.body), answer)
        }
        Output::Vote(vote) => report_header(labels, "vote", &vote.header, answer),
        Output::Certificate(certificate) => report_certificate(labels, certificate, answer),
        Output::Order { start, digests } => {
            write!(answer, "order {start}")?;
            report_labels(labels, digests.as_slice(), answer)
        }
    }
}

fn report_batch(labels: &Labels, kind: &str, digest: &Digest, answer: &mut String) -> Reported {
    let label = labels.batch_name(digest).unwrap_or("-");
    write!(answer, "{kind} {label}")
}

fn report_header(labels: &Labels, kind: &str, digest: &Digest, answer: &mut String) -> Reported {
    let label = labels.header_name(digest).unwrap_or("-");
    write!(answer, "{kind} {label}")
}

fn report_certificate(labels: &Labels, certificate: &Certificate, answer: &mut String) -> Reported {
    let body = &certificate.header;
    let digest = certificate_digest(&header_digest(body), body.round, body.author);
    let label = label_of(labels, &digest);
    write!(answer, "certificate {label}")?;
    let mut mark = ' ';
    for vote in certificate.votes.as_slice() {
        write!(answer, "{mark}{}", vote.voter.0)?;
        mark = ',';
    }
    Ok(())
}

/// Adds the labels of the certificates with these digests, each after a blank.
fn report_labels(labels: &Labels, digests: &[Digest], answer: &mut String) -> Reported {
    for digest in digests {
        answer.push_str(" ")?;
        answer.push_str(label_of(labels, digest))?;
    }
    Ok(())
}

/// Adds a line with an order, as the labels of its certificates.
pub fn report_order(labels: &Labels, digests: &[Digest], answer: &mut String) -> Reported {
    answer.push_str("order")?;
    if digests.is_empty() {
        answer.push_str(" none")?;
    }
    report_labels(labels, digests, answer)?;
    answer.push_str("\n")
}

/// Adds a line with the header that a validator proposes: its round, parents and batches.
pub fn report_proposal(labels: &Labels, proposal: Option<Header>, answer: &mut String) -> Reported {
    match proposal {
        Some(header) => report_proposed(labels, &header, answer),
        None => answer.push_str("proposes none\n"),
    }
}

/// Adds the line of a proposed header.
fn report_proposed(labels: &Labels, header: &Header, answer: &mut String) -> Reported {
    let round = header.body.round.number();
    write!(answer, "proposes {round}")?;
    let mut mark = " ";
    for parent in header.body.parents.as_slice() {
        answer.push_str(mark)?;
        answer.push_str(label_of(labels, &parent.certificate))?;
        mark = ",";
    }
    report_batches(labels, header.body.batches.as_slice(), answer)
}

/// Adds the labels of the batches that a header names, or a dash, and ends the line.
fn report_batches(labels: &Labels, batches: &[BatchReference], answer: &mut String) -> Reported {
    if batches.is_empty() {
        answer.push_str(" -")?;
    }
    let mut mark = " ";
    for batch in batches {
        answer.push_str(mark)?;
        answer.push_str(labels.batch_name(&batch.digest).unwrap_or("-"))?;
        mark = ",";
    }
    answer.push_str("\n")
}
