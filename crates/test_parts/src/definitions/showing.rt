//! How certificates, outputs and other values are shown in a file of test cases.

use ref_order::slots::digest_of;
use sim_script::Labels;
use std::alloc::AllocError;
use wire::{
    Author, Certificate, Digest, Output, VoteEntry, batch_digest, genesis_digest, header_digest,
};

/// The label of a certificate's header.
pub fn certificate_label<'a>(labels: &'a Labels, certificate: &Certificate) -> &'a str {
    label_of(labels, &digest_of(&certificate.header))
}

/// The label of the header whose certificate has this digest.
pub fn label_of<'a>(labels: &'a Labels, certificate: &Digest) -> &'a str {
    match labels.certificate_name(certificate) {
        Some(name) => name,
        None => genesis_label(certificate),
    }
}

fn genesis_label(certificate: &Digest) -> &'static str {
    for (member, name) in [(0, "g0"), (1, "g1"), (2, "g2"), (3, "g3")] {
        if genesis_digest(Author(member)) == *certificate {
            return name;
        }
    }
    "-"
}

/// The label of a header.
pub fn header_label<'a>(labels: &'a Labels, header: &Digest) -> &'a str {
    labels.header_name(header).unwrap_or("-")
}

/// The label of a batch.
pub fn batch_label<'a>(labels: &'a Labels, batch: &Digest) -> &'a str {
    labels.batch_name(batch).unwrap_or("-")
}

pub fn yes_or_no(is_so: bool, answer: &mut String) -> Result<(), AllocError> {
    answer.push_str(if is_so { "yes\n" } else { "no\n" })
}

/// Adds a word and a newline.
pub fn line(word: &str, answer: &mut String) -> Result<(), AllocError> {
    writeln!(answer, "{word}")
}

/// Adds a mark (as a comma), and a word after it.
pub fn add(mark: &str, word: &str, answer: &mut String) -> Result<(), AllocError> {
    answer.push_str(mark)?;
    answer.push_str(word)
}

/// Adds a word, and then the labels of these certificates.
pub fn certificates(
    labels: &Labels,
    word: &str,
    list: &[Certificate],
    answer: &mut String,
) -> Result<(), AllocError> {
    answer.push_str(word)?;
    for certificate in list {
        add(" ", certificate_label(labels, certificate), answer)?;
    }
    answer.push_str("\n")
}

/// Adds the labels of the certificates with these digests.
pub fn order(labels: &Labels, digests: &[Digest], answer: &mut String) -> Result<(), AllocError> {
    for digest in digests {
        add(" ", label_of(labels, digest), answer)?;
    }
    if digests.is_empty() {
        answer.push_str(" none")?;
    }
    answer.push_str("\n")
}

/// Adds the voters of these votes, separated by commas.
fn voters(entries: &[VoteEntry], answer: &mut String) -> Result<(), AllocError> {
    let mut mark = ' ';
    for entry in entries {
        let Author(voter) = entry.voter;
        write!(answer, "{mark}{voter}")?;
        mark = ',';
    }
    answer.push_str("\n")
}

/// Adds the label of a certificate, or `none` if there is no certificate.
pub fn label_line(
    labels: &Labels,
    certificate: Option<&Certificate>,
    answer: &mut String,
) -> Result<(), AllocError> {
    match certificate {
        None => line("none", answer),
        Some(certificate) => line(certificate_label(labels, certificate), answer),
    }
}

/// Adds the label of a certificate with its voters, or `none` if there is no certificate.
pub fn certificate_line(
    labels: &Labels,
    certificate: Option<&Certificate>,
    answer: &mut String,
) -> Result<(), AllocError> {
    let Some(certificate) = certificate else {
        return line("none", answer);
    };
    answer.push_str(certificate_label(labels, certificate))?;
    voters(certificate.votes.as_slice(), answer)
}

/// Adds an output, in the form that the command `collect` shows.
fn output(labels: &Labels, output: &Output, answer: &mut String) -> Result<(), AllocError> {
    let (kind, label) = match output {
        Output::Batch(batch) => ("batch", batch_label(labels, &batch_digest(batch))),
        Output::Ack { ack, .. } => ("ack", batch_label(labels, &ack.batch)),
        Output::Header(header) => ("header", header_label(labels, &header_digest(&header.body))),
        Output::Vote(vote) => ("vote", header_label(labels, &vote.header)),
        Output::Certificate(certificate) => return certified(labels, certificate, answer),
        Output::Order { start, digests } => {
            return ordered(labels, *start, digests.as_slice(), answer);
        }
    };
    writeln!(answer, "out {kind} {label}")
}

fn certified(
    labels: &Labels,
    certificate: &Certificate,
    answer: &mut String,
) -> Result<(), AllocError> {
    answer.push_str("out certificate ")?;
    certificate_line(labels, Some(certificate), answer)
}

fn ordered(
    labels: &Labels,
    start: u64,
    digests: &[Digest],
    answer: &mut String,
) -> Result<(), AllocError> {
    write!(answer, "out order {start}")?;
    order(labels, digests, answer)
}

pub fn outputs(labels: &Labels, list: &[Output], answer: &mut String) -> Result<(), AllocError> {
    for one in list {
        output(labels, one, answer)?;
    }
    Ok(())
}
