//! Writes outputs and records in the form that files of test cases expect.

use test_cases::{Reported, write_hex};
use wire::{Certificate, Digest, Output, batch_digest, certificate_digest, header_digest};

/// Adds a line for each output: its kind, and the digest of its content. The line of a certificate also has its voters, and that of a
/// piece of the order the piece's place in the order.
pub fn report_outputs(outputs: &[Output], answer: &mut String) -> Reported {
    for output in outputs {
        answer.push_str("out ")?;
        report_output(output, answer)?;
        answer.push_str("\n")?;
    }
    Ok(())
}

fn report_output(output: &Output, answer: &mut String) -> Reported {
    match output {
        Output::Batch(batch) => report_named("batch", &batch_digest(batch), answer),
        Output::Ack { ack, .. } => report_named("ack", &ack.batch, answer),
        Output::Header(header) => report_named("header", &header_digest(&header.body), answer),
        Output::Vote(vote) => report_named("vote", &vote.header, answer),
        Output::Certificate(certificate) => report_certificate(certificate, answer),
        Output::Order { start, digests } => report_order(*start, digests.as_slice(), answer),
    }
}

fn report_named(kind: &str, digest: &Digest, answer: &mut String) -> Reported {
    write!(answer, "{kind} ")?;
    write_hex(answer, &digest.0)
}

fn report_certificate(certificate: &Certificate, answer: &mut String) -> Reported {
    let body = &certificate.header;
    let digest = certificate_digest(&header_digest(body), body.round, body.author);
    report_named("certificate", &digest, answer)?;
    for vote in certificate.votes.as_slice() {
        write!(answer, " {}", vote.voter.0)?;
    }
    Ok(())
}

fn report_order(start: u64, digests: &[Digest], answer: &mut String) -> Reported {
    write!(answer, "order {start}")?;
    for digest in digests {
        answer.push_str(" ")?;
        write_hex(answer, &digest.0)?;
    }
    Ok(())
}

/// Adds a line with the bytes of each record.
pub fn report_records(records: &[Vec<u8>], answer: &mut String) -> Reported {
    for record in records {
        answer.push_str("record ")?;
        write_hex(answer, record)?;
        answer.push_str("\n")?;
    }
    Ok(())
}
