//! Compares what a node's tables keep with what, by the definitions, is kept of its history.

use crate::definitions::beside::same;
use crate::definitions::played::Played;
use crate::definitions::searching::{digest_line, vote_line};
use crate::definitions::showing::certificate_line;
use crate::parts::list;
use ref_admission::keeping::{kept_counted, kept_header, kept_highest, kept_slot, kept_vote};
use ref_order::held::Held;
use ref_order::slots::slot;
use std::alloc::AllocError;
use wire::{Certificate, Digest, Header, Vote, header_digest};

/// What is kept for a round and a member, as the author or the voter.
#[derive(Drop)]
struct Kept {
    vote: Option<Digest>,
    /// The digest of the own header of the round, if the author is the node itself.
    header: Option<Digest>,
    counted: Option<Vote>,
    certificate: Option<Certificate>,
}

fn digest(header: Option<&Header>) -> Option<Digest> {
    header.map(|header| header_digest(&header.body))
}

fn by_history(played: &Played, round: u64, author: u16) -> Result<Kept, AllocError> {
    let (alloc, node, history) = (played.alloc, &played.node, played.history.as_slice());
    Ok(Kept {
        vote: kept_vote(alloc, node, history, round, author)?,
        header: match author == node.own.0 {
            true => digest(kept_header(alloc, node, history, round)?),
            false => None,
        },
        counted: kept_counted(alloc, node, history, round, author)?,
        certificate: kept_slot(alloc, node, history, round, author)?,
    })
}

fn by_tables(played: &Played, round: u64, author: u16) -> Result<Kept, AllocError> {
    let tables = &played.tables;
    let certificates = tables.certificates(played.alloc)?;
    Ok(Kept {
        vote: tables.voted_digest(round, author),
        header: match author == played.node.own.0 {
            true => digest(tables.own_header(round)),
            false => None,
        },
        counted: tables.counted(round, author),
        certificate: match slot(&certificates, round, author) {
            None => None,
            Some(certificate) => Some(certificate.try_clone()?),
        },
    })
}

/// Adds what is kept for a round and a member, one line for each thing.
fn add_kept(played: &Played, kept: &Kept, text: &mut String) -> Result<(), AllocError> {
    digest_line(played, kept.vote, text)?;
    digest_line(played, kept.header, text)?;
    vote_line(played, kept.counted, text)?;
    certificate_line(&played.labels, kept.certificate.as_ref(), text)
}

/// The text of what is kept for a round and a member, under a heading with both.
fn text_of(played: &Played, round: u64, author: u16, kept: &Kept) -> Result<String, AllocError> {
    let mut text = format!(in played.alloc; "round {round}, author {author}\n")?;
    add_kept(played, kept, &mut text)?;
    Ok(text)
}

/// Compares what is kept for a round and a member.
fn compare_one(
    played: &Played,
    round: u64,
    author: u16,
    answer: &mut String,
) -> Result<(), AllocError> {
    let kept = text_of(played, round, author, &by_history(played, round, author)?)?;
    let found = text_of(played, round, author, &by_tables(played, round, author)?)?;
    same("kept", kept, found, answer)
}

fn compare_round(played: &Played, round: u64, answer: &mut String) -> Result<(), AllocError> {
    for author in 0..played.node.size() {
        compare_one(played, round, author, answer)?;
    }
    Ok(())
}

/// Compares what is kept for each member in each round, up to the second round above that of any certificate.
pub fn compare_kept(played: &Played, answer: &mut String) -> Result<(), AllocError> {
    let highest = kept_highest(played.alloc, &played.node, &played.history)?;
    let by_tables = played.tables.highest(played.alloc)?;
    if by_tables != highest {
        list(
            "highest by the history and by the tables",
            &[highest, by_tables],
            answer,
        )?;
    }
    for round in 0..highest.saturating_add(3) {
        compare_round(played, round, answer)?;
    }
    Ok(())
}
