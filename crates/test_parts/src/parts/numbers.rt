//! Tests of the genesis, of laws, and of the vote book.

use crate::parts::messages::{report_body, written};
use crate::parts::words::{Reported, author_of, digest_of, round_of, show};
use committee::{
    CommitteeError, equal_stakes, honest_are_quorum, quorum_meets_support, quorums_overlap,
    quorums_share_honest, some_if_weighs, support_has_honest, support_is_honest,
    tolerated_leave_quorum,
};
use header::{CheckError, ones_are_counted, passed_are_signed, passed_have_quorums};
use std::alloc::Global;
use votebook::VoteBook;
use wire::{Certificate, Message, WireError, genesis_digest};
use wire_read::{
    beginnings_are_short, faults_stay, one_body, one_encoding, one_split, what_follows_is_trailing,
};

/// Shows the digest of an author's genesis, and the fields and the bytes of its certificate.
pub fn genesis(alloc: Global, author: u64, answer: &mut String) -> Reported {
    show(&genesis_digest(author_of(author)).0, answer)?;
    let certificate = Certificate::genesis(alloc, author_of(author));
    report_body(&certificate.header, 0, answer)?;
    show(&written(alloc, &Message::Certificate(certificate))?, answer)
}

/// Calls each law, which does nothing, and shows the errors that no case brings about: those of a failed allocation.
pub fn laws(answer: &mut String) -> Reported {
    one_encoding();
    one_body();
    beginnings_are_short();
    what_follows_is_trailing();
    faults_stay();
    one_split();
    quorums_overlap();
    quorum_meets_support();
    some_if_weighs();
    support_is_honest();
    tolerated_leave_quorum();
    honest_are_quorum();
    quorums_share_honest();
    support_has_honest();
    equal_stakes();
    passed_have_quorums();
    passed_are_signed();
    ones_are_counted();
    writeln!(answer, "{}", WireError::Memory)?;
    writeln!(answer, "{}", CommitteeError::Memory)?;
    writeln!(answer, "{}", CheckError::Memory)
}

/// Asks the vote book for a vote on a header, and shows the answer.
pub fn vote(
    book: &mut VoteBook,
    author: u64,
    round: u64,
    header: &[u8],
    answer: &mut String,
) -> Reported {
    let voted = book.vote(author_of(author), round_of(round), digest_of(header))?;
    writeln!(answer, "{voted:?}")
}

/// Shows for which header of an author and a round the vote book has noted a vote.
pub fn voted(book: &VoteBook, author: u64, round: u64, answer: &mut String) -> Reported {
    match book.voted(author_of(author), round_of(round)) {
        Some(header) => show(&header.0, answer),
        None => answer.push_str("none\n"),
    }
}
