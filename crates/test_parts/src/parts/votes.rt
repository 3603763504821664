//! Tests of an assembly (the collector of the votes on a header) that is given votes one after the other.

ghost use Rattle.std.specs.Prelude.{◌≡◌};
ghost use Rattle.wire.specs.Digests.{header_digest_of};

use crate::parts::words::{Reported, member_in, parted};
use certify::{Added, Assembly};
use committee::Committee;
use std::alloc::{AllocError, Global};
use wire::{
    Author, BatchReferences, Certificate, Digest, Header, HeaderBody, ParentReferences, Round,
    Signature, Vote, header_digest,
};

fn header_of(alloc: Global, author: Author) -> Header {
    Header {
        body: HeaderBody {
            author,
            round: Round::genesis(),
            batches: BatchReferences::new(alloc),
            parents: ParentReferences::new(alloc),
        },
        signature: Signature([author.0.min(255) as u8; 64]),
    }
}

// A vote on the header of this body, with a signature of 64 bytes of this value.
fn vote_on(body: &HeaderBody, voter: Author, byte: u8) -> Vote
    ensures digest { result.header.0 ≡ header_digest_of body.now }
    ensures round { result.round ≡ body.now.round }
    ensures author { result.author ≡ body.now.author }
    ensures voter { result.voter ≡ voter }
{
    Vote {
        header: header_digest(body),
        round: body.round,
        author: body.author,
        voter,
        signature: Signature([byte; 64]),
    }
}

// The vote that a word describes: the voter's number, and after it `h`, `r` or `a` if the vote names another header, another round or
// another author than this body's.
fn vote_of(body: &HeaderBody, word: &str, byte: u8) -> Vote {
    let number = word.trim_end_matches(|c| c == 'h' || c == 'r' || c == 'a');
    let voter = Author(number.parse::<u16>().unwrap_or(0));
    let vote = vote_on(body, voter, byte);
    if word.ends_with('h') {
        return Vote {
            header: Digest([byte; 32]),
            ..vote
        };
    }
    if word.ends_with('r') {
        return Vote {
            round: Round::new(2).unwrap_or(Round::genesis()),
            ..vote
        };
    }
    if word.ends_with('a') {
        return Vote {
            author: Author(body.author.0 ^ 1),
            ..vote
        };
    }
    vote
}

/// Gives votes on a member's header to an assembly. Shows the answer to each vote, and the assembly's state at the end.
pub fn assemble(
    alloc: Global,
    committee: &Committee,
    words: &str,
    answer: &mut String,
) -> Reported {
    let (own, votes) = parted(words, ':');
    let own = member_in(own);
    if own.0 >= committee.size() {
        return answer.push_str("no member\n");
    }
    let header = header_of(alloc, own);
    let vote = vote_on(&header.body, own, 0);
    let mut assembly = Assembly::start(alloc, committee, header, vote)?;
    give_each(&mut assembly, votes, answer)?;
    report_assembly(&assembly, committee.size(), answer)
}

// Gives the votes of these words to an assembly. The loop owns nothing, since everything that a loop owns makes the proof more expensive at
// each exit.
fn give_each(assembly: &mut Assembly, votes: &str, answer: &mut String) -> Reported {
    let mut byte: u8 = 0;
    for word in votes.split_whitespace() {
        byte = byte.saturating_add(1);
        let vote = vote_of(&assembly.header().body, word, byte);
        give(assembly, vote, byte % 2 == 1, answer)?;
    }
    Ok(())
}

// Gives a vote to an assembly, in one call or in two.
fn give(assembly: &mut Assembly, vote: Vote, at_once: bool, answer: &mut String) -> Reported {
    let added = match at_once {
        true => assembly.add(vote)?,
        false => {
            let added = assembly.answer(&vote)?;
            if let Some(complete) = added.completion() {
                assembly.count(vote, complete);
            }
            added
        }
    };
    report_added(&added, answer)
}

fn report_added(added: &Added, answer: &mut String) -> Reported {
    match added {
        Added::Counted => answer.push_str("counted\n"),
        Added::Again => answer.push_str("again\n"),
        Added::NotOurs => answer.push_str("not ours\n"),
        Added::Complete(certificate) => report_certificate(certificate, answer),
    }
}

// Shows the header's author, and of each vote the voter and the first byte of its signature.
fn report_certificate(certificate: &Certificate, answer: &mut String) -> Reported {
    write!(answer, "complete {} :", certificate.header.author.0)?;
    for vote in certificate.votes.as_slice() {
        let (voter, byte) = (vote.voter.0, vote.signature.0[0]);
        write!(answer, " {voter}/{byte}")?;
    }
    answer.push_str("\n")
}

fn report_assembly(assembly: &Assembly, members: u16, answer: &mut String) -> Reported {
    let (author, complete) = (assembly.header().body.author.0, assembly.is_complete());
    write!(answer, "of {author} complete {complete} voted")?;
    for member in 0..members {
        if assembly.voted(Author(member)) {
            write!(answer, " {member}")?;
        }
    }
    answer.push_str("\n")
}
