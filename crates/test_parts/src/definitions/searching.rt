//! Commands that look for batches and votes in a history.

use crate::definitions::looking::{member, number};
use crate::definitions::played::Played;
use crate::definitions::showing::{add, batch_label, header_label, label_line, line, yes_or_no};
use crate::parts::list;
use header::check;
use ref_admission::keeping::{kept_counted, kept_header, kept_highest, kept_slot, kept_vote};
use ref_admission::proposing::{nameable, placed, propose, to_name};
use ref_order::certificates::{certificates, completed, votes_on};
use ref_order::held::{has_own_batch, is_available};
use ref_order::holdings::{
    all_held, batch_at, counted_at, counted_vote, has_acked, voted_digest, was_named,
};
use ref_order::past::Past;
use sigface::{HashSign, HashVerify};
use sim_script::Labels;
use std::alloc::AllocError;
use wire::{
    Author, Batch, BatchReference, Digest, Header, Message, Vote, batch_digest, header_digest,
};

// ---- batches

pub fn batches(played: &Played, words: &[&str], answer: &mut String) -> Result<(), AllocError> {
    match words {
        ["nameable"] => nameable_line(played, answer),
        ["placed", places @ ..] => in_place(played, places, answer),
        [how, label, rest @ ..] => match labelled_batch(played, label) {
            None => line("bad case", answer),
            Some(batch) => of_batch(played, how, batch, rest, answer),
        },
        _ => line("bad case", answer),
    }
}

fn nameable_line(played: &Played, answer: &mut String) -> Result<(), AllocError> {
    let found = nameable(played.alloc, &played.node, &past(played))?;
    answer.push_str("nameable")?;
    named(&played.labels, &found, answer)
}

/// The history as what a node with this history holds.
pub fn past(played: &Played) -> Past<'_, HashSign> {
    Past {
        node: &played.node,
        history: &played.history,
    }
}

fn labelled_batch<'a>(played: &'a Played, label: &str) -> Option<&'a Batch> {
    match &played.labels.batch(label)?.batch {
        None => None,
        Some((batch, _)) => Some(batch),
    }
}

fn of_batch(
    played: &Played,
    how: &str,
    batch: &Batch,
    rest: &[&str],
    answer: &mut String,
) -> Result<(), AllocError> {
    let digest = batch_digest(batch);
    match rest {
        [] if how == "to-name" => to_name_line(played, batch, answer),
        [] => of_digest(played, how, &digest, answer),
        [who] if how == "acked" => {
            yes_or_no(has_acked(&played.history, &digest, member(who)), answer)
        }
        _ => line("bad case", answer),
    }
}

fn of_digest(
    played: &Played,
    how: &str,
    digest: &Digest,
    answer: &mut String,
) -> Result<(), AllocError> {
    let (node, held) = (&played.node, past(played));
    let is_so = match how {
        "available" => is_available(node, &held, digest),
        "own-batch" => has_own_batch(node, &held, digest),
        "was-named" => was_named(node, &played.history, digest),
        _ => return line("bad case", answer),
    };
    yes_or_no(is_so, answer)
}

/// Shows the worker of a batch if an own header may name the batch, and whether the node holds it; `none` if no header may name it.
fn to_name_line(played: &Played, batch: &Batch, answer: &mut String) -> Result<(), AllocError> {
    let Some(found) = to_name(&played.node, &past(played), batch) else {
        return line("none", answer);
    };
    let worker = found.worker;
    let is_held = batch_at(&played.history, &found.digest).is_some();
    writeln!(answer, "worker {worker}, held {is_held}")
}

/// The labels of batches, separated by commas.
pub fn named(
    labels: &Labels,
    list: &[BatchReference],
    answer: &mut String,
) -> Result<(), AllocError> {
    let mut mark = " ";
    for batch in list {
        add(mark, batch_label(labels, &batch.digest), answer)?;
        mark = ",";
    }
    if list.is_empty() {
        answer.push_str(" -")?;
    }
    answer.push_str("\n")
}

fn reference(word: &str) -> BatchReference {
    BatchReference {
        digest: Digest([(number(word) & 255) as u8; 32]),
        worker: 0,
    }
}

/// Shows the list to which references with these bytes as digests are added one after the other, each at its place in the list.
fn in_place(played: &Played, places: &[&str], answer: &mut String) -> Result<(), AllocError> {
    let mut found = Vec::new(played.alloc);
    for place in places {
        found = placed(played.alloc, &found, reference(place))?;
    }
    first_bytes(&found, answer)
}

fn first_bytes(batches: &[BatchReference], answer: &mut String) -> Result<(), AllocError> {
    answer.push_str("placed")?;
    for batch in batches {
        let byte = batch.digest.0[0];
        write!(answer, " {byte}")?;
    }
    answer.push_str("\n")
}

// ---- votes

pub fn votes(played: &Played, words: &[&str], answer: &mut String) -> Result<(), AllocError> {
    let [how, of, rest @ ..] = words else {
        return line("bad case", answer);
    };
    match *how {
        "voted" | "counted" => in_history(played, how, number(of), rest, answer),
        "kept" => kept(played, of, rest, answer),
        _ => match played.labels.header(of) {
            None => line("bad case", answer),
            Some(proposed) => of_header(played, how, &proposed.header, rest, answer),
        },
    }
}

/// Shows the node's own vote on an author's header in a round, or the vote of a voter that the node has counted in a round.
fn in_history(
    played: &Played,
    how: &str,
    round: u64,
    rest: &[&str],
    answer: &mut String,
) -> Result<(), AllocError> {
    let [who] = rest else {
        return line("bad case", answer);
    };
    let (history, who) = (played.history.as_slice(), member(who));
    match how {
        "voted" => digest_line(played, voted_digest(history, round, who), answer),
        _ => vote_line(
            played,
            counted_at(&played.node, history, round, who),
            answer,
        ),
    }
}

pub fn digest_line(
    played: &Played,
    digest: Option<Digest>,
    answer: &mut String,
) -> Result<(), AllocError> {
    match digest {
        None => line("none", answer),
        Some(digest) => line(header_label(&played.labels, &digest), answer),
    }
}

pub fn vote_line(
    played: &Played,
    vote: Option<Vote>,
    answer: &mut String,
) -> Result<(), AllocError> {
    let Some(vote) = vote else {
        return line("none", answer);
    };
    let (label, Author(voter)) = (header_label(&played.labels, &vote.header), vote.voter);
    writeln!(answer, "{label} {voter}")
}

fn of_header(
    played: &Played,
    how: &str,
    header: &Header,
    rest: &[&str],
    answer: &mut String,
) -> Result<(), AllocError> {
    match rest {
        [] => of_header_now(played, how, header, answer),
        [word] => of_header_with(played, how, header, word, answer),
        _ => line("bad case", answer),
    }
}

fn of_header_now(
    played: &Played,
    how: &str,
    header: &Header,
    answer: &mut String,
) -> Result<(), AllocError> {
    match how {
        "entries" => {
            let found = votes_on(played.alloc, &played.node, &played.history, &header.body)?;
            let (count, takes_3) = (found.len(), found.may_follow(Author(3)));
            writeln!(answer, "{count} entries, may 3 follow: {takes_3}")
        }
        "completed" => {
            let found = completed(played.alloc, &played.node, &played.history, header)?;
            yes_or_no(found.is_some(), answer)
        }
        _ => line("bad case", answer),
    }
}

fn of_header_with(
    played: &Played,
    how: &str,
    header: &Header,
    word: &str,
    answer: &mut String,
) -> Result<(), AllocError> {
    match how {
        "vote-on" => {
            let found = counted_vote(&played.node, &played.history, &header.body, member(word));
            vote_line(played, found, answer)
        }
        "held" => {
            let all = certificates(played.alloc, &played.node, &played.history)?;
            yes_or_no(all_held(&all, number(word), &header.body), answer)
        }
        _ => line("bad case", answer),
    }
}

fn kept(played: &Played, kind: &str, rest: &[&str], answer: &mut String) -> Result<(), AllocError> {
    match rest {
        [] => highest_line(played, answer),
        [round] => kept_header_line(played, number(round), answer),
        [round, who] => kept_in(played, kind, number(round), member(who), answer),
        _ => line("bad case", answer),
    }
}

fn highest_line(played: &Played, answer: &mut String) -> Result<(), AllocError> {
    let highest = kept_highest(played.alloc, &played.node, &played.history)?;
    list("highest", &[highest], answer)
}

fn kept_header_line(played: &Played, round: u64, answer: &mut String) -> Result<(), AllocError> {
    let found = kept_header(played.alloc, &played.node, &played.history, round)?;
    let digest = found.map(|header| header_digest(&header.body));
    digest_line(played, digest, answer)
}

/// Shows what is kept for a round and a member, as the author or the voter.
fn kept_in(
    played: &Played,
    kind: &str,
    round: u64,
    who: u16,
    answer: &mut String,
) -> Result<(), AllocError> {
    let (alloc, node, history) = (played.alloc, &played.node, played.history.as_slice());
    match kind {
        "vote" => digest_line(played, kept_vote(alloc, node, history, round, who)?, answer),
        "counted" => vote_line(
            played,
            kept_counted(alloc, node, history, round, who)?,
            answer,
        ),
        "slot" => kept_slot_line(played, round, who, answer),
        _ => line("bad case", answer),
    }
}

fn kept_slot_line(
    played: &Played,
    round: u64,
    author: u16,
    answer: &mut String,
) -> Result<(), AllocError> {
    let found = kept_slot(played.alloc, &played.node, &played.history, round, author)?;
    label_line(&played.labels, found.as_ref(), answer)
}

/// Shows whether the header that the node proposes passes the checks, also the check of its signature.
pub fn passes(played: &Played, answer: &mut String) -> Result<(), AllocError> {
    match propose(played.alloc, &played.node, &played.history)? {
        None => line("none", answer),
        Some(header) => {
            let own = played.node.own;
            let checked = check(
                &played.node.committee,
                &HashVerify,
                own,
                Message::Header(header),
            );
            yes_or_no(checked.is_ok(), answer)
        }
    }
}
