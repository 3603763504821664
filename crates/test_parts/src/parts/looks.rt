//! Shows what can be seen of a DAG.

use crate::parts::words::{Reported, author_of, list, round_of, set_of, whether, write_set};
use dag::{Dag, Reads, answers_as_admission, reach_stays, reach_stays_above};
use wire::{Author, Round};

/// Shows what a word of a test case asks of a DAG.
pub fn look(
    dag: &Dag,
    reads: &mut Reads,
    name: &str,
    numbers: &[u64],
    answer: &mut String,
) -> Reported {
    match (name, numbers) {
        ("step", [round, authors @ ..]) => step(dag, reads, round_of(*round), authors, answer),
        (_, []) => own_look(dag, name, answer),
        (_, [round]) => round_look(dag, name, round_of(*round), answer),
        (_, [round, author]) => {
            slot_look(dag, name, round_of(*round), author_of(*author), answer)
        }
        ("reached", [round, author, below]) => {
            let below = round_of(*below);
            reached(dag, round_of(*round), author_of(*author), below, answer)
        }
        ("walk", [round, author, below]) => {
            let below = round_of(*below);
            walk(dag, round_of(*round), author_of(*author), below, answer)
        }
        ("parent", [round, author, place]) => parent(dag, reads, *round, *author, *place, answer),
        _ => answer.push_str("bad word\n"),
    }
}

fn own_look(dag: &Dag, name: &str, answer: &mut String) -> Reported {
    match name {
        "floor" => list(name, &[dag.floor().number()], answer),
        "base" => list(name, &[dag.base().number()], answer),
        "end" => list(name, &[dag.end()], answer),
        "laws" => {
            laws(dag);
            answer.push_str("laws\n")
        }
        _ => answer.push_str("bad word\n"),
    }
}

// Calls the functions that do nothing and whose contracts are laws of this DAG, or of all DAGs.
fn laws(dag: &Dag) {
    dag.limits_hold();
    answers_as_admission();
    reach_stays();
    reach_stays_above();
}

fn round_look(dag: &Dag, name: &str, round: Round, answer: &mut String) -> Reported {
    match name {
        "count" => list(name, &[dag.count(round) as u64], answer),
        "stake" => list(name, &[dag.stake_at(round)], answer),
        "low" => whether(name, dag.is_low(round), answer),
        "authors" => write_set(answer, name, &dag.authors_at(round)),
        "unmarked" => write_set(answer, name, &dag.unmarked_at(round)),
        _ => answer.push_str("bad word\n"),
    }
}

fn slot_look(dag: &Dag, name: &str, round: Round, author: Author, answer: &mut String) -> Reported {
    match name {
        "held" => whether(name, dag.get(round, author).is_some(), answer),
        "marked" => whether(name, dag.is_marked(round, author), answer),
        "supporters" => supporters(dag, round, author, answer),
        "parents" => parents(dag, round, author, answer),
        "backers" => write_set(answer, name, &dag.supporters(round, author)),
        "named" => write_set(answer, name, &dag.parents(round, author)),
        _ => answer.push_str("bad word\n"),
    }
}

fn supporters(dag: &Dag, round: Round, author: Author, answer: &mut String) -> Reported {
    if round.number() < dag.base().number() {
        return answer.push_str("below the base\n");
    }
    write_set(answer, "supporters", &dag.supporters(round, author))
}

fn parents(dag: &Dag, round: Round, author: Author, answer: &mut String) -> Reported {
    if round.number() <= dag.base().number() {
        return answer.push_str("not above the base\n");
    }
    write_set(answer, "parents", &dag.parents(round, author))
}

fn reached(dag: &Dag, round: Round, author: Author, below: Round, answer: &mut String) -> Reported {
    if below.number() < dag.base().number() {
        return answer.push_str("below the base\n");
    }
    if round.number() <= below.number() {
        return answer.push_str("not lower\n");
    }
    write_set(answer, "reached", &dag.reached(round, author, below))
}

fn walk(dag: &Dag, round: Round, author: Author, below: Round, answer: &mut String) -> Reported {
    if round.number() < below.number() {
        return answer.push_str("not so high\n");
    }
    write_set(answer, "walk", &dag.reached(round, author, below))
}

fn step(
    dag: &Dag,
    reads: &mut Reads,
    round: Round,
    authors: &[u64],
    answer: &mut String,
) -> Reported {
    if reads.number() >= 1000 {
        return answer.push_str("too many\n");
    }
    let parents = dag.parents_of(round, &set_of(authors), reads);
    write_set(answer, "step", &parents)?;
    list("reads", &[reads.number()], answer)
}

fn parent(
    dag: &Dag,
    reads: &mut Reads,
    round: u64,
    author: u64,
    place: u64,
    answer: &mut String,
) -> Reported {
    let (round, author) = (round_of(round), author_of(author));
    match dag.parent(round, author, place as usize, reads) {
        Some((parent, digest)) => {
            let below = round_of(round.number().saturating_sub(1));
            let is_held = dag.digest(below, parent) == Some(&digest);
            write!(answer, "parent {} held {is_held}", parent.0)?;
        }
        None => answer.push_str("parent none")?,
    }
    list(" reads", &[reads.number()], answer)
}
