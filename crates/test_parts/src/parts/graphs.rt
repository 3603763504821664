//! Tests of a DAG that the words of a test case change and ask in turn.

ghost use Rattle.std.specs.Prelude.{◌≡◌, ◌<◌, length};
ghost use Rattle.wire.specs.Digests.{header_digest_of, certificate_digest_of};

use crate::parts::certificates::{certificate_of, digest_of};
use crate::parts::looks::look;
use crate::parts::words::{Reported, numbers_in, parted, round_of, set_of, whether};
use committee::Committee;
use dag::{Added, Dag, DagRefusal, Reads};
use std::alloc::Global;
use wire::{Certificate, Digest, Round};

/// Carries out these words on a DAG, and shows its answers.
pub fn graph(alloc: Global, committee: &Committee, words: &str, answer: &mut String) -> Reported {
    let mut dag = Dag::new(alloc, committee)?;
    let mut reads = Reads::new();
    for word in words.split_whitespace() {
        play(alloc, &mut dag, &mut reads, word, answer)?;
    }
    Ok(())
}

fn play(
    alloc: Global,
    dag: &mut Dag,
    reads: &mut Reads,
    word: &str,
    answer: &mut String,
) -> Reported {
    let (name, rest) = parted(word, '-');
    let numbers = numbers_in(alloc, rest)?;
    obey(alloc, dag, reads, name, &numbers, answer)
}

fn obey(
    alloc: Global,
    dag: &mut Dag,
    reads: &mut Reads,
    name: &str,
    numbers: &[u64],
    answer: &mut String,
) -> Reported {
    match (way_of(name), numbers) {
        (Some(way), [round, author, parents @ ..]) => {
            add(alloc, dag, way, (*round, *author), parents, answer)
        }
        _ => match is_asked(name) {
            true => ask(alloc, dag, name, numbers, answer),
            false => change(alloc, dag, reads, name, numbers, answer),
        },
    }
}

// How a certificate is added to a DAG: without its digest, with it, or by `hold` after `answer` said that it is new.
#[derive(Clone, Copy, PartialEq, Eq)]
enum Way {
    Bare,
    Digested,
    Held,
}

fn way_of(name: &str) -> Option<Way> {
    match name {
        "add" => Some(Way::Bare),
        "put" => Some(Way::Digested),
        "hold" => Some(Way::Held),
        _ => None,
    }
}

fn is_asked(name: &str) -> bool {
    name == "answer" || name == "has_parents"
}

fn add(
    alloc: Global,
    dag: &mut Dag,
    way: Way,
    numbers: (u64, u64),
    parents: &[u64],
    answer: &mut String,
) -> Reported {
    let certificate = certificate_of(alloc, dag, numbers.0, numbers.1, parents)?;
    if certificate.header.author.0 >= dag.committee().size() {
        return answer.push_str("no member\n");
    }
    if certificate.header.parents.len() == 0 {
        return answer.push_str("no parent\n");
    }
    let digest = digest_of(&certificate);
    let added = match way {
        Way::Bare => dag.add(certificate),
        Way::Digested => dag.add_digested(certificate, digest),
        Way::Held => hold(dag, certificate, digest),
    };
    write_added(answer, &added)
}

// Holds a certificate in the DAG, if it is new. Its author is a member, and it names a parent.
fn hold(dag: &mut Dag, certificate: Certificate, digest: Digest) -> Result<Added, DagRefusal>
    requires member { certificate.header.author.0 < length dag.old.charter.keys }
    requires named { 0 < length certificate.header.parents }
    requires digested { digest.0 ≡ certificate_digest_of (header_digest_of certificate.header) certificate.header.round certificate.header.author.0 }
{
    let added = dag.answer(&certificate, &digest)?;
    if added == Added::New {
        dag.hold(certificate, digest)?;
    }
    Ok(added)
}

// Shows the DAG's answer to a certificate that was offered.
fn write_added(answer: &mut String, added: &Result<Added, DagRefusal>) -> Reported {
    match added {
        Ok(added) => writeln!(answer, "{added:?}"),
        Err(refusal) => writeln!(answer, "{refusal}"),
    }
}

// Runs the command of this name with these numbers: it changes the DAG, or asks the DAG something and writes the answer.
fn change(
    alloc: Global,
    dag: &mut Dag,
    reads: &mut Reads,
    name: &str,
    numbers: &[u64],
    answer: &mut String,
) -> Reported {
    match (name, numbers) {
        ("full", [first, last]) => full(alloc, dag, *first, *last, answer),
        ("mark", [round, authors @ ..]) => {
            dag.mark(round_of(*round), &set_of(authors));
            Ok(())
        }
        ("commit", [round]) => {
            dag.commit_to(round_of(*round));
            Ok(())
        }
        ("drop", [round]) => {
            dag.drop_below(round_of(*round));
            Ok(())
        }
        _ => look(dag, reads, name, numbers, answer),
    }
}

// Adds the certificates of four members for these rounds, each with the four certificates of the round before as parents; shows how many
// rounds were full then.
fn full(alloc: Global, dag: &mut Dag, first: u64, last: u64, answer: &mut String) -> Reported {
    let mut text = String::new(alloc);
    for round in first..last.saturating_add(1) {
        full_round(alloc, dag, round, &mut text)?;
    }
    let count = text.lines().filter(|line| *line == "New").count();
    writeln!(answer, "{count}")
}

fn full_round(alloc: Global, dag: &mut Dag, round: u64, text: &mut String) -> Reported {
    for author in 0..4 {
        add(alloc, dag, Way::Bare, (round, author), &[0, 1, 2, 3], text)?;
    }
    Ok(())
}

// Shows what a DAG answers about a certificate, which isn't added to the DAG.
fn ask(alloc: Global, dag: &Dag, name: &str, numbers: &[u64], answer: &mut String) -> Reported {
    let [round, author, parents @ ..] = numbers else {
        return answer.push_str("bad word\n");
    };
    let certificate = certificate_of(alloc, dag, *round, *author, parents)?;
    match name {
        "answer" => {
            let digest = digest_of(&certificate);
            write_added(answer, &dag.answer(&certificate, &digest))
        }
        _ => whether("has_parents", dag.has_parents(&certificate.header), answer),
    }
}
