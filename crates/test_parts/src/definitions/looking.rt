//! Commands that look at a history: certificates, leaders, the order, and what is proposed and kept.

use crate::definitions::played::Played;
use crate::definitions::searching;
use crate::definitions::showing::{
    add, certificate_label, certificates, label_line, label_of, line, order, outputs, yes_or_no,
};
use crate::parts::list;
use ref_admission::giving::{given, is_given};
use ref_admission::proposing::propose;
use ref_order::ledger::Ledger;
use ref_order::newer::{last_wave, newer};
use ref_order::ordering::{chain, committed, floor_by, leader, order_by, top};
use ref_order::slots::{has_path, is_parent, reaches, round_of, slot};
use ref_order::{certificates as held, histories, holdings};
use sim_script::Labels;
use std::alloc::{AllocError, Global};
use wire::{Certificate, Header};

/// The certificates and the coins of a history.
#[derive(Drop)]
pub struct View {
    certificates: Vec<Certificate>,
    coins: Vec<u64>,
}

fn ledger_of<'a>(played: &'a Played, view: &'a View) -> Ledger<'a> {
    Ledger {
        committee: &played.node.committee,
        certificates: &view.certificates,
        coins: &view.coins,
    }
}

fn seen(played: &Played) -> Result<View, AllocError> {
    Ok(View {
        certificates: held::certificates(played.alloc, &played.node, &played.history)?,
        coins: histories::coins(played.alloc, &played.history)?,
    })
}

impl View {
    fn find(&self, played: &Played, label: &str) -> Option<&Certificate> {
        self.certificates.iter().find(|certificate| certificate_label(&played.labels, certificate)
            == label)
    }
}

/// The words of a line.
pub fn words_of(alloc: Global, line: &str) -> Result<Vec<&str>, AllocError> {
    line.split(' ').collect(alloc)
}

pub fn number(word: &str) -> u64 {
    word.parse().unwrap_or(0)
}

pub fn member(word: &str) -> u16 {
    word.parse().unwrap_or(65535)
}

/// What a command that looks at a history is about.
#[derive(Clone, Copy)]
enum About {
    State,
    Batches,
    Votes,
    Leaders,
    Certificates,
}

/// For each of these the names of the commands that are about it, separated by blanks; all other commands are about certificates. A table
/// costs less proof time than a match arm for each name.
const NAMES: [(About, &str); 4] = [
    (About::State, "floor counts propose given"),
    (
        About::Batches,
        "available acked own-batch was-named to-name nameable placed",
    ),
    (
        About::Votes,
        "voted vote-on counted entries completed held kept",
    ),
    (About::Leaders, "top committed chain newer leader by"),
];

fn kind_of_look(name: &str) -> About {
    for (about, names) in NAMES {
        if names.split(' ').any(|one| one == name) {
            return about;
        }
    }
    About::Certificates
}

/// Carries out a command that looks at a history.
pub fn look(played: &Played, words: &[&str], answer: &mut String) -> Result<(), AllocError> {
    let Some(name) = words.first() else {
        return line("bad case", answer);
    };
    match kind_of_look(name) {
        About::State => look_around(played, name, answer),
        About::Batches => searching::batches(played, words, answer),
        About::Votes => searching::votes(played, words, answer),
        About::Leaders => leaders(played, &seen(played)?, words, answer),
        About::Certificates => look_at(played, &seen(played)?, words, answer),
    }
}

fn look_around(played: &Played, name: &str, answer: &mut String) -> Result<(), AllocError> {
    match name {
        "floor" => floor(played, answer),
        "counts" => counts(played, answer),
        "propose" => proposal(played, answer),
        _ => {
            let given = given(played.alloc, &played.node, &played.history)?;
            outputs(&played.labels, given.as_slice(), answer)
        }
    }
}

fn look_at(
    played: &Played,
    view: &View,
    words: &[&str],
    answer: &mut String,
) -> Result<(), AllocError> {
    match words {
        [_] => certificates(&played.labels, "certificates", &view.certificates, answer),
        [name, round] => look_in(played, view, name, number(round), answer),
        [name, first, second] => look_for(played, view, name, first, second, answer),
        _ => line("bad case", answer),
    }
}

/// Shows what the certificates of a round are, or count.
fn look_in(
    played: &Played,
    view: &View,
    name: &str,
    round: u64,
    answer: &mut String,
) -> Result<(), AllocError> {
    match name {
        "full" => full(played, view, round, answer),
        "of-round" => of_round(played, view, round, answer),
        _ => line("bad case", answer),
    }
}

fn look_for(
    played: &Played,
    view: &View,
    name: &str,
    first: &str,
    second: &str,
    answer: &mut String,
) -> Result<(), AllocError> {
    match name {
        "low" => yes_or_no(holdings::is_low(number(first), number(second)), answer),
        "slot" => slot_line(played, view, number(first), member(second), answer),
        "is-given" => given_line(played, view, number(first), member(second), answer),
        _ => match (view.find(played, first), view.find(played, second)) {
            (Some(one), Some(other)) => paths(played, view, name, one, other, answer),
            _ => line("bad case", answer),
        },
    }
}

/// Shows whether the certificate in a slot may leave the node; `none` if there is no certificate.
fn given_line(
    played: &Played,
    view: &View,
    round: u64,
    author: u16,
    answer: &mut String,
) -> Result<(), AllocError> {
    match slot(&view.certificates, round, author) {
        None => line("none", answer),
        Some(found) => yes_or_no(is_given(&played.node, &played.history, found), answer),
    }
}

fn floor(played: &Played, answer: &mut String) -> Result<(), AllocError> {
    let floor = held::floor(played.alloc, &played.node, &played.history)?;
    list("floor", &[floor], answer)
}

fn counts(played: &Played, answer: &mut String) -> Result<(), AllocError> {
    let (alloc, history) = (played.alloc, played.history.as_slice());
    count("batches", histories::batches(alloc, history), answer)?;
    count(" acks", histories::acks(alloc, history), answer)?;
    count(" headers", histories::headers(alloc, history), answer)?;
    count(" votes", histories::votes(alloc, history), answer)?;
    count(" received", histories::received(alloc, history), answer)?;
    count(" coins", histories::coins(alloc, history), answer)?;
    answer.push_str("\n")
}

/// Adds a word, and how many things were found.
fn count<T: Drop>(
    word: &str,
    found: Result<Vec<T>, AllocError>,
    answer: &mut String,
) -> Result<(), AllocError> {
    let count = found?.len();
    write!(answer, "{word} {count}")
}

fn full(played: &Played, view: &View, round: u64, answer: &mut String) -> Result<(), AllocError> {
    let is_full = holdings::is_full(&played.node, &view.certificates, round);
    yes_or_no(is_full, answer)
}

fn of_round(
    played: &Played,
    view: &View,
    round: u64,
    answer: &mut String,
) -> Result<(), AllocError> {
    let found = round_of(played.alloc, played.node.size(), &view.certificates, round)?;
    certificates(&played.labels, "of", &found, answer)
}

fn slot_line(
    played: &Played,
    view: &View,
    round: u64,
    author: u16,
    answer: &mut String,
) -> Result<(), AllocError> {
    label_line(
        &played.labels,
        slot(&view.certificates, round, author),
        answer,
    )
}

/// Shows whether one certificate is a parent of another one, or is reached from it along parents.
fn paths(
    played: &Played,
    view: &View,
    how: &str,
    one: &Certificate,
    other: &Certificate,
    answer: &mut String,
) -> Result<(), AllocError> {
    let (alloc, size, all) = (played.alloc, played.node.size(), &view.certificates);
    match how {
        "parent" => yes_or_no(is_parent(one, other), answer),
        "reaches" => yes_or_no(reaches(alloc, size, all, one, other)?, answer),
        "path-of-1" => yes_or_no(has_path(alloc, size, all, 1, one, other)?, answer),
        _ => line("bad case", answer),
    }
}

/// Carries out a command about leaders and what they order.
fn leaders(
    played: &Played,
    view: &View,
    words: &[&str],
    answer: &mut String,
) -> Result<(), AllocError> {
    let ledger = ledger_of(played, view);
    match words {
        [name] => leaders_now(played, &ledger, name, answer),
        [name, wave] => leaders_of(played, &ledger, name, number(wave), answer),
        _ => line("bad case", answer),
    }
}

fn leaders_now(
    played: &Played,
    ledger: &Ledger,
    name: &str,
    answer: &mut String,
) -> Result<(), AllocError> {
    match name {
        "top" => tops(ledger, answer),
        "by" => by_ledger(played, ledger, answer),
        "committed" => {
            let found = committed(played.alloc, ledger)?;
            certificates(&played.labels, name, &found, answer)
        }
        _ => line("bad case", answer),
    }
}

/// Shows the leader of a wave (`leader`), all leaders that are committed if this one is (`chain`), or the committed leaders of later waves
/// (`newer`).
fn leaders_of(
    played: &Played,
    ledger: &Ledger,
    name: &str,
    wave: u64,
    answer: &mut String,
) -> Result<(), AllocError> {
    let found = match name {
        "leader" => return label_line(&played.labels, leader(ledger, wave), answer),
        "chain" => chain(played.alloc, ledger, wave)?,
        "newer" => newer(played.alloc, ledger, wave)?,
        _ => return line("bad case", answer),
    };
    certificates(&played.labels, name, &found, answer)
}

fn tops(ledger: &Ledger, answer: &mut String) -> Result<(), AllocError> {
    let last = last_wave(ledger);
    match top(ledger) {
        None => writeln!(answer, "top none, {last}"),
        Some(wave) => writeln!(answer, "top {wave}, {last}"),
    }
}

/// Shows the order and the floor that certificates and coins determine.
fn by_ledger(played: &Played, ledger: &Ledger, answer: &mut String) -> Result<(), AllocError> {
    let floor = floor_by(ledger);
    write!(answer, "floor {floor}, order")?;
    let digests = order_by(played.alloc, ledger)?;
    order(&played.labels, &digests, answer)
}

/// The header that the node proposes.
fn proposal(played: &Played, answer: &mut String) -> Result<(), AllocError> {
    let found = propose(played.alloc, &played.node, &played.history)?;
    proposal_line(&played.labels, found, answer)
}

/// Shows the header that is proposed; `none` if none is.
pub fn proposal_line(
    labels: &Labels,
    found: Option<Header>,
    answer: &mut String,
) -> Result<(), AllocError> {
    match found {
        None => line("proposes none", answer),
        Some(header) => proposed(labels, &header, answer),
    }
}

/// Shows the round of a header, the labels of its parents, and those of its batches.
fn proposed(labels: &Labels, header: &Header, answer: &mut String) -> Result<(), AllocError> {
    let round = header.body.round.number();
    write!(answer, "proposes {round}")?;
    let mut mark = " ";
    for parent in header.body.parents.as_slice() {
        add(mark, label_of(labels, &parent.certificate), answer)?;
        mark = ",";
    }
    searching::named(labels, header.body.batches.as_slice(), answer)
}
