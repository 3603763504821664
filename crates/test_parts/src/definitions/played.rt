//! A history that grows by commands, and its outputs.

use crate::definitions::beside::{
    answers_by_tables, compare_answers, compare_held, compare_states, report, same,
};
use crate::definitions::keeping::compare_kept;
use crate::definitions::looking::{look, member, number, words_of};
use crate::definitions::searching::passes;
use crate::definitions::showing::{header_label, line, order, outputs};
use crate::definitions::weighing::{committee_of, label_genesis};
use crate::parts::list;
use committee::Committee;
use header::{Admission, Event, Node, Outputs, check};
use ref_admission::runs::{admit_last, answers, each_new};
use ref_machine::{Tables, after, fresh};
use ref_order::certificates::round;
use ref_order::holdings::voted_digest;
use sigface::{HashSign, HashVerify};
use sim_script::{
    BATCHES, Command, DEPTH, FormError, Labels, OWN, Setting, committee_file, define_batch,
    define_header, message_of, parse, signer,
};
use std::alloc::{AllocError, Global};
use wire::{Author, Coin, Message, Wave};

/// The line of an output, which may be shown once `ticket` events are settled.
#[derive(Drop)]
struct Waiting {
    ticket: usize,
    line: String,
}

/// How often the tables were compared with the history, over all test cases.
#[derive(Clone, Copy)]
struct Counts {
    answers: u64,
    states: u64,
}

/// The history of one node, its tables, and its outputs.
#[derive(Drop)]
pub struct Played {
    pub alloc: Global,
    pub node: Node<HashSign>,
    pub labels: Labels,
    pub history: Vec<Event>,
    pub tables: Tables,
    counts: Counts,
    waiting: Vec<Waiting>,
    collected: usize,
    settled: usize,
    /// Whether the outputs of an event are shown with its answer, and not only when the event is settled.
    reports: bool,
    /// Whether events are only gathered, and answered later all together.
    gathers: bool,
}

/// Member 0 of four, with these limits.
fn node_with(alloc: Global, depth: u64, batches: u64) -> Result<Node<HashSign>, AllocError> {
    let file = committee_file(alloc, depth, batches)?;
    match Committee::read(alloc, file.as_str()) {
        Err(_) => Err(AllocError),
        Ok(committee) => Ok(Node {
            own: OWN,
            committee,
            signer: signer(OWN),
        }),
    }
}

impl Played {
    /// The state before the first command: a node with an empty history.
    pub fn new(alloc: Global) -> Result<Played, AllocError> {
        let node = node_with(alloc, DEPTH, BATCHES)?;
        let tables = fresh(alloc, &node)?;
        Ok(Played {
            alloc,
            node,
            labels: Labels::new(alloc),
            history: Vec::new(alloc),
            tables,
            counts: Counts {
                answers: 0,
                states: 0,
            },
            waiting: Vec::new(alloc),
            collected: 0,
            settled: 0,
            reports: false,
            gathers: false,
        })
    }

    /// Carries out a command of scripts.
    fn run(&mut self, command: Command<'_>, answer: &mut String) -> Result<(), FormError> {
        match command {
            Command::Set(setting) => Ok(self.begin_with(setting)?),
            Command::Pack(pack) => define_batch(self.alloc, &mut self.labels, &pack),
            Command::Form(form) => define_header(self.alloc, &mut self.labels, &form),
            other => self.run_over_history(other, answer),
        }
    }

    /// Carries out a command that looks at the history, or submits a message to the node.
    fn run_over_history(
        &mut self,
        command: Command<'_>,
        answer: &mut String,
    ) -> Result<(), FormError> {
        match command {
            Command::Flush => Ok(self.flush(answer)?),
            Command::Collect => Ok(self.collect(answer)?),
            Command::Order => Ok(self.order(answer)?),
            Command::Round => Ok(self.round(answer)?),
            Command::Peek { author, round } => Ok(self.peek(author, round, answer)?),
            other => self.submit(other, answer),
        }
    }

    /// Takes another node, with a new committee and the tables before any event.
    fn begin_with(&mut self, setting: Setting) -> Result<(), AllocError> {
        let (depth, batches) = match setting {
            Setting::Depth(depth) => (depth, BATCHES),
            Setting::Batches(most) => (DEPTH, most),
            // Stakes are set by a command that only these tests have, and there is no journal.
            Setting::Stakes(_) | Setting::FirstVersion => (DEPTH, BATCHES),
        };
        self.node = node_with(self.alloc, depth, batches)?;
        self.tables = fresh(self.alloc, &self.node)?;
        Ok(())
    }

    fn submit(&mut self, command: Command<'_>, answer: &mut String) -> Result<(), FormError> {
        let (sender, message) = message_of(self.alloc, &self.labels, command)?;
        Ok(self.take(sender, message, answer)?)
    }

    /// Takes a message if it passes the checks. A message that is only gathered isn't checked.
    fn take(
        &mut self,
        sender: Author,
        message: Message,
        answer: &mut String,
    ) -> Result<(), AllocError> {
        if self.gathers {
            self.history.push(Event { sender, message })?;
            return Ok(());
        }
        match check(&self.node.committee, &HashVerify, sender, message) {
            Err(error) => writeln!(answer, "unchecked {error}"),
            Ok(checked) => {
                let (sender, message) = (checked.sender(), checked.into_message());
                self.history.push(Event { sender, message })?;
                self.admit(answer)
            }
        }
    }

    /// Answers the last event of the history, and removes the event from the history if it isn't new.
    fn admit(&mut self, answer: &mut String) -> Result<(), AllocError> {
        if self.history.is_empty() {
            return Ok(());
        }
        let found = admit_last(self.alloc, &self.node, &self.history)?;
        compare_answers(self, &found, answer)?;
        self.counts.answers = self.counts.answers.saturating_add(1);
        match found.is_new() {
            true => self.follow(answer)?,
            false => drop(self.history.pop()),
        }
        self.admitted(&found, answer)
    }

    /// Shows the answer to an event, and how many events the history has then.
    fn admitted(&mut self, found: &Admission, answer: &mut String) -> Result<(), AllocError> {
        match found {
            Admission::New(outputs) => self.accepted("new", outputs, answer),
            Admission::Known(outputs) => self.accepted("known", outputs, answer),
            Admission::Refused(refusal) => writeln!(answer, "refused {refusal}"),
        }
    }

    fn accepted(
        &mut self,
        word: &str,
        list: &Outputs,
        answer: &mut String,
    ) -> Result<(), AllocError> {
        let ticket = self.history.len();
        writeln!(answer, "{word} {ticket}")?;
        self.put_out(ticket, list, answer)
    }

    /// Applies the last event of the history to the tables, and compares the tables with the history.
    fn follow(&mut self, answer: &mut String) -> Result<(), AllocError> {
        if let Some(event) = self.history.last() {
            let tables = self.tables.try_clone(self.alloc)?;
            self.tables = after(self.alloc, &self.node, tables, event)?;
        }
        compare_states(self, answer)?;
        compare_held(self, answer)?;
        compare_kept(self, answer)?;
        self.counts.states = self.counts.states.saturating_add(1);
        Ok(())
    }

    fn put_out(
        &mut self,
        ticket: usize,
        list: &Outputs,
        answer: &mut String,
    ) -> Result<(), AllocError> {
        if self.reports {
            return outputs(&self.labels, list.as_slice(), answer);
        }
        let mut reported = String::new(self.alloc);
        outputs(&self.labels, list.as_slice(), &mut reported)?;
        for text in reported.lines() {
            let line = String::from_str(self.alloc, text)?;
            self.waiting.push(Waiting { ticket, line })?;
        }
        Ok(())
    }

    fn flush(&mut self, answer: &mut String) -> Result<(), AllocError> {
        let count = self.history.len().saturating_sub(self.settled);
        self.settled = self.history.len();
        list("settled", &[count as u64], answer)
    }

    fn collect(&mut self, answer: &mut String) -> Result<(), AllocError> {
        match self.waiting.get(self.collected) {
            Some(waiting) if waiting.ticket <= self.settled => {
                self.collected = self.collected.saturating_add(1);
                line(waiting.line.as_str(), answer)
            }
            _ => line("out none", answer),
        }
    }

    fn order(&self, answer: &mut String) -> Result<(), AllocError> {
        let settled = self.history.as_slice().get(..self.settled).unwrap_or(&[]);
        let digests = ref_order::certificates::order(self.alloc, &self.node, settled)?;
        answer.push_str("order")?;
        order(&self.labels, &digests, answer)
    }

    fn round(&self, answer: &mut String) -> Result<(), AllocError> {
        let round = round(self.alloc, &self.node, &self.history)?;
        list("round", &[round], answer)
    }

    fn peek(&self, author: Author, round: u64, answer: &mut String) -> Result<(), AllocError> {
        let label = match voted_digest(&self.history, round, author.0) {
            None => "none",
            Some(digest) => header_label(&self.labels, &digest),
        };
        writeln!(answer, "voted {label}")
    }

    /// Answers each of the events that were gathered, in order.
    fn answer_all(&mut self, answer: &mut String) -> Result<(), AllocError> {
        let events = std::mem::replace(&mut self.history, Vec::new(self.alloc));
        let by_tables = answers_by_tables(self, &events)?;
        let by_history = self.answers_by_history(events, answer)?;
        same("answers", by_history, by_tables, answer)
    }

    fn answers_by_history(
        &self,
        events: Vec<Event>,
        answer: &mut String,
    ) -> Result<String, AllocError> {
        let mut text = String::new(self.alloc);
        for found in &answers(self.alloc, &self.node, events)? {
            report(self, found, &mut text)?;
            report_kind(found, answer)?;
        }
        Ok(text)
    }

    fn each_is_new(&mut self, answer: &mut String) -> Result<(), AllocError> {
        let events = std::mem::replace(&mut self.history, Vec::new(self.alloc));
        let each = each_new(self.alloc, &self.node, events)?;
        writeln!(answer, "{each}")
    }

    fn compared(&self, answer: &mut String) -> Result<(), AllocError> {
        let (answers, states) = (self.counts.answers, self.counts.states);
        writeln!(answer, "compared {answers} answers, {states} states")
    }

    /// Gives the node a committee whose members have these stakes, with the limits of its last committee.
    fn weigh(&mut self, stakes: &str) -> Result<(), FormError> {
        let limits = &self.node.committee;
        let committee = committee_of(
            self.alloc,
            stakes,
            limits.depth(),
            u64::from(limits.batches()),
        )?;
        label_genesis(self.alloc, &mut self.labels, committee.size())?;
        self.node.committee = committee;
        self.tables = fresh(self.alloc, &self.node)?;
        Ok(())
    }

    /// Carries out a command that only these tests have.
    fn run_own(&mut self, words: &[&str], answer: &mut String) -> Result<(), FormError> {
        match words {
            [name] => Ok(self.run_word(name, words, answer)?),
            ["stakes", stakes] => self.weigh(stakes),
            ["tell", "outputs"] => {
                self.reports = true;
                Ok(())
            }
            ["coin-from", sender, wave, value] => {
                let (sender, message) = coin(sender, wave, value)?;
                Ok(self.take(sender, message, answer)?)
            }
            _ => Ok(look(self, words, answer)?),
        }
    }

    /// Carries out a command of one word.
    fn run_word(
        &mut self,
        name: &str,
        words: &[&str],
        answer: &mut String,
    ) -> Result<(), AllocError> {
        match name {
            "gather" => {
                self.gathers = true;
                Ok(())
            }
            "answers" => self.answer_all(answer),
            "compared" => self.compared(answer),
            "each-new" => self.each_is_new(answer),
            "proposal-passes" => passes(self, answer),
            _ => look(self, words, answer),
        }
    }

    /// Begins a test case.
    pub fn begin(&mut self) -> Result<(), AllocError> {
        let counts = self.counts;
        *self = Played::new(self.alloc)?;
        self.counts = counts;
        Ok(())
    }

    /// Carries out a command, and adds the lines of its answer.
    pub fn obey(&mut self, command: &str, answer: &mut String) -> Result<(), AllocError> {
        match self.run_line(command, answer) {
            Ok(()) => Ok(()),
            Err(FormError::BadCommand) => line("bad case", answer),
            Err(FormError::Unread(error)) => writeln!(answer, "unread {error}"),
            Err(FormError::Memory) => Err(AllocError),
        }
    }

    fn run_line(&mut self, text: &str, answer: &mut String) -> Result<(), FormError> {
        if let Some(command) = parse(text.as_bytes()) {
            return self.run(command, answer);
        }
        let words = words_of(self.alloc, text)?;
        self.run_own(&words, answer)
    }
}

/// Adds an answer, without its outputs.
pub fn report_kind(found: &Admission, answer: &mut String) -> Result<(), AllocError> {
    match found {
        Admission::New(_) => line("new", answer),
        Admission::Known(_) => line("known", answer),
        Admission::Refused(refusal) => writeln!(answer, "refused {refusal}"),
    }
}

/// The coin of a wave, from this sender.
pub fn coin(sender: &str, wave: &str, value: &str) -> Result<(Author, Message), FormError> {
    let (wave, value) = (Wave::new(number(wave))?, number(value));
    Ok((Author(member(sender)), Message::Coin(Coin { wave, value })))
}
