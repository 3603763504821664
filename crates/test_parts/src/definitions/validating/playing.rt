//! Plays the lines of a test case through a validator and, for the first events, through the reference implementation.

ghost use Rattle.std.specs.Prelude.{◌≡◌, None};
ghost use Rattle.header.specs.Checks.{fault_of, accepts_all};

use crate::definitions::looking::{number, proposal_line, words_of};
use crate::definitions::played::coin;
use crate::definitions::validating::asking::{Last, asked, report_seen, report_vote};
use crate::definitions::validating::beside::Beside;
use crate::definitions::validating::loading::{Expected, Loads, has_records, loaded_again};
use crate::definitions::validating::seen::seen_of;
use crate::definitions::validating::sum::Sum;
use crate::definitions::validating::tally::{Tally, counts};
use crate::definitions::weighing::label_genesis;
use crate::parts::{list, parted};
use committee::Committee;
use header::{CheckError, Checked, Event, Node, check};
use sigface::{HashSign, HashVerify};
use sim_script::{
    Command, FormError, Labels, OWN, define_batch, define_header, message_of, parse, signer,
};
use std::alloc::{AllocError, Global};
use validator::{Config, Refusal, Step, Validator};
use wire::{Author, Header, Message};

/// How the lines of a test case are played.
#[derive(Clone, Copy)]
pub struct Way {
    /// How many of the first events are played through the reference implementation too.
    most: u64,
    /// Whether the validator is loaded anew wherever the lines give the records of its checkpoint.
    loads: bool,
}

impl Way {
    /// Plays the first events through the reference implementation too, as many as `most`.
    pub fn beside(most: u64) -> Way {
        Way { most, loads: false }
    }

    /// Loads the validator anew wherever the lines give the records of its checkpoint.
    pub fn loading() -> Way {
        Way {
            most: 0,
            loads: true,
        }
    }
}

/// A validator, with a checksum and counts over what it did, and with the reference implementation that is given the same events.
#[derive(Drop)]
struct Playing<'c> {
    alloc: Global,
    config: &'c Config<HashSign>,
    validator: Validator<'c, HashSign>,
    labels: Labels,
    beside: Beside,
    sum: Sum,
    tally: Tally,
    last: Option<Last>,
    /// At how many states the validator was loaded; None if that isn't counted.
    loads: Option<Loads>,
}

/// Plays these lines from the genesis on. Shows how often each answer came and what there is at the end, or the first line at which
/// something differs.
pub fn play_lines(
    alloc: Global,
    node: Node<HashSign>,
    committee: Committee,
    lines: &str,
    way: Way,
    answer: &mut String,
) -> Result<(), FormError> {
    let config = config_of(committee)?;
    let beside = Beside::new(alloc, node, way.most)?;
    let mut playing = Playing::new(alloc, &config, beside)?;
    if way.loads {
        playing.loads = Some(Loads::new());
    }
    playing.play(lines, answer)
}

/// The setting of member 0. This is a function of its own, since the contract of the call is long.
fn config_of(committee: Committee) -> Result<Config<HashSign>, FormError> {
    match Config::new(committee, OWN, signer(OWN)) {
        None => Err(FormError::BadCommand),
        Some(config) => Ok(config),
    }
}

impl<'c> Playing<'c> {
    fn new(
        alloc: Global,
        config: &'c Config<HashSign>,
        beside: Beside,
    ) -> Result<Playing<'c>, FormError> {
        Ok(Playing {
            alloc,
            config,
            validator: Validator::new(alloc, config)?,
            labels: Labels::new(alloc),
            beside,
            sum: Sum::new(),
            tally: Tally::new(),
            last: None,
            loads: None,
        })
    }

    /// Plays these lines, up to the first line at which something differs.
    fn play(&mut self, lines: &str, answer: &mut String) -> Result<(), FormError> {
        let members = self.validator.committee().size();
        label_genesis(self.alloc, &mut self.labels, members)?;
        for line in lines.lines() {
            if let Some(differs) = self.run(line)? {
                writeln!(answer, "{line}: otherwise {differs}")?;
                return Ok(());
            }
        }
        Ok(self.report(answer)?)
    }

    /// Runs a line. Returns the name of what differs from what it should be, if anything does.
    fn run(&mut self, line: &str) -> Result<Option<&'static str>, FormError> {
        match parse(line.as_bytes()) {
            Some(Command::Pack(pack)) => {
                define_batch(self.alloc, &mut self.labels, &pack)?;
                Ok(None)
            }
            Some(Command::Form(form)) => {
                define_header(self.alloc, &mut self.labels, &form)?;
                Ok(None)
            }
            Some(command) => {
                let (sender, message) = message_of(self.alloc, &self.labels, command)?;
                self.take(sender, message)
            }
            None => self.run_own(line),
        }
    }

    /// Runs a line of a kind that only these tests have: a coin from another member, the expected checksum, the expected records of a
    /// checkpoint, an event that doesn't pass the checks, or a question to the validator.
    fn run_own(&mut self, line: &str) -> Result<Option<&'static str>, FormError> {
        let words = words_of(self.alloc, line)?;
        self.run_words(line, &words)
    }

    fn run_words(&mut self, line: &str, words: &[&str]) -> Result<Option<&'static str>, FormError> {
        match words {
            ["coin-from", sender, wave, value] => {
                let (sender, message) = coin(sender, wave, value)?;
                self.take(sender, message)
            }
            ["sum", expected] => match number(expected) == self.sum.value() {
                true => Ok(None),
                false => Ok(Some("the sum")),
            },
            ["records", count, sum] => self.keep(Expected::of(count, sum)),
            ["unchecked", ..] => self.refuse(line),
            _ => match asked(words) {
                None => Err(FormError::BadCommand),
                Some(what) => self.ask(line, words, what),
            },
        }
    }

    /// Compares the records of the validator's checkpoint with what is expected of them. If a validator is to be loaded from them, the test
    /// goes on with the loaded one.
    fn keep(&mut self, expected: Expected) -> Result<Option<&'static str>, FormError> {
        if !has_records(&self.validator, expected)? {
            return Ok(Some("the records"));
        }
        match self.loads {
            None => Ok(None),
            Some(loads) => self.load(loads, expected),
        }
    }

    /// Loads a validator from the records of the old one, counts it, and compares the records of the new one.
    fn load(
        &mut self,
        mut loads: Loads,
        expected: Expected,
    ) -> Result<Option<&'static str>, FormError> {
        let Some(loaded) = loaded_again(self.alloc, self.config, &self.validator)? else {
            return Ok(Some("what loading is answered"));
        };
        self.validator = loaded;
        loads.count(&self.validator);
        self.loads = Some(loads);
        let is_same = has_records(&self.validator, expected)?;
        Ok(as_reported(is_same, "the records of the loaded validator"))
    }

    /// Tests a line of `unchecked`, an error's number and name, and an event: the event has to fail the checks with this error.
    fn refuse(&self, line: &str) -> Result<Option<&'static str>, FormError> {
        let (sender, message) = self.event_in(line)?;
        match check(self.validator.committee(), &HashVerify, sender, message) {
            Ok(_) => Ok(Some("checked")),
            Err(error) => Ok(same_error(self.alloc, line, error)?),
        }
    }

    /// The event of a line, from its fourth word on.
    fn event_in(&self, line: &str) -> Result<(Author, Message), FormError> {
        let mut rest = line;
        for _ in 0..3 {
            rest = parted(rest, ' ').1;
        }
        match parse(rest.as_bytes()) {
            None => Err(FormError::BadCommand),
            Some(command) => message_of(self.alloc, &self.labels, command),
        }
    }

    /// Asks the validator what the line asks. Returns the name of what differs if the answer is another line.
    fn ask(
        &self,
        line: &str,
        words: &[&str],
        what: &'static str,
    ) -> Result<Option<&'static str>, FormError> {
        let mut text = String::new(self.alloc);
        self.report_asked(words, &mut text)?;
        Ok(as_reported(text.as_str().trim_end() == line, what))
    }

    fn report_asked(&self, words: &[&str], text: &mut String) -> Result<(), AllocError> {
        match words {
            ["voted", round, author, _] => {
                report_vote(&self.labels, &self.validator, round, author, text)
            }
            ["proposes", ..] => proposal_line(&self.labels, self.proposal()?, text),
            [name, ..] => self.report_named(name, text),
            [] => Ok(()),
        }
    }

    fn report_named(&self, name: &str, text: &mut String) -> Result<(), AllocError> {
        match (name, &self.last) {
            ("floor" | "round" | "order", _) => {
                report_seen(&self.labels, &self.validator, name, text)
            }
            (_, Some(last)) => last.report(self.alloc, &self.labels, name, text),
            (_, None) => Ok(()),
        }
    }

    /// Gives an event to the validator, compares its answer, and adds the answer to the checksum.
    fn take(
        &mut self,
        sender: Author,
        message: Message,
    ) -> Result<Option<&'static str>, FormError> {
        let event = self.beside_event(sender, &message)?;
        match check(self.validator.committee(), &HashVerify, sender, message) {
            Ok(checked) => self.step(checked, event),
            Err(_) => Ok(Some("unchecked")),
        }
    }

    /// The event as the reference implementation takes it. None once that was given as many events as it is to be given.
    fn beside_event(&self, sender: Author, message: &Message) -> Result<Option<Event>, FormError> {
        if !self.beside.goes_on() {
            return Ok(None);
        }
        let message = again(message)?;
        Ok(Some(Event { sender, message }))
    }

    fn step(
        &mut self,
        checked: Checked,
        event: Option<Event>,
    ) -> Result<Option<&'static str>, FormError>
        requires { fault_of self.old.validator.setting.charter accepts_all checked ≡ None }
    {
        let is_ready = self.validator.ready(&checked);
        let step = self.validator.step(checked);
        if let Err(Refusal::Memory) = step {
            return Err(FormError::Memory);
        }
        self.tally.count(&step);
        Ok(self.compare(is_ready, step, event)?)
    }

    /// The header that the validator proposes. This is a function of its own, since the contract of the call is long, as in `seen_of`.
    fn proposal(&self) -> Result<Option<Header>, AllocError> {
        self.validator.propose()
    }

    fn compare(
        &mut self,
        is_ready: bool,
        step: Result<Step, Refusal>,
        event: Option<Event>,
    ) -> Result<Option<&'static str>, AllocError> {
        let proposal = self.proposal()?;
        let differs = self.compare_with(is_ready, &step, event.as_ref(), proposal.as_ref())?;
        self.last = Some(Last { is_ready, step });
        Ok(differs)
    }

    fn compare_with(
        &mut self,
        is_ready: bool,
        step: &Result<Step, Refusal>,
        event: Option<&Event>,
        proposal: Option<&Header>,
    ) -> Result<Option<&'static str>, AllocError> {
        self.tally.count_proposal(proposal.is_some());
        self.sum
            .add_event(&self.validator, is_ready, step, proposal);
        match event {
            None => Ok(None),
            Some(event) => self
                .beside
                .take(&self.validator, event, is_ready, step, proposal),
        }
    }

    /// Shows how often each answer came, the state at the end, and either how often the validator was loaded or how many events were
    /// compared with the reference implementation.
    fn report(&self, answer: &mut String) -> Result<(), AllocError> {
        self.tally.report(answer)?;
        let seen = seen_of(&self.validator);
        let found = [
            ("round", seen.round),
            ("floor", seen.floor),
            ("ordered", seen.order.len() as u64),
        ];
        counts(&found, answer)?;
        match self.loads {
            Some(loads) => loads.report(answer),
            None => list(
                "beside the plain program",
                &[self.beside.compared()],
                answer,
            ),
        }
    }
}

/// None if a line expects this error of the checks; the name of what differs otherwise.
fn same_error(
    alloc: Global,
    line: &str,
    error: CheckError,
) -> Result<Option<&'static str>, AllocError> {
    let begin = format!(in alloc; "unchecked {error} ")?;
    Ok(as_reported(line.strip_prefix(begin.as_str()).is_some(), "the error"))
}

/// None if the answer is as expected; otherwise `what`, the name of what differs.
fn as_reported(is_so: bool, what: &'static str) -> Option<&'static str> {
    match is_so {
        true => None,
        false => Some(what),
    }
}

/// A copy of a message.
fn again(message: &Message) -> Result<Message, FormError> {
    Ok(match message {
        Message::Batch(batch) => Message::Batch(batch.share()?),
        Message::BatchAck(ack) => Message::BatchAck(*ack),
        Message::Header(header) => Message::Header(header.try_clone()?),
        Message::Vote(vote) => Message::Vote(*vote),
        Message::Certificate(certificate) => Message::Certificate(certificate.try_clone()?),
        Message::Coin(coin) => Message::Coin(*coin),
    })
}
