//! Plays the events of a test case through a validator's tables, and through tables that are restored from them.

ghost use Rattle.std.specs.Prelude.{◌≡◌, None};
ghost use Rattle.header.specs.Checks.{fault_of, accepts_all};

use crate::definitions::{coin, committee_of, label_genesis, number};
use crate::parts::parted;
use crate::restored::alike::{
    difference, difference_of_tables, marks_differ_from_order, same_answer,
};
use crate::restored::counts::Counts;
use crate::restored::member::Member;
use committee::Committee;
use header::{Checked, check, recheck};
use sigface::{HashSign, HashVerify};
use sim_script::{
    BATCHES, Command, DEPTH, FormError, Labels, OWN, define_batch, define_header, message_of,
    parse, signer,
};
use std::alloc::{AllocError, Global};
use validator::{Config, Refusal};
use wire::{Author, Message, Round};

/// The mark before the title of a test case.
const TITLE: &str = "== ";

/// The committee that a test case sets up.
#[derive(Drop)]
struct Setup {
    depth: u64,
    batches: u64,
    stakes: String,
}

impl Setup {
    fn new(alloc: Global) -> Result<Setup, AllocError> {
        Ok(Setup {
            depth: DEPTH,
            batches: BATCHES,
            stakes: String::from_str(alloc, "1,1,1,1")?,
        })
    }

    /// Reads a line of a test case, which may set up something.
    fn read(&mut self, line: &str) -> Result<(), AllocError> {
        let line = line.strip_prefix("set ").unwrap_or(line);
        let (name, rest) = parted(line, ' ');
        match name {
            "depth" => Ok(self.depth = number(rest)),
            "batches" => Ok(self.batches = number(rest)),
            "stakes" => self.set_stakes(rest),
            _ => Ok(()),
        }
    }

    fn set_stakes(&mut self, stakes: &str) -> Result<(), AllocError> {
        self.stakes.clear();
        self.stakes.push_str(stakes)
    }
}

/// The setting of member 0 of the committee that a test case sets up.
fn config_of(alloc: Global, setup: &Setup) -> Result<Config<HashSign>, FormError> {
    let committee = committee_of(alloc, setup.stakes.as_str(), setup.depth, setup.batches)?;
    match Config::new(committee, OWN, signer(OWN)) {
        None => Err(FormError::BadCommand),
        Some(config) => Ok(config),
    }
}

/// Plays each test case of a text. Restores the tables each time after this many events, and counts the states at which it does. Returns
/// whether nothing differed; for each test case in which something differs the first such line is shown.
pub fn play_cases(
    alloc: Global,
    text: &str,
    events: u64,
    counts: &mut Counts,
    answer: &mut String,
) -> Result<bool, FormError> {
    let mut alike = true;
    let mut rest = text;
    for _ in 0..u64::MAX {
        let Some((_, cases)) = rest.split_once(TITLE) else {
            break;
        };
        alike = play_case(alloc, first_of(cases), events, counts, answer)? && alike;
        rest = cases;
    }
    Ok(alike)
}

/// The text before the next title of a test case.
fn first_of(cases: &str) -> &str {
    match cases.split_once(TITLE) {
        None => cases,
        Some((case, _)) => case,
    }
}

/// What the lines of a test case set up.
fn setup_of(alloc: Global, case: &str) -> Result<Setup, AllocError> {
    let mut setup = Setup::new(alloc)?;
    for line in case.lines() {
        setup.read(line)?;
    }
    Ok(setup)
}

/// Plays the lines of a test case; the first line is its title.
fn play_case(
    alloc: Global,
    case: &str,
    events: u64,
    counts: &mut Counts,
    answer: &mut String,
) -> Result<bool, FormError> {
    let setup = setup_of(alloc, case)?;
    let config = config_of(alloc, &setup)?;
    let mut trial = Trial::new(alloc, &config, events)?;
    match trial.play(case, counts)? {
        None => Ok(true),
        Some((line, differs)) => {
            report(case, line, differs, answer)?;
            Ok(false)
        }
    }
}

/// Shows at which line of a test case something differs.
fn report(case: &str, line: &str, differs: &str, answer: &mut String) -> Result<(), AllocError> {
    let (title, _) = parted(case, '\n');
    writeln!(answer, "{title}: {line}: otherwise {differs}")
}

/// A validator that is given the events of a test case, and a second validator whose tables were restored from the first one's.
#[derive(Drop)]
struct Trial<'c> {
    alloc: Global,
    labels: Labels,
    member: Member<'c, HashSign>,
    restored: Member<'c, HashSign>,
    /// Tables are restored each time after this many events.
    each: u64,
    /// How many events are left until tables are restored again.
    left: u64,
}

impl<'c> Trial<'c> {
    fn new(alloc: Global, config: &'c Config<HashSign>, each: u64) -> Result<Trial<'c>, FormError> {
        let mut labels = Labels::new(alloc);
        label_genesis(alloc, &mut labels, config.committee().size())?;
        Ok(Trial {
            alloc,
            labels,
            member: Member::new(alloc, config)?,
            restored: Member::new(alloc, config)?,
            each,
            left: 0,
        })
    }

    /// Plays the lines of a test case, and shows the first line at which something differs.
    fn play<'t>(
        &mut self,
        case: &'t str,
        counts: &mut Counts,
    ) -> Result<Option<(&'t str, &'static str)>, FormError> {
        for line in case.lines() {
            if let Some(differs) = self.run(line, counts)? {
                return Ok(Some((line, differs)));
            }
        }
        match self.tables_differ() {
            None => Ok(None),
            Some(differs) => Ok(Some(("at its end", differs))),
        }
    }

    /// The name of what differs in the tables of the two validators, if anything does.
    fn tables_differ(&self) -> Option<&'static str> {
        difference_of_tables(self.member.tables(), self.restored.tables())
    }

    /// Runs a line that defines something, or submits an event; any other line is skipped. Returns the name of what differs, if anything
    /// does.
    fn run(&mut self, line: &str, counts: &mut Counts) -> Result<Option<&'static str>, FormError> {
        match parse(line.as_bytes()) {
            Some(Command::Pack(pack)) => {
                define_batch(self.alloc, &mut self.labels, &pack)?;
                Ok(None)
            }
            Some(Command::Form(form)) => {
                define_header(self.alloc, &mut self.labels, &form)?;
                Ok(None)
            }
            Some(command) if is_event(&command) => {
                let (sender, message) = message_of(self.alloc, &self.labels, command)?;
                self.take(sender, &message, counts)
            }
            _ => self.run_own(line, counts),
        }
    }

    /// Runs the coin that another member sends, in the form that these test cases have.
    fn run_own(
        &mut self,
        line: &str,
        counts: &mut Counts,
    ) -> Result<Option<&'static str>, FormError> {
        let (name, rest) = parted(line, ' ');
        if name != "coin-from" {
            return Ok(None);
        }
        let (from, rest) = parted(rest, ' ');
        let (wave, value) = parted(rest, ' ');
        let (sender, message) = coin(from, wave, value)?;
        self.take(sender, &message, counts)
    }

    /// Gives an event to both validators, and returns the name of what differs then. Each time after `each` events the tables are restored
    /// first.
    fn take(
        &mut self,
        sender: Author,
        message: &Message,
        counts: &mut Counts,
    ) -> Result<Option<&'static str>, FormError> {
        if self.left == 0 {
            if let Some(differs) = self.restore(counts)? {
                return Ok(Some(differs));
            }
            self.left = self.each;
        }
        self.left = self.left.saturating_sub(1);
        match check(
            self.member.validator().committee(),
            &HashVerify,
            sender,
            again(message)?,
        ) {
            Ok(one) => self.take_both(one, sender, message),
            Err(_) => Ok(Some("unchecked")),
        }
    }

    /// Gives an event that passed the checks to both validators.
    fn take_both(
        &mut self,
        one: Checked,
        sender: Author,
        message: &Message,
    ) -> Result<Option<&'static str>, FormError>
        requires { fault_of self.old.member.setting.charter accepts_all one ≡ None }
    {
        match recheck(
            self.restored.validator().committee(),
            sender,
            again(message)?,
        ) {
            Ok(other) => self.step(one, other),
            Err(_) => Ok(Some("unchecked")),
        }
    }

    /// Compares the tables that were restored last time with the first validator's tables; then takes the first one's apart and restores
    /// them anew. Returns the name of what differs, before or after that.
    fn restore(&mut self, counts: &mut Counts) -> Result<Option<&'static str>, FormError> {
        if let Some(differs) = self.tables_differ() {
            return Ok(Some(differs));
        }
        let parts = self.member.parts()?;
        counts.count(parts.floor.number(), parts.last.is_some());
        if parts.floor != floor_below(self.member.validator().committee(), parts.last) {
            return Ok(Some("the floor by the last leader"));
        }
        match self.member.again(parts) {
            Ok(restored) => self.restored = restored,
            Err(AllocError) => {
                if let Some(differs) = self.restore_again(counts)? {
                    return Ok(Some(differs));
                }
            }
        }
        self.restored_differs()
    }

    /// Restores the tables once more after an allocation failed. Returns the name of what differs in them, if that failure changed them.
    fn restore_again(&mut self, counts: &mut Counts) -> Result<Option<&'static str>, FormError> {
        counts.refuse();
        if let Some(differs) = self.tables_differ() {
            return Ok(Some(differs));
        }
        let parts = self.member.parts()?;
        self.restored = self.member.again(parts)?;
        Ok(None)
    }

    /// The name of what differs between the tables that have just been restored and the first validator's.
    fn restored_differs(&self) -> Result<Option<&'static str>, FormError> {
        if marks_differ_from_order(self.restored.tables()) {
            return Ok(Some("the marks, by the order"));
        }
        match self.validators_differ()? {
            None => Ok(self.tables_differ()),
            differs => Ok(differs),
        }
    }

    /// The name of what differs between the two validators after an event.
    fn validators_differ(&self) -> Result<Option<&'static str>, FormError> {
        Ok(difference(
            self.alloc,
            self.member.validator(),
            self.restored.validator(),
        )?)
    }

    fn step(&mut self, one: Checked, other: Checked) -> Result<Option<&'static str>, FormError>
        requires one { fault_of self.old.member.setting.charter accepts_all one ≡ None }
        requires other { fault_of self.old.restored.setting.charter accepts_all other ≡ None }
    {
        if self.member.validator().ready(&one) != self.restored.validator().ready(&other) {
            return Ok(Some("whether it is ready"));
        }
        let (left, right) = (self.member.step(one), self.restored.step(other));
        if let (Err(Refusal::Memory), _) | (_, Err(Refusal::Memory)) = (&left, &right) {
            return Err(FormError::Memory);
        }
        if !same_answer(self.alloc, &left, &right)? {
            return Ok(Some("the answer"));
        }
        self.validators_differ()
    }
}

/// The floor of a node with this committee whose last committed leader is this one.
fn floor_below(committee: &Committee, last: Option<(Round, Author)>) -> Round {
    let round = match last {
        None => 0,
        Some((round, _)) => round.number(),
    };
    Round::new(round.saturating_sub(committee.depth())).unwrap_or(Round::genesis())
}

/// Whether a command submits a message.
fn is_event(command: &Command<'_>) -> bool {
    matches!(
        command,
        Command::Batch(_)
            | Command::Header(_)
            | Command::Ack { .. }
            | Command::Vote { .. }
            | Command::Cert { .. }
            | Command::Coin { .. }
    )
}

/// A copy of a message.
fn again(message: &Message) -> Result<Message, AllocError> {
    Ok(match message {
        Message::Batch(batch) => Message::Batch(batch.share()?),
        Message::BatchAck(ack) => Message::BatchAck(*ack),
        Message::Header(header) => Message::Header(header.try_clone()?),
        Message::Vote(vote) => Message::Vote(*vote),
        Message::Certificate(certificate) => Message::Certificate(certificate.try_clone()?),
        Message::Coin(coin) => Message::Coin(*coin),
    })
}
