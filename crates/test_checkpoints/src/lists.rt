//! The commands of a test case that write down a list of records, one record each.

use crate::list::List;
use crate::nodes::{Member, member_of};
use crate::pairs::Pair;
use crate::records::{bytes_in, configuration_record, head_record};
use header::Node;
use sigface::HashSign;
use std::alloc::Global;
use test_cases::{Reported, bad, write_hex};

/// The node of a test case, the list of records that its commands write down, and the events that follow the list.
#[derive(Drop)]
pub struct Lists {
    alloc: Global,
    member: Option<Member>,
    records: Vec<Vec<u8>>,
    events: Vec<String>,
    /// The two areas of a journal that the commands of the test case set and open.
    pair: Pair,
    /// How many lists that hold a validator's state were loaded, and then written again with the same bytes. Counted over all test cases.
    written_alike: u64,
}

impl Lists {
    /// The state before the first test case of a file.
    pub fn new(alloc: Global) -> Lists {
        Lists {
            alloc,
            member: None,
            records: Vec::new(alloc),
            events: Vec::new(alloc),
            pair: Pair::new(alloc),
            written_alike: 0,
        }
    }

    /// How many lists that hold a validator's state were loaded, and then written again with the same bytes. Counted over all test cases.
    pub fn written_alike(&self) -> u64 {
        self.written_alike
    }

    /// Begins a new test case: forgets the node, the list and the events.
    pub fn begin(&mut self) {
        self.member = None;
        self.pair.begin();
        self.clear();
    }

    fn clear(&mut self) {
        self.records.clear();
        self.events.clear();
    }

    /// Carries out a command, and adds the lines of its answer.
    pub fn obey(&mut self, command: &str, answer: &mut String) -> Reported {
        let (name, words) = command.split_once(' ').unwrap_or((command, ""));
        match name {
            "checkpoint" => Ok(()),
            "node" => self.set_member(words, answer),
            "record" => self.add_record(words, answer),
            "event" => Ok(self.events.push(String::from_str(self.alloc, words)?)?),
            "record-of-configuration" | "record-of-head" => self.spell(name, words, answer),
            _ if self.pair.has(name) => self.pair.obey(&self.member, name, words, answer),
            _ => self.end(name, words, answer),
        }
    }

    fn set_member(&mut self, words: &str, answer: &mut String) -> Reported {
        self.member = member_of(self.alloc, words)?;
        if self.member.is_none() {
            bad(answer);
        }
        Ok(())
    }

    /// Adds one record to the list; its bytes are the digits after the colon.
    fn add_record(&mut self, words: &str, answer: &mut String) -> Reported {
        let digits = words.strip_prefix(":").unwrap_or(words);
        match bytes_in(self.alloc, digits)? {
            Some(record) => self.records.push(record)?,
            None => bad(answer),
        }
        Ok(())
    }

    /// Answers the command that ends the list of records, and begins an empty list.
    fn end(&mut self, name: &str, words: &str, answer: &mut String) -> Reported {
        match &self.member {
            None => bad(answer),
            Some(member) => {
                complete(self.alloc, &member.node, name, &mut self.records)?;
                let list = List {
                    alloc: self.alloc,
                    member,
                    records: &self.records,
                    events: &self.events,
                };
                let alike = list.obey(name, words, answer)?;
                self.written_alike = self.written_alike.saturating_add(u64::from(alike));
            }
        }
        self.clear();
        Ok(())
    }

    /// Shows the bytes of a record that test cases do not write down, such as a configuration.
    fn spell(&self, name: &str, words: &str, answer: &mut String) -> Reported {
        match (name, &self.member) {
            ("record-of-configuration", Some(member)) => {
                report_record(&configuration_record(self.alloc, &member.node)?, answer)
            }
            ("record-of-head", _) => report_record(&head_record(self.alloc, words)?, answer),
            _ => Ok(bad(answer)),
        }
    }
}

/// Completes a list for the command that loads it: puts the configuration's record before it. `load-all` takes the list as it stands, and
/// `load-none` takes no record at all.
fn complete(
    alloc: Global,
    node: &Node<HashSign>,
    name: &str,
    records: &mut Vec<Vec<u8>>,
) -> Reported {
    match name {
        "load-all" => {}
        "load-none" => records.clear(),
        _ => records.insert(0, configuration_record(alloc, node)?)?,
    }
    Ok(())
}

fn report_record(record: &[u8], answer: &mut String) -> Reported {
    write_hex(answer, record)?;
    answer.push_str("\n")
}
