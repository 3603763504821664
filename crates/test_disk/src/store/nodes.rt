//! Nodes that are opened on journals of hand-made bytes, and that carry out commands.

use crate::committees::{Setting, own_setting, setting_of};
use crate::store::scripts::{Line, Script, lines_of};
use crate::store::words::{Reported, Word, bad, numbers, reported_bad};
use crate::store::{batches, damages, failures, openings, texts};
use std::alloc::{AllocError, Global};
use wire::Author;

/// The node of a test case: its setting (committee and own member), the file of its journal, and its commands.
#[derive(Drop)]
pub struct Node {
    alloc: Global,
    setting: Setting,
    file: Vec<u8>,
    lines: Vec<Line>,
}

impl Node {
    /// The state before the first test case.
    pub fn new(alloc: Global) -> Result<Node, AllocError> {
        Ok(Node {
            alloc,
            setting: own_setting(alloc)?,
            file: Vec::new(alloc),
            lines: Vec::new(alloc),
        })
    }

    /// Member 0 of four, with an empty file and no commands.
    pub fn begin(&mut self) -> Reported {
        self.setting = own_setting(self.alloc)?;
        self.file.clear();
        self.lines.clear();
        Ok(())
    }

    /// Carries out a command of the test case. Its words are interpreted by the function that carries it out.
    pub fn obey(&mut self, name: &str, words: &[Word], answer: &mut String) -> Reported {
        match name {
            "node" => self.set_up(words, answer),
            "plain" => self.report_plain(words, answer),
            "drive" => self.drive(words, answer),
            "pair" => self.drive_pair(words, answer),
            "file" => self.lay(words, answer),
            "event" => self.add_event(words, answer),
            "batches" => self.add_batches(words, answer),
            "lengths" => self.report_lengths(words, answer),
            "changes" => self.report_changes(words, answer),
            "fails" => self.report_fails(words, None, answer),
            "stops" => self.report_fails(words, Some(self.script(&[])), answer),
            _ => self.obey_alone(name, words, answer),
        }
    }

    /// Carries out a command that takes no arguments.
    fn obey_alone(&mut self, name: &str, words: &[Word], answer: &mut String) -> Reported {
        match name {
            _ if !words.is_empty() => reported_bad(answer),
            "flush" => self.add(Line::Flush),
            "checkpoint" => self.add(Line::Checkpoint),
            "stop" => self.add(Line::Stop),
            "open" => openings::open(self.alloc, &self.setting.config, &self.file, answer),
            _ => reported_bad(answer),
        }
    }

    fn set_up(&mut self, words: &[Word], answer: &mut String) -> Reported {
        let [Word::Number(own), Word::Number(depth), stakes @ ..] = words else {
            return reported_bad(answer);
        };
        let own = u8::try_from(*own).unwrap_or(u8::MAX);
        let stakes = numbers(self.alloc, stakes)?;
        match setting_of(self.alloc, own, *depth, &stakes)? {
            Some(setting) => self.setting = setting,
            None => bad(answer),
        }
        Ok(())
    }

    fn lay(&mut self, words: &[Word], answer: &mut String) -> Reported {
        let [Word::Bytes(bytes)] = words else {
            return reported_bad(answer);
        };
        self.file = bytes.to_vec(self.alloc)?;
        Ok(())
    }

    fn add_event(&mut self, words: &[Word], answer: &mut String) -> Reported {
        let [Word::Number(sender), Word::Bytes(message)] = words else {
            return reported_bad(answer);
        };
        let message = message.to_vec(self.alloc)?;
        let sender = Author(u16::try_from(*sender).unwrap_or(u16::MAX));
        self.add(Line::Event { sender, message })
    }

    fn add(&mut self, line: Line) -> Reported {
        self.lines.push(line)?;
        Ok(())
    }

    fn add_batches(&mut self, words: &[Word], answer: &mut String) -> Reported {
        let [Word::Number(count), Word::Number(len)] = words else {
            return reported_bad(answer);
        };
        match (u32::try_from(*count), u32::try_from(*len)) {
            (Ok(count), Ok(len)) => batches::come_in(self.alloc, &mut self.lines, count, len),
            _ => reported_bad(answer),
        }
    }

    fn report_lengths(&self, words: &[Word], answer: &mut String) -> Reported {
        let [Word::Number(from), Word::Number(to)] = words else {
            return reported_bad(answer);
        };
        let (alloc, config) = (self.alloc, &self.setting.config);
        damages::lengths(alloc, config, &self.file, *from..=*to, answer)
    }

    fn report_changes(&self, words: &[Word], answer: &mut String) -> Reported {
        let [Word::Number(from), Word::Number(to), Word::Number(values)] = words else {
            return reported_bad(answer);
        };
        let (alloc, config) = (self.alloc, &self.setting.config);
        damages::changes(alloc, config, &self.file, *from..=*to, *values, answer)
    }

    /// Lets the node carry out its commands. `words` are flushes, checkpoints and stops that follow each command; or the kind of the device
    /// calls that fail in turn; or the text of which writers take only some of the bytes.
    fn drive(&self, words: &[Word], answer: &mut String) -> Reported {
        let after = lines_of(self.alloc, words)?;
        let script = self.script(&after);
        match words {
            [Word::Call(kind)] => script.report_failing(*kind, answer),
            [Word::Bytes(text)] => script.report_rooms(text, answer),
            _ => script.write_to(answer),
        }
    }

    /// Adds what the reference implementation writes for the node's commands, and whether the node writes the same.
    fn report_plain(&self, words: &[Word], answer: &mut String) -> Reported {
        let after = lines_of(self.alloc, words)?;
        texts::write_to(&self.script(&after), &self.setting.node, answer)
    }

    /// As `drive` and `report_plain`, on two disks: either compared with the reference implementation, or with device calls of a kind that
    /// fail on each disk, or with writers that take only some of the bytes. Words after the kind or the bytes are carried out after each
    /// command.
    fn drive_pair(&self, words: &[Word], answer: &mut String) -> Reported {
        let after = lines_of(self.alloc, words)?;
        let script = self.script(&after);
        match words.first() {
            Some(Word::Call(kind)) => script.report_failing_on_two(*kind, answer),
            Some(Word::Bytes(text)) => script.report_rooms_on_two(text, answer),
            _ => texts::report_pair(&script, &self.setting.node, answer),
        }
    }

    fn script<'a>(&'a self, after: &'a [Line]) -> Script<'a> {
        Script {
            alloc: self.alloc,
            config: &self.setting.config,
            file: &self.file,
            lines: &self.lines,
            after,
        }
    }

    /// Opens the node, or lets it carry out a script, with the device call of a kind and number set to fail.
    fn report_fails(
        &self,
        words: &[Word],
        script: Option<Script<'_>>,
        answer: &mut String,
    ) -> Reported {
        let [Word::Call(kind), Word::Number(count)] = words else {
            return reported_bad(answer);
        };
        let trial = failures::Trial {
            alloc: self.alloc,
            config: &self.setting.config,
            file: &self.file,
            kind: *kind,
            count: *count,
            script,
        };
        trial.write_to(answer)
    }
}
