//! Test cases whose lines are first gathered, and are played through a validator when all of them are read.

mod asking;
mod beside;
mod bodies;
mod loading;
mod playing;
mod same;
mod seen;
mod sum;
mod tally;

use crate::definitions::looking::number;
use crate::definitions::weighing::committee_of;
use crate::parts::parted;
use bodies::report_bodies;
use header::Node;
use playing::{Way, play_lines};
use sim_script::{BATCHES, DEPTH, FormError, OWN, signer};
use std::alloc::{AllocError, Global};

/// The gathered lines of a test case, and its committee.
#[derive(Drop)]
pub struct Gathered {
    alloc: Global,
    depth: u64,
    batches: u64,
    stakes: String,
    lines: String,
}

impl Gathered {
    /// No lines, and no committee yet.
    pub fn new(alloc: Global) -> Gathered {
        Gathered {
            alloc,
            depth: DEPTH,
            batches: BATCHES,
            stakes: String::new(alloc),
            lines: String::new(alloc),
        }
    }

    /// Plays the gathered lines through a validator that begins with the genesis.
    fn play(&self, way: Way, answer: &mut String) -> Result<(), FormError> {
        let stakes = self.stakes.as_str();
        let node = Node {
            own: OWN,
            committee: committee_of(self.alloc, stakes, self.depth, self.batches)?,
            signer: signer(OWN),
        };
        let committee = committee_of(self.alloc, stakes, self.depth, self.batches)?;
        let lines = self.lines.as_str();
        play_lines(self.alloc, node, committee, lines, way, answer)
    }

    /// Begins a test case.
    pub fn begin(&mut self) -> Result<(), AllocError> {
        *self = Gathered::new(self.alloc);
        self.stakes.push_str("1,1,1,1")
    }

    /// `depth`, `batches` and `stakes` set up the committee; `play` plays the gathered lines; `loads` plays them with a validator that is
    /// loaded anew wherever the lines give the records of its checkpoint; `bodies` measures memory. Any other line is gathered.
    pub fn obey(
        &mut self,
        rt: &HostRuntime,
        command: &str,
        answer: &mut String,
    ) -> Result<(), AllocError> {
        let (name, rest) = parted(command, ' ');
        match name {
            "depth" => {
                self.depth = number(rest);
                Ok(())
            }
            "batches" => {
                self.batches = number(rest);
                Ok(())
            }
            "stakes" => self.set_stakes(rest),
            "play" => reported(self.play(Way::beside(number(rest)), answer), answer),
            "loads" => reported(self.play(Way::loading(), answer), answer),
            "bodies" => reported(self.report_bodies(rt, rest, answer), answer),
            _ => self.add_line(command),
        }
    }

    fn set_stakes(&mut self, stakes: &str) -> Result<(), AllocError> {
        self.stakes.clear();
        self.stakes.push_str(stakes)
    }

    fn add_line(&mut self, line: &str) -> Result<(), AllocError> {
        self.lines.push_str(line)?;
        self.lines.push_str("\n")
    }

    /// Shows how much more memory the process needs for this many batches of this many transactions.
    fn report_bodies(
        &self,
        rt: &HostRuntime,
        words: &str,
        answer: &mut String,
    ) -> Result<(), FormError> {
        let (count, transactions) = parted(words, ' ');
        let stakes = self.stakes.as_str();
        let committee = committee_of(self.alloc, stakes, self.depth, self.batches)?;
        report_bodies(rt, committee, number(count), number(transactions), answer)
    }
}

fn reported(ended: Result<(), FormError>, answer: &mut String) -> Result<(), AllocError> {
    match ended {
        Ok(()) => Ok(()),
        Err(FormError::Memory) => Err(AllocError),
        Err(_) => answer.push_str("bad case\n"),
    }
}
