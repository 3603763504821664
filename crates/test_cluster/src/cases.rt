//! The commands of a test case on a cluster: several nodes of one committee in one process.

use crate::disks::{Grip, GrippedDisk, disks_of, new_grips};
use crate::moves::{call_of, coin, delivery, gift, leaving, member, parted};
use crate::reporting::{report_error, report_move, report_order, report_outputs, report_proposal};
use crate::schedules::{play_broken, play_tolerated};
use crate::threads::{circulate, meet};
use cluster::{Cluster, Move};
use sigface::{HashSign, HashVerify};
use sim_members::{MEMBERS, Settings};
use sim_script::{Command, FormError, Labels, define_batch, define_header, parse};
use std::alloc::{AllocError, Global};
use std::mem;
use std::sync::Wait;
use std::thread::Threads;
use test_cases::{Reported, bad};
use wire::Author;

/// A cluster, the names that the test case has given to headers and batches, and for each node's disk a grip that makes calls fail.
#[derive(Drop)]
pub struct ClusterCases<'a> {
    alloc: Global,
    settings: &'a Settings,
    labels: Labels,
    grips: Vec<Grip>,
    // The moves that the command `plan` has collected, which `play` applies all at once.
    plan: Vec<Move>,
    /// The cluster, once a test case has opened it.
    cluster: Option<Cluster<'a, HashSign, GrippedDisk, HashVerify>>,
}

impl<'a> ClusterCases<'a> {
    /// The state before the first test case of a file.
    pub fn new(alloc: Global, settings: &'a Settings) -> Result<ClusterCases<'a>, AllocError> {
        Ok(ClusterCases {
            alloc,
            settings,
            labels: Labels::new(alloc),
            grips: new_grips(alloc, MEMBERS)?,
            plan: Vec::new(alloc),
            cluster: None,
        })
    }

    /// Begins a new test case: forgets the cluster and all labels.
    pub fn begin(&mut self) -> Reported {
        self.labels = Labels::new(self.alloc);
        self.grips = new_grips(self.alloc, MEMBERS)?;
        self.plan = Vec::new(self.alloc);
        self.cluster = None;
        Ok(())
    }

    /// Carries out a command, and adds the lines of its answer.
    pub fn obey<R>(&mut self, rt: &R, command: &str, answer: &mut String) -> Reported
    where
        R: Threads + Wait + Sync,
    {
        let (name, words) = parted(command);
        match name {
            "form" | "pack" => return self.define(command, answer),
            "cluster" => return self.open(words, answer),
            "plan" => return self.plan(words, answer),
            "play" => return self.play(words, answer),
            "give" => return self.give(words, answer),
            "stop" => return self.stop(words, answer),
            "schedules" => return play_tolerated(self.alloc, words, answer),
            "broken" => return play_broken(self.alloc, words, answer),
            "deliver" => self.apply(delivery(words), answer),
            "coin" => self.apply(coin(words), answer),
            "flush" => self.apply(flush(words), answer),
            "fail" => self.fail(words, answer),
            "meet" => meet(rt, self.alloc, self.settings, answer),
            "circulate" => circulate(rt, self.alloc, self.settings, words, answer),
            _ => self.look(name, words, answer),
        }
        Ok(())
    }

    /// The commands `form` and `pack` define a header and a batch, with the same words as in a script of the simulator.
    fn define(&mut self, command: &str, answer: &mut String) -> Reported {
        let defined = match parse(command.as_bytes()) {
            Some(Command::Form(form)) => define_header(self.alloc, &mut self.labels, &form),
            Some(Command::Pack(pack)) => define_batch(self.alloc, &mut self.labels, &pack),
            _ => Err(FormError::BadCommand),
        };
        match defined {
            Ok(()) => Ok(()),
            Err(FormError::Memory) => Err(AllocError),
            Err(_) => reported_bad(answer),
        }
    }

    /// `cluster COUNT` opens a node for each of the first `COUNT` members.
    fn open(&mut self, words: &str, answer: &mut String) -> Reported {
        let count = words.parse().unwrap_or(0);
        let Some(configs) = self.settings.first(count) else {
            return reported_bad(answer);
        };
        let disks = disks_of(self.alloc, &self.grips, count)?;
        if disks.len() != configs.len() {
            return reported_bad(answer);
        }
        match Cluster::new(self.alloc, configs, disks, HashVerify) {
            Ok(cluster) => self.cluster = Some(cluster),
            Err(error) => report_error(answer, error),
        }
        Ok(())
    }

    /// `plan MOVE` keeps a move for `play`. Moves that prepare a disk (a stop, a failing call) cannot be planned.
    fn plan(&mut self, words: &str, answer: &mut String) -> Reported {
        let (name, words) = parted(words);
        let step = match name {
            "deliver" => delivery(words),
            "give" => gift(self.alloc, &self.labels, words)?,
            "coin" => coin(words),
            "flush" => flush(words),
            _ => None,
        };
        match step {
            Some(step) => self.plan.push(step)?,
            None => bad(answer),
        }
        Ok(())
    }

    /// `play COUNT` opens a node for each of the first `COUNT` members, applies the planned moves to them, and adds their answers.
    fn play(&mut self, words: &str, answer: &mut String) -> Reported {
        let count = words.parse().unwrap_or(0);
        let Some(configs) = self.settings.first(count) else {
            return reported_bad(answer);
        };
        let disks = disks_of(self.alloc, &self.grips, count)?;
        if disks.len() != configs.len() {
            return reported_bad(answer);
        }
        let moves = mem::replace(&mut self.plan, Vec::new(self.alloc));
        match Cluster::play(self.alloc, configs, disks, HashVerify, moves) {
            Ok((cluster, answers)) => {
                self.cluster = Some(cluster);
                for outcome in answers {
                    report_move(answer, outcome);
                }
            }
            Err(error) => report_error(answer, error),
        }
        Ok(())
    }

    /// Makes a move at the cluster and adds its answer. A line that was no move gets the answer for a bad line.
    fn apply(&mut self, step: Option<Move>, answer: &mut String) {
        match (&mut self.cluster, step) {
            (Some(cluster), Some(step)) => report_move(answer, cluster.apply(step)),
            _ => bad(answer),
        }
    }

    /// `give NODE from SENDER MESSAGE` gives the node a message, as if this member had sent it.
    fn give(&mut self, words: &str, answer: &mut String) -> Reported {
        let step = gift(self.alloc, &self.labels, words)?;
        self.apply(step, answer);
        Ok(())
    }

    /// Carries out `stop NODE LEAVING`, where LEAVING says what the stop leaves of the node's disk.
    fn stop(&mut self, words: &str, answer: &mut String) -> Reported {
        let (node, how) = parted(words);
        let (Some(node), Some(how)) = (member(node), leaving(self.alloc, how)?) else {
            return reported_bad(answer);
        };
        if let Some(grip) = self.grip(node) {
            grip.leave(how);
        }
        self.apply(Some(Move::Stop(node)), answer);
        Ok(())
    }

    /// `fail NODE CALL COUNT` lets a call of this kind on the node's disk fail: the one that comes as the COUNT-th of its kind from now on.
    fn fail(&self, words: &str, answer: &mut String) {
        let (node, words) = parted(words);
        let (call, count) = parted(words);
        let grip = match member(node) {
            Some(node) => self.grip(node),
            None => None,
        };
        match (grip, call_of(call), count.parse().ok()) {
            (Some(grip), Some(call), Some(count)) if grip.fail(call, count) => {}
            _ => bad(answer),
        }
    }

    fn grip(&self, node: Author) -> Option<&Grip> {
        self.grips.get(node.0 as usize)
    }

    /// `propose NODE`, `order NODE` and `outputs NODE` show what the node would propose, its order, and how many outputs it has put out.
    fn look(&self, name: &str, words: &str, answer: &mut String) {
        let (Some(cluster), Some(node)) = (&self.cluster, member(words)) else {
            return bad(answer);
        };
        match name {
            "propose" => report_proposal(answer, &self.labels, cluster.propose(node)),
            "order" => report_order(answer, &self.labels, cluster.given_order(node)),
            "outputs" => report_outputs(answer, cluster.outputs(node)),
            _ => bad(answer),
        }
    }
}

// Reads the words of `flush NODE`: the move at which the node writes its pending records to its disk.
fn flush(words: &str) -> Option<Move> {
    Some(Move::Flush(member(words)?))
}

// Adds the answer that a line gets which is no command.
fn reported_bad(answer: &mut String) -> Reported {
    bad(answer);
    Ok(())
}
