//! What a test case tests: a folder with a disk, runs of a node, a script of the simulator, or threads.

use crate::live::folder::Folder;
use crate::live::runs::Runs;
use crate::live::scripts::Script;
use crate::live::threads::obey_threads;
use crate::live::trial::obey_script;
use crate::live::words::{Reported, parted};
use std::alloc::Global;
use std::fs::File;
use std::rt::Files;
use std::sync::Wait;
use std::thread::Threads;

// The state that the commands of a test case work on.
#[derive(Drop)]
enum Subject {
    // No state: each command is a test of its own with threads. Every test case begins with this, since only its first command says what is
    // tested.
    Threads,
    Folder(Folder),
    Script(Script),
    Runs(Runs),
}

/// The test case that is played.
#[derive(Drop)]
pub struct Case {
    alloc: Global,
    subject: Subject,
    // A script that a test case has kept for later ones.
    kept: Vec<u8>,
}

impl Case {
    /// A test case without commands.
    pub fn new(alloc: Global) -> Case {
        Case {
            alloc,
            subject: Subject::Threads,
            kept: Vec::new(alloc),
        }
    }

    /// Begins a new test case.
    pub fn begin(&mut self) {
        self.subject = Subject::Threads;
    }

    /// Carries out a command, and adds the lines of its answer.
    pub fn obey<R>(&mut self, rt: &R, command: &str, answer: &mut String) -> Reported
    where
        R: Files<File = File> + AllocGlobal + Threads + Wait + Sync,
    {
        let (name, words) = parted(command);
        self.choose(name);
        match &mut self.subject {
            Subject::Threads => obey_threads(rt, self.alloc, name, words, answer),
            Subject::Folder(folder) => folder.obey(rt, name, words, answer),
            Subject::Script(script) => {
                obey_script(rt, self.alloc, script, &mut self.kept, name, words, answer)
            }
            Subject::Runs(runs) => runs.obey(rt, name, words, answer),
        }
    }

    // Chooses what the test case tests, by the name of its first command.
    fn choose(&mut self, name: &str) {
        if let Subject::Threads = self.subject {
            self.subject = subject_of(self.alloc, name);
        }
    }
}

// What a test case tests whose first command has this name.
fn subject_of(alloc: Global, name: &str) -> Subject {
    match name {
        "hold" | "crowd" | "down" | "fail" => Subject::Threads,
        "remove" | "open" | "folder" => Subject::Folder(Folder::new(alloc)),
        "text" | "files" => Subject::Runs(Runs::new(alloc)),
        _ => Subject::Script(Script::new(alloc)),
    }
}
