//! How many validators were loaded from checkpoints along the histories of a file, and how much they were tested.

use test_cases::Reported;

/// How many events of the history a loaded validator is given, if as many follow.
pub const EVENTS: u64 = 50;

/// How many validators were loaded, how many of them were given all their events, and how many answers they gave.
#[derive(Clone, Copy)]
pub struct Counts {
    loaded: u64,
    whole: u64,
    answers: u64,
}

impl Counts {
    /// The counts before the first validator: all are 0.
    pub fn new() -> Counts {
        Counts {
            loaded: 0,
            whole: 0,
            answers: 0,
        }
    }

    /// Counts a validator that was loaded.
    pub fn load(&mut self) {
        self.loaded = self.loaded.saturating_add(1);
    }

    /// Counts a loaded validator that was given all its events.
    pub fn end(&mut self) {
        self.whole = self.whole.saturating_add(1);
    }

    /// Counts this many answers of loaded validators.
    pub fn answer(&mut self, answers: u64) {
        self.answers = self.answers.saturating_add(answers);
    }

    /// Shows the counts.
    pub fn report(&self, answer: &mut String) -> Reported {
        let (loaded, whole, answers) = (self.loaded, self.whole, self.answers);
        writeln!(
            answer,
            "loaded {loaded}, with {EVENTS} events {whole}, answers {answers}"
        )
    }
}
