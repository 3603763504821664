//! The tests of the disk in memory, of the journal and the book, of openings and scripts of a node, and of lists of random
//! steps.

mod area_disks;
mod area_runs;
mod area_steps;
mod areas;
mod batches;
mod books;
mod checkpoints;
mod damages;
mod disks;
mod draws;
mod encoding;
mod events;
mod failures;
mod files;
mod headers;
mod journals;
mod listed;
mod lists;
mod nodes;
mod openings;
mod rounds;
mod running;
mod scripts;
mod stops;
mod stores;
mod takers;
mod tally;
mod texts;
mod words;
mod worlds;

use areas::AreaLists;
pub use headers::{SHORTEST, batch};
use nodes::Node;
use sigface::HashSign;
use std::alloc::{AllocError, Global};
use stores::Store;
use validator::Config;
use words::{Reported, Word, parted, words_of};
use worlds::Worlds;

/// The state that the commands of a test case work on, new in each test case.
#[derive(Drop)]
pub struct StoreCases<'a> {
    alloc: Global,
    store: Store<'a>,
    node: Node,
    worlds: Worlds,
    areas: AreaLists<'a>,
    /// Whether the test case has a node, since one of its commands was `node` or `file`; without one it has a disk, a journal and a book.
    has_node: bool,
}

impl<'a> StoreCases<'a> {
    /// The state before the first test case of a file.
    pub fn new(alloc: Global, config: &'a Config<HashSign>) -> Result<StoreCases<'a>, AllocError> {
        Ok(StoreCases {
            alloc,
            store: Store::new(alloc, config)?,
            node: Node::new(alloc)?,
            worlds: Worlds::new(alloc),
            areas: AreaLists::new(alloc, config),
            has_node: false,
        })
    }

    /// Begins a new test case: forgets what the last one made.
    pub fn begin(&mut self) -> Reported {
        self.has_node = false;
        self.areas.begin();
        self.store.begin()?;
        self.node.begin()
    }

    /// Carries out a command, and adds the lines of its answer.
    pub fn obey(&mut self, command: &str, answer: &mut String) -> Reported {
        let (name, rest) = parted(command);
        if name == "areas" {
            return self.areas.play(rest, answer);
        }
        let words = words_of(self.alloc, rest)?;
        self.obey_words(name, words.as_slice(), answer)
    }

    /// The report of the random lists of steps that were played: how many lists there were, and of how many steps.
    pub fn report(&self) -> &[u8] {
        self.worlds.report()
    }

    /// Carries out a command. The commands `node` and `file` give the test case a node: some names mean something else without one.
    fn obey_words(&mut self, name: &str, words: &[Word], answer: &mut String) -> Reported {
        match name {
            "lists" => return self.worlds.obey(words, answer),
            "node" | "file" => self.has_node = true,
            _ => {}
        }
        match self.has_node {
            true => self.node.obey(name, words, answer),
            false => self.obey_store(name, words, answer),
        }
    }

    fn obey_store(&mut self, name: &str, words: &[Word], answer: &mut String) -> Reported {
        match (name, words) {
            ("event", [Word::Number(sender), Word::Bytes(message)]) => {
                self.areas.add(*sender, message)
            }
            _ => self.store.obey(name, words, answer),
        }
    }
}

/// Calls each law of the tested crates that has no precondition. A law is a function whose contract is a theorem and that does nothing.
pub fn laws_hold() {
    journal::written_groups_stand();
    spec_records::one_record();
    spec_records::no_configuration();
    spec_records::one_configuration();
    spec_world::never_takes_back();
    spec_world::runs_begin();
    spec_world::runs_begin_on_two();
    spec_world::runs_go_on();
    spec_world::runs_begin_with_what_stands();
    spec_world::groups_settle();
    spec_world::two_groups_settle();
    spec_world::appends_make_calls();
    spec_world::checkpoints_settle();
    spec_world::snapshots_are_checkpoints();
    spec_world::rewritings_make_calls();
    spec_world::stops_are_possible();
    spec_world::settled_grows();
    spec_world::given_stays();
    spec_world::events_came_in();
    spec_world::given_votes_are_settled();
    spec_world::given_orders_are_settled();
    spec_cluster::agreement();
    spec_cluster::clusters_begin();
    book::flush_is_steps::<HashSign>();
    book::fail_is_a_step::<HashSign>();
    recovery::decoded_stands_for();
    recovery::what_stands_is_decoded();
    recovery::worlds_are_decoded();
}
