//! Counts of the steps and stops of each kind in random lists.

use crate::store::words::{put, put_number};
use book::Receipt;
use book::Refusal::{self, Down, Equivocation, MissingBatch, MissingParents, NotOurs, TooOld};

/// The moment at which the machine stops, by what happened to the group in flight.
#[derive(Clone, Copy)]
pub enum Moment {
    /// Before the group was taken: nothing is taken that isn't settled.
    Idle,
    /// After the group was taken, with nothing written.
    Taken,
    /// After the group's bytes were written, before the sync.
    Written,
    /// After the group's bytes were synced; its gate is still closed, so the group doesn't count.
    Synced,
    /// After the group's gate was opened, before that is synced.
    Opened,
    /// After the open gate was synced: the group is durable, but the node hasn't settled it.
    Durable,
}

/// Which bytes a stop leaves on the disk.
#[derive(Clone, Copy)]
pub enum Leaves {
    /// The bytes that a read returned before the stop.
    Read,
    /// The bytes of the last sync.
    Lost,
    /// Any length and any bytes that the disk may have after a stop.
    Torn,
}

/// Counts of steps and of stops.
#[derive(Clone, Copy)]
pub struct Tally {
    pub new: u64,
    pub known: u64,
    pub refused: [u64; 6],
    pub released: u64,
    pub held_back: u64,
    pub taken: u64,
    pub settled: u64,
    pub failed: u64,
    pub stops: [u64; 6],
    // For the stops when the group or its gate was written but not synced: how many left what a read returned, what the last sync left, or
    // torn bytes.
    left: [u64; 3],
    /// For the stops when the group's gate was opened but not synced: how many left it open, and how many closed.
    pub gates: [u64; 2],
    pub opened: u64,
    // How many openings failed at each of their calls: the first sync, the read, the write, the cut, the second sync.
    faults: [u64; 5],
}

// The names of the counts: of the kinds of refusals, of stops, of what stops leave, and of failed openings.
const REFUSED: [&str; 6] = [
    "down",
    "too old",
    "missing parents",
    "missing batch",
    "equivocation",
    "not ours",
];

const STOPPED: [&str; 6] = [
    "stopped idle",
    "taken",
    "written",
    "synced",
    "opened",
    "firm",
];

const LEFT: [&str; 5] = [
    "left as read",
    "as synced",
    "torn",
    "the gate open",
    "closed",
];

const OPENED: [&str; 6] = [
    "opened",
    "failed at the first sync",
    "read",
    "write",
    "cut",
    "second sync",
];

/// Adds one to a count.
pub fn count(place: &mut u64) {
    *place = place.saturating_add(1);
}

impl Tally {
    /// The counts before the first step: all are 0.
    pub fn new() -> Tally {
        Tally {
            new: 0,
            known: 0,
            refused: [0; 6],
            released: 0,
            held_back: 0,
            taken: 0,
            settled: 0,
            failed: 0,
            stops: [0; 6],
            left: [0; 3],
            gates: [0; 2],
            opened: 0,
            faults: [0; 5],
        }
    }

    /// Counts the answer to an event.
    pub fn add_answer(&mut self, answer: Result<Receipt, Refusal>) {
        let place = match answer {
            Ok(Receipt { new: true, .. }) => return count(&mut self.new),
            Ok(_) => return count(&mut self.known),
            Err(Down) => 0,
            Err(TooOld) => 1,
            Err(MissingParents) => 2,
            Err(MissingBatch) => 3,
            Err(Equivocation) => 4,
            Err(NotOurs) => 5,
            Err(_) => return,
        };
        count(&mut self.refused[place]);
    }

    /// Counts whether an output left the node or was held back.
    pub fn add_release(&mut self, went: bool) {
        if went {
            count(&mut self.released);
        } else {
            count(&mut self.held_back);
        }
    }

    /// Counts a stop of the machine at this moment.
    pub fn add_stop(&mut self, moment: Moment) {
        count(&mut self.stops[moment as usize]);
    }

    /// Counts which bytes a stop left, and whether the gate of the group in flight is open or closed in them.
    pub fn add_outcome(&mut self, moment: Moment, leaves: Leaves, open: bool) {
        match moment {
            Moment::Written => count(&mut self.left[leaves as usize]),
            Moment::Opened => {
                count(&mut self.left[leaves as usize]);
                count(&mut self.gates[if open { 0 } else { 1 }]);
            }
            _ => {}
        }
    }

    /// Counts an opening that failed at the call with this number.
    pub fn add_fault(&mut self, call: usize) {
        if call < 5 {
            count(&mut self.faults[call]);
        }
    }

    /// Adds the counts, in lines.
    pub fn write_to(&self, answer: &mut String) {
        report_line(answer, &["new", "known"], &[self.new, self.known]);
        report_line(answer, &REFUSED, &self.refused);
        let moved = [self.released, self.held_back];
        report_line(answer, &["released", "held back"], &moved);
        let groups = [self.taken, self.settled, self.failed];
        report_line(answer, &["groups", "settled", "failed"], &groups);
        report_line(answer, &STOPPED, &self.stops);
        let [read, lost, torn] = self.left;
        let [open, closed] = self.gates;
        report_line(answer, &LEFT, &[read, lost, torn, open, closed]);
        let [first, read, write, cut, second] = self.faults;
        let openings = [self.opened, first, read, write, cut, second];
        report_line(answer, &OPENED, &openings);
    }
}

/// Adds a line of counts, each after its name.
fn report_line(answer: &mut String, names: &[&str], counts: &[u64]) {
    for (place, count) in counts.iter().enumerate() {
        if place > 0 {
            put(answer, ", ");
        }
        if let Some(name) = names.get(place) {
            put(answer, name);
        }
        put_number(answer, *count);
    }
    put(answer, "\n");
}
