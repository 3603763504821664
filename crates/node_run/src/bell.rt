//! A bell: how a thread learns that there is work for it.

use std::sync::{Condvar, Mutex, Wait};

/// What a bell was told: whether there is work, and whether more may come.
#[derive(Clone, Copy)]
struct Reported {
    rung: bool,
    closed: bool,
}

/// A bell that one thread waits for and others ring. Several rings before the thread waits count as one.
#[derive(Drop)]
pub(crate) struct Bell {
    reported: Mutex<Reported>,
    changed: Condvar,
}

impl Bell {
    /// A bell that was neither rung nor closed.
    pub(crate) fn new() -> Bell {
        Bell {
            reported: Mutex::new(Reported {
                rung: false,
                closed: false,
            }),
            changed: Condvar::new(),
        }
    }

    /// Tells the waiting thread that there is work.
    pub(crate) fn ring<R: Wait>(&self, rt: &R) {
        self.reported.lock(rt).rung = true;
        self.changed.notify_one();
    }

    /// Tells the waiting thread that no more work will come.
    pub(crate) fn close<R: Wait>(&self, rt: &R) {
        self.reported.lock(rt).closed = true;
        self.changed.notify_one();
    }

    /// Sleeps until the bell is rung or closed. Gives whether more work may come after this.
    pub(crate) fn wait<R: Wait>(&self, rt: &R) -> bool {
        let reported = self.reported.lock(rt);
        let mut reported = self.changed.wait_while(
            rt,
            reported,
            |reported| !reported.rung && !reported.closed,
        );
        reported.rung = false;
        !reported.closed
    }
}

/// The bells of a running node.
#[derive(Drop)]
pub(crate) struct Bells {
    /// The bell of the flushing thread. It is rung after an event was accepted, or was known, so that its outputs have to go out again.
    pub(crate) pending: Bell,
    /// The bell of the writing thread. It is rung after each round, since outputs may leave then.
    pub(crate) settled: Bell,
}

impl Bells {
    /// Bells that were neither rung nor closed.
    pub(crate) fn new() -> Bells {
        Bells {
            pending: Bell::new(),
            settled: Bell::new(),
        }
    }
}
