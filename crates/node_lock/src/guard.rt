//! A lock around a value, for many threads.

ghost use Rattle.std.specs.Prelude.{◌≡◌, [], IfOk, IsTrue, IsFalse};
ghost use Rattle.node_lock.specs.Home.{Holds, Takes};

use crate::rule::{Enter, Fits, Give, Home, Known, Take};
use crate::turn::Turn;
use atomic_table::{Refused, Seat, Table};
use std::alloc::{AllocError, Global};
use std::hint;
use std::marker::{Brand, Model};
use std::sync::Wait;

// The places of the lock's only word, and of its only slot, which holds the value.
const WORD: usize = 0;

const SLOT: usize = 0;

const FREE: u64 = 0;

const TAKEN: u64 = 1;

// A value of the word: some thread has the lock's value, and another thread may be sleeping until it is back.
const WANTED: u64 = 2;

// How often a thread tries to get the value before it sleeps. It pauses twice as long before each next try. A pause takes 4 nanoseconds on
// some processors and 50 on others, so all tries together take 1 to 13 microseconds. With ten tries, three threads that submit took up
// to a fourth more of the processors' time than with eight, and were no faster. With six, a node that read a stream took about a tenth more.
const TRIES: u32 = 8;

fn pause(times: u32) {
    for _ in 0..times {
        hint::spin_loop();
    }
}

/// A lock around a value. Contracts see which lock it is, and the key with which it was made.
pub struct Lock<T, K, F: Fits<T, K>> {
    table: Table<Option<T>, (), K, Home<F>, Global>,
}

impl<T: Drop, K: Drop, F: Fits<T, K>> Drop for Lock<T, K, F> {
    fn drop(self) {
        let Lock { table: _ } = self;
    }
}

impl<T, K, F: Fits<T, K>> Model for Lock<T, K, F> {
    ghost use Rattle.std.specs.Prelude.{◌≡◌};
    ghost use Rattle.node_lock.specs.Doors.{LockView, coded_door};

    ghost Value = { LockView K };

    ghost coded = { coded_door K.code };

    ghost view = { λ l. record { id = l.table.shared.table_id; key = l.table.shared.key } };

    ghost invariant = { λ l. (l.table.shared.table_id.words ≡ 1) × (l.table.shared.table_id.slots ≡ 1) };
}

impl<T: Drop, K, F: Fits<T, K>> Lock<T, K, F> {
    /// A lock around a value. On `AllocError` an allocation failed, and the value is lost.
    pub fn new(alloc: Global, value: T, about: &K) -> Result<Lock<T, K, F>, AllocError>
        requires { F.fits about.now value }
        ensures { IfOk result (λ lock. lock.key ≡ about.now) }
    {
        let mut slots = Vec::with_capacity(alloc, 1)?;
        slots.push_reserved(Some(value));
        match Table::new(alloc, &[FREE], slots, about) {
            Ok((table, _)) => Ok(Lock { table }),
            Err(Refused { slots: _ }) => Err(AllocError),
        }
    }
}

impl<T, K, F: Fits<T, K>> Lock<T, K, F> {
    /// Waits until no other thread has the value, and takes it.
    pub fn acquire<R: Wait>(&self, rt: &R) -> (Turn<T>, T)
        ensures of { result.0 ≡ self.now.id }
        ensures fits { F.fits self.now.key result.1 }
    {
        let (_, mut seat) = self.table.shared.load_new_seat::<Enter>(WORD);
        if self.take_soon(&mut seat) {
            return self.open(seat);
        }
        for _ in rt.forever() {
            // The word stays `WANTED` while this thread has the value, since other threads may still sleep.
            if self.take_wanted::<Brand>(&mut seat) == FREE {
                return self.open(seat);
            }
            self.table.shared.park(rt, WORD, WANTED as u32);
        }
        unreachable!()
    }

    /// Gives the value back to the lock.
    pub fn release(&self, turn: Turn<T>, value: T)
        requires of { turn ≡ self.now.id }
        requires fits { F.fits self.now.key value }
    {
        let Turn { mut seat } = turn;
        let shared = &self.table.shared;
        // The value has to be back before the word says so.
        let emptied = shared.exchange(&mut seat, SLOT, Some(value));
        let None = emptied else { unreachable!() };
        let found = shared.swap::<Give>(&mut seat, WORD, FREE);
        if found == WANTED {
            shared.wake_one(WORD);
        }
    }

    // Tries for a while, less and less often, to get the value: the thread that has it mostly wants it again soon, and has it in its cache.
    // Each try looks at the word first, since a try takes the word's cache line away from the thread that will give the value back. Returns
    // whether this thread has got the value.
    fn take_soon(&self, seat: &mut Seat<Option<T>, ()>) -> bool
        requires of { seat.old.table_id ≡ self.now.id }
        requires empty { seat.old.me.1 ≡ [] }
        ensures of { seat.new.table_id ≡ self.now.id }
        ensures taken { IsTrue result → Holds (F.fits self.now.key) seat.new.me }
        ensures not_taken { IsFalse result → seat.new.me.1 ≡ [] }
    {
        for doublings in 0..TRIES {
            if self.table.shared.peek(WORD) == FREE && self.take_free::<Brand>(seat) == FREE {
                return true;
            }
            pause(1 << doublings);
        }
        false
    }

    // Takes the lock if the lock's word says that it is free. This method and the next one return the word as it was before the
    // attempt.
    fn take_free<W: Known<T>>(&self, seat: &mut Seat<Option<T>, ()>) -> u64
        requires of { seat.old.table_id ≡ self.now.id }
        requires empty { seat.old.me.1 ≡ [] }
        requires known { (value : T) → F.fits self.now.key value → W.known value }
        ensures of { seat.new.table_id ≡ self.now.id }
        ensures takes { Takes W.known result seat.old.me seat.new.me }
    {
        self.table
            .shared
            .compare_exchange::<Take<W>>(seat, WORD, FREE, TAKEN)
    }

    fn take_wanted<W: Known<T>>(&self, seat: &mut Seat<Option<T>, ()>) -> u64
        requires of { seat.old.table_id ≡ self.now.id }
        requires empty { seat.old.me.1 ≡ [] }
        requires known { (value : T) → F.fits self.now.key value → W.known value }
        ensures of { seat.new.table_id ≡ self.now.id }
        ensures takes { Takes W.known result seat.old.me seat.new.me }
    {
        self.table.shared.swap::<Take<W>>(seat, WORD, WANTED)
    }

    // Moves the value out of the slot, once this thread has the right to it.
    fn open(&self, mut seat: Seat<Option<T>, ()>) -> (Turn<T>, T)
        requires of { seat.table_id ≡ self.now.id }
        requires held { Holds (F.fits self.now.key) seat.me }
        ensures of { result.0 ≡ self.now.id }
        ensures fits { F.fits self.now.key result.1 }
    {
        let Some(value) = self.table.shared.exchange(&mut seat, SLOT, None) else {
            unreachable!()
        };
        (Turn { seat }, value)
    }
}
