//! The record of the calls on a file. Only contracts read it: it is what the one seat of a table knows, and takes no memory.

ghost use Rattle.std.specs.Prelude.{◌≡◌, ℕ, ◌+◌, List, [], ◌∷◌, ◌++◌, length, IfOk};
ghost use Rattle.diskmodel.specs.Outcomes.{AreBytes};
ghost use Rattle.diskmodel.specs.declared.call.Call.TheVariants.{Wrote, Cut, Synced};
ghost use Rattle.disk_file.specs.Stories.{Adds, GoesOnFor, begun, failing};

use crate::story::TapeView;
use atomic_table::{Play, Seat, Table, TableRule};
use std::alloc::{AllocError, Global};
use std::marker::{Brand, Model, PhantomData};

// The place of the only word in the table of shared words. No step changes the word.
const WORD: usize = 0;

/// What the record says after a step. The proof of each call of `Tape::turn` chooses it.
pub trait Turn {
    ghost use Rattle.disk_file.specs.declared.story.TapeView.{TapeView};

    ghost next: { TapeView };
}

impl Turn for Brand {
    ghost use Rattle.std.specs.Prelude.{[]};
    ghost use Rattle.disk_file.specs.Stories.{begun};

    ghost next = { begun [] };
}

/// The step that changes what the record says.
pub struct Turned<N> {
    next: PhantomData<N>,
}

impl<N: Turn> Play<(), TapeView> for Turned<N> {
    ghost use Rattle.std.specs.Prelude.{◌≡◌};

    ghost then = { λ step before found later. later ≡ (N.next, before.1) };
}

/// The rule of the table, which allows any step, since there is only one seat.
pub struct AnyStory;

impl TableRule<(), TapeView, ()> for AnyStory {
    ghost use Rattle.std.specs.Prelude.{⊤, []};
    ghost use Rattle.disk_file.specs.Stories.{begun};

    ghost holds = { λ key state. ⊤ };

    ghost first = { λ key. begun [] };
}

/// The record of the calls on a file, as contracts see it.
pub struct Tape {
    table: Table<(), TapeView, (), AnyStory, Global>,
    seat: Seat<(), TapeView>,
}

impl Drop for Tape {
    fn drop(self) {
        let Tape { table: _, seat: _ } = self;
    }
}

impl Model for Tape {
    ghost use Rattle.std.specs.Prelude.{◌≡◌};
    ghost use Rattle.disk_file.specs.declared.story.TapeView.{TapeView};

    ghost Value = { TapeView };

    ghost view = { λ t. t.seat.me.0 };

    ghost invariant = { λ t. (t.seat.table_id ≡ t.table.shared.table_id) × (t.table.shared.table_id.words ≡ 1) };
}

impl Tape {
    /// The record of a file that begins with these bytes. On `AllocError` an allocation failed.
    pub fn new(alloc: Global, bytes: &[u8]) -> Result<Tape, AllocError>
        ensures begun { IfOk result (λ tape. tape ≡ begun bytes.now) }
        ensures are_bytes { IfOk result (λ tape. AreBytes tape.first) }
    {
        let (table, seat) = Table::of_words(alloc, &[0], &())?;
        let mut tape = Tape { table, seat };
        tape.turn::<Brand, &[u8]>(bytes);
        Ok(tape)
    }

    /// Records that, before any call, the file was found to have these further bytes at its end.
    pub fn found(&mut self, bytes: &[u8])
        ensures { GoesOnFor (length bytes.now) self.old self.new }
    {
        self.turn::<Brand, &[u8]>(bytes);
    }

    /// Records that these bytes were written at this place.
    pub fn wrote(&mut self, at: u64, bytes: &[u8])
        ensures { Adds (Wrote at bytes.now) self.old self.new }
    {
        self.turn::<Brand, (u64, &[u8])>((at, bytes));
    }

    /// Records that the file was cut to this length.
    pub fn cut(&mut self, len: u64)
        ensures { Adds (Cut len) self.old self.new }
    {
        self.turn::<Brand, u64>(len);
    }

    /// Records that the file was synced.
    pub fn synced(&mut self)
        ensures { Adds Synced self.old self.new }
    {
        self.turn::<Brand, ()>(());
    }

    /// Records that a call has failed.
    pub fn failed(&mut self)
        ensures { self.new ≡ failing self.old }
    {
        self.turn::<Brand, ()>(());
    }

    // Changes the record to what the proof of this call chooses (`N.next`), which may depend on the argument.
    fn turn<N: Turn, T: Copy>(&mut self, _given: T)
        ensures { self.new ≡ N.next }
    {
        let table = &self.table;
        table.shared.load::<Turned<N>>(&mut self.seat, WORD);
    }
}
