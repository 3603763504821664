//! Sorted lists that have no more entries than a limit.

ghost use Rattle.std.specs.Prelude.{◌≡◌, ◌<◌, ◌≤◌, ◌++◌, [], ◌∷◌, ℕ, Bool, length, IsTrue, ◌↔◌, IfOk, OnOk, OnErr};
ghost use Rattle.wire.specs.Rising.{rises, follows, AreEntries};

use std::alloc::{AllocError, Global};
use std::marker::Model;

/// What can be an entry of a sorted list with a limit: a reference to a batch, a reference to a parent, or a vote.
pub trait Entry: Copy {
    // The greatest number of entries that a list of this type may have.
    ghost limit: { ℕ };

    // What holds of each value of the type, such as that its digest has 32 bytes.
    ghost fits: { Self → Type 0 };

    // Whether the left entry may come right before the right one.
    ghost before: { Self → Self → Bool };

    /// A law: what `fits` says holds of each entry. The call does nothing.
    fn entry_holds(&self)
        ensures { fits self.now };
}

/// A list of entries in strictly ascending order, with at most `limit` of them. Each list in a header or certificate is of this type.
#[derive(Debug)]
pub struct Entries<E: Entry> {
    list: Vec<E>,
}

impl<E: Entry> Drop for Entries<E> {
    fn drop(self) {
        let Entries { list: _ } = self;
    }
}

impl<E: Entry> Clone for Entries<E> {
    ghost is_clone = { λ entries copy. copy ≡ entries };

    fn clone(&self) -> Result<Entries<E>, AllocError> {
        let mut list = Vec::with_capacity(*self.list.allocator(), self.list.len())?;
        list.extend_from_slice(&self.list)?;
        Ok(Entries { list })
    }
}

impl<E: Entry> Model for Entries<E> {
    ghost use Rattle.std.specs.Prelude.{List};
    ghost use Rattle.wire.specs.Rising.{AreEntries};

    ghost Value = { List E };

    ghost view = { λ e. e.list.items };

    ghost invariant = { λ e. AreEntries E.limit E.fits E.before e.list.items };
}

impl<E: Entry> Entries<E> {
    /// A list without entries.
    pub fn new(alloc: Global) -> Entries<E>
        ensures { result ≡ [] }
    {
        Entries {
            list: Vec::new(alloc),
        }
    }

    /// A list without entries that has memory for `room` of them. On `AllocError` an allocation failed.
    pub fn with_room(alloc: Global, room: usize) -> Result<Entries<E>, AllocError>
        ensures { IfOk result (λ entries. entries ≡ []) }
    {
        Ok(Entries {
            list: Vec::with_capacity(alloc, room)?,
        })
    }

    /// How many entries there are.
    pub fn len(&self) -> usize
        ensures value { result ≡ length self.now }
        ensures limit { result ≤ E.limit }
    {
        self.list.len()
    }

    /// Whether the list has no entry.
    pub fn is_empty(&self) -> bool
        ensures { IsTrue result ↔ (self.now ≡ []) }
    {
        self.list.is_empty()
    }

    /// Adds an entry at the end. The list must have room for it, and `may_follow` must allow it. On `AllocError` an allocation failed.
    pub fn push(&mut self, entry: E) -> Result<(), AllocError>
        requires room { length self.old < E.limit }
        requires follows { IsTrue (follows (λ last. E.before last entry) self.old) }
        ensures ok { OnOk result (self.new ≡ self.old ++ entry ∷ []) }
        ensures err { OnErr result (self.new ≡ self.old) }
    {
        entry.entry_holds();
        self.list.push(entry)?;
        Ok(())
    }

    /// The entries, in their order.
    pub fn as_slice(&self) -> &[E]
        ensures value { result.now ≡ self.now }
        ensures limit { length self.now ≤ E.limit }
        ensures order { IsTrue (rises E.before self.now) }
        ensures fits { AreEntries E.limit E.fits E.before self.now }
    {
        &self.list
    }
}
