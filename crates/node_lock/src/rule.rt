//! The invariant of the lock's word and slot, and what each step shows.

ghost use Rattle.std.specs.Prelude.{⊤};
ghost use Rattle.node_lock.specs.Home.{IsKept, Takes, Gives};

use atomic_table::{Play, TableRule};
use std::marker::{Brand, PhantomData};

/// How the value in a lock is related to the key with which the lock was made.
pub trait Fits<T, K> {
    ghost fits: { K → T → Type 0 };
}

/// The invariant: if the word is 0 the lock itself has its value, which fits the key; otherwise some thread has it.
pub(crate) struct Home<F> {
    of: PhantomData<F>,
}

impl<T, K, F: Fits<T, K>> TableRule<Option<T>, (), K> for Home<F> {
    ghost holds = { λ key. IsKept (F.fits key) };

    ghost first = { λ _. tt };
}

/// What a call knows of the value that it takes. A step can't read the key of the lock, so the proof of each call chooses this.
pub(crate) trait Known<T> {
    ghost known: { T → Type 0 };
}

impl<T> Known<T> for Brand {
    ghost known = { λ _. ⊤ };
}

/// The step that takes the value if the word is 0.
pub(crate) struct Take<W> {
    of: PhantomData<W>,
}

impl<T, W: Known<T>> Play<Option<T>, ()> for Take<W> {
    ghost then = { λ step before found after. Takes W.known found before after };
}

/// The step that puts the value back.
pub(crate) struct Give;

impl<T> Play<Option<T>, ()> for Give {
    ghost then = { λ step before found after. Gives before after };
}

/// The step by which a thread comes to the lock; it takes nothing.
pub(crate) struct Enter;

impl<T> Play<Option<T>, ()> for Enter {
    ghost then = { λ step before found after. ⊤ };
}
