//! Certificates that wait for their parents.

ghost use Rattle.std.specs.Prelude.{◌≡◌, ◌≢◌, ◌<◌, ◌≤◌, ◌++◌, [], ◌∷◌, ◌↔◌, Some, None, Ok, true, length, take, slice_get, IfSome, IfNone, IsTrue, OnOk, OnErr, IsErrOf, option_copied};
ghost use Rattle.std.specs.Fn.{CalledAt};
ghost use Rattle.wire.specs.Events.{Event};
ghost use Rattle.header.specs.Digested.{certificate_digest_in};
ghost use Rattle.indexmap.specs.IndexMap.{values};
ghost use Rattle.waiter.specs.declared.waiter.TheConstants.{MAX_WAITING};
ghost use Rattle.waiter.specs.Waiting.{Waits, IsTakenAt, AnswersNo, IsFirstReady};

use crate::refusal::WaitRefusal;
use header::Checked;
use indexmap::IndexMap;
use sigface::TableSeed;
use std::alloc::Global;
use std::marker::Model;
use wire::Digest;

/// How many certificates may wait at the same time.
pub const MAX_WAITING: usize = 4_096;

/// The limit as a number. The call does nothing: it is a theorem.
pub fn limits_in_numbers()
    ensures waiting { MAX_WAITING ≡ 4096 }
{}

/// Certificates that wait for their parents. Contracts see them with their senders, in the order in which they came.
pub struct Waiter {
    // The waiting certificates under their digests, in the order in which they came.
    waiting: IndexMap<Digest, Checked, TableSeed>,
}

impl Drop for Waiter {
    fn drop(self) {
        let Waiter { waiting: _ } = self;
    }
}

impl Model for Waiter {
    ghost use Rattle.std.specs.Prelude.{List, length, ◌≤◌, All};
    ghost use Rattle.wire.specs.Events.{Event};
    ghost use Rattle.indexmap.specs.IndexMap.{values};
    ghost use Rattle.waiter.specs.declared.waiter.TheConstants.{MAX_WAITING};
    ghost use Rattle.waiter.specs.Keyed.{IsUnderItsDigest};

    ghost Value = { List Event };

    ghost view = { λ w. values w.waiting };

    ghost invariant = { λ w. All IsUnderItsDigest w.waiting.entries × (length w.waiting.entries ≤ MAX_WAITING) };
}

impl Waiter {
    /// No waiting certificates. The hash table gets this seed.
    pub fn new(alloc: Global, seed: TableSeed) -> Waiter
        ensures { result ≡ [] }
    {
        Waiter {
            waiting: IndexMap::with_hasher(alloc, seed),
        }
    }

    /// Lets a certificate wait, as the last one. If one with the same digest waits already, only that one stays.
    pub fn offer(&mut self, checked: Checked) -> Result<(), WaitRefusal>
        ensures not_a_certificate { IsErrOf result WaitRefusal.NotACertificate ↔ (certificate_digest_in checked.message ≡ None) }
        ensures full { IsErrOf result WaitRefusal.Full ↔ ((certificate_digest_in checked.message ≢ None) × (¬ Waits self.old checked) × (length self.old ≡ MAX_WAITING)) }
        ensures again { Waits self.old checked → result ≡ Ok tt }
        ensures same { Waits self.old checked → self.new ≡ self.old }
        ensures added { OnOk result (¬ Waits self.old checked → self.new ≡ self.old ++ checked ∷ []) }
        ensures few { length self.new ≤ MAX_WAITING }
        ensures err { OnErr result (self.new ≡ self.old) }
    {
        let count = self.waiting.len();
        let Some(digest) = checked.certificate_digest().copied() else {
            return Err(WaitRefusal::NotACertificate);
        };
        if self.waiting.contains_key(&digest) {
            return Ok(());
        }
        if count >= MAX_WAITING {
            return Err(WaitRefusal::Full);
        }
        self.waiting.insert(digest, checked)?;
        Ok(())
    }

    /// Whether a certificate with the same digest waits.
    pub fn has(&self, checked: &Checked) -> bool
        ensures waits { IsTrue result ↔ Waits self.now checked.now }
        ensures certificate { IsTrue result → certificate_digest_in checked.now.message ≢ None }
    {
        match checked.certificate_digest() {
            Some(digest) => self.waiting.contains_key(digest),
            None => false,
        }
    }

    /// Whether no certificate waits.
    pub fn is_empty(&self) -> bool
        ensures { IsTrue result ↔ (self.now ≡ []) }
    {
        self.waiting.is_empty()
    }

    /// How many certificates wait.
    pub fn len(&self) -> usize
        ensures { result ≡ length self.now }
    {
        self.waiting.len()
    }

    /// The certificate at this place, counted from 0 in the order in which they came; None if fewer wait.
    pub fn nth(&self, place: usize) -> Option<&Checked>
        ensures { option_copied result ≡ slice_get self.now place }
    {
        let (_, checked) = self.waiting.get_index(place)?;
        Some(checked)
    }

    /// Takes the certificate at this place out, counted from 0; None if fewer wait. The others keep their order. The call allocates no
    /// memory.
    pub fn take(&mut self, place: usize) -> Option<Checked>
        ensures taken { IfSome result (λ checked. IsTakenAt self.old place checked self.new) }
        ensures none { IfNone result (self.new ≡ self.old) }
        ensures beyond { IfNone result (length self.old ≤ place) }
    {
        let (_, checked) = self.waiting.shift_remove_index(place)?;
        Some(checked)
    }

    /// Asks the closure about each certificate in turn whether it is ready, and takes the first one out that is. The call allocates no
    /// memory.
    pub fn next_ready<F: FnMut(&Checked) -> bool>(&mut self, ready: F) -> Option<Checked>
        requires { F.IsAlwaysCallable ready }
        ensures first { IfSome result (λ checked. IsFirstReady F.FnMut ready self.old checked self.new) }
        ensures asked { IfNone result ((last : F) × AnswersNo F.FnMut ready self.old last) }
        ensures none { IfNone result (self.new ≡ self.old) }
    {
        let place = self.first_ready(ready)?;
        let (_, checked) = self.waiting.shift_remove_index(place)?;
        Some(checked)
    }

    // The place of the first certificate about which the closure says yes.
    fn first_ready<F: FnMut(&Checked) -> bool>(&self, mut ready: F) -> Option<usize>
        requires { F.IsAlwaysCallable ready }
        ensures found { IfSome result (λ place. (checked : Event) × (asked : F) × (last : F) × (slice_get self.now place ≡ Some checked) × AnswersNo F.FnMut ready (take place self.now) asked × CalledAt F.FnMut asked checked true last) }
        ensures none { IfNone result ((last : F) × AnswersNo F.FnMut ready self.now last) }
    {
        for place in 0..self.waiting.len() {
            if let Some((_, checked)) = self.waiting.get_index(place) {
                if ready(checked) {
                    return Some(place);
                }
            }
        }
        None
    }
}
