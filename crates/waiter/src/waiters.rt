//! Certificates that wait for their parents, by round.

ghost use Rattle.std.specs.Prelude.{◌≡◌, ◌≢◌, ◌≤◌, ◌<◌, ◌++◌, ◌∷◌, ◌↔◌, ◌+◌, [], ℕ, Some, None, Ok, true, false, List, IfSome, IfNone, IfErr, OnOk, OnErr, IsErrOf, length, option_copied, slice_get};
ghost use Rattle.wire.specs.Events.{Event};
ghost use Rattle.waiter.specs.declared.waiter.TheConstants.{MAX_WAITING};
ghost use Rattle.header.specs.Digested.{certificate_digest_in};
ghost use Rattle.waiter.specs.Rounds.{HeldWith, IsWithOne, NoneIsEmpty, WaitsThere, held, held_in, none_waits, round_of, waiting_in};
ghost use Rattle.waiter.specs.Waiting.{Waits, IsTakenAt};

use crate::refusal::WaitRefusal;
use crate::waiter::{MAX_WAITING, Waiter};
use header::Checked;
use sigface::TableSeed;
use std::alloc::Global;
use std::collections::BTreeMap;
use std::marker::Model;
use wire::Message;

/// Certificates that wait for their parents, by round, so that one round can be looked at alone. Contracts see the certificates of each
/// round, in the order in which they came, and how many wait in all.
pub struct Waiters {
    alloc: Global,
    seed: TableSeed,
    // The waiting certificates of each round. A round without any isn't in the tree.
    rounds: BTreeMap<u64, Waiter>,
    count: usize,
}

impl Drop for Waiters {
    fn drop(self) {
        let Waiters {
            alloc: _,
            seed: _,
            rounds: _,
            count: _,
        } = self;
    }
}

impl Model for Waiters {
    ghost use Rattle.std.specs.Prelude.{◌≡◌, ◌≤◌};
    ghost use Rattle.waiter.specs.declared.waiter.TheConstants.{MAX_WAITING};
    ghost use Rattle.waiter.specs.Rounds.{WaitersView, NoneIsEmpty, waiting_in};

    ghost Value = { WaitersView };

    ghost view = { λ w. record { rounds = w.rounds.entries; count = w.count } };

    ghost invariant = { λ w. NoneIsEmpty w.rounds.entries × (w.count ≡ waiting_in w.rounds.entries) × (w.count ≤ MAX_WAITING) };
}

impl Waiters {
    /// No waiting certificates. The hash tables get this seed.
    pub fn new(alloc: Global, seed: TableSeed) -> Waiters
        ensures { result ≡ none_waits }
    {
        Waiters {
            alloc,
            seed,
            rounds: BTreeMap::new(alloc),
            count: 0,
        }
    }

    /// Lets a certificate wait, as the last one of its round. If one with the same digest waits already, only that one stays.
    pub fn offer(&mut self, checked: Checked) -> Result<(), WaitRefusal>
        ensures not_a_certificate { IsErrOf result WaitRefusal.NotACertificate ↔ (certificate_digest_in checked.message ≡ None) }
        ensures full { IsErrOf result WaitRefusal.Full ↔ ((certificate_digest_in checked.message ≢ None) × (¬ WaitsThere self.old checked) × (self.old.count ≡ MAX_WAITING)) }
        ensures again { WaitsThere self.old checked → result ≡ Ok tt }
        ensures same { WaitsThere self.old checked → self.new ≡ self.old }
        ensures added { OnOk result (¬ WaitsThere self.old checked → IsWithOne self.old self.new checked) }
        ensures few { self.new.count ≤ MAX_WAITING }
        ensures err { OnErr result (self.new ≡ self.old) }
    {
        let count = self.count;
        let round = round_of(&checked);
        if waits(&self.rounds, round, &checked) {
            return Ok(());
        }
        let Some(_digest) = checked.certificate_digest() else {
            return Err(WaitRefusal::NotACertificate);
        };
        if count >= MAX_WAITING {
            return Err(WaitRefusal::Full);
        }
        add(self.alloc, self.seed, &mut self.rounds, round, checked)?;
        self.count += 1;
        Ok(())
    }

    /// The lowest round in which a certificate waits, and the first one there. The call allocates no memory.
    pub fn lowest(&self) -> Option<(u64, &Checked)>
        ensures first { IfSome result (λ found. (rest : List Event) × (held self.now found.0 ≡ found.1.now ∷ rest)) }
        ensures least { IfSome result (λ found. (round : ℕ) → round < found.0 → held self.now round ≡ []) }
        ensures none { IfNone result ((round : ℕ) → held self.now round ≡ []) }
    {
        let (round, waiter) = self.rounds.first_key_value()?;
        let first = waiter.nth(0)?;
        Some((*round, first))
    }

    /// How many certificates of this round wait.
    pub fn count_of(&self, round: u64) -> usize
        ensures { result ≡ length (held self.now round) }
    {
        match self.rounds.get(&round) {
            Some(waiter) => waiter.len(),
            None => 0,
        }
    }

    /// The waiting certificate of this round at this place, counted from 0 in the order in which they came; None if fewer wait.
    pub fn nth_of(&self, round: u64, place: usize) -> Option<&Checked>
        ensures { option_copied result ≡ slice_get (held self.now round) place }
    {
        match self.rounds.get(&round) {
            Some(waiter) => waiter.nth(place),
            None => None,
        }
    }

    /// Takes the waiting certificate of this round at this place out, counted from 0; None if fewer wait. The others keep their order. The
    /// call allocates no memory.
    pub fn take_of(&mut self, round: u64, place: usize) -> Option<Checked>
        ensures taken { IfSome result (λ checked. IsTakenAt (held self.old round) place checked (held self.new round)) }
        ensures others { (other : ℕ) → other ≢ round → held self.new other ≡ held self.old other }
        ensures count { IfSome result (λ _. self.new.count + 1 ≡ self.old.count) }
        ensures none { IfNone result (self.new ≡ self.old) }
        ensures beyond { IfNone result (length (held self.old round) ≤ place) }
    {
        let found = take_at(&mut self.rounds, round, place)?;
        self.count -= 1;
        Some(found)
    }
}

// The round of a certificate that waits.
fn round_of(checked: &Checked) -> u64
    ensures { result ≡ round_of checked.now }
{
    match checked.message() {
        Message::Certificate(certificate) => certificate.header.round.number(),
        _ => 0,
    }
}

// Whether a certificate with the same digest waits in this round.
fn waits(rounds: &BTreeMap<u64, Waiter>, round: u64, checked: &Checked) -> bool
    ensures yes { result ≡ true → Waits (held_in rounds.now.entries round) checked.now }
    ensures no { result ≡ false → ¬ Waits (held_in rounds.now.entries round) checked.now }
    ensures certificate { result ≡ true → certificate_digest_in checked.now.message ≢ None }
{
    match rounds.get(&round) {
        Some(waiter) => waiter.has(checked),
        None => false,
    }
}

// Lets a certificate wait in its round, where none with the same digest waits. If an allocation fails, the tree is as before.
fn add(
    alloc: Global,
    seed: TableSeed,
    rounds: &mut BTreeMap<u64, Waiter>,
    round: u64,
    checked: Checked,
) -> Result<(), WaitRefusal>
    requires of_it { round_of checked ≡ round }
    requires certificate { certificate_digest_in checked.message ≢ None }
    requires new { ¬ Waits (held_in rounds.old.entries round) checked }
    requires few { waiting_in rounds.old.entries < MAX_WAITING }
    requires kept { NoneIsEmpty rounds.old.entries }
    ensures held { OnOk result (HeldWith (held_in rounds.old.entries) (held_in rounds.new.entries) round (held_in rounds.old.entries round ++ checked ∷ [])) }
    ensures count { OnOk result (waiting_in rounds.new.entries ≡ waiting_in rounds.old.entries + 1) }
    ensures kept { OnOk result (NoneIsEmpty rounds.new.entries) }
    ensures err { OnErr result (rounds.new.entries ≡ rounds.old.entries) }
    ensures why { IfErr result (λ refusal. refusal ≡ WaitRefusal.Memory) }
{
    if let Some(waiter) = rounds.get_mut(&round) {
        return waiter.offer(checked);
    }
    let mut waiter = Waiter::new(alloc, seed);
    waiter.offer(checked)?;
    rounds.insert(round, waiter)?;
    Ok(())
}

// Takes the certificate of this round at this place out. If the round has no other, it leaves the tree.
fn take_at(rounds: &mut BTreeMap<u64, Waiter>, round: u64, place: usize) -> Option<Checked>
    requires kept { NoneIsEmpty rounds.old.entries }
    ensures taken { IfSome result (λ checked. IsTakenAt (held_in rounds.old.entries round) place checked (held_in rounds.new.entries round)) }
    ensures others { (other : ℕ) → other ≢ round → held_in rounds.new.entries other ≡ held_in rounds.old.entries other }
    ensures count { IfSome result (λ _. waiting_in rounds.new.entries + 1 ≡ waiting_in rounds.old.entries) }
    ensures kept { NoneIsEmpty rounds.new.entries }
    ensures none { IfNone result (rounds.new.entries ≡ rounds.old.entries) }
    ensures beyond { IfNone result (length (held_in rounds.old.entries round) ≤ place) }
{
    let waiter = rounds.get_mut(&round)?;
    let found = waiter.take(place)?;
    if waiter.is_empty() {
        rounds.remove(&round);
    }
    Some(found)
}
