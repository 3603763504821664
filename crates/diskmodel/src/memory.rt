//! A disk in memory, for tests. Each of its calls can be made to fail, and a stop of the machine can be simulated on it.
ghost use Rattle.std.specs.Prelude.{◌≡◌, ◌⊎◌, ℕ, ◌+◌, ◌-◌, ◌<◌, ◌≤◌, ◌↔◌, List, [], None, Some, length, take, drop, IsTrue, IsFalse, IsErr, Ok, IfOk, OnOk, OnErr, is_ok};
ghost use Rattle.std.specs.List.{Contains};
ghost use Rattle.diskmodel.specs.Disk.{HasCause, NoneNew, GoesOn};
ghost use Rattle.diskmodel.specs.Outcomes.{is_written};

use crate::call::{Call, CallKind, KeptBytes};
use crate::countdowns::Countdowns;
use crate::disk::{Disk, DiskFault, StopDisk};
use crate::history::History;
use crate::refusals::Refusals;
use crate::switch::Switch;
use crate::tally::Tally;
use std::alloc::{AllocError, Global};

/// A disk in memory. It keeps the bytes with which it began, and a record of its calls.
pub struct MemDisk {
    history: History,
    countdowns: Countdowns,
    choice: Option<KeptBytes>,
    switch: Option<Switch>,
    faults: Tally,
    refusals: Refusals,
}

impl Drop for MemDisk {
    fn drop(self) {
        let MemDisk {
            history: _,
            countdowns: _,
            choice: _,
            switch: _,
            faults: _,
            refusals: _,
        } = self;
    }
}

impl MemDisk {
    ghost use Rattle.diskmodel.specs.Countdowns.{no_counts, counts_for, reporting, counting};
    ghost use Rattle.diskmodel.specs.Memory.{first_of, calls_of, state_of, content_of, CanStopAt, choice_of, told_of, switch_of, choosing, IsUndisturbed};

    /// A disk with these bytes, all of them synced.
    ///
    /// # Errors
    /// An allocation failed.
    pub fn new(alloc: Global, bytes: Vec<u8>) -> Result<MemDisk, AllocError>
        ensures first { IfOk result (λ disk. first_of disk ≡ bytes.items) }
        ensures calls { IfOk result (λ disk. calls_of disk ≡ []) }
        ensures content { IfOk result (λ disk. content_of disk ≡ bytes.items) }
        ensures choice { IfOk result (λ disk. choice_of disk ≡ None) }
        ensures told { IfOk result (λ disk. told_of disk ≡ no_counts) }
        ensures switch { IfOk result (λ disk. switch_of disk ≡ None) }
    {
        Ok(MemDisk {
            history: History::new(alloc, bytes)?,
            countdowns: Countdowns::none(alloc),
            choice: None,
            switch: None,
            faults: Tally::none(),
            refusals: Refusals::none(),
        })
    }

    /// A disk with these bytes, and with a switch by which another thread can make its calls fail.
    ///
    /// # Errors
    /// An allocation failed.
    pub fn with_switch(
        alloc: Global,
        bytes: Vec<u8>,
        switch: &Switch,
    ) -> Result<MemDisk, AllocError>
        ensures first { IfOk result (λ disk. first_of disk ≡ bytes.items) }
        ensures calls { IfOk result (λ disk. calls_of disk ≡ []) }
        ensures content { IfOk result (λ disk. content_of disk ≡ bytes.items) }
        ensures choice { IfOk result (λ disk. choice_of disk ≡ None) }
        ensures told { IfOk result (λ disk. told_of disk ≡ no_counts) }
        ensures switch { IfOk result (λ disk. switch_of disk ≡ Some switch.now) }
    {
        let mut disk = MemDisk::new(alloc, bytes)?;
        disk.switch = Some(switch.try_clone()?);
        Ok(disk)
    }

    /// The bytes that a read gives.
    pub fn bytes(&self) -> &[u8]
        ensures { result.now ≡ content_of self.now }
    {
        &self.history.content
    }

    /// The bytes at the last successful sync, or at the beginning if there was none. They are a possible outcome of a stop.
    pub fn durable(&self) -> &[u8]
        ensures value { result.now ≡ (state_of self.now).durable }
        ensures outcome { CanStopAt self.now result.now }
    {
        &self.history.durable
    }

    /// Whether the byte at this place was written since the last successful sync.
    pub fn is_written(&self, place: u64) -> bool
        ensures { result ≡ is_written (state_of self.now).spans place }
    {
        self.history.is_written(place)
    }

    /// The calls so far, oldest first, without those that failed. A stop is among them if its outcome was chosen; it replaces a stop right
    /// before it.
    pub fn calls(&self) -> &[Call]
        ensures { result.now ≡ calls_of self.now }
    {
        &self.history.calls
    }

    /// Lets a call fail: the one that comes as the `count`-th of its kind from now on. It fails once, and without any effect. With 0 none
    /// fails. Each kind of call is counted by itself, and several calls of a kind can be set to fail.
    ///
    /// # Errors
    /// An allocation failed; then no further call was set to fail.
    pub fn fail(&mut self, call: CallKind, count: u64) -> Result<(), AllocError>
        ensures told { OnOk result (told_of self.new ≡ reporting (told_of self.old) call count) }
        ensures err { OnErr result (told_of self.new ≡ told_of self.old) }
        ensures undisturbed { IsUndisturbed self.old self.new }
        ensures no_fault { self.new.faults.count ≡ self.old.faults.count }
    {
        self.countdowns.tell(call, count)
    }

    /// Whether a stop at this moment may leave these bytes.
    pub fn can_leave(&self, bytes: &[u8]) -> bool
        ensures { IsTrue result ↔ CanStopAt self.now bytes.now }
    {
        self.history.can_leave(bytes)
    }

    /// Chooses what the next stop leaves. If that is no possible outcome then, the stop leaves what a read gives.
    pub fn choose(&mut self, outcome: Vec<u8>)
        ensures { self.new ≡ choosing self.old outcome.items }
    {
        self.choice = Some(KeptBytes::from_vec(outcome));
    }

    /// Counts a failed call, and returns its error.
    fn fault(&mut self) -> DiskFault
        ensures undisturbed { IsUndisturbed self.old self.new }
        ensures told { told_of self.new ≡ told_of self.old }
        ensures count { self.new.faults.count ≡ self.old.faults.count + 1 }
        ensures refusals { self.new.refusals ≡ self.old.refusals }
    {
        self.faults = self.faults.one_more();
        DiskFault
    }

    /// Counts a call at the switch, and returns whether the switch has set it to fail.
    fn is_switched(&self, call: CallKind) -> bool
        ensures { switch_of self.now ≡ None → IsFalse result }
    {
        match &self.switch {
            Some(switch) => switch.count(call),
            None => false,
        }
    }

    /// Counts a call, and fails if a test has set it to fail.
    fn fail_if_told(&mut self, call: CallKind) -> Result<(), DiskFault>
        ensures undisturbed { IsUndisturbed self.old self.new }
        ensures cause { HasCause self.old.faults.count self.new.faults.count result }
        ensures told { Contains (counts_for (told_of self.old) call) 1 → IsErr result }
        ensures succeeds { switch_of self.old ≡ None → OnErr result (Contains (counts_for (told_of self.old) call) 1) }
        ensures counted { told_of self.new ≡ counting (told_of self.old) call }
        ensures refusals { self.new.refusals ≡ self.old.refusals }
    {
        let is_told = self.countdowns.count(call);
        let is_switched = self.is_switched(call);
        if is_told || is_switched {
            return Err(self.fault());
        }
        Ok(())
    }

    /// Turns a failed allocation into a failed call, and counts that.
    fn counted(&mut self, outcome: Result<(), AllocError>) -> Result<(), DiskFault>
        ensures undisturbed { IsUndisturbed self.old self.new }
        ensures told { told_of self.new ≡ told_of self.old }
        ensures cause { HasCause self.old.faults.count self.new.faults.count result }
        ensures same { is_ok result ≡ is_ok outcome }
        ensures refusals { self.new.refusals ≡ self.old.refusals }
    {
        match outcome {
            Ok(()) => Ok(()),
            Err(_) => Err(self.fault()),
        }
    }
}

impl Disk for MemDisk {
    ghost use Rattle.diskmodel.specs.Outcomes.{IsOutcome, IsOutcomeSince, counts_last, only_last};
    ghost use Rattle.diskmodel.specs.Disk.{written, IsTorn, IsCut, ComesBy, LeavesOnly, Makes};
    ghost use Rattle.diskmodel.specs.Recorded.{Adds};
    ghost use Rattle.diskmodel.specs.Countdowns.{counts_for};
    ghost use Rattle.diskmodel.specs.Memory.{content_of, made_of, CanStopAt, told_of, switch_of, TimeGoesOn, IsUndisturbed, Heeds};
    ghost use Rattle.diskmodel.specs.Refusals.{IsRefused, room_for};

    ghost device = { record {
      content = λ disk. disk.history.content.items;
      outcome = λ disk. IsOutcome disk.history.first.items disk.history.calls.items;
      clock = λ disk. length disk.history.calls.items;
      outcome_since = λ disk. IsOutcomeSince disk.history.first.items disk.history.calls.items;
      faults = λ disk. disk.faults.count;
      calls = made_of;
    } };

    ghost content_is_outcome = { λ disk. disk.history.kept.possible };

    ghost counts_now = { λ disk t c. counts_last disk.history.first.items disk.history.calls.items t c };

    ghost only_now = { λ disk c. only_last disk.history.first.items disk.history.calls.items c };

    fn len(&mut self) -> Result<u64, DiskFault>
        ensures value { result ≡ Ok (length (content_of self.old)) }
        ensures content { content_of self.new ≡ content_of self.old }
        ensures outcomes { NoneNew (CanStopAt self.old) (CanStopAt self.new) }
        ensures time { TimeGoesOn self.old self.new }
        ensures cause { HasCause self.old.faults.count self.new.faults.count result }
        ensures calls { made_of self.new ≡ made_of self.old }

        // Asking for the length doesn't count as a call.
        ensures unchanged { self.new ≡ self.old }
    {
        Ok(self.history.content.len() as u64)
    }

    fn read_at(&mut self, at: u64, buffer: &mut [u8]) -> Result<(), DiskFault>
        requires { at + length buffer.old ≤ length (content_of self.old) }
        ensures bytes { OnOk result (buffer.new ≡ take (length buffer.old) (drop at (content_of self.old))) }
        ensures content { content_of self.new ≡ content_of self.old }
        ensures outcomes { NoneNew (CanStopAt self.old) (CanStopAt self.new) }
        ensures time { TimeGoesOn self.old self.new }
        ensures cause { HasCause self.old.faults.count self.new.faults.count result }
        ensures calls { made_of self.new ≡ made_of self.old }

        // Without a switch a read fails only if it was set to. Reads aren't in the record of calls.
        ensures heeds { Heeds CallKind.Read self.old self.new result }
        ensures undisturbed { IsUndisturbed self.old self.new }
        ensures succeeds { switch_of self.old ≡ None → OnErr result (Contains (counts_for (told_of self.old) CallKind.Read) 1) }
    {
        self.fail_if_told(CallKind::Read)?;
        let at = at as usize;
        buffer.copy_from_slice(&self.history.content[at..at + buffer.len()]);
        Ok(())
    }

    fn write_at(&mut self, at: u64, bytes: &[u8]) -> Result<(), DiskFault>
        requires { at ≤ length (content_of self.old) }
        ensures content { OnOk result (content_of self.new ≡ written (content_of self.old) at bytes.now) }
        ensures outcomes { ComesBy (IsTorn at (length bytes.now)) (CanStopAt self.old) (CanStopAt self.new) }
        ensures time { TimeGoesOn self.old self.new }
        ensures cause { HasCause self.old.faults.count self.new.faults.count result }
        ensures calls { Makes (Call.Wrote at bytes.now) result (made_of self.old) (made_of self.new) }
        ensures recorded { OnOk result (Adds (Call.Wrote at bytes.now) self.old.history self.new.history) }
        ensures heeds { Heeds CallKind.Write self.old self.new result }

        // Without a switch a write fails only if it was set to, or if an allocation failed for a list that had too little room.
        ensures succeeds { switch_of self.old ≡ None → OnErr result (Contains (counts_for (told_of self.old) CallKind.Write) 1 ⊎ IsRefused (room_for (length bytes.now)) self.old.refusals self.new.refusals) }
    {
        self.fail_if_told(CallKind::Write)?;
        let outcome = self.history.write(at as usize, bytes, &mut self.refusals);
        self.counted(outcome)
    }

    fn cut(&mut self, len: u64) -> Result<(), DiskFault>
        requires { len ≤ length (content_of self.old) }
        ensures content { OnOk result (content_of self.new ≡ take len (content_of self.old)) }
        ensures outcomes { ComesBy (IsCut len) (CanStopAt self.old) (CanStopAt self.new) }
        ensures time { TimeGoesOn self.old self.new }
        ensures cause { HasCause self.old.faults.count self.new.faults.count result }
        ensures calls { Makes (Call.Cut len) result (made_of self.old) (made_of self.new) }
        ensures recorded { OnOk result (Adds (Call.Cut len) self.old.history self.new.history) }
        ensures heeds { Heeds CallKind.Cut self.old self.new result }
        ensures succeeds { switch_of self.old ≡ None → OnErr result (Contains (counts_for (told_of self.old) CallKind.Cut) 1 ⊎ IsRefused (room_for 0) self.old.refusals self.new.refusals) }
    {
        self.fail_if_told(CallKind::Cut)?;
        let outcome = self.history.cut(len as usize, &mut self.refusals);
        self.counted(outcome)
    }

    fn sync(&mut self) -> Result<(), DiskFault>
        ensures durable { OnOk result (LeavesOnly (content_of self.old) (CanStopAt self.new)) }
        ensures content { content_of self.new ≡ content_of self.old }
        ensures outcomes { NoneNew (CanStopAt self.old) (CanStopAt self.new) }
        ensures time { TimeGoesOn self.old self.new }
        ensures cause { HasCause self.old.faults.count self.new.faults.count result }
        ensures calls { Makes Call.Synced result (made_of self.old) (made_of self.new) }
        ensures recorded { OnOk result (Adds Call.Synced self.old.history self.new.history) }
        ensures heeds { Heeds CallKind.Sync self.old self.new result }
        ensures succeeds { switch_of self.old ≡ None → OnErr result (Contains (counts_for (told_of self.old) CallKind.Sync) 1 ⊎ IsRefused (room_for (length (content_of self.old))) self.old.refusals self.new.refusals) }
    {
        self.fail_if_told(CallKind::Sync)?;
        let outcome = self.history.sync(&mut self.refusals);
        self.counted(outcome)
    }

    // The disk keeps all that a stop may leave, so later reads still succeed.
    fn end_reading(&mut self)
        ensures { self.new ≡ self.old }
    {}
}

impl StopDisk for MemDisk {
    ghost use Rattle.diskmodel.specs.Memory.{content_of, made_of, CanStopAt, choice_of, told_of, switch_of, TimeGoesOn};

    /// Stops the machine. The call allocates no memory, and uses up the choice of what the stop leaves.
    fn stop(&mut self)
        ensures content { CanStopAt self.old (content_of self.new) }
        ensures outcomes { NoneNew (CanStopAt self.old) (CanStopAt self.new) }
        ensures others { NoneNew (CanStopAt self.new) (CanStopAt self.old) }
        ensures time { TimeGoesOn self.old self.new }
        ensures faults { self.new.faults.count ≡ self.old.faults.count }
        ensures calls { made_of self.new ≡ made_of self.old }

        // If the content that was chosen beforehand is one that a stop may leave, the stop leaves it. Otherwise a read gives the same bytes
        // as before.
        ensures chosen { (found : List ℕ) → choice_of self.old ≡ Some found → CanStopAt self.old found → content_of self.new ≡ found }
        ensures otherwise { ((found : List ℕ) → choice_of self.old ≡ Some found → ¬ CanStopAt self.old found) → content_of self.new ≡ content_of self.old }
        ensures spent { choice_of self.new ≡ None }
        ensures told { told_of self.new ≡ told_of self.old }
        ensures switch { switch_of self.new ≡ switch_of self.old }
    {
        let Some(found) = self.choice.take() else {
            return;
        };
        if !self.history.can_leave(found.as_slice()) {
            return;
        }
        self.history.stop(found);
    }
}
