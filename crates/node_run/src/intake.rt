//! The intake: what is done with the frames that come in.

ghost use Rattle.std.specs.Prelude.{◌≡◌, ◌≢◌, ◌≤◌, ◌<◌, ℕ, [], true, false, None, Ok, IfOk, IfErr, IfSome, IfNone, OnOk, OnErr, All, ◌+◌, slice_get};
ghost use Rattle.header.specs.Checks.{fault_of, accepts_all};
ghost use Rattle.header.specs.Digested.{certificate_digest_in};
ghost use Rattle.node_io.specs.Makers.{fresh_makers};
ghost use Rattle.sigface.specs.Pair.{is_pair_signature};
ghost use Rattle.node.specs.Callers.{StaysWith};
ghost use Rattle.wire.specs.declared.message.Message.TheVariants as message;
ghost use Rattle.waiter.specs.Rounds.{held, none_waits};
ghost use Rattle.wire.specs.Lists.{Begins};
ghost use Rattle.node_run.specs.Asked.{AsksEach, AsksWhatWasDue, GoesThrough, IsFirstReady, OnlyAsks, TakesFirstReady, WasAsked, WasReady};
ghost use Rattle.node_run.specs.Asking.{IsDueAfter, IsTakenOut, TakesOne, nothing_due, first_due};
ghost use Rattle.node_run.specs.Bringing.{Brings, BringsAgain, CantWait, Enters, own_batch};
ghost use Rattle.node_run.specs.Ends.{reported_of_wait};
ghost use Rattle.node_run.specs.Taking.{IsProposed, OnlyLooks};

use crate::bell::Bell;
use crate::caller::{Caller, Taken};
use crate::due::{Due, Waiting, due_after};
use header::Checked;
use node_io::{Makers, Rejection, Request, request_of};
use sigface::{Sign, TableSeed};
use std::alloc::{AllocError, Global};
use std::io::Write;
use std::sync::Wait;
use validator::Refusal;
use waiter::{WaitRefusal, Waiters};
use wire::{Author, Batch, Message};

/// Takes what frames bring, and lets certificates wait for their parents.
#[derive(Drop)]
pub(crate) struct Intake<'n, 'a, S: Sign> {
    alloc: Global,
    caller: Caller<'n, 'a, S>,
    waiters: Waiters,
    makers: Makers,
    pending: &'n Bell,
    // Which questions the node has to be asked after the next new record.
    due: Due,
    was_refused_memory: bool,
}

impl<'n, 'a, S: Sign> Intake<'n, 'a, S> {
    /// An intake that calls the node with this caller. It rings the bell `pending` where there is something to flush or to give out. On
    /// `AllocError` an allocation failed.
    pub(crate) fn new(
        alloc: Global,
        caller: Caller<'n, 'a, S>,
        pending: &'n Bell,
    ) -> Result<Intake<'n, 'a, S>, AllocError>
        ensures caller { IfOk result (λ intake. intake.caller ≡ caller.entry) }
        ensures makers { IfOk result (λ intake. intake.makers ≡ fresh_makers caller.entry.setting.own caller.entry.setting.charter.workers) }
        ensures fresh { IfOk result (λ intake. (intake.waiters ≡ none_waits) × (intake.was_refused_memory ≡ false) × (intake.due ≡ first_due)) }
    {
        let config = caller.config();
        let makers = Makers::new(alloc, config.committee(), config.own())?;
        let seed = TableSeed::of(config.signer());
        Ok(Intake {
            alloc,
            caller,
            waiters: Waiters::new(alloc, seed),
            makers,
            pending,
            due: Due::first(),
            was_refused_memory: false,
        })
    }

    /// Whether an allocation failed while no event was handled, so that no refusal reported it.
    pub(crate) fn was_refused_memory(&self) -> bool
        ensures { result ≡ self.now.was_refused_memory }
    {
        self.was_refused_memory
    }

    /// Takes what a frame with this body brings, and writes a line for a refusal.
    pub(crate) fn take<R: Wait, E: Write>(&mut self, rt: &R, body: &[u8], errors: &mut E)
        ensures mark { self.old.was_refused_memory ≡ true → self.new.was_refused_memory ≡ true }
        // If no waiting certificate was due before the frame, none is due after it.
        ensures rests { self.old.due.waiting ≡ Waiting.Nothing → self.new.due.waiting ≡ Waiting.Nothing }
    {
        match self.answer(rt, body) {
            Ok(true) => self.follow(rt, errors),
            Ok(false) => (),
            Err(reported) => write_line(errors, reported),
        }
    }

    /// Submits what follows from the records so far: the header that the validator proposes, and each waiting certificate that is ready.
    /// The node is asked only such questions as may have another answer than before, or as could not be answered because an allocation
    /// failed.
    pub(crate) fn follow<R: Wait, E: Write>(&mut self, rt: &R, errors: &mut E)
        ensures idle { self.old.due ≡ nothing_due → self.new ≡ self.old }
        ensures rests { self.new.due.waiting ≡ Waiting.Nothing }
        ensures through { GoesThrough S.scheme self.old.caller.node self.old.due.waiting self.new.due.waiting self.old.waiters self.new.waiters self.old.caller self.new.caller }
        ensures mark { self.old.was_refused_memory ≡ true → self.new.was_refused_memory ≡ true }
    {
        if !self.due.is_nothing() {
            self.ask(rt, errors);
        }
    }

    // Asks the node the questions that are due, as long as this finds a waiting certificate that is ready. Afterwards no waiting
    // certificate is due.
    fn ask<R: Wait, E: Write>(&mut self, rt: &R, errors: &mut E)
        ensures stays { StaysWith self.old.caller self.new.caller }
        ensures rests { self.new.due.waiting ≡ Waiting.Nothing }
        ensures through { GoesThrough S.scheme self.old.caller.node self.old.due.waiting self.new.due.waiting self.old.waiters self.new.waiters self.old.caller self.new.caller }
        ensures seen { Begins self.old.caller.seat.view.seen self.new.caller.seat.view.seen }
        ensures mark { self.old.was_refused_memory ≡ true → self.new.was_refused_memory ≡ true }
    {
        'asking: while self.go_on(rt, errors) {}
    }

    // Submits the header that the validator proposes, if that question is due, and then one waiting certificate that is ready. Gives
    // whether there was such a certificate.
    fn go_on<R: Wait, E: Write>(&mut self, rt: &R, errors: &mut E) -> bool
        ensures stays { StaysWith self.old.caller self.new.caller }
        ensures rests { result ≡ false → self.new.due.waiting ≡ Waiting.Nothing }
        ensures count { result ≡ true → self.new.waiters.count + 1 ≡ self.old.waiters.count }
        ensures through { GoesThrough S.scheme self.old.caller.node self.old.due.waiting self.new.due.waiting self.old.waiters self.new.waiters self.old.caller self.new.caller }
        ensures seen { Begins self.old.caller.seat.view.seen self.new.caller.seat.view.seen }
        ensures mark { self.old.was_refused_memory ≡ true → self.new.was_refused_memory ≡ true }
    {
        self.propose(rt);
        let Some(event) = self.next_ready(rt) else {
            return false;
        };
        if let Err(reported) = self.take_ready(rt, event) {
            write_line(errors, reported);
        }
        true
    }

    // Submits a certificate that has waited. Gives whether it is a new record. If so, the questions whose answers it may have changed
    // become due, and no others.
    fn take_ready<R: Wait>(&mut self, rt: &R, event: Checked) -> Result<bool, Rejection>
        ensures due { IsDueAfter self.old.caller.setting.own event.message self.old.due self.new.due result }
        ensures waiters { self.new.waiters ≡ self.old.waiters }
        ensures stays { StaysWith self.old.caller self.new.caller }
        ensures seen { Begins self.old.caller.seat.view.seen self.new.caller.seat.view.seen }
        ensures again { BringsAgain S.scheme self.old.caller.node (fault_of self.old.caller.setting.charter accepts_all event) event self.old.caller self.new.caller result }
        ensures mark { self.new.was_refused_memory ≡ self.old.was_refused_memory }
    {
        let after = due_after(self.caller.config().own(), event.message());
        let taken = self.caller.take_waiting(rt, event)?;
        let is_new = matches!(taken, Taken::New);
        if is_new {
            self.due = self.due.and(after);
        }
        self.pending.ring(rt);
        Ok(is_new)
    }

    // Handles a frame with this body. Gives whether it brought a new record; if it did not, no more questions become due.
    fn answer<R: Wait>(&mut self, rt: &R, body: &[u8]) -> Result<bool, Rejection>
        ensures due { result ≢ Ok true → self.new.due ≡ self.old.due }
        ensures mark { self.new.was_refused_memory ≡ self.old.was_refused_memory }
    {
        match request_of(self.alloc, body)? {
            Request::Message { sender, message } => self.submit(rt, sender, message),
            Request::Transaction { worker, bytes } => {
                self.makers.test(worker)?;
                self.caller.test_up()?;
                let batch = self.makers.push(worker, bytes)?;
                self.submit_batch(rt, batch)
            }
            Request::Seal { worker } => {
                self.makers.test(worker)?;
                self.caller.test_up()?;
                let batch = self.makers.seal(worker)?;
                self.submit_batch(rt, batch)
            }
        }
    }

    // Submits a batch as the node's own, if there is one. Gives whether it is a new record.
    fn submit_batch<R: Wait>(&mut self, rt: &R, batch: Option<Batch>) -> Result<bool, Rejection>
        ensures makers { self.new.makers ≡ self.old.makers }
        ensures mark { self.new.was_refused_memory ≡ self.old.was_refused_memory }
        ensures stays { StaysWith self.old.caller self.new.caller }
        ensures none { batch ≡ None → (result ≡ Ok false) × (self.new ≡ self.old) }
        ensures other { result ≢ Ok true → self.new.due ≡ self.old.due }
        ensures due { IfSome batch (λ given. IsDueAfter self.old.caller.setting.own (message.Batch given) self.old.due self.new.due result) }
        ensures some { IfSome batch (λ given. Brings S.scheme self.old.caller.node (fault_of self.old.caller.setting.charter is_pair_signature (own_batch self.old.caller.setting.own given)) (own_batch self.old.caller.setting.own given) self.old.caller self.new.caller self.old.waiters self.new.waiters result) }
    {
        match batch {
            Some(batch) => {
                let own = self.caller.config().own();
                self.submit(rt, own, Message::Batch(batch))
            }
            None => Ok(false),
        }
    }

    // Submits a message, or puts it among the certificates that wait. Gives whether it is a new record. If so, the questions whose answers
    // it may have changed become due.
    fn submit<R: Wait>(
        &mut self,
        rt: &R,
        sender: Author,
        message: Message,
    ) -> Result<bool, Rejection>
        ensures due { IsDueAfter self.old.caller.setting.own message self.old.due self.new.due result }
        ensures makers { self.new.makers ≡ self.old.makers }
        ensures mark { self.new.was_refused_memory ≡ self.old.was_refused_memory }
        ensures stays { StaysWith self.old.caller self.new.caller }
        ensures brings { Brings S.scheme self.old.caller.node (fault_of self.old.caller.setting.charter is_pair_signature (record { sender = sender; message = message })) (record { sender = sender; message = message }) self.old.caller self.new.caller self.old.waiters self.new.waiters result }
    {
        let after = due_after(self.caller.config().own(), &message);
        match self.caller.take(rt, sender, message) {
            Ok(Taken::New) => {
                self.due = self.due.and(after);
                self.pending.ring(rt);
                Ok(true)
            }
            Ok(Taken::Known) => {
                self.pending.ring(rt);
                Ok(false)
            }
            Ok(Taken::Waits(event)) => self.offer(event),
            Err(reported) => Err(reported),
        }
    }

    // Puts a certificate among those that wait. This makes no record.
    fn offer(&mut self, event: Checked) -> Result<bool, Rejection>
        requires { certificate_digest_in event.message ≢ None }
        ensures makers { self.new.makers ≡ self.old.makers }
        ensures mark { self.new.was_refused_memory ≡ self.old.was_refused_memory }
        ensures stays { StaysWith self.old.caller self.new.caller }
        ensures looks { OnlyLooks self.old.caller.seat self.new.caller.seat }
        ensures due { self.new.due ≡ self.old.due }
        ensures never_new { result ≢ Ok true }
        ensures ok { OnOk result (Enters event self.old.waiters self.new.waiters) }
        ensures err { OnErr result (self.new.waiters ≡ self.old.waiters) }
        ensures why { IfErr result (CantWait event self.old.waiters self.new.caller.seat.view.down) }
    {
        if let Err(reported) = self.caller.test_up() {
            return Err(reported);
        }
        match self.waiters.offer(event) {
            Ok(()) => Ok(false),
            Err(refusal) => Err(reported_of_wait(refusal)),
        }
    }

    // Submits the header that the validator proposes, if that question is due. The question stays due where an allocation failed, and after
    // a new own header. An own header makes no waiting certificate due, since it adds no certificate. `was_refused_memory` is set only
    // where an allocation failed and this caller brought no new event, and stays set.
    fn propose<R: Wait>(&mut self, rt: &R)
        ensures memory { self.new.was_refused_memory ≢ self.old.was_refused_memory → self.new.caller.seat.view.mine ≡ self.old.caller.seat.view.mine }
        ensures stays { self.old.was_refused_memory ≡ true → self.new.was_refused_memory ≡ true }
        ensures idle { self.old.due.proposal ≡ false → self.new ≡ self.old }
        ensures asked { self.old.due.proposal ≡ true → self.new.due.proposal ≡ false → IsProposed S.scheme self.old.caller.node self.old.caller self.new.caller false }
        ensures waiting { self.new.due.waiting ≡ self.old.due.waiting }
        ensures waiters { self.new.waiters ≡ self.old.waiters }
        ensures with { StaysWith self.old.caller self.new.caller }
        ensures seen { Begins self.old.caller.seat.view.seen self.new.caller.seat.view.seen }
    {
        if !self.due.proposal {
            return;
        }
        match self.caller.propose(rt) {
            Ok(true) => self.pending.ring(rt),
            Ok(false) => self.due.proposal = false,
            Err(AllocError) => self.was_refused_memory = true,
        }
    }

    // Takes out a waiting certificate that is ready, if there is one. If the floor has risen over the lowest round in which any waits, this
    // is the first ready one of that round. Otherwise it is the first ready one of the lowest due round that has a ready one, and the due
    // rounds below that one stop being due. Where no certificate is ready, no round is due any more.
    fn next_ready<R: Wait>(&mut self, rt: &R) -> Option<Checked>
        ensures idle { self.old.due.waiting ≡ Waiting.Nothing → (result ≡ None) × (self.new ≡ self.old) }
        ensures some { IfSome result (λ event. TakesOne event self.old.waiters self.new.waiters self.old.due self.new.due) }
        ensures first { IfSome result (TakesFirstReady S.scheme self.old.caller.node self.old.due.waiting self.new.due.waiting self.old.waiters self.new.waiters self.old.caller self.new.caller) }
        ensures none { IfNone result ((self.new.waiters ≡ self.old.waiters) × (self.new.due.waiting ≡ Waiting.Nothing)) }
        ensures count { IfSome result (λ _. self.new.waiters.count + 1 ≡ self.old.waiters.count) }
        ensures asks { AsksWhatWasDue S.scheme self.old.caller.node self.old.due.waiting self.new.due.waiting self.old.waiters self.old.caller self.new.caller }
        ensures only { OnlyAsks self.old.caller self.new.caller }
        ensures proposal { self.new.due.proposal ≡ self.old.due.proposal }
        ensures mark { self.new.was_refused_memory ≡ self.old.was_refused_memory }
    {
        let Waiting::Rounds { low, end } = self.due.waiting else {
            return None;
        };
        let Some(lowest) = self.lowest_round() else {
            self.due.waiting = Waiting::Nothing;
            return None;
        };
        if let Some(found) = self.ready_outside(rt, lowest, low, end) {
            return Some(found);
        }
        let Some((round, found)) = self.ready_from(rt, low.max(lowest), end) else {
            self.due.waiting = Waiting::Nothing;
            return None;
        };
        self.due.waiting = Waiting::Rounds { low: round, end };
        Some(found)
    }

    // The lowest round in which a certificate waits, if any waits.
    fn lowest_round(&self) -> Option<u64>
        ensures some { IfSome result (λ round. held self.now.waiters round ≢ []) }
        ensures least { IfSome result (λ round. (other : ℕ) → other < round → held self.now.waiters other ≡ []) }
        ensures none { IfNone result ((round : ℕ) → held self.now.waiters round ≡ []) }
    {
        let (round, _) = self.waiters.lowest()?;
        Some(round)
    }

    // Where this round is not due, asks about the first certificate that waits in it. If that one is ready, takes out the first ready one
    // of the round.
    fn ready_outside<R: Wait>(&mut self, rt: &R, round: u64, low: u64, end: u64) -> Option<Checked>
        ensures due { self.new.due ≡ self.old.due }
        ensures some { IfSome result (λ event. IsTakenOut event round self.old.waiters self.new.waiters) }
        ensures first { IfSome result (λ event. IsFirstReady S.scheme self.old.caller.node self.old.caller self.new.caller (held self.old.waiters round) event) }
        ensures none { IfNone result (self.new.waiters ≡ self.old.waiters) }
        ensures count { IfSome result (λ _. self.new.waiters.count + 1 ≡ self.old.waiters.count) }
        ensures asked { IfNone result ((low ≤ round → round < end → ⊥) → IfSome (slice_get (held self.old.waiters round) 0) (WasAsked S.scheme self.old.caller.node self.old.caller self.new.caller)) }
        ensures only { OnlyAsks self.old.caller self.new.caller }
        ensures mark { self.new.was_refused_memory ≡ self.old.was_refused_memory }
    {
        if low <= round && round < end {
            return None;
        }
        if !self.is_ready_at(rt, round, 0) {
            return None;
        }
        self.ready_of(rt, round)
    }

    // Takes out the first ready certificate of the lowest of these rounds that has one, and gives it with its round. Each waiting
    // certificate before it was asked about.
    fn ready_from<R: Wait>(&mut self, rt: &R, low: u64, end: u64) -> Option<(u64, Checked)>
        ensures due { self.new.due ≡ self.old.due }
        ensures some { IfSome result (λ found. IsTakenOut found.1 found.0 self.old.waiters self.new.waiters × (low ≤ found.0) × (found.0 < end)) }
        ensures none { IfNone result (self.new.waiters ≡ self.old.waiters) }
        ensures count { IfSome result (λ _. self.new.waiters.count + 1 ≡ self.old.waiters.count) }
        ensures first { IfSome result (λ found. IsFirstReady S.scheme self.old.caller.node self.old.caller self.new.caller (held self.old.waiters found.0) found.1) }
        ensures passed { IfSome result (λ found. AsksEach S.scheme self.old.caller.node low found.0 self.old.waiters self.old.caller self.new.caller) }
        ensures asked { IfNone result (AsksEach S.scheme self.old.caller.node low end self.old.waiters self.old.caller self.new.caller) }
        ensures only { OnlyAsks self.old.caller self.new.caller }
        ensures mark { self.new.was_refused_memory ≡ self.old.was_refused_memory }
    {
        for round in low..end {
            if let Some(found) = self.ready_of(rt, round) {
                return Some((round, found));
            }
        }
        None
    }

    // Takes out the first certificate that waits in this round and is ready.
    fn ready_of<R: Wait>(&mut self, rt: &R, round: u64) -> Option<Checked>
        ensures due { self.new.due ≡ self.old.due }
        ensures some { IfSome result (λ event. IsTakenOut event round self.old.waiters self.new.waiters) }
        ensures first { IfSome result (λ event. IsFirstReady S.scheme self.old.caller.node self.old.caller self.new.caller (held self.old.waiters round) event) }
        ensures none { IfNone result (self.new.waiters ≡ self.old.waiters) }
        ensures count { IfSome result (λ _. self.new.waiters.count + 1 ≡ self.old.waiters.count) }
        ensures asked { IfNone result (All (WasAsked S.scheme self.old.caller.node self.old.caller self.new.caller) (held self.old.waiters round)) }
        ensures only { OnlyAsks self.old.caller self.new.caller }
        ensures mark { self.new.was_refused_memory ≡ self.old.was_refused_memory }
    {
        for place in 0..self.waiters.count_of(round) {
            if self.is_ready_at(rt, round, place) {
                return self.waiters.take_of(round, place);
            }
        }
        None
    }

    // Whether the certificate that waits at this place of this round is ready.
    fn is_ready_at<R: Wait>(&mut self, rt: &R, round: u64, place: usize) -> bool
        ensures same { self.new ≡ record self.old { caller = self.new.caller } }
        ensures only { OnlyAsks self.old.caller self.new.caller }
        ensures ready { result ≡ true → IfSome (slice_get (held self.old.waiters round) place) (WasReady S.scheme self.old.caller.node self.old.caller self.new.caller) }
        ensures asked { result ≡ false → IfSome (slice_get (held self.old.waiters round) place) (WasAsked S.scheme self.old.caller.node self.old.caller self.new.caller) }
        ensures none { IfNone (slice_get (held self.old.waiters round) place) (result ≡ false) }
    {
        match self.waiters.nth_of(round, place) {
            Some(event) => self.caller.is_ready(rt, event),
            None => false,
        }
    }
}

// Writes a refusal as a line. If the line can't be written, there is nobody to whom that could be reported.
fn write_line<E: Write>(errors: &mut E, reported: Rejection) {
    let _ = writeln!(errors, "{reported}");
}

// The refusal that is reported of a certificate that can't wait: an allocation failed, or else its parents are missing.
fn reported_of_wait(refusal: WaitRefusal) -> Rejection
    ensures { result ≡ reported_of_wait refusal }
{
    match refusal {
        WaitRefusal::Memory => Rejection::Refused(Refusal::Memory),
        _ => Rejection::Refused(Refusal::MissingParents),
    }
}
