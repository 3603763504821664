//! What a thread of a running node uses to call the node, with messages that weren't checked yet.

ghost use Rattle.std.specs.Prelude.{◌≡◌, None, Err, true, false, IsSome, IsTrue, IsErr, ◌↔◌, IfOk, IfSome, OnErr};
ghost use Rattle.std.specs.VecDeque.{deque_capacity};
ghost use Rattle.header.specs.Digested.{certificate_digest_in};
ghost use Rattle.header.specs.Checks.{fault_of, accepts_all};
ghost use Rattle.wire.specs.Lists.{Begins};
ghost use Rattle.flusher.specs.Rounds.{settled_in, StaysAsIs};
ghost use Rattle.spec_machine.specs.Machine.{answered, is_missing_parents};
ghost use Rattle.spec_model.specs.States.{State};
ghost use Rattle.node_seats.specs.Views.{IsSame};
ghost use Rattle.node_io.specs.declared.rejection.Rejection.TheVariants.{Refused};
ghost use Rattle.node_shared.specs.Answers.{GivesAll};
ghost use Rattle.node_shared.specs.Calls.{Learned};
ghost use Rattle.node_shared.specs.Home.{IsBase, seen_in};
ghost use Rattle.sigface.specs.Pair.{is_pair_signature};
ghost use Rattle.node.specs.Callers.{StaysWith};
ghost use Rattle.validator.specs.Setting.{node_of};
ghost use Rattle.node_run.specs.Taking.{Handles, HandlesAgain, IsSubmitted, IsProposed, LacksParents, MayBeSubmitted, OnlyLooks, is_reported_new};

use diskmodel::Disk;
use header::{Checked, check, passes, recheck};
use node::{Refusal, Rounds};
use node_io::Rejection;
use sigface::{HashVerify, Sign};
use std::alloc::AllocError;
use std::collections::VecDeque;
use std::marker::Model;
use std::sync::Wait;
use validator::Config;
use wire::{Author, Message, Output};

/// What happened to a message that wasn't refused.
#[derive(Drop)]
pub(crate) enum Taken {
    /// The message's event was new, and is accepted.
    New,
    /// The message's event was known; its outputs go out again.
    Known,
    /// The message is a certificate whose parents aren't held yet, so that it has to wait.
    Waits(Checked),
}

/// A caller of a node that also checks messages, so that it takes messages that weren't checked yet. Contracts see the inner caller.
#[derive(Drop)]
pub(crate) struct Caller<'n, 'a, S: Sign> {
    node: node::Caller<'n, 'a, S>,
}

impl<'n, 'a, S: Sign> Model for Caller<'n, 'a, S> {
    ghost use Rattle.std.specs.Coded.{codes};
    ghost use Rattle.votebook.specs.contracts.book.VoteBook as votes;
    ghost use Rattle.node.specs.Callers.{CallerView};

    ghost Value = { CallerView S };

    ghost coded = { Prim.hlevel (codes, S.code, votes.the_row.coded) };

    ghost view = { λ c. c.node };
}

impl<'n, 'a, S: Sign> Caller<'n, 'a, S> {
    /// A caller for messages that weren't checked yet, over this caller.
    pub(crate) fn new(node: node::Caller<'n, 'a, S>) -> Caller<'n, 'a, S>
        ensures { result ≡ node.entry }
    {
        Caller { node }
    }

    /// The caller's configuration.
    pub(crate) fn config(&self) -> &Config<S>
        ensures { result.now ≡ self.now.setting }
    {
        self.node.config()
    }

    /// Checks a message from this sender, and submits it. A certificate whose parents aren't held yet isn't submitted; it has to wait.
    pub(crate) fn take<R: Wait>(
        &mut self,
        rt: &R,
        sender: Author,
        message: Message,
    ) -> Result<Taken, Rejection>
        ensures stays { StaysWith self.old self.new }
        ensures handles { Handles S.scheme self.old.node (fault_of self.old.setting.charter is_pair_signature (record { sender = sender; message = message })) (record { sender = sender; message = message }) self.old self.new result }
    {
        let event = match check(self.node.config().committee(), &HashVerify, sender, message) {
            Ok(event) => event,
            Err(error) => return Err(Rejection::Unchecked(error)),
        };
        if !self.may_go(rt, &event) {
            return Ok(Taken::Waits(event));
        }
        submit(rt, &mut self.node, event)
    }

    // Whether an event may be submitted at once: it is no certificate, or a certificate that lacks no parent.
    fn may_go<R: Wait>(&mut self, rt: &R, event: &Checked) -> bool
        requires passed { fault_of self.old.setting.charter accepts_all event.now ≡ None }
        ensures stays { StaysWith self.old self.new }
        ensures same { IsSame self.old.seat self.new.seat }
        ensures durable { self.new.seat.view.durable ≡ self.old.seat.view.durable }
        ensures more { Begins self.old.seat.view.seen self.new.seat.view.seen }
        ensures waits { result ≡ false → LacksParents S.scheme self.old.node event.now self.new }
        ensures goes { result ≡ true → MayBeSubmitted S.scheme self.old.node event.now self.old self.new }
    {
        match event.certificate_digest() {
            Some(_) => self.node.ready(rt, event),
            None => true,
        }
    }

    /// Whether a certificate that waits is ready: it passes the checks, and lacks no parent.
    pub(crate) fn is_ready<R: Wait>(&mut self, rt: &R, event: &Checked) -> bool
        ensures stays { StaysWith self.old self.new }
        ensures same { IsSame self.old.seat self.new.seat }
        ensures durable { self.new.seat.view.durable ≡ self.old.seat.view.durable }
        ensures more { Begins self.old.seat.view.seen self.new.seat.view.seen }
        ensures checked { result ≡ true → fault_of self.old.setting.charter accepts_all event.now ≡ None }
        ensures ready { let node = node_of S.scheme self.old.node.setting in result ≡ true → (base : State) → IsBase S.scheme self.old.node base
            → is_missing_parents (answered node (seen_in node base self.new.seat) event.now) ≡ false }
        ensures lacks { let node = node_of S.scheme self.old.node.setting in IsSome (certificate_digest_in event.now.message) → fault_of self.old.setting.charter accepts_all event.now ≡ None → result ≡ false
            → (base : State) → IsBase S.scheme self.old.node base → is_missing_parents (answered node (seen_in node base self.new.seat) event.now) ≡ true }
    {
        passes(self.node.config().committee(), event) && self.node.ready(rt, event)
    }

    /// Checks and submits a certificate that has waited.
    pub(crate) fn take_waiting<R: Wait>(
        &mut self,
        rt: &R,
        event: Checked,
    ) -> Result<Taken, Rejection>
        ensures stays { StaysWith self.old self.new }
        ensures handles { HandlesAgain S.scheme self.old.node (fault_of self.old.setting.charter accepts_all event) event self.old self.new result }
        ensures seen { Begins self.old.seat.view.seen self.new.seat.view.seen }
    {
        let sender = event.sender();
        let event = recheck(self.node.config().committee(), sender, event.into_message())?;
        submit(rt, &mut self.node, event)
    }

    /// Submits the header that the validator proposes, if it proposes one. Gives whether that header was new. On `AllocError` an allocation
    /// failed.
    pub(crate) fn propose<R: Wait>(&mut self, rt: &R) -> Result<bool, AllocError>
        ensures stays { StaysWith self.old self.new }
        ensures proposed { IfOk result (λ new. IsProposed S.scheme self.old.node self.old self.new new) }
        ensures memory { OnErr result (self.new.seat.view.mine ≡ self.old.seat.view.mine) }
        ensures seen { Begins self.old.seat.view.seen self.new.seat.view.seen }
    {
        let Some(header) = self.node.propose(rt)? else {
            return Ok(false);
        };
        let (committee, own) = (self.node.config().committee(), self.node.config().own());
        let Ok(event) = recheck(committee, own, Message::Header(header)) else {
            return Ok(false);
        };
        newness(submit(rt, &mut self.node, event))
    }

    /// Ok where the node is up. The error is `Down` where it is down.
    pub(crate) fn test_up(&mut self) -> Result<(), Rejection>
        ensures stays { StaysWith self.old self.new }
        ensures looks { OnlyLooks self.old.seat self.new.seat }
        ensures down { OnErr result (result ≡ Err (Refused Refusal.Down)) }
        ensures knows { IsErr result ↔ IsTrue self.new.seat.view.down }
    {
        if self.node.is_down() {
            return Err(Rejection::Refused(Refusal::Down));
        }
        Ok(())
    }

    /// After this call the flusher's seat knows as settled all events that this caller knows as settled. So the outputs that the caller
    /// took out rest on records that are on the disks.
    pub(crate) fn cover<D: Disk, R: Wait>(&mut self, rt: &R, rounds: &mut Rounds<'n, 'a, S, D>)
        requires node { self.old.node ≡ rounds.old.node }
        ensures stays { StaysAsIs rounds.old.flusher rounds.new.flusher }
        ensures covers { Begins self.old.seat.view.durable (settled_in rounds.new.flusher) }
    {
        rounds.cover(rt, &mut self.node);
    }

    /// Moves the outputs that may leave to the end of `outputs`, oldest first, as many as that has room for.
    pub(crate) fn collect_into<R: Wait>(&mut self, rt: &R, outputs: &mut VecDeque<Output>)
        ensures stays { StaysWith self.old self.new }
        ensures capacity { deque_capacity outputs.new ≡ deque_capacity outputs.old }
        ensures learned { Learned S.scheme self.old.node self.old.seat self.new.seat }
        ensures gives { GivesAll S.scheme self.old.node self.new.seat outputs.old.items outputs.new.items }
    {
        self.node.collect_into(rt, outputs);
    }
}

fn submit<S: Sign, R: Wait>(
    rt: &R,
    node: &mut node::Caller<'_, '_, S>,
    event: Checked,
) -> Result<Taken, Rejection>
    requires { fault_of node.old.setting.charter accepts_all event ≡ None }
    ensures stays { StaysWith node.old node.new }
    ensures submitted { IsSubmitted S.scheme node.old.node event node.old node.new result }
    ensures seen { Begins node.old.seat.view.seen node.new.seat.view.seen }
{
    let receipt = node.submit(rt, event)?;
    if receipt.new {
        Ok(Taken::New)
    } else {
        Ok(Taken::Known)
    }
}

// Whether a proposed header was new, by the result of submitting it. A node that is down refuses it; the run reports that at its end.
fn newness(reported: Result<Taken, Rejection>) -> Result<bool, AllocError>
    ensures ok { IfOk result (λ new. new ≡ is_reported_new reported) }
    ensures err { OnErr result (reported ≡ Err (Refused Refusal.Memory)) }
{
    match reported {
        Ok(Taken::New) => Ok(true),
        Err(Rejection::Refused(Refusal::Memory)) => Err(AllocError),
        _ => Ok(false),
    }
}
