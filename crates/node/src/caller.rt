//! A caller: what one thread uses to call a shared node.

ghost use Rattle.std.specs.Prelude.{◌≡◌, ◌⊎◌, ◌↔◌, None, drop, length, IsNone, IsOk, IsTrue, IsErrOf, IfOk, IfErr, IfSome};
ghost use Rattle.std.specs.VecDeque.{deque_capacity};
ghost use Rattle.header.specs.Checks.{fault_of, accepts_all};
ghost use Rattle.spec_machine.specs.Machine.{is_ready, proposed, round_in};
ghost use Rattle.spec_model.specs.States.{State};
ghost use Rattle.validator.specs.Setting.{node_of};
ghost use Rattle.validator.specs.Standing.{StandSomewhere};
ghost use Rattle.node_shared.specs.Answers.{Submits, Gives, GivesAll};
ghost use Rattle.node_shared.specs.Calls.{Looked, Learned, Brought, IsBeside};
ghost use Rattle.node_shared.specs.Home.{IsBase, IsOf, seen_in, durable_in};
ghost use Rattle.node.specs.Callers.{StaysWith};

use header::Checked;
use node_shared::{Node, Receipt, Refusal, Seat};
use sigface::Sign;
use std::alloc::AllocError;
use std::collections::VecDeque;
use std::marker::Model;
use std::sync::Wait;
use validator::Config;
use wire::{Author, Digest, Header, Output, Round};

/// A node, its configuration, and a seat at it. Contracts see all three. Each method calls the node's method of the same name with this
/// seat.
pub struct Caller<'n, 'a, S: Sign> {
    node: &'n Node<'a, S>,
    config: &'a Config<S>,
    pub(crate) seat: Seat,
}

impl<'n, 'a, S: Sign> Drop for Caller<'n, 'a, S> {
    fn drop(self) {
        let Caller {
            node: _,
            config: _,
            seat: _,
        } = self;
    }
}

impl<'n, 'a, S: Sign> Model for Caller<'n, 'a, S> {
    ghost use Rattle.std.specs.Coded.{codes};
    ghost use Rattle.votebook.specs.contracts.book.VoteBook as votes;
    ghost use Rattle.node.specs.Callers.{CallerView, IsCalling};

    ghost Value = { CallerView S };

    ghost coded = { Prim.hlevel (codes, S.code, votes.the_row.coded) };

    ghost view = { λ c. record { setting = c.config.now; node = c.node.now; seat = c.seat } };

    ghost invariant = { λ c. IsCalling (record { setting = c.config.now; node = c.node.now; seat = c.seat }) };
}

impl<'n, 'a, S: Sign> Caller<'n, 'a, S> {
    /// A caller of this node, which has this configuration, with this seat at the node.
    pub fn new(node: &'n Node<'a, S>, config: &'a Config<S>, seat: Seat) -> Caller<'n, 'a, S>
        requires of { IsOf node.now seat }
        requires setting { node.now.setting ≡ config.now }
        ensures setting { result.setting ≡ config.now }
        ensures node { result.node ≡ node.now }
        ensures seat { result.seat ≡ seat }
    {
        Caller { node, config, seat }
    }

    /// The configuration of the caller, which is the node's.
    pub fn config(&self) -> &'a Config<S>
        ensures config { result.now ≡ self.now.setting }
        ensures node { self.now.node.setting ≡ self.now.setting }
        // The node has a base, on which the contracts of the other calls rest.
        ensures base { StandSomewhere (node_of S.scheme self.now.node.setting) self.now.node.begun }
    {
        self.node.limits_hold();
        self.config
    }

    /// Makes one more caller of the node. It has seen what this one has seen, and has brought no event. The call allocates no memory.
    pub fn split(&mut self) -> Result<Caller<'n, 'a, S>, AllocError>
        ensures ok { IsOk result }
        ensures same { self.new ≡ self.old }
        ensures other { IfOk result (λ other. StaysWith self.old other) }
        ensures knows { IfOk result (λ other. IsBeside self.old.node self.old.seat other.seat) }
    {
        let seat = self.node.split(&mut self.seat)?;
        Ok(Caller::new(self.node, self.config, seat))
    }

    /// Submits an event that passed the checks under the node's committee; it is answered after all accepted events. The caller has then
    /// seen all of these. A new event becomes one that this caller brought. The error is Down exactly if the caller then knows that the
    /// node is down.
    pub fn submit<R: Wait>(&mut self, rt: &R, event: Checked) -> Result<Receipt, Refusal>
        requires passed { fault_of self.old.setting.charter accepts_all event ≡ None }
        ensures stays { StaysWith self.old self.new }
        ensures brought { Brought S.scheme self.old.node self.old.seat self.new.seat }
        ensures submits { Submits S.scheme self.old.node event self.old.seat.view self.new.seat.view result }
        ensures down { IsErrOf result Refusal.Down ↔ IsTrue self.new.seat.view.down }
    {
        self.node.submit(rt, &mut self.seat, event)
    }

    /// Takes out the next output that may leave. None where there is none, or where the node is down.
    pub fn collect<R: Wait>(&mut self, rt: &R) -> Option<Output>
        ensures stays { StaysWith self.old self.new }
        ensures learned { Learned S.scheme self.old.node self.old.seat self.new.seat }
        ensures down { IsTrue self.new.seat.view.down → IsNone result }
        ensures gives { IfSome result (λ output. Gives S.scheme self.old.node self.new.seat output) }
    {
        self.node.collect(rt, &mut self.seat)
    }

    /// Moves the outputs that may leave to the end of `outputs`, oldest first, as many as that has room for. Moves nothing where the node
    /// is down.
    pub fn collect_into<R: Wait>(&mut self, rt: &R, outputs: &mut VecDeque<Output>)
        ensures stays { StaysWith self.old self.new }
        ensures learned { Learned S.scheme self.old.node self.old.seat self.new.seat }
        ensures down { IsTrue self.new.seat.view.down → outputs.new.items ≡ outputs.old.items }
        ensures capacity { deque_capacity outputs.new ≡ deque_capacity outputs.old }
        ensures gives { GivesAll S.scheme self.old.node self.new.seat outputs.old.items outputs.new.items }
    {
        self.node.collect_into(rt, &mut self.seat, outputs);
    }

    /// The order after the settled events, from this place on: the digests of the ordered certificates.
    pub fn order<R: Wait>(&mut self, rt: &R, from: u64) -> Result<Vec<Digest>, Refusal>
        ensures stays { StaysWith self.old self.new }
        ensures learned { Learned S.scheme self.old.node self.old.seat self.new.seat }
        ensures down { IsErrOf result Refusal.Down ↔ IsTrue self.new.seat.view.down }
        ensures order { let node = node_of S.scheme self.old.node.setting in IfOk result (λ digests. (base : State) → IsBase S.scheme self.old.node base
            → digests.items ≡ drop from (durable_in node base self.new.seat).order) }
        ensures errors { IfErr result (λ refusal. (refusal ≡ Refusal.Down) ⊎ (refusal ≡ Refusal.Memory)) }
    {
        self.node.order(rt, &mut self.seat, from)
    }

    /// The digest of the header that the node voted for in a slot. None where it has not voted there, or the round is low.
    pub fn peek_voted<R: Wait>(&mut self, rt: &R, author: Author, round: Round) -> Option<Digest>
        ensures stays { StaysWith self.old self.new }
        ensures looked { Looked S.scheme self.old.node self.old.seat self.new.seat }
        ensures voted { let node = node_of S.scheme self.old.node.setting in (base : State) → IsBase S.scheme self.old.node base → result ≡ (seen_in node base self.new.seat).votes round author.0 }
    {
        self.node.peek_voted(rt, &mut self.seat, author, round)
    }

    /// The node's round after all accepted events.
    pub fn round_now<R: Wait>(&mut self, rt: &R) -> u64
        ensures stays { StaysWith self.old self.new }
        ensures looked { Looked S.scheme self.old.node self.old.seat self.new.seat }
        ensures round { let node = node_of S.scheme self.old.node.setting in (base : State) → IsBase S.scheme self.old.node base → result ≡ round_in node (seen_in node base self.new.seat) }
    {
        self.node.round_now(rt, &mut self.seat)
    }

    /// Whether an event that passed the checks under the node's committee is ready: its answer isn't that a parent is missing.
    pub fn ready<R: Wait>(&mut self, rt: &R, event: &Checked) -> bool
        requires passed { fault_of self.old.setting.charter accepts_all event.now ≡ None }
        ensures stays { StaysWith self.old self.new }
        ensures looked { Looked S.scheme self.old.node self.old.seat self.new.seat }
        ensures ready { let node = node_of S.scheme self.old.node.setting in (base : State) → IsBase S.scheme self.old.node base → result ≡ is_ready node (seen_in node base self.new.seat) event.now }
    {
        self.node.ready(rt, &mut self.seat, event)
    }

    /// The header that the node's validator proposes, or None where it proposes none.
    pub fn propose<R: Wait>(&mut self, rt: &R) -> Result<Option<Header>, AllocError>
        ensures stays { StaysWith self.old self.new }
        ensures looked { Looked S.scheme self.old.node self.old.seat self.new.seat }
        ensures header { let node = node_of S.scheme self.old.node.setting in IfOk result (λ found. (base : State) → IsBase S.scheme self.old.node base
            → found ≡ proposed node (seen_in node base self.new.seat)) }
    {
        self.node.propose(rt, &mut self.seat)
    }

    /// How many events were accepted since the node was opened; the caller has then seen them. The call never waits.
    pub fn accepted(&mut self) -> u64
        ensures stays { StaysWith self.old self.new }
        ensures looked { Looked S.scheme self.old.node self.old.seat self.new.seat }
        ensures count { result ≡ length self.new.seat.view.seen }
    {
        self.node.accepted(&mut self.seat)
    }

    /// Whether the node is down, as far as the caller knows after this call. Where the result is false, the node may be down all the same.
    /// The call never waits.
    pub fn is_down(&mut self) -> bool
        ensures stays { StaysWith self.old self.new }
        ensures learned { Learned S.scheme self.old.node self.old.seat self.new.seat }
        ensures down { result ≡ self.new.seat.view.down }
    {
        self.node.is_down(&mut self.seat)
    }

    /// How many events are settled; the caller then knows them as settled. The call never waits.
    pub fn synced(&mut self) -> u64
        ensures stays { StaysWith self.old self.new }
        ensures learned { Learned S.scheme self.old.node self.old.seat self.new.seat }
        ensures count { result ≡ length self.new.seat.view.durable }
    {
        self.node.synced(&mut self.seat)
    }
}
