//! A cluster: several nodes of one committee in one process.

use crate::delivering::message_in;
use crate::error::ClusterError;
use crate::member::Member;
use crate::moves::{Applied, Move, Request};
use crate::running::run_members;
use diskmodel::{Gate, StopDisk};
use journal::JournalError;
use sigface::{Sign, Verify};
use std::alloc::Global;
use std::marker::Model;
use std::sync::Wait;
use std::thread::Threads;
use validator::Config;
use wire::{Author, Digest, Header, Message, Output};

/// Several nodes of one committee, each on its own disk; moves name a node by its number in the committee. It is for testing a committee:
/// it records all that its nodes put out, so it grows with every move.
pub struct Cluster<'a, S: Sign, D: StopDisk, V: Verify> {
    alloc: Global,
    verifier: V,
    members: Vec<Member<'a, S, D>>,
}

impl<'a, S: Sign, D: StopDisk + Drop, V: Verify + Drop> Drop for Cluster<'a, S, D, V> {
    fn drop(self) {
        let Cluster {
            alloc: _,
            verifier: _,
            members: _,
        } = self;
    }
}

impl<'a, S: Sign, D: StopDisk, V: Verify> Model for Cluster<'a, S, D, V> {
    ghost use Rattle.std.specs.Coded.{codes};
    ghost use Rattle.votebook.specs.contracts.book.VoteBook as votes;
    ghost use Rattle.cluster.specs.Cluster.{ClusterView};

    ghost Value = { ClusterView S D V };

    ghost coded = { Prim.hlevel (codes, S.code, D.code, V.code, votes.the_row.coded) };

    ghost view = { λ c. record { verifier = c.verifier; members = c.members.items } };
}

impl<'a, S: Sign, D: StopDisk + Drop, V: Verify + Drop> Cluster<'a, S, D, V> {
    ghost use Rattle.std.specs.Prelude.{◌≡◌, ◌≢◌, ◌⊎◌, ◌↔◌, List, [], length, map, position, Some, None, vec_len, All, Contains, IfOk, IfErr, IfSome, IsNone, IsErrOf, option_copied, slice_get};
    ghost use Rattle.std.specs.List.{AllZip};
    ghost use Rattle.std.specs.Option.{option_and_then, option_map};
    ghost use Rattle.spec_world.specs.Steps.{IsRun};
    ghost use Rattle.validator.specs.Setting.{node_of};
    ghost use Rattle.cluster.specs.Answers.{Became, IsJournal, IsJournalFault, CountsMore};
    ghost use Rattle.cluster.specs.Applying.{first_world, ran, IsDone};
    ghost use Rattle.cluster.specs.Member.{MemberView, StandsAt, IsOn, IsNew, Proposes};
    ghost use Rattle.cluster.specs.Cluster.{named, at, has_member, message_at, asked_in, actor, IsAsked, IsApplied, IsThere, IsDelivery, LacksNode, LacksOutput, AreOfOne, AreDistinct};
    ghost use Rattle.cluster.specs.Threads.{Act, HasRun};
    ghost use Rattle.cluster.specs.declared.moves.Move.TheVariants.{Deliver};

    /// Opens a node for each of these settings, each on the disk at its place.
    ///
    /// # Errors
    /// `Journal` if a node could not be opened, `Memory` if an allocation failed.
    pub fn new(
        alloc: Global,
        configs: &'a [Config<S>],
        disks: Vec<D>,
        verifier: V,
    ) -> Result<Cluster<'a, S, D, V>, ClusterError>
        requires many { vec_len disks ≡ length configs.now }
        requires empty { All (λ disk. D.device.content disk ≡ []) disks.items }
        requires one_committee { AreOfOne configs.now }
        requires distinct { AreDistinct configs.now }
        ensures settings { IfOk result (λ cluster. map (λ member. member.setting) cluster.members ≡ configs.now) }
        ensures verifier { IfOk result (λ cluster. cluster.verifier ≡ verifier) }
        // The model of each member's node is at its beginning: no run has accepted, settled or given out anything.
        ensures runs { IfOk result (λ cluster. All (λ member. IsRun (node_of S.scheme member.setting) [] (first_world (node_of S.scheme member.setting))) cluster.members) }
        ensures begins { IfOk result (λ cluster. All (λ member. StandsAt (node_of S.scheme member.setting) D.device (first_world (node_of S.scheme member.setting)) member) cluster.members) }
        // Each member's desk was just opened on an empty disk. It has accepted nothing, and the member gave nothing out.
        ensures new { IfOk result (λ cluster. All (IsNew S.scheme D.device) cluster.members) }
        ensures up { IfOk result (λ cluster. All (λ member. member.desk ≢ None) cluster.members) }
        // A member's disk has counted as many failed calls as the disk at the same place of the given list.
        ensures disks { IfOk result (λ cluster. AllZip (IsOn D.device) disks.items cluster.members) }
        // On empty disks an opening fails only if an allocation or a disk fails. It reports the disk only if a disk counted a failed call.
        ensures errors { IfErr result (λ error. (error ≡ ClusterError.Memory) ⊎ IsJournalFault error) }
        ensures device { IsErrOf result (ClusterError.Journal JournalError.Device) → (disk : D) × Contains disks.items disk × CountsMore D.device disk }
    {
        let mut disks = disks;
        let mut members = Vec::new(alloc);
        for config in configs {
            members.reserve(1)?;
            members.push_reserved(Member::open(alloc, config, disks.remove(0))?);
        }
        Ok(Cluster {
            alloc,
            verifier,
            members,
        })
    }

    /// Makes a move. Then the moved node puts out all that it may; its outputs are numbered from 0 on, over all its runs.
    ///
    /// # Errors
    /// `NoSuchNode` and `NoSuchOutput`: nothing has changed. `Journal`: the node could not be opened after a stop and is gone; its outputs
    /// can still be delivered. `Memory`: an allocation failed, perhaps after the move was made; outputs that could not go out wait in the
    /// node.
    pub fn apply(&mut self, step: Move) -> Result<Applied, ClusterError>
        // The moved node does what the move asks, and then all that may go out goes out. All other nodes are unchanged.
        ensures applied { IsApplied S.scheme D.device (V.accepts self.old.verifier) self.old.members step self.new.members result }
        ensures verifier { self.new.verifier ≡ self.old.verifier }
        // The move gets these errors if and only if it names a node that doesn't exist or is gone, or an output that doesn't exist.
        ensures no_node { IsErrOf result ClusterError.NoSuchNode ↔ LacksNode self.old.members step }
        ensures no_output { IsErrOf result ClusterError.NoSuchOutput ↔ LacksOutput self.old.members step }
        ensures unchanged { IfErr result (λ error. (error ≡ ClusterError.NoSuchNode) ⊎ (error ≡ ClusterError.NoSuchOutput) → self.new ≡ self.old) }
    {
        let (node, request) = self.asked(step)?;
        self.ask(node, request)
    }

    /// The header that a node proposes after all events that it accepted; None if it proposes none.
    ///
    /// # Errors
    /// `NoSuchNode` if there is no such node or it is gone; `Memory` if an allocation failed.
    pub fn propose(&self, node: Author) -> Result<Option<Header>, ClusterError>
        ensures ok { IfOk result (λ found. (member : MemberView S D) × (at self.now.members node ≡ Some member) × Proposes (node_of S.scheme member.setting) member found) }
        ensures no_node { IsErrOf result ClusterError.NoSuchNode ↔ (IsThere self.now.members node → ⊥) }
        ensures errors { IfErr result (λ error. (error ≡ ClusterError.NoSuchNode) ⊎ (error ≡ ClusterError.Memory)) }
    {
        match self.member(node) {
            Some(member) => member.propose(),
            None => Err(ClusterError::NoSuchNode),
        }
    }

    /// The longest order that a node gave out over all its runs, even if the node is gone by now. None if there is no such node. The call
    /// allocates no memory.
    pub fn given_order(&self, node: Author) -> Option<&[Digest]>
        ensures some { IfSome result (λ digests. (member : MemberView S D) × (at self.now.members node ≡ Some member) × (digests.now ≡ member.out.order)) }
        ensures none { IsNone result ↔ (at self.now.members node ≡ None) }
    {
        match self.member(node) {
            Some(member) => Some(member.order()),
            None => None,
        }
    }

    /// How many outputs a node has put out over all its runs; None if there is no such node.
    pub fn outputs(&self, node: Author) -> Option<u64>
        ensures { result ≡ option_map (λ member. length member.out.outputs) (at self.now.members node) }
    {
        match self.member(node) {
            Some(member) => Some(member.outputs()),
            None => None,
        }
    }

    /// The output that a node put out under this number; None if there is no such node or output.
    pub fn output(&self, node: Author, number: u64) -> Option<&Output>
        ensures { option_copied result ≡ option_and_then (λ member. slice_get member.out.outputs number) (at self.now.members node) }
    {
        match self.member(node) {
            Some(member) => member.output(number),
            None => None,
        }
    }

    /// Runs each node in a thread of its own for `turns` turns. In each turn the thread passes the gate at its place, gives its node the
    /// messages that came for it, lets the node make one round, and sends what the node then puts out to its receivers. Outputs from before
    /// the call are not sent. The call returns once all threads have ended.
    ///
    /// # Errors
    /// `Memory` if a thread couldn't be made or an allocation outside a round failed; the cluster is gone then. A round in which an
    /// allocation fails settles nothing, and the next round tries again. After an error in one thread the others still make all their
    /// turns, so no gate may wait without limit for another thread.
    pub fn run_threads<R, G>(
        self,
        rt: &R,
        gates: Vec<G>,
        turns: u64,
    ) -> Result<Cluster<'a, S, D, V>, ClusterError>
    where
        R: Threads + Wait + Sync,
        G: Gate + Drop + Send,
        S: Send + Sync + Drop,
        D: Send,
        V: Sync,
        requires gates { vec_len gates ≡ length self.members }
        // Each node made a round in each turn, accepted only messages of other nodes' outputs that are for it, and did not stop. No clause
        // says that a message reaches anybody, or that its sender put it out: `orders_agree` assumes of messages heard in threads what it
        // assumes of messages from outside.
        ensures ran { IfOk result (λ later. AllZip (HasRun S.scheme D.device (V.accepts self.entry.verifier) turns) self.entry.members later.members) }
        ensures done { IfOk result (λ later. (acts : List (List Act)) × IsDone S.scheme D.device (V.accepts self.entry.verifier) self.entry.members (ran turns acts) later.members) }
        ensures verifier { IfOk result (λ later. later.verifier ≡ self.entry.verifier) }
        ensures errors { IfErr result (λ error. error ≡ ClusterError.Memory) }
    {
        let Cluster {
            alloc,
            verifier,
            members,
        } = self;
        let members = run_members(rt, alloc, &verifier, members, gates, turns)?;
        Ok(Cluster {
            alloc,
            verifier,
            members,
        })
    }

    // The member with this number.
    fn member(&self, node: Author) -> Option<&Member<'a, S, D>>
        ensures { option_copied result ≡ at self.now.members node }
    {
        self.members.iter().find(|member| member.own() == node)
    }

    // The place of the member with this number.
    fn place_of(&self, node: Author) -> Option<usize>
        ensures { result ≡ position (λ member. named node member) self.now.members }
    {
        self.members.iter().position(|member| member.own() == node)
    }

    // Whether there is a member with this number whose node is not gone.
    fn is_there(&self, node: Author) -> bool
        ensures { result ≡ has_member self.now.members node }
    {
        match self.member(node) {
            Some(member) => member.is_there(),
            None => false,
        }
    }

    // The node that a move changes, and the request that the move makes to it.
    fn asked(&self, step: Move) -> Result<(Author, Request), ClusterError>
        ensures ok { IfOk result (λ asked. (asked.0 ≡ actor step) × (asked_in self.now.members step ≡ Some asked.1)) }
        ensures no_node { IsErrOf result ClusterError.NoSuchNode ↔ (IsDelivery step × LacksNode self.now.members step) }
        ensures no_output { IsErrOf result ClusterError.NoSuchOutput ↔ LacksOutput self.now.members step }
        ensures memory { IsErrOf result ClusterError.Memory → IsThere self.now.members (actor step) }
        ensures never { IfErr result (λ error. IsJournal error → ⊥) }
    {
        match step {
            Move::Deliver { node, output, to } => Ok((to, self.delivery(node, output, to)?)),
            Move::Give {
                to,
                sender,
                message,
            } => Ok((to, Request::Take { sender, message })),
            Move::Coin { node, coin } => Ok((
                node,
                Request::Take {
                    sender: node,
                    message: Message::Coin(coin),
                },
            )),
            Move::Flush(node) => Ok((node, Request::Round)),
            Move::Stop(node) => Ok((node, Request::Stop)),
        }
    }

    // The request that a delivery makes to the node that the output goes to.
    fn delivery(&self, node: Author, output: u64, to: Author) -> Result<Request, ClusterError>
        ensures ok { IfOk result (λ request. asked_in self.now.members (Deliver node output to) ≡ Some request) }
        ensures no_node { IsErrOf result ClusterError.NoSuchNode ↔ LacksNode self.now.members (Deliver node output to) }
        ensures no_output { IsErrOf result ClusterError.NoSuchOutput ↔ LacksOutput self.now.members (Deliver node output to) }
        ensures memory { IsErrOf result ClusterError.Memory → IsThere self.now.members to }
        ensures never { IfErr result (λ error. IsJournal error → ⊥) }
    {
        if !self.is_there(to) {
            return Err(ClusterError::NoSuchNode);
        }
        let message = self.message_from(node, output)?;
        Ok(Request::Take {
            sender: node,
            message,
        })
    }

    // A copy of the message that a member put out under this number.
    fn message_from(&self, node: Author, output: u64) -> Result<Message, ClusterError>
        ensures ok { IfOk result (λ message. message_at self.now.members node output ≡ Some message) }
        ensures no_node { IsErrOf result ClusterError.NoSuchNode ↔ (at self.now.members node ≡ None) }
        ensures no_output { IsErrOf result ClusterError.NoSuchOutput ↔ ((at self.now.members node ≢ None) × (message_at self.now.members node output ≡ None)) }
        ensures errors { IfErr result (λ error. (error ≡ ClusterError.NoSuchNode) ⊎ ((error ≡ ClusterError.NoSuchOutput) ⊎ (error ≡ ClusterError.Memory))) }
    {
        let Some(member) = self.member(node) else {
            return Err(ClusterError::NoSuchNode);
        };
        let Some(output) = member.output(output) else {
            return Err(ClusterError::NoSuchOutput);
        };
        match message_in(output)? {
            Some(message) => Ok(message),
            None => Err(ClusterError::NoSuchOutput),
        }
    }

    // Makes a request to the member with this number.
    fn ask(&mut self, number: Author, request: Request) -> Result<Applied, ClusterError>
        ensures asked { IsAsked (λ one other. Became (node_of S.scheme one.setting) D.device (V.accepts self.old.verifier) request one other result) number self.old.members self.new.members result }
        ensures verifier { self.new.verifier ≡ self.old.verifier }
        ensures no_node { IsErrOf result ClusterError.NoSuchNode ↔ (IsThere self.old.members number → ⊥) }
        ensures same { IsErrOf result ClusterError.NoSuchNode → self.new ≡ self.old }
        ensures never { ¬ IsErrOf result ClusterError.NoSuchOutput }
    {
        match self.place_of(number) {
            Some(place) => self.members[place].answer(self.alloc, &self.verifier, request),
            None => Err(ClusterError::NoSuchNode),
        }
    }
}
