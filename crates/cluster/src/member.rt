//! A member of a cluster: a node, which stays in the list after it is gone.

use crate::collecting::{GivenOut, collect};
use crate::error::ClusterError;
use crate::moves::{Applied, Request};
use crate::turns::{offer, restart, round};
use desk::Desk;
use diskmodel::StopDisk;
use journal::JournalError;
use sigface::{Sign, Verify};
use std::alloc::Global;
use std::marker::Model;
use validator::Config;
use wire::{Author, Digest, Header, Message, Output};

/// A member: its setting, its node (a desk, which is gone once it could not be opened after a stop), and what it has given out.
pub(crate) struct Member<'a, S: Sign, D: StopDisk> {
    config: &'a Config<S>,
    desk: Option<Desk<'a, S, D>>,
    given: GivenOut,
}

impl<'a, S: Sign, D: StopDisk + Drop> Drop for Member<'a, S, D> {
    fn drop(self) {
        let Member {
            config: _,
            desk: _,
            given: _,
        } = self;
    }
}

impl<'a, S: Sign, D: StopDisk> Model for Member<'a, S, D> {
    ghost use Rattle.std.specs.Prelude.{◌≡◌, Some};
    ghost use Rattle.std.specs.Coded.{codes};
    ghost use Rattle.votebook.specs.contracts.book.VoteBook as votes;
    ghost use Rattle.desk.specs.Desk.{DeskView};
    ghost use Rattle.cluster.specs.Member.{MemberView, IsOwn};

    ghost Value = { MemberView S D };

    ghost coded = { Prim.hlevel (codes, S.code, D.code, votes.the_row.coded) };

    ghost view = { λ m. record { setting = m.config.now; desk = m.desk; out = m.given } };

    ghost invariant = { λ m. (desk : DeskView S D) → m.desk ≡ Some desk → IsOwn m.config.now desk };
}

impl<'a, S: Sign, D: StopDisk> Member<'a, S, D> {
    ghost use Rattle.std.specs.Prelude.{◌≡◌, ◌≢◌, ◌⊎◌, ◌↔◌, [], length, is_some, slice_get, Some, None, IfOk, IfErr, IfSome, IsNone, IsErrOf};
    ghost use Rattle.spec_world.specs.Steps.{IsRun};
    ghost use Rattle.validator.specs.Setting.{node_of};
    ghost use Rattle.desk.specs.Desk.{DeskView};
    ghost use Rattle.header.specs.Checks.{Accepts};
    ghost use Rattle.cluster.specs.Answers.{Became, IsJournal, IsJournalFault, CountsMore};
    ghost use Rattle.cluster.specs.Applying.{first_world};
    ghost use Rattle.cluster.specs.Member.{StandsAt, IsOn, IsNew, Proposes};
    ghost use Rattle.cluster.specs.declared.moves.Request.TheVariants.{Take, Round, Stop};

    /// Opens a member's node on a disk. It has given out nothing yet.
    ///
    /// # Errors
    /// Those of opening a node.
    pub(crate) fn open(
        alloc: Global,
        config: &'a Config<S>,
        disk: D,
    ) -> Result<Member<'a, S, D>, ClusterError>
    where
        D: Drop,
        ensures setting { IfOk result (λ member. member.setting ≡ config.now) }
        // On an empty disk the member stands at the world where its runs begin.
        ensures begins { let node = node_of S.scheme config.now in IfOk result (λ member. D.device.content disk ≡ [] → StandsAt node D.device (first_world node) member) }
        ensures runs { IfOk result (λ member. IsRun (node_of S.scheme member.setting) [] (first_world (node_of S.scheme member.setting))) }
        ensures new { IfOk result (λ member. D.device.content disk ≡ [] → IsNew S.scheme D.device member) }
        ensures up { IfOk result (λ member. member.desk ≢ None) }
        ensures disk { IfOk result (λ member. IsOn D.device disk member) }
        ensures errors { IfErr result (λ error. D.device.content disk ≡ [] → IsJournalFault error) }
        ensures journal { IfErr result IsJournal }
        ensures device { IsErrOf result (ClusterError.Journal JournalError.Device) → CountsMore D.device disk }
    {
        config.limits_hold();
        config.keys_hold();
        spec_machine::starts_fresh();
        match Desk::open(alloc, config, disk) {
            Ok(desk) => Ok(Member {
                config,
                desk: Some(desk),
                given: GivenOut::new(alloc),
            }),
            Err(failed) => Err(ClusterError::Journal(failed.error)),
        }
    }

    /// The member's number in the committee.
    pub(crate) fn own(&self) -> Author
        ensures { result ≡ self.now.setting.own }
    {
        self.config.own()
    }

    /// The output that the member put out under this number; None if there is none.
    pub(crate) fn output(&self, number: u64) -> Option<&Output>
        ensures some { IfSome result (λ output. slice_get self.now.out.outputs number ≡ Some output.now) }
        ensures none { IsNone result → slice_get self.now.out.outputs number ≡ None }
    {
        self.given.output(number)
    }

    /// How many outputs the member has put out.
    pub(crate) fn outputs(&self) -> u64
        ensures { result ≡ length self.now.out.outputs }
    {
        self.given.outputs()
    }

    /// Whether the member still has a node. It has none after a stop from which the node couldn't be opened.
    pub(crate) fn is_there(&self) -> bool
        ensures { result ≡ is_some self.now.desk }
    {
        self.desk.is_some()
    }

    /// The longest order that the member has given out.
    pub(crate) fn order(&self) -> &[Digest]
        ensures { result.now ≡ self.now.out.order }
    {
        self.given.order()
    }

    /// The header that the member proposes after all events that it accepted; None if it proposes none.
    ///
    /// # Errors
    /// `NoSuchNode` if the member's node is gone; `Memory` if an allocation failed.
    pub(crate) fn propose(&self) -> Result<Option<Header>, ClusterError>
        ensures ok { IfOk result (λ found. Proposes (node_of S.scheme self.now.setting) self.now found) }
        ensures gone { IsErrOf result ClusterError.NoSuchNode ↔ (self.now.desk ≡ None) }
        ensures errors { IfErr result (λ error. (error ≡ ClusterError.NoSuchNode) ⊎ (error ≡ ClusterError.Memory)) }
    {
        match &self.desk {
            Some(desk) => Ok(desk.propose()?),
            None => Err(ClusterError::NoSuchNode),
        }
    }

    /// Carries out a request, and then collects what may go out.
    ///
    /// # Errors
    /// `NoSuchNode` if the member's node is gone; `Journal` if it can't be opened after a stop, and is gone from then on; `Memory` if an
    /// allocation failed, possibly after the request was carried out.
    pub(crate) fn answer<V: Verify>(
        &mut self,
        alloc: Global,
        verifier: &V,
        request: Request,
    ) -> Result<Applied, ClusterError>
    where
        D: Drop,
        ensures { Became (node_of S.scheme self.old.setting) D.device (V.accepts verifier.now) request self.old self.new result }
    {
        match request {
            Request::Take { sender, message } => self.take_in(verifier, sender, message),
            Request::Round => self.flush(),
            Request::Stop => self.stop(alloc),
        }
    }

    /// Checks a message, gives it to the node, and then collects what may go out.
    ///
    /// # Errors
    /// `NoSuchNode` if the member's node is gone; `Memory` if an allocation failed.
    pub(crate) fn take_in<V: Verify>(
        &mut self,
        verifier: &V,
        sender: Author,
        message: Message,
    ) -> Result<Applied, ClusterError>
        ensures became { Became (node_of S.scheme self.old.setting) D.device (V.accepts verifier.now) (Take sender message) self.old self.new result }
        ensures there { is_some self.new.desk ≡ is_some self.old.desk }
    {
        let Some(desk) = &mut self.desk else {
            return Err(ClusterError::NoSuchNode);
        };
        let applied = offer(desk, verifier, sender, message)?;
        collect(desk, &mut self.given)?;
        Ok(applied)
    }

    /// Lets the node make one round of take, append and settle, and then collects what may go out.
    ///
    /// # Errors
    /// `NoSuchNode` if the member's node is gone; `Memory` if an allocation failed after the round.
    pub(crate) fn flush(&mut self) -> Result<Applied, ClusterError>
        ensures became { (accepts : Accepts) → Became (node_of S.scheme self.old.setting) D.device accepts Round self.old self.new result }
        ensures there { is_some self.new.desk ≡ is_some self.old.desk }
    {
        let Some(desk) = &mut self.desk else {
            return Err(ClusterError::NoSuchNode);
        };
        let applied = round(desk);
        collect(desk, &mut self.given)?;
        Ok(applied)
    }

    // Stops the node's machine, opens the node again, and then collects what may go out. The errors are those of `answer`.
    fn stop(&mut self, alloc: Global) -> Result<Applied, ClusterError>
    where
        D: Drop,
        ensures { (accepts : Accepts) → Became (node_of S.scheme self.old.setting) D.device accepts Stop self.old self.new result }
    {
        let Some(desk) = self.desk.take() else {
            return Err(ClusterError::NoSuchNode);
        };
        let (mut desk, events) = match restart(alloc, self.config, desk) {
            Ok(opened) => opened,
            Err(error) => return Err(ClusterError::Journal(error)),
        };
        let collected = collect(&mut desk, &mut self.given);
        self.desk = Some(desk);
        collected?;
        Ok(Applied::Reopened(events))
    }
}
