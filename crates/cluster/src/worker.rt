//! What the thread of a member does.

ghost use Rattle.std.specs.Prelude.{◌≡◌, IfOk, OnOk};
ghost use Rattle.header.specs.Checks.{Accepts};
ghost use Rattle.cluster.specs.Threads.{HasRun};

use crate::delivering::message_in;
use crate::error::ClusterError;
use crate::member::Member;
use crate::routing::{Envelope, Inbox};
use crossbeam_channel::Sender;
use diskmodel::{Gate, StopDisk};
use sigface::{Sign, Verify};
use std::sync::Wait;

/// A member with what its thread needs: the member's place in the list, its gate, its channel to the router, and how many of its outputs
/// were sent already (those from before the thread count as sent).
pub(crate) struct Worker<'a, S: Sign, D: StopDisk, G> {
    place: usize,
    pub(crate) member: Member<'a, S, D>,
    gate: G,
    router: Sender<Envelope>,
    sent: u64,
}

impl<'a, S: Sign, D: StopDisk + Drop, G: Drop> Drop for Worker<'a, S, D, G> {
    fn drop(self) {
        let Worker {
            place: _,
            member: _,
            gate: _,
            router: _,
            sent: _,
        } = self;
    }
}

impl<'a, S: Sign, D: StopDisk + Drop, G: Gate + Drop> Worker<'a, S, D, G> {
    /// The worker of a member. What the member put out before is not sent.
    pub(crate) fn new(
        place: usize,
        member: Member<'a, S, D>,
        gate: G,
        router: Sender<Envelope>,
    ) -> Worker<'a, S, D, G>
        ensures { result.member ≡ member.entry }
    {
        let sent = member.outputs();
        Worker {
            place,
            member,
            gate,
            router,
            sent,
        }
    }

    /// The member's place in the list of members.
    pub(crate) fn place(&self) -> usize {
        self.place
    }

    /// Makes this many turns, and returns the member.
    ///
    /// # Errors
    /// `Memory` where an allocation failed, in this thread or in the router.
    pub(crate) fn run<R: Wait, V: Verify>(
        mut self,
        rt: &R,
        verifier: &V,
        inbox: &Inbox,
        turns: u64,
    ) -> Result<Member<'a, S, D>, ClusterError>
        ensures { IfOk result (λ later. HasRun S.scheme D.device (V.accepts verifier.now) turns self.entry.member later) }
    {
        'turns: for made in 0..turns {
            self.turn(rt, verifier, inbox)?;
        }
        let Worker {
            place: _,
            member,
            gate: _,
            router: _,
            sent: _,
        } = self;
        Ok(member)
    }

    // One turn: passes the gate, gives the member the messages in its inbox, lets it make a round, and sends what went out.
    fn turn<R: Wait, V: Verify>(
        &mut self,
        rt: &R,
        verifier: &V,
        inbox: &Inbox,
    ) -> Result<(), ClusterError>
        ensures { OnOk result (HasRun S.scheme D.device (V.accepts verifier.now) 1 self.old.member self.new.member) }
    {
        self.gate.pass();
        take_all(&mut self.member, verifier, inbox.take(rt))?;
        make_round(&mut self.member)?;
        self.send_new(rt)
    }

    // Sends the outputs of the member that weren't sent yet.
    fn send_new<R: Wait>(&mut self, rt: &R) -> Result<(), ClusterError>
        ensures { self.new.member ≡ self.old.member }
    {
        let outputs = self.member.outputs();
        for number in self.sent..outputs {
            self.send(rt, number)?;
        }
        self.sent = outputs;
        Ok(())
    }

    // Sends the message of the output with this number. A piece of the order is no message.
    fn send<R: Wait>(&self, rt: &R, number: u64) -> Result<(), ClusterError> {
        let Some(output) = self.member.output(number) else {
            return Ok(());
        };
        let Some(message) = message_in(output)? else {
            return Ok(());
        };
        match self
            .router
            .send(rt, Envelope::new(self.member.own(), output, message))
        {
            Ok(()) => Ok(()),
            Err(_) => Err(ClusterError::Memory),
        }
    }
}

// Gives a member all messages that came for it.
fn take_all<S: Sign, D: StopDisk, V: Verify>(
    member: &mut Member<'_, S, D>,
    verifier: &V,
    envelopes: Vec<Envelope>,
) -> Result<(), ClusterError>
    ensures { OnOk result (HasRun S.scheme D.device (V.accepts verifier.now) 0 member.old member.new) }
{
    'envelopes: for envelope in envelopes {
        take_one(member, verifier, envelope)?;
    }
    Ok(())
}

// Gives a member one message, if the message is for it. A member that is gone takes none.
fn take_one<S: Sign, D: StopDisk, V: Verify>(
    member: &mut Member<'_, S, D>,
    verifier: &V,
    envelope: Envelope,
) -> Result<(), ClusterError>
    ensures { OnOk result (HasRun S.scheme D.device (V.accepts verifier.now) 0 member.old member.new) }
{
    if !member.is_there() {
        return Ok(());
    }
    if !envelope.is_for(member.own()) {
        return Ok(());
    }
    let sender = envelope.sender();
    member.take_in(verifier, sender, envelope.into_message())?;
    Ok(())
}

// Lets a member make a round. A member that is gone makes none.
fn make_round<S: Sign, D: StopDisk>(member: &mut Member<'_, S, D>) -> Result<(), ClusterError>
    ensures { OnOk result ((accepts : Accepts) → HasRun S.scheme D.device accepts 1 member.old member.new) }
{
    if !member.is_there() {
        return Ok(());
    }
    member.flush()?;
    Ok(())
}
