//! The sequencer: the certificates, the coins and the order of one validator.

ghost use Rattle.std.specs.Prelude.{◌≡◌, ℕ, ◌+◌, ◌-◌, ◌<◌, ◌≤◌, ◌++◌, length, Ok, Some, true, is_some, IfSome, IfOk, OnOk, OnErr, vec_len, vec_capacity};
ghost use Rattle.committee.specs.Charter.{Charter};
ghost use Rattle.spec_machine.specs.Machine.{certificate_of, fresh, after, round_in};
ghost use Rattle.spec_machine.specs.Sound.{IsSound};
ghost use Rattle.spec_model.specs.Histories.{as_coin};
ghost use Rattle.spec_model.specs.Nodes.{Node};
ghost use Rattle.spec_model.specs.Slots.{certificate_digest};
ghost use Rattle.spec_model.specs.States.{State};
ghost use Rattle.spec_model.specs.Words.{Event};
ghost use Rattle.dag.specs.Answer.{answer};
ghost use Rattle.dag.specs.declared.answers.Added.TheVariants.{New};
ghost use Rattle.sequencer.specs.Sequence.{IsAt, ComesTo, IsPrepared, CommitsTo, prepared_digests, wave_in};
ghost use Rattle.dag.specs.Graph.{slots_in};
ghost use Rattle.sequencer.specs.Restored.{Parts, AreParts, ArePartsOf, HasNoMarks, IsMarkedTo};
ghost use Rattle.wire.specs.declared.round.TheConstants.Round.{MAX};

use crate::facts::states_go_on;
use crate::prepared::Prepared;
use crate::restoring::{empty_dag, fill};
use committee::Committee;
use dag::Dag;
use flatten::{made_stays, mark};
use spec_machine::fresh_is_sound;
use std::alloc::{AllocError, Global};
use std::marker::Model;
use tusk::Coins;
use wire::{Author, Certificate, Digest, Round};

/// The certificates, the coins and the order of one validator. Contracts see the DAG, the coins, the round and author of the last committed
/// leader, and the order.
pub struct Sequencer<'a> {
    dag: Dag<'a>,
    coins: Coins,
    last: Option<(Round, Author)>,
    order: Vec<Digest>,
}

impl<'a> Drop for Sequencer<'a> {
    fn drop(self) {
        let Sequencer {
            dag: _,
            coins: _,
            last: _,
            order: _,
        } = self;
    }
}

impl<'a> Model for Sequencer<'a> {
    ghost use Rattle.sequencer.specs.Sequence.{SequencerView};

    ghost Value = { SequencerView };

    ghost view = { λ s. record { graph = s.dag; coins = s.coins; last = s.last; order = s.order.items } };
}

fn round_of(number: u64) -> Round
    requires { number ≤ MAX }
    ensures { result ≡ number }
{
    match Round::new(number) {
        Ok(round) => round,
        Err(_) => unreachable!(),
    }
}

// The round that is the committee's depth below this one; round 0 if there is none.
fn below(committee: &Committee, round: Round) -> Round
    ensures { result ≡ round - committee.now.depth }
{
    round_of(round.number().saturating_sub(committee.depth()))
}

// The wave of a leader, given the leader's round and author.
fn wave_of(last: Option<(Round, Author)>) -> Option<u64>
    ensures { result ≡ wave_in last }
{
    match last {
        Some((round, _)) => Some((round.number() + 1) / 2),
        None => None,
    }
}

// Adds digests to a list that has room for them.
fn add_all(digests: &mut Vec<Digest>, more: &[Digest])
    requires { vec_len digests.old + length more.now ≤ vec_capacity digests.old }
    ensures { digests.new.items ≡ digests.old.items ++ more.now }
{
    for digest in more {
        digests.push_reserved(*digest);
    }
}

impl<'a> Sequencer<'a> {
    /// The sequencer of a validator that has taken no event: it has the genesis certificates. On `AllocError` an allocation failed.
    pub fn new(alloc: Global, committee: &'a Committee) -> Result<Sequencer<'a>, AllocError>
        ensures { IfOk result (λ made. (node : Node) → node.charter ≡ committee.now → IsAt node (fresh node) made) }
    {
        Ok(Sequencer {
            dag: Dag::new(alloc, committee)?,
            coins: Coins::new(alloc),
            last: None,
            order: Vec::new(alloc),
        })
    }

    /// The sequencer of a validator in a sound state, made from the state's floor, round and author of the last committed leader,
    /// certificates of rounds above 0 (sorted by round and then by author, each with its digest), coins and order. To mark what the last
    /// leader reaches it walks over as many rounds as the depth, at most. On `AllocError` an allocation failed.
    pub fn restore(
        alloc: Global,
        committee: &'a Committee,
        floor: Round,
        last: Option<(Round, Author)>,
        certificates: Vec<(Certificate, Digest)>,
        coins: Coins,
        order: Vec<Digest>,
    ) -> Result<Sequencer<'a>, AllocError>
        requires parts { AreParts (record { charter = committee.now; floor = floor; last = last; held = certificates.items; coins = coins; order = order.items }) }
        ensures { let parts : Parts = record { charter = committee.now; floor = floor; last = last; held = certificates.items; coins = coins; order = order.items }
            in IfOk result (λ made. (node : Node) (state : State) → ArePartsOf node state parts → IsAt node state made) }
    {
        fresh_is_sound();
        let mut dag = empty_dag(alloc, committee, floor)?;
        fill(&mut dag, certificates)?;
        let mut restored = Sequencer {
            dag,
            coins,
            last: None,
            order,
        };
        restored.mark(alloc, last)?;
        Ok(restored)
    }

    // Marks the certificates that the last committed leader reaches; none is marked before. What that leader orders is in the order
    // already. On `AllocError` an allocation failed, and nothing has changed.
    fn mark(&mut self, alloc: Global, last: Option<(Round, Author)>) -> Result<(), AllocError>
        requires unmarked { HasNoMarks self.old }
        requires held { IfSome last (λ slot. is_some (slots_in self.old.graph slot.0 slot.1.0) ≡ true) }
        ensures ok { OnOk result (IsMarkedTo self.old self.new last) }
        ensures err { OnErr result (self.new ≡ self.old) }
    {
        self.dag.limits_hold();
        if let Some(leader) = last {
            let prepared = Prepared::new(alloc, &self.dag, &[leader])?;
            self.commit(&prepared);
        }
        Ok(())
    }

    /// The certificates, as a DAG.
    pub fn dag(&self) -> &Dag<'a>
        ensures { result.now ≡ self.now.graph }
    {
        &self.dag
    }

    /// The coins that came in so far.
    pub fn coins(&self) -> &Coins
        ensures { result.now ≡ self.now.coins }
    {
        &self.coins
    }

    /// The order: the digests of the ordered certificates.
    pub fn order(&self) -> &[Digest]
        ensures { result.now ≡ self.now.order }
    {
        &self.order
    }

    /// The round of the node: 1 plus the greatest round that has certificates by a quorum of authors. Rounds are tried from the greatest
    /// one of any certificate down to the floor.
    pub fn round(&self) -> u64
        ensures value { (node : Node) (state : State) → IsSound node state → IsAt node state self.now → result ≡ round_in node state }
        ensures limit { result ≤ MAX + 1 }
    {
        self.dag.limits_hold();
        let quorum = self.dag.committee().quorum();
        let end = self.dag.end();
        for past in 0..end - self.dag.floor().number() {
            let number = end - 1 - past;
            if quorum <= self.dag.stake_at(round_of(number)) {
                return number + 1;
            }
        }
        1
    }

    /// Prepares what a new certificate will add to the order, before it is added. On `AllocError` an allocation failed.
    pub fn prepare(&self, alloc: Global, certificate: &Certificate) -> Result<Prepared, AllocError>
        requires member { certificate.now.header.author.0 < length self.now.graph.charter.keys }
        ensures { IfOk result (λ prepared. (node : Node) (state : State) (event : Event) → ComesTo node state event self.now
            → certificate_of node state event.message ≡ Some certificate.now → IsPrepared node state event self.now prepared) }
    {
        self.dag.limits_hold();
        let last = wave_of(self.last);
        let chain = self
            .coins
            .committed_by(alloc, &self.dag, certificate, last)?;
        Prepared::new(alloc, &self.dag, &chain)
    }

    /// Prepares what the coin of the next wave will add to the order, before it is added. On `AllocError` an allocation failed.
    pub fn prepare_coin(&self, alloc: Global, value: u64) -> Result<Prepared, AllocError>
        ensures { IfOk result (λ prepared. (node : Node) (state : State) (event : Event) → ComesTo node state event self.now
            → as_coin event.message ≡ Some value → IsPrepared node state event self.now prepared) }
    {
        self.dag.limits_hold();
        let last = wave_of(self.last);
        let chain = self.coins.committed_with(alloc, &self.dag, value, last)?;
        Prepared::new(alloc, &self.dag, &chain)
    }

    /// Adds a new certificate, which has this digest, and orders what was prepared for it. On `AllocError` an allocation failed, and
    /// nothing has changed.
    pub fn hold(
        &mut self,
        certificate: Certificate,
        digest: Digest,
        prepared: &Prepared,
    ) -> Result<(), AllocError>
        requires member { certificate.header.author.0 < length self.old.graph.charter.keys }
        requires named { 0 < length certificate.header.parents }
        requires digested { digest ≡ certificate_digest certificate.header }
        requires new { answer self.old.graph certificate ≡ Ok New }
        ensures order { OnOk result (self.new.order ≡ self.old.order ++ prepared_digests prepared.now) }
        ensures charter { OnOk result (self.new.graph.charter ≡ self.old.graph.charter) }
        ensures at { OnOk result ((node : Node) (state : State) (event : Event) → ComesTo node state event self.old
            → certificate_of node state event.message ≡ Some certificate → IsPrepared node state event self.old prepared.now
            → IsAt node (after node state event) self.new) }
        ensures err { OnErr result (self.new ≡ self.old) }
    {
        self.dag.limits_hold();
        // Allocations come first, so that a failure changes nothing.
        self.order.reserve(prepared.digests().len())?;
        self.dag.hold(certificate, digest)?;
        self.dag.limits_hold();
        add_all(&mut self.order, prepared.digests());
        self.commit(prepared);
        made_stays();
        states_go_on();
        Ok(())
    }

    /// Adds the coin of the next wave, and orders what was prepared for it. On `AllocError` an allocation failed, and nothing has changed.
    pub fn push(&mut self, value: u64, prepared: &Prepared) -> Result<(), AllocError>
        ensures order { OnOk result (self.new.order ≡ self.old.order ++ prepared_digests prepared.now) }
        ensures charter { OnOk result (self.new.graph.charter ≡ self.old.graph.charter) }
        ensures at { OnOk result ((node : Node) (state : State) (event : Event) → ComesTo node state event self.old
            → as_coin event.message ≡ Some value → IsPrepared node state event self.old prepared.now
            → IsAt node (after node state event) self.new) }
        ensures err { OnErr result (self.new ≡ self.old) }
    {
        self.dag.limits_hold();
        // Allocations come first, so that a failure changes nothing.
        self.order.reserve(prepared.digests().len())?;
        self.coins.push(value)?;
        add_all(&mut self.order, prepared.digests());
        self.commit(prepared);
        states_go_on();
        Ok(())
    }

    // Sets the marks that were prepared, and drops the certificates below the new floor. The call allocates no memory.
    fn commit(&mut self, prepared: &Prepared)
        ensures graph { CommitsTo self.old.graph self.old.last prepared.now.committed self.new.graph self.new.last }
        ensures charter { self.new.graph.charter ≡ self.old.graph.charter }
        ensures coins { self.new.coins ≡ self.old.coins }
        ensures order { self.new.order ≡ self.old.order }
    {
        if let Some(made) = &prepared.committed {
            let (round, author) = made.last();
            let floor = below(self.dag.committee(), round);
            mark(&mut self.dag, made);
            self.dag.commit_to(round);
            self.dag.limits_hold();
            self.dag.drop_below(floor);
            self.last = Some((round, author));
        }
    }
}
