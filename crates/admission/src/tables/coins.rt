//! How the tables answer coins.

ghost use Rattle.std.specs.Prelude.{◌≡◌, ◌+◌, ◌*◌, ◌++◌, true, false, Some, IfOk, OnOk, OnErr};
ghost use Rattle.wire.specs.declared.message.Message.TheVariants as message;
ghost use Rattle.spec_model.specs.Admitting.{order_outputs};
ghost use Rattle.spec_model.specs.Histories.{as_coin};
ghost use Rattle.spec_model.specs.Nodes.{Node};
ghost use Rattle.spec_model.specs.States.{State};
ghost use Rattle.spec_model.specs.Words.{Event};
ghost use Rattle.spec_machine.specs.Machine.{grown, after};
ghost use Rattle.sequencer.specs.Sequence.{ComesTo, IsAt};
ghost use Rattle.admission.specs.Answers.{is_new_step};
ghost use Rattle.admission.specs.Decisions.{is_full_in, next_decision, coin_decision};
ghost use Rattle.admission.specs.Standing.{IsNew, Answers, Refuses, GoOn, PutsOut, always, from_sender};

use crate::step::Step;
use crate::tables::Tables;
use crate::tables::answer::{Answer, is_new, new_step};
use crate::tables::facts::others_stay;
use header::{Outputs, Refusal};
use sequencer::Sequencer;
use std::alloc::{AllocError, Global};
use wire::{Author, Coin, Output, Round};

// Takes this value as the coin of the next wave, and adds to the outputs what the order grows by. On `AllocError` an allocation failed:
// then the certificates, the coins and the order are as before.
fn push_coin(
    sequencer: &mut Sequencer,
    alloc: Global,
    value: u64,
    outputs: &mut Outputs,
) -> Result<(), AllocError>
    ensures outputs { OnOk result ((node : Node) (state : State) (event : Event) → ComesTo node state event sequencer.old
        → as_coin event.message ≡ Some value → outputs.new ≡ outputs.old ++ order_outputs state (grown node state event.message)) }
    ensures at { OnOk result ((node : Node) (state : State) (event : Event) → ComesTo node state event sequencer.old
        → as_coin event.message ≡ Some value → IsAt node (after node state event) sequencer.new) }
    ensures err { OnErr result (sequencer.new ≡ sequencer.old) }
{
    let prepared = sequencer.prepare_coin(alloc, value)?;
    let start = sequencer.order().len() as u64;
    outputs.push_order(alloc, start, prepared.digests())?;
    sequencer.push(value, &prepared)
}

impl<'a> Tables<'a> {
    // Whether the authors who have certificates in the last round of the coin's wave weigh a quorum.
    fn is_full(&self, coin: &Coin) -> bool
        ensures { result ≡ is_full_in self.now (2 * coin.now.wave + 1) }
    {
        match Round::new(2 * coin.wave.number() + 1) {
            Ok(round) => {
                let dag = self.sequencer.dag();
                dag.committee().quorum() <= dag.stake_at(round)
            }
            Err(_) => unreachable!(),
        }
    }

    // The decision about a coin whose wave has no coin yet.
    fn next_decision(&self, coin: &Coin) -> Result<Answer, Refusal>
        ensures { result ≡ next_decision self.now coin.now }
    {
        if coin.wave.number() != self.sequencer.coins().count() as u64 + 1 {
            return Err(Refusal::CoinOutOfTurn);
        }
        if !self.is_full(coin) {
            return Err(Refusal::CoinEarly);
        }
        Ok(Answer::New)
    }

    // The decision about a coin from this sender: New, Known, or the refusal.
    fn coin_decision(&self, sender: Author, coin: &Coin) -> Result<Answer, Refusal>
        ensures { result ≡ coin_decision self.now sender coin.now }
    {
        if sender != self.own {
            return Err(Refusal::NotOurs);
        }
        match self.sequencer.coins().get(coin.wave.number()) {
            Some(taken) if taken == coin.value => Ok(Answer::Known),
            Some(_) => Err(Refusal::CoinConflict),
            None => self.next_decision(coin),
        }
    }

    // Takes a new coin, and gives the outputs: what the order grows by.
    fn new_coin(&mut self, alloc: Global, coin: &Coin) -> Result<Vec<Output>, AllocError>
        ensures outputs { IfOk result (PutsOut self.old (message.Coin coin.now)) }
        ensures at { OnOk result (GoOn always self.old self.new (message.Coin coin.now)) }
        ensures err { OnErr result (self.new ≡ self.old) }
        ensures seed { self.new.batches.seed ≡ self.old.batches.seed }
    {
        others_stay();
        let before = self.floor();
        let mut outputs = Outputs::new(alloc);
        push_coin(&mut self.sequencer, alloc, coin.value, &mut outputs)?;
        self.trim(before);
        Ok(outputs.into_vec())
    }

    /// Takes a coin from this sender.
    ///
    /// # Errors
    /// The refusal of admission, or `Memory` where an allocation failed. Neither changes anything.
    pub fn take_coin(&mut self, alloc: Global, sender: Author, coin: &Coin) -> Result<Step, Refusal>
        ensures answer { Answers (from_sender sender) self.old (message.Coin coin.now) result }
        ensures refused { Refuses (from_sender sender) self.old (message.Coin coin.now) result }
        ensures at { is_new_step result ≡ true → GoOn always self.old self.new (message.Coin coin.now) }
        ensures same { is_new_step result ≡ false → self.new ≡ self.old }
        ensures seed { self.new.batches.seed ≡ self.old.batches.seed }
    {
        match self.coin_decision(sender, coin) {
            Ok(Answer::New) => new_step(self.new_coin(alloc, coin)),
            Ok(Answer::Known) => Ok(Step::Known(Vec::new(alloc))),
            Err(refusal) => Err(refusal),
        }
    }

    /// Whether a coin from this sender would be new. The call allocates no memory.
    pub fn is_coin_new(&self, sender: Author, coin: &Coin) -> bool
        ensures { IsNew (from_sender sender) self.now (message.Coin coin.now) result }
    {
        is_new(&self.coin_decision(sender, coin))
    }
}
