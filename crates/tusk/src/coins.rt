//! The coins of the waves, and the leaders that they choose.

ghost use Rattle.std.specs.Prelude.{◌≡◌, ℕ, ◌+◌, ◌-◌, ◌*◌, ◌^◌, ◌<◌, ◌≤◌, ◌++◌, [], ◌∷◌, true, false, length, map, Ok, Some, option_map, slice_get, IfSome, IfOk, OnOk, OnErr};
ghost use Rattle.spec_model.specs.Ordering.{leader, is_directly_committed, top, newer, newer_to, newer_at};
ghost use Rattle.spec_model.specs.Words.{Certificate};
ghost use Rattle.dag.specs.Answer.{answer};
ghost use Rattle.dag.specs.Changes.{IsWith};
ghost use Rattle.dag.specs.Graph.{DagView, slots_in};
ghost use Rattle.dag.specs.declared.answers.Added.TheVariants as added;
ghost use Rattle.tusk.specs.Chain.{ledger_in, coin_of, slot_of, wave_of, IsAt, IsChain, IsSure};

use crate::support::{chosen, committed_to, is_enough, is_supported, supporters_with, two_down};
use dag::Dag;
use std::alloc::{AllocError, Global};
use std::marker::Model;
use wire::{Author, Certificate, Round};

/// The coins of the waves, from wave 1 on. Contracts see their values.
#[derive(Debug)]
pub struct Coins {
    values: Vec<u64>,
}

impl Drop for Coins {
    fn drop(self) {
        let Coins { values: _ } = self;
    }
}

impl Model for Coins {
    ghost use Rattle.std.specs.Prelude.{ℕ, List};

    ghost Value = { List ℕ };

    ghost view = { λ c. c.values.items };
}

impl Coins {
    /// The coins before the coin of the first wave: none.
    pub fn new(alloc: Global) -> Coins
        ensures { result ≡ [] }
    {
        Coins {
            values: Vec::new(alloc),
        }
    }

    /// Coins with these values, of the waves from 1 on. The call allocates no memory.
    pub fn restore(values: Vec<u64>) -> Coins
        ensures { result ≡ values.items }
    {
        Coins { values }
    }

    /// The coin at this place, counted from 0: the first one is that of wave 1. None if there are fewer coins.
    pub fn nth(&self, place: usize) -> Option<u64>
        ensures { result ≡ slice_get self.now place }
    {
        self.values.get(place).copied()
    }

    /// Adds the coin of the next wave. On `AllocError` an allocation failed.
    pub fn push(&mut self, value: u64) -> Result<(), AllocError>
        ensures ok { OnOk result (self.new ≡ self.old ++ value ∷ []) }
        ensures err { OnErr result (self.new ≡ self.old) }
    {
        self.values.push(value)?;
        Ok(())
    }

    /// How many coins there are.
    pub fn count(&self) -> usize
        ensures value { result ≡ length self.now }
        ensures small { result < 2 ^ 63 }
    {
        self.values.len()
    }

    /// The coin of a wave, if there is one; waves are counted from 1.
    pub fn get(&self, wave: u64) -> Option<u64>
        ensures value { result ≡ coin_of self.now wave }
        ensures within { IfSome result (λ _. (0 < wave) × (wave ≤ length self.now)) }
    {
        if wave == 0 {
            return None;
        }
        self.values.get((wave - 1) as usize).copied()
    }

    /// The leader of a wave, as its round and author: the wave's first round, and the author that the wave's coin chooses. None if there is
    /// no coin of the wave, or no certificate of that round and author.
    pub fn leader(&self, dag: &Dag, wave: u64) -> Option<(Round, Author)>
        ensures value { result ≡ option_map slot_of (leader (ledger_in dag.now self.now) wave) }
        ensures round { IfSome result (λ leader. leader.0 ≡ 2 * wave - 1) }
        ensures within { IfSome result (λ _. (0 < wave) × (wave ≤ length self.now)) }
    {
        let coin = self.get(wave)?;
        chosen(dag, wave, coin)
    }

    // Whether the leader of a wave has support, so that the wave is directly committed.
    fn is_committed(&self, dag: &Dag, wave: u64) -> bool
        ensures { result ≡ is_directly_committed (ledger_in dag.now self.now) wave }
    {
        dag.limits_hold();
        match self.leader(dag, wave) {
            Some(leader) => is_supported(dag, leader),
            None => false,
        }
    }

    /// The greatest wave whose leader has support. Waves are tried from that of the last coin downwards. A wave below the floor has no
    /// leader in the DAG.
    pub fn top(&self, dag: &Dag) -> Option<u64>
        ensures { result ≡ top (ledger_in dag.now self.now) }
    {
        dag.limits_hold();
        let count = self.count() as u64;
        let below = dag.floor().number() / 2;
        for past in 0..count.saturating_sub(below) {
            if self.is_committed(dag, count - past) {
                return Some(count - past);
            }
        }
        None
    }

    // The leaders of waves above `last` that are committed with this wave's leader, oldest first, and that leader, each as round and
    // author. It walks down once: what the last leader taken reaches in the first round of one wave gives what it reaches in that of the
    // wave below.
    fn newer_to(
        &self,
        alloc: Global,
        dag: &Dag,
        last: u64,
        wave: u64,
        leader: (Round, Author),
    ) -> Result<Vec<(Round, Author)>, AllocError>
        requires above { last < wave }
        requires round { leader.0 ≡ 2 * wave - 1 }
        ensures { IfOk result (λ chain. (c : Certificate) → slots_in dag.now leader.0 leader.1.0 ≡ Some c → chain.items ≡ map slot_of (newer_to (ledger_in dag.now self.now) last (wave - 1) c)) }
    {
        dag.limits_hold();
        let mut chain = Vec::new(alloc);
        let (mut round, mut author) = leader;
        let mut reached = dag.reached(round, author, round);
        for past in 1..wave - last {
            reached = two_down(dag, 2 * (wave - past) + 1, &reached);
            if let Some(earlier) = self.leader(dag, wave - past) {
                let (lower, other) = earlier;
                if reached.contains(other) {
                    chain.push((round, author))?;
                    round = lower;
                    author = other;
                    reached = dag.reached(lower, other, lower);
                }
            }
        }
        chain.push((round, author))?;
        chain.reverse();
        Ok(chain)
    }

    // The leaders that `newer_to` returns if this wave's leader has support; otherwise none.
    fn newer_if_supported(
        &self,
        alloc: Global,
        dag: &Dag,
        last: u64,
        wave: u64,
        leader: (Round, Author),
        supported: bool,
    ) -> Result<Vec<(Round, Author)>, AllocError>
        requires above { last < wave }
        requires round { leader.0 ≡ 2 * wave - 1 }
        ensures some { IfOk result (λ chain. supported ≡ true → (c : Certificate) → slots_in dag.now leader.0 leader.1.0 ≡ Some c → chain.items ≡ map slot_of (newer_to (ledger_in dag.now self.now) last (wave - 1) c)) }
        ensures none { IfOk result (λ chain. supported ≡ false → chain.items ≡ []) }
    {
        if !supported {
            return Ok(Vec::new(alloc));
        }
        self.newer_to(alloc, dag, last, wave, leader)
    }

    // The leaders of waves above `last` that are committed when this wave's leader is, oldest first, each as round and author.
    fn newer_at(
        &self,
        alloc: Global,
        dag: &Dag,
        last: u64,
        wave: u64,
    ) -> Result<Vec<(Round, Author)>, AllocError>
        ensures { IfOk result (λ chain. chain.items ≡ map slot_of (newer_at (ledger_in dag.now self.now) last wave)) }
    {
        dag.limits_hold();
        if wave <= last {
            return Ok(Vec::new(alloc));
        }
        match self.leader(dag, wave) {
            Some(leader) => self.newer_to(alloc, dag, last, wave, leader),
            None => Ok(Vec::new(alloc)),
        }
    }

    /// The committed leaders of waves above the given one, oldest first, each as round and author; without a given wave, all committed
    /// leaders. If the given wave is committed too, these are the newer part of the chain of leaders.
    pub fn chain_from(
        &self,
        alloc: Global,
        dag: &Dag,
        last: Option<u64>,
    ) -> Result<Vec<(Round, Author)>, AllocError>
        ensures newer { IfOk result (λ chain. chain.items ≡ map slot_of (newer (ledger_in dag.now self.now) (wave_of last))) }
        ensures chain { IfOk result (λ chain. IsSure (ledger_in dag.now self.now) last → IsChain (ledger_in dag.now self.now) last chain.items) }
    {
        dag.limits_hold();
        match self.top(dag) {
            Some(wave) => self.newer_at(alloc, dag, committed_to(last), wave),
            None => Ok(Vec::new(alloc)),
        }
    }

    /// The leaders that a member's new certificate commits, oldest first, each as round and author; the certificate isn't in the DAG yet.
    /// The last committed wave is `last`, and the DAG's base is the round of its leader. A certificate of the second round of a wave may
    /// support that wave's leader. A certificate of any other round supports none, and a leader that is new has no supporters yet.
    pub fn committed_by(
        &self,
        alloc: Global,
        dag: &Dag,
        certificate: &Certificate,
        last: Option<u64>,
    ) -> Result<Vec<(Round, Author)>, AllocError>
        requires member { certificate.now.header.author.0 < length dag.now.charter.keys }
        ensures { IfOk result (λ chain. IsAt dag.now self.now last → answer dag.now certificate.now ≡ Ok added.New
            → (after : DagView) → IsWith dag.now after certificate.now → IsChain (ledger_in after self.now) last chain.items) }
    {
        dag.limits_hold();
        let round = certificate.header.round.number();
        let wave = round / 2;
        let base = committed_to(last);
        if round % 2 == 1 || wave <= base {
            return Ok(Vec::new(alloc));
        }
        match self.leader(dag, wave) {
            Some(leader) => {
                let (first, author) = leader;
                let supporters = supporters_with(dag, (first, author), certificate);
                let supported = is_enough(dag, &supporters);
                self.newer_if_supported(alloc, dag, base, wave, (first, author), supported)
            }
            None => Ok(Vec::new(alloc)),
        }
    }

    /// The leaders that the coin of the next wave commits, oldest first, each as round and author. The last committed wave is `last`, and
    /// the DAG's base is the round of its leader.
    pub fn committed_with(
        &self,
        alloc: Global,
        dag: &Dag,
        value: u64,
        last: Option<u64>,
    ) -> Result<Vec<(Round, Author)>, AllocError>
        ensures { IfOk result (λ chain. IsAt dag.now self.now last → IsChain (ledger_in dag.now (self.now ++ value ∷ [])) last chain.items) }
    {
        dag.limits_hold();
        let wave = self.count() as u64 + 1;
        let base = committed_to(last);
        if wave <= base {
            return Ok(Vec::new(alloc));
        }
        match chosen(dag, wave, value) {
            Some(leader) => {
                let (first, author) = leader;
                let supported = is_supported(dag, (first, author));
                self.newer_if_supported(alloc, dag, base, wave, (first, author), supported)
            }
            None => Ok(Vec::new(alloc)),
        }
    }
}
