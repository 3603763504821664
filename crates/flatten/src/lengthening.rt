//! Prepares what a commit of several leaders will add to the order and mark.

ghost use Rattle.std.specs.Prelude.{◌≡◌, ℕ, ◌-◌, ◌<◌, ◌≤◌, ◌^◌, ◌||◌, ◌&&◌, min, nat_le, true, length, List, Option, Some, IfOk, slice_get};
ghost use Rattle.spec_model.specs.Ordering.{segments};
ghost use Rattle.dag.specs.Graph.{slots_in, marked_in, reaches_in, end_in};
ghost use Rattle.spec_model.specs.Words.{Author};
ghost use Rattle.tusk.specs.Chain.{ledger_in};
ghost use Rattle.flatten.specs.Lengthening.{FitsTo};
ghost use Rattle.flatten.specs.Segments.{leader_held, references_by, read_references_by, digests_of, leaders_in, AreLinked, IsMarkedPast, IsMarkedFor};

use crate::segments::{lowest, order};
use crate::sets::{round_of, set_at};
use committee::MemberSet;
use dag::Dag;
use std::alloc::{AllocError, Global};
use std::marker::Model;
use wire::{Author, Digest, Round};

/// What a commit of several leaders will add to the order, and what it will mark. All memory for that is allocated already. Contracts see
/// the digests, the last leader, the sets of authors and the number of references read.
pub struct Lengthening {
    digests: Vec<Digest>,
    last: (Round, Author),
    // The authors whose certificates are ordered: a set for each round, from the last leader's downwards.
    ordered: Vec<MemberSet>,
    // How many references to parents were read.
    reads: u64,
}

impl Drop for Lengthening {
    fn drop(self) {
        let Lengthening {
            digests: _,
            last: _,
            ordered: _,
            reads: _,
        } = self;
    }
}

impl Model for Lengthening {
    ghost use Rattle.flatten.specs.Lengthening.{LengtheningView};

    ghost Value = { LengtheningView };

    ghost view = { λ m. record { digests = m.digests.items; last = m.last; ordered = m.ordered.items; reads = m.reads } };
}

impl Lengthening {
    /// Prepares a commit of these leaders, oldest first; each reaches the one before. The first one reaches the leader that was committed
    /// last, and that one reaches all that is marked.
    ///
    /// # Errors
    /// `AllocError` if an allocation failed.
    pub fn new(
        alloc: Global,
        dag: &Dag,
        chain: &[(Round, Author)],
    ) -> Result<Lengthening, AllocError>
        requires some { 0 < length chain.now }
        ensures digests { IfOk result (λ made. (previous : Option (ℕ × Author)) (coins : List ℕ) → AreLinked dag.now previous chain.now → IsMarkedFor dag.now previous chain.now
            → made.digests ≡ digests_of (segments (ledger_in dag.now coins) (leader_held dag.now previous) (leaders_in dag.now chain.now))) }
        ensures last { IfOk result (λ made. slice_get chain.now (length chain.now - 1) ≡ Some made.last) }
        ensures of { IfOk result (λ made. (previous : Option (ℕ × Author)) → AreLinked dag.now previous chain.now → IsMarkedFor dag.now previous chain.now → FitsTo dag.now made) }
        ensures reads { IfOk result (λ made. (previous : Option (ℕ × Author)) → AreLinked dag.now previous chain.now → IsMarkedFor dag.now previous chain.now
            → made.reads ≤ references_by dag.now (leader_held dag.now previous) (leaders_in dag.now chain.now)) }
        ensures exact { IfOk result (λ made. (previous : Option (ℕ × Author)) → AreLinked dag.now previous chain.now → IsMarkedFor dag.now previous chain.now
            → made.reads ≡ min (read_references_by dag.now (leader_held dag.now previous) (leaders_in dag.now chain.now)) (2 ^ 64 - 1)) }
    {
        dag.limits_hold();
        let last = chain[chain.len() - 1];
        let mut ordered = Vec::new(alloc);
        let mut digests = Vec::new(alloc);
        let mut reads: u64 = 0;
        for place in 0..chain.len() {
            let more = order(alloc, dag, chain[place], last.0, &mut ordered, &mut digests)?;
            reads = reads.saturating_add(more);
        }
        Ok(Lengthening {
            digests,
            last,
            ordered,
            reads,
        })
    }

    /// The digests that the leaders order, one leader after the other.
    pub fn digests(&self) -> &[Digest]
        ensures { result.now ≡ self.now.digests }
    {
        &self.digests
    }

    /// The round and author of the last of the leaders.
    pub fn last(&self) -> (Round, Author)
        ensures { result ≡ self.now.last }
    {
        self.last
    }

    /// How many references to parents were read for this: those in the certificates that a leader orders, each once, except in the lowest
    /// round of which the leader orders any. The number fits a `u64`.
    pub fn reads(&self) -> u64
        ensures { result ≡ self.now.reads }
    {
        self.reads
    }
}

/// Marks the certificates that the leaders order, in the DAG for which this was prepared. Then, of the certificates at most the depth below
/// the last leader, exactly those that it reaches are marked. The call allocates no memory.
pub fn mark(dag: &mut Dag, made: &Lengthening)
    ensures charter { dag.new.charter ≡ dag.old.charter }
    ensures floor { dag.new.floor ≡ dag.old.floor }
    ensures base { dag.new.base ≡ dag.old.base }
    ensures end { end_in dag.new ≡ end_in dag.old }
    ensures slots { (round author : ℕ) → slots_in dag.new round author ≡ slots_in dag.old round author }
    ensures kept { (round author : ℕ) → marked_in dag.old round author ≡ true → marked_in dag.new round author ≡ true }
    ensures exact { FitsTo dag.old made.now → (round author : ℕ)
        → marked_in dag.new round author ≡ (marked_in dag.old round author || (nat_le (made.now.last.0 - dag.old.charter.depth) round && reaches_in dag.old made.now.last.0 made.now.last.1.0 round author)) }
    ensures marked { FitsTo dag.old made.now → IsMarkedPast dag.new (made.now.last.0 - dag.new.charter.depth) (leader_held dag.new (Some made.now.last)) }
{
    dag.limits_hold();
    let (last, _) = made.last;
    let top = last.number();
    let rounds = (top + 1).saturating_sub(lowest(dag, last));
    for place in 0..rounds.min(made.ordered.len() as u64) {
        dag.mark(
            round_of(top - place),
            &set_at(&made.ordered, place as usize),
        );
    }
}
