//! The validator, which answers events and has no disk.

ghost use Rattle.std.specs.Prelude.{◌≡◌, ◌≢◌, ◌+◌, ◌≤◌, true, false, not, drop, None, Ok, IfOk, IfErr, IfSome, OnOk};
ghost use Rattle.header.specs.Checks.{fault_of, accepts_all};
ghost use Rattle.spec_model.specs.Admitting.{admit, is_new, IsLegal};
ghost use Rattle.spec_model.specs.Giving.{kept, unless_low};
ghost use Rattle.spec_model.specs.Histories.{History};
ghost use Rattle.spec_model.specs.Holdings.{order as order_of, round as round_of, floor as floor_of, voted_digest};
ghost use Rattle.spec_model.specs.Nodes.{IsNode};
ghost use Rattle.spec_model.specs.Proposing.{propose as propose_of};
ghost use Rattle.spec_model.specs.States.{State, floor_in};
ghost use Rattle.spec_machine.specs.Machine.{answered, after, fresh, is_missing_parents, is_ready, proposed, round_in};
ghost use Rattle.admission.specs.Answers.{IsAnswer, RefusesAs, is_new_step};
ghost use Rattle.admission.specs.Kept.{IsKeptOf};
ghost use Rattle.checkpoint.specs.Describes.{Describes};
ghost use Rattle.checkpoint.specs.Reader as reader;
ghost use Rattle.journal.specs.Format.{contents};
ghost use Rattle.spec_checkpoint.specs.Data.{Checkpoint};
ghost use Rattle.spec_checkpoint.specs.Loading.{load_fault};
ghost use Rattle.spec_checkpoint.specs.Meaning.{state_in};
ghost use Rattle.spec_checkpoint.specs.Reading.{checkpoint_read};
ghost use Rattle.sigface.specs.Seeds.{seed_of};
ghost use Rattle.validator.specs.Setting.{node_of};
ghost use Rattle.validator.specs.Standing.{AreAtSound, GoesOn, IsNewThere, StandSomewhere};
ghost use Rattle.wire.specs.declared.round.TheConstants.Round.{MAX};

use crate::config::Config;
use crate::loading::Loading;
use crate::newness::is_new;
use crate::proposing::propose;
use crate::ready::is_ready;
use crate::taking::take;
use admission::{Kept, Refusal, Step, Tables, votes_agree};
use checkpoint::LoadError;
use committee::Committee;
use header::Checked;
use journal::Snapshot;
use sigface::{Sign, TableSeed};
use std::alloc::{AllocError, Global};
use std::marker::Model;
use wire::{Author, Digest, Header, Round};

/// A validator without a disk. It answers events, keeps the state that it needs for that, and orders certificates. Contracts see its
/// configuration and its tables, which always hold a sound state and hash with its signer's seed.
pub struct Validator<'a, S: Sign> {
    alloc: Global,
    config: &'a Config<S>,
    tables: Tables<'a>,
}

impl<'a, S: Sign> Drop for Validator<'a, S> {
    fn drop(self) {
        let Validator {
            alloc: _,
            config: _,
            tables: _,
        } = self;
    }
}

impl<'a, S: Sign> Model for Validator<'a, S> {
    ghost use Rattle.validator.specs.Setting.{node_of};
    ghost use Rattle.validator.specs.Standing.{ValidatorView, StandSeeded};
    ghost use Rattle.std.specs.Coded.{codes};
    ghost use Rattle.votebook.specs.contracts.book.VoteBook as votes;

    ghost Value = { ValidatorView S };

    ghost coded = { Prim.hlevel (codes, S.code, votes.the_row.coded) };

    ghost view = { λ v. record { setting = v.config.now; tables = v.tables } };

    ghost invariant = { λ v. StandSeeded (node_of S.scheme v.config.now) v.tables };
}

impl<'a, S: Sign> Validator<'a, S> {
    /// A validator that has taken no event: it holds the genesis certificates. On `AllocError` an allocation failed.
    pub fn new(alloc: Global, config: &'a Config<S>) -> Result<Validator<'a, S>, AllocError>
        ensures setting { IfOk result (λ made. made.setting ≡ config.now) }
        ensures at { let node = node_of S.scheme config.now in IfOk result (λ made. AreAtSound node made.tables (fresh node)) }
        // The table of batches hashes with the seed of the validator's signer.
        ensures seed { IfOk result (λ made. made.tables.batches.seed ≡ seed_of (S.scheme.signature_of config.now.signer)) }
    {
        spec_machine::fresh_is_sound();
        config.limits_hold();
        let seed = TableSeed::of(config.signer());
        let tables = Tables::new(alloc, config.committee(), config.own(), seed)?;
        Ok(Validator {
            alloc,
            config,
            tables,
        })
    }

    /// A validator in the sound state that has these parts. On `AllocError` an allocation failed.
    pub fn restore(
        alloc: Global,
        config: &'a Config<S>,
        kept: Kept,
    ) -> Result<Validator<'a, S>, AllocError>
        requires { let node = node_of S.scheme config.now in (state : State) × IsKeptOf node state kept }
        ensures setting { IfOk result (λ made. made.setting ≡ config.now) }
        ensures at { let node = node_of S.scheme config.now in IfOk result (λ made. (state : State) → IsKeptOf node state kept → AreAtSound node made.tables state) }
        ensures seed { IfOk result (λ made. made.tables.batches.seed ≡ seed_of (S.scheme.signature_of config.now.signer)) }
    {
        let seed = TableSeed::of(config.signer());
        let tables = Tables::restore(alloc, config.committee(), config.own(), seed, kept)?;
        Ok(Validator {
            alloc,
            config,
            tables,
        })
    }

    /// Loads a validator from the records of a checkpoint: its configuration, and those of its state.
    ///
    /// # Errors
    /// `Unsound` with the first record at fault, `UnsoundWhole` where only the whole is at fault; `Memory` where an allocation failed.
    pub fn load(
        alloc: Global,
        config: &'a Config<S>,
        records: Vec<Vec<u8>>,
    ) -> Result<Validator<'a, S>, LoadError>
        ensures setting { IfOk result (λ made. made.setting ≡ config.now) }
        ensures ok { OnOk result (load_fault (node_of S.scheme config.now) (contents records.items) ≡ None) }
        ensures at { let node = node_of S.scheme config.now in IfOk result (λ made. (checkpoint : Checkpoint) × (checkpoint_read node (drop 1 (contents records.items)) ≡ Ok checkpoint) × AreAtSound node made.tables (state_in node checkpoint)) }
        ensures err { IfErr result (λ error. error ≢ LoadError.Memory → load_fault (node_of S.scheme config.now) (contents records.items) ≡ reader.fault_of error) }
    {
        let mut loading = Loading::begin(alloc, config);
        for record in &records {
            loading.put(record)?;
        }
        loading.finish()
    }

    /// The tables of the validator: its batches, votes, own headers and certificates.
    pub fn tables(&self) -> &Tables<'a>
        ensures { result.now ≡ self.now.tables }
    {
        &self.tables
    }

    /// What holds of every validator: its setting is a node's, its tables hold a sound state, and they hash with its signer's seed. The
    /// call does nothing.
    pub fn limits_hold(&self)
        ensures node { IsNode (node_of S.scheme self.now.setting) }
        ensures sound { StandSomewhere (node_of S.scheme self.now.setting) self.now.tables }
        ensures seed { self.now.tables.batches.seed ≡ seed_of (S.scheme.signature_of self.now.setting.signer) }
    {
        self.config.limits_hold();
    }

    /// The committee whose member the validator is.
    pub fn committee(&self) -> &Committee
        ensures { result.now ≡ self.now.setting.charter }
    {
        self.config.committee()
    }

    /// Takes an event that passed the checks of its committee, and gives the answer with the outputs. A known event changes nothing.
    ///
    /// # Errors
    /// The refusal of admission, or `Memory` where an allocation failed. Neither changes anything.
    pub fn step(&mut self, event: Checked) -> Result<Step, Refusal>
        requires passed { fault_of self.old.setting.charter accepts_all event ≡ None }
        ensures answer { let node = node_of S.scheme self.old.setting in (state : State) → AreAtSound node self.old.tables state
            → IsAnswer (answered node state event) result }
        ensures refused { let node = node_of S.scheme self.old.setting in (state : State) → AreAtSound node self.old.tables state
            → RefusesAs (answered node state event) result }
        ensures at { let node = node_of S.scheme self.old.setting in is_new_step result ≡ true → (state : State) → AreAtSound node self.old.tables state
            → AreAtSound node self.new.tables (after node state event) }
        ensures same { is_new_step result ≡ false → self.new ≡ self.old }
        ensures setting { self.new.setting ≡ self.old.setting }
        // A validator has no disk and is never down.
        ensures never_down { IfErr result (λ refusal. refusal ≢ Refusal.Down) }
        // For histories: if the tables hold the state kept of a legal history, the answer is admission's, and after a new event they hold
        // the state kept of the longer history, whose order has the earlier order as a prefix.
        ensures admits { let node = node_of S.scheme self.old.setting in (history : History) → IsLegal node history
            → AreAtSound node self.old.tables (kept node history)
            → IsAnswer (admit node history event) result }
        ensures longer { let node = node_of S.scheme self.old.setting in is_new_step result ≡ true → (history : History) → IsLegal node history
            → AreAtSound node self.old.tables (kept node history)
            → GoesOn node history event self.new.tables }
    {
        spec_machine::sound_stays();
        spec_machine::state_answers();
        spec_machine::state_follows();
        spec_laws::order_grows();
        self.config.limits_hold();
        event.message().limits_hold();
        take(&mut self.tables, self.alloc, self.config.signer(), event)
    }

    /// The order: the digests of the ordered certificates.
    pub fn order(&self) -> &[Digest]
        ensures at { (state : State) → AreAtSound (node_of S.scheme self.now.setting) self.now.tables state → result.now ≡ state.order }
        ensures scratch { let node = node_of S.scheme self.now.setting in (history : History)
            → AreAtSound node self.now.tables (kept node history)
            → result.now ≡ order_of node history }
    {
        self.tables.sequencer().order()
    }

    /// The validator's round, up to `Round::MAX + 1`: 1 plus the greatest round in which a quorum of authors has certificates.
    pub fn round(&self) -> u64
        ensures at { let node = node_of S.scheme self.now.setting in (state : State) → AreAtSound node self.now.tables state
            → result ≡ round_in node state }
        ensures history { let node = node_of S.scheme self.now.setting in (history : History) → IsLegal node history
            → AreAtSound node self.now.tables (kept node history)
            → result ≡ round_of node history }
        ensures limit { result ≤ MAX + 1 }
    {
        spec_machine::state_proposes();
        self.tables.sequencer().round()
    }

    /// The floor, which is the garbage-collection round: certificates of lower rounds are dropped. If the floor is above 0, no header, vote
    /// or certificate of a round up to it is taken.
    pub fn floor(&self) -> Round
        ensures at { let node = node_of S.scheme self.now.setting in (state : State) → AreAtSound node self.now.tables state
            → result ≡ floor_in node state }
        ensures history { let node = node_of S.scheme self.now.setting in (history : History) → IsLegal node history
            → AreAtSound node self.now.tables (kept node history)
            → result ≡ floor_of node history }
    {
        spec_machine::state_proposes();
        self.tables.floor()
    }

    /// The digest of the header that the validator voted for in a slot; its own header counts as voted for. None for low rounds.
    pub fn voted(&self, author: Author, round: Round) -> Option<Digest>
        ensures at { (state : State) → AreAtSound (node_of S.scheme self.now.setting) self.now.tables state
            → result ≡ state.votes round author.0 }
        ensures history { let node = node_of S.scheme self.now.setting in (history : History) → AreAtSound node self.now.tables (kept node history)
            → result ≡ unless_low (floor_of node history) round (voted_digest history round author.0) }
    {
        votes_agree();
        self.tables.voted(author, round)
    }

    /// Whether an event that passed the checks is ready: its answer isn't that a parent is missing.
    pub fn ready(&self, event: &Checked) -> bool
        requires passed { fault_of self.now.setting.charter accepts_all event.now ≡ None }
        ensures at { let node = node_of S.scheme self.now.setting in (state : State) → AreAtSound node self.now.tables state
            → result ≡ is_ready node state event.now }
        ensures history { let node = node_of S.scheme self.now.setting in (history : History) → IsLegal node history
            → AreAtSound node self.now.tables (kept node history)
            → result ≡ not (is_missing_parents (admit node history event.now)) }
    {
        spec_machine::state_is_ready();
        self.config.limits_hold();
        event.message().limits_hold();
        is_ready(&self.tables, event)
    }

    /// Whether an event that passed the checks would be new. The call allocates no memory.
    pub fn is_new(&self, event: &Checked) -> bool
        requires passed { fault_of self.now.setting.charter accepts_all event.now ≡ None }
        ensures at { let node = node_of S.scheme self.now.setting in (state : State) → AreAtSound node self.now.tables state
            → result ≡ is_new (answered node state event.now) }
        ensures history { let node = node_of S.scheme self.now.setting in (history : History) → IsLegal node history
            → AreAtSound node self.now.tables (kept node history)
            → result ≡ is_new (admit node history event.now) }
    {
        spec_machine::state_answers();
        self.config.limits_hold();
        event.message().limits_hold();
        is_new(&self.tables, event)
    }

    /// The header that the validator proposes: its parents are all certificates of the round below its own; its batches are the first
    /// `MAX_BATCHES`, by digest, of the available own batches that no own header has named. None where its round has an own header, or is
    /// past `Round::MAX`. On `AllocError` an allocation failed.
    pub fn propose(&self) -> Result<Option<Header>, AllocError>
        ensures at { let node = node_of S.scheme self.now.setting in IfOk result (λ found. (state : State) → AreAtSound node self.now.tables state
            → found ≡ proposed node state) }
        ensures history { let node = node_of S.scheme self.now.setting in IfOk result (λ found. (history : History) → IsLegal node history
            → AreAtSound node self.now.tables (kept node history)
            → found ≡ propose_of node history) }
        // The proposed header is new if it is handed in again as an event.
        ensures new { let node = node_of S.scheme self.now.setting in IfOk result (λ found. (state : State) → AreAtSound node self.now.tables state
            → IfSome found (IsNewThere node state)) }
    {
        self.config.limits_hold();
        spec_machine::sound_proposes();
        spec_machine::state_proposes();
        let tables = &self.tables;
        propose(
            self.alloc,
            self.config.signer(),
            self.config.own(),
            tables.batches(),
            tables.headers(),
            tables.sequencer(),
        )
    }

    /// The records of the validator's checkpoint: its configuration, and those of its state. On `AllocError` an allocation failed.
    pub fn kept_records(&self) -> Result<Vec<Vec<u8>>, AllocError>
        ensures { let node = node_of S.scheme self.now.setting in IfOk result (λ rows. Describes node self.now.tables (contents rows.items)) }
    {
        self.config.limits_hold();
        checkpoint::kept_records(self.alloc, self.config.own(), &self.tables)
    }

    /// The validator's checkpoint in the form in which a journal writes it; it has the same records. On `AllocError` an allocation failed.
    pub fn snapshot(&self) -> Result<Snapshot, AllocError>
        ensures { let node = node_of S.scheme self.now.setting in IfOk result (λ snapshot. Describes node self.now.tables snapshot) }
    {
        self.config.limits_hold();
        checkpoint::snapshot_of(self.alloc, self.config.own(), &self.tables)
    }
}
