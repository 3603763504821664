//! A validator whose tables can be taken apart, and that can be made again from the parts.

ghost use Rattle.std.specs.Prelude.{◌≡◌, None, IfOk};
ghost use Rattle.header.specs.Checks.{fault_of, accepts_all};
ghost use Rattle.spec_model.specs.States.{State};
ghost use Rattle.admission.specs.Kept.{IsKeptOf};
ghost use Rattle.validator.specs.Setting.{node_of};

use admission::{Kept, Tables};
use checkpoint::parts_of;
use header::Checked;
use sigface::Sign;
use std::alloc::{AllocError, Global};
use std::marker::Model;
use validator::{Config, Refusal, Step, Validator};

/// A validator and its configuration. Contracts see only the validator.
pub struct Member<'a, S: Sign> {
    alloc: Global,
    config: &'a Config<S>,
    validator: Validator<'a, S>,
}

impl<'a, S: Sign> Drop for Member<'a, S> {
    fn drop(self) {
        let Member {
            alloc: _,
            config: _,
            validator: _,
        } = self;
    }
}

impl<'a, S: Sign> Model for Member<'a, S> {
    ghost use Rattle.validator.specs.Standing.{ValidatorView};
    ghost use Rattle.std.specs.Prelude.{◌≡◌};
    ghost use Rattle.std.specs.Coded.{codes};
    ghost use Rattle.votebook.specs.contracts.book.VoteBook as votes;

    ghost Value = { ValidatorView S };

    ghost coded = { Prim.hlevel (codes, S.code, votes.the_row.coded) };

    ghost view = { λ m. m.validator };

    ghost invariant = { λ m. m.validator.setting ≡ m.config.now };
}

impl<'a, S: Sign> Member<'a, S> {
    /// A validator that was given no events.
    pub fn new(alloc: Global, config: &'a Config<S>) -> Result<Member<'a, S>, AllocError> {
        let validator = Validator::new(alloc, config)?;
        Ok(Member {
            alloc,
            config,
            validator,
        })
    }

    /// A validator with the same configuration, whose tables are restored from these parts.
    pub fn again(&self, kept: Kept) -> Result<Member<'a, S>, AllocError>
        requires { let node = node_of S.scheme self.now.setting in (state : State) × IsKeptOf node state kept }
    {
        let (alloc, config) = (self.alloc, self.config);
        let validator = Validator::restore(alloc, config, kept)?;
        Ok(Member {
            alloc,
            config,
            validator,
        })
    }

    /// Takes a copy of the validator's tables apart, and returns the parts.
    pub fn parts(&self) -> Result<Kept, AllocError>
        ensures { let node = node_of S.scheme self.now.setting in IfOk result (λ kept. (state : State) × IsKeptOf node state kept) }
    {
        self.validator.limits_hold();
        parts_of(self.alloc, self.validator.tables())
    }

    /// The validator.
    pub fn validator(&self) -> &Validator<'a, S>
        ensures { result.now ≡ self.now }
    {
        &self.validator
    }

    /// The tables of the validator.
    pub fn tables(&self) -> &Tables<'a> {
        self.validator.tables()
    }

    /// Gives the validator an event that passed the checks.
    pub fn step(&mut self, event: Checked) -> Result<Step, Refusal>
        requires { fault_of self.old.setting.charter accepts_all event ≡ None }
        ensures { self.new.setting ≡ self.old.setting }
    {
        self.validator.step(event)
    }
}
