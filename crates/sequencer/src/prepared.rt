//! What a certificate or a coin will add to the order, prepared before it is added.

ghost use Rattle.std.specs.Prelude.{◌≡◌, ℕ, ◌<◌, length, Option, IfOk};
ghost use Rattle.spec_model.specs.Words.{Author};
ghost use Rattle.sequencer.specs.Sequence.{prepared_digests, IsMadeOf};

use dag::Dag;
use flatten::Lengthening;
use std::alloc::{AllocError, Global};
use wire::{Author, Digest, Round};

/// What a certificate or a coin will add to the order, and what it will mark. All memory for that is allocated already.
pub struct Prepared {
    // What the newly committed leaders order; None if no leader is committed.
    pub(crate) committed: Option<Lengthening>,
}

impl Drop for Prepared {
    fn drop(self) {
        let Prepared { committed: _ } = self;
    }
}

impl Prepared {
    // What the leaders of these rounds and authors, oldest first, will add to the order after the last committed leader. On `AllocError` an
    // allocation failed.
    pub(crate) fn new(
        alloc: Global,
        dag: &Dag,
        chain: &[(Round, Author)],
    ) -> Result<Prepared, AllocError>
        ensures { IfOk result (λ prepared. (last : Option (ℕ × Author)) → IsMadeOf dag.now last chain.now prepared.committed) }
    {
        if chain.is_empty() {
            return Ok(Prepared { committed: None });
        }
        let made = Lengthening::new(alloc, dag, chain)?;
        Ok(Prepared {
            committed: Some(made),
        })
    }

    /// The digests that will be added to the order.
    pub fn digests(&self) -> &[Digest]
        ensures { result.now ≡ prepared_digests self.now }
    {
        match &self.committed {
            Some(made) => made.digests(),
            None => &[],
        }
    }
}
