//! The entry of one batch in a validator's store of batches.

ghost use Rattle.std.specs.Prelude.{◌≡◌};

use committee::MemberSet;
use wire::Batch;

/// A batch of the store, the other members who acknowledged it, and whether one of the validator's own headers named it.
#[derive(Drop)]
pub struct Held {
    pub(crate) batch: Batch,
    pub(crate) acknowledged: MemberSet,
    pub(crate) named: bool,
}

impl Held {
    /// The entry of this batch, which these other members acknowledged. The flag says whether an own header named it.
    pub fn new(batch: Batch, acknowledged: MemberSet, named: bool) -> Held
        ensures { result ≡ record { batch = batch; acknowledged = acknowledged; named = named } }
    {
        Held {
            batch,
            acknowledged,
            named,
        }
    }

    /// The batch.
    pub fn batch(&self) -> &Batch
        ensures { result.now ≡ self.now.batch }
    {
        &self.batch
    }

    /// The other members who acknowledged the batch.
    pub fn acknowledged(&self) -> MemberSet
        ensures { result ≡ self.now.acknowledged }
    {
        self.acknowledged
    }

    /// Whether an own header named the batch.
    pub fn is_named(&self) -> bool
        ensures { result ≡ self.now.named }
    {
        self.named
    }
}
