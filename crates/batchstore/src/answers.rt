//! What a validator's store of batches answers to a batch and to an acknowledgement.

/// The answer to a batch that is put into the store.
#[derive(Clone, Copy, Debug, PartialEq, Eq)]
pub enum Put {
    /// The batch is held from now on.
    New,
    /// The batch was held already.
    Known,
}

/// The answer to an acknowledgement.
#[derive(Clone, Copy, Debug, PartialEq, Eq)]
pub enum Acked {
    /// The member is counted from now on.
    New,
    /// The member was counted already, or is the validator itself.
    Known,
}
