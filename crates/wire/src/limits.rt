//! The limits of messages. Those of rounds and waves stand at the types `Round` and `Wave`.

ghost use Rattle.std.specs.Prelude.{◌≡◌, ◌-◌, ◌^◌};
ghost use Rattle.wire.specs.declared.round.TheConstants.Round.{MAX as MAX_ROUND};
ghost use Rattle.wire.specs.declared.round.TheConstants.Wave.{MAX as MAX_WAVE};

/// The greatest length of a transaction, in bytes.
pub const MAX_TRANSACTION_BYTES: usize = 65_536;

/// The greatest length of a batch's body, in bytes.
pub const MAX_BATCH_BYTES: usize = 500_000;

/// The greatest number of transactions in a batch: a body has no room for more, even if they are empty.
pub const MAX_TRANSACTIONS: u32 = 124_998;

/// The greatest number of batches that a header may name.
pub const MAX_BATCHES: usize = 128;

/// The greatest number of parents that a header may name: one for each member of the largest committee.
pub const MAX_PARENTS: usize = 31;

/// The greatest number of votes in a certificate: one for each member of the largest committee.
pub const MAX_VOTES: usize = 31;

/// The greatest number of digests in one piece of the order, so that the piece fits a frame.
pub const MAX_ORDER_DIGESTS: usize = 16_000;

/// The greatest length of a frame without its length field, in bytes.
pub const MAX_FRAME_BYTES: usize = 524_288;

/// The limits as numbers. The call does nothing: it is a theorem; all other contracts use the names of the limits.
pub fn limits_in_numbers()
    ensures transaction { MAX_TRANSACTION_BYTES ≡ 65536 }
    ensures batch { MAX_BATCH_BYTES ≡ 500000 }
    ensures transactions { MAX_TRANSACTIONS ≡ 124998 }
    ensures batches { MAX_BATCHES ≡ 128 }
    ensures parents { MAX_PARENTS ≡ 31 }
    ensures votes { MAX_VOTES ≡ 31 }
    ensures order { MAX_ORDER_DIGESTS ≡ 16000 }
    ensures frame { MAX_FRAME_BYTES ≡ 524288 }
    ensures round { MAX_ROUND ≡ 2 ^ 48 }
    ensures wave { MAX_WAVE ≡ 2 ^ 47 - 1 }
{}
