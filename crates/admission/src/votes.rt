//! The book of a validator's votes for other members' headers.

ghost use Rattle.std.specs.Prelude.{◌≡◌, None, OnOk, OnErr};
ghost use Rattle.spec_model.specs.Slots.{header_digest};
ghost use Rattle.votebook.specs.Votes.{voted_in};
ghost use Rattle.admission.specs.Votes.{with_vote};

use std::alloc::AllocError;
use votebook::VoteBook;
use wire::{Digest, Header};

/// Notes in the book that the validator votes for this header of another member, in whose slot it has not voted yet. On `AllocError` an
/// allocation failed, and nothing has changed.
pub fn keep_vote(votes: &mut VoteBook, header: &Header, digest: Digest) -> Result<(), AllocError>
    requires digested { digest ≡ header_digest header.now.body }
    requires free { voted_in votes.old header.now.body.author header.now.body.round ≡ None }
    ensures ok { OnOk result (votes.new ≡ with_vote votes.old header.now.body) }
    ensures err { OnErr result (votes.new ≡ votes.old) }
{
    votes.vote(header.body.author, header.body.round, digest)?;
    Ok(())
}
