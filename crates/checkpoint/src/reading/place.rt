//! The order of slots: by round, and within a round by author.

ghost use Rattle.std.specs.Prelude.{◌≡◌};
ghost use Rattle.spec_checkpoint.specs.Data.{place_before};

/// Whether the first of two slots, each given as a round and an author, comes before the second.
pub fn place_before(round: u64, author: u16, other_round: u64, other_author: u16) -> bool
    ensures { result ≡ place_before round author other_round other_author }
{
    round < other_round || (round == other_round && author < other_author)
}
