//! Rounds, and waves.

ghost use Rattle.std.specs.Prelude.{◌≡◌, ◌<◌, ◌≤◌, ◌↔◌, ◌⊎◌, MatchResult, IfOk, IsErrOf};

use crate::error::WireError;
use std::marker::Model;

/// A round of the ledger, from 0, the round of the genesis certificates, to `Round::MAX`.
#[derive(Clone, Copy, Debug, PartialEq, Eq, PartialOrd, Ord, Hash)]
pub struct Round {
    number: u64,
}

impl Model for Round {
    ghost use Rattle.std.specs.Prelude.{ℕ, ◌≤◌};
    ghost use Rattle.wire.specs.declared.round.TheConstants.Round.{MAX};

    ghost Value = { ℕ };

    ghost view = { λ r. r.number };

    ghost invariant = { λ r. r.number ≤ MAX };

    ghost inverse = { λ n. record { number = n } };
}

impl Round {
    /// The greatest round.
    pub const MAX: u64 = 1 << 48;

    /// The round with this number. `BadRound` if it is above `Round::MAX`.
    pub fn new(number: u64) -> Result<Round, WireError>
        ensures ok { IfOk result (λ round. round ≡ number) }
        ensures bad_round { IsErrOf result WireError.BadRound ↔ (Round.MAX < number) }
        ensures no_other { MatchResult result (λ _. number ≤ Round.MAX) (λ e. e ≡ WireError.BadRound) }
    {
        if number > Round::MAX {
            return Err(WireError::BadRound);
        }
        Ok(Round { number })
    }

    /// Round 0, the round of the genesis certificates.
    pub fn genesis() -> Round
        ensures { result ≡ 0 }
    {
        Round { number: 0 }
    }

    /// The round's number.
    pub fn number(self) -> u64
        ensures value { result ≡ self }
        ensures limit { result ≤ Round.MAX }
    {
        self.number
    }
}

/// A wave, by its number, from 1 to `Wave::MAX`. The wave w consists of the three rounds `2w - 1`, `2w` and `2w + 1`.
#[derive(Clone, Copy, Debug, PartialEq, Eq, PartialOrd, Ord, Hash)]
pub struct Wave {
    number: u64,
}

impl Model for Wave {
    ghost use Rattle.std.specs.Prelude.{ℕ, ◌<◌, ◌≤◌};
    ghost use Rattle.wire.specs.declared.round.TheConstants.Wave.{MAX};

    ghost Value = { ℕ };

    ghost view = { λ w. w.number };

    ghost invariant = { λ w. (0 < w.number) × (w.number ≤ MAX) };

    ghost inverse = { λ n. record { number = n } };
}

impl Wave {
    /// The greatest wave. Its last round is the greatest odd round.
    pub const MAX: u64 = (1 << 47) - 1;

    /// The wave with this number. `BadRound` if it is 0 or above `Wave::MAX`.
    pub fn new(number: u64) -> Result<Wave, WireError>
        ensures ok { IfOk result (λ wave. wave ≡ number) }
        ensures bad_round { IsErrOf result WireError.BadRound ↔ ((number ≡ 0) ⊎ (Wave.MAX < number)) }
        ensures no_other { MatchResult result (λ _. (0 < number) × (number ≤ Wave.MAX)) (λ e. e ≡ WireError.BadRound) }
    {
        if number == 0 || number > Wave::MAX {
            return Err(WireError::BadRound);
        }
        Ok(Wave { number })
    }

    /// The wave's number.
    pub fn number(self) -> u64
        ensures value { result ≡ self }
        ensures least { 0 < result }
        ensures limit { result ≤ Wave.MAX }
    {
        self.number
    }
}
