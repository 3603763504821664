//! The two areas of a journal on two disks.

ghost use Rattle.std.specs.Prelude.{◌≡◌};

use crate::layout::SECOND_AREA;

/// One of the two areas of a journal.
#[derive(Clone, Copy, Debug, PartialEq, Eq)]
pub enum Side {
    /// The area on the first disk. Places in it are counted from 0.
    First,
    /// The area on the second disk. Places in it are counted from `SECOND_AREA`.
    Second,
}

impl Side {
    ghost use Rattle.journal.specs.Areas.{base_of, other_side};
    ghost use Rattle.journal.specs.Opened.{on_side, off_side};

    // The other area of the journal.
    pub(crate) fn other(self) -> Side
        ensures { result ≡ other_side self }
    {
        match self {
            Side::First => Side::Second,
            Side::Second => Side::First,
        }
    }

    // The number from which places in this area are counted.
    pub(crate) fn base(self) -> u64
        ensures { result ≡ base_of self }
    {
        match self {
            Side::First => 0,
            Side::Second => SECOND_AREA,
        }
    }

    // Takes two values, one for the first area and one for the second, and returns the value of this area followed by the other one.
    pub(crate) fn before_other<X>(self, first: X, second: X) -> (X, X)
        ensures { result ≡ (on_side self first second, off_side self first second) }
    {
        match self {
            Side::First => (first, second),
            Side::Second => (second, first),
        }
    }
}
