//! A count that exists in proofs alone. It is in no memory, so it never overflows.
ghost use Rattle.std.specs.Prelude.{◌≡◌, ℕ, ◌+◌};
ghost use Rattle.std.specs.Borrow.{ftrue};

use std::marker::Model;

/// How often something has happened, for proofs.
#[derive(Drop)]
pub struct Tally {
    pub ghost count: { ℕ },
}

impl Model for Tally {
    ghost also_owns = { λ _. ftrue };
}

// The compiler can't derive that a struct with `also_owns` may be sent to other threads. This one owns nothing, so it may.
unsafe impl Send for Tally {}

impl Tally {
    /// A count of 0.
    pub fn none() -> Tally
        ensures { result.count ≡ 0 }
    {
        Tally {}
    }

    /// A count that is greater by 1.
    pub fn one_more(&self) -> Tally
        ensures { result.count ≡ self.now.count + 1 }
    {
        Tally {}
    }
}
