//! Pseudo-random numbers from a start value.

ghost use Rattle.std.specs.Prelude.{◌<◌};

/// The state of a linear congruential generator, of which 48 bits are used.
#[derive(Clone, Copy)]
pub struct Draws {
    state: u64,
}

impl Draws {
    /// The generator's state before the first number.
    pub fn from(start: u64) -> Draws {
        Draws { state: start }
    }

    /// Returns the next number, which is below the limit.
    pub fn below(&mut self, limit: u64) -> u64
        requires { 0 < limit }
        ensures { result < limit }
    {
        let next = self.state.wrapping_mul(25_214_903_917).wrapping_add(11);
        self.state = next % (1 << 48);
        (self.state >> 17) % limit
    }
}
