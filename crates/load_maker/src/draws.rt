//! Draws: numbers that follow from one another.

ghost use Rattle.std.specs.Prelude.{◌≡◌, ◌<◌};
ghost use Rattle.load_maker.specs.Draws.{next_state, number_of};

use std::marker::Model;

/// A stream of draws, each of which sets the next state and gives a number of it. Contracts see
/// its state, a whole number below 2^64.
#[derive(Drop)]
pub(crate) struct Draws {
    state: u64,
}

impl Model for Draws {
    ghost use Rattle.std.specs.Prelude.{ℕ};

    ghost Value = { ℕ };

    ghost view = { λ draws. draws.state };
}

impl Draws {
    /// The stream at its first state, 1.
    pub(crate) fn new() -> Draws
        ensures { result ≡ 1 }
    {
        Draws { state: 1 }
    }

    /// Draws a number below a bound.
    pub(crate) fn below(&mut self, bound: u32) -> u32
        requires { 0 < bound }
        ensures moved { self.new ≡ next_state self.old }
        ensures number { result ≡ number_of self.new bound }
        ensures low { result < bound }
    {
        self.state = self
            .state
            .wrapping_mul(6364136223846793005)
            .wrapping_add(1442695040888963407);
        ((self.state >> 33) % u64::from(bound)) as u32
    }
}
