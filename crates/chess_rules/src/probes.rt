//! The count of pairs tried for legality.

ghost use Rattle.std.specs.Prelude.{◌≡◌, ◌+◌, ◌<◌, ◌^◌};

use std::marker::Model;

/// Counts the pairs of an origin and a target that are tried for legality: by a call of
/// [`try_pair`](crate::try_pair), or in [`has_legal_move`](crate::has_legal_move).
#[derive(Clone, Copy, PartialEq, Eq, Debug)]
pub struct Probes {
    count: u32,
}

impl Model for Probes {
    ghost use Rattle.std.specs.Prelude.{ℕ};

    ghost Value = { ℕ };

    ghost view = { λ p. p.count };

    ghost inverse = { λ n. record { count = n } };
}

impl Probes {
    /// Returns a count of 0.
    pub fn new() -> Probes
        ensures { result ≡ 0 }
    {
        Probes { count: 0 }
    }

    /// Returns how many pairs were tried so far.
    pub fn count(&self) -> u32
        ensures { result ≡ self.now }
    {
        self.count
    }

    // Counts one more pair.
    pub(crate) fn add_one(&mut self)
        requires { self.old + 1 < 2 ^ 32 }
        ensures { self.new ≡ self.old + 1 }
    {
        self.count += 1;
    }

    // Counts so many more pairs.
    pub(crate) fn add(&mut self, pairs: u32)
        requires { self.old + pairs < 2 ^ 32 }
        ensures { self.new ≡ self.old + pairs }
    {
        self.count += pairs;
    }
}
