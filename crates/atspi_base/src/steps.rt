//! A counter of work done.

ghost use Rattle.std.specs.Prelude.{◌≡◌, ◌+◌, ℕ, min};

use std::marker::Model;

/// A counter of steps, which stays at its last value once there.
#[derive(Clone, Copy, Debug, PartialEq, Eq)]
pub struct Steps {
    count: u64,
}

impl Model for Steps {
    ghost Value = { ℕ };

    ghost view = { λ s. s.count };

    ghost inverse = { λ n. record { count = n } };
}

impl Steps {
    /// No step yet.
    pub fn new() -> Steps
        ensures { result ≡ 0 }
    {
        Steps { count: 0 }
    }

    /// One step more.
    pub fn tick(&mut self)
        ensures { self.new ≡ min (self.old + 1) 18446744073709551615 }
    {
        self.count = self.count.saturating_add(1);
    }

    /// How many steps were counted.
    pub fn count(&self) -> u64
        ensures { result ≡ self.now }
    {
        self.count
    }
}
