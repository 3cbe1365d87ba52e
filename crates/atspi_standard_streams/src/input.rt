//! Standard input as a source. What passes through it is told to no contract.

ghost use Rattle.std.specs.Prelude.{◌≡◌, ◌≤◌, ℕ, List, Option, None, length, IfOk};

use crate::retry::{TRIES, is_passing};
use atspi_base::{Failed, Source};
use std::io::{Read, Stdin};
use std::time::Clock;

/// Standard input, with the count of its faults.
#[derive(Drop)]
pub struct StandardInput<'a, C: Clock> {
    stdin: Stdin,
    clock: &'a C,
    faults: u64,
}

impl<'a, C: Clock> StandardInput<'a, C> {
    /// No call has failed yet.
    pub fn new(stdin: Stdin, clock: &'a C) -> StandardInput<'a, C>
        ensures { ⟦<StandardInput<'a, C> as Source>⟧.faults result ≡ 0 }
    {
        StandardInput {
            stdin,
            clock,
            faults: 0,
        }
    }
}

impl<'a, C: Clock> Source for StandardInput<'a, C> {
    ghost left = { λ _. None };

    ghost faults = { λ s. s.faults };

    fn read(&mut self, into: &mut [u8]) -> Result<usize, Failed> {
        let read = read_ready(&mut self.stdin, into, self.clock);
        if read.is_err() {
            self.faults = self.faults.saturating_add(1);
        }
        read
    }
}

/// Reads once something is there, however many signals come before.
fn read_ready(stdin: &mut Stdin, into: &mut [u8], clock: &impl Clock) -> Result<usize, Failed>
    ensures within { IfOk result (λ n. n ≤ length into.old) }
{
    for _ in 0..TRIES {
        match stdin.read(into) {
            Ok(n) => return Ok(n),
            Err(error) => {
                if !is_passing(&error, clock) {
                    return Err(Failed);
                }
            }
        }
    }
    Err(Failed)
}
