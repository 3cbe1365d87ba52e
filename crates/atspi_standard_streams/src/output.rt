//! Standard output as a sink. What passes through it is told to no contract.

ghost use Rattle.std.specs.Prelude.{◌≡◌, ◌≤◌, ◌<◌, ℕ, List, Option, None, length, IfOk};

use crate::retry::{TRIES, is_passing};
use atspi_base::{Failed, Sink};
use std::io::{Stdout, Write};
use std::time::Clock;

/// Standard output, with the count of its faults.
#[derive(Drop)]
pub struct StandardOutput<'a, C: Clock> {
    stdout: Stdout,
    clock: &'a C,
    faults: u64,
}

impl<'a, C: Clock> StandardOutput<'a, C> {
    /// No call has failed yet.
    pub fn new(stdout: Stdout, clock: &'a C) -> StandardOutput<'a, C>
        ensures { ⟦<StandardOutput<'a, C> as Sink>⟧.faults result ≡ 0 }
    {
        StandardOutput {
            stdout,
            clock,
            faults: 0,
        }
    }
}

impl<'a, C: Clock> Sink for StandardOutput<'a, C> {
    ghost written = { λ _. None };

    ghost faults = { λ s. s.faults };

    fn write(&mut self, bytes: &[u8]) -> Result<usize, Failed> {
        let written = write_ready(&mut self.stdout, bytes, self.clock);
        if written.is_err() {
            self.faults = self.faults.saturating_add(1);
        }
        written
    }
}

/// Writes once there is room, however many signals come before. A writer that takes nothing has failed.
fn write_ready(stdout: &mut Stdout, bytes: &[u8], clock: &impl Clock) -> Result<usize, Failed>
    ensures within { IfOk result (λ n. (0 < n) × (n ≤ length bytes.now)) }
{
    for _ in 0..TRIES {
        match stdout.write(bytes) {
            Ok(n) if 0 < n => return Ok(n),
            Ok(_) => return Err(Failed),
            Err(error) => {
                if !is_passing(&error, clock) {
                    return Err(Failed);
                }
            }
        }
    }
    Err(Failed)
}
