//! Calls of the outside that are tried again: a signal came, or nothing is ready yet.

use std::io::{Error, ErrorKind};
use std::thread;
use std::time::{Clock, Duration};

/// A call is tried so often at the most, so that it ends.
pub const TRIES: u64 = u64::MAX;

/// So long is waited before a call that found nothing ready is tried again, in milliseconds.
const NAP: u64 = 1;

/// Whether a call that failed so is to be tried again: a signal came, or nothing is ready; then after a nap.
pub fn is_passing(error: &Error, clock: &impl Clock) -> bool {
    match error.kind() {
        ErrorKind::Interrupted => true,
        ErrorKind::WouldBlock => {
            thread::sleep(clock, Duration::from_millis(NAP));
            true
        }
        _ => false,
    }
}
