//! Worked cases of the definitions of the live registry, with the values worked out by hand. Each case is a clause of a
//! function without a body. So a definition that says otherwise is refused here.

mod runs;
mod standing;
mod statuses;

pub use runs::{all_speak, begins, ended_on_links, ended_runs, on_links, rounds_on_links};
pub use standing::{is_after, is_empty, is_spent, last_numbers};
pub use statuses::{causes, lines_written, quiet_ends, reports, reports_of_faults, sink_blamed};
