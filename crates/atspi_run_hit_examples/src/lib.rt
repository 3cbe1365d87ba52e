//! Worked cases of the lines of `hit`: how they are spelled, when one is refused, what they make and what they write,
//! with the values worked out by hand. Each case is a clause of a function without a body. So a definition that says
//! otherwise is refused here.
#![tactic(auto)]

mod runs;
mod scenes;
mod told;
mod words;

pub use runs::{names, none, statuses};
pub use scenes::{made, of_a_room, of_tables, starts};
pub use told::{calls, cells, relations};
pub use words::{limits, numbers, spelled, ways};
