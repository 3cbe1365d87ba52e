//! Checking a stream of messages: a line for each of them, and one for the first fault.
#![tactic(auto)]

mod checking;
mod laws;
mod lines;

pub use checking::{CHECK_LIMIT, check};
pub use laws::inputs_have_one_end;
