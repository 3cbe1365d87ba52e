//! Worked cases of what a script comes to, with the values worked out by hand from the statuses of `replay` and the
//! rules for its text; and of the edits that `make` draws. Each case is a clause of a function without a body. So a
//! definition that says otherwise is refused here.
#![tactic(auto)]

mod limits;
pub mod make;
mod reached;
mod texts;
mod wired;

pub use limits::{of_commands, past_the_limit, readings};
pub use reached::{last_entries, lost, spent, spent_later};
pub use texts::{brief_texts, lines, spelled};
pub use wired::{bytes, messages, names, senders};
