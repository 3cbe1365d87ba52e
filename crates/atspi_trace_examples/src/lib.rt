//! Worked traces, and worked cases of the parts of lawful traces, of each law of them, and of what is played. Each case
//! is a clause of a function without a body, with its value worked out by hand, so that a definition that says
//! otherwise is refused here.
#![tactic(auto)]

pub mod answered;
pub mod caches;
pub mod delivered;
pub mod exits;
pub mod heard;
pub mod held;
pub mod links;
pub mod living;
pub mod lost;
pub mod missed;
pub mod order;
pub mod own;
pub mod play;
pub mod serials;
pub mod served;
pub mod settled;
pub mod signed;
pub mod steps;
pub mod taken;
pub mod trace;
pub mod traces;
pub mod turns;
pub mod ways;
