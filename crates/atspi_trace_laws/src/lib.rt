//! What lawful traces meet: the laws in the words of a trace, and each of them proved of every lawful trace by
//! induction along it. Here stand the induction itself and the laws of steps, numbers, links, announcements, of what
//! readers show and speak, and of each end; the crate above has those of caches and of worlds at rest
//! (`atspi_trace_caches`). A module is one law, or what several of them share.
#![tactic(auto)]

pub mod answered;
pub mod delivered;
pub mod drops;
pub mod exits;
pub mod folds;
pub mod heard;
pub mod held;
pub mod laws;
pub mod links;
pub mod living;
pub mod lost;
pub mod missed;
pub mod order;
pub mod own;
pub mod quiet;
pub mod readers;
pub mod serials;
pub mod signed;
pub mod steps;
pub mod taken;
pub mod turns;
pub mod views;
