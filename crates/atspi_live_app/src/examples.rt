//! Worked cases of what speaks of how a run was over, of why a line is not done and of what is handed over: no other
//! crate can name a value of these types. Each case is a clause of a function without a body, so a definition that says
//! otherwise is refused here.

pub mod handing;
pub mod naming;
pub mod pacing;
pub mod runs;
pub mod unstarted;
