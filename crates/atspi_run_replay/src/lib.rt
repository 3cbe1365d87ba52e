//! `replay` and `make`: a script is done line by line in a world, and its trace is written; over any application and
//! any reader that a world may hold.
#![tactic(auto)]

mod input;
pub mod laws;
mod lines;
mod making;
mod naming;
mod playing;
mod replaying;
mod serials;
mod telling;

pub use input::SCRIPT_LIMIT;
pub use making::{MAKE_LIMIT, SEED_LIMIT, make};
pub use replaying::replay;
