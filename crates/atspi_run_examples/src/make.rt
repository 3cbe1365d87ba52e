//! Worked cases of the edits that `make` draws, with the values worked out by hand from its generator, and of the next
//! line of its script. Each case is a clause of a function without a body. So a definition that says otherwise is
//! refused here.

mod cases;
mod following;
mod scripts;

pub use cases::{first_draws, full, inserted, live, moved, named, script_of_seed_1, turned};
pub use following::{followed, numbers, seen};
pub use scripts::{drained, edited, opened, turns_made};
