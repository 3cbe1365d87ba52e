//! What a bus does with a message, and when a connection leaves: the definitions that the bus, the world and the theory
//! of traces cite, with worked cases and laws. `docs/ROUTING.md` has the form in one page.

mod closing;
pub mod examples;
pub mod laws;
mod member;

pub use closing::{Closing, Why};
pub use member::BusMember;
