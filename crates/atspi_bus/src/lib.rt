//! The bus: who has joined, who owns which name, the match rules, the open calls, what waits for each connection, and
//! the closings.
#![tactic(auto)]

mod answering;
mod bus;
mod claiming;
mod in_place;
mod leaving;
mod renaming;
mod whole;

pub use atspi_bus_steps::{BusFault, JoinFault};
pub use bus::Bus;
