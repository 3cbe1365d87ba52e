//! What lies between the ends of a world.

use atspi_bus_steps::Inner;
use atspi_trace_events::Event;
use atspi_world_links::{Link, Post};
use std::alloc::Global;

/// The bus of a world, and what lies between it and the ends. A connection's number is its place in both lists.
#[derive(Drop)]
pub struct Carrier {
    pub alloc: Global,
    pub bus: Inner,
    /// The connections, in order of joining.
    pub posts: Vec<Post>,
    /// What each end was given of a message that is not whole yet.
    pub at_end: Vec<Link>,
    /// All that happened, the oldest first.
    pub trace: Vec<Event>,
}
