//! The bytes that wait for each connection of a bus, each at most a quota of them, over one pool of blocks; and who is
//! to be closed.
#![tactic(auto)]

mod due_list;
mod each;
mod queue_map;
mod queues;

pub use queues::Queues;
