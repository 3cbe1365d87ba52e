//! Conversations with a registry in words, for tests alone: a line for each message that it takes, and behind it the
//! texts of those that it queues then. A function answers none where words are out of their form, and for want of
//! memory.

mod conversation;

pub use conversation::{named, played, played_named, said};
