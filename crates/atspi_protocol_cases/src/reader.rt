//! A reader and what is done to it, in the words of tables, for tests alone. A function answers none where words are
//! out of their form, and for want of memory.

mod dialogues;
mod follower;
mod shown;

pub use dialogues::{begun, followed};
pub use follower::Follower;
