//! What an application answers to calls of the interface Component: whether a node has a point of the screen, which
//! node is at one, and where a node stands.
#![tactic(auto)]

mod answers;
mod arguments;
mod ask;
mod replies;

pub use answers::answer;
pub use ask::{Ask, Member};
pub use replies::reply;
