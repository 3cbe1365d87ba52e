//! What a call of an application comes to: its reply, the steps that it does, and the application's number after it,
//! from its tree and the three faces that keep the contents of nodes.

mod calls;
mod contents;
mod counts;
mod outcome;
mod shapes;

pub use calls::called;
pub use outcome::{Called, sent_back};
