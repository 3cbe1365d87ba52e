//! The live side of a link: authentication, then an end that takes messages and hands out its own, over any host.
#![tactic(auto)]

mod attending;
mod bus_end;
mod conversation;
mod ending;
mod hearing;
mod reporting;
mod rounds;
mod speaking;
mod unsent;

pub use bus_end::BusEnd;
pub use conversation::Conversation;
pub use ending::Ending;
pub use reporting::report;
pub use rounds::{converse, round};
