//! The live commands: the words that ask for one, and what each of them does over any source, sink and host.
#![tactic(auto)]

mod serving;
mod words;

pub use serving::serve;
pub use words::{Live, Service, live_in, longest_rest};
