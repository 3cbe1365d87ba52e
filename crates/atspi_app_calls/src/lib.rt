//! What a call asks of an application's objects, read where the message lies: a member with its arguments, properties,
//! or the first error.
#![tactic(auto)]

mod ask;
mod asking;
mod interface;
mod lines;
mod member;
mod object;
mod paths;
mod properties;
pub mod reading;

pub use ask::Ask;
pub use asking::asked;
pub use interface::AppInterface;
pub use object::AppObject;
pub use paths::node_at;
