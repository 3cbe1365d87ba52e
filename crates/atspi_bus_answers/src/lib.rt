//! What a bus says of its own, and what it answers to a call of each of its members.
#![tactic(auto)]

mod answering;
mod arguments;
mod change;
mod error;
mod listing;
mod literal;
mod member;
mod owning;
mod requesting;
mod rules;
mod said;
mod values;

pub use answering::{Reply, answer};
pub use change::next_owner;
pub use error::BusError;
pub use member::member_of;
pub use requesting::free_name;
pub use said::{error_to, name_acquired, owner_changed, return_to};
