//! Messages in words, for tests alone: a line of words, and the bytes of its message. They are put together here field
//! by field and value by value, by no code of the product's (D-Bus Specification, "Message Format"), least byte first.
//! A function answers none where words are out of their form, and for want of memory.
#![tactic(auto)]

mod items;
mod lying;
mod message;
mod values;

pub use lying::lent;
pub use message::bytes_of;
