//! Texts of messages, for a person or a program to read.
#![tactic(auto)]

mod faults;
mod header;
mod message;
mod numbers;
mod quotes;
mod values;
mod view;

pub use faults::put_fault;
pub use message::message_text;
