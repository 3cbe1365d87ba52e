//! Whole messages of the wire.
#![tactic(auto)]

mod code;
mod fields;
mod front;
mod laws;
mod message;
mod name;
mod parsing;
mod writing;

pub use atspi_marshal::WriteFault;
pub use front::total;
pub use laws::{
    has_one_reading, is_read_again, no_front_of_another, senders_may_be_set,
    short_messages_are_spelled, unfit_messages_are_long,
};
pub use message::Message;
