//! The text of a message that is owned, as who made it has it: the same text as that of the message where it lies in
//! bytes (`atspi_script`).

mod header;
mod message;
mod values;

pub use message::message_text;
