//! What all ends share, the applications, the registry and readers: places and names, the messages that they send and
//! the queue of those, and which events a pattern covers.

mod covering;
mod error;
pub mod examples;
mod fault;
pub mod laws;
mod mail;
mod messages;
mod names;
mod outbox;

pub use covering::covers;
pub use error::CallError;
pub use fault::EndFault;
pub use mail::Mail;
pub use messages::{call_to, error_to, return_to, signal_of};
pub use names::{bus_name, interface, member, path};
pub use outbox::Outbox;
