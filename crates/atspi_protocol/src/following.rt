//! What a reader does with each message: the definitions that the reader, the world and the theory of traces cite, with
//! worked cases.

mod event;
pub mod examples;
mod question;

pub use event::ReaderEvent;
pub use question::Question;
