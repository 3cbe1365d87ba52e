//! News read where they lie in a message, by the definitions of `atspi_protocol::news`: without values, and with memory
//! for what is kept alone.
#![tactic(auto)]

mod argument;
mod borrowed;
mod event;
mod item;
mod news;
mod reply;
mod words;

pub use argument::{next_text, only, reference};
pub use borrowed::ReferenceRef;
pub use event::{EventRef, event as event_in};
pub use news::news_of;
pub use reply::{items_told, part_told};
pub use words::is_word;
