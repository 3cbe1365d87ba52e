//! Values that are read where they lie: bytes are passed once, which keeps nothing, and are read in place from then on;
//! and types that are read from the codes that spell them (`codes`).
#![tactic(auto)]

pub mod codes;
mod cursor;
pub mod examples;
mod jumping;
mod owned;
mod passing;
mod plain;
mod text;

pub use cursor::{Elements, Entries, Entry, Fields, Item};
pub use jumping::jump;
pub use passing::{fields, pass};
pub use plain::{fault, padding, room};
pub use text::{long, short, slice, types_at};
