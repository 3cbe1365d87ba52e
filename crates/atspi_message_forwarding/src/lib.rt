//! Messages that are passed on: a message that lies in bytes is written again as it is, its names and the bytes of its
//! body copied, and no value made.
#![tactic(auto)]

mod field;
mod fields;
mod length;
pub mod readings;
mod text_lists;
mod writing;

pub use length::written_length;
pub use text_lists::list_length;
pub use writing::write_from;
