//! Messages that are read where they lie: names are borrowed from the bytes, and the values of the body are walked in
//! place.
#![tactic(auto)]

mod code;
mod header;
mod message;
mod name;
mod owned;
mod parsing;

pub use message::MessageRef;
