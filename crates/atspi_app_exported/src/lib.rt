//! The whole tree that an application exports, kept as a shape and three boxed faces: the steps of an edit, steps done
//! to all parts as one, and faces exchanged.
#![tactic(auto)]

mod asking;
mod closing;
mod copies;
mod doing;
mod exchanging;
mod exported;
mod exports;
mod kit;
mod opening;
mod reading;
mod texts;

pub use exported::Exported;
pub use exports::{Boxes, Exports};
pub use kit::Kit;
