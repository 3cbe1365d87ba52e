//! The objects that keep texts, column counts and names of actions for the nodes of an application.
#![tactic(auto)]

mod actions;
mod buffer;
mod columns;
mod contents;
pub mod face;
mod gap;
mod gapped;
pub mod guarded;
mod kept;
mod plain;
mod run;
mod selections;
mod side;
mod walk;

pub use actions::{Actions, Deeds};
pub use columns::{Columns, Grid};
pub use contents::Contents;
pub use gapped::{GapChars, GapText};
pub use kept::Kept;
pub use plain::{PlainChars, PlainText};
