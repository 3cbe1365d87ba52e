//! How an application starts, and what it knows beside its tree: its name, the patterns of listeners, and what it has
//! queued.

mod calls;
mod known;
mod name;
mod room;
mod starting;
mod waiting;

pub use known::Known;
pub use waiting::{StartStep, Waiting};
