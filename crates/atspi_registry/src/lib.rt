//! The registry's end: it knows the listeners and the roots of all applications.
#![tactic(auto)]

pub mod calls;
mod keeping;
pub mod lists;
mod mails;
mod news;
mod outgoing;
mod questions;
mod registry;
pub mod told;

pub use registry::Registry;
