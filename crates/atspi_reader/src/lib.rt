//! A reader's end: it follows the applications that the registry tells, keeps their views, asks for what it does not
//! know, and speaks.
#![tactic(auto)]

mod asks;
mod begin;
mod known;
mod question;
mod reader;
mod reply;
mod said;
mod signal;
mod state;
mod turns;
mod waiting;
mod wanted;

pub use atspi_reader_calls::CallFault;
pub use state::Reader;
