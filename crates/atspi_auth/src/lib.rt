//! Authentication on a connection to the bus: the lines that a server and a client say before the first message.
#![tactic(auto)]

mod client;
mod fault;
mod hearing;
mod laws;
mod line_end;
mod reply;
mod request;
mod said;
mod server;
mod stage;
mod talk;

pub use client::Client;
pub use fault::AuthFault;
pub use laws::{any_cut, lines_are_unique, no_way_back, nothing_behind_a_fault, one_line};
pub use said::AuthLine;
pub use server::Server;
