//! The Unix sockets of the system as a host for live ends: the trusted edge, which tells no calls.
#![tactic(auto)]

mod moving;
mod net;
mod open_link;
mod ready;
mod refusal;
mod sockets;

pub use net::NetHost;
