//! Tests of the live ends and of the live bus over a host in memory, and of the system's sockets as a host, through
//! public calls alone.
#![tactic(auto)]

#[cfg(test)]
mod app;
#[cfg(test)]
mod bus;
#[cfg(test)]
mod hosts;
#[cfg(test)]
mod reader;
#[cfg(test)]
mod registry;
#[cfg(test)]
mod sockets;
