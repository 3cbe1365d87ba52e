//! Tests of the bus, through public calls alone: authentication, names and their owners, the pool of bytes, the queues
//! of connections, and the bus itself: its worked rows, and what strangers may do to it.
#![tactic(auto)]

#[cfg(test)]
mod auth;
#[cfg(test)]
mod bus;
#[cfg(test)]
mod names;
#[cfg(test)]
mod pool;
#[cfg(test)]
mod quotas;
#[cfg(test)]
mod words;
