//! Tests of messages, kept and where they lie, of streams, of messages that are passed on, and of messages as texts,
//! through public calls alone.
#![tactic(auto)]

#[cfg(test)]
mod faults;
#[cfg(test)]
mod fields;
#[cfg(test)]
mod message;
#[cfg(test)]
mod passing;
#[cfg(test)]
mod samples;
#[cfg(test)]
mod script;
#[cfg(test)]
mod stream;
