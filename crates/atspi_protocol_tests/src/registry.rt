//! Tests of the registry through its public calls, by conversations: what it takes, and which messages it queues then.
//! What is due was worked out by hand.

mod children;
mod filled;
mod listeners;
mod many;
mod objects;
mod plays;
mod starting;
mod wrong_bodies;
