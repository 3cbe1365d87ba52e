//! Tests of the launcher, as an end and on a socket, through public calls alone. What is due was worked out by hand.
#![tactic(auto)]

#[cfg(test)]
mod conversation;
#[cfg(test)]
mod live;
