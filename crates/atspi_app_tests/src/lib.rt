//! Tests of an application through its public calls, by conversations: what is done to it, and what happens then. What
//! is due was worked out by hand.
#![tactic(auto)]

#[cfg(test)]
mod announcing;
#[cfg(test)]
mod bytes;
#[cfg(test)]
mod cells;
#[cfg(test)]
mod choices;
#[cfg(test)]
mod edits;
#[cfg(test)]
mod nodes;
#[cfg(test)]
mod others;
#[cfg(test)]
mod places;
#[cfg(test)]
mod plays;
#[cfg(test)]
mod properties;
#[cfg(test)]
mod starting;
#[cfg(test)]
mod tables;
#[cfg(test)]
mod texts;
#[cfg(test)]
mod wide;
#[cfg(test)]
mod worked;
#[cfg(test)]
mod wrong_bodies;
