//! Tests of what ends read in messages, and of a registry and a reader in whole conversations, through public calls
//! alone. What is due was worked out by hand.
#![tactic(auto)]

#[cfg(test)]
mod app_calls;
#[cfg(test)]
mod made;
#[cfg(test)]
mod news;
#[cfg(test)]
mod reader;
#[cfg(test)]
mod reader_calls;
#[cfg(test)]
mod registry;
