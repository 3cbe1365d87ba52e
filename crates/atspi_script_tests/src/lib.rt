//! Tests of scripts and traces, through public calls alone: the lines of a script, and the texts of events.
#![tactic(auto)]

#[cfg(test)]
mod lines;
#[cfg(test)]
mod traces;
