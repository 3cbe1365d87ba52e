//! Tests of what Component answers, through public calls alone: replies of a small room as texts, and calls that are at
//! fault.
#![tactic(auto)]

#[cfg(test)]
mod answers;
#[cfg(test)]
mod edits;
#[cfg(test)]
mod room;
