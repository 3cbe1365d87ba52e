//! Tests of reading the text of a trace, through public calls alone.
#![tactic(auto)]

#[cfg(test)]
mod fronts;
#[cfg(test)]
mod hostile;
#[cfg(test)]
mod readers;
