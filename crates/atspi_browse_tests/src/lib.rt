//! Tests of lines that ask for a unit, of what they write, and of cursors over events, through public calls alone.
#![tactic(auto)]

#[cfg(test)]
mod events;
#[cfg(test)]
mod lines;
#[cfg(test)]
mod tests;
