//! Tests of reading units, through public calls alone.
#![tactic(auto)]

#[cfg(test)]
mod rows;
#[cfg(test)]
mod tests;
#[cfg(test)]
mod windows;
