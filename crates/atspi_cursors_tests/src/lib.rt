//! Tests of cursors in texts, through public calls alone.
#![tactic(auto)]

#[cfg(test)]
mod plain;
#[cfg(test)]
mod reads;
#[cfg(test)]
mod tests;
