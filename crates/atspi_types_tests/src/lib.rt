//! Tests of texts, lists, names, signatures, types and values, owned and where they lie, through public calls alone.
#![tactic(auto)]

#[cfg(test)]
mod base;
#[cfg(test)]
mod codes;
#[cfg(test)]
mod rows;
#[cfg(test)]
mod spelled;
#[cfg(test)]
mod tables;
#[cfg(test)]
mod types;
