//! Tests of marshalling and of values that are read where they lie, through public calls alone: each fault in each
//! container, padding, limits, depth, and each value written again.
#![tactic(auto)]

#[cfg(test)]
mod getters;
#[cfg(test)]
mod marshal;
#[cfg(test)]
mod seeds;
