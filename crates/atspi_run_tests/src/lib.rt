//! Tests of the program over the public calls `run` and `check` alone.
#![tactic(auto)]

#[cfg(test)]
mod edge_tests;
#[cfg(test)]
mod live_tests;
#[cfg(test)]
mod rows;
#[cfg(test)]
mod running;
#[cfg(test)]
mod script_tests;
#[cfg(test)]
mod stream_tests;
