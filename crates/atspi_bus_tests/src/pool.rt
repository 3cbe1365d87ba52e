//! Tests of the pool over its public calls.

mod chains;
mod rows;
mod sizes;
