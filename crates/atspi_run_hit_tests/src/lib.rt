//! Tests of the call `hit`: worked inputs, refusals in their order, edges of rectangles, kinds of relations, and what
//! the outside and strangers may do.
#![tactic(auto)]

#[cfg(test)]
mod edges;
#[cfg(test)]
mod inputs;
#[cfg(test)]
mod outside;
#[cfg(test)]
mod refusals;
#[cfg(test)]
mod relations;
#[cfg(test)]
mod running;
