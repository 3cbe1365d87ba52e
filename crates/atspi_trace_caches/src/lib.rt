//! The law about caches, along lawful traces: what a reader has of an application is the view of its tree as of the
//! last message taken, since each step was asked for whole; and what is on its way to the reader leads from there to
//! the tree now. And the law at quiet: where nothing waits in a lawful trace, readers that asked for all hold each
//! application as it is now.
#![tactic(auto)]

pub mod caches;
pub mod served;
pub mod settled;
pub mod ways;
