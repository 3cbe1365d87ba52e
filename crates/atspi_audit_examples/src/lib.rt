//! Worked cases of an auditor's definitions: each is a clause that the checker computes.
#![tactic(auto)]

pub mod ending;
pub mod fitting;
pub mod readers;
pub mod verdicts;
