//! Tests of trees and of what edits them, through public calls alone: tables, lists of steps and of items, trees and
//! copies of steps; the tree of an application after edits; why edits are refused. What is due was worked out by hand
//! from the table of edits.
#![tactic(auto)]

#[cfg(test)]
mod drawn;
#[cfg(test)]
mod edits;
#[cfg(test)]
mod faces;
#[cfg(test)]
mod forest;
#[cfg(test)]
mod plain;
#[cfg(test)]
mod refusal_tables;
#[cfg(test)]
mod refusals;
#[cfg(test)]
mod steps;
#[cfg(test)]
mod tables;
#[cfg(test)]
mod trees;
