//! Tests of which node is at a point and which cell is beside another, through public calls alone: worked rows, drawn
//! rooms beside a search over all nodes, and a deep and a wide tree.
#![tactic(auto)]

#[cfg(test)]
mod cells;
#[cfg(test)]
mod drawn;
#[cfg(test)]
mod edits;
#[cfg(test)]
mod many;
#[cfg(test)]
mod rooms;
