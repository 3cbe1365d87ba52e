//! Which parts of the nodes were told, and which nodes have a part that was not.

use crate::known::Known;
use std::collections::{BTreeMap, BTreeSet};

/// What is noted beside a tree.
#[derive(Drop)]
pub(crate) struct Marks {
    /// The parts that were told, of the nodes of which some were. It may have numbers that no node has.
    pub told: BTreeMap<u32, Known>,
    /// The nodes that have a part which was not told.
    pub lacking: BTreeSet<u32>,
}
