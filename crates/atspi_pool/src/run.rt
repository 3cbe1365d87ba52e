//! A chain's run of blocks in the table of links.

/// What stands in a chain beside its blocks.
#[derive(Clone, Copy)]
pub struct Marks {
    /// Whether the chain is in use.
    pub is_used: bool,
    /// How many bytes of the first block were popped.
    pub popped: usize,
    /// How many bytes the chain has.
    pub len: usize,
}

/// A chain: its first block, its last one and how many there are.
#[derive(Clone, Copy)]
pub struct Run {
    pub first: usize,
    pub last: usize,
    pub count: usize,
    pub marks: Marks,
}
