//! Limits: how much an application's tree, a node of it and a text hold. Each number stands here and nowhere else; the
//! definitions and the code of all crates name it.

/// How many nodes a tree has at most at once, the root among them.
pub const NODE_LIMIT: usize = 8_192;

/// How many nodes are ever added to a tree at most, the root not counted. So each has a number below 2 to the power
/// of 32.
pub const ADDED_LIMIT: u32 = 4_294_967_295;

/// How many bytes a name or a description has at most, in UTF-8.
pub const NAME_LIMIT: usize = 511;

/// How many characters a text has at most.
pub const TEXT_LIMIT: usize = 1_048_576;

/// How many text selections a text has at most.
pub const MARK_LIMIT: usize = 16;

/// How many columns a table has at most; it has one at least.
pub const COLUMN_LIMIT: u32 = 1_024;

/// How many actions a node has at most.
pub const ACTION_LIMIT: usize = 8;

/// How many kinds of relations there are; they are numbered from 1.
pub const RELATION_KINDS: u32 = 18;

/// How many states there are; each has a bit, from 0 on.
pub const STATE_COUNT: u8 = 44;
