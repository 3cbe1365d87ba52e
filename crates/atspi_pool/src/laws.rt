//! Laws over the definitions: how many blocks a chain has, and how many a pool makes.

ghost use Rattle.atspi_pool.specs.Pool.{BlocksAreFew, MadeIsBound};

/// A chain of n bytes, n above 0, has at most n / 256 + 2 blocks, and an empty one has none.
pub fn blocks_are_few()
    ensures { BlocksAreFew }
{}

/// Over every list of calls of a new pool, the blocks made never pass the greatest sum of n / 256 + 2 over the chains
/// that are not empty after a call; a push that ran out of memory counts its chain with all the bytes.
pub fn made_is_bound()
    ensures { MadeIsBound }
{}
