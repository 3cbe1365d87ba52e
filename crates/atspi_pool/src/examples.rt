//! Values of the definitions, worked out by hand: none of these functions does anything.

ghost use Rattle.atspi_pool.specs.Examples.{BlocksAreCounted, ChainsChange, PoolsChange, FrontsAreTold, ChainsAreSet};
ghost use Rattle.atspi_pool.specs.Examples.{CallsAreTold, BoundsAreCounted};

/// How many blocks chains have.
pub fn blocks_are_counted()
    ensures { BlocksAreCounted }
{}

/// What a chain is after a push, a pop and a cut.
pub fn chains_change()
    ensures { ChainsChange }
{}

/// What a pool is after a call.
pub fn pools_change()
    ensures { PoolsChange }
{}

/// Which chains have a front.
pub fn fronts_are_told()
    ensures { FrontsAreTold }
{}

/// When one chain alone is another.
pub fn chains_are_set()
    ensures { ChainsAreSet }
{}

/// Which calls may make blocks, and how many.
pub fn calls_are_told()
    ensures { CallsAreTold }
{}

/// The most blocks of chains by their lengths.
pub fn bounds_are_counted()
    ensures { BoundsAreCounted }
{}
