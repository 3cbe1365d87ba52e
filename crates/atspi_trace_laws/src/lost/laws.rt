//! The law of the registry's drop, of each front of a lawful trace too.

ghost use Rattle.atspi_trace_laws.specs.lost.Laws.{NothingBehindTheRegistry, TheRegistryLives};

/// Behind the news that the registry was dropped stands nothing, neither of the ends nor of the bus.
pub fn nothing_behind_the_registry()
    ensures { NothingBehindTheRegistry }
{}

/// Wherever an entry stands, the registry lives: it never exits, and behind its drop nothing stands.
pub fn the_registry_lives()
    ensures { TheRegistryLives }
{}
