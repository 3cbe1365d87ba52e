//! The calls that a reader makes of its own accord.

use crate::news::PartName;
use atspi_base::Text;
use atspi_base::valid_names::{BusName, Path};

/// A call of the reader's own. One at a time waits for its reply.
#[derive(Drop)]
pub enum Question {
    /// Hello of the bus.
    Hello,
    /// AddMatch of the bus, with this rule.
    AddMatch(Text),
    /// RegisterEvent of the registry, with this pattern.
    RegisterEvent(Text),
    /// GetChildren of the registry's root.
    GetChildren,
    /// GetItems of the application with this name.
    GetItems(BusName),
    /// A part of the row with this path, of the application with this name.
    GetPart(BusName, Path, PartName),
}
