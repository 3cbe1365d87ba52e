//! The lines that ask for a unit.

use atspi_cursors::Way;
use atspi_units::Grain;

/// `unit R A N WAY UNIT`: a reader reads a unit of the text of an application's node, at its cursor there.
#[derive(Clone, Copy, Debug, PartialEq, Eq)]
pub struct UnitLine {
    pub reader: u32,
    pub app: u32,
    pub node: u32,
    pub way: Way,
    /// How coarse the units are.
    pub grain: Grain,
}
