//! Reading the texts that a reader holds by character, word and line: the lines of a script that ask for it, what they
//! write, and where each reader stands in each text, whatever happens.
#![tactic(auto)]

mod changes;
pub mod examples;
mod line;
mod places;
mod reading;
mod telling;
mod words;

pub use line::UnitLine;
pub use places::Places;
pub use reading::read_unit_line;
pub use telling::write_unit;
