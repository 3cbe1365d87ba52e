//! The lines of a script: what each asks for, how it is spelled, and how bytes are read as one.
#![tactic(auto)]

mod deed;
mod deeds;
mod edits;
mod inserts;
mod laws;
mod limits;
mod line;
mod numbers;
mod parties;
mod quoted;
mod read;
mod shapes;
mod tables;
mod words;

pub use deed::Deed;
pub use laws::lines_have_one_reading;
pub use limits::{APP_COUNT, LINE_LIMIT, PLACE_LIMIT, QUOTA_LEAST, QUOTA_MOST, READER_COUNT};
pub use line::{Line, LineFault, Party};
pub use numbers::read_number;
pub use read::parse_line;
