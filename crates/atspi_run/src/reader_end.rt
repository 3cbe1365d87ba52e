//! The reader's end as a world holds it: its calls are those of `atspi_reader`, and what the traits of a world's ends
//! ask of them is proved here.

mod reader;

pub use reader::StageReader;
