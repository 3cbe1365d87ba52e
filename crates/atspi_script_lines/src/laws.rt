//! What holds of lines. The law is the contract of a function without a body, so that it is proved with the crate; the
//! crates above cite the same definitions.

ghost use Rattle.atspi_script_lines.specs.Laws.{LinesHaveOneReading};

/// Bytes spell at most one line.
pub fn lines_have_one_reading()
    ensures { LinesHaveOneReading }
{}
