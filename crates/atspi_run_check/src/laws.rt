//! What holds of the texts that are due of an input. The law is the contract of a function without a body, so that it
//! is proved with the crate.

ghost use Rattle.atspi_run_check.specs.Laws.{InputsHaveOneEnd};

/// An input is whole messages, has a first fault, or passes the limit with none inside it: one of these and no other,
/// and the text that is due is one. So a fault inside the limit leaves `check` no status but 6, or those of a failing
/// source, a failing sink and want of memory.
pub fn inputs_have_one_end()
    ensures { InputsHaveOneEnd }
{}
