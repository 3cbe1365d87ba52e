//! The parts of which edits' steps are made.

ghost use Rattle.std.specs.Prelude.{◌≡◌, [], ◌∷◌, IfOk};
ghost use Rattle.atspi_tree_model.specs.Edits.{is_long_name, is_long_text};

use atspi_base::{NoMemory, Text};
use atspi_tree_model::{Step, StepList};
use std::alloc::Global;

/// Whether a name or description has too many bytes.
pub(crate) fn is_long_name(text: &Text) -> bool
    ensures { result ≡ is_long_name text.now }
{
    text.as_str().len() > 511
}

/// Whether so many characters are too many for a text.
pub(crate) fn is_long_text(characters: u64) -> bool
    ensures { result ≡ is_long_text characters }
{
    characters > 1_048_576
}

/// A list of one step.
pub(crate) fn one_step(alloc: Global, step: Step) -> Result<StepList, NoMemory>
    ensures { IfOk result (λ steps. steps ≡ step ∷ []) }
{
    let mut steps = StepList::new(alloc);
    steps.push(step)?;
    Ok(steps)
}
