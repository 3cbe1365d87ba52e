//! Copies of text selections.

ghost use Rattle.std.specs.Prelude.{◌≡◌, ◌<◌, length, IfOk, OnErr};

use atspi_base::{Marks, NoMemory};
use std::alloc::Global;

/// An equal list, which takes no memory where it is empty.
pub fn copy_marks(alloc: Global, marks: &Marks) -> Result<Marks, NoMemory>
    ensures ok { IfOk result (λ copy. copy ≡ marks.now) }
    ensures cause { OnErr result (0 < length marks.now) }
{
    if marks.len() == 0 {
        return Ok(Marks::new(alloc));
    }
    marks.copy(alloc)
}
