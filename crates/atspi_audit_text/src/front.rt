//! Whether a text begins with an event.

ghost use Rattle.std.specs.Prelude.{◌≡◌, ◌++◌, ℕ, List, IfOk, MatchOption};
ghost use Rattle.atspi_audit_text.specs.Told.{told_text};

use crate::told::Told;
use atspi_base::{Bytes, NoMemory};
use atspi_trace_texts::{write_event, write_wire};
use std::alloc::Global;

/// The text of an event and of the bytes behind it.
fn text_of(alloc: Global, told: &Told) -> Result<Bytes, NoMemory>
    ensures { IfOk result (λ text. text ≡ told_text told.now.event told.now.bytes) }
{
    let mut text = Bytes::new(alloc);
    write_event(&told.event, &mut text)?;
    if let Some(bytes) = &told.bytes {
        write_wire(alloc, bytes.as_slice(), &mut text)?;
    }
    Ok(text)
}

/// What follows the event and its bytes, where the text begins with them. None where it does not.
pub fn behind<'a>(alloc: Global, told: &Told, text: &'a [u8]) -> Result<Option<&'a [u8]>, NoMemory>
    ensures { IfOk result
        (λ found. MatchOption found
        ((rest : List ℕ) → text.now ≡ told_text told.now.event told.now.bytes ++ rest → ⊥)
        (λ rest. text.now ≡ told_text told.now.event told.now.bytes ++ rest.now)) }
{
    let own = text_of(alloc, told)?;
    Ok(text.strip_prefix(own.as_slice()))
}
