//! Whether a conversation goes as it is written.

use atspi_base::Bytes;
use atspi_protocol_cases::registry::{played, played_named};
use std::test::*;

/// Whether a conversation is the script; it is shown where it is another.
fn is_script(rt: &HostRuntime, said: Option<Bytes>, script: &str) -> bool {
    let Some(said) = said else {
        return false;
    };
    let same = said.as_slice() == script.as_bytes();
    if !same {
        let text = std::str::from_utf8(said.as_slice()).unwrap_or("no text");
        let _ = eprintln!(rt; "{text}");
    }
    same
}

/// Whether a new registry says what stands in a script.
pub(crate) fn goes(rt: &HostRuntime, script: &str) -> bool {
    is_script(rt, played(rt.alloc(), script), script)
}

/// The same of a registry that has its name `:1.0`, whose next message has number 4.
pub(crate) fn goes_on(rt: &HostRuntime, script: &str) -> bool {
    is_script(rt, played_named(rt.alloc(), script), script)
}
