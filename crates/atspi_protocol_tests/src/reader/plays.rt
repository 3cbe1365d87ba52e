//! Whether dialogues go as they are written.

use atspi_protocol_cases::reader::followed;

/// Whether dialogues go as they say; how they went is shown where it is otherwise.
pub(crate) fn go(rt: &HostRuntime, dialogues: &str) -> bool {
    let Some(went) = followed(rt.alloc(), dialogues) else {
        return false;
    };
    let same = went.as_str() == dialogues;
    if !same {
        let _ = eprintln!(rt; "{went}");
    }
    same
}
