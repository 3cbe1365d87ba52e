//! Why a path is refused, in plain words.

use std::io::{Error, ErrorKind};

/// Why no listener can be made at a path, or no link to who listens there.
#[derive(Clone, Copy, Debug, PartialEq, Eq)]
pub(crate) enum Refusal {
    /// Somebody listens there.
    Served,
    /// What lies there is no socket.
    Taken,
    /// Nobody listens there.
    Unheard,
    /// The path has more bytes than the system takes.
    Long,
    /// The folder or the file may not be used.
    Forbidden,
    /// There is no such folder, or no such file.
    Missing,
    /// The system has another reason.
    Other,
}

impl Refusal {
    /// What the system says.
    pub(crate) fn of(error: &Error) -> Refusal {
        match error.kind() {
            ErrorKind::ConnectionRefused => Refusal::Unheard,
            ErrorKind::InvalidInput => Refusal::Long,
            ErrorKind::PermissionDenied => Refusal::Forbidden,
            ErrorKind::NotFound => Refusal::Missing,
            _ => Refusal::Other,
        }
    }

    pub(crate) fn words(self) -> &'static str {
        match self {
            Refusal::Served => "it is served already",
            Refusal::Taken => "something else lies there",
            Refusal::Unheard => "nobody listens there",
            Refusal::Long => "the path is too long",
            Refusal::Forbidden => "no permission",
            Refusal::Missing => "there is no such file or folder",
            Refusal::Other => "the system refuses it",
        }
    }
}
