//! Lines of a script: what each asks for, and why bytes are none.

use crate::Deed;
use atspi_base::Text;
use atspi_tree_model::Edit;
use thiserror::Error;

/// A party of a script. Applications and readers are counted from 0 in order of starting.
#[derive(Clone, Copy, Debug, PartialEq, Eq)]
pub enum Party {
    Bus,
    Registry,
    App(u32),
    Reader(u32),
}

/// A line of a script.
#[derive(Drop)]
pub enum Line {
    /// An empty line or a comment.
    Blank,
    /// So many bytes may wait for one connection.
    Quota(u32),
    /// The next application starts, with the name of its root.
    App(Text),
    /// The next reader starts.
    Reader,
    /// An application's tree is edited.
    Edit {
        app: u32,
        edit: Edit,
    },
    /// A reader sends a call to a node of an application.
    Call {
        reader: u32,
        app: u32,
        node: u32,
        deed: Deed,
    },
    /// An application's texts go into the next spare face.
    Swap(u32),
    /// An application stops.
    Exit(u32),
    /// A reader stops.
    Leave(u32),
    /// At most so many waiting bytes of a party's link are moved: of that to the bus (`up`), or of that from it.
    Bytes {
        party: Party,
        up: bool,
        count: u32,
    },
    /// So many turns at most.
    Turns(u32),
    /// Turns until nothing waits.
    Drain,
    /// A reader shows its view of an application.
    Show {
        reader: u32,
        app: u32,
    },
}

/// Why bytes are no line. The first reason that holds is told.
#[derive(Clone, Copy, Debug, PartialEq, Eq, Error)]
pub enum LineFault {
    #[error("too many bytes for a line")]
    Long,
    #[error("no UTF-8")]
    NotUtf8,
    #[error("no line of a script")]
    Form,
    #[error("out of memory")]
    NoMemory,
}
