//! What happens in a world: the events of its trace.

use crate::shown::Shown;
use atspi_base::Text;
use atspi_base::valid_names::BusName;
use atspi_message::Message;
use atspi_script_lines::Party;
use atspi_tree_model::Step;

/// What happened. Applications and readers are counted from 0 in order of starting.
#[derive(Drop)]
pub enum Event {
    /// An end was started, an application with the name of its root.
    Start {
        who: Party,
        name: Option<Text>,
    },
    /// An application's tree changed.
    Step {
        app: u32,
        step: Step,
    },
    /// A message was sent.
    Sent {
        who: Party,
        message: Message,
    },
    /// The sender's message with this serial was taken.
    Got {
        taker: Party,
        sender: Party,
        serial: u32,
    },
    /// An application heard that a reader listens to the events of a pattern.
    Hears {
        app: u32,
        listener: BusName,
        pattern: Text,
    },
    /// An application heard that a reader listens to them no longer.
    Deaf {
        app: u32,
        listener: BusName,
        pattern: Text,
    },
    /// A reader spoke a line.
    Say {
        reader: u32,
        app: u32,
        text: Text,
    },
    /// A reader showed what it holds of an application, or that it holds nothing.
    Show {
        reader: u32,
        app: u32,
        rows: Option<Shown>,
    },
    /// An end stopped.
    Exit {
        who: Party,
    },
    /// A reader took the news that an application is gone.
    Gone {
        reader: u32,
        app: u32,
    },
    /// An end was dropped: so many bytes waited for it, and a message of so many more was too much.
    Dropped {
        who: Party,
        queued: u32,
        len: u32,
    },
    /// So many turns were made, and something waits.
    Busy(u32),
    /// Nothing waits.
    Quiet,
}
