//! Why a connection is closed by the bus, and when.

/// Why the bus closes a connection.
#[derive(Clone, Copy, Debug, PartialEq, Eq)]
pub enum Why {
    /// Its first message was no call of Hello.
    NotHello,
    /// A message was to go to it that its queue has no room for: so many bytes waited in it, and so many has the
    /// message.
    Quota { queued: u32, len: u32 },
}

/// A connection that the bus closed.
#[derive(Clone, Copy, Debug, PartialEq, Eq)]
pub struct Closing {
    /// The connection's number.
    pub conn: u32,
    pub why: Why,
    /// The serial of the last of the bus's own messages before those that tell of this closing, 0 where there is none.
    pub after: u32,
}
